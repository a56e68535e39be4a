//! Splits a line of a promise into words and signs.

ghost use Rattle.std.specs.Prelude.{◌≡◌, ℕ, List, take, drop, [], ◌∷◌, IfSome, MatchOption};
ghost use Rattle.a2_text.specs.Bytes as byte;
ghost use Rattle.a2_text.specs.Bytes.{value_of_digits};
ghost use Rattle.a2_text.specs.Words.{after_blanks as after_blanks_of};
ghost use Rattle.a2_syntax.specs.Names.{is_name_byte};
ghost use Rattle.a2_syntax.specs.Numbers.{is_quotable};
ghost use Rattle.a2_promise.specs.Tokens as tokens;
ghost use Rattle.a2_promise.specs.Tokens.{sign, quoted, token_from};
ghost use Rattle.a2_promise.specs.Reading.{IsWritten, is_named, token_of, up_to as up_to_of, with_rest};

use a2_text::{after_blanks, front_len, number_in};

/// The kind of a token.
#[derive(Clone, Copy, PartialEq)]
pub(crate) enum Class {
    End,
    /// Letters, digits and `_`, beginning with a letter.
    Word,
    /// Decimal digits.
    Decimal,
    /// Hexadecimal digits, without the `$` before them.
    Place,
    /// A text, without the `'` around it.
    Single,
    /// A text, without the `"` around it.
    Double,
    /// One sign, or two that form one token.
    Sign,
}

/// The next token of a line.
#[derive(Clone, Copy)]
pub(crate) struct Token<'a> {
    pub class: Class,
    pub text: &'a [u8],
}

impl<'a> Token<'a> {
    /// Returns whether the token is this word or sign.
    pub fn is(self, text: &[u8]) -> bool
        ensures { result ≡ is_named self.entry.class self.entry.text.now text.now }
    {
        match self.class {
            Class::Word | Class::Sign => self.text == text,
            _ => false,
        }
    }
}

// Returns whether a byte is a letter.
fn is_letter(c: u8) -> bool
    ensures { result ≡ tokens.is_letter c }
{
    matches!(c, b'a'..=b'z' | b'A'..=b'Z')
}

// Returns whether a byte is a decimal digit.
fn is_digit(c: u8) -> bool
    ensures { result ≡ byte.is_digit c }
{
    matches!(c, b'0'..=b'9')
}

// Returns whether a byte is a hexadecimal digit.
fn is_hex_digit(c: u8) -> bool
    ensures { result ≡ byte.is_hex_digit c }
{
    matches!(c, b'0'..=b'9' | b'a'..=b'f' | b'A'..=b'F')
}

// Returns whether a byte may appear in a word.
fn is_word_byte(c: u8) -> bool
    ensures { result ≡ is_name_byte c }
{
    matches!(c, b'a'..=b'z' | b'A'..=b'Z' | b'0'..=b'9' | b'_')
}

// Returns whether a byte may appear between quotes of this kind.
fn may_stand(quote: u8, c: u8) -> bool
    ensures { result ≡ is_quotable quote c }
{
    matches!(c, 0x20..=0x7E) && c != quote
}

// Returns whether two signs form one token.
fn is_double(c: u8, d: u8) -> bool
    ensures { result ≡ tokens.is_double c d }
{
    matches!((c, d), (b'<', b'=' | b'>') | (b'>', b'=') | (b'.', b'.'))
}

// Splits a text at the next quote of this kind into the characters before it and the text after it. There must be at
// least one character.
fn up_to(quote: u8, text: &[u8]) -> Option<(&[u8], &[u8])>
    ensures { MatchOption result (up_to_of quote text.now ≡ (sign (quote ∷ []), text.now))
        (λ (front, following). up_to_of quote text.now ≡ (quoted quote front.now, following.now)) }
{
    let (front, rest) = text.split_at(front_len(text, |c| may_stand(quote, c)));
    match rest {
        [c, following @ ..] if *c == quote && !front.is_empty() => Some((front, following)),
        _ => None,
    }
}

// Returns the length of the sign at the start of a text.
fn sign_length(text: &[u8]) -> usize
    ensures { (c : ℕ) (rest : List ℕ) → text.now ≡ c ∷ rest
        → tokens.sign_from c rest ≡ (sign (take result text.now), drop result text.now) }
{
    match text {
        [c, d, ..] => { if is_double(*c, *d) { 2 } else { 1 } }
        _ => 1,
    }
}

// Returns the first `count` bytes of a text as one token, and the text after them.
fn cut_off(class: Class, text: &[u8], count: usize) -> (Token<'_>, &[u8])
    ensures class { result.0.class ≡ class }
    ensures front { result.0.text.now ≡ take count text.now }
    ensures following { result.1.now ≡ drop count text.now }
{
    let (front, following) = text.split_at(count.min(text.len()));
    (Token { class, text: front }, following)
}

/// Returns the next token of a line, and the text after it.
pub(crate) fn token_in(line: &[u8]) -> (Token<'_>, &[u8])
    ensures found { with_rest (token_of result.0.class result.0.text.now) result.1.now ≡ token_from (after_blanks_of line.now) }
    ensures written { IsWritten result.0.class result.0.text.now }
{
    let here = after_blanks(line);
    match here {
        [] => cut_off(Class::End, here, 0),
        [b'$', digits @ ..] => cut_off(Class::Place, digits, front_len(digits, is_hex_digit)),
        [b'\'', rest @ ..] => match up_to(b'\'', rest) {
            Some((text, following)) => (
                Token {
                    class: Class::Single,
                    text,
                },
                following,
            ),
            None => cut_off(Class::Sign, here, 1),
        },
        [b'"', rest @ ..] => match up_to(b'"', rest) {
            Some((text, following)) => (
                Token {
                    class: Class::Double,
                    text,
                },
                following,
            ),
            None => cut_off(Class::Sign, here, 1),
        },
        [c, ..] if is_digit(*c) => cut_off(Class::Decimal, here, front_len(here, is_digit)),
        [c, ..] if is_letter(*c) => cut_off(Class::Word, here, front_len(here, is_word_byte)),
        _ => cut_off(Class::Sign, here, sign_length(here)),
    }
}

/// Returns the value of decimal digits, or `None` if it is above 4,294,967,295.
pub(crate) fn decimal_of(digits: &[u8]) -> Option<u32>
    ensures { IfSome result (λ number. value_of_digits 10 digits.now ≡ number) }
{
    let mut number: u32 = 0;
    for digit in digits {
        if !is_digit(*digit) {
            return None;
        }
        number = number
            .checked_mul(10)?
            .checked_add(u32::from(*digit - b'0'))?;
    }
    Some(number)
}

/// Returns the address that one to four hexadecimal digits spell.
pub(crate) fn address_of(digits: &[u8]) -> Option<u16>
    ensures { result ≡ byte.number_in 16 4 digits.now }
{
    number_in(16, 4, digits)
}
