//! The words and signs of a line, as checks of promises and the reader of written expressions see them.

ghost use Rattle.std.specs.Prelude.{◌≤◌, length};

use a2_text::{after_blanks, front_len};

/// A word or sign of a line.
#[derive(Clone, Copy)]
pub(crate) enum Piece<'a> {
    /// Letters, digits and `_`, beginning with a letter.
    Word(&'a [u8]),
    /// Decimal digits.
    Decimal(&'a [u8]),
    /// Hexadecimal digits, without the `$` before them.
    Place(&'a [u8]),
    /// A text in quotes: the quote, and the text.
    Quoted(u8, &'a [u8]),
    /// A sign, and the second character of it, or 0.
    Sign(u8, u8),
}

/// Returns the number of letters, digits and `_` at the beginning of a text.
pub(crate) fn word_length(text: &[u8]) -> usize
    ensures { result ≤ length text.now }
{
    front_len(
        text,
        |c| matches!(c, b'a'..=b'z' | b'A'..=b'Z' | b'0'..=b'9' | b'_'),
    )
}

/// Returns the first word of a promise's line, without blanks before it, and the text after it.
pub(crate) fn verb_in(text: &[u8]) -> (&[u8], &[u8]) {
    let said = after_blanks(text);
    said.split_at(word_length(said))
}

/// Splits a text at the next quote of this kind into the text before it and the text after it, or returns `None` if
/// there is no such quote.
pub(crate) fn up_to_quote(quote: u8, text: &[u8]) -> Option<(&[u8], &[u8])> {
    let (front, rest) = text.split_at(front_len(text, |c| c != quote));
    match rest {
        [_, following @ ..] => Some((front, following)),
        [] => None,
    }
}

// Returns the piece that begins with a quote, and the text after it.
fn quoted_piece(quote: u8, following: &[u8]) -> (Piece<'_>, &[u8]) {
    match up_to_quote(quote, following) {
        Some((front, rest)) => (Piece::Quoted(quote, front), rest),
        None => (Piece::Sign(quote, 0), following),
    }
}

// Returns the sign that begins with a character, and the text after it.
fn sign_piece(c: u8, following: &[u8]) -> (Piece<'_>, &[u8]) {
    match (c, following) {
        (b'<', [d, rest @ ..]) if *d == b'=' || *d == b'>' => (Piece::Sign(c, *d), rest),
        (b'>', [d, rest @ ..]) if *d == b'=' => (Piece::Sign(c, *d), rest),
        (b'.', [d, rest @ ..]) if *d == b'.' => (Piece::Sign(c, *d), rest),
        _ => (Piece::Sign(c, 0), following),
    }
}

/// Returns the first piece of a text, after blanks, and the text after it. Returns `None` at the end.
pub(crate) fn piece_in(text: &[u8]) -> Option<(Piece<'_>, &[u8])> {
    match after_blanks(text) {
        [] => None,
        [b'$', digits @ ..] => {
            let (place, rest) = digits.split_at(front_len(
                digits,
                |c| matches!(c, b'0'..=b'9' | b'a'..=b'f' | b'A'..=b'F'),
            ));
            Some((Piece::Place(place), rest))
        }
        [quote, following @ ..] if *quote == b'\'' || *quote == b'"' => {
            Some(quoted_piece(*quote, following))
        }
        here => Some(plain_piece(here)),
    }
}

// Returns the first word, decimal number or sign of a text that does not begin with a blank, and the text after it.
fn plain_piece(here: &[u8]) -> (Piece<'_>, &[u8]) {
    let (digits, rest) = here.split_at(front_len(here, |c| matches!(c, b'0'..=b'9')));
    if !digits.is_empty() {
        return (Piece::Decimal(digits), rest);
    }
    let (word, rest) = here.split_at(word_length(here));
    match (word, here) {
        ([], [c, following @ ..]) => sign_piece(*c, following),
        _ => (Piece::Word(word), rest),
    }
}
