//! The signs, names, numbers and texts of an operand.

ghost use Rattle.std.specs.Prelude.{◌≡◌, ◌≤◌, ◌∷◌, codes, IfOk, IfSome, IfNone, Some, None};
ghost use Rattle.a2_text.specs.Bytes.{is_among, is_digit};
ghost use Rattle.a2_text.specs.Words.{after_blanks as blanks_skipped};
ghost use Rattle.a2_expand.specs.Larger.{is_run_byte as run_byte};
ghost use Rattle.a2_expand.specs.Expressions.{other, piece, pieces};
ghost use Rattle.a2_expand.specs.Pieces.{after_signs, character as code_of_character, ends_term as piece_ends_term, first_piece, following, front, is_pair as are_pair, label_sign, marked, numeral, piece_from, pieces_of, quoted, quoted_from, run_from, run_piece, sign_from};

use crate::larger::is_run_byte;
use a2_text::{after_blanks, front_len, number_in};
use std::alloc::{AllocError, Allocator};

/// A piece of an operand.
#[derive(Clone, Copy)]
pub(crate) enum Token<'a> {
    Number(u16),
    Name(&'a [u8]),
    /// A local label, with its dot.
    Local(&'a [u8]),
    /// An anonymous label, as `:+`.
    Anonymous(&'a [u8]),
    /// `*` where a term is expected: the address of the line.
    Here,
    /// A text that is not one character, with its quotes.
    Text(&'a [u8]),
    Sign(u8),
    /// Two signs that belong together, as `<<`.
    Pair(u8, u8),
    /// Something else.
    Strange(&'a [u8]),
}

impl<'a> Token<'a> {
    /// Whether a term ends with this token.
    pub(crate) fn ends_term(&self) -> bool
        ensures { result ≡ piece_ends_term (piece self.now) }
    {
        match self {
            Token::Sign(c) => *c == b')',
            Token::Pair(_, _) => false,
            _ => true,
        }
    }
}

// Cuts a text after at most `count` bytes.
fn cut_at(text: &[u8], count: usize) -> (&[u8], &[u8]) {
    text.split_at(count.min(text.len()))
}

// The number of a run of digits after its mark, or a strange token.
fn number_token<'a>(base: u32, most: usize, digits: &[u8], text: &'a [u8]) -> Token<'a>
    requires low { 1 ≤ base }
    requires high { base ≤ 16 }
    ensures { piece result ≡ numeral base most digits.now }
{
    match number_in(base, most, digits) {
        Some(n) => Token::Number(n),
        None => Token::Strange(text),
    }
}

// The code of a character in quotes: bit 7 is set in double quotes.
fn character(quote: u8, c: u8) -> u16
    ensures { result ≡ code_of_character quote c }
{
    if quote == b'"' && c < 128 {
        u16::from(c) + 128
    } else {
        u16::from(c)
    }
}

// The code of one character in quotes, or the text. `text` is with the quotes.
fn text_token<'a>(quote: u8, characters: &[u8], text: &'a [u8]) -> Token<'a>
    ensures { piece result ≡ quoted quote characters.now }
{
    match characters {
        [c] => Token::Number(character(quote, *c)),
        _ => Token::Text(text),
    }
}

// The token of a quoted text, and the rest. `inner` is the text after the quote.
fn split_text<'a>(quote: u8, text: &'a [u8], inner: &'a [u8]) -> (Token<'a>, &'a [u8])
    ensures { (piece result.0, result.1.now) ≡ quoted_from quote inner.now }
{
    let (characters, following) = inner.split_at(front_len(inner, |c| c != quote));
    match following {
        [] => (Token::Strange(text), b""),
        [_, rest @ ..] => {
            let (whole, _) = cut_at(text, characters.len().saturating_add(2));
            (text_token(quote, characters, whole), rest)
        }
    }
}

// Divides a text after the run of name bytes at its front.
fn split_name(text: &[u8]) -> (&[u8], &[u8])
    ensures run { result.0.now ≡ front run_byte text.now }
    ensures rest { result.1.now ≡ following run_byte text.now }
{
    text.split_at(front_len(text, |c| is_run_byte(c)))
}

// Whether a byte is a digit.
fn is_digit_byte(c: u8) -> bool
    ensures { result ≡ is_digit c }
{
    matches!(c, b'0'..=b'9')
}

// The token of a run of name bytes. `text` begins with it and is not empty.
fn run_token<'a>(first: u8, run: &'a [u8], text: &'a [u8]) -> Token<'a>
    ensures { piece result ≡ run_piece first run.now }
{
    if is_digit_byte(first) {
        return number_token(10, 5, run, run);
    }
    if is_run_byte(first) {
        return Token::Name(run);
    }
    let (strange, _) = cut_at(text, 1);
    Token::Strange(strange)
}

// The token of a run of name bytes, and the rest. `rest` is the text after its first byte.
fn split_run<'a>(first: u8, text: &'a [u8], rest: &'a [u8]) -> (Token<'a>, &'a [u8])
    ensures { (piece result.0, result.1.now) ≡ run_from first text.now rest.now }
{
    let (run, following) = split_name(text);
    let token = run_token(first, run, text);
    if is_run_byte(first) {
        (token, following)
    } else {
        (token, rest)
    }
}

// The token of a mark and the run after it.
fn marked_token<'a>(mark: u8, run: &[u8], text: &'a [u8]) -> Token<'a>
    ensures { piece result ≡ marked mark run.now }
{
    match mark {
        b'$' => number_token(16, 4, run, text),
        b'%' => number_token(2, 16, run, text),
        b'.' if !run.is_empty() => Token::Local(text),
        _ => Token::Strange(text),
    }
}

// The token of a mark and the run after it, and the rest. `rest` is the text after the mark.
fn split_marked<'a>(mark: u8, text: &'a [u8], rest: &'a [u8]) -> (Token<'a>, &'a [u8])
    ensures token { piece result.0 ≡ marked mark (front run_byte rest.now) }
    ensures rest { result.1.now ≡ following run_byte rest.now }
{
    let (run, following) = split_name(rest);
    let (whole, _) = cut_at(text, run.len().saturating_add(1));
    (marked_token(mark, run, whole), following)
}

// The sign of an anonymous label whose signs are at the front of a text.
fn sign_in_label(text: &[u8]) -> u8
    ensures { result ≡ label_sign text.now }
{
    match text {
        [] => b'-',
        [first, ..] => if *first == b'+' { b'+' } else { b'-' },
    }
}

// Divides a text after the signs of an anonymous label at its front.
fn split_signs(text: &[u8]) -> (&[u8], &[u8])
    ensures { result.1.now ≡ after_signs text.now }
{
    let sign = sign_in_label(text);
    text.split_at(front_len(text, |c| c == sign))
}

// The token of an anonymous label, and the rest. `rest` is the text after the colon.
fn split_anonymous<'a>(text: &'a [u8], rest: &'a [u8]) -> (Token<'a>, &'a [u8])
    ensures token { piece result.0 ≡ other }
    ensures rest { result.1.now ≡ after_signs rest.now }
{
    let (signs, following) = split_signs(rest);
    let (whole, _) = cut_at(text, signs.len().saturating_add(1));
    if signs.is_empty() {
        (Token::Strange(whole), following)
    } else {
        (Token::Anonymous(whole), following)
    }
}

// Whether two signs belong together.
fn is_pair(first: u8, second: u8) -> bool
    ensures { result ≡ are_pair first second }
{
    match first {
        b'<' => matches!(second, b'<' | b'>' | b'='),
        b'>' => matches!(second, b'>' | b'='),
        _ => false,
    }
}

// The token of one or two signs, and the rest. `rest` is the text after the first.
fn split_sign<'a>(first: u8, rest: &'a [u8]) -> (Token<'a>, &'a [u8])
    ensures { (piece result.0, result.1.now) ≡ sign_from first rest.now }
{
    match rest {
        [second, more @ ..] if is_pair(first, *second) => (Token::Pair(first, *second), more),
        _ => (Token::Sign(first), rest),
    }
}

// Whether a byte is a sign.
fn is_sign_byte(c: u8) -> bool
    ensures { result ≡ is_among (codes "#()+-*/&|^~<>,=") c }
{
    matches!(
        c,
        b'#' | b'('
            | b')'
            | b'+'
            | b'-'
            | b'*'
            | b'/'
            | b'&'
            | b'|'
            | b'^'
            | b'~'
            | b'<'
            | b'>'
            | b','
            | b'='
    )
}

// The first token of a text, and the rest. `rest` is the text after its first byte.
fn split_first<'a>(
    first: u8,
    text: &'a [u8],
    rest: &'a [u8],
    after_term: bool,
) -> (Token<'a>, &'a [u8])
    requires { text.now ≡ first ∷ rest.now }
    ensures { (piece result.0, result.1.now) ≡ piece_from after_term first rest.now }
{
    match first {
        b'*' if !after_term => (Token::Here, rest),
        b'%' if after_term => (Token::Sign(first), rest),
        b'$' | b'%' | b'.' => split_marked(first, text, rest),
        b':' => split_anonymous(text, rest),
        b'\'' | b'"' => split_text(first, text, rest),
        _ if is_sign_byte(first) => split_sign(first, rest),
        _ => split_run(first, text, rest),
    }
}

/// Returns the first token of a text that does not begin with a blank, and the text after it, or `None` if only a comment is left.
/// `after_term` says that a term is before it.
pub(crate) fn split_token(text: &[u8], after_term: bool) -> Option<(Token<'_>, &[u8])>
    ensures some { IfSome result (λ found. first_piece after_term text.now ≡ Some (piece found.0, found.1.now)) }
    ensures none { IfNone result (first_piece after_term text.now ≡ None) }
{
    match text {
        [] => None,
        [b';', ..] => None,
        [first, rest @ ..] => Some(split_first(*first, text, rest, after_term)),
    }
}

/// A token and its place.
#[derive(Clone, Copy)]
pub(crate) struct Placed<'a> {
    pub token: Token<'a>,
    /// The bytes of the token.
    pub text: &'a [u8],
    /// How many bytes of the operand are before it.
    pub at: usize,
}

// Returns a token with its place in an operand. `rest` begins with it, and `following` is the text after it.
fn placed_token<'a>(
    token: Token<'a>,
    operand: &[u8],
    rest: &'a [u8],
    following: &[u8],
) -> Placed<'a>
    ensures { result.token ≡ token.entry }
{
    let (text, _) = cut_at(rest, rest.len().saturating_sub(following.len()));
    Placed {
        token,
        text,
        at: operand.len().saturating_sub(rest.len()),
    }
}

// Returns the first token of the rest of an operand, and what follows it, or `None` if only blanks or a comment are left.
fn next_token<'a>(
    operand: &[u8],
    rest: &'a [u8],
    after_term: bool,
) -> Option<(Placed<'a>, &'a [u8])>
    ensures some { IfSome result (λ found. first_piece after_term (blanks_skipped rest.now) ≡ Some (piece found.0.token, found.1.now)) }
    ensures none { IfNone result (first_piece after_term (blanks_skipped rest.now) ≡ None) }
{
    let rest = after_blanks(rest);
    match split_token(rest, after_term) {
        Some((token, following)) => Some((
            placed_token(token, operand, rest, following),
            following,
        )),
        None => None,
    }
}

/// Returns the tokens of an operand.
pub(crate) fn tokens_of<'t, A: Allocator>(
    alloc: A,
    text: &'t [u8],
) -> Result<Vec<Placed<'t>, A>, AllocError>
    ensures { IfOk result (λ found. pieces found.items ≡ pieces_of text.now) }
{
    let mut found = Vec::new(alloc);
    let mut rest = text;
    let mut after_term = false;
    for count in 0..text.len() {
        let Some((placed, following)) = next_token(text, rest, after_term) else {
            break;
        };
        found.push(placed)?;
        after_term = placed.token.ends_term();
        rest = following;
    }
    Ok(found)
}
