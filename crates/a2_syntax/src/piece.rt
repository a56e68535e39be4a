//! Splits a text into its pieces (tokens): signs, names, numbers and quoted texts.

ghost use Rattle.std.specs.Prelude.{◌≡◌, ◌+◌, ◌≤◌, ℕ, List, true, false, take, drop, map, length, IfOk};
ghost use Rattle.a2_syntax.specs.Numbers as numbers;
ghost use Rattle.a2_syntax.specs.Pieces.{is_over, is_gap, Spells};
ghost use Rattle.a2_syntax.specs.Reading as reading;

use crate::word::in_name;
use a2_text::{after_blanks, front_len, is_blank};
use std::alloc::{AllocError, Allocator};

// Returns the number of name bytes at the start of a text.
fn run_len(text: &[u8]) -> usize
    ensures is { result ≡ reading.run_len text.now }
    ensures within { result ≤ length text.now }
{
    front_len(text, |c| in_name(c))
}

// Returns whether a byte is a quote.
pub(crate) fn is_quote(c: u8) -> bool
    ensures { result ≡ numbers.is_quote c }
{
    c == b'\'' || c == b'"'
}

// Returns whether a character may appear between quotes of this kind.
pub(crate) fn is_quotable(quote: u8, c: u8) -> bool
    ensures { result ≡ numbers.is_quotable quote c }
{
    c >= 32 && c <= 126 && c != quote
}

// Returns the length of a quoted text, given what follows the opening quote. Returns 0 if there is no quoted text.
fn quoted_len(quote: u8, text: &[u8]) -> usize
    requires { length text.now ≤ 65536 }
    ensures is { result ≡ reading.quoted_len quote text.now }
    ensures within { result ≤ length text.now + 1 }
{
    let n = front_len(text, |c| is_quotable(quote, c));
    if text.get(n) == Some(&quote) {
        n + 2
    } else {
        0
    }
}

// Splits a text after the name bytes at its start.
pub(crate) fn split_name_bytes(text: &[u8]) -> (&[u8], &[u8])
    ensures word { result.0.now ≡ take (reading.run_len text.now) text.now }
    ensures rest { result.1.now ≡ drop (reading.run_len text.now) text.now }
{
    text.split_at(run_len(text))
}

// Returns whether the text is empty or a comment.
pub(crate) fn is_over(text: &[u8]) -> bool
    ensures { result ≡ is_over text.now }
{
    matches!(text, [] | [b';', ..])
}

// Returns whether the text is empty or starts with a space or a comment.
pub(crate) fn is_gap(text: &[u8]) -> bool
    ensures { result ≡ is_gap text.now }
{
    match text.split_first() {
        None => true,
        Some((first, _)) => is_blank(*first) || *first == b';',
    }
}

// Returns the length of the first piece, or 0 if the text does not start with a piece.
fn piece_len(text: &[u8]) -> usize
    requires { length text.now ≤ 65536 }
    ensures is { result ≡ reading.piece_len text.now }
    ensures within { result ≤ length text.now }
{
    match text {
        [] => 0,
        [
            b'#' | b',' | b'(' | b')' | b'<' | b'>' | b'+' | b'-' | b'*',
            ..
        ] => 1,
        // `$` and `%` mark a number's base. They are a piece only together with a following run of name bytes.
        [b'$' | b'%', others @ ..] => match run_len(others) {
            0 => 0,
            n => 1 + n,
        },
        [quote, others @ ..] if is_quote(*quote) => quoted_len(*quote, others),
        _ => run_len(text),
    }
}

// Replaces the contents of `found` by the pieces of a text. Returns false if the text cannot be split into pieces.
pub(crate) fn pieces<'a, A: Allocator>(
    text: &'a [u8],
    found: &mut Vec<&'a [u8], A>,
) -> Result<bool, AllocError>
    requires { length text.now ≤ 65536 }
    ensures read { IfOk result (λ is. is ≡ true → Spells text.now (map (λ x. x.now) found.new.items)) }
    ensures none { IfOk result (λ is. is ≡ false → (pieces : List (List ℕ)) → Spells text.now pieces → ⊥) }
    ensures few { IfOk result (λ is. is ≡ true → length found.new.items ≤ length text.now) }
{
    found.clear();
    // A piece has at least one byte.
    found.reserve(text.len())?;
    let mut rest = text;
    'pieces: loop {
        let here = after_blanks(rest);
        if is_over(here) {
            return Ok(true);
        }
        let n = piece_len(here);
        if n == 0 {
            return Ok(false);
        }
        found.push_reserved(&here[..n]);
        rest = &here[n..];
    }
}
