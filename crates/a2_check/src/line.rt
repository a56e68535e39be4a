//! Splits a line into the parts that its author meant, whether or not the line is in the grammar.

ghost use Rattle.std.specs.Prelude.{◌≤◌, length};

use a2_text::{after_blanks, first_word, front_len, is_blank};

/// The parts of a line. Indexes count from 0.
#[derive(Clone, Copy)]
pub(crate) struct Parts<'a> {
    /// The text from column 1 up to a blank or a comment.
    pub label: &'a [u8],
    /// The word after the label.
    pub operation: &'a [u8],
    /// The index where the operation begins.
    pub operation_at: usize,
    /// The text after the operation, without a comment and trailing blanks.
    pub operand: &'a [u8],
    /// The index where the operand begins.
    pub operand_at: usize,
}

impl<'a> Parts<'a> {
    /// Returns the expression of the operand as written.
    pub(crate) fn expression(self) -> &'a [u8] {
        let rest = match self.operand {
            [b'#' | b'(', rest @ ..] => rest,
            rest => rest,
        };
        before(before(rest, b','), b')')
    }
}

// Returns the length of the operand at the front of a text. It ends before a `;` outside quotes; trailing blanks are left out.
fn operand_len(text: &[u8]) -> usize
    ensures { result ≤ length text.now }
{
    let mut quote: Option<u8> = None;
    let mut end = 0;
    for (i, c) in text.iter().enumerate() {
        if quote.is_none() && *c == b';' {
            return end;
        }
        quote = quote_following(quote, *c);
        if !is_blank(*c) {
            end = i + 1;
        }
    }
    end
}

// Returns the quote that is open after a character.
fn quote_following(open: Option<u8>, c: u8) -> Option<u8> {
    match open {
        None if c == b'"' || c == b'\'' => Some(c),
        Some(quote) if c == quote => None,
        _ => open,
    }
}

/// Returns how many bytes at the front of a text are in a set, or, if `inside` is false, how many are not.
pub(crate) fn run_len(text: &[u8], set: &[u8], inside: bool) -> usize
    ensures { result ≤ length text.now }
{
    front_len(text, |c| set.contains(&c) == inside)
}

// Splits a text after its first word, which ends at a blank or a comment.
fn word_and_rest(text: &[u8]) -> (&[u8], &[u8]) {
    text.split_at(run_len(text, b" \t;", false))
}

/// Splits a line into its parts.
pub(crate) fn parts_of(text: &[u8]) -> Parts<'_> {
    let (label, rest) = word_and_rest(text);
    let here = after_blanks(rest);
    let (operation, rest) = word_and_rest(here);
    let there = after_blanks(rest);
    Parts {
        label,
        operation,
        operation_at: text.len().saturating_sub(here.len()),
        operand: &there[..operand_len(there)],
        operand_at: text.len().saturating_sub(there.len()),
    }
}

/// Returns the text before the first such byte, or the whole text if the byte does not occur.
pub(crate) fn before(text: &[u8], byte: u8) -> &[u8] {
    let (front, _) = text.split_at(run_len(text, &[byte], false));
    front
}

/// Splits a text after the hexadecimal digits at its front.
pub(crate) fn hex_and_rest(text: &[u8]) -> (&[u8], &[u8]) {
    text.split_at(run_len(text, b"0123456789ABCDEFabcdef", true))
}

/// Whether a word is one of `words`, in upper or lower case. The words are separated by blanks.
pub(crate) fn is_among(word: &[u8], words: &[u8]) -> bool {
    let mut rest = words;
    while let Some((first, following)) = first_word(rest) {
        if word.eq_ignore_ascii_case(first) {
            return true;
        }
        rest = following;
    }
    false
}

/// Returns the number of the line at an index. A source has at most 4,096 lines.
pub(crate) fn number_of(index: usize) -> u16 {
    u16::try_from(index).unwrap_or(0).saturating_add(1)
}
