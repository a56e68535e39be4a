//! Detecting the kind of an old text.

use crate::dialect::{Dialect, Old};
use crate::print::{after_printed, is_bytes, is_row};
use crate::rules::{dialect_of_strong_word, dialect_of_word};
use a2_text::{after_blanks, cut, first_word, split_word};
use std::alloc::{AllocError, Allocator};

// The first two words of the source in a line, or of nothing if it is a comment.
fn words_of(line: &[u8]) -> (&[u8], &[u8]) {
    let source = after_printed(line).unwrap_or(line);
    // A printed address, such as A004:, is no label.
    if source.starts_with(b"*") || source.starts_with(b";") || is_bytes(source) {
        return (b"", b"");
    }
    let (word, rest) = split_word(source);
    let (next, _) = split_word(rest);
    (word, next)
}

// The assembler to which one of the first two words of a line belongs.
fn dialect_of_line(line: &[u8]) -> Option<Dialect> {
    let (word, next) = words_of(line);
    dialect_of_word(word).or(dialect_of_word(next))
}

// The assembler to which one of the first two words of a line belongs, if that decides wherever the line is.
fn strong_dialect_of_line(line: &[u8]) -> Option<Dialect> {
    let (word, next) = words_of(line);
    dialect_of_strong_word(word).or(dialect_of_strong_word(next))
}

// Whether a line sets the address by `*=`.
fn sets_address(line: &[u8]) -> bool {
    match after_blanks(line) {
        [b'*', rest @ ..] => after_blanks(rest).starts_with(b"="),
        _ => false,
    }
}

// Whether the first line that is not blank belongs to a listing of the Monitor.
fn is_listing(lines: &[&[u8]]) -> bool {
    for line in lines {
        if first_word(line).is_some() {
            return is_row(line);
        }
    }
    false
}

// The assembler of a text, by its words.
fn dialect_of(lines: &[&[u8]]) -> Dialect {
    for line in lines {
        if let Some(dialect) = strong_dialect_of_line(line) {
            return dialect;
        }
    }
    let mut is_set = false;
    for line in lines {
        is_set = is_set || sets_address(line);
    }
    if is_set {
        return Dialect::Tass;
    }
    for line in lines {
        if let Some(dialect) = dialect_of_line(line) {
            return dialect;
        }
    }
    Dialect::Merlin
}

// The kind of a text with these lines.
fn kind_of_lines(lines: &[&[u8]]) -> Old {
    if is_listing(lines) {
        return Old::Listing;
    }
    Old::Source(dialect_of(lines))
}

/// Returns the kind of a text. If its first line belongs to a listing of the Monitor, it is a listing. Otherwise a word or a mark
/// that only one assembler has decides; if there is none, it is a source of Merlin. Fails only if memory runs out.
pub fn guess<A: Allocator>(alloc: A, text: &[u8]) -> Result<Old, AllocError> {
    let lines = cut(alloc, text)?;
    Ok(kind_of_lines(lines.as_slice()))
}
