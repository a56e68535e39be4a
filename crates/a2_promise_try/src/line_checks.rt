//! Checks of the lines of promises that the reader accepts: what would be read differently than it looks.

use crate::line_words::{Piece, piece_in};
use crate::lookalikes::lookalike_in;
use crate::promise_words::{hidden_by, is_name};
use a2_asm::Program;
use a2_promise::{Refusal, promise_in};
use a2_text::after_blanks;
use std::alloc::Global;

const IFF_ROW: &str =
    "two `iff` in a row; put each pair of conditions in parentheses, or write two lines";

// How deep parentheses are followed.
const MOST_DEPTH: usize = 200;

// Returns the column, from 1, at which this many bytes of a line are left.
fn column_of(line: &[u8], bytes_left: usize) -> usize {
    line.len().saturating_sub(bytes_left).saturating_add(1)
}

// The parentheses around a place in a line, and in which of them an `iff` was found.
#[derive(Clone, Copy)]
struct Nesting {
    depth: usize,
    is_joined: [bool; MOST_DEPTH],
}

impl Nesting {
    // Records whether an `iff` was found in the innermost parentheses. Returns whether one was found before.
    fn put(&mut self, is_joined: bool) -> bool {
        match self.is_joined.get_mut(self.depth) {
            Some(place) => {
                let before = *place;
                *place = is_joined;
                before
            }
            None => false,
        }
    }

    // Follows a piece of a line. Returns whether it is an `iff` after another one in the same parentheses.
    fn take(&mut self, piece: Piece) -> bool {
        match piece {
            Piece::Sign(b'(' | b'[', _) => {
                self.depth = self.depth.saturating_add(1);
                self.put(false);
                false
            }
            Piece::Sign(b')' | b']', _) => {
                self.depth = self.depth.saturating_sub(1);
                false
            }
            Piece::Sign(b',' | b':', _) => {
                self.put(false);
                false
            }
            Piece::Word(word) if word == b"iff".as_slice() => self.put(true),
            Piece::Word(word)
                if word == b"if".as_slice()
                    || word == b"then".as_slice()
                    || word == b"else".as_slice() => {
                self.put(false);
                false
            }
            _ => false,
        }
    }
}

// Returns how many bytes of a promise's text are left at the second of two `iff` in a row, if there are two.
fn iff_row_in(text: &[u8]) -> Option<usize> {
    let mut nesting = Nesting {
        depth: 0,
        is_joined: [false; MOST_DEPTH],
    };
    let mut here = after_blanks(text);
    // (Each piece has a byte or more.)
    for _ in text {
        let (piece, rest) = piece_in(here)?;
        if nesting.take(piece) {
            return Some(here.len());
        }
        here = after_blanks(rest);
    }
    None
}

// Returns whether a line is blank or a comment.
fn is_blank_or_comment(line: &[u8]) -> bool {
    matches!(after_blanks(line), [] | [b';', ..]) || matches!(line, [b'*', ..])
}

/// Returns the number of the first of the blank lines and comments directly before a line, or of the line itself.
pub(crate) fn first_line_before(lines: &[&[u8]], line: usize) -> usize {
    let mut first = line;
    for _ in 0..line {
        match lines.get(first.wrapping_sub(2)) {
            Some(text) if is_blank_or_comment(*text) => first = first.saturating_sub(1),
            _ => return first,
        }
    }
    first
}

/// Returns the error in a line that looks like a line of a promise but is not, or that is read differently than it
/// looks. `number` is the number of the line.
pub(crate) fn line_error(program: &Program<Global>, line: &[u8], number: usize) -> Option<Refusal> {
    let (says, bytes_left) = match promise_in(line) {
        Some(text) => (IFF_ROW, iff_row_in(text)?),
        None => lookalike_in(program, line)?,
    };
    Some(Refusal {
        line: number,
        column: column_of(line, bytes_left),
        says,
    })
}

/// Returns the warning about the first word of a promise's line that hides a name of the source, if there is one.
/// `number` is the number of the line.
pub(crate) fn hidden_name(
    program: &Program<Global>,
    line: &[u8],
    number: usize,
) -> Option<Refusal> {
    let text = promise_in(line)?;
    let mut here = after_blanks(text);
    // (Each piece has a byte or more.)
    for _ in text {
        let (piece, rest) = piece_in(here)?;
        if let Piece::Word(word) = piece
            && is_name(program, word)
            && let Some(says) = hidden_by(word)
        {
            return Some(Refusal {
                line: number,
                column: column_of(line, here.len()),
                says,
            });
        }
        here = after_blanks(rest);
    }
    None
}
