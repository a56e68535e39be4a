//! Finds comments that look like lines of a promise and are not read as such.

use crate::line_words::{Piece, piece_in, up_to_quote, word_length};
use crate::promise_words::{Follows, can_begin, verb_row};
use a2_asm::Program;
use a2_tests::begins_want_line;
use a2_text::{after_blanks, front_len};
use std::alloc::Global;

const PLAIN: &str =
    "this comment looks like a line of a promise, but it is not read as one; begin the line with `;:`, as in ;: ensures A = 3";

const AFTER_CODE: &str =
    "a promise after an instruction or a label is not read; move it to a line of its own, before the label of the routine";

// Returns the comment of a line from its `;` or `*` on, or `None` if it has none.
fn comment_in(line: &[u8]) -> Option<&[u8]> {
    if let [b'*', ..] = line {
        return Some(line);
    }
    let mut rest = line;
    // (Each round skips a byte or more.)
    for _ in line {
        rest = match rest {
            [] | [b';', ..] => break,
            [c, following @ ..] if *c == b'\'' || *c == b'"' => match up_to_quote(*c, following) {
                Some((_, after)) => after,
                None => following,
            },
            [_, following @ ..] => following,
        };
    }
    if rest.is_empty() { None } else { Some(rest) }
}

// Returns whether a text, after a verb and in a comment without `:`, reads like what follows the verb in a promise.
fn reads_like(program: &Program<Global>, follows: Follows, text: &[u8]) -> bool {
    let Some((first, rest)) = piece_in(text) else {
        return false;
    };
    match follows {
        Follows::Text => matches!(first, Piece::Quoted(_, _)),
        Follows::Condition => {
            can_begin(program, first)
                && front_len(rest, |c| !matches!(c, b'=' | b'<' | b'>')) < rest.len()
        }
        Follows::Items => {
            can_begin(program, first)
                && matches!(after_blanks(rest), [] | [b',' | b'.' | b'+' | b'-', ..])
        }
    }
}

// Returns whether the text of a comment, after the marks at its beginning, looks like a line of a promise.
fn looks_promised(program: &Program<Global>, has_colon: bool, text: &[u8]) -> bool {
    let (word, rest) = text.split_at(word_length(text));
    match verb_row(word) {
        Some(row) => has_colon || reads_like(program, row.follows, rest),
        None => has_colon && begins_want_line(text),
    }
}

/// Returns the message about a line with a comment that looks like a line of a promise, and the number of bytes of the
/// line that are left where the comment begins. Returns `None` for any other line.
pub(crate) fn lookalike_in(
    program: &Program<Global>,
    line: &[u8],
) -> Option<(&'static str, usize)> {
    let comment = comment_in(line)?;
    let is_whole_line = after_blanks(line).len() == comment.len();
    let (marks, text) = comment.split_at(front_len(
        comment,
        |c| matches!(c, b';' | b'*' | b':' | b' ' | b'\t'),
    ));
    let has_colon = front_len(marks, |c| c != b':') < marks.len();
    match comment {
        [b';', b':', ..] if is_whole_line => None,
        _ if !is_whole_line && !has_colon => None,
        _ if !looks_promised(program, has_colon, text) => None,
        _ if is_whole_line => Some((PLAIN, comment.len())),
        _ => Some((AFTER_CODE, comment.len())),
    }
}
