//! Line numbers and the text that an assembler prints before its lines.

ghost use Rattle.std.specs.Prelude.{◌≤◌, length};

use a2_text::{after_blanks, first_word, front_len, is_blank, number_in};

// The greatest number of bytes printed before a line.
const BYTES: usize = 3;

// Whether a text is empty or begins with a blank.
fn ends(text: &[u8]) -> bool {
    match text.first() {
        Some(c) => is_blank(*c),
        None => true,
    }
}

// The text after a byte of two hexadecimal digits.
fn after_printed_byte(text: &[u8]) -> Option<&[u8]> {
    match text {
        [a, b, rest @ ..] if a.is_ascii_hexdigit() && b.is_ascii_hexdigit() && ends(rest) => Some(
            rest,
        ),
        _ => None,
    }
}

// Whether an address of four hexadecimal digits has a mark after it; `None` if the word is not an address.
fn address(word: &[u8]) -> Option<bool> {
    let (digits, is_marked) = match word {
        [digits @ .., b':' | b'-'] => (digits, true),
        _ => (word, false),
    };
    if digits.len() == 4 && number_in(16, 4, digits).is_some() {
        Some(is_marked)
    } else {
        None
    }
}

/// Returns the text after the address at the beginning of a line and the bytes that follow it.
pub(crate) fn after_printed_bytes(line: &[u8]) -> Option<&[u8]> {
    let (word, following) = first_word(line)?;
    let is_marked = address(word)?;
    let mut rest = following;
    let mut next = after_blanks(following);
    let mut is_printed = is_marked;
    for _ in 0..BYTES {
        let Some(other) = after_printed_byte(next) else {
            break;
        };
        is_printed = true;
        rest = other;
        next = match other {
            [_, more @ ..] => more,
            [] => other,
        };
    }
    if is_printed { Some(rest) } else { None }
}

/// The address and the bytes that an assembler printed before a line.
#[derive(Clone, Copy)]
pub(crate) struct Printed {
    pub address: u16,
    /// How many bytes there are, 1 to 3.
    pub count: usize,
    pub bytes: [u8; 3],
}

/// Returns the address and the bytes at the beginning of a line, if there are bytes.
pub(crate) fn printed_in(line: &[u8]) -> Option<Printed> {
    let (word, following) = first_word(line)?;
    address(word)?;
    let (digits, _) = word.split_at(word.len().min(4));
    let start = number_in(16, 4, digits)?;
    let mut bytes: [u8; 3] = [0; 3];
    let mut count: usize = 0;
    let mut next = after_blanks(following);
    for i in 0..BYTES {
        let Some(rest) = after_printed_byte(next) else {
            break;
        };
        let (digits, _) = next.split_at(next.len().min(2));
        let number = number_in(16, 2, digits)?;
        bytes[i] = (number & 255) as u8;
        count = i.saturating_add(1);
        next = match rest {
            [_, more @ ..] => more,
            [] => rest,
        };
    }
    if count == 0 {
        return None;
    }
    Some(Printed {
        address: start,
        count,
        bytes,
    })
}

/// Returns the text after the line number at the beginning of a line and one blank.
pub(crate) fn after_line_number(line: &[u8]) -> Option<&[u8]> {
    let here = after_blanks(line);
    let (digits, rest) = here.split_at(front_len(here, |c| c.is_ascii_digit()));
    if digits.is_empty() || !ends(rest) {
        return None;
    }
    match rest {
        [_, source @ ..] => Some(source),
        [] => Some(rest),
    }
}

/// Returns the text after what is printed before a line: a line number, or an address, bytes and a line number.
pub(crate) fn after_printed(line: &[u8]) -> Option<&[u8]> {
    match after_printed_bytes(line) {
        Some(rest) => after_line_number(rest),
        None => after_line_number(line),
    }
}

// The column where the source of a printed line begins, if it has any.
fn column_in(line: &[u8]) -> Option<usize> {
    let source = after_blanks(after_printed(line)?);
    if source.is_empty() {
        return None;
    }
    Some(line.len().saturating_sub(source.len()))
}

// Whether an address, bytes and a line number come before at least one of the lines.
fn are_printed(lines: &[&[u8]]) -> bool {
    for line in lines {
        if let Some(rest) = after_printed_bytes(line) {
            if after_line_number(rest).is_some() {
                return true;
            }
        }
    }
    false
}

/// Returns the column, counted from 0, where the sources of printed lines begin and where labels are, or `None` if the lines
/// are not printed.
pub(crate) fn column_of(lines: &[&[u8]]) -> Option<usize> {
    if !are_printed(lines) {
        return None;
    }
    let mut least = None;
    for line in lines {
        if let Some(column) = column_in(line) {
            least = Some(column.min(least.unwrap_or(column)));
        }
    }
    least
}

/// Returns whether a line has only an address and bytes.
pub(crate) fn is_bytes(line: &[u8]) -> bool {
    match after_printed_bytes(line) {
        Some(rest) => rest.trim_ascii().is_empty(),
        None => false,
    }
}

/// Returns whether a line belongs to a listing of the Monitor.
pub(crate) fn is_row(line: &[u8]) -> bool {
    match (first_word(line), after_printed_bytes(line)) {
        (Some((word, _)), Some(rest)) => word.ends_with(b"-") && after_line_number(rest).is_none(),
        _ => false,
    }
}
