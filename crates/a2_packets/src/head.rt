//! The lines before a message.

use crate::fault::PacketFault;
use a2_text::{after_blanks, cut};
use std::alloc::Global;

// Returns the number that a text of digits is, with blanks around it.
fn number_of(text: &[u8]) -> Option<usize> {
    match after_blanks(text) {
        digits @ [b'0'..=b'9', ..] => std::str::from_utf8(digits).ok()?.parse().ok(),
        _ => None,
    }
}

// Returns what follows the name `Content-Length` and its colon, if a line begins with them. Small letters are the same as capitals.
fn length_text(line: &[u8]) -> Option<&[u8]> {
    match line.split_at_checked(15) {
        Some((name, value)) if name.eq_ignore_ascii_case(b"Content-Length:") => Some(value),
        _ => None,
    }
}

/// Returns the length that the lines before a message give it.
pub(crate) fn length_in(alloc: Global, head: &[u8]) -> Result<usize, PacketFault> {
    let lines = cut(alloc, head)?;
    for line in lines.as_slice() {
        if let Some(value) = length_text(line) {
            return match number_of(value) {
                Some(length) => Ok(length),
                None => Err(PacketFault::BadLength),
            };
        }
    }
    Err(PacketFault::NoLength)
}
