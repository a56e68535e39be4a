//! Finding out what a file is.

use crate::plain::read_dos;
use a2_hex::store_line;
use a2_text::front_len;
use std::alloc::Global;

/// The formats that `format_of` knows.
#[derive(Clone, Copy, Debug, PartialEq, Eq)]
pub enum Format {
    /// Intel HEX.
    Intel,
    /// The S-records of Motorola.
    Motorola,
    /// Lines with which the Monitor stores bytes.
    Lines,
    /// A binary file of DOS 3.3.
    Dos,
    /// An AppleSingle file.
    AppleSingle,
}

// The digits that a record has at least: its count, address, type or checksum.
const LEAST_DIGITS: usize = 8;

// Returns whether a text begins with the digits of a record, and has no blank.
fn is_digits(text: &[u8]) -> bool {
    front_len(text, |c| c.is_ascii_hexdigit()) >= LEAST_DIGITS && !text.contains(&b' ')
}

// Returns the format of a line that has the form of a record. Whether the record is right is not looked at, so that its error is reported.
fn format_of_record(line: &[u8]) -> Option<Format> {
    match line {
        [b':', digits @ ..] if is_digits(digits) => Some(Format::Intel),
        [b'S', b'0'..=b'9', digits @ ..] if is_digits(digits) => Some(Format::Motorola),
        _ => None,
    }
}

// Returns whether a line stores bytes at an address that it gives.
fn is_store_line(line: &[u8]) -> bool {
    match store_line(line) {
        Some(store) => store.address.is_some() && store.count > 0,
        None => false,
    }
}

/// Returns the format of a file if it is certain, by its first line that is not empty: `:`, or `S` and a digit, with eight hexadecimal digits
/// after it; or an address, `:` and bytes. A binary file of DOS 3.3 has exactly the number of bytes that it says, and none of them at or above
/// $C000. An AppleSingle file begins with 00 05 16 00. Returns `None` for any other file.
pub fn format_of(alloc: Global, file: &[u8]) -> Option<Format> {
    if let [0, 5, 0x16, 0, ..] = file {
        return Some(Format::AppleSingle);
    }
    let text = file.trim_ascii_start();
    let line = text[..front_len(text, |c| c != b'\n')].trim_ascii_end();
    if let Some(format) = format_of_record(line) {
        return Some(format);
    }
    if is_store_line(line) {
        return Some(Format::Lines);
    }
    if file.len() > 4 && read_dos(alloc, file).is_ok() {
        return Some(Format::Dos);
    }
    None
}
