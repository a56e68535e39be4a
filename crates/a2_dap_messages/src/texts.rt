//! Texts in messages.

use a2_text::{decimal, hex_pair, hex_word};
use std::alloc::{AllocError, Global};

// Returns a byte as a character of ASCII, `?` for any other.
fn ascii_of(byte: u8) -> char {
    if byte < 0x80 { byte as char } else { '?' }
}

/// Returns these bytes as a text. If they are not UTF-8, each byte above ASCII becomes `?`.
pub fn text_of(alloc: Global, bytes: &[u8]) -> Result<String, AllocError> {
    if let Ok(text) = std::str::from_utf8(bytes) {
        return String::from_str(alloc, text);
    }
    let mut text = String::new(alloc);
    for byte in bytes {
        text.push(ascii_of(*byte))?;
    }
    Ok(text)
}

/// Returns the pieces as one text.
pub fn joined(alloc: Global, pieces: &[&[u8]]) -> Result<String, AllocError> {
    let mut bytes = Vec::new(alloc);
    for piece in pieces {
        bytes.extend_from_slice(*piece)?;
    }
    text_of(alloc, bytes.as_slice())
}

/// Returns an address as `$6000`.
pub fn address_text(alloc: Global, address: u16) -> Result<String, AllocError> {
    joined(alloc, &[b"$", &hex_word(address)])
}

/// Returns an address as `0x6000`, which editors read.
pub fn reference_text(alloc: Global, address: u16) -> Result<String, AllocError> {
    joined(alloc, &[b"0x", &hex_word(address)])
}

/// Returns a byte as `$C1`.
pub fn byte_text(alloc: Global, byte: u8) -> Result<String, AllocError> {
    joined(alloc, &[b"$", &hex_pair(byte)])
}

/// Returns a number in decimal.
pub fn number_text(alloc: Global, number: u64) -> Result<String, AllocError> {
    joined(alloc, &[decimal(number).as_slice()])
}
