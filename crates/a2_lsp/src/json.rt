//! Writes JSON texts.

use a2_text::{decimal, hex_word, json_escape};
use std::alloc::AllocError;

/// Appends a text as it is.
pub(crate) fn raw(out: &mut Vec<u8>, text: &[u8]) -> Result<(), AllocError> {
    out.extend_from_slice(text)?;
    Ok(())
}

/// Appends texts as they are.
pub(crate) fn raws(out: &mut Vec<u8>, texts: &[&[u8]]) -> Result<(), AllocError> {
    for text in texts {
        out.extend_from_slice(*text)?;
    }
    Ok(())
}

/// Appends the characters of a text as they are written in a string.
pub(crate) fn chars(out: &mut Vec<u8>, text: &[u8]) -> Result<(), AllocError> {
    for byte in text {
        if *byte < 0x7F {
            out.extend_from_slice(json_escape(*byte).as_slice())?;
        } else {
            out.push(*byte)?;
        }
    }
    Ok(())
}

/// Appends a string.
pub(crate) fn string(out: &mut Vec<u8>, text: &[u8]) -> Result<(), AllocError> {
    raw(out, b"\"")?;
    chars(out, text)?;
    raw(out, b"\"")
}

/// Appends a number in decimal.
pub(crate) fn number(out: &mut Vec<u8>, number: usize) -> Result<(), AllocError> {
    raw(out, decimal(number as u64).as_slice())
}

/// Appends a number of four hexadecimal digits after `$`.
pub(crate) fn word(out: &mut Vec<u8>, word: u16) -> Result<(), AllocError> {
    raw(out, b"$")?;
    raw(out, &hex_word(word))
}

/// Appends a comma, unless the text ends with an opening bracket.
pub(crate) fn comma(out: &mut Vec<u8>) -> Result<(), AllocError> {
    match out.as_slice() {
        [.., b'[' | b'{'] => Ok(()),
        _ => raw(out, b","),
    }
}
