//! What is shown beside the word under the cursor.

use crate::json::{chars, number, raw, raws, word};
use crate::names::places_at;
use crate::page::{Page, Span, Spot};
use crate::values::{AddressName, number_of, value_of};
use a2_manual::{manual, topic};
use a2_places::{NamePlace, Token, TokenKind, definition_of};
use std::alloc::AllocError;

// Appends what the manual says about an address, after an empty line, if it says anything.
fn put_address(said: &mut Vec<u8>, address: u16) -> Result<(), AllocError> {
    match topic(manual(), AddressName::of(address).as_slice()) {
        Some(text) => raws(said, &[b"\n", text]),
        None => Ok(()),
    }
}

// Appends the binary digits of a number.
fn put_binary(said: &mut Vec<u8>, value: u16) -> Result<(), AllocError> {
    raw(said, b"%")?;
    let width: u32 = if value < 256 { 8 } else { 16 };
    for place in 0..width {
        let bit = value
            .checked_shr(width.saturating_sub(1).saturating_sub(place))
            .unwrap_or(0)
            % 2;
        raw(said, if bit == 0 { b"0" } else { b"1" })?;
    }
    Ok(())
}

// Appends the character that a byte is on the screen, if it is one.
fn put_character(said: &mut Vec<u8>, value: u16) -> Result<(), AllocError> {
    match value {
        0x20..=0x7E => raws(said, &[b", '", &[value.to_le_bytes()[0]], b"'"]),
        0xA0..=0xFE => raws(said, &[b", \"", &[value.to_le_bytes()[0] - 0x80], b"\""]),
        _ => Ok(()),
    }
}

// Appends a number in all its forms.
fn put_value(said: &mut Vec<u8>, value: u16) -> Result<(), AllocError> {
    if value < 256 {
        raw(said, AddressName::of(value).as_slice())?;
    } else {
        word(said, value)?;
    }
    raw(said, b", ")?;
    number(said, usize::from(value))?;
    raw(said, b", ")?;
    put_binary(said, value)?;
    put_character(said, value)?;
    raw(said, b"\n")
}

// Appends the lines in which a name is defined and used.
fn put_lines(said: &mut Vec<u8>, page: &Page<'_>, places: &[NamePlace]) -> Result<(), AllocError> {
    if let Some(place) = definition_of(places) {
        raw(said, b"line ")?;
        number(said, place.line.saturating_add(1))?;
        raws(said, &[b": ", page.line(place.line).trim_ascii(), b"\n"])?;
    }
    let mut front: &'static [u8] = b"used in line ";
    for place in places {
        if !place.is_label {
            raw(said, front)?;
            number(said, place.line.saturating_add(1))?;
            front = b", ";
        }
    }
    raw(said, b"\n")
}

// Appends what is known about a name.
fn put_name(
    said: &mut Vec<u8>,
    page: &Page<'_>,
    spot: Spot,
    name: &[u8],
) -> Result<(), AllocError> {
    let value = value_of(page, name)?;
    raws(said, &[name, b" = "])?;
    match value {
        Some(value) => put_value(said, value)?,
        None => raw(said, b"?\n")?,
    }
    let places = places_at(page, spot)?;
    put_lines(said, page, places.as_slice())?;
    match value {
        Some(value) => put_address(said, value),
        None => Ok(()),
    }
}

// Whether the word is the operand of an instruction that takes its value, not the byte at it.
fn is_immediate(page: &Page<'_>, line: usize, token: Token) -> bool {
    let before = page.line(line).get(..token.from).unwrap_or(b"");
    matches!(before.trim_ascii_end(), [.., b'#' | b'<' | b'>'])
}

// Appends what is known about a number.
fn put_number(
    said: &mut Vec<u8>,
    page: &Page<'_>,
    line: usize,
    token: Token,
) -> Result<(), AllocError> {
    let Some(value) = number_of(page.text_of(line, token)) else {
        return Ok(());
    };
    put_value(said, value)?;
    if is_immediate(page, line, token) {
        return Ok(());
    }
    put_address(said, value)
}

// Appends what is known about a word.
fn put_said(
    said: &mut Vec<u8>,
    page: &Page<'_>,
    spot: Spot,
    token: Token,
) -> Result<(), AllocError> {
    let text = page.text_of(spot.line, token);
    match token.kind {
        TokenKind::Operation | TokenKind::Register => match topic(manual(), text) {
            Some(text) => raw(said, text),
            None => Ok(()),
        },
        TokenKind::Label | TokenKind::Name => put_name(said, page, spot, text),
        TokenKind::Number => put_number(said, page, spot.line, token),
        _ => Ok(()),
    }
}

/// Appends what is shown for the word at a place, or `null`.
pub(crate) fn put_hover(out: &mut Vec<u8>, page: &Page<'_>, spot: Spot) -> Result<(), AllocError> {
    let Some(token) = page.token(spot)? else {
        return raw(out, b"null");
    };
    let mut said = Vec::new(page.alloc);
    put_said(&mut said, page, spot, token)?;
    if said.is_empty() {
        return raw(out, b"null");
    }
    raw(
        out,
        b"{\"contents\":{\"kind\":\"markdown\",\"value\":\"```text\\n",
    )?;
    chars(out, said.trim_ascii_end())?;
    raw(out, b"\\n```\"},\"range\":")?;
    let span = Span {
        line: spot.line,
        from: token.from,
        to: token.to,
    };
    page.put_range(out, span)?;
    raw(out, b"}")
}
