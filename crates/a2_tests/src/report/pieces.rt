//! The pieces of a line: bytes as they are, texts as the format spells them, and numbers.

use crate::markup::{put_html, put_xml};
use crate::report::outcome::{Outcome, Reason};
use a2_stream::{Output, ToWrite, WriteFault, put};
use a2_text::decimal;
use std::alloc::{AllocError, Global};

/// How a text is spelt.
#[derive(Clone, Copy)]
pub(crate) enum Spelling {
    /// As it is; `?` replaces control characters, and bytes above ASCII if the text is not UTF-8.
    Bare,
    /// As a text of XML, in one line.
    Xml,
    /// As a text of HTML.
    Html,
}

// Returns the character that is shown for a byte.
fn shown(is_utf8: bool, c: &u8) -> &[u8] {
    match *c {
        0..=31 | 127 => b"?",
        128..=255 if !is_utf8 => b"?",
        _ => std::slice::from_ref(c),
    }
}

/// Writes a text, with each byte as it is spelt.
pub(crate) fn put_text<W: Output>(
    spelling: Spelling,
    text: &[u8],
    writer: &mut W,
) -> Result<(), WriteFault> {
    let is_utf8 = std::str::from_utf8(text).is_ok();
    match spelling {
        Spelling::Xml => return put_xml(is_utf8, text, writer),
        Spelling::Html => return put_html(is_utf8, text, writer),
        Spelling::Bare => {}
    }
    for c in text {
        put(shown(is_utf8, c), writer)?;
    }
    Ok(())
}

/// Returns a text without control characters, in UTF-8.
pub(crate) fn shown_text(alloc: Global, text: &[u8]) -> Result<Vec<u8>, AllocError> {
    let mut shown = Vec::new(alloc);
    match put_text(Spelling::Bare, text, &mut ToWrite::new(&mut shown)) {
        Ok(()) => Ok(shown),
        Err(_) => Err(AllocError),
    }
}

/// A piece of the output.
#[derive(Clone, Copy)]
pub(crate) enum Piece<'a> {
    /// These bytes, unchanged.
    Plain(&'a [u8]),
    /// A text, with each byte as it is spelt.
    Text(&'a [u8]),
    /// A number in decimal.
    Number(usize),
}

// Writes a piece.
fn put_piece<W: Output>(
    spelling: Spelling,
    piece: Piece<'_>,
    writer: &mut W,
) -> Result<(), WriteFault> {
    match piece {
        Piece::Plain(bytes) => put(bytes, writer),
        Piece::Text(text) => put_text(spelling, text, writer),
        Piece::Number(number) => put(decimal(number as u64).as_slice(), writer),
    }
}

/// Writes pieces, one after another.
pub(crate) fn put_pieces<W: Output>(
    spelling: Spelling,
    pieces: &[Piece<'_>],
    writer: &mut W,
) -> Result<(), WriteFault> {
    for piece in pieces {
        put_piece(spelling, *piece, writer)?;
    }
    Ok(())
}

/// Writes why a solution did not pass all its cases, in one line; nothing if it passed them.
pub(crate) fn put_reason<W: Output>(reason: Reason<'_>, writer: &mut W) -> Result<(), WriteFault> {
    match reason {
        Reason::Nothing => Ok(()),
        Reason::Refused(why) => put_pieces(
            Spelling::Bare,
            &[Piece::Plain(b"error: "), Piece::Text(why)],
            writer,
        ),
        Reason::Failed(outcome) => put_failed(outcome, writer),
    }
}

// Writes the case that did not pass, and the report on it.
fn put_failed<W: Output>(outcome: Outcome<'_>, writer: &mut W) -> Result<(), WriteFault> {
    let name = outcome.name;
    put_text(Spelling::Bare, name, writer)?;
    if outcome.line > 0 {
        let comma: &[u8] = if name.is_empty() { b"" } else { b", " };
        put_pieces(
            Spelling::Bare,
            &[
                Piece::Plain(comma),
                Piece::Plain(b"line "),
                Piece::Number(outcome.line),
            ],
            writer,
        )?;
    }
    let colon: &[u8] = if name.is_empty() && outcome.line == 0 {
        b""
    } else {
        b": "
    };
    put_pieces(
        Spelling::Bare,
        &[Piece::Plain(colon), Piece::Text(outcome.report)],
        writer,
    )
}
