//! What can be written at a place.

use crate::json::{chars, comma, number, raw, string};
use crate::page::{Page, Span, Spot};
use crate::topics::{DIRECTIVES, Known, known_names, line_and_rest, mnemonics, said};
use a2_places::{Token, TokenKind, places_of, tokens_of};
use a2_text::{front_len, is_blank};
use std::alloc::AllocError;

// The part of a line that is written at a place.
#[derive(Clone, Copy)]
enum Part {
    Label,
    Operation,
    Operand,
    Nothing,
}

// Returns the part of a line that is written after this front of it.
fn part_after(front: &[u8], tokens: &[Token]) -> Part {
    let mut part = Part::Label;
    let blank_len = front_len(front, |c| !is_blank(c));
    if blank_len < front.len() {
        part = Part::Operation;
    }
    for token in tokens {
        match token.kind {
            TokenKind::Comment | TokenKind::Text => return Part::Nothing,
            TokenKind::Operation if token.to < front.len() => part = Part::Operand,
            _ => {}
        }
    }
    part
}

// Appends an item: its text, its kind, and what is shown beside it.
fn put_item(out: &mut Vec<u8>, label: &[u8], kind: usize, detail: &[u8]) -> Result<(), AllocError> {
    comma(out)?;
    raw(out, b"{\"label\":")?;
    string(out, label)?;
    raw(out, b",\"kind\":")?;
    number(out, kind)?;
    raw(out, b",\"detail\":")?;
    string(out, detail)
}

// Appends an item for an operation, with its forms.
fn put_operation(out: &mut Vec<u8>, name: &[u8]) -> Result<(), AllocError> {
    let text = said(name);
    let (first, _) = line_and_rest(text);
    put_item(out, name, 14, first)?;
    raw(
        out,
        b",\"documentation\":{\"kind\":\"markdown\",\"value\":\"```text\\n",
    )?;
    chars(out, text.trim_ascii_end())?;
    raw(out, b"\\n```\"}}")
}

// Appends an item for each operation.
fn put_operations(out: &mut Vec<u8>, page: &Page<'_>) -> Result<(), AllocError> {
    for mnemonic in mnemonics(page.alloc)?.as_slice() {
        put_operation(out, mnemonic.name().as_bytes())?;
    }
    for name in &DIRECTIVES {
        put_operation(out, *name)?;
    }
    Ok(())
}

// Returns the line that defines a known name.
fn put_equ(out: &mut Vec<u8>, known: Known<'_>) -> Result<(), AllocError> {
    chars(out, known.name)?;
    for _ in known.name.len()..7 {
        raw(out, b" ")?;
    }
    raw(out, b" EQU ")?;
    chars(out, known.address)
}

// Appends an item for a known name. In an operand it also inserts the line that defines it.
fn put_known(
    out: &mut Vec<u8>,
    page: &Page<'_>,
    known: Known<'_>,
    in_operand: bool,
) -> Result<(), AllocError> {
    let (first, _) = line_and_rest(said(known.name));
    put_item(out, known.name, 21, first)?;
    if in_operand {
        raw(out, b",\"additionalTextEdits\":[{\"range\":")?;
        page.put_range(
            out,
            Span {
                line: 0,
                from: 0,
                to: 0,
            },
        )?;
        raw(out, b",\"newText\":\"")?;
        put_equ(out, known)?;
        chars(out, page.line_end())?;
        return raw(out, b"\"}]}");
    }
    raw(out, b",\"insertText\":\"")?;
    put_equ(out, known)?;
    raw(out, b"\"}")
}

// Appends an item for each service and location whose name the document does not have.
fn put_services(out: &mut Vec<u8>, page: &Page<'_>, in_operand: bool) -> Result<(), AllocError> {
    for known in known_names(page.alloc)?.as_slice() {
        if places_of(page.alloc, page.lines, known.name)?.is_empty() {
            put_known(out, page, *known, in_operand)?;
        }
    }
    Ok(())
}

// Appends an item for each name that the document defines.
fn put_names(out: &mut Vec<u8>, page: &Page<'_>) -> Result<(), AllocError> {
    for line in page.lines {
        let tokens = tokens_of(page.alloc, *line)?;
        if let [first, ..] = tokens.as_slice() {
            if first.kind == TokenKind::Label {
                let name = line.get(first.from..first.to).unwrap_or(b"");
                put_item(out, name, 6, line.trim_ascii_end())?;
                raw(out, b"}")?;
            }
        }
    }
    Ok(())
}

/// Appends what can be written at a place.
pub(crate) fn put_completion(
    out: &mut Vec<u8>,
    page: &Page<'_>,
    spot: Spot,
) -> Result<(), AllocError> {
    let line = page.line(spot.line);
    let front = line.get(..spot.index).unwrap_or(line);
    let tokens = tokens_of(page.alloc, front)?;
    raw(out, b"{\"isIncomplete\":false,\"items\":[")?;
    match part_after(front, tokens.as_slice()) {
        Part::Label => put_services(out, page, false)?,
        Part::Operation => put_operations(out, page)?,
        Part::Operand => {
            put_names(out, page)?;
            put_services(out, page, true)?;
        }
        Part::Nothing => {}
    }
    raw(out, b"]}")
}

// Returns the operation of a line.
fn operation_in<'a>(page: &Page<'a>, line: usize) -> Result<&'a [u8], AllocError> {
    let tokens = tokens_of(page.alloc, page.line(line))?;
    for token in tokens.as_slice() {
        if token.kind == TokenKind::Operation {
            return Ok(page.text_of(line, *token));
        }
    }
    Ok(b"")
}

// Appends a signature for each form of an operation: the lines of its topic that begin with two blanks.
fn put_forms(out: &mut Vec<u8>, text: &[u8]) -> Result<(), AllocError> {
    let mut rest = text;
    for _ in 0..text.len() {
        let (line, following) = line_and_rest(rest);
        if let [b' ', b' ', form @ ..] = line {
            comma(out)?;
            raw(out, b"{\"label\":")?;
            string(out, form)?;
            raw(out, b"}")?;
        }
        if following.is_empty() {
            return Ok(());
        }
        rest = following;
    }
    Ok(())
}

/// Appends the forms of the operation of a line.
pub(crate) fn put_signatures(
    out: &mut Vec<u8>,
    page: &Page<'_>,
    spot: Spot,
) -> Result<(), AllocError> {
    let text = said(operation_in(page, spot.line)?);
    if text.is_empty() {
        return raw(out, b"null");
    }
    raw(out, b"{\"signatures\":[")?;
    put_forms(out, text)?;
    raw(out, b"],\"activeSignature\":0}")
}
