//! The names that a document defines, and the parts of it that can be folded.

use crate::json::{comma, number, raw, string};
use crate::page::{Page, Span};
use a2_places::{Token, TokenKind, tokens_of};
use a2_text::{front_len, is_blank};
use std::alloc::AllocError;

// Returns the first word of a line with this kind.
fn first_of(tokens: &[Token], kind: TokenKind) -> Option<Token> {
    for token in tokens {
        if token.kind == kind {
            return Some(*token);
        }
    }
    None
}

// Returns the text of the operation of a line with these words.
fn operation_of<'a>(page: &Page<'a>, line: usize, tokens: &[Token]) -> &'a [u8] {
    match first_of(tokens, TokenKind::Operation) {
        Some(token) => page.text_of(line, token),
        None => b"",
    }
}

// Returns the kind of a symbol by the operation of its line: a constant, a variable or a function.
fn kind_of(operation: &[u8]) -> usize {
    for (word, kind) in [(b"EQU", 14usize), (b"DFB", 13), (b"ASC", 13)] {
        if operation.eq_ignore_ascii_case(word) {
            return kind;
        }
    }
    match operation {
        [b'D' | b'd', b'W' | b'w' | b'S' | b's'] => 13,
        _ => 12,
    }
}

// Appends the symbol of a line with a label.
fn put_symbol(
    out: &mut Vec<u8>,
    page: &Page<'_>,
    line: usize,
    tokens: &[Token],
    label: Token,
) -> Result<(), AllocError> {
    comma(out)?;
    raw(out, b"{\"name\":")?;
    string(out, page.text_of(line, label))?;
    raw(out, b",\"kind\":")?;
    number(out, kind_of(operation_of(page, line, tokens)))?;
    raw(out, b",\"range\":")?;
    page.put_line(out, line)?;
    raw(out, b",\"selectionRange\":")?;
    let span = Span {
        line,
        from: label.from,
        to: label.to,
    };
    page.put_range(out, span)?;
    raw(out, b"}")
}

/// Appends the names that a document defines.
pub(crate) fn put_symbols(out: &mut Vec<u8>, page: &Page<'_>) -> Result<(), AllocError> {
    raw(out, b"[")?;
    for (line, text) in page.lines.iter().enumerate() {
        let tokens = tokens_of(page.alloc, text)?;
        if let Some(label) = first_of(tokens.as_slice(), TokenKind::Label) {
            put_symbol(out, page, line, tokens.as_slice(), label)?;
        }
    }
    raw(out, b"]")
}

// Whether a text has another in it, in either case.
fn has_within(text: &[u8], part: &[u8]) -> bool {
    for index in 0..text.len() {
        match text.get(index..index.saturating_add(part.len())) {
            Some(here) if here.eq_ignore_ascii_case(part) => return true,
            _ => {}
        }
    }
    part.is_empty()
}

/// Appends the names that a document defines and that have a text in them, with their places, to a list.
pub(crate) fn add_symbols(
    out: &mut Vec<u8>,
    page: &Page<'_>,
    query: &[u8],
) -> Result<(), AllocError> {
    for (line, text) in page.lines.iter().enumerate() {
        let tokens = tokens_of(page.alloc, text)?;
        let label = first_of(tokens.as_slice(), TokenKind::Label);
        let Some(label) = label else {
            continue;
        };
        if has_within(page.text_of(line, label), query) {
            comma(out)?;
            raw(out, b"{\"name\":")?;
            string(out, page.text_of(line, label))?;
            raw(out, b",\"kind\":")?;
            number(out, kind_of(operation_of(page, line, tokens.as_slice())))?;
            raw(out, b",\"location\":{\"uri\":")?;
            string(out, page.uri.as_bytes())?;
            raw(out, b",\"range\":")?;
            page.put_line(out, line)?;
            raw(out, b"}}")?;
        }
    }
    Ok(())
}

// Returns the name that a line calls with JSR, if it does.
fn called_in<'a>(page: &Page<'a>, line: usize) -> Result<Option<&'a [u8]>, AllocError> {
    let tokens = tokens_of(page.alloc, page.line(line))?;
    if !operation_of(page, line, tokens.as_slice()).eq_ignore_ascii_case(b"JSR") {
        return Ok(None);
    }
    match first_of(tokens.as_slice(), TokenKind::Name) {
        Some(name) => Ok(Some(page.text_of(line, name))),
        None => Ok(None),
    }
}

// Returns the names that a document calls with JSR.
fn called<'a>(page: &Page<'a>) -> Result<Vec<&'a [u8]>, AllocError> {
    let mut names = Vec::new(page.alloc);
    for line in 0..page.lines.len() {
        if let Some(name) = called_in(page, line)? {
            names.push(name)?;
        }
    }
    Ok(names)
}

// Whether a name is among others.
fn is_among(name: &[u8], names: &[&[u8]]) -> bool {
    for other in names {
        if *other == name {
            return true;
        }
    }
    false
}

// Returns the label of a line as far as it goes.
fn label_of(line: &[u8]) -> &[u8] {
    line.get(..front_len(line, |c| !is_blank(c) && c != b';'))
        .unwrap_or(b"")
}

// Whether a line has a statement, and is not blank or a comment only.
fn has_statement(line: &[u8]) -> bool {
    !matches!(line.trim_ascii_start(), [] | [b';', ..]) && !matches!(line, [b'*', ..])
}

// Returns the last line below another that has a statement.
fn last_statement(page: &Page<'_>, first: usize, below: usize) -> usize {
    let mut last = first;
    for line in first..below {
        if has_statement(page.line(line)) {
            last = line;
        }
    }
    last
}

// Appends the fold of the lines from one up to another.
fn put_fold(
    out: &mut Vec<u8>,
    page: &Page<'_>,
    first: usize,
    below: usize,
) -> Result<(), AllocError> {
    let last = last_statement(page, first, below);
    if last <= first {
        return Ok(());
    }
    comma(out)?;
    raw(out, b"{\"startLine\":")?;
    number(out, first)?;
    raw(out, b",\"endLine\":")?;
    number(out, last)?;
    raw(out, b"}")
}

// Whether a line with a label has an instruction.
fn has_code(page: &Page<'_>, line: usize) -> Result<bool, AllocError> {
    let tokens = tokens_of(page.alloc, page.line(line))?;
    Ok(kind_of(operation_of(page, line, tokens.as_slice())) == 12)
}

/// Appends the routines of a document as ranges of lines: each from a label that a JSR calls to the last statement before the next.
pub(crate) fn put_folds(out: &mut Vec<u8>, page: &Page<'_>) -> Result<(), AllocError> {
    let names = called(page)?;
    raw(out, b"[")?;
    let mut begin: Option<usize> = None;
    for (line, text) in page.lines.iter().enumerate() {
        let label = label_of(*text);
        if is_among(label, names.as_slice()) && has_code(page, line)? {
            if let Some(first) = begin {
                put_fold(out, page, first, line)?;
            }
            begin = Some(line);
        }
    }
    if let Some(first) = begin {
        put_fold(out, page, first, page.lines.len())?;
    }
    raw(out, b"]")
}
