//! A source of the larger language in columns.

use a2_expand::{is_larger_line, uses_larger_operation};
use a2_fmt::{FormatFault, LineParts, format_source, line_in_columns};
use a2_host::Shelf;
use a2_opcode::Mnemonic;
use a2_places::{Token, TokenKind, statement_end, tokens_of};
use a2_text::cut;
use a2lab_commands::{Expansion, expansion_of};
use std::alloc::{AllocError, Global};

// The most bytes of a line.
const MOST_BYTES: usize = 255;

// Returns the bytes of a line that a word of this kind has, or none if there is no such word.
fn word_in<'l>(line: &'l [u8], tokens: &[Token], kind: TokenKind) -> &'l [u8] {
    for token in tokens {
        if token.kind == kind {
            return line.get(token.from..token.to).unwrap_or(b"");
        }
    }
    b""
}

// Returns the index after the label and the operation of a line.
fn operand_start(tokens: &[Token]) -> usize {
    let mut start = 0;
    for token in tokens {
        if matches!(token.kind, TokenKind::Label | TokenKind::Operation) {
            start = token.to;
        }
    }
    start
}

// Returns the operand of a line as it is written.
fn operand_in<'l>(line: &'l [u8], tokens: &[Token]) -> &'l [u8] {
    let (from, to) = (operand_start(tokens), statement_end(tokens));
    line.get(from..to).unwrap_or(b"").trim_ascii()
}

// Whether a word is an instruction or an operation of the larger language, so that its case does not matter.
fn is_operation(alloc: Global, word: &[u8]) -> Result<bool, AllocError> {
    let mut line = Vec::from_slice(alloc, b" ")?;
    line.extend_from_slice(word)?;
    Ok(Mnemonic::named(word).is_some() || uses_larger_operation(alloc, line.as_slice())?)
}

// Returns an operation in capitals if its case does not matter.
fn operation_of(alloc: Global, word: &[u8]) -> Result<Vec<u8>, AllocError> {
    let mut operation = Vec::from_slice(alloc, word)?;
    if is_operation(alloc, word)? {
        operation.as_mut_slice().make_ascii_uppercase();
    }
    Ok(operation)
}

// Returns a line in columns, with its operand as it is written.
fn spread(alloc: Global, line: &[u8]) -> Result<Vec<u8>, AllocError> {
    if line.starts_with(b"*") || line.starts_with(b";") {
        return Vec::from_slice(alloc, line.trim_ascii_end());
    }
    let tokens = tokens_of(alloc, line)?;
    let tokens = tokens.as_slice();
    let operation = operation_of(alloc, word_in(line, tokens, TokenKind::Operation))?;
    let parts = LineParts {
        label: word_in(line, tokens, TokenKind::Label),
        operation: operation.as_slice(),
        operand: operand_in(line, tokens),
        comment: word_in(line, tokens, TokenKind::Comment).trim_ascii_end(),
    };
    let row = line_in_columns(alloc, parts)?;
    if row.len() > MOST_BYTES {
        return Vec::from_slice(alloc, line);
    }
    Ok(row)
}

// Appends a line in columns. Outside macros, a line of the plain language is laid out as in a plain source.
fn put_line(
    alloc: Global,
    text: &mut Vec<u8>,
    line: &[u8],
    in_macro: bool,
) -> Result<(), AllocError> {
    if !in_macro && !line.trim_ascii().is_empty() && !is_larger_line(line) {
        match format_source(alloc, line) {
            Ok(row) => return text.extend_from_slice(row.as_slice()),
            Err(FormatFault::Memory) => return Err(AllocError),
            Err(FormatFault::Source(_) | FormatFault::Unlike) => {}
        }
    }
    let row = spread(alloc, line)?;
    text.extend_from_slice(row.as_slice())?;
    text.extend_from_slice(b"\n")
}

// Returns a text in columns.
fn columns_in(alloc: Global, text: &[u8]) -> Result<Vec<u8>, AllocError> {
    let mut columns = Vec::new(alloc);
    let mut in_macro = false;
    let lines = cut(alloc, text)?;
    for line in &lines {
        let tokens = tokens_of(alloc, *line)?;
        let operation = word_in(*line, tokens.as_slice(), TokenKind::Operation);
        if operation.eq_ignore_ascii_case(b"ENDMACRO") {
            in_macro = false;
        }
        put_line(alloc, &mut columns, *line, in_macro)?;
        if operation.eq_ignore_ascii_case(b"MACRO") {
            in_macro = true;
        }
    }
    Ok(columns)
}

// Returns the expansion of a source in columns, or `None` if it cannot be expanded or its expansion cannot be laid out. Two sources whose
// expansions are the same in columns mean the same.
fn laid_expansion<S: Shelf>(
    alloc: Global,
    name: Option<&str>,
    text: &[u8],
    shelf: &mut S,
) -> Result<Option<Vec<u8>>, AllocError> {
    let Expansion::Done(made) = expansion_of(alloc, name, text, shelf)? else {
        return Ok(None);
    };
    match format_source(alloc, made.text.as_slice()) {
        Ok(columns) => Ok(Some(columns)),
        Err(FormatFault::Memory) => Err(AllocError),
        Err(FormatFault::Source(_) | FormatFault::Unlike) => Ok(None),
    }
}

/// Returns `text`, the source `name` of the larger language, in columns. Returns `None` if its expansion cannot be laid out, or if this
/// would change the expansion.
pub(crate) fn larger_columns<S: Shelf>(
    alloc: Global,
    name: Option<&str>,
    text: &[u8],
    shelf: &mut S,
) -> Result<Option<Vec<u8>>, AllocError> {
    let columns = columns_in(alloc, text)?;
    let Some(before) = laid_expansion(alloc, name, text, shelf)? else {
        return Ok(None);
    };
    let Some(after) = laid_expansion(alloc, name, columns.as_slice(), shelf)? else {
        return Ok(None);
    };
    if before.as_slice() != after.as_slice() {
        return Ok(None);
    }
    Ok(Some(columns))
}
