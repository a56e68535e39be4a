//! Cutting an old text into the pieces that are converted, and what an assembler printed beside its lines.

use crate::dialect::Dialect;
use crate::pieces::{Piece, Quotes, cut_at, span};
use crate::print::{after_line_number, after_printed, column_of, is_bytes};
use a2_text::after_blanks;
use std::alloc::{AllocError, Allocator};

// The source in a line. In a printed text it begins in this column. Returns `None` if nothing of the line is source.
fn source_in(dialect: Dialect, column: Option<usize>, line: &[u8]) -> Option<&[u8]> {
    match column {
        Some(column) => {
            after_printed(line)?;
            let (_, source) = cut_at(line, column);
            Some(source)
        }
        None if dialect == Dialect::Sc => Some(after_line_number(line).unwrap_or(line)),
        None => Some(line),
    }
}

// The length of the first piece of a text with braces: up to a `{` and with it, up to a `}`, or a `}` alone.
fn piece_len(text: &[u8]) -> usize {
    let here = after_blanks(text);
    let blanks = text.len().saturating_sub(here.len());
    if let [b'}', rest @ ..] = here {
        let there = after_blanks(rest);
        let (word, _) = cut_at(there, 4);
        if !word.eq_ignore_ascii_case(b"else") {
            return blanks.saturating_add(1);
        }
        let len = span(here, b"{;", Quotes::Long);
        return blanks.saturating_add(len).saturating_add(1).min(text.len());
    }
    let len = span(text, b"{};", Quotes::Long);
    let (_, rest) = cut_at(text, len);
    match rest.first() {
        Some(b'{') => len.saturating_add(1),
        Some(b'}') => len,
        _ => text.len(),
    }
}

// Adds the pieces of a line with braces.
fn add_braced<'a, A: Allocator>(
    pieces: &mut Vec<Piece<'a>, A>,
    line: usize,
    text: &'a [u8],
) -> Result<(), AllocError> {
    let mut rest = text;
    for _ in 0..text.len().saturating_add(1) {
        let (piece, following) = cut_at(rest, piece_len(rest).max(1));
        pieces.push(Piece { line, text: piece })?;
        rest = following;
        if rest.trim_ascii().is_empty() {
            break;
        }
    }
    Ok(())
}

/// Returns the pieces of a text with these lines, and the lines that are none.
pub(crate) fn pieces_of<'a, A: Allocator + Copy>(
    alloc: A,
    dialect: Dialect,
    lines: &[&'a [u8]],
) -> Result<(Vec<Piece<'a>, A>, Vec<Piece<'a>, A>), AllocError> {
    let column = column_of(lines);
    let mut pieces = Vec::new(alloc);
    let mut others = Vec::new(alloc);
    for (i, line) in lines.iter().enumerate() {
        let number = i.saturating_add(1);
        match source_in(dialect, column, *line) {
            Some(text) if dialect == Dialect::Acme => add_braced(&mut pieces, number, text)?,
            Some(text) => pieces.push(Piece { line: number, text })?,
            None if is_bytes(line) || line.trim_ascii().is_empty() => {}
            None => others.push(Piece {
                line: number,
                text: *line,
            })?,
        }
    }
    Ok((pieces, others))
}
