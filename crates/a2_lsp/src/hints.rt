//! What is shown among the words of a document: addresses and cycles, and the kinds of words.

use crate::json::{comma, number, raw, word};
use crate::page::Page;
use crate::topics::DIRECTIVES;
use a2_asm::{Program, Statement};
use a2_check::{Verdict, verdict_of};
use a2_hex::Image;
use a2_opcode::{Mode, row_for};
use a2_places::{Token, TokenKind, tokens_of, units_before};
use a2_text::{decimal, hex_pair};
use bumpalo::Bump;
use std::alloc::{AllocError, Allocator};

// The most bytes that a hint shows.
const MOST_BYTES: u16 = 4;

// Appends the bytes of a statement, at most four, and two dots if there are more.
fn put_bytes<A: Allocator>(
    out: &mut Vec<u8>,
    image: &Image<A>,
    statement: &Statement,
) -> Result<(), AllocError> {
    for place in 0..statement.length.min(MOST_BYTES) {
        if let Some(byte) = image.get(statement.addr.wrapping_add(place)) {
            raw(out, b" ")?;
            raw(out, &hex_pair(byte))?;
        }
    }
    if statement.length > MOST_BYTES {
        raw(out, b" ..")?;
    }
    Ok(())
}

// Appends the cycles of a statement that is an instruction.
fn put_cycles(out: &mut Vec<u8>, statement: &Statement) -> Result<(), AllocError> {
    let Some(instr) = statement.instr else {
        return Ok(());
    };
    let Some(row) = row_for(instr.mnemonic, instr.mode) else {
        return Ok(());
    };
    raw(out, b", ")?;
    raw(out, decimal(u64::from(row.cycles)).as_slice())?;
    if row.crosses || row.mode == Mode::Relative {
        raw(out, b"+")?;
    }
    raw(out, b" cycles")
}

// Appends the hint of a statement.
fn put_hint<A: Allocator>(
    out: &mut Vec<u8>,
    page: &Page<'_>,
    image: &Image<A>,
    statement: &Statement,
) -> Result<(), AllocError> {
    let line = usize::from(statement.line).saturating_sub(1);
    let text = page.line(line);
    comma(out)?;
    raw(out, b"{\"position\":{\"line\":")?;
    number(out, line)?;
    raw(out, b",\"character\":")?;
    number(out, units_before(text, text.len()))?;
    raw(out, b"},\"paddingLeft\":true,\"label\":\"")?;
    word(out, statement.addr)?;
    raw(out, b":")?;
    put_bytes(out, image, statement)?;
    put_cycles(out, statement)?;
    raw(out, b"\"}")
}

// Appends the hints of the statements in the lines that are asked for.
fn put_hints_of<A: Allocator>(
    out: &mut Vec<u8>,
    page: &Page<'_>,
    program: &Program<A>,
) -> Result<(), AllocError> {
    let (first, last) = page.lines_asked();
    for statement in program.statements() {
        let line = usize::from(statement.line).saturating_sub(1);
        if first <= line && line <= last {
            put_hint(out, page, program.image(), statement)?;
        }
    }
    Ok(())
}

/// Appends for each statement in the lines that the parameters name its address, its bytes and its cycles; none in a document with errors.
pub(crate) fn put_hints(out: &mut Vec<u8>, page: &Page<'_>) -> Result<(), AllocError> {
    raw(out, b"[")?;
    let arena = Bump::new(page.alloc);
    if let Verdict::Accepted(_, program) = verdict_of(&arena, page.text)? {
        put_hints_of(out, page, &program)?;
    }
    raw(out, b"]")
}

// Whether a word is a directive.
fn is_directive(text: &[u8]) -> bool {
    for name in &DIRECTIVES {
        if text.eq_ignore_ascii_case(*name) {
            return true;
        }
    }
    false
}

// Returns the index of a word's kind in the list that `initialize` names: function, keyword, variable, number, string, comment, parameter
// and macro.
fn kind_index(page: &Page<'_>, line: usize, token: Token) -> Option<usize> {
    match token.kind {
        TokenKind::Label => Some(0),
        TokenKind::Operation if is_directive(page.text_of(line, token)) => Some(7),
        TokenKind::Operation => Some(1),
        TokenKind::Name => Some(2),
        TokenKind::Number => Some(3),
        TokenKind::Text => Some(4),
        TokenKind::Comment => Some(5),
        TokenKind::Register => Some(6),
        TokenKind::Sign => None,
    }
}

// The line and the character of the word before.
#[derive(Clone, Copy)]
struct Before {
    line: usize,
    character: usize,
}

// Appends the five numbers of a word: its distance from the word before, its length, its kind and no more.
fn put_token(
    out: &mut Vec<u8>,
    page: &Page<'_>,
    before: Before,
    line: usize,
    token: Token,
) -> Result<Before, AllocError> {
    let Some(kind) = kind_index(page, line, token) else {
        return Ok(before);
    };
    let text = page.line(line);
    let character = units_before(text, token.from);
    let width = units_before(text, token.to).saturating_sub(character);
    let moved = if before.line == line {
        character.saturating_sub(before.character)
    } else {
        character
    };
    comma(out)?;
    number(out, line.saturating_sub(before.line))?;
    raw(out, b",")?;
    number(out, moved)?;
    raw(out, b",")?;
    number(out, width)?;
    raw(out, b",")?;
    number(out, kind)?;
    raw(out, b",0")?;
    Ok(Before { line, character })
}

// Appends the numbers of the words of a line.
fn put_line_tokens(
    out: &mut Vec<u8>,
    page: &Page<'_>,
    before: Before,
    line: usize,
) -> Result<Before, AllocError> {
    let mut before = before;
    for token in tokens_of(page.alloc, page.line(line))?.as_slice() {
        before = put_token(out, page, before, line, *token)?;
    }
    Ok(before)
}

/// Appends the kinds of the words of a document.
pub(crate) fn put_tokens(out: &mut Vec<u8>, page: &Page<'_>) -> Result<(), AllocError> {
    let mut before = Before {
        line: 0,
        character: 0,
    };
    raw(out, b"{\"data\":[")?;
    for line in 0..page.lines.len() {
        before = put_line_tokens(out, page, before, line)?;
    }
    raw(out, b"]}")
}
