//! Assembles a changed source, in which lines with errors are replaced, to learn their addresses and values.

use crate::forms::has_mode;
use crate::line::{number_of, parts_of};
use crate::names::missing;
use a2_asm::{Program, assemble, refused};
use a2_opcode::{Mnemonic, Mode};
use a2_syntax::{Body, Fault, Line, Operand, parse};
use a2_text::decimal;
use std::alloc::{AllocError, Allocator};

// A name that a source is unlikely to contain.
const HERE: &[u8] = b"_HERE_IN_A_SOURCE_THAT_IS_TRIED_";

/// Appends a line made of these pieces.
pub(crate) fn append_line<A: Allocator>(
    text: &mut Vec<u8, A>,
    pieces: &[&[u8]],
) -> Result<(), AllocError> {
    for piece in pieces {
        text.extend_from_slice(piece)?;
    }
    text.push(b'\n')?;
    Ok(())
}

// Assembles a text.
fn accepted<A: Allocator + Copy>(alloc: A, text: &[u8]) -> Result<Program<A>, Fault> {
    let source = parse(alloc, text)?;
    assemble(alloc, &source)
}

// Returns the program of a text if it assembles, if needed with one more instruction after its lines. The replaced lines may
// have held the only instruction.
fn tried<A: Allocator + Copy>(
    alloc: A,
    text: &mut Vec<u8, A>,
) -> Result<Option<Program<A>>, AllocError> {
    let tried = match accepted(alloc, text.as_slice()) {
        Err(Fault::NoCode) => {
            text.extend_from_slice(b" NOP")?;
            accepted(alloc, text.as_slice())
        }
        tried => tried,
    };
    match tried {
        Ok(program) => Ok(Some(program)),
        Err(fault) => {
            refused(fault)?;
            Ok(None)
        }
    }
}

// Returns an address and the 16-bit word there.
fn word_at<A: Allocator>(program: &Program<A>, address: u16) -> Option<(u16, u16)> {
    let low = program.image().get(address)?;
    let high = program.image().get(address.checked_add(1)?)?;
    Some((address, u16::from_le_bytes([low, high])))
}

/// Returns the address of the line at an index, and the 16-bit word there. The word is the line's value if the value was the
/// error.
pub(crate) fn word_of_line<A: Allocator>(program: &Program<A>, index: usize) -> Option<(u16, u16)> {
    for statement in program.statements() {
        if statement.line == number_of(index) {
            return word_at(program, statement.addr);
        }
    }
    None
}

// Whether the line at an index is an instruction whose value is the error.
fn is_word<A: Allocator>(line: &Line<A>, index: usize, refusals: &[Fault]) -> bool {
    let number = number_of(index);
    matches!(line.body, Body::Instr(_, _))
        && (refusals.contains(&Fault::Range(number)) || refusals.contains(&Fault::Branch(number)))
}

// Returns the pieces of a line that stores the value of its operand as a word, instead of the instruction.
fn as_word(line: &[u8]) -> [&[u8]; 3] {
    let parts = parts_of(line);
    [parts.label, b" DW ", parts.expression()]
}

// Whether one of these lines is an instruction whose value is the error.
fn has_word<A: Allocator>(lines: &[Line<A>], refusals: &[Fault]) -> bool {
    for (i, line) in lines.iter().enumerate() {
        if is_word(line, i, refusals) {
            return true;
        }
    }
    false
}

// Whether the line at an index cannot be assembled as it is: it has an undefined name, or it is DFB or DW with a bad value.
fn is_room<A: Allocator>(
    lines: &[Line<A>],
    line: &Line<A>,
    index: usize,
    refusals: &[Fault],
) -> bool {
    match &line.body {
        Body::Instr(_, _) => missing(lines, &line.body).is_some(),
        Body::Dfb(_) | Body::Dw(_) => {
            refusals.contains(&Fault::Range(number_of(index)))
                || missing(lines, &line.body).is_some()
        }
        _ => false,
    }
}

// Returns how many bytes an instruction has whose operand has an undefined name: as many as if a later line defined that name.
fn instruction_len<A: Allocator>(mnemonic: Mnemonic, operand: &Operand<A>) -> usize {
    let is_long = match operand {
        Operand::Plain(_) => has_mode(mnemonic, Mode::Absolute),
        Operand::WithX(_) => has_mode(mnemonic, Mode::AbsoluteX),
        Operand::WithY(_) => has_mode(mnemonic, Mode::AbsoluteY),
        Operand::InParentheses(_) => true,
        _ => false,
    };
    if is_long { 3 } else { 2 }
}

// Returns how many bytes a line has, if it has an undefined name or a bad value.
fn room_of<A: Allocator>(body: &Body<A>) -> usize {
    match body {
        Body::Instr(mnemonic, operand) => instruction_len(*mnemonic, operand),
        Body::Dfb(es) => es.get().len(),
        Body::Dw(es) => es.get().len().saturating_mul(2),
        _ => 0,
    }
}

// Appends a line with the label of another one, and as many bytes without a value.
fn append_room<A: Allocator>(
    text: &mut Vec<u8, A>,
    line: &[u8],
    count: usize,
) -> Result<(), AllocError> {
    text.extend_from_slice(parts_of(line).label)?;
    text.extend_from_slice(b" DS ")?;
    text.extend_from_slice(decimal(count as u64).as_slice())?;
    text.push(b'\n')?;
    Ok(())
}

/// Returns the program of a source in which each instruction with a bad value is replaced by that value as a word, and each other line
/// with an undefined name or a bad value by as many bytes. Returns `None` if there is no such instruction, or if the changed source does
/// not assemble.
pub(crate) fn with_values<A: Allocator + Copy>(
    alloc: A,
    texts: &[&[u8]],
    lines: &[Line<A>],
    refusals: &[Fault],
) -> Result<Option<Program<A>>, AllocError> {
    if !has_word(lines, refusals) {
        return Ok(None);
    }
    let mut text = Vec::new(alloc);
    for (i, line) in lines.iter().enumerate() {
        let written = texts.get(i).copied().unwrap_or(b"");
        if is_word(line, i, refusals) {
            append_line(&mut text, &as_word(written))?;
        } else if is_room(lines, line, i, refusals) {
            append_room(&mut text, written, room_of(&line.body))?;
        } else {
            append_line(&mut text, &[written])?;
        }
    }
    tried(alloc, &mut text)
}

// Returns the line of the statement with the lowest address that reaches past the address named `name`, if that line comes
// before the line at an index.
fn first_over<A: Allocator>(program: &Program<A>, index: usize, name: &[u8]) -> Option<u16> {
    let Ok(name) = str::from_utf8(name) else {
        return None;
    };
    let here = program.name(name)?;
    let mut found = None;
    let mut least = u16::MAX;
    for statement in program.statements() {
        let end = u32::from(statement.addr) + u32::from(statement.length);
        let is_earlier = usize::from(statement.line) <= index;
        if is_earlier && end > u32::from(here) && statement.addr < least {
            least = statement.addr;
            found = Some(statement.line);
        }
    }
    found
}

/// Returns the line of the statement with the lowest address that reaches past the address of a line. Returns `None` if the
/// rest of the source does not assemble.
pub(crate) fn in_the_way<A: Allocator + Copy>(
    alloc: A,
    texts: &[&[u8]],
    index: usize,
    label: &[u8],
) -> Result<Option<u16>, AllocError> {
    let name = if label.is_empty() { HERE } else { label };
    let mut text = Vec::new(alloc);
    for (i, line) in texts.iter().enumerate() {
        if i == index {
            append_line(&mut text, &[name, b" EQU *"])?;
        } else {
            append_line(&mut text, &[line])?;
        }
    }
    Ok(match tried(alloc, &mut text)? {
        Some(program) => first_over(&program, index, name),
        None => None,
    })
}
