//! Warnings about texts that the program prints.

use crate::warnings::addresses::AddressSet;
use crate::warnings::statements::{puts, shows_small};
use crate::warnings::{Warning, WarningKind};
use a2_asm::Statement;
use a2_effect::stores_operand;
use a2_opcode::{Instr, Mnemonic, Mode};
use a2_syntax::{Body, Line};
use std::alloc::{AllocError, Allocator};

// Whether A is the same after an instruction, and the next one may be executed.
fn keeps_a(mnemonic: Mnemonic) -> bool {
    matches!(
        mnemonic,
        Mnemonic::Ldx
            | Mnemonic::Ldy
            | Mnemonic::Sta
            | Mnemonic::Stx
            | Mnemonic::Sty
            | Mnemonic::Inx
            | Mnemonic::Iny
            | Mnemonic::Dex
            | Mnemonic::Dey
            | Mnemonic::Cmp
            | Mnemonic::Beq
            | Mnemonic::Bne
    )
}

// Whether A is written to the screen before another instruction can change it.
fn is_shown(following: &[Statement]) -> bool {
    for statement in following {
        if puts(statement) {
            return true;
        }
        match statement.instr {
            Some(instr) if keeps_a(instr.mnemonic) => {}
            _ => return false,
        }
    }
    false
}

// Whether an instruction loads A from memory, at its operand or with an index after it.
fn loads(instr: Instr) -> bool {
    instr.mnemonic == Mnemonic::Lda
        && matches!(
            instr.mode,
            Mode::Absolute | Mode::AbsoluteX | Mode::AbsoluteY | Mode::ZeroPage | Mode::ZeroPageX
        )
}

// Whether a statement stores at CSW, the two bytes that say which routine outputs a character, or is data there. Apple II Reference
// Manual (1979), its description of the input and output hooks.
fn sets_output(statement: &Statement) -> bool {
    match statement.instr {
        Some(instr) => matches!(instr.value, 0x36 | 0x37) && stores_operand(instr.mnemonic),
        None => matches!(statement.addr, 0x36 | 0x37),
    }
}

// Whether the program may output characters in its own way.
fn has_own_output(statements: &[Statement]) -> bool {
    for statement in statements {
        if sets_output(statement) {
            return true;
        }
    }
    false
}

// Returns the operands of the loads whose byte is written to the screen.
fn shown<A: Allocator>(alloc: A, statements: &[Statement]) -> Result<AddressSet<A>, AllocError> {
    let mut shown = AddressSet::new(alloc)?;
    for (i, statement) in statements.iter().enumerate() {
        if let Some(instr) = statement.instr {
            if loads(instr) && is_shown(&statements[i + 1..]) {
                shown.add(instr.value);
            }
        }
    }
    Ok(shown)
}

// Whether a set has the address of a byte of a statement.
fn has_byte_of<A: Allocator>(set: &AddressSet<A>, statement: &Statement) -> bool {
    for offset in 0..statement.length {
        if set.contains(statement.addr.wrapping_add(offset)) {
            return true;
        }
    }
    false
}

// Returns the warning for the codes of a text that is written to the screen, or `None` if there is none.
fn kind_of_codes(codes: &[u8]) -> Option<WarningKind> {
    for code in codes {
        match *code {
            0..=0x7F => return Some(WarningKind::PlainText),
            0xE1..=0xFA => return Some(WarningKind::Small),
            _ => {}
        }
    }
    None
}

// Returns the warning for the text of a line that is written to the screen, or `None` if it has no text.
fn kind_of_text<A: Allocator>(lines: &[Line<A>], number: u16) -> Option<WarningKind> {
    let line = lines.get(usize::from(number).saturating_sub(1))?;
    match &line.body {
        Body::Asc(codes) => kind_of_codes(codes.get()),
        _ => None,
    }
}

// Returns the warning for a statement that writes a small letter to the screen, or is a text that instructions write there.
fn kind_of_shown<A: Allocator>(
    text: &[u8],
    lines: &[Line<A>],
    statement: &Statement,
    following: &[Statement],
    shown: &AddressSet<A>,
) -> Option<WarningKind> {
    if shows_small(text, statement, following) {
        return Some(WarningKind::Small);
    }
    if statement.instr.is_none() && has_byte_of(shown, statement) {
        return kind_of_text(lines, statement.line);
    }
    None
}

/// Adds a warning for each small letter that is written to the screen, and for each text in ASC that instructions write there, if its
/// characters are not shown as they are written. A program that sets CSW has none.
pub(crate) fn warn_of_shown<A: Allocator + Copy>(
    alloc: A,
    warnings: &mut Vec<Warning, A>,
    texts: &[&[u8]],
    lines: &[Line<A>],
    statements: &[Statement],
) -> Result<(), AllocError> {
    if has_own_output(statements) {
        return Ok(());
    }
    let shown = shown(alloc, statements)?;
    for (i, statement) in statements.iter().enumerate() {
        let following = &statements[i + 1..];
        let line = usize::from(statement.line);
        let text = texts.get(line.saturating_sub(1)).copied().unwrap_or(b"");
        if let Some(kind) = kind_of_shown(text, lines, statement, following, &shown) {
            warnings.push(Warning { line, kind })?;
        }
    }
    Ok(())
}
