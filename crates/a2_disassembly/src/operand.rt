//! Names and operands.

use crate::code::{is_long, is_short};
use crate::draft::Draft;
use crate::labels::{Labels, Use};
use crate::marks::{Mark, Marks};
use a2_hex::Image;
use a2_opcode::{Instr, Mode};
use a2_text::hex_word;
use std::alloc::{AllocError, Allocator};

/// What is known of an image.
#[derive(Drop)]
pub(crate) struct Known<'k, 'a, A: Allocator> {
    pub image: &'k Image<A>,
    pub marks: &'k Marks<A>,
    pub labels: &'k Labels<'a, A>,
}

// Returns what the name of an address begins with if none was given.
fn prefix<A: Allocator>(known: &Known<'_, '_, A>, address: u16) -> &'static [u8] {
    if known.marks.at(address) != Mark::First {
        return b"D";
    }
    match known.labels.at(address) {
        Use::Called => b"SUB",
        _ => b"L",
    }
}

/// Appends the name of an address.
pub(crate) fn put_name<A: Allocator>(
    known: &Known<'_, '_, A>,
    draft: &mut Draft<A>,
    address: u16,
) -> Result<(), AllocError> {
    if let Some(name) = known.labels.name(address) {
        return draft.put(name);
    }
    draft.put(prefix(known, address))?;
    draft.put(&hex_word(address))
}

/// Appends an address by its name, or as a number if it has none.
pub(crate) fn put_address<A: Allocator>(
    known: &Known<'_, '_, A>,
    draft: &mut Draft<A>,
    address: u16,
) -> Result<(), AllocError> {
    let owner = known.marks.owner(address);
    if !known.labels.is_named(owner) {
        return draft.put_word(address);
    }
    put_name(known, draft, owner)?;
    let offset = address.wrapping_sub(owner);
    if offset > 0 {
        draft.put(b"+")?;
        draft.put_number(offset)?;
    }
    Ok(())
}

// Returns whether the operand of an instruction is written by its name. In page 0, an operand of one byte must be defined by an
// earlier line if two bytes would do too.
fn is_by_name<A: Allocator>(known: &Known<'_, '_, A>, instr: Instr, address: u16) -> bool {
    let owner = known.marks.owner(instr.value);
    known.labels.is_named(owner)
        && (known.marks.at(owner) == Mark::Empty || owner < address || !is_short(instr))
}

// Appends the address that an instruction at an address has as its operand.
fn put_place<A: Allocator>(
    known: &Known<'_, '_, A>,
    draft: &mut Draft<A>,
    instr: Instr,
    address: u16,
) -> Result<(), AllocError> {
    if is_long(instr) {
        draft.put(b"W")?;
        return draft.put(&hex_word(instr.value));
    }
    if is_by_name(known, instr, address) {
        return put_address(known, draft, instr.value);
    }
    match (instr.mode.length(), instr.mode) {
        (2, Mode::Relative) | (3, _) => draft.put_word(instr.value),
        _ => draft.put_pair((instr.value % 256) as u8),
    }
}

// Returns what is before and after the address in an operand.
fn signs(mode: Mode) -> (&'static [u8], &'static [u8]) {
    match mode {
        Mode::ZeroPageX | Mode::AbsoluteX => (b"", b",X"),
        Mode::ZeroPageY | Mode::AbsoluteY => (b"", b",Y"),
        Mode::IndexedIndirect => (b"(", b",X)"),
        Mode::IndirectIndexed => (b"(", b"),Y"),
        Mode::Indirect => (b"(", b")"),
        _ => (b"", b""),
    }
}

/// Appends an instruction at an address: its operation and its operand.
pub(crate) fn put_instruction<A: Allocator>(
    known: &Known<'_, '_, A>,
    draft: &mut Draft<A>,
    instr: Instr,
    address: u16,
) -> Result<(), AllocError> {
    draft.pad(crate::draft::OPERATION)?;
    draft.put(instr.mnemonic.name().as_bytes())?;
    if matches!(instr.mode, Mode::Implied | Mode::Accumulator) {
        return Ok(());
    }
    draft.pad(crate::draft::OPERAND)?;
    if instr.mode == Mode::Immediate {
        draft.put(b"#")?;
        return draft.put_pair((instr.value % 256) as u8);
    }
    let (before, after) = signs(instr.mode);
    draft.put(before)?;
    put_place(known, draft, instr, address)?;
    draft.put(after)
}
