//! Instructions of an image, and where they go.

use a2_hex::Image;
use a2_opcode::{Instr, Mnemonic, Mode, decode, row_for};
use std::alloc::Allocator;

/// Returns the instruction that begins at an address of an image.
pub(crate) fn instruction_at<A: Allocator>(image: &Image<A>, address: u16) -> Option<Instr> {
    let first = image.get(address)?;
    let Some(second) = image.get(address.wrapping_add(1)) else {
        return decode(&[first], address);
    };
    let Some(third) = image.get(address.wrapping_add(2)) else {
        return decode(&[first, second], address);
    };
    decode(&[first, second, third], address)
}

/// Returns the address after an instruction.
pub(crate) fn address_after(instr: Instr, address: u16) -> u16 {
    address.wrapping_add(u16::from(instr.mode.length()))
}

/// Returns whether the next instruction is never executed after this one, except by a jump.
pub(crate) fn ends_flow(instr: Instr) -> bool {
    matches!(
        instr.mnemonic,
        Mnemonic::Jmp | Mnemonic::Rts | Mnemonic::Rti | Mnemonic::Brk
    )
}

/// Returns the address to which an instruction may go, beside the next one.
pub(crate) fn target_of(instr: Instr) -> Option<u16> {
    match (instr.mode, instr.mnemonic) {
        (Mode::Relative, _) | (Mode::Absolute, Mnemonic::Jmp | Mnemonic::Jsr) => Some(instr.value),
        _ => None,
    }
}

/// Returns whether the operand of an instruction is an address.
pub(crate) fn has_address(instr: Instr) -> bool {
    !matches!(
        instr.mode,
        Mode::Implied | Mode::Accumulator | Mode::Immediate
    )
}

/// Returns whether an instruction stores at its operand.
pub(crate) fn is_store(instr: Instr) -> bool {
    let stores = matches!(
        instr.mnemonic,
        Mnemonic::Sta
            | Mnemonic::Stx
            | Mnemonic::Sty
            | Mnemonic::Inc
            | Mnemonic::Dec
            | Mnemonic::Asl
            | Mnemonic::Lsr
            | Mnemonic::Rol
            | Mnemonic::Ror
    );
    stores && matches!(instr.mode, Mode::ZeroPage | Mode::Absolute)
}

// Returns the mode with an operand of one byte instead of two.
fn short_mode(mode: Mode) -> Option<Mode> {
    match mode {
        Mode::Absolute => Some(Mode::ZeroPage),
        Mode::AbsoluteX => Some(Mode::ZeroPageX),
        Mode::AbsoluteY => Some(Mode::ZeroPageY),
        _ => None,
    }
}

// Returns the mode with an operand of two bytes instead of one.
fn long_mode(mode: Mode) -> Option<Mode> {
    match mode {
        Mode::ZeroPage => Some(Mode::Absolute),
        Mode::ZeroPageX => Some(Mode::AbsoluteX),
        Mode::ZeroPageY => Some(Mode::AbsoluteY),
        _ => None,
    }
}

// Returns whether the mnemonic of an instruction also has this mode.
fn also_has(instr: Instr, mode: Option<Mode>) -> bool {
    match mode {
        Some(mode) => row_for(instr.mnemonic, mode).is_some(),
        None => false,
    }
}

/// Returns whether an instruction has three bytes although its operand would fit in two.
pub(crate) fn is_long(instr: Instr) -> bool {
    instr.value < 256 && also_has(instr, short_mode(instr.mode))
}

/// Returns whether an instruction has two bytes, and a form of three bytes exists.
pub(crate) fn is_short(instr: Instr) -> bool {
    also_has(instr, long_mode(instr.mode))
}
