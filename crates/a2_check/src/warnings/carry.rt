//! Warnings about the carry that ADC and SBC use.

use crate::warnings::{Warning, WarningKind};
use a2_asm::Statement;
use a2_opcode::{Instr, Mnemonic, Mode};
use std::alloc::{AllocError, Allocator};

// Whether the carry is known after an instruction, or is no longer in question: the instruction sets or tests it, or the next
// one is not executed, or not at once.
fn settles_carry(mnemonic: Mnemonic) -> bool {
    matches!(
        mnemonic,
        Mnemonic::Clc
            | Mnemonic::Sec
            | Mnemonic::Cmp
            | Mnemonic::Cpx
            | Mnemonic::Cpy
            | Mnemonic::Asl
            | Mnemonic::Lsr
            | Mnemonic::Rol
            | Mnemonic::Ror
            | Mnemonic::Plp
            | Mnemonic::Bcc
            | Mnemonic::Bcs
            | Mnemonic::Jsr
            | Mnemonic::Jmp
            | Mnemonic::Rts
            | Mnemonic::Rti
            | Mnemonic::Brk
    )
}

/// Returns the number of the line of the first ADC or SBC of a program, or `None` if there is none, or if an instruction before
/// it may set the carry.
pub(crate) fn unset_carry(statements: &[Statement]) -> Option<u16> {
    for statement in statements {
        if let Some(instr) = statement.instr {
            if matches!(instr.mnemonic, Mnemonic::Adc | Mnemonic::Sbc) {
                return Some(statement.line);
            }
            if settles_carry(instr.mnemonic) {
                return None;
            }
        }
    }
    None
}

// What the instructions before one say of the carry.
#[derive(Clone, Copy)]
enum Carry {
    // Nothing, or what their author meant.
    Open,
    // A comparison set it.
    Compared,
    // A comparison set it, and A was loaded after that.
    ComparedThenLoaded,
    // CLC cleared it.
    Cleared,
}

impl Carry {
    // Returns what is known of the carry after an instruction.
    fn after(self, mnemonic: Mnemonic) -> Carry {
        match mnemonic {
            Mnemonic::Cmp | Mnemonic::Cpx | Mnemonic::Cpy => Carry::Compared,
            Mnemonic::Clc => Carry::Cleared,
            Mnemonic::Adc | Mnemonic::Sbc => Carry::Open,
            Mnemonic::Lda | Mnemonic::Pla | Mnemonic::Txa | Mnemonic::Tya => self.loaded(),
            _ => {
                if settles_carry(mnemonic) {
                    Carry::Open
                } else {
                    self
                }
            }
        }
    }

    // Returns what is known of the carry after A was loaded.
    fn loaded(self) -> Carry {
        match self {
            Carry::Compared => Carry::ComparedThenLoaded,
            _ => self,
        }
    }

    // Returns the warning for an instruction that may use the carry. A comparison of two numbers of several bytes is CMP, LDA and SBC, so
    // that has none, and neither has 0 as the operand, which adds or subtracts the carry alone.
    fn kind_for(self, instr: Instr) -> Option<WarningKind> {
        let is_alone = instr.mode == Mode::Immediate && instr.value == 0;
        match (self, instr.mnemonic) {
            (Carry::Compared, Mnemonic::Adc | Mnemonic::Sbc)
            | (Carry::ComparedThenLoaded, Mnemonic::Adc)
                if !is_alone => Some(WarningKind::Compared),
            (Carry::Cleared, Mnemonic::Sbc) if !is_alone => Some(WarningKind::Cleared),
            _ => None,
        }
    }
}

/// Adds a warning for each ADC or SBC whose carry is that of a comparison, and for each SBC whose carry CLC cleared.
pub(crate) fn warn_of_carries<A: Allocator>(
    warnings: &mut Vec<Warning, A>,
    statements: &[Statement],
) -> Result<(), AllocError> {
    let mut carry = Carry::Open;
    for statement in statements {
        let Some(instr) = statement.instr else {
            carry = Carry::Open;
            continue;
        };
        if let Some(kind) = carry.kind_for(instr) {
            warnings.push(Warning {
                line: usize::from(statement.line),
                kind,
            })?;
        }
        carry = carry.after(instr.mnemonic);
    }
    Ok(())
}
