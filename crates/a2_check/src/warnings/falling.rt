//! Whether a program runs into one of its own subroutines.

use crate::warnings::addresses::AddressSet;
use crate::warnings::flow::ends;
use a2_asm::Statement;
use a2_opcode::{Instr, Mnemonic, Mode};
use std::alloc::{AllocError, Allocator};

// Returns the addresses that instructions call by JSR.
fn called<A: Allocator>(alloc: A, statements: &[Statement]) -> Result<AddressSet<A>, AllocError> {
    let mut called = AddressSet::new(alloc)?;
    for statement in statements {
        if let Some(instr) = statement.instr {
            if instr.mnemonic == Mnemonic::Jsr {
                called.add(instr.value);
            }
        }
    }
    Ok(called)
}

// Whether an instruction puts a value into a register, as before a call.
fn loads(mnemonic: Mnemonic) -> bool {
    matches!(
        mnemonic,
        Mnemonic::Lda
            | Mnemonic::Ldx
            | Mnemonic::Ldy
            | Mnemonic::Pla
            | Mnemonic::Tax
            | Mnemonic::Tay
            | Mnemonic::Txa
            | Mnemonic::Tya
    )
}

// The instructions that follow one another in memory from the entry of a program, as far as they are followed.
#[derive(Clone, Copy)]
struct Stretch {
    // The address after the last of them.
    end: u16,
    // The highest target of their branches.
    target: u16,
    // The mnemonic of the last of them.
    last: Option<Mnemonic>,
}

impl Stretch {
    // Returns the stretch with one more instruction, which has this length.
    fn with(self, instr: Instr, length: u16) -> Stretch {
        let target = if instr.mode == Mode::Relative {
            self.target.max(instr.value)
        } else {
            self.target
        };
        Stretch {
            end: self.end.wrapping_add(length),
            target,
            last: Some(instr.mnemonic),
        }
    }

    // Whether the program runs on after the last instruction without a value for a routine that follows.
    fn runs_on(self) -> bool {
        match self.last {
            Some(last) => !ends(last) && !loads(last),
            None => false,
        }
    }

    // Whether the stretch ends: the program does not run on, and no branch leads to a later address.
    fn is_over(self) -> bool {
        match self.last {
            Some(last) => ends(last) && self.target < self.end,
            None => false,
        }
    }
}

/// Returns the number of the line of a subroutine that a program also enters from the line above it: the instructions that follow
/// one another from the entry run on into an instruction that some JSR calls. Only the instructions up to the first JMP, RTS, RTI or BRK
/// that no branch passes are followed: a routine may run into another one to save a JMP. A program may do so too, after it has loaded a
/// register for the routine, so that is not meant either.
pub(crate) fn entered_from_above<A: Allocator>(
    alloc: A,
    statements: &[Statement],
    entry: u16,
) -> Result<Option<u16>, AllocError> {
    let called = called(alloc, statements)?;
    let mut stretch = Stretch {
        end: entry,
        target: entry,
        last: None,
    };
    for statement in statements {
        if let Some(instr) = statement.instr {
            if statement.addr == stretch.end {
                if stretch.runs_on() && called.contains(statement.addr) {
                    return Ok(Some(statement.line));
                }
                stretch = stretch.with(instr, statement.length);
                if stretch.is_over() {
                    return Ok(None);
                }
            }
        }
    }
    Ok(None)
}
