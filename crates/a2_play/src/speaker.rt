//! Notes when the speaker moves.

use a2_burst::{Observer, StepView};
use a2_effect::Regs;
use a2_machine::{Machine, operand_address};
use a2_opcode::{Mnemonic, row_of};
use a2_stream::{Output, WriteFault, put, put_all};
use a2_text::decimal;
use std::alloc::{AllocError, Global};
use std::marker::Model;

/// The address at which each read and each write moves the speaker.
const SPEAKER: u16 = 0xC030;

/// The largest number of moves in a report.
const MOST_MOVES: usize = 4_096;

// Returns whether an instruction with this opcode reads or writes at the speaker's address. `regs` are the registers before it, and
// `ram` is memory after it.
fn moves_speaker(opcode: u8, regs: &Regs, ram: &[u8]) -> bool {
    let Some(row) = row_of(opcode) else {
        return false;
    };
    // The address of these two is where they jump.
    if matches!(row.mnemonic, Mnemonic::Jmp | Mnemonic::Jsr) {
        return false;
    }
    operand_address(row.mode, regs, ram) == Some(SPEAKER)
}

/// An observer that notes at which cycles the speaker moved.
#[derive(Drop)]
pub(crate) struct Speaker {
    moves: Vec<u64>,
    // The registers and the cycles before the next step.
    regs: Regs,
    cycles: u64,
}

// Contracts say nothing of the speaker.
impl Model for Speaker {
    ghost Value = { Unit {0} };

    ghost view = { λ _. tt };
}

impl Speaker {
    /// Creates an observer that noted no move of this machine. Fails only if memory is short.
    pub(crate) fn new(alloc: Global, machine: &Machine) -> Result<Speaker, AllocError> {
        Ok(Speaker {
            moves: Vec::with_capacity(alloc, MOST_MOVES)?,
            regs: machine.regs(),
            cycles: machine.cycles(),
        })
    }

    /// Prepares for the next steps of this machine.
    pub(crate) fn attend(&mut self, machine: &Machine) {
        self.regs = machine.regs();
        self.cycles = machine.cycles();
    }

    /// Forgets all moves.
    pub(crate) fn forget(&mut self) {
        self.moves.clear();
    }

    /// Writes the cycles at which the speaker moved, in a control string that terminals ignore, and forgets them. `rate` is the
    /// number of cycles in a second. If the speaker did not move, nothing is written.
    pub(crate) fn report<W: Output>(
        &mut self,
        rate: u64,
        writer: &mut W,
    ) -> Result<(), WriteFault> {
        if self.moves.is_empty() {
            return Ok(());
        }
        put_all(&[b"\x1B]6502;", decimal(rate).as_slice(), b";"], writer)?;
        put_numbers(self.moves.as_slice(), writer)?;
        self.moves.clear();
        put(b"\x1B\\", writer)
    }
}

// Writes numbers with blanks between them.
fn put_numbers<W: Output>(numbers: &[u64], writer: &mut W) -> Result<(), WriteFault> {
    let [first, others @ ..] = numbers else {
        return Ok(());
    };
    put(decimal(*first).as_slice(), writer)?;
    for other in others {
        put_all(&[b" ", decimal(*other).as_slice()], writer)?;
    }
    Ok(())
}

impl Observer for Speaker {
    ghost seen = { λ speaker _. speaker };

    #[inline(always)]
    fn see(&mut self, look: StepView, ram: &[u8]) {
        self.cycles = self.cycles.saturating_add(u64::from(look.cycles));
        if moves_speaker(look.opcode, &self.regs, ram) && self.moves.len() < MOST_MOVES {
            // There is room, so no memory is needed.
            let _ = self.moves.push(self.cycles);
        }
        self.regs.pc = look.next_pc;
        self.regs.x = look.next_x;
        self.regs.y = look.next_y;
    }
}
