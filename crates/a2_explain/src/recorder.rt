//! Records the steps of a run.

use crate::step::{Step, Store};
use a2_burst::{Observer, StepView};
use a2_effect::{Regs, stores_operand};
use a2_hex::RAM_END;
use a2_machine::{Machine, operand_address};
use a2_opcode::row_of;
use std::alloc::{AllocError, Allocator};
use std::marker::Model;

// Returns what an instruction with this opcode stored, from the registers before it and RAM after it.
fn store_of(opcode: u8, regs: &Regs, ram: &[u8]) -> Option<Store> {
    let row = row_of(opcode)?;
    if !stores_operand(row.mnemonic) {
        return None;
    }
    let address = operand_address(row.mode, regs, ram)?;
    if address >= RAM_END {
        return None;
    }
    Some(Store {
        address,
        byte: *ram.get(usize::from(address))?,
    })
}

/// An observer that records each step.
#[derive(Drop)]
pub(crate) struct Recorder<A: Allocator> {
    steps: Vec<Step, A>,
    // How many steps were run before the next one.
    made: u64,
    // The registers before the next step.
    regs: Regs,
}

// Contracts say nothing of what is recorded.
impl<A: Allocator> Model for Recorder<A> {
    ghost Value = { Unit {0} };

    ghost view = { λ _. tt };
}

impl<A: Allocator + Copy> Recorder<A> {
    /// Nothing is recorded yet of a machine that runs so many steps. Fails only if there is not enough memory.
    pub(crate) fn of(
        alloc: A,
        machine: &Machine<A>,
        count: usize,
    ) -> Result<Recorder<A>, AllocError> {
        Ok(Recorder {
            steps: Vec::with_capacity(alloc, count)?,
            made: machine.steps(),
            regs: machine.regs(),
        })
    }

    /// Returns the recorded steps.
    pub(crate) fn into_steps(self) -> Vec<Step, A> {
        let Recorder {
            steps,
            made: _,
            regs: _,
        } = self;
        steps
    }
}

impl<A: Allocator + Copy> Observer for Recorder<A> {
    ghost seen = { λ recorder _. recorder };

    #[inline(always)]
    fn see(&mut self, look: StepView, ram: &[u8]) {
        let step = Step {
            before: self.made,
            regs: self.regs,
            opcode: look.opcode,
            next_s: look.next_s,
            next_pc: look.next_pc,
            store: store_of(look.opcode, &self.regs, ram),
        };
        self.made = self.made.saturating_add(1);
        self.regs.pc = look.next_pc;
        self.regs.a = look.next_a;
        self.regs.x = look.next_x;
        self.regs.y = look.next_y;
        self.regs.s = look.next_s;
        // There is room for as many steps as are run.
        let _ = self.steps.push(step);
    }
}
