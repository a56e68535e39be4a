//! A step of a run.

use a2_effect::Regs;
use a2_hex::RAM_END;
use a2_opcode::{Mnemonic, Row, row_of};

/// A byte of RAM that an instruction stored at its operand.
#[derive(Clone, Copy)]
pub(crate) struct Store {
    pub address: u16,
    pub byte: u8,
}

/// A step of a run.
#[derive(Clone, Copy)]
pub(crate) struct Step {
    /// How many steps were run before it.
    pub before: u64,
    /// The registers before it.
    pub regs: Regs,
    /// The opcode of its instruction.
    pub opcode: u8,
    /// S after it.
    pub next_s: u8,
    /// PC after it.
    pub next_pc: u16,
    /// What its instruction stored, unless it pushed that.
    pub store: Option<Store>,
}

impl Step {
    // Returns the row of its opcode, or `None` for a service.
    fn row(&self) -> Option<Row> {
        if self.regs.pc < RAM_END {
            row_of(self.opcode)
        } else {
            None
        }
    }

    /// Returns the mnemonic of its instruction, or `None` for a service.
    pub(crate) fn mnemonic(&self) -> Option<Mnemonic> {
        match self.row() {
            Some(row) => Some(row.mnemonic),
            None => None,
        }
    }

    /// Returns whether its instruction has this mnemonic.
    pub(crate) fn is(&self, mnemonic: Mnemonic) -> bool {
        self.mnemonic() == Some(mnemonic)
    }

    /// Returns the address after its instruction, or `None` for a service.
    pub(crate) fn end(&self) -> Option<u16> {
        match self.row() {
            Some(row) => Some(self.regs.pc.wrapping_add(u16::from(row.mode.length()))),
            None => None,
        }
    }
}
