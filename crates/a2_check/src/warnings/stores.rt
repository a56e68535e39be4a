//! Where the instructions of a program may store below $0100.

use a2_asm::Statement;
use a2_effect::stores_operand;
use a2_opcode::{Instr, Mode};

/// The addresses below $0100 where the instructions of a program may store.
#[derive(Drop)]
pub(crate) struct LowStores {
    // Whether an instruction stores with an index or through a pointer, and so perhaps at any address.
    anywhere: bool,
    at: [bool; 256],
}

impl LowStores {
    /// Returns the addresses for a program with these statements.
    pub(crate) fn of(statements: &[Statement]) -> LowStores {
        let mut all = LowStores {
            anywhere: false,
            at: [false; 256],
        };
        for statement in statements {
            if let Some(instr) = statement.instr {
                all.add(instr);
            }
        }
        all
    }

    // Adds the addresses where one instruction may store.
    fn add(&mut self, instr: Instr) {
        if !stores_operand(instr.mnemonic) {
            return;
        }
        match instr.mode {
            Mode::ZeroPage | Mode::Absolute => {
                if let Ok(address) = u8::try_from(instr.value) {
                    self.at[usize::from(address)] = true;
                }
            }
            Mode::Implied | Mode::Accumulator => {}
            _ => self.anywhere = true,
        }
    }

    /// Whether an instruction may store at an address.
    pub(crate) fn may_reach(&self, address: u8) -> bool {
        self.anywhere || self.at[usize::from(address)]
    }
}
