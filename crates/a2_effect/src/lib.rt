//! The effect of each 6502 instruction on the registers and on any memory.
//!
//! [`Live`] holds the registers in the form used for computing, [`Regs`] in the form used for keeping them. Each
//! addressing mode is a type in [`modes`], which finds where an operand is. Each mnemonic is a type in [`mnemonics`],
//! which says what it does to the registers. What an instruction does with a memory is in [`families`], one function
//! for each family of mnemonics. [`stores_operand`] says which mnemonics store at their operand. `a2_cpu` builds one
//! instruction over any bus from these parts, and `a2_burst` builds bursts over RAM. All of it follows the MCS6500
//! Microcomputer Family Programming Manual (MOS Technology, 1976).
//!
//! CALLING.md shows how to call this crate.
#![tactic(auto)]

ghost use Rattle.std.specs.Prelude.{◌≡◌};
ghost use Rattle.a2_effect.specs.Registers.{registers_at};
ghost use Rattle.a2_effect.specs.View.{registers_of, bits_of};

pub mod families;
mod live;
pub mod mnemonics;
pub mod modes;
mod status;
mod stores;

pub use live::Live;
pub use status::Status;
pub use stores::stores_operand;

/// The registers (MCS6500 Programming Manual, chapters 2 to 4, 6 and 8).
#[derive(Clone, Copy, PartialEq, Eq, Debug)]
pub struct Regs {
    /// The accumulator.
    pub a: u8,
    /// Index register X.
    pub x: u8,
    /// Index register Y.
    pub y: u8,
    /// The stack pointer, from 0 to $FF. A push stores at $0100 + S, then S goes down by one.
    pub s: u8,
    /// The address of the next instruction.
    pub pc: u16,
    /// The flags.
    pub p: Status,
}

impl Regs {
    /// Returns the registers at the start of a run (this project's profile). PC is `entry`, which may be any address,
    /// and S is $FD. A, X, Y and the flags are 0, including bits 5 and 4 of the flags.
    pub fn start(entry: u16) -> Regs
        ensures registers { registers_of result ≡ registers_at entry }
        ensures bits { bits_of result.p ≡ 0 }
    {
        Regs {
            a: 0,
            x: 0,
            y: 0,
            s: 0xFD,
            pc: entry,
            p: Status::none(),
        }
    }
}
