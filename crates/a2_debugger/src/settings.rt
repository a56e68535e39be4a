//! What a user sets by hand: a register, a flag, PC or a byte.

ghost use Rattle.std.specs.Prelude.{◌≡◌};
ghost use Rattle.a2_effect.specs.View.{registers_of, flags_of};
ghost use Rattle.a2_machine.specs.State.{world_of_state};
ghost use Rattle.a2_history.specs.Courses.{with_change};
ghost use Rattle.a2_debugger.specs.Settings as set;

use crate::stops::{Flag, Register};
use a2_effect::{Regs, Status};
use a2_history::Change;
use a2_machine::Machine;
use std::alloc::Allocator;

/// What is set by hand, and its value.
#[derive(Clone, Copy)]
pub enum Setting {
    /// An 8-bit register.
    Register(Register, u8),
    /// A flag.
    Flag(Flag, bool),
    /// PC.
    Counter(u16),
    /// The byte at an address of RAM.
    Byte(u16, u8),
}

// The registers, with another value of one.
fn with_register(register: Register, value: u8, regs: Regs) -> Regs
    ensures { registers_of result ≡ set.with_register register value (registers_of regs) }
{
    match register {
        Register::A => Regs { a: value, ..regs },
        Register::X => Regs { x: value, ..regs },
        Register::Y => Regs { y: value, ..regs },
        Register::S => Regs { s: value, ..regs },
        Register::P => Regs {
            p: Status::pulled(value),
            ..regs
        },
    }
}

// The flags, with another value of one.
fn with_flag(flag: Flag, is_set: bool, p: Status) -> Status
    ensures { flags_of result ≡ set.with_flag flag is_set (flags_of p) }
{
    let (n, v, d) = (p.negative(), p.overflow(), p.decimal());
    let (i, z, c) = (p.interrupt(), p.zero(), p.carry());
    match flag {
        Flag::N => Status::pack(is_set, v, d, i, z, c),
        Flag::V => Status::pack(n, is_set, d, i, z, c),
        Flag::D => Status::pack(n, v, is_set, i, z, c),
        Flag::I => Status::pack(n, v, d, is_set, z, c),
        Flag::Z => Status::pack(n, v, d, i, is_set, c),
        Flag::C => Status::pack(n, v, d, i, z, is_set),
    }
}

/// Returns the change that sets this in a machine.
pub fn change_of<A: Allocator + Copy>(setting: Setting, machine: &Machine<A>) -> Change
    ensures { with_change result (world_of_state machine.now.state) ≡ set.with_setting setting (world_of_state machine.now.state) }
{
    let regs = machine.regs();
    match setting {
        Setting::Register(register, value) => {
            Change::Registers(with_register(register, value, regs))
        }
        Setting::Flag(flag, is_set) => Change::Registers(Regs {
            p: with_flag(flag, is_set, regs.p),
            ..regs
        }),
        Setting::Counter(pc) => Change::Registers(Regs { pc, ..regs }),
        Setting::Byte(address, byte) => Change::Byte(address, byte),
    }
}
