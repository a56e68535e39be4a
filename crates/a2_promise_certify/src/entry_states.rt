//! Enumerates the states of inputs: how many there are, and the registers and RAM of each.

ghost use Rattle.std.specs.Prelude.{◌≡◌, ◌||◌, ℕ, Bool, map, IsTrue, IfSome};
ghost use Rattle.a2_bus.specs.Memory.{Memory};
ghost use Rattle.a2_effect.specs.Live.{live_registers};
ghost use Rattle.a2_effect.specs.View.{registers_of};
ghost use Rattle.a2_services.specs.World.{world_of};
ghost use Rattle.a2_footprint.specs.Counting.{states_of, state_at};
ghost use Rattle.a2_promise_certify.specs.But.{IsEqualExcept};
ghost use Rattle.a2_promise_certify.specs.States.{has_byte, is_byte, values_of, with_value, with_values};

use crate::input::Input;
use crate::stored::put_back;
use a2_bus::{AddressSpace, Bus};
use a2_cpu::Regs;
use a2_effect::Live;
use a2_hex::RAM_END;
use std::alloc::Global;

/// Returns how many states the inputs have, or `None` if there are 2^64 or more.
pub(crate) fn count_states(inputs: &[Input]) -> Option<u64>
    ensures { IfSome result (λ states. states ≡ states_of (map values_of inputs.now)) }
{
    let mut states: u64 = 1;
    for input in inputs {
        states = states.checked_mul(input.values())?;
    }
    Some(states)
}

/// Sets an input that is a register or a flag to a value; an odd value sets a flag. For a byte of RAM nothing
/// changes.
pub fn put_register(input: Input, value: u8, live: &mut Live)
    ensures { (memory : Memory) → live_registers live.new
        ≡ (with_value input value (record { registers = live_registers live.old; memory = memory; cycles = 0 })).registers }
{
    let set = value % 2 == 1;
    match input {
        Input::A => live.a = value,
        Input::X => live.x = value,
        Input::Y => live.y = value,
        Input::Carry => live.carry = set,
        Input::Zero => live.set_nz(live.is_negative(), set),
        Input::Negative => live.set_nz(set, live.is_zero()),
        Input::Overflow => live.overflow = set,
        Input::Interrupt => live.interrupt = set,
        Input::Byte(_) => {}
    }
}

// Sets an input to a value. Returns false if it is a byte outside RAM.
fn put_value(input: Input, value: u8, regs: &mut Regs, space: &mut AddressSpace<Global>) -> bool
    ensures world { IsTrue result → world_of (registers_of regs.new) space.new 0
        ≡ with_value input value (world_of (registers_of regs.old) space.old 0) }
    ensures rest { IsEqualExcept (λ a. is_byte a input) space.new space.old }
{
    if let Input::Byte(address) = input {
        if address >= RAM_END {
            return false;
        }
        space.write(address, value);
        return true;
    }
    let mut live = Live::of(regs);
    put_register(input, value, &mut live);
    *regs = live.regs();
    true
}

/// Sets inputs to their values in the state with a given number. Returns false if one of them is a byte outside RAM.
pub(crate) fn put_state(
    inputs: &[Input],
    number: u64,
    regs: &mut Regs,
    space: &mut AddressSpace<Global>,
) -> bool
    ensures world { IsTrue result → world_of (registers_of regs.new) space.new 0
        ≡ with_values inputs.now (state_at (map values_of inputs.now) number) (world_of (registers_of regs.old) space.old 0) }
    ensures rest { IsEqualExcept (has_byte inputs.now) space.new space.old }
{
    let [input, rest @ ..] = inputs else {
        return true;
    };
    let values = input.values();
    put_state(rest, number / values, regs, space)
        && put_value(*input, (number % values) as u8, regs, space)
}

// Copies the byte of an input from another RAM.
fn put_back_input(input: Input, space: &mut AddressSpace<Global>, other: &AddressSpace<Global>)
    ensures { (there : ℕ → Bool) → IsEqualExcept (λ a. is_byte a input || there a) space.old other.now → IsEqualExcept there space.new other.now }
{
    match input {
        Input::Byte(address) => put_back(address, space, other),
        _ => {}
    }
}

/// Copies the bytes of all inputs from another RAM.
pub(crate) fn put_back_inputs(
    inputs: &[Input],
    space: &mut AddressSpace<Global>,
    other: &AddressSpace<Global>,
)
    ensures { IsEqualExcept (has_byte inputs.now) space.old other.now → space.new ≡ other.now }
{
    for input in inputs {
        put_back_input(*input, space, other);
    }
}
