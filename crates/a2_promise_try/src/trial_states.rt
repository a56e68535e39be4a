//! The states in which a routine is tried, and its run from one of them.

use crate::broken::{Broken, broken_by};
use crate::entry_ram::any_byte;
use crate::exit::TrialRun;
use crate::label_facts::{Tally, broken_within};
use crate::named_inputs::Inputs;
use crate::trial_machine::{ROUTINE_MAX_STEPS, TrialMachine};
use a2_cpu::Regs;
use a2_effect::Live;
use a2_promise::Promise;
use a2_promise_certify::{Input, all_hold, put_register, sight_of};
use std::alloc::AllocError;

/// The result of trying a state.
#[derive(Clone, Copy)]
pub(crate) enum Tried {
    /// The promise does not allow the state.
    LeftOut,
    Kept,
    Broken(Broken, TrialRun),
}

/// Sets RAM to that of a state, and returns the registers with which the routine at an address is entered.
pub(crate) fn enter(
    machine: &mut TrialMachine,
    inputs: &[Input],
    values: &[u8],
    address: u16,
) -> Regs {
    machine.restore();
    for (input, value) in inputs.iter().zip(values) {
        if let Input::Byte(place) = *input {
            machine.set(place, *value);
        }
    }
    regs_at_entry(inputs, values, address)
}

/// Returns the registers with which the routine at an address is entered, if the inputs have these values.
pub(crate) fn regs_at_entry(inputs: &[Input], values: &[u8], address: u16) -> Regs {
    let mut live = Live::of(&Regs::start(address));
    for (input, value) in inputs.iter().zip(values) {
        match *input {
            Input::Byte(_) => {}
            register => put_register(register, *value, &mut live),
        }
    }
    live.regs()
}

// Runs a routine from these registers, with RAM as at the entry, until it leaves or a clause at a label within it is
// not met. Also returns the part of the promise that is not kept.
fn run_routine(
    machine: &mut TrialMachine,
    promise: &Promise,
    regs: Regs,
) -> Result<(TrialRun, Option<Broken>), AllocError> {
    let mut tally = Tally::new(machine.alloc, promise)?;
    let mut run = TrialRun::at(regs);
    for _ in 0..=ROUTINE_MAX_STEPS {
        if let Some(broken) = broken_within(promise, machine, &mut tally, regs, &run) {
            return Ok((run, Some(broken)));
        }
        if !machine.execute_step(&mut run)? {
            break;
        }
    }
    Ok((run, broken_by(promise, machine, regs, &run)?))
}

/// Tries the state in which the inputs have these values.
pub(crate) fn try_state(
    machine: &mut TrialMachine,
    promise: &Promise,
    inputs: &[Input],
    values: &[u8],
) -> Result<Tried, AllocError> {
    let regs = enter(machine, inputs, values, promise.address);
    let entry = sight_of(&regs, &machine.before, 0, 0);
    if !all_hold(promise.wanted.as_slice(), &entry, &entry) {
        return Ok(Tried::LeftOut);
    }
    match run_routine(machine, promise, regs)? {
        (run, Some(broken)) => Ok(Tried::Broken(broken, run)),
        (_, None) => Ok(Tried::Kept),
    }
}

// Returns an arbitrary value for the input with this index; half of the values are taken from `corners`.
fn any_value(corners: &[u8], number: u64, index: usize) -> u8 {
    let seed = number.wrapping_mul(64).wrapping_add(index as u64);
    let byte = any_byte(seed);
    if any_byte(!seed) < 128 {
        let place = usize::from(byte) % corners.len().max(1);
        corners.get(place).copied().unwrap_or(byte)
    } else {
        byte
    }
}

/// Sets the values of the state with this number. If all states are tried, they are counted through in order;
/// otherwise the values are arbitrary. Inputs that are not varied always get arbitrary values, and settled ones
/// always their only value.
pub(crate) fn put_values(
    values: &mut [u8],
    inputs: &Inputs,
    corners: &[u8],
    number: u64,
    is_all: bool,
) {
    let varied = inputs.varied().len();
    let mut rest = number;
    for (index, input) in inputs.all.iter().enumerate() {
        let among = input.values().max(1);
        let value = if let Some(Some(byte)) = inputs.settled.as_slice().get(index) {
            *byte
        } else if is_all && index < varied {
            let digit = rest % among;
            rest /= among;
            (digit % 256) as u8
        } else {
            (u64::from(any_value(corners, number, index)) % among % 256) as u8
        };
        if let Some(place) = values.get_mut(index) {
            *place = value;
        }
    }
}
