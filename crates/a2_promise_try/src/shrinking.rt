//! Simplifies a state in which a promise fails: finds lower values that also break it.

use crate::trial_machine::TrialMachine;
use crate::trial_states::{Tried, try_state};
use a2_promise::Promise;
use a2_promise_certify::Input;
use std::alloc::AllocError;

// Lowers one value of a state that breaks the promise: to 0 if the promise is still broken, or otherwise, for a short
// run, to the lowest value that breaks it.
fn shrink_value(
    machine: &mut TrialMachine,
    promise: &Promise,
    inputs: &[Input],
    values: &mut [u8],
    index: usize,
    is_short: bool,
) -> Result<(), AllocError> {
    if index >= values.len() {
        return Ok(());
    }
    let greatest = values[index];
    let end = if is_short { greatest } else { 1.min(greatest) };
    for less in 0..end {
        values[index] = less;
        if let Tried::Broken(_, _) = try_state(machine, promise, inputs, values)? {
            return Ok(());
        }
    }
    values[index] = greatest;
    Ok(())
}

// A failure with more steps than this is reported as found, since lowering its values would take too long.
const MAX_STEPS_TO_SHRINK: u32 = 20_000;

// If steps times inputs exceed this number, 0 is the only lower value tried for each input.
const MAX_WORK_TO_SHRINK: u64 = 200_000;

/// Lowers the values of a state that breaks the promise after this many steps.
pub(crate) fn shrink_values(
    machine: &mut TrialMachine,
    promise: &Promise,
    inputs: &[Input],
    values: &mut [u8],
    steps: u32,
) -> Result<(), AllocError> {
    if steps > MAX_STEPS_TO_SHRINK {
        return Ok(());
    }
    let is_short = u64::from(steps).saturating_mul(inputs.len() as u64) <= MAX_WORK_TO_SHRINK;
    for index in (0..inputs.len()).rev() {
        shrink_value(machine, promise, inputs, values, index, is_short)?;
    }
    Ok(())
}
