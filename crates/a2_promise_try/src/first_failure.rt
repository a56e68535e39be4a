//! The first promise of a text that fails in some state, as a value from which its run can be shown.

use crate::failure_report::{put_claim, put_entry_state};
use crate::verdict::{Failure, PromiseVerdict};
use a2_asm::Program;
use a2_promise::Promise;
use a2_run::RunFault;
use a2_stream::{ToWrite, put_all};
use std::alloc::Global;

/// A promise that fails in some state: its routine, and the run in which it fails.
#[derive(Drop)]
pub struct FirstFailure {
    /// The name of the routine.
    pub routine: Vec<u8>,
    /// The routine's address.
    pub address: u16,
    /// The state in which the routine is entered, and the steps up to the failure.
    pub failure: Failure,
    /// What fails, on one line as in the report: `ADD: FAILS: line 1: A = 3`.
    pub claim: Vec<u8>,
    /// The state, on one line as in the report: `it starts with A=1, and 0 in all other registers and flags`.
    pub entered: Vec<u8>,
}

// Returns the failure of a promise as a value.
fn failure_as_value(
    alloc: Global,
    program: &Program<Global>,
    promise: &Promise,
    failure: Failure,
) -> Result<FirstFailure, RunFault> {
    let mut claim = Vec::new(alloc);
    let mut output = ToWrite::new(&mut claim);
    put_all(&[promise.name, b": "], &mut output)?;
    put_claim(promise, &failure, &mut output)?;
    let mut entered = Vec::new(alloc);
    put_entry_state(program, &failure, &mut ToWrite::new(&mut entered))?;
    Ok(FirstFailure {
        routine: Vec::from_slice(alloc, promise.name)?,
        address: promise.address,
        failure,
        claim,
        entered,
    })
}

/// Returns the failure in the verdict on a promise, or `None` if the verdict has no state in which the promise fails.
/// Fails only if memory runs out.
pub(crate) fn failure_in(
    alloc: Global,
    program: &Program<Global>,
    promise: &Promise,
    verdict: PromiseVerdict,
) -> Result<Option<FirstFailure>, RunFault> {
    match verdict {
        PromiseVerdict::Fails(failure) => Ok(Some(failure_as_value(
            alloc, program, promise, failure,
        )?)),
        _ => Ok(None),
    }
}
