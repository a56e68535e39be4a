//! The verdict on a promise.

use crate::broken::Broken;
use crate::exit::{FallThrough, TracedStep};
use a2_bus::Keys;
use a2_cpu::Regs;
use a2_promise_certify::Input;

/// How many states are tried.
#[derive(Clone, Copy)]
pub struct Trials {
    /// If there are at most this many states, all are tried.
    pub all: u64,
    /// If there are more, this many are tried.
    pub some: u64,
}

/// A state in which a promise does not hold.
pub struct Failure {
    /// The inputs at the entry; the first `looked` of them are those that the promise names or its routine reads. The
    /// registers and flags that are left follow, and then the other bytes that the run or the unmet clause reads.
    pub inputs: Vec<Input>,
    pub looked: usize,
    /// The value of each input.
    pub values: Vec<u8>,
    /// The keys that are typed at the entry.
    pub keys: Keys,
    pub broken: Broken,
    pub fall_through: Option<FallThrough>,
    /// The printed text if it differs from the promise, or the keys that were left, with bit 7 set.
    pub told: Vec<u8>,
    /// The number of steps executed, and the registers after the last one.
    pub steps: u32,
    pub regs: Regs,
    pub last: Vec<TracedStep>,
}

// Written by hand only for the prover: it handles this as one call, but a derived `Drop` field by field.
impl Drop for Failure {
    fn drop(self) {
        let Failure {
            inputs: _,
            looked: _,
            values: _,
            keys: _,
            broken: _,
            fall_through: _,
            told: _,
            steps: _,
            regs: _,
            last: _,
        } = self;
    }
}

/// Why a promise that held in every state tried is not known to hold in every state.
#[derive(Clone, Copy)]
pub enum Doubt {
    /// It says what is printed.
    Prints,
    /// It says which keys are taken.
    Takes,
    /// It says something about S, or the routine uses TSX or TXS; S is $FD in each state tried.
    Stack,
    /// It says something about D, which is clear in each state tried.
    Decimal,
    /// The routine calls the service at this address.
    Service(u16),
    Other,
}

/// A promise that held in `kept` states out of `tried`, and these inputs have `total` states in all. The inputs are
/// those that the promise names and those that its routine reads. An input that the requirements settle has one
/// value. `is_everywhere` says whether the promise is known to hold in every world at the routine's entry.
#[derive(Drop)]
pub struct Held {
    pub inputs: Vec<Input>,
    pub kept: u64,
    pub tried: u64,
    pub total: u64,
    pub is_everywhere: bool,
    /// Why it is not, if it is not.
    pub doubt: Doubt,
    /// The addresses of bytes that the program lays and that runs read as they are laid.
    pub laid: Vec<u16>,
    pub fall_through: Option<FallThrough>,
}

/// The verdict on a promise.
#[derive(Drop)]
pub enum PromiseVerdict {
    Held(Held),
    /// The promise does not hold in some state.
    Fails(Failure),
    /// The promise allows none of this many states.
    NoState(u64),
}
