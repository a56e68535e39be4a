//! The bytes, registers and flags that an instruction or a run uses, with laws that it depends on nothing else.
//!
//! CALLING.md shows how to use this crate.
#![tactic(auto)]

mod bytes;
mod laws;
mod parts;

pub use bytes::{BytesRead, pull_address, reads};
pub use laws::{
    boards_read_as_their_memory, call_promises_hold_everywhere, calls_go_back, doubling_holds,
    fetches_depend_on_reads, instructions_depend_on_reads, promises_hold_everywhere,
    runs_alike_on_rotated_stack, runs_depend_on_reads, runs_depend_on_uses, runs_off_stack_alike,
    services_depend_on_uses, services_keep_the_rest, states_are_counted, steps_by_bytes_read,
    steps_depend_on_reads, tries_depend_on_inputs, unknown_registers_stay,
};
pub use parts::{mode_needs, needs, sets};

/// A register or a flag. S and PC are not included: each instruction uses PC, and the stack is used through S.
#[derive(Clone, Copy, PartialEq, Eq, Debug)]
pub enum Part {
    A,
    X,
    Y,
    N,
    V,
    D,
    I,
    Z,
    C,
}
