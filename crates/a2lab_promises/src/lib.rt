//! The command `promise` of `a2lab`.
//!
//! How it is called is shown in CALLING.md.
#![tactic(auto)]

// No command is inlined, so that the stack holds the values of one command, not of all of them.

mod failing;
mod promising;

pub use promising::promise_of;
