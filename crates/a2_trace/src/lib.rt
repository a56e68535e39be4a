//! Traces a finished run: a line for each chosen step, or its routines as a tree.
//!
//! CALLING.md shows how to call it.
#![tactic(auto)]

mod calls;
mod choice;
mod front;
mod line;
mod trace;

pub use calls::trace_calls;
pub use choice::Choice;
pub use trace::trace_source;
