//! Follows the routines that a run has entered and not yet left.
//!
//! CALLING.md shows how to call this crate.
#![tactic(auto)]

mod routines;

pub use routines::{Entry, enter, is_call, leave};
