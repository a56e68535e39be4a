//! Replays keys in a debugger, each at its step.
//!
//! CALLING.md shows how to call it.
#![tactic(auto)]

mod replay;

pub use replay::{bring, by_steps};
