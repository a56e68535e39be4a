//! The debugger in panes over a whole terminal: source, registers, stack, memory, the last answer and the Apple's screen,
//! redrawn after each line.
//!
//! CALLING.md shows how to call it.
#![tactic(auto)]

mod layout;
mod paint;
mod panes;

pub use layout::{LEAST_COLUMNS, LEAST_ROWS};
pub use panes::{Panes, Wall};
