//! The Monitor at a terminal: answers its lines one after another.
//!
//! CALLING.md shows how to call it.
#![tactic(auto)]

mod beside;
mod monitor;
mod press;
mod screen_copy;
mod source;
mod waiting_theorem;

pub use beside::Annotated;
pub use monitor::Monitor;
pub use waiting_theorem::waiting_is_typing;
