//! Says in words why a run stopped: what is at PC, which line ran last, and how to fix it.
//!
//! CALLING.md shows how to call it.
#![tactic(auto)]

mod changes;
mod circle;
mod hook;
mod lines;
mod off;
mod overrun;
mod past;
mod places;
mod recorder;
mod returned;
mod rounds;
mod stack;
mod step;
mod stop;
mod window;

pub use stop::{explain_stop, explain_wait};
