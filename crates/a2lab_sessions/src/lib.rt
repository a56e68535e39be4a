//! The commands of `a2lab` that hold a session: `play`, `mon` and `debug`.
//!
//! How it is called is shown in CALLING.md.
#![tactic(auto)]

// No command is inlined, so that the stack holds the values of one command, not of all of them.

mod debugging;
mod lines;
mod play;
mod terminal;
mod turning;

pub use debugging::debug_of;
pub use play::play_of;
pub use terminal::mon_of;
