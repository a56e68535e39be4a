//! Bytes as a recording that the cassette input of an Apple II reads.
//!
//! CALLING.md shows how to call it.
#![tactic(auto)]

mod tape;

pub use tape::tape_of;
