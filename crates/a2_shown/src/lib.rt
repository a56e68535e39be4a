//! What a terminal is given of a text, so that no text can control it.
//!
//! CALLING.md shows how to call it.
#![tactic(auto)]

mod shown;

pub use shown::{Character, Shown};
