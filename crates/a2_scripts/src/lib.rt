//! Answers scripts, either of Monitor lines or, with a source, of debugger lines.
//!
//! CALLING.md shows how to call it.
#![tactic(auto)]

mod answering;
mod debugging;
mod laws;
mod scripts;
mod texts;

pub use laws::{a_debugging_script_has_one_output, a_script_has_one_output};
pub use texts::{debug_text, mon_text};
