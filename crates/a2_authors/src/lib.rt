//! The errors and warnings of a source in the larger language, at the lines that its author wrote.
//!
//! CALLING.md shows how to call it.
#![tactic(auto)]

mod home;

pub use home::{Home, PlacedWarning, errors_as_written, errors_at_home, warnings_at_home};
