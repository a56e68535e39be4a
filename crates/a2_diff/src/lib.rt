//! Where the instructions of two images differ.
//!
//! CALLING.md shows how to call it.
#![tactic(auto)]

mod comparison;
mod passing;
mod rows;
mod shown;

pub use comparison::{Change, compare};
pub use rows::{Row, rows_of};
pub use shown::text_of;
