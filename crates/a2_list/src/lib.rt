//! Writes the listing of a source and its names.
//!
//! CALLING.md shows how to call it.
#![tactic(auto)]

mod blanks;
mod cycles;
mod listing;
mod name_table;
mod uses;

pub use listing::{Shown, list_source};
