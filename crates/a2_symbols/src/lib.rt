//! Names the addresses and lines of a program for its user, and says at which of them a run stopped.
//!
//! CALLING.md shows how to call this crate.
#![tactic(auto)]

mod names;
mod places;
mod scene;
mod statements;
mod stopped;

pub use names::name_of;
pub use places::{Span, number_of, place_of, span_of};
pub use scene::{Scene, put_address, put_number, put_place, put_text};
pub use statements::{instruction_on, statement_at};
pub use stopped::{put_stop, report_stop};
