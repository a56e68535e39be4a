//! The larger language: what a text that uses it means as a text of the plain language.
//!
//! CALLING.md shows how to call it.
#![tactic(auto)]

mod adding;
mod binding;
mod builder;
mod conditions;
mod expansion;
mod fault;
mod files;
mod flow;
mod labels;
mod larger;
mod limits;
mod macros;
mod operand;
mod parts;
mod procedures;
mod repeats;
mod report;
mod source;
mod tables;
mod token;
mod value;

pub use expansion::{Expansion, expand};
pub use fault::{ExpandFault, FaultWord, Origin, Problem};
pub use files::Warning;
pub use larger::{is_larger_line, uses_larger_operation, uses_nothing_larger};
pub use limits::MOST_FILES;
pub use macros::Call;
pub use report::{FaultReport, FaultText, fault_message, fault_report};
pub use source::LoadedFile;
