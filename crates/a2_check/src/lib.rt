//! Finds the errors of a source, or its warnings if it has none, and prints a message for each.
//!
//! CALLING.md shows how to call it.
#![tactic(auto)]

mod beside;
mod checked;
mod elsewhere;
mod errors;
mod finding;
mod forms;
mod laws;
mod layout;
mod line;
mod message;
mod mistake;
mod names;
mod objects;
mod operand;
mod probe;
mod reports;
mod services;
mod unread;
mod values;
mod verdict;
mod warnings;

pub use errors::{SourceError, errors_of};
pub use laws::the_first_is_the_texts_refusal;
pub use reports::{ErrorFile, Format, ReportFault, put_errors, put_refusals};
pub use verdict::{Verdict, refusals_of, verdict_of};
pub use warnings::{Warning, WarningKind, put_warnings, sentence_of, warnings_of};
