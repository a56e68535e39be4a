//! Formats source texts in columns without changing their meaning.
//!
//! CALLING.md shows how to call it.
#![tactic(auto)]

mod fault;
mod format;
mod line;
mod operand;
mod same;

pub use fault::FormatFault;
pub use format::format_source;
pub use line::{LineParts, line_in_columns};
