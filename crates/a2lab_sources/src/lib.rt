//! The commands of `a2lab` that read a source and do not run it: `check`, `list`, `fmt`, `expand`, and `import` of a text.
//!
//! How it is called is shown in CALLING.md.
#![tactic(auto)]

// No command is inlined, so that the stack holds the values of one command, not of all of them.

mod authors;
mod checking;
mod columns;
mod expanding;
mod fmt;
mod import;
mod listing;

pub use checking::check_of;
pub use expanding::expand_of;
pub use fmt::fmt_of;
pub use import::import_text;
pub use listing::list_of;
