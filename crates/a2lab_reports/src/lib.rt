//! The commands of `a2lab` that run a source, report on the run and end: `run`, `trace`, `profile`, `film` and `test`.
//!
//! How it is called is shown in CALLING.md.
#![tactic(auto)]

// No command is inlined, so that the stack holds the values of one command, not of all of them.

mod drawing;
mod film;
mod films;
mod pages;
mod profiling;
mod running;
mod saving;
mod sessions;
mod spans;
mod tests;
mod tracing;

pub use film::film_of;
pub use profiling::profile_of;
pub use running::run_of;
pub use sessions::read_sessions;
pub use tests::test_of;
pub use tracing::trace_of;
