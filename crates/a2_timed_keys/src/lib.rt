//! Runs a program while keys are typed after given steps.
//!
//! CALLING.md shows how to call it.
#![tactic(auto)]

ghost use Rattle.a2_timed_keys.specs.Typed.{NoKeysAreARun};

mod earlier;
mod ended;
mod record;
mod rerun;
mod run;
mod strokes;
mod words;

pub use ended::{Ended, TimedArgs};
pub use record::{Record, RecordFault, put_record, record_of};
pub use rerun::Rerun;
pub use run::TypedFault;
pub use strokes::{Strokes, Typed, next_due};
pub use words::{StrokeFault, stroke_in};

/// A run in which no key is typed is the run of `a2_machine`, with every limit.
pub fn no_keys_are_a_run()
    ensures { NoKeysAreARun }
{}
