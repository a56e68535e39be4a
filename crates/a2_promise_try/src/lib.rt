//! Tries what routines promise: runs each one from many states, judges the runs, and reports the result.
//!
//! CALLING.md shows how to use this crate.
#![tactic(auto)]

mod advice;
mod broken;
mod entry_ram;
mod exit;
mod failure_machine;
mod failure_report;
mod first_failure;
mod json;
mod judging;
mod label_facts;
mod line_checks;
mod line_words;
mod lookalikes;
mod met_state;
mod named_inputs;
mod printing;
mod promise_words;
mod reads_of;
mod refusal_report;
mod report;
mod run_report;
mod shrinking;
mod trial_machine;
mod trial_states;
mod trying;
mod verdict;
mod wording;
mod written;

pub use broken::{Broken, Unmet};
pub use exit::{Exit, FallThrough, TracedStep};
pub use failure_machine::machine_at_entry;
pub use first_failure::FirstFailure;
pub use judging::{Asked, Judgement, ReportForm, judge_all, run_cases};
pub use printing::{prints_as_promised, push_printed};
pub use refusal_report::put_refusal;
pub use report::put_verdict;
pub use trying::try_promise;
pub use verdict::{Doubt, Failure, Held, PromiseVerdict, Trials};
