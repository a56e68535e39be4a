//! Runs a source text and writes its screen, or writes its object lines.
//!
//! CALLING.md shows how to call it.
#![tactic(auto)]

mod assembled;
mod fault;
mod laws;
mod limits;
mod run;
mod sources;

use a2_bus::Keys;
pub use assembled::AssembledText;
pub use fault::{ReadingFault, RunFault};
pub use laws::{
    a_free_run_is_the_guarded_run, a_text_is_refused_or_means_a_program, a_text_means_one_output,
};
pub use limits::{DEFAULT_STEPS, RUN_MAX_STEPS, step_limit};
pub use run::{asm_text, fault_status, read_front, read_text, run_text, status};
pub use sources::{program_of, started};

/// How a program is run.
#[derive(Clone, Copy)]
pub struct RunArgs<'a> {
    /// The keys that wait at the start.
    pub keys: &'a Keys,
    /// The most steps, 0 to 2^32 - 1.
    pub limit: u32,
    /// Runs without the guard of the program's code.
    pub free: bool,
}

/// How a text is run, and what is shown of it.
#[derive(Clone, Copy, Debug, PartialEq, Eq)]
pub struct Options {
    /// Runs without the guard of the program's code.
    pub free: bool,
    /// Shows the attribute rows after the picture.
    pub attr: bool,
}
