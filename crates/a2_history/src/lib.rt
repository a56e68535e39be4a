//! Moves through a run in both directions: forwards step by step, and back to any position reached before.
//!
//! CALLING.md shows how to call this crate.
#![tactic(auto)]

mod actions;
mod checkpoints;
mod course;
mod fault;
mod history;
mod laws;
mod lookout;
mod routines;
mod search_target;
mod spacing;

use a2_machine::Cause;
pub use a2_routines::{Entry, is_call};
pub use actions::Change;
use actions::{Action, Logged};
pub use fault::TypingFault;
pub use history::History;
pub use laws::{earlier_worlds_are_kept, it_is_done_there, later_actions_are_forgotten};
pub use lookout::Lookout;
pub use search_target::{Nothing, SearchTarget};
pub use spacing::{
    STRIDE, WIDEST, dropped_is_never_needed, each_position_has_a_checkpoint_near, is_kept,
    most_kept, no_more_are_kept, width_of, within_a_fiftieth,
};

/// Why moving forwards ended.
#[derive(Clone, Copy)]
pub enum Halt {
    /// What was searched for is seen.
    Seen,
    /// The machine is stuck for this cause, or, with `Cause::Limit`, the requested number of steps was executed.
    Stopped(Cause),
}
