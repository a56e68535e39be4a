//! What the manual says about an error, a stop cause, an operation, a service or a location.
//!
//! CALLING.md shows how to call it.
#![tactic(auto)]

mod cutting;
mod nearest_name;
mod topic_lookup;
mod topics;

pub use nearest_name::near;
pub use topic_lookup::topic;

/// Returns the topics of the manual as one text, which `topic` and `near` search. `tests/topics` compares it with
/// docs/manual.
pub fn manual() -> &'static [u8] {
    topics::MANUAL
}
