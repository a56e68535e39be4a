//! Counts how often a run executes each line of a source and each of its routines, and what that costs.
//!
//! CALLING.md shows how to call it.
#![tactic(auto)]

mod addresses;
mod callgrind;
mod joined;
mod json;
mod profile;
mod routine_json;
mod routine_table;
mod routines;
mod row;
mod run;
mod runs;
mod source;
mod table;
mod walk;

pub use callgrind::{write_callgrind, write_routine_callgrind};
pub use json::{no_text_ends_its_string, write_json};
pub use profile::{Count, Profile, ProfileFull};
pub use routine_json::write_routine_json;
pub use routine_table::write_routines;
pub use routines::profile_routines;
pub use run::profile_run;
pub use runs::{Runs, first_stop, profile_routine_runs, profile_runs};
pub use source::{Format, ProfileFault, Style, profile_source, profile_source_routines};
pub use table::write_profile;
pub use walk::{RoutineProfile, Totals};
