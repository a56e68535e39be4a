//! The line debugger, which moves a source's run forwards and backwards: its lines are answered one after another.
//!
//! CALLING.md shows how to call it.
#![tactic(auto)]

mod alerts;
mod answer_sheet;
mod changes;
mod conditions;
mod inspector;
mod inspector_command;
mod reading;
mod settings;
mod sights;
mod stops;
mod verbs;

pub use conditions::{break_in, flag_of, register_of, setting_by, subject_of};
pub use inspector::Inspector;
pub use inspector_command::{InspectorCommand, Outcome, Show};
pub use settings::Setting;
pub use stops::{
    Break, Condition, Flag, Moment, Register, Relation, Subject, Watch, in_flag, in_register,
    is_changed_in, watchable,
};
pub use verbs::Verb;
