//! What the commands of `a2lab` share: the table of commands and options, help, errors, files and exit statuses.
//!
//! How it is called is shown in CALLING.md.
#![tactic(auto)]

mod asked;
mod assembling;
mod commands;
mod complaint;
mod drafts;
mod ending;
mod expanding;
mod fault_report;
mod files;
mod help;
mod host;
mod messages;
mod named;
mod naming;
pub mod options;
mod refusal;
mod terminals;
mod timed;
mod wrapping;

pub use asked::{CommandArgs, FileRunArgs, after_first, keys_in, run_args};
pub use assembling::{assembled_text, report_source_errors, report_warnings, report_warnings_of};
pub use commands::{CommandRow, Tool, all_commands, command_named, row_of};
pub use complaint::report_arguments;
pub use drafts::settled;
pub use ending::{end_status, put_end_state, stop_status};
pub use expanding::{
    Expanded, Expansion, Reading, SourceFile, Unexpanded, expanded_text, expanded_text_of,
    expansion_of, files_at_home, home_of, put_errors_at_home, reading_of,
};
pub use fault_report::{report_fault, report_write};
pub use files::{INPUT, loaded_text, long_text, refuse_overwriting_input, text_of};
pub use help::{put_page, put_use};
pub use host::Host;
pub use messages::{Message, Value, report};
pub use named::is_input;
pub use naming::nearest_command;
pub use refusal::Refusal;
pub use terminals::{Terminal, Terminals, colours_named, terminal_in};
pub use timed::{
    Recording, TimedRunArgs, end_of, ended_of, first_named, record_in, report_untyped, strokes_of,
    timed_run_args, typed_refusal,
};
