//! A command line's reader: a command's table of options and files, and what a list of words gives by it.
//!
//! How it is called is shown in CALLING.md.
#![tactic(auto)]

mod arguments;
mod command;
mod fault;
mod nearness;
mod numbers;
mod reading;
mod spelling;

pub use arguments::{Arguments, Given};
pub use command::{Command, Files, OptionRow, Value};
pub use fault::ArgumentFault;
pub use nearness::nearest;
pub use reading::read;
