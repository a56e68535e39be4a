//! The names that may be meant by others.

use crate::commands::{all_commands, row_of};
use a2_arguments::{Command, nearest};
use std::alloc::{AllocError, Global};

/// Returns the name of the command that may be meant by `name`, or `None` if none is near.
pub fn nearest_command(alloc: Global, name: &str) -> Result<Option<&'static str>, AllocError> {
    let mut names = Vec::new(alloc);
    for tool in all_commands() {
        names.push(row_of(*tool).command.name)?;
    }
    nearest(alloc, names.as_slice(), name)
}

/// Returns the name of the option of `command` that may be meant by `name`, or `None` if none is near.
pub fn nearest_option(
    alloc: Global,
    command: &Command,
    name: &str,
) -> Result<Option<&'static str>, AllocError> {
    let mut names = Vec::new(alloc);
    for row in command.options {
        names.push(row.name)?;
    }
    nearest(alloc, names.as_slice(), name)
}
