//! Why words are not the arguments of a command.

ghost use Rattle.std.specs.Prelude.{◌≡◌};
ghost use Rattle.a2_arguments.specs.declared.fault.ArgumentFault.TheVariants.{Memory};

use crate::command::OptionRow;
use std::alloc::{AllocError, AllocFailed};

/// Why words are not the arguments of a command.
#[derive(Clone, Copy, Debug)]
pub enum ArgumentFault<'a> {
    /// The command has no option of this name; `nearest` finds the one that may be meant.
    Unknown(&'a str),
    /// The option is given again.
    Repeated(&'static str),
    /// The option needs a value, and no word follows.
    Missing(&'static str),
    /// The option takes no value, and is given this one after `=`.
    Needless(&'static str, &'a str),
    /// The value is not one that the option takes.
    Misfit(OptionRow, &'a str),
    /// The command takes fewer files: this is the first that is too many.
    TooMany(&'a str),
    /// The command takes more files.
    TooFew,
    /// Memory could not be allocated.
    Memory,
}

impl<'a> From<AllocError> for ArgumentFault<'a> {
    ghost from_gives = { λ _ fault. fault ≡ Memory };

    fn from(_error: AllocError) -> ArgumentFault<'a> {
        ArgumentFault::Memory
    }
}

impl<'a, T: Drop> From<AllocFailed<T>> for ArgumentFault<'a> {
    ghost from_gives = { λ _ fault. fault ≡ Memory };

    fn from(_error: AllocFailed<T>) -> ArgumentFault<'a> {
        ArgumentFault::Memory
    }
}
