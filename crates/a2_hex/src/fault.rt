//! Why object lines are rejected.

ghost use Rattle.std.specs.Prelude.{◌≡◌, Some};
ghost use Rattle.a2_hex.specs.Texts.{hex_fault_text};
ghost use Rattle.a2_hex.specs.declared.fault.HexFault.TheVariants.{Memory};

use a2_text::{ErrorText, error_text};
use std::alloc::{AllocError, AllocFailed};
use std::error::Error;
use std::fmt;

/// Why object lines are rejected. Lines count from 1, and 0 means no line. This project's profile.
#[derive(Clone, Copy, Debug, PartialEq, Eq, Drop)]
pub enum HexFault {
    /// H1: the line with this number is not blank, and does not have the form of an optional address, `:`, and bytes.
    Digit(usize),
    /// H2: the line with this number has no address, and no line before it has one.
    NoAddress(usize),
    /// H3: a byte of the line with this number would be at or above $C000.
    Outside(usize),
    /// Memory ran out.
    Memory,
}

impl HexFault {
    /// Returns the text of the error: `LINE `, the line number and a blank if the error belongs to a line, and the
    /// message.
    pub fn text(&self) -> ErrorText
        ensures { result.bytes ≡ hex_fault_text self.now }
    {
        match *self {
            HexFault::Digit(line) => error_text(line, "H1 NOT HEX"),
            HexFault::NoAddress(line) => error_text(line, "H2 NO ADDRESS"),
            HexFault::Outside(line) => error_text(line, "H3 OUTSIDE RAM"),
            HexFault::Memory => error_text(0, "NO MEMORY"),
        }
    }
}

impl fmt::Display for HexFault {
    ghost output = { λ fault. Some (hex_fault_text fault) };

    fn fmt<W: fmt::Write>(&self, f: &mut fmt::Formatter<W>) -> fmt::Result {
        f.write_str(self.text().as_str())
    }
}

impl Error for HexFault {}

impl From<AllocError> for HexFault {
    ghost from_gives = { λ _ e. e ≡ Memory };

    fn from(_error: AllocError) -> HexFault {
        HexFault::Memory
    }
}

impl<T: Drop> From<AllocFailed<T>> for HexFault {
    ghost from_gives = { λ _ e. e ≡ Memory };

    fn from(_error: AllocFailed<T>) -> HexFault {
        HexFault::Memory
    }
}
