//! The errors of a source text.

ghost use Rattle.std.specs.Prelude.{◌≡◌, ◌≤◌, Some, length};
ghost use Rattle.a2_syntax.specs.Texts.{fault_line, fault_parts, fault_text};
ghost use Rattle.a2_syntax.specs.declared.fault.Fault.TheVariants.{Memory};

use a2_text::{ErrorText, error_text};
use std::alloc::{AllocError, AllocFailed};
use std::error::Error;
use std::fmt;

/// An error of a source text. Most variants hold a line number, counted from 1; 0 means no particular line.
#[derive(Clone, Copy, Debug, PartialEq, Eq, Drop)]
pub enum Fault {
    /// E1: the text has more than 65,536 bytes (line 0), more than 4,096 lines (line 4,097), or a line of more than
    /// 255 bytes.
    TooLarge(u16),
    /// E2: the line does not follow the grammar.
    Syntax(u16),
    /// E3: the line has the 1,025th label.
    TooManyNames(u16),
    /// E4: an earlier line already has this label.
    Duplicate(u16),
    /// E5: the line uses a name that no line defines.
    Unknown(u16),
    /// E6: ORG, EQU or DS uses a name that no earlier line defines.
    Forward(u16),
    /// E7: the instruction does not have this addressing mode.
    NoMode(u16),
    /// E8: a value in the line is out of range.
    Range(u16),
    /// E9: the branch target is too far away.
    Branch(u16),
    /// E10: a byte of the line is at or above $C000.
    Outside(u16),
    /// E11: a byte of the line is at an address where an earlier statement already has one.
    Overlap(u16),
    /// E12: the source has no instruction.
    NoCode,
    /// Memory could not be allocated.
    Memory,
}

impl Fault {
    // Returns the error's line number and the message that follows it.
    fn parts(&self) -> (u16, &'static str)
        ensures said { (result.0, result.1.now) ≡ fault_parts self.now }
        ensures short { length result.1.now ≤ 22 }
    {
        match *self {
            Fault::TooLarge(n) => (n, "E1 TOO LARGE"),
            Fault::Syntax(n) => (n, "E2 SYNTAX"),
            Fault::TooManyNames(n) => (n, "E3 TOO MANY NAMES"),
            Fault::Duplicate(n) => (n, "E4 DUPLICATE NAME"),
            Fault::Unknown(n) => (n, "E5 UNKNOWN NAME"),
            Fault::Forward(n) => (n, "E6 NAME DEFINED LATER"),
            Fault::NoMode(n) => (n, "E7 NO SUCH MODE"),
            Fault::Range(n) => (n, "E8 VALUE OUT OF RANGE"),
            Fault::Branch(n) => (n, "E9 BRANCH TOO FAR"),
            Fault::Outside(n) => (n, "E10 OUTSIDE RAM"),
            Fault::Overlap(n) => (n, "E11 OVERLAP"),
            Fault::NoCode => (0, "E12 NO INSTRUCTION"),
            Fault::Memory => (0, "NO MEMORY"),
        }
    }

    /// Returns the line of the error, counted from 1, or 0 if it belongs to no line.
    pub fn line(&self) -> u16
        ensures { result ≡ fault_line self.now }
    {
        self.parts().0
    }

    /// Returns the error message. If the error belongs to a line, the message starts with `LINE `, the line number
    /// and a space.
    pub fn text(&self) -> ErrorText
        ensures { result.bytes ≡ fault_text self.now }
    {
        let (line, words) = self.parts();
        error_text(usize::from(line), words)
    }
}

impl fmt::Display for Fault {
    ghost output = { λ fault. Some (fault_text fault) };

    fn fmt<W: fmt::Write>(&self, f: &mut fmt::Formatter<W>) -> fmt::Result {
        f.write_str(self.text().as_str())
    }
}

impl Error for Fault {}

impl From<AllocError> for Fault {
    ghost from_gives = { λ _ e. e ≡ Memory };

    fn from(_error: AllocError) -> Fault {
        Fault::Memory
    }
}

impl<T: Drop> From<AllocFailed<T>> for Fault {
    ghost from_gives = { λ _ e. e ≡ Memory };

    fn from(_error: AllocFailed<T>) -> Fault {
        Fault::Memory
    }
}
