//! Why a debugger rejects a call.

ghost use Rattle.std.specs.Prelude.{◌≡◌, Some};
ghost use Rattle.a2_debug_script.specs.Texts.{debug_fault_text};

use a2_stream::WriteFault;
use std::error::Error;
use std::fmt;

/// Why a debugger rejects a call. This project's profile.
#[derive(Clone, Copy, Debug, PartialEq, Eq, Drop)]
pub enum DebugFault {
    /// G1: the line is not a command, or the word is not a place for a breakpoint.
    Syntax,
    /// G2: no line of the program defines the name.
    Unknown,
    /// G3: the count is below the oldest one that `back` can return to.
    TooFar,
    /// G4: there is no room for more breakpoints or more keys.
    Full,
    /// G5: the session would have more than 100,000,000 steps in all.
    Steps,
    /// Memory ran out.
    Memory,
    /// A write failed.
    Write,
}

impl DebugFault {
    /// Returns the text of the error.
    pub fn text(self) -> &'static str
        ensures { result.now ≡ debug_fault_text self }
    {
        match self {
            DebugFault::Syntax => "G1 SYNTAX",
            DebugFault::Unknown => "G2 UNKNOWN NAME",
            DebugFault::TooFar => "G3 TOO FAR",
            DebugFault::Full => "G4 FULL",
            DebugFault::Steps => "G5 TOO MANY STEPS",
            DebugFault::Memory => "NO MEMORY",
            DebugFault::Write => "WRITE FAULT",
        }
    }
}

impl fmt::Display for DebugFault {
    ghost output = { λ fault. Some (debug_fault_text fault) };

    fn fmt<W: fmt::Write>(&self, f: &mut fmt::Formatter<W>) -> fmt::Result {
        f.write_str(self.text())
    }
}

impl Error for DebugFault {}

impl From<WriteFault> for DebugFault {
    ghost use Rattle.a2_debug_script.specs.declared.fault.DebugFault.TheVariants.{Write};

    ghost from_gives = { λ _ e. e ≡ Write };

    fn from(_fault: WriteFault) -> DebugFault {
        DebugFault::Write
    }
}
