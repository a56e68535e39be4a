//! Errors of an import.

ghost use Rattle.std.specs.Prelude.{◌≡◌};

use a2_syntax::Fault;
use std::alloc::AllocError;

/// Why a source of an old assembler cannot be imported.
#[derive(Clone, Copy, Debug, PartialEq, Eq)]
pub enum ImportFault {
    /// The text that would be written is not a valid source, because it is too large. The line, if any, is a line of that text.
    Refused(Fault),
    /// Memory ran out.
    Memory,
}

impl From<AllocError> for ImportFault {
    ghost use Rattle.a2_import.specs.declared.fault.ImportFault.TheVariants.{Memory};

    ghost from_gives = { λ _ fault. fault ≡ Memory };

    fn from(_error: AllocError) -> ImportFault {
        ImportFault::Memory
    }
}
