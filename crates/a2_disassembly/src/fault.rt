//! Why no source is written.

ghost use Rattle.std.specs.Prelude.{◌≡◌};

use a2_syntax::Fault;
use std::alloc::AllocError;

/// Why no source is written.
#[derive(Clone, Copy, Debug, PartialEq, Eq)]
pub enum SourceFault {
    /// The source would have more than 65,536 bytes or 4,096 lines. It would have at least this many.
    TooLarge { lines: usize, bytes: usize },
    /// The source would have more than 1,024 names.
    TooManyNames,
    /// No instruction was found, and a source needs one.
    NoInstruction,
    /// Two places would have one name.
    SameName,
    /// The source would have another error, or other bytes. No image is known for which this happens.
    Unlike,
    /// Memory ran out.
    Memory,
}

impl From<AllocError> for SourceFault {
    ghost use Rattle.a2_disassembly.specs.declared.fault.SourceFault.TheVariants.{Memory};

    ghost from_gives = { λ _ fault. fault ≡ Memory };

    fn from(_error: AllocError) -> SourceFault {
        SourceFault::Memory
    }
}

// Returns the number of lines of a text.
fn count_lines(text: &[u8]) -> usize {
    text.iter().filter(|c| **c == b'\n').count()
}

/// Returns why a text is not written, from its first error.
pub(crate) fn fault_of(fault: Fault, text: &[u8]) -> SourceFault {
    match fault {
        Fault::TooLarge(_) => SourceFault::TooLarge {
            lines: count_lines(text),
            bytes: text.len(),
        },
        Fault::TooManyNames(_) => SourceFault::TooManyNames,
        Fault::NoCode => SourceFault::NoInstruction,
        Fault::Duplicate(_) => SourceFault::SameName,
        Fault::Memory => SourceFault::Memory,
        _ => SourceFault::Unlike,
    }
}
