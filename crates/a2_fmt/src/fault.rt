//! Errors of formatting a source.

ghost use Rattle.std.specs.Prelude.{◌≡◌};

use a2_syntax::Fault;
use std::alloc::AllocError;

/// Why a source cannot be formatted.
#[derive(Clone, Copy, Debug, PartialEq, Eq)]
pub enum FormatFault {
    /// The text is not a valid source.
    Source(Fault),
    /// The formatted text would have a different meaning or be too large.
    Unlike,
    /// Memory ran out.
    Memory,
}

impl From<AllocError> for FormatFault {
    ghost use Rattle.a2_fmt.specs.declared.fault.FormatFault.TheVariants.{Memory};

    ghost from_gives = { λ _ fault. fault ≡ Memory };

    fn from(_error: AllocError) -> FormatFault {
        FormatFault::Memory
    }
}
