//! Why a file is rejected.

ghost use Rattle.std.specs.Prelude.{◌≡◌};

use std::alloc::{AllocError, AllocFailed};

/// What is wrong with a line or a byte of a file.
#[derive(Clone, Copy, Debug, PartialEq, Eq)]
pub enum Flaw {
    /// The line does not begin as a record does.
    Form,
    /// The record has an odd number of digits, or a character that is not a hexadecimal digit.
    Digits,
    /// The record has not as many bytes as its count says.
    Length,
    /// The checksum of the record is wrong.
    Checksum,
    /// The record has an unknown type.
    Kind,
    /// The first bytes have no address.
    NoAddress,
    /// A record follows the record that ends the file.
    AfterEnd,
    /// The file ends without the record that ends it.
    NoEnd,
    /// A byte would be at or above $C000.
    Outside,
    /// An earlier byte has the same address.
    Overlap,
    /// The file ends before this offset should be its end.
    Short,
    /// The file has more bytes than it says.
    Long,
    /// The image has no byte.
    Empty,
    /// The image has no byte at an address between others.
    Gap,
    /// What was written would not be read back as the same image.
    Unlike,
}

/// Why a file is rejected.
#[derive(Clone, Copy, Debug, PartialEq, Eq)]
pub enum FormatFault {
    /// The line with this number, from 1, or the byte at this offset of a file that is not a text, from 0, has this flaw.
    At(usize, Flaw),
    /// Memory ran out.
    Memory,
}

impl From<AllocError> for FormatFault {
    ghost use Rattle.a2_formats.specs.declared.fault.FormatFault.TheVariants.{Memory};

    ghost from_gives = { λ _ fault. fault ≡ Memory };

    fn from(_error: AllocError) -> FormatFault {
        FormatFault::Memory
    }
}

impl<T: Drop> From<AllocFailed<T>> for FormatFault {
    ghost use Rattle.a2_formats.specs.declared.fault.FormatFault.TheVariants.{Memory};

    ghost from_gives = { λ _ fault. fault ≡ Memory };

    fn from(_error: AllocFailed<T>) -> FormatFault {
        FormatFault::Memory
    }
}
