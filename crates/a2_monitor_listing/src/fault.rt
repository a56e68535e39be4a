//! Errors of a listing.

ghost use Rattle.std.specs.Prelude.{◌≡◌};

use a2_hex::HexFault;
use a2_syntax::Fault;
use std::alloc::AllocError;

/// Why a listing cannot be imported. Lines count from 1; 0 means no line.
#[derive(Clone, Copy, Debug, PartialEq, Eq)]
pub enum ListingFault {
    /// The line has no bytes, or some of its addresses are not in RAM.
    Row(HexFault),
    /// The source that would be written for the line has an error.
    Refused(usize, Fault),
    /// The source that would be written has other bytes.
    Unlike,
    /// Memory ran out.
    Memory,
}

impl From<AllocError> for ListingFault {
    ghost use Rattle.a2_monitor_listing.specs.declared.fault.ListingFault.TheVariants.{Memory};

    ghost from_gives = { λ _ fault. fault ≡ Memory };

    fn from(_error: AllocError) -> ListingFault {
        ListingFault::Memory
    }
}
