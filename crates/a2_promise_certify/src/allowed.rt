//! Decides where a routine may store.

ghost use Rattle.std.specs.Prelude.{◌≡◌};
ghost use Rattle.a2_footprint.specs.RotatedStack.{in_stack};
ghost use Rattle.a2_promise_certify.specs.Kept.{is_own, may_store};
ghost use Rattle.a2_promise_certify.specs.Walking.{is_allowed};

use a2_promise::Changes;

/// Returns whether `changes` names the byte at an address, so that the routine may leave a different byte there.
pub fn may_change(changes: &Changes, address: u16) -> bool
    ensures { result ≡ may_store changes.now address }
{
    changes
        .ranges
        .iter()
        .any(|range| range.first <= address && address <= range.last)
}

/// Returns whether the byte at an address belongs to a routine entered with S = $FD. These are the 126 bytes of the
/// stack from there down, below the return address.
#[tactic(auto, using(crate::proofs::Marking::own_is))]
pub fn is_own_stack(address: u16) -> bool
    ensures { result ≡ is_own 0xFD address }
{
    0x0180 <= address && address <= 0x01FD
}

/// Returns whether an address is in the stack's page.
pub(crate) fn is_in_stack(address: u16) -> bool
    ensures { result ≡ in_stack address }
{
    0x0100 <= address && address <= 0x01FF
}

/// Returns whether the routine may store at an address. The address must be one of the routine's own in the stack, or
/// be named by `changes` and not be in the stack's page.
pub(crate) fn is_allowed_at(changes: &Changes, address: u16) -> bool
    ensures { result ≡ is_allowed changes.now address }
{
    if is_in_stack(address) {
        is_own_stack(address)
    } else {
        may_change(changes, address)
    }
}
