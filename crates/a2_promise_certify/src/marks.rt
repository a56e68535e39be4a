//! Marks of addresses: which are known, and which a routine stored at.

ghost use Rattle.std.specs.Prelude.{◌≡◌, [], ◌∷◌, IsTrue};
ghost use Rattle.std.specs.List.{list_all};
ghost use Rattle.a2_promise_certify.specs.Walking as walking;
ghost use Rattle.a2_promise_certify.specs.Walking.{known_now, AreMarked};

use crate::allowed::is_allowed_at;
use crate::stored::Stored;
use a2_bus::locations::LAST_RETURN;
use a2_promise::Changes;

/// Returns whether an address is marked. Marks start at address 0, and no address after their end is marked.
pub fn is_set(marks: &[bool], address: u16) -> bool
    ensures { result ≡ walking.is_set marks.now address }
{
    match marks.get(usize::from(address)) {
        Some(set) => *set,
        None => false,
    }
}

/// Returns whether the byte at an address is known: at the entry, or because it was stored since.
pub(crate) fn is_known(known: &[bool], stored: &[bool], address: u16) -> bool
    ensures { result ≡ known_now known.now stored.now address }
{
    is_set(stored, address) || is_set(known, address)
}

/// Returns whether the byte at an address is known at a point of a routine that made these stores.
pub(crate) fn is_known_now(known: &[bool], stored: &Stored, address: u16) -> bool
    ensures { result ≡ known_now known.now stored.now address }
{
    is_known(known, stored.marks(), address)
}

/// Returns whether the bytes at all of these addresses are known.
pub(crate) fn are_known(known: &[bool], stored: &Stored, addresses: &[u16]) -> bool
    ensures { result ≡ list_all (known_now known.now stored.now) addresses.now }
{
    addresses
        .iter()
        .all(|address| is_known_now(known, stored, *address))
}

/// Marks an address at which the routine stores. Returns false if it may not store there, if the address is not in
/// RAM, or if it holds the return address.
pub(crate) fn mark(stored: &mut Stored, changes: &Changes, address: u16) -> bool
    ensures { IsTrue result → AreMarked stored.old stored.new changes.now (address ∷ []) }
{
    if !is_allowed_at(changes, address) || address == LAST_RETURN || address == LAST_RETURN + 1 {
        return false;
    }
    stored.mark(address)
}
