//! The Monitor's services, by name.

use a2_text::number_in;
use std::alloc::{AllocError, Allocator};
use strsim::generic_levenshtein;

/// A service of the Monitor: its name, and its address as it is written in a source.
#[derive(Clone, Copy)]
pub(crate) struct Service {
    pub name: &'static [u8],
    pub address: &'static [u8],
}

// The names and addresses of the services, as docs/manual/services.md lists them. The crate that executes the services is above
// this one.
static SERVICES: [(&[u8], &[u8]); 21] = [
    (b"COUT", b"$FDED"),
    (b"COUT1", b"$FDF0"),
    (b"CROUT", b"$FD8E"),
    (b"PRBYTE", b"$FDDA"),
    (b"PRHEX", b"$FDE3"),
    (b"SETINV", b"$FE80"),
    (b"SETNORM", b"$FE84"),
    (b"HOME", b"$FC58"),
    (b"VTAB", b"$FC22"),
    (b"CLREOL", b"$FC9C"),
    (b"CLREOP", b"$FC42"),
    (b"RDKEY", b"$FD0C"),
    (b"KEYIN", b"$FD1B"),
    (b"GETLN", b"$FD6A"),
    (b"WAIT", b"$FCA8"),
    (b"SETCOL", b"$F864"),
    (b"PLOT", b"$F800"),
    (b"HLINE", b"$F819"),
    (b"VLINE", b"$F828"),
    (b"SCRN", b"$F871"),
    (b"CLRSCR", b"$F832"),
];

/// Returns the address of the service with this name, in upper or lower case, or `None` if there is none.
pub(crate) fn address_of(name: &[u8]) -> Option<&'static [u8]> {
    for (service, address) in &SERVICES {
        if name.eq_ignore_ascii_case(service) {
            return Some(*address);
        }
    }
    None
}

/// Whether a service is at an address.
pub(crate) fn is_service(address: u16) -> bool {
    for (_, written) in &SERVICES {
        if let [b'$', digits @ ..] = *written {
            if number_in(16, 4, digits) == Some(address) {
                return true;
            }
        }
    }
    false
}

// Whether all letters of a name are in another name.
fn is_of_letters(name: &[u8], other: &[u8]) -> bool {
    for c in name {
        if !other.contains(c) {
            return false;
        }
    }
    true
}

// Whether a name differs from another by one letter, or has the same letters in another order with at most two changed.
fn is_misspelt<A: Allocator + Copy>(
    alloc: A,
    name: &[u8],
    other: &[u8],
) -> Result<bool, AllocError> {
    let changes = generic_levenshtein(alloc, name, other)?;
    let is_swapped = changes == 2 && name.len() == other.len() && is_of_letters(name, other);
    Ok(changes == 1 || is_swapped)
}

/// Returns the first service whose name was probably meant by a name, or `None` if there is none.
pub(crate) fn service_like<A: Allocator + Copy>(
    alloc: A,
    name: &[u8],
) -> Result<Option<Service>, AllocError> {
    for (service, address) in &SERVICES {
        if is_misspelt(alloc, name, service)? {
            return Ok(Some(Service {
                name: *service,
                address: *address,
            }));
        }
    }
    Ok(None)
}
