//! What is before the registers in a line.

ghost use Rattle.std.specs.Prelude.{◌≡◌, ◌≤◌};
ghost use Rattle.arrayvec.specs.ArrayVec.{array_vec_len};
ghost use Rattle.a2_trace.specs.Trace as trace;

use a2_opcode::list_line;
use a2_services::service_at;
use a2_text::{append, hex_word};
use arrayvec::ArrayVec;

const BLANKS: &[u8] = b"                                  ";

/// A text of 34 columns.
pub(crate) type Front = [u8; 34];

/// The front of a line if nothing is there.
pub(crate) const BLANK: Front = [b' '; 34];

// A front while it is spelt.
type Spelling = ArrayVec<u8, 34>;

// Returns what is at an address with these bytes.
#[tactic(auto, unfolding(crate::specs::Trace::standing))]
fn standing(address: u16, bytes: [u8; 3]) -> Spelling
    ensures text { result.items ≡ trace.standing address bytes }
    ensures room { array_vec_len result ≤ 34 }
{
    let mut front = Spelling::new();
    match service_at(address) {
        Some(service) => {
            append(&mut front, &hex_word(address));
            append(&mut front, b"-              ");
            append(&mut front, service.name());
        }
        None => append(
            &mut front,
            list_line(&bytes, address).text.as_str().as_bytes(),
        ),
    }
    front
}

// The same, with blanks after it.
fn front_of(address: u16, bytes: [u8; 3]) -> Front
    ensures { result ≡ trace.padded (trace.standing address bytes) }
{
    let mut front = standing(address, bytes);
    let gap = BLANKS.len() - front.len();
    append(&mut front, &BLANKS[..gap]);
    let mut places = BLANK;
    places.copy_from_slice(front.as_slice());
    places
}

// A front that was spelt.
#[derive(Clone, Copy)]
struct Kept {
    address: u16,
    bytes: [u8; 3],
    front: Front,
    ghost spelt: { front ≡ trace.padded (trace.standing address bytes) },
}

impl Kept {
    fn new(address: u16, bytes: [u8; 3]) -> Kept
        ensures address { result.address ≡ address }
        ensures bytes { result.bytes ≡ bytes }
    {
        Kept {
            address,
            bytes,
            front: front_of(address, bytes),
        }
    }
}

/// Fronts that were spelt, one for each low byte of an address, so that those of a loop are spelt once.
#[derive(Drop)]
pub(crate) struct Fronts {
    kept: [Kept; 256],
}

impl Fronts {
    /// All fronts are those of the address $0000 with nothing there.
    pub(crate) fn new() -> Fronts {
        Fronts {
            kept: [Kept::new(0, [0; 3]); 256],
        }
    }

    /// Returns the front of a line for these bytes at an address.
    pub(crate) fn front(&mut self, address: u16, bytes: [u8; 3]) -> &Front
        ensures { result.now ≡ trace.padded (trace.standing address bytes) }
    {
        let kept = &mut self.kept[usize::from(address % 256)];
        if kept.address != address || kept.bytes != bytes {
            *kept = Kept::new(address, bytes);
        }
        &kept.front
    }
}
