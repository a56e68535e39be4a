//! A writer that collects bytes so that they can be sent together.

ghost use Rattle.std.specs.Prelude.{◌≡◌, ◌<◌, ◌≤◌, [], Some, length};

use crate::failures::counted;
use crate::{Output, WriteFault};
use arrayvec::ArrayVec;

// The largest number of bytes it holds.
const CAPACITY: usize = 4096;

/// A writer that holds the bytes it has taken, at most 4,096. When it is full, a write takes nothing, which counts as a
/// failed call.
#[derive(Drop)]
pub struct Gathered {
    bytes: ArrayVec<u8, CAPACITY>,
    failed: u64,
    // No write fails before it is full.
    pub ghost full: { 0 < failed → 4096 ≤ length bytes.items },
}

impl Gathered {
    /// Returns an empty writer with no failed calls.
    pub fn new() -> Gathered
        ensures { ⟦<Gathered as Output>⟧.taker result ≡ record { bytes = Some []; failures = 0 } }
    {
        Gathered {
            bytes: ArrayVec::new(),
            failed: 0,
        }
    }

    /// Returns the bytes taken so far, in order, at most 4,096.
    pub fn as_slice(&self) -> &[u8]
        ensures { (⟦<Gathered as Output>⟧.taker self.now).bytes ≡ Some result.now }
    {
        self.bytes.as_slice()
    }
}

impl Output for Gathered {
    ghost taker = { λ s. record { bytes = Some s.bytes.items; failures = s.failed } };

    fn write(&mut self, piece: &[u8]) -> Result<usize, WriteFault> {
        let room = piece.len().min(self.bytes.remaining_capacity());
        self.bytes.try_extend_from_slice(&piece[..room]).unwrap();
        self.failed = counted(self.failed, room == 0 && !piece.is_empty());
        Ok(room)
    }
}
