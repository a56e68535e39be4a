//! A writer that keeps everything it takes.

ghost use Rattle.std.specs.Prelude.{◌≡◌, [], Some};

use crate::failures::counted;
use crate::{Output, WriteFault};
use std::alloc::Allocator;

/// A writer that keeps the bytes it has taken. A write fails only if memory runs out, and then takes nothing.
#[derive(Drop)]
pub struct Kept<A: Allocator> {
    bytes: Vec<u8, A>,
    failed: u64,
}

impl<A: Allocator> Kept<A> {
    /// Returns an empty writer with no failed calls. Its bytes are kept in memory of `alloc`.
    pub fn new(alloc: A) -> Kept<A>
        ensures { ⟦<Kept<A> as Output>⟧.taker result ≡ record { bytes = Some []; failures = 0 } }
    {
        Kept {
            bytes: Vec::new(alloc),
            failed: 0,
        }
    }

    /// Returns the bytes taken so far, in order.
    pub fn as_slice(&self) -> &[u8]
        ensures { (⟦<Kept<A> as Output>⟧.taker self.now).bytes ≡ Some result.now }
    {
        self.bytes.as_slice()
    }
}

impl<A: Allocator> Output for Kept<A> {
    ghost taker = { λ s. record { bytes = Some s.bytes.items; failures = s.failed } };

    fn write(&mut self, piece: &[u8]) -> Result<usize, WriteFault> {
        let taken = self.bytes.extend_from_slice(piece);
        self.failed = counted(self.failed, taken.is_err());
        match taken {
            Ok(()) => Ok(piece.len()),
            Err(_) => Err(WriteFault),
        }
    }
}
