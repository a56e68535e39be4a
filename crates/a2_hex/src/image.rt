//! Bytes at addresses of RAM.

ghost use Rattle.std.specs.Prelude.{◌≡◌, ◌<◌, ◌≤◌, ℕ, None, IfOk, OnErr, length, slice_index, unwrap_or};
ghost use Rattle.a2_hex.specs.Images.{held, put, IsImage, IsWithin, ram_end};

use crate::fault::HexFault;
use std::alloc::{Allocator, Global};
use std::boxed::BoxedSlice;
use std::marker::Model;

/// The end of RAM: $C000, the first address that does not belong to it. Apple II Reference Manual (1979), the memory
/// map.
pub const RAM_END: u16 = 0xC000;

/// Bytes at addresses of RAM, which are the addresses below $C000. Each address has one byte or none.
#[derive(Drop)]
pub struct Image<A: Allocator = Global> {
    // This box cannot grow and lends its allocator to nobody, so no call after `new` allocates memory.
    cells: BoxedSlice<Option<u8>, A>,
    // All bytes held are from the first of these addresses up to the second.
    start: u16,
    end: u16,
}

impl<A: Allocator> Model for Image<A> {
    ghost use Rattle.std.specs.Prelude.{◌≡◌, ◌≤◌, length};
    ghost use Rattle.std.specs.Box.{boxed_slice_items, boxed_slice_len};
    ghost use Rattle.a2_hex.specs.Images.{Cells, held, IsImage, IsWithin, ram_end};

    ghost Value = { Cells };

    ghost view = { λ image. boxed_slice_items image.cells };

    ghost invariant = { λ image.
        (length (boxed_slice_items image.cells) ≡ ram_end)
        × IsImage (held (boxed_slice_items image.cells))
        × IsWithin (boxed_slice_items image.cells) image.start image.end
        × (image.end ≤ ram_end) × (boxed_slice_len image.cells ≡ ram_end) };
}

impl<A: Allocator> Image<A> {
    /// Returns an image without bytes, whose cells are in memory of `alloc`. Fails only if memory runs out.
    pub fn new(alloc: A) -> Result<Image<A>, HexFault>
        ensures empty { IfOk result (λ image. (a : ℕ) → held image a ≡ None) }
        ensures refused { OnErr result (result ≡ Err HexFault.Memory) }
    {
        let cells: Vec<Option<u8>, A> = vec![in alloc; None; usize::from(RAM_END)]?;
        Ok(Image {
            cells: cells.into_boxed_slice(),
            start: RAM_END,
            end: 0,
        })
    }

    /// Returns the byte at `address`, or `None` if it has no byte. At or above $C000 there are no bytes.
    pub fn get(&self, address: u16) -> Option<u8>
        ensures held { result ≡ held self.now address }
        ensures image { IsImage (held self.now) }
    {
        let i = usize::from(address);
        if i < self.cells.len() {
            self.cells[i]
        } else {
            None
        }
    }

    // Returns two addresses; all bytes held are from the first up to the second.
    pub(crate) fn bounds(&self) -> (u16, u16)
        ensures within { IsWithin self.now result.0 result.1 }
        ensures end { result.1 ≤ ram_end }
    {
        (self.start, self.end)
    }

    /// Puts `byte` at `address`, which is below $C000, and replaces any byte there. All other addresses are unchanged.
    pub fn set(&mut self, address: u16, byte: u8)
        requires { address < ram_end }
        ensures { (a : ℕ) → held self.new a ≡ put (held self.old) address byte a }
    {
        self.cells[usize::from(address)] = Some(byte);
        self.start = self.start.min(address);
        self.end = self.end.max(address + 1);
    }

    /// Lays the image over `ram`, the 49,152 bytes from address 0. Each address at which the image has a byte gets that
    /// byte; every other address is unchanged.
    pub fn overlay(&self, ram: &mut [u8])
        requires { length ram.old ≡ ram_end }
        ensures size { length ram.new ≡ ram_end }
        ensures laid { (a : ℕ) → a < ram_end → slice_index ram.new a ≡ unwrap_or (held self.now a) (slice_index ram.old a) }
    {
        for address in self.start..self.end {
            let at = usize::from(address);
            if let Some(byte) = self.cells[at] {
                ram[at] = byte;
            }
        }
    }
}
