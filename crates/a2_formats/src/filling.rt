//! Filling the gaps of an image.

ghost use Rattle.std.specs.Prelude.{◌≡◌, ◌<◌, ℕ, None, Some, IfSome, IfOk, ◌⊎◌};
ghost use Rattle.a2_hex.specs.Images.{held, ram_end};

use crate::fault::FormatFault;
use crate::laying::empty_image;
use a2_hex::{Image, RAM_END};
use std::alloc::Global;

// Returns the first address of an image that has a byte.
fn first_of(image: &Image) -> Option<u16>
    ensures { IfSome result (λ address. address < ram_end) }
{
    for address in 0..RAM_END {
        if image.get(address).is_some() {
            return Some(address);
        }
    }
    None
}

// Returns the first address of an image that has a byte, and the address after the last one. Returns `None` if there is no byte.
pub(crate) fn ends_of(image: &Image) -> Option<(u16, u16)>
    ensures { IfSome result (λ (first, end). end < 0xC001) }
{
    let first = first_of(image)?;
    for before in 0..RAM_END {
        let last = RAM_END - 1 - before;
        if image.get(last).is_some() {
            return Some((first, last + 1));
        }
    }
    None
}

/// Puts `fill` at each address that has no byte although addresses below it and above it have one. All other addresses are unchanged.
pub fn fill_gaps(image: &mut Image, fill: u8)
    ensures kept { (a byte : ℕ) → held image.old a ≡ Some byte → held image.new a ≡ Some byte }
    ensures filled { (a byte : ℕ) → held image.new a ≡ Some byte → (held image.old a ≡ Some byte) ⊎ (byte ≡ fill) }
{
    let Some((first, end)) = ends_of(image) else {
        return;
    };
    for address in first..end.min(RAM_END) {
        if image.get(address).is_none() {
            image.set(address, fill);
        }
    }
}

/// Returns an image with the same bytes at the same addresses, in memory of `alloc`. Fails only if memory runs out.
pub fn copied(alloc: Global, image: &Image) -> Result<Image, FormatFault>
    ensures { IfOk result (λ copy. (a : ℕ) → a < ram_end → held copy a ≡ held image.now a) }
{
    let mut copy = empty_image(alloc)?;
    for address in 0..RAM_END {
        if let Some(byte) = image.get(address) {
            copy.set(address, byte);
        }
    }
    Ok(copy)
}
