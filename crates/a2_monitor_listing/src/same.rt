//! Comparing the bytes of two images.

ghost use Rattle.std.specs.Prelude.{◌≡◌, ◌<◌, ◌↔◌, ℕ, IsTrue};
ghost use Rattle.a2_hex.specs.Images.{held, ram_end};

use a2_hex::{Image, RAM_END};
use std::alloc::Allocator;

// Whether both images hold the same byte, or none, at an address.
fn is_same_at<A: Allocator, B: Allocator>(image: &Image<A>, other: &Image<B>, address: u16) -> bool
    ensures { IsTrue result ↔ held image.now address ≡ held other.now address }
{
    image.get(address) == other.get(address)
}

/// Returns whether two images hold the same byte, or none, at each address.
pub(crate) fn are_same<A: Allocator, B: Allocator>(image: &Image<A>, other: &Image<B>) -> bool
    ensures { IsTrue result ↔ ((a : ℕ) → a < ram_end → held image.now a ≡ held other.now a) }
{
    for address in 0..RAM_END {
        if !is_same_at(image, other, address) {
            return false;
        }
    }
    true
}
