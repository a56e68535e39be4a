//! Parts of images.

use crate::places::Span;
use a2_hex::{HexFault, Image, RAM_END};
use std::alloc::Global;

// Puts a byte at an address of RAM.
fn put_at(image: &mut Image, address: u16, byte: u8) {
    if address < RAM_END {
        image.set(address, byte);
    }
}

/// Returns the part of an image in a span.
pub(crate) fn part_of(alloc: Global, image: &Image, span: Span) -> Result<Image, HexFault> {
    let mut part = Image::new(alloc)?;
    for address in span.first..span.end {
        if let Some(byte) = image.get(address) {
            put_at(&mut part, address, byte);
        }
    }
    Ok(part)
}

/// Returns the lowest address at which an image has a byte.
pub(crate) fn lowest(image: &Image) -> Option<u16> {
    for address in 0..RAM_END {
        if image.get(address).is_some() {
            return Some(address);
        }
    }
    None
}
