//! Loading an image from object lines.

ghost use Rattle.std.specs.Prelude.{◌≡◌, ◌≢◌, ◌+◌, ◌≤◌, List, ℕ, length, false, Some, Ok, IfOk, IfErr};
ghost use Rattle.a2_hex.specs.Images.{held, overlaid};
ghost use Rattle.a2_hex.specs.ObjectLines.{hex_bytes, lies_outside, after_line, image_of};

use crate::fault::HexFault;
use crate::image::{Image, RAM_END};
use crate::store::{first_byte, store_line};
use a2_text::{cut, first_word};
use std::alloc::Allocator;

// Puts bytes at the addresses from this one upwards, and returns the address after them.
fn put_bytes_from<A: Allocator>(image: &mut Image<A>, address: u16, bytes: &[u8]) -> u16
    ghost all: { List ℕ }
    requires bytes { hex_bytes bytes.now ≡ Some all }
    requires room { lies_outside address (length all) ≡ false }
    ensures image { held image.new ≡ overlaid (held image.old) address all }
    ensures next { result ≡ address + length all }
{
    let mut next = address;
    let mut rest = bytes;
    while let Some((byte, following)) = first_byte(rest) {
        image.set(next, byte);
        next += 1;
        rest = following;
    }
    next
}

// Loads one line, and returns the next address.
fn load_line<A: Allocator>(
    image: &mut Image<A>,
    next: Option<u16>,
    number: usize,
    line: &[u8],
) -> Result<Option<u16>, HexFault>
    ensures loaded { IfOk result (λ after.
        after_line number (record { image = held image.old; next = next }) line.now
        ≡ Ok (record { image = held image.new; next = after })) }
    ensures refused { IfErr result (λ fault. after_line number (record { image = held image.old; next = next }) line.now ≡ Err fault) }
{
    let Some(_) = first_word(line) else {
        return Ok(next);
    };
    let Some(store) = store_line(line) else {
        return Err(HexFault::Digit(number));
    };
    let Some(address) = store.address.or(next) else {
        return Err(HexFault::NoAddress(number));
    };
    if store.count > usize::from(RAM_END.saturating_sub(address)) {
        return Err(HexFault::Outside(number));
    }
    Ok(Some(put_bytes_from(image, address, store.bytes)))
}

/// Returns the image that the object lines in `text` load, in memory of `alloc`.
///
/// A line is blank, or it is an optional address of 1 to 4 hexadecimal digits, `:`, and bytes of 1 or 2 digits
/// separated by blanks. Without an address, a line continues after the last byte loaded, or at the last address given
/// if that had no byte. A later byte replaces an earlier one. This project's profile of the Monitor's lines that change
/// memory, Apple II Reference Manual (1979), chapter 3.
///
/// Fails at the first line that has another form (`Digit`), that has no address although no line before it has one
/// (`NoAddress`), or that has a byte at or above $C000 (`Outside`). Also fails if memory runs out (`Memory`).
pub fn load_lines<A: Allocator + Copy>(alloc: A, text: &[u8]) -> Result<Image<A>, HexFault>
    ensures loaded { IfOk result (λ image. image_of text.now ≡ Ok (held image)) }
    ensures refused { IfErr result (λ fault. fault ≢ HexFault.Memory → image_of text.now ≡ Err fault) }
{
    let lines = cut(alloc, text)?;
    let mut image = Image::new(alloc)?;
    let mut next = None;
    for (i, line) in lines.iter().enumerate() {
        next = load_line(&mut image, next, i + 1, line)?;
    }
    Ok(image)
}
