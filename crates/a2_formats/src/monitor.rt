//! Lines for the Monitor.

ghost use Rattle.std.specs.Prelude.{◌≡◌, Ok, IfOk};
ghost use Rattle.a2_hex.specs.Images.{held};
ghost use Rattle.a2_hex.specs.ObjectLines.{image_of};

use crate::fault::{Flaw, FormatFault};
use crate::loading::load_lines;
use crate::runs::next_run;
use crate::same::is_same;
use crate::writing::put_pairs;
use a2_hex::{HexFault, Image, RAM_END};
use std::alloc::{AllocError, Global};

/// Returns the image that lines of the Monitor load, in memory of `alloc`, as `load_lines` of `a2_hex` does. Fails at the first line that has
/// another form (`Form`), that has no address although no line before it has one (`NoAddress`), or that has a byte at or above $C000
/// (`Outside`).
pub fn read_monitor_lines(alloc: Global, text: &[u8]) -> Result<Image, FormatFault>
    ensures { IfOk result (λ image. image_of text.now ≡ Ok (held image)) }
{
    match load_lines(alloc, text) {
        Ok(image) => Ok(image),
        Err(HexFault::Digit(line)) => Err(FormatFault::At(line, Flaw::Form)),
        Err(HexFault::NoAddress(line)) => Err(FormatFault::At(line, Flaw::NoAddress)),
        Err(HexFault::Outside(line)) => Err(FormatFault::At(line, Flaw::Outside)),
        Err(HexFault::Memory) => Err(FormatFault::Memory),
    }
}

// Appends a line with these bytes from an address upwards.
fn put_line(text: &mut Vec<u8>, start: u16, bytes: &[u8]) -> Result<(), AllocError> {
    put_pairs(text, &start.to_be_bytes())?;
    let mut sign = b':';
    for byte in bytes {
        text.push(sign)?;
        put_pairs(text, &[*byte])?;
        sign = b' ';
    }
    text.push(b'\n')?;
    Ok(())
}

// Returns the lines of an image, with at most `width` bytes in each.
fn lines_of(alloc: Global, image: &Image, width: usize) -> Result<Vec<u8>, AllocError> {
    let mut text = Vec::new(alloc);
    let mut from = 0;
    for _ in 0..RAM_END {
        let Some(run) = next_run(image, from, width) else {
            break;
        };
        put_line(&mut text, run.start, run.bytes.as_slice())?;
        from = run.end;
    }
    Ok(text)
}

/// Returns the lines with which the Monitor stores an image, in memory of `alloc`: an address, `:`, and at most `width` bytes, of at most 32.
/// The text is read back before it is returned: `load_lines` of `a2_hex` gives exactly this image. Fails only if memory runs out.
pub fn write_monitor_lines(
    alloc: Global,
    image: &Image,
    width: usize,
) -> Result<Vec<u8>, FormatFault>
    ensures { IfOk result (λ text. image_of text.items ≡ Ok (held image.now)) }
{
    let text = lines_of(alloc, image, width)?;
    let again = read_monitor_lines(alloc, text.as_slice())?;
    if !is_same(&again, image) {
        return Err(FormatFault::At(0, Flaw::Unlike));
    }
    Ok(text)
}
