//! Writing records.

ghost use Rattle.std.specs.Prelude.{◌≡◌, Ok, IfOk};
ghost use Rattle.a2_hex.specs.Images.{held};
ghost use Rattle.a2_formats.specs.Reading.{image_of};

use crate::digits::digits_of;
use crate::fault::{Flaw, FormatFault};
use crate::reading::{Records, read_records};
use crate::records::sum_of_bytes;
use crate::runs::next_run;
use crate::same::is_same;
use a2_hex::{Image, RAM_END};
use std::alloc::{AllocError, Global};

// The most bytes of a record that is written.
const WIDTH: usize = 16;

// Appends bytes as two digits each.
pub(crate) fn put_pairs(text: &mut Vec<u8>, bytes: &[u8]) -> Result<(), AllocError> {
    for byte in bytes {
        text.extend_from_slice(&digits_of(*byte))?;
    }
    Ok(())
}

// Appends a record of Intel HEX with these bytes from an address upwards.
fn put_intel(text: &mut Vec<u8>, start: u16, bytes: &[u8]) -> Result<(), AllocError> {
    let [high, low] = start.to_be_bytes();
    let head = [(bytes.len() % 256) as u8, high, low, 0];
    let sum = sum_of_bytes(&head).wrapping_add(sum_of_bytes(bytes));
    text.push(b':')?;
    put_pairs(text, &head)?;
    put_pairs(text, bytes)?;
    put_pairs(text, &[0u8.wrapping_sub(sum)])?;
    text.push(b'\n')?;
    Ok(())
}

// Appends a record of Motorola with these bytes from an address upwards.
fn put_motorola(text: &mut Vec<u8>, start: u16, bytes: &[u8]) -> Result<(), AllocError> {
    let [high, low] = start.to_be_bytes();
    let count = bytes.len() % 253 + 3;
    let head = [count as u8, high, low];
    let sum = sum_of_bytes(&head).wrapping_add(sum_of_bytes(bytes));
    text.extend_from_slice(b"S1")?;
    put_pairs(text, &head)?;
    put_pairs(text, bytes)?;
    put_pairs(text, &[255u8.wrapping_sub(sum)])?;
    text.push(b'\n')?;
    Ok(())
}

// Appends a record with these bytes from an address upwards.
fn put_record(
    text: &mut Vec<u8>,
    records: Records,
    start: u16,
    bytes: &[u8],
) -> Result<(), AllocError> {
    match records {
        Records::Intel => put_intel(text, start, bytes),
        Records::Motorola => put_motorola(text, start, bytes),
    }
}

// Returns the records of an image, at most 16 bytes in each, and the record that ends the file.
fn records_of(alloc: Global, records: Records, image: &Image) -> Result<Vec<u8>, AllocError> {
    let mut text = Vec::new(alloc);
    let mut from = 0;
    for _ in 0..RAM_END {
        let Some(run) = next_run(image, from, WIDTH) else {
            break;
        };
        put_record(&mut text, records, run.start, run.bytes.as_slice())?;
        from = run.end;
    }
    match records {
        Records::Intel => text.extend_from_slice(b":00000001FF\n")?,
        Records::Motorola => text.extend_from_slice(b"S9030000FC\n")?,
    }
    Ok(text)
}

/// Returns the records of an image, in memory of `alloc`: by rising address, with at most 16 bytes in each, then the one that ends the file.
/// The text is read back before it is returned: it has exactly this image. Fails only if memory runs out.
pub fn write_records(alloc: Global, records: Records, image: &Image) -> Result<Vec<u8>, FormatFault>
    ensures { IfOk result (λ text. image_of records text.items ≡ Ok (held image.now)) }
{
    let text = records_of(alloc, records, image)?;
    let again = read_records(alloc, records, text.as_slice())?;
    if !is_same(&again, image) {
        return Err(FormatFault::At(0, Flaw::Unlike));
    }
    Ok(text)
}
