//! AppleSingle files.

ghost use Rattle.std.specs.Prelude.{◌≡◌, ◌≢◌, ◌<◌, ◌≤◌, ◌+◌, length, Ok, Err, IfOk, IfErr, IfSome, MatchOption, None, Some};
ghost use Rattle.a2_hex.specs.Images.{held};
ghost use Rattle.a2_formats.specs.declared.fault.FormatFault.TheVariants.{Memory};
ghost use Rattle.a2_formats.specs.AppleSingle.{long_at, entry_of, after_entries, apple_image};

use crate::fault::{Flaw, FormatFault};
use crate::plain::{Plain, bytes_of, read_from};
use crate::same::is_same;
use a2_hex::Image;
use std::alloc::{AllocError, Global};

// The part of a file that an entry names.
#[derive(Clone, Copy)]
struct Entry {
    offset: usize,
    length: usize,
}

// Returns the number in four bytes of a file, the highest one first.
fn long_at(file: &[u8], at: usize) -> usize
    requires { at + 4 ≤ length file.now }
    ensures is { result ≡ long_at file.now at }
    ensures small { result < 0x100000000 }
{
    ((usize::from(file[at]) * 256 + usize::from(file[at + 1])) * 256 + usize::from(file[at + 2]))
        * 256
        + usize::from(file[at + 3])
}

// Returns the first of `left` entries from an offset on that has this number.
#[tactic(auto, using(crate::proofs::AppleLaws::entry_step, crate::proofs::AppleLaws::entry_none))]
fn entry_of(id: usize, file: &[u8], at: usize, left: usize) -> Option<Entry>
    requires { at ≤ length file.now }
    ensures is { MatchOption result (entry_of id file.now at left ≡ None)
        (λ entry. entry_of id file.now at left ≡ Some (record { offset = entry.offset; length = entry.length })) }
    ensures small { IfSome result (λ entry. (entry.offset < 0x100000000) × (entry.length < 0x100000000)) }
{
    if left == 0 {
        return None;
    }
    if file.len() - at < 12 {
        return None;
    }
    if long_at(file, at) == id {
        return Some(Entry {
            offset: long_at(file, at + 4),
            length: long_at(file, at + 8),
        });
    }
    entry_of(id, file, at + 12, left - 1)
}

// Returns the image of the data of a file, whose address is in the entry `info`.
fn read_entries(alloc: Global, file: &[u8], fork: Entry, info: Entry) -> Result<Image, FormatFault>
    requires fork { fork.offset < 0x100000000 }
    requires count { fork.length < 0x100000000 }
    requires info { info.offset < 0x100000000 }
    ensures loaded { IfOk result (λ image. after_entries file.now fork.offset fork.length info.offset ≡ Ok (held image)) }
    ensures refused { IfErr result (λ fault. fault ≢ Memory → after_entries file.now fork.offset fork.length info.offset ≡ Err fault) }
{
    if file.len() < fork.offset + fork.length {
        return Err(FormatFault::At(file.len(), Flaw::Short));
    }
    if file.len() < info.offset + 8 {
        return Err(FormatFault::At(file.len(), Flaw::Short));
    }
    let rest = &file[fork.offset..];
    let start = long_at(file, info.offset + 4);
    read_from(alloc, info.offset + 4, start, &rest[..fork.length])
}

/// Returns the image of an AppleSingle file, in memory of `alloc`: its data, from the address that the auxiliary type of the entry for ProDOS
/// gives. Fails if the file does not begin as one, has no data or no such entry, or ends too early, or if a byte would be at or above $C000.
pub fn read_apple_single(alloc: Global, file: &[u8]) -> Result<Image, FormatFault>
    ensures loaded { IfOk result (λ image. apple_image file.now ≡ Ok (held image)) }
    ensures refused { IfErr result (λ fault. fault ≢ Memory → apple_image file.now ≡ Err fault) }
{
    if file.len() < 26 {
        return Err(FormatFault::At(file.len(), Flaw::Short));
    }
    if long_at(file, 0) != 0x0005_1600 {
        return Err(FormatFault::At(0, Flaw::Form));
    }
    let count = usize::from(file[24]) * 256 + usize::from(file[25]);
    let Some(fork) = entry_of(1, file, 26, count) else {
        return Err(FormatFault::At(26, Flaw::Empty));
    };
    let Some(info) = entry_of(11, file, 26, count) else {
        return Err(FormatFault::At(26, Flaw::NoAddress));
    };
    read_entries(alloc, file, fork, info)
}

// Returns an AppleSingle file with these bytes.
fn apple_file(alloc: Global, plain: &Plain) -> Result<Vec<u8>, AllocError> {
    let mut file = Vec::new(alloc);
    let count = plain.bytes.len() % 65536;
    file.extend_from_slice(&[0, 5, 0x16, 0, 0, 2, 0, 0])?;
    file.extend_from_slice(&[0u8; 16])?;
    file.extend_from_slice(&[0, 2, 0, 0, 0, 11, 0, 0, 0, 50, 0, 0, 0, 8])?;
    file.extend_from_slice(&[0, 0, 0, 1, 0, 0, 0, 58, 0, 0])?;
    file.push((count / 256) as u8)?;
    file.push((count % 256) as u8)?;
    file.extend_from_slice(&[0, 0xC3, 0, 6, 0, 0])?;
    file.extend_from_slice(&plain.start.to_be_bytes())?;
    file.extend_from_slice(plain.bytes.as_slice())?;
    Ok(file)
}

/// Returns the AppleSingle file of an image that has no gaps, in memory of `alloc`, as a binary file of ProDOS. It is read back before it is
/// returned: it has exactly this image. Fails if the image has no byte (`Empty`), or has a gap (`Gap`, with its address).
pub fn write_apple_single(alloc: Global, image: &Image) -> Result<Vec<u8>, FormatFault>
    ensures { IfOk result (λ file. apple_image file.items ≡ Ok (held image.now)) }
{
    let plain = bytes_of(alloc, image)?;
    let file = apple_file(alloc, &plain)?;
    let again = read_apple_single(alloc, file.as_slice())?;
    if !is_same(&again, image) {
        return Err(FormatFault::At(0, Flaw::Unlike));
    }
    Ok(file)
}
