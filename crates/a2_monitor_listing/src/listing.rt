//! Importing a listing of the Monitor.

ghost use Rattle.std.specs.Prelude.{◌≡◌, true, IfOk, IfErr};
ghost use Rattle.a2_hex.specs.Images.{held};
ghost use Rattle.a2_monitor_listing.specs.Imported.{AssemblesTo, AssemblesToListing, IsListingFault};

use crate::fault::ListingFault;
use crate::object::object_lines;
use crate::row::Draft;
use crate::same::are_same;
use a2_asm::assemble;
use a2_hex::{HexFault, Image, StoreLine, first_byte, load_lines, store_line};
use a2_syntax::{Fault, parse};
use a2_text::cut;
use std::alloc::{AllocError, Allocator};

// The bytes that a text spells.
fn bytes_of<A: Allocator>(alloc: A, text: &[u8]) -> Result<Vec<u8, A>, AllocError> {
    let mut bytes = Vec::new(alloc);
    let mut rest = text;
    while let Some((byte, following)) = first_byte(rest) {
        bytes.push(byte)?;
        rest = following;
    }
    Ok(bytes)
}

// Appends the source lines for a line that stores bytes, and returns the address after them. `next` is the address at which
// source lines without an `ORG` would be placed.
fn put_store<A: Allocator + Copy>(
    alloc: A,
    draft: &mut Draft<A>,
    next: Option<u16>,
    number: usize,
    store: &StoreLine<'_>,
) -> Result<Option<u16>, AllocError> {
    let Some(address) = store.address.or(next) else {
        return Ok(None);
    };
    let bytes = bytes_of(alloc, store.bytes)?;
    draft.put_bytes(next, number, bytes.as_slice(), address)
}

// Appends the lines of a source that has the bytes of these object lines.
fn put_lines<A: Allocator + Copy>(
    alloc: A,
    draft: &mut Draft<A>,
    lines: &[&[u8]],
) -> Result<(), AllocError> {
    let mut next = None;
    for (i, line) in lines.iter().enumerate() {
        if let Some(store) = store_line(line) {
            next = put_store(alloc, draft, next, i.saturating_add(1), &store)?;
        }
    }
    draft.put_names(lines.len())
}

// The lines of a source that has the bytes of these object lines.
fn draft_of<A: Allocator + Copy>(alloc: A, object: &[u8]) -> Result<Draft<A>, AllocError> {
    let lines = cut(alloc, object)?;
    let mut draft = Draft::new(alloc);
    put_lines(alloc, &mut draft, lines.as_slice())?;
    Ok(draft)
}

/// Returns whether a text is a source that assembles to the bytes of an image. Fails with its first error if it is not a valid source, or
/// if memory runs out.
pub fn assembles_to<A: Allocator + Copy>(
    alloc: A,
    text: &[u8],
    image: &Image<A>,
) -> Result<bool, Fault>
    ensures { IfOk result (λ is. is ≡ true → AssemblesTo (held image.now) text.now) }
{
    let source = parse(alloc, text)?;
    let program = assemble(alloc, &source)?;
    Ok(are_same(program.image(), image))
}

/// Returns a source that assembles to exactly the bytes of a listing in the Monitor's form. A line of a listing has an address
/// of 1 to 4 hexadecimal digits, `-`, bytes of 1 or 2 digits, and an operation of three characters with its operand, which is
/// ignored. An object line, `ADDRESS:BYTES`, is also accepted, and blank lines are ignored. Apple II Reference Manual (1979),
/// chapter 3.
///
/// Bytes that form one whole instruction are written as an instruction, all others as data. If an instruction has three bytes
/// for an address below $0100 and a form of two bytes exists, it is written with a name that a line at the end defines.
///
/// Fails with `Row` and the first line that has no bytes or has a byte at or above $C000. Fails with `Refused` and a line whose
/// bytes a source cannot express because an earlier line has bytes at the same addresses; the line is 0 if there is no
/// instruction or the source would be too large. Fails with `Unlike` if the source would have other bytes. Also fails if memory
/// runs out.
pub fn import_listing<A: Allocator + Copy>(
    alloc: A,
    text: &[u8],
) -> Result<Vec<u8, A>, ListingFault>
    ensures same { IfOk result (λ source. AssemblesToListing text.now source.items) }
    ensures refused { IfErr result (λ fault. IsListingFault text.now fault) }
{
    let object = object_lines(alloc, text)?;
    let image = match load_lines(alloc, object.as_slice()) {
        Ok(image) => image,
        Err(HexFault::Memory) => return Err(ListingFault::Memory),
        Err(fault) => return Err(ListingFault::Row(fault)),
    };
    let draft = draft_of(alloc, object.as_slice())?;
    match assembles_to(alloc, draft.text(), &image) {
        Ok(true) => Ok(draft.into_text()),
        Ok(false) => Err(ListingFault::Unlike),
        Err(Fault::Memory) => Err(ListingFault::Memory),
        Err(fault) => Err(ListingFault::Refused(draft.origin(fault.line()), fault)),
    }
}
