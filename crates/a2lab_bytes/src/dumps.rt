//! Files that are dumps.

use crate::bytes::lowest;
use a2_disassembly::{Dump, load_dump};
use a2_formats::copied;
use a2_hex::{HexFault, Image};
use a2_text::{cut, front_len, is_blank};
use std::alloc::{AllocError, Global};

// Returns whether a line is a row of a listing: an address, `-`, bytes, and an operation.
fn has_operation(line: &[u8]) -> bool {
    let count = front_len(line, |c| c.is_ascii_hexdigit() || is_blank(c));
    match &line[count..] {
        [b'-', rest @ ..] => !rest.iter().all(|c| c.is_ascii_hexdigit() || is_blank(*c)),
        _ => false,
    }
}

/// Returns the dump that a text is: all of its lines are those of one, at least one byte is loaded, and none of the lines is a row of a
/// listing, whose instructions are already found. Returns `None` for any other text.
pub(crate) fn dump_of(alloc: Global, text: &[u8]) -> Result<Option<Dump<'_, Global>>, AllocError> {
    let lines = cut(alloc, text)?;
    if lines.iter().any(|line| has_operation(*line)) {
        return Ok(None);
    }
    let dump = match load_dump(alloc, text) {
        Ok(dump) => dump,
        Err(HexFault::Memory) => return Err(AllocError),
        Err(_) => return Ok(None),
    };
    if lowest(&dump.image).is_none() {
        return Ok(None);
    }
    Ok(Some(dump))
}

/// Returns the image of a text that is a dump, or `None` for any other text.
pub(crate) fn dumped_image(alloc: Global, text: &[u8]) -> Result<Option<Image>, AllocError> {
    match dump_of(alloc, text) {
        Ok(Some(dump)) => match copied(alloc, &dump.image) {
            Ok(image) => Ok(Some(image)),
            Err(_) => Err(AllocError),
        },
        Ok(None) => Ok(None),
        Err(AllocError) => Err(AllocError),
    }
}
