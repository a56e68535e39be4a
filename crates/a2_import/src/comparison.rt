//! Comparing the bytes that are printed beside the lines of a listing with those that the lines give.

use crate::print::{Printed, column_of, printed_in};
use a2_asm::{Program, assemble, refused};
use a2_expand::{LoadedFile, expand};
use a2_hex::Image;
use a2_syntax::{Fault, parse};
use std::alloc::{AllocError, Allocator};

/// A line of a listing beside which other bytes are printed than the line gives.
#[derive(Clone, Copy, Debug, PartialEq, Eq)]
pub struct Difference {
    /// The line of the old text, counted from 1.
    pub line: usize,
    /// The address of the bytes.
    pub address: u16,
    /// How many bytes are printed, 1 to 3.
    pub count: usize,
    pub printed: [u8; 3],
    /// The bytes at the same addresses of the new source; `None` where it has none.
    pub made: [Option<u8>; 3],
}

// The plain text of a source, if it has one.
fn plain_text<A: Allocator + Copy>(
    alloc: A,
    text: &[u8],
) -> Result<Option<Vec<u8, A>>, AllocError> {
    match expand(alloc, LoadedFile { name: b"", text }, &[]) {
        Ok(made) => {
            let plain = Vec::from_slice(alloc, made.text.as_slice())?;
            Ok(Some(plain))
        }
        Err(_) => Ok(None),
    }
}

// The program of a plain text, or its first error.
fn program_of<A: Allocator + Copy>(alloc: A, text: &[u8]) -> Result<Program<A>, Fault> {
    let source = parse(alloc, text)?;
    assemble(alloc, &source)
}

// The bytes at the addresses of those that are printed, if they differ.
fn difference_in<A: Allocator>(
    line: usize,
    printed: &Printed,
    image: &Image<A>,
) -> Option<Difference> {
    let mut made: [Option<u8>; 3] = [None; 3];
    let mut differs = false;
    let mut address = printed.address;
    for (i, byte) in printed.bytes.iter().enumerate() {
        if i >= printed.count {
            break;
        }
        let found = image.get(address);
        differs = differs || found != Some(*byte);
        if let Some(place) = made.get_mut(i) {
            *place = found;
        }
        address = address.wrapping_add(1);
    }
    if !differs {
        return None;
    }
    Some(Difference {
        line,
        address: printed.address,
        count: printed.count,
        printed: printed.bytes,
        made,
    })
}

/// Returns the lines of a listing beside which other bytes are printed than its source gives. If the source has an error, there are none.
pub(crate) fn differences_of<A: Allocator + Copy>(
    alloc: A,
    lines: &[&[u8]],
    source: &[u8],
) -> Result<Vec<Difference, A>, AllocError> {
    let mut found = Vec::new(alloc);
    if column_of(lines).is_none() {
        return Ok(found);
    }
    let Some(plain) = plain_text(alloc, source)? else {
        return Ok(found);
    };
    let program = match program_of(alloc, plain.as_slice()) {
        Ok(program) => program,
        Err(fault) => {
            refused(fault)?;
            return Ok(found);
        }
    };
    for (i, line) in lines.iter().enumerate() {
        if let Some(printed) = printed_in(line) {
            if let Some(one) = difference_in(i.saturating_add(1), &printed, program.image()) {
                found.push(one)?;
            }
        }
    }
    Ok(found)
}
