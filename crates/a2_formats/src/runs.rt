//! The runs of bytes of an image.

use a2_hex::{Image, RAM_END};
use arrayvec::ArrayVec;

// The most bytes of a run.
const MOST: usize = 32;

// Some bytes at addresses one after another.
#[derive(Drop)]
pub(crate) struct Run {
    pub start: u16,
    pub bytes: ArrayVec<u8, MOST>,
    // The address after the last byte.
    pub end: u16,
}

// Returns the first bytes of an image at or after an address, up to a gap, but at most `most` and 32. Returns `None` if there is none.
pub(crate) fn next_run(image: &Image, from: u16, most: usize) -> Option<Run> {
    let mut run = Run {
        start: from,
        bytes: ArrayVec::new(),
        end: from,
    };
    for address in from..RAM_END {
        let byte = image.get(address);
        if run.bytes.is_empty() {
            run.start = address;
        } else if byte.is_none() || run.bytes.len() >= most {
            return Some(run);
        }
        if let Some(byte) = byte {
            if run.bytes.try_push(byte).is_err() {
                return Some(run);
            }
            run.end = address + 1;
        }
    }
    if run.bytes.is_empty() {
        None
    } else {
        Some(run)
    }
}
