//! The lines of a loop.

use crate::places::{Place, is_among};
use a2_stream::{Output, WriteFault, put};
use a2_symbols::{Scene, put_number};
use std::alloc::Allocator;

// Lines of the source from one to another, with no other instructions between them.
#[derive(Clone, Copy)]
struct Range {
    first: u16,
    last: u16,
}

// Writes lines as `line 3` or `lines 3 to 5`, after a comma if they are not the first.
fn put_range<W: Output>(range: Range, is_first: bool, writer: &mut W) -> Result<(), WriteFault> {
    if !is_first {
        put(b", ", writer)?;
    }
    if range.first == range.last {
        put(b"line ", writer)?;
        return put_number(u64::from(range.first), writer);
    }
    put(b"lines ", writer)?;
    put_number(u64::from(range.first), writer)?;
    put(b" to ", writer)?;
    put_number(u64::from(range.last), writer)
}

// Returns a range to which a line is added.
fn with_line(range: Option<Range>, line: u16) -> Option<Range> {
    match range {
        Some(Range { first, last: _ }) => Some(Range { first, last: line }),
        None => Some(Range {
            first: line,
            last: line,
        }),
    }
}

/// Writes which lines the instructions of a loop are in, as `lines 3 to 5, line 9`.
pub(crate) fn put_lines<A: Allocator + Copy, W: Output>(
    scene: &Scene<A>,
    places: &[Place],
    writer: &mut W,
) -> Result<(), WriteFault> {
    let mut range = None;
    let mut is_first = true;
    for statement in scene.program.statements() {
        if is_among(statement, places) {
            range = with_line(range, statement.line);
        } else if statement.instr.is_some() {
            if let Some(whole) = range {
                put_range(whole, is_first, writer)?;
                is_first = false;
                range = None;
            }
        }
    }
    match range {
        Some(whole) => put_range(whole, is_first, writer),
        None => Ok(()),
    }
}
