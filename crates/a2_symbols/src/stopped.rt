//! Says where a run stopped.

use crate::scene::{Scene, put_place};
use a2_machine::Cause;
use a2_run::{AssembledText, RunFault};
use a2_stream::{Output, WriteFault, put};
use a2_text::cut;
use std::alloc::Allocator;

/// Writes where a run stopped with PC at `pc`, and what the cause means there, in one line that begins with `a2lab: `.
pub fn put_stop<A: Allocator + Copy, W: Output>(
    scene: &Scene<A>,
    pc: u16,
    cause: Cause,
    writer: &mut W,
) -> Result<(), WriteFault> {
    put(b"a2lab: stopped at ", writer)?;
    put_place(scene, pc, writer)?;
    put(b": ", writer)?;
    put(cause.sentence(), writer)?;
    put(b"\n", writer)
}

/// Writes the line of [`put_stop`] about a run of this source. Fails if a write fails, or if there is not enough memory. This
/// project's profile.
pub fn report_stop<A: Allocator + Copy, W: Output>(
    alloc: A,
    assembled: &AssembledText<'_, A>,
    pc: u16,
    cause: Cause,
    writer: &mut W,
) -> Result<(), RunFault> {
    let lines = cut(alloc, assembled.text())?;
    let scene = Scene {
        program: assembled.program(),
        lines: lines.as_slice(),
    };
    Ok(put_stop(&scene, pc, cause, writer)?)
}
