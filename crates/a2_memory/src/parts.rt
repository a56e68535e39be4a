//! Writes parts of RAM as the Monitor displays them.

ghost use Rattle.std.specs.Prelude.{◌≡◌, ◌<◌, ◌+◌, ◌++◌, codes, option_map};
ghost use Rattle.a2_text.specs.Digits.{hex_word};
ghost use Rattle.a2_stream.specs.Stream.{SendsOrBreaks};
ghost use Rattle.a2_bus.specs.View.{memory_of};
ghost use Rattle.a2_monitor.specs.SessionStates.{state_of_session};
ghost use Rattle.a2_memory.specs.Parts.{bounds_in, bounds_of, shown_part, shown_parts};

use crate::part::Part;
use a2_hex::RAM_END;
use a2_machine::Machine;
use a2_monitor::Session;
use a2_stream::{Output, WriteFault};
use a2_symbols::Span;
use a2_text::{append, hex_word};
use arrayvec::ArrayVec;
use std::alloc::Allocator;

impl Part {
    /// Returns the addresses of a span, or `None` if it goes backwards or is not entirely below $C000.
    pub fn of(span: Span) -> Option<Part>
        ensures { option_map bounds_of result ≡ bounds_in span }
    {
        if span.first <= span.last && span.last < RAM_END {
            Some(Part {
                first: span.first,
                last: span.last,
            })
        } else {
            None
        }
    }
}

// The Monitor line that shows a part.
type Line = ArrayVec<u8, 9>;

// Returns the line for a part, such as `0300.030F`.
fn line_of(part: Part) -> Line
    ensures { result.items ≡ (hex_word part.first ++ codes ".") ++ hex_word part.last }
{
    let mut line = Line::new();
    append(&mut line, &hex_word(part.first));
    append(&mut line, b".");
    append(&mut line, &hex_word(part.last));
    line
}

// Writes a part of the RAM of a session.
fn write_part<A: Allocator + Copy, W: Output>(
    session: &mut Session<A>,
    part: Part,
    writer: &mut W,
) -> Result<(), WriteFault>
    ensures world { (state_of_session session.new).world ≡ (state_of_session session.old).world }
    ensures shown { SendsOrBreaks (W.taker writer.old) (W.taker writer.new) result
        (shown_part (state_of_session session.old).world.memory part) }
{
    match session.line(line_of(part).as_slice(), writer) {
        Ok(()) => Ok(()),
        Err(_) => Err(WriteFault),
    }
}

/// Writes parts of a machine's RAM as the Monitor displays them: a line for the first address and for each address
/// that is divisible by 8, such as `0300- A9 C1`. If a write fails, nothing more is written, so the output is a
/// prefix of the whole. Returns an error in that case.
pub fn write_parts<A: Allocator + Copy, W: Output>(
    machine: Machine<A>,
    parts: &[Part],
    writer: &mut W,
) -> Result<(), WriteFault>
    ensures { SendsOrBreaks (W.taker writer.old) (W.taker writer.new) result
        (shown_parts (memory_of machine.state.bus) parts.now) }
{
    let mut session = Session::new(machine);
    for part in parts {
        write_part(&mut session, *part, writer)?;
    }
    Ok(())
}
