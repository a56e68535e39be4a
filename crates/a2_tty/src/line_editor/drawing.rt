//! Draws the line.

ghost use Rattle.std.specs.Prelude.{◌≡◌, ◌<◌, ◌≤◌, ◌++◌, length};
ghost use Rattle.a2_stream.specs.Stream.{SendsOrBreaks};
ghost use Rattle.a2_tty.specs.Drawn as drawn;

use crate::line_editor::line::Line;
use a2_stream::{Output, WriteFault, put_all};
use a2_text::decimal;
use arrayvec::ArrayVec;

/// A control sequence for the terminal.
type Order = ArrayVec<u8, 24>;

// Returns a control sequence with a number, or an empty one if the number is 0.
fn order_of(number: usize, letter: u8) -> Order
    ensures { result.items ≡ drawn.control_sequence_text number letter }
{
    let mut order = Order::new();
    if number > 0 {
        order.try_extend_from_slice(b"\x1B[").unwrap();
        order
            .try_extend_from_slice(decimal(number as u64).as_slice())
            .unwrap();
        order.push(letter);
    }
    order
}

// Returns the bytes of a line that are shown in this many columns, 1 or more: those around the cursor.
fn visible(line: &Line, room: usize) -> &[u8]
    requires { 0 < room }
    ensures shown { result.now ≡ drawn.visible room line.now }
    ensures few { length result.now ≤ room }
{
    let first = line.cursor().saturating_sub(room - 1);
    let following = &line.bytes()[first..];
    &following[..room.min(following.len())]
}

/// Draws a line after its prompt, from the first column of the terminal's row, and puts the terminal's cursor at the
/// cursor of the line. The row has `columns` columns for prompt and line. If the line is longer, only the part around
/// the cursor is shown; columns that are left over are blank. If a write fails, returns an error, and only a prefix of
/// this was written. This project's profile.
pub fn put_line<W: Output>(
    prompt: &[u8],
    columns: usize,
    line: &Line,
    writer: &mut W,
) -> Result<(), WriteFault>
    ensures { SendsOrBreaks (W.taker writer.old) (W.taker writer.new) result (drawn.line_text prompt.now columns line.now) }
{
    let room = columns.saturating_sub(prompt.len() + 1).max(1);
    let shown = visible(line, room);
    let blanks = order_of(room - shown.len(), b'X');
    let before = prompt.len() + line.cursor().min(room - 1);
    let cursor = order_of(before, b'C');
    put_all(
        &[
            b"\r",
            prompt,
            shown,
            blanks.as_slice(),
            b"\r",
            cursor.as_slice(),
        ],
        writer,
    )
}
