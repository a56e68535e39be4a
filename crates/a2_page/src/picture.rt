//! Prints the screen as lines.

ghost use Rattle.std.specs.Prelude.{◌≡◌, ◌<◌, ◌≤◌, length, slice_index_or, take, drop, []};
ghost use Rattle.a2_stream.specs.Stream.{SendsOrBreaks};
ghost use Rattle.a2_page.specs.Text.{row_line, lines_of, block_lines};
ghost use Rattle.a2_page.specs.Picture as screen;
ghost use Rattle.a2_page.specs.Picture.{page_grid, graphics_lines, picture, attribute_rows};
ghost use Rattle.a2_page.specs.Marks as marks;

use crate::cells::row_offset;
use crate::{Attribute, Half, Switches, View, attribute_of, glyph};
use a2_stream::{Output, WriteFault, put};
use a2_text::hex_pair;
use arrayvec::ArrayVec;

/// Writes to `writer` what the screen of `view` shows, with LF at the end of each line. Text mode gives 24 lines of 40
/// characters, lo-res gives 48 lines of 40 hexadecimal digits, and hi-res gives the one line `HI-RES NOT SHOWN`. In the
/// mixed modes, 40 lines of digits or that one line come first, and the last four rows of cells follow as lines of
/// characters. If a write fails, returns an error, and only a prefix of these lines was written. Apple II Reference
/// Manual (1979), pages 12 to 20, and this project's profile.
pub fn print<W: Output>(view: &View, writer: &mut W) -> Result<(), WriteFault>
    ensures { SendsOrBreaks (W.taker writer.old) (W.taker writer.new) result
        (picture view.now.switches (page_grid view.now.page1.now) (page_grid view.now.page2.now)) }
{
    put_picture(shown_page(view), view.switches, writer)
}

/// Writes to `writer` how each cell of `view` shows its character: `.` for normal, `I` for inverse, `F` for flashing.
/// The rows and lines are those that `print` writes as characters. If a write fails, returns an error, and only a
/// prefix of these lines was written. This project's profile.
pub fn print_attributes<W: Output>(view: &View, writer: &mut W) -> Result<(), WriteFault>
    ensures { SendsOrBreaks (W.taker writer.old) (W.taker writer.new) result
        (attribute_rows view.now.switches (page_grid view.now.page1.now) (page_grid view.now.page2.now)) }
{
    put_text_rows(shown_page(view), view.switches, Mark::Attribute, writer)
}

// What to write for a byte of a page: its character, its attribute, or one of its blocks.
#[derive(Clone, Copy)]
pub(crate) enum Mark {
    Glyph,
    Attribute,
    Block(Half),
}

pub(crate) fn shown_page<'a>(view: &View<'a>) -> &'a [u8; 1024]
    ensures { page_grid result.now ≡
        screen.shown_page view.now.switches (page_grid view.now.page1.now) (page_grid view.now.page2.now) }
{
    if view.switches.page2 {
        view.page2
    } else {
        view.page1
    }
}

fn first_text_row(switches: Switches) -> u8
    ensures value { result ≡ screen.first_text_row switches }
    ensures bound { result ≤ 24 }
{
    match switches {
        Switches { text: true, .. } => 0,
        Switches { mixed: true, .. } => 20,
        _ => 24,
    }
}

// The lines of a page: first the graphics rows, and then the text rows.
#[tactic(auto, using(a2_stream::proofs::Joined::broke_off, a2_stream::proofs::Joined::went_on))]
pub(crate) fn put_picture<W: Output>(
    page: &[u8; 1024],
    switches: Switches,
    writer: &mut W,
) -> Result<(), WriteFault>
    ensures { SendsOrBreaks (W.taker writer.old) (W.taker writer.new) result (screen.lines_of_page switches (page_grid page.now)) }
{
    if !switches.text {
        put_graphics(page, switches, writer)?;
    }
    put_text_rows(page, switches, Mark::Glyph, writer)
}

// The rows of cells above the text.
fn put_graphics<W: Output>(
    page: &[u8; 1024],
    switches: Switches,
    writer: &mut W,
) -> Result<(), WriteFault>
    ensures { SendsOrBreaks (W.taker writer.old) (W.taker writer.new) result
        (graphics_lines switches (take (screen.first_text_row switches) (page_grid page.now))) }
{
    if switches.hires {
        put(b"HI-RES NOT SHOWN\n", writer)
    } else {
        put_blocks(page, first_text_row(switches), writer)
    }
}

// Two lines of blocks for each row of cells above `end`.
fn put_blocks<W: Output>(page: &[u8; 1024], end: u8, writer: &mut W) -> Result<(), WriteFault>
    requires { end ≤ 24 }
    ensures { SendsOrBreaks (W.taker writer.old) (W.taker writer.new) result
        (block_lines (take end (page_grid page.now))) }
{
    for row in 0..end {
        let cells = cells_in_row(page, row);
        put_line(cells, Mark::Block(Half::Above), writer)?;
        put_line(cells, Mark::Block(Half::Below), writer)?;
    }
    Ok(())
}

// The rows of cells from the first text row to the bottom.
pub(crate) fn put_text_rows<W: Output>(
    page: &[u8; 1024],
    switches: Switches,
    mark: Mark,
    writer: &mut W,
) -> Result<(), WriteFault>
    ensures { SendsOrBreaks (W.taker writer.old) (W.taker writer.new) result
        (lines_of (marks.character mark) (drop (screen.first_text_row switches) (page_grid page.now))) }
{
    let first = first_text_row(switches);
    for row in first..24 {
        put_line(cells_in_row(page, row), mark, writer)?;
    }
    Ok(())
}

pub(crate) fn cells_in_row(page: &[u8; 1024], row: u8) -> &[u8]
    requires { row < 24 }
    ensures cells { result.now ≡ slice_index_or (page_grid page.now) row [] }
    ensures width { length result.now ≡ 40 }
{
    let start = usize::from(row_offset(row));
    &page[start..start + 40]
}

fn put_line<W: Output>(cells: &[u8], mark: Mark, writer: &mut W) -> Result<(), WriteFault>
    requires { length cells.now ≡ 40 }
    ensures { SendsOrBreaks (W.taker writer.old) (W.taker writer.new) result
        (row_line (marks.character mark) cells.now) }
{
    let mut line: ArrayVec<u8, 41> = ArrayVec::new();
    for byte in cells {
        line.push(character(*byte, mark));
    }
    line.push(b'\n');
    put(line.as_slice(), writer)
}

fn character(byte: u8, mark: Mark) -> u8
    ensures { result ≡ marks.character mark byte }
{
    match mark {
        Mark::Glyph => glyph(byte),
        Mark::Attribute => match attribute_of(byte) {
            Attribute::Inverse => b'I',
            Attribute::Flashing => b'F',
            Attribute::Normal => b'.',
        },
        // The hexadecimal digit of a block.
        Mark::Block(Half::Below) => hex_pair(byte)[0],
        Mark::Block(Half::Above) => hex_pair(byte)[1],
    }
}
