//! A row of a table: cells that end at columns, and the texts after them.

ghost use Rattle.std.specs.Prelude.{◌≡◌, map};
ghost use Rattle.std.specs.List.{flat_map};
ghost use Rattle.a2_stream.specs.Stream.{SendsOrBreaks};
ghost use Rattle.a2_profile.specs.Row as spec;

use a2_stream::{Output, WriteFault, put, put_all};

// The widest gap between two cells.
const BLANKS: &[u8] = b"              ";

/// A text that ends at a column.
#[derive(Clone, Copy)]
pub(crate) struct Cell<'a> {
    width: usize,
    text: &'a [u8],
}

impl<'a> Cell<'a> {
    /// Returns a cell for a text: its end is so many characters after the end of the cell before, or at most 14 blanks after it.
    pub(crate) fn of(width: usize, text: &'a [u8]) -> Cell<'a>
        ensures width { result.width ≡ width }
        ensures text { result.text.now ≡ text.now }
    {
        Cell { width, text }
    }
}

// The blanks before a text that ends at a column.
fn gap(width: usize, text: &[u8]) -> &[u8]
    ensures { result.now ≡ spec.gap width text.now }
{
    &BLANKS[..width.saturating_sub(text.len()).min(14)]
}

// Returns what is before a text after the cells.
fn before_text(text: &[u8]) -> &[u8]
    ensures { result.now ≡ spec.before_text text.now }
{
    if text.len() == 0 { b"" } else { b"  " }
}

// Writes a cell.
#[tactic(auto, unfolding(crate::specs::Row::cell_text))]
fn put_cell<'a, W: Output>(cell: &Cell<'a>, writer: &mut W) -> Result<(), WriteFault>
    ensures { SendsOrBreaks (W.taker writer.old) (W.taker writer.new) result (spec.cell_text (cell.now.width, cell.now.text.now)) }
{
    put_all(&[gap(cell.width, cell.text), cell.text], writer)
}

// Writes a text after the cells.
#[tactic(auto, unfolding(crate::specs::Row::text_after))]
fn put_text<W: Output>(text: &[u8], writer: &mut W) -> Result<(), WriteFault>
    ensures { SendsOrBreaks (W.taker writer.old) (W.taker writer.new) result (spec.text_after text.now) }
{
    put_all(&[before_text(text), text], writer)
}

// Writes cells.
fn put_cells<'a, W: Output>(cells: &[Cell<'a>], writer: &mut W) -> Result<(), WriteFault>
    ensures { SendsOrBreaks (W.taker writer.old) (W.taker writer.new) result (flat_map (λ cell. spec.cell_text (cell.width, cell.text.now)) cells.now) }
{
    for cell in cells {
        put_cell(cell, writer)?;
    }
    Ok(())
}

// Writes the texts after the cells.
fn put_texts<W: Output>(texts: &[&[u8]], writer: &mut W) -> Result<(), WriteFault>
    ensures { SendsOrBreaks (W.taker writer.old) (W.taker writer.new) result (flat_map (λ text. spec.text_after text.now) texts.now) }
{
    for text in texts {
        put_text(*text, writer)?;
    }
    Ok(())
}

/// Writes a row of these cells and, after two blanks each, these texts.
pub(crate) fn put_row<'a, W: Output>(
    cells: &[Cell<'a>],
    texts: &[&[u8]],
    writer: &mut W,
) -> Result<(), WriteFault>
    ensures { SendsOrBreaks (W.taker writer.old) (W.taker writer.new) result (spec.row (map (λ x. (x.width, x.text.now)) cells.now) (map (λ x. x.now) texts.now)) }
{
    put_cells(cells, writer)?;
    put_texts(texts, writer)?;
    put(b"\n", writer)
}
