//! The cells that changed.

ghost use Rattle.std.specs.Prelude.{◌≡◌, ◌+◌, ◌<◌, ◌≤◌, ◌++◌};
ghost use Rattle.std.specs.Fmt.{decimal as decimal_of};
ghost use Rattle.a2_stream.specs.Stream.{SendsOrBreaks};
ghost use Rattle.a2_tty.specs.Written as written;

use crate::cells::colours::{Colours, put_tile};
use crate::cells::tiles::{Tile, is_same};
use a2_stream::{Output, WriteFault, put_all};
use a2_text::decimal;

/// How many rows and columns of cells are shown, from the top left.
#[derive(Clone, Copy, Debug, PartialEq, Eq)]
pub struct Size {
    /// The rows.
    pub rows: u8,
    /// The columns of each row.
    pub columns: u8,
}

/// A picture made of cells.
pub(crate) trait Cells {
    ghost use Rattle.std.specs.Prelude.{ℕ};
    ghost use Rattle.a2_tty.specs.declared.cells.tiles.Tile.{Tile};

    /// What the cell in a row and a column shows, both counted from 0.
    ghost shows: { Self → ℕ → ℕ → Tile };

    /// How many rows and columns there are.
    ghost height: { ℕ };

    ghost width: { ℕ };

    /// Returns what the cell in `row` and `column` shows, both counted from 0.
    fn cell_at(&self, row: u8, column: u8) -> Tile
        requires row { row < height }
        requires column { column < width }
        ensures { result ≡ shows self.now row column };
}

// Moves the terminal's cursor to the row and the column with these digits.
#[tactic(auto, unfolding(crate::specs::Written::place_text))]
fn put_digits<W: Output>(row: &[u8], column: &[u8], writer: &mut W) -> Result<(), WriteFault>
    ensures { SendsOrBreaks (W.taker writer.old) (W.taker writer.new) result (written.place_text row.now column.now) }
{
    put_all(&[b"\x1B[", row, b";", column, b"H"], writer)
}

// Moves the terminal's cursor to a cell.
fn put_place<W: Output>(row: u8, column: u8, writer: &mut W) -> Result<(), WriteFault>
    requires row { row < 255 }
    requires column { column < 255 }
    ensures { SendsOrBreaks (W.taker writer.old) (W.taker writer.new) result
        (written.place_text (decimal_of (row + 1)) (decimal_of (column + 1))) }
{
    let row = decimal(u64::from(row + 1));
    let column = decimal(u64::from(column + 1));
    put_digits(row.as_slice(), column.as_slice(), writer)
}

// Writes the position of a cell and what it shows.
#[tactic(auto, using(a2_stream::proofs::Joined::broke_off, a2_stream::proofs::Joined::went_on))]
fn put_placed<W: Output>(
    row: u8,
    column: u8,
    tile: Tile,
    colours: Colours,
    writer: &mut W,
) -> Result<(), WriteFault>
    requires row { row < 255 }
    requires column { column < 255 }
    ensures { SendsOrBreaks (W.taker writer.old) (W.taker writer.new) result
        (written.place_text (decimal_of (row + 1)) (decimal_of (column + 1)) ++ written.tile_text colours tile) }
{
    put_place(row, column, writer)?;
    put_tile(tile, colours, writer)
}

/// What is drawn: cells that replace those that were shown before, if any were.
#[derive(Drop)]
pub(crate) struct Change<'a, C> {
    /// What was shown before.
    pub before: &'a Option<C>,
    /// What is shown now.
    pub after: &'a C,
    /// The terminal's colours.
    pub colours: Colours,
}

// Returns whether a cell shows the same as before.
fn is_kept<C: Cells>(before: &Option<C>, row: u8, column: u8, tile: Tile) -> bool
    requires row { row < C.height }
    requires column { column < C.width }
    ensures { result ≡ written.is_kept C.shows before.now row column tile }
{
    match before {
        Some(before) => is_same(before.cell_at(row, column), tile),
        None => false,
    }
}

// Writes a cell, if it changed.
fn put_cell<C: Cells, W: Output>(
    change: &Change<'_, C>,
    row: u8,
    column: u8,
    writer: &mut W,
) -> Result<(), WriteFault>
    requires row { row < C.height }
    requires column { column < C.width }
    requires rows { row < 255 }
    requires columns { column < 255 }
    ensures { SendsOrBreaks (W.taker writer.old) (W.taker writer.new) result
        (written.cell_text C.shows change.now.before.now change.now.after.now change.now.colours row column) }
{
    let tile = change.after.cell_at(row, column);
    if is_kept(change.before, row, column, tile) {
        return Ok(());
    }
    put_placed(row, column, tile, change.colours, writer)
}

// Writes the cells that changed in a row of this many columns.
fn put_row<C: Cells, W: Output>(
    change: &Change<'_, C>,
    columns: u8,
    row: u8,
    writer: &mut W,
) -> Result<(), WriteFault>
    requires row { row < C.height }
    requires columns { columns ≤ C.width }
    requires few { row < 255 }
    ensures { SendsOrBreaks (W.taker writer.old) (W.taker writer.new) result
        (written.row_text C.shows change.now.before.now change.now.after.now change.now.colours columns row) }
{
    for column in 0..columns {
        put_cell(change, row, column, writer)?;
    }
    Ok(())
}

/// Writes the cells that changed, in this many rows and columns from the top left. The order is row by row, each from
/// left to right. Each cell is written as its position and what it shows. If nothing was shown before, all cells are
/// written. If a write fails, returns an error, and only a prefix of this was written.
pub(crate) fn put_change<C: Cells, W: Output>(
    change: &Change<'_, C>,
    size: Size,
    writer: &mut W,
) -> Result<(), WriteFault>
    requires rows { size.rows ≤ C.height }
    requires columns { size.columns ≤ C.width }
    ensures { SendsOrBreaks (W.taker writer.old) (W.taker writer.new) result
        (written.changes_text C.shows change.now.before.now change.now.after.now change.now.colours size.rows size.columns) }
{
    for row in 0..size.rows {
        put_row(change, size.columns, row, writer)?;
    }
    Ok(())
}
