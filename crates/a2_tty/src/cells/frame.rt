//! The contents of a whole terminal.

ghost use Rattle.std.specs.Prelude.{◌≡◌, ◌+◌, ◌*◌, ◌<◌, ◌≤◌, length, slice_set};
ghost use Rattle.a2_stream.specs.Stream.{SendsOrBreaks};
ghost use Rattle.a2_tty.specs.Frames as frames;
ghost use Rattle.a2_tty.specs.Written.{changes_text};

use crate::cells::changes::{Cells, Change, Size, put_change};
use crate::cells::colours::Colours;
use crate::cells::tiles::Tile;
use a2_stream::{Output, WriteFault};
use std::marker::Model;

/// The greatest number of rows; the greatest number of columns and the number of cells follow.
pub const MOST_ROWS: u8 = 64;

pub const MOST_COLUMNS: u8 = 255;

const CELLS: usize = 16_320;

/// The contents of a terminal with at most 64 rows of 255 columns. Contracts see its cells, row by row.
#[derive(Drop)]
pub struct Frame {
    tiles: [Tile; CELLS],
}

impl Model for Frame {
    ghost use Rattle.std.specs.Prelude.{List};
    ghost use Rattle.a2_tty.specs.declared.cells.tiles.Tile.{Tile};

    ghost Value = { List Tile };

    ghost view = { λ f. f.tiles };
}

// Returns the index of a cell.
fn cell_index(row: u8, column: u8) -> usize
    requires row { row < 64 }
    requires column { column < 255 }
    ensures value { result ≡ 255 * row + column }
    ensures few { result < 16_320 }
{
    usize::from(row) * usize::from(MOST_COLUMNS) + usize::from(column)
}

impl Frame {
    /// Returns a blank terminal.
    pub fn new() -> Frame
        ensures { result ≡ frames.blank }
    {
        Frame {
            tiles: [Tile::Letter(b' '); CELLS],
        }
    }

    /// Puts `tile` into the cell in `row`, 0 to 63 from the top, and `column`, 0 to 254 from the left.
    pub fn put(&mut self, row: u8, column: u8, tile: Tile)
        requires row { row < 64 }
        requires column { column < 255 }
        ensures { self.new ≡ slice_set self.old (255 * row + column) tile }
    {
        self.tiles[cell_index(row, column)] = tile;
    }
}

impl Cells for Frame {
    ghost shows = { frames.cell };

    ghost height = { 64 };

    ghost width = { 255 };

    fn cell_at(&self, row: u8, column: u8) -> Tile {
        self.tiles[cell_index(row, column)]
    }
}

/// Writes the cells of `after` that differ from `before`, in this many rows (at most 64) and columns from the top left.
/// The order is row by row, each from left to right. Each cell is written as its position and what it shows. If nothing
/// was shown before, all cells are written. If a write fails, returns an error, and only a prefix of this was written.
/// This project's profile.
pub fn put_frame<W: Output>(
    before: &Option<Frame>,
    after: &Frame,
    size: Size,
    colours: Colours,
    writer: &mut W,
) -> Result<(), WriteFault>
    requires { size.rows ≤ 64 }
    ensures { SendsOrBreaks (W.taker writer.old) (W.taker writer.new) result
        (changes_text frames.cell before.now after.now colours size.rows size.columns) }
{
    let change = Change {
        before,
        after,
        colours,
    };
    put_change(&change, size, writer)
}
