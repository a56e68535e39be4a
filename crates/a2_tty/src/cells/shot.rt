//! The contents of an Apple screen at one moment, as a terminal shows them.

ghost use Rattle.std.specs.Prelude.{◌≡◌, ◌<◌};
ghost use Rattle.a2_stream.specs.Stream.{SendsOrBreaks};
ghost use Rattle.a2_page.specs.Grid.{byte_in};
ghost use Rattle.a2_page.specs.Picture.{page_grid, shown_by};
ghost use Rattle.a2_tty.specs.Tiles.{tile_at};
ghost use Rattle.a2_tty.specs.Written.{changes_text};

use crate::cells::changes::{Cells, Change, Size, put_change};
use crate::cells::colours::Colours;
use crate::cells::tiles::{Tile, tile_of};
use a2_page::{Page, Switches, View, address};
use a2_stream::{Output, WriteFault};
use std::marker::Model;

/// The first address of page 1.
const PAGE: u16 = 0x400;

/// The contents of an Apple screen at one moment. Contracts see the rows of the shown page, the switches, and whether
/// flashing characters are inverse.
#[derive(Drop)]
pub struct Shot {
    page: [u8; 1024],
    switches: Switches,
    lit: bool,
}

impl Model for Shot {
    ghost use Rattle.a2_page.specs.Picture.{page_grid};
    ghost use Rattle.a2_tty.specs.Tiles.{Shown};

    ghost Value = { Shown };

    ghost view = { λ s. record { rows = page_grid s.page; switches = s.switches; lit = s.lit } };
}

// Returns the bytes of the shown page.
fn shown_bytes<'a>(view: &View<'a>) -> &'a [u8; 1024]
    ensures { page_grid result.now ≡ shown_by view.now }
{
    if view.switches.page2 {
        view.page2
    } else {
        view.page1
    }
}

// Returns the byte of a cell of a page.
#[tactic(auto, using(crate::proofs::Numbered::cell_byte))]
fn byte_of(page: &[u8; 1024], row: u8, column: u8) -> u8
    requires row { row < 24 }
    requires column { column < 40 }
    ensures { result ≡ byte_in (page_grid page.now) row column }
{
    page[usize::from(address(Page::One, row, column) - PAGE)]
}

impl Shot {
    /// Returns the screen of `view`; `lit` says whether flashing characters are inverse.
    pub fn new(view: &View<'_>, lit: bool) -> Shot
        ensures { result ≡ record { rows = shown_by view.now; switches = view.now.switches; lit = lit } }
    {
        Shot {
            page: *shown_bytes(view),
            switches: view.switches,
            lit,
        }
    }

    /// Returns what the cell in `row`, 0 to 23 from the top, and `column`, 0 to 39 from the left, shows.
    pub fn tile(&self, row: u8, column: u8) -> Tile
        requires row { row < 24 }
        requires column { column < 40 }
        ensures { result ≡ tile_at self.now row column }
    {
        tile_of(
            self.switches,
            row,
            self.lit,
            byte_of(&self.page, row, column),
        )
    }
}

impl Cells for Shot {
    ghost shows = { tile_at };

    ghost height = { 24 };

    ghost width = { 40 };

    fn cell_at(&self, row: u8, column: u8) -> Tile {
        self.tile(row, column)
    }
}

/// Writes the cells of `after` that differ from `before`, row by row, each from left to right. Each cell is written as
/// its position and what it shows. If nothing was shown before, all cells are written. The first cell of the screen is
/// the first cell of the terminal. If a write fails, returns an error, and only a prefix of this was written. This
/// project's profile.
pub fn put_changes<W: Output>(
    before: &Option<Shot>,
    after: &Shot,
    colours: Colours,
    writer: &mut W,
) -> Result<(), WriteFault>
    ensures { SendsOrBreaks (W.taker writer.old) (W.taker writer.new) result
        (changes_text tile_at before.now after.now colours 24 40) }
{
    let change = Change {
        before,
        after,
        colours,
    };
    let size = Size {
        rows: 24,
        columns: 40,
    };
    put_change(&change, size, writer)
}
