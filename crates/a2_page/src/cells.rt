//! The cells of the text pages and their addresses.

ghost use Rattle.std.specs.Prelude.{◌≡◌, ◌+◌, ◌*◌, ◌/◌, ◌%◌, ◌<◌, option_map};
ghost use Rattle.a2_page.specs.Cells.{address_of, base_of, cell_at, row_offset as row_offset_of, FindsEachCell, FindsOnlyCells};

use crate::Page;

// Returns the offset of a row from the start of its page.
pub(crate) fn row_offset(row: u8) -> u16
    requires { row < 24 }
    ensures { result ≡ row_offset_of row }
{
    128 * u16::from(row % 8) + 40 * u16::from(row / 8)
}

/// Returns the address, from $0400 to $0BF7, of a cell of `page`. `row` is 0 to 23 from the top, and `column` is 0 to
/// 39 from the left. Apple II Reference Manual (1979), page 16.
pub fn address(page: Page, row: u8, column: u8) -> u16
    requires row { row < 24 }
    requires column { column < 40 }
    ensures { result ≡ address_of page row column }
{
    let base: u16 = match page {
        Page::One => 0x400,
        Page::Two => 0x800,
    };
    base + row_offset(row) + u16::from(column)
}

/// Returns the page, the row (0 to 23) and the column (0 to 39) of the cell at `address`, or `None` if there is no cell
/// there. There are no cells outside the two pages, nor in the last eight of each 128 bytes in them. Apple II Reference
/// Manual (1979), page 16.
#[tactic(auto, using(crate::proofs::CellAt::nothing_before, crate::proofs::CellAt::nothing_after))]
pub fn cell(address: u16) -> Option<(Page, u8, u8)>
    ensures { result ≡ option_map (λ cell. (cell.page, cell.row, cell.column)) (cell_at address) }
{
    match address {
        0x400..=0x7FF => cell_at_offset(Page::One, address - 0x400),
        0x800..=0xBFF => cell_at_offset(Page::Two, address - 0x800),
        _ => None,
    }
}

// Returns the cell at this offset from the start of a page.
#[tactic(auto, using(crate::proofs::CellAt::cell_found_at_offset, crate::proofs::CellAt::gap_found_at_offset))]
fn cell_at_offset(page: Page, offset: u16) -> Option<(Page, u8, u8)>
    requires { offset < 1024 }
    ensures { result ≡ option_map (λ cell. (cell.page, cell.row, cell.column)) (cell_at (base_of page + offset)) }
{
    let place = offset % 128;
    if place >= 120 {
        return None;
    }
    // Each 128 bytes hold three rows, which are eight rows apart on the screen.
    let row = offset / 128 + 8 * (place / 40);
    Some((page, row as u8, (place % 40) as u8))
}

/// A law: `cell` finds each cell at its own address, and every cell it finds has that address.
pub fn cell_and_address_are_inverse()
    ensures each { FindsEachCell }
    ensures only { FindsOnlyCells }
{}
