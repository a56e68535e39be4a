//! The cycles of an instruction.

ghost use Rattle.std.specs.Prelude.{◌≡◌, ◌≤◌, length, Some};
ghost use Rattle.a2_list.specs.Listing as listing;

use crate::blanks::blanks;
use a2_asm::Statement;
use a2_opcode::{Mode, Row, row_for};
use a2_text::{append, decimal};
use arrayvec::ArrayVec;

/// Blanks, a number and a mark.
pub(crate) type Cell = ArrayVec<u8, 64>;

// Returns what marks the cycles of a row that may take more.
fn mark_of(row: Row) -> &'static [u8]
    ensures mark { result.now ≡ listing.mark_of row }
    ensures short { length result.now ≤ 1 }
{
    if row.crosses || matches!(row.mode, Mode::Relative) {
        b"+"
    } else {
        b""
    }
}

// Returns the opcode table's row of a statement that is an instruction.
fn row_in(statement: Option<Statement>) -> Option<Row>
    ensures { result ≡ listing.row_in statement }
{
    let instr = statement?.instr?;
    row_for(instr.mnemonic, instr.mode)
}

/// Returns the cell of a statement's cycles, if it is asked for, after so many bytes of its row.
pub(crate) fn cycles_cell(shown: bool, used: usize, statement: Option<Statement>) -> Cell
    ensures { result.items ≡ listing.cycles_cell shown used statement }
{
    let mut cell = Cell::new();
    if !shown {
        return cell;
    }
    append(&mut cell, blanks(18usize.saturating_sub(used)));
    if let Some(row) = row_in(statement) {
        append(&mut cell, decimal(u64::from(row.cycles)).as_slice());
        append(&mut cell, mark_of(row));
    }
    cell
}
