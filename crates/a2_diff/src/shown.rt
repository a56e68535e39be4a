//! The lines of changes.

ghost use Rattle.std.specs.Prelude.{◌≡◌, ◌++◌, codes, IfOk};
ghost use Rattle.std.specs.List.{flat_map};
ghost use Rattle.a2_opcode.specs.Listing.{listing};
ghost use Rattle.a2_diff.specs.Comparison.{row_bytes, line_of, shown};

use crate::comparison::Change;
use crate::rows::Row;
use a2_opcode::{Listed, list_line};
use std::alloc::{AllocError, Global};

// Returns the line of a row, as a listing shows it.
fn listed(row: Row) -> Listed
    ensures { result.text.bytes ≡ listing (row_bytes row) row.address }
{
    let [first, second, third] = row.bytes;
    match row.length {
        1 => list_line(&[first], row.address),
        2 => list_line(&[first, second], row.address),
        _ => list_line(&[first, second, third], row.address),
    }
}

// Appends the line of a row after a sign.
fn put_line(text: &mut Vec<u8>, sign: &[u8], row: Row) -> Result<(), AllocError>
    ensures { IfOk result (λ _. text.new.items ≡ text.old.items ++ line_of sign.now row) }
{
    text.extend_from_slice(sign)?;
    text.extend_from_slice(listed(row).text.as_str().as_bytes())?;
    text.push(b'\n')?;
    Ok(())
}

// Appends the line of a change, if it is shown.
fn put_change(text: &mut Vec<u8>, change: Change) -> Result<(), AllocError>
    ensures { IfOk result (λ _. text.new.items ≡ text.old.items ++ shown change) }
{
    match change {
        Change::Same(_, _) => Ok(()),
        Change::Removed(row) => put_line(text, b"- ", row),
        Change::Added(row) => put_line(text, b"+ ", row),
    }
}

/// Returns the lines of changes, in memory of `alloc`: a row that only the first image has after `-`, and one that only the second has after
/// `+`, as a listing shows them. Rows that both have are not shown. Fails only if memory runs out.
pub fn text_of(alloc: Global, changes: &[Change]) -> Result<Vec<u8>, AllocError>
    ensures { IfOk result (λ text. text.items ≡ flat_map shown changes.now) }
{
    let mut text = Vec::new(alloc);
    for change in changes {
        put_change(&mut text, *change)?;
    }
    Ok(text)
}
