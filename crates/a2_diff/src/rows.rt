//! The rows of an image: its instructions, and its bytes that begin none.

ghost use Rattle.std.specs.Prelude.{◌≡◌, ◌≤◌, ◌<◌, ◌+◌, ◌++◌, IfOk};
ghost use Rattle.a2_hex.specs.Images.{held, ram_end};
ghost use Rattle.a2_diff.specs.Rows.{row_at, rows_at, after, rows};

use a2_hex::{Image, RAM_END};
use a2_opcode::list_line;
use std::alloc::{AllocError, Global};

/// An instruction, or a byte that begins none.
#[derive(Clone, Copy)]
pub struct Row {
    pub address: u16,
    /// How many bytes it has, 1 to 3.
    pub length: u8,
    /// Its bytes, and 0 after them.
    pub bytes: [u8; 3],
}

// Returns the row at an address, which has a byte.
fn row_at(image: &Image, address: u16) -> Row
    requires { address < ram_end }
    ensures { result ≡ row_at (held image.now) address }
{
    let first = image.get(address).unwrap_or(0);
    let second = image.get(address + 1);
    let third = image.get(address + 2);
    let length = match (second, third) {
        (None, _) => list_line(&[first], address).length,
        (Some(second), None) => list_line(&[first, second], address).length,
        (Some(second), Some(third)) => list_line(&[first, second, third], address).length,
    };
    Row {
        address,
        length,
        bytes: [
            first,
            if length > 1 { second.unwrap_or(0) } else { 0 },
            if length > 2 { third.unwrap_or(0) } else { 0 },
        ],
    }
}

// Appends the row at an address, if it has a byte. Returns the address after the row, or the next one.
fn put_row(rows: &mut Vec<Row>, image: &Image, at: usize) -> Result<usize, AllocError>
    requires { at ≤ 20000000 }
    ensures next { IfOk result (λ next. next ≡ after (held image.now) at) }
    ensures near { IfOk result (λ next. next ≤ at + 255) }
    ensures rows { IfOk result (λ _. rows.new.items ≡ rows.old.items ++ rows_at (held image.now) at) }
{
    if at >= usize::from(RAM_END) {
        return Ok(at + 1);
    }
    let address = at as u16;
    if image.get(address).is_none() {
        return Ok(at + 1);
    }
    let row = row_at(image, address);
    rows.push(row)?;
    Ok(at + usize::from(row.length))
}

/// Returns the rows of an image, by rising address, in memory of `alloc`: from the lowest address on the instruction that begins there, or
/// the byte that begins none, and so on after it. Fails only if memory runs out.
pub fn rows_of(alloc: Global, image: &Image) -> Result<Vec<Row>, AllocError>
    ensures { IfOk result (λ found. found.items ≡ rows (held image.now)) }
{
    let mut rows = Vec::new(alloc);
    let mut at: usize = 0;
    for i in 0..RAM_END {
        at = put_row(&mut rows, image, at)?;
    }
    Ok(rows)
}
