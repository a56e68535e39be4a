//! Comparing the rows of two images.

ghost use Rattle.std.specs.Prelude.{◌≡◌, IfOk};
ghost use Rattle.a2_hex.specs.Images.{held};
ghost use Rattle.a2_diff.specs.Rows.{rows};
ghost use Rattle.a2_diff.specs.Comparison.{Compares};

use crate::passing::{Passing, is_alike, passing_at};
use crate::rows::{Row, rows_of};
use a2_hex::Image;
use std::alloc::{AllocError, Global};

/// A row of one of two images, or of both.
#[derive(Clone, Copy)]
pub enum Change {
    /// Both images have this row, the second one perhaps at another address.
    Same(Row, Row),
    /// Only the first image has it.
    Removed(Row),
    /// Only the second image has it.
    Added(Row),
}

// Returns how two lists of rows differ.
fn changes_between(alloc: Global, rows: &[Row], others: &[Row]) -> Result<Vec<Change>, AllocError>
    ensures { IfOk result (λ changes. Compares rows.now others.now changes.items) }
{
    let mut changes = Vec::new(alloc);
    let (mut i, mut j) = (0usize, 0usize);
    let mut left = Passing {
        first: 0,
        second: 0,
    };
    while i < rows.len() || j < others.len() {
        left = passing_at(rows, i, others, j, left);
        if i < rows.len() && (left.first > 0 || j >= others.len()) {
            changes.push(Change::Removed(rows[i]))?;
            left.first = left.first.saturating_sub(1);
            i += 1;
        } else if i < rows.len() && left.second == 0 && is_alike(rows[i], others[j]) {
            changes.push(Change::Same(rows[i], others[j]))?;
            i += 1;
            j += 1;
        } else {
            changes.push(Change::Added(others[j]))?;
            left.second = left.second.saturating_sub(1);
            j += 1;
        }
    }
    Ok(changes)
}

/// Returns how two images differ, in memory of `alloc`. Without the rows that were added, these are the rows of the first image, and without
/// those that were removed the rows of the second one. Fails only if memory runs out.
pub fn compare(alloc: Global, image: &Image, other: &Image) -> Result<Vec<Change>, AllocError>
    ensures { IfOk result (λ changes. Compares (rows (held image.now)) (rows (held other.now)) changes.items) }
{
    let (first, second) = (rows_of(alloc, image)?, rows_of(alloc, other)?);
    changes_between(alloc, first.as_slice(), second.as_slice())
}
