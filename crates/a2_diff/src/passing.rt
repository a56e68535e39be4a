//! Which rows of two lists are compared with one another.

ghost use Rattle.std.specs.Prelude.{◌≡◌, true};
ghost use Rattle.a2_diff.specs.Comparison.{IsAlike};

use crate::rows::Row;

// The most rows of both lists that are passed over before they are alike again.
const MOST_PASSED: usize = 400;

/// How many rows of each list are still to be passed over.
#[derive(Clone, Copy)]
pub(crate) struct Passing {
    pub first: usize,
    pub second: usize,
}

/// Returns whether two rows have the same bytes.
pub(crate) fn is_alike(row: Row, other: Row) -> bool
    ensures { result ≡ true → IsAlike row other }
{
    row.length == other.length && row.bytes == other.bytes
}

// Returns whether the rows at these two places have the same bytes, and neither list ends there.
fn are_alike(rows: &[Row], i: usize, others: &[Row], j: usize) -> bool {
    i < rows.len() && j < others.len() && is_alike(rows[i], others[j])
}

// Returns whether both lists end at these places.
fn are_ends(rows: &[Row], i: usize, others: &[Row], j: usize) -> bool {
    i >= rows.len() && j >= others.len()
}

// Returns whether the rows from these two places on have the same bytes in at least two rows, or up to their ends.
fn meet(rows: &[Row], i: usize, others: &[Row], j: usize) -> bool {
    let (next, beside) = (i.saturating_add(1), j.saturating_add(1));
    are_ends(rows, i, others, j)
        || (are_alike(rows, i, others, j)
            && (are_ends(rows, next, others, beside) || are_alike(rows, next, others, beside)))
}

// Returns how many rows of each list to pass over until they meet, of `both` in all.
fn passing_of(rows: &[Row], i: usize, others: &[Row], j: usize, both: usize) -> Option<Passing> {
    for first in 0..both.saturating_add(1) {
        let second = both.saturating_sub(first);
        let (next, beside) = (i.saturating_add(first), j.saturating_add(second));
        if meet(rows, next, others, beside) {
            return Some(Passing { first, second });
        }
    }
    None
}

// Returns how many rows of each list to pass over, until they are alike again.
fn passing_to_meet(rows: &[Row], i: usize, others: &[Row], j: usize) -> Passing {
    let (next, beside) = (i.saturating_add(1), j.saturating_add(1));
    if are_alike(rows, i, others, beside) {
        return Passing {
            first: 0,
            second: 1,
        };
    }
    if are_alike(rows, next, others, j) {
        return Passing {
            first: 1,
            second: 0,
        };
    }
    if are_alike(rows, next, others, beside) {
        return Passing {
            first: 1,
            second: 1,
        };
    }
    for both in 1..MOST_PASSED {
        if let Some(passing) = passing_of(rows, i, others, j, both) {
            return passing;
        }
    }
    Passing {
        first: rows.len(),
        second: others.len(),
    }
}

/// Returns how many rows of each list are to be passed over from these places on: those that are left of the ones found before, or those up
/// to where the lists are alike again.
pub(crate) fn passing_at(
    rows: &[Row],
    i: usize,
    others: &[Row],
    j: usize,
    left: Passing,
) -> Passing {
    if left.first > 0 || left.second > 0 || are_alike(rows, i, others, j) {
        return left;
    }
    passing_to_meet(rows, i, others, j)
}
