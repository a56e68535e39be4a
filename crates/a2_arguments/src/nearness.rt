//! The name that may be meant by another.

ghost use Rattle.std.specs.Prelude.{◌≡◌, ◌<◌, ◌≤◌, map, All, IfOk, MatchOption};
ghost use Rattle.a2_arguments.specs.Nearest.{edits, IsNearest};
ghost use Rattle.a2_arguments.specs.Best.{best_of, nearer as nearer_of};

use std::alloc::{AllocError, Global};
use strsim::levenshtein;

// The nearest name so far, and the distance below which a nearer one is.
#[derive(Clone, Copy, Drop)]
struct Best<'n> {
    found: Option<&'n str>,
    bound: usize,
}

// The nearer of a name and what was found before it.
fn nearer<'n>(
    alloc: Global,
    name: &str,
    best: Best<'n>,
    known: &'n str,
) -> Result<Best<'n>, AllocError>
    ensures { IfOk result (λ next. best_of next ≡ nearer_of name.now (best_of best.entry) known.now) }
{
    let distance = levenshtein(alloc, name, known)?;
    if distance < best.bound {
        Ok(Best {
            found: Some(known),
            bound: distance,
        })
    } else {
        Ok(best)
    }
}

/// Returns the first of the `names` that are nearest to `name`, at most two edits away, or `None` if all are farther. This project's
/// profile.
pub fn nearest<'n>(
    alloc: Global,
    names: &[&'n str],
    name: &str,
) -> Result<Option<&'n str>, AllocError>
    ensures { IfOk result (λ answer. MatchOption answer (All (λ known. 2 < edits name.now known) (map (λ n. n.now) names.now))
        (λ found. IsNearest name.now (map (λ n. n.now) names.now) found.now × (edits name.now found.now ≤ 2))) }
{
    let mut best = Best {
        found: None,
        bound: 3,
    };
    for known in names {
        best = nearer(alloc, name, best, *known)?;
    }
    Ok(best.found)
}
