//! The name in a manual that is nearest to another name.

ghost use Rattle.std.specs.Prelude.{◌≡◌, ◌<◌, ◌≤◌, ◌==◌, map, All, IfOk, MatchOption};
ghost use Rattle.std.specs.List.{slice_split};
ghost use Rattle.std.specs.Char.{to_ascii_uppercase};
ghost use Rattle.a2_manual.specs.Nearest.{distance, all_names, IsNearest};
ghost use Rattle.a2_manual.specs.Nearer.{best_of, nearer as nearer_of, nearest_from};

use crate::cutting::cut_at;
use std::alloc::{AllocError, Allocator};
use strsim::generic_levenshtein;

// The nearest name so far, and the distance that the next one must be below.
#[derive(Clone, Copy, Drop)]
struct Nearest<'a> {
    found: Option<&'a [u8]>,
    bound: usize,
}

// Returns the nearer of a name and the nearest one before it.
fn nearer<'a>(best: Nearest<'a>, known: &'a [u8], distance: usize) -> Nearest<'a>
    ensures { best_of result ≡ nearer_of (best_of best.entry) known.now distance }
{
    if distance < best.bound {
        Nearest {
            found: Some(known),
            bound: distance,
        }
    } else {
        best
    }
}

// Returns the nearest of these names and the nearest one before them, compared with a name in capitals.
fn nearest_of<'a, A: Allocator + Copy>(
    alloc: A,
    names: &'a [u8],
    capitals: &[u8],
    before: Nearest<'a>,
) -> Result<Nearest<'a>, AllocError>
    ensures { IfOk result (λ best. best_of best ≡ nearest_from capitals.now (best_of before.entry) (slice_split (λ c. c == 0x2C) names.now)) }
{
    let mut best = before;
    let mut left = names;
    loop {
        let (known, following) = cut_at(left, b',');
        let distance = generic_levenshtein(alloc, capitals, known)?;
        best = nearer(best, known, distance);
        let Some(rest) = following else {
            return Ok(best);
        };
        left = rest;
    }
}

// Returns the bytes of a name, with small letters as capitals.
fn capitals_of<A: Allocator>(alloc: A, name: &[u8]) -> Result<Vec<u8, A>, AllocError>
    ensures { IfOk result (λ v. v.items ≡ map to_ascii_uppercase name.now) }
{
    let mut capitals = Vec::new(alloc);
    capitals.extend_from_slice(name)?;
    capitals.as_mut_slice().make_ascii_uppercase();
    Ok(capitals)
}

/// Returns the first of the names in a manual that are nearest to a name, spelled in either case. At most 2 bytes may
/// be inserted, left out or changed to get from one name to the other. Returns `None` if all names are farther away.
/// Fails only if memory runs out. A manual is a text in the form of `manual()`. This project's profile.
pub fn near<'a, A: Allocator + Copy>(
    alloc: A,
    manual: &'a [u8],
    name: &[u8],
) -> Result<Option<&'a [u8]>, AllocError>
    ensures { IfOk result (λ answer. MatchOption answer (All (λ known. 2 < distance name.now known) (all_names manual.now))
        (λ found. IsNearest name.now (all_names manual.now) found.now × (distance name.now found.now ≤ 2))) }
{
    let capitals = capitals_of(alloc, name)?;
    // A distance of 3 is too far.
    let mut best = Nearest {
        found: None,
        bound: 3,
    };
    let mut left = manual;
    loop {
        let (topic, following) = cut_at(left, b'~');
        let (names, _) = cut_at(topic, b'\n');
        best = nearest_of(alloc, names, capitals.as_slice(), best)?;
        let Some(rest) = following else {
            return Ok(best.found);
        };
        left = rest;
    }
}
