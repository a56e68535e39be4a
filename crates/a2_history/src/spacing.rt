//! Decides which checkpoints of a run are kept, so that it can go back to every position: many near its end, few far
//! from it.
//!
//! A checkpoint is made at each multiple of 1,024 steps. Each level holds those at multiples of 1,024 times a power
//! of two. On each level the latest ones are kept, as many as the width says. So each time the distance from the end
//! doubles, half of the checkpoints remain.

ghost use Rattle.std.specs.Prelude.{◌≡◌, ◌+◌, ◌/◌, ◌^◌, ◌<◌, ◌≤◌, ◌↔◌, ℕ, IsTrue, true, false};
ghost use Rattle.a2_history.specs.Spacing.{IsKept, most_of, most_kept as most_kept_of, IsWidth};
ghost use Rattle.a2_history.specs.Places.{IsPlaceKept};

mod laws;

pub use laws::{
    dropped_is_never_needed, each_position_has_a_checkpoint_near, no_more_are_kept,
    within_a_fiftieth,
};

/// The steps from one checkpoint to the next where they are closest together.
pub const STRIDE: u64 = 1024;

/// The largest width. With it, at most 1,023 steps lead from a checkpoint to a position, or at most a fiftieth of the
/// steps from there to the end.
pub const WIDEST: u64 = 101;

// Returns how many of the numbers up to this one are odd.
fn odd_up_to(number: u64) -> u64
    ensures { result ≡ (number + 1) / 2 }
{
    number - number / 2
}

// Returns the largest number of checkpoints kept at these places, which are one stride apart.
fn most_places(width: u64, places: u64) -> u64
    ensures few { result ≤ places }
    ensures most { (levels : ℕ) → places < 2 ^ levels → result ≡ most_of levels width places }
{
    if places == 0 {
        return 0;
    }
    odd_up_to(width).min(odd_up_to(places)) + most_places(width, places / 2)
}

/// Returns the largest number of checkpoints that `width` keeps when a run has reached `now`.
pub fn most_kept(width: u64, now: u64) -> u64
    ensures { result ≡ most_kept_of width now }
{
    most_places(width, now / STRIDE)
}

/// Returns the largest width, 0 to `WIDEST`, that keeps at most `most` checkpoints when a run has reached `now`.
pub fn width_of(most: usize, now: u64) -> u64
    ensures { IsWidth most now result }
{
    let mut width = WIDEST;
    while most_kept(width, now) > most as u64 {
        width -= 1;
    }
    width
}

// Returns whether the checkpoint at a place is kept.
fn is_place_kept(width: u64, now: u64, place: u64) -> bool
    ensures kept { result ≡ true → IsPlaceKept width now place }
    ensures others { result ≡ false → IsPlaceKept width now place → ⊥ }
{
    if place == 0 {
        return width > 0;
    }
    now.saturating_sub(place) < width
        || (place % 2 == 0 && is_place_kept(width, now / 2, place / 2))
}

/// Returns whether `width` keeps the checkpoint at `position` when a run has reached `now`.
pub fn is_kept(width: u64, now: u64, position: u64) -> bool
    ensures { IsTrue result ↔ IsKept width now position }
{
    position % STRIDE == 0 && is_place_kept(width, now / STRIDE, position / STRIDE)
}
