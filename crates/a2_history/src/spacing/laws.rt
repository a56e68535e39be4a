//! Laws of which checkpoints are kept. Calling these functions does nothing: their contracts are the laws.

ghost use Rattle.a2_history.specs.SpacingLaws.{EachIsNear, WithinAFiftieth, DroppedIsNeverNeeded, NoMoreAreKept};

/// Each position up to `now` has a kept checkpoint at or before it, near enough. At most 1,023 steps lead from there
/// to the position, or at most twice the steps from the position to `now`, divided by the width minus 1. The start
/// counts as a checkpoint.
pub fn each_position_has_a_checkpoint_near()
    ensures { EachIsNear }
{}

/// With room for 605 checkpoints or more, and up to position 100,000,000, at most 1,023 steps lead from a checkpoint
/// to a position, or at most a fiftieth of those from the position to `now`.
pub fn within_a_fiftieth()
    ensures { WithinAFiftieth }
{}

/// What is kept at a later position was already kept before, so a dropped checkpoint is never needed again.
pub fn dropped_is_never_needed()
    ensures { DroppedIsNeverNeeded }
{}

/// The number of different positions after the start that are kept is at most `most_kept`, and so at most the number
/// that a width was chosen for.
pub fn no_more_are_kept()
    ensures { NoMoreAreKept }
{}
