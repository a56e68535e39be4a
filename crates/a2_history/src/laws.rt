//! Laws of what is done by hand. Calling these functions does nothing: their contracts are the laws.

ghost use Rattle.a2_history.specs.HandLaws.{EarlierIsKept, NowIsDone, LaterIsForgotten};

/// What is done by hand at a position changes no world before it. So going back from there is going back in the run as it was.
pub fn earlier_worlds_are_kept()
    ensures { EarlierIsKept }
{}

/// At the position itself, the world is the one before with exactly this done.
pub fn it_is_done_there()
    ensures { NowIsDone }
{}

/// After the position nothing is done by hand, so each further world follows from the one before by a step alone.
pub fn later_actions_are_forgotten()
    ensures { LaterIsForgotten }
{}
