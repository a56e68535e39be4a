//! Rules for proving that a routine keeps the promises in its comments. They are definitions and lemmas, and the proofs
//! that `./a2lab prove` writes are built from them. The calls do nothing: their contracts are theorems, given as
//! examples.
//!
//! CALLING.md shows how to use this crate.
#![tactic(auto)]

ghost use Rattle.a2_promise_rules.specs.Doubling.{DoublingIsProved, DoublingStates};
ghost use Rattle.a2_promise_rules.specs.Readings.{OneReadingFits};

/// A theorem, and no code: in every world of bytes in which A is below 128, the routine of `doubling` doubles A and
/// changes nothing else. The lines of the routine promise exactly this.
pub fn doubling_is_proved()
    ensures told { DoublingStates }
    ensures kept { DoublingIsProved }
{}

/// A theorem, and no code: in these examples, only one of two ways to read the same tokens of a promise fits.
pub fn one_reading_fits()
    ensures { OneReadingFits }
{}
