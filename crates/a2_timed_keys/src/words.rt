//! Keys with their steps, as an argument of a command line gives them.

ghost use Rattle.std.specs.Prelude.{ℕ, List, IfOk, IfErr};
ghost use Rattle.a2_timed_keys.specs.Words.{IsStroke};

use a2_bus::Keys;
use a2_run::step_limit;

/// Why an argument does not give keys with their steps.
#[derive(Clone, Copy)]
pub enum StrokeFault {
    /// The number of steps before the colon is missing.
    Steps,
    /// The keys after it are badly spelt.
    Keys,
}

/// Returns the keys that `word` gives, and the steps after which they are typed: a number from 0 to 100,000,000, `:`, and the keys
/// as [`Keys::parse`] reads them. This project's profile.
pub fn stroke_in(word: &str) -> Result<(u32, Keys), StrokeFault>
    ensures said { IfOk result (λ stroke. IsStroke word.now stroke.0 stroke.1) }
    ensures refused { IfErr result (λ _. (steps : ℕ) (keys : List ℕ) → IsStroke word.now steps keys → ⊥) }
{
    let Some((number, spelling)) = word.split_once(':') else {
        return Err(StrokeFault::Steps);
    };
    let Some(steps) = step_limit(number) else {
        return Err(StrokeFault::Steps);
    };
    match Keys::parse(spelling) {
        Some(keys) => Ok((steps, keys)),
        None => Err(StrokeFault::Keys),
    }
}
