//! The step limit of a run, as an argument gives it.

ghost use Rattle.std.specs.Prelude.{SomeIff};
ghost use Rattle.std.specs.Str.Parse.{digits_value};
ghost use Rattle.a2_run.specs.Limits.{IsStepLimit};

/// The step limit if no argument gives another.
pub const DEFAULT_STEPS: u32 = 1_000_000;

/// The greatest step limit that an argument can give.
pub const RUN_MAX_STEPS: u32 = 100_000_000;

/// Returns the number of steps that `word` spells, 0 to 100,000,000 in 1 to 9 decimal digits, or `None` if it spells no such number.
/// This project's profile.
pub fn step_limit(word: &str) -> Option<u32>
    ensures { SomeIff result (IsStepLimit word.now) (digits_value 10 word.now) }
{
    if word.len() > 9 || word.starts_with('+') {
        return None;
    }
    let limit: u32 = word.parse().ok()?;
    (limit <= RUN_MAX_STEPS).then_some(limit)
}
