//! Decimal numbers in a range.

ghost use Rattle.std.specs.Prelude.{◌≡◌, SomeIff};
ghost use Rattle.std.specs.Str.Parse.{digits_value};
ghost use Rattle.a2_arguments.specs.Values.{IsNumber, number_in as number_of};

// The number from `least` to `most` that a text of decimal digits spells.
fn spelled(least: u32, most: u32, text: &str) -> Option<u32>
    ensures { SomeIff result (IsNumber least most text.now) (digits_value 10 text.now) }
{
    if text.starts_with('+') {
        return None;
    }
    let number: u32 = text.parse().ok()?;
    (least <= number && number <= most).then_some(number)
}

/// Returns the number from `least` to `most` that `text` spells in decimal digits, or `None` if it spells no such number.
#[tactic(auto, using(crate::proofs::NumberLaws::number_tested))]
pub fn number_in(least: u32, most: u32, text: &str) -> Option<u32>
    ensures { result ≡ number_of least most text.now }
{
    spelled(least, most, text)
}
