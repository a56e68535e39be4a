//! The commands on a line.

ghost use Rattle.std.specs.Prelude.{◌≡◌, ◌≢◌, map, true, false, IfSome, IfNone, MatchOption};
ghost use Rattle.a2_text.specs.Bytes.{capital as capital_of, digit as digit_of, is_digit};
ghost use Rattle.a2_text.specs.Words.{words};
ghost use Rattle.a2_debug_script.specs.Lines as said;
ghost use Rattle.a2_debug_script.specs.Answers.{MeansCall, MeansNoCall};
ghost use Rattle.a2_debug_script.specs.declared.calls.Call.TheVariants.{TypeKeys as CallTypeKeys};
ghost use Rattle.a2_debug_script.specs.declared.commands.Verb.TheVariants.{TypeKeys as VerbTypeKeys};
ghost use Rattle.a2_debug_script.specs.declared.commands.Verb.{Verb as DeclaredVerb};

use crate::Call;
use a2_bus::Keys;
use a2_text::only_word;

/// The command that the first word of a line names.
#[derive(Clone, Copy, Debug, PartialEq, Eq)]
pub enum Verb {
    Step,
    Go,
    Back,
    Break,
    Clear,
    TypeKeys,
    Screen,
}

// The most letters of a verb.
const LONGEST: usize = 6;

// Returns the verb with these letters.
fn spelled(letters: &[u8]) -> Option<Verb>
    ensures { MatchOption result ((v : DeclaredVerb) → said.verb_letters v ≢ letters.now) (λ v. said.verb_letters v ≡ letters.now) }
{
    match letters {
        b"STEP" => Some(Verb::Step),
        b"GO" => Some(Verb::Go),
        b"BACK" => Some(Verb::Back),
        b"BREAK" => Some(Verb::Break),
        b"CLEAR" => Some(Verb::Clear),
        b"TYPE" => Some(Verb::TypeKeys),
        b"SCREEN" => Some(Verb::Screen),
        _ => None,
    }
}

/// Returns the verb that a word means, in either case.
pub fn verb_of(word: &[u8]) -> Option<Verb>
    ensures { MatchOption result ((v : DeclaredVerb) → said.verb_letters v ≢ map capital_of word.now)
        (λ v. said.verb_letters v ≡ map capital_of word.now) }
{
    let mut letters = [0u8; LONGEST];
    let letters = letters.get_mut(..word.len())?;
    letters.copy_from_slice(word);
    letters.make_ascii_uppercase();
    spelled(letters)
}

// Returns the value of a decimal digit.
fn digit(c: u8) -> Option<u8>
    ensures { MatchOption result (is_digit c ≡ false) (λ d. (is_digit c ≡ true) × (d ≡ digit_of c)) }
{
    match c {
        b'0'..=b'9' => Some(c - b'0'),
        _ => None,
    }
}

/// Returns the number that 1 to 10 decimal digits mean, at most 4,294,967,295.
#[tactic(auto, unfolding(crate::specs::Lines::number_of))]
fn number_of(digits: &[u8]) -> Option<u32>
    ensures { result ≡ said.number_of digits.now }
{
    if digits.is_empty() || digits.len() > 10 {
        return None;
    }
    let mut n: u64 = 0;
    for c in digits {
        let Some(value) = digit(*c) else {
            return None;
        };
        n = n * 10 + u64::from(value);
        if n > 4_294_967_295 {
            return None;
        }
    }
    Some(n as u32)
}

/// Returns the number that the only word of a text means.
pub fn number_in(text: &[u8]) -> Option<u32>
    ensures { result ≡ said.only_number (words text.now) }
{
    number_of(only_word(text)?)
}

// Returns the keys written after exactly one blank.
fn keys_in(rest: &[u8]) -> Option<Keys>
    ensures some { IfSome result (λ keys. MeansCall VerbTypeKeys rest.now (CallTypeKeys keys)) }
    ensures none { IfNone result (MeansNoCall VerbTypeKeys rest.now) }
{
    let (_, text) = rest.split_first()?;
    let Ok(text) = std::str::from_utf8(text) else {
        return None;
    };
    Keys::parse(text)
}

/// Returns the call that a verb and the text after it mean.
#[inline(always)]
pub fn call_of(verb: Verb, rest: &[u8]) -> Option<Call<'_>>
    ensures some { IfSome result (λ call. MeansCall verb rest.now call) }
    ensures none { IfNone result (MeansNoCall verb rest.now) }
{
    match verb {
        Verb::Step => Some(Call::Step(number_in(rest)?)),
        Verb::Go => Some(Call::Go(number_in(rest)?)),
        Verb::Back => Some(Call::Back(number_in(rest)?)),
        Verb::Break => Some(Call::SetBreak(only_word(rest)?)),
        Verb::Clear => Some(Call::ClearBreak(only_word(rest)?)),
        Verb::TypeKeys => Some(Call::TypeKeys(keys_in(rest)?)),
        Verb::Screen => None,
    }
}
