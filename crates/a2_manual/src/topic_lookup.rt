//! What a manual says about a name.

ghost use Rattle.std.specs.Prelude.{◌≡◌, ◌==◌, ◌↔◌, IsTrue, Any, MatchOption};
ghost use Rattle.std.specs.List.{slice_split};
ghost use Rattle.a2_manual.specs.Topics.{topics, said as said_of, Spells, HasName, IsKnown, IsTopicText};

use crate::cutting::cut_at;

// Returns whether one of these names is spelled this way, in either case.
fn has_name(names: &[u8], name: &[u8]) -> bool
    ensures { IsTrue result ↔ Any (Spells name.now) (slice_split (λ c. c == 0x2C) names.now) }
{
    let mut left = names;
    loop {
        let (known, following) = cut_at(left, b',');
        if known.eq_ignore_ascii_case(name) {
            return true;
        }
        let Some(rest) = following else {
            return false;
        };
        left = rest;
    }
}

// Returns what a topic says if it has this name, and `None` otherwise.
fn text_if_named<'a>(topic: &'a [u8], name: &[u8]) -> Option<&'a [u8]>
    ensures { MatchOption result (¬ (HasName name.now topic.now))
        (λ text. HasName name.now topic.now × (text.now ≡ said_of topic.now)) }
{
    let (names, said) = cut_at(topic, b'\n');
    if has_name(names, name) {
        Some(said.unwrap_or(&[]))
    } else {
        None
    }
}

/// Returns what `manual` says about a name, spelled in either case: the lines of the first topic that has it. Returns
/// `None` if no topic has it. A manual is a text in the form of `manual()`. This project's profile.
pub fn topic<'a>(manual: &'a [u8], name: &[u8]) -> Option<&'a [u8]>
    ensures { MatchOption result (¬ (IsKnown name.now (topics manual.now)))
        (λ text. IsTopicText name.now (topics manual.now) text.now) }
{
    let mut left = manual;
    loop {
        let (topic, following) = cut_at(left, b'~');
        if let Some(text) = text_if_named(topic, name) {
            return Some(text);
        }
        let Some(rest) = following else {
            return None;
        };
        left = rest;
    }
}
