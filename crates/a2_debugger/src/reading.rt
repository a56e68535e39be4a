//! Parsing of commands.

ghost use Rattle.std.specs.Prelude.{◌≡◌, ◌≢◌, ◌⊎◌, ℕ, None, Some, MatchOption, IfSome, IfNone, []};
ghost use Rattle.a2_debugger.specs.declared.inspector_command.InspectorCommand.TheVariants.{Clear, ClearAt};
ghost use Rattle.a2_text.specs.Words.{words};
ghost use Rattle.a2_debugger.specs.Sayings.{IsCommandOf, IsNoCommand, count_in as count_of, place_in as place_of_words};
ghost use Rattle.a2_debugger.specs.Sayings.{watch_in as watch_of_words, SpellsAfterBlank, SpellsNoneAfterBlank};

use crate::conditions::{break_in, setting_in, subject_of, watch_of};
use crate::inspector_command::{InspectorCommand, Show};
use crate::settings::Setting;
use crate::stops::{Subject, Watch};
use crate::verbs::Verb;
use a2_asm::Program;
use a2_bus::Keys;
use a2_symbols::{place_of, span_of};
use a2_text::{first_word, number_in, only_word};
use std::alloc::Allocator;

// The number given by the only word of a text, or 1 if the text is blank.
fn count_in(text: &[u8]) -> Option<u16>
    ensures { result ≡ count_of (words text.now) }
{
    let Some((word, following)) = first_word(text) else {
        return Some(1);
    };
    match first_word(following) {
        Some(_) => None,
        None => number_in(10, 5, word),
    }
}

// The address given by the only word of a text.
fn place_in<A: Allocator + Copy>(program: &Program<A>, text: &[u8]) -> Option<u16>
    ensures { result ≡ place_of_words program.now (words text.now) }
{
    place_of(program, only_word(text)?)
}

// What to watch, given by the only word of a text.
fn watch_in<A: Allocator + Copy>(program: &Program<A>, text: &[u8]) -> Option<Watch>
    ensures { result ≡ watch_of_words program.now (words text.now) }
{
    watch_of(program, only_word(text)?)
}

// The keys spelled after the one blank.
fn keys_in(rest: &[u8]) -> Option<Keys>
    ensures some { IfSome result (λ keys. SpellsAfterBlank rest.now keys) }
    ensures none { IfNone result (SpellsNoneAfterBlank rest.now) }
{
    let (_, text) = rest.split_first()?;
    let Ok(text) = std::str::from_utf8(text) else {
        return None;
    };
    Keys::parse(text)
}

// The value to show: PC, another register, the byte at an address, or a flag.
fn value_in<A: Allocator + Copy>(program: &Program<A>, rest: &[u8]) -> Option<Show> {
    let word = only_word(rest)?;
    if word.eq_ignore_ascii_case(b"PC") {
        return Some(Show::Counter);
    }
    match subject_of(program, word)? {
        Subject::InRegister(register) => Some(Show::Register(register)),
        Subject::InByte(address) => Some(Show::Address(address)),
        Subject::InFlag(flag) => Some(Show::Flag(flag)),
    }
}

// The source lines to show: those around the current position, or around an address.
fn lines_in<A: Allocator + Copy>(program: &Program<A>, rest: &[u8]) -> Option<Show> {
    match first_word(rest) {
        None => Some(Show::Lines),
        Some(_) => Some(Show::LinesAt(place_in(program, rest)?)),
    }
}

// What to remove: all breakpoints and watchpoints, or the breakpoint at an address.
fn cleared<A: Allocator + Copy>(program: &Program<A>, rest: &[u8]) -> Option<InspectorCommand>
    ensures { MatchOption result ((words rest.now ≢ []) × (place_of_words program.now (words rest.now) ≡ None))
        (λ order. ((order ≡ Clear) × (words rest.now ≡ []))
        ⊎ ((address : ℕ) × (order ≡ ClearAt address) × (place_of_words program.now (words rest.now) ≡ Some address))) }
{
    match first_word(rest) {
        None => Some(InspectorCommand::Clear),
        Some(_) => Some(InspectorCommand::ClearAt(place_in(program, rest)?)),
    }
}

// The bytes to show.
fn bytes_in<A: Allocator + Copy>(program: &Program<A>, rest: &[u8]) -> Option<Show> {
    Some(Show::Memory(span_of(program, only_word(rest)?)?))
}

// The command of a word that takes no arguments.
fn alone(order: InspectorCommand, rest: &[u8]) -> Option<InspectorCommand>
    ensures { MatchOption result (words rest.now ≢ []) (λ said. (said ≡ order) × (words rest.now ≡ [])) }
{
    match first_word(rest) {
        Some(_) => None,
        None => Some(order),
    }
}

/// Returns the command given by a verb and the text after it, or `None` if the text is not valid.
pub fn order_of<A: Allocator + Copy>(
    program: &Program<A>,
    verb: Verb,
    rest: &[u8],
) -> Option<InspectorCommand>
    ensures { MatchOption result (IsNoCommand program.now verb rest.now) (λ order. IsCommandOf program.now verb rest.now order) }
{
    match verb {
        Verb::Step => Some(InspectorCommand::Step(count_in(rest)?)),
        Verb::Back => Some(InspectorCommand::Back(count_in(rest)?)),
        Verb::Until => Some(InspectorCommand::Until(place_in(program, rest)?)),
        Verb::Watch => Some(InspectorCommand::Watch(watch_in(program, rest)?)),
        Verb::Unwatch => Some(InspectorCommand::Unwatch(watch_in(program, rest)?)),
        Verb::Who => Some(InspectorCommand::Who(watch_in(program, rest)?)),
        Verb::Break => Some(InspectorCommand::Break(break_in(program, rest)?)),
        Verb::Keys => Some(InspectorCommand::TypeKeys(keys_in(rest)?)),
        Verb::Set => Some(InspectorCommand::Set(setting_in(program, rest)?)),
        Verb::Goto => Some(InspectorCommand::Set(Setting::Counter(place_in(program, rest)?))),
        Verb::Print => Some(InspectorCommand::Show(value_in(program, rest)?)),
        Verb::Mem => Some(InspectorCommand::Show(bytes_in(program, rest)?)),
        Verb::Next => alone(InspectorCommand::Next, rest),
        Verb::Out => alone(InspectorCommand::Out, rest),
        Verb::Rnext => alone(InspectorCommand::GoBackOver, rest),
        Verb::Go => alone(InspectorCommand::Go, rest),
        Verb::Rback => alone(InspectorCommand::GoBack, rest),
        Verb::Clear => cleared(program, rest),
        Verb::Where => alone(InspectorCommand::Show(Show::Place), rest),
        Verb::Regs => alone(InspectorCommand::Show(Show::Registers), rest),
        Verb::Screen => alone(InspectorCommand::Show(Show::Screen), rest),
        Verb::List => Some(InspectorCommand::Show(lines_in(program, rest)?)),
        Verb::Stack => alone(InspectorCommand::Show(Show::Stack), rest),
        Verb::Info => alone(InspectorCommand::Show(Show::Stops), rest),
        Verb::Help => alone(InspectorCommand::Show(Show::Help), rest),
    }
}
