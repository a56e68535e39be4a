//! Parsing of breakpoints, their conditions, what is watched, and what is set.

ghost use Rattle.std.specs.Prelude.{◌≡◌, if◌then◌else◌, Some, None};
ghost use Rattle.a2_text.specs.Words.{words};
ghost use Rattle.a2_symbols.specs.Places.{number_of as number_said, place_of as place_said};
ghost use Rattle.a2_debugger.specs.Conditions as written;
ghost use Rattle.a2_debugger.specs.Settings as set;

use crate::settings::Setting;
use crate::stops::{Break, Condition, Flag, Register, Relation, Subject, Watch, watchable};
use a2_asm::Program;
use a2_hex::RAM_END;
use a2_symbols::{number_of, place_of, span_of};
use a2_text::{capital, first_word};
use std::alloc::Allocator;

/// Returns the register named by a letter in either case.
pub fn register_of(word: &[u8]) -> Option<Register>
    ensures { result ≡ written.register_of word.now }
{
    let [letter] = word else {
        return None;
    };
    match capital(*letter) {
        b'A' => Some(Register::A),
        b'X' => Some(Register::X),
        b'Y' => Some(Register::Y),
        b'S' => Some(Register::S),
        b'P' => Some(Register::P),
        _ => None,
    }
}

/// Returns the flag named by a letter in either case.
pub fn flag_of(word: &[u8]) -> Option<Flag>
    ensures { result ≡ written.flag_of word.now }
{
    let [letter] = word else {
        return None;
    };
    match capital(*letter) {
        b'N' => Some(Flag::N),
        b'V' => Some(Flag::V),
        b'D' => Some(Flag::D),
        b'I' => Some(Flag::I),
        b'Z' => Some(Flag::Z),
        b'C' => Some(Flag::C),
        _ => None,
    }
}

/// Returns the subject that a word names: a register; or otherwise the byte at an address; or otherwise a flag. So a name of the program
/// hides a flag with the same letter.
pub fn subject_of<A: Allocator + Copy>(program: &Program<A>, word: &[u8]) -> Option<Subject>
    ensures { result ≡ written.subject_of program.now word.now }
{
    if let Some(register) = register_of(word) {
        return Some(Subject::InRegister(register));
    }
    match place_of(program, word) {
        Some(address) => Some(Subject::InByte(address)),
        None => Some(Subject::InFlag(flag_of(word)?)),
    }
}

/// Returns what a word names to be watched: a register; or otherwise the byte or bytes at an address or two; or otherwise a flag.
pub fn watch_of<A: Allocator + Copy>(program: &Program<A>, word: &[u8]) -> Option<Watch>
    ensures { result ≡ written.watch_of program.now word.now }
{
    if let Some(register) = register_of(word) {
        return Some(Watch::OfRegister(register));
    }
    match span_of(program, word) {
        Some(span) => watchable(span),
        None => Some(Watch::OfFlag(flag_of(word)?)),
    }
}

// The relation that an operator stands for.
fn relation_of(word: &[u8]) -> Option<Relation>
    ensures { result ≡ written.relation_of word.now }
{
    match word {
        [b'='] => Some(Relation::Equal),
        [b'<'] => Some(Relation::Less),
        [b'>'] => Some(Relation::More),
        [b'<', b'>'] => Some(Relation::Other),
        _ => None,
    }
}

// The condition given by three words.
fn condition_of<A: Allocator + Copy>(
    program: &Program<A>,
    subject: &[u8],
    relation: &[u8],
    value: &[u8],
) -> Option<Condition>
    ensures { result ≡ written.condition_by (written.subject_of program.now subject.now) (written.relation_of relation.now)
        (number_said value.now) }
{
    let subject = subject_of(program, subject)?;
    let relation = relation_of(relation)?;
    let value = number_of(value)?;
    Some(Condition {
        subject,
        relation,
        value,
    })
}

// The condition given by the words of a text.
fn condition_in<A: Allocator + Copy>(program: &Program<A>, text: &[u8]) -> Option<Condition>
    ensures { result ≡ written.condition_in program.now (words text.now) }
{
    let (subject, following) = first_word(text)?;
    let (relation, following) = first_word(following)?;
    let (value, following) = first_word(following)?;
    match first_word(following) {
        Some(_) => None,
        None => condition_of(program, subject, relation, value),
    }
}

// Whether a word is IF in either case.
fn is_if(word: &[u8]) -> bool
    ensures { result ≡ written.is_if word.now }
{
    match word {
        [i, f] => capital(*i) == b'I' && capital(*f) == b'F',
        _ => false,
    }
}

// The breakpoint at an address with a condition, if both are valid.
fn break_where(address: Option<u16>, condition: Option<Condition>) -> Option<Break>
    ensures { result ≡ written.break_where address condition }
{
    Some(Break {
        address: address?,
        condition: Some(condition?),
    })
}

// The breakpoint at an address, if the address is valid.
fn plain_break(address: Option<u16>) -> Option<Break>
    ensures { result ≡ written.plain_break address }
{
    Some(Break {
        address: address?,
        condition: None,
    })
}

/// Returns the breakpoint given by the words of a text: a place, optionally followed by `if`, a subject, `=`, `<>`, `<` or `>`,
/// and a number. Returns `None` if they are not a breakpoint.
pub fn break_in<A: Allocator + Copy>(program: &Program<A>, text: &[u8]) -> Option<Break>
    ensures { result ≡ written.break_in program.now (words text.now) }
{
    let (place, following) = first_word(text)?;
    let address = place_of(program, place);
    let Some((word, following)) = first_word(following) else {
        return plain_break(address);
    };
    if is_if(word) {
        break_where(address, condition_in(program, following))
    } else {
        None
    }
}

// Whether a word is PC in either case.
fn is_counter(word: &[u8]) -> bool
    ensures { result ≡ set.is_counter word.now }
{
    match word {
        [p, c] => capital(*p) == b'P' && capital(*c) == b'C',
        _ => false,
    }
}

// The byte that a number is, if it is below 256.
fn byte_in(value: u16) -> Option<u8>
    ensures { result ≡ set.byte_in value }
{
    if value < 256 { Some(value as u8) } else { None }
}

// The setting of a register, if its value is valid.
fn register_by(register: Register, value: Option<u8>) -> Option<Setting>
    ensures { result ≡ set.register_by register value }
{
    Some(Setting::Register(register, value?))
}

// The setting of a byte, if its value is valid.
fn byte_by(address: u16, value: Option<u8>) -> Option<Setting>
    ensures { result ≡ set.byte_by address value }
{
    Some(Setting::Byte(address, value?))
}

// The setting of what a subject is to a value, if the value fits.
fn fitting(subject: Subject, value: u16) -> Option<Setting>
    ensures { result ≡ set.setting_by (Some subject) (Some value) }
{
    match subject {
        Subject::InRegister(register) => register_by(register, byte_in(value)),
        Subject::InByte(address) => {
            if address < RAM_END {
                byte_by(address, byte_in(value))
            } else {
                None
            }
        }
        Subject::InFlag(flag) => {
            if value < 2 {
                Some(Setting::Flag(flag, value == 1))
            } else {
                None
            }
        }
    }
}

/// Returns what a subject and a value set, or `None` if one is missing or the value does not fit: it is below 256 for a register and for
/// a byte of RAM, and below 2 for a flag.
pub fn setting_by(subject: Option<Subject>, value: Option<u16>) -> Option<Setting>
    ensures { result ≡ set.setting_by subject value }
{
    fitting(subject?, value?)
}

// The setting of PC to an address, if the address is valid.
fn counter_by(address: Option<u16>) -> Option<Setting>
    ensures { result ≡ set.counter_by address }
{
    Some(Setting::Counter(address?))
}

/// Returns what a subject and a value set: PC and a place; or a register, a place or a flag, and a number. Returns `None` if they are
/// not valid, or if the value does not fit.
pub fn setting_of<A: Allocator + Copy>(
    program: &Program<A>,
    subject: &[u8],
    value: &[u8],
) -> Option<Setting>
    ensures { result ≡ set.setting_of program.now subject.now value.now }
{
    if is_counter(subject) {
        counter_by(place_of(program, value))
    } else {
        setting_by(subject_of(program, subject), number_of(value))
    }
}

// Whether a word is an equals sign.
fn is_equals(word: &[u8]) -> bool
    ensures { result ≡ set.is_equals word.now }
{
    match word {
        [c] => *c == b'=',
        _ => false,
    }
}

// What three words set.
fn setting_between<A: Allocator + Copy>(
    program: &Program<A>,
    subject: &[u8],
    equals: &[u8],
    value: &[u8],
) -> Option<Setting>
    ensures { result ≡ (if set.is_equals equals.now then set.setting_of program.now subject.now value.now else None) }
{
    if is_equals(equals) {
        setting_of(program, subject, value)
    } else {
        None
    }
}

/// Returns what the words of a text set: a subject, `=` and a value.
pub fn setting_in<A: Allocator + Copy>(program: &Program<A>, text: &[u8]) -> Option<Setting>
    ensures { result ≡ set.setting_in program.now (words text.now) }
{
    let (subject, following) = first_word(text)?;
    let (equals, following) = first_word(following)?;
    let (value, following) = first_word(following)?;
    match first_word(following) {
        Some(_) => None,
        None => setting_between(program, subject, equals, value),
    }
}
