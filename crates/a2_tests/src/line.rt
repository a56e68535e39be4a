//! The lines of a WANT file.

ghost use Rattle.std.specs.Prelude.{◌≡◌, ◌≤◌, ◌∷◌, ℕ, List, [], drop, length, IfSome, IfNone};
ghost use Rattle.a2_text.specs.Words.{words};
ghost use Rattle.a2_tests.specs.Lines as said;
ghost use Rattle.a2_tests.specs.declared.line.Verb.{Verb as DeclaredVerb};

use crate::settings::{byte_of, setting_in};
use a2_bus::Keys;
use a2_machine::Cause;
use a2_opcode::Mnemonic;
use a2_page::Attribute;
use a2_run::step_limit;
use a2_text::{after_blanks, capital, first_word, number_in, only_word, split_word};
use a2_timed_keys::stroke_in;

/// The meaning of a line of a WANT file. Each text in it is a part of the line.
#[derive(Clone, Copy)]
pub enum Line<'a> {
    /// Nothing: only blanks, or `;` and a comment.
    Silent,
    /// `case NAME`: a case begins.
    Case(&'a [u8]),
    /// `keys K`: these keys wait at the start, spelled as on the command line.
    Keys(&'a str),
    /// `keys-at N:K`: these keys are typed after so many steps, given as on the command line.
    KeysAt(&'a str),
    /// `replay T`: the keys of the recorded session in this file are typed, each after its steps.
    Replay(&'a str),
    /// `free`: the run is not guarded.
    Free,
    /// `limit N`: the run has at most this many steps, 0 to 100,000,000.
    Limit(u32),
    /// `call NAME A=3 $320=05`: the routine with this name is called, with these bytes at these places.
    Call(Call<'a>),
    /// `screen`: the rows on the lines that follow are those of the screen, from the top; the remaining rows are blank.
    Screen,
    /// `attr`: the rows on the lines that follow are those of the attributes, as `a2 run --attr` prints them; what is left out is
    /// normal.
    Attributes,
    /// `|TEXT`: a row of the screen, or of its attributes.
    Row(&'a [u8]),
    /// `screen row 3 = "TEXT"`: the row with this number, from 0 at the top, is this text; `~` means any text.
    Shows(u16, &'a [u8]),
    /// `screen holds "TEXT"`: a row of the screen contains this text.
    Holds(&'a [u8]),
    /// `screen row 3 is inverse "TEXT"`: the row with this number contains this text, and each of its characters is shown like this.
    Styled(u16, Attribute, &'a [u8]),
    /// `screen is normal`: each character of the screen is shown like this.
    Plain(Attribute),
    /// `mem $320 = A9 01`: these bytes begin at this place, a number or a name.
    Mem(&'a str, &'a [u8]),
    /// `reg A=E9 X=00`: these registers have these values. Blanks may be around each `=`, here and after `call`.
    Reg(&'a [u8]),
    /// `stop RETURNED` or `stops RETURNED`: the run stops with this cause.
    Stop(Cause),
    /// `cycles <= N`: the run takes at most this many cycles.
    Cycles(u32),
    /// `bytes <= N`: the statements have at most this many bytes.
    Bytes(u32),
    /// `must use BNE`: an instruction has this mnemonic.
    Uses(Mnemonic),
    /// `must not use BNE`: no instruction has this mnemonic.
    Avoids(Mnemonic),
    /// The line has none of these forms.
    Unknown,
}

/// The call of a routine: its name, and words such as `A=3` that set the bytes of places.
#[derive(Clone, Copy)]
pub struct Call<'a> {
    pub name: &'a [u8],
    pub settings: &'a [u8],
}

/// A line of a WANT file with its number, from 1.
#[derive(Clone, Copy)]
pub struct NumberedLine<'a> {
    pub number: usize,
    pub line: Line<'a>,
}

/// Returns the lines after the first `count`.
pub(crate) fn following<'a, 'b>(
    lines: &'b [NumberedLine<'a>],
    count: usize,
) -> &'b [NumberedLine<'a>]
    requires { count ≤ length lines.now }
    ensures { result.now ≡ drop count lines.now }
{
    &lines[count..]
}

/// The first word of a line.
#[derive(Clone, Copy)]
pub(crate) enum Verb {
    Case,
    Keys,
    KeysAt,
    Replay,
    Free,
    Limit,
    Call,
    Screen,
    Mem,
    Reg,
    Stop,
    Stops,
    Cycles,
    Bytes,
    Must,
    Attr,
}

/// All verbs.
pub(crate) const VERBS: [Verb; 16] = [
    Verb::Case,
    Verb::Keys,
    Verb::KeysAt,
    Verb::Replay,
    Verb::Free,
    Verb::Limit,
    Verb::Call,
    Verb::Screen,
    Verb::Mem,
    Verb::Reg,
    Verb::Stop,
    Verb::Stops,
    Verb::Cycles,
    Verb::Bytes,
    Verb::Must,
    Verb::Attr,
];

impl Verb {
    /// Returns the spelling of the verb.
    pub(crate) fn letters(self) -> &'static [u8]
        ensures { result.now ≡ said.verb_letters self }
    {
        match self {
            Verb::Case => b"case",
            Verb::Keys => b"keys",
            Verb::KeysAt => b"keys-at",
            Verb::Replay => b"replay",
            Verb::Free => b"free",
            Verb::Limit => b"limit",
            Verb::Call => b"call",
            Verb::Screen => b"screen",
            Verb::Mem => b"mem",
            Verb::Reg => b"reg",
            Verb::Stop => b"stop",
            Verb::Stops => b"stops",
            Verb::Cycles => b"cycles",
            Verb::Bytes => b"bytes",
            Verb::Must => b"must",
            Verb::Attr => b"attr",
        }
    }
}

/// Returns the verb that a word means.
pub(crate) fn verb_of(word: &[u8]) -> Option<Verb>
    ensures found { IfSome result (λ v. said.verb_letters v ≡ word.now) }
    ensures only { (v : DeclaredVerb) → said.verb_letters v ≡ word.now → result ≡ Some v }
{
    for verb in &VERBS {
        if verb.letters() == word {
            return Some(*verb);
        }
    }
    None
}

// Returns the number that a word spells, 0 to 100,000,000.
fn number_of(word: &[u8]) -> Option<u32>
    ensures { IfSome result (λ n. said.IsNumber word.now n) }
{
    let Ok(text) = std::str::from_utf8(word) else {
        return None;
    };
    step_limit(text)
}

/// Returns whether a word is a number of steps.
pub(crate) fn is_limit(word: &[u8]) -> bool {
    number_of(word).is_some()
}

// Returns the text after the first word of `text`, if that is `word`.
fn after<'a>(word: &[u8], text: &'a [u8]) -> Option<&'a [u8]> {
    let (first, following) = first_word(text)?;
    if first == word { Some(following) } else { None }
}

// Returns the only number after a verb.
fn limit_in(rest: &[u8]) -> Option<u32> {
    number_of(only_word(rest)?)
}

// Returns the number after `<=`.
fn most_in(rest: &[u8]) -> Option<u32> {
    match after_blanks(rest) {
        [b'<', b'=', number @ ..] => limit_in(number),
        _ => None,
    }
}

// Returns the keys after exactly one blank.
fn keys_in(rest: &[u8]) -> Option<&str> {
    let (_, text) = rest.split_first()?;
    let Ok(text) = std::str::from_utf8(text) else {
        return None;
    };
    Keys::parse(text)?;
    Some(text)
}

// Returns the steps and the keys after `keys-at`.
fn stroke_after(rest: &[u8]) -> Option<&str> {
    let Ok(text) = std::str::from_utf8(after_blanks(rest)) else {
        return None;
    };
    match stroke_in(text) {
        Ok(_) => Some(text),
        Err(_) => None,
    }
}

// Returns the name of the file after `replay`.
fn file_in(rest: &[u8]) -> Option<&str> {
    match std::str::from_utf8(after_blanks(rest).trim_ascii_end()) {
        Ok(name) if !name.is_empty() => Some(name),
        _ => None,
    }
}

/// Returns whether a word is a byte.
pub(crate) fn is_byte(word: &[u8]) -> bool {
    byte_of(word).is_some()
}

// Returns whether all words of a text are bytes.
fn are_bytes(text: &[u8]) -> bool {
    let mut rest = text;
    while let Some((word, following)) = first_word(rest) {
        if !is_byte(word) {
            return false;
        }
        rest = following;
    }
    true
}

/// What the settings of a line name.
#[derive(Clone, Copy)]
pub(crate) enum Named {
    Place,
    Register,
}

impl Named {
    /// Returns whether a word names that.
    pub(crate) fn is_name(self, word: &[u8]) -> bool {
        match self {
            Named::Place => !word.is_empty(),
            Named::Register => match word {
                [c] => matches!(capital(*c), b'A' | b'X' | b'Y' | b'P' | b'S'),
                _ => false,
            },
        }
    }
}

// Returns whether a text consists of settings, such as `A=E9` or `RESULT = 05`.
fn are_settings(named: Named, text: &[u8]) -> bool {
    let mut rest = text;
    while first_word(rest).is_some() {
        let Some(setting) = setting_in(rest) else {
            return false;
        };
        let Some((value, following)) = first_word(setting.value) else {
            return false;
        };
        if !named.is_name(setting.name) || !is_byte(value) {
            return false;
        }
        rest = following;
    }
    true
}

// Returns whether two words are the same, in either case.
fn is_same_word(word: &[u8], other: &[u8]) -> bool {
    word.eq_ignore_ascii_case(other)
}

// Returns whether two texts have the same words, in either case.
fn are_same_words(text: &[u8], other: &[u8]) -> bool {
    match first_word(text) {
        None => first_word(other).is_none(),
        Some((word, following)) => match first_word(other) {
            Some((same, rest)) if is_same_word(same, word) => are_same_words(following, rest),
            _ => false,
        },
    }
}

// Returns the cause with this name.
fn cause_in(rest: &[u8]) -> Option<Cause> {
    for cause in &Cause::ALL {
        if are_same_words(cause.name(), rest) {
            return Some(*cause);
        }
    }
    None
}

// Returns the mnemonic that is the only word of a text.
fn mnemonic_in(rest: &[u8]) -> Option<Mnemonic> {
    Mnemonic::named(only_word(rest)?)
}

// Parses the text after `must`.
fn must<'a>(rest: &'a [u8]) -> Option<Line<'a>> {
    if let Some(name) = after(b"use", rest) {
        return Some(Line::Uses(mnemonic_in(name)?));
    }
    let name = after(b"use", after(b"not", rest)?)?;
    Some(Line::Avoids(mnemonic_in(name)?))
}

// Returns the text between the quotes.
fn quoted(text: &[u8]) -> Option<&[u8]> {
    match after_blanks(text) {
        [b'"', inner @ .., b'"'] => Some(inner),
        _ => None,
    }
}

/// Returns the attribute that a word names, in either case.
pub(crate) fn attribute_of(word: &[u8]) -> Option<Attribute> {
    if is_same_word(word, b"normal") {
        Some(Attribute::Normal)
    } else if is_same_word(word, b"inverse") {
        Some(Attribute::Inverse)
    } else if is_same_word(word, b"flashing") {
        Some(Attribute::Flashing)
    } else {
        None
    }
}

// Parses the text after `screen row 3 is`.
fn styled<'a>(number: u16, rest: &'a [u8]) -> Option<Line<'a>> {
    let (word, text) = first_word(rest)?;
    Some(Line::Styled(number, attribute_of(word)?, quoted(text)?))
}

// Parses the text after `screen row`.
fn shown<'a>(rest: &'a [u8]) -> Option<Line<'a>> {
    let (word, following) = first_word(rest)?;
    if let Some(text) = after(b"is", following) {
        return styled(number_in(10, 2, word)?, text);
    }
    let setting = setting_in(rest)?;
    let number = number_in(10, 2, setting.name)?;
    Some(Line::Shows(number, quoted(setting.value)?))
}

// Parses the text after `screen`.
fn screen<'a>(rest: &'a [u8]) -> Option<Line<'a>> {
    if first_word(rest).is_none() {
        return Some(Line::Screen);
    }
    if let Some(row) = after(b"row", rest) {
        return shown(row);
    }
    if let Some(word) = after(b"is", rest) {
        return Some(Line::Plain(attribute_of(only_word(word)?)?));
    }
    Some(Line::Holds(quoted(after(b"holds", rest)?)?))
}

// Parses the text after `mem`.
fn mem<'a>(rest: &'a [u8]) -> Option<Line<'a>> {
    let setting = setting_in(rest)?;
    let Ok(place) = std::str::from_utf8(setting.name) else {
        return None;
    };
    let bytes = setting.value;
    if !place.is_empty() && first_word(bytes).is_some() && are_bytes(bytes) {
        Some(Line::Mem(place, bytes))
    } else {
        None
    }
}

// Parses the text after `reg`.
fn reg<'a>(rest: &'a [u8]) -> Option<Line<'a>> {
    if first_word(rest).is_some() && are_settings(Named::Register, rest) {
        Some(Line::Reg(rest))
    } else {
        None
    }
}

// Parses the text after `call`.
fn called<'a>(rest: &'a [u8]) -> Option<Line<'a>> {
    let (name, settings) = first_word(rest)?;
    if are_settings(Named::Place, settings) {
        Some(Line::Call(Call { name, settings }))
    } else {
        None
    }
}

// Returns the line of a verb that is alone, if nothing follows it.
fn alone<'a>(line: Line<'a>, rest: &'a [u8]) -> Option<Line<'a>> {
    match first_word(rest) {
        None => Some(line),
        Some(_) => None,
    }
}

// Parses the text after a verb.
fn said<'a>(verb: Verb, rest: &'a [u8]) -> Option<Line<'a>> {
    match verb {
        Verb::Case => Some(Line::Case(after_blanks(rest))),
        Verb::Keys => Some(Line::Keys(keys_in(rest)?)),
        Verb::KeysAt => Some(Line::KeysAt(stroke_after(rest)?)),
        Verb::Replay => Some(Line::Replay(file_in(rest)?)),
        Verb::Free => alone(Line::Free, rest),
        Verb::Limit => Some(Line::Limit(limit_in(rest)?)),
        Verb::Call => called(rest),
        Verb::Screen => screen(rest),
        Verb::Mem => mem(rest),
        Verb::Reg => reg(rest),
        Verb::Stop | Verb::Stops => Some(Line::Stop(cause_in(rest)?)),
        Verb::Cycles => Some(Line::Cycles(most_in(rest)?)),
        Verb::Bytes => Some(Line::Bytes(most_in(rest)?)),
        Verb::Must => must(rest),
        Verb::Attr => alone(Line::Attributes, rest),
    }
}

// Parses a line that begins with a word.
fn worded<'a>(text: &'a [u8]) -> Option<Line<'a>> {
    let (word, rest) = split_word(text);
    said(verb_of(word)?, rest)
}

/// Parses a line.
pub(crate) fn line_of<'a>(text: &'a [u8]) -> Line<'a> {
    match after_blanks(text) {
        [] | [b';', ..] => Line::Silent,
        [b'|', row @ ..] => Line::Row(row.trim_ascii_end()),
        here => match worded(here) {
            Some(line) => line,
            None => Line::Unknown,
        },
    }
}

/// Returns whether a text begins like a line of a WANT file that says something: with a verb or with `|`. The rest of
/// the text may still be invalid.
pub fn begins_want_line(text: &[u8]) -> bool {
    match after_blanks(text) {
        [b'|', ..] => true,
        here => {
            let (word, _) = split_word(here);
            verb_of(word).is_some()
        }
    }
}

/// Returns the meaning of a text as the line of a WANT file with this number, from 1.
pub fn numbered_line<'a>(number: usize, text: &'a [u8]) -> NumberedLine<'a>
    ensures { result.number ≡ number }
{
    NumberedLine {
        number,
        line: line_of(text),
    }
}
