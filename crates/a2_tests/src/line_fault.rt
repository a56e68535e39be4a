//! Messages about lines of a WANT file that are in none of the forms.

use crate::line::{Named, VERBS, Verb, attribute_of, is_byte, is_limit, verb_of};
use crate::settings::setting_in;
use a2_stream::{Output, WriteFault, put, put_all};
use a2_text::{after_blanks, decimal, first_word, front_len, number_in, split_word};
use std::alloc::{AllocError, Allocator};
use strsim::generic_levenshtein;

// What is wrong with a line.
#[derive(Clone, Copy)]
enum Mistake {
    Verb,
    Steps,
    Keys,
    Stroke,
    Typed,
    Recording,
    Alone,
    Marks,
    Routine,
    Equals,
    Byte,
    Register,
    Destination,
    Place,
    Row,
    Shown,
    Quotes,
    Attribute,
    Screen,
    Cause,
    Most,
    Must,
    Mnemonic,
}

impl Mistake {
    // Returns the sentence that says what is wrong, in which `@` is the wrong word.
    fn problem(self) -> &'static [u8] {
        match self {
            Mistake::Verb => b"`@` does not begin a line of a test file",
            Mistake::Steps => b"`limit` needs a number of steps from 0 to 100000000, not `@`",
            Mistake::Keys => b"`@` cannot be typed",
            Mistake::Stroke =>
                b"`keys-at` needs a number of steps from 0 to 100000000, a colon and keys, not `@`",
            Mistake::Typed => b"`@` cannot be typed",
            Mistake::Recording => b"`@` is not the name of a file",
            Mistake::Alone => b"nothing can follow `free`, but `@` does",
            Mistake::Marks => b"nothing can follow `attr`, but `@` does",
            Mistake::Routine => b"`@` is not the name of a routine",
            Mistake::Equals => b"`=` and a byte are missing after `@`",
            Mistake::Byte => b"`@` is not a byte",
            Mistake::Register => b"`@` is not a register",
            Mistake::Destination => b"`@` is not a register, a name or an address",
            Mistake::Place => b"`mem` needs a place, `=` and bytes, not `@`",
            Mistake::Row => b"`@` is not the number of a row",
            Mistake::Shown => b"`=` and a text are missing after `@`",
            Mistake::Attribute => b"`@` does not say how characters are shown",
            Mistake::Quotes => b"the text is not between quotes: `@`",
            Mistake::Screen =>
                b"`screen` is alone in its line, or `row`, `holds` or `is` follows it, not `@`",
            Mistake::Cause => b"`@` is not the cause of a stop",
            Mistake::Most => b"`<=` and a number from 0 to 100000000 are expected, not `@`",
            Mistake::Must => b"`use` or `not use` is expected after `must`, not `@`",
            Mistake::Mnemonic => b"`@` is not a mnemonic",
        }
    }

    // Returns the sentence that says what to write.
    fn fix(self) -> &'static [u8] {
        match self {
            Mistake::Verb =>
                b"write case, keys, keys-at, replay, free, limit, call, screen, attr, mem, reg, stop, cycles, bytes or must",
            Mistake::Steps => b"write it as in limit 20000",
            Mistake::Stroke => b"write it as in keys-at 1200:HI\\r",
            Mistake::Recording => b"write it as in replay game.keys",
            Mistake::Alone => b"write free alone",
            Mistake::Marks =>
                b"write attr alone; in the lines after it, write the rows that run --attr prints, each after a |",
            Mistake::Keys | Mistake::Typed =>
                b"write at most 4096 keys: the characters from space to ~, \\r for RETURN, \\b and \\f for the arrows, \\x for Ctrl-X, \\\\ for \\",
            Mistake::Routine => b"write it as in call DOUBLE A=15",
            Mistake::Equals => b"write it as in A=0F",
            Mistake::Byte =>
                b"write two hexadecimal digits such as 0F, a decimal number such as #15, or a binary one such as %1111",
            Mistake::Register => b"write A, X, Y, P or S",
            Mistake::Destination => b"write it as in A=0F, RESULT=0F or $320=0F",
            Mistake::Place => b"write it as in mem $320 = A9 01",
            Mistake::Row => b"write a number from 0 to 23",
            Mistake::Shown => b"write it as in screen row 0 = \"TEXT\"",
            Mistake::Attribute => b"write normal, inverse or flashing",
            Mistake::Quotes => b"write it as in \"TEXT\"",
            Mistake::Screen =>
                b"write it as in screen row 0 = \"TEXT\", screen holds \"TEXT\", or screen is normal",
            Mistake::Cause =>
                b"write RETURNED, BRK, LIMIT, KEYS, WINDOW, ROM, OPCODE, DECIMAL, CODE WRITE or OFF STATEMENT",
            Mistake::Most => b"write it as in cycles <= 100",
            Mistake::Must => b"write it as in must use BNE, or must not use BNE",
            Mistake::Mnemonic => b"write one such as BNE",
        }
    }
}

// What is wrong with a line, and where: the part of the line from there on, and its length.
#[derive(Clone, Copy)]
struct Wrong<'a> {
    mistake: Mistake,
    from: &'a [u8],
    width: usize,
}

impl<'a> Wrong<'a> {
    // Returns that the first word of a text is wrong.
    fn word(mistake: Mistake, text: &'a [u8]) -> Wrong<'a> {
        Wrong::front(mistake, text, split_word(text).0.len())
    }

    // Returns that the first letters of a text are wrong, after its blanks.
    fn front(mistake: Mistake, text: &'a [u8], width: usize) -> Wrong<'a> {
        Wrong {
            mistake,
            from: after_blanks(text),
            width,
        }
    }

    // Returns that all of a text is wrong.
    fn all(mistake: Mistake, text: &'a [u8]) -> Wrong<'a> {
        Wrong::front(mistake, text, after_blanks(text).len())
    }

    // Returns that all of a text is wrong, with its blanks.
    fn exactly(mistake: Mistake, text: &'a [u8]) -> Wrong<'a> {
        Wrong {
            mistake,
            from: text,
            width: text.len(),
        }
    }

    // Returns the sentence that says what is wrong.
    fn problem(self) -> &'static [u8] {
        if self.letters().is_empty() {
            b"the line ends too early"
        } else {
            self.mistake.problem()
        }
    }

    // Returns the wrong letters: at least one, unless the line ends before them.
    fn letters(self) -> &'a [u8] {
        &self.from[..self.width.max(1).min(self.from.len())]
    }
}

// Returns the first word of a text that is not a byte.
fn wrong_byte<'a>(text: &'a [u8]) -> Wrong<'a> {
    let mut rest = text;
    while let Some((word, following)) = first_word(rest) {
        if !is_byte(word) {
            return Wrong::word(Mistake::Byte, rest);
        }
        rest = following;
    }
    Wrong::word(Mistake::Byte, rest)
}

// Returns the mistake of a word that is not what settings name.
fn not_named(named: Named) -> Mistake {
    match named {
        Named::Place => Mistake::Destination,
        Named::Register => Mistake::Register,
    }
}

// Returns what is wrong in a text of settings.
fn wrong_setting<'a>(named: Named, text: &'a [u8]) -> Wrong<'a> {
    let mut rest = text;
    while first_word(rest).is_some() {
        let Some(setting) = setting_in(rest) else {
            return Wrong::word(Mistake::Equals, rest);
        };
        if !named.is_name(setting.name) {
            return Wrong::front(not_named(named), rest, setting.name.len());
        }
        let Some((value, following)) = first_word(setting.value) else {
            return Wrong::word(Mistake::Byte, setting.value);
        };
        if !is_byte(value) {
            return Wrong::word(Mistake::Byte, setting.value);
        }
        rest = following;
    }
    Wrong::word(Mistake::Equals, rest)
}

// Returns what is wrong after `screen row`.
fn wrong_row<'a>(text: &'a [u8]) -> Wrong<'a> {
    let (word, following) = split_word(text);
    if let (b"is", rest) = split_word(following) {
        if number_in(10, 2, word).is_none() {
            return Wrong::word(Mistake::Row, text);
        }
        let (name, quote) = split_word(rest);
        return match attribute_of(name) {
            Some(_) => Wrong::all(Mistake::Quotes, quote),
            None => Wrong::word(Mistake::Attribute, rest),
        };
    }
    match setting_in(text) {
        None => Wrong::all(Mistake::Shown, text),
        Some(setting) if number_in(10, 2, setting.name).is_none() => {
            Wrong::front(Mistake::Row, text, setting.name.len())
        }
        Some(setting) => Wrong::all(Mistake::Quotes, setting.value),
    }
}

// Returns what is wrong after `screen`.
fn wrong_screen<'a>(rest: &'a [u8]) -> Wrong<'a> {
    match split_word(rest) {
        (b"holds", text) => Wrong::all(Mistake::Quotes, text),
        (b"row", text) => wrong_row(text),
        (b"is", text) => Wrong::all(Mistake::Attribute, text),
        _ => Wrong::all(Mistake::Screen, rest),
    }
}

// Returns what is wrong after `must`.
fn wrong_must<'a>(rest: &'a [u8]) -> Wrong<'a> {
    match split_word(rest) {
        (b"use", name) => Wrong::all(Mistake::Mnemonic, name),
        (b"not", following) => match split_word(following) {
            (b"use", name) => Wrong::all(Mistake::Mnemonic, name),
            _ => Wrong::all(Mistake::Must, rest),
        },
        _ => Wrong::all(Mistake::Must, rest),
    }
}

// Returns what is wrong after `mem`.
fn wrong_memory<'a>(rest: &'a [u8]) -> Wrong<'a> {
    match setting_in(rest) {
        Some(setting) if !setting.name.is_empty() => wrong_byte(setting.value),
        _ => Wrong::all(Mistake::Place, rest),
    }
}

// Returns what is wrong after `call`.
fn wrong_call<'a>(rest: &'a [u8]) -> Wrong<'a> {
    match first_word(rest) {
        Some((_, settings)) => wrong_setting(Named::Place, settings),
        None => Wrong::word(Mistake::Routine, rest),
    }
}

// Returns what is wrong after `keys-at`: the number of steps before the colon, or the keys after it.
fn wrong_stroke<'a>(rest: &'a [u8]) -> Wrong<'a> {
    let here = after_blanks(rest);
    let (steps, following) = here.split_at(front_len(here, |c| c != b':'));
    match following {
        [b':', keys @ ..] if is_limit(steps) => Wrong::exactly(Mistake::Typed, keys),
        [b':', ..] => Wrong::front(Mistake::Stroke, here, steps.len()),
        _ => Wrong::all(Mistake::Stroke, here),
    }
}

// Returns what is wrong with a line, if it is in none of the forms.
fn wrong_in<'a>(text: &'a [u8]) -> Wrong<'a> {
    let (word, rest) = split_word(text);
    match verb_of(word) {
        None | Some(Verb::Case) => Wrong::word(Mistake::Verb, text),
        Some(Verb::Keys) => Wrong::all(Mistake::Keys, rest),
        Some(Verb::KeysAt) => wrong_stroke(rest),
        Some(Verb::Replay) => Wrong::all(Mistake::Recording, rest),
        Some(Verb::Free) => Wrong::all(Mistake::Alone, rest),
        Some(Verb::Limit) => Wrong::all(Mistake::Steps, rest),
        Some(Verb::Call) => wrong_call(rest),
        Some(Verb::Screen) => wrong_screen(rest),
        Some(Verb::Mem) => wrong_memory(rest),
        Some(Verb::Reg) => wrong_setting(Named::Register, rest),
        Some(Verb::Stop | Verb::Stops) => Wrong::all(Mistake::Cause, rest),
        Some(Verb::Cycles | Verb::Bytes) => Wrong::all(Mistake::Most, rest),
        Some(Verb::Must) => wrong_must(rest),
        Some(Verb::Attr) => Wrong::all(Mistake::Marks, rest),
    }
}

// Returns the verb that may be meant by a word, or an empty one if none is near.
fn near_verb<A: Allocator + Copy>(alloc: A, word: &[u8]) -> Result<&'static [u8], AllocError> {
    let mut nearest: &'static [u8] = b"";
    let mut least = word.len().min(3);
    for verb in &VERBS {
        let letters = verb.letters();
        let distance = generic_levenshtein(alloc, word, letters)?;
        if distance < least || word.eq_ignore_ascii_case(letters) {
            nearest = letters;
            least = distance.min(least);
        }
    }
    Ok(nearest)
}

// Writes a byte of a line: a blank for a tab, and `?` for a byte that is not printable.
fn put_shown<W: Output>(text: &[u8], writer: &mut W) -> Result<(), WriteFault> {
    for c in text {
        let shown = match *c {
            b' '..=b'~' => *c,
            b'\t' => b' ',
            _ => b'?',
        };
        put(&[shown], writer)?;
    }
    Ok(())
}

// Writes a byte some times.
fn put_times<W: Output>(c: u8, count: usize, writer: &mut W) -> Result<(), WriteFault> {
    for _ in 0..count {
        put(&[c], writer)?;
    }
    Ok(())
}

// Writes a sentence, in which `@` is this word.
fn put_sentence<W: Output>(sentence: &[u8], word: &[u8], writer: &mut W) -> Result<(), WriteFault> {
    for c in sentence {
        if *c == b'@' {
            put_shown(word, writer)?;
        } else {
            put(&[*c], writer)?;
        }
    }
    Ok(())
}

// Writes the line, and below what is wrong how to fix it.
fn put_fix<W: Output>(
    number: &[u8],
    text: &[u8],
    wrong: Wrong<'_>,
    near: &[u8],
    writer: &mut W,
) -> Result<(), WriteFault> {
    put_times(b' ', 4usize.saturating_sub(number.len()), writer)?;
    put_all(&[number, b" | "], writer)?;
    put_shown(text, writer)?;
    put(b"\n     | ", writer)?;
    put_times(b' ', text.len().saturating_sub(wrong.from.len()), writer)?;
    put_times(b'^', wrong.width.max(1), writer)?;
    if near.is_empty() {
        put_all(&[b" ", wrong.mistake.fix(), b"\n"], writer)
    } else {
        put_all(&[b" did you mean ", near, b"?\n"], writer)
    }
}

/// Writes what is wrong with a text that is the line of the WANT file `file` with this number, and is in none of the forms: its
/// place, the line, and how to fix it. If there is not enough memory to look for similar words, none is written.
pub fn put_line_fault<A: Allocator + Copy, W: Output>(
    alloc: A,
    file: &str,
    number: usize,
    text: &[u8],
    writer: &mut W,
) -> Result<(), WriteFault> {
    let wrong = wrong_in(text);
    let near = match wrong.mistake {
        Mistake::Verb => near_verb(alloc, wrong.letters()).unwrap_or(b""),
        _ => b"",
    };
    let number = decimal(number as u64);
    let column = decimal((text.len().saturating_sub(wrong.from.len()) as u64).saturating_add(1));
    put_all(
        &[
            file.as_bytes(),
            b", line ",
            number.as_slice(),
            b", column ",
            column.as_slice(),
            b": ",
        ],
        writer,
    )?;
    put_sentence(wrong.problem(), wrong.letters(), writer)?;
    put(b"\n", writer)?;
    put_fix(number.as_slice(), text, wrong, near, writer)
}
