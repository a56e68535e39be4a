//! Whether the end of a run meets the requirement of a line.

ghost use Rattle.std.specs.Prelude.{◌≡◌, ◌↔◌, true, false, map, IfOk, MatchOption};
ghost use Rattle.std.specs.List.{list_all};
ghost use Rattle.a2_bus.specs.View.{memory_of};
ghost use Rattle.a2_effect.specs.View.{registers_of};
ghost use Rattle.a2_text.specs.Words.{words};
ghost use Rattle.a2_tests.specs.Requirements as asked;
ghost use Rattle.a2_tests.specs.Settings.{tight as tight_text};
ghost use Rattle.a2_tests.specs.Requirements.{IsFirstMissed, Meets, MeetsAll, MeetsFirst, end_at};

use crate::line::{Line, NumberedLine, following};
use crate::rows::{RowKind, Rows, all_are, holds, row_has_styled, row_is, rows_fit};
use crate::settings::{byte_of, digits_in, name_in, tight};
use a2_asm::{Program, Statement};
use a2_cpu::Regs;
use a2_machine::{Cause, Machine};
use a2_opcode::Mnemonic;
use a2_text::{capital, first_word, number_in};
use std::alloc::{AllocError, Allocator};

/// The end of a run: the program of the source, the machine as the run left it, the stop cause, and the rows of its
/// screen.
#[derive(Drop)]
pub(crate) struct Ending<'a, A: Allocator> {
    pub program: &'a Program<A>,
    pub machine: &'a Machine<A>,
    pub cause: Cause,
    pub rows: &'a [&'a [u8]],
    /// The rows of attributes, as `a2 run --attr` prints them.
    pub marks: &'a [&'a [u8]],
}

impl<'a, A: Allocator> Ending<'a, A> {
    /// Returns the rows of the screen with their attributes.
    pub(crate) fn screen(&self) -> Rows<'a>
        ensures texts { result.texts.now ≡ self.now.rows.now }
        ensures marks { result.marks.now ≡ self.now.marks.now }
    {
        Rows {
            texts: self.rows,
            marks: self.marks,
        }
    }
}

/// Returns the address of a place: a number after `$`, or a name of the program.
pub(crate) fn place_of<A: Allocator + Copy>(program: &Program<A>, place: &str) -> Option<u16>
    ensures { result ≡ asked.place_of program.now place.now }
{
    match place.as_bytes() {
        [b'$', digits @ ..] => number_in(16, 4, digits),
        _ => program.name(place),
    }
}

// Returns whether a byte is the expected one.
fn is_byte(byte: Option<u8>, wanted: Option<u16>) -> bool
    ensures { result ≡ asked.is_byte byte wanted }
{
    match byte {
        Some(byte) => match wanted {
            Some(wanted) => u16::from(byte) == wanted,
            None => false,
        },
        None => false,
    }
}

/// Returns the first byte of memory, from an address on, that differs from the expected one: its address, and the word
/// for the expected byte.
pub(crate) fn first_different_byte<'a, A: Allocator + Copy>(
    machine: &Machine<A>,
    address: u16,
    bytes: &'a [u8],
) -> Option<(u16, &'a [u8])>
    ensures { MatchOption result (asked.has_bytes (memory_of machine.now.state.bus) address (words bytes.now) ≡ true)
        (λ _. asked.has_bytes (memory_of machine.now.state.bus) address (words bytes.now) ≡ false) }
{
    let mut rest = bytes;
    let mut at = address;
    while let Some((word, following)) = first_word(rest) {
        if !is_byte(machine.peek(at), byte_of(word)) {
            return Some((at, word));
        }
        at = at.wrapping_add(1);
        rest = following;
    }
    None
}

// Returns the value of a register named by one letter.
fn register_value(regs: Regs, name: &[u8]) -> Option<u8>
    ensures { result ≡ asked.register_byte (registers_of regs) name.now }
{
    match name {
        [c] => match capital(*c) {
            b'A' => Some(regs.a),
            b'X' => Some(regs.x),
            b'Y' => Some(regs.y),
            b'P' => Some(regs.p.pushed()),
            b'S' => Some(regs.s),
            _ => None,
        },
        _ => None,
    }
}

/// Returns the value of a register of the machine, named by its letter.
pub(crate) fn register_byte<A: Allocator + Copy>(machine: &Machine<A>, name: &[u8]) -> Option<u8>
    ensures { result ≡ asked.register_byte (registers_of machine.now.state.regs) name.now }
{
    register_value(machine.regs(), name)
}

// Returns whether the register in a word such as `A=E9` has the value given there.
fn register_matches<A: Allocator + Copy>(machine: &Machine<A>, word: &[u8]) -> bool
    ensures { result ≡ asked.register_matches (registers_of machine.now.state.regs) word.now }
{
    is_byte(
        register_byte(machine, name_in(word)),
        byte_of(digits_in(word)),
    )
}

/// Returns the first word of a text whose register does not have the value given there.
pub(crate) fn first_different_register<'a, A: Allocator + Copy>(
    machine: &Machine<A>,
    text: &'a [u8],
) -> Option<&'a [u8]>
    ensures { MatchOption result (list_all (asked.register_matches (registers_of machine.now.state.regs)) (words text.now) ≡ true)
        (λ _. list_all (asked.register_matches (registers_of machine.now.state.regs)) (words text.now) ≡ false) }
{
    let mut rest = text;
    while let Some((word, following)) = first_word(rest) {
        if !register_matches(machine, word) {
            return Some(word);
        }
        rest = following;
    }
    None
}

/// Returns how many bytes some statements have.
pub(crate) fn size_of(statements: &[Statement]) -> u128
    ensures { result ≡ asked.size_of statements.now }
{
    let mut size: u128 = 0;
    for statement in statements {
        size += u128::from(statement.length);
    }
    size
}

// Returns whether a statement is an instruction with this mnemonic.
fn is_use(statement: &Statement, mnemonic: Mnemonic) -> bool
    ensures { result ≡ asked.is_use mnemonic statement.now }
{
    match statement.instr {
        Some(instr) => instr.mnemonic.name() == mnemonic.name(),
        None => false,
    }
}

/// Returns the first statement that is an instruction with this mnemonic.
pub(crate) fn first_use_of(statements: &[Statement], mnemonic: Mnemonic) -> Option<Statement>
    ensures { result ≡ asked.first_use_of statements.now mnemonic }
{
    for statement in statements {
        if is_use(statement, mnemonic) {
            return Some(*statement);
        }
    }
    None
}

// Returns whether two causes are the same.
fn is_cause(cause: Cause, other: Cause) -> bool
    ensures { (result ≡ true) ↔ (cause ≡ other) }
{
    cause == other
}

// Returns whether these bytes are at a place.
fn has_bytes<A: Allocator + Copy>(ending: &Ending<A>, place: &str, bytes: &[u8]) -> bool
    ensures { result ≡ asked.has_bytes_at (memory_of ending.now.machine.now.state.bus)
        (asked.place_of ending.now.program.now place.now) bytes.now }
{
    match place_of(ending.program, place) {
        Some(address) => first_different_byte(ending.machine, address, bytes).is_none(),
        None => false,
    }
}

// Returns whether the register in each of these words has the value given there.
fn registers_match<A: Allocator + Copy>(machine: &Machine<A>, settings: &[u8]) -> bool
    ensures { result ≡ list_all (asked.register_matches (registers_of machine.now.state.regs)) (words settings.now) }
{
    first_different_register(machine, settings).is_none()
}

// Returns the same for a text with or without blanks around each `=`.
fn settings_match<A: Allocator + Copy>(
    alloc: A,
    machine: &Machine<A>,
    text: &[u8],
) -> Result<bool, AllocError>
    ensures { IfOk result (λ met. met ≡ list_all (asked.register_matches (registers_of machine.now.state.regs))
        (words (tight_text text.now))) }
{
    let joined = tight(alloc, text)?;
    Ok(registers_match(machine, joined.as_slice()))
}

// Returns whether the end of a run meets a line.
fn is_met_by<A: Allocator + Copy>(
    alloc: A,
    line: Line,
    rest: &[NumberedLine],
    ending: &Ending<A>,
) -> Result<bool, AllocError>
    requires rows { map (λ x. x.now) ending.now.rows.now ≡ asked.rows_of (memory_of ending.now.machine.now.state.bus) }
    requires marks { map (λ x. x.now) ending.now.marks.now ≡ asked.marks_of (memory_of ending.now.machine.now.state.bus) }
    ensures { IfOk result (λ met. (met ≡ true) ↔ Meets line.entry rest.now ending.now.program.now
        (end_at ending.now.machine.now.state ending.now.cause)) }
{
    match line {
        Line::Screen => Ok(rows_fit(RowKind::Characters, rest, ending.rows)),
        Line::Attributes => Ok(rows_fit(RowKind::Attributes, rest, ending.marks)),
        Line::Shows(number, text) => Ok(row_is(number, text, ending.rows)),
        Line::Holds(text) => Ok(holds(ending.rows, text)),
        Line::Styled(number, attribute, text) => {
            Ok(row_has_styled(number, attribute, text, ending.screen()))
        }
        Line::Plain(attribute) => Ok(all_are(attribute, ending.marks)),
        Line::Mem(place, bytes) => Ok(has_bytes(ending, place, bytes)),
        Line::Reg(text) => Ok(settings_match(alloc, ending.machine, text)?),
        Line::Stop(cause) => Ok(is_cause(ending.cause, cause)),
        Line::Cycles(most) => Ok(ending.machine.cycles() <= u64::from(most)),
        Line::Bytes(most) => Ok(size_of(ending.program.statements()) <= u128::from(most)),
        Line::Uses(name) => Ok(first_use_of(ending.program.statements(), name).is_some()),
        Line::Avoids(name) => Ok(first_use_of(ending.program.statements(), name).is_none()),
        _ => Ok(true),
    }
}

// Returns whether the end of a run meets the first of these lines.
fn is_met<A: Allocator + Copy>(
    alloc: A,
    lines: &[NumberedLine],
    ending: &Ending<A>,
) -> Result<bool, AllocError>
    requires rows { map (λ x. x.now) ending.now.rows.now ≡ asked.rows_of (memory_of ending.now.machine.now.state.bus) }
    requires marks { map (λ x. x.now) ending.now.marks.now ≡ asked.marks_of (memory_of ending.now.machine.now.state.bus) }
    ensures { IfOk result (λ met. (met ≡ true) ↔ MeetsFirst lines.now ending.now.program.now
        (end_at ending.now.machine.now.state ending.now.cause)) }
{
    match lines {
        [asked, rest @ ..] => Ok(is_met_by(alloc, asked.line, rest, ending)?),
        [] => Ok(true),
    }
}

/// Returns the index of the first of these lines that the end of a run does not meet.
pub(crate) fn first_missed<A: Allocator + Copy>(
    alloc: A,
    lines: &[NumberedLine],
    ending: &Ending<A>,
) -> Result<Option<usize>, AllocError>
    requires rows { map (λ x. x.now) ending.now.rows.now ≡ asked.rows_of (memory_of ending.now.machine.now.state.bus) }
    requires marks { map (λ x. x.now) ending.now.marks.now ≡ asked.marks_of (memory_of ending.now.machine.now.state.bus) }
    ensures { IfOk result (λ missed. MatchOption missed (MeetsAll lines.now ending.now.program.now
        (end_at ending.now.machine.now.state ending.now.cause))
        (λ n. IsFirstMissed lines.now ending.now.program.now (end_at ending.now.machine.now.state ending.now.cause) n)) }
{
    for index in 0..lines.len() {
        if !is_met(alloc, following(lines, index), ending)? {
            return Ok(Some(index));
        }
    }
    Ok(None)
}
