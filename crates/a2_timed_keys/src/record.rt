//! Reads and writes the keys of a session, with their steps, as a text.

ghost use Rattle.std.specs.Prelude.{◌≡◌, ◌<◌, ◌++◌, IfOk, IfSome};
ghost use Rattle.a2_stream.specs.Stream.{SendsOrBreaks};
ghost use Rattle.a2_timed_keys.specs.Records.{key_line, end_line, record_text};

use crate::strokes::{Strokes, Typed};
use a2_stream::{Output, WriteFault, put, put_all};
use a2_text::{cut, decimal, first_word, hex_pair, number_in};
use std::alloc::{AllocError, Allocator, Global};

/// What was typed in a session, and how many steps it ran.
#[derive(Drop)]
pub struct Record<A: Allocator = Global> {
    /// The keys, each with the steps after which it was typed.
    pub log: Strokes<A>,
    /// How many steps the session ran.
    pub end: u64,
}

/// Why a text is not a record.
#[derive(Clone, Copy, Debug, PartialEq, Eq)]
pub enum RecordFault {
    /// The line with this number, from 1, is not valid, or is missing.
    Line(usize),
    /// Memory is short.
    Memory,
}

impl From<AllocError> for RecordFault {
    ghost use Rattle.a2_timed_keys.specs.declared.record.RecordFault.TheVariants.{Memory};

    ghost from_gives = { λ _ e. e ≡ Memory };

    fn from(_fault: AllocError) -> RecordFault {
        RecordFault::Memory
    }
}

// Writes the line of a key.
fn put_key<W: Output>(typed: &Typed, writer: &mut W) -> Result<(), WriteFault>
    ensures { SendsOrBreaks (W.taker writer.old) (W.taker writer.new) result (key_line typed.now) }
{
    put_all(
        &[
            decimal(typed.steps).as_slice(),
            b" ",
            &hex_pair(typed.key),
            b"\n",
        ],
        writer,
    )
}

// Writes the line of the end.
fn put_end<W: Output>(end: u64, writer: &mut W) -> Result<(), WriteFault>
    ensures { SendsOrBreaks (W.taker writer.old) (W.taker writer.new) result (end_line end) }
{
    put_all(&[decimal(end).as_slice(), b" END\n"], writer)
}

/// Writes a record. For each key of `log` it has a line with the number of steps before the key, a blank, and the
/// key's code as two hexadecimal digits. The last line has the number of steps at the end, a blank, and `END`.
pub fn put_record<W: Output>(log: &[Typed], end: u64, writer: &mut W) -> Result<(), WriteFault>
    ensures { SendsOrBreaks (W.taker writer.old) (W.taker writer.new) result (record_text log.now end) }
{
    for typed in log {
        put_key(typed, writer)?;
    }
    put_end(end, writer)
}

// Returns a number of steps, given as decimal digits.
fn steps_in(word: &[u8]) -> Option<u64> {
    match word {
        [b'0'..=b'9', ..] => std::str::from_utf8(word).ok()?.parse().ok(),
        _ => None,
    }
}

// Returns the code of a key, given as two hexadecimal digits and below $80.
fn key_in(word: &[u8]) -> Option<u8>
    ensures { IfSome result (λ key. key < 128) }
{
    match number_in(16, 2, word) {
        Some(key) if key < 128 => Some(key as u8),
        _ => None,
    }
}

// Returns the two fields of a line.
fn two_words(line: &[u8]) -> Option<(&[u8], &[u8])> {
    let (first, following) = first_word(line)?;
    let (second, following) = first_word(following)?;
    match first_word(following) {
        Some(_) => None,
        None => Some((first, second)),
    }
}

// Returns the key that a line describes.
fn typed_in(line: &[u8]) -> Option<Typed>
    ensures { IfSome result (λ typed. typed.key < 128) }
{
    let (steps, key) = two_words(line)?;
    Some(Typed {
        steps: steps_in(steps)?,
        key: key_in(key)?,
    })
}

// Returns the steps that the last line gives.
fn end_in(line: &[u8]) -> Option<u64> {
    match two_words(line)? {
        (steps, b"END") => steps_in(steps),
        _ => None,
    }
}

/// Returns the contents of a record. Fails if a line is not one of a record, or if memory is short.
pub fn record_of<A: Allocator + Copy>(alloc: A, text: &[u8]) -> Result<Record<A>, RecordFault> {
    let lines = cut(alloc, text)?;
    let mut log = Strokes::new(alloc);
    for (number, line) in lines.as_slice().iter().enumerate() {
        if let Some(end) = end_in(line) {
            return if number + 1 == lines.len() {
                Ok(Record { log, end })
            } else {
                Err(RecordFault::Line(number + 2))
            };
        }
        match typed_in(line) {
            Some(typed) => log.note(typed)?,
            None => return Err(RecordFault::Line(number + 1)),
        }
    }
    Err(RecordFault::Line(lines.len() + 1))
}
