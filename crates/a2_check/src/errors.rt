//! The errors of a source, each with its place and its sentences.

use crate::beside::{with_others, without_unread};
use crate::checked::{Checked, line_at};
use crate::forms::put_forms;
use crate::message::{FilledSentence, shown};
use crate::probe::with_values;
use a2_asm::refused;
use a2_stream::{Kept, Output, WriteFault, put};
use a2_syntax::{Fault, Line, parse};
use a2_text::{cut, decimal};
use std::alloc::{AllocError, Allocator, Global};

/// An error of a source.
#[derive(Drop)]
pub struct SourceError<A: Allocator = Global> {
    /// Which file it is in: 0 is the source itself; a source in the larger language may include others.
    pub file: usize,
    /// The number of its line, counted from 1, or 0 if it is an error of the whole source.
    pub line: usize,
    /// The column of its place, counted from 1, or 0 if it is an error of the whole source.
    pub column: usize,
    /// How many characters are marked, at least 1.
    pub width: usize,
    /// Its code, from E1 to E12, or nothing if it has none.
    pub code: &'static str,
    /// What is wrong.
    pub text: Vec<u8, A>,
    /// How to fix it.
    pub fix: Vec<u8, A>,
}

// Returns the code of an error, as users see it.
fn code(fault: Fault) -> &'static str {
    match fault {
        Fault::TooLarge(_) => "E1",
        Fault::Syntax(_) => "E2",
        Fault::TooManyNames(_) => "E3",
        Fault::Duplicate(_) => "E4",
        Fault::Unknown(_) => "E5",
        Fault::Forward(_) => "E6",
        Fault::NoMode(_) => "E7",
        Fault::Range(_) => "E8",
        Fault::Branch(_) => "E9",
        Fault::Outside(_) => "E10",
        Fault::Overlap(_) => "E11",
        Fault::NoCode | Fault::Memory => "E12",
    }
}

/// Writes bytes as shown characters.
pub(crate) fn put_shown<W: Output>(text: &[u8], writer: &mut W) -> Result<(), WriteFault> {
    for c in text {
        put(&[shown(*c)], writer)?;
    }
    Ok(())
}

// Writes a byte of a sentence, or the text that it is the placeholder for.
fn put_marked<W: Output>(
    c: u8,
    filled: FilledSentence<'_>,
    writer: &mut W,
) -> Result<(), WriteFault> {
    match c {
        b'@' => put_shown(filled.first, writer),
        b'~' => put_shown(filled.second, writer),
        b'#' => put(decimal(u64::from(filled.number)).as_slice(), writer),
        _ => put_shown(&[c], writer),
    }
}

// Writes a sentence with its placeholders replaced.
fn put_sentence<W: Output>(filled: FilledSentence<'_>, writer: &mut W) -> Result<(), WriteFault> {
    for c in filled.sentence {
        put_marked(*c, filled, writer)?;
    }
    match filled.forms {
        Some(mnemonic) => put_forms(mnemonic, writer),
        None => Ok(()),
    }
}

// Returns a sentence with its placeholders replaced.
fn sentence<A: Allocator + Copy>(
    alloc: A,
    filled: FilledSentence<'_>,
) -> Result<Vec<u8, A>, AllocError> {
    let mut text = Kept::new(alloc);
    match put_sentence(filled, &mut text) {
        Ok(()) => Vec::from_slice(alloc, text.as_slice()),
        Err(_) => Err(AllocError),
    }
}

// Returns an error with its place and its sentences.
fn error_of<A: Allocator + Copy>(
    alloc: A,
    checked: &Checked<'_, A>,
    fault: Fault,
) -> Result<SourceError<A>, AllocError> {
    let line = usize::from(fault.line());
    let message = checked.message(alloc, fault)?;
    Ok(SourceError {
        file: 0,
        line,
        column: if line == 0 {
            0
        } else {
            message.at.saturating_add(1)
        },
        width: message.width.max(1),
        code: code(fault),
        text: sentence(alloc, message.problem())?,
        fix: sentence(alloc, message.fix_sentence())?,
    })
}

// Returns the errors of a source with these lines. `read` is the text of `lines`: the source, or the source with empty lines in place of
// those that are not in the grammar.
fn of_lines<'a, A: Allocator + Copy>(
    alloc: A,
    source: &'a [u8],
    read: &[u8],
    lines: &'a [Line<A>],
    refusals: &[Fault],
) -> Result<Vec<SourceError<A>, A>, AllocError> {
    let texts = cut(alloc, source)?;
    let read = cut(alloc, read)?;
    let values = with_values(alloc, read.as_slice(), lines, refusals)?;
    let checked = Checked {
        source,
        texts: texts.as_slice(),
        lines,
        values: values.as_ref(),
    };
    let mut errors = Vec::new(alloc);
    for fault in refusals {
        errors.push(error_of(alloc, &checked, *fault)?)?;
    }
    Ok(errors)
}

// Returns the errors of a source that has lines that are not in the grammar, and those of its other lines that no fix of these can change.
// If the source is too large, there is no other error.
fn of_text<A: Allocator + Copy>(
    alloc: A,
    source: &[u8],
    refusals: &[Fault],
) -> Result<Vec<SourceError<A>, A>, AllocError> {
    let texts = cut(alloc, source)?;
    let read = without_unread(alloc, texts.as_slice(), refusals)?;
    let read = read.as_slice();
    match parse(alloc, read) {
        Ok(parsed) => {
            let all = with_others(alloc, texts.as_slice(), &parsed, refusals)?;
            of_lines(alloc, source, read, parsed.lines(), all.as_slice())
        }
        Err(fault) => {
            refused(fault)?;
            of_lines(alloc, source, read, &[], refusals)
        }
    }
}

/// Returns these errors of `source`, each with its place, what is wrong, and how to fix it. After errors of lines that are not in the grammar
/// come those of other lines that no fix of these lines can change. Fails only if there is not enough memory. This project's profile.
pub fn errors_of<A: Allocator + Copy>(
    alloc: A,
    source: &[u8],
    refusals: &[Fault],
) -> Result<Vec<SourceError<A>, A>, AllocError> {
    if refusals.is_empty() {
        return Ok(Vec::new(alloc));
    }
    match parse(alloc, source) {
        Ok(parsed) => of_lines(alloc, source, source, parsed.lines(), refusals),
        Err(fault) => {
            refused(fault)?;
            of_text(alloc, source, refusals)
        }
    }
}
