//! The Monitor at a terminal, with the lines and names of a source beside its answers.

ghost use Rattle.std.specs.Prelude.{◌≡◌, ◌++◌, List, ℕ, codes, None, is_some, All, IfOk, IfErr};
ghost use Rattle.a2_stream.specs.Stream.{SendsOrBreaks};
ghost use Rattle.a2_monitor.specs.SessionStates.{state_of_session};
ghost use Rattle.a2_monitor_session.specs.Besides.{IsPlain, IsBeside, IsBesideOrNoMemory};
ghost use Rattle.a2_monitor_session.specs.Monitors.{IsBegun, IsLoadError};

use crate::Monitor;
use crate::source::{Source, beside};
use a2_monitor::called_in;
use a2_run::RunFault;
use a2_stream::{Kept, Output, WriteFault, put};
use a2_text::{cut, front_len};
use a2_tty::Partner;
use std::alloc::{AllocError, Allocator, Global};
use std::cell::Cell;
use std::marker::Model;

/// The message if there is no memory for the answer.
const NO_MEMORY: &[u8] = b"NO MEMORY FOR THE ANSWER\n";

/// The Monitor on the contents of a text. It answers as [`Monitor`] does; if the text is a source, its names and lines are
/// shown beside the lines of an answer. Contracts see the Monitor.
pub struct Annotated<'k, 't, A: Allocator = Global> {
    monitor: Monitor<'k, A>,
    // `None` if the text is object lines.
    source: Option<Source<'t, A>>,
    alloc: A,
}

// Not derived, only for the prover: it treats this as one call, and a derived `drop` field by field.
impl<'k, 't, A: Allocator> Drop for Annotated<'k, 't, A> {
    fn drop(self) {
        let Annotated {
            monitor: _,
            source: _,
            alloc: _,
        } = self;
    }
}

impl<'k, 't, A: Allocator> Model for Annotated<'k, 't, A> {
    ghost use Rattle.a2_monitor_session.specs.Calls.{Attended};

    ghost Value = { Attended };

    ghost view = { λ a. a.monitor };
}

// A text up to the end of its first line.
fn first_line(text: &[u8]) -> &[u8]
    ensures { IsPlain result.now }
{
    &text[..front_len(text, |c| c != b'\n')]
}

// Appends a line, the note of the source beside it, and LF.
fn append_row<A: Allocator + Copy>(
    alloc: A,
    source: &Source<'_, A>,
    line: &[u8],
    whole: &mut Vec<u8, A>,
) -> Result<(), AllocError>
    ensures { IfOk result (λ _. (told : List ℕ) × IsPlain told
        × (whole.new.items ≡ whole.old.items ++ (line.now ++ told ++ codes "\n"))) }
{
    let told = beside(alloc, source, line)?;
    whole.extend_from_slice(line)?;
    // For the prover: neither a line nor a name contains the end of a line.
    whole.extend_from_slice(first_line(told.as_slice()))?;
    whole.extend_from_slice(b"\n")
}

// A text with the notes of the source beside its lines.
fn with_source_beside<A: Allocator + Copy>(
    alloc: A,
    source: &Source<'_, A>,
    text: &[u8],
) -> Result<Vec<u8, A>, AllocError>
    ensures { IfOk result (λ whole. IsBeside text.now whole.items) }
{
    let mut whole = Vec::new(alloc);
    let mut rest = text;
    while rest.len() > 0 {
        let end = front_len(rest, |c| c != b'\n');
        if end == rest.len() {
            whole.extend_from_slice(rest)?;
            break;
        }
        append_row(alloc, source, &rest[..end], &mut whole)?;
        rest = &rest[end + 1..];
    }
    Ok(whole)
}

// Writes a text with the notes of the source beside its lines, or a message if there is no memory for that.
fn put_beside<A: Allocator + Copy, W: Output>(
    alloc: A,
    source: &Source<'_, A>,
    text: &[u8],
    writer: &mut W,
) -> Result<(), WriteFault>
    ensures { (out : List ℕ) × IsBesideOrNoMemory text.now out × SendsOrBreaks (W.taker writer.old) (W.taker writer.new) result out }
{
    match with_source_beside(alloc, source, text) {
        Ok(whole) => put(whole.as_slice(), writer),
        Err(_) => put(NO_MEMORY, writer),
    }
}

impl<'k, 't, A: Allocator + Copy> Annotated<'k, 't, A> {
    /// Returns the same as [`Monitor::with`], on the contents of `text`: object lines, or otherwise a source. Fails if the
    /// source has errors or memory runs out.
    pub fn with(
        alloc: A,
        keyboard: Option<&'k Cell<bool>>,
        text: &'t [u8],
    ) -> Result<Annotated<'k, 't, A>, RunFault>
        ensures begun { IfOk result (λ monitor. IsBegun text.now (state_of_session monitor.session)) }
        ensures live { IfOk result (λ monitor. monitor.is_live ≡ is_some keyboard.entry) }
        ensures wait { IfOk result (λ monitor. monitor.wait ≡ None) }
        ensures refused { IfErr result (λ fault. IsLoadError text.now fault) }
    {
        let (monitor, program) = Monitor::with_program(alloc, keyboard, text)?;
        let source = match program {
            Some(program) => Some(Source {
                program,
                lines: cut(alloc, text)?,
            }),
            None => None,
        };
        Ok(Annotated {
            monitor,
            source,
            alloc,
        })
    }
}

impl<A: Allocator + Copy> Partner for Annotated<'_, '_, A> {
    ghost use Rattle.a2_monitor_session.specs.Besides.{IsAnswerBeside};

    ghost meets = { IsAnswerBeside };

    fn answer<W: Output>(&mut self, line: &[u8], writer: &mut W) -> Result<(), WriteFault> {
        let Some(source) = &self.source else {
            return self.monitor.answer(line, writer);
        };
        // The output of a program is written at once.
        if self.monitor.is_waiting() || called_in(line).is_some() {
            return self.monitor.answer(line, writer);
        }
        let mut kept = Kept::new(self.alloc);
        match self.monitor.answer(line, &mut kept) {
            Ok(()) => put_beside(self.alloc, source, kept.as_slice(), writer),
            Err(_) => put(NO_MEMORY, writer),
        }
    }
}
