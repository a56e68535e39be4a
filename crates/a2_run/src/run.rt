//! Runs or assembles the text of a reader.

ghost use Rattle.std.specs.Prelude.{◌≡◌, IfOk, IfSome, take};
ghost use Rattle.a2_stream.specs.Stream.{count_after, TakesAtMost};
ghost use Rattle.a2_run.specs.Answers.{read_of, Answers, LeavesBehind, OfSource, RestsOnTexts, is_read_fault};
ghost use Rattle.a2_run.specs.Answers.{is_unread, is_write_fault, NothingSent};
ghost use Rattle.a2_run.specs.Meaning.{IsRefused, IsRun, AreObjectLines};
ghost use Rattle.a2_run.specs.Status.{status_of, fault_status as status_of_fault};

use crate::fault::ReadingFault;
use crate::sources::{assemble_source, run_source};
use crate::{Options, RunFault};
use a2_bus::Keys;
use a2_machine::Cause;
use a2_stream::{Input, Output, fill};
use a2_syntax::Fault;
use std::alloc::Allocator;

/// How many bytes are read at most: one more than a text may have.
const MOST_READ: usize = 65_537;

/// Reads a text up to its end, but at most `most` bytes, and allocates memory for all of these first. Fails if a read fails, or if
/// there is not enough memory.
pub fn read_front<A: Allocator + Copy, R: Input>(
    alloc: A,
    reader: &mut R,
    most: usize,
) -> Result<Vec<u8, A>, ReadingFault>
    ensures text { IfOk result (λ text. IfSome (R.giver reader.old).bytes (λ input. text.items ≡ take most input)) }
    ensures front { TakesAtMost most (R.giver reader.old) (R.giver reader.new) }
    ensures through { IfOk result (λ _. LeavesBehind most (R.giver reader.old) (R.giver reader.new)) }
    ensures counted { (R.giver reader.new).failures ≡ count_after (is_unread result) (R.giver reader.old).failures }
{
    let mut text = Vec::from_elem(alloc, 0u8, most)?;
    let filled = fill(text.as_mut_slice(), reader)?;
    text.truncate(filled);
    Ok(text)
}

/// Reads a text as [`read_front`] does, but at most 65,537 bytes: one more than a text may have, to show that it is too long.
pub fn read_text<A: Allocator + Copy, R: Input>(
    alloc: A,
    reader: &mut R,
) -> Result<Vec<u8, A>, ReadingFault>
    ensures text { IfOk result (λ text. IfSome (R.giver reader.old).bytes (λ input. text.items ≡ read_of input)) }
    ensures front { TakesAtMost 65537 (R.giver reader.old) (R.giver reader.new) }
    ensures through { IfOk result (λ _. LeavesBehind 65537 (R.giver reader.old) (R.giver reader.new)) }
    ensures counted { (R.giver reader.new).failures ≡ count_after (is_unread result) (R.giver reader.old).failures }
{
    read_front(alloc, reader, MOST_READ)
}

/// Assembles and runs the source that the reader gives, with these keys waiting. Writes the picture, the register line and the cause
/// line, all in one write if the writer accepts that. `limit` is the most steps. Fails if the source has an error, if a read or write
/// fails, or if there is not enough memory.
pub fn run_text<A: Allocator + Copy, R: Input, W: Output>(
    alloc: A,
    reader: &mut R,
    keys: &Keys,
    limit: u32,
    options: Options,
    writer: &mut W,
) -> Result<Cause, RunFault>
    // What is written is the meaning of what is read.
    ensures meaning { IfSome (R.giver reader.old).bytes (λ input.
        Answers (OfSource (IsRefused input)) (IsRun input keys.now limit options) (W.taker writer.old) (W.taker writer.new) result) }
    // Nothing is read past the 65,537th byte.
    ensures front { TakesAtMost 65537 (R.giver reader.old) (R.giver reader.new) }
    // And everything up to there is read, unless a read fails or there is not enough memory.
    ensures through { RestsOnTexts result → LeavesBehind 65537 (R.giver reader.old) (R.giver reader.new) }
    // Whatever the reader gives, any fault except one of the writer means that nothing was written.
    ensures silent { NothingSent (W.taker writer.old) (W.taker writer.new) result }
    // The fault is of the reader or writer if and only if one of its calls failed.
    ensures reader { (R.giver reader.new).failures ≡ count_after (is_read_fault result) (R.giver reader.old).failures }
    ensures writer { (W.taker writer.new).failures ≡ count_after (is_write_fault result) (W.taker writer.old).failures }
{
    let text = read_text(alloc, reader)?;
    run_source(alloc, text.as_slice(), keys, limit, options, writer)
}

/// Assembles the source that the reader gives and writes its object lines. Fails if the source has an error, if a read or write fails,
/// or if there is not enough memory.
pub fn asm_text<A: Allocator + Copy, R: Input, W: Output>(
    alloc: A,
    reader: &mut R,
    writer: &mut W,
) -> Result<(), RunFault>
    // What is written is the meaning of what is read.
    ensures meaning { IfSome (R.giver reader.old).bytes (λ input.
        Answers (OfSource (IsRefused input)) (λ _. AreObjectLines input) (W.taker writer.old) (W.taker writer.new) result) }
    // Nothing is read past the 65,537th byte.
    ensures front { TakesAtMost 65537 (R.giver reader.old) (R.giver reader.new) }
    // And everything up to there is read, unless a read fails or there is not enough memory.
    ensures through { RestsOnTexts result → LeavesBehind 65537 (R.giver reader.old) (R.giver reader.new) }
    // Whatever the reader gives, any fault except one of the writer means that nothing was written.
    ensures silent { NothingSent (W.taker writer.old) (W.taker writer.new) result }
    // The fault is of the reader or writer if and only if one of its calls failed.
    ensures reader { (R.giver reader.new).failures ≡ count_after (is_read_fault result) (R.giver reader.old).failures }
    ensures writer { (W.taker writer.new).failures ≡ count_after (is_write_fault result) (W.taker writer.old).failures }
{
    let text = read_text(alloc, reader)?;
    assemble_source(alloc, text.as_slice(), writer)
}

/// Returns the exit status for a fault: 1 for an error in a source or script, 4 for a failed read or write, 5 if there is not enough
/// memory.
pub fn fault_status(fault: &RunFault) -> u8
    ensures { result ≡ status_of_fault fault.now }
{
    match fault {
        RunFault::Memory | RunFault::Source(Fault::Memory) | RunFault::Script(Fault::Memory) => 5,
        RunFault::Source(_) | RunFault::Script(_) => 1,
        RunFault::Read | RunFault::Write => 4,
    }
}

/// Returns the exit status of a run: 0 if it ended by itself, 3 for another stop, and otherwise that of the fault.
pub fn status(answer: &Result<Cause, RunFault>) -> u8
    ensures { result ≡ status_of answer.now }
{
    match answer {
        Ok(cause) if cause.is_normal_end() => 0,
        Ok(_) => 3,
        Err(fault) => fault_status(fault),
    }
}
