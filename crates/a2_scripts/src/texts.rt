//! Reading a script and writing its answers.

ghost use Rattle.std.specs.Prelude.{◌≡◌, IfSome};
ghost use Rattle.a2_stream.specs.Stream.{count_after, TakesAtMost};
ghost use Rattle.a2_run.specs.Answers.{Answers, LeavesBehind, RestsOnTexts, is_read_fault};
ghost use Rattle.a2_run.specs.Answers.{is_write_fault, NothingSent};
ghost use Rattle.a2_scripts.specs.Scripts.{IsMonText, IsScriptError, OfScript};
ghost use Rattle.a2_scripts.specs.DebugScripts.{IsDebugError, IsDebugText, ReadsFail};

use crate::debugging::debug_script;
use crate::scripts::answer_script;
use a2_run::{RunFault, read_text};
use a2_stream::{Input, Output};
use std::alloc::Allocator;

/// Answers the Monitor lines of the script that the reader returns. For each line it writes `*`, the line, LF, and its
/// answer or its error. Fails if the script is over the limits, if a read or a write fails, or if memory runs out.
pub fn mon_text<A: Allocator + Copy, R: Input, W: Output>(
    alloc: A,
    reader: &mut R,
    writer: &mut W,
) -> Result<(), RunFault>
    // What is written is the meaning of what is read.
    ensures meaning { IfSome (R.giver reader.old).bytes (λ input.
        Answers (OfScript (IsScriptError input)) (λ _. IsMonText input) (W.taker writer.old) (W.taker writer.new) result) }
    // Nothing is read after the 65,537th byte.
    ensures front { TakesAtMost 65537 (R.giver reader.old) (R.giver reader.new) }
    // Everything up to there is read, unless a read fails or memory runs out.
    ensures through { RestsOnTexts result → LeavesBehind 65537 (R.giver reader.old) (R.giver reader.new) }
    // Whatever the reader returns, an error other than that of the writer means that nothing was written.
    ensures silent { NothingSent (W.taker writer.old) (W.taker writer.new) result }
    // An error of the reader or writer is returned exactly if one of its calls failed.
    ensures reader { (R.giver reader.new).failures ≡ count_after (is_read_fault result) (R.giver reader.old).failures }
    ensures writer { (W.taker writer.new).failures ≡ count_after (is_write_fault result) (W.taker writer.old).failures }
{
    let text = read_text(alloc, reader)?;
    answer_script(alloc, text.as_slice(), writer)
}

/// Debugs the program of the source that the first reader returns, with the debugger lines of the script that the
/// second reader returns. For each line it writes `>`, the line, LF, and its answer, or its error and LF. Both texts
/// are read before any error is returned. Fails if the source has errors; if it has none and the script is over the
/// limits of a source; if a read or a write fails; and if memory runs out. This project's profile.
pub fn debug_text<A: Allocator + Copy, R: Input, S: Input, W: Output>(
    alloc: A,
    source: &mut R,
    script: &mut S,
    writer: &mut W,
) -> Result<(), RunFault>
    // What is written is the meaning of what is read.
    ensures meaning { IfSome (R.giver source.old).bytes (λ text. IfSome (S.giver script.old).bytes (λ lines.
        Answers (IsDebugError text lines) (λ _. IsDebugText text lines) (W.taker writer.old) (W.taker writer.new) result)) }
    // Nothing is read after the 65,537th byte of either text.
    ensures fronts { TakesAtMost 65537 (R.giver source.old) (R.giver source.new)
        × TakesAtMost 65537 (S.giver script.old) (S.giver script.new) }
    // Everything in both texts up to there is read, unless a read fails or memory runs out. This is also true if the
    // source has errors.
    ensures through { RestsOnTexts result → LeavesBehind 65537 (R.giver source.old) (R.giver source.new)
        × LeavesBehind 65537 (S.giver script.old) (S.giver script.new) }
    // Whatever the readers return, an error other than that of the writer means that nothing was written.
    ensures silent { NothingSent (W.taker writer.old) (W.taker writer.new) result }
    // An error of a reader or of the writer is returned exactly if one of its calls failed.
    ensures readers { ReadsFail (is_read_fault result) (R.giver source.old) (R.giver source.new) (S.giver script.old)
        (S.giver script.new) }
    ensures writer { (W.taker writer.new).failures ≡ count_after (is_write_fault result) (W.taker writer.old).failures }
{
    let text = read_text(alloc, source)?;
    let lines = read_text(alloc, script)?;
    debug_script(alloc, text.as_slice(), lines.as_slice(), writer)
}
