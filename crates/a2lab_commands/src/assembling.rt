//! The source of a command, assembled, or its errors.

ghost use Rattle.std.specs.Prelude.{◌≡◌, IfOk};
ghost use Rattle.a2_run.specs.Meaning.{IsProgramOf};

use crate::refusal::Refusal;
use a2_asm::Program;
use a2_check::{Format, put_refusals, put_warnings, refusals_of, warnings_of};
use a2_run::{AssembledText, RunFault};
use a2_stream::Output;
use a2_syntax::Source;
use a2_text::cut;
use std::alloc::{AllocError, Allocator, Global};

/// Reports all errors of `text`, the source `name`, as `check` does, and returns the error that ends the command.
pub fn report_source_errors<'a, E: Output>(
    alloc: Global,
    name: Option<&str>,
    text: &[u8],
    complaints: &mut E,
) -> Refusal<'a> {
    let Ok(errors) = refusals_of(alloc, text) else {
        return Refusal::Fault(RunFault::Memory);
    };
    let (name, errors) = (name.unwrap_or("-"), errors.as_slice());
    // If this fails, there is no place left to report it.
    let _ = put_refusals(alloc, name, text, errors, Format::Long, complaints);
    Refusal::Reported
}

/// Reports the warnings for a source that is accepted, given its name and its text, its lines and its program.
pub fn report_warnings<A: Allocator + Copy, E: Output>(
    alloc: A,
    (name, text): (&str, &[u8]),
    lines: &Source<A>,
    program: &Program<A>,
    complaints: &mut E,
) -> Result<(), AllocError> {
    let texts = cut(alloc, text)?;
    let warnings = warnings_of(alloc, texts.as_slice(), lines.lines(), program)?;
    // If this fails, there is no place left to report it.
    let _ = put_warnings(name, texts.as_slice(), warnings.as_slice(), complaints);
    Ok(())
}

/// Reports the warnings for an assembled source, as `check` does.
pub fn report_warnings_of<E: Output>(
    alloc: Global,
    name: Option<&str>,
    assembled: &AssembledText<'_>,
    complaints: &mut E,
) -> Result<(), AllocError> {
    let source = (name.unwrap_or("-"), assembled.text());
    let (lines, program) = (assembled.source(), assembled.program());
    report_warnings(alloc, source, lines, program, complaints)
}

/// Assembles `text`, the source `name`. If it has errors, reports all of them as `check` does.
pub fn assembled_text<'t, 'a, E: Output>(
    alloc: Global,
    name: Option<&str>,
    text: &'t [u8],
    complaints: &mut E,
) -> Result<AssembledText<'t>, Refusal<'a>>
    ensures text { IfOk result (λ assembled. assembled.text ≡ text.now) }
    ensures made { IfOk result (λ assembled. IsProgramOf text.now assembled.program) }
{
    match AssembledText::of(alloc, text) {
        Ok(assembled) => Ok(assembled),
        Err(RunFault::Source(_)) => Err(report_source_errors(alloc, name, text, complaints)),
        Err(fault) => Err(Refusal::Fault(fault)),
    }
}
