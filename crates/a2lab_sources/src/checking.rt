//! The command `check`.

ghost use Rattle.std.specs.Prelude.{◌≤◌, IfOk};

use crate::authors::{put_expanded_warnings, put_unexpanded};
use a2_arguments::Arguments;
use a2_asm::Program;
use a2_authors::errors_as_written;
use a2_check::{Format, ReportFault, Verdict, put_refusals, verdict_of, warnings_of};
use a2_host::Shelf;
use a2_run::RunFault;
use a2_stream::{Input, Output, WriteFault, put, put_all};
use a2_syntax::{Fault, Source};
use a2_text::cut;
use a2lab_commands::options::CHECK_FORMAT;
use a2lab_commands::{
    CommandArgs, Expanded, Host, Reading, Refusal, Unexpanded, home_of, put_errors_at_home,
    reading_of, report_warnings, text_of,
};
use bumpalo::Bump;
use std::alloc::{AllocError, Allocator, Global};

// Returns the format that the arguments name.
fn format_in(arguments: &Arguments<'_>) -> Format {
    match arguments.text(&CHECK_FORMAT) {
        Some("short") => Format::Short,
        Some("json") => Format::Json,
        _ => Format::Long,
    }
}

// A text that is checked.
#[derive(Clone, Copy)]
struct Text<'a> {
    // The name of its file.
    name: &'a str,
    // Whether it is one of several.
    headed: bool,
    source: &'a [u8],
}

// Prints the name of a text that is one of several, if the format is long.
fn put_name<W: Output>(text: Text<'_>, format: Format, output: &mut W) -> Result<(), WriteFault> {
    if text.headed && format == Format::Long {
        put_all(&[text.name.as_bytes(), b":\n"], output)?;
    }
    Ok(())
}

// Prints the errors of a text, after a line with its name if it is one of several and the format is long.
fn put_headed<A: Allocator + Copy, W: Output>(
    alloc: A,
    text: Text<'_>,
    refusals: &[Fault],
    format: Format,
    output: &mut W,
) -> Result<(), ReportFault> {
    put_name(text, format, output)?;
    put_refusals(alloc, text.name, text.source, refusals, format, output)
}

// Prints all errors of a text, or the warnings of a text without errors. The exit status is 1 if there is an error.
fn check<W: Output, E: Output>(
    alloc: Global,
    text: Text<'_>,
    format: Format,
    output: &mut W,
    complaints: &mut E,
) -> Result<u8, ReportFault>
    ensures { IfOk result (λ status. status ≤ 5) }
{
    // The lines and the program are allocated in an arena and freed together.
    let arena = Bump::new(alloc);
    match verdict_of(&arena, text.source)? {
        Verdict::Accepted(lines, program) => {
            put_headed(&arena, text, &[], format, output)?;
            report_warnings(
                &arena,
                (text.name, text.source),
                &lines,
                &program,
                complaints,
            )?;
            Ok(0)
        }
        Verdict::Refused(refusals) => {
            put_headed(&arena, text, refusals.as_slice(), format, output)?;
            Ok(u8::from(!refusals.is_empty()))
        }
    }
}

// Returns the exit status of a check.
fn checked<'a>(done: Result<u8, ReportFault>) -> Result<u8, Refusal<'a>>
    requires { IfOk done (λ status. status ≤ 5) }
    ensures { IfOk result (λ status. status ≤ 5) }
{
    match done {
        Ok(status) => Ok(status),
        Err(ReportFault::Write) => Err(Refusal::Fault(RunFault::Write)),
        Err(ReportFault::Memory) => Err(Refusal::Fault(RunFault::Memory)),
    }
}

// Prints why a source cannot be expanded. The exit status is 1.
fn refuse_unexpanded<W: Output>(
    alloc: Global,
    text: Text<'_>,
    why: &Unexpanded,
    format: Format,
    output: &mut W,
) -> Result<u8, ReportFault>
    ensures { IfOk result (λ status. status ≤ 5) }
{
    put_name(text, format, output)?;
    put_unexpanded(alloc, format, why, output)?;
    Ok(1)
}

// Prints the errors of an expansion at the lines of the source and its files. If the errors of the source itself say more, those are printed.
fn put_errors_of_larger<S, D, C, R, W: Output, E>(
    text: Text<'_>,
    made: &Expanded,
    errors: &[Fault],
    format: Format,
    host: &mut Host<S, D, C, R, W, E>,
) -> Result<(), ReportFault> {
    let alloc = host.alloc;
    let home = home_of(alloc, made)?;
    if let Some(own) = errors_as_written(alloc, &home, text.source, errors)? {
        return put_headed(alloc, text, own.as_slice(), format, &mut host.output);
    }
    put_name(text, format, &mut host.output)?;
    put_errors_at_home(alloc, made, errors, format, &mut host.output)
}

// Prints the warnings for an expansion that is accepted, at the lines of the source.
fn warn_of_larger<A: Allocator + Copy, S, D, C, R, W, E: Output>(
    alloc: A,
    made: &Expanded,
    lines: &Source<A>,
    program: &Program<A>,
    host: &mut Host<S, D, C, R, W, E>,
) -> Result<(), AllocError> {
    // If this fails, there is no place left to report it.
    let _ = put(made.warnings.as_slice(), &mut host.complaints);
    let texts = cut(alloc, made.text.as_slice())?;
    let warnings = warnings_of(alloc, texts.as_slice(), lines.lines(), program)?;
    put_expanded_warnings(host.alloc, made, warnings.as_slice(), &mut host.complaints)
}

// Checks the expansion of a source in the larger language, and returns the exit status.
fn check_larger<S, D, C, R, W: Output, E: Output>(
    text: Text<'_>,
    made: &Expanded,
    format: Format,
    host: &mut Host<S, D, C, R, W, E>,
) -> Result<u8, ReportFault>
    ensures { IfOk result (λ status. status ≤ 5) }
{
    // The lines and the program are allocated in an arena and freed together.
    let arena = Bump::new(host.alloc);
    match verdict_of(&arena, made.text.as_slice())? {
        Verdict::Accepted(lines, program) => {
            put_headed(&arena, text, &[], format, &mut host.output)?;
            warn_of_larger(&arena, made, &lines, &program, host)?;
            Ok(0)
        }
        Verdict::Refused(errors) => {
            put_errors_of_larger(text, made, errors.as_slice(), format, host)?;
            Ok(1)
        }
    }
}

// Checks a file, or standard input, and returns the exit status. `headed` says that it is one of several.
fn check_text<'a, S: Shelf, D, C, R: Input, W: Output, E: Output>(
    format: Format,
    file: Option<&'a str>,
    headed: bool,
    host: &mut Host<S, D, C, R, W, E>,
) -> Result<u8, Refusal<'a>>
    ensures { IfOk result (λ status. status ≤ 5) }
{
    let alloc = host.alloc;
    let source = text_of(alloc, file, &mut host.shelf, &mut host.input)?;
    let text = Text {
        name: file.unwrap_or("-"),
        headed,
        source: source.as_slice(),
    };
    checked(
        match reading_of(alloc, file, source.as_slice(), &mut host.shelf)? {
            Reading::Larger(made) => check_larger(text, &made, format, host),
            Reading::Failed(why) => refuse_unexpanded(alloc, text, &why, format, &mut host.output),
            Reading::Plain => check(alloc, text, format, &mut host.output, &mut host.complaints),
        },
    )
}

/// Prints the errors of the files that the arguments name, or of standard input. The exit status is the greatest of those of the files:
/// 1 if one has an error, 4 if a file cannot be opened or a read or write fails, and 5 if there is no memory.
#[inline(never)]
pub fn check_of<'a, S: Shelf, D, C, R: Input, W: Output, E: Output>(
    given: &CommandArgs<'_, 'a>,
    host: &mut Host<S, D, C, R, W, E>,
) -> Result<u8, Refusal<'a>>
    ensures { IfOk result (λ status. status ≤ 5) }
{
    let format = format_in(given.arguments);
    let files = given.arguments.files.as_slice();
    if files.is_empty() {
        return check_text(format, None, false, host);
    }
    let headed = files.len() > 1;
    let mut status = 0;
    for file in files {
        let one = match check_text(format, Some(*file), headed, host) {
            Ok(one) => one,
            Err(refusal) => refusal.report(&mut host.complaints),
        };
        status = one.max(status);
    }
    Ok(status)
}
