//! The command `fmt`: its arguments, and what is done with each text.

ghost use Rattle.std.specs.Prelude.{◌≡◌, ◌≤◌, IfOk, IfErr};
ghost use Rattle.a2_fmt.specs.Formatted.{CanBeFormatted, IsFormatFault};
ghost use Rattle.a2_fmt.specs.Layout.{laid};
ghost use Rattle.a2lab_sources.specs.Columns.{Shows, Names, Rewrites};

use crate::columns::larger_columns;
use a2_arguments::Arguments;
use a2_check::{Format, ReportFault, put_refusals, refusals_of};
use a2_fmt::{FormatFault, format_source};
use a2_host::{Desk, Shelf};
use a2_run::RunFault;
use a2_stream::{Input, Output, WriteFault, put, put_all};
use a2lab_commands::options::{CHECK, WRITE};
use a2lab_commands::{
    CommandArgs, Host, Message, Reading, Refusal, Value, is_input, reading_of, report, settled,
    text_of,
};
use std::alloc::Global;

// The exit status if a text is not in columns.
const NOT_IN_COLUMNS: u8 = 6;

/// What is done with a text.
#[derive(Clone, Copy)]
pub enum Way {
    /// It is printed in columns.
    Show,
    /// Its name is printed if it is not in columns.
    Check,
    /// Its file is replaced by it in columns.
    Rewrite,
}

// Whether one of these files is standard input.
fn has_input(files: &[&str]) -> bool {
    for file in files {
        if is_input(*file) {
            return true;
        }
    }
    false
}

// Returns what is done with the files. Without a file, and for `-`, standard input is read. Several files cannot be printed, and `-w`
// needs files other than standard input.
fn way_in<'a>(arguments: &Arguments<'a>) -> Result<Way, Refusal<'a>> {
    let files = arguments.files.as_slice();
    match (arguments.has(&CHECK), arguments.has(&WRITE)) {
        (true, true) => Err(Refusal::new(Message::CheckWithWrite)),
        (true, false) => Ok(Way::Check),
        (false, true) if files.is_empty() || has_input(files) => {
            Err(Refusal::new(Message::WriteWithoutFiles))
        }
        (false, true) => Ok(Way::Rewrite),
        (false, false) if files.len() > 1 => Err(Refusal::new(Message::SeveralFiles)),
        (false, false) => Ok(Way::Show),
    }
}

/// Why a text is not laid out.
#[derive(Clone, Copy)]
pub enum FmtFault {
    /// The text cannot be laid out.
    Layout(FormatFault),
    /// A write failed.
    Write,
}

impl From<FormatFault> for FmtFault {
    ghost use Rattle.a2lab_sources.specs.declared.fmt.FmtFault.TheVariants.{Layout};

    ghost from_gives = { λ given fault. fault ≡ Layout given };

    fn from(fault: FormatFault) -> FmtFault {
        FmtFault::Layout(fault)
    }
}

impl From<WriteFault> for FmtFault {
    ghost use Rattle.a2lab_sources.specs.declared.fmt.FmtFault.TheVariants.{Write};

    ghost from_gives = { λ _ fault. fault ≡ Write };

    fn from(_fault: WriteFault) -> FmtFault {
        FmtFault::Write
    }
}

// Returns a text in columns.
#[tactic(auto, using(crate::proofs::ColumnLaws::can_be_laid))]
fn columns_of(alloc: Global, text: &[u8]) -> Result<Vec<u8>, FormatFault>
    ensures laid { IfOk result (λ columns. columns.items ≡ laid text.now) }
    ensures same { IfOk result (λ _. CanBeFormatted text.now) }
    ensures refused { IfErr result (λ fault. IsFormatFault text.now fault) }
{
    format_source(alloc, text)
}

/// Prints a text in columns. Fails without printing if it cannot be laid out, and if a write fails.
#[tactic(auto, using(crate::proofs::ColumnLaws::sends_laid, crate::proofs::ColumnLaws::breaks_laid))]
pub fn show_columns<W: Output>(alloc: Global, text: &[u8], output: &mut W) -> Result<(), FmtFault>
    ensures { Shows text.now (W.taker output.old) (W.taker output.new) result }
{
    let columns = columns_of(alloc, text)?;
    put(columns.as_slice(), output)?;
    Ok(())
}

/// Prints the name of a text unless it is in columns, and returns whether it is. Fails without printing if the text cannot be laid out,
/// and if a write fails.
pub fn name_other<W: Output>(
    alloc: Global,
    name: &str,
    text: &[u8],
    output: &mut W,
) -> Result<bool, FmtFault>
    ensures { Names name.now text.now (W.taker output.old) (W.taker output.new) result }
{
    let columns = columns_of(alloc, text)?;
    if text == columns.as_slice() {
        return Ok(true);
    }
    put_all(&[name.as_bytes(), b"\n"], output)?;
    Ok(false)
}

/// Replaces the file `name`, which has this text, by the text in columns, unless it is in columns already. The file is replaced whole or
/// not at all.
#[tactic(auto, using(crate::proofs::ColumnLaws::saves_laid))]
pub fn rewrite<D: Desk>(
    alloc: Global,
    name: &str,
    text: &[u8],
    desk: &mut D,
) -> Result<(), FmtFault>
    ensures { Rewrites name.now text.now (D.files desk.old) (D.files desk.new) result }
{
    let columns = columns_of(alloc, text)?;
    if columns.as_slice() == text {
        return Ok(());
    }
    let mut draft = desk.begin(name)?;
    let answer = put(columns.as_slice(), &mut draft);
    settled(name, draft, answer, desk)?;
    Ok(())
}

// Prints the errors of a text, and returns the exit status.
fn report_refusals<'a, E: Output>(
    alloc: Global,
    name: &'a str,
    text: &[u8],
    complaints: &mut E,
) -> Result<u8, Refusal<'a>>
    ensures { IfOk result (λ status. status ≤ 6) }
{
    let refusals = refusals_of(alloc, text)?;
    match put_refusals(
        alloc,
        name,
        text,
        refusals.as_slice(),
        Format::Short,
        complaints,
    ) {
        Ok(()) => Ok(1),
        Err(ReportFault::Write) => Ok(4),
        Err(ReportFault::Memory) => Err(Refusal::Fault(RunFault::Memory)),
    }
}

// Reports why a text is not laid out, and returns the exit status.
fn report_fmt_fault<'a, E: Output>(
    alloc: Global,
    name: &'a str,
    text: &[u8],
    fault: FmtFault,
    complaints: &mut E,
) -> Result<u8, Refusal<'a>>
    ensures { IfOk result (λ status. status ≤ 6) }
{
    match fault {
        FmtFault::Layout(FormatFault::Source(_)) => report_refusals(alloc, name, text, complaints),
        FmtFault::Layout(FormatFault::Unlike) => {
            report(Message::CannotLayOut, &[Value::Text(name)], complaints);
            Ok(1)
        }
        FmtFault::Layout(FormatFault::Memory) => Err(Refusal::Fault(RunFault::Memory)),
        FmtFault::Write => Err(Refusal::Fault(RunFault::Write)),
    }
}

// Does what is asked for with a source of the larger language in columns, and returns the exit status.
fn put_columns<S, D: Desk, C, R, W: Output, E>(
    way: Way,
    name: &str,
    text: &[u8],
    columns: &[u8],
    host: &mut Host<S, D, C, R, W, E>,
) -> Result<u8, WriteFault>
    ensures { IfOk result (λ status. status ≤ 6) }
{
    match way {
        Way::Show => put(columns, &mut host.output)?,
        Way::Check => {
            if columns != text {
                put_all(&[name.as_bytes(), b"\n"], &mut host.output)?;
                return Ok(NOT_IN_COLUMNS);
            }
        }
        Way::Rewrite => {
            if columns != text {
                let mut draft = host.desk.begin(name)?;
                let answer = put(columns, &mut draft);
                settled(name, draft, answer, &mut host.desk)?;
            }
        }
    }
    Ok(0)
}

// Lays out a source of the larger language, and returns the exit status.
fn fmt_larger<'a, S: Shelf, D: Desk, C, R, W: Output, E: Output>(
    way: Way,
    file: Option<&'a str>,
    text: &[u8],
    host: &mut Host<S, D, C, R, W, E>,
) -> Result<u8, Refusal<'a>>
    ensures { IfOk result (λ status. status ≤ 6) }
{
    let name = file.unwrap_or("-");
    match larger_columns(host.alloc, file, text, &mut host.shelf)? {
        Some(columns) => Ok(put_columns(way, name, text, columns.as_slice(), host)?),
        None => {
            report(
                Message::CannotLayOut,
                &[Value::Text(name)],
                &mut host.complaints,
            );
            Ok(1)
        }
    }
}

// Lays out a source that is not a plain one, or reports its errors, and returns the exit status.
fn fmt_other<'a, S: Shelf, D: Desk, C, R, W: Output, E: Output>(
    way: Way,
    file: Option<&'a str>,
    text: &[u8],
    host: &mut Host<S, D, C, R, W, E>,
) -> Result<u8, Refusal<'a>>
    ensures { IfOk result (λ status. status ≤ 6) }
{
    match reading_of(host.alloc, file, text, &mut host.shelf)? {
        Reading::Larger(_) => fmt_larger(way, file, text, host),
        Reading::Failed(why) => {
            // If this fails, there is no place left to report it.
            let _ = put(why.message.as_slice(), &mut host.complaints);
            Ok(1)
        }
        Reading::Plain => {
            let name = file.unwrap_or("-");
            report_refusals(host.alloc, name, text, &mut host.complaints)
        }
    }
}

// Does what is asked for with a file or standard input, and returns the exit status, which is 6 if the text is only checked and is not
// in columns.
fn fmt_text<'a, S: Shelf, D: Desk, C, R: Input, W: Output, E: Output>(
    way: Way,
    file: Option<&'a str>,
    host: &mut Host<S, D, C, R, W, E>,
) -> Result<u8, Refusal<'a>>
    ensures { IfOk result (λ status. status ≤ 6) }
{
    let name = file.unwrap_or("-");
    let text = text_of(host.alloc, file, &mut host.shelf, &mut host.input)?;
    let text = text.as_slice();
    let done = match way {
        Way::Show => show_columns(host.alloc, text, &mut host.output).and(Ok(true)),
        Way::Check => name_other(host.alloc, name, text, &mut host.output),
        Way::Rewrite => rewrite(host.alloc, name, text, &mut host.desk).and(Ok(true)),
    };
    match done {
        Ok(true) => Ok(0),
        Ok(false) => Ok(NOT_IN_COLUMNS),
        Err(FmtFault::Layout(FormatFault::Source(_))) => fmt_other(way, file, text, host),
        Err(fault) => report_fmt_fault(host.alloc, name, text, fault, &mut host.complaints),
    }
}

/// Lays out the files that the arguments name, or standard input. The exit status is the greatest of those of the files.
#[inline(never)]
pub fn fmt_of<'a, S: Shelf, D: Desk, C, R: Input, W: Output, E: Output>(
    given: &CommandArgs<'_, 'a>,
    host: &mut Host<S, D, C, R, W, E>,
) -> Result<u8, Refusal<'a>>
    ensures { IfOk result (λ status. status ≤ 6) }
{
    let way = way_in(given.arguments)?;
    let files = given.arguments.files.as_slice();
    if files.is_empty() {
        return fmt_text(way, None, host);
    }
    let mut status = 0;
    for file in files {
        let one = match fmt_text(way, Some(*file), host) {
            Ok(one) => one,
            Err(refusal) => refusal.report(&mut host.complaints),
        };
        status = one.max(status);
    }
    Ok(status)
}
