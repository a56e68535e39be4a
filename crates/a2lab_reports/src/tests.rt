//! The command `test`: judges solutions by the cases of a test file.

ghost use Rattle.std.specs.Prelude.{◌≤◌, IfOk};

use crate::films::put_end;
use crate::pages::{Examined, page_of, same_page};
use crate::sessions::read_sessions;
use a2_arguments::Arguments;
use a2_check::Format::Long;
use a2_check::{ReportFault, put_refusals, refusals_of};
use a2_host::{Desk, Shelf};
use a2_run::{AssembledText, ReadingFault, RunFault, read_text};
use a2_stream::{Input, Output, ToWrite, put};
use a2_syntax::Fault;
use a2_tests::{
    Case, Format, Found, Line, NumberedLine, SourceErrors, Totals, cases_of, judge_source,
    lines_of, put_head, put_line_fault,
};
use a2_text::cut;
use a2lab_commands::options::{PAGES, TEST_FORMAT};
use a2lab_commands::{
    CommandArgs, Host, Message, Reading, Refusal, Value, is_input, put_errors_at_home, reading_of,
    report,
};
use std::alloc::{AllocError, Global};

// The exit status if a solution did not pass all cases.
const NOT_PASSED: u8 = 6;

// The arguments of `test`: the test file and at least one solution.
#[derive(Clone, Copy)]
struct TestArgs<'a, 'b> {
    format: Format,
    // The folder into which the page of each solution is written.
    pages: Option<&'a str>,
    want: &'a str,
    solutions: &'b [&'a str],
}

// Returns the format that the arguments name.
fn format_in(arguments: &Arguments<'_>) -> Format {
    match arguments.text(&TEST_FORMAT) {
        Some("csv") => Format::Csv,
        Some("json") => Format::Json,
        Some("junit") => Format::Junit,
        Some("html") => Format::Html,
        _ => Format::Table,
    }
}

// Returns the files after the first.
fn after_want<'a, 'b>(files: &'b [&'a str]) -> &'b [&'a str] {
    match files {
        [] => files,
        [_, solutions @ ..] => solutions,
    }
}

// The most unknown lines that are reported.
const MOST_UNKNOWN: usize = 20;

// Reports the unknown lines of a test file, at most 20.
fn report_unknown<E: Output>(
    alloc: Global,
    want: &str,
    lines: &[NumberedLine],
    texts: &[&[u8]],
    complaints: &mut E,
) {
    let mut count: usize = 0;
    for (asked, text) in lines.iter().zip(texts) {
        if let Line::Unknown = asked.line {
            count = count.saturating_add(1);
            if count <= MOST_UNKNOWN {
                // If a write fails, there is no place left to report it.
                let _ = put(b"a2lab: test: ", complaints);
                let _ = put_line_fault(alloc, want, asked.number, *text, complaints);
            }
        }
    }
}

// Returns whether a line is in none of the forms of a test file.
fn is_any_unknown(lines: &[NumberedLine]) -> bool {
    for asked in lines {
        if let Line::Unknown = asked.line {
            return true;
        }
    }
    false
}

// Returns whether a text that is not a test file looks like a source: by its name, or because it is one.
fn looks_like_source(alloc: Global, name: &str, text: &[u8]) -> bool {
    name.ends_with(".s") || AssembledText::of(alloc, text).is_ok()
}

// Returns the lines that are neither blank nor comments, with their numbers.
fn spoken<'a>(
    alloc: Global,
    lines: &[NumberedLine<'a>],
) -> Result<Vec<NumberedLine<'a>>, AllocError> {
    let mut spoken = Vec::new(alloc);
    for asked in lines {
        if !matches!(asked.line, Line::Silent) {
            spoken.push(*asked)?;
        }
    }
    Ok(spoken)
}

// Reads a file, or standard input.
fn text_in<S: Shelf, D, C, R: Input, W, E>(
    name: &str,
    host: &mut Host<S, D, C, R, W, E>,
) -> Result<Vec<u8>, ReadingFault> {
    if is_input(name) {
        return read_text(host.alloc, &mut host.input);
    }
    let Ok(mut reader) = host.shelf.open(name) else {
        return Err(ReadingFault::Read);
    };
    read_text(host.alloc, &mut reader)
}

// A solution: its name, its plain text, and how its file is read.
#[derive(Clone, Copy)]
struct Solution<'a> {
    name: &'a str,
    text: &'a [u8],
    reading: &'a Reading,
}

// Writes the errors of a solution, as `check` prints them.
fn put_errors_of<W: Output>(
    alloc: Global,
    solution: Solution<'_>,
    refusals: &[Fault],
    writer: &mut W,
) -> Result<(), ReportFault> {
    match solution.reading {
        Reading::Larger(made) => put_errors_at_home(alloc, made, refusals, Long, writer),
        _ => put_refusals(alloc, solution.name, solution.text, refusals, Long, writer),
    }
}

// Returns the errors of a solution.
fn errors_of(alloc: Global, solution: Solution<'_>) -> Result<Vec<u8>, RunFault> {
    let refusals = refusals_of(alloc, solution.text)?;
    let mut lines = Vec::new(alloc);
    put_errors_of(
        alloc,
        solution,
        refusals.as_slice(),
        &mut ToWrite::new(&mut lines),
    )
    .map_err(|_| RunFault::Memory)?;
    Ok(lines)
}

// Writes the page of a solution, if a folder for pages is given, then prints what was found of the solution and counts it. Returns
// whether the page was written; that it was not is reported.
fn tell<S, D: Desk, C, R, W: Output, E: Output>(
    exam: &TestArgs<'_, '_>,
    examined: &Examined<'_, '_>,
    totals: &mut Totals,
    host: &mut Host<S, D, C, R, W, E>,
) -> Result<bool, RunFault> {
    if let Some(folder) = exam.pages {
        let page = page_of(host.alloc, folder, examined.name)?;
        let page = std::str::from_utf8(page.as_slice()).unwrap_or(folder);
        match examined.page_into(host.alloc, page, &mut host.desk) {
            Ok(()) => {}
            Err(RunFault::Memory) => return Err(RunFault::Memory),
            Err(_) => {
                let values = [Value::Text(page)];
                report(Message::PageNotWritten, &values, &mut host.complaints);
                return Ok(false);
            }
        }
    }
    examined.put(host.alloc, exam.format, totals.files(), &mut host.output)?;
    totals.count(examined.found);
    Ok(true)
}

// Judges the plain text of a solution, and tells what was found.
fn judge<S, D: Desk, C, R, W: Output, E: Output>(
    exam: &TestArgs<'_, '_>,
    solution: Solution<'_>,
    cases: &[Case<'_, Global>],
    totals: &mut Totals,
    host: &mut Host<S, D, C, R, W, E>,
) -> Result<bool, RunFault> {
    let Solution { name, text, .. } = solution;
    match AssembledText::of(host.alloc, text) {
        Ok(assembled) => {
            let verdicts = judge_source(host.alloc, cases, &assembled)?;
            let found = Found::Judged(verdicts.as_slice());
            let examined = Examined {
                name,
                source: text,
                cases,
                found: &found,
            };
            tell(exam, &examined, totals, host)
        }
        Err(RunFault::Memory) => Err(RunFault::Memory),
        Err(fault) => {
            let lines = errors_of(host.alloc, solution)?;
            let first = fault.text();
            let found = Found::Invalid(SourceErrors {
                first: first.as_str().as_bytes(),
                lines: lines.as_slice(),
            });
            let examined = Examined {
                name,
                source: text,
                cases,
                found: &found,
            };
            tell(exam, &examined, totals, host)
        }
    }
}

// Returns the text to assemble of a source that is read so.
fn plain_text<'a>(source: &'a [u8], reading: &'a Reading) -> &'a [u8] {
    match reading {
        Reading::Larger(expanded) => expanded.text.as_slice(),
        Reading::Plain | Reading::Failed(_) => source,
    }
}

// Judges the text of a solution, or its expansion if it is in the larger language, and tells what was found.
fn examine_text<'s, S: Shelf, D: Desk, C, R, W: Output, E: Output>(
    exam: &TestArgs<'_, '_>,
    (name, source): (&'s str, &'s [u8]),
    cases: &'s [Case<'_, Global>],
    totals: &mut Totals,
    host: &mut Host<S, D, C, R, W, E>,
) -> Result<bool, RunFault> {
    let reading = reading_of(host.alloc, Some(name), source, &mut host.shelf)?;
    if let Reading::Failed(why) = &reading {
        let found = Found::Invalid(SourceErrors {
            first: why.report.text.as_slice(),
            lines: why.message.as_slice(),
        });
        let examined = Examined {
            name,
            source,
            cases,
            found: &found,
        };
        return tell(exam, &examined, totals, host);
    }
    let text = plain_text(source, &reading);
    let solution = Solution {
        name,
        text,
        reading: &reading,
    };
    judge(exam, solution, cases, totals, host)
}

// Reads and judges a solution, and tells what was found. Returns whether its page was written, if it was to be.
fn examine<S: Shelf, D: Desk, C, R: Input, W: Output, E: Output>(
    exam: &TestArgs<'_, '_>,
    name: &str,
    cases: &[Case<'_, Global>],
    totals: &mut Totals,
    host: &mut Host<S, D, C, R, W, E>,
) -> Result<bool, RunFault> {
    match text_in(name, host) {
        Ok(text) => examine_text(exam, (name, text.as_slice()), cases, totals, host),
        Err(ReadingFault::Memory) => Err(RunFault::Memory),
        Err(ReadingFault::Read) => {
            let found = Found::Refused(b"cannot be read");
            let examined = Examined {
                name,
                source: b"",
                cases,
                found: &found,
            };
            tell(exam, &examined, totals, host)
        }
    }
}

// Reports why a text is not a test file.
fn report_want<S, D, C, R, W, E: Output>(
    name: &str,
    want: &[u8],
    lines: &[NumberedLine],
    texts: &[&[u8]],
    host: &mut Host<S, D, C, R, W, E>,
) {
    if looks_like_source(host.alloc, name, want) {
        let values = [Value::Text(name), Value::Text(name)];
        report(Message::SourceAsTests, &values, &mut host.complaints);
    } else {
        report_unknown(host.alloc, name, lines, texts, &mut host.complaints);
    }
}

// Judges all solutions by the text of a test file, prints what was found, and returns the exit status.
fn test_by<S: Shelf, D: Desk, C, R: Input, W: Output, E: Output>(
    exam: &TestArgs<'_, '_>,
    want: &[u8],
    host: &mut Host<S, D, C, R, W, E>,
) -> Result<u8, RunFault>
    ensures { IfOk result (λ status. status ≤ 6) }
{
    let texts = cut(host.alloc, want)?;
    let lines = lines_of(host.alloc, texts.as_slice())?;
    if is_any_unknown(lines.as_slice()) {
        report_want(exam.want, want, lines.as_slice(), texts.as_slice(), host);
        return Ok(1);
    }
    let spoken = spoken(host.alloc, lines.as_slice())?;
    let mut cases = cases_of(host.alloc, spoken.as_slice())?;
    let unread = read_sessions("test", exam.want, &mut cases, host)?;
    if unread > 0 {
        return Ok(unread);
    }
    let mut totals = Totals::new();
    put_head(exam.format, cases.as_slice(), &mut host.output)?;
    for name in exam.solutions {
        if !examine(exam, *name, cases.as_slice(), &mut totals, host)? {
            return Ok(4);
        }
    }
    put_end(host.alloc, exam.format, &totals, &mut host.output)?;
    if totals.failed == 0 && totals.refused == 0 {
        Ok(0)
    } else {
        Ok(NOT_PASSED)
    }
}

// Refuses folders for pages in which two solutions would have the same page, or a page would overwrite a file that is read.
fn refuse_pages<'a, S, D: Desk, C, R, W, E: Output>(
    exam: &TestArgs<'a, '_>,
    host: &mut Host<S, D, C, R, W, E>,
) -> Result<(), Refusal<'a>> {
    let Some(folder) = exam.pages else {
        return Ok(());
    };
    if let Some((first, other)) = same_page(host.alloc, exam.solutions)? {
        return Err(Refusal::of_two(Message::SamePage, first, other));
    }
    for solution in exam.solutions {
        let page = page_of(host.alloc, folder, *solution)?;
        let page = std::str::from_utf8(page.as_slice()).unwrap_or(folder);
        refuse_overwriting(page, exam.want, &host.desk)?;
        for other in exam.solutions {
            refuse_overwriting(page, *other, &host.desk)?;
        }
    }
    Ok(())
}

// Refuses a page that would overwrite a file that is read.
fn refuse_overwriting<'a, D: Desk>(page: &str, read: &'a str, desk: &D) -> Result<(), Refusal<'a>> {
    if read.ends_with(".html") && (page == read || desk.are_same_file(page, read)) {
        return Err(Refusal::of(Message::TestPageOverwrites, read));
    }
    Ok(())
}

/// Judges solutions by a test file, which the arguments name, and prints what was found. The exit status is 6 if a solution did not pass
/// all cases, and 1 if the test file has unknown lines, which are reported.
#[inline(never)]
pub fn test_of<'a, S: Shelf, D: Desk, C, R: Input, W: Output, E: Output>(
    given: &CommandArgs<'_, 'a>,
    host: &mut Host<S, D, C, R, W, E>,
) -> Result<u8, Refusal<'a>>
    ensures { IfOk result (λ status. status ≤ 6) }
{
    let arguments = given.arguments;
    let exam = TestArgs {
        format: format_in(arguments),
        pages: arguments.text(&PAGES),
        want: arguments.file().unwrap_or("-"),
        solutions: after_want(arguments.files.as_slice()),
    };
    refuse_pages(&exam, host)?;
    match text_in(exam.want, host) {
        Ok(want) => Ok(test_by(&exam, want.as_slice(), host)?),
        Err(ReadingFault::Memory) => Err(Refusal::Fault(RunFault::Memory)),
        Err(ReadingFault::Read) => {
            let values = [Value::Text("test"), Value::Text(exam.want)];
            report(Message::CannotRead, &values, &mut host.complaints);
            Ok(4)
        }
    }
}
