//! Judges all promises of a text: those of its routines and that of its own run.

ghost use Rattle.std.specs.Prelude.{◌≡◌, ◌<◌, ◌||◌, ℕ, suc, List, [], map, IfOk, IfSome, IsTrue, OnOk, Some};
ghost use Rattle.std.specs.List.{All, slice_get};
ghost use Rattle.a2_text.specs.Lines.{lines};
ghost use Rattle.a2_promise.specs.MarkedLines.{Says};
ghost use Rattle.a2_promise.specs.PromisedTerms.{AreFound};
ghost use Rattle.a2_promise_try.specs.Judging.{IsSound};
ghost use Rattle.a2_tests.specs.Cases.{case_of};
ghost use Rattle.a2_promise_try.specs.RunLines as said;
ghost use Rattle.a2_promise_try.specs.RunLines.{AreCasesOf, AreOthers, IsAsked, IsOther};

use crate::advice::advised;
use crate::first_failure::{FirstFailure, failure_in};
use crate::json::{Judged, put_end, put_error, put_judged, put_program};
use crate::line_checks::{first_line_before, hidden_name, line_error};
use crate::refusal_report::{put_marked, put_refusal};
use crate::report::put_verdict;
use crate::run_report::{are_known, put_run};
use crate::trying::try_promise;
use crate::verdict::{PromiseVerdict, Trials};
use a2_asm::Program;
use a2_promise::{Found, Promise, Refusal, promise_in, promises_of};
use a2_run::{AssembledText, RunFault};
use a2_stream::{Output, ToWrite, WriteFault};
use a2_tests::{
    Case, NumberedLine, Verdict, begins_want_line, cases_of, judge_source, numbered_line,
};
use a2_text::cut;
use std::alloc::{AllocError, Global};

/// The form of a report.
#[derive(Clone, Copy)]
pub enum ReportForm {
    Text,
    /// One JSON object.
    Json,
}

/// The result for the promises of a text.
#[derive(Drop)]
pub struct Judgement {
    /// The number of promises; the promise of the run counts as one.
    pub promises: usize,
    /// Whether the lines of some promise have an error.
    pub is_any_refused: bool,
    /// Whether some promise does not hold.
    pub is_any_failed: bool,
    /// The first promise that fails in a state of its routine.
    pub first: Option<FirstFailure>,
}

impl Judgement {
    // Counts one more promise. Returns how many were counted before.
    fn count(&mut self) -> usize
        ensures some { 0 < self.new.promises }
        ensures refused { self.new.is_any_refused ≡ self.old.is_any_refused }
        ensures failed { self.new.is_any_failed ≡ self.old.is_any_failed }
        ensures first { self.new.first ≡ self.old.first }
    {
        let before = self.promises;
        self.promises = before.saturating_add(1);
        before
    }
}

// The lines of a text, sorted by what they promise.
#[derive(Drop)]
struct PromiseLines<'a> {
    // The promise of the text's own run: the lines after `;:` that have the form of a WANT.
    run: Vec<NumberedLine<'a>>,
    // All lines, with blank ones in place of those.
    others: Vec<&'a [u8]>,
}

// Returns the text of a line about the run.
fn run_text(line: &[u8]) -> Option<&[u8]>
    ensures { IfSome result (λ text. Says line.now text.now) }
{
    match promise_in(line) {
        Some(text) if begins_want_line(text) => Some(text),
        _ => None,
    }
}

// Returns a line, or a blank one in place of a line about the run.
fn other_line(line: &[u8]) -> &[u8]
    ensures { IsOther line.now result.now }
{
    match run_text(line) {
        Some(_) => b"",
        None => line,
    }
}

// Adds a line with this number to the lines about the run, if it is one of them.
fn push_run<'a>(
    run: &mut Vec<NumberedLine<'a>>,
    number: usize,
    line: &'a [u8],
) -> Result<(), AllocError>
    ensures { (lines : List (List ℕ)) (above : ℕ) → number ≡ suc above → slice_get lines above ≡ Some line.now
        → All (IsAsked lines) run.old.items → OnOk result (All (IsAsked lines) run.new.items) }
{
    match run_text(line) {
        Some(text) => Ok(run.push(numbered_line(number, text))?),
        None => Ok(()),
    }
}

// Separates the lines about the run from the others.
fn split_lines<'a>(alloc: Global, lines: &[&'a [u8]]) -> Result<PromiseLines<'a>, AllocError>
    ensures run { IfOk result (λ parts. All (IsAsked (map (λ line. line.now) lines.now)) parts.run.items) }
    ensures others { IfOk result (λ parts. AreOthers (map (λ line. line.now) lines.now) (map (λ line. line.now) parts.others.items)) }
{
    let mut run = Vec::new(alloc);
    let mut others = Vec::new(alloc);
    for (index, line) in lines.iter().enumerate() {
        push_run(&mut run, index + 1, *line)?;
        others.push(other_line(*line))?;
    }
    Ok(PromiseLines { run, others })
}

// Finds the promises of a text's routines in its lines without those about the run.
fn found_in<'a>(
    alloc: Global,
    assembled: &'a AssembledText<'_>,
    others: &[&'a [u8]],
) -> Result<Vec<Found<'a>>, AllocError>
    requires { AreOthers (lines assembled.now.text) (map (λ line. line.now) others.now) }
    ensures { IfOk result (λ found. AreFound (map (λ line. line.now) others.now) assembled.now.program.names found.items) }
{
    promises_of(alloc, others, assembled.source(), assembled.program())
}

/// What is tried: how many states of each routine, and the cases of the text's own run; and how it is reported.
#[derive(Clone, Copy)]
pub struct Asked<'a> {
    pub trials: Trials,
    pub form: ReportForm,
    /// The label of the only routine whose promise is tried, in capital or small letters. If it is `None`, all promises are tried, and that of
    /// the text's own run.
    pub only: Option<&'a str>,
    /// The cases that [`run_cases`] returns, with the sessions that they replay.
    pub runs: &'a [Case<'a, Global>],
}

// Returns the cases of lines about the run.
fn cases_or_none<'a>(
    alloc: Global,
    run: &[NumberedLine<'a>],
) -> Result<Vec<Case<'a, Global>>, AllocError>
    ensures { IfOk result (λ cases. map case_of cases.items ≡ said.cases_or_none run.now) }
{
    if run.is_empty() {
        return Ok(Vec::new(alloc));
    }
    cases_of(alloc, run)
}

/// Returns the cases of a text's own run. There are none if the text promises nothing about its run.
pub fn run_cases<'a>(alloc: Global, text: &'a [u8]) -> Result<Vec<Case<'a, Global>>, AllocError>
    ensures run { IfOk result (λ cases. AreCasesOf (lines text.now) (map case_of cases.items)) }
{
    let texts = cut(alloc, text)?;
    let lines = texts.as_slice();
    let parts = split_lines(alloc, lines)?;
    let run = parts.run.as_slice();
    cases_or_none(alloc, run)
}

// The lines about a text's own run, and their cases.
#[derive(Clone, Copy)]
struct Run<'a> {
    lines: &'a [NumberedLine<'a>],
    cases: &'a [Case<'a, Global>],
}

// The data for judging the promises of routines.
#[derive(Clone, Copy)]
struct Routines<'a> {
    alloc: Global,
    program: &'a Program<Global>,
    lines: &'a [&'a [u8]],
    found: &'a [Found<'a>],
    trials: Trials,
    form: ReportForm,
    only: Option<&'a str>,
}

// Records the verdict on a promise, and the failure if it is the first one with a state.
fn note_verdict(
    routines: &Routines,
    promise: &Promise,
    verdict: PromiseVerdict,
    judgement: &mut Judgement,
) -> Result<(), RunFault>
    ensures { 0 < judgement.old.promises → IsSound judgement.old → OnOk result (IsSound judgement.new) }
{
    if matches!(verdict, PromiseVerdict::Held(_)) {
        return Ok(());
    }
    judgement.is_any_failed = true;
    if judgement.first.is_none() {
        judgement.first = failure_in(routines.alloc, routines.program, promise, verdict)?;
    }
    Ok(())
}

// Writes the verdict on the promise with this index.
fn put_one<W: Output>(
    routines: &Routines,
    index: usize,
    promise: &Promise,
    verdict: &PromiseVerdict,
    output: &mut W,
) -> Result<(), RunFault> {
    match routines.form {
        ReportForm::Text => put_verdict(
            routines.alloc,
            routines.program,
            routines.lines,
            promise,
            verdict,
            output,
        ),
        ReportForm::Json => {
            let judged = Judged {
                alloc: routines.alloc,
                lines: routines.lines,
                program: routines.program,
                promise,
                verdict,
            };
            put_judged(index, &judged, output)
        }
    }
}

// Reports an error in the lines before the label with this name; the name is empty if there is no such label.
fn refuse_one<W: Output>(
    routines: &Routines,
    name: &[u8],
    refusal: &Refusal,
    judgement: &mut Judgement,
    output: &mut W,
) -> Result<(), RunFault>
    ensures { IsSound judgement.old → OnOk result (IsSound judgement.new) }
{
    let index = judgement.count();
    judgement.is_any_refused = true;
    let refusal = advised(routines.lines, *refusal);
    match routines.form {
        ReportForm::Text => put_refusal(routines.lines, name, &refusal, output)?,
        ReportForm::Json => put_error(index, name, &refusal, output)?,
    }
    Ok(())
}

// Tries a promise, and reports the verdict.
fn try_one<W: Output>(
    routines: &Routines,
    promise: &Promise,
    judgement: &mut Judgement,
    output: &mut W,
) -> Result<(), RunFault>
    ensures { IsSound judgement.old → OnOk result (IsSound judgement.new) }
{
    let index = judgement.count();
    let verdict = try_promise(
        routines.alloc,
        routines.program,
        routines.found,
        promise,
        routines.trials,
    )?;
    put_one(routines, index, promise, &verdict, output)?;
    note_verdict(routines, promise, verdict, judgement)
}

// Returns the first line of a promise that is not read as it looks, given the line of its label.
fn error_before(routines: &Routines, line: usize) -> Option<Refusal> {
    for number in first_line_before(routines.lines, line)..=line {
        if let Some(text) = routines.lines.get(number.saturating_sub(1))
            && let Some(refusal) = line_error(routines.program, *text, number)
        {
            return Some(refusal);
        }
    }
    None
}

// Tries one of the promises found, or reports its error.
fn judge_one<W: Output>(
    routines: &Routines,
    one: &Found,
    judgement: &mut Judgement,
    output: &mut W,
) -> Result<(), RunFault>
    ensures { IsSound judgement.old → OnOk result (IsSound judgement.new) }
{
    match one {
        Found::Refused(refusal, name) => refuse_one(routines, *name, refusal, judgement, output),
        Found::Promise(promise) => match error_before(routines, promise.line) {
            Some(refusal) => refuse_one(routines, promise.name, &refusal, judgement, output),
            None => try_one(routines, promise, judgement, output),
        },
    }
}

// Returns whether a line is among the lines of one of the promises found.
fn is_promised(routines: &Routines, number: usize) -> bool {
    for one in routines.found {
        if let Found::Promise(promise) = one
            && number <= promise.line
            && first_line_before(routines.lines, promise.line) <= number
        {
            return true;
        }
    }
    false
}

// Reports the lines that are not read as they look and belong to no promise.
fn refuse_others<W: Output>(
    routines: &Routines,
    judgement: &mut Judgement,
    output: &mut W,
) -> Result<(), RunFault>
    ensures { IsSound judgement.old → OnOk result (IsSound judgement.new) }
{
    for (index, line) in routines.lines.iter().enumerate() {
        let number = index + 1;
        if let Some(refusal) = line_error(routines.program, *line, number)
            && !is_promised(routines, number)
        {
            refuse_one(routines, b"", &refusal, judgement, output)?;
        }
    }
    Ok(())
}

// Warns about words in lines of promises that hide names of the source.
fn warn_of_names<W: Output>(routines: &Routines, output: &mut W) -> Result<(), WriteFault> {
    for (index, line) in routines.lines.iter().enumerate() {
        if let Some(warning) = hidden_name(routines.program, *line, index + 1) {
            put_marked(routines.lines, b"WARNING", &warning, output)?;
        }
    }
    Ok(())
}

// Returns whether the promise of a routine is asked for.
fn is_asked(only: Option<&str>, one: &Found) -> bool {
    let Some(only) = only else {
        return true;
    };
    let name = match one {
        Found::Refused(_, name) => *name,
        Found::Promise(promise) => promise.name,
    };
    name.eq_ignore_ascii_case(only.as_bytes())
}

// Judges the promises of routines. If only one is asked for, nothing is said about other lines.
fn judge_routines<W: Output>(
    routines: &Routines,
    judgement: &mut Judgement,
    output: &mut W,
) -> Result<(), RunFault>
    ensures { IsSound judgement.old → OnOk result (IsSound judgement.new) }
{
    if routines.only.is_none() {
        if let ReportForm::Text = routines.form {
            warn_of_names(routines, output)?;
        }
        refuse_others(routines, judgement, output)?;
    }
    for one in routines.found {
        if is_asked(routines.only, one) {
            judge_one(routines, one, judgement, output)?;
        }
    }
    Ok(())
}

// Returns the lines about the text's own run, or none of them if only a routine is asked for.
fn asked_lines<'l, 'a>(
    only: Option<&str>,
    lines: &'l [NumberedLine<'a>],
) -> &'l [NumberedLine<'a>] {
    if only.is_some() {
        let (none, _) = lines.split_at(0);
        return none;
    }
    lines
}

// Judges the promise of a text's own run.
fn judge_run<W: Output>(
    alloc: Global,
    assembled: &AssembledText<'_>,
    run: Run<'_>,
    judgement: &mut Judgement,
    output: &mut W,
) -> Result<(), RunFault>
    ensures { IsSound judgement.old → OnOk result (IsSound judgement.new) }
{
    if run.lines.is_empty() {
        return Ok(());
    }
    judgement.count();
    if !are_known(run.lines, output)? {
        judgement.is_any_refused = true;
        return Ok(());
    }
    let verdicts = judge_source(alloc, run.cases, assembled)?;
    for (case, verdict) in run.cases.iter().zip(&verdicts) {
        judgement.is_any_failed = judgement.is_any_failed || !matches!(verdict, Verdict::Passed);
        put_run(case.name, verdict, output)?;
    }
    Ok(())
}

// Judges the promise of a text's own run, and ends the JSON object with the report on it.
fn end_object<W: Output>(
    alloc: Global,
    assembled: &AssembledText<'_>,
    run: Run<'_>,
    judgement: &mut Judgement,
    output: &mut W,
) -> Result<(), RunFault>
    ensures { IsSound judgement.old → OnOk result (IsSound judgement.new) }
{
    let mut report = Vec::new(alloc);
    judge_run(
        alloc,
        assembled,
        run,
        judgement,
        &mut ToWrite::new(&mut report),
    )?;
    Ok(put_end(run.lines, report.as_slice(), output)?)
}

/// Judges all promises of the text of this program, and writes a report on each. These are the promises in comments
/// about routines, each tried in as many states as `asked` says, and the promise of the text's own run. Fails if a
/// write fails or memory runs out.
pub fn judge_all<W: Output>(
    alloc: Global,
    assembled: &AssembledText<'_>,
    asked: Asked<'_>,
    output: &mut W,
) -> Result<Judgement, RunFault>
    ensures failed { IfOk result (λ judgement. IfSome judgement.first (λ _. IsTrue judgement.is_any_failed)) }
    ensures counted { IfOk result (λ judgement. IsTrue (judgement.is_any_refused || judgement.is_any_failed)
        → 0 < judgement.promises) }
{
    let (source, program) = (assembled.source(), assembled.program());
    let texts = cut(alloc, assembled.text())?;
    let lines = texts.as_slice();
    let parts = split_lines(alloc, lines)?;
    let others = parts.others.as_slice();
    let found = found_in(alloc, assembled, others)?;
    let mut judgement = Judgement {
        promises: 0,
        is_any_refused: false,
        is_any_failed: false,
        first: None,
    };
    let routines = Routines {
        alloc,
        program,
        lines: others,
        found: found.as_slice(),
        trials: asked.trials,
        form: asked.form,
        only: asked.only,
    };
    if let ReportForm::Json = asked.form {
        put_program(program, source, output)?;
    }
    judge_routines(&routines, &mut judgement, output)?;
    let run = Run {
        lines: asked_lines(asked.only, parts.run.as_slice()),
        cases: asked.runs,
    };
    match asked.form {
        ReportForm::Text => judge_run(alloc, assembled, run, &mut judgement, output)?,
        ReportForm::Json => end_object(alloc, assembled, run, &mut judgement, output)?,
    }
    Ok(judgement)
}
