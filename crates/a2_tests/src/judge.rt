//! Judging a source, case by case.

ghost use Rattle.std.specs.Prelude.{◌≡◌, ◌++◌, [], List, Some, true, IfOk, OnOk};
ghost use Rattle.std.specs.List.{list_any};
ghost use Rattle.a2_bus.specs.View.{memory_of};
ghost use Rattle.a2_run.specs.Meaning.{IsProgramOf, attributes_of as attributes, picture_of as picture};
ghost use Rattle.a2_timed_keys.specs.declared.strokes.Typed.{Typed};
ghost use Rattle.a2_tests.specs.Calls.{case_text};
ghost use Rattle.a2_tests.specs.Requirements.{IsFirstMissed, end_at};
ghost use Rattle.a2_tests.specs.Judging as judging;
ghost use Rattle.a2_tests.specs.Judging.{AreKeys, AreStrokes, AreVerdicts, IsVerdictOnCase, IsVerdictOnEnd, IsVerdictOnRun, IsVerdict, IsVerdictOf, AreTyped, LinesType, LineTypes};

use crate::call::{append, call_in, calling_text};
use crate::call_report::call_report;
use crate::cases::{Case, Session};
use crate::line::{Call, Line, NumberedLine, following};
use crate::miss_report::miss_report;
use crate::requirements::{Ending, first_missed};
use a2_asm::Program;
use a2_bus::Keys;
use a2_machine::{Cause, Machine};
use a2_page::{print, print_attributes};
use a2_run::{AssembledText, DEFAULT_STEPS, RunArgs, RunFault, program_of};
use a2_stream::{Kept, Output};
use a2_text::{cut, decimal};
use a2_timed_keys::{Ended, Strokes, TimedArgs, TypedFault, stroke_in};
use std::alloc::{AllocError, Allocator};

/// The verdict on a case.
pub enum Verdict<A: Allocator> {
    /// All its requirements are met.
    Passed,
    /// The requirement on the line with this number is not met; the text reports what was found instead.
    Missed(usize, Vec<u8, A>),
    /// Its routine cannot be called: the source lacks a name that the call needs, or is not valid after the lines that
    /// call it. The text says which.
    NotCalled(Vec<u8, A>),
    /// Its run has no end, because more keys would wait than fit. The text says after which step.
    Overfull(Vec<u8, A>),
}

// Not derived, only for the prover: it follows this as one call, and a derived one field by field.
impl<A: Allocator> Drop for Verdict<A> {
    fn drop(self) {
        match self {
            Verdict::Passed => {}
            Verdict::Missed(_, _) => {}
            Verdict::NotCalled(_) => {}
            Verdict::Overfull(_) => {}
        }
    }
}

// Returns the limit of a line, or the earlier one if the line has none.
fn limit_or(before: u32, line: Line) -> u32
    ensures { result ≡ judging.limit_or before line.entry }
{
    match line {
        Line::Limit(limit) => limit,
        _ => before,
    }
}

// Returns the most steps of a case that replays no session, or this one.
fn steps_of<A: Allocator>(session: &Option<Session<A>>) -> u32
    ensures { result ≡ judging.session_steps session.now }
{
    match session {
        Some(session) => session.steps,
        None => DEFAULT_STEPS,
    }
}

// Returns the most steps that some lines allow; the last limit counts, and without one it is `before`.
fn limit_in(before: u32, lines: &[NumberedLine]) -> u32
    ensures { result ≡ judging.limit_from before lines.now }
{
    let mut limit = before;
    for asked in lines {
        limit = limit_or(limit, asked.line);
    }
    limit
}

// Returns the keys of a line, as they are spelled, or the earlier ones if the line has none.
fn keys_or<'a>(before: &'a str, line: Line<'a>) -> &'a str
    ensures { result.now ≡ judging.keys_or before.now line.entry }
{
    match line {
        Line::Keys(text) => text,
        _ => before,
    }
}

// Returns the keys that wait at the start, as they are spelled; the last line with keys counts.
fn spelling_in<'a>(lines: &[NumberedLine<'a>]) -> &'a str
    ensures { result.now ≡ judging.keys_from [] lines.now }
{
    let mut keys = "";
    for asked in lines {
        keys = keys_or(keys, asked.line);
    }
    keys
}

// Returns the keys that wait at the start.
fn keys_in(lines: &[NumberedLine]) -> Keys
    ensures { AreKeys (judging.keys_from [] lines.now) result }
{
    match Keys::parse(spelling_in(lines)) {
        Some(keys) => keys,
        None => Keys::new(),
    }
}

// Adds the keys that a text gives, with their steps.
fn add_stroke<A: Allocator + Copy>(log: &mut Strokes<A>, text: &str) -> Result<(), AllocError>
    ensures { OnOk result ((more : List Typed) × AreStrokes text.now more × (log.new ≡ log.old ++ more)) }
{
    match stroke_in(text) {
        Ok((steps, keys)) => {
            log.add(steps, &keys)?;
            Ok(())
        }
        Err(_) => Ok(()),
    }
}

// Adds the keys that a line types on the way.
fn add_typed<A: Allocator + Copy>(
    log: &mut Strokes<A>,
    asked: &NumberedLine,
) -> Result<(), AllocError>
    ensures { OnOk result ((more : List Typed) × LineTypes asked.now.line more × (log.new ≡ log.old ++ more)) }
{
    match asked.line {
        Line::KeysAt(text) => add_stroke(log, text),
        _ => Ok(()),
    }
}

// Returns the keys that some lines type on the way.
fn typed_in<A: Allocator + Copy>(alloc: A, lines: &[NumberedLine]) -> Result<Strokes<A>, AllocError>
    ensures { IfOk result (λ log. LinesType lines.now log) }
{
    let mut log = Strokes::new(alloc);
    for asked in lines {
        add_typed(&mut log, asked)?;
    }
    Ok(log)
}

// Returns whether a line says that the run is not guarded.
fn is_free(lines: &[NumberedLine]) -> bool
    ensures { result ≡ list_any judging.says_free lines.now }
{
    for asked in lines {
        if let Line::Free = asked.line {
            return true;
        }
    }
    false
}

// Returns the picture of a machine's screen.
fn picture_of<A: Allocator + Copy>(alloc: A, machine: &Machine<A>) -> Result<Kept<A>, AllocError>
    ensures { IfOk result (λ kept. (⟦<Kept<A> as Output>⟧.taker kept).bytes ≡ Some (picture (memory_of machine.now.state.bus))) }
{
    let mut picture = Kept::new(alloc);
    match print(&machine.view(), &mut picture) {
        Ok(()) => Ok(picture),
        Err(_) => Err(AllocError),
    }
}

// Returns the attributes of a machine's screen, as `a2 run --attr` prints them.
fn attributes_of<A: Allocator + Copy>(alloc: A, machine: &Machine<A>) -> Result<Kept<A>, AllocError>
    ensures { IfOk result (λ kept. (⟦<Kept<A> as Output>⟧.taker kept).bytes
        ≡ Some (attributes true (memory_of machine.now.state.bus))) }
{
    let mut marks = Kept::new(alloc);
    match print_attributes(&machine.view(), &mut marks) {
        Ok(()) => Ok(marks),
        Err(_) => Err(AllocError),
    }
}

// Returns the report on the first line whose requirement is not met.
fn missed<A: Allocator + Copy>(
    alloc: A,
    lines: &[NumberedLine],
    index: usize,
    ending: &Ending<A>,
) -> Result<Verdict<A>, AllocError>
    requires { IsFirstMissed lines.now ending.now.program.now (end_at ending.now.machine.now.state ending.now.cause) index }
    ensures { IfOk result (λ verdict.
        IsVerdictOnEnd lines.now ending.now.program.now (end_at ending.now.machine.now.state ending.now.cause) verdict) }
{
    let report = miss_report(alloc, following(lines, index), ending)?;
    Ok(Verdict::Missed(lines[index].number, report))
}

// Returns the verdict on a run that ended.
fn verdict_of_end<A: Allocator + Copy>(
    alloc: A,
    lines: &[NumberedLine],
    program: &Program<A>,
    machine: &Machine<A>,
    cause: Cause,
) -> Result<Verdict<A>, AllocError>
    ensures { IfOk result (λ verdict. IsVerdictOnEnd lines.now program.now (end_at machine.now.state cause) verdict) }
{
    let picture = picture_of(alloc, machine)?;
    let rows = cut(alloc, picture.as_slice())?;
    let attributes = attributes_of(alloc, machine)?;
    let marks = cut(alloc, attributes.as_slice())?;
    let ending = Ending {
        program,
        machine,
        cause,
        rows: rows.as_slice(),
        marks: marks.as_slice(),
    };
    match first_missed(alloc, lines, &ending)? {
        None => Ok(Verdict::Passed),
        Some(index) => missed(alloc, lines, index, &ending),
    }
}

// Returns the report on a run in which more keys would wait than fit.
fn overfull_report<A: Allocator + Copy>(alloc: A, steps: u64) -> Result<Vec<u8, A>, AllocError> {
    let steps = decimal(steps);
    let mut text = Vec::new(alloc);
    append(
        &mut text,
        &[
            b"after step ",
            steps.as_slice(),
            b", more than 4096 keys would be waiting; type some of them later",
        ],
    )?;
    Ok(text)
}

// Returns the verdict on a run of a program; names and statements are those of the source's program.
fn verdict_of_run<A: Allocator + Copy>(
    alloc: A,
    lines: &[NumberedLine],
    program: &Program<A>,
    running: &Program<A>,
    args: TimedArgs<'_, A>,
) -> Result<Verdict<A>, AllocError>
    ensures { IfOk result (λ verdict. IsVerdictOnRun lines.now program.now running.now verdict args.entry.run.keys.now
        args.entry.strokes.now args.entry.run.limit args.entry.run.free) }
{
    match Ended::of(alloc, running, args) {
        Ok(ended) => verdict_of_end(alloc, lines, program, ended.machine(), ended.cause()),
        Err(TypedFault::Full(steps)) => Ok(Verdict::Overfull(overfull_report(alloc, steps)?)),
        Err(TypedFault::Memory) => Err(AllocError),
    }
}

/// How a case runs.
#[derive(Drop)]
pub struct Conditions<A: Allocator> {
    /// The keys that wait at the start.
    pub keys: Keys,
    /// The keys that the lines of the case type on the way.
    pub typed: Strokes<A>,
    /// The most steps.
    pub limit: u32,
    /// Whether the run is not guarded.
    pub free: bool,
}

impl<A: Allocator> Conditions<A> {
    /// Returns these conditions as the arguments of a run. If the case replays a session, the keys that are typed on the way are those
    /// of the session.
    pub fn args<'a>(&'a self, session: &'a Option<Session<A>>) -> TimedArgs<'a, A>
        ensures keys { result.run.keys.now ≡ self.now.keys }
        ensures typed { AreTyped session.now self.now.typed result.strokes.now }
        ensures limit { result.run.limit ≡ self.now.limit }
        ensures free { result.run.free ≡ self.now.free }
    {
        let strokes = match session {
            Some(session) => &session.log,
            None => &self.typed,
        };
        let run = RunArgs {
            keys: &self.keys,
            limit: self.limit,
            free: self.free,
        };
        TimedArgs { run, strokes }
    }
}

/// Returns how a case runs.
pub fn conditions_of<A: Allocator + Copy>(
    alloc: A,
    case: &Case<A>,
) -> Result<Conditions<A>, AllocError>
    ensures keys { IfOk result (λ how. AreKeys (judging.keys_from [] case.now.lines.items) how.keys) }
    ensures typed { IfOk result (λ how. LinesType case.now.lines.items how.typed) }
    ensures limit { IfOk result (λ how. how.limit ≡ judging.limit_of case.now) }
    ensures free { IfOk result (λ how. how.free ≡ list_any judging.says_free case.now.lines.items) }
{
    let lines = case.lines.as_slice();
    let typed = typed_in(alloc, lines)?;
    Ok(Conditions {
        keys: keys_in(lines),
        typed,
        limit: limit_in(steps_of(&case.session), lines),
        free: is_free(lines),
    })
}

/// Returns the text that runs in a case of a source.
pub fn text_of_case<A: Allocator + Copy>(
    alloc: A,
    case: &Case<A>,
    source: &[u8],
) -> Result<Vec<u8, A>, AllocError>
    ensures { IfOk result (λ text. text.items ≡ case_text case.now.lines.items source.now) }
{
    match call_in(case.lines.as_slice()) {
        Some(call) => calling_text(alloc, call, source),
        None => Vec::from_slice(alloc, source),
    }
}

// Returns the verdict on the run of a program in a case.
fn verdict_of_case<A: Allocator + Copy>(
    alloc: A,
    case: &Case<A>,
    program: &Program<A>,
    running: &Program<A>,
) -> Result<Verdict<A>, AllocError>
    ensures { IfOk result (λ verdict. IsVerdictOnCase case.now program.now running.now verdict) }
{
    let how = conditions_of(alloc, case)?;
    let args = how.args(&case.session);
    verdict_of_run(alloc, case.lines.as_slice(), program, running, args)
}

// Returns the verdict on a case that makes a call, in which this text runs.
fn judge_call<A: Allocator + Copy>(
    alloc: A,
    case: &Case<A>,
    call: Call,
    text: &[u8],
    program: &Program<A>,
) -> Result<Verdict<A>, AllocError>
    ensures { IfOk result (λ verdict. IsVerdictOf case.now text.now program.now verdict) }
{
    match program_of(alloc, text) {
        Ok(running) => verdict_of_case(alloc, case, program, &running),
        Err(RunFault::Source(_)) => Ok(Verdict::NotCalled(call_report(alloc, call, program)?)),
        Err(_) => Err(AllocError),
    }
}

// Returns the verdict on a case, for a source with this program.
fn judge_case<A: Allocator + Copy>(
    alloc: A,
    case: &Case<A>,
    source: &[u8],
    program: &Program<A>,
) -> Result<Verdict<A>, AllocError>
    requires { IsProgramOf source.now program.now }
    ensures { IfOk result (λ verdict. IsVerdict case.now source.now program.now verdict) }
{
    match call_in(case.lines.as_slice()) {
        Some(call) => {
            let text = calling_text(alloc, call, source)?;
            judge_call(alloc, case, call, text.as_slice(), program)
        }
        None => verdict_of_case(alloc, case, program, program),
    }
}

// Returns the verdicts on some cases, for a source with this program.
fn judge_cases<A: Allocator + Copy>(
    alloc: A,
    cases: &[Case<A>],
    source: &[u8],
    program: &Program<A>,
) -> Result<Vec<Verdict<A>, A>, AllocError>
    requires { IsProgramOf source.now program.now }
    ensures { IfOk result (λ verdicts. AreVerdicts source.now program.now cases.now verdicts.items) }
{
    let mut verdicts = Vec::new(alloc);
    for case in cases {
        verdicts.push(judge_case(alloc, case, source, program)?)?;
    }
    Ok(verdicts)
}

/// Returns the verdict on a source in each of these cases. A case passes exactly if the end of its run meets all its
/// requirements. Fails only if memory runs out. This project's profile.
pub fn judge_source<A: Allocator + Copy>(
    alloc: A,
    cases: &[Case<A>],
    assembled: &AssembledText<'_, A>,
) -> Result<Vec<Verdict<A>, A>, AllocError>
    ensures { IfOk result (λ verdicts. AreVerdicts assembled.now.text assembled.now.program cases.now verdicts.items) }
{
    judge_cases(alloc, cases, assembled.text(), assembled.program())
}
