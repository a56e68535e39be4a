//! The lines and cases of a WANT file.

ghost use Rattle.std.specs.Prelude.{◌≡◌, ◌∷◌, ◌++◌, [], Some, None, map, find, IfOk, OnOk, MatchOption};
ghost use Rattle.std.specs.List.{before_first, list_any, position_or_len};
ghost use Rattle.a2_tests.specs.Cases as said;

use crate::line::{Line, NumberedLine, numbered_line};
use a2_machine::Cause;
use a2_timed_keys::Strokes;
use std::alloc::{AllocError, Allocator};

/// A recorded session, which a case replays.
#[derive(Drop)]
pub struct Session<A: Allocator> {
    /// Its keys, each with the steps after which it was typed.
    pub log: Strokes<A>,
    /// How many steps it ran. The case's run has at most as many, unless a line says another limit.
    pub steps: u32,
}

/// A case: its name, which is empty if the WANT file has no cases, and its lines. They begin with the lines before the
/// first case. If the case calls a routine and no line says how the run stops, the first line requires that it returns.
pub struct Case<'a, A: Allocator> {
    pub name: &'a [u8],
    pub lines: Vec<NumberedLine<'a>, A>,
    /// The recorded session that it replays. It is not in the WANT file: [`replay_in`] returns its name, and the caller reads it.
    pub session: Option<Session<A>>,
}

// Not derived, only for the prover: it follows this as one call, and a derived one field by field.
impl<'a, A: Allocator> Drop for Case<'a, A> {
    fn drop(self) {
        let Case {
            name: _,
            lines: _,
            session: _,
        } = self;
    }
}

/// Returns the meaning of each line of a WANT file. Fails only if memory runs out.
pub fn lines_of<'a, A: Allocator + Copy>(
    alloc: A,
    texts: &[&'a [u8]],
) -> Result<Vec<NumberedLine<'a>, A>, AllocError>
    ensures { IfOk result (λ lines. said.AreLines 1 (map (λ x. x.now) texts.now) lines.items) }
{
    let mut lines = Vec::new(alloc);
    for (index, text) in texts.iter().enumerate() {
        lines.push(numbered_line(index + 1, *text))?;
    }
    Ok(lines)
}

// Returns the name of the case that a line begins, if it begins one.
fn name_in<'a>(line: Line<'a>) -> Option<&'a [u8]>
    ensures { MatchOption result (said.name_of line.entry ≡ None) (λ name. said.name_of line.entry ≡ Some name.now) }
{
    match line {
        Line::Case(name) => Some(name),
        _ => None,
    }
}

// Returns how many lines come before the first line that begins a case.
fn front_of(lines: &[NumberedLine]) -> usize
    ensures { result ≡ position_or_len said.begins_case lines.now }
{
    for (index, asked) in lines.iter().enumerate() {
        if name_in(asked.line).is_some() {
            return index;
        }
    }
    lines.len()
}

// Returns the lines before the first line that begins a case.
fn front<'a, 'b>(lines: &'b [NumberedLine<'a>]) -> &'b [NumberedLine<'a>]
    ensures { result.now ≡ before_first said.begins_case lines.now }
{
    &lines[..front_of(lines)]
}

// Returns whether a line says how the run stops.
fn says_stop(lines: &[NumberedLine]) -> bool
    ensures { result ≡ list_any said.says_stop lines.now }
{
    for asked in lines {
        if let Line::Stop(_) = asked.line {
            return true;
        }
    }
    false
}

// Returns the number of the last line that calls a routine.
fn caller_in(lines: &[NumberedLine]) -> Option<usize>
    ensures { result ≡ said.caller_from None lines.now }
{
    let mut caller = None;
    for asked in lines {
        if let Line::Call(_) = asked.line {
            caller = Some(asked.number);
        }
    }
    caller
}

// Returns the line itself if it names a recording, and otherwise the earlier one.
fn replay_or<'a>(
    before: Option<NumberedLine<'a>>,
    asked: NumberedLine<'a>,
) -> Option<NumberedLine<'a>>
    ensures { result ≡ said.replay_or before.entry asked.entry }
{
    match asked.line {
        Line::Replay(_) => Some(asked),
        _ => before,
    }
}

/// Returns the last of these lines that names a recording.
pub fn replay_in<'a>(lines: &[NumberedLine<'a>]) -> Option<NumberedLine<'a>>
    ensures { result ≡ said.replay_from None lines.now }
{
    let mut found = None;
    for asked in lines {
        found = replay_or(found, *asked);
    }
    found
}

/// Returns the first of these lines that a recording rules out, because a session is repeated with its own keys and with the guard.
pub fn replay_conflict<'a>(lines: &[NumberedLine<'a>]) -> Option<NumberedLine<'a>>
    ensures { result ≡ find said.is_ruled_out lines.now }
{
    for asked in lines {
        if let Line::Keys(_) | Line::KeysAt(_) | Line::Free = asked.line {
            return Some(*asked);
        }
    }
    None
}

// Adds the requirement that a called routine returns, at the front, unless a line says how the run stops.
fn require_return<'a, A: Allocator + Copy>(
    lines: &mut Vec<NumberedLine<'a>, A>,
) -> Result<(), AllocError>
    ensures { OnOk result (lines.new.items ≡ said.returning lines.old.items ++ lines.old.items) }
{
    if says_stop(lines.as_slice()) {
        return Ok(());
    }
    if let Some(number) = caller_in(lines.as_slice()) {
        let line = Line::Stop(Cause::Returned);
        lines.insert(0, NumberedLine { number, line })?;
    }
    Ok(())
}

// Returns the case with this name, whose lines follow those before the first case.
fn case_with<'a, A: Allocator + Copy>(
    alloc: A,
    name: &'a [u8],
    head: &[NumberedLine<'a>],
    body: &[NumberedLine<'a>],
) -> Result<Case<'a, A>, AllocError>
    ensures { IfOk result (λ case. said.case_of case ≡ said.case_with name.now (head.now ++ body.now)) }
{
    let mut lines = Vec::from_slice(alloc, head)?;
    lines.extend_from_slice(body)?;
    require_return(&mut lines)?;
    Ok(Case {
        name,
        lines,
        session: None,
    })
}

// Returns a single case without a name, which has all lines.
fn whole<'a, A: Allocator + Copy>(
    alloc: A,
    lines: &[NumberedLine<'a>],
) -> Result<Vec<Case<'a, A>, A>, AllocError>
    ensures { IfOk result (λ cases. map said.case_of cases.items ≡ said.case_with [] lines.now ∷ []) }
{
    let case = case_with(alloc, b"", lines, &[])?;
    let mut cases = Vec::new(alloc);
    cases.push(case)?;
    Ok(cases)
}

/// Returns the cases of some lines. Each case begins with a line `case NAME` and ends before the next one. The lines
/// before the first case belong to every case; without any case, they are a single case without a name. Fails only if
/// memory runs out.
pub fn cases_of<'a, A: Allocator + Copy>(
    alloc: A,
    lines: &[NumberedLine<'a>],
) -> Result<Vec<Case<'a, A>, A>, AllocError>
    ensures { IfOk result (λ cases. map said.case_of cases.items ≡ said.cases_in lines.now) }
{
    let head = front(lines);
    let mut cases = Vec::new(alloc);
    let mut rest = lines;
    while let [asked, following @ ..] = rest {
        if let Some(name) = name_in(asked.line) {
            cases.push(case_with(alloc, name, head, front(following))?)?;
        }
        rest = following;
    }
    if cases.is_empty() {
        return whole(alloc, lines);
    }
    Ok(cases)
}
