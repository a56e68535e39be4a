//! The outcome of each case of a solution, and why a solution did not pass.

use crate::cases::Case;
use crate::judge::Verdict;
use crate::report::{Found, Solution};
use std::alloc::Global;

/// Returns how many cases passed.
pub(crate) fn passed_of(verdicts: &[Verdict<Global>]) -> usize {
    let mut count: usize = 0;
    for verdict in verdicts {
        if matches!(verdict, Verdict::Passed) {
            count = count.saturating_add(1);
        }
    }
    count
}

/// A case of a solution: its name and whether it passed. If it did not, also the line of the WANT file that was not met,
/// or 0, and the report on it.
#[derive(Clone, Copy)]
pub(crate) struct Outcome<'a> {
    pub name: &'a [u8],
    pub passed: bool,
    pub line: usize,
    pub report: &'a [u8],
}

impl<'a> Outcome<'a> {
    /// Returns the outcome of the case at an index.
    pub(crate) fn at(
        cases: &'a [Case<'_, Global>],
        index: usize,
        verdict: &'a Verdict<Global>,
    ) -> Outcome<'a> {
        Outcome {
            name: name_at(cases, index),
            passed: matches!(verdict, Verdict::Passed),
            line: line_of(verdict),
            report: report_of(verdict),
        }
    }
}

// Returns the line of the WANT file that a verdict names, or 0.
fn line_of(verdict: &Verdict<Global>) -> usize {
    match verdict {
        Verdict::Missed(line, _) => *line,
        Verdict::Passed | Verdict::NotCalled(_) | Verdict::Overfull(_) => 0,
    }
}

// Returns the report of a verdict.
fn report_of(verdict: &Verdict<Global>) -> &[u8] {
    match verdict {
        Verdict::Passed => b"",
        Verdict::Missed(_, report) | Verdict::NotCalled(report) | Verdict::Overfull(report) => {
            report.as_slice()
        }
    }
}

// Returns the name of the case at an index, or an empty name if there is no such case.
fn name_at<'a>(cases: &'a [Case<'_, Global>], index: usize) -> &'a [u8] {
    match cases.get(index) {
        Some(case) => case.name,
        None => b"",
    }
}

/// Why a solution did not pass all its cases.
#[derive(Clone, Copy)]
pub(crate) enum Reason<'a> {
    /// It passed all of them.
    Nothing,
    /// The first case that it did not pass.
    Failed(Outcome<'a>),
    /// It was not judged.
    Refused(&'a [u8]),
}

// Returns the first case that did not pass.
fn first_failed<'a>(cases: &'a [Case<'_, Global>], verdicts: &'a [Verdict<Global>]) -> Reason<'a> {
    for index in 0..verdicts.len() {
        let outcome = Outcome::at(cases, index, &verdicts[index]);
        if !outcome.passed {
            return Reason::Failed(outcome);
        }
    }
    Reason::Nothing
}

impl<'a, 'b> Solution<'a, 'b> {
    /// Returns how many cases the solution passed.
    pub(crate) fn passed(&self) -> usize {
        match self.found {
            Found::Judged(verdicts) => passed_of(*verdicts),
            Found::Refused(_) | Found::Invalid(_) => 0,
        }
    }

    /// Returns why the solution did not pass all its cases.
    pub(crate) fn reason(&self) -> Reason<'_> {
        match self.found {
            Found::Judged(verdicts) => first_failed(self.cases, *verdicts),
            Found::Refused(why) => Reason::Refused(*why),
            Found::Invalid(errors) => Reason::Refused(errors.first),
        }
    }
}
