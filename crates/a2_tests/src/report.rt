//! The report on some solutions: a table, CSV, JSON, the XML of JUnit, or a page of HTML.

mod objects;
mod outcome;
mod pages;
mod pieces;
mod records;
mod suites;
mod table;

use crate::cases::Case;
use crate::judge::Verdict;
use a2_run::RunFault;
use a2_stream::{Output, put};
use objects::put_object;
use outcome::passed_of;
pub use pages::{Viewer, put_film};
use pages::{put_page_head, put_page_row, put_page_tail};
use records::put_record;
use std::alloc::Global;
use suites::put_suite;
use table::{put_row, put_totals};

/// The format of a report.
#[derive(Clone, Copy, Debug, PartialEq, Eq)]
pub enum Format {
    /// A line for each solution.
    Table,
    Csv,
    Json,
    Junit,
    /// A page with a table, in which a failed case opens.
    Html,
}

/// The result for a solution.
#[derive(Drop)]
pub enum Found<'a> {
    /// It was judged, with a verdict on each case.
    Judged(&'a [Verdict<Global>]),
    /// It could not be read, for this reason.
    Refused(&'a [u8]),
    /// Its source has errors.
    Invalid(SourceErrors<'a>),
}

/// The errors of a source: the first one in a few words, for formats that programs read, and the lines that say where each
/// error is and how to fix it, for a table.
#[derive(Clone, Copy)]
pub struct SourceErrors<'a> {
    pub first: &'a [u8],
    pub lines: &'a [u8],
}

/// A solution and what was found of it.
#[derive(Drop)]
pub struct Solution<'a, 'b> {
    /// Its number in the report, from 0.
    pub number: u32,
    /// The name of its file.
    pub name: &'b [u8],
    /// The cases by which it was judged.
    pub cases: &'b [Case<'a, Global>],
    pub found: &'b Found<'b>,
}

/// How many solutions passed all cases, failed a case, or had errors. Each count stays at 2^64 - 1.
#[derive(Clone, Copy, Debug, PartialEq, Eq)]
pub struct Totals {
    pub passed: u64,
    pub failed: u64,
    pub refused: u64,
}

impl Totals {
    /// Returns totals of zero.
    pub fn new() -> Totals {
        Totals {
            passed: 0,
            failed: 0,
            refused: 0,
        }
    }

    /// Returns how many solutions were counted, at most 2^64 - 1.
    pub(crate) fn all(&self) -> u64 {
        self.passed
            .saturating_add(self.failed)
            .saturating_add(self.refused)
    }

    /// Returns how many solutions were counted, at most 2^32 - 1.
    pub fn files(&self) -> u32 {
        u32::try_from(self.all()).unwrap_or(u32::MAX)
    }

    /// Counts a solution.
    pub fn count(&mut self, found: &Found<'_>) {
        match found {
            Found::Refused(_) | Found::Invalid(_) => self.refused = self.refused.saturating_add(1),
            Found::Judged(verdicts) => {
                if passed_of(*verdicts) == verdicts.len() {
                    self.passed = self.passed.saturating_add(1);
                } else {
                    self.failed = self.failed.saturating_add(1);
                }
            }
        }
    }
}

/// Writes the part of a report before the solutions.
pub fn put_head<W: Output>(
    format: Format,
    cases: &[Case<'_, Global>],
    writer: &mut W,
) -> Result<(), RunFault> {
    match format {
        Format::Table => {}
        Format::Csv => put(b"file,passed,cases,first difference\n", writer)?,
        Format::Json => put(b"[", writer)?,
        Format::Junit => put(
            b"<?xml version=\"1.0\" encoding=\"UTF-8\"?>\n<testsuites>\n",
            writer,
        )?,
        Format::Html => put_page_head(cases, writer)?,
    }
    Ok(())
}

/// Writes the result for a solution.
pub fn put_solution<W: Output>(
    alloc: Global,
    format: Format,
    solution: &Solution<'_, '_>,
    writer: &mut W,
) -> Result<(), RunFault> {
    match format {
        Format::Table => Ok(put_row(solution, writer)?),
        Format::Csv => put_record(alloc, solution, writer),
        Format::Json => put_object(alloc, solution, writer),
        Format::Junit => Ok(put_suite(solution, writer)?),
        Format::Html => Ok(put_page_row(solution, writer)?),
    }
}

/// Writes the part of a report after the solutions. A page has films, which need `viewer`.
pub fn put_tail<W: Output>(
    format: Format,
    totals: &Totals,
    viewer: Viewer<'_>,
    writer: &mut W,
) -> Result<(), RunFault> {
    match format {
        Format::Table => put_totals(totals, writer)?,
        Format::Csv => {}
        Format::Json => put(b"\n]\n", writer)?,
        Format::Junit => put(b"</testsuites>\n", writer)?,
        Format::Html => put_page_tail(totals, viewer, writer)?,
    }
    Ok(())
}
