//! The report as the XML of JUnit: a test suite for each solution.

use crate::cases::Case;
use crate::judge::Verdict;
use crate::report::outcome::Outcome;
use crate::report::pieces::{Piece, Spelling, put_pieces};
use crate::report::{Found, Solution};
use a2_stream::{Output, WriteFault, put};
use std::alloc::Global;

// Writes the test case of a case that did not pass, with its kind and reason.
fn put_failure<'a, W: Output>(
    name: &'a [u8],
    kind: &'a [u8],
    why: &'a [u8],
    writer: &mut W,
) -> Result<(), WriteFault> {
    put_pieces(
        Spelling::Xml,
        &[
            Piece::Plain(b"    <testcase name=\""),
            Piece::Text(name),
            Piece::Plain(b"\"><"),
            Piece::Plain(kind),
            Piece::Plain(b" message=\""),
            Piece::Text(why),
            Piece::Plain(b"\"/></testcase>\n"),
        ],
        writer,
    )
}

// Writes the test case of a case that was judged.
fn put_test<W: Output>(outcome: Outcome<'_>, writer: &mut W) -> Result<(), WriteFault> {
    if !outcome.passed {
        return put_failure(outcome.name, b"failure", outcome.report, writer);
    }
    put_pieces(
        Spelling::Xml,
        &[
            Piece::Plain(b"    <testcase name=\""),
            Piece::Text(outcome.name),
            Piece::Plain(b"\"/>\n"),
        ],
        writer,
    )
}

// Writes the test cases of a solution that was judged.
fn put_tests<'a, W: Output>(
    cases: &'a [Case<'_, Global>],
    verdicts: &'a [Verdict<Global>],
    writer: &mut W,
) -> Result<(), WriteFault> {
    for index in 0..verdicts.len() {
        put_test(Outcome::at(cases, index, &verdicts[index]), writer)?;
    }
    Ok(())
}

// Writes the test cases of a solution that has errors, with the reason.
fn put_errors<W: Output>(
    cases: &[Case<'_, Global>],
    why: &[u8],
    writer: &mut W,
) -> Result<(), WriteFault> {
    for case in cases {
        put_failure(case.name, b"error", why, writer)?;
    }
    Ok(())
}

/// Writes the test suite of a solution.
pub(crate) fn put_suite<W: Output>(
    solution: &Solution<'_, '_>,
    writer: &mut W,
) -> Result<(), WriteFault> {
    put_pieces(
        Spelling::Xml,
        &[
            Piece::Plain(b"  <testsuite name=\""),
            Piece::Text(solution.name),
            Piece::Plain(b"\" tests=\""),
            Piece::Number(solution.cases.len()),
            Piece::Plain(b"\">\n"),
        ],
        writer,
    )?;
    match solution.found {
        Found::Judged(verdicts) => put_tests(solution.cases, *verdicts, writer)?,
        Found::Refused(why) => put_errors(solution.cases, *why, writer)?,
        Found::Invalid(errors) => put_errors(solution.cases, errors.first, writer)?,
    }
    put(b"  </testsuite>\n", writer)
}
