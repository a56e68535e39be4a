//! The report as JSON: an object for each solution.

ghost use Rattle.std.specs.Prelude.{◌≡◌, IfOk};
ghost use Rattle.a2_tests.specs.Reports.{ReadsBack};

use crate::judge::Verdict;
use crate::report::outcome::Outcome;
use crate::report::pieces::shown_text;
use crate::report::{Found, Solution};
use a2_run::RunFault;
use a2_stream::{Output, put};
use json::Writer;
use std::alloc::{AllocError, Global};

// Writes a text.
fn put_string(alloc: Global, text: &[u8], json: &mut Writer) -> Result<(), AllocError>
    ensures { json.new.before ≡ json.old.before }
{
    let shown = shown_text(alloc, text)?;
    json.string(std::str::from_utf8(shown.as_slice()).unwrap_or(""))
}

// Writes why a case did not pass.
fn put_difference(alloc: Global, outcome: Outcome<'_>, json: &mut Writer) -> Result<(), AllocError>
    ensures { json.new.before ≡ json.old.before }
{
    if outcome.line > 0 {
        json.key("line")?;
        json.u64(outcome.line as u64)?;
    }
    json.key("difference")?;
    put_string(alloc, outcome.report, json)
}

// Writes the object of a case.
fn put_case(alloc: Global, outcome: Outcome<'_>, json: &mut Writer) -> Result<(), AllocError>
    ensures { json.new.before ≡ json.old.before }
{
    json.begin_object()?;
    json.key("case")?;
    put_string(alloc, outcome.name, json)?;
    json.key("passed")?;
    json.boolean(outcome.passed)?;
    if !outcome.passed {
        put_difference(alloc, outcome, json)?;
    }
    json.end_object()
}

// Writes the array of the cases of a solution.
fn put_cases(
    alloc: Global,
    solution: &Solution<'_, '_>,
    verdicts: &[Verdict<Global>],
    json: &mut Writer,
) -> Result<(), AllocError>
    ensures { json.new.before ≡ json.old.before }
{
    json.key("cases")?;
    json.begin_array()?;
    for index in 0..verdicts.len() {
        let outcome = Outcome::at(solution.cases, index, &verdicts[index]);
        put_case(alloc, outcome, json)?;
    }
    json.end_array()
}

// Writes why a solution was not judged.
fn put_error(alloc: Global, why: &[u8], json: &mut Writer) -> Result<(), AllocError>
    ensures { json.new.before ≡ json.old.before }
{
    json.key("error")?;
    put_string(alloc, why, json)
}

// Writes the members of the object of a solution.
fn put_members(
    alloc: Global,
    solution: &Solution<'_, '_>,
    json: &mut Writer,
) -> Result<(), AllocError>
    ensures { json.new.before ≡ json.old.before }
{
    json.key("file")?;
    put_string(alloc, solution.name, json)?;
    match solution.found {
        Found::Judged(verdicts) => put_cases(alloc, solution, *verdicts, json),
        Found::Refused(why) => put_error(alloc, *why, json),
        Found::Invalid(errors) => put_error(alloc, errors.first, json),
    }
}

// Returns the object of a solution as a text.
fn object_text(alloc: Global, solution: &Solution<'_, '_>) -> Result<Vec<u8>, AllocError>
    ensures { IfOk result (λ text. ReadsBack text.items) }
{
    let mut json = Writer::new(Vec::new(alloc));
    json.begin_object()?;
    put_members(alloc, solution, &mut json)?;
    json.end_object()?;
    Ok(json.into_inner())
}

/// Writes the object of a solution, after a comma if it is not the first.
pub(crate) fn put_object<W: Output>(
    alloc: Global,
    solution: &Solution<'_, '_>,
    writer: &mut W,
) -> Result<(), RunFault> {
    let text = object_text(alloc, solution)?;
    put(if solution.number == 0 { b"\n" } else { b",\n" }, writer)?;
    put(text.as_slice(), writer)?;
    Ok(())
}
