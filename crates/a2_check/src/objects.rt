//! Errors as objects of JSON.

ghost use Rattle.std.specs.Prelude.{◌≡◌, IfOk};
ghost use Rattle.a2_check.specs.Objects.{ReadsBack};

use crate::reports::Report;
use json::Writer;
use std::alloc::{AllocError, Allocator};
use std::str::from_utf8;

// Writes the members with the place of an error.
fn put_place<A: Allocator + Copy>(
    report: Report<'_, A>,
    json: &mut Writer<A>,
) -> Result<(), AllocError>
    ensures { json.new.before ≡ json.old.before }
{
    json.key("file")?;
    json.string(report.file)?;
    json.key("line")?;
    json.u64(report.error.line as u64)?;
    json.key("column")?;
    json.u64(report.error.column as u64)?;
    json.key("width")?;
    json.u64(report.error.width as u64)
}

// Writes the members with the code and the sentences of an error, which are ASCII.
fn put_words<A: Allocator + Copy>(
    report: Report<'_, A>,
    json: &mut Writer<A>,
) -> Result<(), AllocError>
    ensures { json.new.before ≡ json.old.before }
{
    json.key("code")?;
    json.string(report.error.code)?;
    json.key("text")?;
    json.string(from_utf8(report.error.text.as_slice()).unwrap_or(""))?;
    json.key("fix")?;
    json.string(from_utf8(report.error.fix.as_slice()).unwrap_or(""))
}

/// Returns the object of an error as a text of JSON. It reads back as what was written.
pub(crate) fn object_text<A: Allocator + Copy>(
    alloc: A,
    report: Report<'_, A>,
) -> Result<Vec<u8, A>, AllocError>
    ensures { IfOk result (λ text. ReadsBack text.items) }
{
    let mut json = Writer::new(Vec::new(alloc));
    json.begin_object()?;
    put_place(report, &mut json)?;
    put_words(report, &mut json)?;
    json.end_object()?;
    Ok(json.into_inner())
}
