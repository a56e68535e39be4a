//! The report as CSV: a row for each solution.

ghost use Rattle.std.specs.Prelude.{◌≡◌, IfOk, IsTrue, option_map};
ghost use Rattle.csv.specs.Records.{fields_of};
ghost use Rattle.a2_tests.specs.Reports.{ReadsAsRecord, first_fields};

use crate::report::Solution;
use crate::report::pieces::{put_reason, shown_text};
use a2_run::RunFault;
use a2_stream::{Output, ToWrite, put};
use a2_text::decimal;
use csv::{ByteRecord, Error, QuoteStyle, ReaderBuilder, WriterBuilder};
use std::alloc::{AllocError, Global};

// Returns the text of a row, as the library writes it: it quotes each field that is not a number.
fn written(alloc: Global, row: &ByteRecord) -> Result<Vec<u8>, AllocError> {
    let mut writer = WriterBuilder::new()
        .quote_style(QuoteStyle::NonNumeric)
        .from_writer(Vec::new(alloc));
    if writer.write_byte_record(row).is_err() {
        return Err(AllocError);
    }
    match writer.into_inner() {
        Ok(text) => Ok(text),
        Err(_) => Err(AllocError),
    }
}

// Returns the first row of a text, as the library reads it.
fn first_row(alloc: Global, text: &[u8]) -> Result<Option<ByteRecord>, Error>
    ensures { IfOk result (λ row. option_map fields_of row ≡ first_fields text.now) }
{
    let mut reader = ReaderBuilder::new()
        .has_headers(false)
        .from_reader(alloc, text);
    let mut row = ByteRecord::new(alloc);
    if reader.read_byte_record(&mut row)? {
        Ok(Some(row))
    } else {
        Ok(None)
    }
}

// Whether the first row of a text is exactly this row. Also false if there is not enough memory.
fn is_read_as(alloc: Global, text: &[u8], row: &ByteRecord) -> bool
    ensures { IsTrue result → ReadsAsRecord text.now row.now }
{
    match first_row(alloc, text) {
        Ok(Some(same)) => same == *row,
        Ok(None) => false,
        Err(_error) => false,
    }
}

// Returns the text of a row. It is read back before it is returned, and reads as exactly that row.
fn record_text(alloc: Global, row: &ByteRecord) -> Result<Vec<u8>, AllocError>
    ensures { IfOk result (λ text. ReadsAsRecord text.items row.now) }
{
    let text = written(alloc, row)?;
    if is_read_as(alloc, text.as_slice(), row) {
        Ok(text)
    } else {
        Err(AllocError)
    }
}

// Returns the row of a solution: file, passed cases, cases, first difference.
fn record_of(alloc: Global, solution: &Solution<'_, '_>) -> Result<ByteRecord, AllocError> {
    let name = shown_text(alloc, solution.name)?;
    let (passed, cases) = (
        decimal(solution.passed() as u64),
        decimal(solution.cases.len() as u64),
    );
    let mut reason = Vec::new(alloc);
    if put_reason(solution.reason(), &mut ToWrite::new(&mut reason)).is_err() {
        return Err(AllocError);
    }
    ByteRecord::from_fields(
        alloc,
        &[
            name.as_slice(),
            passed.as_slice(),
            cases.as_slice(),
            reason.as_slice(),
        ],
    )
}

/// Writes the row of a solution.
pub(crate) fn put_record<W: Output>(
    alloc: Global,
    solution: &Solution<'_, '_>,
    writer: &mut W,
) -> Result<(), RunFault> {
    let row = record_of(alloc, solution)?;
    let text = record_text(alloc, &row)?;
    put(text.as_slice(), writer)?;
    Ok(())
}
