//! What is said of a source in the larger language: why it cannot be expanded, and the warnings for its expansion.

use a2_authors::{PlacedWarning, warnings_at_home};
use a2_check::{ErrorFile, Format, ReportFault, SourceError, Warning, put_errors, put_warnings};
use a2_stream::{Output, put_all};
use a2lab_commands::{Expanded, Unexpanded, files_at_home, home_of};
use std::alloc::{AllocError, Global};
use std::str::from_utf8;

// Returns the only error of a source that cannot be expanded.
fn errors_of(alloc: Global, why: &Unexpanded) -> Result<Vec<SourceError>, AllocError> {
    let mut errors = Vec::new(alloc);
    errors.push(SourceError {
        file: 0,
        line: why.report.line,
        column: why.report.column,
        width: why.report.width,
        code: "",
        text: Vec::from_slice(alloc, why.report.text.as_slice())?,
        fix: Vec::from_slice(alloc, why.report.fix.as_slice())?,
    })?;
    Ok(errors)
}

// Returns the file in which that error is, without its lines, which only the long format shows.
fn file_of(why: &Unexpanded) -> ErrorFile<'_> {
    ErrorFile {
        name: from_utf8(why.file.as_slice()).unwrap_or("?"),
        lines: &[],
    }
}

/// Writes why a source cannot be expanded, as an error in this format.
pub(crate) fn put_unexpanded<W: Output>(
    alloc: Global,
    format: Format,
    why: &Unexpanded,
    output: &mut W,
) -> Result<(), ReportFault> {
    if format == Format::Long {
        return Ok(put_all(&[why.message.as_slice(), b"1 error\n"], output)?);
    }
    let errors = errors_of(alloc, why)?;
    put_errors(alloc, errors.as_slice(), &[file_of(why)], format, output)
}

// Returns the warnings for the lines of one file.
fn warnings_in_file(
    alloc: Global,
    placed: &[PlacedWarning],
    file: usize,
) -> Result<Vec<Warning>, AllocError> {
    let mut found = Vec::new(alloc);
    for one in placed {
        if one.file == file {
            found.push(one.warning)?;
        }
    }
    Ok(found)
}

/// Writes the warnings for an expansion, each at the line of the source that it comes from.
pub(crate) fn put_expanded_warnings<E: Output>(
    alloc: Global,
    made: &Expanded,
    warnings: &[Warning],
    complaints: &mut E,
) -> Result<(), AllocError> {
    let home = home_of(alloc, made)?;
    let placed = warnings_at_home(alloc, &home, warnings)?;
    let files = files_at_home(alloc, made, &home)?;
    for (number, file) in files.iter().enumerate() {
        let found = warnings_in_file(alloc, placed.as_slice(), number)?;
        // If this fails, there is no place left to report it.
        let _ = put_warnings(file.name, file.lines, found.as_slice(), complaints);
    }
    Ok(())
}
