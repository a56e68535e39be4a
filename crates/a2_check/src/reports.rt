//! Writes the messages for errors.

use crate::errors::{SourceError, errors_of, put_shown};
use crate::objects::object_text;
use a2_stream::{Output, WriteFault, put, put_all};
use a2_syntax::Fault;
use a2_text::{cut, decimal};
use std::alloc::{AllocError, Allocator};
use thiserror::Error;

/// The most errors that are written in the long format.
const MOST_AT_LENGTH: usize = 20;

/// The format of error messages.
#[derive(Clone, Copy, Debug, PartialEq, Eq)]
pub enum Format {
    /// Three lines for each error: what is wrong, the line, and the fix below the place. At most 20 errors are written, then
    /// how many more there are; the last line has their number.
    Long,
    /// One line for each error, as compilers write them and editors read them: `FILE:LINE:COLUMN: error: E2: TEXT`.
    Short,
    /// A JSON array of objects.
    Json,
}

/// Why errors cannot be written.
#[derive(Clone, Copy, Debug, PartialEq, Eq, Error)]
pub enum ReportFault {
    /// A write failed.
    #[error("WRITE FAULT")]
    Write,
    /// There was not enough memory.
    #[error("NO MEMORY")]
    Memory,
}

impl From<AllocError> for ReportFault {
    fn from(_error: AllocError) -> ReportFault {
        ReportFault::Memory
    }
}

impl From<WriteFault> for ReportFault {
    fn from(_fault: WriteFault) -> ReportFault {
        ReportFault::Write
    }
}

/// A file that can have errors.
#[derive(Clone, Copy)]
pub struct ErrorFile<'a> {
    pub name: &'a str,
    /// Its lines, as written.
    pub lines: &'a [&'a [u8]],
}

/// An error to write.
#[derive(Clone, Copy)]
pub(crate) struct Report<'a, A: Allocator> {
    /// The name of the file that it is in.
    pub file: &'a str,
    /// The line with the error, as written there.
    pub written: &'a [u8],
    pub error: &'a SourceError<A>,
}

// Writes a number in decimal.
fn put_number<W: Output>(number: usize, writer: &mut W) -> Result<(), WriteFault> {
    put(decimal(number as u64).as_slice(), writer)
}

// Writes a byte `count` times.
fn put_times<W: Output>(byte: u8, count: usize, writer: &mut W) -> Result<(), WriteFault> {
    for _ in 0..count {
        put(&[byte], writer)?;
    }
    Ok(())
}

// Returns the template of a report in a format of lines. A capital letter stands for a part, as `put_part` writes it; any other
// byte stands for itself. A line that is too long is not shown.
fn form_of<A: Allocator + Copy>(report: Report<'_, A>, format: Format) -> &'static [u8] {
    match format {
        Format::Long if report.error.line == 0 => b"errorK: FT\n     = M\n",
        Format::Long if report.written.len() > 255 => {
            b"errorK: Fline L, column C: T\n     = M\n"
        }
        Format::Long => b"errorK: Fline L, column C: T\nIL | S\n     | PU M\n",
        _ if report.error.line == 0 => b"N: error: ET; M\n",
        _ => b"N:L:C: error: ET; M\n",
    }
}

// Writes a text between two others, or nothing if it is empty.
fn put_around<W: Output>(
    front: &[u8],
    text: &[u8],
    back: &[u8],
    writer: &mut W,
) -> Result<(), WriteFault> {
    if text.is_empty() {
        Ok(())
    } else {
        put_all(&[front, text, back], writer)
    }
}

// Returns the name of the file of a report, if it is not the source itself.
fn other_file<'a, A: Allocator + Copy>(report: Report<'a, A>) -> &'a [u8] {
    if report.error.file == 0 {
        b""
    } else {
        report.file.as_bytes()
    }
}

// Writes one part of a report.
fn put_part<A: Allocator + Copy, W: Output>(
    part: u8,
    report: Report<'_, A>,
    writer: &mut W,
) -> Result<(), WriteFault> {
    let Report {
        file,
        written,
        error,
    } = report;
    match part {
        b'N' => put(file.as_bytes(), writer),
        b'F' => put_around(b"", other_file(report), b": ", writer),
        b'K' => put_around(b"[", error.code.as_bytes(), b"]", writer),
        b'E' => put_around(b"", error.code.as_bytes(), b": ", writer),
        b'L' => put_number(error.line, writer),
        b'C' => put_number(error.column, writer),
        b'T' => put(error.text.as_slice(), writer),
        b'M' => put(error.fix.as_slice(), writer),
        b'S' => put_shown(written, writer),
        b'I' => {
            let digits = decimal(error.line as u64).len();
            put_times(b' ', 4usize.saturating_sub(digits), writer)
        }
        b'P' => put_times(b' ', error.column.saturating_sub(1), writer),
        b'U' => put_times(b'^', error.width, writer),
        _ => put(&[part], writer),
    }
}

// Writes a report by its template.
fn put_report<A: Allocator + Copy, W: Output>(
    report: Report<'_, A>,
    format: Format,
    writer: &mut W,
) -> Result<(), WriteFault> {
    for part in form_of(report, format) {
        put_part(*part, report, writer)?;
    }
    Ok(())
}

// Writes how many errors were left out, if any, and how many there are.
fn put_count<W: Output>(count: usize, writer: &mut W) -> Result<(), WriteFault> {
    let more = count.saturating_sub(MOST_AT_LENGTH);
    if more > 0 {
        put(b"and ", writer)?;
        put_number(more, writer)?;
        put(b" more\n", writer)?;
    }
    put_number(count, writer)?;
    put(
        if count == 1 {
            b" error\n"
        } else {
            b" errors\n"
        },
        writer,
    )
}

// Writes an error in a list of errors in this format. `front` is before it in an array.
fn put_error<A: Allocator + Copy, W: Output>(
    alloc: A,
    report: Report<'_, A>,
    format: Format,
    front: &[u8],
    writer: &mut W,
) -> Result<(), ReportFault> {
    if format != Format::Json {
        return Ok(put_report(report, format, writer)?);
    }
    let text = object_text(alloc, report)?;
    put(front, writer)?;
    Ok(put(text.as_slice(), writer)?)
}

// Writes the end of a list of `count` errors.
fn put_end<W: Output>(format: Format, count: usize, writer: &mut W) -> Result<(), WriteFault> {
    match format {
        Format::Long => put_count(count, writer),
        Format::Short => Ok(()),
        Format::Json => put(if count == 0 { b"[]\n" } else { b"]\n" }, writer),
    }
}

// Returns an error with what is written of its file.
fn report_of<'s, A: Allocator>(
    files: &'s [ErrorFile<'s>],
    error: &'s SourceError<A>,
) -> Report<'s, A> {
    match files.get(error.file) {
        Some(file) => Report {
            file: file.name,
            written: file
                .lines
                .get(error.line.wrapping_sub(1))
                .copied()
                .unwrap_or(b""),
            error,
        },
        None => Report {
            file: "-",
            written: b"",
            error,
        },
    }
}

/// Writes these errors in this format: the place of each, what is wrong and how to fix it. `files` are the source, and after it the files
/// that it includes; `file` of an error counts them from 0. In the long format an error names its file if that is not the source. Fails if a
/// write fails, or if there is not enough memory. This project's profile.
pub fn put_errors<A: Allocator + Copy, W: Output>(
    alloc: A,
    errors: &[SourceError<A>],
    files: &[ErrorFile<'_>],
    format: Format,
    writer: &mut W,
) -> Result<(), ReportFault> {
    let most = match format {
        Format::Long => MOST_AT_LENGTH.min(errors.len()),
        Format::Short | Format::Json => errors.len(),
    };
    let mut front = b"[".as_slice();
    for error in &errors[..most] {
        put_error(alloc, report_of(files, error), format, front, writer)?;
        front = b",\n ";
    }
    Ok(put_end(format, errors.len(), writer)?)
}

// Writes these errors of a source that includes no files, given its name and its lines.
fn put_of_lines<'s, A: Allocator + Copy, W: Output>(
    alloc: A,
    errors: &[SourceError<A>],
    source: (&'s str, &'s [&'s [u8]]),
    format: Format,
    writer: &mut W,
) -> Result<(), ReportFault> {
    let (name, lines) = source;
    let file = ErrorFile { name, lines };
    put_errors(alloc, errors, &[file], format, writer)
}

/// Writes the message for each of these errors of `source`, which is called `name`, in this format: its place, what is wrong
/// and how to fix it. After errors of lines that are not in the grammar come those of other lines that no fix of these lines can change.
/// Fails if a write fails, or if there is not enough memory. This project's profile.
pub fn put_refusals<A: Allocator + Copy, W: Output>(
    alloc: A,
    name: &str,
    source: &[u8],
    refusals: &[Fault],
    format: Format,
    writer: &mut W,
) -> Result<(), ReportFault> {
    let errors = errors_of(alloc, source, refusals)?;
    let lines = cut(alloc, source)?;
    put_of_lines(
        alloc,
        errors.as_slice(),
        (name, lines.as_slice()),
        format,
        writer,
    )
}
