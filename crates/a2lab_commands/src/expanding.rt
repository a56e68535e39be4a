//! Sources in the larger language: their expansion, with the files that they include.

ghost use Rattle.std.specs.Prelude.{◌≡◌, ◌≢◌, codes, IfSome};

use crate::files::text_of;
use crate::refusal::Refusal;
use a2_authors::{Home, errors_as_written, errors_at_home};
use a2_check::{ErrorFile, Format, ReportFault, put_errors, refusals_of};
use a2_expand::{
    ExpandFault, FaultReport, FaultText, LoadedFile, MOST_FILES, Origin, Problem, Warning, expand,
    fault_message, fault_report, uses_larger_operation, uses_nothing_larger,
};
use a2_host::Shelf;
use a2_run::read_text;
use a2_stream::{Input, Output, put, put_all};
use a2_syntax::Fault;
use a2_text::decimal;
use std::alloc::{AllocError, Global};
use std::str::from_utf8;

/// The source, or a file that it includes.
#[derive(Drop)]
pub struct SourceFile {
    pub name: Vec<u8>,
    pub text: Vec<u8>,
}

/// The plain text of a source, and where each of its lines comes from.
#[derive(Drop)]
pub struct Expanded {
    pub text: Vec<u8>,
    pub origins: Vec<Origin>,
    /// The source, and after it the files that it includes; `file` of an origin counts them from 0.
    pub files: Vec<SourceFile>,
    /// The messages of its lines WARN.
    pub warnings: Vec<u8>,
}

/// Why a source cannot be expanded.
#[derive(Drop)]
pub struct Unexpanded {
    /// The name of the file in which the error is.
    pub file: Vec<u8>,
    pub report: FaultReport<Global>,
    /// The whole message, as lines.
    pub message: Vec<u8>,
    // The name of the file that it needs, if this is the error.
    needed: Option<Vec<u8>>,
}

/// What expanding a source gives.
#[derive(Drop)]
pub enum Expansion {
    Done(Expanded),
    Failed(Unexpanded),
}

// The plain text, where its lines come from, and the messages of its lines WARN.
#[derive(Drop)]
struct Made {
    text: Vec<u8>,
    origins: Vec<Origin>,
    warnings: Vec<u8>,
}

// What a try to expand a source gives.
#[derive(Drop)]
enum Attempt {
    Done(Made),
    Failed(Unexpanded),
}

// Returns a file as `expand` takes it.
fn view(file: &SourceFile) -> LoadedFile<'_> {
    LoadedFile {
        name: file.name.as_slice(),
        text: file.text.as_slice(),
    }
}

// Returns files as `expand` takes them.
fn views(alloc: Global, files: &[SourceFile]) -> Result<Vec<LoadedFile<'_>>, AllocError> {
    let mut found = Vec::new(alloc);
    for file in files {
        found.push(view(file))?;
    }
    Ok(found)
}

// Returns the file with this number, 0 for the source.
fn numbered<'f>(files: &[LoadedFile<'f>], number: usize) -> LoadedFile<'f> {
    match files.get(number) {
        Some(file) => *file,
        None => LoadedFile {
            name: b"",
            text: b"",
        },
    }
}

// Appends the message of a line WARN.
fn put_warning(
    out: &mut Vec<u8>,
    warning: &Warning<Global>,
    files: &[LoadedFile<'_>],
) -> Result<(), AllocError> {
    out.extend_from_slice(numbered(files, warning.at.file).name)?;
    out.extend_from_slice(b":")?;
    out.extend_from_slice(decimal(warning.at.line as u64).as_slice())?;
    out.extend_from_slice(b": warning: ")?;
    out.extend_from_slice(warning.text.as_slice())?;
    out.extend_from_slice(b"\n")
}

// Returns the messages of all lines WARN.
fn warnings_in(
    alloc: Global,
    warnings: &[Warning<Global>],
    files: &[LoadedFile<'_>],
) -> Result<Vec<u8>, AllocError> {
    let mut out = Vec::new(alloc);
    for warning in warnings {
        put_warning(&mut out, warning, files)?;
    }
    Ok(out)
}

// Returns the name of the file that a source needs, if a fault says so.
fn needed_by(alloc: Global, fault: &ExpandFault) -> Result<Option<Vec<u8>>, AllocError> {
    if fault.problem == Problem::NeedsFile {
        return Ok(Some(Vec::from_slice(alloc, fault.word.as_slice())?));
    }
    Ok(None)
}

// Returns the message of a fault, and, if it is in a macro, the macro and the line that calls it.
fn message_in(
    alloc: Global,
    text: FaultText<'_>,
    fault: &ExpandFault,
) -> Result<Vec<u8>, AllocError> {
    let mut out = fault_message(alloc, text, fault)?;
    if fault.at.call > 0 {
        out.extend_from_slice(b"     = in the macro ")?;
        out.extend_from_slice(fault.within.as_slice())?;
        out.extend_from_slice(b", by the call in line ")?;
        out.extend_from_slice(decimal(fault.from.line as u64).as_slice())?;
        out.extend_from_slice(b"\n")?;
    }
    Ok(out)
}

// Returns why a source is not expanded.
fn failed(
    alloc: Global,
    fault: &ExpandFault,
    files: &[LoadedFile<'_>],
) -> Result<Unexpanded, AllocError> {
    let file = numbered(files, fault.at.file);
    let text = FaultText {
        name: file.name,
        source: file.text,
    };
    Ok(Unexpanded {
        file: Vec::from_slice(alloc, file.name)?,
        report: fault_report(alloc, file.text, fault)?,
        message: message_in(alloc, text, fault)?,
        needed: needed_by(alloc, fault)?,
    })
}

// Tries to expand the first of these files with the others, which were read so far.
fn try_expanding(alloc: Global, files: &[SourceFile]) -> Result<Attempt, AllocError> {
    let files = views(alloc, files)?;
    let Some((source, included)) = files.as_slice().split_first() else {
        return Err(AllocError);
    };
    match expand(alloc, *source, included) {
        Ok(made) => {
            let warnings = warnings_in(alloc, made.warnings.as_slice(), files.as_slice())?;
            Ok(Attempt::Done(Made {
                text: made.text,
                origins: made.origins,
                warnings,
            }))
        }
        Err(fault) => {
            if fault.problem == Problem::Memory {
                return Err(AllocError);
            }
            Ok(Attempt::Failed(failed(alloc, &fault, files.as_slice())?))
        }
    }
}

// Reads the file with this name, or returns `None` if it cannot be read.
fn file_at<S: Shelf>(alloc: Global, name: &[u8], shelf: &mut S) -> Option<Vec<u8>> {
    let path = from_utf8(name).ok()?;
    let mut reader = shelf.open(path).ok()?;
    read_text(alloc, &mut reader).ok()
}

// Reads the file that a source needs, or returns `None` if it needs none or the file cannot be read.
fn file_for<S: Shelf>(
    alloc: Global,
    attempt: &Attempt,
    shelf: &mut S,
) -> Result<Option<SourceFile>, AllocError> {
    let Attempt::Failed(why) = attempt else {
        return Ok(None);
    };
    let Some(needed) = &why.needed else {
        return Ok(None);
    };
    let Some(text) = file_at(alloc, needed.as_slice(), shelf) else {
        return Ok(None);
    };
    let name = Vec::from_slice(alloc, needed.as_slice())?;
    Ok(Some(SourceFile { name, text }))
}

/// Expands `text`, the source `name`, and reads the files that it includes.
pub fn expansion_of<S: Shelf>(
    alloc: Global,
    name: Option<&str>,
    text: &[u8],
    shelf: &mut S,
) -> Result<Expansion, AllocError> {
    let mut files = Vec::new(alloc);
    let name = Vec::from_slice(alloc, name.unwrap_or("-").as_bytes())?;
    let text = Vec::from_slice(alloc, text)?;
    files.push(SourceFile { name, text })?;
    let mut attempt = try_expanding(alloc, files.as_slice())?;
    for _ in 0..MOST_FILES {
        let Some(file) = file_for(alloc, &attempt, shelf)? else {
            break;
        };
        files.push(file)?;
        attempt = try_expanding(alloc, files.as_slice())?;
    }
    Ok(match attempt {
        Attempt::Done(made) => Expansion::Done(Expanded {
            text: made.text,
            origins: made.origins,
            files,
            warnings: made.warnings,
        }),
        Attempt::Failed(why) => Expansion::Failed(why),
    })
}

/// How a source is read.
#[derive(Drop)]
pub enum Reading {
    /// As it is.
    Plain,
    /// As its expansion.
    Larger(Expanded),
    /// It has an operation of the larger language, and cannot be expanded.
    Failed(Unexpanded),
}

/// Returns how a source is read. A source that cannot be expanded is read as it is if it has no operation of the larger language: the
/// errors of the source itself say more then.
pub fn reading_of<S: Shelf>(
    alloc: Global,
    name: Option<&str>,
    text: &[u8],
    shelf: &mut S,
) -> Result<Reading, AllocError> {
    if uses_nothing_larger(alloc, text)? {
        return Ok(Reading::Plain);
    }
    match expansion_of(alloc, name, text, shelf)? {
        Expansion::Done(made) => {
            if made.text.as_slice() == text {
                return Ok(Reading::Plain);
            }
            Ok(Reading::Larger(made))
        }
        Expansion::Failed(why) => {
            if uses_larger_operation(alloc, text)? {
                return Ok(Reading::Failed(why));
            }
            Ok(Reading::Plain)
        }
    }
}

/// Returns an expansion together with what its author wrote.
pub fn home_of(alloc: Global, made: &Expanded) -> Result<Home<'_, Global>, AllocError> {
    let mut texts = Vec::new(alloc);
    for file in made.files.iter() {
        texts.push(file.text.as_slice())?;
    }
    Home::new(
        alloc,
        made.text.as_slice(),
        made.origins.as_slice(),
        texts.as_slice(),
    )
}

// Returns the name of a file, or `?` if it is not text.
fn name_of(file: &SourceFile) -> &str {
    from_utf8(file.name.as_slice()).unwrap_or("?")
}

// Returns a file with this name and these lines.
fn error_file<'s>(name: &'s str, lines: &'s [&'s [u8]]) -> ErrorFile<'s> {
    ErrorFile { name, lines }
}

/// Returns the source and the files that it includes, with their lines.
pub fn files_at_home<'s: 'h, 'h>(
    alloc: Global,
    made: &'s Expanded,
    home: &'h Home<'s, Global>,
) -> Result<Vec<ErrorFile<'h>>, AllocError> {
    let mut files = Vec::new(alloc);
    for (number, file) in made.files.iter().enumerate() {
        files.push(error_file(name_of(file), home.lines_of(number)))?;
    }
    Ok(files)
}

/// Writes the errors of an expansion in this format, each at the line of the source or file that it comes from.
pub fn put_errors_at_home<W: Output>(
    alloc: Global,
    made: &Expanded,
    refusals: &[Fault],
    format: Format,
    writer: &mut W,
) -> Result<(), ReportFault> {
    let home = home_of(alloc, made)?;
    let errors = errors_at_home(alloc, &home, refusals)?;
    let files = files_at_home(alloc, made, &home)?;
    put_errors(alloc, errors.as_slice(), files.as_slice(), format, writer)
}

// Says that the lines of a source are those of its expansion.
fn note_expansion<E: Output>(name: &str, complaints: &mut E) {
    let name = name.as_bytes();
    let pieces: [&[u8]; 5] = [
        b"a2lab: ",
        name,
        b": lines are those of the expansion: a2lab expand ",
        name,
        b"\n",
    ];
    // If this fails, there is no place left to report it.
    let _ = put_all(&pieces, complaints);
}

// Returns the text that a command assembles: the expansion, or the source `text` itself if its own errors say more. Reports the errors of
// the expansion otherwise.
fn text_to_assemble<'a, E: Output>(
    alloc: Global,
    file: Option<&str>,
    text: Vec<u8>,
    made: Expanded,
    complaints: &mut E,
) -> Result<Vec<u8>, Refusal<'a>> {
    let errors = refusals_of(alloc, made.text.as_slice())?;
    if errors.is_empty() {
        // If this fails, there is no place left to report it.
        let _ = put(made.warnings.as_slice(), complaints);
        note_expansion(file.unwrap_or("-"), complaints);
        return Ok(made.text);
    }
    let home = home_of(alloc, &made)?;
    if errors_as_written(alloc, &home, text.as_slice(), errors.as_slice())?.is_some() {
        return Ok(text);
    }
    let _ = put(made.warnings.as_slice(), complaints);
    let _ = put_errors_at_home(alloc, &made, errors.as_slice(), Format::Long, complaints);
    Err(Refusal::Reported)
}

/// Returns the text that a command assembles of `text`, the source `file`. If that uses the larger language, a line on `complaints` says that
/// the lines are those of the expansion. If it cannot be expanded, or its expansion has errors, reports why. The errors of a plain source
/// are not reported here.
pub fn expanded_text<'a, S: Shelf, E: Output>(
    alloc: Global,
    file: Option<&str>,
    text: Vec<u8>,
    shelf: &mut S,
    complaints: &mut E,
) -> Result<Vec<u8>, Refusal<'a>> {
    match reading_of(alloc, file, text.as_slice(), shelf)? {
        Reading::Plain => Ok(text),
        Reading::Larger(made) => text_to_assemble(alloc, file, text, made, complaints),
        Reading::Failed(why) => {
            // If this fails, there is no place left to report it.
            let _ = put(why.message.as_slice(), complaints);
            Err(Refusal::Reported)
        }
    }
}

/// Reads the source `file`, or standard input if there is none or it is `-`, and expands it. If it uses the larger language, a line on
/// `complaints` says that its lines are those of the expansion. If it cannot be expanded, reports why.
pub fn expanded_text_of<'a, S: Shelf, R: Input, E: Output>(
    alloc: Global,
    file: Option<&'a str>,
    shelf: &mut S,
    input: &mut R,
    complaints: &mut E,
) -> Result<Vec<u8>, Refusal<'a>>
    // Standard input is not read in place of a file that cannot be opened.
    ensures unread { IfSome file.entry (λ name. name.now ≢ codes "-" → input.new ≡ input.old) }
{
    let text = text_of(alloc, file, shelf, input)?;
    expanded_text(alloc, file, text, shelf, complaints)
}
