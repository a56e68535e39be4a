//! The errors and warnings of a document in the larger language, at its own lines.

use crate::checks::Found;
use crate::page::Page;
use a2_authors::{Home, errors_as_written, errors_at_home, warnings_at_home};
use a2_check::{SourceError, Verdict, Warning, verdict_of, warnings_of};
use a2_expand::{
    ExpandFault, Expansion, LoadedFile, Problem, expand, fault_report, uses_larger_operation,
    uses_nothing_larger,
};
use a2_syntax::Fault;
use a2_text::cut;
use bumpalo::Bump;
use std::alloc::{AllocError, Global};

// Returns why a document cannot be expanded.
fn found_of_fault(page: &Page<'_>, fault: &ExpandFault) -> Result<Found, AllocError> {
    let report = fault_report(page.alloc, page.text, fault)?;
    let mut errors = Vec::new(page.alloc);
    errors.push(SourceError {
        file: 0,
        line: report.line,
        column: report.column,
        width: report.width,
        code: "",
        text: report.text,
        fix: report.fix,
    })?;
    Ok(Found::Errors(errors))
}

// Returns the errors of an expansion at the lines of the document, or `None` if the errors of the document itself say more.
fn errors_in(
    page: &Page<'_>,
    home: &Home<'_, Global>,
    errors: &[Fault],
) -> Result<Option<Found>, AllocError> {
    if errors_as_written(page.alloc, home, page.text, errors)?.is_some() {
        return Ok(None);
    }
    Ok(Some(Found::Errors(errors_at_home(page.alloc, home, errors)?)))
}

// Returns the warnings for an expansion, at the lines of the document.
fn warnings_in(
    page: &Page<'_>,
    home: &Home<'_, Global>,
    warnings: &[Warning],
) -> Result<Found, AllocError> {
    let placed = warnings_at_home(page.alloc, home, warnings)?;
    let mut found = Vec::new(page.alloc);
    for one in placed.as_slice() {
        found.push(one.warning)?;
    }
    Ok(Found::Warnings(found))
}

// Returns what is found in the expansion of a document, or `None` if the errors of the document itself say more.
fn found_in_expansion(
    page: &Page<'_>,
    made: &Expansion<'_, Global>,
) -> Result<Option<Found>, AllocError> {
    let text = made.text.as_slice();
    let home = Home::new(page.alloc, text, made.origins.as_slice(), &[page.text])?;
    // The lines and the program are allocated in an arena and freed together.
    let arena = Bump::new(page.alloc);
    match verdict_of(&arena, text)? {
        Verdict::Accepted(source, program) => {
            let texts = cut(&arena, text)?;
            let warnings = warnings_of(&arena, texts.as_slice(), source.lines(), &program)?;
            Ok(Some(warnings_in(page, &home, warnings.as_slice())?))
        }
        Verdict::Refused(errors) => errors_in(page, &home, errors.as_slice()),
    }
}

/// Returns what is found in a document in the larger language, or `None` if it is read as a plain one. The server reads no files: nothing is
/// found in a document that includes one.
pub(crate) fn found_in_larger(page: &Page<'_>) -> Result<Option<Found>, AllocError> {
    if uses_nothing_larger(page.alloc, page.text)? {
        return Ok(None);
    }
    let source = LoadedFile {
        name: b"",
        text: page.text,
    };
    match expand(page.alloc, source, &[]) {
        Ok(made) => {
            if made.text.as_slice() == page.text {
                return Ok(None);
            }
            found_in_expansion(page, &made)
        }
        Err(fault) => match fault.problem {
            Problem::Memory => Err(AllocError),
            Problem::NeedsFile => Ok(Some(Found::Warnings(Vec::new(page.alloc)))),
            _ => {
                if uses_larger_operation(page.alloc, page.text)? {
                    return Ok(Some(found_of_fault(page, &fault)?));
                }
                Ok(None)
            }
        },
    }
}
