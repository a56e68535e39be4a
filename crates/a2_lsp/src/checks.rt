//! The errors and warnings of a document, and what corrects them.

use crate::json::{chars, comma, number, raw, string};
use crate::larger::found_in_larger;
use crate::page::{Page, Span};
use a2_check::{SourceError, Verdict, Warning, errors_of, sentence_of, verdict_of, warnings_of};
use a2_places::{Change, change_of, clipped};
use bumpalo::Bump;
use serde_json::Value;
use std::alloc::{AllocError, Global};
use std::str::from_utf8;

// What is found in a document: its errors, or its warnings.
#[derive(Drop)]
pub(crate) enum Found {
    Errors(Vec<SourceError>),
    Warnings(Vec<Warning>),
}

/// Returns the errors or warnings of a document.
pub(crate) fn found_in(page: &Page<'_>) -> Result<Found, AllocError> {
    match found_in_larger(page)? {
        Some(found) => Ok(found),
        None => found_in_plain(page),
    }
}

// Returns the errors or warnings of a document in the plain language.
fn found_in_plain(page: &Page<'_>) -> Result<Found, AllocError> {
    // The lines and the program are allocated in an arena and freed together.
    let arena = Bump::new(page.alloc);
    match verdict_of(&arena, page.text)? {
        Verdict::Accepted(source, program) => {
            let warnings = warnings_of(&arena, page.lines, source.lines(), &program)?;
            Ok(Found::Warnings(Vec::from_slice(page.alloc, warnings.as_slice())?))
        }
        Verdict::Refused(refusals) => Ok(Found::Errors(errors_of(
            page.alloc,
            page.text,
            refusals.as_slice(),
        )?)),
    }
}

// The parts of an error that are used here.
#[derive(Clone, Copy)]
struct Error<'a> {
    span: Span,
    code: &'a str,
    text: &'a str,
    fix: &'a str,
}

// Returns the parts of an error of a document. A place outside the text is moved to its nearest end.
fn error_in<'a>(page: &Page<'_>, error: &'a SourceError) -> Error<'a> {
    let line = error.line.saturating_sub(1);
    let (from, to) = clipped(page.line(line), error.column.saturating_sub(1), error.width);
    Error {
        span: Span { line, from, to },
        code: error.code,
        text: from_utf8(error.text.as_slice()).unwrap_or(""),
        fix: from_utf8(error.fix.as_slice()).unwrap_or(""),
    }
}

// Appends the diagnostic of an error.
fn put_error(out: &mut Vec<u8>, page: &Page<'_>, error: Error<'_>) -> Result<(), AllocError> {
    comma(out)?;
    raw(out, b"{\"range\":")?;
    page.put_range(out, error.span)?;
    raw(out, b",\"severity\":1,\"code\":")?;
    string(out, error.code.as_bytes())?;
    raw(out, b",\"source\":\"a2lab\",\"message\":\"")?;
    chars(out, error.text.as_bytes())?;
    raw(out, b"\\n")?;
    chars(out, error.fix.as_bytes())?;
    raw(out, b"\"}")
}

// Appends the diagnostic of a warning.
fn put_warning(out: &mut Vec<u8>, page: &Page<'_>, warning: &Warning) -> Result<(), AllocError> {
    comma(out)?;
    raw(out, b"{\"range\":")?;
    let line = warning.line.saturating_sub(1);
    let text = page.line(line);
    let from = text.len().saturating_sub(text.trim_ascii_start().len());
    let to = text.trim_ascii_end().len();
    page.put_range(
        out,
        Span {
            line,
            from: from.min(to),
            to,
        },
    )?;
    raw(out, b",\"severity\":2,\"source\":\"a2lab\",\"message\":")?;
    string(out, sentence_of(warning.kind))?;
    raw(out, b"}")
}

/// Appends the diagnostics of a document.
pub(crate) fn put_diagnostics(out: &mut Vec<u8>, page: &Page<'_>) -> Result<(), AllocError> {
    raw(out, b"[")?;
    match &found_in(page)? {
        Found::Errors(errors) => {
            for error in errors.as_slice() {
                put_error(out, page, error_in(page, error))?;
            }
        }
        Found::Warnings(warnings) => {
            for warning in warnings.as_slice() {
                put_warning(out, page, warning)?;
            }
        }
    }
    raw(out, b"]")
}

// Appends the edit of a change for an error.
fn put_edit(
    out: &mut Vec<u8>,
    page: &Page<'_>,
    span: Span,
    change: &Change,
) -> Result<(), AllocError> {
    raw(out, b"{\"range\":")?;
    page.put_range(out, span)?;
    raw(out, b",\"newText\":\"")?;
    chars(out, change.text.as_slice())?;
    if change.is_new_line {
        chars(out, page.line_end())?;
    }
    raw(out, b"\"}")
}

// Appends the code action of an error, if its fix is a change.
fn put_action(out: &mut Vec<u8>, page: &Page<'_>, error: Error<'_>) -> Result<(), AllocError> {
    let Span { line, from, to } = error.span;
    let width = to.saturating_sub(from);
    let text = page.line(line);
    let Some(change) = change_of(page.alloc, text, from, width, error.fix.as_bytes())? else {
        return Ok(());
    };
    let line = if change.is_new_line { 0 } else { line };
    let span = Span {
        line,
        from: change.from,
        to: change.to,
    };
    comma(out)?;
    raw(out, b"{\"title\":")?;
    string(out, error.fix.as_bytes())?;
    raw(
        out,
        b",\"kind\":\"quickfix\",\"isPreferred\":true,\"diagnostics\":[",
    )?;
    put_error(out, page, error)?;
    raw(out, b"],\"edit\":{\"changes\":{")?;
    string(out, page.uri.as_bytes())?;
    raw(out, b":[")?;
    put_edit(out, page, span, &change)?;
    raw(out, b"]}}}")
}

// Whether the kinds that are asked for have quick fixes.
fn wants_fixes(params: &Value) -> bool {
    let Some(kinds) = params.pointer("/context/only").and_then(Value::as_array) else {
        return true;
    };
    for kind in kinds.as_slice() {
        if matches!(kind.as_str(), Some("quickfix" | "")) {
            return true;
        }
    }
    false
}

/// Appends the code actions for the range that the parameters name: for each error in its lines the fix, if that is a change.
pub(crate) fn put_actions(out: &mut Vec<u8>, page: &Page<'_>) -> Result<(), AllocError> {
    raw(out, b"[")?;
    let (first, last) = page.lines_asked();
    if wants_fixes(page.params) {
        if let Found::Errors(errors) = &found_in(page)? {
            for error in errors.as_slice() {
                let error = error_in(page, error);
                if first <= error.span.line && error.span.line <= last {
                    put_action(out, page, error)?;
                }
            }
        }
    }
    raw(out, b"]")
}

/// Appends the message with the diagnostics of a document.
pub(crate) fn put_published(
    out: &mut Vec<u8>,
    page: &Page<'_>,
    version: Option<usize>,
) -> Result<(), AllocError> {
    raw(
        out,
        b"{\"jsonrpc\":\"2.0\",\"method\":\"textDocument/publishDiagnostics\",\"params\":{\"uri\":",
    )?;
    string(out, page.uri.as_bytes())?;
    if let Some(version) = version {
        raw(out, b",\"version\":")?;
        number(out, version)?;
    }
    raw(out, b",\"diagnostics\":")?;
    put_diagnostics(out, page)?;
    raw(out, b"}}")
}

/// Appends the message that a document has no diagnostics.
pub(crate) fn put_nothing(out: &mut Vec<u8>, uri: &str) -> Result<(), AllocError> {
    raw(
        out,
        b"{\"jsonrpc\":\"2.0\",\"method\":\"textDocument/publishDiagnostics\",\"params\":{\"uri\":",
    )?;
    string(out, uri.as_bytes())?;
    raw(out, b",\"diagnostics\":[]}}")
}
