//! The edits that put a document into columns.

use crate::json::{comma, raw, string};
use crate::page::Page;
use a2_fmt::{FormatFault, format_source};
use a2_text::cut;
use std::alloc::AllocError;

// Appends the edit of each line, from one to another, that is other than in columns.
fn put_edits(
    out: &mut Vec<u8>,
    page: &Page<'_>,
    columns: &[&[u8]],
    range: (usize, usize),
) -> Result<(), AllocError> {
    let (first, last) = range;
    for (line, new) in columns.iter().enumerate() {
        if first <= line && line <= last && page.line(line) != *new {
            comma(out)?;
            raw(out, b"{\"range\":")?;
            page.put_line(out, line)?;
            raw(out, b",\"newText\":")?;
            string(out, *new)?;
            raw(out, b"}")?;
        }
    }
    Ok(())
}

/// Appends the edits that put the lines that the parameters name, or all, into columns, and returns whether that can be done.
pub(crate) fn put_formatting(out: &mut Vec<u8>, page: &Page<'_>) -> Result<bool, AllocError> {
    let columns = match format_source(page.alloc, page.text) {
        Ok(columns) => columns,
        Err(FormatFault::Memory) => return Err(AllocError),
        Err(FormatFault::Source(_) | FormatFault::Unlike) => return Ok(false),
    };
    let columns = cut(page.alloc, columns.as_slice())?;
    raw(out, b"[")?;
    put_edits(out, page, columns.as_slice(), page.lines_asked())?;
    raw(out, b"]")?;
    Ok(true)
}
