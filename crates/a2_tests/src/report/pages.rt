//! The report as a page of HTML: a row for each solution, and the films of the cases that failed.

use crate::cases::Case;
use crate::judge::Verdict;
use crate::page::{PAGE_HEAD, PAGE_TAIL};
use crate::report::outcome::Outcome;
use crate::report::pieces::{Piece, Spelling, put_pieces, put_text};
use crate::report::table::put_totals;
use crate::report::{Found, Solution, Totals};
use a2_stream::{Output, WriteFault, put};
use std::alloc::Global;

/// Writes the part of a page before the solutions: its style, and the heading of each column.
pub(crate) fn put_page_head<W: Output>(
    cases: &[Case<'_, Global>],
    writer: &mut W,
) -> Result<(), WriteFault> {
    put(PAGE_HEAD, writer)?;
    for case in cases {
        let name: &[u8] = if case.name.is_empty() {
            b"The run"
        } else {
            case.name
        };
        put_pieces(
            Spelling::Html,
            &[
                Piece::Plain(b"<th scope=\"col\">"),
                Piece::Text(name),
                Piece::Plain(b"</th>"),
            ],
            writer,
        )?;
    }
    put(b"</tr></thead>\n<tbody>\n", writer)
}

// Writes the button that opens the film of a case.
fn put_button<W: Output>(solution: u32, index: usize, writer: &mut W) -> Result<(), WriteFault> {
    put_pieces(
        Spelling::Html,
        &[
            Piece::Plain(b"<button type=\"button\" data-film=\"film-"),
            Piece::Number(solution as usize),
            Piece::Plain(b"-"),
            Piece::Number(index),
            Piece::Plain(b"\">Film of the run</button>"),
        ],
        writer,
    )
}

// Writes the cell of a case that was judged. If it failed, it opens, and has a button for its film.
fn put_cell<W: Output>(
    solution: u32,
    index: usize,
    outcome: Outcome<'_>,
    writer: &mut W,
) -> Result<(), WriteFault> {
    if outcome.passed {
        return put(b"<td class=\"passed\">passed</td>", writer);
    }
    put(
        b"<td class=\"failed\"><details><summary>failed</summary><p>",
        writer,
    )?;
    if outcome.line > 0 {
        put_pieces(
            Spelling::Html,
            &[
                Piece::Plain(b"line "),
                Piece::Number(outcome.line),
                Piece::Plain(b": "),
            ],
            writer,
        )?;
    }
    put_text(Spelling::Html, outcome.report, writer)?;
    put(b"</p>", writer)?;
    if outcome.line > 0 {
        put_button(solution, index, writer)?;
    }
    put(b"</details></td>", writer)
}

// Writes the cells of the cases of a solution that was judged.
fn put_cells<W: Output>(
    solution: &Solution<'_, '_>,
    verdicts: &[Verdict<Global>],
    writer: &mut W,
) -> Result<(), WriteFault> {
    for index in 0..verdicts.len() {
        let outcome = Outcome::at(solution.cases, index, &verdicts[index]);
        put_cell(solution.number, index, outcome, writer)?;
    }
    Ok(())
}

// Writes the cell of a solution that was not judged, over the columns of all cases.
fn put_wide_cell<W: Output>(count: usize, why: &[u8], writer: &mut W) -> Result<(), WriteFault> {
    put_pieces(
        Spelling::Html,
        &[
            Piece::Plain(b"<td class=\"errors\" colspan=\""),
            Piece::Number(count),
            Piece::Plain(b"\"><details><summary>not tested</summary><pre>"),
            Piece::Text(why),
            Piece::Plain(b"</pre></details></td>"),
        ],
        writer,
    )
}

/// Writes the row of a solution in the table of a page.
pub(crate) fn put_page_row<W: Output>(
    solution: &Solution<'_, '_>,
    writer: &mut W,
) -> Result<(), WriteFault> {
    let count = solution.cases.len();
    put_pieces(
        Spelling::Html,
        &[
            Piece::Plain(b"<tr><th scope=\"row\">"),
            Piece::Text(solution.name),
            Piece::Plain(b"</th><td>"),
            Piece::Number(solution.passed()),
            Piece::Plain(b"/"),
            Piece::Number(count),
            Piece::Plain(b"</td>"),
        ],
        writer,
    )?;
    match solution.found {
        Found::Judged(verdicts) => put_cells(solution, *verdicts, writer)?,
        Found::Refused(why) => put_wide_cell(count, *why, writer)?,
        Found::Invalid(errors) => put_wide_cell(count, errors.lines, writer)?,
    }
    put(b"</tr>\n", writer)
}

/// Writes the film of a case that failed, for a page: `rows` is what a film has between its page's head and tail, which has no `<`.
pub fn put_film<W: Output>(
    solution: u32,
    index: usize,
    rows: &[u8],
    writer: &mut W,
) -> Result<(), WriteFault> {
    put_pieces(
        Spelling::Html,
        &[
            Piece::Plain(b"<script type=\"text/plain\" id=\"film-"),
            Piece::Number(solution as usize),
            Piece::Plain(b"-"),
            Piece::Number(index),
            Piece::Plain(b"\">"),
            Piece::Plain(rows),
            Piece::Plain(b"</script>\n"),
        ],
        writer,
    )
}

/// The page of a film without its rows, which are between these two parts.
#[derive(Clone, Copy)]
pub struct Viewer<'a> {
    pub head: &'a [u8],
    pub tail: &'a [u8],
}

// Writes the page of a film for the script of a page.
fn put_viewer<W: Output>(viewer: Viewer<'_>, writer: &mut W) -> Result<(), WriteFault> {
    put_pieces(
        Spelling::Html,
        &[
            Piece::Plain(b"<textarea hidden id=\"film-head\">"),
            Piece::Text(viewer.head),
            Piece::Plain(b"</textarea>\n<textarea hidden id=\"film-tail\">"),
            Piece::Text(viewer.tail),
            Piece::Plain(b"</textarea>\n"),
        ],
        writer,
    )
}

/// Writes the part of a page after the solutions.
pub(crate) fn put_page_tail<W: Output>(
    totals: &Totals,
    viewer: Viewer<'_>,
    writer: &mut W,
) -> Result<(), WriteFault> {
    put(b"</tbody>\n</table>\n</div>\n<p>", writer)?;
    put_totals(totals, writer)?;
    put(b"</p>\n", writer)?;
    put_viewer(viewer, writer)?;
    put(PAGE_TAIL, writer)
}
