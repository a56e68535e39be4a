//! The report as a table: a line for each solution.

use crate::report::outcome::Reason;
use crate::report::pieces::{Piece, Spelling, put_pieces, put_reason};
use crate::report::{Found, Solution, Totals};
use a2_stream::{Output, WriteFault, put, put_all};
use a2_text::decimal;

// Padding after a name.
const BLANKS: &[u8] = b"                        ";

// Returns the blanks that align the number after a name.
fn padding_after(name: &[u8]) -> &[u8] {
    let (_, blanks) = BLANKS.split_at(name.len().min(BLANKS.len()));
    blanks
}

// Writes the beginning of the line of a solution, with how many of all cases it passed.
fn put_score<W: Output>(solution: &Solution<'_, '_>, writer: &mut W) -> Result<(), WriteFault> {
    put_pieces(
        Spelling::Bare,
        &[
            Piece::Text(solution.name),
            Piece::Plain(padding_after(solution.name)),
            Piece::Plain(b" "),
            Piece::Number(solution.passed()),
            Piece::Plain(b"/"),
            Piece::Number(solution.cases.len()),
        ],
        writer,
    )
}

/// Writes the line of a solution, and after it the lines of the errors in its source.
pub(crate) fn put_row<W: Output>(
    solution: &Solution<'_, '_>,
    writer: &mut W,
) -> Result<(), WriteFault> {
    put_score(solution, writer)?;
    if let Found::Invalid(errors) = solution.found {
        return put_all(&[b"  ", errors.lines], writer);
    }
    let reason = solution.reason();
    if !matches!(reason, Reason::Nothing) {
        put(b"  ", writer)?;
        put_reason(reason, writer)?;
    }
    put(b"\n", writer)
}

// Returns the word after this number of files.
fn word_of_files(count: u64) -> &'static [u8] {
    if count == 1 { b" file: " } else { b" files: " }
}

/// Writes the line that states how many solutions there are, and how many of each kind.
pub(crate) fn put_totals<W: Output>(totals: &Totals, writer: &mut W) -> Result<(), WriteFault> {
    let all = totals.all();
    let files = decimal(all);
    let passed = decimal(totals.passed);
    let failed = decimal(totals.failed);
    let refused = decimal(totals.refused);
    put_all(
        &[
            files.as_slice(),
            word_of_files(all),
            passed.as_slice(),
            b" passed, ",
            failed.as_slice(),
            b" failed, ",
            refused.as_slice(),
            b" with errors\n",
        ],
        writer,
    )
}
