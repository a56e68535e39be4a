//! A line in columns.

ghost use Rattle.std.specs.Prelude.{◌≡◌, ◌≤◌, ◌++◌, [], map, IfOk};
ghost use Rattle.a2_text.specs.Bytes.{capital as capital_of};
ghost use Rattle.a2_fmt.specs.Layout as layout;

use crate::operand::{comment_at, put_tidied};
use a2_text::{after_blanks, capital, front_len, is_blank};
use std::alloc::{AllocError, Allocator};

// The columns where operations, operands and comments begin, counted from 0.
const OPERATION: usize = 8;

const OPERAND: usize = 12;

const COMMENT: usize = 28;

// The greatest length of a line in bytes.
const MOST_BYTES: usize = 255;

// As many blanks as there are columns before the last of these.
const BLANKS: &[u8] = b"                            ";

// The word at the beginning of a text, up to a blank or a comment, and the text after it.
fn parted(text: &[u8]) -> (&[u8], &[u8])
    ensures word { result.0.now ≡ layout.word text.now }
    ensures rest { result.1.now ≡ layout.after_word text.now }
{
    text.split_at(front_len(text, |c| !is_blank(c) && c != b';'))
}

// A text without the white space at its end.
fn trimmed(text: &[u8]) -> &[u8]
    ensures { result.now ≡ layout.trimmed text.now }
{
    text.trim_ascii_end()
}

// Appends blanks up to a column, at least one.
fn pad<A: Allocator>(row: &mut Vec<u8, A>, column: usize) -> Result<(), AllocError>
    requires { column ≤ 28 }
    ensures { IfOk result (λ _. row.new.items ≡ layout.padded column row.old.items) }
{
    let count = column.saturating_sub(row.len()).max(1);
    row.extend_from_slice(&BLANKS[..count])
}

// Appends a word in capitals in its column, unless it is empty.
fn put_word<A: Allocator>(row: &mut Vec<u8, A>, word: &[u8]) -> Result<(), AllocError>
    ensures { IfOk result (λ _. row.new.items ≡ layout.with_word row.old.items word.now) }
{
    if word.is_empty() {
        return Ok(());
    }
    pad(row, OPERATION)?;
    put_capitals(row, word)
}

// Appends a word in capitals.
fn put_capitals<A: Allocator>(row: &mut Vec<u8, A>, word: &[u8]) -> Result<(), AllocError>
    ensures { IfOk result (λ _. row.new.items ≡ row.old.items ++ map capital_of word.now) }
{
    let mut rest = word;
    while let Some((c, following)) = rest.split_first() {
        row.push(capital(*c))?;
        rest = following;
    }
    Ok(())
}

// Whether a word is a directive that takes a list. In a list, a name can follow a comma.
fn takes_list(word: &[u8]) -> bool
    ensures { result ≡ layout.takes_list word.now }
{
    word.eq_ignore_ascii_case(b"DFB") || word.eq_ignore_ascii_case(b"DW")
}

// Appends the operand of an operation in its column, unless it is empty.
fn put_operand<A: Allocator>(
    row: &mut Vec<u8, A>,
    word: &[u8],
    operand: &[u8],
) -> Result<(), AllocError>
    ensures { IfOk result (λ _. row.new.items ≡ layout.with_operand row.old.items word.now operand.now) }
{
    if operand.is_empty() {
        return Ok(());
    }
    pad(row, OPERAND)?;
    if operand.eq_ignore_ascii_case(b"A") {
        row.extend_from_slice(b"A")
    } else {
        put_tidied(row, !takes_list(word), operand)
    }
}

// Appends blanks up to the column of a comment, or none if the comment begins the line.
fn pad_comment<A: Allocator>(row: &mut Vec<u8, A>, line: &[u8]) -> Result<(), AllocError>
    ensures { IfOk result (λ _. row.new.items ≡ layout.before_comment line.now row.old.items) }
{
    if let Some(b';') = line.first() {
        return Ok(());
    }
    pad(row, if row.is_empty() { OPERATION } else { COMMENT })
}

// Appends a comment in its column, if there is one.
fn put_comment<A: Allocator>(
    row: &mut Vec<u8, A>,
    line: &[u8],
    comment: &[u8],
) -> Result<(), AllocError>
    ensures { IfOk result (λ _. row.new.items ≡ layout.with_comment line.now row.old.items comment.now) }
{
    if comment.is_empty() {
        return Ok(());
    }
    pad_comment(row, line)?;
    row.extend_from_slice(comment)
}

// Formats a statement into an empty row.
fn put_statement<A: Allocator>(row: &mut Vec<u8, A>, line: &[u8]) -> Result<(), AllocError>
    requires { row.old.items ≡ [] }
    ensures { IfOk result (λ _. row.new.items ≡ layout.statement line.now) }
{
    let (label, rest) = parted(line);
    let (word, rest) = parted(after_blanks(rest));
    let there = after_blanks(rest);
    let (operand, comment) = there.split_at(comment_at(there));
    row.extend_from_slice(label)?;
    put_word(row, word)?;
    put_operand(row, word, trimmed(operand))?;
    put_comment(row, line, trimmed(comment))
}

// Formats a line whose result may have any length.
fn put_unlimited<A: Allocator>(row: &mut Vec<u8, A>, line: &[u8]) -> Result<(), AllocError>
    ensures { IfOk result (λ _. row.new.items ≡ layout.any line.now) }
{
    row.clear();
    match line.first() {
        Some(b'*') => row.extend_from_slice(trimmed(line)),
        _ => put_statement(row, line),
    }
}

// Appends a line in columns, or unchanged if the result would be too long.
fn put_fitting<A: Allocator>(
    text: &mut Vec<u8, A>,
    row: &[u8],
    line: &[u8],
) -> Result<(), AllocError>
    requires { row.now ≡ layout.any line.now }
    ensures { IfOk result (λ _. text.new.items ≡ text.old.items ++ layout.fitting line.now) }
{
    if row.len() <= MOST_BYTES {
        text.extend_from_slice(row)
    } else {
        text.extend_from_slice(line)
    }
}

/// Appends a line in columns, or unchanged if the result would be too long, and LF. `row` is a buffer for it.
pub(crate) fn put_line<A: Allocator>(
    text: &mut Vec<u8, A>,
    row: &mut Vec<u8, A>,
    line: &[u8],
) -> Result<(), AllocError>
    ensures { IfOk result (λ _. text.new.items ≡ text.old.items ++ layout.row line.now) }
{
    put_unlimited(row, line)?;
    put_fitting(text, row.as_slice(), line)?;
    text.extend_from_slice(b"\n")?;
    Ok(())
}

/// The parts of a line; each may be empty.
#[derive(Clone, Copy)]
pub struct LineParts<'a> {
    pub label: &'a [u8],
    pub operation: &'a [u8],
    pub operand: &'a [u8],
    pub comment: &'a [u8],
}

// Appends a part in its column, unless it is empty.
fn put_part<A: Allocator>(
    row: &mut Vec<u8, A>,
    column: usize,
    part: &[u8],
) -> Result<(), AllocError>
    requires { column ≤ 28 }
    ensures { IfOk result (λ _. row.new.items ≡ layout.with_part column row.old.items part.now) }
{
    if part.is_empty() {
        return Ok(());
    }
    pad(row, column)?;
    row.extend_from_slice(part)
}

/// Returns the parts of a line in their columns, each as it is written. A comment that is alone is in the column of operations. Fails only if
/// memory runs out.
pub fn line_in_columns<A: Allocator>(
    alloc: A,
    parts: LineParts<'_>,
) -> Result<Vec<u8, A>, AllocError>
    ensures { IfOk result (λ row. row.items ≡ layout.spread parts.entry.label.now parts.entry.operation.now parts.entry.operand.now parts.entry.comment.now) }
{
    let mut row = Vec::from_slice(alloc, parts.label)?;
    put_part(&mut row, OPERATION, parts.operation)?;
    put_part(&mut row, OPERAND, parts.operand)?;
    let column = if row.is_empty() { OPERATION } else { COMMENT };
    put_part(&mut row, column, parts.comment)?;
    Ok(row)
}
