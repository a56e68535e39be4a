//! The listing of a source.

ghost use Rattle.std.specs.Prelude.{◌≡◌, ◌≤◌, map, false};
ghost use Rattle.a2_text.specs.Lines.{lines};
ghost use Rattle.a2_stream.specs.Stream.{SendsOrBreaks};
ghost use Rattle.a2_hex.specs.Images.{held};
ghost use Rattle.a2_asm.specs.Entries.{entries};
ghost use Rattle.a2_run.specs.Answers.{Answers, is_read_fault};
ghost use Rattle.a2_list.specs.Listing as listing;
ghost use Rattle.a2_list.specs.Listing.{IsListing};

use crate::blanks::gap;
use crate::cycles::cycles_cell;
use crate::name_table::{in_order, put_use_table};
use a2_asm::{Names, Program, Statement};
use a2_hex::{Image, append_run};
use a2_run::{AssembledText, RunFault};
use a2_stream::{Output, WriteFault, put, put_all};
use a2_text::{append, cut, decimal, hex_word};
use arrayvec::ArrayVec;
use std::alloc::Allocator;

/// What a listing shows besides addresses, bytes, lines and names with their values.
#[derive(Clone, Copy, Debug)]
pub struct Shown {
    /// The cycles of each instruction from the opcode table, with a `+` if it may take more.
    pub cycles: bool,
    /// For each name the line that defines it and the lines that use it, in the order of the names' bytes.
    pub uses: bool,
}

// An address with at most three bytes.
type Columns = ArrayVec<u8, 16>;

// Returns an address with the bytes from there upwards, at most so many.
#[tactic(auto, unfolding(crate::specs::Listing::columns))]
fn columns<A: Allocator>(image: &Image<A>, address: u16, most: u16) -> Columns
    requires { most ≤ 3 }
    ensures { result.items ≡ listing.columns (held image.now) address most }
{
    let mut columns = Columns::new();
    append(&mut columns, &hex_word(address));
    append(&mut columns, b"-  ");
    // A byte is below $C000, so its address and the three after it fit in 16 bits.
    if image.get(address).is_some() {
        append_run(image, address, most, &mut columns);
    }
    columns
}

// The same for the first bytes of a statement; nothing if there is none.
fn first_columns<A: Allocator>(image: &Image<A>, statement: Option<Statement>) -> Columns
    ensures { result.items ≡ listing.first_columns (held image.now) statement }
{
    match statement {
        Some(statement) => columns(image, statement.addr, statement.length.min(3)),
        None => Columns::new(),
    }
}

// Returns what is between the number of a line and its text.
fn before_text(text: &[u8]) -> &[u8]
    ensures { result.now ≡ listing.before_text text.now }
{
    if text.is_empty() { b"" } else { b"  " }
}

// Writes the row of a line with its statement.
#[tactic(auto, unfolding(crate::specs::Listing::first_row))]
fn put_first<A: Allocator, W: Output>(
    cycles: bool,
    image: &Image<A>,
    statement: Option<Statement>,
    number: usize,
    text: &[u8],
    writer: &mut W,
) -> Result<(), WriteFault>
    ensures { SendsOrBreaks (W.taker writer.old) (W.taker writer.new) result
        (listing.first_row cycles (held image.now) statement number text.now) }
{
    let front = first_columns(image, statement);
    let cell = cycles_cell(cycles, front.len(), statement);
    let digits = decimal(number as u64);
    let end = if cycles { 27usize } else { 23 };
    let width = end.saturating_sub(front.len() + cell.len());
    put_all(
        &[
            front.as_slice(),
            cell.as_slice(),
            gap(width, digits.as_slice()),
            digits.as_slice(),
            before_text(text),
            text,
            b"\n",
        ],
        writer,
    )
}

// Writes so many rows of three bytes each, after the row of the first three of so many bytes.
fn put_more<A: Allocator, W: Output>(
    image: &Image<A>,
    address: u16,
    count: u16,
    rows: u16,
    writer: &mut W,
) -> Result<(), WriteFault>
    ensures { SendsOrBreaks (W.taker writer.old) (W.taker writer.new) result
        (listing.more_rows (held image.now) address count rows) }
{
    let mut at = address;
    let mut left = count;
    for _ in 0..rows {
        // A byte is below $C000, so the address of the next row fits in 16 bits.
        let Some(_) = image.get(at) else {
            return Ok(());
        };
        at += 3;
        left = left.saturating_sub(3);
        put_all(&[columns(image, at, left.min(3)).as_slice(), b"\n"], writer)?;
    }
    Ok(())
}

// Writes all rows of a line.
#[tactic(auto, using(a2_stream::proofs::Joined::broke_off, a2_stream::proofs::Joined::went_on))]
fn put_line<A: Allocator, W: Output>(
    cycles: bool,
    image: &Image<A>,
    statement: Option<Statement>,
    number: usize,
    text: &[u8],
    writer: &mut W,
) -> Result<(), WriteFault>
    ensures { SendsOrBreaks (W.taker writer.old) (W.taker writer.new) result
        (listing.rows_of_line cycles (held image.now) statement number text.now) }
{
    put_first(cycles, image, statement, number, text, writer)?;
    let Some(Statement { addr, length, .. }) = statement else {
        return Ok(());
    };
    put_more(image, addr, length, length.saturating_sub(1) / 3, writer)
}

// Returns the statement of a line, if it has one, and the statements of later lines; `statements` has just these.
fn split_line(number: usize, statements: &[Statement]) -> (Option<Statement>, &[Statement])
    ensures own { result.0 ≡ listing.statement_of_line number statements.now }
    ensures later { result.1.now ≡ listing.rows_after_line number statements.now }
{
    match statements {
        [first, later @ ..] if usize::from(first.line) == number => (Some(*first), later),
        _ => (None, statements),
    }
}

// Writes the rows of all lines of a program, and an empty line.
fn put_lines<A: Allocator, W: Output>(
    cycles: bool,
    program: &Program<A>,
    texts: &[&[u8]],
    writer: &mut W,
) -> Result<(), WriteFault>
    ensures { SendsOrBreaks (W.taker writer.old) (W.taker writer.new) result
        (listing.rows_and_gap cycles program.now (map (λ x. x.now) texts.now)) }
{
    let image = program.image();
    let mut rest = program.statements();
    let mut number = 1usize;
    for text in texts {
        let (own, later) = split_line(number, rest);
        put_line(cycles, image, own, number, *text, writer)?;
        rest = later;
        number += 1;
    }
    put(b"\n", writer)
}

// Writes the names with their values.
fn put_names<A: Allocator, W: Output>(names: &Names<A>, writer: &mut W) -> Result<(), WriteFault>
    ensures { SendsOrBreaks (W.taker writer.old) (W.taker writer.new) result (listing.name_rows (entries names.now)) }
{
    for index in 0..names.len() {
        let Some((name, value)) = names.get_index(index) else {
            return Ok(());
        };
        let name = name.as_str().as_bytes();
        put_all(&[&hex_word(*value), b"  ", name, b"\n"], writer)?;
    }
    Ok(())
}

// Writes the listing of an assembled text with these lines.
pub(crate) fn list_lines<A: Allocator + Copy, W: Output>(
    alloc: A,
    assembled: &AssembledText<'_, A>,
    texts: &[&[u8]],
    shown: Shown,
    writer: &mut W,
) -> Result<(), RunFault>
    requires { map (λ x. x.now) texts.now ≡ lines assembled.now.text }
    ensures meaning { Answers (λ _. ⊥) (λ _. IsListing shown assembled.now.text) (W.taker writer.old)
        (W.taker writer.new) result }
    ensures no_reader { is_read_fault result ≡ false }
{
    let program = assembled.program();
    if shown.uses {
        let lines = assembled.source().lines();
        let order = in_order(alloc, program)?;
        put_lines(shown.cycles, program, texts, writer)?;
        put_use_table(program, lines, order.as_slice(), writer)?;
        return Ok(());
    }
    put_lines(shown.cycles, program, texts, writer)?;
    put_names(program.names(), writer)?;
    Ok(())
}

/// Writes the listing of a source: for each line the address and the bytes of its statement, three bytes a row, the line's number
/// and the line; then an empty line; then each name with its value, in the order of the lines that define them. `shown` says what
/// is shown besides. Fails if a write fails, or if there is not enough memory. This project's profile.
pub fn list_source<A: Allocator + Copy, W: Output>(
    alloc: A,
    assembled: &AssembledText<'_, A>,
    shown: Shown,
    writer: &mut W,
) -> Result<(), RunFault>
    ensures meaning { Answers (λ _. ⊥) (λ _. IsListing shown assembled.now.text) (W.taker writer.old)
        (W.taker writer.new) result }
    ensures no_reader { is_read_fault result ≡ false }
{
    let texts = cut(alloc, assembled.text())?;
    list_lines(alloc, assembled, texts.as_slice(), shown, writer)
}
