//! The table of a profile.

ghost use Rattle.std.specs.Prelude.{◌≡◌, ◌+◌, ◌-◌, ◌≤◌, [], map};
ghost use Rattle.a2_stream.specs.Stream.{SendsOrBreaks};
ghost use Rattle.a2_profile.specs.Table as table;
ghost use Rattle.std.specs.Fmt.{decimal as decimal_of};

use crate::addresses::{ByAddress, put_each};
use crate::row::{Cell, put_row};
use crate::{Count, Profile};
use a2_asm::{Program, Statement};
use a2_opcode::Mode;
use a2_stream::{Output, WriteFault, put_all};
use a2_symbols::instruction_on;
use a2_text::{append, decimal, hex_word};
use arrayvec::ArrayVec;
use std::alloc::Allocator;

// The digits of a number, or nothing.
type Digits = ArrayVec<u8, 20>;

// The digits of a share.
type Share = ArrayVec<u8, 42>;

// Writes a row that has no count: a word, a label, and a text.
#[tactic(auto, unfolding(crate::specs::Table::line_cells))]
fn put_uncounted<'a, W: Output>(
    word: &'a [u8],
    label: &'a [u8],
    text: &'a [u8],
    writer: &mut W,
) -> Result<(), WriteFault>
    ensures { SendsOrBreaks (W.taker writer.old) (W.taker writer.new) result
        (table.line_cells word.now [] [] [] [] label.now text.now) }
{
    put_row(
        &[
            Cell::of(10, word),
            Cell::of(14, b""),
            Cell::of(8, b""),
            Cell::of(11, b""),
            Cell::of(11, b""),
            Cell::of(7, label),
        ],
        &[text],
        writer,
    )
}

// Returns how many thousandths of all cycles these are.
pub(crate) fn per_mille(cycles: u64, all: u64) -> u64
    requires { cycles ≤ all }
    ensures { result ≡ table.per_mille cycles all }
{
    if all == 0 {
        return 0;
    }
    (1000 * u128::from(cycles) / u128::from(all)) as u64
}

// The same in hundredths.
#[tactic(auto, unfolding(crate::specs::Table::share_digits))]
pub(crate) fn share_digits(thousandths: u64) -> Share
    ensures { result.items ≡ table.share_digits thousandths }
{
    let mut share = Share::new();
    append(&mut share, decimal(thousandths / 10).as_slice());
    append(&mut share, b".");
    append(&mut share, decimal(thousandths % 10).as_slice());
    append(&mut share, b"%");
    share
}

// Returns the digits of a number that is shown only for a branch.
fn branch_digits(is_branch: bool, number: u64) -> Digits
    ensures { result.items ≡ table.branch_digits is_branch number }
{
    if is_branch {
        decimal(number)
    } else {
        Digits::new()
    }
}

// Writes the row of a count.
#[tactic(auto, unfolding(crate::specs::Table::line_cells))]
fn put_count<W: Output>(
    all: u64,
    is_branch: bool,
    count: Count,
    label: &[u8],
    text: &[u8],
    writer: &mut W,
) -> Result<(), WriteFault>
    requires { count.cycles ≤ all }
    ensures { SendsOrBreaks (W.taker writer.old) (W.taker writer.new) result
        (table.count_row all is_branch count label.now text.now) }
{
    let times = decimal(count.times);
    let cycles = decimal(count.cycles);
    let share = share_digits(per_mille(count.cycles, all));
    let taken = branch_digits(is_branch, count.taken);
    let straight = branch_digits(is_branch, count.times.saturating_sub(count.taken));
    put_row(
        &[
            Cell::of(10, times.as_slice()),
            Cell::of(14, cycles.as_slice()),
            Cell::of(8, share.as_slice()),
            Cell::of(11, taken.as_slice()),
            Cell::of(11, straight.as_slice()),
            Cell::of(7, label),
        ],
        &[text],
        writer,
    )
}

// Returns whether a statement is a branch.
pub(crate) fn is_branch(statement: &Statement) -> bool
    ensures { result ≡ table.is_branch statement.now }
{
    match statement.instr {
        Some(instr) => matches!(instr.mode, Mode::Relative),
        None => false,
    }
}

// Writes the row of a line.
fn put_line<A: Allocator + Copy, W: Output>(
    profile: &Profile<A>,
    statement: Option<Statement>,
    number: usize,
    text: &[u8],
    writer: &mut W,
) -> Result<(), WriteFault>
    ensures { SendsOrBreaks (W.taker writer.old) (W.taker writer.new) result
        (table.line_row profile.now statement number text.now) }
{
    let label = decimal(number as u64);
    match statement {
        Some(statement) => put_count(
            profile.cycles(),
            is_branch(&statement),
            profile.at(statement.addr),
            label.as_slice(),
            text,
            writer,
        ),
        None => put_uncounted(b"", label.as_slice(), text, writer),
    }
}

// Writes the rows of all lines.
fn put_lines<A: Allocator + Copy, W: Output>(
    profile: &Profile<A>,
    statements: &[Statement],
    texts: &[&[u8]],
    writer: &mut W,
) -> Result<(), WriteFault>
    ensures { SendsOrBreaks (W.taker writer.old) (W.taker writer.new) result
        (table.line_rows profile.now statements.now 1 (map (λ x. x.now) texts.now)) }
{
    let mut number = 1usize;
    for text in texts {
        let statement = instruction_on(statements, number);
        put_line(profile, statement, number, *text, writer)?;
        number += 1;
    }
    Ok(())
}

// Returns whether steps began at an address where there is no instruction of the source.
pub(crate) fn is_outside<A: Allocator + Copy, B: Allocator + Copy>(
    program: &Program<B>,
    profile: &Profile<A>,
    address: u16,
) -> bool
    ensures { result ≡ table.is_outside program.now.statements profile.now address }
{
    profile.at(address).times != 0 && program.instr_at(address).is_none()
}

// The rows of the addresses where steps began and there is no instruction of the source.
#[derive(Drop)]
struct OutsideRows<'a, A: Allocator, B: Allocator> {
    program: &'a Program<B>,
    profile: &'a Profile<A>,
}

impl<'a, A: Allocator + Copy, B: Allocator + Copy> ByAddress for OutsideRows<'a, A, B> {
    ghost text = { λ rows address. table.outside_row rows.program.now.statements rows.profile.now address };

    fn put<W: Output>(&self, address: u16, writer: &mut W) -> Result<(), WriteFault> {
        if !is_outside(self.program, self.profile, address) {
            return Ok(());
        }
        put_count(
            self.profile.cycles(),
            false,
            self.profile.at(address),
            &hex_word(address),
            b"OUTSIDE THE SOURCE",
            writer,
        )
    }
}

// Returns the line of a statement.
fn line_of<'a>(texts: &[&'a [u8]], statement: &Statement) -> &'a [u8]
    ensures { result.now ≡ table.line_of (map (λ x. x.now) texts.now) statement.now }
{
    match texts.get(usize::from(statement.line.saturating_sub(1))) {
        Some(text) => *text,
        None => b"",
    }
}

// Returns whether a statement is an instruction that was never executed.
pub(crate) fn is_never_done<A: Allocator + Copy>(
    profile: &Profile<A>,
    statement: &Statement,
) -> bool
    ensures { result ≡ table.is_never_done profile.now statement.now }
{
    statement.instr.is_some() && profile.at(statement.addr).times == 0
}

// Writes the row of a statement, if it is an instruction that was never executed.
fn put_never<A: Allocator + Copy, W: Output>(
    profile: &Profile<A>,
    texts: &[&[u8]],
    statement: &Statement,
    writer: &mut W,
) -> Result<(), WriteFault>
    ensures { SendsOrBreaks (W.taker writer.old) (W.taker writer.new) result
        (table.never_row profile.now (map (λ x. x.now) texts.now) statement.now) }
{
    if is_never_done(profile, statement) {
        let label = decimal(u64::from(statement.line));
        let text = line_of(texts, statement);
        put_uncounted(b"NEVER", label.as_slice(), text, writer)
    } else {
        Ok(())
    }
}

// Writes the rows of the lines that were never executed.
fn put_never_rows<A: Allocator + Copy, W: Output>(
    profile: &Profile<A>,
    texts: &[&[u8]],
    statements: &[Statement],
    writer: &mut W,
) -> Result<(), WriteFault>
    ensures { SendsOrBreaks (W.taker writer.old) (W.taker writer.new) result
        (table.never_rows profile.now (map (λ x. x.now) texts.now) statements.now) }
{
    for statement in statements {
        put_never(profile, texts, statement, writer)?;
    }
    Ok(())
}

// Writes the line of these sums.
#[tactic(auto, unfolding(crate::specs::Table::sum_line))]
pub(crate) fn put_sum_line<W: Output>(
    steps: u64,
    cycles: u64,
    writer: &mut W,
) -> Result<(), WriteFault>
    ensures { SendsOrBreaks (W.taker writer.old) (W.taker writer.new) result
        (table.sum_line (decimal_of steps) (decimal_of cycles)) }
{
    let steps = decimal(steps);
    let cycles = decimal(cycles);
    put_all(
        &[
            b"STEPS=",
            steps.as_slice(),
            b" CYCLES=",
            cycles.as_slice(),
            b"\n",
        ],
        writer,
    )
}

// Writes the heading.
#[tactic(auto, unfolding(crate::specs::Table::line_cells))]
fn put_heading<W: Output>(writer: &mut W) -> Result<(), WriteFault>
    ensures { SendsOrBreaks (W.taker writer.old) (W.taker writer.new) result table.heading }
{
    put_row(
        &[
            Cell::of(10, b"TIMES"),
            Cell::of(14, b"CYCLES"),
            Cell::of(8, b"SHARE"),
            Cell::of(11, b"TAKEN"),
            Cell::of(11, b"NOT"),
            Cell::of(7, b"LINE"),
        ],
        &[b"SOURCE"],
        writer,
    )
}

/// Writes the table of a profile of `program`, whose source has these lines. A line has: how often its instruction was executed,
/// its cycles, and their share of all cycles, rounded down; for a branch how often it was taken and how often not; the line's
/// number and the line. Then there is a row for each other address where steps began, such as that of a service; one for each line
/// that was never executed; and the sums. This project's profile.
///
/// # Errors
///
/// `WriteFault` if a write failed: no further write follows, and a front of the table was written.
pub fn write_profile<A: Allocator + Copy, B: Allocator + Copy, W: Output>(
    program: &Program<B>,
    texts: &[&[u8]],
    profile: &Profile<A>,
    writer: &mut W,
) -> Result<(), WriteFault>
    ensures { SendsOrBreaks (W.taker writer.old) (W.taker writer.new) result
        (table.profile_table program.now (map (λ x. x.now) texts.now) profile.now) }
{
    let statements = program.statements();
    put_heading(writer)?;
    put_lines(profile, statements, texts, writer)?;
    put_each(&OutsideRows { program, profile }, writer)?;
    put_never_rows(profile, texts, statements, writer)?;
    put_sum_line(profile.steps(), profile.cycles(), writer)
}
