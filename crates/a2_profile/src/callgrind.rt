//! A profile in the format of Callgrind's files.

ghost use Rattle.std.specs.Prelude.{◌≡◌, ◌==◌, ◌∷◌, if◌then◌else◌, length, map};
ghost use Rattle.a2_text.specs.Digits.{hex_word as hex_word_of};
ghost use Rattle.a2_stream.specs.Stream.{SendsOrBreaks};
ghost use Rattle.a2_profile.specs.Callgrind as callgrind;
ghost use Rattle.a2_symbols.specs.Names.{name_of as name_at};

use crate::addresses::{ByAddress, put_each};
use crate::table::is_outside;
use crate::{Profile, RoutineProfile, Totals};
use a2_asm::{Program, Statement};
use a2_stream::{Output, WriteFault, put, put_all};
use a2_symbols::{instruction_on, name_of};
use a2_text::{decimal, hex_word};
use std::alloc::Allocator;

// Returns a byte of a file's name, with `?` for a control byte, which would end a line.
fn shown_byte(byte: u8) -> u8
    ensures { result ≡ callgrind.shown_byte byte }
{
    match byte {
        0..=0x1F | 0x7F => b'?',
        _ => byte,
    }
}

// Writes the line of a file's name.
fn put_name<W: Output>(name: &[u8], writer: &mut W) -> Result<(), WriteFault>
    ensures { SendsOrBreaks (W.taker writer.old) (W.taker writer.new) result (callgrind.name_line name.now) }
{
    for byte in name {
        put(&[shown_byte(*byte)], writer)?;
    }
    put(b"\n", writer)
}

// Writes the beginning, up to the source's name.
#[tactic(auto, unfolding(crate::specs::Callgrind::heading))]
fn put_heading<W: Output>(steps: u64, cycles: u64, writer: &mut W) -> Result<(), WriteFault>
    ensures { SendsOrBreaks (W.taker writer.old) (W.taker writer.new) result (callgrind.heading steps cycles) }
{
    let steps = decimal(steps);
    let cycles = decimal(cycles);
    put_all(
        &[
            b"# callgrind format\nversion: 1\ncreator: a2lab\ncmd: a2lab profile\npositions: line\nevents: Steps Cycles\nsummary: ",
            steps.as_slice(),
            b" ",
            cycles.as_slice(),
            b"\nfl=(2) ???\nfl=(1) ",
        ],
        writer,
    )
}

// Writes the cost of a line.
#[tactic(auto, unfolding(crate::specs::Callgrind::cost_row))]
fn put_cost<W: Output>(line: u64, steps: u64, cycles: u64, writer: &mut W) -> Result<(), WriteFault>
    ensures { SendsOrBreaks (W.taker writer.old) (W.taker writer.new) result (callgrind.cost_row line steps cycles) }
{
    let line = decimal(line);
    let steps = decimal(steps);
    let cycles = decimal(cycles);
    put_all(
        &[
            line.as_slice(),
            b" ",
            steps.as_slice(),
            b" ",
            cycles.as_slice(),
            b"\n",
        ],
        writer,
    )
}

// Writes the first lines of a function in a file.
#[tactic(auto, unfolding(crate::specs::Callgrind::function_head))]
fn put_function_head<'a, W: Output>(
    file: &'a [u8],
    name: &'a [u8],
    writer: &mut W,
) -> Result<(), WriteFault>
    ensures { SendsOrBreaks (W.taker writer.old) (W.taker writer.new) result (callgrind.function_head file.now name.now) }
{
    put_all(&[b"fl=(", file, b")\nfn=", name, b"\n"], writer)
}

// Writes a function in a file, with a line and its cost.
#[tactic(auto, using(a2_stream::proofs::Joined::broke_off, a2_stream::proofs::Joined::went_on))]
fn put_function<'a, W: Output>(
    file: &'a [u8],
    name: &'a [u8],
    line: u64,
    steps: u64,
    cycles: u64,
    writer: &mut W,
) -> Result<(), WriteFault>
    ensures { SendsOrBreaks (W.taker writer.old) (W.taker writer.new) result
        (callgrind.function_record file.now name.now line steps cycles) }
{
    put_function_head(file, name, writer)?;
    put_cost(line, steps, cycles, writer)
}

// Returns the name of what begins at an address, or else these digits of the address.
fn name_or<'a, A: Allocator + Copy>(
    program: &'a Program<A>,
    address: u16,
    digits: &'a [u8; 5],
) -> &'a [u8]
    ensures { result.now ≡ (if length (name_at program.now.names address) == 0 then digits.now
        else name_at program.now.names address) }
{
    let name = name_of(program.names(), address);
    if name.is_empty() { digits } else { name }
}

// Returns the digits of an address after a $.
fn address_digits(address: u16) -> [u8; 5]
    ensures { result ≡ 0x24 ∷ hex_word_of address }
{
    let [a, b, c, d] = hex_word(address);
    [b'$', a, b, c, d]
}

// Writes the cost of the instruction on a line, if there is one and it was executed.
fn put_line<A: Allocator + Copy, W: Output>(
    profile: &Profile<A>,
    statement: Option<Statement>,
    number: usize,
    writer: &mut W,
) -> Result<(), WriteFault>
    ensures { SendsOrBreaks (W.taker writer.old) (W.taker writer.new) result (callgrind.line_cost profile.now statement number) }
{
    let Some(statement) = statement else {
        return Ok(());
    };
    let count = profile.at(statement.addr);
    if count.times == 0 {
        return Ok(());
    }
    put_cost(number as u64, count.times, count.cycles, writer)
}

// Writes the function of the source, with the costs of all lines.
fn put_lines<A: Allocator + Copy, W: Output>(
    profile: &Profile<A>,
    statements: &[Statement],
    texts: &[&[u8]],
    writer: &mut W,
) -> Result<(), WriteFault>
    ensures { SendsOrBreaks (W.taker writer.old) (W.taker writer.new) result
        (callgrind.source_costs profile.now statements.now (map (λ x. x.now) texts.now)) }
{
    put(b"fn=THE SOURCE\n", writer)?;
    let mut number = 1usize;
    for _text in texts {
        let statement = instruction_on(statements, number);
        put_line(profile, statement, number, writer)?;
        number += 1;
    }
    Ok(())
}

// The functions of the addresses where steps began and there is no instruction of the source.
#[derive(Drop)]
struct OutsideRecords<'a, A: Allocator, B: Allocator> {
    program: &'a Program<B>,
    profile: &'a Profile<A>,
}

impl<'a, A: Allocator + Copy, B: Allocator + Copy> ByAddress for OutsideRecords<'a, A, B> {
    ghost text = { λ records address. callgrind.outside_record records.program.now records.profile.now address };

    fn put<W: Output>(&self, address: u16, writer: &mut W) -> Result<(), WriteFault> {
        if !is_outside(self.program, self.profile, address) {
            return Ok(());
        }
        let count = self.profile.at(address);
        let digits = address_digits(address);
        let name = name_or(self.program, address, &digits);
        put_function(b"2", name, 0, count.times, count.cycles, writer)
    }
}

/// Writes a profile of `program`, whose source has this name and these lines, in the format of Callgrind's files, for
/// `callgrind_annotate` and KCachegrind. The events are `Steps` and `Cycles`. Each line with an instruction that was executed has
/// its steps and cycles in the function `THE SOURCE` of the file `name`. Each other address where steps began is a function of the
/// file `???`, with its name in the source or as `$FDED`. A control byte of `name` is written as `?`. Valgrind's "Callgrind Format
/// Specification", version 1; the choice of functions is this project's profile.
///
/// # Errors
///
/// `WriteFault` if a write failed: no further write follows, and a front of the file was written.
pub fn write_callgrind<A: Allocator + Copy, B: Allocator + Copy, W: Output>(
    name: &[u8],
    program: &Program<B>,
    texts: &[&[u8]],
    profile: &Profile<A>,
    writer: &mut W,
) -> Result<(), WriteFault>
    ensures { SendsOrBreaks (W.taker writer.old) (W.taker writer.new) result
        (callgrind.callgrind_profile name.now program.now (map (λ x. x.now) texts.now) profile.now) }
{
    put_heading(profile.steps(), profile.cycles(), writer)?;
    put_name(name, writer)?;
    put_lines(profile, program.statements(), texts, writer)?;
    put_each(&OutsideRecords { program, profile }, writer)
}

// Returns the line of the instruction that begins at an address, or 0.
fn line_at(statements: &[Statement], address: u16) -> u16
    ensures { result ≡ callgrind.line_at statements.now address }
{
    for statement in statements {
        if statement.addr == address && statement.instr.is_some() {
            return statement.line;
        }
    }
    0
}

// Writes a routine that begins on a line, or on no line of the source.
fn put_totals<W: Output>(
    name: &[u8],
    line: u16,
    totals: Totals,
    writer: &mut W,
) -> Result<(), WriteFault>
    ensures { SendsOrBreaks (W.taker writer.old) (W.taker writer.new) result (callgrind.totals_record name.now line totals) }
{
    let file = if line == 0 { b"2" } else { b"1" };
    put_function(
        file,
        name,
        u64::from(line),
        totals.steps,
        totals.cycles,
        writer,
    )
}

// The functions of the routines that were entered.
#[derive(Drop)]
struct RoutineRecords<'a, A: Allocator, B: Allocator> {
    program: &'a Program<B>,
    profile: &'a RoutineProfile<A>,
}

impl<'a, A: Allocator + Copy, B: Allocator + Copy> ByAddress for RoutineRecords<'a, A, B> {
    ghost text = { λ records address. callgrind.routine_record records.program.now records.profile.now address };

    fn put<W: Output>(&self, address: u16, writer: &mut W) -> Result<(), WriteFault> {
        let totals = self.profile.at(address);
        if totals.times == 0 {
            return Ok(());
        }
        let digits = address_digits(address);
        let name = name_or(self.program, address, &digits);
        let line = line_at(self.program.statements(), address);
        put_totals(name, line, totals, writer)
    }
}

// Writes the program itself.
fn put_itself<A: Allocator + Copy, B: Allocator + Copy, W: Output>(
    program: &Program<B>,
    profile: &RoutineProfile<A>,
    writer: &mut W,
) -> Result<(), WriteFault>
    ensures { SendsOrBreaks (W.taker writer.old) (W.taker writer.new) result (callgrind.itself_record program.now profile.now) }
{
    let line = line_at(program.statements(), program.entry());
    put_totals(b"THE PROGRAM ITSELF", line, profile.itself(), writer)
}

/// Writes a profile of `program` by routine, whose source has this name, in the format of Callgrind's files. The program itself and
/// each routine that was entered is a function with its own `Steps` and `Cycles`, at the line of the file `name` where it begins;
/// or in the file `???` if no instruction of the source is there. A control byte of `name` is written as `?`. Valgrind's "Callgrind
/// Format Specification", version 1; the choice of functions is this project's profile.
///
/// # Errors
///
/// `WriteFault` if a write failed: no further write follows, and a front of the file was written.
pub fn write_routine_callgrind<A: Allocator + Copy, B: Allocator + Copy, W: Output>(
    name: &[u8],
    program: &Program<B>,
    profile: &RoutineProfile<A>,
    writer: &mut W,
) -> Result<(), WriteFault>
    ensures { SendsOrBreaks (W.taker writer.old) (W.taker writer.new) result
        (callgrind.callgrind_routines name.now program.now profile.now) }
{
    put_heading(profile.steps(), profile.cycles(), writer)?;
    put_name(name, writer)?;
    put_itself(program, profile, writer)?;
    put_each(&RoutineRecords { program, profile }, writer)
}
