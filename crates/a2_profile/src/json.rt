//! A profile as a JSON object.

ghost use Rattle.std.specs.Prelude.{◌≡◌, ◌<◌, ◌++◌, ◌∷◌, ℕ, List, All, false, Some, codes, map};
ghost use Rattle.std.specs.Fmt.{decimal as decimal_of};
ghost use Rattle.a2_text.specs.Json.{escaped};
ghost use Rattle.a2_stream.specs.Stream.{SendsOrBreaks};
ghost use Rattle.a2_profile.specs.Json as json;

use crate::profile::ADDRESSES;
use crate::table::{is_branch, is_never_done, is_outside};
use crate::{Count, Profile};
use a2_asm::{Program, Statement};
use a2_machine::Cause;
use a2_stream::{Output, WriteFault, put, put_all};
use a2_symbols::instruction_on;
use a2_text::{decimal, json_escape};
use std::alloc::Allocator;

// What is between two items of an array.
pub(crate) const COMMA: &[u8] = b",\n";

/// A law, and no code: no text ends the string that its escapes are in. A reader of JSON finds, after the open string, exactly what
/// follows its last quote.
pub fn no_text_ends_its_string()
    ensures { (text rest : List ℕ) → All (λ byte. byte < 256) text
        → json.after_string false (json.escapes text ++ 0x22 ∷ rest) ≡ Some rest }
{}

// Writes a text between the quotes of a string.
#[tactic(auto, unfolding(crate::specs::Json::escapes))]
fn put_escapes<W: Output>(text: &[u8], writer: &mut W) -> Result<(), WriteFault>
    ensures { SendsOrBreaks (W.taker writer.old) (W.taker writer.new) result (json.escapes text.now) }
{
    for byte in text {
        put(json_escape(*byte).as_slice(), writer)?;
    }
    Ok(())
}

// Writes a text as a string, between the texts before and after it.
pub(crate) fn put_string<W: Output>(
    front: &[u8],
    text: &[u8],
    end: &[u8],
    writer: &mut W,
) -> Result<(), WriteFault>
    ensures { SendsOrBreaks (W.taker writer.old) (W.taker writer.new) result (json.string_field front.now text.now end.now) }
{
    put(front, writer)?;
    put_escapes(text, writer)?;
    put(end, writer)
}

// Writes what is counted at an address, between these texts.
#[tactic(auto, unfolding(crate::specs::Json::count_fields))]
fn put_count<W: Output>(
    front: &[u8],
    address: u16,
    count: Count,
    end: &[u8],
    writer: &mut W,
) -> Result<(), WriteFault>
    ensures { SendsOrBreaks (W.taker writer.old) (W.taker writer.new) result (json.count_fields front.now address count end.now) }
{
    let address = decimal(u64::from(address));
    let times = decimal(count.times);
    let cycles = decimal(count.cycles);
    put_all(
        &[
            front,
            b"\"address\":",
            address.as_slice(),
            b",\"times\":",
            times.as_slice(),
            b",\"cycles\":",
            cycles.as_slice(),
            end,
        ],
        writer,
    )
}

// Writes how often a branch was taken, and how often not.
#[tactic(auto, unfolding(crate::specs::Json::branch_fields))]
fn put_branch<W: Output>(is_branch: bool, count: Count, writer: &mut W) -> Result<(), WriteFault>
    ensures { SendsOrBreaks (W.taker writer.old) (W.taker writer.new) result (json.branch_fields is_branch count) }
{
    if !is_branch {
        return Ok(());
    }
    let taken = decimal(count.taken);
    let straight = decimal(count.times.saturating_sub(count.taken));
    put_all(
        &[
            b",\"taken\":",
            taken.as_slice(),
            b",\"not_taken\":",
            straight.as_slice(),
        ],
        writer,
    )
}

// Writes what is counted of the instruction on a line, if there is one.
#[tactic(auto, using(a2_stream::proofs::Joined::broke_off, a2_stream::proofs::Joined::went_on))]
fn put_statement<A: Allocator + Copy, W: Output>(
    profile: &Profile<A>,
    statement: Option<Statement>,
    writer: &mut W,
) -> Result<(), WriteFault>
    ensures { SendsOrBreaks (W.taker writer.old) (W.taker writer.new) result (json.statement_fields profile.now statement) }
{
    let Some(statement) = statement else {
        return Ok(());
    };
    let count = profile.at(statement.addr);
    put_count(b",", statement.addr, count, b"", writer)?;
    put_branch(is_branch(&statement), count, writer)
}

// Writes the beginning of the object of a line.
#[tactic(auto, unfolding(crate::specs::Json::line_head))]
fn put_head<W: Output>(number: usize, writer: &mut W) -> Result<(), WriteFault>
    ensures { SendsOrBreaks (W.taker writer.old) (W.taker writer.new) result (json.line_head number) }
{
    let number = decimal(number as u64);
    put_all(&[b"{\"line\":", number.as_slice()], writer)
}

// Writes the object of a line, after the text before it.
fn put_line<'a, A: Allocator + Copy, W: Output>(
    front: &'a [u8],
    profile: &Profile<A>,
    statement: Option<Statement>,
    number: usize,
    text: &'a [u8],
    writer: &mut W,
) -> Result<(), WriteFault>
    ensures { SendsOrBreaks (W.taker writer.old) (W.taker writer.new) result
        (front.now ++ json.line_object profile.now statement number text.now) }
{
    put(front, writer)?;
    put_head(number, writer)?;
    put_statement(profile, statement, writer)?;
    put_string(b",\"source\":\"", text, b"\"}", writer)
}

// Writes the array of all lines.
fn put_lines<A: Allocator + Copy, W: Output>(
    profile: &Profile<A>,
    statements: &[Statement],
    texts: &[&[u8]],
    writer: &mut W,
) -> Result<(), WriteFault>
    ensures { SendsOrBreaks (W.taker writer.old) (W.taker writer.new) result
        (json.lines_array profile.now statements.now (map (λ x. x.now) texts.now)) }
{
    put(b"],\n\"lines\":[\n", writer)?;
    let mut front = b"".as_slice();
    let mut number = 1usize;
    for text in texts {
        let statement = instruction_on(statements, number);
        put_line(front, profile, statement, number, *text, writer)?;
        front = COMMA;
        number += 1;
    }
    Ok(())
}

// Writes the array of the other addresses where steps began.
fn put_outsides<A: Allocator + Copy, B: Allocator + Copy, W: Output>(
    program: &Program<B>,
    profile: &Profile<A>,
    writer: &mut W,
) -> Result<(), WriteFault>
    ensures { SendsOrBreaks (W.taker writer.old) (W.taker writer.new) result
        (json.outside_array program.now.statements profile.now) }
{
    put(b"],\n\"outside\":[\n", writer)?;
    let mut front = b"".as_slice();
    for address in 0..ADDRESSES {
        let address = address as u16;
        if is_outside(program, profile, address) {
            put(front, writer)?;
            put_count(b"{", address, profile.at(address), b"}", writer)?;
            front = COMMA;
        }
    }
    Ok(())
}

// Writes a number, after the text before it.
fn put_number<'a, W: Output>(front: &'a [u8], number: u16, writer: &mut W) -> Result<(), WriteFault>
    ensures { SendsOrBreaks (W.taker writer.old) (W.taker writer.new) result (front.now ++ decimal_of number) }
{
    let number = decimal(u64::from(number));
    put_all(&[front, number.as_slice()], writer)
}

// Writes the array of the numbers of the lines that were never executed.
fn put_never<A: Allocator + Copy, W: Output>(
    profile: &Profile<A>,
    statements: &[Statement],
    writer: &mut W,
) -> Result<(), WriteFault>
    ensures { SendsOrBreaks (W.taker writer.old) (W.taker writer.new) result (json.never_array profile.now statements.now) }
{
    put(b"],\n\"never\":[\n", writer)?;
    let mut front = b"".as_slice();
    for statement in statements {
        if is_never_done(profile, statement) {
            put_number(front, statement.line, writer)?;
            front = COMMA;
        }
    }
    Ok(())
}

// Writes a cause, after the text before it.
fn put_cause<W: Output>(front: &[u8], cause: Cause, writer: &mut W) -> Result<(), WriteFault>
    ensures { SendsOrBreaks (W.taker writer.old) (W.taker writer.new) result (front.now ++ json.cause_string cause) }
{
    put(front, writer)?;
    put_all(&[b"\"", cause.name(), b"\""], writer)
}

// Writes causes.
pub(crate) fn put_causes<W: Output>(causes: &[Cause], writer: &mut W) -> Result<(), WriteFault>
    ensures { SendsOrBreaks (W.taker writer.old) (W.taker writer.new) result (json.items (map json.cause_string causes.now)) }
{
    let mut front = b"".as_slice();
    for cause in causes {
        put_cause(front, *cause, writer)?;
        front = COMMA;
    }
    Ok(())
}

// Writes all steps and cycles, and what is before the causes.
pub(crate) fn put_sums<W: Output>(steps: u64, cycles: u64, writer: &mut W) -> Result<(), WriteFault>
    ensures { SendsOrBreaks (W.taker writer.old) (W.taker writer.new) result (json.sum_fields steps cycles) }
{
    let steps = decimal(steps);
    let cycles = decimal(cycles);
    put_all(
        &[
            b"{\"steps\":",
            steps.as_slice(),
            b",\"cycles\":",
            cycles.as_slice(),
            b",\"causes\":[",
        ],
        writer,
    )
}

/// Writes a profile of `program`, whose source has these lines, as a JSON object: all `steps` and `cycles`; `causes`, by which its
/// runs ended; `lines`, each with its number and the line as `source`, and if it has an instruction, with its `address`, how many
/// `times` it was executed and its `cycles`, and for a branch with `taken` and `not_taken`; `outside`, the other addresses where
/// steps began; and `never`, the numbers of the lines that were never executed. A byte of a line that is not a printing ASCII
/// character is written as `\u00C1`. This project's profile.
///
/// # Errors
///
/// `WriteFault` if a write failed: no further write follows, and a front of the object was written.
pub fn write_json<A: Allocator + Copy, B: Allocator + Copy, W: Output>(
    program: &Program<B>,
    texts: &[&[u8]],
    profile: &Profile<A>,
    causes: &[Cause],
    writer: &mut W,
) -> Result<(), WriteFault>
    ensures { SendsOrBreaks (W.taker writer.old) (W.taker writer.new) result
        (json.json_profile program.now (map (λ x. x.now) texts.now) profile.now causes.now) }
{
    let statements = program.statements();
    put_sums(profile.steps(), profile.cycles(), writer)?;
    put_causes(causes, writer)?;
    put_lines(profile, statements, texts, writer)?;
    put_outsides(program, profile, writer)?;
    put_never(profile, statements, writer)?;
    put(b"]}\n", writer)
}
