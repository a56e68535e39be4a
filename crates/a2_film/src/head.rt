//! What is before the rows.

ghost use Rattle.std.specs.Prelude.{◌≡◌, ◌++◌, ℕ, length, map, codes, slice_index};
ghost use Rattle.std.specs.List.{flat_map};
ghost use Rattle.std.specs.Fmt.{decimal as decimal_of};
ghost use Rattle.a2_stream.specs.Stream.{SendsOrBreaks};
ghost use Rattle.a2_text.specs.Digits.{hex_word as word_of};
ghost use Rattle.a2_hex.specs.Images.{held};
ghost use Rattle.a2_asm.specs.Entries.{entries};
ghost use Rattle.a2_bus.specs.Memory.{ram_byte, ram_end};
ghost use Rattle.a2_bus.specs.View.{memory_of};
ghost use Rattle.a2_machine.specs.State.{world_of_state};
ghost use Rattle.a2_film.specs.Changes.{differing};
ghost use Rattle.a2_film.specs.Rows as spelt;

use crate::chapters::{Chapter, Place};
use crate::rows::{NO_ADDRESS, Rows, append_others};
use crate::texts::{hex_digit, put_between, put_digits, switch_digit};
use a2_asm::{Names, Program, Statement};
use a2_hex::{Image, RAM_END};
use a2_machine::Machine;
use a2_stream::{Output, WriteFault, put, put_all};
use a2_text::{decimal, hex_pair, hex_word};
use std::alloc::Allocator;

// How many bytes of RAM are written at a time, and how often.
const PIECE_LEN: u16 = 256;

const PIECES: u16 = RAM_END / PIECE_LEN;

// Writes form and title.
#[tactic(auto, unfolding(crate::specs::Rows::title_lines))]
fn put_title<W: Output>(title: &[u8], writer: &mut W) -> Result<(), WriteFault>
    ensures { SendsOrBreaks (W.taker writer.old) (W.taker writer.new) result (spelt.title_lines title.now) }
{
    put_between(b"FILM 1\nT ", title, b"\n", writer)
}

// Returns whether the run has no guard, up to its keys.
fn guard_text(free: bool) -> &'static [u8]
    ensures { result.now ≡ spelt.guard_text free }
{
    if free {
        b"G FREE\nK "
    } else {
        b"G GUARDED\nK "
    }
}

// Writes whether the run has no guard, and its keys.
#[tactic(auto, using(a2_stream::proofs::Joined::broke_off, a2_stream::proofs::Joined::went_on))]
fn put_conditions<W: Output>(free: bool, keys: &[u8], writer: &mut W) -> Result<(), WriteFault>
    ensures { SendsOrBreaks (W.taker writer.old) (W.taker writer.new) result
        (spelt.guard_text free ++ (spelt.digits_of_bytes keys.now ++ codes "\n")) }
{
    put(guard_text(free), writer)?;
    put_digits(keys, writer)?;
    put(b"\n", writer)
}

/// Writes the beginning.
#[tactic(auto, using(a2_stream::proofs::Joined::broke_off, a2_stream::proofs::Joined::went_on))]
pub fn put_opening<W: Output>(
    title: &[u8],
    free: bool,
    keys: &[u8],
    writer: &mut W,
) -> Result<(), WriteFault>
    ensures { SendsOrBreaks (W.taker writer.old) (W.taker writer.new) result (spelt.opening title.now free keys.now) }
{
    put_title(title, writer)?;
    put_conditions(free, keys, writer)
}

// Writes where a chapter begins.
fn put_place<W: Output>(place: Place, writer: &mut W) -> Result<(), WriteFault>
    ensures { SendsOrBreaks (W.taker writer.old) (W.taker writer.new) result (spelt.place_text place) }
{
    match place {
        Place::Step(number) => put_all(&[b"C ", decimal(u64::from(number)).as_slice()], writer),
        Place::Line(number) => put_all(&[b"D ", decimal(u64::from(number)).as_slice()], writer),
    }
}

// Writes a chapter.
#[tactic(auto, using(a2_stream::proofs::Joined::broke_off, a2_stream::proofs::Joined::went_on))]
fn put_chapter<W: Output>(chapter: &Chapter<'_>, writer: &mut W) -> Result<(), WriteFault>
    ensures { SendsOrBreaks (W.taker writer.old) (W.taker writer.new) result (spelt.chapter_line chapter.now) }
{
    put_place(chapter.place, writer)?;
    put_between(b" ", chapter.text, b"\n", writer)
}

/// Writes the chapters.
pub fn put_chapters<W: Output>(chapters: &[Chapter<'_>], writer: &mut W) -> Result<(), WriteFault>
    ensures { SendsOrBreaks (W.taker writer.old) (W.taker writer.new) result (flat_map spelt.chapter_line chapters.now) }
{
    for chapter in chapters {
        put_chapter(chapter, writer)?;
    }
    Ok(())
}

// Writes a line of the source.
fn put_source_line<W: Output>(text: &[u8], writer: &mut W) -> Result<(), WriteFault>
    ensures { SendsOrBreaks (W.taker writer.old) (W.taker writer.new) result (spelt.source_line text.now) }
{
    put_between(b"S ", text, b"\n", writer)
}

// Writes the lines of the source.
fn put_source<W: Output>(texts: &[&[u8]], writer: &mut W) -> Result<(), WriteFault>
    ensures { SendsOrBreaks (W.taker writer.old) (W.taker writer.new) result
        (flat_map spelt.source_line (map (λ x. x.now) texts.now)) }
{
    for text in texts {
        put_source_line(*text, writer)?;
    }
    Ok(())
}

// Returns how many bytes a statement puts in the image; DS puts none.
fn laid<A: Allocator + Copy>(image: &Image<A>, statement: &Statement) -> u16
    ensures { result ≡ spelt.laid (held image.now) statement.now }
{
    match image.get(statement.addr) {
        Some(_) => statement.length,
        None => 0,
    }
}

// Writes the line of a statement.
#[tactic(auto, unfolding(crate::specs::Rows::line_of_statement))]
fn put_statement<W: Output>(
    line: u16,
    addr: u16,
    count: u16,
    writer: &mut W,
) -> Result<(), WriteFault>
    ensures { SendsOrBreaks (W.taker writer.old) (W.taker writer.new) result
        (spelt.line_of_statement (decimal_of line) (word_of addr) (decimal_of count)) }
{
    put_all(
        &[
            b"L ",
            decimal(u64::from(line)).as_slice(),
            b" ",
            &hex_word(addr),
            b" ",
            decimal(u64::from(count)).as_slice(),
            b"\n",
        ],
        writer,
    )
}

// Writes the lines of statements.
fn put_statements<A: Allocator + Copy, W: Output>(
    image: &Image<A>,
    statements: &[Statement],
    writer: &mut W,
) -> Result<(), WriteFault>
    ensures { SendsOrBreaks (W.taker writer.old) (W.taker writer.new) result
        (flat_map (spelt.statement_line (held image.now)) statements.now) }
{
    for statement in statements {
        put_statement(
            statement.line,
            statement.addr,
            laid(image, statement),
            writer,
        )?;
    }
    Ok(())
}

// Writes a name and its value.
fn put_name<W: Output>(name: &[u8], value: u16, writer: &mut W) -> Result<(), WriteFault>
    ensures { SendsOrBreaks (W.taker writer.old) (W.taker writer.new) result (spelt.name_line (name.now, value)) }
{
    let [a, b, c, d] = hex_word(value);
    put_between(b"N ", name, &[b' ', a, b, c, d, b'\n'], writer)
}

// Writes the names with their values.
fn put_names<A: Allocator + Copy, W: Output>(
    names: &Names<A>,
    writer: &mut W,
) -> Result<(), WriteFault>
    ensures { SendsOrBreaks (W.taker writer.old) (W.taker writer.new) result (flat_map spelt.name_line (entries names.now)) }
{
    for index in 0..names.len() {
        let Some((name, value)) = names.get_index(index) else {
            return Ok(());
        };
        put_name(name.as_str().as_bytes(), *value, writer)?;
    }
    Ok(())
}

/// Writes the lines of the source, the statements and the names.
#[tactic(auto, using(a2_stream::proofs::Joined::broke_off, a2_stream::proofs::Joined::went_on))]
pub fn put_program<A: Allocator + Copy, W: Output>(
    program: &Program<A>,
    texts: &[&[u8]],
    writer: &mut W,
) -> Result<(), WriteFault>
    ensures { SendsOrBreaks (W.taker writer.old) (W.taker writer.new) result
        (spelt.program_lines program.now (map (λ x. x.now) texts.now)) }
{
    put_source(texts, writer)?;
    put_statements(program.image(), program.statements(), writer)?;
    put_names(program.names(), writer)
}

// Writes how many steps and cycles of the run are before the film.
#[tactic(auto, unfolding(crate::specs::Rows::line_of_counts))]
fn put_counts<W: Output>(steps: u64, cycles: u64, writer: &mut W) -> Result<(), WriteFault>
    ensures { SendsOrBreaks (W.taker writer.old) (W.taker writer.new) result
        (spelt.line_of_counts (decimal_of steps) (decimal_of cycles)) }
{
    put_all(
        &[
            b"B ",
            decimal(steps).as_slice(),
            b" ",
            decimal(cycles).as_slice(),
            b"\n",
        ],
        writer,
    )
}

// Writes the bytes of RAM that differ from these.
fn put_differing<A: Allocator + Copy, W: Output>(
    old: &[u8],
    machine: &Machine<A>,
    writer: &mut W,
) -> Result<(), WriteFault>
    requires { length old.now ≡ ram_end }
    ensures { let new = ram_byte (memory_of machine.now.state.bus) in
        SendsOrBreaks (W.taker writer.old) (W.taker writer.new) result
        (spelt.stores_text spelt.no_address (differing (slice_index old.now) new 0 ram_end)) }
{
    let mut rows = Rows::new();
    let mut next = NO_ADDRESS;
    for piece in 0..PIECES {
        let first = piece * PIECE_LEN;
        let end = first + PIECE_LEN;
        let begin = usize::from(first);
        let past = usize::from(end);
        rows.clear();
        next = append_others(&mut rows, next, first, end, &old[begin..past], machine);
        put(rows.as_slice(), writer)?;
    }
    Ok(())
}

// Writes RAM after a piece, where it differs from `blank`.
#[tactic(auto, using(a2_stream::proofs::Joined::broke_off, a2_stream::proofs::Joined::went_on))]
fn put_ram<A: Allocator + Copy, W: Output>(
    front: &[u8],
    blank: &[u8],
    machine: &Machine<A>,
    writer: &mut W,
) -> Result<(), WriteFault>
    requires { length blank.now ≡ ram_end }
    ensures { let new = ram_byte (memory_of machine.now.state.bus) in
        SendsOrBreaks (W.taker writer.old) (W.taker writer.new) result
        (front.now ++ (spelt.stores_text spelt.no_address (differing (slice_index blank.now) new 0 ram_end) ++ codes "\n")) }
{
    put(front, writer)?;
    put_differing(blank, machine, writer)?;
    put(b"\n", writer)
}

// Writes RAM at the start: `blank` is 0 everywhere.
fn put_memory<A: Allocator + Copy, W: Output>(
    blank: &[u8],
    machine: &Machine<A>,
    writer: &mut W,
) -> Result<(), WriteFault>
    requires size { length blank.now ≡ ram_end }
    requires zeros { (a : ℕ) → slice_index blank.now a ≡ 0 }
    ensures { SendsOrBreaks (W.taker writer.old) (W.taker writer.new) result
        (spelt.memory_line (world_of_state machine.now.state)) }
{
    put_ram(b"M ", blank, machine, writer)
}

// Writes the line of these digits.
#[tactic(auto, unfolding(crate::specs::Rows::line_of_registers))]
fn put_register_digits<W: Output>(
    pc: [u8; 4],
    a: [u8; 2],
    x: [u8; 2],
    y: [u8; 2],
    s: [u8; 2],
    p: [u8; 2],
    switches: u8,
    writer: &mut W,
) -> Result<(), WriteFault>
    ensures { SendsOrBreaks (W.taker writer.old) (W.taker writer.new) result (spelt.line_of_registers pc a x y s p switches) }
{
    put_all(
        &[
            b"R ",
            &pc,
            b" ",
            &a,
            b" ",
            &x,
            b" ",
            &y,
            b" ",
            &s,
            b" ",
            &p,
            b" ",
            &[switches],
            b"\n",
        ],
        writer,
    )
}

// Writes registers and switches at the start.
fn put_registers<A: Allocator + Copy, W: Output>(
    machine: &Machine<A>,
    writer: &mut W,
) -> Result<(), WriteFault>
    ensures { SendsOrBreaks (W.taker writer.old) (W.taker writer.new) result
        (spelt.registers_line (world_of_state machine.now.state)) }
{
    let regs = machine.regs();
    let digit = hex_digit(switch_digit(machine.view().switches));
    let p = hex_pair(regs.p.pushed());
    put_register_digits(
        hex_word(regs.pc),
        hex_pair(regs.a),
        hex_pair(regs.x),
        hex_pair(regs.y),
        hex_pair(regs.s),
        p,
        digit,
        writer,
    )
}

/// Writes the start: `blank` is RAM with 0 everywhere.
#[tactic(auto, using(a2_stream::proofs::Joined::broke_off, a2_stream::proofs::Joined::went_on))]
pub fn put_start<A: Allocator + Copy, W: Output>(
    blank: &[u8],
    machine: &Machine<A>,
    writer: &mut W,
) -> Result<(), WriteFault>
    requires size { length blank.now ≡ ram_end }
    requires zeros { (a : ℕ) → slice_index blank.now a ≡ 0 }
    ensures { SendsOrBreaks (W.taker writer.old) (W.taker writer.new) result
        (spelt.start_lines machine.now.state.steps (world_of_state machine.now.state)) }
{
    put_counts(machine.steps(), machine.cycles(), writer)?;
    put_memory(blank, machine, writer)?;
    put_registers(machine, writer)
}
