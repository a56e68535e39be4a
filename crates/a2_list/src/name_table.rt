//! The table of a source's names with the lines that define and use them.

ghost use Rattle.std.specs.Prelude.{◌≡◌, ◌++◌, map, codes, IfOk};
ghost use Rattle.a2_stream.specs.Stream.{SendsOrBreaks};
ghost use Rattle.a2_asm.specs.Entries.{entries};
ghost use Rattle.a2_list.specs.Uses.{uses};
ghost use Rattle.a2_list.specs.NameTable as table;
ghost use Rattle.a2_list.specs.NameTable.{AreInOrder};

use crate::blanks::gap;
use crate::uses::{definition, is_used_in};
use a2_asm::{Names, Program};
use a2_stream::{Output, WriteFault, put, put_all};
use a2_syntax::Line;
use a2_text::{decimal, hex_word};
use std::alloc::{AllocError, Allocator};

// Returns the names of a map, in its order.
fn names_of<A: Allocator + Copy>(alloc: A, names: &Names<A>) -> Result<Vec<&str, A>, AllocError>
    ensures { IfOk result (λ found. map (λ x. x.now) found.items ≡ map (λ entry. entry.0) (entries names.now)) }
{
    let mut found = Vec::new(alloc);
    for index in 0..names.len() {
        let Some((name, _)) = names.get_index(index) else {
            return Ok(found);
        };
        found.push(name.as_str())?;
    }
    Ok(found)
}

/// Returns the names of a program, in the order of their bytes.
pub(crate) fn in_order<A: Allocator + Copy>(
    alloc: A,
    program: &Program<A>,
) -> Result<Vec<&str, A>, AllocError>
    ensures { IfOk result (λ order. AreInOrder program.now.names (map (λ x. x.now) order.items)) }
{
    let mut order = names_of(alloc, program.names())?;
    order.sort()?;
    Ok(order)
}

// Returns the width of the first column of the table.
fn width_of(order: &[&str]) -> usize
    ensures { result ≡ table.width_of (map (λ x. x.now) order.now) }
{
    order.iter().fold(4, |width, name| width.max(name.len()))
}

// Writes the numbers of the lines that use a name, or a mark if there are none, and the end of the row.
fn put_uses<A: Allocator, W: Output>(
    name: &str,
    lines: &[Line<A>],
    writer: &mut W,
) -> Result<(), WriteFault>
    ensures { SendsOrBreaks (W.taker writer.old) (W.taker writer.new) result
        (table.numbers (uses name.now 1 lines.now) ++ codes "\n") }
{
    let mut used = false;
    for (index, line) in lines.iter().enumerate() {
        if is_used_in(name, line) {
            put_all(&[b" ", decimal(index as u64 + 1).as_slice()], writer)?;
            used = true;
        }
    }
    if used {
        put(b"\n", writer)
    } else {
        put(b" -\n", writer)
    }
}

// Writes the row of a name.
#[tactic(auto, using(a2_stream::proofs::Joined::broke_off, a2_stream::proofs::Joined::went_on), unfolding(crate::specs::NameTable::use_columns))]
fn put_use_row<A: Allocator, W: Output>(
    width: usize,
    program: &Program<A>,
    lines: &[Line<A>],
    name: &str,
    writer: &mut W,
) -> Result<(), WriteFault>
    ensures { SendsOrBreaks (W.taker writer.old) (W.taker writer.new) result
        (table.use_row width program.now.names lines.now name.now) }
{
    let value = hex_word(program.name(name).unwrap_or(0));
    let digits = decimal(definition(name, lines) as u64);
    put_all(
        &[
            name.as_bytes(),
            gap(width, name.as_bytes()),
            b"  ",
            &value,
            b"   ",
            digits.as_slice(),
            gap(4, digits.as_slice()),
            b" ",
        ],
        writer,
    )?;
    put_uses(name, lines, writer)
}

/// Writes the table of a program's names in this order; `lines` are its lines.
pub(crate) fn put_use_table<A: Allocator, W: Output>(
    program: &Program<A>,
    lines: &[Line<A>],
    order: &[&str],
    writer: &mut W,
) -> Result<(), WriteFault>
    ensures { SendsOrBreaks (W.taker writer.old) (W.taker writer.new) result
        (table.use_table program.now.names lines.now (map (λ x. x.now) order.now)) }
{
    let width = width_of(order);
    put_all(
        &[
            b"NAME",
            gap(width, b"NAME"),
            b"  VALUE  LINE  USED IN LINES\n",
        ],
        writer,
    )?;
    for name in order {
        put_use_row(width, program, lines, *name, writer)?;
    }
    Ok(())
}
