//! The table of a profile by routine.

ghost use Rattle.std.specs.Prelude.{◌≡◌, ◌≤◌};
ghost use Rattle.a2_profile.specs.RoutineTable as table;
ghost use Rattle.a2_stream.specs.Stream.{SendsOrBreaks};

use crate::addresses::{ByAddress, put_each};
use crate::row::{Cell, put_row};
use crate::table::{per_mille, put_sum_line, share_digits};
use crate::{RoutineProfile, Totals};
use a2_asm::Program;
use a2_stream::{Output, WriteFault};
use a2_symbols::name_of;
use a2_text::{decimal, hex_word};
use std::alloc::Allocator;

// Writes the row of totals.
#[tactic(auto, unfolding(crate::specs::RoutineTable::routine_cells))]
fn put_totals<W: Output>(
    all: u64,
    times: &[u8],
    totals: Totals,
    label: &[u8],
    name: &[u8],
    writer: &mut W,
) -> Result<(), WriteFault>
    requires own { totals.cycles ≤ all }
    requires within { totals.all_cycles ≤ all }
    ensures { SendsOrBreaks (W.taker writer.old) (W.taker writer.new) result
        (table.totals_row all times.now totals label.now name.now) }
{
    let steps = decimal(totals.steps);
    let cycles = decimal(totals.cycles);
    let share = share_digits(per_mille(totals.cycles, all));
    let all_steps = decimal(totals.all_steps);
    let all_cycles = decimal(totals.all_cycles);
    let all_share = share_digits(per_mille(totals.all_cycles, all));
    put_row(
        &[
            Cell::of(10, times),
            Cell::of(12, steps.as_slice()),
            Cell::of(14, cycles.as_slice()),
            Cell::of(8, share.as_slice()),
            Cell::of(12, all_steps.as_slice()),
            Cell::of(14, all_cycles.as_slice()),
            Cell::of(8, all_share.as_slice()),
        ],
        &[label, name],
        writer,
    )
}

// Returns the label of the program itself.
fn itself_text() -> &'static [u8]
    ensures { result.now ≡ Rattle.std.specs.Prelude.codes "THE PROGRAM ITSELF" }
{
    b"THE PROGRAM ITSELF"
}

// Writes the row of the program itself.
fn put_itself<A: Allocator + Copy, W: Output>(
    profile: &RoutineProfile<A>,
    writer: &mut W,
) -> Result<(), WriteFault>
    ensures { SendsOrBreaks (W.taker writer.old) (W.taker writer.new) result (table.itself_row profile.now) }
{
    put_totals(
        profile.cycles(),
        b"",
        profile.itself(),
        itself_text(),
        b"",
        writer,
    )
}

// The rows of the routines that were entered.
#[derive(Drop)]
struct RoutineRows<'a, A: Allocator, B: Allocator> {
    program: &'a Program<B>,
    profile: &'a RoutineProfile<A>,
}

impl<'a, A: Allocator + Copy, B: Allocator + Copy> ByAddress for RoutineRows<'a, A, B> {
    ghost text = { λ rows address. table.routine_row rows.program.now.names rows.profile.now address };

    fn put<W: Output>(&self, address: u16, writer: &mut W) -> Result<(), WriteFault> {
        let totals = self.profile.at(address);
        if totals.times == 0 {
            return Ok(());
        }
        let times = decimal(totals.times);
        put_totals(
            self.profile.cycles(),
            times.as_slice(),
            totals,
            &hex_word(address),
            name_of(self.program.names(), address),
            writer,
        )
    }
}

// Writes the heading.
#[tactic(auto, unfolding(crate::specs::RoutineTable::routine_cells))]
fn put_heading<W: Output>(writer: &mut W) -> Result<(), WriteFault>
    ensures { SendsOrBreaks (W.taker writer.old) (W.taker writer.new) result table.routine_heading }
{
    put_row(
        &[
            Cell::of(10, b"TIMES"),
            Cell::of(12, b"STEPS"),
            Cell::of(14, b"CYCLES"),
            Cell::of(8, b"SHARE"),
            Cell::of(12, b"ALL STEPS"),
            Cell::of(14, b"ALL CYCLES"),
            Cell::of(8, b"SHARE"),
        ],
        &[b"ROUTINE", b""],
        writer,
    )
}

/// Writes the table of a profile of `program` by routine. There is a row for the program itself, and for each routine that was
/// entered, in the order of their addresses: how often it was entered, its own steps and cycles and their share of all cycles,
/// rounded down, and the same including what it calls; its address, and its first name in the source. The sums follow. This
/// project's profile.
///
/// # Errors
///
/// `WriteFault` if a write failed: no further write follows, and a front of the table was written.
pub fn write_routines<A: Allocator + Copy, B: Allocator + Copy, W: Output>(
    program: &Program<B>,
    profile: &RoutineProfile<A>,
    writer: &mut W,
) -> Result<(), WriteFault>
    ensures { SendsOrBreaks (W.taker writer.old) (W.taker writer.new) result (table.routine_table program.now profile.now) }
{
    put_heading(writer)?;
    put_itself(profile, writer)?;
    put_each(&RoutineRows { program, profile }, writer)?;
    put_sum_line(profile.steps(), profile.cycles(), writer)
}
