//! A profile by routine as a JSON object.

ghost use Rattle.std.specs.Prelude.{◌≡◌, ◌++◌};
ghost use Rattle.a2_asm.specs.Entries.{entries};
ghost use Rattle.a2_stream.specs.Stream.{SendsOrBreaks};
ghost use Rattle.a2_profile.specs.Json as json;

use crate::json::{COMMA, put_causes, put_string, put_sums};
use crate::profile::ADDRESSES;
use crate::{RoutineProfile, Totals};
use a2_asm::{Names, Program};
use a2_machine::Cause;
use a2_stream::{Output, WriteFault, put, put_all};
use a2_symbols::name_of;
use a2_text::decimal;
use std::alloc::Allocator;

// Writes what is counted of a routine, up to the end of its object.
#[tactic(auto, unfolding(crate::specs::Json::totals_fields))]
fn put_totals<W: Output>(front: &[u8], totals: Totals, writer: &mut W) -> Result<(), WriteFault>
    ensures { SendsOrBreaks (W.taker writer.old) (W.taker writer.new) result (json.totals_fields front.now totals) }
{
    let steps = decimal(totals.steps);
    let cycles = decimal(totals.cycles);
    let all_steps = decimal(totals.all_steps);
    let all_cycles = decimal(totals.all_cycles);
    put_all(
        &[
            front,
            b"\"steps\":",
            steps.as_slice(),
            b",\"cycles\":",
            cycles.as_slice(),
            b",\"all_steps\":",
            all_steps.as_slice(),
            b",\"all_cycles\":",
            all_cycles.as_slice(),
            b"}",
        ],
        writer,
    )
}

// Writes where a routine begins, and how often it was entered.
fn put_entry<W: Output>(address: u16, times: u64, writer: &mut W) -> Result<(), WriteFault>
    ensures { SendsOrBreaks (W.taker writer.old) (W.taker writer.new) result (json.entry_fields address times) }
{
    let address = decimal(u64::from(address));
    let times = decimal(times);
    put_all(
        &[
            b"\"address\":",
            address.as_slice(),
            b",\"times\":",
            times.as_slice(),
            b",",
        ],
        writer,
    )
}

// Writes the object of a routine, after the text before it.
fn put_routine<A: Allocator + Copy, B: Allocator + Copy, W: Output>(
    front: &[u8],
    names: &Names<B>,
    profile: &RoutineProfile<A>,
    address: u16,
    writer: &mut W,
) -> Result<(), WriteFault>
    ensures { SendsOrBreaks (W.taker writer.old) (W.taker writer.new) result
        (front.now ++ json.routine_object (entries names.now) profile.now address) }
{
    let totals = profile.at(address);
    put(front, writer)?;
    put_string(b"{\"name\":\"", name_of(names, address), b"\",", writer)?;
    put_entry(address, totals.times, writer)?;
    put_totals(b"", totals, writer)
}

// Returns whether a routine was entered.
fn is_entered<A: Allocator + Copy>(profile: &RoutineProfile<A>, address: u16) -> bool
    ensures { result ≡ json.is_entered profile.now address }
{
    profile.at(address).times != 0
}

// Writes the array of the routines that were entered.
fn put_routines<A: Allocator + Copy, B: Allocator + Copy, W: Output>(
    names: &Names<B>,
    profile: &RoutineProfile<A>,
    writer: &mut W,
) -> Result<(), WriteFault>
    ensures { SendsOrBreaks (W.taker writer.old) (W.taker writer.new) result
        (json.routines_array (entries names.now) profile.now) }
{
    put(b",\n\"routines\":[\n", writer)?;
    let mut front = b"".as_slice();
    for address in 0..ADDRESSES {
        if is_entered(profile, address as u16) {
            put_routine(front, names, profile, address as u16, writer)?;
            front = COMMA;
        }
    }
    Ok(())
}

/// Writes a profile of `program` by routine as a JSON object: all `steps` and `cycles`; `causes`, by which its runs ended;
/// `itself`, the program itself, with its own `steps` and `cycles`, and `all_steps` and `all_cycles` including what it calls; and
/// `routines`, each that was entered, with its first `name` in the source or an empty one, its `address`, how many `times` it was
/// entered, and the same four. This project's profile.
///
/// # Errors
///
/// `WriteFault` if a write failed: no further write follows, and a front of the object was written.
pub fn write_routine_json<A: Allocator + Copy, B: Allocator + Copy, W: Output>(
    program: &Program<B>,
    profile: &RoutineProfile<A>,
    causes: &[Cause],
    writer: &mut W,
) -> Result<(), WriteFault>
    ensures { SendsOrBreaks (W.taker writer.old) (W.taker writer.new) result
        (json.json_routines program.now profile.now causes.now) }
{
    put_sums(profile.steps(), profile.cycles(), writer)?;
    put_causes(causes, writer)?;
    put_totals(b"],\n\"itself\":{", profile.itself(), writer)?;
    put_routines(program.names(), profile, writer)?;
    put(b"]}\n", writer)
}
