//! The bytes of RAM that a call of a service may change: as they were before it, and those that differ after it.

ghost use Rattle.std.specs.Prelude.{◌≡◌, ◌<◌, ◌≤◌, ◌+◌, ◌-◌, ◌*◌, ◌++◌, ℕ, length, slice_index, slice_range};
ghost use Rattle.arrayvec.specs.ArrayVec.{array_vec_len};
ghost use Rattle.a2_bus.specs.Locations.{ch};
ghost use Rattle.a2_bus.specs.Memory.{ram_byte, ram_end};
ghost use Rattle.a2_bus.specs.View.{memory_of};
ghost use Rattle.a2_film.specs.Changes.{differing};
ghost use Rattle.a2_film.specs.Filmed.{low_end as low_end_of, from_address, most_kept, rows_room, Appends};
ghost use Rattle.a2_film.specs.Rows as spelt;

use crate::rows::{NO_ADDRESS, Rows, append_others};
use a2_bus::locations::{CH, INVFLG};
use a2_machine::Machine;
use a2_services::{Service, reach};
use std::alloc::Allocator;

// The end of the line that GETLN reads.
const LINE_END: u16 = 0x0300;

// Page 1.
const PAGE1: u16 = 0x0400;

// How many pieces of page 1 are compared, each as a whole, and how many bytes each has.
const PIECES: u16 = 16;

const PIECE_LEN: u16 = 64;

/// Returns where the bytes below page 1 end that a call of a service may change. The first of them is CH.
pub fn low_end(service: Service) -> u16
    ensures { result ≡ low_end_of service }
{
    if reach(service, LINE_END - 1) {
        LINE_END
    } else {
        INVFLG + 1
    }
}

/// Copies the bytes of RAM from CH up to an end.
pub fn keep_low<A: Allocator + Copy>(end: u16, machine: &Machine<A>, ram: &mut [u8])
    requires end { end ≤ ram_end }
    requires size { length ram.old ≡ ram_end }
    ensures size { length ram.new ≡ length ram.old }
    ensures bytes { (a : ℕ) → ch ≤ a → a < end → slice_index ram.new a ≡ ram_byte (memory_of machine.now.state.bus) a }
{
    for address in CH..end {
        ram[usize::from(address)] = machine.peek(address).unwrap_or(0);
    }
}

// Appends the bytes of RAM from `first` up to `end` that differ from these, if `now` has those that are there: none, if both are
// the same.
fn append_piece<A: Allocator + Copy>(
    rows: &mut Rows,
    next: u32,
    first: u16,
    end: u16,
    old: &[u8],
    now: &[u8],
    machine: &Machine<A>,
) -> u32
    requires order { first ≤ end }
    requires size { length old.now ≡ end - first }
    requires inside { end ≤ ram_end }
    requires room { array_vec_len rows.old + 7 * (end - first) ≤ rows_room }
    requires now { (a : ℕ) → first ≤ a → a < end → from_address first now.now a ≡ ram_byte (memory_of machine.now.state.bus) a }
    ensures stores { let new = ram_byte (memory_of machine.now.state.bus) in
        Appends rows.old.items next (differing (from_address first old.now) new first (end - first)) rows.new.items result }
    ensures length { array_vec_len rows.new ≤ array_vec_len rows.old + 7 * (end - first) }
{
    if old == now {
        return next;
    }
    append_others(rows, next, first, end, old, machine)
}

// Appends the bytes of page 1 that differ from these.
fn append_page<A: Allocator + Copy>(
    rows: &mut Rows,
    next: u32,
    old: &[u8; 1024],
    machine: &Machine<A>,
) -> u32
    requires { array_vec_len rows.old + 7168 ≤ rows_room }
    ensures stores { let new = ram_byte (memory_of machine.now.state.bus) in
        Appends rows.old.items next (differing (from_address 0x400 old.now) new 0x400 0x400) rows.new.items result }
    ensures length { array_vec_len rows.new ≤ array_vec_len rows.old + 7168 }
{
    // For the prover alone: all of RAM is there.
    let _ = machine.peek(0);
    let page = machine.view().page1;
    let mut last = next;
    for piece in 0..PIECES {
        let start = piece * PIECE_LEN;
        let end = start + PIECE_LEN;
        let begin = usize::from(start);
        let past = usize::from(end);
        last = append_piece(
            rows,
            last,
            PAGE1 + start,
            PAGE1 + end,
            &old[begin..past],
            &page[begin..past],
            machine,
        );
    }
    last
}

/// Appends the bytes of RAM that differ from those before a call of a service: `ram` has those below page 1 from CH up to an end.
pub fn append_changes<A: Allocator + Copy>(
    rows: &mut Rows,
    end: u16,
    ram: &[u8],
    page1: &[u8; 1024],
    machine: &Machine<A>,
)
    requires order { ch ≤ end }
    requires end { end ≤ 0x300 }
    requires size { length ram.now ≡ ram_end }
    requires room { array_vec_len rows.old ≤ most_kept + 12_350 }
    ensures stores { let new = ram_byte (memory_of machine.now.state.bus) in
        rows.new.items ≡ rows.old.items ++ spelt.stores_text spelt.no_address
        (differing (from_address ch (slice_range ram.now ch end)) new ch (end - ch)
        ++ differing (from_address 0x400 page1.now) new 0x400 0x400) }
    ensures length { array_vec_len rows.new < rows_room }
{
    let low = &ram[usize::from(CH)..usize::from(end)];
    let next = append_others(rows, NO_ADDRESS, CH, end, low, machine);
    append_page(rows, next, page1, machine);
}
