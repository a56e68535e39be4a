//! The rows of a film: what a step changed.

ghost use Rattle.std.specs.Prelude.{◌≡◌, ◌≤◌, ◌+◌, ◌-◌, ◌*◌, ◌++◌, ◌∷◌, ◌==◌, ℕ, List, [], if◌then◌else◌, length};
ghost use Rattle.std.specs.Fmt.{decimal as decimal_of};
ghost use Rattle.arrayvec.specs.ArrayVec.{array_vec_len};
ghost use Rattle.a2_text.specs.Digits.{hex_pair, hex_word};
ghost use Rattle.a2_bus.specs.Memory.{ram_byte, ram_end};
ghost use Rattle.a2_bus.specs.View.{memory_of};
ghost use Rattle.a2_machine.specs.State.{world_of_state};
ghost use Rattle.a2_film.specs.Changes as change;
ghost use Rattle.a2_film.specs.Changes.{changed, bytes_at, differing};
ghost use Rattle.a2_film.specs.Filmed.{seen_by, seen_of, fields_between, rows_room, Appends, from_address};
ghost use Rattle.a2_film.specs.Rows as spelt;
ghost use Rattle.a2_film.specs.Rows.{no_address};

use crate::texts::{hex_digit, switch_digit};
use a2_cpu::Regs;
use a2_machine::Machine;
use a2_page::Switches;
use a2_text::{append, decimal};
use arrayvec::ArrayVec;
use std::alloc::Allocator;

/// The address after all others.
pub const NO_ADDRESS: u32 = 0x10000;

/// What a row compares before a step and after it, besides RAM.
#[derive(Clone, Copy)]
pub struct Moment {
    regs: Regs,
    cycles: u64,
    switches: Switches,
    waiting: usize,
}

impl Moment {
    /// Returns the moment of a machine.
    pub fn of<A: Allocator + Copy>(machine: &Machine<A>) -> Moment
        ensures { seen_by result ≡ seen_of (world_of_state machine.now.state) }
    {
        Moment {
            regs: machine.regs(),
            cycles: machine.cycles(),
            switches: machine.view().switches,
            waiting: machine.space().waiting().len(),
        }
    }
}

/// Up to how many bytes rows have room for another: it has at most 62 bytes, and at most 4,096 keys of 3 bytes, before its stores. Each
/// store has at most 7, and a step has at most 1,756 of them.
pub const MOST_KEPT: usize = 1_024;

/// Rows that are still to be written.
pub type Rows = ArrayVec<u8, 25_712>;

// Appends a number in decimal digits.
#[tactic(auto, using(std::proofs::lemmas::Fmt::decimal_digit))]
fn append_number(rows: &mut Rows, number: u64)
    requires { array_vec_len rows.old + 20 ≤ rows_room }
    ensures items { rows.new.items ≡ rows.old.items ++ decimal_of number }
    ensures length { array_vec_len rows.new ≤ array_vec_len rows.old + 20 }
{
    if number < 10 {
        rows.push(b'0' + number as u8);
    } else {
        append(rows, decimal(number).as_slice());
    }
}

// Appends the digits of a byte.
fn append_digits(rows: &mut Rows, byte: u8)
    requires { array_vec_len rows.old + 2 ≤ rows_room }
    ensures items { rows.new.items ≡ rows.old.items ++ hex_pair byte }
    ensures length { array_vec_len rows.new ≡ array_vec_len rows.old + 2 }
{
    rows.push(hex_digit(byte / 16));
    rows.push(hex_digit(byte % 16));
}

// Appends the digits of an address.
fn append_address(rows: &mut Rows, address: u16)
    requires { array_vec_len rows.old + 4 ≤ rows_room }
    ensures items { rows.new.items ≡ rows.old.items ++ hex_word address }
    ensures length { array_vec_len rows.new ≡ array_vec_len rows.old + 4 }
{
    append_digits(rows, (address / 256) as u8);
    append_digits(rows, (address % 256) as u8);
}

// Appends a letter and the digits of a byte, if it changed.
fn append_byte(rows: &mut Rows, letter: u8, old: u8, new: u8)
    requires { array_vec_len rows.old + 3 ≤ rows_room }
    ensures items { rows.new.items ≡ rows.old.items ++ spelt.byte_text letter (changed old new) }
    ensures length { array_vec_len rows.new ≤ array_vec_len rows.old + 3 }
{
    if old != new {
        rows.push(letter);
        append_digits(rows, new);
    }
}

// Appends w and the switches' digit, if it changed.
fn append_switches(rows: &mut Rows, old: Switches, new: Switches)
    requires { array_vec_len rows.old + 2 ≤ rows_room }
    ensures items { rows.new.items
        ≡ rows.old.items ++ spelt.switches_text (changed (change.switch_digit old) (change.switch_digit new)) }
    ensures length { array_vec_len rows.new ≤ array_vec_len rows.old + 2 }
{
    if old == new {
        return;
    }
    let digit = switch_digit(new);
    if switch_digit(old) != digit {
        rows.push(b'w');
        rows.push(hex_digit(digit));
    }
}

// Appends k and how many keys were taken, if there are any.
fn append_keys(rows: &mut Rows, taken: usize)
    requires { array_vec_len rows.old + 21 ≤ rows_room }
    ensures items { rows.new.items ≡ rows.old.items ++ spelt.keys_text taken }
    ensures length { array_vec_len rows.new ≤ array_vec_len rows.old + 21 }
{
    if taken > 0 {
        rows.push(b'k');
        append_number(rows, taken as u64);
    }
}

// Appends the row of a step, up to the keys that were typed after it; so many of the waiting keys are these.
fn append_fields(rows: &mut Rows, before: &Moment, typed: usize, after: &Moment)
    requires { array_vec_len rows.old + 62 ≤ rows_room }
    ensures items { rows.new.items ≡ rows.old.items ++ fields_between (seen_by before.now) typed (seen_by after.now) }
    ensures length { array_vec_len rows.new ≤ array_vec_len rows.old + 62 }
{
    let (old, new) = (&before.regs, &after.regs);
    append_address(rows, new.pc);
    append_number(rows, after.cycles.saturating_sub(before.cycles));
    append_byte(rows, b'a', old.a, new.a);
    append_byte(rows, b'x', old.x, new.x);
    append_byte(rows, b'y', old.y, new.y);
    append_byte(rows, b's', old.s, new.s);
    append_byte(rows, b'p', old.p.pushed(), new.p.pushed());
    append_switches(rows, before.switches, after.switches);
    let left = after.waiting.saturating_sub(typed);
    append_keys(rows, before.waiting.saturating_sub(left));
}

// Appends t and the digits of each key.
fn append_typed(rows: &mut Rows, keys: &[u8])
    requires { array_vec_len rows.old + 3 * length keys.now ≤ rows_room }
    ensures items { rows.new.items ≡ rows.old.items ++ spelt.typed_text keys.now }
    ensures length { array_vec_len rows.new ≤ array_vec_len rows.old + 3 * length keys.now }
{
    for key in keys {
        rows.push(b't');
        append_digits(rows, *key);
    }
}

// Returns the last keys that wait.
fn last_keys<A: Allocator + Copy>(machine: &Machine<A>, count: usize) -> &[u8]
    ensures keys { (before keys : List ℕ) → machine.now.state.bus.devices.keys ≡ before ++ keys → count ≡ length keys
        → result.now ≡ keys }
    ensures few { length result.now ≤ 4096 }
{
    let waiting = machine.space().waiting();
    &waiting[waiting.len().saturating_sub(count)..]
}

/// Appends the row of the step that a machine has executed, up to its stores, if so many keys were typed after it: `seen` is the moment
/// before it, and then that after it.
pub fn begin_row<A: Allocator + Copy>(
    rows: &mut Rows,
    seen: &mut Moment,
    typed: usize,
    machine: &Machine<A>,
)
    requires { array_vec_len rows.old + 12_350 ≤ rows_room }
    ensures items { (before keys : List ℕ) → machine.now.state.bus.devices.keys ≡ before ++ keys → typed ≡ length keys
        → rows.new.items ≡ (rows.old.items ++ fields_between (seen_by seen.old) typed (seen_of (world_of_state machine.now.state)))
        ++ spelt.typed_text keys }
    ensures length { array_vec_len rows.new ≤ array_vec_len rows.old + 12_350 }
    ensures seen { seen_by seen.new ≡ seen_of (world_of_state machine.now.state) }
{
    let now = Moment::of(machine);
    append_fields(rows, seen, typed, &now);
    append_typed(rows, last_keys(machine, typed));
    *seen = now;
}

// Appends a byte's digits, and before them m and its address if that is not the next one; the next one is then the one after it.
fn append_store(rows: &mut Rows, next: u32, address: u16, byte: u8) -> u32
    requires { array_vec_len rows.old + 7 ≤ rows_room }
    ensures stores { Appends rows.old.items next ((address, byte) ∷ []) rows.new.items result }
    ensures length { array_vec_len rows.new ≤ array_vec_len rows.old + 7 }
{
    if u32::from(address) != next {
        rows.push(b'm');
        append_address(rows, address);
    }
    append_digits(rows, byte);
    u32::from(address) + 1
}

/// Appends the bytes of RAM at these addresses.
pub fn append_listed<A: Allocator + Copy>(rows: &mut Rows, addresses: &[u16], machine: &Machine<A>)
    requires { array_vec_len rows.old + 7 * length addresses.now ≤ rows_room }
    ensures stores { rows.new.items ≡ rows.old.items
        ++ spelt.stores_text no_address (bytes_at (ram_byte (memory_of machine.now.state.bus)) addresses.now) }
    ensures length { array_vec_len rows.new ≤ array_vec_len rows.old + 7 * length addresses.now }
{
    let mut next = NO_ADDRESS;
    for address in addresses {
        if let Some(byte) = machine.peek(*address) {
            next = append_store(rows, next, *address, byte);
        }
    }
}

// Appends a byte that changed.
fn append_other(rows: &mut Rows, next: u32, address: u16, old: u8, new: u8) -> u32
    requires { array_vec_len rows.old + 7 ≤ rows_room }
    ensures stores { Appends rows.old.items next (if old == new then [] else (address, new) ∷ []) rows.new.items result }
    ensures length { array_vec_len rows.new ≤ array_vec_len rows.old + 7 }
{
    if old == new {
        return next;
    }
    append_store(rows, next, address, new)
}

/// Appends the bytes of RAM from `first` up to `end` that differ from these. Returns at which address a byte after them would need
/// no address of its own; `next` is that before them.
pub fn append_others<A: Allocator + Copy>(
    rows: &mut Rows,
    next: u32,
    first: u16,
    end: u16,
    old: &[u8],
    machine: &Machine<A>,
) -> u32
    requires order { first ≤ end }
    requires size { length old.now ≡ end - first }
    requires inside { end ≤ ram_end }
    requires room { array_vec_len rows.old + 7 * (end - first) ≤ rows_room }
    ensures stores { let new = ram_byte (memory_of machine.now.state.bus) in
        Appends rows.old.items next (differing (from_address first old.now) new first (end - first)) rows.new.items result }
    ensures length { array_vec_len rows.new ≤ array_vec_len rows.old + 7 * (end - first) }
{
    let mut last = next;
    for address in first..end {
        let byte = machine.peek(address).unwrap_or(0);
        last = append_other(rows, last, address, old[usize::from(address - first)], byte);
    }
    last
}
