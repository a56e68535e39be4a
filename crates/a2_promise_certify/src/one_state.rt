//! Decides whether a promise is kept in one state, and whether the routine and the promise depend only on what is
//! known.

ghost use Rattle.std.specs.Prelude.{◌≡◌, ◌⊎◌, false, [], length, IsTrue, IfSome};
ghost use Rattle.a2_bus.specs.Memory.{ram_end};
ghost use Rattle.a2_bus.specs.View.{memory_of};
ghost use Rattle.a2_effect.specs.View.{registers_of};
ghost use Rattle.a2_services.specs.World.{world_of};
ghost use Rattle.a2_machine.specs.Meaning.{next};
ghost use Rattle.a2_promise.specs.Values.{moment_of};
ghost use Rattle.a2_promise_certify.specs.But.{IsEqualExcept};
ghost use Rattle.a2_promise_certify.specs.Kept.{bytes_of, code, IsKept};
ghost use Rattle.a2_promise_certify.specs.States.{has_byte};
ghost use Rattle.a2_promise_certify.specs.Walking.{is_set, knows_part};
ghost use Rattle.a2_promise_certify.specs.Certifying.{AreRegistersKept, IsEntered, IsReady, IsStateTried, start_of};

use crate::clause_knowledge::{View, are_clauses_known};
use crate::clauses::{all_hold, sight_of};
use crate::entry_states::{put_back_inputs, put_state};
use crate::input::Input;
use crate::known_parts::KnownParts;
use crate::stored::Stored;
use crate::walk::{Walk, run_to_own_rts};
use a2_bus::{AddressSpace, Bus};
use a2_cpu::run::guarded_step;
use a2_cpu::{GuardedStep, NoProtection, Regs};
use a2_footprint::Part;
use a2_promise::{Changes, Promise};
use std::alloc::Global;

/// How a promise is tried: the states in which its routine is entered, and what is known in each of them.
#[derive(Clone, Copy)]
pub struct Setup<'a> {
    /// The bytes of RAM that are known at the entry, as marks from address 0 on, and the known registers and flags.
    pub known: &'a [bool],
    pub parts: KnownParts,
    pub promise: &'a Promise<'a>,
    /// The largest number of steps, including the RTS.
    pub most: u32,
    /// RAM with the program and the settled bytes, and the inputs that take each of their values.
    pub base: &'a AddressSpace<Global>,
    pub inputs: &'a [Input],
}

// Returns the state before a routine as promises see it, with what is known of it.
fn view_of_entry<'k, 's>(
    setup: &Setup<'k>,
    regs: &Regs,
    before: &'s AddressSpace<Global>,
) -> View<'k, 's>
    ensures known { result.known.now ≡ setup.now.known.now }
    ensures stored { result.stored.now ≡ [] }
    ensures parts { result.parts ≡ setup.now.parts }
    ensures moment { moment_of result.sight
        ≡ record { registers = registers_of regs.now; bytes = bytes_of (memory_of before.now); cycles = 0; steps = 0 } }
    ensures size { length before.now.bytes ≡ ram_end }
{
    View {
        sight: sight_of(regs, before, 0, 0),
        known: setup.known,
        stored: &[],
        parts: setup.parts,
    }
}

/// Sets `before` and `walk` to the state with a given number. Returns false if an input is a byte outside RAM.
pub(crate) fn enter(
    setup: &Setup,
    number: u64,
    before: &mut AddressSpace<Global>,
    walk: &mut Walk,
    stored: &Stored,
) -> bool
    requires { IsReady setup.now.base.now setup.now.inputs.now before.old walk.old.space stored.now }
    ensures entered { IsTrue result → IsEntered (start_of setup.now number) setup.now.parts before.new walk.new stored.now }
    ensures rest { IsEqualExcept (has_byte setup.now.inputs.now) before.new setup.now.base.now }
{
    let mut regs = Regs::start(setup.promise.address);
    if !put_state(setup.inputs, number, &mut regs, before) {
        return false;
    }
    put_back_inputs(setup.inputs, &mut walk.space, before);
    walk.regs = regs;
    walk.parts = setup.parts;
    walk.cycles = 0;
    true
}

// Returns whether a register is kept. It may change, or it is not known after the routine, or it was known before and
// is equal.
fn is_register_kept(
    part: Part,
    may: bool,
    parts: &KnownParts,
    parts_known_after: &KnownParts,
    before: u8,
    following: u8,
) -> bool
    ensures { IsTrue result → may ≡ false
        → (knows_part parts_known_after.now part ≡ false) ⊎ (IsTrue (knows_part parts.now part) × (following ≡ before)) }
{
    may || !parts_known_after.has(part) || parts.has(part) && before == following
}

// Returns whether every register is kept.
fn are_registers_kept(
    changes: &Changes,
    parts: &KnownParts,
    parts_known_after: &KnownParts,
    before: &Regs,
    following: &Regs,
) -> bool
    ensures { IsTrue result → AreRegistersKept changes.now parts.now parts_known_after.now
        (registers_of before.now) (registers_of following.now) }
{
    if !is_register_kept(
        Part::A,
        changes.a,
        parts,
        parts_known_after,
        before.a,
        following.a,
    ) || !is_register_kept(
        Part::X,
        changes.x,
        parts,
        parts_known_after,
        before.x,
        following.x,
    ) {
        return false;
    }
    is_register_kept(
        Part::Y,
        changes.y,
        parts,
        parts_known_after,
        before.y,
        following.y,
    )
}

// Executes a step and returns the cycles since the entry, or `None` if it is not executed or PC is not in RAM.
fn step_out(walk: &mut Walk) -> Option<u32>
    ensures made { IfSome result (λ cycles. world_of (registers_of walk.new.regs) walk.new.space cycles
        ≡ next code (world_of (registers_of walk.old.regs) walk.old.space walk.old.cycles)) }
    ensures parts { walk.new.parts ≡ walk.old.parts }
{
    let _opcode = walk.space.peek(walk.regs.pc)?;
    let GuardedStep::Next(cycles) = guarded_step(&mut walk.regs, &mut walk.space, &NoProtection)
    else {
        return None;
    };
    walk.cycles = walk.cycles.checked_add(cycles)?;
    Some(walk.cycles)
}

// Returns whether a promise is kept, given a state before the routine that meets its requirements.
fn is_kept(
    setup: &Setup,
    before: &AddressSpace<Global>,
    walk: &mut Walk,
    stored: &mut Stored,
) -> bool
    requires { IsEntered (world_of (registers_of walk.old.regs) walk.old.space 0) setup.now.parts before.now
        walk.old stored.old }
    ensures kept { IsTrue result → IsKept (is_set setup.now.known.now)
        (knows_part setup.now.parts) setup.now.promise.now setup.now.most
        (world_of (registers_of walk.old.regs) walk.old.space 0) }
    ensures rest { IsTrue result → walk.new.space.devices ≡ before.now.devices
        → IsEqualExcept (is_set stored.new) walk.new.space before.now }
{
    let changes = &setup.promise.changes;
    let regs = walk.regs;
    let Some(steps) = run_to_own_rts(walk, setup.known, stored, changes, setup.most) else {
        return false;
    };
    if !are_registers_kept(changes, &setup.parts, &walk.parts, &regs, &walk.regs) {
        return false;
    }
    let Some(cycles) = step_out(walk) else {
        return false;
    };
    let entry = view_of_entry(setup, &regs, before);
    let exit = View {
        sight: sight_of(&walk.regs, &walk.space, cycles, steps + 1),
        known: setup.known,
        stored: stored.marks(),
        parts: walk.parts,
    };
    let promised = setup.promise.promised.as_slice();
    are_clauses_known(promised, &entry, &exit) && all_hold(promised, &entry.sight, &exit.sight)
}

/// Returns whether a promise is kept in the state before a routine, if that state meets its requirements.
///
/// In that state S is $FD, and no cycle and no store is counted yet. The promise counts as kept if all of these hold:
/// - neither the routine nor the promise depends on anything that is not known;
/// - the routine reaches its own RTS within the largest number of steps;
/// - it stores only at bytes that `changes` names, or in the stack below its return address;
/// - what is promised holds after the RTS;
/// - a register that `changes` does not name is not set, or it was known and is equal afterwards.
///
/// The answer false is inconclusive. It is also given if a service needs a key, or if a byte is stored and put back.
/// Afterwards each byte of RAM that is not marked as stored is unchanged.
pub fn is_tried(
    setup: &Setup,
    before: &AddressSpace<Global>,
    walk: &mut Walk,
    stored: &mut Stored,
) -> bool
    requires { IsEntered (world_of (registers_of walk.old.regs) walk.old.space 0) setup.now.parts before.now
        walk.old stored.old }
    ensures tried { IsTrue result → IsStateTried setup.now.known.now setup.now.parts setup.now.promise.now setup.now.most
        (world_of (registers_of walk.old.regs) walk.old.space 0) }
    ensures rest { IsTrue result → walk.new.space.devices ≡ before.now.devices
        → IsEqualExcept (is_set stored.new) walk.new.space before.now }
{
    let entry = view_of_entry(setup, &walk.regs, before);
    let wanted = setup.promise.wanted.as_slice();
    if !are_clauses_known(wanted, &entry, &entry) {
        return false;
    }
    if !all_hold(wanted, &entry.sight, &entry.sight) {
        return true;
    }
    is_kept(setup, before, walk, stored)
}
