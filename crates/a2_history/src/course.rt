//! Represents a run by its start and what is done by hand during it.

ghost use Rattle.std.specs.Prelude.{◌≡◌, ◌+◌, ◌-◌, ◌<◌, ◌≤◌, ◌∷◌, [], None, Some, length, if◌then◌else◌, IfSome, IfNone, IfOk};
ghost use Rattle.std.specs.Prelude.{IfErr, OnOk, OnErr, ◌++◌, ◌==◌, ◌&&◌, nat_lt, vec_len, vec_capacity};
ghost use Rattle.a2_machine.specs.Meaning.{stuck};
ghost use Rattle.a2_machine.specs.Looks.{shown_at, observer_after};
ghost use Rattle.a2_machine.specs.State.{world_of_state, code_of};
ghost use Rattle.a2_history.specs.Courses.{NoneStuck};
ghost use Rattle.a2_history.specs.Going.{IsNewest, IsOn, shown_on, with_typed, with_changed, up_to, is_change as is_change_of, is_changed_after as is_changed_after_of, is_changed_at as is_changed_at_of};
ghost use Rattle.a2_history.specs.Bursts.{IsBurst, IsQuiet};
ghost use Rattle.a2_history.specs.Acting.{IsActed, IsActedBy};
ghost use Rattle.a2_history.specs.declared.actions.Action.TheVariants.{Keys as Typed, Change as Changed};
ghost use Rattle.a2_bus.specs.Memory.{ram_end};
ghost use Rattle.a2_history.specs.declared.actions.Change.TheVariants.{Registers, Byte};
ghost use Rattle.a2_history.specs.declared.fault.TypingFault.TheVariants.{Full};

use crate::spacing::STRIDE;
use crate::{Action, Change, Logged, SearchTarget, TypingFault};
use a2_burst::{NoObserver, Observer};
use a2_bus::Keys;
use a2_effect::Regs;
use a2_hex::RAM_END;
use a2_machine::{Cause, Machine};
use std::alloc::{AllocError, Allocator, Global};
use std::marker::Model;

/// A run: a machine at its start, and what was done by hand during it.
pub struct Course<A: Allocator = Global> {
    origin: Machine<A>,
    log: Vec<Logged, A>,
}

// Not derived, only for the prover: it sees this as one call, but a derived `Drop` field by field.
impl<A: Allocator> Drop for Course<A> {
    fn drop(self) {
        let Course { origin: _, log: _ } = self;
    }
}

impl<A: Allocator> Model for Course<A> {
    ghost use Rattle.std.specs.Prelude.{◌≡◌};
    ghost use Rattle.a2_history.specs.Courses.{Course as Seen};

    ghost Value = { Seen };

    ghost view = { λ c. record { origin = c.origin.state; log = c.log.items } };

    ghost invariant = { λ c. c.origin.state.steps ≡ 0 };
}

// Types keys, if they fit.
fn type_fitting<A: Allocator + Copy>(machine: &mut Machine<A>, keys: &Keys)
    ensures { IsActed (Typed keys.now) machine.old.state machine.new.state }
{
    let _ = machine.type_keys(keys);
}

// Sets all registers.
fn set_registers<A: Allocator + Copy>(machine: &mut Machine<A>, regs: Regs)
    ensures { IsActed (Changed (Registers regs)) machine.old.state machine.new.state }
{
    machine.set_regs(regs);
}

// Stores a byte in RAM.
fn store<A: Allocator + Copy>(machine: &mut Machine<A>, address: u16, byte: u8)
    requires { address < ram_end }
    ensures { IsActed (Changed (Byte address byte)) machine.old.state machine.new.state }
{
    machine.poke(address, byte);
}

// Stores a byte if the address is in RAM.
#[tactic(auto, using(crate::proofs::Logs::byte_not_stored))]
fn store_if_ram<A: Allocator + Copy>(machine: &mut Machine<A>, address: u16, byte: u8)
    ensures { IsActed (Changed (Byte address byte)) machine.old.state machine.new.state }
{
    if address < RAM_END {
        store(machine, address, byte);
    }
}

// Changes a byte or registers.
fn make_change<A: Allocator + Copy>(machine: &mut Machine<A>, change: Change)
    ensures { IsActed (Changed change) machine.old.state machine.new.state }
{
    match change {
        Change::Registers(regs) => set_registers(machine, regs),
        Change::Byte(address, byte) => store_if_ram(machine, address, byte),
    }
}

// Does what was done by hand.
fn act<A: Allocator + Copy>(machine: &mut Machine<A>, action: &Action)
    ensures { IsActed action.now machine.old.state machine.new.state }
{
    match action {
        Action::Keys(keys) => type_fitting(machine, keys),
        Action::Change(change) => make_change(machine, *change),
    }
}

// Does it if it was done at the machine's position.
fn repeat<A: Allocator + Copy>(machine: &mut Machine<A>, logged: &Logged)
    ensures { IsActedBy (logged.now ∷ []) machine.old.state machine.new.state }
{
    if logged.position == machine.steps() {
        act(machine, &logged.action);
    }
}

// Does what a log holds for the machine's position.
fn act_logged<A: Allocator + Copy>(machine: &mut Machine<A>, log: &[Logged])
    ensures { IsActedBy log.now machine.old.state machine.new.state }
{
    for logged in log {
        repeat(machine, logged);
    }
}

// Adds what is done at a position to a log that has room for it, and forgets what was done later.
fn note<A: Allocator + Copy>(log: &mut Vec<Logged, A>, position: u64, action: Action)
    requires { vec_len log.old < vec_capacity log.old }
    ensures { log.new.items ≡ up_to position log.old.items ++ record { position = position; action = action } ∷ [] }
{
    log.retain(|logged| logged.position <= position);
    log.push_reserved(Logged { position, action });
}

// Returns whether a byte or registers are changed.
fn is_change(action: &Action) -> bool
    ensures { result ≡ is_change_of action.now }
{
    matches!(action, Action::Change(_))
}

// Returns whether an entry of a log changes a byte or registers after a position.
fn is_later_change(logged: &Logged, position: u64) -> bool
    ensures { result ≡ (nat_lt position logged.now.position && is_change_of logged.now.action) }
{
    position < logged.position && is_change(&logged.action)
}

// Returns whether any entry does.
fn is_any_later_change(log: &[Logged], position: u64) -> bool
    ensures { result ≡ is_changed_after_of position log.now }
{
    log.iter().any(|logged| is_later_change(logged, position))
}

// Returns whether an entry of a log changes a byte or registers at a position.
fn is_change_at(logged: &Logged, position: u64) -> bool
    ensures { result ≡ ((position == logged.now.position) && is_change_of logged.now.action) }
{
    position == logged.position && is_change(&logged.action)
}

// Returns whether any entry does.
fn is_any_change_at(log: &[Logged], position: u64) -> bool
    ensures { result ≡ is_changed_at_of position log.now }
{
    log.iter().any(|logged| is_change_at(logged, position))
}

// Returns the first position after `from` for which a log holds anything, or `end` if that is earlier.
fn next_logged_position(log: &[Logged], from: u64, end: u64) -> u64
    requires { from < end }
    ensures ahead { from < result }
    ensures within { result ≤ end }
    ensures quiet { IsQuiet log.now from result }
{
    let mut quiet = end;
    for logged in log {
        if from < logged.position && logged.position < quiet {
            quiet = logged.position;
        }
    }
    quiet
}

// Runs some steps, at most `most`, all of which the observer sees, or returns why no step can be run.
fn burst<A: Allocator + Copy, O: Observer>(
    machine: &mut Machine<A>,
    most: u32,
    observer: &mut O,
) -> Option<Cause>
    requires some { 0 < most }
    requires few { machine.old.state.steps + most ≤ 100_000_000 }
    ensures made { IfNone result (IsBurst most machine.old machine.new) }
    ensures seen { observer.new ≡ observer_after O.seen (shown_at (code_of machine.old.state) (world_of_state machine.old.state))
        observer.old (machine.new.state.steps - machine.old.state.steps) }
    ensures stuck { IfSome result (λ cause. stuck (code_of machine.old.state) (world_of_state machine.old.state) ≡ Some cause) }
    ensures kept { IfSome result (λ _. machine.new ≡ machine.old) }
{
    let from = machine.steps();
    let cause = machine.run_observed(most, observer);
    if from < machine.steps() {
        return None;
    }
    Some(cause)
}

// Returns this position if something is seen there, otherwise what was found so far.
fn newer(found: Option<u64>, position: u64, is_found_in: bool) -> Option<u64>
    ensures { result ≡ (if is_found_in then Some position else found) }
{
    if is_found_in { Some(position) } else { found }
}

impl<A: Allocator + Copy> Course<A> {
    /// Creates the run of a machine that has not executed any step, with nothing done by hand. Fails only if memory
    /// is short.
    pub fn new(alloc: A, machine: &Machine<A>) -> Result<Course<A>, AllocError>
        requires { machine.now.state.steps ≡ 0 }
        ensures { IfOk result (λ c. c ≡ record { origin = machine.now.state; log = [] }) }
    {
        let mut origin = Machine::for_copies(alloc)?;
        origin.copy_from(machine);
        Ok(Course {
            origin,
            log: Vec::new(alloc),
        })
    }
}

impl<A: Allocator + Copy> Course<A> {
    /// Puts a machine at the start of the run.
    pub fn restart(&self, machine: &mut Machine<A>)
        ensures on { IsOn self.now machine.new.state }
        ensures steps { machine.new.state.steps ≡ 0 }
        ensures guard { machine.new.state.guard ≡ machine.old.state.guard }
    {
        machine.restore(&self.origin);
        act_logged(machine, self.log.as_slice());
    }

    /// Executes one step and does what was done by hand after it, or returns why no step can be executed.
    pub fn execute_step(&self, machine: &mut Machine<A>) -> Option<Cause>
        requires on { IsOn self.now machine.old.state }
        requires guard { machine.old.state.guard ≡ self.now.origin.guard }
        requires few { machine.old.state.steps < 100_000_000 }
        ensures on { IfNone result (IsOn self.now machine.new.state) }
        ensures steps { IfNone result (machine.new.state.steps ≡ machine.old.state.steps + 1) }
        ensures guard { machine.new.state.guard ≡ machine.old.state.guard }
        ensures stuck { IfSome result (λ cause. stuck (code_of self.now.origin) (world_of_state machine.old.state) ≡ Some cause) }
        ensures kept { IfSome result (λ _. machine.new ≡ machine.old) }
    {
        let cause = machine.step();
        if cause.is_none() {
            act_logged(machine, self.log.as_slice());
        }
        cause
    }

    /// Runs some steps, not beyond `end`, all of which the observer sees, and does what was done by hand after the last
    /// one. Returns why no step can be run, if so. Nothing was done by hand after the other steps, and the call never
    /// passes a position at which a checkpoint may be made.
    pub fn leap<O: Observer>(
        &self,
        machine: &mut Machine<A>,
        end: u64,
        observer: &mut O,
    ) -> Option<Cause>
        requires on { IsOn self.now machine.old.state }
        requires guard { machine.old.state.guard ≡ self.now.origin.guard }
        requires ahead { machine.old.state.steps < end }
        requires few { end ≤ 100_000_000 }
        ensures on { IfNone result (IsOn self.now machine.new.state) }
        ensures ahead { IfNone result (machine.old.state.steps < machine.new.state.steps) }
        ensures within { IfNone result (machine.new.state.steps ≤ end) }
        ensures quiet { IfNone result (IsQuiet self.now.log machine.old.state.steps machine.new.state.steps) }
        ensures seen { IfNone result (observer.new ≡ observer_after O.seen (λ k. shown_on self.now (machine.old.state.steps + k))
            observer.old (machine.new.state.steps - machine.old.state.steps)) }
        ensures guard { machine.new.state.guard ≡ machine.old.state.guard }
        ensures stuck { IfSome result (λ cause. stuck (code_of self.now.origin) (world_of_state machine.old.state) ≡ Some cause) }
        ensures kept { IfSome result (λ _. machine.new ≡ machine.old) }
    {
        let from = machine.steps();
        let edge = (from - from % STRIDE + STRIDE).min(end);
        let quiet = next_logged_position(self.log.as_slice(), from, edge);
        if let Some(cause) = burst(machine, (quiet - from) as u32, observer) {
            return Some(cause);
        }
        act_logged(machine, self.log.as_slice());
        None
    }

    /// Brings a machine forwards to a position that was reached before.
    pub fn bring(&self, machine: &mut Machine<A>, position: u64)
        requires on { IsOn self.now machine.old.state }
        requires guard { machine.old.state.guard ≡ self.now.origin.guard }
        requires ahead { machine.old.state.steps ≤ position }
        requires few { position ≤ 100_000_000 }
        requires went { NoneStuck self.now position }
        ensures on { IsOn self.now machine.new.state }
        ensures steps { machine.new.state.steps ≡ position }
        ensures guard { machine.new.state.guard ≡ machine.old.state.guard }
    {
        let mut from = machine.steps();
        while from < position {
            // No world before the position is stuck, so at least one step is run.
            let _ = self.leap(machine, position, &mut NoObserver);
            from = machine.steps();
        }
    }

    /// Returns the latest position, from the machine's own up to but not including `end`, at which something is seen.
    /// `end` was reached before.
    pub fn newest_seen<S: SearchTarget>(
        &self,
        machine: &mut Machine<A>,
        end: u64,
        sight: &S,
    ) -> Option<u64>
        requires on { IsOn self.now machine.old.state }
        requires guard { machine.old.state.guard ≡ self.now.origin.guard }
        requires ahead { machine.old.state.steps ≤ end }
        requires few { end ≤ 100_000_000 }
        requires went { NoneStuck self.now end }
        ensures newest { IsNewest (S.is_found_in sight.now) self.now machine.old.state.steps end result }
        ensures guard { machine.new.state.guard ≡ machine.old.state.guard }
    {
        let mut found = None;
        for position in machine.steps()..end {
            found = newer(found, position, sight.is_found_in(machine));
            // No world before the end is stuck, so every step is executed.
            let _ = self.execute_step(machine);
        }
        found
    }

    /// Types keys after those that wait, and logs them at the machine's position; what was done by hand later is
    /// forgotten. Fails without any change if more than 4,096 keys would wait, or if memory is short.
    pub fn type_keys(&mut self, machine: &mut Machine<A>, keys: Keys) -> Result<(), TypingFault>
        requires { IsOn self.old machine.old.state }
        ensures typed { OnOk result (IsActed (Typed keys) machine.old.state machine.new.state) }
        ensures noted { OnOk result (self.new ≡ with_typed machine.old.state.steps keys self.old) }
        ensures on { OnOk result (IsOn self.new machine.new.state) }
        ensures steps { machine.new.state.steps ≡ machine.old.state.steps }
        ensures guard { machine.new.state.guard ≡ machine.old.state.guard }
        ensures full { IfErr result (λ fault. fault ≡ Full → 4096 < length machine.old.state.bus.devices.keys + length keys) }
        ensures room { OnOk result (length machine.old.state.bus.devices.keys + length keys ≤ 4096) }
        ensures kept { OnErr result ((self.new ≡ self.old) × (machine.new ≡ machine.old)) }
    {
        if self.log.try_reserve(1).is_err() {
            return Err(TypingFault::Memory);
        }
        if machine.type_keys(&keys).is_err() {
            return Err(TypingFault::Full);
        }
        note(&mut self.log, machine.steps(), Action::Keys(keys));
        Ok(())
    }

    /// Changes a byte or registers, and logs that at the machine's position; what was done by hand later is forgotten.
    /// Fails without any change if memory is short.
    pub fn change(&mut self, machine: &mut Machine<A>, change: Change) -> Result<(), AllocError>
        requires { IsOn self.old machine.old.state }
        ensures made { OnOk result (IsActed (Changed change) machine.old.state machine.new.state) }
        ensures noted { OnOk result (self.new ≡ with_changed machine.old.state.steps change self.old) }
        ensures on { OnOk result (IsOn self.new machine.new.state) }
        ensures steps { machine.new.state.steps ≡ machine.old.state.steps }
        ensures guard { machine.new.state.guard ≡ machine.old.state.guard }
        ensures kept { OnErr result ((self.new ≡ self.old) × (machine.new ≡ machine.old)) }
    {
        self.log.try_reserve(1)?;
        make_change(machine, change);
        note(&mut self.log, machine.steps(), Action::Change(change));
        Ok(())
    }

    /// Returns whether a byte or registers were changed by hand after a position.
    pub fn is_changed_after(&self, position: u64) -> bool
        ensures { result ≡ is_changed_after_of position self.now.log }
    {
        is_any_later_change(self.log.as_slice(), position)
    }

    /// Returns whether a byte or registers were changed by hand at a position.
    pub fn is_changed_at(&self, position: u64) -> bool
        ensures { result ≡ is_changed_at_of position self.now.log }
    {
        is_any_change_at(self.log.as_slice(), position)
    }
}
