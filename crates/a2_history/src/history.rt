//! Moves forwards and backwards through a run.

ghost use Rattle.std.specs.Prelude.{◌≡◌, ◌+◌, ◌<◌, ◌≤◌, ℕ, min, [], length, IfOk, IfErr, OnOk, OnErr};
ghost use Rattle.a2_machine.specs.State.{world_of_state};
ghost use Rattle.a2_history.specs.Courses.{Course as Seen, NoneStuck, with_keys, with_change};
ghost use Rattle.a2_history.specs.Going.{here, Advances, AlarmsAreComplete, IsNewest, IsOn, AreOn, with_typed, with_changed, is_changed_after, is_changed_at as is_changed_at_of};
ghost use Rattle.a2_history.specs.Gone.{HasRunTo, IsCauseAt};
ghost use Rattle.a2_history.specs.Routines.{entered as entered_on, IsNewestOutside};
ghost use Rattle.a2_history.specs.declared.fault.TypingFault.TheVariants.{Full};

use crate::checkpoints::Checkpoints;
use crate::course::Course;
use crate::lookout::Watcher;
use crate::routines::routines_up_to;
use crate::spacing::STRIDE;
use crate::{Change, Halt, Lookout, SearchTarget, TypingFault};
use a2_bus::Keys;
use a2_machine::{Cause, Machine};
use a2_routines::Entry;
use std::alloc::{AllocError, Allocator, Global};
use std::marker::Model;

/// The largest position, which is the largest number of steps in a history.
const HISTORY_MAX_STEPS: u64 = 100_000_000;

/// How far a scout may fall behind, in steps. A copy takes as long as about 250 steps of a run. The steps up to the
/// start of a burst that raised an alarm are replayed once.
const MAX_SCOUT_LAG: u64 = 8 * STRIDE;

/// A run and a position in it.
///
/// The position is the number of steps from the start, at most 100,000,000. Contracts see the machine at the start,
/// what was done by hand with the positions, and the position. The world at each position is a function of these.
pub struct History<A: Allocator = Global> {
    alloc: A,
    course: Course<A>,
    machine: Machine<A>,
    // A machine that visits earlier worlds, and stays behind while steps are run in bursts.
    scout: Machine<A>,
    checkpoints: Checkpoints<A>,
}

// Not derived, only for the prover: it sees this as one call, but a derived `Drop` field by field.
impl<A: Allocator> Drop for History<A> {
    fn drop(self) {
        let History {
            alloc: _,
            course: _,
            machine: _,
            scout: _,
            checkpoints: _,
        } = self;
    }
}

impl<A: Allocator> Model for History<A> {
    ghost use Rattle.std.specs.Prelude.{◌≡◌, ◌≤◌};
    ghost use Rattle.a2_history.specs.Going.{Track, IsOn, AreOn};

    ghost Value = { Track };

    ghost view = { λ h. record { course = h.course; position = h.machine.state.steps } };

    ghost invariant = { λ h. IsOn h.course h.machine.state
        × (h.machine.state.guard ≡ h.course.origin.guard)
        × (h.machine.state.steps ≤ 100_000_000)
        × (h.scout.state.guard ≡ h.course.origin.guard)
        × AreOn h.course h.checkpoints };
}

impl<A: Allocator + Copy> History<A> {
    /// Creates the history of a machine that has not executed any step, at its start. Fails only if memory is short.
    ///
    /// The history later holds at most `most` checkpoints, each of about 124,000 bytes. They are made every 1,024
    /// steps, and later at intervals of a hundredth to a fiftieth of the steps so far. Of these, the history holds
    /// those that `is_kept` keeps for the farthest position reached.
    pub fn new(alloc: A, machine: Machine<A>, most: usize) -> Result<History<A>, AllocError>
        requires { machine.state.steps ≡ 0 }
        ensures { IfOk result (λ h. h ≡ record { course = record { origin = machine.state; log = [] }; position = 0 }) }
    {
        let course = Course::new(alloc, &machine)?;
        let mut scout = Machine::for_copies(alloc)?;
        scout.copy_from(&machine);
        Ok(History {
            alloc,
            course,
            machine,
            scout,
            checkpoints: Checkpoints::new(alloc, most),
        })
    }

    /// Runs steps until one of three things happens, and returns which:
    /// - a step after which `sight` is seen (the world before the first step does not count);
    /// - a world that is stuck;
    /// - `limit` steps or position 100,000,000.
    ///
    /// It returns `Cause::Limit` only if no other cause applies. What was done by hand in this part of the run is done
    /// again. The steps are run in bursts. Worlds are examined if `lookout` raises an alarm, and after each burst, which
    /// ends where something was done by hand. So `lookout` must raise an alarm at each other step after which something
    /// is newly seen.
    pub fn advance<S: SearchTarget, L: Lookout>(
        &mut self,
        limit: u32,
        sight: &S,
        lookout: &L,
    ) -> Halt
        requires { AlarmsAreComplete (S.is_found_in sight.now) (L.alarms lookout.now) self.old.course self.old.position }
        ensures course { self.new.course ≡ self.old.course }
        ensures advances { Advances (S.is_found_in sight.now) self.old.course self.old.position
            (min (self.old.position + limit) 100_000_000)
            self.new.position result }
    {
        let from = self.machine.steps();
        let end = (from + u64::from(limit)).min(HISTORY_MAX_STEPS);
        let halt = run_in_bursts(
            self.alloc,
            &self.course,
            &mut self.machine,
            &mut self.scout,
            &mut self.checkpoints,
            end,
            sight,
            lookout,
        );
        match halt {
            Some(halt) => halt,
            None => Halt::Stopped(cause_at(&mut self.machine)),
        }
    }
}

// Returns why a machine is stuck, or `Cause::Limit` if it is not.
fn cause_at<A: Allocator + Copy>(machine: &mut Machine<A>) -> Cause
    ensures cause { IsCauseAt machine.old.state result }
    ensures kept { machine.new ≡ machine.old }
{
    machine.run(0)
}

// Runs steps up to an end, or to an earlier world that is seen or stuck, and returns why it stopped there.
fn run_one_by_one<A: Allocator + Copy, S: SearchTarget>(
    alloc: A,
    course: &Course<A>,
    machine: &mut Machine<A>,
    checkpoints: &mut Checkpoints<A>,
    end: u64,
    sight: &S,
) -> Option<Halt>
    requires on { IsOn course.now machine.old.state }
    requires guard { machine.old.state.guard ≡ course.now.origin.guard }
    requires kept { AreOn course.now checkpoints.old }
    requires ahead { machine.old.state.steps ≤ end }
    requires few { end ≤ 100_000_000 }
    ensures on { IsOn course.now machine.new.state }
    ensures guard { machine.new.state.guard ≡ course.now.origin.guard }
    ensures kept { AreOn course.now checkpoints.new }
    ensures gone { HasRunTo (S.is_found_in sight.now) course.now machine.old.state.steps end machine.new.state.steps result }
{
    for _ in machine.steps()..end {
        if let Some(cause) = course.execute_step(machine) {
            return Some(Halt::Stopped(cause));
        }
        checkpoints.keep(alloc, machine);
        if sight.is_found_in(machine) {
            return Some(Halt::Seen);
        }
    }
    None
}

// Puts a machine at a position that was reached before.
fn put_at<A: Allocator + Copy>(
    course: &Course<A>,
    machine: &mut Machine<A>,
    checkpoints: &Checkpoints<A>,
    position: u64,
)
    requires kept { AreOn course.now checkpoints.now }
    requires guard { machine.old.state.guard ≡ course.now.origin.guard }
    requires few { position ≤ 100_000_000 }
    requires went { NoneStuck course.now position }
    ensures on { IsOn course.now machine.new.state }
    ensures steps { machine.new.state.steps ≡ position }
    ensures guard { machine.new.state.guard ≡ machine.old.state.guard }
{
    match checkpoints.newest_before(position) {
        Some(kept) => machine.restore(kept),
        None => course.restart(machine),
    }
    course.bring(machine, position);
}

// Puts a machine where another one is.
fn copy_from_other<A: Allocator + Copy>(machine: &mut Machine<A>, other: &Machine<A>)
    ensures on { (course : Seen) → IsOn course other.now.state → IsOn course machine.new.state }
    ensures steps { machine.new.state.steps ≡ other.now.state.steps }
    ensures guard { machine.new.state.guard ≡ machine.old.state.guard }
{
    machine.restore(other);
}

// Puts a scout where a machine is, if the machine is far enough ahead.
fn follow<A: Allocator + Copy>(scout: &mut Machine<A>, machine: &Machine<A>)
    requires { scout.old.state.steps ≤ machine.now.state.steps }
    ensures on { (course : Seen) → IsOn course scout.old.state → IsOn course machine.now.state → IsOn course scout.new.state }
    ensures following { scout.new.state.steps ≤ machine.now.state.steps }
    ensures guard { scout.new.state.guard ≡ scout.old.state.guard }
{
    if machine.steps() - scout.steps() >= MAX_SCOUT_LAG {
        copy_from_other(scout, machine);
    }
}

// Replays the steps from a position to a machine's position one by one. The machine first goes back to where the
// scout stayed, and runs in bursts from there to the first of these steps.
fn replay_one_by_one<A: Allocator + Copy, S: SearchTarget>(
    alloc: A,
    course: &Course<A>,
    machine: &mut Machine<A>,
    scout: &Machine<A>,
    checkpoints: &mut Checkpoints<A>,
    from: u64,
    sight: &S,
) -> Option<Halt>
    requires on { IsOn course.now machine.old.state }
    requires guard { machine.old.state.guard ≡ course.now.origin.guard }
    requires scout { IsOn course.now scout.now.state }
    requires following { scout.now.state.steps ≤ from }
    requires ahead { from ≤ machine.old.state.steps }
    requires kept { AreOn course.now checkpoints.old }
    requires few { machine.old.state.steps ≤ 100_000_000 }
    ensures on { IsOn course.now machine.new.state }
    ensures guard { machine.new.state.guard ≡ course.now.origin.guard }
    ensures kept { AreOn course.now checkpoints.new }
    ensures gone { HasRunTo (S.is_found_in sight.now) course.now from machine.old.state.steps machine.new.state.steps result }
{
    let to = machine.steps();
    copy_from_other(machine, scout);
    course.bring(machine, from);
    run_one_by_one(alloc, course, machine, checkpoints, to, sight)
}

// Runs up to an end in bursts. If a step of a burst raises an alarm, the burst's steps are replayed one by one. If none
// does, only the world after the burst can be seen, because something was done by hand there.
fn run_in_bursts<A: Allocator + Copy, S: SearchTarget, L: Lookout>(
    alloc: A,
    course: &Course<A>,
    machine: &mut Machine<A>,
    scout: &mut Machine<A>,
    checkpoints: &mut Checkpoints<A>,
    end: u64,
    sight: &S,
    lookout: &L,
) -> Option<Halt>
    requires on { IsOn course.now machine.old.state }
    requires guard { machine.old.state.guard ≡ course.now.origin.guard }
    requires kept { AreOn course.now checkpoints.old }
    requires ahead { machine.old.state.steps ≤ end }
    requires few { end ≤ 100_000_000 }
    requires warns { AlarmsAreComplete (S.is_found_in sight.now) (L.alarms lookout.now) course.now machine.old.state.steps }
    ensures on { IsOn course.now machine.new.state }
    ensures guard { machine.new.state.guard ≡ course.now.origin.guard }
    ensures kept { AreOn course.now checkpoints.new }
    ensures gone { HasRunTo (S.is_found_in sight.now) course.now machine.old.state.steps end machine.new.state.steps result }
    ensures scout { scout.new.state.guard ≡ scout.old.state.guard }
{
    copy_from_other(scout, machine);
    let mut from = machine.steps();
    while from < end {
        follow(scout, machine);
        let mut watcher = Watcher {
            lookout,
            is_alarmed: false,
        };
        if let Some(cause) = course.leap(machine, end, &mut watcher) {
            return Some(Halt::Stopped(cause));
        }
        if watcher.is_alarmed {
            if let Some(halt) = replay_one_by_one(
                alloc,
                course,
                machine,
                scout,
                checkpoints,
                from,
                sight,
            ) {
                return Some(halt);
            }
        } else {
            checkpoints.keep(alloc, machine);
            if sight.is_found_in(machine) {
                return Some(Halt::Seen);
            }
        }
        from = machine.steps();
    }
    None
}

// Returns the latest position, from a machine's own up to but not including an end, at which something is seen.
fn search_from<A: Allocator + Copy, S: SearchTarget>(
    course: &Course<A>,
    scout: &mut Machine<A>,
    from: &Machine<A>,
    end: u64,
    sight: &S,
) -> Option<u64>
    requires on { IsOn course.now from.now.state }
    requires guard { scout.old.state.guard ≡ course.now.origin.guard }
    requires ahead { from.now.state.steps ≤ end }
    requires few { end ≤ 100_000_000 }
    requires went { NoneStuck course.now end }
    ensures newest { IsNewest (S.is_found_in sight.now) course.now from.now.state.steps end result }
    ensures guard { scout.new.state.guard ≡ scout.old.state.guard }
{
    scout.restore(from);
    course.newest_seen(scout, end, sight)
}

// Returns the latest position before an end that was reached at which something is seen. It searches from the latest
// checkpoint on, then from earlier ones, back to the start.
fn search_back<A: Allocator + Copy, S: SearchTarget>(
    course: &Course<A>,
    scout: &mut Machine<A>,
    checkpoints: &Checkpoints<A>,
    end: u64,
    sight: &S,
) -> Option<u64>
    requires on { AreOn course.now checkpoints.now }
    requires guard { scout.old.state.guard ≡ course.now.origin.guard }
    requires few { end ≤ 100_000_000 }
    requires went { NoneStuck course.now end }
    ensures newest { IsNewest (S.is_found_in sight.now) course.now 0 end result }
    ensures guard { scout.new.state.guard ≡ scout.old.state.guard }
{
    let mut start = end;
    for following in 0..checkpoints.len() {
        let kept = checkpoints.at(checkpoints.len() - 1 - following);
        if kept.steps() < start {
            let found = search_from(course, scout, kept, start, sight);
            if found.is_some() {
                return found;
            }
            start = kept.steps();
        }
    }
    course.restart(scout);
    course.newest_seen(scout, start, sight)
}

impl<A: Allocator + Copy> History<A> {
    /// Returns the machine at the position.
    pub fn machine(&self) -> &Machine<A>
        ensures world { world_of_state result.now.state ≡ here self.now }
        ensures steps { result.now.state.steps ≡ self.now.position }
        ensures guard { result.now.state.guard ≡ self.now.course.origin.guard }
    {
        &self.machine
    }

    /// Returns the number of steps from the start to the current position, 0 to 100,000,000.
    pub fn position(&self) -> u64
        ensures position { result ≡ self.now.position }
        ensures most { result ≤ 100_000_000 }
        ensures went { NoneStuck self.now.course self.now.position }
    {
        self.machine.steps()
    }

    /// Returns how many checkpoints are held in addition to the start, at most the number given to [`History::new`].
    /// No contract says how many.
    pub fn kept(&self) -> usize {
        self.checkpoints.len()
    }

    /// Goes back to `position`, which is not after the current one: restores the latest checkpoint not after it, and
    /// runs forwards from there.
    pub fn go_back(&mut self, position: u64)
        requires { position ≤ self.old.position }
        ensures { self.new ≡ record self.old { position = position } }
    {
        put_at(&self.course, &mut self.machine, &self.checkpoints, position);
    }

    /// Returns the latest position before the current one, and not before the start, at which `sight` is seen, or
    /// `None` if there is none. The position does not change.
    pub fn newest<S: SearchTarget>(&mut self, sight: &S) -> Option<u64>
        ensures newest { IsNewest (S.is_found_in sight.now) self.old.course 0 self.old.position result }
        ensures kept { self.new ≡ self.old }
    {
        let end = self.machine.steps();
        search_back(&self.course, &mut self.scout, &self.checkpoints, end, sight)
    }
}

impl<A: Allocator + Copy> History<A> {
    /// Types `keys` at the current position, after those that wait; what was done by hand at later positions is
    /// forgotten. Fails without any change: with `TypingFault::Full` if more than 4,096 keys would wait, and with
    /// `TypingFault::Memory` if memory is short.
    pub fn type_keys(&mut self, keys: Keys) -> Result<(), TypingFault>
        ensures typed { OnOk result (self.new ≡ record self.old { course = with_typed self.old.position keys self.old.course }) }
        ensures here { OnOk result (here self.new ≡ with_keys keys (here self.old)) }
        ensures room { OnOk result (length (here self.old).memory.devices.keys + length keys ≤ 4096) }
        ensures full { IfErr result (λ fault. fault ≡ Full → 4096 < length (here self.old).memory.devices.keys + length keys) }
        ensures kept { OnErr result (self.new ≡ self.old) }
    {
        let position = self.machine.steps();
        self.course.type_keys(&mut self.machine, keys)?;
        self.checkpoints.forget_from(position);
        self.checkpoints.keep(self.alloc, &self.machine);
        Ok(())
    }

    /// Changes a byte or registers at the current position; what was done by hand at later positions is forgotten. The
    /// change is part of the run: going back to an earlier position undoes it, and going forwards from there makes it
    /// again. Fails without any change if memory is short.
    pub fn change(&mut self, change: Change) -> Result<(), AllocError>
        ensures changed { OnOk result (self.new ≡ record self.old { course = with_changed self.old.position change self.old.course }) }
        ensures here { OnOk result (here self.new ≡ with_change change (here self.old)) }
        ensures kept { OnErr result (self.new ≡ self.old) }
    {
        let position = self.machine.steps();
        self.course.change(&mut self.machine, change)?;
        self.checkpoints.forget_from(position);
        self.checkpoints.keep(self.alloc, &self.machine);
        Ok(())
    }

    /// Returns whether a byte or registers were changed by hand after the current position.
    pub fn is_changed_ahead(&self) -> bool
        ensures { result ≡ is_changed_after self.now.position self.now.course.log }
    {
        self.course.is_changed_after(self.machine.steps())
    }

    /// Returns whether a byte or registers were changed by hand at `position`.
    pub fn is_changed_at(&self, position: u64) -> bool
        ensures { result ≡ is_changed_at_of position self.now.course.log }
    {
        self.course.is_changed_at(position)
    }

    /// Returns the routines that were entered before the current position and not left, the outermost first. A JSR
    /// enters one. The first step after which the stack pointer is not below its value before the JSR leaves it. The
    /// position does not change. Fails only if memory is short.
    pub fn entered(&mut self) -> Result<Vec<Entry, A>, AllocError>
        ensures entered { IfOk result (λ entries. entries.items ≡ entered_on self.old.course self.old.position) }
        ensures kept { self.new ≡ self.old }
    {
        let end = self.machine.steps();
        let way = routines_up_to(self.alloc, &self.course, &mut self.scout, end, 0)?;
        Ok(way.entries)
    }

    /// Returns the latest position before the current one with no more routines entered than now, or `None` at the
    /// start. The position does not change. Fails only if memory is short.
    pub fn newest_outside(&mut self) -> Result<Option<u64>, AllocError>
        ensures newest { IfOk result (λ found.
            IsNewestOutside self.old.course (length (entered_on self.old.course self.old.position)) self.old.position found) }
        ensures kept { self.new ≡ self.old }
    {
        let most = self.entered()?.len();
        let end = self.machine.steps();
        let way = routines_up_to(self.alloc, &self.course, &mut self.scout, end, most)?;
        Ok(way.outside)
    }
}
