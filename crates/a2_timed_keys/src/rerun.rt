//! A finished run that is executed again.

ghost use Rattle.std.specs.Prelude.{◌≡◌, ◌-◌, ◌<◌, ◌≤◌, [], ℕ, suc, min, true, false, IfOk};
ghost use Rattle.a2_machine.specs.Looks.{observer_after};
ghost use Rattle.a2_machine.specs.State.{world_of_state};
ghost use Rattle.a2_timed_keys.specs.Typed.{keys_at};
ghost use Rattle.a2_timed_keys.specs.Rerun.{worlds_of, end_of, shown_from};

use crate::ended::Ended;
use crate::run::{due_within, run_on, run_on_observed};
use crate::strokes::{Typed, type_due};
use a2_burst::Observer;
use a2_machine::Machine;
use std::alloc::{AllocError, Allocator, Global};
use std::marker::Model;

/// A finished run that is executed again: a machine after some of its steps, with the keys that were typed up to there.
/// [`Ended::again`] returns it.
pub struct Rerun<'e, 'a, A: Allocator = Global> {
    ended: &'e Ended<'a, A>,
    machine: Machine<A>,
    /// No key is typed after more steps than the machine has executed and fewer than these.
    due: u32,
}

impl<'e, 'a, A: Allocator> Model for Rerun<'e, 'a, A> {
    ghost use Rattle.a2_timed_keys.specs.Rerun.{Rerunning, IsRerunning};

    ghost Value = { Rerunning };

    ghost view = { λ r. record { run = r.ended.now; steps = r.machine.state.steps } };

    ghost invariant = { λ r. IsRerunning r.ended.now r.machine r.due };
}

// Not derived, for the prover alone: it follows this as one call, and a derived one field by field.
impl<'e, 'a, A: Allocator> Drop for Rerun<'e, 'a, A> {
    fn drop(self) {
        let Rerun {
            ended: _,
            machine: _,
            due: _,
        } = self;
    }
}

// Returns the greatest number of steps, more than `made` and at most `end`, before which no key is typed; `end` at the end.
fn due_after(typed: &[Typed], made: u32, end: u32) -> u32
    requires { made ≤ end }
    ensures within { result ≤ end }
    ensures next { made < end → made < result }
    ensures none { (k : ℕ) → made < k → k < result → keys_at typed.now k ≡ [] }
{
    if made < end {
        due_within(typed, made, end)
    } else {
        end
    }
}

impl<'a, A: Allocator + Copy> Ended<'a, A> {
    /// Returns this run after so many of its steps, or at its end if it has fewer. If the run kept no copy of its machine near there,
    /// up to a quarter of its steps are executed again. Fails only if there is not enough memory.
    pub fn again(&self, alloc: A, steps: u32) -> Result<Rerun<'_, 'a, A>, AllocError>
        ensures { IfOk result (λ again. again ≡ record { run = self.now; steps = min steps (end_of self.now).steps }) }
    {
        // For the prover alone: the run executed each of its steps.
        self.is_stopped();
        let end = self.machine().steps() as u32;
        let until = steps.min(end);
        let mut machine = self.resumed(alloc, u64::from(until))?;
        let made = machine.steps() as u32;
        let typed = self.strokes().as_slice();
        match run_on(&mut machine, typed, made, until) {
            Ok(_) => Ok(Rerun {
                ended: self,
                machine,
                due: due_after(typed, until, end),
            }),
            // The run has an end, so the keys do fit.
            Err(_) => Err(AllocError),
        }
    }
}

impl<'e, 'a, A: Allocator + Copy> Rerun<'e, 'a, A> {
    /// Returns the machine after the steps that were executed.
    pub fn machine(&self) -> &Machine<A>
        ensures steps { result.now.state.steps ≡ self.now.steps }
        ensures world { world_of_state result.now.state ≡ worlds_of self.now.run self.now.steps }
        ensures within { self.now.steps ≤ (end_of self.now.run).steps }
    {
        // For the prover alone: a law of every program, by which the guarded bytes run as its statements.
        self.ended.program().is_sound();
        &self.machine
    }

    /// Executes the next step, and types the keys that were typed after it. Returns `false` at the end of the run, and then does
    /// nothing.
    pub fn step(&mut self) -> bool
        ensures made { result ≡ true → (self.old.steps < (end_of self.old.run).steps)
            × (self.new ≡ record self.old { steps = suc self.old.steps }) }
        ensures over { result ≡ false → ((end_of self.old.run).steps ≡ self.old.steps) × (self.new ≡ self.old) }
    {
        // For the prover alone: the run executed each of its steps, and its keys fitted.
        self.ended.is_stopped();
        let end = self.ended.machine().steps();
        if self.machine.steps() >= end {
            return false;
        }
        if self.machine.step().is_some() {
            // The run executed this step.
            unreachable!()
        }
        let due = u64::from(self.due);
        if self.machine.steps() == due {
            let typed = self.ended.strokes().as_slice();
            if !type_due(&mut self.machine, typed, due) {
                // They fitted in the run.
                unreachable!()
            }
            self.due = due_after(typed, self.due, end as u32);
        }
        true
    }

    /// Executes the rest of the run, types its keys after their steps, and shows each step to `observer`.
    pub fn finish<O: Observer>(&mut self, observer: &mut O)
        ensures ended { self.new ≡ record self.old { steps = (end_of self.old.run).steps } }
        ensures seen { observer.new ≡ observer_after O.seen (shown_from (worlds_of self.old.run) self.old.steps)
            observer.old ((end_of self.old.run).steps - self.old.steps) }
    {
        // For the prover alone: laws of every run and of every program, by which the guarded bytes run as its statements.
        self.ended.is_stopped();
        self.ended.program().is_sound();
        let end = self.ended.machine().steps() as u32;
        let made = self.machine.steps() as u32;
        let typed = self.ended.strokes().as_slice();
        match run_on_observed(&mut self.machine, typed, made, end, observer) {
            Ok(_) => {}
            // They fitted in the run.
            Err(_) => unreachable!(),
        }
    }
}
