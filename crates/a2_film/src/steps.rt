//! The steps that are filmed: those of a machine, or those of a finished run that is executed again.

ghost use Rattle.std.specs.Prelude.{◌≡◌, ℕ, length, min, IfOk};
ghost use Rattle.a2_services.specs.World.{World};
ghost use Rattle.a2_machine.specs.State.{code_of, world_of_state};
ghost use Rattle.a2_timed_keys.specs.Rerun.{worlds_of, end_of};
ghost use Rattle.a2_timed_keys.specs.Typed.{keys_at};
ghost use Rattle.a2_film.specs.Runs.{part_of};
ghost use Rattle.a2_film.specs.Filmed.{Rest, IsStepOrOver, only, rest_of};

use a2_machine::{Cause, Machine};
use a2_timed_keys::{Ended, Rerun, Typed};
use std::alloc::{AllocError, Allocator, Global};

/// A run from where it is, which executes one step after another.
pub trait Steps<A: Allocator> {
    /// How many steps it has executed since its start.
    ghost made: { Self → ℕ };

    ghost world: { Self → World };

    /// What a film of at most so many steps shows of it from here on.
    ghost rest: { Self → Rest };

    /// Returns the machine before the next step.
    fn machine(&self) -> &Machine<A>
        ensures steps { result.now.state.steps ≡ made self.now }
        ensures world { world_of_state result.now.state ≡ world self.now };

    /// Executes the next step, and types the keys that are typed after it. Returns how many these are, or `None` at the end of the run.
    fn step(&mut self) -> Option<usize>
        ensures { IsStepOrOver (world self.old) (world self.new) (rest self.old) (rest self.new) result };

    /// Returns the cause with which a film ends here.
    fn cause(&mut self) -> Cause
        ensures { rest self.old 0 ≡ only result };
}

impl<A: Allocator + Copy> Steps<A> for Machine<A> {
    ghost made = { λ m. m.state.steps };

    ghost world = { λ m. world_of_state m.state };

    ghost rest = { λ m. rest_of (code_of m.state) (world_of_state m.state) m.state.steps };

    fn machine(&self) -> &Machine<A> {
        self
    }

    fn step(&mut self) -> Option<usize> {
        match Machine::step(self) {
            Some(_) => None,
            None => Some(0),
        }
    }

    fn cause(&mut self) -> Cause {
        self.run(0)
    }
}

/// A finished run that is executed again.
#[derive(Drop)]
pub struct Again<'e, 'a, A: Allocator = Global> {
    ended: &'e Ended<'a, A>,
    rerun: Rerun<'e, 'a, A>,
    ghost same: { rerun.run ≡ ended.now },
}

// Returns how many keys are typed after so many steps.
fn count_at(typed: &[Typed], steps: u64) -> usize
    ensures { result ≡ length (keys_at typed.now steps) }
{
    let mut count = 0;
    for stroke in typed {
        if stroke.steps == steps {
            count += 1;
        }
    }
    count
}

impl<'e, 'a, A: Allocator + Copy> Again<'e, 'a, A> {
    /// Returns a run after so many of its steps, or at its end if it has fewer. Fails only if there is not enough memory.
    pub fn of(alloc: A, ended: &'e Ended<'a, A>, steps: u32) -> Result<Again<'e, 'a, A>, AllocError>
        ensures { IfOk result (λ again. again.rerun ≡ record { run = ended.now; steps = min steps (end_of ended.now).steps }) }
    {
        let rerun = ended.again(alloc, steps)?;
        Ok(Again { ended, rerun })
    }
}

impl<A: Allocator + Copy> Steps<A> for Again<'_, '_, A> {
    ghost made = { λ it. it.rerun.steps };

    ghost world = { λ it. worlds_of it.rerun.run it.rerun.steps };

    ghost rest = { λ it. part_of it.rerun.run it.rerun.steps };

    fn machine(&self) -> &Machine<A> {
        self.rerun.machine()
    }

    fn step(&mut self) -> Option<usize> {
        if !self.rerun.step() {
            return None;
        }
        let machine = self.rerun.machine();
        // Usually none waits, and then none was typed.
        if machine.space().waiting().is_empty() {
            return Some(0);
        }
        Some(count_at(self.ended.strokes().as_slice(), machine.steps()))
    }

    fn cause(&mut self) -> Cause {
        if self.rerun.machine().steps() == self.ended.machine().steps() {
            self.ended.cause()
        } else {
            Cause::Limit
        }
    }
}
