//! A finished run.

ghost use Rattle.std.specs.Prelude.{◌≡◌, ◌<◌, ◌≤◌, All, IfOk, IfErr};
ghost use Rattle.a2_machine.specs.ByteRun.{bytes};
ghost use Rattle.a2_machine.specs.Looks.{observer_after};
ghost use Rattle.a2_machine.specs.State.{code_of, world_of_state};
ghost use Rattle.a2_run.specs.Meaning.{start_of_run};
ghost use Rattle.a2_run.specs.Started.{guard_of_run};
ghost use Rattle.a2_timed_keys.specs.Typed.{AreCopies, IsOverfull, IsRunning, IsTypedFault, IsTypedStop};
ghost use Rattle.a2_timed_keys.specs.Finished.{IsFinished, IsStopped};
ghost use Rattle.a2_timed_keys.specs.Rerun.{shown_in, worlds_of, end_of};

use crate::earlier::Earlier;
use crate::run::{TypedFault, run_observed, run_on};
use crate::strokes::{Strokes, Typed, type_due};
use a2_asm::Program;
use a2_burst::Observer;
use a2_machine::{Cause, Machine};
use a2_run::{RunArgs, started};
use std::alloc::{AllocError, Allocator, Global};
use std::marker::Model;

/// How many steps are at least between two copies of the machine of a run. A copy takes as long as some thousands of steps.
const BETWEEN_COPIES: u32 = 1 << 15;

/// How a program is run when keys are typed on the way.
#[derive(Clone, Copy)]
pub struct TimedArgs<'a, A: Allocator = Global> {
    pub run: RunArgs<'a>,
    /// The keys that are typed on the way.
    pub strokes: &'a Strokes<A>,
}

/// A finished run of a program: the machine as the run left it, and the cause of its end. To go back to the last steps takes no
/// second run from the start, because the run kept copies of its machine on the way: see [`Ended::again`].
pub struct Ended<'a, A: Allocator = Global> {
    program: &'a Program<A>,
    args: TimedArgs<'a, A>,
    machine: Machine<A>,
    cause: Cause,
    earlier: Earlier<A>,
}

impl<'a, A: Allocator> Model for Ended<'a, A> {
    ghost use Rattle.std.specs.Prelude.{◌<◌};
    ghost use Rattle.a2_timed_keys.specs.Finished.{Finished, IsStopped, AreItsCopies};

    ghost Value = { Finished };

    ghost view = { λ e. record {
      program = e.program.now;
      keys = e.args.run.keys.now;
      log = e.args.strokes.now;
      limit = e.args.run.limit;
      free = e.args.run.free;
      machine = e.machine;
      cause = e.cause;
    } };

    ghost invariant = { λ e. let f : Finished = record {
      program = e.program.now;
      keys = e.args.run.keys.now;
      log = e.args.strokes.now;
      limit = e.args.run.limit;
      free = e.args.run.free;
      machine = e.machine;
      cause = e.cause;
    } in
        IsStopped f × AreItsCopies f e.earlier.older e.earlier.newer × (f.limit < 4_294_967_296) };
}

// Not derived, for the prover alone: it follows this as one call, and a derived one field by field.
impl<'a, A: Allocator> Drop for Ended<'a, A> {
    fn drop(self) {
        let Ended {
            program: _,
            args: _,
            machine: _,
            cause: _,
            earlier: _,
        } = self;
    }
}

// Returns the steps after which the next copy is kept, at most `limit`. The longer the run, the farther it is from the copy before.
fn next_copy(made: u32, limit: u32) -> u32
    requires { made < limit }
    ensures more { made < result }
    ensures within { result ≤ limit }
{
    made.saturating_add(BETWEEN_COPIES.max(made / 4)).min(limit)
}

// Runs a machine from its start, types keys after their steps, and keeps copies of the machine. Returns the cause of the run's end with
// the copies, or the steps after which the keys do not fit.
fn run_keeping<A: Allocator + Copy>(
    alloc: A,
    machine: &mut Machine<A>,
    typed: &[Typed],
    limit: u32,
) -> Result<(Cause, Earlier<A>), u64>
    requires codes { All (λ t. t.key < 128) typed.now }
    requires start { machine.old.state.steps ≡ 0 }
    ensures stopped { IfOk result (λ (cause, _). IsTypedStop (code_of machine.old.state)
        (world_of_state machine.old.state) typed.now limit machine.new.state cause) }
    ensures copies { IfOk result (λ (_, earlier). AreCopies (code_of machine.old.state)
        (world_of_state machine.old.state) typed.now earlier.older earlier.newer) }
    ensures full { IfErr result (λ steps. IsOverfull (code_of machine.old.state)
        (world_of_state machine.old.state) typed.now limit steps) }
    // For the prover alone: a caller has the number in a field, whose range is not known there.
    ensures range { limit < 4_294_967_296 }
{
    let mut earlier = Earlier::new();
    let mut made = 0;
    if !type_due(machine, typed, 0) {
        return Err(0);
    }
    while made < limit {
        let until = next_copy(made, limit);
        let cause = run_on(machine, typed, made, until)?;
        if machine.steps() < u64::from(until) {
            return Ok((cause, earlier));
        }
        if until < limit {
            earlier.keep(alloc, machine);
        }
        made = until;
    }
    Ok((machine.run(0), earlier))
}

impl<'a, A: Allocator + Copy> Ended<'a, A> {
    /// Runs `program`, and types each of the keys of `args.strokes` when as many steps were made as it says. Keys after more steps
    /// than the run makes are not typed. Fails if after some steps more than 4,096 keys would wait, or if there is not enough memory.
    /// This project's profile.
    pub fn of(
        alloc: A,
        program: &'a Program<A>,
        args: TimedArgs<'a, A>,
    ) -> Result<Ended<'a, A>, TypedFault>
        ensures run { IfOk result (λ ended. (ended.program ≡ program.now) × (ended.keys ≡ args.entry.run.keys.now)
            × (ended.log ≡ args.entry.strokes.now) × (ended.limit ≡ args.entry.run.limit) × (ended.free ≡ args.entry.run.free)) }
        ensures ended { IfOk result (λ ended. IsFinished ended) }
        ensures refused { IfErr result (λ fault. IsTypedFault program.now args.entry.run.keys.now args.entry.strokes.now
            args.entry.run.limit args.entry.run.free fault) }
    {
        // For the prover alone: a law of every program, by which the guarded bytes run as its statements.
        program.is_sound();
        let mut machine = started(alloc, program, args.run.keys, args.run.free)?;
        match run_keeping(alloc, &mut machine, args.strokes.as_slice(), args.run.limit) {
            Ok((cause, earlier)) => Ok(Ended {
                program,
                args,
                machine,
                cause,
                earlier,
            }),
            Err(steps) => Err(TypedFault::Full(steps)),
        }
    }

    /// Returns a machine in the middle of the run, after at most so many steps.
    pub(crate) fn resumed(&self, alloc: A, until: u64) -> Result<Machine<A>, AllocError>
        ensures { IfOk result (λ machine. IsRunning (bytes (guard_of_run self.now.free self.now.program))
            (start_of_run self.now.program self.now.keys) self.now.log until machine.state.steps machine) }
    {
        if let Some(copy) = self.earlier.newest(until) {
            let mut machine = Machine::new(alloc)?;
            machine.copy_from(copy);
            return Ok(machine);
        }
        let run = self.args.run;
        let mut machine = started(alloc, self.program, run.keys, run.free)?;
        if type_due(&mut machine, self.args.strokes.as_slice(), 0) {
            Ok(machine)
        } else {
            // The run began with these keys, so they do fit.
            Err(AllocError)
        }
    }

    /// Runs `program` as [`Ended::of`] does, and shows each step to `observer`.
    pub fn observed<O: Observer>(
        alloc: A,
        program: &'a Program<A>,
        args: TimedArgs<'a, A>,
        observer: &mut O,
    ) -> Result<Ended<'a, A>, TypedFault>
        ensures run { IfOk result (λ ended. (ended.program ≡ program.now) × (ended.keys ≡ args.entry.run.keys.now)
            × (ended.log ≡ args.entry.strokes.now) × (ended.limit ≡ args.entry.run.limit) × (ended.free ≡ args.entry.run.free)) }
        ensures ended { IfOk result (λ ended. IsFinished ended) }
        ensures refused { IfErr result (λ fault. IsTypedFault program.now args.entry.run.keys.now args.entry.strokes.now
            args.entry.run.limit args.entry.run.free fault) }
        ensures seen { IfOk result (λ ended. observer.new ≡ observer_after O.seen (shown_in (worlds_of ended)) observer.old
            (end_of ended).steps) }
    {
        // For the prover alone: a law of every program, by which the guarded bytes run as its statements.
        program.is_sound();
        let mut machine = started(alloc, program, args.run.keys, args.run.free)?;
        match run_observed(
            &mut machine,
            args.strokes.as_slice(),
            args.run.limit,
            observer,
        ) {
            Ok(cause) => Ok(Ended {
                program,
                args,
                machine,
                cause,
                earlier: Earlier::new(),
            }),
            Err(due) => Err(TypedFault::Full(due)),
        }
    }
}

impl<'a, A: Allocator + Copy> Ended<'a, A> {
    /// Returns the program that ran.
    pub fn program(&self) -> &'a Program<A>
        ensures { result.now ≡ self.now.program }
    {
        self.program
    }

    /// Law: the machine is where the run ends, by its cause.
    pub fn is_finished(&self)
        ensures { IsFinished self.now }
    {
        // For the prover alone: a law of every program, by which the guarded bytes run as its statements.
        self.program.is_sound();
    }

    /// For the prover alone, a law: the machine is where the run of the guarded bytes ends, after few steps.
    pub(crate) fn is_stopped(&self)
        ensures stopped { IsStopped self.now }
        ensures few { self.now.machine.state.steps < 4_294_967_296 }
    {
        let _ = &self.machine;
    }

    /// Returns whether the program ran without the guard of its code.
    pub fn is_free(&self) -> bool
        ensures { result ≡ self.now.free }
    {
        self.args.run.free
    }

    /// Returns the keys that were to be typed on the way.
    pub fn strokes(&self) -> &'a Strokes<A>
        ensures { result.now ≡ self.now.log }
    {
        self.args.strokes
    }

    /// Returns the machine as the run left it.
    pub fn machine(&self) -> &Machine<A>
        ensures { result.now ≡ self.now.machine }
    {
        &self.machine
    }

    /// Returns the cause of the run's end.
    pub fn cause(&self) -> Cause
        ensures { result ≡ self.now.cause }
    {
        self.cause
    }

    /// Returns the machine as the run left it, and drops what else is kept of the run.
    pub fn into_machine(self) -> Machine<A>
        ensures { result ≡ self.entry.machine }
    {
        let Ended {
            program: _,
            args: _,
            machine,
            cause: _,
            earlier: _,
        } = self;
        machine
    }
}
