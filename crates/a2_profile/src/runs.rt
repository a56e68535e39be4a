//! The profile of several runs.

ghost use Rattle.std.specs.Prelude.{◌≡◌, ◌++◌, ◌∷◌, [], IfOk, IfErr, OnOk};
ghost use Rattle.a2_profile.specs.Runs as runs_of;
ghost use Rattle.a2_profile.specs.Runs.{IsProfileOfAll, IsRoutineProfileOfAll, IsFaultOfAll};

use crate::{Profile, RoutineProfile, profile_routines, profile_run};
use a2_asm::Program;
use a2_bus::Keys;
use a2_machine::Cause;
use a2_run::RunArgs;
use a2_timed_keys::{Strokes, TimedArgs, TypedFault};
use std::alloc::{AllocError, Allocator, Global};

/// The runs that a profile counts together.
#[derive(Clone, Copy)]
pub struct Runs<'a, A: Allocator = Global> {
    /// The keys that wait at the start of each run. There is one run for each item.
    pub keys: &'a [Keys],
    /// The keys that are typed in each run: in all of them the same.
    pub strokes: &'a Strokes<A>,
    /// The most steps of each run, 0 to 2^32 - 1.
    pub limit: u32,
    /// Runs without the guard of the program's code.
    pub free: bool,
}

// Returns how the run with these keys is run.
fn args_of<'a, A: Allocator>(runs: Runs<'a, A>, keys: &'a Keys) -> TimedArgs<'a, A>
    ensures keys { result.run.keys.now ≡ keys.now }
    ensures log { result.strokes.now ≡ runs.entry.strokes.now }
    ensures limit { result.run.limit ≡ runs.entry.limit }
    ensures free { result.run.free ≡ runs.entry.free }
{
    TimedArgs {
        run: RunArgs {
            keys,
            limit: runs.limit,
            free: runs.free,
        },
        strokes: runs.strokes,
    }
}

// Adds the cause of the end of a run.
fn note<A: Allocator + Copy>(causes: &mut Vec<Cause, A>, cause: Cause) -> Result<(), AllocError>
    ensures { OnOk result (causes.new.items ≡ causes.old.items ++ cause ∷ []) }
{
    causes.push(cause)?;
    Ok(())
}

/// Returns the first cause that is not [`Cause::Returned`], or else that: the one that stands for several runs. This project's
/// profile.
pub fn first_stop(causes: &[Cause]) -> Cause
    ensures { result ≡ runs_of.first_stop causes.now }
{
    for cause in causes {
        if *cause != Cause::Returned {
            return *cause;
        }
    }
    Cause::Returned
}

/// Runs `program` once for each item of `runs.keys`, each time from the start and as [`profile_run`] does, and adds up the counts: at
/// each address, and of all steps and cycles. Also returns the causes of the ends, in the order of the runs. Fails if after some steps
/// of a run more than 4,096 keys would wait, if there is not enough memory, or if a counter would need more than 64 bits. This
/// project's profile.
pub fn profile_runs<A: Allocator + Copy>(
    alloc: A,
    program: &Program<A>,
    runs: Runs<'_, A>,
) -> Result<(Profile<A>, Vec<Cause, A>), TypedFault>
    ensures counted { IfOk result (λ (profile, causes). IsProfileOfAll program.now runs.entry.keys.now runs.entry.strokes.now
        runs.entry.limit runs.entry.free profile causes.items) }
    ensures refused { IfErr result (λ fault. IsFaultOfAll program.now runs.entry.keys.now runs.entry.strokes.now
        runs.entry.limit runs.entry.free fault) }
{
    let mut profile = Profile::new(alloc)?;
    let mut causes = Vec::new(alloc);
    for keys in runs.keys {
        let (run, cause) = profile_run(alloc, program, args_of(runs, keys))?;
        if profile.join(&run).is_err() {
            return Err(TypedFault::Memory);
        }
        note(&mut causes, cause)?;
    }
    Ok((profile, causes))
}

/// Runs `program` as [`profile_runs`] does, and adds up the counts of each routine, and of all own steps and cycles. Also returns the
/// causes of the ends, in the order of the runs. Fails as it does. This project's profile.
pub fn profile_routine_runs<A: Allocator + Copy>(
    alloc: A,
    program: &Program<A>,
    runs: Runs<'_, A>,
) -> Result<(RoutineProfile<A>, Vec<Cause, A>), TypedFault>
    ensures counted { IfOk result (λ (profile, causes). IsRoutineProfileOfAll program.now runs.entry.keys.now runs.entry.strokes.now
        runs.entry.limit runs.entry.free profile causes.items) }
    ensures refused { IfErr result (λ fault. IsFaultOfAll program.now runs.entry.keys.now runs.entry.strokes.now
        runs.entry.limit runs.entry.free fault) }
{
    let mut profile = RoutineProfile::new(alloc)?;
    let mut causes = Vec::new(alloc);
    for keys in runs.keys {
        let (run, cause) = profile_routines(alloc, program, args_of(runs, keys))?;
        if profile.join(&run).is_err() {
            return Err(TypedFault::Memory);
        }
        note(&mut causes, cause)?;
    }
    Ok((profile, causes))
}
