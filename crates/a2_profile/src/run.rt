//! The profile of a run.

ghost use Rattle.std.specs.Prelude.{IfOk, IfErr};
ghost use Rattle.a2_profile.specs.Run.{IsProfile};
ghost use Rattle.a2_timed_keys.specs.Typed.{IsTypedFault};

use crate::Profile;
use crate::profile::Counting;
use a2_asm::Program;
use a2_machine::Cause;
use a2_timed_keys::{Ended, TimedArgs, TypedFault};
use std::alloc::Allocator;

/// Runs `program` as [`Ended::of`] does, and counts its steps. Also returns the cause of the run's end. Fails if after some steps
/// more than 4,096 keys would wait, or if there is not enough memory. This project's profile.
pub fn profile_run<A: Allocator + Copy>(
    alloc: A,
    program: &Program<A>,
    args: TimedArgs<'_, A>,
) -> Result<(Profile<A>, Cause), TypedFault>
    ensures counted { IfOk result (λ (profile, cause). IsProfile program.now args.entry.run.keys.now args.entry.strokes.now
        args.entry.run.limit args.entry.run.free profile cause) }
    ensures refused { IfErr result (λ fault. IsTypedFault program.now args.entry.run.keys.now args.entry.strokes.now
        args.entry.run.limit args.entry.run.free fault) }
{
    let mut counting = Counting::new(alloc)?;
    let ended = Ended::observed(alloc, program, args, &mut counting)?;
    // For the prover alone: each step that was seen is one of a machine.
    counting.is_whole();
    let machine = ended.machine();
    let profile = counting.profile(machine.steps(), machine.cycles());
    Ok((profile, ended.cause()))
}
