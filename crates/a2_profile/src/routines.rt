//! What a run executes in its routines.

ghost use Rattle.std.specs.Prelude.{◌<◌, IfOk, IfErr};
ghost use Rattle.a2_profile.specs.Routines.{IsRoutineProfile};
ghost use Rattle.a2_timed_keys.specs.Typed.{IsTypedFault};

use crate::RoutineProfile;
use crate::walk::Walk;
use a2_asm::Program;
use a2_machine::Cause;
use a2_timed_keys::{Ended, TimedArgs, TypedFault};
use std::alloc::Allocator;

// For the prover alone: a caller has the number in a field, whose range is not known there.
fn fits(limit: u32)
    ensures { limit < 4_294_967_296 }
{
    let _ = limit;
}

/// Runs `program` as [`Ended::of`] does, and counts its steps by the routines in which they are executed. Also returns the cause of
/// the run's end. Fails if after some steps more than 4,096 keys would wait, or if there is not enough memory. This project's profile.
pub fn profile_routines<A: Allocator + Copy>(
    alloc: A,
    program: &Program<A>,
    args: TimedArgs<'_, A>,
) -> Result<(RoutineProfile<A>, Cause), TypedFault>
    ensures counted { IfOk result (λ (profile, cause). IsRoutineProfile program.now args.entry.run.keys.now args.entry.strokes.now
        args.entry.run.limit args.entry.run.free profile cause) }
    ensures refused { IfErr result (λ fault. IsTypedFault program.now args.entry.run.keys.now args.entry.strokes.now
        args.entry.run.limit args.entry.run.free fault) }
{
    fits(args.run.limit);
    let mut walk = Walk::new(alloc)?;
    // For the prover alone: a law of every walk, before the run and after it.
    walk.is_walk();
    let ended = Ended::observed(alloc, program, args, &mut walk)?;
    walk.is_walk();
    Ok((walk.finish(), ended.cause()))
}
