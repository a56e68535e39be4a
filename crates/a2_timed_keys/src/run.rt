//! Runs in which keys are typed.

ghost use Rattle.std.specs.Prelude.{◌≡◌, ◌≢◌, ◌-◌, ◌<◌, ◌≤◌, [], ℕ, All, IfOk, IfErr};
ghost use Rattle.a2_services.specs.World.{World};
ghost use Rattle.a2_machine.specs.Looks.{observer_after};
ghost use Rattle.a2_machine.specs.State.{code_of, world_of_state};
ghost use Rattle.a2_timed_keys.specs.Rerun.{shown_in, shown_from};
ghost use Rattle.a2_timed_keys.specs.Typed.{keys_at, world_with_keys, IsOverfull, IsRunning, IsTypedStop};

use crate::strokes::{Typed, next_due, type_due};
use a2_burst::Observer;
use a2_machine::{Cause, Machine};
use std::alloc::{AllocError, Allocator};

/// Why a run has no end.
#[derive(Clone, Copy)]
pub enum TypedFault {
    /// After so many steps, more than 4,096 keys would wait.
    Full(u64),
    /// There was not enough memory.
    Memory,
}

impl From<AllocError> for TypedFault {
    ghost use Rattle.a2_timed_keys.specs.declared.run.TypedFault.TheVariants.{Memory};

    ghost from_gives = { λ _ e. e ≡ Memory };

    fn from(_error: AllocError) -> TypedFault {
        TypedFault::Memory
    }
}

/// Returns the greatest number of steps, more than `made` and at most `limit`, before which no key is typed.
pub(crate) fn due_within(typed: &[Typed], made: u32, limit: u32) -> u32
    requires { made < limit }
    ensures more { made < result }
    ensures within { result ≤ limit }
    ensures none { (k : ℕ) → made < k → k < result → keys_at typed.now k ≡ [] }
{
    next_due(typed, u64::from(made), u64::from(limit)) as u32
}

/// Runs a machine on that has executed `begun` steps since its start, with the keys of these steps typed, and types keys after
/// their steps. Returns the cause of the run's end, or the steps after which the keys do not fit.
pub(crate) fn run_on<A: Allocator + Copy>(
    machine: &mut Machine<A>,
    typed: &[Typed],
    begun: u32,
    limit: u32,
) -> Result<Cause, u64>
    requires codes { All (λ t. t.key < 128) typed.now }
    ensures stopped { IfOk result (λ cause. (start : World)
        → IsRunning (code_of machine.old.state) start typed.now limit begun machine.old
        → IsTypedStop (code_of machine.old.state) start typed.now limit machine.new.state cause) }
    // If the machine has executed `limit` steps, it can run on with a greater limit.
    ensures came { IfOk result (λ _. (start : World)
        → IsRunning (code_of machine.old.state) start typed.now limit begun machine.old
        → limit ≤ machine.new.state.steps → IsRunning (code_of machine.old.state) start typed.now limit limit machine.new) }
    ensures full { IfErr result (λ steps. (start : World)
        → IsRunning (code_of machine.old.state) start typed.now limit begun machine.old
        → IsOverfull (code_of machine.old.state) start typed.now limit steps) }
{
    let mut made = begun;
    while made < limit {
        let until = due_within(typed, made, limit);
        let cause = machine.run(until - made);
        let due = u64::from(until);
        if machine.steps() < due {
            return Ok(cause);
        }
        if !type_due(machine, typed, due) {
            return Err(due);
        }
        made = until;
    }
    Ok(machine.run(0))
}

/// Runs a machine on as [`run_on`] does, and shows each step to `observer`.
pub(crate) fn run_on_observed<A: Allocator + Copy, O: Observer>(
    machine: &mut Machine<A>,
    typed: &[Typed],
    begun: u32,
    limit: u32,
    observer: &mut O,
) -> Result<Cause, u64>
    requires codes { All (λ t. t.key < 128) typed.now }
    ensures stopped { IfOk result (λ cause. (start : World)
        → IsRunning (code_of machine.old.state) start typed.now limit begun machine.old
        → IsTypedStop (code_of machine.old.state) start typed.now limit machine.new.state cause) }
    ensures came { IfOk result (λ _. (start : World)
        → IsRunning (code_of machine.old.state) start typed.now limit begun machine.old
        → limit ≤ machine.new.state.steps → IsRunning (code_of machine.old.state) start typed.now limit limit machine.new) }
    ensures full { IfErr result (λ steps. (start : World)
        → IsRunning (code_of machine.old.state) start typed.now limit begun machine.old
        → IsOverfull (code_of machine.old.state) start typed.now limit steps) }
    ensures some { IfErr result (λ steps. keys_at typed.now steps ≢ []) }
    ensures seen { IfOk result (λ _. (start : World)
        → IsRunning (code_of machine.old.state) start typed.now limit begun machine.old
        → observer.new ≡ observer_after O.seen
        (shown_from (world_with_keys (code_of machine.old.state) start typed.now) begun)
        observer.old (machine.new.state.steps - begun)) }
{
    let mut made = begun;
    while made < limit {
        let until = due_within(typed, made, limit);
        let cause = machine.run_observed(until - made, observer);
        let due = u64::from(until);
        if machine.steps() < due {
            return Ok(cause);
        }
        if !type_due(machine, typed, due) {
            return Err(due);
        }
        made = until;
    }
    Ok(machine.run(0))
}

/// Runs a machine from its start as [`run_on`] does, and shows each step to `observer`.
pub(crate) fn run_observed<A: Allocator + Copy, O: Observer>(
    machine: &mut Machine<A>,
    typed: &[Typed],
    limit: u32,
    observer: &mut O,
) -> Result<Cause, u64>
    requires codes { All (λ t. t.key < 128) typed.now }
    requires start { machine.old.state.steps ≡ 0 }
    ensures stopped { IfOk result (λ cause. IsTypedStop (code_of machine.old.state)
        (world_of_state machine.old.state) typed.now limit machine.new.state cause) }
    ensures full { IfErr result (λ steps. IsOverfull (code_of machine.old.state)
        (world_of_state machine.old.state) typed.now limit steps) }
    ensures seen { IfOk result (λ _. observer.new ≡ observer_after O.seen
        (shown_in (world_with_keys (code_of machine.old.state) (world_of_state machine.old.state) typed.now))
        observer.old machine.new.state.steps) }
    // For the prover alone: a caller has the number in a field, whose range is not known there.
    ensures range { limit < 4_294_967_296 }
{
    if !type_due(machine, typed, 0) {
        return Err(0);
    }
    run_on_observed(machine, typed, 0, limit, observer)
}
