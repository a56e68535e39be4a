//! Replays a run with the keys that were typed in it.

ghost use Rattle.std.specs.Prelude.{◌≡◌, ◌↔◌, true, ℕ, ◌<◌, ◌≤◌, ◌∷◌, [], All, Some, length};
ghost use Rattle.a2_asm.specs.Assembled.{Assembled};
ghost use Rattle.a2_machine.specs.ProgramGuard.{guard_of_program};
ghost use Rattle.a2_machine.specs.State.{world_of_state};
ghost use Rattle.a2_timed_keys.specs.Typed.{keys_at, with_keys};
ghost use Rattle.a2_play.specs.Played.{machine_after, start, world_with_keys};
ghost use Rattle.a2_play.specs.Agains.{IsReplaying, HasRoom, HasFewerCycles, IsFoundBySearch};

use crate::player::PIECE_MAX_STEPS;
use a2_asm::Program;
use a2_bus::Keys;
use a2_machine::Machine;
use a2_timed_keys::{Typed, next_due};
use std::alloc::Allocator;

/// Types a key if there is room, and returns whether there was.
pub(crate) fn type_at<A: Allocator + Copy>(machine: &mut Machine<A>, key: u8) -> bool
    requires { key < 128 }
    ensures room { (result ≡ true) ↔ (length machine.old.state.bus.devices.keys < 4096) }
    ensures typed { machine.new ≡ machine_after result key machine.old }
{
    machine.type_keys(&Keys::one(key)).is_ok()
}

/// Puts a machine at the start of a program, with the program guarded.
pub(crate) fn begin<A: Allocator + Copy>(machine: &mut Machine<A>, program: &Program<A>)
    ensures world { world_of_state machine.new.state ≡ start program.now }
    ensures steps { machine.new.state.steps ≡ 0 }
    ensures guard { machine.new.state.guard ≡ Some (guard_of_program program.now) }
{
    machine.boot(program.image(), program.entry());
    machine.guard(program);
}

// Types a key if it was typed after this many steps.
fn type_stroke<A: Allocator + Copy>(machine: &mut Machine<A>, stroke: Typed, steps: u64)
    ensures { stroke.key < 128 → HasRoom (keys_at (stroke ∷ []) steps) machine.old
        → machine.new ≡ with_keys (keys_at (stroke ∷ []) steps) machine.old }
{
    if stroke.key < 128 && stroke.steps == steps {
        // There was room when the key was first typed.
        let _ = type_at(machine, stroke.key);
    }
}

// Types the keys that were typed after this many steps.
fn type_due<A: Allocator + Copy>(machine: &mut Machine<A>, log: &[Typed], steps: u64)
    ensures { All (λ t. t.key < 128) log.now → HasRoom (keys_at log.now steps) machine.old
        → machine.new ≡ with_keys (keys_at log.now steps) machine.old }
{
    for stroke in log {
        type_stroke(machine, *stroke, steps);
    }
}

// Continues a replay: types the keys that belong to the current position, and runs to the next position with keys, or
// to `end`.
fn run_on<A: Allocator + Copy>(machine: &mut Machine<A>, log: &[Typed], end: u64)
    requires { machine.old.state.steps < end }
    ensures { (program : Assembled) (last : ℕ) → IsReplaying program log.now last machine.old.state → end ≤ last
        → IsReplaying program log.now last machine.new.state
        × (machine.old.state.steps < machine.new.state.steps) × (machine.new.state.steps ≤ end) }
{
    let made = machine.steps();
    type_due(machine, log, made);
    let until = next_due(log, made, end);
    // This part of the run is a replay, so no other cause occurs before the limit.
    let _ = machine.run((until - made).min(PIECE_MAX_STEPS) as u32);
}

/// Continues a replay to a position that the run reached.
pub(crate) fn bring<A: Allocator + Copy>(machine: &mut Machine<A>, log: &[Typed], position: u64)
    ensures { (program : Assembled) (last : ℕ) → IsReplaying program log.now last machine.old.state → position ≤ last
        → machine.old.state.steps ≤ position → IsReplaying program log.now last machine.new.state
        × (machine.new.state.steps ≡ position) }
{
    for _ in machine.steps()..position {
        if machine.steps() >= position {
            break;
        }
        run_on(machine, log, position);
    }
}

/// Continues a replay in pieces of at most `piece` steps, until `goal` cycles have passed after a piece, or until
/// `end`. Returns the position at which that piece began.
pub(crate) fn seek<A: Allocator + Copy>(
    machine: &mut Machine<A>,
    log: &[Typed],
    goal: u64,
    end: u64,
    piece: u64,
) -> u64
    requires { 0 < piece }
    ensures { (program : Assembled) → IsReplaying program log.now end machine.old.state
        → HasFewerCycles program log.now goal machine.old.state.steps → goal ≤ (world_with_keys program log.now end).cycles
        → IsFoundBySearch program log.now goal end piece result machine.new.state }
{
    let mut before = machine.steps();
    for _ in before..end {
        let made = machine.steps();
        if made >= end || machine.cycles() >= goal {
            break;
        }
        before = made;
        run_on(machine, log, made + piece.min(end - made));
    }
    before
}
