//! Replaying steps, with the keys that were typed on the way.

ghost use Rattle.std.specs.Prelude.{◌≡◌, ◌+◌, ◌-◌, ◌<◌, ◌≤◌, ◌^◌, take, drop};
ghost use Rattle.a2_debug_script.specs.Stored.{IsAt, world_before_keys, world_with_keys, NoneBelow, NoneAbove, NoneStuck, AreLogged};

use crate::Typed;
use crate::typing::typed_below;
use a2_asm::Program;
use a2_bus::Keys;
use a2_machine::Machine;
use std::alloc::Allocator;

/// Runs the machine on to a count that it has not reached yet, with no keys typed on the way.
pub fn run_on<A: Allocator + Copy>(
    machine: &mut Machine<A>,
    program: &Program<A>,
    log: &[Typed],
    typed: usize,
    to: u32,
)
    requires here { IsAt program.now (world_with_keys program.now (take typed log.now) machine.old.state.steps)
        machine.old.state.steps machine.old.state }
    requires ahead { machine.old.state.steps ≤ to }
    requires few { to ≤ 100_000_000 }
    requires past { NoneAbove machine.old.state.steps (take typed log.now) }
    requires later { NoneBelow to (drop typed log.now) }
    requires went { NoneStuck program.now log.now to }
    ensures there { IsAt program.now (world_with_keys program.now (take typed log.now) to) to machine.new.state }
    ensures made { machine.old.made + (to - machine.old.state.steps) < 2 ^ 64
        → machine.new.made + machine.old.state.steps ≡ machine.old.made + to }
{
    // No world on the way is stuck, so all of these steps are executed.
    machine.run(to - machine.steps() as u32);
}

/// Takes the machine from the world before the keys typed at its count to a later count, by the same steps and keys as
/// before.
pub fn rerun<A: Allocator + Copy>(
    machine: &mut Machine<A>,
    program: &Program<A>,
    log: &[Typed],
    to: u32,
)
    requires here { IsAt program.now (world_before_keys program.now log.now machine.old.state.steps)
        machine.old.state.steps machine.old.state }
    requires ahead { machine.old.state.steps ≤ to }
    requires few { to ≤ 100_000_000 }
    requires logged { AreLogged program.now log.now to }
    ensures there { IsAt program.now (world_with_keys program.now log.now to) to machine.new.state }
    ensures made { machine.old.made + (to - machine.old.state.steps) < 2 ^ 64
        → machine.new.made + machine.old.state.steps ≡ machine.old.made + to }
{
    for i in typed_below(log, machine.steps() as u32)..log.len() {
        let next = log[i];
        run_on(machine, program, log, i, next.count);
        // No more keys are waiting than the log has, so the machine accepts this one too.
        let _ = machine.type_keys(&Keys::one(next.key));
    }
    run_on(machine, program, log, log.len(), to);
}
