//! Describes what is searched for in the worlds of a run.

ghost use Rattle.std.specs.Prelude.{◌≡◌, Bool, false};
ghost use Rattle.a2_services.specs.World.{World};
ghost use Rattle.a2_machine.specs.State.{world_of_state};

use a2_machine::Machine;
use std::alloc::Allocator;

/// A condition to search for in the worlds of a run.
pub trait SearchTarget {
    /// Whether the condition holds in a world.
    ghost is_found_in: { Self → World → Bool };

    /// Returns whether the condition holds in a machine's world.
    fn is_found_in<A: Allocator + Copy>(&self, machine: &Machine<A>) -> bool
        ensures { result ≡ is_found_in self.now (world_of_state machine.now.state) };
}

/// The condition that holds in no world.
#[derive(Clone, Copy)]
pub struct Nothing;

impl SearchTarget for Nothing {
    ghost is_found_in = { λ nothing world. false };

    fn is_found_in<A: Allocator + Copy>(&self, _machine: &Machine<A>) -> bool {
        false
    }
}
