//! How a service ends.

ghost use Rattle.std.specs.Prelude.{◌≡◌, ℕ, length};
ghost use Rattle.a2_bus.specs.Memory.{memory_access, ram_end};
ghost use Rattle.a2_bus.specs.View.{memory_of};
ghost use Rattle.a2_effect.specs.Instruction.{returned};
ghost use Rattle.a2_effect.specs.Live.{live_registers};
ghost use Rattle.a2_services.specs.World.{world_of};
ghost use Rattle.a2_services.specs.Put.{with_base_address};
ghost use Rattle.a2_services.specs.Services.{with_memory};
ghost use Rattle.a2_services.specs.Fits.{LineFits};

use crate::put::set_base;
use a2_bus::AddressSpace;
use a2_effect::Live;
use a2_effect::families::return_from_call;
use std::alloc::Allocator;

/// Ends an output service.
#[inline(always)]
pub(crate) fn end_output<A: Allocator>(live: &mut Live, space: &mut AddressSpace<A>)
    requires { LineFits (memory_of space.old) }
    ensures returned { let memory = with_base_address (memory_of space.old) in
        (cycles : ℕ) → world_of (live_registers live.new) space.new cycles
        ≡ returned memory_access (with_memory memory (world_of (live_registers live.old) space.old cycles)) }
    ensures cycles { live.new.cycles ≡ live.old.cycles }
    ensures size { length space.new.bytes ≡ ram_end }
{
    set_base(space);
    return_from(live, space);
}

/// Pulls PC from the stack, as RTS does.
#[inline(always)]
pub(crate) fn return_from<A: Allocator>(live: &mut Live, space: &mut AddressSpace<A>)
    ensures returned { (cycles : ℕ) → world_of (live_registers live.new) space.new cycles
        ≡ returned memory_access (world_of (live_registers live.old) space.old cycles) }
    ensures cycles { live.new.cycles ≡ live.old.cycles }
    ensures size { length space.new.bytes ≡ ram_end }
{
    // Only for the prover: shows how long RAM is before the pulls.
    let _ = space.ram();
    return_from_call(live, space);
}
