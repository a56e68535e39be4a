//! Hooks: services that jump to an address stored on page 0.
#![tactic(auto, unfolding(crate::specs::Services::effect))]

ghost use Rattle.std.specs.Prelude.{◌≡◌, ◌+◌, ◌<◌, ℕ, length};
ghost use Rattle.a2_bus.specs.Memory.{ram_end};
ghost use Rattle.a2_effect.specs.Live.{live_registers};
ghost use Rattle.a2_services.specs.declared.rows.Service.TheVariants.{Cout, Crout, Rdkey};
ghost use Rattle.a2_services.specs.World.{world_of};
ghost use Rattle.a2_services.specs.Called.{IsDone};
ghost use Rattle.a2_services.specs.Services.{through};

use crate::bytes::RETURN;
use crate::screen::load;
use a2_bus::AddressSpace;
use a2_bus::locations::{CSW, KSW};
use a2_effect::Live;
use std::alloc::Allocator;

#[inline(always)]
pub(crate) fn cout<A: Allocator>(live: &mut Live, space: &AddressSpace<A>)
    ensures { IsDone Cout live.old space.now live.new space.now }
{
    go_through(CSW, live, space);
}

#[inline(always)]
pub(crate) fn crout<A: Allocator>(live: &mut Live, space: &AddressSpace<A>)
    ensures { IsDone Crout live.old space.now live.new space.now }
{
    live.a = RETURN;
    go_through(CSW, live, space);
}

#[inline(always)]
pub(crate) fn rdkey<A: Allocator>(live: &mut Live, space: &AddressSpace<A>)
    ensures { IsDone Rdkey live.old space.now live.new space.now }
{
    go_through(KSW, live, space);
}

// Sets PC to the 16-bit word stored at a hook.
#[inline(always)]
fn go_through<A: Allocator>(hook: u16, live: &mut Live, space: &AddressSpace<A>)
    requires { hook + 1 < ram_end }
    ensures gone { (cycles : ℕ) → world_of (live_registers live.new) space.now cycles
        ≡ through hook (world_of (live_registers live.old) space.now cycles) }
    ensures cycles { live.new.cycles ≡ live.old.cycles }
    ensures size { length space.now.bytes ≡ ram_end }
{
    live.pc = u16::from_le_bytes([load(space, hook), load(space, hook + 1)]);
}
