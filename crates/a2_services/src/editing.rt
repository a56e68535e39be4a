//! Services that edit the screen without putting a byte on it.
#![tactic(auto, unfolding(crate::specs::Services::effect))]

ghost use Rattle.std.specs.Prelude.{◌≡◌};
ghost use Rattle.a2_bus.specs.View.{memory_of};
ghost use Rattle.a2_services.specs.declared.rows.Service.TheVariants.{Setinv, Setnorm, Vtab, Clreol, Clreop};
ghost use Rattle.a2_services.specs.Called.{IsDone};
ghost use Rattle.a2_services.specs.Fits.{CursorFits};
ghost use Rattle.a2_services.specs.Services.{cleared_below};

use crate::ends::{end_output, return_from};
use crate::line::clear_to_end;
use crate::screen::{Edges, clear, load, store, window};
use a2_bus::AddressSpace;
use a2_bus::locations::{CV, INVFLG};
use a2_effect::Live;
use std::alloc::Allocator;

/// The mask that makes characters inverse.
const INVERSE: u8 = 0x3F;

/// The mask that leaves characters unchanged.
const NORMAL: u8 = 0xFF;

pub(crate) fn setinv<A: Allocator>(live: &mut Live, space: &mut AddressSpace<A>)
    ensures { IsDone Setinv live.old space.old live.new space.new }
{
    store(space, INVFLG, INVERSE);
    return_from(live, space);
}

pub(crate) fn setnorm<A: Allocator>(live: &mut Live, space: &mut AddressSpace<A>)
    ensures { IsDone Setnorm live.old space.old live.new space.new }
{
    store(space, INVFLG, NORMAL);
    return_from(live, space);
}

pub(crate) fn vtab<A: Allocator>(live: &mut Live, space: &mut AddressSpace<A>)
    requires { CursorFits (memory_of space.old) }
    ensures { IsDone Vtab live.old space.old live.new space.new }
{
    end_output(live, space);
}

pub(crate) fn clreol<A: Allocator>(live: &mut Live, space: &mut AddressSpace<A>)
    requires { CursorFits (memory_of space.old) }
    ensures { IsDone Clreol live.old space.old live.new space.new }
{
    clear_to_end(space);
    return_from(live, space);
}

pub(crate) fn clreop<A: Allocator>(live: &mut Live, space: &mut AddressSpace<A>)
    requires { CursorFits (memory_of space.old) }
    ensures { IsDone Clreop live.old space.old live.new space.new }
{
    clear_to_end(space);
    clear_below(space);
    end_output(live, space);
}

// Makes the window's rows below the cursor blank.
fn clear_below<A: Allocator>(space: &mut AddressSpace<A>)
    requires { CursorFits (memory_of space.old) }
    ensures memory { memory_of space.new ≡ cleared_below (memory_of space.old) }
    ensures fits { CursorFits (memory_of space.new) }
{
    let edges = window(space);
    let top = load(space, CV) + 1;
    if top < edges.bottom {
        clear(space, Edges { top, ..edges });
    }
}
