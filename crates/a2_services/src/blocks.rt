//! Services that draw lo-res blocks and read their colours.
#![tactic(auto, unfolding(crate::specs::Services::effect))]

ghost use Rattle.std.specs.Prelude.{◌≡◌, ◌<◌, true};
ghost use Rattle.a2_bus.specs.View.{memory_of};
ghost use Rattle.a2_effect.specs.Live.{live_registers};
ghost use Rattle.a2_services.specs.declared.rows.Service.TheVariants.{Setcol, Plot, Hline, Vline, Scrn, Clrscr};
ghost use Rattle.a2_services.specs.Blocks.{half_of as half_by, painted};
ghost use Rattle.a2_services.specs.Called.{IsDone};
ghost use Rattle.a2_services.specs.Services.{fits as fits_of};

use crate::ends::return_from;
use crate::locations::{BLOCK_ROWS, COLUMNS};
use crate::screen::{cell, fill_part, load, store};
use a2_bus::AddressSpace;
use a2_bus::locations::{COLOR, H2, V2};
use a2_effect::Live;
use a2_page::{Half, Page, address, block, set_block};
use std::alloc::Allocator;

pub(crate) fn setcol<A: Allocator>(live: &mut Live, space: &mut AddressSpace<A>)
    ensures { IsDone Setcol live.old space.old live.new space.new }
{
    store(space, COLOR, 17 * (live.a % 16));
    return_from(live, space);
}

#[inline(always)]
pub(crate) fn plot<A: Allocator>(live: &mut Live, space: &mut AddressSpace<A>)
    requires { fits_of Plot (live_registers live.old) (memory_of space.old) ≡ true }
    ensures { IsDone Plot live.old space.old live.new space.new }
{
    paint(space, live.a, live.y);
    return_from(live, space);
}

pub(crate) fn hline<A: Allocator>(live: &mut Live, space: &mut AddressSpace<A>)
    requires { fits_of Hline (live_registers live.old) (memory_of space.old) ≡ true }
    ensures { IsDone Hline live.old space.old live.new space.new }
{
    let end = load(space, H2).max(live.y) + 1;
    for column in live.y..end {
        paint(space, live.a, column);
    }
    return_from(live, space);
}

pub(crate) fn vline<A: Allocator>(live: &mut Live, space: &mut AddressSpace<A>)
    requires { fits_of Vline (live_registers live.old) (memory_of space.old) ≡ true }
    ensures { IsDone Vline live.old space.old live.new space.new }
{
    let end = load(space, V2).max(live.a) + 1;
    for row in live.a..end {
        paint(space, row, live.y);
    }
    return_from(live, space);
}

#[tactic(auto, using(crate::proofs::Painting::block_shown), unfolding(crate::specs::Services::effect))]
pub(crate) fn scrn<A: Allocator>(live: &mut Live, space: &mut AddressSpace<A>)
    requires { fits_of Scrn (live_registers live.old) (memory_of space.old) ≡ true }
    ensures { IsDone Scrn live.old space.old live.new space.new }
{
    live.a = block(cell(space, live.a / 2, live.y), half_of(live.a));
    return_from(live, space);
}

pub(crate) fn clrscr<A: Allocator>(live: &mut Live, space: &mut AddressSpace<A>)
    ensures { IsDone Clrscr live.old space.old live.new space.new }
{
    for row in 0..BLOCK_ROWS / 2 {
        fill_part(space, row, 0, COLUMNS, 0);
    }
    store(space, COLOR, 0);
    store(space, V2, BLOCK_ROWS - 1);
    return_from(live, space);
}

// The half of a screen cell that holds the blocks of a row.
fn half_of(row: u8) -> Half
    ensures { result ≡ half_by row }
{
    if row % 2 == 0 {
        Half::Above
    } else {
        Half::Below
    }
}

// Colours one block.
#[tactic(auto, using(a2_bus::proofs::Viewing::cell_seen, a2_bus::proofs::Viewing::cell_written, crate::proofs::Painting::paint_made), unfolding(crate::specs::Blocks::painted))]
fn paint<A: Allocator>(space: &mut AddressSpace<A>, row: u8, column: u8)
    requires row { row < 48 }
    requires column { column < 40 }
    ensures { memory_of space.new ≡ painted row column (memory_of space.old) }
{
    let half = half_of(row);
    let colour = block(load(space, COLOR), half);
    let place = address(Page::One, row / 2, column);
    let old = load(space, place);
    store(space, place, set_block(old, half, colour));
}
