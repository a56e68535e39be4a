//! What a service needs: positions of window, cursor and blocks, and waiting keys.

ghost use Rattle.std.specs.Prelude.{◌≡◌, length, not};
ghost use Rattle.a2_bus.specs.View.{memory_of};
ghost use Rattle.a2_bus.specs.Memory.{ram_end};
ghost use Rattle.a2_effect.specs.Live.{live_registers};
ghost use Rattle.a2_services.specs.Called.{service_unmet_need};
ghost use Rattle.a2_services.specs.Services.{positions_fit, needed_keys_missing, block_fits as block_fits_of, window_fits as window_fits_of, cursor_fits as cursor_fits_of, has_return as has_return_of};

use crate::bytes::RETURN_KEY;
use crate::line::first_key;
use crate::locations::{BLOCK_ROWS, COLUMNS};
use crate::rows::{Needs, row_of};
use crate::screen::{load, window};
use crate::{Served, Service};
use a2_bus::locations::{CH, CV, H2, V2};
use a2_bus::{AddressSpace, Bus};
use a2_effect::Live;
use std::alloc::Allocator;

/// Returns why a call of a service cannot be executed, or `None` if it can.
///
/// Returns `Served::Window` if window, cursor or registers do not fit the service. The window fits if it has at least one
/// column and one row and lies on the screen: $21 >= 1, $20 + $21 <= 40 and $22 < $23 <= 24. The cursor fits if it is on the
/// screen, inside the window or not: $25 < 24 and $20 + $24 < 40. HOME needs the window; COUT1, PRBYTE, PRHEX, GETLN, VTAB,
/// CLREOL and CLREOP need both. PLOT, SCRN, HLINE and VLINE need A < 48 and Y < 40; HLINE also needs $2C < 40, and VLINE $2D <
/// 48.
///
/// Otherwise, returns `Served::Keys` if keys that the service needs are not waiting. KEYIN needs a key; GETLN needs a return
/// ($0D), which need not be the first key. The other services need nothing. This project's profile.
#[inline(always)]
pub fn refusal<A: Allocator>(
    service: Service,
    live: &Live,
    space: &AddressSpace<A>,
) -> Option<Served>
    ensures answer { result ≡ service_unmet_need service (live_registers live.now) (memory_of space.now) }
    ensures size { length space.now.bytes ≡ ram_end }
{
    let needs = row_of(service).needs;
    if !fits(needs, live, space) {
        Some(Served::Window)
    } else if lacks_keys(needs, space) {
        Some(Served::Keys)
    } else {
        None
    }
}

// Whether window, cursor and registers are as the service needs them.
#[inline(always)]
fn fits<A: Allocator>(needs: Needs, live: &Live, space: &AddressSpace<A>) -> bool
    ensures answer { result ≡ positions_fit needs (live_registers live.now) (memory_of space.now) }
    ensures size { length space.now.bytes ≡ ram_end }
{
    // Only for the prover: this read shows how long RAM is.
    let _ = space.peek(H2);
    match needs {
        Needs::Nothing | Needs::Key => true,
        Needs::Window => window_fits(space),
        Needs::Cursor | Needs::Line => window_fits(space) && cursor_fits(space),
        Needs::Block => block_fits(live),
        Needs::Across => block_fits(live) && load(space, H2) < COLUMNS,
        Needs::Down => block_fits(live) && load(space, V2) < BLOCK_ROWS,
    }
}

// Whether A is a row of blocks and Y a column.
#[inline(always)]
pub(crate) fn block_fits(live: &Live) -> bool
    ensures { result ≡ block_fits_of (live_registers live.now) }
{
    live.a < BLOCK_ROWS && live.y < COLUMNS
}

// Whether the window lies on the screen.
#[inline(always)]
pub(crate) fn window_fits<A: Allocator>(space: &AddressSpace<A>) -> bool
    ensures answer { result ≡ window_fits_of (memory_of space.now) }
    ensures size { length space.now.bytes ≡ ram_end }
{
    let edges = window(space);
    1 <= edges.width
        && u16::from(edges.left) + u16::from(edges.width) <= 40
        && edges.top < edges.bottom
        && edges.bottom <= 24
}

// Whether the cursor is on the screen.
#[inline(always)]
pub(crate) fn cursor_fits<A: Allocator>(space: &AddressSpace<A>) -> bool
    ensures { result ≡ cursor_fits_of (memory_of space.now) }
{
    let left = window(space).left;
    load(space, CV) < 24 && u16::from(left) + u16::from(load(space, CH)) < 40
}

// Whether keys that the service needs are missing.
#[inline(always)]
#[tactic(auto, using(crate::proofs::Lines::lacks_unless, a2_bus::proofs::Viewing::devices_seen))]
fn lacks_keys<A: Allocator>(needs: Needs, space: &AddressSpace<A>) -> bool
    ensures { result ≡ needed_keys_missing needs (memory_of space.now).devices.keys }
{
    match needs {
        Needs::Key => first_key(space).is_none(),
        Needs::Line => !has_return(space.waiting()),
        _ => false,
    }
}

// Whether RETURN is among the keys.
fn has_return(keys: &[u8]) -> bool
    ensures { result ≡ has_return_of keys.now }
{
    keys.iter().any(|key| *key == RETURN_KEY)
}
