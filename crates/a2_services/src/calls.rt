//! Calling a service: what it needs, its effect and its cycles.

ghost use Rattle.std.specs.Prelude.{◌≡◌, ◌<◌, ◌≤◌, ◌+◌, true, false, length};
ghost use Rattle.a2_page.specs.Window.{IsWindow};
ghost use Rattle.a2_bus.specs.Memory.{ram_end};
ghost use Rattle.a2_bus.specs.View.{memory_of};
ghost use Rattle.a2_effect.specs.Live.{live_registers};
ghost use Rattle.a2_services.specs.declared.rows.Service.TheVariants.{Cout1, Home, Prbyte, Prhex, Keyin, Wait, Getln};
ghost use Rattle.a2_services.specs.Put.{window_of};
ghost use Rattle.a2_services.specs.Services.{fits as fits_of, lacks_keys as lacks_keys_of, cycles_of as cycles_by, wait_cycles as wait_cycles_of};
ghost use Rattle.a2_services.specs.Fits.{CursorFits};
ghost use Rattle.a2_services.specs.Called.{IsCalled, IsServed, IsDone, KeepsUnreachedBytes};

use crate::blocks::{clrscr, hline, plot, scrn, setcol, vline};
use crate::bytes::digit_byte;
use crate::editing::{clreol, clreop, setinv, setnorm, vtab};
use crate::ends::{end_output, return_from};
use crate::hooks::{cout, crout, rdkey};
use crate::line::{read_line, take_key};
use crate::needs::{block_fits, cursor_fits, refusal, window_fits};
use crate::put::put;
use crate::rows::{Takes, row_of};
use crate::screen::{clear, load, store, window};
use crate::{Served, Service};
use a2_bus::AddressSpace;
use a2_bus::locations::{CH, CV, PROMPT};
use a2_effect::Live;
use std::alloc::Allocator;

// Cycles of a hook.
const HOOK_CYCLES: u32 = 5;

// Cycles of every other service except WAIT.
const CYCLES: u32 = 6;

/// Calls a service, with the effect described at its variant of [`Service`].
///
/// The registers and the address space change as the service changes them. Then PC is pulled from the stack as RTS does; a hook
/// instead sets PC to the address it holds. Returns `Served::Next` with the number of cycles. Apple II Reference Manual (1979),
/// chapters 2 and 3; the exact effects are this project's profile.
///
/// If something that the service needs is missing, returns what [`refusal`] returns, and nothing changes. No byte of RAM
/// outside the service's [`reach`](crate::reach) changes.
#[inline(always)]
pub fn call<A: Allocator>(service: Service, live: &mut Live, space: &mut AddressSpace<A>) -> Served
    ensures called { IsCalled service (live_registers live.old) space.old (live_registers live.new) space.new result }

    // The caller counts the cycles.
    ensures cycles { live.new.cycles ≡ live.old.cycles }

    // Only bytes in the service's `reach` can change.
    ensures unreached { KeepsUnreachedBytes service space.old space.new }

    // The size of RAM is unchanged, and no key is added.
    ensures size { length space.new.bytes ≡ length space.old.bytes }
    ensures keys { length space.new.devices.keys ≤ length space.old.devices.keys }
{
    // The services called for each character, block or screen are handled here, as their rows describe them. This macro is kept
    // small so that it is inlined into the step loop and the registers stay in host registers.
    macro_rules! in_place {
        ($act:ident $cycles:ident $fits:expr) => {
            if $fits {
                $act(live, space);
                Served::Next($cycles)
            } else {
                Served::Window
            }
        };
    }
    // Only for the prover: this read shows how long RAM is.
    let _ = space.ram();
    match service {
        Service::Cout => in_place!(cout HOOK_CYCLES true),
        Service::Cout1 => in_place!(cout1 CYCLES window_fits(space) && cursor_fits(space)),
        Service::Crout => in_place!(crout HOOK_CYCLES true),
        Service::Rdkey => in_place!(rdkey HOOK_CYCLES true),
        Service::Plot => in_place!(plot CYCLES block_fits(live)),
        Service::Home => in_place!(home CYCLES window_fits(space)),
        // Works on a copy: registers lent to a call would be kept in memory.
        _ => {
            let mut next = *live;
            let answer = call_outlined(service, &mut next, space);
            *live = next;
            answer
        }
    }
}

// Handles a service that needs a lookup: calls it, or returns why it cannot be called.
#[cold]
#[inline(never)]
fn call_outlined<A: Allocator>(
    service: Service,
    live: &mut Live,
    space: &mut AddressSpace<A>,
) -> Served
    ensures called { IsCalled service (live_registers live.old) space.old (live_registers live.new) space.new result }
    ensures cycles { live.new.cycles ≡ live.old.cycles }
    ensures unreached { KeepsUnreachedBytes service space.old space.new }
    ensures size { length space.new.bytes ≡ length space.old.bytes }
    ensures keys { length space.new.devices.keys ≤ length space.old.devices.keys }
{
    match refusal(service, live, space) {
        Some(answer) => answer,
        None => Served::Next(serve(service, live, space)),
    }
}

// Executes a call whose needs are met, and returns its cycles.
#[inline(always)]
#[tactic(auto, unfolding(crate::specs::Services::served))]
fn serve<A: Allocator>(service: Service, live: &mut Live, space: &mut AddressSpace<A>) -> u32
    requires fitting { fits_of service (live_registers live.old) (memory_of space.old) ≡ true }
    requires keyed { lacks_keys_of service (memory_of space.old) ≡ false }
    ensures served { IsServed service (live_registers live.old) space.old (live_registers live.new) space.new result }
    ensures cycles { live.new.cycles ≡ live.old.cycles }
    ensures size { length space.new.bytes ≡ ram_end }
{
    let cycles = cycles_of(row_of(service).takes, live);
    act(service, live, space);
    cycles
}

// The number of cycles a service takes.
#[inline(always)]
fn cycles_of(takes: Takes, live: &Live) -> u32
    ensures { result ≡ cycles_by takes (live_registers live.now) }
{
    match takes {
        Takes::OutputHook | Takes::InputHook => HOOK_CYCLES,
        Takes::Six => CYCLES,
        Takes::Wait => wait_cycles(live.a),
    }
}

// The number of cycles WAIT takes.
fn wait_cycles(a: u8) -> u32
    ensures { result ≡ wait_cycles_of a }
{
    let a = u32::from(a);
    if a == 0 {
        167293
    } else {
        (14 + 27 * a + 5 * a * a) / 2
    }
}

// Applies the effect of a call whose needs are met.
#[inline(always)]
fn act<A: Allocator>(service: Service, live: &mut Live, space: &mut AddressSpace<A>)
    requires fitting { fits_of service (live_registers live.old) (memory_of space.old) ≡ true }
    requires keyed { lacks_keys_of service (memory_of space.old) ≡ false }
    ensures { IsDone service live.old space.old live.new space.new }
{
    macro_rules! acts {
        ($($service:ident $act:ident),*) => {
            match service { $(Service::$service => $act(live, space)),* }
        };
    }
    acts!(
        Cout cout, Cout1 cout1, Crout crout, Home home, Prbyte prbyte, Prhex prhex, Setinv setinv,
        Setnorm setnorm, Vtab vtab, Clreol clreol, Clreop clreop, Rdkey rdkey, Keyin keyin,
        Getln getln, Wait wait, Setcol setcol, Plot plot, Hline hline, Vline vline, Scrn scrn,
        Clrscr clrscr
    )
}

#[tactic(auto, unfolding(crate::specs::Services::effect))]
fn cout1<A: Allocator>(live: &mut Live, space: &mut AddressSpace<A>)
    requires { CursorFits (memory_of space.old) }
    ensures { IsDone Cout1 live.old space.old live.new space.new }
{
    put(space, live.a);
    end_output(live, space);
}

// Inlined because otherwise the registers are lent to it, and are then kept in memory in every burst of steps.
#[inline(always)]
#[tactic(auto, unfolding(crate::specs::Services::effect))]
fn home<A: Allocator>(live: &mut Live, space: &mut AddressSpace<A>)
    requires { IsWindow (window_of (memory_of space.old)) }
    ensures { IsDone Home live.old space.old live.new space.new }
{
    let edges = window(space);
    clear(space, edges);
    store(space, CH, 0);
    store(space, CV, edges.top);
    end_output(live, space);
}

#[tactic(auto, unfolding(crate::specs::Services::effect))]
fn prbyte<A: Allocator>(live: &mut Live, space: &mut AddressSpace<A>)
    requires { CursorFits (memory_of space.old) }
    ensures { IsDone Prbyte live.old space.old live.new space.new }
{
    put(space, digit_byte(live.a / 16));
    put(space, digit_byte(live.a % 16));
    end_output(live, space);
}

#[tactic(auto, unfolding(crate::specs::Services::effect))]
fn prhex<A: Allocator>(live: &mut Live, space: &mut AddressSpace<A>)
    requires { CursorFits (memory_of space.old) }
    ensures { IsDone Prhex live.old space.old live.new space.new }
{
    put(space, digit_byte(live.a % 16));
    end_output(live, space);
}

fn keyin<A: Allocator>(live: &mut Live, space: &mut AddressSpace<A>)
    requires { lacks_keys_of Keyin (memory_of space.old) ≡ false }
    ensures { IsDone Keyin live.old space.old live.new space.new }
{
    let key = space.waiting()[0];
    take_key(space);
    live.a = 0x80 + key;
    return_from(live, space);
}

#[tactic(auto, unfolding(crate::specs::Services::effect))]
fn wait<A: Allocator>(live: &mut Live, space: &mut AddressSpace<A>)
    ensures { IsDone Wait live.old space.old live.new space.new }
{
    live.a = 0;
    return_from(live, space);
}

#[tactic(auto, using(crate::proofs::Lines::line_from_prompt), unfolding(crate::specs::Services::effect))]
fn getln<A: Allocator>(live: &mut Live, space: &mut AddressSpace<A>)
    requires { CursorFits (memory_of space.old) }
    ensures { IsDone Getln live.old space.old live.new space.new }
{
    let mark = load(space, PROMPT);
    put(space, mark);
    live.x = read_line(space);
    end_output(live, space);
}
