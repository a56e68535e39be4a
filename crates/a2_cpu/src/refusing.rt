//! Finds out why a guarded step would be refused.

ghost use Rattle.std.specs.Prelude.{◌≡◌, ℕ, Some, None, slice_get};
ghost use Rattle.std.specs.List.{list_any};
ghost use Rattle.a2_cpu.specs.GuardedBusStep.{guarded_bus_step};
ghost use Rattle.a2_cpu.specs.View.{before_step, guarded_answer_of, why_not};
ghost use Rattle.a2_effect.specs.Live.{live_registers, before_live_step};
ghost use Rattle.a2_cpu.specs.Code.{place_for, acting_stores, refused_at};

use crate::found::{Place, find};
use crate::stores::{Targets, targets_of};
use crate::{GuardedStep, Protection, Regs};
use a2_bus::Bus;
use a2_effect::Live;
use a2_opcode::Mnemonic;

// Returns whether one of a mnemonic's stores is at a protected address.
#[inline(always)]
fn stores_at_protected<G: Protection>(
    mnemonic: Mnemonic,
    place: Place,
    live: &Live,
    guard: &G,
) -> bool
    ensures { result ≡ list_any (G.is_protected guard.now) (acting_stores mnemonic (place_for place) (live_registers live.now)) }
{
    match targets_of(mnemonic, place, live) {
        Targets::None => false,
        Targets::One(address) => guard.is_protected(address),
        Targets::Two(first, second) => guard.is_protected(first) || guard.is_protected(second),
    }
}

/// Returns why a mnemonic is refused, or `None` if it is not.
#[inline(always)]
#[tactic(auto, unfolding(crate::specs::Code::refused_at, crate::specs::BusStep::refusal_of, crate::specs::Code::acting_stores))]
pub(crate) fn refusal<G: Protection>(
    mnemonic: Mnemonic,
    place: Place,
    live: &Live,
    guard: &G,
) -> Option<GuardedStep>
    ensures { result ≡ refused_at (G.is_protected guard.now) mnemonic (place_for place) (live_registers live.now) }
{
    match mnemonic {
        Mnemonic::Brk => Some(GuardedStep::Brk),
        Mnemonic::Adc | Mnemonic::Sbc if live.decimal => Some(GuardedStep::Decimal),
        _ if stores_at_protected(mnemonic, place, live, guard) => Some(GuardedStep::Protected),
        _ => None,
    }
}

/// Returns why [`guarded_step`](crate::run::guarded_step) would refuse the instruction at `regs.pc`, with these
/// registers, this bus and this guard. Returns `None` if the instruction would be executed. Nothing changes, and no
/// device sees an access.
pub fn guarded_refusal<B: Bus, G: Protection>(
    regs: &Regs,
    bus: &B,
    guard: &G,
) -> Option<GuardedStep>
    ensures { result ≡ why_not (guarded_answer_of
        (guarded_bus_step (G.is_protected guard.now) B.access (before_step regs.now (B.state bus.now)))) }
{
    live_refusal(&Live::of(regs), bus, guard)
}

/// Does the same as [`guarded_refusal`], for registers in computing form.
pub fn live_refusal<B: Bus, G: Protection>(live: &Live, bus: &B, guard: &G) -> Option<GuardedStep>
    ensures { result ≡ why_not (guarded_answer_of
        (guarded_bus_step (G.is_protected guard.now) B.access (before_live_step live.now (B.state bus.now)))) }
{
    match find(live, bus) {
        Ok(found) => refusal(found.mnemonic, found.place, live, guard),
        Err(why) => Some(why),
    }
}
