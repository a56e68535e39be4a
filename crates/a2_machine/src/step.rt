//! One step on registers and address space: a service, or an instruction under the guard.

ghost use Rattle.std.specs.Prelude.{◌≡◌, ℕ, ◌<◌, ◌≤◌};
ghost use Rattle.a2_bus.specs.Memory.{ram_end};
ghost use Rattle.a2_effect.specs.Live.{live_registers};
ghost use Rattle.a2_services.specs.World.{world_of};
ghost use Rattle.a2_machine.specs.Meaning.{stuck};
ghost use Rattle.a2_machine.specs.ByteRun.{bytes};
ghost use Rattle.a2_machine.specs.Outcome.{IsCallAt, IsOutcome, MatchesCallAnswer, MatchesStepAnswer, cost_of, most_cost};

use crate::Cause;
use crate::code_guard::CodeGuard;
use a2_bus::locations::RETURN_ADDRESS;
use a2_bus::{AddressSpace, Bus};
use a2_cpu::run::live_step;
use a2_cpu::{GuardedStep, live_refusal};
use a2_effect::Live;
use a2_hex::RAM_END;
use a2_services::live::{call, refusal};
use a2_services::{Served, Service, service_at};
use std::alloc::Allocator;

// The outcome of a guarded step: its cycles, or the cause for which it was not executed.
#[inline(always)]
fn outcome_of(step: GuardedStep) -> Result<u32, Cause>
    ensures { MatchesStepAnswer step result }
{
    match step {
        GuardedStep::Next(cycles) => Ok(cycles),
        GuardedStep::Brk => Err(Cause::Brk),
        GuardedStep::Decimal => Err(Cause::Decimal),
        GuardedStep::Opcode => Err(Cause::Opcode),
        GuardedStep::Rom => Err(Cause::Rom),
        GuardedStep::Protected => Err(Cause::CodeWrite),
    }
}

// The same for a call of a service.
#[inline(always)]
fn outcome_of_call(answer: Served) -> Result<u32, Cause>
    ensures { MatchesCallAnswer answer result }
{
    match answer {
        Served::Next(cycles) => Ok(cycles),
        Served::Window => Err(Cause::Window),
        Served::Keys => Err(Cause::Keys),
    }
}

// The service to call at an address above RAM, or the cause that prevents any call.
#[inline(always)]
#[tactic(auto, using(crate::proofs::Calls::stuck_above), unfolding(crate::specs::Meaning::stuck_at))]
fn call_at<C: Allocator>(pc: u16, guard: &CodeGuard<C>) -> Result<Service, Cause>
    requires { ram_end ≤ pc }
    ensures { IsCallAt guard.now pc result }
{
    if pc == RETURN_ADDRESS {
        return Err(Cause::Returned);
    }
    match service_at(pc) {
        Some(service) if guard.blocks(service) => Err(Cause::CodeWrite),
        Some(service) => Ok(service),
        None if guard.admits(pc) => Err(Cause::Rom),
        None => Err(Cause::OffStatement),
    }
}

// Executes one step with PC above RAM.
#[inline(always)]
#[tactic(auto, using(crate::proofs::Costs::called_cost))]
fn execute_step_above<A: Allocator, C: Allocator>(
    live: &mut Live,
    space: &mut AddressSpace<A>,
    guard: &CodeGuard<C>,
) -> Result<u32, Cause>
    requires { ram_end ≤ live.old.pc }
    ensures outcome { IsOutcome guard.now (live_registers live.old) space.old (live_registers live.new) space.new result }
    ensures cost { cost_of result ≤ most_cost }
    ensures cycles { live.new.cycles ≡ live.old.cycles }
{
    // Only for the prover: a byte is below 256.
    let _a: u8 = live.a;
    match call_at(live.pc, guard) {
        Ok(service) => outcome_of_call(call(service, live, space)),
        Err(cause) => Err(cause),
    }
}

/// Executes one step: the service at PC, or otherwise the instruction at PC. If a cause stops it, returns the first cause, and
/// nothing changes. Returns the step's cycles but does not count them.
#[inline(always)]
#[tactic(auto, using(crate::proofs::Calls::off_statement))]
pub fn execute_step<A: Allocator, C: Allocator>(
    live: &mut Live,
    space: &mut AddressSpace<A>,
    guard: &CodeGuard<C>,
) -> Result<u32, Cause>
    ensures outcome { IsOutcome guard.now (live_registers live.old) space.old (live_registers live.new) space.new result }
    ensures cost { cost_of result ≤ most_cost }
    ensures cycles { live.new.cycles ≡ live.old.cycles }
{
    if live.pc >= RAM_END {
        return execute_step_above(live, space, guard);
    }
    if !guard.admits(live.pc) {
        return Err(Cause::OffStatement);
    }
    // Only for the prover: this read shows how long RAM is.
    let _ = space.peek(live.pc);
    // Works on a copy, so that the caller's registers can stay in host registers.
    let mut next = *live;
    let step = live_step(&mut next, space, guard);
    *live = next;
    outcome_of(step)
}

// Why no step is possible with PC above RAM.
#[tactic(auto, using(crate::proofs::Calls::unstuck))]
fn cause_above<A: Allocator, C: Allocator>(
    live: &Live,
    space: &AddressSpace<A>,
    guard: &CodeGuard<C>,
) -> Option<Cause>
    requires { ram_end ≤ live.now.pc }
    ensures { (before : ℕ) → stuck (bytes guard.now) (world_of (live_registers live.now) space.now before) ≡ result }
{
    match call_at(live.pc, guard) {
        Ok(service) => outcome_of_call(refusal(service, live, space)?).err(),
        Err(cause) => Some(cause),
    }
}

/// Returns why no step is possible here, or `None` if one is. Nothing changes.
#[tactic(auto, using(crate::proofs::Calls::off_statement, crate::proofs::Outcomes::unrefused_here))]
pub fn cause_at<A: Allocator, C: Allocator>(
    live: &Live,
    space: &AddressSpace<A>,
    guard: &CodeGuard<C>,
) -> Option<Cause>
    ensures { (before : ℕ) → stuck (bytes guard.now) (world_of (live_registers live.now) space.now before) ≡ result }
{
    if live.pc >= RAM_END {
        return cause_above(live, space, guard);
    }
    if !guard.admits(live.pc) {
        return Some(Cause::OffStatement);
    }
    // Only for the prover: this read shows how long RAM is.
    let _ = space.peek(live.pc);
    outcome_of(live_refusal(live, space, guard)?).err()
}
