//! Which steps of a run are shown.

ghost use Rattle.std.specs.Prelude.{◌≡◌, ◌+◌, ◌-◌, true, false, Some, None, is_some};
ghost use Rattle.std.specs.List.{list_any};
ghost use Rattle.a2_bus.specs.View.{memory_of};
ghost use Rattle.a2_machine.specs.State.{world_of_state};
ghost use Rattle.a2_services.specs.Services.{service_at as service_at_of};
ghost use Rattle.a2_timed_keys.specs.Rerun.{worlds_of};
ghost use Rattle.a2_trace.specs.Bytes as bytes;
ghost use Rattle.a2_trace.specs.Choices as choices;
ghost use Rattle.a2_trace.specs.Traced.{MakesStep};

use a2_cpu::writes;
use a2_machine::Machine;
use a2_services::service_at;
use a2_symbols::Span;
use a2_timed_keys::Rerun;
use std::alloc::Allocator;

/// Which steps of a run are shown: those that meet all these conditions.
#[derive(Clone, Copy, Debug)]
pub struct Choice {
    /// The number of the first step, which counts as STEPS does: 0 and 1 both mean every step.
    pub from: u32,
    /// Only so many of the last steps that meet all other conditions.
    pub last: Option<u32>,
    /// PC is in this span before the step.
    pub only: Option<Span>,
    /// The step stores in this span. For an instruction this is each store and push, even of the byte that was there; for a
    /// service, the bytes that differ afterwards.
    pub stores: Option<Span>,
}

impl Choice {
    /// Chooses all steps.
    pub fn all() -> Choice
        ensures { result ≡ choices.all_steps }
    {
        Choice {
            from: 0,
            last: None,
            only: None,
            stores: None,
        }
    }

    // Returns how many steps are before the first one that may be chosen.
    pub(crate) fn before_first(&self) -> u32
        ensures { result ≡ self.now.from - 1 }
    {
        self.from.saturating_sub(1)
    }

    // Returns whether a step is chosen by its number alone.
    pub(crate) fn is_by_number(&self) -> bool
        ensures { result ≡ true → (self.now.only ≡ None) × (self.now.stores ≡ None) }
    {
        self.only.is_none() && self.stores.is_none()
    }
}

// Returns whether an address is in a span.
fn is_in(span: Span, address: u16) -> bool
    ensures { result ≡ choices.is_in span address }
{
    span.first <= address && address <= span.last
}

// Returns whether the next step is not before the first, and has PC in the span that is asked for.
pub(crate) fn is_near<A: Allocator + Copy>(choice: &Choice, machine: &Machine<A>) -> bool
    ensures { result ≡ choices.is_near choice.now (machine.now.state.steps + 1) (world_of_state machine.now.state) }
{
    if u64::from(choice.from).saturating_sub(1) > machine.steps() {
        return false;
    }
    match choice.only {
        Some(span) => is_in(span, machine.regs().pc),
        None => true,
    }
}

/// Returns the byte of RAM at an address, or 0.
pub(crate) fn byte_at<A: Allocator + Copy>(machine: &Machine<A>, address: u16) -> u8
    ensures { result ≡ bytes.byte_at (memory_of machine.now.state.bus) address }
{
    machine.peek(address).unwrap_or(0)
}

// Returns whether two machines have different bytes at an address.
fn is_other_at<A: Allocator + Copy, B: Allocator + Copy>(
    old: &Machine<A>,
    new: &Machine<B>,
    address: u16,
) -> bool
    ensures { result ≡ choices.is_other_at (memory_of old.now.state.bus) (memory_of new.now.state.bus) address }
{
    byte_at(old, address) != byte_at(new, address)
}

// Returns whether two machines have different bytes at an address in a span.
#[tactic(auto, using(crate::proofs::Storing::differ_next, crate::proofs::Storing::differ_none))]
fn differ<A: Allocator + Copy, B: Allocator + Copy>(
    old: &Machine<A>,
    new: &Machine<B>,
    span: Span,
) -> bool
    ensures { result ≡ choices.differ_from (memory_of old.now.state.bus) (memory_of new.now.state.bus) span.first
        (span.last + 1 - span.first) }
{
    for address in u32::from(span.first)..u32::from(span.last) + 1 {
        if is_other_at(old, new, address as u16) {
            return true;
        }
    }
    false
}

// Calls a service, after `was` is made equal to the machine. Returns whether the call stores in a span, or `None` at the end of the
// run.
fn make_call<A: Allocator + Copy>(
    rerun: &mut Rerun<'_, '_, A>,
    was: &mut Machine<A>,
    span: Span,
) -> Option<bool>
    requires { is_some (service_at_of (worlds_of rerun.old.run rerun.old.steps).registers.pc) ≡ true }
    ensures { MakesStep true (Some span) rerun.old rerun.new result }
{
    was.restore(rerun.machine());
    if rerun.step() {
        Some(differ(was, rerun.machine(), span))
    } else {
        None
    }
}

// Returns whether one of some addresses is in a span.
fn is_any_in(span: Span, addresses: &[u16]) -> bool
    ensures { result ≡ list_any (choices.is_in span) addresses.now }
{
    for address in addresses {
        if is_in(span, *address) {
            return true;
        }
    }
    false
}

// Executes an instruction. Returns whether it stores in a span, or `None` at the end of the run.
fn make_instruction<A: Allocator + Copy>(rerun: &mut Rerun<'_, '_, A>, span: Span) -> Option<bool>
    requires { is_some (service_at_of (worlds_of rerun.old.run rerun.old.steps).registers.pc) ≡ false }
    ensures { MakesStep true (Some span) rerun.old rerun.new result }
{
    let machine = rerun.machine();
    // For the prover alone: all of RAM is there.
    let _ = machine.peek(0);
    let addresses = writes(&machine.regs(), machine.space());
    if rerun.step() {
        Some(is_any_in(span, addresses.as_slice()))
    } else {
        None
    }
}

// Executes a step. Returns whether it stores in a span, or `None` at the end of the run.
fn make_storing<A: Allocator + Copy>(
    rerun: &mut Rerun<'_, '_, A>,
    was: &mut Machine<A>,
    span: Span,
) -> Option<bool>
    ensures { MakesStep true (Some span) rerun.old rerun.new result }
{
    match service_at(rerun.machine().regs().pc) {
        Some(_) => make_call(rerun, was, span),
        None => make_instruction(rerun, span),
    }
}

// Executes a step without a test of its stores. Returns `near`, or `None` at the end of the run.
fn make_any<A: Allocator + Copy>(rerun: &mut Rerun<'_, '_, A>, near: bool) -> Option<bool>
    ensures { MakesStep near None rerun.old rerun.new result }
{
    if rerun.step() { Some(near) } else { None }
}

// Executes a step. Returns whether it is near and stores in the span that is asked for, or `None` at the end of the run. `was` is any
// machine.
#[inline(always)]
pub(crate) fn make_step<A: Allocator + Copy>(
    rerun: &mut Rerun<'_, '_, A>,
    was: &mut Machine<A>,
    near: bool,
    stores: Option<Span>,
) -> Option<bool>
    ensures { MakesStep near stores rerun.old rerun.new result }
{
    if !near {
        return make_any(rerun, false);
    }
    match stores {
        Some(span) => make_storing(rerun, was, span),
        None => make_any(rerun, true),
    }
}
