//! Decides whether a promise is kept in every state of its inputs, and so in every world.

ghost use Rattle.std.specs.Prelude.{◌≡◌, ◌||◌, ◌&&◌, not, ◌<◌, ℕ, [], is_some, IsTrue, IfOk};
ghost use Rattle.std.specs.List.{list_all, list_any};
ghost use Rattle.a2_hex.specs.Images.{held};
ghost use Rattle.a2_bus.specs.Memory.{ram_end};
ghost use Rattle.a2_bus.specs.PowerOn.{first_devices};
ghost use Rattle.a2_footprint.specs.declared.Part.{Part as DeclaredPart};
ghost use Rattle.a2_footprint.specs.RotatedStack.{in_stack};
ghost use Rattle.a2_promise_certify.specs.States.{has_part, holds_part, is_byte};
ghost use Rattle.a2_promise_certify.specs.Entering.{IsKeptEverywhere};
ghost use Rattle.a2_promise_certify.specs.Walking.{knows_part, no_parts};
ghost use Rattle.a2_promise_certify.specs.Certifying.{AreMarkedWhere, may_vary, IsReady, IsStateTried, start_of};

use crate::allowed::is_in_stack;
use crate::entry_states::{count_states, put_back_inputs};
use crate::input::{Input, is_named};
use crate::known_parts::KnownParts;
use crate::laws::promises_hold_everywhere;
use crate::one_state::{Setup, enter, is_tried};
use crate::settled_bytes::settle;
use crate::stored::Stored;
use crate::walk::Walk;
use a2_bus::locations::KBD;
use a2_bus::{AddressSpace, Bus};
use a2_cpu::Regs;
use a2_hex::{Image, RAM_END};
use a2_promise::Promise;
use std::alloc::{AllocError, Global};

// Returns whether the keyboard and the switches are as at the start.
fn are_devices_first(space: &mut AddressSpace<Global>) -> bool
    ensures first { IsTrue result → space.old.devices ≡ first_devices [] }
    ensures kept { space.new ≡ space.old }
{
    let switches = space.view().switches;
    if !switches.text || switches.mixed || switches.page2 || switches.hires {
        return false;
    }
    space.waiting().is_empty() && space.read(KBD) == 0
}

// Returns whether the promise is kept in the state with a given number. If so, everything is put back as it was
// before.
fn is_state_tried(
    setup: &Setup,
    number: u64,
    before: &mut AddressSpace<Global>,
    walk: &mut Walk,
    stored: &mut Stored,
) -> bool
    requires ready { IsReady setup.now.base.now setup.now.inputs.now before.old walk.old.space stored.old }
    requires devices { setup.now.base.now.devices ≡ first_devices [] }
    ensures tried { IsTrue result → IsStateTried setup.now.known.now setup.now.parts setup.now.promise.now setup.now.most
        (start_of setup.now number) }
    ensures ready { IsTrue result → IsReady setup.now.base.now setup.now.inputs.now before.new walk.new.space stored.new }
{
    if !enter(setup, number, before, walk, stored) || !is_tried(setup, before, walk, stored) {
        return false;
    }
    // No step touches a device, because none reads or stores above RAM. This test shows that to the prover.
    if !are_devices_first(&mut walk.space) {
        return false;
    }
    stored.take_back(&mut walk.space, before);
    put_back_inputs(setup.inputs, before, setup.base);
    true
}

// Returns whether the promise is kept in every state with a number below `states`.
fn are_tried(
    setup: &Setup,
    states: u64,
    before: &mut AddressSpace<Global>,
    walk: &mut Walk,
    stored: &mut Stored,
) -> bool
    requires ready { IsReady setup.now.base.now setup.now.inputs.now before.old walk.old.space stored.old }
    requires devices { setup.now.base.now.devices ≡ first_devices [] }
    ensures { IsTrue result → (number : ℕ) → number < states
        → IsStateTried setup.now.known.now setup.now.parts setup.now.promise.now setup.now.most (start_of setup.now number) }
{
    for number in 0..states {
        if !is_state_tried(setup, number, before, walk, stored) {
            return false;
        }
    }
    true
}

// Returns whether an input may be varied: it is a register, a flag, or a byte of RAM outside the stack's page.
fn is_free(input: Input) -> bool
    ensures { result ≡ may_vary input }
{
    match input {
        Input::Byte(address) => address < RAM_END && !is_in_stack(address),
        _ => true,
    }
}

// Returns whether all inputs may be varied.
fn are_free(inputs: &[Input]) -> bool
    ensures { result ≡ list_all may_vary inputs.now }
{
    inputs.iter().all(|input| is_free(*input))
}

// Returns whether the byte at an address is known at the entry. It must be an input or a byte of the program, and
// outside the stack's page.
fn is_known_at(image: &Image<Global>, inputs: &[Input], address: u16) -> bool
    ensures { result ≡ ((list_any (is_byte address) inputs.now || is_some (held image.now address)) && not (in_stack address)) }
{
    (is_named(inputs, address) || image.get(address).is_some()) && !is_in_stack(address)
}

// Returns a mark for each address of RAM, set if the byte there is known at the entry.
fn known_at(alloc: Global, image: &Image<Global>, inputs: &[Input]) -> Result<Vec<bool>, AllocError>
    ensures { IfOk result (λ known. AreMarkedWhere
        (λ a. (list_any (is_byte a) inputs.now || is_some (held image.now a)) && not (in_stack a)) known.items ram_end) }
{
    let mut known = Vec::new(alloc);
    for address in 0..RAM_END {
        known.push(is_known_at(image, inputs, address))?;
    }
    Ok(known)
}

// Marks the register or flag of an input as known.
#[tactic(auto, using(crate::proofs::Knowing::part_added, crate::proofs::Knowing::no_part_added))]
fn know(input: Input, parts: &mut KnownParts)
    ensures { (part : DeclaredPart) → knows_part parts.new part ≡ (holds_part input part || knows_part parts.old part) }
{
    match input.part() {
        Some(found) => parts.add(found),
        None => {}
    }
}

// Returns the registers and flags that are known at the entry.
#[tactic(auto, using(crate::proofs::Knowing::none_known))]
fn parts_at(inputs: &[Input]) -> KnownParts
    ensures { (part : DeclaredPart) → knows_part result part ≡ (has_part inputs.now part || knows_part no_parts part) }
{
    let mut parts = KnownParts::none();
    for input in inputs {
        know(*input, &mut parts);
    }
    parts
}

/// Returns whether a promise of a program is kept within `most` steps in every state of these inputs that meets its
/// requirements.
///
/// Neither the routine nor the promise may depend on anything else, except the program's bytes and D, which is clear.
/// The stack may be used only through S. If all this holds, the promise is kept in every world in which the routine
/// is entered in such a state, wherever S points.
///
/// If a requirement is an equation that fixes the byte of an input, as in `$20 = 0` or `word $36 = #$FDF0`, only that
/// value is tried.
///
/// The answer false is inconclusive. It is also given in these cases:
/// - a service needs a key;
/// - a window scrolls whose cells are not known;
/// - a byte is stored that the promise does not let change, even if it is put back;
/// - more than 126 bytes of the stack are used;
/// - something unknown is read, even if it is never used.
///
/// Fails only if memory is short.
pub fn holds_in_every_state(
    alloc: Global,
    image: &Image<Global>,
    promise: &Promise,
    inputs: &[Input],
    most: u32,
) -> Result<bool, AllocError>
    ensures { IfOk result (λ holds. IsTrue holds
        → IsKeptEverywhere (held image.now) promise.now inputs.now most) }
{
    promises_hold_everywhere();
    if !are_free(inputs) {
        return Ok(false);
    }
    // Only for the prover, which learns from it that a program is in RAM.
    let _first = image.get(0);
    let mut base = AddressSpace::new(alloc)?;
    base.load(image);
    let known = known_at(alloc, image, inputs)?;
    let parts = parts_at(inputs);
    let unsettled = settle(alloc, inputs, promise.wanted.as_slice(), inputs, &mut base)?;
    let free = unsettled.as_slice();
    let Some(states) = count_states(free) else {
        return Ok(false);
    };
    let setup = Setup {
        base: &base,
        known: known.as_slice(),
        parts,
        promise,
        inputs: free,
        most,
    };
    let mut before = AddressSpace::new(alloc)?;
    before.copy_from(&base);
    let mut walk = Walk {
        regs: Regs::start(promise.address),
        space: AddressSpace::new(alloc)?,
        parts,
        cycles: 0,
    };
    walk.space.copy_from(&base);
    let mut stored = Stored::new(alloc)?;
    Ok(are_tried(&setup, states, &mut before, &mut walk, &mut stored))
}
