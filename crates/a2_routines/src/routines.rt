//! Keeps the list of routines that a run has entered and not yet left.

ghost use Rattle.std.specs.Prelude.{◌≡◌, filter, IfOk};
ghost use Rattle.a2_machine.specs.State.{world_of_state};
ghost use Rattle.a2_routines.specs.Routines.{is_call as is_call_of, is_within as is_within_of, with_call};

use a2_machine::Machine;
use std::alloc::{AllocError, Allocator};

// JSR's opcode.
const JSR: u8 = 0x20;

/// A routine that was entered by a JSR.
#[derive(Clone, Copy, Debug, PartialEq, Eq)]
pub struct Entry {
    /// The position of the JSR: the number of steps executed before it.
    pub position: u64,
    /// The address of the JSR.
    pub call: u16,
    /// The stack pointer before the JSR.
    pub s: u8,
}

/// Returns whether a machine's next step is a JSR.
pub fn is_call<A: Allocator>(machine: &Machine<A>) -> bool
    ensures { result ≡ is_call_of (world_of_state machine.now.state) }
{
    match machine.peek(machine.regs().pc) {
        Some(byte) => byte == JSR,
        None => false,
    }
}

/// Adds the routine that the next step of `machine` enters to `entries`, if that step is a JSR. Fails only if memory
/// is short.
pub fn enter<A: Allocator, M: Allocator>(
    entries: &mut Vec<Entry, A>,
    machine: &Machine<M>,
) -> Result<(), AllocError>
    ensures { IfOk result (λ _. entries.new.items ≡ with_call machine.now.state.steps
        (world_of_state machine.now.state) entries.old.items) }
{
    if is_call(machine) {
        let regs = machine.regs();
        entries.push(Entry {
            position: machine.steps(),
            call: regs.pc,
            s: regs.s,
        })?;
    }
    Ok(())
}

/// Removes the routines that the last step of `machine` left from `entries`.
pub fn leave<A: Allocator, M: Allocator>(entries: &mut Vec<Entry, A>, machine: &Machine<M>)
    ensures { entries.new.items ≡ filter (is_within_of (world_of_state machine.now.state)) entries.old.items }
{
    let s = machine.regs().s;
    entries.retain(|entry| s < entry.s);
}
