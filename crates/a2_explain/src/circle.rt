//! Routines that are called again before they return, until the stack is full.

use crate::past::Past;
use crate::step::Step;
use a2_asm::Program;
use a2_opcode::Mnemonic;
use a2_run::RunFault;
use a2_stream::{Output, WriteFault, put};
use a2_symbols::{Scene, put_place};
use std::alloc::{AllocError, Allocator};

// Returns whether a step was a JSR that pushed past the end of the stack page.
fn is_overflow(step: &Step) -> bool {
    step.is(Mnemonic::Jsr) && step.regs.s < 2
}

// Returns the last step that filled the stack.
fn last_overflow(steps: &[Step]) -> Option<Step> {
    for step in steps.iter().rev() {
        if is_overflow(step) {
            return Some(*step);
        }
    }
    None
}

// Returns the calls of the circle that last filled the stack, the last one first: those that were not left since the last call was
// made before. There is none if it was not.
fn circle_of<A: Allocator + Copy>(alloc: A, steps: &[Step]) -> Result<Vec<u16, A>, AllocError> {
    let mut calls = Vec::new(alloc);
    let Some(last) = last_overflow(steps) else {
        return Ok(calls);
    };
    // A call was not left if S was less ever since.
    let mut greatest = last.regs.s;
    for step in steps.iter().rev() {
        if step.before >= last.before || step.regs.s <= greatest {
            continue;
        }
        greatest = step.regs.s;
        if step.is(Mnemonic::Jsr) {
            calls.push(step.regs.pc)?;
            if step.regs.pc == last.regs.pc {
                return Ok(calls);
            }
        }
    }
    calls.clear();
    Ok(calls)
}

// Returns the target of the call at an address.
fn target_of<A: Allocator + Copy>(program: &Program<A>, call: u16) -> Option<u16> {
    match program.instr_at(call) {
        Some(instr) => Some(instr.value),
        None => None,
    }
}

// Writes that a routine calls itself.
fn put_recursion<A: Allocator + Copy, W: Output>(
    scene: &Scene<A>,
    call: u16,
    writer: &mut W,
) -> Result<(), WriteFault> {
    put(b"a2lab: ", writer)?;
    put_place(scene, call, writer)?;
    put(b" calls ", writer)?;
    match target_of(scene.program, call) {
        Some(target) => put_place(scene, target, writer)?,
        None => put(b"the same routine", writer)?,
    }
    put(
        b" again before that routine returns, until the stack is full\n",
        writer,
    )
}

// Writes which lines call one another.
fn put_circle<A: Allocator + Copy, W: Output>(
    scene: &Scene<A>,
    calls: &[u16],
    writer: &mut W,
) -> Result<(), WriteFault> {
    put(
        b"a2lab: routines call one another in a circle before they return, until the stack is full:\n",
        writer,
    )?;
    for call in calls.iter().rev() {
        put(b"a2lab:   ", writer)?;
        put_place(scene, *call, writer)?;
        put(b"\n", writer)?;
    }
    Ok(())
}

/// Writes which lines called routines again before these returned, if that filled the stack in the steps that are examined. Returns
/// whether it did.
pub(crate) fn report_circle<A: Allocator + Copy, W: Output>(
    scene: &Scene<A>,
    past: &Past<'_, '_, A>,
    writer: &mut W,
) -> Result<bool, RunFault> {
    let calls = circle_of(past.alloc(), past.steps())?;
    match calls.as_slice() {
        [] => return Ok(false),
        [call] => put_recursion(scene, *call, writer)?,
        several => put_circle(scene, several, writer)?,
    }
    put(
        b"a2lab: to repeat, use JMP or a branch; a routine that calls itself needs a branch that skips the JSR\n",
        writer,
    )?;
    Ok(true)
}
