//! The trace of a run.

ghost use Rattle.std.specs.Prelude.{◌≡◌, ◌++◌, ◌&&◌, [], true, false, IfOk, if◌then◌else◌};
ghost use Rattle.a2_stream.specs.Stream.{SendsOrBreaks};
ghost use Rattle.a2_bus.specs.View.{memory_of};
ghost use Rattle.a2_effect.specs.View.{registers_of};
ghost use Rattle.a2_machine.specs.Output.{register_line};
ghost use Rattle.a2_machine.specs.State.{world_of_state};
ghost use Rattle.a2_run.specs.Answers.{Answers, is_read_fault};
ghost use Rattle.a2_timed_keys.specs.Rerun.{worlds_of, end_of};
ghost use Rattle.a2_trace.specs.Bytes as bytes;
ghost use Rattle.a2_trace.specs.Trace as trace;
ghost use Rattle.a2_trace.specs.Trace.{IsTraceOf};
ghost use Rattle.a2_trace.specs.Traced.{left_after, lines_of};

use crate::choice::{Choice, byte_at, is_near, make_step};
use crate::front::{BLANK, Front, Fronts};
use crate::line::{Line, fields};
use a2_machine::{Machine, write_cause};
use a2_run::RunFault;
use a2_stream::{Output, WriteFault, put};
use a2_timed_keys::{Ended, Rerun};
use std::alloc::{AllocError, Allocator};

// Returns the bytes of the instruction at an address, if there is one.
fn bytes_at<A: Allocator + Copy>(machine: &Machine<A>, address: u16) -> [u8; 3]
    ensures { result ≡ bytes.bytes_at (memory_of machine.now.state.bus) address }
{
    [
        byte_at(machine, address),
        byte_at(machine, address.wrapping_add(1)),
        byte_at(machine, address.wrapping_add(2)),
    ]
}

// Spells the line of a step: what was at PC before it, and the registers after it.
#[tactic(auto, unfolding(a2_machine::specs::Output::line_of_digits))]
#[inline(always)]
fn spell<A: Allocator + Copy>(line: &mut Line, front: &Front, machine: &Machine<A>)
    requires { line.old ≡ [] }
    ensures { let s = machine.now.state in
        line.new ≡ front.now ++ register_line (registers_of s.regs) s.steps s.cycles }
{
    line.put(b'\n');
    line.put_number(machine.cycles());
    line.put_text(b" CYCLES=");
    line.put_number(machine.steps());
    line.put_text(&fields(machine.regs()));
    line.put_text(front);
}

// Returns the front of the next step's line, if that may be shown.
fn front_where<'a, A: Allocator + Copy>(
    near: bool,
    late: bool,
    fronts: &'a mut Fronts,
    machine: &Machine<A>,
) -> &'a Front
    ensures { near ≡ true → late ≡ true → result.now ≡ trace.padded (trace.at_pc (world_of_state machine.now.state)) }
{
    if near && late {
        let pc = machine.regs().pc;
        fronts.front(pc, bytes_at(machine, pc))
    } else {
        &BLANK
    }
}

// Writes the line of a step, if it is shown.
fn put_where<A: Allocator + Copy, W: Output>(
    chosen: bool,
    late: bool,
    front: &Front,
    machine: &Machine<A>,
    writer: &mut W,
) -> Result<(), WriteFault>
    ensures { let s = machine.now.state in
        SendsOrBreaks (W.taker writer.old) (W.taker writer.new) result
        (if chosen && late then front.now ++ register_line (registers_of s.regs) s.steps s.cycles else []) }
{
    if chosen && late {
        let mut line = Line::new();
        spell(&mut line, front, machine);
        put(line.as_slice(), writer)
    } else {
        Ok(())
    }
}

// Executes the rest of a run. Returns how many of its steps are chosen. `was` is any machine.
fn count_rest<A: Allocator + Copy>(
    ended: &Ended<'_, A>,
    rerun: &mut Rerun<'_, '_, A>,
    was: &mut Machine<A>,
    choice: &Choice,
) -> u64
    requires run { rerun.old.run ≡ ended.now }
    requires none { trace.count_chosen choice.now (worlds_of ended.now) rerun.old.steps ≡ 0 }
    ensures { result ≡ trace.count_chosen choice.now (worlds_of ended.now) (end_of ended.now).steps }
{
    // For the prover alone: so many steps can be counted.
    let _ = ended.machine().steps();
    let mut count = 0;
    loop {
        let near = is_near(choice, rerun.machine());
        match make_step(rerun, was, near, choice.stores) {
            Some(chosen) => count += u64::from(chosen),
            None => return count,
        }
    }
}

// Returns how many steps of a run are chosen.
fn count_chosen<A: Allocator + Copy>(
    alloc: A,
    ended: &Ended<'_, A>,
    choice: &Choice,
) -> Result<u64, AllocError>
    ensures { IfOk result (λ count. count ≡ trace.count_chosen choice.now (worlds_of ended.now) (end_of ended.now).steps) }
{
    let first = choice.before_first();
    if choice.is_by_number() {
        return Ok(ended.machine().steps().saturating_sub(u64::from(first)));
    }
    let mut rerun = ended.again(alloc, first)?;
    let mut was = Machine::for_copies(alloc)?;
    Ok(count_rest(ended, &mut rerun, &mut was, choice))
}

// Returns how many chosen steps of a run are left out, so that no more are shown than asked for.
fn skipped<A: Allocator + Copy>(
    alloc: A,
    ended: &Ended<'_, A>,
    choice: &Choice,
) -> Result<u64, AllocError>
    ensures { IfOk result (λ skip. skip ≡ trace.skipped choice.now (worlds_of ended.now) (end_of ended.now).steps) }
{
    let Some(last) = choice.last else {
        return Ok(0);
    };
    Ok(count_chosen(alloc, ended, choice)?.saturating_sub(u64::from(last)))
}

// Returns a run after so many of its steps that none of them is shown, with how many of the chosen ones after them are left out.
fn begun<'e, 'a, A: Allocator + Copy>(
    alloc: A,
    ended: &'e Ended<'a, A>,
    choice: &Choice,
) -> Result<(Rerun<'e, 'a, A>, u64), AllocError>
    ensures run { IfOk result (λ (rerun, _). rerun.run ≡ ended.now) }
    ensures none { IfOk result (λ (rerun, _). lines_of choice.now ended.now rerun.steps ≡ []) }
    ensures left { IfOk result (λ (rerun, left). left ≡ left_after choice.now ended.now rerun.steps) }
{
    let skip = skipped(alloc, ended, choice)?;
    let first = choice.before_first();
    if choice.is_by_number() {
        // As many are chosen after the first ones as are executed.
        let begin = first.saturating_add(u32::try_from(skip).unwrap_or(u32::MAX));
        let rerun = ended.again(alloc, begin)?;
        let chosen = rerun.machine().steps().saturating_sub(u64::from(first));
        return Ok((rerun, skip.saturating_sub(chosen)));
    }
    Ok((ended.again(alloc, first)?, skip))
}

// Executes the rest of a run, and writes a line for each step that is chosen, except the first `left`. `was` is any machine.
fn trace_rest<A: Allocator + Copy, W: Output>(
    rerun: &mut Rerun<'_, '_, A>,
    was: &mut Machine<A>,
    choice: &Choice,
    left: u64,
    writer: &mut W,
) -> Result<(), WriteFault>
    requires none { lines_of choice.now rerun.old.run rerun.old.steps ≡ [] }
    requires left { left ≡ left_after choice.now rerun.old.run rerun.old.steps }
    ensures { SendsOrBreaks (W.taker writer.old) (W.taker writer.new) result
        (lines_of choice.now rerun.old.run (end_of rerun.old.run).steps) }
{
    let mut fronts = Fronts::new();
    let mut left = left;
    loop {
        let machine = rerun.machine();
        let near = is_near(choice, machine);
        let late = left == 0;
        let front = front_where(near, late, &mut fronts, machine);
        let Some(chosen) = make_step(rerun, was, near, choice.stores) else {
            return Ok(());
        };
        put_where(chosen, late, front, rerun.machine(), writer)?;
        left = left.saturating_sub(u64::from(chosen));
    }
}

/// Writes the trace of a run: for each chosen step what is at PC, as in a listing, and the register line after the step; then the cause
/// line. No line is kept. The steps before the first that may be shown are not executed one by one; but if only the last ones are asked
/// for of those at some place, the steps are executed twice. Fails if a write fails, or if there is not enough memory. This project's
/// profile.
pub fn trace_source<A: Allocator + Copy, W: Output>(
    alloc: A,
    ended: &Ended<'_, A>,
    choice: &Choice,
    writer: &mut W,
) -> Result<(), RunFault>
    ensures meaning { Answers (λ _. ⊥) (λ _. IsTraceOf choice.now ended.now) (W.taker writer.old) (W.taker writer.new) result }
    ensures no_reader { is_read_fault result ≡ false }
{
    let (mut rerun, left) = begun(alloc, ended, choice)?;
    let mut was = Machine::for_copies(alloc)?;
    trace_rest(&mut rerun, &mut was, choice, left, writer)?;
    write_cause(ended.cause(), writer)?;
    Ok(())
}
