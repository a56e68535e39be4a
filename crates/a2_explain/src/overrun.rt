//! A program that runs on into one of its routines, whose RTS then ends it.

use crate::past::{Past, WIDE};
use crate::step::Step;
use a2_asm::{Program, Statement};
use a2_hex::RAM_END;
use a2_opcode::Mnemonic;
use a2_run::RunFault;
use a2_stream::{Output, WriteFault, put};
use a2_symbols::{Scene, put_place};
use a2_timed_keys::Ended;
use std::alloc::{AllocError, Allocator};

// How many addresses there are.
const ADDRESSES: usize = 65_536;

// A main program that ran on into a routine: the addresses of the instruction before the routine, of its first one, and of the RTS.
#[derive(Clone, Copy)]
struct Overrun {
    before: u16,
    routine: u16,
    end: u16,
}

// The addresses to which the JSRs of a program lead.
#[derive(Drop)]
struct Routines<A: Allocator> {
    marks: Vec<bool, A>,
}

// Returns the routine that the instruction of a statement calls.
fn called_by(statement: &Statement) -> Option<u16> {
    let instr = statement.instr?;
    if instr.mnemonic == Mnemonic::Jsr {
        Some(instr.value)
    } else {
        None
    }
}

// Returns the address to which a program can run on after a statement.
fn next_after(statement: &Statement) -> Option<u16> {
    match statement.instr?.mnemonic {
        Mnemonic::Jmp | Mnemonic::Rts | Mnemonic::Rti | Mnemonic::Brk => None,
        _ => Some(statement.addr.wrapping_add(statement.length)),
    }
}

impl<A: Allocator + Copy> Routines<A> {
    // Returns the routines of a program. Fails only if there is not enough memory.
    fn of(alloc: A, program: &Program<A>) -> Result<Routines<A>, AllocError> {
        let mut marks = Vec::from_elem(alloc, false, ADDRESSES)?;
        for statement in program.statements() {
            if let Some(routine) = called_by(statement) {
                if let Some(mark) = marks.get_mut(usize::from(routine)) {
                    *mark = true;
                }
            }
        }
        Ok(Routines { marks })
    }

    // Returns whether a routine begins at an address.
    fn has(&self, address: u16) -> bool {
        match self.marks.get(usize::from(address)) {
            Some(mark) => *mark,
            None => false,
        }
    }

    // Returns whether the lines before a routine can run on into it.
    fn can_be_run_into(&self, program: &Program<A>) -> bool {
        for statement in program.statements() {
            if let Some(next) = next_after(statement) {
                if self.has(next) {
                    return true;
                }
            }
        }
        false
    }
}

// Returns whether a step belongs to the main program: nothing is on the stack but the last return address.
fn is_main(step: &Step, start: u8) -> bool {
    step.regs.s == start && step.regs.pc < RAM_END
}

// Returns whether a step at `pc` follows another one in the order of the source, and not by JMP.
fn follows(last: &Step, pc: u16) -> bool {
    last.end() == Some(pc) && !last.is(Mnemonic::Jmp)
}

// Returns the last step of the main program.
fn last_main(steps: &[Step], start: u8) -> Option<Step> {
    for step in steps.iter().rev() {
        if is_main(step, start) {
            return Some(*step);
        }
    }
    None
}

// Returns how the examined steps of a run that returned ran on into a routine, if they did and the RTS of that routine ended the run.
// `start` is S before that.
fn overrun_in<A: Allocator + Copy>(
    steps: &[Step],
    routines: &Routines<A>,
    start: u8,
) -> Option<Overrun> {
    let last = last_main(steps, start)?;
    if !last.is(Mnemonic::Rts) {
        return None;
    }
    let mut later = last.regs.pc;
    for step in steps.iter().rev() {
        if !is_main(step, start) {
            continue;
        }
        if follows(step, later) && routines.has(later) {
            return Some(Overrun {
                before: step.regs.pc,
                routine: later,
                end: last.regs.pc,
            });
        }
        later = step.regs.pc;
    }
    None
}

// Writes where a program ran on into a routine.
fn put_overrun<A: Allocator + Copy, W: Output>(
    scene: &Scene<A>,
    overrun: Overrun,
    writer: &mut W,
) -> Result<(), WriteFault> {
    put(b"a2lab: the program continued from ", writer)?;
    put_place(scene, overrun.before, writer)?;
    put(b" into ", writer)?;
    put_place(scene, overrun.routine, writer)?;
    put(b", a routine that JSR calls, and ended with ", writer)?;
    put_place(scene, overrun.end, writer)?;
    put(
        b"\na2lab: if it should end before the routine, add RTS after ",
        writer,
    )?;
    put_place(scene, overrun.before, writer)?;
    put(b"\n", writer)
}

/// Writes where the main program of a run that returned ran on into a routine, whose RTS ended it, as far as the last 4,096 steps show.
/// Examines no step if no line can run on into a routine.
pub(crate) fn report_overrun<A: Allocator + Copy, W: Output>(
    alloc: A,
    scene: &Scene<A>,
    ended: &Ended<'_, A>,
    writer: &mut W,
) -> Result<(), RunFault> {
    let routines = Routines::of(alloc, scene.program)?;
    if !routines.can_be_run_into(scene.program) {
        return Ok(());
    }
    let past = Past::of(alloc, ended, WIDE)?;
    // The last RTS pulled two bytes.
    let start = ended.machine().regs().s.wrapping_sub(2);
    match overrun_in(past.steps(), &routines, start) {
        Some(overrun) => Ok(put_overrun(scene, overrun, writer)?),
        None => Ok(()),
    }
}
