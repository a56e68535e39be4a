//! A run that left the instructions of the source.

use crate::hook::{hook_at, report_hook};
use crate::past::{FARTHER, Past};
use crate::returned::{put_after, put_return};
use crate::stack::{Pulled, Return, Returns, returns_of};
use crate::step::Step;
use a2_asm::Program;
use a2_hex::RAM_END;
use a2_opcode::Mnemonic;
use a2_run::RunFault;
use a2_stream::{Output, WriteFault, put};
use a2_symbols::{Scene, put_address, put_place, statement_at};
use std::alloc::{AllocError, Allocator};

// What to do if a run came to an address of the Monitor at which there is no service.
const NO_SERVICE: &[u8] =
    b"a2lab: only the services that services.md in the manual lists exist there, such as COUT; write your own code for other calls\n";

const RTI: &[u8] =
    b"a2lab: RTI pulls the flags too, and returns from an interrupt; end a routine or program with RTS\n";

// The length of JSR.
const JSR_LENGTH: u16 = 3;

// How many of the last steps may include the last line: a service that is called through a hook is two steps after its call.
const LAST: u64 = 4;

/// The last steps of a run.
#[derive(Clone, Copy)]
pub(crate) struct Ending {
    /// The last step that began at a statement of the source.
    pub of_source: Step,
    /// The last step.
    pub last: Step,
}

/// Returns the last steps of a run, if one of the last four began at a statement of the source.
pub(crate) fn ending_of<A: Allocator>(program: &Program<A>, steps: &[Step]) -> Option<Ending> {
    let last = *steps.last()?;
    for step in steps.iter().rev() {
        if last.before >= LAST.saturating_add(step.before) {
            return None;
        }
        if statement_at(program.statements(), step.regs.pc).is_some() {
            return Some(Ending {
                of_source: *step,
                last,
            });
        }
    }
    None
}

// Returns whether a step ran on to an address, unless a branch was taken.
fn ran_on(step: Step, pc: u16) -> bool {
    let goes_on = !matches!(
        step.mnemonic(),
        Some(Mnemonic::Jmp | Mnemonic::Jsr | Mnemonic::Rts | Mnemonic::Rti)
    );
    goes_on && step.end() == Some(pc)
}

// Writes that a line jumped to data, into an instruction, or to where there is no line.
fn put_jump<A: Allocator + Copy, W: Output>(
    scene: &Scene<A>,
    from: u16,
    to: u16,
    writer: &mut W,
) -> Result<(), WriteFault> {
    put(b"a2lab: ", writer)?;
    put_place(scene, from, writer)?;
    put(b" went to ", writer)?;
    put_address(to, writer)?;
    let Some(statement) = statement_at(scene.program.statements(), to) else {
        return put(
            b", where the program has no line; write a label as the target\n",
            writer,
        );
    };
    let place: &[u8] = match statement.instr {
        Some(_) => b", in the middle of ",
        None => b", the data of ",
    };
    put(place, writer)?;
    put_place(scene, to, writer)?;
    put(b"; go to the label of a line with code\n", writer)
}

// Writes where the last line of a run led.
fn put_off<A: Allocator + Copy, W: Output>(
    scene: &Scene<A>,
    step: Step,
    pc: u16,
    writer: &mut W,
) -> Result<(), WriteFault> {
    if step.is(Mnemonic::Rti) {
        put(RTI, writer)
    } else if ran_on(step, pc) {
        put_after(scene, step.regs.pc, pc, writer)
    } else if pc >= RAM_END {
        put(NO_SERVICE, writer)
    } else {
        put_jump(scene, step.regs.pc, pc, writer)
    }
}

// Returns the JSR whose return address this is.
fn call_before<A: Allocator>(program: &Program<A>, address: u16) -> Option<u16> {
    let call = address.wrapping_sub(JSR_LENGTH);
    if program.instr_at(call)?.mnemonic == Mnemonic::Jsr {
        Some(call)
    } else {
        None
    }
}

// Returns an RTS with the JSR that pushed what it pulled. If that was not seen, a JSR must be before the address to which it went.
fn with_call<A: Allocator>(program: &Program<A>, it: Return) -> Return {
    match (it.pulled, call_before(program, it.step.next_pc)) {
        (Pulled::Unseen, Some(call)) => Return {
            step: it.step,
            pulled: Pulled::Call(call),
        },
        _ => it,
    }
}

// Returns whether more steps may show what an RTS pulled.
fn is_unseen(last: Option<Return>) -> bool {
    match last {
        Some(it) => matches!(it.pulled, Pulled::Unseen),
        None => false,
    }
}

// Returns what RTS pulled, from more steps if these do not show what the last one pulled.
fn returns_before_end<A: Allocator + Copy>(
    program: &Program<A>,
    past: &mut Past<'_, '_, A>,
) -> Result<Returns, AllocError> {
    let mut returns = returns_of(past)?;
    if let Some(last) = returns.last {
        returns.last = Some(with_call(program, last));
    }
    for _ in &FARTHER {
        if !is_unseen(returns.last) || !past.look_farther()? {
            break;
        }
        returns = returns_of(past)?;
    }
    Ok(returns)
}

/// Writes how a run came to where no instruction of the source begins: through a hook, by an RTS, or from its last line.
pub(crate) fn report_off<A: Allocator + Copy, W: Output>(
    scene: &Scene<A>,
    past: &mut Past<'_, '_, A>,
    ending: Ending,
    writer: &mut W,
) -> Result<(), RunFault> {
    if let Some(hook) = hook_at(ending.last.regs.pc) {
        return report_hook(scene, past, hook, writer);
    }
    let returns = returns_before_end(scene.program, past)?;
    if let Some(last) = returns.last {
        return Ok(put_return(scene, &last, writer)?);
    }
    if let Some(astray) = returns.astray {
        return Ok(put_return(scene, &astray, writer)?);
    }
    Ok(put_off(scene, ending.of_source, ending.last.next_pc, writer)?)
}
