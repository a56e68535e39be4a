//! Why a run stopped, in words.

use crate::circle::report_circle;
use crate::off::{ending_of, report_off};
use crate::overrun::report_overrun;
use crate::past::{NEAR, Past, WIDE};
use crate::returned::put_return;
use crate::rounds::{report_round, report_wait};
use crate::stack::returns_of;
use crate::step::Step;
use crate::window::report_window;
use a2_cpu::writes;
use a2_hex::RAM_END;
use a2_machine::{Cause, Machine};
use a2_opcode::Mnemonic;
use a2_run::{AssembledText, RunFault};
use a2_services::{Needs, row_of, service_at};
use a2_stream::{Output, WriteFault, put};
use a2_symbols::{Scene, put_address, put_number, put_place, put_stop};
use a2_text::cut;
use a2_timed_keys::Ended;
use std::alloc::Allocator;

// What to do about a store into code, by an instruction, by a push or by a service.
const CODE_STORES: &[u8] =
    b"a2lab: store into a separate DFB or DS; a program that changes its own code needs --free\n";

const CODE_PUSHES: &[u8] = b"a2lab: the stack is at $0100 to $01FF; put no code there\n";

const SERVICE_STORES: &[u8] =
    b"a2lab: that service stores at $24 to $29 and $0400 to $07FF (the screen), GETLN also at $0200; put no code there\n";

// Where a BRK comes from that is not in the source.
const BLANK_BRK: &[u8] =
    b"a2lab: the source has no BRK there; a byte 0 is a BRK, and most of memory is 0 at the start\n";

const STORED_BRK: &[u8] =
    b" stored 0 there, and a byte 0 is a BRK; without --free, a run stops before such a store\n";

// Writes which line of the source ran last.
fn put_last<A: Allocator + Copy, W: Output>(
    scene: &Scene<A>,
    step: Step,
    writer: &mut W,
) -> Result<(), WriteFault> {
    put(b"a2lab: the last line that ran was ", writer)?;
    put_place(scene, step.regs.pc, writer)?;
    put(b", in step ", writer)?;
    put_number(step.before.saturating_add(1), writer)?;
    put(b"\n", writer)
}

// Writes which code the next instruction would overwrite, if it is at this address.
fn put_code_store<A: Allocator + Copy, W: Output>(
    scene: &Scene<A>,
    address: u16,
    writer: &mut W,
) -> Result<(), WriteFault> {
    if !scene.program.is_code(address) {
        return Ok(());
    }
    put(b"a2lab: it would store at ", writer)?;
    put_address(address, writer)?;
    put(b", into ", writer)?;
    put_place(scene, address, writer)?;
    put(b"\n", writer)?;
    let [_, page] = address.to_le_bytes();
    put(if page == 1 { CODE_PUSHES } else { CODE_STORES }, writer)
}

// Writes which code the next instruction or service would overwrite.
fn put_code_write<A: Allocator + Copy, W: Output>(
    scene: &Scene<A>,
    machine: &Machine<A>,
    writer: &mut W,
) -> Result<(), WriteFault> {
    if machine.regs().pc >= RAM_END {
        return put(SERVICE_STORES, writer);
    }
    let addresses = writes(&machine.regs(), machine.space());
    for address in addresses.as_slice() {
        put_code_store(scene, *address, writer)?;
    }
    Ok(())
}

// Returns whether the service at an address needs a whole line of keys.
fn needs_line(pc: u16) -> bool {
    match service_at(pc) {
        Some(service) => matches!(row_of(service).needs, Needs::Line),
        None => false,
    }
}

// Writes which line waits for a key.
fn put_keys<A: Allocator + Copy, W: Output>(
    scene: &Scene<A>,
    step: Step,
    pc: u16,
    writer: &mut W,
) -> Result<(), WriteFault> {
    let waits: &[u8] = if needs_line(pc) {
        b"a2lab: it waits for keys up to RETURN, which is \\r, in "
    } else {
        b"a2lab: it waits for a key in "
    };
    put(waits, writer)?;
    put_place(scene, step.regs.pc, writer)?;
    put(b": use --keys, --keys-at, or a2lab play\n", writer)
}

// Writes which line of the source was the last before a stop, and how to fix it.
fn report_way<A: Allocator + Copy, W: Output>(
    scene: &Scene<A>,
    past: &mut Past<'_, '_, A>,
    writer: &mut W,
) -> Result<(), RunFault> {
    let (cause, machine) = (past.ended().cause(), past.ended().machine());
    let ending = ending_of(scene.program, past.steps());
    if let Some(ending) = ending {
        if matches!(cause, Cause::Keys) {
            let pc = machine.regs().pc;
            return Ok(put_keys(scene, ending.of_source, pc, writer)?);
        }
        put_last(scene, ending.of_source, writer)?;
    }
    match (cause, ending) {
        (Cause::OffStatement | Cause::Rom | Cause::Opcode, Some(ending)) => {
            report_off(scene, past, ending, writer)
        }
        (Cause::CodeWrite, _) => Ok(put_code_write(scene, machine, writer)?),
        (Cause::Window, _) => report_window(scene, past, writer),
        _ => Ok(()),
    }
}

// Writes which RTS pulled too much or too little, or which calls are in a circle. Returns whether the examined steps show one.
fn report_stack<A: Allocator + Copy, W: Output>(
    scene: &Scene<A>,
    past: &Past<'_, '_, A>,
    writer: &mut W,
) -> Result<bool, RunFault> {
    if let Some(astray) = returns_of(past)?.astray {
        put_return(scene, &astray, writer)?;
        return Ok(true);
    }
    report_circle(scene, past, writer)
}

// Returns whether steps called routines or returned from them.
fn has_calls(steps: &[Step]) -> bool {
    steps
        .iter()
        .any(|it| it.is(Mnemonic::Jsr) || it.is(Mnemonic::Rts))
}

// Writes why a run reached its limit: an RTS that pulled too much or too little, calls in a circle, or a loop. A loop without calls is
// explained by its own steps.
fn report_limit<A: Allocator + Copy, W: Output>(
    scene: &Scene<A>,
    past: &mut Past<'_, '_, A>,
    writer: &mut W,
) -> Result<(), RunFault> {
    if has_calls(past.steps()) {
        if report_stack(scene, past, writer)? {
            return Ok(());
        }
        if past.look_farther()? && report_stack(scene, past, writer)? {
            return Ok(());
        }
    }
    report_round(scene, past, writer)
}

// Writes that the BRK at which a run stopped overwrote a line of the source, and which line stored it, as far as the examined steps show.
fn report_stored_brk<A: Allocator + Copy, W: Output>(
    scene: &Scene<A>,
    past: &mut Past<'_, '_, A>,
    pc: u16,
    writer: &mut W,
) -> Result<(), RunFault> {
    past.look_for_stores(&[pc])?;
    put(b"a2lab: ", writer)?;
    match past.last_store(pc) {
        Some(step) => put_place(scene, step.regs.pc, writer)?,
        None => put(b"the program", writer)?,
    }
    Ok(put(STORED_BRK, writer)?)
}

// Writes how a run came to a BRK that is not in the source, as a free run can.
fn report_brk<A: Allocator + Copy, W: Output>(
    alloc: A,
    scene: &Scene<A>,
    ended: &Ended<'_, A>,
    writer: &mut W,
) -> Result<(), RunFault> {
    let pc = ended.machine().regs().pc;
    let written = scene.program.instr_at(pc);
    if let Some(instr) = written {
        if instr.mnemonic == Mnemonic::Brk {
            return Ok(());
        }
    }
    put_stop(scene, pc, Cause::Brk, writer)?;
    let mut past = Past::of(alloc, ended, NEAR)?;
    if written.is_some() {
        return report_stored_brk(scene, &mut past, pc, writer);
    }
    put(BLANK_BRK, writer)?;
    let Some(ending) = ending_of(scene.program, past.steps()) else {
        return Ok(());
    };
    put_last(scene, ending.of_source, writer)?;
    report_off(scene, &mut past, ending, writer)
}

// Writes why a run stopped.
fn explain<A: Allocator + Copy, W: Output>(
    alloc: A,
    scene: &Scene<A>,
    ended: &Ended<'_, A>,
    writer: &mut W,
) -> Result<(), RunFault> {
    let cause = ended.cause();
    if matches!(cause, Cause::Returned) {
        return report_overrun(alloc, scene, ended, writer);
    }
    if matches!(cause, Cause::Brk) {
        return report_brk(alloc, scene, ended, writer);
    }
    put_stop(scene, ended.machine().regs().pc, cause, writer)?;
    if matches!(cause, Cause::Limit) {
        return report_limit(scene, &mut Past::of(alloc, ended, WIDE)?, writer);
    }
    report_way(scene, &mut Past::of(alloc, ended, NEAR)?, writer)
}

/// Writes why the run of a source stopped, in lines that begin with `a2lab: `: the cause, what is at PC, the last line that ran, and
/// how to fix it. If an RTS, a hook, the window or a block is wrong, it says which lines pushed, pulled or stored the bytes, as far as
/// the last 65,536 steps show. At the limit it says which lines call one another in a circle, or which loop the last 4,096 steps were
/// in, how its branches did not leave it, and which bytes it changed. Of a BRK that is not in the source it says how the run came there, or
/// which line stored it. Nothing is written of a run that ends by a BRK of the source, or by RETURNED, unless an RTS ended the program in a
/// routine into which it ran on. `ended` is a run of this source. Fails if a write fails, or if there is not enough memory. This project's
/// profile.
pub fn explain_stop<A: Allocator + Copy, W: Output>(
    alloc: A,
    assembled: &AssembledText<'_, A>,
    ended: &Ended<'_, A>,
    writer: &mut W,
) -> Result<(), RunFault> {
    let lines = cut(alloc, assembled.text())?;
    let scene = Scene {
        program: assembled.program(),
        lines: lines.as_slice(),
    };
    explain(alloc, &scene, ended, writer)
}

/// Writes the line of [`explain_stop`] that says where a run waits for a key, if the run of a source stopped because no key was there, or
/// if it reached its limit in a loop that waits for a key; otherwise nothing. `ended` is a run of this source. Fails if a write fails, or
/// if there is not enough memory. This project's profile.
pub fn explain_wait<A: Allocator + Copy, W: Output>(
    alloc: A,
    assembled: &AssembledText<'_, A>,
    ended: &Ended<'_, A>,
    writer: &mut W,
) -> Result<(), RunFault> {
    let lines = cut(alloc, assembled.text())?;
    let scene = Scene {
        program: assembled.program(),
        lines: lines.as_slice(),
    };
    match ended.cause() {
        Cause::Limit => report_wait(&scene, &Past::of(alloc, ended, WIDE)?, writer),
        Cause::Keys => report_way(&scene, &mut Past::of(alloc, ended, NEAR)?, writer),
        _ => Ok(()),
    }
}
