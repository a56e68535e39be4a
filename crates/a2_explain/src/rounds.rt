//! A run that stays in a loop of few addresses.

use crate::changes::{changes_in, put_changes};
use crate::hook::{hook_at, report_hook};
use crate::lines::put_lines;
use crate::past::{Past, WIDE};
use crate::places::{Place, is_among, place_at, places_of};
use a2_asm::Statement;
use a2_bus::locations::KBD;
use a2_machine::Machine;
use a2_opcode::{Mnemonic, Mode};
use a2_run::RunFault;
use a2_stream::{Output, WriteFault, put};
use a2_symbols::{Scene, put_number, put_place, statement_at};
use std::alloc::Allocator;

// Returns whether the instruction of a statement reads the keyboard, perhaps with an index, which is then most likely 0.
fn looks_for_key(statement: &Statement) -> bool {
    match statement.instr {
        Some(instr) => {
            matches!(
                instr.mode,
                Mode::Absolute | Mode::AbsoluteX | Mode::AbsoluteY
            ) && instr.value == KBD
                && !matches!(
                    instr.mnemonic,
                    Mnemonic::Sta | Mnemonic::Stx | Mnemonic::Sty
                )
        }
        None => false,
    }
}

// Where a branch of a loop goes.
#[derive(Clone, Copy, PartialEq, Eq)]
enum Way {
    // It is not a branch, or it stays in the loop.
    Stays,
    // It would leave the loop if it branched.
    LeavesByBranch,
    // It would leave the loop if it did not branch.
    LeavesByNext,
}

// Returns where the branch of a statement goes.
fn way_of(statement: &Statement, places: &[Place]) -> Way {
    let Some(instr) = statement.instr else {
        return Way::Stays;
    };
    let next = statement.addr.wrapping_add(statement.length);
    if instr.mode != Mode::Relative || place_at(places, statement.addr).is_none() {
        Way::Stays
    } else if place_at(places, instr.value).is_none() {
        Way::LeavesByBranch
    } else if place_at(places, next).is_none() {
        Way::LeavesByNext
    } else {
        Way::Stays
    }
}

// Writes whether A, X and Y changed at a place of a loop.
fn put_change<W: Output>(place: Place, writer: &mut W) -> Result<(), WriteFault> {
    let change: &[u8] = match (place.is_a_same, place.is_x_same, place.is_y_same) {
        (true, true, true) => b"A, X and Y were the same each time",
        (false, true, true) => b"A differed, X and Y were the same each time",
        (true, false, true) => b"X differed, A and Y were the same each time",
        (true, true, false) => b"Y differed, A and X were the same each time",
        (false, false, true) => b"A and X differed, Y was the same each time",
        (false, true, false) => b"A and Y differed, X was the same each time",
        (true, false, false) => b"X and Y differed, A was the same each time",
        (false, false, false) => b"A, X and Y differed",
    };
    put(change, writer)
}

// Writes how a branch that would leave a loop did not leave it.
fn put_exit<A: Allocator + Copy, W: Output>(
    scene: &Scene<A>,
    place: Place,
    way: Way,
    writer: &mut W,
) -> Result<(), WriteFault> {
    put(b"a2lab: ", writer)?;
    put_place(scene, place.pc, writer)?;
    put(
        match way {
            Way::LeavesByBranch => b" never branched",
            _ => b" branched each time",
        },
        writer,
    )?;
    if let Some(before) = place.before {
        put(b", after ", writer)?;
        put_place(scene, before, writer)?;
    }
    put(b"; ", writer)?;
    put_change(place, writer)?;
    put(b"\n", writer)
}

// Writes how each branch that would leave a loop did not leave it. Returns whether there is one.
fn put_exits<A: Allocator + Copy, W: Output>(
    scene: &Scene<A>,
    places: &[Place],
    writer: &mut W,
) -> Result<bool, WriteFault> {
    let mut has_exit = false;
    for statement in scene.program.statements() {
        let way = way_of(statement, places);
        if way == Way::Stays {
            continue;
        }
        if let Some(place) = place_at(places, statement.addr) {
            put_exit(scene, place, way, writer)?;
            has_exit = true;
        }
    }
    Ok(has_exit)
}

// Returns whether a statement is a JMP to itself.
fn is_own_jump(statement: &Statement) -> bool {
    match statement.instr {
        Some(instr) => {
            instr.mnemonic == Mnemonic::Jmp
                && instr.mode == Mode::Absolute
                && instr.value == statement.addr
        }
        None => false,
    }
}

// Writes which lines a loop has, which branches would leave it, and which bytes it changed.
fn put_loop<A: Allocator + Copy, W: Output>(
    scene: &Scene<A>,
    places: &[Place],
    changes: &[u16],
    writer: &mut W,
) -> Result<(), WriteFault> {
    put(b"a2lab: the last ", writer)?;
    put_number(u64::from(WIDE), writer)?;
    put(b" steps were all in ", writer)?;
    put_lines(scene, places, writer)?;
    put(b"\n", writer)?;
    let has_exit = put_exits(scene, places, writer)?;
    put_changes(scene, changes, writer)?;
    if has_exit {
        return put(
            b"a2lab: change in the loop what its branch tests; if it only needs more steps, raise --limit\n",
            writer,
        );
    }
    put(
        b"a2lab: no branch leads out of these lines: add one that leaves the loop\n",
        writer,
    )
}

// Writes that a line jumps to itself.
fn put_own_jump<A: Allocator + Copy, W: Output>(
    scene: &Scene<A>,
    pc: u16,
    writer: &mut W,
) -> Result<(), WriteFault> {
    put(b"a2lab: ", writer)?;
    put_place(scene, pc, writer)?;
    put(
        b" jumps to itself, so the program never ends; to end it, write RTS\n",
        writer,
    )
}

// Writes which lines wait for a key.
fn put_wait<A: Allocator + Copy, W: Output>(
    scene: &Scene<A>,
    places: &[Place],
    writer: &mut W,
) -> Result<(), WriteFault> {
    put(b"a2lab: it waits for a key in ", writer)?;
    put_lines(scene, places, writer)?;
    put(b": use --keys, --keys-at, or a2lab play\n", writer)
}

// Returns whether a loop waits for a key: it reads the keyboard, no key is there, and a branch leads out.
fn is_waiting<A: Allocator + Copy>(
    scene: &Scene<A>,
    machine: &Machine<A>,
    places: &[Place],
) -> bool {
    let statements = scene.program.statements();
    let reads = statements
        .iter()
        .any(|it| is_among(it, places) && looks_for_key(it));
    let leaves = statements.iter().any(|it| way_of(it, places) != Way::Stays);
    reads && leaves && machine.space().waiting().is_empty()
}

// Writes what is known of a loop with lines of the source.
fn put_round<A: Allocator + Copy, W: Output>(
    scene: &Scene<A>,
    machine: &Machine<A>,
    places: &[Place],
    changes: &[u16],
    writer: &mut W,
) -> Result<(), WriteFault> {
    let statements = scene.program.statements();
    if is_waiting(scene, machine, places) {
        return put_wait(scene, places, writer);
    }
    if let [place] = places {
        let is_own = match statement_at(statements, place.pc) {
            Some(statement) => is_own_jump(&statement),
            None => false,
        };
        if is_own {
            return put_own_jump(scene, place.pc, writer);
        }
    }
    put_loop(scene, places, changes, writer)
}

/// Writes which lines wait for a key, if the last 4,096 steps of a run were in a loop that waits for one.
pub(crate) fn report_wait<A: Allocator + Copy, W: Output>(
    scene: &Scene<A>,
    past: &Past<'_, '_, A>,
    writer: &mut W,
) -> Result<(), RunFault> {
    let (machine, places) = (past.ended().machine(), places_of(past)?);
    let places = places.as_slice();
    if is_waiting(scene, machine, places) {
        put_wait(scene, places, writer)?;
    }
    Ok(())
}

/// Writes which lines the loop has in which the last 4,096 steps of a run were, if they began at 64 addresses or fewer, how its
/// branches did not leave it, and which bytes it changed. If the loop is a hook that leads to itself, writes what stored the hook.
pub(crate) fn report_round<A: Allocator + Copy, W: Output>(
    scene: &Scene<A>,
    past: &mut Past<'_, '_, A>,
    writer: &mut W,
) -> Result<(), RunFault> {
    let (machine, places) = (past.ended().machine(), places_of(past)?);
    let places = places.as_slice();
    let statements = scene.program.statements();
    if statements.iter().any(|it| is_among(it, places)) {
        let changes = changes_in(past)?;
        return Ok(put_round(scene, machine, places, changes.as_slice(), writer)?);
    }
    match (places, hook_at(machine.regs().pc)) {
        ([_, ..], Some(hook)) => report_hook(scene, past, hook, writer),
        _ => Ok(()),
    }
}
