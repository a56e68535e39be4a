//! Where a program ended up after its last line, or after an RTS, and how to fix it.

use crate::stack::{Pulled, Return};
use a2_stream::{Output, WriteFault, put};
use a2_symbols::{Scene, put_address, put_place, statement_at};
use std::alloc::Allocator;

// What to do if an RTS pulled what is not a return address.
const LEVEL: &[u8] = b"a2lab: pull only what PHA or PHP pushed since the last JSR\n";

const ELSEWHERE: &[u8] =
    b"a2lab: S did not point to a return address; restore S before RTS, or end with JMP $FF69; the return address of the program is at $01FE\n";

const UNSEEN: &[u8] =
    b"a2lab: the last 65536 steps do not show what pushed the bytes that it pulled\n";

// Writes texts around the place of an address.
fn put_around<A: Allocator + Copy, W: Output>(
    scene: &Scene<A>,
    before: &[u8],
    address: u16,
    after: &[u8],
    writer: &mut W,
) -> Result<(), WriteFault> {
    put(before, writer)?;
    put_place(scene, address, writer)?;
    put(after, writer)
}

/// Writes that the program continued after the line of an address, at another address, where no instruction begins.
pub(crate) fn put_after<A: Allocator + Copy, W: Output>(
    scene: &Scene<A>,
    line: u16,
    next: u16,
    writer: &mut W,
) -> Result<(), WriteFault> {
    let statements = scene.program.statements();
    if statement_at(statements, next).is_some() {
        return put_around(
            scene,
            b"a2lab: ",
            next,
            b" is data; end the code before it with RTS or JMP\n",
            writer,
        );
    }
    let is_last = match (statements.last(), statement_at(statements, line)) {
        (Some(last), Some(statement)) => last.addr == statement.addr,
        _ => false,
    };
    let after: &[u8] = if is_last {
        b" is the last line, and the program continued after it: add RTS\n"
    } else {
        b" is followed by no line at the next address, and the program continued there: add RTS or JMP\n"
    };
    put_around(scene, b"a2lab: ", line, after, writer)
}

// Writes where an RTS or a service returned, and why.
fn put_way<A: Allocator + Copy, W: Output>(
    scene: &Scene<A>,
    it: &Return,
    writer: &mut W,
) -> Result<(), WriteFault> {
    put_around(scene, b"a2lab: ", it.step.regs.pc, b" went to ", writer)?;
    put_address(it.step.next_pc, writer)
}

// Writes that an RTS pulled what PHA or PHP pushed.
fn put_pushed<A: Allocator + Copy, W: Output>(
    scene: &Scene<A>,
    it: &Return,
    pushed_by: u16,
    writer: &mut W,
) -> Result<(), WriteFault> {
    put_way(scene, it, writer)?;
    put_around(
        scene,
        b", because it pulled what ",
        pushed_by,
        b" pushed; pull that first, with PLA or PLP\n",
        writer,
    )
}

// Writes that an RTS pulled a byte that PHA or PHP pushed in place of the low byte of a return address.
fn put_replaced<A: Allocator + Copy, W: Output>(
    scene: &Scene<A>,
    it: &Return,
    pushed_by: u16,
    writer: &mut W,
) -> Result<(), WriteFault> {
    put_way(scene, it, writer)?;
    put_around(
        scene,
        b", because ",
        pushed_by,
        b" replaced the low byte of the return address; a routine must leave that address unchanged\n",
        writer,
    )
}

// Writes that an RTS pulled what two instructions pushed.
fn put_both<A: Allocator + Copy, W: Output>(
    scene: &Scene<A>,
    it: &Return,
    low: u16,
    high: u16,
    writer: &mut W,
) -> Result<(), WriteFault> {
    put_way(scene, it, writer)?;
    put_around(scene, b", because it pulled what ", low, b" and ", writer)?;
    put_place(scene, high, writer)?;
    put(
        b" pushed; pull that first, or push an address of your program minus 1\n",
        writer,
    )
}

// Writes that an instruction stored over a return address.
fn put_overwritten<A: Allocator + Copy, W: Output>(
    scene: &Scene<A>,
    stored_by: u16,
    at: u16,
    writer: &mut W,
) -> Result<(), WriteFault> {
    put_around(scene, b"a2lab: ", stored_by, b" overwrote ", writer)?;
    put_address(at, writer)?;
    put(
        b", a byte of the return address; store outside $0100 to $01FF\n",
        writer,
    )
}

// Writes that an instruction pulled a byte of a return address.
fn put_short<A: Allocator + Copy, W: Output>(
    scene: &Scene<A>,
    pulled_by: u16,
    call: Option<u16>,
    writer: &mut W,
) -> Result<(), WriteFault> {
    put_around(
        scene,
        b"a2lab: ",
        pulled_by,
        b" took a byte of the ",
        writer,
    )?;
    match call {
        Some(call) => put_around(scene, b"return address that ", call, b" pushed\n", writer)?,
        None => put(
            b"return address of the program, which is on the stack at the start\n",
            writer,
        )?,
    }
    put(LEVEL, writer)
}

/// Writes why an RTS, or a service, did not return to an instruction of the source.
pub(crate) fn put_return<A: Allocator + Copy, W: Output>(
    scene: &Scene<A>,
    it: &Return,
    writer: &mut W,
) -> Result<(), WriteFault> {
    match it.pulled {
        Pulled::Call(call) => put_after(scene, call, it.step.next_pc, writer),
        Pulled::Pushed(by) => put_pushed(scene, it, by, writer),
        Pulled::Replaced(by) => put_replaced(scene, it, by, writer),
        Pulled::BothPushed(low, high) => put_both(scene, it, low, high, writer),
        Pulled::Stored(by, at) => put_overwritten(scene, by, at, writer),
        Pulled::Short(by, call) => put_short(scene, by, call, writer),
        Pulled::Elsewhere => put(ELSEWHERE, writer),
        Pulled::Unseen => put(UNSEEN, writer),
    }
}
