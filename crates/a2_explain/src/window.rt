//! Which lines moved the window or the cursor off the screen, and blocks that are off it.

use crate::past::{FARTHER, Past};
use a2_bus::locations::{CH, CV, H2, V2, WNDBTM, WNDLFT, WNDTOP, WNDWDTH};
use a2_machine::Machine;
use a2_run::RunFault;
use a2_services::{Needs, row_of, service_at};
use a2_stream::{Output, WriteFault, put, put_all};
use a2_symbols::{Scene, put_place, statement_at};
use a2_text::{decimal, hex_pair};
use std::alloc::Allocator;

// The columns and the rows of the screen.
const COLUMNS: u16 = 40;

const ROWS: u16 = 24;

// The rows of blocks; they have as many columns as the screen.
const BLOCK_ROWS: u16 = 48;

// A location of the window or the cursor. Apple II Reference Manual (1979), its table of page 0.
#[derive(Clone, Copy)]
struct Location {
    address: u16,
    // What it is for, and what it may hold.
    says: &'static [u8],
}

static LOCATIONS: [Location; 6] = [
    Location {
        address: WNDLFT,
        says: b"the window's left edge; it must be at most 40 with the width ($21) added, and less than 40 with the cursor's column ($24)",
    },
    Location {
        address: WNDWDTH,
        says: b"the window's width; it must be at least 1, and at most 40 with the left edge ($20) added",
    },
    Location {
        address: WNDTOP,
        says: b"the window's top; it must be less than its bottom ($23)",
    },
    Location {
        address: WNDBTM,
        says: b"the window's bottom; it must be greater than its top ($22) and at most 24",
    },
    Location {
        address: CH,
        says: b"the cursor's column; it must be less than 40 with the window's left edge ($20) added",
    },
    Location {
        address: CV,
        says: b"the cursor's row; it must be less than 24",
    },
];

// Returns the locations that a service with these needs uses.
fn locations_of(needs: Needs) -> &'static [Location] {
    match needs {
        // It sets the cursor.
        Needs::Window => &LOCATIONS[..4],
        _ => &LOCATIONS,
    }
}

/// Returns the byte of RAM at an address.
pub(crate) fn byte_at<A: Allocator + Copy>(machine: &Machine<A>, address: u16) -> u8 {
    machine.peek(address).unwrap_or(0)
}

// Returns whether a location holds a value that it must not hold.
fn is_amiss<A: Allocator + Copy>(machine: &Machine<A>, address: u16) -> bool {
    let left = u16::from(byte_at(machine, WNDLFT));
    let width = u16::from(byte_at(machine, WNDWDTH));
    let top = u16::from(byte_at(machine, WNDTOP));
    let bottom = u16::from(byte_at(machine, WNDBTM));
    let column = u16::from(byte_at(machine, CH));
    let row = u16::from(byte_at(machine, CV));
    match address {
        WNDLFT => left + width > COLUMNS || left + column >= COLUMNS,
        WNDWDTH => left + width > COLUMNS || width == 0,
        WNDTOP => top >= bottom,
        WNDBTM => top >= bottom || bottom > ROWS,
        CH => left + column >= COLUMNS,
        _ => row >= ROWS,
    }
}

// Writes which line stored a byte at a location, and what is allowed there.
fn put_change<A: Allocator + Copy, W: Output>(
    scene: &Scene<A>,
    pc: u16,
    byte: u8,
    location: &Location,
    writer: &mut W,
) -> Result<(), WriteFault> {
    put(b"a2lab: ", writer)?;
    put_place(scene, pc, writer)?;
    put(b" stored $", writer)?;
    put(&hex_pair(byte), writer)?;
    let [low, _] = location.address.to_le_bytes();
    put(b" at $", writer)?;
    put(&hex_pair(low), writer)?;
    put(b", ", writer)?;
    put(location.says, writer)?;
    put(b"\n", writer)
}

// Writes what a register or location holds, and which values it must have, if it is not below `end`.
fn put_bound<W: Output>(
    name: &[u8],
    value: u8,
    end: u16,
    range: &[u8],
    writer: &mut W,
) -> Result<(), WriteFault> {
    if u16::from(value) < end {
        return Ok(());
    }
    let value = decimal(u64::from(value));
    put_all(
        &[
            b"a2lab: ",
            name,
            b" is ",
            value.as_slice(),
            b"; ",
            range,
            b"\n",
        ],
        writer,
    )
}

// Writes which values of a service for blocks are off the screen.
fn put_blocks<A: Allocator + Copy, W: Output>(
    machine: &Machine<A>,
    needs: Needs,
    writer: &mut W,
) -> Result<(), WriteFault> {
    let regs = machine.regs();
    let row: &[u8] = b"a row of blocks is 0 to 47";
    let column: &[u8] = b"a column of blocks is 0 to 39";
    put_bound(b"A", regs.a, BLOCK_ROWS, row, writer)?;
    put_bound(b"Y", regs.y, COLUMNS, column, writer)?;
    match needs {
        Needs::Across => put_bound(b"$2C", byte_at(machine, H2), COLUMNS, column, writer),
        Needs::Down => put_bound(b"$2D", byte_at(machine, V2), BLOCK_ROWS, row, writer),
        _ => Ok(()),
    }
}

// Returns the line of the source that stored what a location holds at the end of a run, if it must not hold that.
fn stored_by<A: Allocator + Copy>(
    scene: &Scene<A>,
    past: &Past<'_, '_, A>,
    address: u16,
) -> Option<u16> {
    let machine = past.ended().machine();
    if !is_amiss(machine, address) {
        return None;
    }
    let step = past.last_store(address)?;
    // A service may have stored another byte since then.
    if step.store?.byte != byte_at(machine, address) {
        return None;
    }
    statement_at(scene.program.statements(), step.regs.pc)?;
    Some(step.regs.pc)
}

// Writes which lines of the source last stored values that the window and the cursor must not have, at the end of a run, as far as
// the examined steps show. Returns whether there are any.
fn put_stores<A: Allocator + Copy, W: Output>(
    scene: &Scene<A>,
    past: &Past<'_, '_, A>,
    locations: &[Location],
    writer: &mut W,
) -> Result<bool, WriteFault> {
    let mut is_reported = false;
    for location in locations {
        if let Some(pc) = stored_by(scene, past, location.address) {
            let byte = byte_at(past.ended().machine(), location.address);
            put_change(scene, pc, byte, location, writer)?;
            is_reported = true;
        }
    }
    Ok(is_reported)
}

// Writes which lines of the source last stored values that the window and the cursor must not have, and where to store instead.
fn report_stores<A: Allocator + Copy, W: Output>(
    scene: &Scene<A>,
    past: &mut Past<'_, '_, A>,
    locations: &[Location],
    writer: &mut W,
) -> Result<(), RunFault> {
    let mut is_reported = put_stores(scene, past, locations, writer)?;
    for _ in &FARTHER {
        if is_reported || !past.look_farther()? {
            break;
        }
        is_reported = put_stores(scene, past, locations, writer)?;
    }
    if is_reported {
        put(
            b"a2lab: a program can safely keep its own bytes below $20\n",
            writer,
        )?;
    }
    Ok(())
}

/// Writes which values the service at PC must not have, at the end of a run: of the window and the cursor, with the lines of the source
/// that stored them, or of blocks.
pub(crate) fn report_window<A: Allocator + Copy, W: Output>(
    scene: &Scene<A>,
    past: &mut Past<'_, '_, A>,
    writer: &mut W,
) -> Result<(), RunFault> {
    let machine = past.ended().machine();
    let Some(service) = service_at(machine.regs().pc) else {
        return Ok(());
    };
    match row_of(service).needs {
        needs @ (Needs::Block | Needs::Across | Needs::Down) => {
            Ok(put_blocks(machine, needs, writer)?)
        }
        needs => report_stores(scene, past, locations_of(needs), writer),
    }
}
