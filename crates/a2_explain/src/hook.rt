//! A hook that leads to where no routine is, and the lines that stored it.

use crate::past::Past;
use crate::window::byte_at;
use a2_bus::locations::{CSW, KSW};
use a2_machine::Machine;
use a2_run::RunFault;
use a2_services::{Takes, row_of, service_at};
use a2_stream::{Output, WriteFault, put};
use a2_symbols::{Scene, put_address, put_place};
use a2_text::hex_pair;
use std::alloc::Allocator;

/// Returns the location of the hook through which the service at an address jumps, if it is such a service.
pub(crate) fn hook_at(pc: u16) -> Option<u16> {
    match row_of(service_at(pc)?).takes {
        Takes::OutputHook => Some(CSW),
        Takes::InputHook => Some(KSW),
        _ => None,
    }
}

// Writes a byte, such as $36, in two digits.
fn put_byte<W: Output>(byte: u8, writer: &mut W) -> Result<(), WriteFault> {
    put(b"$", writer)?;
    put(&hex_pair(byte), writer)
}

// Writes what a hook holds.
fn put_hook<A: Allocator + Copy, W: Output>(
    machine: &Machine<A>,
    hook: u16,
    writer: &mut W,
) -> Result<(), WriteFault> {
    let name: &[u8] = if hook == CSW {
        b"a2lab: the output hook at "
    } else {
        b"a2lab: the input hook at "
    };
    let [location, _] = hook.to_le_bytes();
    let bytes = [
        byte_at(machine, hook),
        byte_at(machine, hook.wrapping_add(1)),
    ];
    put(name, writer)?;
    put_byte(location, writer)?;
    put(b" is ", writer)?;
    put_address(u16::from_le_bytes(bytes), writer)?;
    put(b"\n", writer)
}

// Writes which line stored a byte of a hook.
fn put_store<A: Allocator + Copy, W: Output>(
    scene: &Scene<A>,
    stored_by: u16,
    location: u16,
    byte: u8,
    writer: &mut W,
) -> Result<(), WriteFault> {
    let [low, _] = location.to_le_bytes();
    put(b"a2lab: ", writer)?;
    put_place(scene, stored_by, writer)?;
    put(b" stored ", writer)?;
    put_byte(byte, writer)?;
    put(b" at ", writer)?;
    put_byte(low, writer)?;
    put(b"\n", writer)
}

/// Writes what the hook at a location holds at the end of a run, and which lines last stored its bytes, as far as the examined steps
/// show.
pub(crate) fn report_hook<A: Allocator + Copy, W: Output>(
    scene: &Scene<A>,
    past: &mut Past<'_, '_, A>,
    hook: u16,
    writer: &mut W,
) -> Result<(), RunFault> {
    let machine = past.ended().machine();
    put_hook(machine, hook, writer)?;
    let locations = [hook, hook.wrapping_add(1)];
    past.look_for_stores(&locations)?;
    for location in locations {
        if let Some(step) = past.last_store(location) {
            let byte = byte_at(machine, location);
            put_store(scene, step.regs.pc, location, byte, writer)?;
        }
    }
    Ok(put(
        b"a2lab: a hook needs both bytes of the address of a routine, low byte first\n",
        writer,
    )?)
}
