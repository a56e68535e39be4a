//! The routines that a run is in.

use crate::breakpoints::{Place, shown_line};
use a2_dap_messages::{address_text, reference_text, text_of};
use a2_machine::Machine;
use a2_routines::Entry;
use a2_symbols::{name_of, statement_at};
use serde_json::{Value, json};
use std::alloc::{AllocError, Global};

// Returns the name of a routine: that of its address, or the address.
fn routine_text(alloc: Global, place: &Place<'_>, address: u16) -> Result<String, AllocError> {
    match name_of(place.program.names(), address) {
        [] => address_text(alloc, address),
        name => text_of(alloc, name),
    }
}

// Returns the address that the JSR at an address calls.
fn target_of(machine: &Machine<Global>, call: u16) -> u16 {
    let low = machine.peek(call.wrapping_add(1)).unwrap_or(0);
    let high = machine.peek(call.wrapping_add(2)).unwrap_or(0);
    u16::from_le_bytes([low, high])
}

// Returns the line of an address for the editor, or 0 if it has none.
fn line_of(place: &Place<'_>, address: u16) -> u64 {
    match statement_at(place.program.statements(), address) {
        Some(statement) => shown_line(place, statement.line),
        None => 0,
    }
}

// Returns a frame of a routine in which the run is at an address.
fn frame(
    alloc: Global,
    place: &Place<'_>,
    path: &str,
    id: usize,
    routine: u16,
    address: u16,
) -> Result<Value, AllocError> {
    let name = routine_text(alloc, place, routine)?;
    let reference = reference_text(alloc, address)?;
    let line = line_of(place, address);
    let mut value = json!(in alloc; {
        "id": id as u64,
        "name": name,
        "line": line,
        "column": 1u64,
        "instructionPointerReference": reference
    })?;
    if statement_at(place.program.statements(), address).is_some() {
        let source = source(alloc, path)?;
        if let Some(map) = value.as_object_mut() {
            serde_json::put(map, alloc, "source", source)?;
        }
    }
    Ok(value)
}

/// Returns the last part of a path.
pub fn file_name(path: &str) -> &str {
    match path.rsplit_once('/') {
        Some((_, name)) => name,
        None => path,
    }
}

// Returns the source at a path.
fn source(alloc: Global, path: &str) -> Result<Value, AllocError> {
    let name = file_name(path);
    json!(in alloc; {"name": name, "path": path})
}

/// Returns the routines of a run, the innermost first. `entries` are those that were entered and not left, the outermost first.
pub fn stack(
    alloc: Global,
    place: &Place<'_>,
    path: &str,
    machine: &Machine<Global>,
    entries: &[Entry],
) -> Result<Value, AllocError> {
    let mut frames = Vec::new(alloc);
    let mut address = machine.regs().pc;
    for entry in entries.iter().rev() {
        let routine = target_of(machine, entry.call);
        let id = frames.len();
        frames.push(frame(alloc, place, path, id, routine, address)?)?;
        address = entry.call;
    }
    let id = frames.len();
    frames.push(frame(alloc, place, path, id, place.program.entry(), address)?)?;
    let total = frames.len() as u64;
    let frames = Value::Array(frames);
    json!(in alloc; {"stackFrames": frames, "totalFrames": total})
}
