//! Memory and machine code for an editor.

use crate::breakpoints::{Place, reference_in, shown_line, with_offset};
use a2_asm::Statement;
use a2_dap_messages::{joined, number_in, reference_text, text_in, text_of};
use a2_machine::Machine;
use a2_opcode::list_line;
use a2_symbols::statement_at;
use a2_text::hex_pair;
use base64::engine::general_purpose::STANDARD;
use serde_json::{Value, json};
use std::alloc::{AllocError, Global};

// The most instructions of one answer.
const MOST_INSTRUCTIONS: u64 = 4096;

/// Returns the bytes of RAM that a request asks for, or `None` if its arguments are not valid.
pub fn memory(
    alloc: Global,
    machine: &Machine<Global>,
    arguments: &Value,
) -> Result<Option<Value>, AllocError> {
    let Some(first) = address_in(arguments) else {
        return Ok(None);
    };
    let Some(count) = number_in(arguments, "count") else {
        return Ok(None);
    };
    let bytes = bytes_from(machine.space().ram(), usize::from(first), count);
    let missing = count.saturating_sub(bytes.len() as u64);
    let data = STANDARD.encode(alloc, bytes)?;
    let address = reference_text(alloc, first)?;
    Ok(Some(json!(in alloc; {
        "address": address,
        "data": data,
        "unreadableBytes": missing
    })?))
}

// Returns at most so many bytes from an index on.
fn bytes_from(ram: &[u8], first: usize, count: u64) -> &[u8] {
    let following = ram.get(first..).unwrap_or(&[]);
    if count < following.len() as u64 {
        following.get(..count as usize).unwrap_or(following)
    } else {
        following
    }
}

/// Returns the address that a request names, with its offset.
pub fn address_in(arguments: &Value) -> Option<u16> {
    let address = reference_in(text_in(arguments, "memoryReference")?)?;
    with_offset(address, arguments)
}

// Returns the statement that ends just before an address and is an instruction.
fn statement_before(statements: &[Statement], address: u16) -> Option<Statement> {
    let last = address.checked_sub(1)?;
    match statement_at(statements, last) {
        Some(statement) if statement.instr.is_some() => Some(statement),
        _ => None,
    }
}

// Returns where an instruction before an address begins.
fn before(place: &Place<'_>, address: u16) -> u16 {
    match statement_before(place.program.statements(), address) {
        Some(statement) => statement.addr,
        None => address.wrapping_sub(1),
    }
}

// Returns the address of the instruction so many instructions away.
fn first_address(
    place: &Place<'_>,
    machine: &Machine<Global>,
    address: u16,
    instructions: i64,
) -> u16 {
    let mut at = address;
    for _ in 0..instructions.unsigned_abs().min(MOST_INSTRUCTIONS) {
        at = if instructions < 0 {
            before(place, at)
        } else {
            at.wrapping_add(u16::from(list_line(&bytes_at(machine, at), at).length))
        };
    }
    at
}

// Returns the three bytes from an address on, 0 for those that are not RAM.
fn bytes_at(machine: &Machine<Global>, address: u16) -> [u8; 3] {
    [
        machine.peek(address).unwrap_or(0),
        machine.peek(address.wrapping_add(1)).unwrap_or(0),
        machine.peek(address.wrapping_add(2)).unwrap_or(0),
    ]
}

// Returns the bytes of an instruction as text.
fn bytes_text(alloc: Global, bytes: &[u8]) -> Result<String, AllocError> {
    let mut text = Vec::new(alloc);
    for byte in bytes {
        text.extend_from_slice(&hex_pair(*byte))?;
        text.push(b' ')?;
    }
    text_of(alloc, text.as_slice().trim_ascii_end())
}

// Returns an instruction, and how many bytes it has.
fn instruction(
    alloc: Global,
    place: &Place<'_>,
    machine: &Machine<Global>,
    address: u16,
) -> Result<(Value, u8), AllocError> {
    let bytes = bytes_at(machine, address);
    let line = list_line(&bytes, address);
    let shown = line.text.as_str().as_bytes().get(19..).unwrap_or(b"???");
    let address_text = reference_text(alloc, address)?;
    let code = bytes_text(alloc, bytes.get(..usize::from(line.length)).unwrap_or(&[]))?;
    let text = joined(alloc, &[shown])?;
    let mut value = json!(in alloc; {
        "address": address_text,
        "instructionBytes": code,
        "instruction": text
    })?;
    if let Some(statement) = statement_at(place.program.statements(), address) {
        let number = Value::from(shown_line(place, statement.line));
        if let Some(map) = value.as_object_mut() {
            serde_json::put(map, alloc, "line", number)?;
        }
    }
    Ok((value, line.length))
}

/// Returns the instructions that a request asks for, or `None` if its arguments are not valid.
pub fn instructions(
    alloc: Global,
    place: &Place<'_>,
    machine: &Machine<Global>,
    arguments: &Value,
) -> Result<Option<Value>, AllocError> {
    let Some(address) = address_in(arguments) else {
        return Ok(None);
    };
    let away = match arguments.get("instructionOffset") {
        Some(away) => away.as_i64().unwrap_or(0),
        None => 0,
    };
    let count = number_in(arguments, "instructionCount").unwrap_or(1);
    let mut at = first_address(place, machine, address, away);
    let mut list = Vec::new(alloc);
    for _ in 0..count.min(MOST_INSTRUCTIONS) {
        let (value, length) = instruction(alloc, place, machine, at)?;
        list.push(value)?;
        at = at.wrapping_add(u16::from(length));
    }
    let list = Value::Array(list);
    Ok(Some(json!(in alloc; {"instructions": list})?))
}
