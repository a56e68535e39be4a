//! Registers, flags, names and locations as variables of an editor.

use crate::texts::{address_text, byte_text, joined, number_text, reference_text, text_of};
use a2_asm::{Names, Program};
use a2_bus::locations::{
    BASH, BASL, CH, COLOR, CSW, CV, H2, INVFLG, KSW, PROMPT, V2, WNDBTM, WNDLFT, WNDTOP, WNDWDTH,
};
use a2_machine::Machine;
use a2_symbols::statement_at;
use a2_text::{decimal, hex_pair, hex_word};
use serde_json::{Value, json};
use std::alloc::{AllocError, Global};

/// The numbers of the groups.
pub const REGISTERS: u64 = 1;

pub const FLAGS: u64 = 2;

pub const NAMES: u64 = 3;

pub const MONITOR: u64 = 4;

const RUN: u64 = 5;

// The most bytes that are shown of a name.
const MOST_BYTES: u16 = 16;

// The Monitor's locations.
const LOCATIONS: [(&str, u16); 17] = [
    ("WNDLFT", WNDLFT),
    ("WNDWDTH", WNDWDTH),
    ("WNDTOP", WNDTOP),
    ("WNDBTM", WNDBTM),
    ("CH", CH),
    ("CV", CV),
    ("BASL", BASL),
    ("BASH", BASH),
    ("H2", H2),
    ("V2", V2),
    ("COLOR", COLOR),
    ("INVFLG", INVFLG),
    ("PROMPT", PROMPT),
    ("CSWL", CSW),
    ("CSWH", CSW + 1),
    ("KSWL", KSW),
    ("KSWH", KSW + 1),
];

/// Returns the Monitor's location with a name.
pub fn location_named(name: &[u8]) -> Option<u16> {
    for (known, address) in LOCATIONS {
        if known.as_bytes() == name {
            return Some(address);
        }
    }
    None
}

// Returns a group.
fn scope(alloc: Global, name: &str, number: u64) -> Result<Value, AllocError> {
    json!(in alloc; {"name": name, "variablesReference": number, "expensive": false})
}

/// Returns the groups of variables.
pub fn scopes(alloc: Global) -> Result<Value, AllocError> {
    let mut list = Vec::new(alloc);
    list.push(scope(alloc, "Registers", REGISTERS)?)?;
    list.push(scope(alloc, "Flags", FLAGS)?)?;
    list.push(scope(alloc, "Names", NAMES)?)?;
    list.push(scope(alloc, "Monitor", MONITOR)?)?;
    list.push(scope(alloc, "Run", RUN)?)?;
    let list = Value::Array(list);
    json!(in alloc; {"scopes": list})
}

// Adds a variable.
fn add(alloc: Global, list: &mut Vec<Value>, name: &str, value: String) -> Result<(), AllocError> {
    let variable = json!(in alloc; {
        "name": name,
        "value": value,
        "variablesReference": 0u64
    })?;
    list.push(variable)?;
    Ok(())
}

// Adds a variable of memory.
fn add_place(
    alloc: Global,
    list: &mut Vec<Value>,
    name: &str,
    value: String,
    address: u16,
) -> Result<(), AllocError> {
    let reference = reference_text(alloc, address)?;
    let variable = json!(in alloc; {
        "name": name,
        "value": value,
        "variablesReference": 0u64,
        "memoryReference": reference
    })?;
    list.push(variable)?;
    Ok(())
}

// Adds the registers.
fn add_registers(
    alloc: Global,
    list: &mut Vec<Value>,
    machine: &Machine<Global>,
) -> Result<(), AllocError> {
    let regs = machine.regs();
    for (name, byte) in [
        ("A", regs.a),
        ("X", regs.x),
        ("Y", regs.y),
        ("S", regs.s),
        ("P", regs.p.pushed()),
    ] {
        add(alloc, list, name, byte_text(alloc, byte)?)?;
    }
    let pc = address_text(alloc, regs.pc)?;
    add_place(alloc, list, "PC", pc, regs.pc)
}

// Adds the flags.
fn add_flags(
    alloc: Global,
    list: &mut Vec<Value>,
    machine: &Machine<Global>,
) -> Result<(), AllocError> {
    let bits = machine.regs().p.pushed();
    for (name, bit) in [
        ("N", 0x80),
        ("V", 0x40),
        ("D", 0x08),
        ("I", 0x04),
        ("Z", 0x02),
        ("C", 0x01),
    ] {
        let value = u64::from(bits & bit != 0);
        add(alloc, list, name, number_text(alloc, value)?)?;
    }
    Ok(())
}

// Returns how many bytes belong to the statement that begins at an address, at most 16.
fn length_at(program: &Program, address: u16) -> u16 {
    match statement_at(program.statements(), address) {
        Some(statement) if statement.addr == address => statement.length.clamp(1, MOST_BYTES),
        _ => 1,
    }
}

// Returns the bytes from an address on, after the address.
fn bytes_text(
    alloc: Global,
    machine: &Machine<Global>,
    address: u16,
    length: u16,
) -> Result<String, AllocError> {
    let mut text = Vec::new(alloc);
    text.push(b'$')?;
    text.extend_from_slice(&hex_word(address))?;
    text.push(b':')?;
    for offset in 0..length {
        if let Some(byte) = machine.peek(address.wrapping_add(offset)) {
            text.push(b' ')?;
            text.extend_from_slice(&hex_pair(byte))?;
        }
    }
    text_of(alloc, text.as_slice())
}

// Adds the names of a source, each with its address and the bytes there.
fn add_names(
    alloc: Global,
    list: &mut Vec<Value>,
    program: &Program,
    machine: &Machine<Global>,
) -> Result<(), AllocError> {
    let names: &Names = program.names();
    for index in 0..names.len() {
        if let Some((name, address)) = names.get_index(index) {
            let length = length_at(program, *address);
            let text = bytes_text(alloc, machine, *address, length)?;
            add_place(alloc, list, name.as_str(), text, *address)?;
        }
    }
    Ok(())
}

// Adds the Monitor's locations.
fn add_locations(
    alloc: Global,
    list: &mut Vec<Value>,
    machine: &Machine<Global>,
) -> Result<(), AllocError> {
    for (name, address) in LOCATIONS {
        let text = bytes_text(alloc, machine, address, 1)?;
        add_place(alloc, list, name, text, address)?;
    }
    Ok(())
}

// Adds the number of steps and of cycles, and the keys that wait.
fn add_run(
    alloc: Global,
    list: &mut Vec<Value>,
    machine: &Machine<Global>,
) -> Result<(), AllocError> {
    add(alloc, list, "steps", number_text(alloc, machine.steps())?)?;
    add(alloc, list, "cycles", number_text(alloc, machine.cycles())?)?;
    let waiting = machine.space().waiting();
    let count = decimal(waiting.len() as u64);
    let next = match waiting.first() {
        Some(key) => joined(alloc, &[count.as_slice(), b", next $", &hex_pair(*key)])?,
        None => number_text(alloc, 0)?,
    };
    add(alloc, list, "waiting keys", next)
}

/// Returns the variables of the group with this number.
pub fn variables(
    alloc: Global,
    program: &Program,
    machine: &Machine<Global>,
    group: u64,
) -> Result<Value, AllocError> {
    let mut list = Vec::new(alloc);
    match group {
        REGISTERS => add_registers(alloc, &mut list, machine)?,
        FLAGS => add_flags(alloc, &mut list, machine)?,
        NAMES => add_names(alloc, &mut list, program, machine)?,
        MONITOR => add_locations(alloc, &mut list, machine)?,
        RUN => add_run(alloc, &mut list, machine)?,
        _ => {}
    }
    let list = Value::Array(list);
    json!(in alloc; {"variables": list})
}
