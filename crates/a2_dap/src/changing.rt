//! Requests that change a run: the values of variables, bytes of memory, and PC.

ghost use Rattle.a2_debugger.specs.Inspections.{IsDone};
ghost use Rattle.a2_debugger.specs.declared.inspector_command.InspectorCommand.TheVariants.{Set};
ghost use Rattle.a2_dap.specs.Requests.{Reaches};

use crate::breakpoints::{Place, next_instruction, reference_in, shown_line};
use crate::memory::address_in;
use a2_asm::Program;
use a2_dap_messages::{
    FLAGS, MONITOR, NAMES, REGISTERS, items_in, joined, location_named, number_in, reference_text,
    text_in, variables,
};
use a2_debugger::{
    Inspector, InspectorCommand, Outcome, Setting, Subject, flag_of, register_of, setting_by,
};
use a2_hex::RAM_END;
use a2_machine::Machine;
use a2_symbols::place_of;
use a2_text::hex_word;
use base64::DecodeAllocError;
use base64::engine::general_purpose::STANDARD;
use serde_json::{Value, json};
use std::alloc::{AllocError, Global};

// The most bytes that one request writes.
const MOST_WRITTEN: usize = 256;

/// Bytes to write, from an address on.
#[derive(Drop)]
pub struct Writing {
    pub first: u16,
    pub bytes: Vec<u8>,
}

// Returns what a variable of a group is.
fn subject_in(program: &Program, group: u64, name: &[u8]) -> Option<Subject> {
    match group {
        REGISTERS => Some(Subject::InRegister(register_of(name)?)),
        FLAGS => Some(Subject::InFlag(flag_of(name)?)),
        NAMES => Some(Subject::InByte(place_of(program, name)?)),
        MONITOR => Some(Subject::InByte(location_named(name)?)),
        _ => None,
    }
}

// Returns the address that a text names: a place, or an address as an editor writes it.
fn address_named(program: &Program, text: &str) -> Option<u16> {
    match place_of(program, text.as_bytes()) {
        Some(address) => Some(address),
        None => reference_in(text),
    }
}

/// Returns what the new value of a variable sets, or `None` if it is no variable that can be set, or if the value does not fit.
pub fn variable_setting(program: &Program, arguments: &Value) -> Option<Setting> {
    let group = number_in(arguments, "variablesReference")?;
    let name = text_in(arguments, "name")?;
    let text = text_in(arguments, "value")?;
    if group == REGISTERS && name == "PC" {
        return Some(Setting::Counter(address_named(program, text)?));
    }
    setting_by(
        subject_in(program, group, name.as_bytes()),
        reference_in(text),
    )
}

// Returns the value of a variable in a list, or an empty text.
fn value_named<'l>(list: &'l Value, name: &str) -> &'l str {
    for item in items_in(list, "variables") {
        if text_in(item, "name") == Some(name) {
            return text_in(item, "value").unwrap_or("");
        }
    }
    ""
}

/// Returns the value of the variable that a request names.
pub fn shown_value(
    alloc: Global,
    program: &Program,
    machine: &Machine<Global>,
    arguments: &Value,
) -> Result<Value, AllocError> {
    let group = number_in(arguments, "variablesReference").unwrap_or(0);
    let name = text_in(arguments, "name").unwrap_or("");
    let list = variables(alloc, program, machine, group)?;
    json!(in alloc; {"value": value_named(&list, name)})
}

// Returns whether these bytes fit into RAM from an address on, and are not too many.
fn fit(first: u16, bytes: &[u8]) -> bool {
    bytes.len() <= MOST_WRITTEN && usize::from(first) + bytes.len() <= usize::from(RAM_END)
}

/// Returns the bytes that a request writes, or `None` if its arguments are not valid.
pub fn writing_in(alloc: Global, arguments: &Value) -> Result<Option<Writing>, AllocError> {
    let Some(first) = address_in(arguments) else {
        return Ok(None);
    };
    let data = text_in(arguments, "data").unwrap_or("");
    match STANDARD.decode(alloc, data.as_bytes()) {
        Ok(bytes) => {
            if fit(first, bytes.as_slice()) {
                Ok(Some(Writing { first, bytes }))
            } else {
                Ok(None)
            }
        }
        Err(DecodeAllocError::OutOfMemory) => Err(AllocError),
        Err(_) => Ok(None),
    }
}

// Sets exactly this.
fn make(inspector: &mut Inspector<'_>, setting: Setting) -> Outcome
    ensures { IsDone (Set setting) inspector.old inspector.new }
{
    inspector.execute_command(InspectorCommand::Set(setting))
}

/// Sets a register, a flag, PC or a byte.
pub fn set(inspector: &mut Inspector<'_>, setting: Setting) -> Outcome
    ensures { Reaches inspector.old inspector.new }
{
    make(inspector, setting)
}

/// Writes bytes, one after another, and returns how many were written: all, or those for which there was memory to note them.
pub fn write(inspector: &mut Inspector<'_>, writing: &Writing) -> usize
    ensures { Reaches inspector.old inspector.new }
{
    let mut count: usize = 0;
    let mut address = writing.first;
    for byte in writing.bytes.as_slice() {
        let outcome = make(inspector, Setting::Byte(address, *byte));
        if !matches!(outcome, Outcome::Changed(_)) {
            break;
        }
        count = count.saturating_add(1);
        address = address.wrapping_add(1);
    }
    count
}

/// Returns where the run can continue for a line, or `None` if the line has no instruction and none follows.
pub fn targets(
    alloc: Global,
    place: &Place<'_>,
    arguments: &Value,
) -> Result<Option<Value>, AllocError> {
    let line = number_in(arguments, "line").unwrap_or(0);
    let number = line.saturating_add(1).saturating_sub(place.first_line);
    let Some(statement) = next_instruction(place, number.min(65_536) as usize) else {
        return Ok(None);
    };
    let label = joined(alloc, &[b"$", &hex_word(statement.addr)])?;
    let reference = reference_text(alloc, statement.addr)?;
    let target = json!(in alloc; {
        "id": u64::from(statement.addr),
        "label": label,
        "line": shown_line(place, statement.line),
        "instructionPointerReference": reference
    })?;
    let mut list = Vec::new(alloc);
    list.push(target)?;
    let list = Value::Array(list);
    Ok(Some(json!(in alloc; {"targets": list})?))
}

/// Returns the setting of PC to the target that a request names.
pub fn target_setting(arguments: &Value) -> Option<Setting> {
    let address = u16::try_from(number_in(arguments, "targetId")?).ok()?;
    Some(Setting::Counter(address))
}
