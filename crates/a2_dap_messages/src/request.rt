//! The requests of an editor.

use serde_json::{Error, Value};
use std::alloc::Global;

/// What a request asks for.
#[derive(Clone, Copy, Debug, PartialEq, Eq)]
pub enum Command {
    Initialize,
    Launch,
    ConfigurationDone,
    SetBreakpoints,
    SetFunctionBreakpoints,
    SetInstructionBreakpoints,
    SetDataBreakpoints,
    SetExceptionBreakpoints,
    DataBreakpointInfo,
    Threads,
    StackTrace,
    Scopes,
    Variables,
    Continue,
    Next,
    StepIn,
    StepOut,
    StepBack,
    ReverseContinue,
    Restart,
    Pause,
    ReadMemory,
    Disassemble,
    Evaluate,
    SetVariable,
    WriteMemory,
    GotoTargets,
    Goto,
    ExceptionInfo,
    Disconnect,
    Unknown,
}

// Returns what the name of a request asks for.
fn command_of(name: &str) -> Command {
    match name {
        "initialize" => Command::Initialize,
        "launch" => Command::Launch,
        "configurationDone" => Command::ConfigurationDone,
        "setBreakpoints" => Command::SetBreakpoints,
        "setFunctionBreakpoints" => Command::SetFunctionBreakpoints,
        "setInstructionBreakpoints" => Command::SetInstructionBreakpoints,
        "setDataBreakpoints" => Command::SetDataBreakpoints,
        "setExceptionBreakpoints" => Command::SetExceptionBreakpoints,
        "dataBreakpointInfo" => Command::DataBreakpointInfo,
        "threads" => Command::Threads,
        "stackTrace" => Command::StackTrace,
        "scopes" => Command::Scopes,
        "variables" => Command::Variables,
        _ => moving_command_of(name),
    }
}

// Returns what the name of any other request asks for.
fn moving_command_of(name: &str) -> Command {
    match name {
        "continue" => Command::Continue,
        "next" => Command::Next,
        "stepIn" => Command::StepIn,
        "stepOut" => Command::StepOut,
        "stepBack" => Command::StepBack,
        "reverseContinue" => Command::ReverseContinue,
        "restart" => Command::Restart,
        "pause" => Command::Pause,
        "readMemory" => Command::ReadMemory,
        "disassemble" => Command::Disassemble,
        "evaluate" => Command::Evaluate,
        "setVariable" => Command::SetVariable,
        "writeMemory" => Command::WriteMemory,
        "gotoTargets" => Command::GotoTargets,
        "goto" => Command::Goto,
        "exceptionInfo" => Command::ExceptionInfo,
        "disconnect" | "terminate" => Command::Disconnect,
        _ => Command::Unknown,
    }
}

/// Why the bytes of a message are not a request.
#[derive(Clone, Copy, Debug, PartialEq, Eq)]
pub enum RequestFault {
    /// They are not JSON, or not a request of the protocol.
    NoRequest,
    /// There is not enough memory.
    Memory,
}

/// A request.
#[derive(Drop)]
pub struct Request {
    /// The number that its response repeats.
    pub seq: u64,
    pub command: Command,
    value: Value,
}

// Returns the fault for bytes that are not JSON.
fn fault_of(error: &Error) -> RequestFault {
    if error.is_memory() {
        RequestFault::Memory
    } else {
        RequestFault::NoRequest
    }
}

// Returns the number and the command of a request.
fn head_of(value: &Value) -> Option<(u64, Command)> {
    if value.get("type")?.as_str()? != "request" {
        return None;
    }
    let seq = value.get("seq")?.as_u64()?;
    Some((seq, command_of(value.get("command")?.as_str()?)))
}

/// Returns the text of a member, if it has one.
pub fn text_in<'a>(value: &'a Value, name: &str) -> Option<&'a str> {
    value.get(name)?.as_str()
}

/// Returns the number of a member, if it is a whole number of at least 0.
pub fn number_in(value: &Value, name: &str) -> Option<u64> {
    value.get(name)?.as_u64()
}

/// Returns whether a member is `true`.
pub fn is_set(value: &Value, name: &str) -> bool {
    match value.get(name) {
        Some(value) => value.as_bool() == Some(true),
        None => false,
    }
}

/// Returns the items of a member that is a list.
pub fn items_in<'a>(value: &'a Value, name: &str) -> &'a [Value] {
    match value.get(name) {
        Some(Value::Array(items)) => items.as_slice(),
        _ => &[],
    }
}

impl Request {
    /// Returns the request that the body of a message holds.
    pub fn of(alloc: Global, body: &[u8]) -> Result<Request, RequestFault> {
        let value = match Value::from_slice(alloc, body) {
            Ok(value) => value,
            Err(error) => return Err(fault_of(&error)),
        };
        match head_of(&value) {
            Some((seq, command)) => Ok(Request {
                seq,
                command,
                value,
            }),
            None => Err(RequestFault::NoRequest),
        }
    }

    /// Returns the name of what the request asks for.
    pub fn name(&self) -> &str {
        text_in(&self.value, "command").unwrap_or("")
    }

    /// Returns the arguments, or the whole message if it has none.
    pub fn arguments(&self) -> &Value {
        match self.value.get("arguments") {
            Some(arguments) => arguments,
            None => &self.value,
        }
    }
}
