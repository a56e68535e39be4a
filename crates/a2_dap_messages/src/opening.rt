//! Requests before a run: what the adapter can do, and which source to run.

use crate::replies::Replies;
use crate::request::{Command, Request, is_set, items_in, number_in, text_in};
use a2_bus::Keys;
use a2_machine::Cause;
use a2_run::DEFAULT_STEPS;
use a2_timed_keys::{Strokes, stroke_in};
use serde_json::{Value, json};
use std::alloc::{AllocError, Global};

// What the adapter can do, apart from the list of filters.
const CAPABILITIES: &str = "{\"supportsConfigurationDoneRequest\":true,\"supportsStepBack\":true,\
\"supportsConditionalBreakpoints\":true,\"supportsHitConditionalBreakpoints\":true,\"supportsFunctionBreakpoints\":true,\
\"supportsDataBreakpoints\":true,\"supportsInstructionBreakpoints\":true,\"supportsLogPoints\":true,\
\"supportsReadMemoryRequest\":true,\"supportsDisassembleRequest\":true,\"supportsRestartRequest\":true,\
\"supportsEvaluateForHovers\":true,\"supportsSteppingGranularity\":true,\"supportsSetVariable\":true,\
\"supportsWriteMemoryRequest\":true,\"supportsGotoTargetsRequest\":true,\"supportsExceptionInfoRequest\":true}";

/// What a `launch` request asks for.
#[derive(Drop)]
pub struct Launch {
    /// The file with the source.
    pub program: String,
    /// The keys that wait at the start.
    pub keys: Keys,
    /// The keys that are typed after given steps.
    pub typed: Strokes,
    /// The file with a recorded session, at whose end the run begins.
    pub replay: Option<String>,
    /// The most steps of one request.
    pub limit: u32,
    /// Whether the run is free of the guard.
    pub is_free: bool,
    /// Whether the run stops before its first step.
    pub stops_on_entry: bool,
    /// The number of the first line: 1, or 0 if the editor counts lines from 0.
    pub first_line: u64,
    /// The request, which has no response yet.
    pub request: Request,
}

/// What follows a request before a run.
#[derive(Drop)]
pub enum Opened {
    /// The next request.
    Waiting,
    /// A run.
    Launch(Launch),
    /// The end of the session.
    End,
}

/// A session before its run.
#[derive(Drop)]
pub struct Opening {
    alloc: Global,
    is_initialized: bool,
    first_line: u64,
}

// Whether a run stops with this cause in place of ending, if the editor does not choose.
fn is_usual(cause: Cause) -> bool {
    cause != Cause::Limit && !cause.is_normal_end()
}

/// Returns the causes with which a run stops in place of ending, if the editor does not choose.
pub fn usual_causes(alloc: Global) -> Result<Vec<Cause>, AllocError> {
    let mut causes = Vec::new(alloc);
    for cause in Cause::ALL {
        if is_usual(cause) {
            causes.push(cause)?;
        }
    }
    Ok(causes)
}

// Returns the filter for a cause of a stop.
fn filter_of(alloc: Global, cause: Cause) -> Result<Value, AllocError> {
    let name = std::str::from_utf8(cause.name()).unwrap_or("");
    let label = std::str::from_utf8(cause.sentence()).unwrap_or("");
    let is_default = is_usual(cause);
    json!(in alloc; {"filter": name, "label": label, "default": is_default})
}

// Returns the filters for all causes except the limit, at which a run always stops.
fn filters(alloc: Global) -> Result<Value, AllocError> {
    let mut list = Vec::new(alloc);
    for cause in Cause::ALL {
        if cause != Cause::Limit {
            list.push(filter_of(alloc, cause)?)?;
        }
    }
    Ok(Value::Array(list))
}

// Returns what the adapter can do.
fn capabilities(alloc: Global) -> Result<Value, AllocError> {
    let Ok(mut value) = Value::from_str(alloc, CAPABILITIES) else {
        return Err(AllocError);
    };
    let filters = filters(alloc)?;
    if let Some(map) = value.as_object_mut() {
        serde_json::put(map, alloc, "exceptionBreakpointFilters", filters)?;
    }
    Ok(value)
}

// Adds the keys of each item of `keysAt`. Returns whether all items are valid.
fn add_strokes(strokes: &mut Strokes, items: &[Value]) -> Result<bool, AllocError> {
    for item in items {
        let Ok((steps, keys)) = stroke_in(item.as_str().unwrap_or("")) else {
            return Ok(false);
        };
        strokes.add(steps, &keys)?;
    }
    Ok(true)
}

// Returns the text of a member that may be missing.
fn text_or_none(alloc: Global, value: &Value, name: &str) -> Result<Option<String>, AllocError> {
    match text_in(value, name) {
        Some(text) => Ok(Some(String::from_str(alloc, text)?)),
        None => Ok(None),
    }
}

// Returns the most steps of a request.
fn limit_in(arguments: &Value) -> u32 {
    match number_in(arguments, "limit") {
        Some(limit) => limit.min(100_000_000) as u32,
        None => DEFAULT_STEPS,
    }
}

impl Opening {
    /// Returns a session at its start.
    pub fn new(alloc: Global) -> Opening {
        Opening {
            alloc,
            is_initialized: false,
            first_line: 1,
        }
    }

    // Answers `initialize`.
    fn initialize(&mut self, request: &Request, replies: &mut Replies) -> Result<(), AllocError> {
        self.is_initialized = true;
        if let Some(Value::Bool(false)) = request.arguments().get("linesStartAt1") {
            self.first_line = 0;
        }
        replies.respond(request, capabilities(self.alloc)?)
    }

    // Returns the run that `launch` asks for, or refuses it.
    fn launch(&self, request: Request, replies: &mut Replies) -> Result<Opened, AllocError> {
        let arguments = request.arguments();
        let Some(program) = text_in(arguments, "program") else {
            replies.refuse(&request, "launch needs the path of a source in `program`")?;
            return Ok(Opened::Waiting);
        };
        let Some(keys) = Keys::parse(text_in(arguments, "keys").unwrap_or("")) else {
            replies.refuse(&request, KEYS_FORM)?;
            return Ok(Opened::Waiting);
        };
        let mut typed = Strokes::new(self.alloc);
        if !add_strokes(&mut typed, items_in(arguments, "keysAt"))? {
            replies.refuse(&request, "`keysAt` needs a list of texts such as \"100:Q\"")?;
            return Ok(Opened::Waiting);
        }
        Ok(Opened::Launch(Launch {
            program: String::from_str(self.alloc, program)?,
            keys,
            typed,
            replay: text_or_none(self.alloc, arguments, "replay")?,
            limit: limit_in(arguments),
            is_free: is_set(arguments, "free"),
            stops_on_entry: is_set(arguments, "stopOnEntry"),
            first_line: self.first_line,
            request,
        }))
    }

    /// Answers a request before a run.
    pub fn answer(
        &mut self,
        request: Request,
        replies: &mut Replies,
    ) -> Result<Opened, AllocError> {
        match request.command {
            Command::Initialize => self.initialize(&request, replies)?,
            Command::Disconnect => {
                replies.accept(&request)?;
                return Ok(Opened::End);
            }
            Command::Launch if self.is_initialized => return self.launch(request, replies),
            _ => replies.refuse(&request, "the first requests are `initialize` and `launch`")?,
        }
        Ok(Opened::Waiting)
    }
}

// How keys are written.
const KEYS_FORM: &str =
    "`keys` needs the keys to type: blank to ~, and \\r \\b \\f \\x \\\\, at most 4096 of them";
