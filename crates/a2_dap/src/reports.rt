//! What a stop prints, and the event of a stop.

ghost use Rattle.a2_dap.specs.Requests.{Travels};

use crate::moving::{Stop, last_address};
use a2_dap_messages::{Replies, joined, text_of};
use a2_debugger::Inspector;
use a2_machine::{Cause, Machine, write_cause, write_registers};
use a2_page::print;
use a2_stream::{Kept, put};
use a2_symbols::{Scene, Span, put_place};
use a2_text::hex_word;
use serde_json::{Value, json};
use std::alloc::{AllocError, Global};

// Appends the event of a stop.
fn notify_stop(
    alloc: Global,
    replies: &mut Replies,
    reason: &str,
    text: &str,
) -> Result<(), AllocError> {
    let body = json!(in alloc; {
        "reason": reason,
        "description": text,
        "text": text,
        "threadId": 1u64,
        "allThreadsStopped": true
    })?;
    replies.notify("stopped", body)
}

// Appends the event of a stop at a breakpoint.
fn notify_arrival(alloc: Global, replies: &mut Replies, id: u64) -> Result<(), AllocError> {
    let body = json!(in alloc; {
        "reason": "breakpoint",
        "hitBreakpointIds": [id],
        "threadId": 1u64,
        "allThreadsStopped": true
    })?;
    replies.notify("stopped", body)
}

// Returns which line changed which bytes.
fn change_text(
    alloc: Global,
    inspector: &Inspector<'_>,
    address: u16,
    span: Span,
) -> Result<String, AllocError> {
    let scene = Scene {
        program: inspector.program(),
        lines: inspector.lines(),
    };
    let mut place = Kept::new(alloc);
    let _ = put_place(&scene, address, &mut place);
    let (first, last) = (hex_word(span.first), hex_word(span.last));
    joined(
        alloc,
        &[
            place.as_slice(),
            b" changes a byte of $",
            &first,
            b"..$",
            &last,
        ],
    )
}

// Returns the picture, the register line and the cause.
fn end_text(alloc: Global, machine: &Machine<Global>, cause: Cause) -> Result<String, AllocError> {
    let mut text = Kept::new(alloc);
    let _ = print(&machine.view(), &mut text);
    let _ = write_registers(machine, &mut text);
    let _ = write_cause(cause, &mut text);
    let _ = put(cause.sentence(), &mut text);
    let _ = put(b"\n", &mut text);
    text_of(alloc, text.as_slice())
}

// Appends the events at the end of a run: what it printed, and that it stopped or ended.
fn report_end(
    alloc: Global,
    inspector: &Inspector<'_>,
    cause: Cause,
    is_filtered: bool,
    replies: &mut Replies,
) -> Result<(), AllocError> {
    let text = end_text(alloc, inspector.machine(), cause)?;
    replies.print("stdout", text.as_str())?;
    let why = std::str::from_utf8(cause.sentence()).unwrap_or("");
    if is_filtered {
        return notify_stop(alloc, replies, "exception", why);
    }
    let status: u64 = if cause.is_normal_end() { 0 } else { 3 };
    let body = json!(in alloc; {"exitCode": status})?;
    replies.notify("exited", body)?;
    let body = json!(in alloc; {})?;
    replies.notify("terminated", body)
}

// The reasons of stops that are neither at a breakpoint nor at the end.
const LIMIT_TEXT: &str = "the most steps of one request were executed; continue, or raise `limit`";

// Appends the events of a stop. `changer` is the address of the step that changes watched bytes.
fn notify(
    alloc: Global,
    inspector: &Inspector<'_>,
    standing: &Standing<'_>,
    changer: u16,
    replies: &mut Replies,
) -> Result<(), AllocError> {
    match standing.stop {
        Stop::Stepped => notify_stop(alloc, replies, "step", ""),
        Stop::Start => notify_stop(alloc, replies, "entry", "the start of the run"),
        Stop::Jumped => notify_stop(alloc, replies, "goto", ""),
        Stop::Arrived(id) => notify_arrival(alloc, replies, id),
        Stop::Changed(span) | Stop::WillChange(span) => {
            let text = change_text(alloc, inspector, changer, span)?;
            notify_stop(alloc, replies, "data breakpoint", text.as_str())
        }
        Stop::Ended(Cause::Limit) => notify_stop(alloc, replies, "pause", LIMIT_TEXT),
        Stop::Ended(cause) => {
            let is_filtered = standing.filters.contains(&cause);
            report_end(alloc, inspector, cause, is_filtered, replies)
        }
        Stop::NoRoutine => notify_stop(alloc, replies, "step", "the program is not in a routine"),
        Stop::NoMemory => notify_stop(alloc, replies, "pause", "there is not enough memory"),
    }
}

/// A stop that is to be reported.
#[derive(Clone, Copy)]
pub struct Standing<'a> {
    pub stop: Stop,
    /// The causes at which the run stops in place of ending.
    pub filters: &'a [Cause],
    /// What the run has printed.
    pub told: &'a [u8],
}

// Returns the address of the step that changes watched bytes.
#[tactic(auto, using(crate::proofs::Travelling::stays))]
fn changer_of(inspector: &mut Inspector<'_>, stop: Stop) -> u16
    ensures { Travels inspector.old inspector.new }
{
    match stop {
        Stop::Changed(_) => last_address(inspector),
        _ => inspector.machine().regs().pc,
    }
}

/// Appends what a run printed, and the events of its stop.
pub fn report_stop(
    alloc: Global,
    inspector: &mut Inspector<'_>,
    standing: Standing<'_>,
    replies: &mut Replies,
) -> Result<(), AllocError>
    ensures { Travels inspector.old inspector.new }
{
    let changer = changer_of(inspector, standing.stop);
    let text = text_of(alloc, standing.told)?;
    replies.print("console", text.as_str())?;
    notify(alloc, inspector, &standing, changer, replies)
}

/// Returns the cause of a stop at the end of a run.
pub fn end_of(stop: Stop) -> Option<Cause> {
    match stop {
        Stop::Ended(cause) => Some(cause),
        _ => None,
    }
}

/// Returns what a cause means.
pub fn exception(alloc: Global, cause: Cause) -> Result<Value, AllocError> {
    let name = std::str::from_utf8(cause.name()).unwrap_or("");
    let why = std::str::from_utf8(cause.sentence()).unwrap_or("");
    json!(in alloc; {"exceptionId": name, "description": why, "breakMode": "always"})
}

/// Returns the body of the only thread.
pub fn threads(alloc: Global) -> Result<Value, AllocError> {
    json!(in alloc; {"threads": [{"id": 1u64, "name": "6502"}]})
}
