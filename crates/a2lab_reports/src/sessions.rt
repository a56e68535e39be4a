//! The recorded sessions that the cases of a test file replay.

ghost use Rattle.std.specs.Prelude.{◌≤◌, IfOk};

use a2_host::Shelf;
use a2_run::{RUN_MAX_STEPS, ReadingFault, RunFault, read_front};
use a2_stream::Output;
use a2_tests::{Case, Line, Session, replay_conflict, replay_in};
use a2_timed_keys::{RecordFault, record_of};
use a2lab_commands::{Host, Message, Value, end_of, report};
use std::alloc::{AllocError, Global};

// The most bytes of a recording that are read.
const MOST_READ: usize = 1 << 20;

// A command, and the file with its cases.
#[derive(Clone, Copy)]
struct Reading<'a> {
    command: &'a str,
    file: &'a str,
}

// A line that names a recording: the command, the file with the line, its number, and the name of the recording.
#[derive(Clone, Copy)]
struct Asking<'a> {
    command: &'a str,
    file: &'a str,
    number: usize,
    name: &'a str,
}

// Returns the front of a name up to its last slash.
fn folder_of(name: &[u8]) -> &[u8] {
    let mut rest = name;
    while let [front @ .., c] = rest {
        if *c == b'/' {
            return rest;
        }
        rest = front;
    }
    rest
}

// Returns the name of a file whose name is relative to the folder of `file`.
fn beside(alloc: Global, file: &str, name: &str) -> Result<Vec<u8>, AllocError> {
    let folder: &[u8] = if name.as_bytes().starts_with(b"/") {
        b""
    } else {
        folder_of(file.as_bytes())
    };
    let mut path = Vec::from_slice(alloc, folder)?;
    path.extend_from_slice(name.as_bytes())?;
    Ok(path)
}

// Reads a recording.
fn text_beside<S: Shelf>(
    alloc: Global,
    asking: Asking<'_>,
    shelf: &mut S,
) -> Result<Vec<u8>, ReadingFault> {
    let path = beside(alloc, asking.file, asking.name)?;
    let Ok(path) = std::str::from_utf8(path.as_slice()) else {
        return Err(ReadingFault::Read);
    };
    let Ok(mut reader) = shelf.open(path) else {
        return Err(ReadingFault::Read);
    };
    read_front(alloc, &mut reader, MOST_READ)
}

// Reports what is wrong with a recording, with a number that the message names.
fn report_session<E: Output>(
    message: Message,
    asking: Asking<'_>,
    number: u64,
    complaints: &mut E,
) {
    let values = [
        Value::Text(asking.command),
        Value::Text(asking.file),
        Value::Number(asking.number as u64),
        Value::Text(asking.name),
        Value::Number(number),
    ];
    report(message, &values, complaints);
}

// Returns the session of the text of a recording, or reports what is wrong with it.
fn session_in<E: Output>(
    alloc: Global,
    asking: Asking<'_>,
    text: &[u8],
    complaints: &mut E,
) -> Result<Option<Session<Global>>, RunFault> {
    let record = match record_of(alloc, text) {
        Ok(record) => record,
        Err(RecordFault::Memory) => return Err(RunFault::Memory),
        Err(RecordFault::Line(line)) => {
            report_session(Message::SessionLine, asking, line as u64, complaints);
            return Ok(None);
        }
    };
    match end_of(&record) {
        Some(steps) if steps <= RUN_MAX_STEPS => Ok(Some(Session {
            log: record.log,
            steps,
        })),
        _ => {
            let most = u64::from(RUN_MAX_STEPS);
            report_session(Message::SessionTooLong, asking, most, complaints);
            Ok(None)
        }
    }
}

// The exit status if a recording cannot be read, and if it is not valid.
const UNREAD: u8 = 4;

const NOT_VALID: u8 = 1;

// Reads the session that a case replays. Returns 0, or the exit status if something is wrong, which is reported.
fn read_session<S: Shelf, E: Output>(
    alloc: Global,
    asking: Asking<'_>,
    case: &mut Case<'_, Global>,
    shelf: &mut S,
    complaints: &mut E,
) -> Result<u8, RunFault>
    ensures { IfOk result (λ status. status ≤ 4) }
{
    if let Some(other) = replay_conflict(case.lines.as_slice()) {
        let number = other.number as u64;
        report_session(Message::SessionWithLine, asking, number, complaints);
        return Ok(NOT_VALID);
    }
    let text = match text_beside(alloc, asking, shelf) {
        Ok(text) => text,
        Err(ReadingFault::Memory) => return Err(RunFault::Memory),
        Err(ReadingFault::Read) => {
            report_session(Message::SessionUnread, asking, 0, complaints);
            return Ok(UNREAD);
        }
    };
    match session_in(alloc, asking, text.as_slice(), complaints)? {
        Some(session) => {
            case.session = Some(session);
            Ok(0)
        }
        None => Ok(NOT_VALID),
    }
}

// Reads the session that a case replays, if it replays one. The result is that of `read_session`.
fn read_case<S: Shelf, E: Output>(
    alloc: Global,
    reading: Reading<'_>,
    case: &mut Case<'_, Global>,
    shelf: &mut S,
    complaints: &mut E,
) -> Result<u8, RunFault>
    ensures { IfOk result (λ status. status ≤ 4) }
{
    let Some(asked) = replay_in(case.lines.as_slice()) else {
        return Ok(0);
    };
    let Line::Replay(name) = asked.line else {
        return Ok(0);
    };
    let asking = Asking {
        command: reading.command,
        file: reading.file,
        number: asked.number,
        name,
    };
    read_session(alloc, asking, case, shelf, complaints)
}

/// Reads the sessions that cases in the text `file` replay. The names of their recordings are relative to the folder of `file`. Returns 0,
/// or the exit status of the command if something is wrong, which is reported: 4 if a recording cannot be read, and otherwise 1.
pub fn read_sessions<S: Shelf, D, C, R, W, E: Output>(
    command: &str,
    file: &str,
    cases: &mut Vec<Case<'_, Global>>,
    host: &mut Host<S, D, C, R, W, E>,
) -> Result<u8, RunFault>
    ensures { IfOk result (λ status. status ≤ 4) }
{
    for index in 0..cases.len() {
        if let Some(case) = cases.get_mut(index) {
            let status = read_case(
                host.alloc,
                Reading { command, file },
                case,
                &mut host.shelf,
                &mut host.complaints,
            )?;
            if status > 0 {
                return Ok(status);
            }
        }
    }
    Ok(0)
}
