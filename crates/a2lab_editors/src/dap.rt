//! The command `dap`: the debugger for an editor.

ghost use Rattle.std.specs.Prelude.{◌≤◌, IfOk};

use crate::broken::wrong_with;
use a2_dap::{Launch, Next, Opened, Opening, Replies, Request, RequestFault, Session, Start};
use a2_debugger::Inspector;
use a2_host::Shelf;
use a2_packets::{PacketFault, put_packet, read_packet};
use a2_replay::{bring, by_steps};
use a2_run::{AssembledText, RunArgs, RunFault, read_text};
use a2_stream::{Input, Output, WriteFault};
use a2_timed_keys::{Record, Typed, record_of};
use a2lab_commands::{
    CommandArgs, Host, INPUT, Message, Refusal, Value, loaded_text, report, report_fault,
};
use serde_json::json;
use std::alloc::{AllocError, Global};

// How many copies of the machine are kept, each of about 124,000 bytes.
const KEPT: usize = 150;

// Why a session ends early.
#[derive(Clone, Copy, Debug)]
enum AdapterFault {
    Packet(PacketFault),
    NoRequest,
    Write,
    Memory,
}

impl From<PacketFault> for AdapterFault {
    fn from(fault: PacketFault) -> AdapterFault {
        AdapterFault::Packet(fault)
    }
}

impl From<RequestFault> for AdapterFault {
    fn from(fault: RequestFault) -> AdapterFault {
        match fault {
            RequestFault::NoRequest => AdapterFault::NoRequest,
            RequestFault::Memory => AdapterFault::Memory,
        }
    }
}

impl From<WriteFault> for AdapterFault {
    fn from(_fault: WriteFault) -> AdapterFault {
        AdapterFault::Write
    }
}

impl From<AllocError> for AdapterFault {
    fn from(_fault: AllocError) -> AdapterFault {
        AdapterFault::Memory
    }
}

// The way to an editor and back, and the messages that are not sent yet.
#[derive(Drop)]
struct Line<'h, R, W> {
    alloc: Global,
    input: &'h mut R,
    output: &'h mut W,
    replies: Replies,
}

impl<R: Input, W: Output> Line<'_, R, W> {
    // Sends the messages.
    fn send(&mut self) -> Result<(), AdapterFault> {
        for body in self.replies.bodies() {
            put_packet(body.as_slice(), self.output)?;
        }
        self.replies.clear();
        Ok(())
    }

    // Reads the next request, or returns `None` if the input has ended.
    fn next_request(&mut self) -> Result<Option<Request>, AdapterFault> {
        match read_packet(self.alloc, self.input)? {
            Some(body) => Ok(Some(Request::of(self.alloc, body.as_slice())?)),
            None => Ok(None),
        }
    }

    // Refuses a launch.
    fn refuse(&mut self, launch: &Launch, why: &str) -> Result<(), AdapterFault> {
        self.replies.refuse(&launch.request, why)?;
        self.send()
    }

    // Reports that a run was launched.
    fn accept(&mut self, launch: &Launch) -> Result<(), AdapterFault> {
        self.replies.accept(&launch.request)?;
        let body = json!(in self.alloc; {})?;
        self.replies.notify("initialized", body)?;
        self.send()
    }
}

// Answers requests until one launches a run, or returns `None` if the session ends before.
fn launch_in<R: Input, W: Output>(
    opening: &mut Opening,
    line: &mut Line<'_, R, W>,
) -> Result<Option<Launch>, AdapterFault> {
    for _ in 0..u64::MAX {
        let Some(request) = line.next_request()? else {
            return Ok(None);
        };
        let opened = opening.answer(request, &mut line.replies)?;
        line.send()?;
        match opened {
            Opened::Waiting => {}
            Opened::Launch(launch) => return Ok(Some(launch)),
            Opened::End => return Ok(None),
        }
    }
    Ok(None)
}

// Returns a debugger at the start of a run, with the keys that are typed at given steps.
fn inspector_of<'t>(
    alloc: Global,
    texts: &'t Texts,
    launch: &Launch,
) -> Result<Inspector<'t>, RunFault> {
    let run = RunArgs {
        keys: &launch.keys,
        limit: launch.limit,
        free: launch.is_free,
    };
    let assembled = AssembledText::of(alloc, texts.source.as_slice())?;
    let mut inspector = Inspector::new(alloc, assembled, run, KEPT)?;
    if let Some(record) = &texts.record {
        let _ = bring(&mut inspector, record.log.as_slice(), record.end);
        return Ok(inspector);
    }
    let typed = by_steps(alloc, &launch.typed)?;
    type_ahead(&mut inspector, typed.as_slice());
    Ok(inspector)
}

// Types keys at their steps, as far as the run goes, and goes back to the start.
fn type_ahead(inspector: &mut Inspector<'_>, typed: &[Typed]) {
    if let Some(last) = typed.last() {
        let _ = bring(inspector, typed, last.steps);
        inspector.go_to_start();
    }
}

// Returns the source of a launch.
fn launched_text<S: Shelf>(
    alloc: Global,
    launch: &Launch,
    shelf: &mut S,
) -> Result<Vec<u8>, &'static str> {
    let Ok(mut reader) = shelf.open(launch.program.as_str()) else {
        return Err("cannot open the file that `program` names");
    };
    match read_text(alloc, &mut reader) {
        Ok(source) => Ok(source),
        Err(_) => Err("cannot read the file that `program` names"),
    }
}

// Returns the recorded session of a launch, if it names one.
fn recorded<S: Shelf>(
    alloc: Global,
    launch: &Launch,
    shelf: &mut S,
) -> Result<Option<Record>, &'static str> {
    let Some(name) = &launch.replay else {
        return Ok(None);
    };
    let Ok(text) = loaded_text(alloc, name.as_str(), shelf) else {
        return Err("cannot read the file that `replay` names");
    };
    match record_of(alloc, text.as_slice()) {
        Ok(record) => Ok(Some(record)),
        Err(_) => Err("the file that `replay` names is not a recorded session"),
    }
}

// The files of a launch.
#[derive(Drop)]
struct Texts {
    source: Vec<u8>,
    record: Option<Record>,
}

// Returns the files of a launch.
fn texts_of<S: Shelf>(
    alloc: Global,
    launch: &Launch,
    shelf: &mut S,
) -> Result<Texts, &'static str> {
    Ok(Texts {
        source: launched_text(alloc, launch, shelf)?,
        record: recorded(alloc, launch, shelf)?,
    })
}

// Answers the requests of a run, until it is to begin again or the session ends.
fn converse<R: Input, W: Output>(
    session: &mut Session<'_>,
    line: &mut Line<'_, R, W>,
) -> Result<Next, AdapterFault> {
    for _ in 0..u64::MAX {
        let Some(request) = line.next_request()? else {
            return Ok(Next::End);
        };
        let next = session.answer(&request, &mut line.replies)?;
        line.send()?;
        if next != Next::Waiting {
            return Ok(next);
        }
    }
    Ok(Next::End)
}

// Returns how the session of a launch begins.
fn start_of(launch: &Launch) -> Start<'_> {
    Start {
        path: launch.program.as_str(),
        first_line: launch.first_line,
        most: launch.limit,
        stops_on_entry: launch.stops_on_entry,
    }
}

// Answers the requests of a run, and those after each restart. Returns whether the session ended.
fn debug<R: Input, W: Output>(
    texts: &Texts,
    launch: &Launch,
    line: &mut Line<'_, R, W>,
) -> Result<bool, AdapterFault> {
    let inspector = match inspector_of(line.alloc, texts, launch) {
        Ok(inspector) => inspector,
        Err(fault) => {
            line.refuse(launch, fault.text().as_str())?;
            return Ok(false);
        }
    };
    let mut session = Session::new(line.alloc, inspector, start_of(launch))?;
    line.accept(launch)?;
    for _ in 0..u64::MAX {
        if converse(&mut session, line)? == Next::End {
            return Ok(true);
        }
        let Ok(inspector) = inspector_of(line.alloc, texts, launch) else {
            return Err(AdapterFault::Memory);
        };
        session.restart(inspector, &mut line.replies)?;
        line.send()?;
    }
    Ok(true)
}

// Answers requests until the session ends.
fn talk<S: Shelf, R: Input, W: Output>(
    shelf: &mut S,
    line: &mut Line<'_, R, W>,
) -> Result<(), AdapterFault> {
    let mut opening = Opening::new(line.alloc);
    for _ in 0..u64::MAX {
        let Some(launch) = launch_in(&mut opening, line)? else {
            return Ok(());
        };
        match texts_of(line.alloc, &launch, shelf) {
            Ok(texts) => {
                if debug(&texts, &launch, line)? {
                    return Ok(());
                }
            }
            Err(why) => line.refuse(&launch, why)?,
        }
    }
    Ok(())
}

// Reports why a session ended early, and returns the exit status.
fn report_adapter_fault<E: Output>(fault: AdapterFault, complaints: &mut E) -> u8
    ensures { result ≤ 5 }
{
    match fault {
        AdapterFault::Write => report_fault(RunFault::Write, complaints),
        AdapterFault::Packet(PacketFault::Read) => Refusal::Unread(INPUT).report(complaints),
        AdapterFault::Memory | AdapterFault::Packet(PacketFault::Memory) => {
            report_fault(RunFault::Memory, complaints)
        }
        AdapterFault::Packet(fault) => report_no_message(wrong_with(fault), complaints),
        AdapterFault::NoRequest => report_no_message("a message is not a request", complaints),
    }
}

// Reports that the input is no message of an editor, and returns the exit status.
fn report_no_message<E: Output>(what: &'static str, complaints: &mut E) -> u8
    ensures { result ≤ 5 }
{
    let values = [Value::Text("dap"), Value::Text(what), Value::Text("dap")];
    report(Message::NoEditorMessage, &values, complaints);
    5
}

/// Answers the requests of an editor, which the input has as messages of the Debug Adapter Protocol, until it disconnects or the input
/// ends.
#[inline(never)]
pub fn dap_of<'a, S: Shelf, D, C, R: Input, W: Output, E: Output>(
    _given: &CommandArgs<'_, 'a>,
    host: &mut Host<S, D, C, R, W, E>,
) -> Result<u8, Refusal<'a>>
    ensures { IfOk result (λ status. status ≤ 5) }
{
    let mut line = Line {
        alloc: host.alloc,
        input: &mut host.input,
        output: &mut host.output,
        replies: Replies::new(host.alloc),
    };
    let talked = talk(&mut host.shelf, &mut line);
    match talked {
        Ok(()) => Ok(0),
        Err(fault) => Ok(report_adapter_fault(fault, &mut host.complaints)),
    }
}
