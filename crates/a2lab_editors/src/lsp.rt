//! The command `lsp`.

ghost use Rattle.std.specs.Prelude.{◌≤◌, IfOk, IfSome};

use crate::broken::wrong_with;
use a2_lsp::{Server, Stage};
use a2_packets::{PacketFault, read_packet};
use a2_run::RunFault;
use a2_stream::{Input, Output, put};
use a2lab_commands::{CommandArgs, Host, INPUT, Message, Refusal, Value, report};

// Returns the exit status of a session that ended at this stage, as the protocol defines it: 0 if the client asked for the end before.
fn status_at(stage: Stage) -> u8
    ensures { result ≤ 1 }
{
    match stage {
        Stage::Open | Stage::Over(false) => 1,
        Stage::New | Stage::Down | Stage::Over(true) => 0,
    }
}

// Returns what ends the command if no message can be read.
fn broken<'a, E: Output>(fault: PacketFault, complaints: &mut E) -> Result<Option<u8>, Refusal<'a>>
    ensures { IfOk result (λ status. IfSome status (λ status. status ≤ 5)) }
{
    match fault {
        PacketFault::Read => return Err(Refusal::Unread(INPUT)),
        PacketFault::Memory => return Err(Refusal::Fault(RunFault::Memory)),
        PacketFault::TooLong => return Ok(None),
        _ => {}
    }
    let values = [
        Value::Text("lsp"),
        Value::Text(wrong_with(fault)),
        Value::Text("lsp"),
    ];
    report(Message::NoEditorMessage, &values, complaints);
    Ok(Some(5))
}

// Reads a message and writes what the server answers. Returns the exit status if the session is over.
fn turn<'a, S, D, C, R: Input, W: Output, E: Output>(
    server: &mut Server,
    host: &mut Host<S, D, C, R, W, E>,
) -> Result<Option<u8>, Refusal<'a>>
    ensures { IfOk result (λ status. IfSome status (λ status. status ≤ 5)) }
{
    let mut replies = Vec::new(host.alloc);
    match read_packet(host.alloc, &mut host.input) {
        Ok(Some(message)) => server.answer(message.as_slice(), &mut replies)?,
        Ok(None) => return Ok(Some(status_at(server.stage()))),
        Err(PacketFault::TooLong) => server.refuse_long(&mut replies)?,
        Err(fault) => return broken(fault, &mut host.complaints),
    }
    put(replies.as_slice(), &mut host.output)?;
    match server.stage() {
        Stage::Over(_) => Ok(Some(status_at(server.stage()))),
        _ => Ok(None),
    }
}

/// Answers an editor in the Language Server Protocol, until the session is over or the input ends. The exit status is 0 if the client asked
/// for the end first, otherwise 1; 4 if a read or write fails; 5 if the input is not messages, or if there is no memory.
#[inline(never)]
pub fn lsp_of<'a, S, D, C, R: Input, W: Output, E: Output>(
    _given: &CommandArgs<'_, 'a>,
    host: &mut Host<S, D, C, R, W, E>,
) -> Result<u8, Refusal<'a>>
    ensures { IfOk result (λ status. status ≤ 5) }
{
    let mut server = Server::new(host.alloc);
    for _ in 0..u64::MAX {
        if let Some(status) = turn(&mut server, host)? {
            return Ok(status);
        }
    }
    Ok(1)
}
