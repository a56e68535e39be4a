//! LineAnswerer a script of Monitor lines.

ghost use Rattle.std.specs.Prelude.{◌≡◌, false, IfOk};
ghost use Rattle.a2_monitor.specs.SessionStates.{state_of_session, start_state};
ghost use Rattle.a2_run.specs.Answers.{Answers, is_read_fault};
ghost use Rattle.a2_scripts.specs.Scripts.{IsScriptError, IsMonText, OfScript, script_fault};

use crate::answering::{LineAnswerer, answer_all};
use a2_machine::Machine;
use a2_monitor::{MonFault, Session};
use a2_run::RunFault;
use a2_stream::{Output, WriteFault, put_all};
use a2_syntax::{Fault, lines};
use std::alloc::{AllocError, Allocator};

/// Returns the error of the script; running out of memory is a separate error.
pub fn refusal(fault: Fault) -> RunFault
    ensures { result ≡ script_fault fault }
{
    match fault {
        Fault::Memory => RunFault::Memory,
        fault => RunFault::Script(fault),
    }
}

impl<A: Allocator + Copy> LineAnswerer for Session<A> {
    ghost use Rattle.a2_monitor.specs.SessionStates.{SessionState, state_of_session};
    ghost use Rattle.a2_monitor.specs.Replies.{IsReply};

    ghost State = { SessionState };

    ghost state = { state_of_session };

    ghost meets = { IsReply };

    ghost Holds = { λ _. Unit {0} };

    fn answer<W: Output>(&mut self, line: &[u8], writer: &mut W) -> Result<(), WriteFault> {
        let Err(fault) = self.line(line, writer) else {
            return Ok(());
        };
        match fault {
            MonFault::Write => Err(WriteFault),
            _ => put_all(&[fault.text().as_bytes(), b"\n"], writer),
        }
    }
}

// Returns a session at its start.
fn opened<A: Allocator + Copy>(alloc: A) -> Result<Session<A>, AllocError>
    ensures { IfOk result (λ session. state_of_session session ≡ start_state) }
{
    let machine = Machine::new(alloc)?;
    Ok(Session::new(machine))
}

/// Answers the lines of a script.
pub fn answer_script<A: Allocator + Copy, W: Output>(
    alloc: A,
    script: &[u8],
    writer: &mut W,
) -> Result<(), RunFault>
    ensures meaning { Answers (OfScript (IsScriptError script.now)) (λ _. IsMonText script.now)
        (W.taker writer.old) (W.taker writer.new) result }
    ensures no_reader { is_read_fault result ≡ false }
{
    let lines = lines(alloc, script).map_err(refusal)?;
    let mut session = opened(alloc)?;
    answer_all(&mut session, b"*", lines.as_slice(), writer)?;
    Ok(())
}
