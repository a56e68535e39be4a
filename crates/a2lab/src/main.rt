//! The program `a2lab`: finds the command that its arguments name, and calls it.
#![tactic(auto)]

ghost use Rattle.std.specs.Prelude.{◌≡◌, ◌≢◌, [], IfOk, IfErr};
ghost use Rattle.std.specs.Io.Buffered.{writer_buffer, writer_contents};
ghost use Rattle.std.specs.Io.KnownBytes.{Keeps};
ghost use Rattle.a2_run.specs.declared.fault.RunFault.TheVariants.{Write as WriteFails};

mod clock;
mod program;

use a2_host::{HostArgumentsFault, HostDesk, HostFiles, arguments_of};
use a2_run::RunFault;
use a2_shown::Shown;
use a2_stream::{FromRead, Output, ToWrite};
use a2lab_commands::{Host, Message, Terminals, report, report_fault};
use clock::HostClock;
use program::{draws, draws_session, obey, writes_at_once};
use std::io::{BufWriter, IsTerminal, Write};
use std::process::ExitCode;

// Does what the arguments ask for, and writes to `output` and `complaints`.
fn obeyed<W: Output + Drop, E: Output + Drop>(
    rt: &HostRuntime,
    words: &[String],
    output: W,
    complaints: E,
) -> u8 {
    let seat = Terminals {
        stdin: rt.stdin().is_terminal(),
        stdout: rt.stdout().is_terminal(),
    };
    let mut host = Host {
        alloc: rt.alloc(),
        shelf: HostFiles::new(rt),
        desk: HostDesk::new(rt),
        clock: HostClock::new(rt),
        input: FromRead::new(rt.stdin()),
        output,
        complaints,
    };
    obey(words, seat, &mut host)
}

// Writes what `lines` still holds, and returns the exit status. Status 4 means that a failed read or write was already reported; if it was
// a file that could not be read, the output about other files is still written.
fn finish<W: Write + Drop>(status: u8, lines: &mut BufWriter<W>) -> Result<u8, RunFault>
    ensures status { IfOk result (λ answer. answer ≡ status) }
    // With any status but 4, everything was written.
    ensures sent { IfOk result (λ answer. answer ≢ 4 → writer_buffer lines.new ≡ []) }
    ensures bytes { Keeps (writer_contents W.contents lines.old) (writer_contents W.contents lines.new) }
    ensures fault { IfErr result (λ fault. fault ≡ WriteFails) }
{
    let is_sent = lines.flush().is_ok();
    if is_sent || status == 4 {
        Ok(status)
    } else {
        Err(RunFault::Write)
    }
}

// Does what the arguments ask for. In a session each answer is written at once. Otherwise many lines are written together, and the errors
// after all output, so that they are the last lines of a terminal. A terminal on which a session draws is given all bytes.
fn act(rt: &HostRuntime, words: &[String]) -> Result<u8, RunFault> {
    let is_output_shown = rt.stdout().is_terminal() && !draws(words);
    let are_complaints_shown = rt.stderr().is_terminal() && !draws_session(words);
    if writes_at_once(words) {
        return Ok(obeyed(
            rt,
            words,
            Shown::new(ToWrite::new(rt.stdout()), is_output_shown),
            Shown::new(ToWrite::new(rt.stderr()), are_complaints_shown),
        ));
    }
    let (Ok(mut lines), Ok(mut complaints)) = (
        BufWriter::new(rt.alloc(), rt.stdout()),
        BufWriter::new(rt.alloc(), rt.stderr()),
    ) else {
        return Err(RunFault::Memory);
    };
    let status = obeyed(
        rt,
        words,
        Shown::new(ToWrite::new(&mut lines), is_output_shown),
        Shown::new(ToWrite::new(&mut complaints), are_complaints_shown),
    );
    let answer = finish(status, &mut lines);
    // After a failed write the rest is discarded; if `lines` were dropped, it would be written again.
    let _ = lines.into_parts();
    // If this fails, there is no place left to report it.
    let _ = complaints.flush();
    let _ = complaints.into_parts();
    answer
}

fn main(rt: HostRuntime) -> ExitCode {
    let mut complaints = ToWrite::new(rt.stderr());
    ExitCode::from(match arguments_of(&rt) {
        Ok(words) => match act(&rt, words.as_slice()) {
            Ok(status) => status,
            Err(fault) => report_fault(fault, &mut complaints),
        },
        Err(HostArgumentsFault::Memory) => report_fault(RunFault::Memory, &mut complaints),
        Err(HostArgumentsFault::NotText) => {
            report(Message::NotUtf8, &[], &mut complaints);
            2
        }
    })
}
