//! From a session of `play` into the debugger, and back.

ghost use Rattle.std.specs.Prelude.{◌≡◌, ◌≤◌, length, IfOk};

use crate::debugging::{USUALLY_KEPT, debug_in, lines_in, wall_of};
use crate::lines::columns_of;
use a2_bus::Keys;
use a2_debugger::Inspector;
use a2_debugger_panes::Panes;
use a2_play::{Player, Session};
use a2_replay::bring;
use a2_run::{AssembledText, RunArgs, RunFault};
use a2_stream::{Input, Output, ReadFault};
use a2lab_commands::{Host, Terminal};
use std::alloc::Global;

// The most steps of a line of the debugger.
const LINE_MAX_STEPS: u32 = 1_000_000;

// Shown if the debugger cannot go as far as the session.
const TOO_FAR: &[u8] = b"no debugger after 100,000,000 steps";

// A reader that waits for a terminal whose reads give nothing while nothing is typed.
#[derive(Drop)]
struct Patient<'a, R> {
    reader: &'a mut R,
    failed: u64,
}

// Reads what is typed next, however long that takes.
fn awaited<R: Input>(reader: &mut R, buffer: &mut [u8]) -> Result<usize, ReadFault>
    ensures { IfOk result (λ count. count ≤ length buffer.new) }
{
    if buffer.is_empty() {
        return Ok(0);
    }
    for _ in 0..u64::MAX {
        let count = reader.read(buffer)?;
        if count > 0 {
            return Ok(count);
        }
    }
    Ok(0)
}

impl<R: Input> Input for Patient<'_, R> {
    ghost use Rattle.std.specs.Prelude.{None};

    // What will be typed is unknown.
    ghost giver = { λ s. record { bytes = None; failures = s.failed } };

    fn read(&mut self, buffer: &mut [u8]) -> Result<usize, ReadFault> {
        match awaited(self.reader, buffer) {
            Ok(count) => Ok(count),
            Err(fault) => {
                self.failed = self.failed.saturating_add(1);
                Err(fault)
            }
        }
    }
}

// Returns the debugger at the step of a session's machine, with the keys typed so far, or `None` if it cannot go that far.
fn inspector_at<'s>(
    alloc: Global,
    source: &'s [u8],
    player: &Player,
) -> Result<Option<Inspector<'s>>, RunFault> {
    let keys = Keys::new();
    let assembled = AssembledText::of(alloc, source)?;
    let run = RunArgs {
        keys: &keys,
        limit: LINE_MAX_STEPS,
        free: false,
    };
    let mut inspector = Inspector::new(alloc, assembled, run, USUALLY_KEPT)?;
    if bring(&mut inspector, player.log(), player.machine().steps()) {
        Ok(Some(inspector))
    } else {
        Ok(None)
    }
}

// Answers debugger lines in panes, until `quit` or the end of the input. A read or write that fails is reported, and ends it.
fn talk_in_panes<R: Input, W: Output, E: Output>(
    alloc: Global,
    inspector: Inspector<'_>,
    terminal: Terminal,
    input: &mut R,
    output: &mut W,
    complaints: &mut E,
) {
    let columns = columns_of(Some(terminal));
    let wall = wall_of(Some(terminal), columns.as_ref());
    let lines = lines_in(true, columns.as_ref(), true);
    let mut panes = Panes::new(alloc, inspector, wall);
    let mut patient = Patient {
        reader: input,
        failed: 0,
    };
    // The session's own read or write will fail too, and end it.
    let _ = debug_in(
        alloc,
        &mut panes,
        true,
        lines,
        &mut patient,
        output,
        complaints,
    );
}

/// Opens the debugger, in panes, at the step of a session and with the keys typed so far. Returns at `quit` or the end of the input;
/// the session is unchanged. If the debugger cannot go that far, the session shows that. Fails if there is no memory.
pub fn debug_here<S, D, C, R: Input, W: Output, E: Output>(
    source: &[u8],
    session: &mut Session<'_>,
    terminal: Terminal,
    host: &mut Host<S, D, C, R, W, E>,
) -> Result<(), RunFault>
    ensures { session.new ≡ session.old }
{
    match inspector_at(host.alloc, source, session.player())? {
        Some(inspector) => talk_in_panes(
            host.alloc,
            inspector,
            terminal,
            &mut host.input,
            &mut host.output,
            &mut host.complaints,
        ),
        None => session.notice(TOO_FAR),
    }
    Ok(())
}
