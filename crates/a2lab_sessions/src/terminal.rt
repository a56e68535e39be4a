//! The command `mon`: the Monitor, line by line.

ghost use Rattle.std.specs.Prelude.{◌≤◌, IfOk};

use crate::lines::{Lines, Prompt, columns_of, talked};
use a2_host::Shelf;
use a2_monitor_session::{Annotated, Monitor};
use a2_run::RunFault;
use a2_stream::{Input, Output};
use a2lab_commands::options::MONITOR_PLAIN;
use a2lab_commands::{
    CommandArgs, Host, Message, Refusal, Terminal, expanded_text, is_input, loaded_text,
    report_source_errors,
};
use std::alloc::Global;
use std::cell::Cell;

// The Monitor, with a text loaded if there is one.
fn monitor_with<'a>(
    alloc: Global,
    keyboard: Option<&'a Cell<bool>>,
    text: Option<&[u8]>,
) -> Result<Monitor<'a>, RunFault> {
    match text {
        Some(text) => Monitor::with(alloc, keyboard, text),
        None => Ok(Monitor::new(alloc, keyboard)?),
    }
}

// A cell that says whether the program waits for a key, if the terminal gives each byte.
fn keyboard_of(terminal: Option<Terminal>) -> Option<Cell<bool>> {
    match terminal {
        Some(_) => Some(Cell::new(false)),
        None => None,
    }
}

// Answers the Monitor lines of the input, with a text loaded if there is one. Unless `is_plain`, the answers show a source's labels
// and lines beside the addresses.
fn mon<S, D, C, R: Input, W: Output, E: Output>(
    text: Option<&[u8]>,
    is_plain: bool,
    lines: Lines<'_>,
    host: &mut Host<S, D, C, R, W, E>,
) -> Result<u8, RunFault>
    ensures { IfOk result (λ status. status ≤ 5) }
{
    let (alloc, keys) = (host.alloc, lines.keys);
    match text {
        Some(text) if !is_plain => {
            let mut monitor = Annotated::with(alloc, keys, text)?;
            Ok(talked(
                alloc,
                &mut monitor,
                lines,
                &mut host.input,
                &mut host.output,
                &mut host.complaints,
            ))
        }
        text => {
            let mut monitor = monitor_with(alloc, keys, text)?;
            Ok(talked(
                alloc,
                &mut monitor,
                lines,
                &mut host.input,
                &mut host.output,
                &mut host.complaints,
            ))
        }
    }
}

// Answers the Monitor lines of the input, with the expansion of a source loaded that is not a plain one. Reports the errors of a plain source.
fn mon_expanded<'a, S: Shelf, D, C, R: Input, W: Output, E: Output>(
    file: Option<&'a str>,
    text: Vec<u8>,
    is_plain: bool,
    lines: Lines<'_>,
    host: &mut Host<S, D, C, R, W, E>,
) -> Result<u8, Refusal<'a>>
    ensures { IfOk result (λ status. status ≤ 5) }
{
    let alloc = host.alloc;
    let text = expanded_text(alloc, file, text, &mut host.shelf, &mut host.complaints)?;
    match mon(Some(text.as_slice()), is_plain, lines, host) {
        Err(RunFault::Source(_)) => {
            Err(report_source_errors(alloc, file, text.as_slice(), &mut host.complaints))
        }
        answer => Ok(answer?),
    }
}

/// Answers Monitor lines, each before the next is read, until the input ends or `quit`. If the arguments name a file, its object lines or
/// its source are loaded first. At a terminal there is a prompt before each line. If the terminal gives each byte as it is typed,
/// lines are edited, and a program that waits for a key takes it from the terminal.
#[inline(never)]
pub fn mon_of<'a, S: Shelf, D, C, R: Input, W: Output, E: Output>(
    given: &CommandArgs<'_, 'a>,
    host: &mut Host<S, D, C, R, W, E>,
) -> Result<u8, Refusal<'a>>
    ensures { IfOk result (λ status. status ≤ 5) }
{
    let is_plain = given.arguments.has(&MONITOR_PLAIN);
    let file = given.arguments.file();
    let text = match file {
        Some(name) if is_input(name) => return Err(Refusal::of_two(
            Message::NeedsFile,
            "mon",
            "mon",
        )),
        Some(name) => Some(loaded_text(host.alloc, name, &mut host.shelf)?),
        None => None,
    };
    let columns = columns_of(given.terminal);
    let keyboard = keyboard_of(given.terminal);
    let lines = Lines {
        prompt: if given.seat.stdin {
            Prompt::Monitor
        } else {
            Prompt::Nothing
        },
        columns: columns.as_ref(),
        has_panes: false,
        keys: keyboard.as_ref(),
    };
    let loaded = text.as_ref().map(Vec::as_slice);
    match (mon(loaded, is_plain, lines, host), text) {
        (Err(RunFault::Source(_)), Some(text)) => mon_expanded(file, text, is_plain, lines, host),
        (answer, _) => Ok(answer?),
    }
}
