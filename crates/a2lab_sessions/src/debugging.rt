//! The command `debug`: the debugger, line by line.

ghost use Rattle.std.specs.Prelude.{◌≤◌, IfOk};

use crate::lines::{Lines, Prompt, columns_of, talked};
use a2_arguments::Arguments;
use a2_bus::Keys;
use a2_debugger::Inspector;
use a2_debugger_panes::{LEAST_COLUMNS, LEAST_ROWS, Panes, Wall};
use a2_host::Shelf;
use a2_replay::{bring, by_steps};
use a2_run::{AssembledText, RunFault};
use a2_stream::{Input, Output};
use a2_timed_keys::{Strokes, Typed, TypedFault};
use a2lab_commands::options::{DEBUGGER_PLAIN, DEBUGGER_REPLAY, FREE, KEEP, KEYS, KEYS_AT, TUI};
use a2lab_commands::{
    CommandArgs, FileRunArgs, Host, Message, Refusal, Terminal, assembled_text, expanded_text_of,
    first_named, is_input, record_in, report_untyped, report_write, run_args, strokes_of,
    typed_refusal,
};
use std::alloc::Global;
use std::cell::Cell;

/// How many copies of the machine are kept without `--keep`: about 64 MB of them.
pub const USUALLY_KEPT: usize = 540;

// The options of `debug`, besides those of its run.
#[derive(Clone, Copy)]
struct DebugArgs<'a> {
    // The file with a recorded session, at whose end the debugger begins.
    record: Option<&'a str>,
    // Whether the session begins with panes.
    are_up: bool,
    // The most copies of the machine that are kept.
    kept: usize,
    // Whether answers omit lines and labels of the source.
    is_plain: bool,
}

// Reads the options.
fn debug_args<'a>(arguments: &Arguments<'a>) -> DebugArgs<'a> {
    DebugArgs {
        record: arguments.text(&DEBUGGER_REPLAY),
        are_up: arguments.has(&TUI),
        kept: match arguments.number(&KEEP) {
            Some(kept) => kept as usize,
            None => USUALLY_KEPT,
        },
        is_plain: arguments.has(&DEBUGGER_PLAIN),
    }
}

/// Returns where panes can be drawn, or `None` if the terminal has no room for them.
pub fn wall_of(terminal: Option<Terminal>, columns: Option<&Cell<usize>>) -> Option<Wall<'_>> {
    match (terminal, columns) {
        (Some(terminal), Some(columns))
            if terminal.rows >= u16::from(LEAST_ROWS)
                && terminal.columns >= u16::from(LEAST_COLUMNS) => {
            Some(Wall {
                columns,
                rows: usize::from(terminal.rows),
                all: usize::from(terminal.columns),
                colours: terminal.colours,
            })
        }
        _ => None,
    }
}

/// Answers the lines of a session over a run, in panes from the start if `are_up`, and returns the exit status. It is 4 or 5 if something
/// fails, which is reported.
pub fn debug_in<R: Input, W: Output, E: Output>(
    alloc: Global,
    panes: &mut Panes<'_, '_>,
    are_up: bool,
    lines: Lines<'_>,
    input: &mut R,
    output: &mut W,
    complaints: &mut E,
) -> u8
    ensures { result ≤ 5 }
{
    if are_up {
        let status = report_write(panes.toggle_panes(output), complaints);
        if status != 0 {
            return status;
        }
    }
    let status = talked(alloc, panes, lines, input, output, complaints);
    let taken_down = report_write(panes.close_panes(output), complaints);
    status.max(taken_down)
}

/// Returns how the lines of a debugger session are typed.
pub fn lines_in<'a>(prompts: bool, columns: Option<&'a Cell<usize>>, has_panes: bool) -> Lines<'a> {
    let prompt = if prompts {
        Prompt::Debugger
    } else {
        Prompt::Nothing
    };
    Lines {
        prompt,
        columns,
        has_panes,
        keys: None,
    }
}

// The debugger at the start of a source's run.
fn inspector_of<'a>(
    alloc: Global,
    assembled: AssembledText<'a>,
    order: &FileRunArgs,
    asked: DebugArgs<'_>,
) -> Result<Inspector<'a>, RunFault> {
    let mut inspector = Inspector::new(alloc, assembled, order.run(), asked.kept)?;
    if asked.is_plain {
        inspector.hide_source_lines();
    }
    Ok(inspector)
}

// Takes the debugger to the end of the session that the file `name` recorded.
fn go_to_end<'a, S: Shelf, D, C, R, W, E: Output>(
    inspector: &mut Inspector<'_>,
    name: &'a str,
    host: &mut Host<S, D, C, R, W, E>,
) -> Result<(), Refusal<'a>> {
    let record = record_in(name, host)?;
    if bring(inspector, record.log.as_slice(), record.end) {
        Ok(())
    } else {
        Err(Refusal::of(Message::SessionNotReached, name))
    }
}

// Types the keys of a step, if the run goes that far. Returns whether it does.
fn type_at<'a>(inspector: &mut Inspector<'_>, steps: u64, keys: Keys) -> Result<bool, Refusal<'a>> {
    if !inspector.replay_to(steps) {
        return Ok(false);
    }
    match inspector.type_keys(keys) {
        Ok(()) => Ok(true),
        Err(_) => Err(typed_refusal("debug", TypedFault::Full(steps))),
    }
}

// Types all keys of a log in the order of their steps, those of a step at once. Returns whether the run goes far enough.
fn type_log<'a>(inspector: &mut Inspector<'_>, log: &[Typed]) -> Result<bool, Refusal<'a>> {
    let (mut steps, mut keys) = (0, Keys::new());
    for typed in log {
        if typed.steps != steps {
            if !type_at(inspector, steps, keys)? {
                return Ok(false);
            }
            (steps, keys) = (typed.steps, Keys::new());
        }
        if keys.push(typed.key).is_err() {
            return Err(typed_refusal("debug", TypedFault::Full(steps)));
        }
    }
    type_at(inspector, steps, keys)
}

// Types each key at its step, as far as the run goes, and takes the debugger back to the start.
fn type_ahead<'a, E: Output>(
    alloc: Global,
    inspector: &mut Inspector<'_>,
    strokes: &Strokes,
    complaints: &mut E,
) -> Result<(), Refusal<'a>> {
    // To type a key forgets the keys of later steps.
    let log = by_steps(alloc, strokes)?;
    if !type_log(inspector, log.as_slice())? {
        report_untyped("debug", strokes, inspector.machine().steps(), complaints);
    }
    inspector.go_to_start();
    Ok(())
}

// The error of a terminal in which panes cannot be drawn.
fn without_panes<'a>(terminal: Option<Terminal>) -> Refusal<'a> {
    match terminal {
        Some(small) => Refusal::of_terminal(Message::SmallTerminalForPanes, small),
        None => Refusal::new(Message::PanesWithoutTerminal),
    }
}

// Answers the debugger lines of the input, over the run of a source.
fn debug<'a, S: Shelf, D, C, R: Input, W: Output, E: Output>(
    source: &[u8],
    order: &FileRunArgs,
    asked: DebugArgs<'a>,
    given: &CommandArgs<'_, 'a>,
    host: &mut Host<S, D, C, R, W, E>,
) -> Result<u8, Refusal<'a>>
    ensures { IfOk result (λ status. status ≤ 5) }
{
    let alloc = host.alloc;
    let columns = columns_of(given.terminal);
    let wall = wall_of(given.terminal, columns.as_ref());
    if asked.are_up && wall.is_none() {
        return Err(without_panes(given.terminal));
    }
    let lines = lines_in(given.seat.stdin, columns.as_ref(), wall.is_some());
    let assembled = assembled_text(alloc, order.file, source, &mut host.complaints)?;
    let mut inspector = inspector_of(alloc, assembled, order, asked)?;
    let strokes = strokes_of(alloc, "debug", given.arguments)?;
    if !strokes.as_slice().is_empty() {
        type_ahead(alloc, &mut inspector, &strokes, &mut host.complaints)?;
    }
    if let Some(name) = asked.record {
        // A session was played with the guard, and has its keys.
        let options = given.arguments.options.as_slice();
        if let Some(other) = first_named(options, &[KEYS.name, KEYS_AT.name, FREE.name]) {
            return Err(Refusal::of_two(Message::ReplayWithOption, other, other));
        }
        go_to_end(&mut inspector, name, host)?;
    }
    Ok(debug_in(
        alloc,
        &mut Panes::new(alloc, inspector, wall),
        asked.are_up,
        lines,
        &mut host.input,
        &mut host.output,
        &mut host.complaints,
    ))
}

/// Answers debugger lines, each before the next is read, until the input ends or `quit`, over the run of the file that the arguments
/// name. At a terminal there is a prompt before each line, and lines are edited if it gives each byte as it is typed.
#[inline(never)]
pub fn debug_of<'a, S: Shelf, D, C, R: Input, W: Output, E: Output>(
    given: &CommandArgs<'_, 'a>,
    host: &mut Host<S, D, C, R, W, E>,
) -> Result<u8, Refusal<'a>>
    ensures { IfOk result (λ status. status ≤ 5) }
{
    let asked = debug_args(given.arguments);
    let order = run_args(given)?;
    let source = match order.file {
        Some(file) if !is_input(file) => {
            expanded_text_of(
                host.alloc,
                order.file,
                &mut host.shelf,
                &mut host.input,
                &mut host.complaints,
            )?
        }
        _ => return Err(Refusal::of_two(Message::NeedsFile, "debug", "debug")),
    };
    debug(source.as_slice(), &order, asked, given, host)
}
