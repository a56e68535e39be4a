//! The command `run`, and what its options ask for after the run.

ghost use Rattle.std.specs.Prelude.{◌≤◌, IfOk};

use crate::drawing::put_screen;
use crate::saving::{machine_into, picture_into};
use crate::spans::span_in;
use a2_arguments::Arguments;
use a2_asm::Program;
use a2_explain::explain_stop;
use a2_host::{Desk, Shelf};
use a2_machine::{Cause, Machine};
use a2_memory::{Part, write_parts};
use a2_run::{AssembledText, RunFault};
use a2_stream::{Input, Output};
use a2_timed_keys::Ended;
use a2_trace::{Choice, trace_source};
use a2lab_commands::options::{ATTRIBUTES, LAST, MEM, PNG, SAVE};
use a2lab_commands::{
    CommandArgs, Host, Message, Refusal, Terminal, TimedRunArgs, assembled_text, end_status,
    ended_of, expanded_text_of, put_end_state, refuse_overwriting_input, report_fault,
    report_warnings_of, timed_run_args,
};
use std::alloc::Global;

// Returns the part of RAM that a value of `--mem` names.
fn part_in<'a>(program: &Program<Global>, text: &'a str) -> Result<Part, Refusal<'a>> {
    let span = span_in("run: --mem", program, text)?;
    let Some(part) = Part::of(span) else {
        return Err(Refusal::of(Message::PartOutsideRam, text));
    };
    Ok(part)
}

/// What the options of `run` ask for during the run and after it.
#[derive(Drop)]
pub struct AfterRun<'a> {
    /// The terminal on which the screen is drawn in colour, if it is.
    pub terminal: Option<Terminal>,
    /// Whether it is printed how each character is shown.
    pub attributes: bool,
    /// The parts of memory to print.
    pub parts: Vec<Part>,
    /// The file to which all of RAM is written.
    pub image: Option<&'a str>,
    /// The file to which the screen is written as a picture.
    pub picture: Option<&'a str>,
    /// How many of the last steps are printed.
    pub last: Option<u32>,
}

// Returns the parts of RAM that the options name.
fn parts_of<'a>(
    alloc: Global,
    program: &Program<Global>,
    arguments: &Arguments<'a>,
) -> Result<Vec<Part>, Refusal<'a>> {
    let mut parts = Vec::new(alloc);
    for option in &arguments.options {
        if option.name == MEM.name {
            let part = part_in(program, option.value)?;
            if parts.push(part).is_err() {
                return Err(Refusal::Fault(RunFault::Memory));
            }
        }
    }
    Ok(parts)
}

// Returns what the options of `run` ask for.
fn after_run_of<'a>(
    alloc: Global,
    program: &Program<Global>,
    given: &CommandArgs<'_, 'a>,
) -> Result<AfterRun<'a>, Refusal<'a>> {
    let arguments = given.arguments;
    Ok(AfterRun {
        terminal: given.terminal,
        attributes: arguments.has(&ATTRIBUTES),
        parts: parts_of(alloc, program, arguments)?,
        image: arguments.text(&SAVE),
        picture: arguments.text(&PNG),
        last: arguments.number(&LAST),
    })
}

// Prints the last steps of a run if `--last` asks for them.
fn report_last_steps<E: Output>(
    alloc: Global,
    ended: &Ended<'_>,
    last: Option<u32>,
    complaints: &mut E,
) {
    if last.is_none() {
        return;
    }
    let mut choice = Choice::all();
    choice.last = last;
    // If this fails, there is no place left to report it.
    let _ = trace_source(alloc, ended, &choice, complaints);
}

// Saves what a run left as the options ask for it, and returns the greatest exit status, at least `status`.
fn save<S, D: Desk, C, R, W, E: Output>(
    machine: &Machine<Global>,
    status: u8,
    asked: &AfterRun<'_>,
    host: &mut Host<S, D, C, R, W, E>,
) -> u8
    requires { status ≤ 5 }
    ensures { result ≤ 5 }
{
    let mut greatest = status;
    if let Some(image) = asked.image {
        if let Err(fault) = machine_into(host.alloc, machine, image, &mut host.desk) {
            greatest = greatest.max(report_fault(fault, &mut host.complaints));
        }
    }
    if let Some(picture) = asked.picture {
        if let Err(fault) = picture_into(machine, picture, &mut host.desk) {
            greatest = greatest.max(report_fault(fault, &mut host.complaints));
        }
    }
    greatest
}

// Saves and prints what a run left, as the options ask for it, and returns the greatest exit status, at least `status`.
fn do_after_run<S, D: Desk, C, R, W: Output, E: Output>(
    ended: Ended<'_>,
    status: u8,
    asked: &AfterRun<'_>,
    host: &mut Host<S, D, C, R, W, E>,
) -> u8
    requires { status ≤ 5 }
    ensures { result ≤ 5 }
{
    let machine = ended.into_machine();
    let greatest = save(&machine, status, asked, host);
    match write_parts(machine, asked.parts.as_slice(), &mut host.output) {
        Ok(()) => greatest,
        Err(_) => greatest.max(report_fault(RunFault::Write, &mut host.complaints)),
    }
}

// Returns the cause of a run's end. A session that is repeated ends where it was left, for no cause, unless it stopped for another one.
fn cause_of(ended: &Ended<'_>, timed: &TimedRunArgs<'_>) -> Option<Cause> {
    match ended.cause() {
        Cause::Limit | Cause::Keys if timed.is_at_end(ended.machine().steps()) => None,
        cause => Some(cause),
    }
}

// Reports why a run stopped, which keys were not typed, and its last steps if `--last` asks for them.
fn report_run<E: Output>(
    alloc: Global,
    assembled: &AssembledText<'_>,
    ended: &Ended<'_>,
    timed: &TimedRunArgs<'_>,
    complaints: &mut E,
) {
    if cause_of(ended, timed).is_some() {
        // If this fails, there is no place left to report it.
        let _ = explain_stop(alloc, assembled, ended, complaints);
    }
    timed.report_untyped(ended.machine().steps(), complaints);
}

// Runs a source, prints what the run leaves, reports why it stopped, and does what else the options ask for. The exit status is that of
// the run.
fn run_assembled<'a, S, D: Desk, C, R, W: Output, E: Output>(
    assembled: &AssembledText<'_>,
    timed: &TimedRunArgs<'a>,
    asked: &AfterRun<'_>,
    host: &mut Host<S, D, C, R, W, E>,
) -> Result<u8, Refusal<'a>>
    ensures { IfOk result (λ status. status ≤ 5) }
{
    let alloc = host.alloc;
    let ended = ended_of(alloc, assembled.program(), timed, &mut host.complaints)?;
    let cause = cause_of(&ended, timed);
    let view = ended.machine().view();
    put_screen(&view, asked.terminal, asked.attributes, &mut host.output)?;
    put_end_state(ended.machine(), cause, &mut host.output)?;
    report_run(alloc, assembled, &ended, timed, &mut host.complaints);
    report_last_steps(alloc, &ended, asked.last, &mut host.complaints);
    Ok(do_after_run(ended, end_status(cause), asked, host))
}

/// Runs a source as `a2` does, or repeats a recorded session, prints the warnings for the source, reports why the run stopped, and does
/// what the options ask for after the run. The exit status is 3 if the run stopped for another cause than RETURNED or BRK.
#[inline(never)]
pub fn run_of<'a, S: Shelf, D: Desk, C, R: Input, W: Output, E: Output>(
    given: &CommandArgs<'_, 'a>,
    host: &mut Host<S, D, C, R, W, E>,
) -> Result<u8, Refusal<'a>>
    ensures { IfOk result (λ status. status ≤ 5) }
{
    let timed = timed_run_args(given, host)?;
    let (alloc, file) = (host.alloc, timed.run.file);
    let text = expanded_text_of(
        alloc,
        file,
        &mut host.shelf,
        &mut host.input,
        &mut host.complaints,
    )?;
    let assembled = assembled_text(alloc, file, text.as_slice(), &mut host.complaints)?;
    report_warnings_of(alloc, file, &assembled, &mut host.complaints)?;
    let asked = after_run_of(alloc, assembled.program(), given)?;
    refuse_overwriting_input(Message::ImageOverwrites, asked.image, file, &host.desk)?;
    let message = Message::PictureOverwrites;
    refuse_overwriting_input(message, asked.picture, file, &host.desk)?;
    refuse_overwriting_input(message, asked.picture, asked.image, &host.desk)?;
    run_assembled(&assembled, &timed, &asked, host)
}
