//! The command `trace`.

ghost use Rattle.std.specs.Prelude.{◌≤◌, IfOk};

use crate::spans::span_in;
use a2_arguments::{Arguments, Given};
use a2_asm::Program;
use a2_explain::{explain_stop, explain_wait};
use a2_host::Shelf;
use a2_machine::Cause;
use a2_run::AssembledText;
use a2_stream::{Input, Output};
use a2_symbols::Span;
use a2_trace::{Choice, trace_calls, trace_source};
use a2lab_commands::options::{CALLS, ONLY, STORES, TRACE_FROM, TRACE_LAST};
use a2lab_commands::{
    CommandArgs, Host, Message, Refusal, TimedRunArgs, assembled_text, ended_of, expanded_text_of,
    first_named, stop_status, timed_run_args,
};
use std::alloc::Global;

// Returns the addresses that an option names, if it was given.
fn place_in<'a>(
    front: &'static str,
    program: &Program<Global>,
    text: Option<&'a str>,
) -> Result<Option<Span>, Refusal<'a>> {
    match text {
        Some(text) => Ok(Some(span_in(front, program, text)?)),
        None => Ok(None),
    }
}

// Returns which steps a trace shows.
fn choice_of<'a>(
    program: &Program<Global>,
    arguments: &Arguments<'a>,
) -> Result<Choice, Refusal<'a>> {
    let mut choice = Choice::all();
    choice.from = arguments.number(&TRACE_FROM).unwrap_or(0);
    choice.last = arguments.number(&TRACE_LAST);
    choice.only = place_in("trace: --only", program, arguments.text(&ONLY))?;
    choice.stores = place_in("trace: --stores", program, arguments.text(&STORES))?;
    Ok(choice)
}

// Refuses options that choose steps beside `--calls`.
fn refuse_beside_calls<'a>(options: &[Given<'a>]) -> Result<(), Refusal<'a>> {
    let choosing = [TRACE_FROM.name, TRACE_LAST.name, ONLY.name, STORES.name];
    match first_named(options, &choosing) {
        Some(other) => Err(Refusal::of(Message::CallsWithOption, other)),
        None => Ok(()),
    }
}

// Runs a source, and prints the chosen steps of the run, or its tree of calls if no steps are chosen. Returns the exit status.
fn trace<'a, S, D, C, R, W: Output, E: Output>(
    assembled: &AssembledText<'_>,
    timed: &TimedRunArgs<'a>,
    choice: Option<Choice>,
    host: &mut Host<S, D, C, R, W, E>,
) -> Result<u8, Refusal<'a>>
    ensures { IfOk result (λ status. status ≤ 5) }
{
    let ended = ended_of(host.alloc, assembled.program(), timed, &mut host.complaints)?;
    match choice {
        Some(choice) => trace_source(host.alloc, &ended, &choice, &mut host.output)?,
        None => trace_calls(host.alloc, &ended, &mut host.output)?,
    }
    // If this fails, there is no place left to report it. (A trace is often limited on purpose.)
    let _ = match ended.cause() {
        Cause::Returned => Ok(()),
        Cause::Limit => explain_wait(host.alloc, assembled, &ended, &mut host.complaints),
        _ => explain_stop(host.alloc, assembled, &ended, &mut host.complaints),
    };
    timed.report_untyped(ended.machine().steps(), &mut host.complaints);
    Ok(stop_status(ended.cause()))
}

/// Prints the chosen steps of a run, or its tree of calls. The exit status is 3 if the run stopped for another cause than RETURNED or BRK.
#[inline(never)]
pub fn trace_of<'a, S: Shelf, D, C, R: Input, W: Output, E: Output>(
    given: &CommandArgs<'_, 'a>,
    host: &mut Host<S, D, C, R, W, E>,
) -> Result<u8, Refusal<'a>>
    ensures { IfOk result (λ status. status ≤ 5) }
{
    let timed = timed_run_args(given, host)?;
    let (alloc, file) = (host.alloc, timed.run.file);
    let text = expanded_text_of(
        alloc,
        file,
        &mut host.shelf,
        &mut host.input,
        &mut host.complaints,
    )?;
    let has_calls = given.arguments.has(&CALLS);
    if has_calls {
        refuse_beside_calls(given.arguments.options.as_slice())?;
    }
    let assembled = assembled_text(alloc, file, text.as_slice(), &mut host.complaints)?;
    let choice = if has_calls {
        None
    } else {
        Some(choice_of(assembled.program(), given.arguments)?)
    };
    trace(&assembled, &timed, choice, host)
}
