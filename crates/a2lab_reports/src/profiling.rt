//! The command `profile`.

ghost use Rattle.std.specs.Prelude.{◌≤◌, IfOk};

use a2_arguments::Arguments;
use a2_asm::Program;
use a2_bus::Keys;
use a2_explain::explain_wait;
use a2_host::Shelf;
use a2_machine::{Cause, write_cause};
use a2_profile::{
    Format, ProfileFault, Runs, Style, first_stop, profile_source, profile_source_routines,
};
use a2_run::{AssembledText, RunArgs, RunFault};
use a2_stream::{Input, Output, put_all};
use a2_text::decimal;
use a2_timed_keys::{Ended, TimedArgs};
use a2lab_commands::options::{BY, PROFILE_FORMAT, PROFILE_KEYS};
use a2lab_commands::{
    CommandArgs, Host, Refusal, TimedRunArgs, assembled_text, ended_of, expanded_text_of, keys_in,
    stop_status, timed_run_args, typed_refusal,
};
use std::alloc::Global;

// The arguments of `profile`, besides those of its runs.
#[derive(Drop)]
struct ProfileArgs<'a> {
    // Whether steps are counted by routine, and not by line.
    by_routine: bool,
    format: Format,
    // The keys of each run as they were typed. Without `--keys` there is one run, without keys.
    spellings: Vec<&'a str>,
    // The keys that wait at the start of each run.
    runs: Vec<Keys>,
}

// Returns the format that the options name.
fn format_in(arguments: &Arguments<'_>) -> Format {
    match arguments.text(&PROFILE_FORMAT) {
        Some("json") => Format::Json,
        Some("callgrind") => Format::Callgrind,
        _ => Format::Text,
    }
}

// Adds a run with the keys that `spelling` describes.
fn add_run<'a>(spelling: &'a str, asked: &mut ProfileArgs<'a>) -> Result<(), Refusal<'a>> {
    let keys = keys_in("profile", spelling)?;
    if asked.runs.push(keys).is_err() || asked.spellings.push(spelling).is_err() {
        return Err(Refusal::Fault(RunFault::Memory));
    }
    Ok(())
}

// Reads the options.
fn profile_args<'a>(
    alloc: Global,
    arguments: &Arguments<'a>,
) -> Result<ProfileArgs<'a>, Refusal<'a>> {
    let mut asked = ProfileArgs {
        by_routine: matches!(arguments.text(&BY), Some("routine")),
        format: format_in(arguments),
        spellings: Vec::new(alloc),
        runs: Vec::new(alloc),
    };
    for option in &arguments.options {
        if option.name == PROFILE_KEYS.name {
            add_run(option.value, &mut asked)?;
        }
    }
    if asked.runs.is_empty() {
        add_run("", &mut asked)?;
    }
    Ok(asked)
}

// Reports the cause of the stop of a run, with its number and its keys.
fn report_end<E: Output>(number: usize, spelling: &str, cause: Cause, complaints: &mut E) {
    // If this fails, there is no place left to report it.
    let _ = put_all(
        &[
            b"a2lab: profile: run ",
            decimal(number as u64).as_slice(),
            b", --keys ",
            spelling.as_bytes(),
            b": ",
        ],
        complaints,
    );
    let _ = write_cause(cause, complaints);
}

// Reports which lines wait for a key, if a run with these keys stops because of that.
fn report_wait<E: Output>(
    alloc: Global,
    assembled: &AssembledText<'_>,
    timed: &TimedRunArgs<'_>,
    keys: &Keys,
    complaints: &mut E,
) {
    let run = RunArgs {
        keys,
        limit: timed.run.limit,
        free: timed.run.free,
    };
    let args = TimedArgs {
        run,
        strokes: &timed.strokes,
    };
    if let Ok(ended) = Ended::of(alloc, assembled.program(), args) {
        // If this fails, there is no place left to report it.
        let _ = explain_wait(alloc, assembled, &ended, complaints);
    }
}

// Reports each of several runs that stopped for another cause than RETURNED, and of each run which lines wait for a key.
fn report_ends<E: Output>(
    alloc: Global,
    (assembled, causes): (&AssembledText<'_>, &[Cause]),
    timed: &TimedRunArgs<'_>,
    asked: &ProfileArgs<'_>,
    complaints: &mut E,
) {
    let several = causes.len() > 1;
    let mut number = 1usize;
    let spellings = asked.spellings.as_slice();
    for (cause, (spelling, keys)) in causes
        .iter()
        .zip(spellings.iter().zip(asked.runs.as_slice()))
    {
        if several && *cause != Cause::Returned {
            report_end(number, *spelling, *cause, complaints);
        }
        if matches!(*cause, Cause::Limit | Cause::Keys) {
            report_wait(alloc, assembled, timed, keys, complaints);
        }
        number = number.saturating_add(1);
    }
}

// Reports a recording of another source, and then ends the command before the profile is written.
fn check_recording<'a, E: Output>(
    alloc: Global,
    program: &Program<Global>,
    timed: &TimedRunArgs<'_>,
    complaints: &mut E,
) -> Result<(), Refusal<'a>> {
    if timed.recording.is_some() {
        ended_of(alloc, program, timed, complaints)?;
    }
    Ok(())
}

// Profiles the runs of a source, and returns the cause of each stop.
fn profile<W: Output>(
    alloc: Global,
    assembled: &AssembledText<'_>,
    timed: &TimedRunArgs<'_>,
    asked: &ProfileArgs<'_>,
    output: &mut W,
) -> Result<Vec<Cause>, ProfileFault> {
    let runs = Runs {
        keys: asked.runs.as_slice(),
        strokes: &timed.strokes,
        limit: timed.run.limit,
        free: timed.run.free,
    };
    let style = Style {
        name: timed.run.file.unwrap_or("-").as_bytes(),
        format: asked.format,
    };
    if asked.by_routine {
        profile_source_routines(alloc, assembled, runs, style, output)
    } else {
        profile_source(alloc, assembled, runs, style, output)
    }
}

// Returns the error that ends the command.
fn refusal_of<'a>(name: &'static str, fault: ProfileFault) -> Refusal<'a> {
    match fault {
        ProfileFault::Run(fault) => typed_refusal(name, fault),
        ProfileFault::Write => Refusal::Fault(RunFault::Write),
    }
}

/// Profiles one run for each `--keys`, or one run. Of several, it reports each that stopped for another cause than RETURNED, and of each
/// which lines wait for a key. The exit status is that of the first such run.
#[inline(never)]
pub fn profile_of<'a, S: Shelf, D, C, R: Input, W: Output, E: Output>(
    given: &CommandArgs<'_, 'a>,
    host: &mut Host<S, D, C, R, W, E>,
) -> Result<u8, Refusal<'a>>
    ensures { IfOk result (λ status. status ≤ 5) }
{
    let asked = profile_args(host.alloc, given.arguments)?;
    let timed = timed_run_args(given, host)?;
    let (alloc, file) = (host.alloc, timed.run.file);
    let text = expanded_text_of(
        alloc,
        file,
        &mut host.shelf,
        &mut host.input,
        &mut host.complaints,
    )?;
    let assembled = assembled_text(alloc, file, text.as_slice(), &mut host.complaints)?;
    check_recording(alloc, assembled.program(), &timed, &mut host.complaints)?;
    let causes = match profile(alloc, &assembled, &timed, &asked, &mut host.output) {
        Ok(causes) => causes,
        Err(fault) => return Err(refusal_of(timed.command, fault)),
    };
    let causes = causes.as_slice();
    report_ends(
        alloc,
        (&assembled, causes),
        &timed,
        &asked,
        &mut host.complaints,
    );
    Ok(stop_status(first_stop(causes)))
}
