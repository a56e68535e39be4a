//! The keys that are typed during a run, as the arguments of a command give them, and the run.

use crate::asked::{CommandArgs, FileRunArgs, run_args};
use crate::files::loaded_text;
use crate::host::Host;
use crate::messages::{Message, Value, report};
use crate::options::{FREE, KEYS, KEYS_AT, LIMIT, REPLAY};
use crate::refusal::Refusal;
use a2_arguments::{Arguments, Given};
use a2_asm::Program;
use a2_bus::Keys;
use a2_host::Shelf;
use a2_run::RunFault;
use a2_stream::Output;
use a2_timed_keys::{
    Ended, Record, RecordFault, StrokeFault, Strokes, TimedArgs, TypedFault, record_of, stroke_in,
};
use std::alloc::Global;

/// A recorded session whose keys are typed in a run.
#[derive(Clone, Copy)]
pub struct Recording<'a> {
    /// The name of its file.
    pub name: &'a str,
    /// How many steps the session ran.
    pub end: u64,
}

/// The arguments of a run in which keys are typed.
#[derive(Drop)]
pub struct TimedRunArgs<'a> {
    /// The name of the command.
    pub command: &'static str,
    pub run: FileRunArgs<'a>,
    /// The keys that are typed on the way.
    pub strokes: Strokes,
    /// The recording that they come from, if `--replay` names one.
    pub recording: Option<Recording<'a>>,
}

impl<'a> TimedRunArgs<'a> {
    /// Returns how the program of the file is run.
    pub fn args(&self) -> TimedArgs<'_> {
        TimedArgs {
            run: self.run.run(),
            strokes: &self.strokes,
        }
    }

    /// Makes the run no longer than so many steps, or than the session that it repeats.
    pub fn limit_to(&mut self, steps: u32) {
        self.run.limit = match self.recording {
            Some(_) => self.run.limit.min(steps),
            None => steps,
        };
    }

    /// Reports the first keys that were not typed because the run ended before their step. A recording may be longer than the run.
    pub fn report_untyped<E: Output>(&self, steps: u64, complaints: &mut E) {
        if self.recording.is_none() {
            report_untyped(self.command, &self.strokes, steps, complaints);
        }
    }

    /// Returns whether the run has made all steps of its recording.
    pub fn is_at_end(&self, steps: u64) -> bool {
        match self.recording {
            Some(recording) => steps >= recording.end,
            None => false,
        }
    }
}

/// Returns the first option with one of these names, which another option rules out.
pub fn first_named<'a>(options: &[Given<'a>], names: &[&str]) -> Option<&'static str> {
    for option in options {
        if names.contains(&option.name) {
            return Some(option.name);
        }
    }
    None
}

// Returns the step and the keys that a value of `--keys-at` spells, for the command `name`.
fn stroke_of<'a>(name: &'static str, word: &'a str) -> Result<(u32, Keys), Refusal<'a>> {
    match stroke_in(word) {
        Ok(stroke) => Ok(stroke),
        Err(StrokeFault::Steps) => Err(Refusal::of_two(Message::KeysAtForm, name, word)),
        Err(StrokeFault::Keys) => Err(Refusal::of_two(Message::KeysAtKeys, name, word)),
    }
}

/// Returns the keys that the options of the command `name` type at given steps.
pub fn strokes_of<'a>(
    alloc: Global,
    name: &'static str,
    arguments: &Arguments<'a>,
) -> Result<Strokes, Refusal<'a>> {
    let mut strokes = Strokes::new(alloc);
    for option in &arguments.options {
        if option.name == KEYS_AT.name {
            let (steps, keys) = stroke_of(name, option.value)?;
            strokes.add(steps, &keys)?;
        }
    }
    Ok(strokes)
}

/// Returns the recording in the file `name`. If a line is not one of a recording, reports it.
pub fn record_in<'a, S: Shelf, D, C, R, W, E: Output>(
    name: &'a str,
    host: &mut Host<S, D, C, R, W, E>,
) -> Result<Record, Refusal<'a>> {
    let text = loaded_text(host.alloc, name, &mut host.shelf)?;
    match record_of(host.alloc, text.as_slice()) {
        Ok(record) => Ok(record),
        Err(RecordFault::Line(line)) => {
            let values = [Value::Text(name), Value::Number(line as u64)];
            report(Message::RecordLine, &values, &mut host.complaints);
            Err(Refusal::Reported)
        }
        Err(RecordFault::Memory) => Err(Refusal::Fault(RunFault::Memory)),
    }
}

/// Returns how many steps a recorded session ran, if its keys were typed in these steps and a run can have as many.
pub fn end_of(record: &Record) -> Option<u32> {
    for typed in record.log.as_slice() {
        if typed.steps > record.end {
            return None;
        }
    }
    u32::try_from(record.end).ok()
}

// Returns the arguments of a run that repeats a recorded session, or as much of it as `--limit` allows.
fn replay_args<'a, S: Shelf, D, C, R, W, E: Output>(
    name: &'a str,
    given: &CommandArgs<'_, 'a>,
    host: &mut Host<S, D, C, R, W, E>,
) -> Result<TimedRunArgs<'a>, Refusal<'a>> {
    let options = given.arguments.options.as_slice();
    if let Some(other) = first_named(options, &[KEYS.name, KEYS_AT.name, FREE.name]) {
        return Err(Refusal::of_two(Message::ReplayWithOption, other, other));
    }
    let record = record_in(name, host)?;
    let Some(end) = end_of(&record) else {
        let values = [Value::Text(given.command.name), Value::Text(name)];
        report(
            Message::RecordOfAnotherSource,
            &values,
            &mut host.complaints,
        );
        return Err(Refusal::Reported);
    };
    let mut run = run_args(given)?;
    run.limit = match given.arguments.number(&LIMIT) {
        Some(limit) => limit.min(end),
        None => end,
    };
    Ok(TimedRunArgs {
        command: given.command.name,
        run,
        strokes: record.log,
        recording: Some(Recording {
            name,
            end: record.end,
        }),
    })
}

/// Returns the arguments of a run among those of a command, with the keys of `--keys-at` or of the recording that `--replay` names.
pub fn timed_run_args<'a, S: Shelf, D, C, R, W, E: Output>(
    given: &CommandArgs<'_, 'a>,
    host: &mut Host<S, D, C, R, W, E>,
) -> Result<TimedRunArgs<'a>, Refusal<'a>> {
    if let Some(name) = given.arguments.text(&REPLAY) {
        return replay_args(name, given, host);
    }
    Ok(TimedRunArgs {
        command: given.command.name,
        run: run_args(given)?,
        strokes: strokes_of(host.alloc, given.command.name, given.arguments)?,
        recording: None,
    })
}

/// Reports why a run has no end, and returns the error that ends the command `name`.
pub fn typed_refusal<'a>(name: &'static str, fault: TypedFault) -> Refusal<'a> {
    match fault {
        TypedFault::Full(steps) => Refusal::Message(
            Message::KeysAtFull,
            Value::Text(name),
            Value::Number(steps),
        ),
        TypedFault::Memory => Refusal::Fault(RunFault::Memory),
    }
}

// Reports a run that ended before the session that it repeats, and then ends the command.
fn check_recording<'a, E: Output>(
    asked: &TimedRunArgs<'_>,
    steps: u64,
    complaints: &mut E,
) -> Result<(), Refusal<'a>> {
    match asked.recording {
        Some(recording) if steps < u64::from(asked.run.limit) => {
            let values = [Value::Text(asked.command), Value::Text(recording.name)];
            report(Message::RecordOfAnotherSource, &values, complaints);
            Err(Refusal::Reported)
        }
        _ => Ok(()),
    }
}

/// Runs a program with the keys that are typed on the way. Too many keys, or a recording of another source, end the command.
pub fn ended_of<'p, 'a, E: Output>(
    alloc: Global,
    program: &'p Program<Global>,
    asked: &'p TimedRunArgs<'_>,
    complaints: &mut E,
) -> Result<Ended<'p>, Refusal<'a>> {
    let ended = match Ended::of(alloc, program, asked.args()) {
        Ok(ended) => ended,
        Err(fault) => return Err(typed_refusal(asked.command, fault)),
    };
    check_recording(asked, ended.machine().steps(), complaints)?;
    Ok(ended)
}

/// Reports the first keys that were not typed because the run of the command `name` ended before their step.
pub fn report_untyped<E: Output>(
    name: &'static str,
    strokes: &Strokes,
    steps: u64,
    complaints: &mut E,
) {
    for stroke in strokes.as_slice() {
        if stroke.steps > steps {
            let values = [
                Value::Text(name),
                Value::Number(steps),
                Value::Number(stroke.steps),
            ];
            return report(Message::KeysAtUntyped, &values, complaints);
        }
    }
}
