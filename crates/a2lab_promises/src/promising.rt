//! The command `promise`: its arguments and its exit status.

ghost use Rattle.std.specs.Prelude.{◌≤◌, IfOk};

use crate::failing::film_first;
use a2_arguments::Arguments;
use a2_host::{Desk, Shelf};
use a2_promise_try::{Asked, Judgement, ReportForm, Trials, judge_all, run_cases};
use a2_stream::{Input, Output};
use a2lab_commands::options::{FILM, ONLY_PROMISE, PROMISE_JSON, STATES};
use a2lab_commands::{
    CommandArgs, Host, Message, Refusal, Value, assembled_text, expanded_text_of,
    refuse_overwriting_input, report,
};
use a2lab_reports::read_sessions;

// How many states are tried without `--states`.
const TRIALS: Trials = Trials {
    all: 1 << 24,
    some: 1_000_000,
};

// The options: how many states are tried, of which routine, the file to which a film is written, and the form of the report.
#[derive(Clone, Copy)]
struct PromiseArgs<'a> {
    trials: Trials,
    only: Option<&'a str>,
    page: Option<&'a str>,
    form: ReportForm,
}

// Reads the options.
fn promise_args<'a>(arguments: &Arguments<'a>) -> PromiseArgs<'a> {
    let trials = match arguments.number(&STATES) {
        Some(states) => Trials {
            all: u64::from(states),
            some: u64::from(states),
        },
        None => TRIALS,
    };
    let form = if arguments.has(&PROMISE_JSON) {
        ReportForm::Json
    } else {
        ReportForm::Text
    };
    PromiseArgs {
        trials,
        only: arguments.text(&ONLY_PROMISE),
        page: arguments.text(&FILM),
        form,
    }
}

// Reports that a source has no promises, or none of the routine that is asked for.
fn report_no_promise<E: Output>(file: &str, only: Option<&str>, complaints: &mut E) {
    match only {
        Some(name) => {
            let values = [Value::Text(file), Value::Text(name)];
            report(Message::NoPromiseOf, &values, complaints)
        }
        None => report(Message::NoPromise, &[Value::Text(file)], complaints),
    }
}

// Returns the exit status, and reports a source without promises.
fn status_of<E: Output>(
    file: &str,
    only: Option<&str>,
    judgement: &Judgement,
    complaints: &mut E,
) -> u8
    ensures { result ≤ 6 }
{
    if judgement.promises == 0 {
        report_no_promise(file, only, complaints);
        1
    } else if judgement.is_any_refused {
        1
    } else if judgement.is_any_failed {
        6
    } else {
        0
    }
}

/// Tries the promises of a source, and writes a film of the first run that fails if `--film` asks for it. The exit status is 6 if a
/// promise does not hold, and 1 if the source or a promise has an error or there is no promise.
#[inline(never)]
pub fn promise_of<'a, S: Shelf, D: Desk, C, R: Input, W: Output, E: Output>(
    given: &CommandArgs<'_, 'a>,
    host: &mut Host<S, D, C, R, W, E>,
) -> Result<u8, Refusal<'a>>
    ensures { IfOk result (λ status. status ≤ 6) }
{
    let wish = promise_args(given.arguments);
    let file = given.arguments.file();
    refuse_overwriting_input(Message::FilmOverwrites, wish.page, file, &host.desk)?;
    let alloc = host.alloc;
    let text = expanded_text_of(
        alloc,
        file,
        &mut host.shelf,
        &mut host.input,
        &mut host.complaints,
    )?;
    let assembled = assembled_text(alloc, file, text.as_slice(), &mut host.complaints)?;
    let name = file.unwrap_or("-");
    let mut runs = run_cases(alloc, text.as_slice())?;
    let unread = read_sessions("promise", name, &mut runs, host)?;
    if unread > 0 {
        return Ok(unread);
    }
    let asked = Asked {
        trials: wish.trials,
        form: wish.form,
        only: wish.only,
        runs: runs.as_slice(),
    };
    let judgement = judge_all(alloc, &assembled, asked, &mut host.output)?;
    let (title, first) = (name.as_bytes(), judgement.first.as_ref());
    film_first(&assembled, title, first, wish.page, host)?;
    Ok(status_of(name, wish.only, &judgement, &mut host.complaints))
}
