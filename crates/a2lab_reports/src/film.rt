//! The command `film`: its arguments, and the page that it writes.

ghost use Rattle.std.specs.Prelude.{◌≡◌, ◌≤◌, codes, IfSome, IfOk};
ghost use Rattle.a2_arguments.specs.Found.{found_of, text_given};
ghost use Rattle.a2lab_reports.specs.Filmed.{FilmsInto};

use a2_arguments::Arguments;
use a2_asm::Program;
use a2_explain::explain_stop;
use a2_film::{FilmedRun, ScriptFault, Titles, Window, chapters_of, film_source};
use a2_host::{Desk, Shelf};
use a2_machine::Cause;
use a2_run::{AssembledText, RunFault};
use a2_stream::{Input, Output};
use a2_symbols::statement_at;
use a2_text::{after_blanks, cut, decimal, split_word};
use a2_timed_keys::Ended;
use a2lab_commands::options::{FILM_FROM, FILM_LIMIT, PAGE, SCRIPT, STEPS, TITLE};
use a2lab_commands::{
    CommandArgs, Host, Message, Refusal, TimedRunArgs, Value, assembled_text, ended_of,
    expanded_text_of, refuse_overwriting_input, report, settled, stop_status, text_of,
    timed_run_args,
};
use std::alloc::{AllocError, Global};

// The most steps of a film without `--steps` and `--limit`.
const USUAL_STEPS: u32 = 100_000;

// The most steps of a film.
const FILM_MAX_STEPS: u32 = 1_000_000;

// The options of `film`, besides those of its run.
#[derive(Clone, Copy, Drop)]
struct FilmArgs<'a> {
    // The file to which the page is written, or `None` for standard output.
    page: Option<&'a str>,
    // The file with the chapters of a lesson.
    script: Option<&'a str>,
    // The step of the run after which the film begins.
    from: u32,
    // The most steps of the film, if given.
    steps: Option<u32>,
}

// Reads the options of `film`.
fn film_args<'a>(arguments: &Arguments<'a>) -> FilmArgs<'a> {
    FilmArgs {
        page: arguments.text(&PAGE),
        script: arguments.text(&SCRIPT),
        from: arguments.number(&FILM_FROM).unwrap_or(0),
        steps: arguments.number(&STEPS),
    }
}

// The part of a run that a film shows; `limit` is the most steps of the run, if given.
fn window_of(film: &FilmArgs<'_>, limit: Option<u32>) -> Window {
    let from = match limit {
        Some(limit) => film.from.min(limit),
        None => film.from,
    };
    let left = match limit {
        Some(limit) => limit.saturating_sub(from),
        None => FILM_MAX_STEPS,
    };
    let steps = match (film.steps, limit) {
        (Some(steps), _) => steps.min(left),
        (None, Some(_)) => left,
        (None, None) => USUAL_STEPS,
    };
    Window {
        from,
        steps: steps.min(FILM_MAX_STEPS),
    }
}

// The same for a run of a command. A recorded session is shown whole, if it is not too long.
fn window_of_run(asked: &FilmArgs<'_>, timed: &TimedRunArgs<'_>, limit: Option<u32>) -> Window {
    match timed.recording {
        Some(_) => window_of(asked, Some(timed.run.limit)),
        None => window_of(asked, limit),
    }
}

/// Writes the film of a part of a finished run to the file `page`, which is replaced whole or not at all. Fails if a write
/// fails or there is no memory.
pub fn film_into<D: Desk>(
    alloc: Global,
    assembled: &AssembledText<'_>,
    titles: Titles<'_>,
    run: FilmedRun<'_, '_>,
    page: &str,
    desk: &mut D,
) -> Result<Cause, RunFault>
    ensures { FilmsInto assembled.now.text titles.entry.title.now titles.entry.chapters.now run.entry.ended.now
        run.entry.window page.now (D.files desk.old) (D.files desk.new) result }
{
    let mut draft = desk.begin(page)?;
    let answer = film_source(alloc, assembled, titles, run, &mut draft);
    settled(page, draft, answer, desk)
}

// Writes the film of a part of a finished run to `page` or to the output.
fn film<S, D: Desk, C, R, W: Output, E>(
    assembled: &AssembledText<'_>,
    titles: Titles<'_>,
    run: FilmedRun<'_, '_>,
    page: Option<&str>,
    host: &mut Host<S, D, C, R, W, E>,
) -> Result<Cause, RunFault> {
    match page {
        Some(page) => film_into(host.alloc, assembled, titles, run, page, &mut host.desk),
        None => film_source(host.alloc, assembled, titles, run, &mut host.output),
    }
}

// Returns the name of a file without its folder, or the program's name for standard input.
fn name_of(file: Option<&str>) -> &str {
    let path = file.unwrap_or("a2");
    match path.rsplit_once('/') {
        Some((_, name)) => name,
        None => path,
    }
}

// Returns the title of the film of a file: the one that the arguments give, or the name of the file.
fn title_of<'a>(arguments: &Arguments<'a>, file: Option<&'a str>) -> &'a str
    ensures { IfSome (text_given (codes "--title") (found_of arguments.now)) (λ title. result.now ≡ title) }
{
    match arguments.text(&TITLE) {
        Some(title) => title,
        None => name_of(file),
    }
}

// Reports why a filmed run stopped, if it stopped early and not at the end of a recording.
fn report_early_stop<E: Output>(
    alloc: Global,
    assembled: &AssembledText<'_>,
    ended: &Ended<'_>,
    timed: &TimedRunArgs<'_>,
    complaints: &mut E,
) {
    let (machine, cause) = (ended.machine(), ended.cause());
    if stop_status(cause) == 0 || timed.is_at_end(machine.steps()) {
        return;
    }
    // If this fails, there is no place left to report it.
    let _ = explain_stop(alloc, assembled, ended, complaints);
}

// Runs a source, and writes the film of a part of the run to `page` or to the output. Returns the exit status.
fn film_window<'a, S, D: Desk, C, R, W: Output, E: Output>(
    assembled: &AssembledText<'_>,
    titles: Titles<'_>,
    timed: &TimedRunArgs<'a>,
    window: Window,
    page: Option<&str>,
    host: &mut Host<S, D, C, R, W, E>,
) -> Result<u8, Refusal<'a>>
    ensures { IfOk result (λ status. status ≤ 5) }
{
    let ended = ended_of(host.alloc, assembled.program(), timed, &mut host.complaints)?;
    let run = FilmedRun {
        ended: &ended,
        window,
    };
    let cause = film(assembled, titles, run, page, host)?;
    report_early_stop(host.alloc, assembled, &ended, timed, &mut host.complaints);
    timed.report_untyped(ended.machine().steps(), &mut host.complaints);
    Ok(stop_status(cause))
}

// Returns the number of the line to whose address a label leads, counted from 1.
fn line_of_label(program: &Program<Global>, label: &[u8]) -> Option<u16> {
    let Ok(name) = str::from_utf8(label) else {
        return None;
    };
    let address = program.name(name)?;
    let statement = statement_at(program.statements(), address)?;
    Some(statement.line)
}

// Returns a script with the number of its line in place of each label of the source after `line`.
fn with_numbers(
    alloc: Global,
    program: &Program<Global>,
    script: &[u8],
) -> Result<Vec<u8>, AllocError> {
    let mut text = Vec::new(alloc);
    let lines = cut(alloc, script)?;
    for line in lines.as_slice() {
        let (word, rest) = split_word(*line);
        let (label, following) = split_word(after_blanks(rest));
        match line_of_label(program, label) {
            Some(number) if word == b"line".as_slice() => {
                text.extend_from_slice(b"line ")?;
                text.extend_from_slice(decimal(u64::from(number)).as_slice())?;
                text.extend_from_slice(following)?;
            }
            _ => text.extend_from_slice(*line)?,
        }
        text.extend_from_slice(b"\n")?;
    }
    Ok(text)
}

/// Writes the film of a run. The exit status is 1 if the source or the script has an error, and 3 if the run stopped for another cause
/// than RETURNED or BRK.
#[inline(never)]
pub fn film_of<'a, S: Shelf, D: Desk, C, R: Input, W: Output, E: Output>(
    given: &CommandArgs<'_, 'a>,
    host: &mut Host<S, D, C, R, W, E>,
) -> Result<u8, Refusal<'a>>
    ensures { IfOk result (λ status. status ≤ 5) }
{
    let asked = film_args(given.arguments);
    let mut timed = timed_run_args(given, host)?;
    let window = window_of_run(&asked, &timed, given.arguments.number(&FILM_LIMIT));
    timed.limit_to(window.from.saturating_add(window.steps));
    let (alloc, file) = (host.alloc, timed.run.file);
    let message = Message::PageOverwrites;
    refuse_overwriting_input(message, asked.page, file, &host.desk)?;
    refuse_overwriting_input(message, asked.page, asked.script, &host.desk)?;
    let text = expanded_text_of(
        alloc,
        file,
        &mut host.shelf,
        &mut host.input,
        &mut host.complaints,
    )?;
    let script = match asked.script {
        Some(_) => text_of(alloc, asked.script, &mut host.shelf, &mut host.input)?,
        None => Vec::new(alloc),
    };
    let assembled = assembled_text(alloc, file, text.as_slice(), &mut host.complaints)?;
    let script = with_numbers(alloc, assembled.program(), script.as_slice())?;
    let chapters = match chapters_of(alloc, script.as_slice()) {
        Ok(chapters) => chapters,
        Err(ScriptFault::Line(line)) => {
            let name = asked.script.unwrap_or("-");
            let values = [Value::Text(name), Value::Number(line as u64)];
            report(Message::ScriptLine, &values, &mut host.complaints);
            return Ok(1);
        }
        Err(ScriptFault::Memory) => return Err(Refusal::Fault(RunFault::Memory)),
    };
    let titles = Titles {
        title: title_of(given.arguments, file).as_bytes(),
        chapters: chapters.as_slice(),
    };
    film_window(&assembled, titles, &timed, window, asked.page, host)
}
