//! The films in the page that `test` writes: one for each case that fails, and the page that shows them.

use a2_bus::Keys;
use a2_film::{FilmedRun, Titles, Window, film_source};
use a2_machine::Machine;
use a2_run::{AssembledText, RunArgs, RunFault};
use a2_stream::{Output, ToWrite};
use a2_tests::{
    Case, Format, Totals, Verdict, Viewer, conditions_of, put_film, put_tail, text_of_case,
};
use a2_timed_keys::{Ended, Strokes, TimedArgs, TypedFault};
use std::alloc::{AllocError, Global};

// The most steps of a film: the last ones of the run.
const MOST_STEPS: u32 = 3000;

/// A solution: the name of its file, its number in the page, and its source.
#[derive(Clone, Copy)]
pub struct Filmed<'a> {
    pub name: &'a str,
    pub solution: u32,
    pub source: &'a [u8],
}

// Returns the last steps of a run.
fn window_of(machine: &Machine) -> Window {
    let steps = u32::try_from(machine.steps()).unwrap_or(u32::MAX);
    Window {
        from: steps.saturating_sub(MOST_STEPS),
        steps: MOST_STEPS,
    }
}

// Returns the title of the film of a case.
fn title_of(alloc: Global, name: &str, case: &[u8]) -> Result<Vec<u8>, AllocError> {
    let mut title = Vec::from_slice(alloc, name.as_bytes())?;
    if !case.is_empty() {
        title.extend_from_slice(b": ")?;
        title.extend_from_slice(case)?;
    }
    Ok(title)
}

// Returns the page of the film of a run, or an empty one if more keys would wait than fit.
fn film_of_run(
    alloc: Global,
    assembled: &AssembledText<'_>,
    args: TimedArgs<'_>,
    title: &[u8],
) -> Result<Vec<u8>, RunFault> {
    let mut page = Vec::new(alloc);
    let ended = match Ended::of(alloc, assembled.program(), args) {
        Ok(ended) => ended,
        Err(TypedFault::Full(_)) => return Ok(page),
        Err(TypedFault::Memory) => return Err(RunFault::Memory),
    };
    let titles = Titles {
        title,
        chapters: &[],
    };
    let run = FilmedRun {
        ended: &ended,
        window: window_of(ended.machine()),
    };
    film_source(alloc, assembled, titles, run, &mut ToWrite::new(&mut page))?;
    Ok(page)
}

// Returns the page of the film of a case, or an empty one if it has no run.
fn film_of(alloc: Global, filmed: &Filmed<'_>, case: &Case<Global>) -> Result<Vec<u8>, RunFault> {
    let text = text_of_case(alloc, case, filmed.source)?;
    let assembled = match AssembledText::of(alloc, text.as_slice()) {
        Ok(assembled) => assembled,
        Err(RunFault::Memory) => return Err(RunFault::Memory),
        Err(_) => return Ok(Vec::new(alloc)),
    };
    let how = conditions_of(alloc, case)?;
    let title = title_of(alloc, filmed.name, case.name)?;
    film_of_run(alloc, &assembled, how.args(&case.session), title.as_slice())
}

// Returns the page of a film of a short run.
fn any_film(alloc: Global) -> Result<Vec<u8>, RunFault> {
    let assembled = AssembledText::of(alloc, b" RTS\n")?;
    let (keys, strokes) = (Keys::new(), Strokes::new(alloc));
    let run = RunArgs {
        keys: &keys,
        limit: 1,
        free: false,
    };
    let args = TimedArgs {
        run,
        strokes: &strokes,
    };
    film_of_run(alloc, &assembled, args, b"")
}

// The page of a film in three parts.
#[derive(Clone, Copy)]
struct Parts<'a> {
    head: &'a [u8],
    rows: &'a [u8],
    tail: &'a [u8],
}

// Returns how many bytes are before the first place where a text contains a part, or its length.
fn length_before(text: &[u8], part: &[u8]) -> usize {
    for index in 0..text.len() {
        if text[index..].starts_with(part) {
            return index;
        }
    }
    text.len()
}

// Returns the parts of the page of a film. Its rows begin with their form, which is nowhere before them, and have no `<`.
fn parts_of(page: &[u8]) -> Parts<'_> {
    let (head, rest) = page.split_at(length_before(page, b"FILM 1\n").min(page.len()));
    let (rows, tail) = rest.split_at(length_before(rest, b"<").min(rest.len()));
    Parts { head, rows, tail }
}

/// Writes the films of the cases that a solution fails.
pub fn put_films<W: Output>(
    alloc: Global,
    filmed: &Filmed<'_>,
    cases: &[Case<Global>],
    verdicts: &[Verdict<Global>],
    output: &mut W,
) -> Result<(), RunFault> {
    for (index, (case, verdict)) in cases.iter().zip(verdicts).enumerate() {
        if let Verdict::Missed(_, _) = verdict {
            let page = film_of(alloc, filmed, case)?;
            let rows = parts_of(page.as_slice()).rows;
            put_film(filmed.solution, index, rows, output)?;
        }
    }
    Ok(())
}

/// Writes the end of a report. If it has films, their page is in it once.
pub fn put_end<W: Output>(
    alloc: Global,
    format: Format,
    totals: &Totals,
    output: &mut W,
) -> Result<(), RunFault> {
    let page = if let Format::Html = format {
        any_film(alloc)?
    } else {
        Vec::new(alloc)
    };
    let Parts {
        head,
        rows: _,
        tail,
    } = parts_of(page.as_slice());
    put_tail(format, totals, Viewer { head, tail }, output)?;
    Ok(())
}
