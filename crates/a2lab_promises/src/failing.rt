//! The film of a run in which a promise fails.

ghost use Rattle.a2lab_promises.specs.Filmed.{FilmsFailureInto};

use a2_film::{Chapter, Place, Reel, Titles, film_run};
use a2_host::Desk;
use a2_machine::Cause;
use a2_promise_try::{Failure, FirstFailure, machine_at_entry};
use a2_run::{AssembledText, RunFault};
use a2_stream::Output;
use a2lab_commands::{Host, Message, Value, report, settled};
use std::alloc::Global;

// The chapters of the film: at its end what fails, and at its start how the routine is entered.
fn chapters_of(first: &FirstFailure) -> [Chapter<'_>; 2] {
    [
        Chapter {
            place: Place::Step(first.failure.steps),
            text: first.claim.as_slice(),
        },
        Chapter {
            place: Place::Step(0),
            text: first.entered.as_slice(),
        },
    ]
}

/// Writes the film of the run in which a promise of a source fails to the file `page`, which is replaced whole or not at all. The film
/// begins at the routine's entry and ends where the routine returned or failed. Fails if a write fails or there is no memory.
pub fn failure_into<D: Desk>(
    alloc: Global,
    assembled: &AssembledText<'_>,
    title: &[u8],
    chapters: &[Chapter<'_>],
    address: u16,
    failure: &Failure,
    page: &str,
    desk: &mut D,
) -> Result<Cause, RunFault>
    ensures { FilmsFailureInto assembled.now.text title.now chapters.now assembled.now.program address failure.now page.now
        (D.files desk.old) (D.files desk.new) result }
{
    let reel = Reel {
        machine: machine_at_entry(alloc, assembled.program(), address, failure)?,
        limit: failure.steps,
        free: false,
    };
    let mut draft = desk.begin(page)?;
    let answer = film_run(
        alloc,
        assembled,
        Titles { title, chapters },
        reel,
        &mut draft,
    );
    settled(page, draft, answer, desk)
}

// Writes the film of a promise that fails.
fn film_failure<D: Desk>(
    alloc: Global,
    assembled: &AssembledText<'_>,
    title: &[u8],
    first: &FirstFailure,
    page: &str,
    desk: &mut D,
) -> Result<Cause, RunFault> {
    let chapters = chapters_of(first);
    let (address, failure) = (first.address, &first.failure);
    failure_into(
        alloc, assembled, title, &chapters, address, failure, page, desk,
    )
}

/// Writes the film of the first promise that fails to `page`, if one is given, or reports that none failed.
pub fn film_first<S, D: Desk, C, R, W, E: Output>(
    assembled: &AssembledText<'_>,
    title: &[u8],
    first: Option<&FirstFailure>,
    page: Option<&str>,
    host: &mut Host<S, D, C, R, W, E>,
) -> Result<(), RunFault> {
    let Some(page) = page else {
        return Ok(());
    };
    match first {
        Some(first) => {
            film_failure(host.alloc, assembled, title, first, page, &mut host.desk)?;
        }
        None => report(
            Message::NoFailure,
            &[Value::Text(page)],
            &mut host.complaints,
        ),
    }
    Ok(())
}
