//! Writes films: a run as one page of HTML that goes forwards and backwards through it.
//!
//! The page holds its data as lines of text, with a row for each step. It is proved what a row says and how it is spelt, that the
//! rows give the run's worlds back, and that they can be read. The page's own script, which reads them, is not proved.
//!
//! CALLING.md shows how to call it.
#![tactic(auto)]

ghost use Rattle.a2_film.specs.Laws.{FramesShowTheRun, DataHaveNoTag, RowsReadBack};

mod chapters;
mod film;
mod head;
mod kept;
mod page;
mod rows;
mod steps;
mod stores;
mod texts;
mod viewer;

pub use chapters::{Chapter, Place, ScriptFault, chapters_of};
pub use film::{FilmedRun, Reel, Titles, Window, film_run, film_source};

/// A law, and no code. Take any world of a run and any number of steps that the run executes after it: as many changes, as the rows
/// of its film say them, applied to that world, give the world that the run's meaning has then. Registers, cycles, keys and
/// switches are the same, and the byte at each address of RAM.
pub fn frames_show_the_run()
    ensures { FramesShowTheRun }
{}

/// A law, and no code: whatever the bytes of a source, of its title, of its chapters and of its keys are, the data of its film have
/// no `<`. So nothing in them ends their script or begins a tag.
pub fn data_have_no_tag()
    ensures { DataHaveNoTag }
{}

/// A law, and no code: for any changes whose numbers fit their fields, the reader of `specs/Reader.antt` reads these changes back
/// from their rows.
pub fn rows_read_back()
    ensures { RowsReadBack }
{}
