//! The texts that commands read, and what they must not overwrite.

ghost use Rattle.std.specs.Prelude.{◌≡◌, ◌≢◌, codes, IfSome};

use crate::messages::Message;
use crate::named::is_input;
use crate::refusal::Refusal;
use a2_host::{Desk, Shelf};
use a2_run::{RunFault, read_front, read_text};
use a2_stream::Input;
use a2_syntax::Fault;
use std::alloc::Global;

// The most bytes of a text to import, and of one that a session loads. The object lines of all of RAM, with eight bytes each, have
// 178,176.
const MOST_LOADED: usize = 1 << 20;

/// What messages call standard input.
pub const INPUT: &str = "standard input";

// Reads a text of at most a megabyte, which messages call `name`.
fn text_from<'a, R: Input>(
    alloc: Global,
    name: &'a str,
    reader: &mut R,
) -> Result<Vec<u8>, Refusal<'a>> {
    let text = match read_front(alloc, reader, MOST_LOADED + 1) {
        Ok(text) => text,
        Err(fault) => return Err(Refusal::of_reading(name, fault)),
    };
    if text.len() > MOST_LOADED {
        return Err(Refusal::Fault(RunFault::Source(Fault::TooLarge(0))));
    }
    Ok(text)
}

/// Reads a text of at most a megabyte from standard input, to import or to load into a session.
pub fn long_text<'a, R: Input>(alloc: Global, reader: &mut R) -> Result<Vec<u8>, Refusal<'a>> {
    text_from(alloc, INPUT, reader)
}

/// Reads the file `name`, of at most a megabyte, to import it or to load it into a session.
pub fn loaded_text<'a, S: Shelf>(
    alloc: Global,
    name: &'a str,
    shelf: &mut S,
) -> Result<Vec<u8>, Refusal<'a>> {
    let Ok(mut reader) = shelf.open(name) else {
        return Err(Refusal::Unopened(name));
    };
    text_from(alloc, name, &mut reader)
}

/// Reads the source `file`, or standard input if there is none or it is `-`.
pub fn text_of<'a, S: Shelf, R: Input>(
    alloc: Global,
    file: Option<&'a str>,
    shelf: &mut S,
    input: &mut R,
) -> Result<Vec<u8>, Refusal<'a>>
    // Standard input is not read in place of a file that cannot be opened.
    ensures unread { IfSome file.entry (λ name. name.now ≢ codes "-" → input.new ≡ input.old) }
{
    let (name, read) = match file {
        Some(name) if !is_input(name) => {
            let Ok(mut reader) = shelf.open(name) else {
                return Err(Refusal::Unopened(name));
            };
            (name, read_text(alloc, &mut reader))
        }
        _ => (INPUT, read_text(alloc, input)),
    };
    match read {
        Ok(text) => Ok(text),
        Err(fault) => Err(Refusal::of_reading(name, fault)),
    }
}

/// Refuses to overwrite `input`, which the command reads, with the file `written`, which an option names. `message` says so.
pub fn refuse_overwriting_input<'a, D: Desk>(
    message: Message,
    written: Option<&'a str>,
    input: Option<&'a str>,
    desk: &D,
) -> Result<(), Refusal<'a>> {
    let (Some(written), Some(input)) = (written, input) else {
        return Ok(());
    };
    if written == input || desk.are_same_file(written, input) {
        return Err(Refusal::of(message, input));
    }
    Ok(())
}
