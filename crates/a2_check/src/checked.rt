//! A source with errors, and the message for each error.

use crate::finding::finding;
use crate::layout::Place;
use crate::line::parts_of;
use crate::message::Message;
use crate::mistake::Sentence;
use a2_asm::Program;
use a2_syntax::{Fault, Line};
use std::alloc::{AllocError, Allocator};

/// A source with errors.
#[derive(Drop)]
pub(crate) struct Checked<'a, A: Allocator> {
    pub source: &'a [u8],
    /// Its lines as written.
    pub texts: &'a [&'a [u8]],
    /// The parsed lines if every line is in the grammar; otherwise none.
    pub lines: &'a [Line<A>],
    /// The program of the source with each out-of-range value replaced by a word, if that assembles.
    pub values: Option<&'a Program<A>>,
}

// Returns the message for a text that is too large.
fn too_large<'a>(line: u16) -> Message<'a> {
    let (what, fix): (Sentence, Sentence) = match line {
        0 => (
            b"the source has more than 65536 bytes",
            b"shorten it, or make two programs of it",
        ),
        4097 => (
            b"the source has more than 4096 lines",
            b"shorten it, or make two programs of it",
        ),
        _ => (
            b"the line has more than 255 bytes",
            b"shorten it; continue a comment in the next line, after another ;",
        ),
    };
    Message::new(0, 1, what, fix)
}

/// Returns the line with this number, counted from 1, or an empty line if there is none.
pub(crate) fn line_at<'a>(texts: &[&'a [u8]], number: u16) -> &'a [u8] {
    texts
        .get(usize::from(number).wrapping_sub(1))
        .copied()
        .unwrap_or(b"")
}

// Returns the message for a line that is not in the grammar.
fn not_a_line<'a>(text: &'a [u8], source: &[u8], number: u16) -> Message<'a> {
    let whole = if number == 1 { source } else { b"" };
    Message::of_finding(finding(text, whole), parts_of(text))
}

impl<'a, A: Allocator + Copy> Checked<'a, A> {
    /// Returns the message for an error.
    pub(crate) fn message(&'a self, alloc: A, fault: Fault) -> Result<Message<'a>, AllocError> {
        match fault {
            Fault::TooLarge(line) => Ok(too_large(line)),
            Fault::Syntax(line) => Ok(not_a_line(line_at(self.texts, line), self.source, line)),
            Fault::NoCode | Fault::Memory => Ok(Message::new(
                0,
                1,
                b"the source has no instruction",
                b"write one with a blank before it, such as  RTS",
            )),
            _ => match Place::of(self, fault.line()) {
                Some(place) => place.message(alloc, fault),
                None => Ok(Message::new(0, 1, b"the line has an error", b"check the line")),
            },
        }
    }
}
