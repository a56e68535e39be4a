//! Importing a source of another assembler.

ghost use Rattle.std.specs.Prelude.{◌≡◌, ◌↔◌, IsTrue, IfOk};
ghost use Rattle.a2_import.specs.Plain.{IsSomeSource};
ghost use Rattle.a2_import.specs.Marks.{is_marked};

use crate::comparison::{Difference, differences_of};
use crate::cutting::pieces_of;
use crate::dialect::Dialect;
use crate::fault::ImportFault;
use crate::outcome::{is_marked, is_source};
use crate::parts::parts_of;
use crate::pieces::{BLANKS, Piece};
use crate::reading::Reading;
use crate::rules::Action;
use a2_syntax::Fault;
use a2_text::cut;
use std::alloc::{AllocError, Allocator, Global};

// The most bytes of a text.
const MOST_BYTES: usize = 65536;

// The most lines that are read, counted each time they are read.
const MOST_STEPS: u32 = 200_000;

/// What is to be known of an imported line.
#[derive(Clone, Copy, Debug, PartialEq, Eq)]
pub enum NoteKind {
    /// The line includes another file, which is not converted with it.
    File,
    /// The line has no meaning in this language and was kept as a comment.
    Nothing,
    /// The line cannot be converted and was kept after a mark that no assembler accepts.
    Unknown,
}

/// A note about a line.
#[derive(Clone, Copy, Debug, PartialEq, Eq)]
pub struct Note {
    /// The line of the old text, counted from 1.
    pub line: usize,
    pub kind: NoteKind,
}

/// The result of an import.
pub struct Imported<A: Allocator = Global> {
    pub text: Vec<u8, A>,
    /// The notes, in the order of the lines.
    pub notes: Vec<Note, A>,
    /// Whether the text is a source of the plain language.
    pub is_plain: bool,
    /// Whether a line of the text is after a mark because it cannot be converted.
    pub is_marked: bool,
    /// How many lines are.
    pub marks: usize,
    /// The lines of a printed listing whose bytes are not those of the text.
    pub differences: Vec<Difference, A>,
}

// Not derived, only for the prover: it treats this as one call, and a derived `drop` field by field.
impl<A: Allocator> Drop for Imported<A> {
    fn drop(self) {
        let Imported {
            text: _,
            notes: _,
            is_plain: _,
            is_marked: _,
            marks: _,
            differences: _,
        } = self;
    }
}

impl<'a, A: Allocator + Copy> Reading<'a, A> {
    // Whether a line sets the address.
    fn sets_address(&self) -> bool {
        for piece in self.lines.iter() {
            if matches!(
                parts_of(self.dialect, piece.text).action,
                Some(Action::Origin)
            ) {
                return true;
            }
        }
        false
    }

    // Imports all lines.
    fn run(&mut self) -> Result<(), AllocError> {
        self.scan()?;
        if self.dialect == Dialect::Easy && !self.sets_address() {
            self.put(&[BLANKS, b"ORG $0600\n"])?;
        }
        for _ in 0..MOST_STEPS {
            let Some(piece) = self.lines.get(self.next).copied() else {
                break;
            };
            self.next = self.next.saturating_add(1);
            self.read(piece)?;
        }
        self.finish()
    }
}

// The result of importing these lines.
fn imported_from<'a, A: Allocator + Copy>(
    alloc: A,
    dialect: Dialect,
    lines: &[&'a [u8]],
) -> Result<Imported<A>, AllocError>
    ensures plain { IfOk result (λ made. IsTrue made.is_plain ↔ IsSomeSource made.text.items) }
    ensures marked { IfOk result (λ made. made.is_marked ≡ is_marked made.text.items) }
{
    let (pieces, others) = pieces_of(alloc, dialect, lines)?;
    let mut reading = Reading::new(alloc, dialect, pieces)?;
    reading.run()?;
    reading.put_others(others.as_slice())?;
    let differences = differences_of(alloc, lines, reading.text.as_slice())?;
    let is_plain = is_source(alloc, reading.text.as_slice())?;
    let is_marked = is_marked(alloc, reading.text.as_slice())?;
    Ok(Imported {
        text: reading.text,
        notes: reading.notes,
        is_plain,
        is_marked,
        marks: reading.marks,
        differences,
    })
}

/// Returns a source of another assembler as a source of this language, with a note for each line that has no meaning here, that
/// includes a file, or that cannot be imported. The text is plain if nothing in it needs the larger language. A line that cannot be
/// imported stays after `?? `, which no command accepts, together with the block that it begins. Line numbers are removed, and so is
/// what an assembler printed before its lines; if there are bytes in it, they are compared with those of the text.
///
/// Fails with `Refused` if the result would be too large, or if memory runs out.
pub fn import_source<A: Allocator + Copy>(
    alloc: A,
    dialect: Dialect,
    text: &[u8],
) -> Result<Imported<A>, ImportFault>
    ensures plain { IfOk result (λ made. IsTrue made.is_plain ↔ IsSomeSource made.text.items) }
    ensures marked { IfOk result (λ made. made.is_marked ≡ is_marked made.text.items) }
{
    let lines = cut(alloc, text)?;
    let made = imported_from(alloc, dialect, lines.as_slice())?;
    if made.text.len() > MOST_BYTES {
        return Err(ImportFault::Refused(Fault::TooLarge(0)));
    }
    Ok(made)
}
