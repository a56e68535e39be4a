//! The state of an import: what the lines so far defined, and their results.

use crate::dialect::Dialect;
use crate::import::{Note, NoteKind};
use crate::names::Names;
use crate::parts::Parts;
use crate::pieces::{BLANKS, Piece, append};
use std::alloc::{AllocError, Allocator};

/// What lines belong to.
#[derive(Clone, Copy, PartialEq, Eq)]
pub(crate) enum Kind {
    If,
    Macro,
    Repeat,
    /// Lines that are read again and again.
    Unrolled,
    /// A block with names of its own.
    Scope,
    Zone,
    Raised,
    Dummy,
    /// A block of names that are numbered.
    Numbered,
}

/// A block that is not closed.
#[derive(Clone, Copy)]
pub(crate) struct Block<'a> {
    pub kind: Kind,
    /// The index of its first line.
    pub at: usize,
    /// The position in the new text where it begins.
    pub start: usize,
    /// How many lines were marked before it, and how many notes there were.
    pub marks: usize,
    pub notes: usize,
    /// How often its lines are read again.
    pub left: u32,
    /// The name of a macro, or of the counter of repeated lines that stands for another value.
    pub name: &'a [u8],
}

/// The state of an import: what the lines so far defined, and their results.
#[derive(Drop)]
pub(crate) struct Reading<'a, A: Allocator> {
    pub alloc: A,
    pub dialect: Dialect,
    pub names: Names<'a, A>,
    pub lines: Vec<Piece<'a>, A>,
    /// The index of the next line.
    pub next: usize,
    /// Whether texts have bit 7 set, in EDASM.
    pub high: bool,
    /// Whether texts have bit 7 inverted, in acme.
    pub raised: bool,
    /// The position in `text` where the lines of the statement begin.
    pub start: usize,
    /// The position in `text` where its label ends.
    pub front: usize,
    /// The lines of the new source so far.
    pub text: Vec<u8, A>,
    pub notes: Vec<Note, A>,
    /// How many lines are marked because they cannot be converted.
    pub marks: usize,
    /// How many blocks are open in lines that are marked as a whole.
    pub marking: usize,
    pub blocks: Vec<Block<'a>, A>,
    pub macros: Vec<&'a [u8], A>,
    /// The address of the next line among lines that produce no bytes.
    pub place: Vec<u8, A>,
    /// The addresses that are to have two bytes.
    pub far: Vec<Vec<u8, A>, A>,
    /// How many scopes without a name there were.
    pub zones: u32,
}

impl<'a, A: Allocator + Copy> Reading<'a, A> {
    /// Returns the state before the first of these lines.
    pub(crate) fn new(
        alloc: A,
        dialect: Dialect,
        lines: Vec<Piece<'a>, A>,
    ) -> Result<Reading<'a, A>, AllocError> {
        Ok(Reading {
            alloc,
            dialect,
            names: Names::new(alloc, dialect)?,
            lines,
            next: 0,
            high: true,
            raised: false,
            start: 0,
            front: 0,
            text: Vec::new(alloc),
            notes: Vec::new(alloc),
            marks: 0,
            marking: 0,
            blocks: Vec::new(alloc),
            macros: Vec::new(alloc),
            place: Vec::new(alloc),
            far: Vec::new(alloc),
            zones: 0,
        })
    }

    /// Appends a text.
    pub(crate) fn put_text(&mut self, text: &[u8]) -> Result<(), AllocError> {
        self.text.extend_from_slice(text)
    }

    /// Appends several texts, one after another.
    pub(crate) fn put(&mut self, pieces: &[&[u8]]) -> Result<(), AllocError> {
        append(&mut self.text, pieces)
    }

    /// Adds a note about a line.
    pub(crate) fn note(&mut self, line: usize, kind: NoteKind) -> Result<(), AllocError> {
        self.notes.push(Note { line, kind })?;
        Ok(())
    }

    /// Appends a line after a mark that no assembler accepts.
    pub(crate) fn put_mark(&mut self, line: &[u8]) -> Result<(), AllocError> {
        self.marks = self.marks.saturating_add(1);
        self.put(&[b"?? ", line.trim_ascii_end(), b"\n"])
    }

    /// Begins a line of the statement with an operation; the first one follows the label.
    pub(crate) fn put_front(&mut self, operation: &[u8]) -> Result<(), AllocError> {
        if self.text.len() > self.front {
            return self.put(&[b"\n", BLANKS, operation]);
        }
        let label_len = self.front.saturating_sub(self.start);
        let count = BLANKS.len().saturating_sub(label_len).max(1);
        let (blanks, _) = BLANKS.split_at(count.min(BLANKS.len()));
        self.put(&[blanks, operation])
    }

    /// Begins a statement with its label; returns whether the label has a form here.
    pub(crate) fn put_label(&mut self, parts: &Parts<'a>) -> Result<bool, AllocError> {
        if !parts.label.is_empty() {
            let is_equate = parts.is_equate();
            if !self
                .names
                .put_label(&mut self.text, parts.label, is_equate)?
            {
                return Ok(false);
            }
        }
        self.front = self.text.len();
        Ok(true)
    }

    /// Ends a line that has only the label of the statement, if there is one, so that the next line has none.
    pub(crate) fn end_label(&mut self) -> Result<(), AllocError> {
        if self.text.len() > self.start {
            self.text.push(b'\n')?;
        }
        self.start = self.text.len();
        self.front = self.start;
        Ok(())
    }

    /// Returns whether a block of this kind is open.
    pub(crate) fn is_in(&self, kind: Kind) -> bool {
        for block in self.blocks.iter() {
            if block.kind == kind {
                return true;
            }
        }
        false
    }

    /// Opens a block, whose first line is the last one that was read.
    pub(crate) fn open(&mut self, kind: Kind, name: &'a [u8]) -> Result<(), AllocError> {
        let block = Block {
            kind,
            at: self.next.saturating_sub(1),
            start: self.start,
            marks: self.marks,
            notes: self.notes.len(),
            left: 0,
            name,
        };
        self.blocks.push(block)?;
        Ok(())
    }

    /// Closes the innermost block, if it is of this kind.
    pub(crate) fn close(&mut self, kind: Kind) -> Option<Block<'a>> {
        match self.blocks.last() {
            Some(block) if block.kind == kind => self.blocks.pop(),
            _ => None,
        }
    }
}
