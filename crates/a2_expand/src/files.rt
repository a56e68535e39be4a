//! Files that are included, and lines with messages.

use crate::adding::add;
use crate::fault::{ExpandFault, Origin, Problem, trouble};
use crate::flow::{Flow, Frame, Kind, without_label};
use crate::limits::MOST_FILES;
use crate::parts::{Parts, Word, split_item};
use crate::source::joined_name;
use std::alloc::Allocator;

/// A text of a line WARN.
#[derive(Drop)]
pub struct Warning<A: Allocator> {
    pub at: Origin,
    pub text: Vec<u8, A>,
}

// Returns the characters of a text in quotes.
fn text_in(operand: &[u8], problem: Problem) -> Result<&[u8], ExpandFault> {
    match operand {
        [b'\'', inner @ .., b'\''] => Ok(inner),
        [b'"', inner @ .., b'"'] => Ok(inner),
        _ => Err(trouble(problem, operand)),
    }
}

impl<'t, A: Allocator + Copy> Flow<'t, A> {
    // Fails if a condition of ASSERT is 0.
    fn assert(&self, operand: &[u8]) -> Result<(), ExpandFault> {
        let (condition, text) = split_item(operand);
        if self.holds(condition)? {
            return Ok(());
        }
        let shown = text.unwrap_or(condition).trim_ascii();
        Err(trouble(Problem::Assertion, shown))
    }

    // Keeps the text of WARN.
    fn warn(&mut self, operand: &[u8], at: Origin) -> Result<(), ExpandFault> {
        let text = Vec::from_slice(self.alloc, text_in(operand, Problem::Text)?)?;
        add(&mut self.warnings, Warning { at, text })?;
        Ok(())
    }

    // Returns the name of a file by its number.
    fn file_name(&self, file: usize) -> &'t [u8] {
        if file == 0 {
            return self.name;
        }
        match self.loaded.get(file.saturating_sub(1)) {
            Some(loaded) => loaded.name,
            None => b"",
        }
    }

    // Returns the number of a file by the name that is written in a file.
    fn file_named(&self, operand: &[u8], now: &Frame<'t>) -> Result<usize, ExpandFault> {
        let written = text_in(operand, Problem::FileName)?;
        let name = joined_name(self.alloc, self.file_name(now.file), written)?;
        for (i, file) in self.loaded.iter().enumerate() {
            if file.name == name.as_slice() {
                return Ok(i.saturating_add(1));
            }
        }
        let problem = if self.loaded.len() < MOST_FILES {
            Problem::NeedsFile
        } else {
            Problem::ManyFiles
        };
        Err(trouble(problem, name.as_slice()))
    }

    // Returns the text of a file by its number.
    fn file_text(&self, file: usize) -> &'t [u8] {
        match self.loaded.get(file.saturating_sub(1)) {
            Some(loaded) => loaded.text,
            None => b"",
        }
    }

    // Whether a file is being read.
    fn is_open(&self, file: usize) -> bool {
        for frame in self.frames.iter() {
            if frame.kind == Kind::File && frame.file == file {
                return true;
            }
        }
        false
    }

    // Begins to read a file.
    fn include(&mut self, operand: &[u8], now: &Frame<'t>) -> Result<(), ExpandFault> {
        let file = self.file_named(operand, now)?;
        if self.is_open(file) {
            return Err(trouble(Problem::Circle, operand));
        }
        let text = self.file_text(file);
        let lines = match self.sources.lines_of(file) {
            Some(lines) => lines,
            None => self.sources.read(file, text)?,
        };
        let mut frame = self.frame_here(Kind::File, now, lines.first, lines.end);
        frame.file = file;
        frame.reach = self.bindings.len();
        self.enter(frame)
    }

    /// Reads a line with a message or a file.
    pub(crate) fn read_other(
        &mut self,
        word: Word,
        parts: &Parts<'_>,
        now: &Frame<'t>,
        at: Origin,
    ) -> Result<(), ExpandFault> {
        if word != Word::Incbin {
            without_label(parts)?;
        }
        match word {
            Word::Assert => self.assert(parts.operand),
            Word::Error => Err(trouble(Problem::Asked, text_in(parts.operand, Problem::Text)?)),
            Word::Warn => self.warn(parts.operand, at),
            Word::Include => self.include(parts.operand, now),
            _ => {
                let file = self.file_named(parts.operand, now)?;
                let text = self.file_text(file);
                self.builder.put_bytes(*parts, text, at)
            }
        }
    }
}
