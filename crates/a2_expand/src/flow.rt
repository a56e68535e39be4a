//! Which lines are read, and in which order.

ghost use Rattle.std.specs.Prelude.{◌≡◌};

use crate::adding::add;
use crate::binding::{Binding, substituted};
use crate::builder::{Builder, new_builder};
use crate::conditions::Condition;
use crate::fault::{ExpandFault, Origin, Problem, moved, placed, trouble, unplaced};
use crate::files::Warning;
use crate::limits::{BYTES_OF_A_STEP, MOST_DEPTH, MOST_LINE_BYTES, MOST_STEPS};
use crate::macros::{Call, Macro};
use crate::operand::Known;
use crate::parts::{Parts, Word, parts_of, word_of};
use crate::procedures::Procedure;
use crate::source::{LoadedFile, SourceLine, Sources};
use crate::tables::Table;
use std::alloc::Allocator;

/// What lines belong to.
#[derive(Clone, Copy, PartialEq, Eq)]
pub(crate) enum Kind {
    File,
    Macro,
    Repeat,
}

/// Lines that are read, one after another.
#[derive(Clone, Copy)]
pub(crate) struct Frame<'t> {
    pub kind: Kind,
    pub file: usize,
    pub first: usize,
    pub end: usize,
    /// The next line.
    pub at: usize,
    /// How often the lines are read again after this time, and how often they were read before.
    pub left: u32,
    pub round: u32,
    pub counter: &'t [u8],
    /// How many bindings there were before, and the first that counts here.
    pub bindings: usize,
    pub reach: usize,
    /// How many conditions and procedures were open before.
    pub conditions: usize,
    pub procedures: usize,
    pub call: usize,
    /// The scope of the line after them.
    pub scope: usize,
    pub fixed: bool,
    /// The scope of a round of a repeated block.
    pub inner: usize,
}

/// The reading of a text.
#[derive(Drop)]
pub(crate) struct Flow<'t, A: Allocator> {
    pub alloc: A,
    pub name: &'t [u8],
    pub loaded: &'t [LoadedFile<'t>],
    pub sources: Sources<'t, A>,
    pub builder: Builder<A>,
    pub macros: Vec<Macro<'t>, A>,
    pub frames: Vec<Frame<'t>, A>,
    pub bindings: Vec<Binding<A>, A>,
    pub conditions: Vec<Condition, A>,
    pub procedures: Vec<Procedure, A>,
    pub calls: Vec<Call<'t>, A>,
    pub warnings: Vec<Warning<A>, A>,
    pub table: Option<Table<A>>,
    /// How many lines were read.
    pub read: usize,
}

/// Fails if a line has a label.
pub(crate) fn without_label(parts: &Parts<'_>) -> Result<(), ExpandFault> {
    if parts.label.is_empty() {
        Ok(())
    } else {
        Err(trouble(Problem::TakesNoLabel, parts.label))
    }
}

/// Fails if a line has no label, or a local one.
pub(crate) fn with_label(parts: &Parts<'_>) -> Result<(), ExpandFault> {
    match parts.label {
        [] | [b'.', ..] | [b':', ..] => Err(trouble(Problem::NeedsLabel, parts.operation)),
        _ => Ok(()),
    }
}

// Whether a line of a condition is read even if the condition around it has failed.
fn is_condition(word: Word) -> bool {
    matches!(word, Word::If | Word::ElseIf | Word::Else | Word::EndIf)
}

// Returns the frame of a file.
fn file_frame<'t>(file: usize, first: usize, end: usize) -> Frame<'t> {
    Frame {
        kind: Kind::File,
        file,
        first,
        end,
        at: first,
        left: 0,
        round: 0,
        counter: b"",
        bindings: 0,
        reach: 0,
        conditions: 0,
        procedures: 0,
        call: 0,
        scope: 0,
        fixed: false,
        inner: 0,
    }
}

impl<'t, A: Allocator + Copy> Flow<'t, A> {
    /// The names whose values are known.
    pub(crate) fn known(&self) -> Known<'_, A>
        ensures { result.constants.now ≡ self.now.builder.constants.items }
    {
        Known {
            alloc: self.alloc,
            constants: self.builder.constants.as_slice(),
        }
    }

    /// Continues after the line with this index.
    pub(crate) fn continue_after(&mut self, index: usize) {
        if let Some(frame) = self.frames.last_mut() {
            frame.at = index.saturating_add(1);
        }
    }

    /// Begins to read other lines.
    pub(crate) fn enter(&mut self, frame: Frame<'t>) -> Result<(), ExpandFault> {
        if self.frames.len() >= MOST_DEPTH {
            return Err(trouble(Problem::Depth, b""));
        }
        add(&mut self.frames, frame)?;
        Ok(())
    }

    /// Returns a frame of lines that are read from here.
    pub(crate) fn frame_here(
        &self,
        kind: Kind,
        now: &Frame<'t>,
        first: usize,
        end: usize,
    ) -> Frame<'t> {
        Frame {
            kind,
            file: now.file,
            first,
            end,
            at: first,
            left: 0,
            round: 0,
            counter: b"",
            bindings: self.bindings.len(),
            reach: now.reach,
            conditions: self.conditions.len(),
            procedures: self.procedures.len(),
            call: now.call,
            scope: self.builder.scope,
            fixed: self.builder.fixed,
            inner: 0,
        }
    }

    // Counts lines that are read.
    fn count(&mut self, lines: usize) -> Result<(), ExpandFault> {
        self.read = self.read.saturating_add(lines);
        if self.read > MOST_STEPS {
            return Err(trouble(Problem::ManySteps, b""));
        }
        Ok(())
    }

    /// Returns the index of the line that closes a block whose lines begin with `first`. It has no label.
    pub(crate) fn end_of(
        &mut self,
        first: usize,
        most: usize,
        open: Word,
        close: Word,
    ) -> Result<usize, ExpandFault> {
        let Some(end) = self.sources.closing(first, most, open, close) else {
            return Err(trouble(Problem::Unclosed, b""));
        };
        self.count(end.saturating_sub(first))?;
        if let Some(line) = self.sources.lines.get(end) {
            without_label(&parts_of(line.text))?;
        }
        Ok(end)
    }

    // Reads a line of a block that is opened, divided or closed.
    fn read_block(
        &mut self,
        word: Word,
        parts: &Parts<'_>,
        now: &Frame<'t>,
        at: Origin,
    ) -> Result<(), ExpandFault> {
        match word {
            Word::Proc => self.open_procedure(parts, at),
            Word::EndProc => {
                without_label(parts)?;
                self.close_procedure(now.procedures)
            }
            Word::Enum => self.open_table(false, parts, at),
            Word::Struct => self.open_table(true, parts, at),
            _ => Err(trouble(Problem::Unopened, parts.operation)),
        }
    }

    // Reads a line outside conditions and tables, which is read at `index`.
    fn read_statement(
        &mut self,
        word: Word,
        text: &[u8],
        now: &Frame<'t>,
        at: Origin,
    ) -> Result<(), ExpandFault> {
        let parts = parts_of(text);
        match word {
            Word::Macro | Word::Repeat => {
                without_label(&parts)?;
                self.begin_block(word, parts.operand, now)
            }
            Word::Proc
            | Word::EndProc
            | Word::Enum
            | Word::Struct
            | Word::EndEnum
            | Word::EndStruct
            | Word::EndMacro
            | Word::EndRepeat => self.read_block(word, &parts, now, at),
            Word::Assert | Word::Error | Word::Warn | Word::Include | Word::Incbin => {
                self.read_other(word, &parts, now, at)
            }
            Word::Other => match self.macro_named(parts.operation) {
                Some(called) => self.call_macro(called, &parts, now, at),
                None => self.builder.put_line(text, at),
            },
            _ => self.builder.put_line(text, at),
        }
    }

    // Begins a macro or a repeated block, whose first line is the next line of `now`.
    fn begin_block(
        &mut self,
        word: Word,
        operand: &[u8],
        now: &Frame<'t>,
    ) -> Result<(), ExpandFault> {
        let Some(line) = self.sources.lines.get(now.at).copied() else {
            return Ok(());
        };
        if word == Word::Macro {
            self.define_macro(line, now.at, now)
        } else {
            self.repeat(line, now.at, operand, now)
        }
    }

    // Reads a line, the next of `now`.
    fn read_line(&mut self, text: &[u8], now: &Frame<'t>, at: Origin) -> Result<(), ExpandFault> {
        let parts = parts_of(text);
        let word = word_of(parts.operation);
        let is_read = self.is_active() || is_condition(word);
        if is_read && text.len() > MOST_LINE_BYTES {
            return Err(trouble(Problem::LongSource, b""));
        }
        if self.read_condition(word, &parts, now.conditions, at)? || !is_read {
            return Ok(());
        }
        match self.table.take() {
            Some(table) => self.read_table(table, word, &parts, at),
            None => self.read_statement(word, text, now, at),
        }
    }

    // Fails if something that these lines opened is not closed.
    fn check_closed(&self, now: &Frame<'t>) -> Result<(), ExpandFault> {
        if self.conditions.len() > now.conditions {
            if let Some(condition) = self.conditions.last() {
                return Err(placed(trouble(Problem::Unclosed, b"IF"), condition.at));
            }
        }
        if self.procedures.len() > now.procedures {
            if let Some(procedure) = self.procedures.last() {
                return Err(placed(trouble(Problem::Unclosed, b"PROC"), procedure.at));
            }
        }
        match &self.table {
            Some(table) => Err(placed(trouble(Problem::Unclosed, b""), table.at)),
            None => Ok(()),
        }
    }

    // Ends the reading of lines, or begins it again.
    fn end_lines(&mut self, now: &Frame<'t>) -> Result<(), ExpandFault> {
        self.check_closed(now)?;
        self.bindings.truncate(now.bindings);
        let _ = self.frames.pop();
        match now.kind {
            Kind::File => Ok(()),
            Kind::Repeat => self.end_round(now),
            Kind::Macro => {
                self.builder.scope = now.scope;
                self.builder.fixed = now.fixed;
                Ok(())
            }
        }
    }

    // Returns a line with the texts of what is bound.
    fn line_text(&self, line: &SourceLine<'t>, now: &Frame<'t>) -> Result<Vec<u8, A>, ExpandFault> {
        let bindings = self.bindings.as_slice();
        let (_, bound) = bindings.split_at(now.reach.min(bindings.len()));
        substituted(self.alloc, line.text, bound)
    }

    // Reads this line, the next of `now`, or ends the reading of `now` if it has no more lines.
    fn read_next(
        &mut self,
        line: &SourceLine<'t>,
        now: &Frame<'t>,
        at: Origin,
    ) -> Result<(), ExpandFault> {
        self.count(1)?;
        if now.at >= now.end {
            return self.end_lines(now);
        }
        let text = self.line_text(line, now)?;
        self.count(text.len() / BYTES_OF_A_STEP)?;
        self.continue_after(now.at);
        let Err(fault) = self.read_line(text.as_slice(), now, at) else {
            return Ok(());
        };
        if text.as_slice() == line.text {
            return Err(moved(fault, parts_of(line.text).operand_at));
        }
        Err(unplaced(fault))
    }

    // Reads the next line, and returns whether there was one. An error at the end of lines is an error of the line before them.
    fn step(&mut self) -> Result<bool, ExpandFault> {
        let Some(now) = self.frames.last().copied() else {
            return Ok(false);
        };
        let index = if now.at < now.end {
            now.at
        } else {
            now.first.saturating_sub(1)
        };
        let Some(line) = self.sources.lines.get(index).copied() else {
            return Ok(false);
        };
        let at = Origin {
            file: line.file,
            line: line.number,
            call: now.call,
        };
        match self.read_next(&line, &now, at) {
            Ok(()) => Ok(true),
            Err(fault) => Err(placed(fault, at)),
        }
    }

    /// Reads all lines.
    pub(crate) fn run(&mut self) -> Result<(), ExpandFault> {
        // (the step after these is refused)
        for _ in 0..=MOST_STEPS {
            if !self.step()? {
                return Ok(());
            }
        }
        Err(trouble(Problem::ManySteps, b""))
    }
}

/// Returns the reading of a text, which may include these files.
pub(crate) fn begin_reading<'t, A: Allocator + Copy>(
    alloc: A,
    source: LoadedFile<'t>,
    loaded: &'t [LoadedFile<'t>],
) -> Result<Flow<'t, A>, ExpandFault> {
    let mut sources = Sources {
        alloc,
        lines: Vec::new(alloc),
        files: Vec::new(alloc),
    };
    sources.read(0, source.text)?;
    let frame = file_frame(0, 0, sources.lines.len());
    let builder = new_builder(alloc)?;
    let mut frames = Vec::new(alloc);
    add(&mut frames, frame)?;
    Ok(Flow {
        alloc,
        name: source.name,
        loaded,
        sources,
        builder,
        macros: Vec::new(alloc),
        frames,
        bindings: Vec::new(alloc),
        conditions: Vec::new(alloc),
        procedures: Vec::new(alloc),
        calls: Vec::new(alloc),
        warnings: Vec::new(alloc),
        table: None,
        read: 0,
    })
}
