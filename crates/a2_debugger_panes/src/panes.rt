//! Panes over the whole terminal, redrawn after each line.

ghost use Rattle.std.specs.Prelude.{◌≡◌, ◌<◌, ◌↔◌, true, List, ℕ};
ghost use Rattle.a2_stream.specs.Stream.{SendsOrBreaks};
ghost use Rattle.a2_debugger.specs.Inspections.{IsAnswered};
ghost use Rattle.a2_tty.specs.Turns.{RepliesTo};
ghost use Rattle.a2_debugger_panes.specs.Panes.{IsPanes};

use crate::layout::Layout;
use crate::paint::painted;
use a2_debugger::Inspector;
use a2_stream::{Output, ToWrite, WriteFault, put, put_all};
use a2_symbols::span_of;
use a2_text::{capital, decimal, first_word};
use a2_tty::{Colours, Frame, Partner, Size, put_frame};
use std::alloc::Global;
use std::cell::Cell;

/// The sequences that switch to the terminal's alternate screen and back.
const ENTER: &[u8] = b"\x1B[?1049h\x1B[2J";

const LEAVE: &[u8] = b"\x1B[0m\x1B[?1049l\r\x1B[K";

const TOO_SMALL: &[u8] = b"panes need a terminal of at least 80 columns and 24 rows\n";

/// Where panes are drawn: the columns in which lines are edited, the terminal's rows and columns, and its colours. If there are
/// more than 64 rows or 255 columns, only the first ones are used.
#[derive(Clone, Copy)]
pub struct Wall<'a> {
    pub columns: &'a Cell<usize>,
    pub rows: usize,
    pub all: usize,
    pub colours: Colours,
}

/// A run and its panes, if there is a wall for them. The line `panes`, in either case, opens or closes them.
pub struct Panes<'a, 'b> {
    alloc: Global,
    inspector: Inspector<'a>,
    wall: Option<Wall<'b>>,
    is_up: bool,
    // The frame on the terminal.
    frame: Option<Frame>,
    // The first address of the memory that is shown.
    aim: u16,
}

// Not derived, only for the prover: it treats this as one call, and a derived `drop` field by field.
impl<'a, 'b> Drop for Panes<'a, 'b> {
    fn drop(self) {
        let Panes {
            alloc: _,
            inspector: _,
            wall: _,
            is_up: _,
            frame: _,
            aim: _,
        } = self;
    }
}

// Whether a line is the command `panes`.
fn is_panes(line: &[u8]) -> bool
    ensures { (result ≡ true) ↔ IsPanes line.now }
{
    match line {
        [a, b, c, d, e] => {
            [
                capital(*a),
                capital(*b),
                capital(*c),
                capital(*d),
                capital(*e),
            ] == *b"PANES"
        }
        _ => false,
    }
}

// Whether a command shows, watches, sets or asks about bytes of memory.
fn is_memory_command(word: &[u8]) -> bool {
    word.eq_ignore_ascii_case(b"MEM")
        || word.eq_ignore_ascii_case(b"X")
        || word.eq_ignore_ascii_case(b"WHO")
        || word.eq_ignore_ascii_case(b"WATCH")
        || word.eq_ignore_ascii_case(b"SET")
}

// The address of memory in a line, if its command is about memory.
fn aim_of(inspector: &Inspector<'_>, line: &[u8]) -> Option<u16> {
    let (word, following) = first_word(line)?;
    let (place, _) = first_word(following)?;
    if !is_memory_command(word) {
        return None;
    }
    Some(span_of(inspector.program(), place)?.first)
}

// Clears the left part of a row and moves the terminal's cursor there.
fn put_blank<W: Output>(layout: &Layout, row: u8, writer: &mut W) -> Result<(), WriteFault>
    requires { row < 64 }
{
    put_all(
        &[
            b"\x1B[0m\x1B[",
            decimal(u64::from(row + 1)).as_slice(),
            b";1H\x1B[",
            decimal(u64::from(layout.left())).as_slice(),
            b"X",
        ],
        writer,
    )
}

// The output that turns the terminal from one frame into another, with space for the prompt. Fails only if memory runs out.
fn drawn(
    alloc: Global,
    before: &Option<Frame>,
    frame: &Frame,
    layout: &Layout,
    colours: Colours,
) -> Result<Vec<u8>, WriteFault> {
    let mut bytes = Vec::new(alloc);
    let mut writer = ToWrite::new(&mut bytes);
    if before.is_none() {
        put(ENTER, &mut writer)?;
    }
    let size = Size {
        rows: layout.rows(),
        columns: layout.columns(),
    };
    put_frame(before, frame, size, colours, &mut writer)?;
    put_blank(layout, layout.prompt() + 1, &mut writer)?;
    put_blank(layout, layout.prompt(), &mut writer)?;
    Ok(bytes)
}

// The answer to a line, in memory, as far as there is memory for it.
fn told(alloc: Global, inspector: &mut Inspector<'_>, line: &[u8]) -> Vec<u8>
    ensures { IsAnswered line.now inspector.old inspector.new }
{
    let mut sheet = Vec::new(alloc);
    // If memory runs out, the part that was stored is shown.
    let _ = inspector.answer_beside(line, &mut ToWrite::new(&mut sheet));
    sheet
}

impl<'a, 'b> Panes<'a, 'b> {
    /// Returns a run whose panes are closed, with a wall for them or without.
    pub fn new(alloc: Global, inspector: Inspector<'a>, wall: Option<Wall<'b>>) -> Panes<'a, 'b> {
        let aim = inspector.program().entry();
        Panes {
            alloc,
            inspector,
            wall,
            is_up: false,
            frame: None,
            aim,
        }
    }

    // Draws what changed, with this answer.
    fn draw<W: Output>(&mut self, answer: &[u8], writer: &mut W) -> Result<(), WriteFault>
        ensures kept { self.new.inspector ≡ self.old.inspector }
        ensures sent { (text : List ℕ) × SendsOrBreaks (W.taker writer.old) (W.taker writer.new) result text }
    {
        let Some(wall) = self.wall else {
            return put(TOO_SMALL, writer);
        };
        let layout = Layout::of(wall.rows, wall.all);
        let frame = painted(&self.inspector, &layout, self.aim, answer);
        match drawn(self.alloc, &self.frame, &frame, &layout, wall.colours) {
            Ok(bytes) => {
                self.frame = Some(frame);
                put(bytes.as_slice(), writer)
            }
            Err(_) => put(b"not enough memory for panes\n", writer),
        }
    }

    /// Opens the panes if they are closed, and closes them if they are open.
    pub fn toggle_panes<W: Output>(&mut self, writer: &mut W) -> Result<(), WriteFault>
        ensures kept { self.new.inspector ≡ self.old.inspector }
        ensures sent { (text : List ℕ) × SendsOrBreaks (W.taker writer.old) (W.taker writer.new) result text }
    {
        if self.is_up {
            return self.close_panes(writer);
        }
        if let Some(wall) = self.wall {
            let layout = Layout::of(wall.rows, wall.all);
            wall.columns.set(usize::from(layout.left()));
            self.is_up = true;
        }
        self.draw(b"panes or Ctrl-L hides the panes", writer)
    }

    /// Closes the panes if they are open.
    pub fn close_panes<W: Output>(&mut self, writer: &mut W) -> Result<(), WriteFault>
        ensures kept { self.new.inspector ≡ self.old.inspector }
        ensures sent { (text : List ℕ) × SendsOrBreaks (W.taker writer.old) (W.taker writer.new) result text }
    {
        if !self.is_up {
            return put(b"", writer);
        }
        if let Some(wall) = self.wall {
            wall.columns.set(wall.all);
        }
        self.is_up = false;
        self.frame = None;
        put(LEAVE, writer)
    }

    // Answers a line in the panes.
    fn show<W: Output>(&mut self, line: &[u8], writer: &mut W) -> Result<(), WriteFault>
        ensures answered { IsAnswered line.now self.old.inspector self.new.inspector }
        ensures sent { (text : List ℕ) × SendsOrBreaks (W.taker writer.old) (W.taker writer.new) result text }
    {
        let sheet = told(self.alloc, &mut self.inspector, line);
        if let Some(aim) = aim_of(&self.inspector, line) {
            self.aim = aim;
        }
        self.draw(sheet.as_slice(), writer)
    }
}

impl Partner for Panes<'_, '_> {
    ghost use Rattle.a2_debugger_panes.specs.Panes.{IsShownInPanes};

    ghost meets = { λ line old text new. IsShownInPanes line old.inspector new.inspector };

    fn answer<W: Output>(&mut self, line: &[u8], writer: &mut W) -> Result<(), WriteFault> {
        if is_panes(line) {
            return self.toggle_panes(writer);
        }
        if self.is_up {
            return self.show(line, writer);
        }
        self.inspector.answer(line, writer)
    }
}
