//! Draws the panel beside the screen.

ghost use Rattle.std.specs.Prelude.{◌≤◌};

use crate::pace::Pace;
use a2_machine::{Cause, Machine, write_registers};
use a2_stream::{Output, ToWrite, WriteFault, put, put_all};
use a2_text::decimal;
use std::alloc::{Allocator, Global};
use std::ops::Range;

/// The state of a session.
#[derive(Clone, Copy, Debug, PartialEq, Eq)]
pub enum State {
    /// The machine runs.
    Going,
    /// The machine waits for a key.
    Waiting,
    /// The machine is paused.
    Paused,
    /// The machine stopped for this cause.
    Stopped(Cause),
}

/// What the panel shows.
#[derive(Clone, Copy, Debug, PartialEq, Eq)]
pub struct PanelContents {
    pub state: State,
    pub pace: Pace,
    /// The cycles run in the last second.
    pub speed: u64,
    pub saves: bool,
    /// Whether the machine shows hi-res graphics, for which the screen here has no cells.
    pub has_hidden_graphics: bool,
    /// The message about the last command, if there is one.
    pub notice: Option<&'static [u8]>,
}

/// The rows and columns of the terminal, at least 24 and 80.
#[derive(Clone, Copy, Debug, PartialEq, Eq)]
pub struct TerminalSize {
    pub rows: u16,
    pub columns: u16,
}

/// The first column of the panel's rows, and the number of columns that they leave free.
const COLUMN: &[u8] = b";43H\x1B[0m";

const COLUMNS_LEFT_FREE: u16 = 44;

/// The columns of the registers. Text is broken there, so that the counts after them have a row of their own.
const REGISTERS: usize = 33;

/// The smallest and largest width of a row, in columns.
const LEAST_WIDTH: u16 = 36;

const MOST_WIDTH: u16 = 255;

/// The rows of the graphics, the state, the pace, the speed, the commands, the saved keys, the registers, what can be
/// done next, and what a stop means; then the smallest and largest number of rows of the terminal.
const GRAPHICS_ROW: u16 = 2;

const STATE_ROW: u16 = 3;

const PACE_ROW: u16 = 4;

const SPEED_ROW: u16 = 5;

const ORDER_ROW: u16 = 6;

const SAVE_ROW: u16 = 16;

const REGISTER_ROW: u16 = 17;

const NOTICE_ROW: u16 = 19;

const STOP_ROW: u16 = 20;

const LEAST_ROWS: u16 = 24;

const MOST_ROWS: u16 = 64;

const ORDERS: [&[u8]; 10] = [
    b"Ctrl-] q  quits",
    b"Ctrl-] p  pauses or continues",
    b"Ctrl-] s  executes one step",
    b"Ctrl-] b  goes back one second",
    b"Ctrl-] d  opens the debugger",
    b"Ctrl-] +  runs faster",
    b"Ctrl-] -  runs slower",
    b"Ctrl-] r  starts again",
    b"Ctrl-] k  prints the keys at the end",
    b"Ctrl-] l  redraws everything",
];

impl TerminalSize {
    // Returns the width of the panel's rows, in columns.
    fn width(self) -> usize {
        usize::from(
            self.columns
                .saturating_sub(COLUMNS_LEFT_FREE)
                .clamp(LEAST_WIDTH, MOST_WIDTH),
        )
    }

    // Returns the last row.
    fn last_row(self) -> u16
        ensures { result ≤ 64 }
    {
        self.rows.clamp(LEAST_ROWS, MOST_ROWS)
    }
}

// Writes a row of the panel over whatever was there.
fn put_row<W: Output>(row: u16, text: &[u8], writer: &mut W) -> Result<(), WriteFault> {
    put_all(
        &[
            b"\x1B[",
            decimal(u64::from(row)).as_slice(),
            COLUMN,
            text,
            b"\x1B[K",
        ],
        writer,
    )
}

// Writes a text over these rows, each of them `width` columns wide.
fn put_rows<W: Output>(
    rows: Range<u16>,
    width: usize,
    text: &[u8],
    writer: &mut W,
) -> Result<(), WriteFault> {
    let mut rest = text.trim_ascii();
    for row in rows {
        let (front, following) = rest.split_at(rest.len().min(width));
        put_row(row, front, writer)?;
        rest = following;
    }
    Ok(())
}

// Returns the name of a state.
fn state_text(state: State) -> &'static [u8] {
    match state {
        State::Going => b"running",
        State::Waiting => b"waiting for a key",
        State::Paused => b"paused",
        State::Stopped(_) => b"stopped: press Return to quit",
    }
}

// Returns what is said about graphics that are not shown.
fn graphics_text(face: &PanelContents) -> &'static [u8] {
    if face.has_hidden_graphics {
        b"hi-res graphics are not shown"
    } else {
        b""
    }
}

// Returns the text below the registers: the message about the last command, or what can be done after a stop.
fn notice_text(face: &PanelContents) -> &'static [u8] {
    match (face.notice, face.state) {
        (Some(notice), _) => notice,
        (None, State::Stopped(_)) => b"Ctrl-] b goes back, Ctrl-] d debugs",
        (None, _) => b"",
    }
}

// Writes a number of cycles and its meaning.
fn put_cycles<W: Output>(
    row: u16,
    cycles: u64,
    what: &[u8],
    writer: &mut W,
) -> Result<(), WriteFault> {
    put_row(row, decimal(cycles).as_slice(), writer)?;
    put(what, writer)
}

// Writes the pace, and how fast the machine ran.
fn put_pace<W: Output>(face: &PanelContents, writer: &mut W) -> Result<(), WriteFault> {
    match face.pace {
        Pace::Cycles(cycles) => {
            put_cycles(PACE_ROW, u64::from(cycles), b" cycles per second", writer)?
        }
        Pace::Max => put_row(PACE_ROW, b"as fast as possible", writer)?,
    }
    put_cycles(SPEED_ROW, face.speed, b" in the last second", writer)
}

/// Writes the registers, the steps and the cycles into the panel.
pub fn put_counts<A: Allocator + Copy, W: Output>(
    alloc: Global,
    machine: &Machine<A>,
    writer: &mut W,
) -> Result<(), WriteFault> {
    let mut line = Vec::new(alloc);
    write_registers(machine, &mut ToWrite::new(&mut line))?;
    put_rows(REGISTER_ROW..NOTICE_ROW, REGISTERS, line.as_slice(), writer)
}

/// Writes the panel beside the screen, except for the counts. `told` explains a stop.
pub fn put_panel<W: Output>(
    face: &PanelContents,
    told: &[u8],
    room: TerminalSize,
    writer: &mut W,
) -> Result<(), WriteFault> {
    put_row(1, b"a2lab play", writer)?;
    put_row(GRAPHICS_ROW, graphics_text(face), writer)?;
    put_row(STATE_ROW, state_text(face.state), writer)?;
    put_pace(face, writer)?;
    for (row, order) in (ORDER_ROW..SAVE_ROW).zip(ORDERS) {
        put_row(row, order, writer)?;
    }
    let saved: &[u8] = if face.saves {
        b"keys will be printed at the end"
    } else {
        b""
    };
    put_row(SAVE_ROW, saved, writer)?;
    put_row(NOTICE_ROW, notice_text(face), writer)?;
    put_rows(STOP_ROW..room.last_row() + 1, room.width(), told, writer)
}
