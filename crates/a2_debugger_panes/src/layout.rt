//! The position of each pane in the terminal.

ghost use Rattle.std.specs.Prelude.{◌≡◌, ◌+◌, ◌-◌, ◌<◌, ◌≤◌};

use a2_tty::{MOST_COLUMNS, MOST_ROWS};

/// The smallest number of rows and columns for panes.
pub const LEAST_ROWS: u8 = 24;

pub const LEAST_COLUMNS: u8 = 80;

/// The columns of the Apple's screen and of the line to its left.
const SCREEN: u8 = 41;

/// The row above the source.
pub(crate) const SOURCE: u8 = 3;

/// The columns that 16 bytes of memory take after their address.
const WIDE: u8 = 54;

/// The layout of the panes: the size they take of the terminal, and the rows above the stack, the memory and the answer.
#[derive(Drop)]
pub(crate) struct Layout {
    rows: u8,
    columns: u8,
    stack: u8,
    memory: u8,
    answer: u8,
    ghost few: { (answer + 6 ≤ rows) × (rows ≤ 64) },
    ghost order: { (12 ≤ stack) × (stack + 2 ≡ memory) × (memory + 4 ≤ answer) },
    ghost wide: { (80 ≤ columns) × (columns ≤ 255) },
}

// A size limited to the range that panes support.
fn within(size: usize, least: u8, most: u8) -> u8
    requires { least ≤ most }
    ensures least { least ≤ result }
    ensures most { result ≤ most }
{
    if size >= usize::from(most) {
        return most;
    }
    if size <= usize::from(least) {
        return least;
    }
    size as u8
}

impl Layout {
    /// Returns the layout for a terminal of this many rows and columns. Of the rows beyond the smallest number, half go to the
    /// source and a quarter to the memory.
    pub(crate) fn of(rows: usize, columns: usize) -> Layout {
        let rows = within(rows, LEAST_ROWS, MOST_ROWS);
        let more = rows - LEAST_ROWS;
        let stack = SOURCE + 9 + more / 2;
        let memory = stack + 2;
        Layout {
            rows,
            columns: within(columns, LEAST_COLUMNS, MOST_COLUMNS),
            stack,
            memory,
            answer: memory + 4 + more / 4,
        }
    }

    /// Returns the number of rows.
    pub(crate) fn rows(&self) -> u8
        ensures { result ≤ 64 }
    {
        self.rows
    }

    /// Returns the number of columns.
    pub(crate) fn columns(&self) -> u8 {
        self.columns
    }

    /// Returns the number of columns left of the screen and of the line beside it.
    pub(crate) fn left(&self) -> u8
        ensures least { 39 ≤ result }
        ensures most { result ≤ 214 }
    {
        self.columns - SCREEN
    }

    /// Returns the row above the stack.
    pub(crate) fn stack(&self) -> u8
        ensures least { 12 ≤ result }
        ensures most { result < 56 }
    {
        self.stack
    }

    /// Returns the row above the memory.
    pub(crate) fn memory(&self) -> u8
        ensures { result < 58 }
    {
        self.memory
    }

    /// Returns the row above the answer.
    pub(crate) fn answer(&self) -> u8
        ensures { result ≤ 58 }
    {
        self.answer
    }

    /// Returns the row of the prompt.
    pub(crate) fn prompt(&self) -> u8
        ensures least { 22 ≤ result }
        ensures most { result ≤ 62 }
    {
        self.rows - 2
    }

    /// Returns the number of source lines shown above the current one.
    pub(crate) fn lines_before(&self) -> u16 {
        u16::from((self.stack - SOURCE - 1) / 2 - 1)
    }

    /// Returns the number of bytes in a row, 8 or 16.
    pub(crate) fn bytes(&self) -> u8
        ensures { result ≤ 16 }
    {
        if self.columns - SCREEN >= WIDE { 16 } else { 8 }
    }
}
