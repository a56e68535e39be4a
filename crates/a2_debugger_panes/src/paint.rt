//! The contents of each pane.

ghost use Rattle.std.specs.Prelude.{◌<◌};

use crate::layout::{Layout, SOURCE};
use a2_debugger::Inspector;
use a2_machine::Machine;
use a2_opcode::list_line;
use a2_symbols::statement_at;
use a2_text::{decimal, hex_pair, hex_word};
use a2_tty::{Frame, Shot, Tile};

/// The rows of the registers, of the flags and the step, and of the instruction.
const REGISTERS: u8 = 0;

const FLAGS: u8 = 1;

const INSTRUCTION: u8 = 2;

/// The rows and columns of the Apple's screen.
const SCREEN_ROWS: u8 = 24;

const SCREEN_COLUMNS: u8 = 40;

/// The letters of the flags, from the highest bit.
const LETTERS: [u8; 8] = *b"NV-BDIZC";

// The tile that shows a byte of a text.
fn tile_of(byte: u8, is_marked: bool) -> Tile {
    let code = if matches!(byte, 0x20..=0x7E) {
        byte
    } else {
        b' '
    };
    if is_marked {
        Tile::Inverse(code)
    } else {
        Tile::Letter(code)
    }
}

/// The frame that is drawn, and its layout.
#[derive(Drop)]
struct Canvas<'a> {
    frame: Frame,
    layout: &'a Layout,
}

impl Canvas<'_> {
    // Draws a text from a position on, up to the columns of the screen.
    fn put(&mut self, row: u8, column: u8, text: &[u8], is_marked: bool)
        requires { row < 64 }
    {
        let left = self.layout.left();
        let mut here = column;
        for byte in text {
            if here >= left {
                return;
            }
            self.frame.put(row, here, tile_of(*byte, is_marked));
            here += 1;
        }
    }

    // Draws the line above a pane.
    fn put_title(&mut self, row: u8, name: &[u8])
        requires { row < 64 }
    {
        for column in 0..self.layout.left() {
            self.frame.put(row, column, Tile::Letter(b'-'));
        }
        self.put(row, 3, name, false);
    }
}

// Draws a register, marked if it changed.
fn put_register(canvas: &mut Canvas<'_>, column: u8, name: &[u8], before: u8, now: u8) {
    canvas.put(REGISTERS, column, name, false);
    canvas.put(
        REGISTERS,
        column.saturating_add(2),
        &hex_pair(now),
        before != now,
    );
}

// Draws the registers.
fn put_registers(canvas: &mut Canvas<'_>, before: &Machine, machine: &Machine) {
    let (old, now) = (before.regs(), machine.regs());
    put_register(canvas, 0, b"A=", old.a, now.a);
    put_register(canvas, 5, b"X=", old.x, now.x);
    put_register(canvas, 10, b"Y=", old.y, now.y);
    put_register(canvas, 15, b"P=", old.p.pushed(), now.p.pushed());
    put_register(canvas, 20, b"S=", old.s, now.s);
    canvas.put(REGISTERS, 25, b"PC=", false);
    canvas.put(REGISTERS, 28, &hex_word(now.pc), false);
}

// Draws the flags that are set, marked if they changed, and the step.
fn put_flags(canvas: &mut Canvas<'_>, before: &Machine, machine: &Machine) {
    let (old, now) = (before.regs().p.pushed(), machine.regs().p.pushed());
    for place in 0..8u8 {
        let bit = 0x80u8 >> place;
        let shown = if now & bit == 0 {
            b'.'
        } else {
            LETTERS[usize::from(place)]
        };
        canvas.put(FLAGS, place, &[shown], old & bit != now & bit);
    }
    canvas.put(FLAGS, 10, b"step", false);
    canvas.put(FLAGS, 15, decimal(machine.steps()).as_slice(), false);
}

// The byte of RAM at an address, or 0.
fn byte_at(machine: &Machine, address: u16) -> u8 {
    machine.peek(address).unwrap_or(0)
}

// Draws the next instruction.
fn put_instruction(canvas: &mut Canvas<'_>, machine: &Machine) {
    let pc = machine.regs().pc;
    if machine.peek(pc).is_none() {
        canvas.put(INSTRUCTION, 0, b"no RAM here", false);
        return;
    }
    let bytes = [
        byte_at(machine, pc),
        byte_at(machine, pc.wrapping_add(1)),
        byte_at(machine, pc.wrapping_add(2)),
    ];
    canvas.put(
        INSTRUCTION,
        0,
        list_line(&bytes, pc).text.as_str().as_bytes(),
        false,
    );
}

// Draws the source lines around the current one, which is marked.
fn put_source(canvas: &mut Canvas<'_>, inspector: &Inspector<'_>) {
    let pc = inspector.machine().regs().pc;
    let statement = statement_at(inspector.program().statements(), pc);
    let here = match statement {
        Some(statement) => statement.line,
        None => 0,
    };
    let (before, end) = (canvas.layout.lines_before(), canvas.layout.stack());
    let mut number = 1u16;
    let mut row = SOURCE + 1;
    for line in inspector.lines() {
        if number.saturating_add(before) >= here && row < end {
            canvas.put(
                row,
                0,
                decimal(u64::from(number)).as_slice(),
                number == here,
            );
            canvas.put(row, 6, *line, number == here);
            row += 1;
        }
        number = number.saturating_add(1);
    }
}

// Draws a row with the bytes from an address on, marked if they changed.
fn put_bytes(canvas: &mut Canvas<'_>, row: u8, first: u16, before: &Machine, machine: &Machine)
    requires { row < 64 }
{
    canvas.put(row, 0, &hex_word(first), false);
    canvas.put(row, 4, b"-", false);
    for place in 0..canvas.layout.bytes() {
        let address = first.wrapping_add(u16::from(place));
        let column = 6 + 3 * place;
        match machine.peek(address) {
            Some(byte) => canvas.put(
                row,
                column,
                &hex_pair(byte),
                before.peek(address) != Some(byte),
            ),
            None => canvas.put(row, column, b"--", false),
        }
    }
}

// Draws the bytes above the stack pointer.
fn put_stack(canvas: &mut Canvas<'_>, machine: &Machine) {
    let s = machine.regs().s;
    let row = canvas.layout.stack() + 1;
    canvas.put(row, 0, b"S+1 -", false);
    for place in 0..canvas.layout.bytes() {
        let low = u16::from(s) + u16::from(place) + 1;
        if low > 0xFF {
            return;
        }
        let byte = byte_at(machine, 0x100 + low);
        canvas.put(row, 6 + 3 * place, &hex_pair(byte), false);
    }
}

// Draws the memory from an address on.
fn put_memory(canvas: &mut Canvas<'_>, aim: u16, before: &Machine, machine: &Machine) {
    let above = canvas.layout.memory();
    let bytes = u16::from(canvas.layout.bytes());
    for row in above + 1..canvas.layout.answer() {
        let ahead = u16::from(row - above - 1) * bytes;
        put_bytes(canvas, row, aim.wrapping_add(ahead), before, machine);
    }
}

// Whether a pane already shows what a line of an answer reports.
fn is_shown(line: &[u8]) -> bool {
    line.starts_with(b"step ") || line.starts_with(b"A=") || line.starts_with(b"changed: ")
}

// Draws the part of an answer that no pane shows, as far as there are rows, followed by dots if there are too few.
fn put_answer(canvas: &mut Canvas<'_>, answer: &[u8]) {
    let (left, end) = (canvas.layout.left(), canvas.layout.prompt());
    let mut row = canvas.layout.answer() + 1;
    for line in answer.split(|c| *c == b'\n') {
        if is_shown(line) || line.is_empty() {
            continue;
        }
        for piece in line.chunks(usize::from(left)) {
            if row >= end {
                canvas.put(end - 1, left - 3, b"...", true);
                return;
            }
            canvas.put(row, 0, piece, false);
            row += 1;
        }
    }
}

// Draws the Apple's screen on the right.
fn put_screen(canvas: &mut Canvas<'_>, machine: &Machine) {
    let shot = Shot::new(&machine.view(), false);
    let left = canvas.layout.left();
    for row in 0..canvas.layout.rows() {
        canvas.frame.put(row, left, Tile::Letter(b'|'));
    }
    for row in 0..SCREEN_ROWS {
        for column in 0..SCREEN_COLUMNS {
            canvas
                .frame
                .put(row, left + 1 + column, shot.tile(row, column));
        }
    }
}

/// Returns the frame with all panes drawn: the memory from `aim` on, and the last answer.
pub(crate) fn painted(
    inspector: &Inspector<'_>,
    layout: &Layout,
    aim: u16,
    answer: &[u8],
) -> Frame {
    let (before, machine) = (inspector.before(), inspector.machine());
    let mut canvas = Canvas {
        frame: Frame::new(),
        layout,
    };
    put_registers(&mut canvas, before, machine);
    put_flags(&mut canvas, before, machine);
    put_instruction(&mut canvas, machine);
    canvas.put_title(SOURCE, b" source ");
    put_source(&mut canvas, inspector);
    canvas.put_title(layout.stack(), b" stack ");
    put_stack(&mut canvas, machine);
    canvas.put_title(layout.memory(), b" memory ");
    put_memory(&mut canvas, aim, before, machine);
    canvas.put_title(layout.answer(), b" answer ");
    put_answer(&mut canvas, answer);
    put_screen(&mut canvas, machine);
    canvas.frame
}
