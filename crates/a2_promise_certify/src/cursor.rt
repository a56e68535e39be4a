//! Follows the text window and the cursor when a byte is put on the screen. Apple II Reference Manual (1979), chapter
//! 2, on the text window; the exact effects are this project's profile.

ghost use Rattle.std.specs.Prelude.{◌≡◌, ◌<◌, ◌+◌, ℕ, ◌&&◌, if◌then◌else◌, ◌∷◌, ◌++◌, [], nat_le, nat_lt, IsTrue};
ghost use Rattle.a2_page.specs.Grid.{blank};
ghost use Rattle.a2_bus.specs.Memory.{Memory};
ghost use Rattle.a2_bus.specs.View.{memory_of};
ghost use Rattle.a2_services.specs.Put.{after_backspace, after_character, after_line_feed, after_put_unmasked, after_return};
ghost use Rattle.a2_footprint.specs.Services.{changed_by, cursor_cell, moved_by, scrolled_cells, window_cells};
ghost use Rattle.a2_promise_certify.specs.Screen.{IsCursor, IsOnScreen, window_by};

use a2_bus::AddressSpace;
use a2_bus::locations::{CH, CV};
use a2_page::BLANK;
use a2_services::bytes::{BACKSPACE, LINE_FEED, RETURN};
use a2_services::{load, window};
use std::alloc::Global;

/// The window and the cursor. The window is given by its first column, its number of columns, its first row and the
/// row after its last. The cursor is given by its row on the screen and its column in the window.
#[derive(Clone, Copy)]
pub(crate) struct Cursor {
    pub left: u8,
    pub width: u8,
    pub top: u8,
    pub bottom: u8,
    pub row: u8,
    pub column: u8,
}

/// Returns the window and the cursor that page 0 describes.
pub(crate) fn cursor_in(space: &AddressSpace<Global>) -> Cursor
    ensures { IsCursor result (memory_of space.now) }
{
    let edges = window(space);
    Cursor {
        left: edges.left,
        width: edges.width,
        top: edges.top,
        bottom: edges.bottom,
        row: load(space, CV),
        column: load(space, CH),
    }
}

/// Returns whether the window and the cursor are on the screen.
pub(crate) fn is_on_screen(cursor: &Cursor) -> bool
    ensures { IsTrue result → IsOnScreen cursor.now }
{
    let left = u16::from(cursor.left);
    1 <= cursor.width
        && left + u16::from(cursor.width) <= 40
        && cursor.top < cursor.bottom
        && cursor.bottom <= 24
        && cursor.row < 24
        && left + u16::from(cursor.column) < 40
}

// Returns whether a byte is a control character.
fn is_control(byte: u8) -> bool
    ensures { result ≡ (nat_le 0x80 byte && nat_lt byte blank) }
{
    0x80 <= byte && byte < BLANK
}

/// Returns whether a byte put on the screen unmasked appears in the cursor's cell.
pub(crate) fn is_shown(byte: u8) -> bool
    ensures { (memory : Memory) → changed_by byte memory ≡ (if result then cursor_cell memory ∷ [] else []) ++ moved_by byte
        memory }
{
    !is_control(byte)
}

// Returns whether the cursor cannot move down.
fn is_at_bottom(cursor: &Cursor) -> bool
    ensures { (memory : Memory) → IsCursor cursor.now memory
        → scrolled_cells memory ≡ (if result then window_cells (window_by cursor.now) else []) }
{
    u16::from(cursor.row) + 1 >= u16::from(cursor.bottom)
}

// Returns whether the cursor is in the window's last column or to the right of it.
fn is_at_edge(cursor: &Cursor) -> bool
    ensures { result ≡ nat_le cursor.now.width (cursor.now.column + 1) }
{
    u16::from(cursor.width) <= u16::from(cursor.column) + 1
}

/// Returns whether the window scrolls when a byte is put unmasked.
pub(crate) fn scrolls(byte: u8, cursor: &Cursor) -> bool
    ensures moved { (memory : Memory) → IsCursor cursor.now memory
        → moved_by byte memory ≡ (if result then window_cells (window_by cursor.now) else []) }
{
    match byte {
        RETURN | LINE_FEED => is_at_bottom(cursor),
        _ if is_control(byte) => false,
        _ => is_at_edge(cursor) && is_at_bottom(cursor),
    }
}

// Moves the cursor down, if possible.
fn down(cursor: Cursor) -> Cursor
    requires { IsOnScreen cursor }
    ensures cursor { (memory : Memory) → IsCursor cursor memory → IsCursor result (after_line_feed memory) }
    ensures screen { IsOnScreen result }
{
    if cursor.row + 1 < cursor.bottom {
        Cursor {
            row: cursor.row + 1,
            ..cursor
        }
    } else {
        cursor
    }
}

// Moves the cursor to the window's left edge, wherever it was, and down.
fn move_to_next_line(cursor: Cursor) -> Cursor
    requires { IsOnScreen cursor }
    ensures cursor { (memory : Memory) (column : ℕ) → IsCursor (record cursor { column = column }) memory
        → IsCursor result (after_return memory) }
    ensures screen { IsOnScreen result }
{
    down(Cursor {
        column: 0,
        ..cursor
    })
}

// Moves the cursor back.
fn back(cursor: Cursor) -> Cursor
    requires { IsOnScreen cursor }
    ensures cursor { (memory : Memory) → IsCursor cursor memory → IsCursor result (after_backspace memory) }
    ensures screen { IsOnScreen result }
{
    if cursor.column > 0 {
        return Cursor {
            column: cursor.column - 1,
            ..cursor
        };
    }
    let column = cursor.width - 1;
    if cursor.top < cursor.row {
        Cursor {
            row: cursor.row - 1,
            column,
            ..cursor
        }
    } else {
        Cursor { column, ..cursor }
    }
}

// Moves the cursor forwards past a character.
fn on(cursor: Cursor, byte: u8) -> Cursor
    requires { IsOnScreen cursor }
    ensures cursor { (memory : Memory) → IsCursor cursor memory → IsCursor result (after_character byte memory) }
    ensures screen { IsOnScreen result }
{
    if is_at_edge(&cursor) {
        move_to_next_line(cursor)
    } else {
        Cursor {
            column: cursor.column + 1,
            ..cursor
        }
    }
}

/// Returns the window and the cursor after a byte was put unmasked.
pub(crate) fn following(byte: u8, cursor: Cursor) -> Cursor
    requires { IsOnScreen cursor }
    ensures cursor { (memory : Memory) → IsCursor cursor memory → IsCursor result (after_put_unmasked byte memory) }
    ensures screen { IsOnScreen result }
{
    match byte {
        RETURN => move_to_next_line(cursor),
        LINE_FEED => down(cursor),
        BACKSPACE => back(cursor),
        _ if is_control(byte) => cursor,
        _ => on(cursor, byte),
    }
}
