//! Marks where a service stores.
//!
//! Each function here marks the addresses that it names. It returns false if the routine may not store at one of
//! them, or if one is not in RAM or holds the return address.

ghost use Rattle.std.specs.Prelude.{◌≡◌, ◌<◌, ◌≤◌, ◌+◌, ℕ, [], ◌∷◌, ◌++◌, map, IfSome, IsTrue};
ghost use Rattle.a2_page.specs.Cells.{numbers_from};
ghost use Rattle.a2_bus.specs.Memory.{Memory};
ghost use Rattle.a2_bus.specs.View.{memory_of};
ghost use Rattle.a2_effect.specs.View.{registers_of};
ghost use Rattle.a2_services.specs.Blocks.{numbers_from_to};
ghost use Rattle.a2_services.specs.Put.{after_put, window_of};
ghost use Rattle.a2_services.specs.World.{world_of};
ghost use Rattle.a2_footprint.specs.Services.{block_cell, bytes_set as bytes_set_by, cells_below, cells_changed, cells_to_end};
ghost use Rattle.a2_footprint.specs.Services.{changed_by, put_changes, service_stores, window_cells};
ghost use Rattle.a2_promise_certify.specs.Screen.{IsCursor, IsOnScreen, window_by};
ghost use Rattle.a2_promise_certify.specs.Walking.{AreMarked};

use crate::cursor::{Cursor, cursor_in, following, is_on_screen, is_shown, scrolls};
use crate::marks::mark;
use crate::stored::Stored;
use a2_bus::AddressSpace;
use a2_bus::locations::{BASH, BASL, CH, COLOR, CV, H2, INVFLG, V2};
use a2_cpu::Regs;
use a2_page::{Page, address};
use a2_promise::Changes;
use a2_services::bytes::digit_byte;
use a2_services::{OnScreen, Reach, Service, load, masked, row_of};
use std::alloc::Global;

// The whole screen.
const WHOLE_SCREEN: Cursor = Cursor {
    left: 0,
    width: 40,
    top: 0,
    bottom: 24,
    row: 0,
    column: 0,
};

/// Marks each of these addresses.
pub(crate) fn mark_each(stored: &mut Stored, changes: &Changes, addresses: &[u16]) -> bool
    ensures { IsTrue result → AreMarked stored.old stored.new changes.now addresses.now }
{
    let [first, rest @ ..] = addresses else {
        return true;
    };
    mark(stored, changes, *first) && mark_each(stored, changes, rest)
}

// Marks `count` cells of a row, from an address on.
fn mark_cells(stored: &mut Stored, changes: &Changes, first: u16, count: u8) -> bool
    requires { first + count < 0x10000 }
    ensures { IsTrue result → AreMarked stored.old stored.new changes.now (numbers_from first count) }
{
    for step in 0..count {
        if !mark(stored, changes, first + u16::from(step)) {
            return false;
        }
    }
    true
}

// Marks the cells of a window, row by row.
fn mark_window(stored: &mut Stored, changes: &Changes, window: &Cursor) -> bool
    requires left { window.now.left < 40 }
    requires right { window.now.left + window.now.width ≤ 40 }
    requires bottom { window.now.bottom ≤ 24 }
    ensures { IsTrue result → AreMarked stored.old stored.new changes.now (window_cells (window_by window.now)) }
{
    for step in 0..window.bottom.saturating_sub(window.top) {
        let first = address(Page::One, window.top + step, window.left);
        if !mark_cells(stored, changes, first, window.width) {
            return false;
        }
    }
    true
}

// Marks the cell of a block; also returns false if the block is not on the screen.
fn mark_block(stored: &mut Stored, changes: &Changes, row: u8, column: u8) -> bool
    ensures { IsTrue result → AreMarked stored.old stored.new changes.now (block_cell row column ∷ []) }
{
    row < 48 && column < 40 && mark(stored, changes, address(Page::One, row / 2, column))
}

// Marks the cells of a row's blocks, from a column on.
fn mark_blocks_across(stored: &mut Stored, changes: &Changes, row: u8, first: u8, last: u8) -> bool
    ensures { IsTrue result → AreMarked stored.old stored.new changes.now (map (λ column. block_cell row column) (numbers_from_to first last)) }
{
    if row >= 48 || first >= 40 || last >= 40 {
        return false;
    }
    let cell = address(Page::One, row / 2, first);
    mark_cells(stored, changes, cell, last.saturating_sub(first) + 1)
}

// Marks the cells of a column's blocks, from a row on.
fn mark_blocks_down(stored: &mut Stored, changes: &Changes, first: u8, last: u8, column: u8) -> bool
    ensures { IsTrue result → AreMarked stored.old stored.new changes.now (map (λ row. block_cell row column) (numbers_from_to first last)) }
{
    if first >= 48 || last >= 48 {
        return false;
    }
    for step in 0..last.saturating_sub(first) + 1 {
        if !mark_block(stored, changes, first + step, column) {
            return false;
        }
    }
    true
}

// Marks the cells that change when a masked byte is put.
fn mark_put(stored: &mut Stored, changes: &Changes, byte: u8, cursor: &Cursor) -> bool
    requires { IsOnScreen cursor.now }
    ensures { IsTrue result → (memory : Memory) → IsCursor cursor.now memory
        → AreMarked stored.old stored.new changes.now (changed_by byte memory) }
{
    let cell = address(Page::One, cursor.row, cursor.left + cursor.column);
    if is_shown(byte) && !mark(stored, changes, cell) {
        return false;
    }
    !scrolls(byte, cursor) || mark_window(stored, changes, cursor)
}

// Marks the cells from the cursor to the window's right edge.
fn mark_to_end(stored: &mut Stored, changes: &Changes, cursor: &Cursor) -> bool
    requires { IsOnScreen cursor.now }
    ensures { IsTrue result → (memory : Memory) → IsCursor cursor.now memory
        → AreMarked stored.old stored.new changes.now (cells_to_end memory) }
{
    let first = address(Page::One, cursor.row, cursor.left + cursor.column);
    let count = cursor.width.saturating_sub(cursor.column);
    mark_cells(stored, changes, first, count)
}

// Returns the window and the cursor, if they are on the screen.
fn cursor_on_screen(space: &AddressSpace<Global>) -> Option<Cursor>
    ensures { IfSome result (λ cursor. IsCursor cursor (memory_of space.now) × IsOnScreen cursor) }
{
    let cursor = cursor_in(space);
    if is_on_screen(&cursor) {
        Some(cursor)
    } else {
        None
    }
}

// Marks the cells from the cursor to the window's right edge; false if the cursor is not on the screen.
fn mark_row(stored: &mut Stored, changes: &Changes, space: &AddressSpace<Global>) -> bool
    ensures { IsTrue result → AreMarked stored.old stored.new changes.now (cells_to_end (memory_of space.now)) }
{
    match cursor_on_screen(space) {
        Some(cursor) => mark_to_end(stored, changes, &cursor),
        None => false,
    }
}

// Marks the same cells, and the rows of the window below them.
fn mark_below(stored: &mut Stored, changes: &Changes, space: &AddressSpace<Global>) -> bool
    ensures { IsTrue result → let memory = memory_of space.now in
        AreMarked stored.old stored.new changes.now (cells_to_end memory ++ cells_below memory) }
{
    let Some(cursor) = cursor_on_screen(space) else {
        return false;
    };
    let below = Cursor {
        top: cursor.row + 1,
        ..cursor
    };
    mark_to_end(stored, changes, &cursor) && mark_window(stored, changes, &below)
}

// Marks the window's cells; false if the window is not on the screen.
fn mark_whole_window(stored: &mut Stored, changes: &Changes, space: &AddressSpace<Global>) -> bool
    ensures { IsTrue result → AreMarked stored.old stored.new changes.now (window_cells (window_of (memory_of space.now))) }
{
    let window = Cursor {
        row: 0,
        column: 0,
        ..cursor_in(space)
    };
    is_on_screen(&window) && mark_window(stored, changes, &window)
}

// Marks what changes when a byte is put.
fn mark_output(
    stored: &mut Stored,
    changes: &Changes,
    byte: u8,
    space: &AddressSpace<Global>,
) -> bool
    ensures { IsTrue result → AreMarked stored.old stored.new changes.now (put_changes byte (memory_of space.now)) }
{
    let Some(cursor) = cursor_on_screen(space) else {
        return false;
    };
    let byte = masked(byte, load(space, INVFLG));
    mark_put(stored, changes, byte, &cursor)
}

// Marks what changes when two bytes are put one after the other.
fn mark_both(
    stored: &mut Stored,
    changes: &Changes,
    first: u8,
    second: u8,
    space: &AddressSpace<Global>,
) -> bool
    ensures { IsTrue result → let memory = memory_of space.now in AreMarked stored.old stored.new changes.now
        (put_changes first memory ++ put_changes second (after_put first memory)) }
{
    let Some(cursor) = cursor_on_screen(space) else {
        return false;
    };
    let mask = load(space, INVFLG);
    let after_first_one = following(masked(first, mask), cursor);
    let next = masked(second, mask);
    mark_output(stored, changes, first, space) && mark_put(stored, changes, next, &after_first_one)
}

// Returns the bytes at which a service with this reach stores, except the cells of the screen.
fn bytes_set(reach: Reach) -> &'static [u16]
    ensures { result.now ≡ bytes_set_by reach }
{
    match reach {
        Reach::Screen => &[CH, CV, BASL, BASH],
        Reach::Mask => &[INVFLG],
        Reach::Base | Reach::BaseAndPage => &[BASL, BASH],
        Reach::Color => &[COLOR],
        Reach::Graphics => &[COLOR, V2],
        Reach::Nowhere | Reach::ScreenAndLine | Reach::Page => &[],
    }
}

// Marks the cells that a service changes, given what it does on the screen.
fn mark_changed(
    on_screen: OnScreen,
    stored: &mut Stored,
    changes: &Changes,
    regs: &Regs,
    space: &AddressSpace<Global>,
) -> bool
    ensures { IsTrue result → AreMarked stored.old stored.new changes.now
        (cells_changed on_screen (registers_of regs.now) (memory_of space.now)) }
{
    let low = digit_byte(regs.a % 16);
    match on_screen {
        OnScreen::PutsByte => mark_output(stored, changes, regs.a, space),
        OnScreen::PutsDigits => mark_both(stored, changes, digit_byte(regs.a / 16), low, space),
        OnScreen::PutsDigit => mark_output(stored, changes, low, space),
        OnScreen::ClearsWindow => mark_whole_window(stored, changes, space),
        OnScreen::ClearsToEnd => mark_row(stored, changes, space),
        OnScreen::ClearsBelow => mark_below(stored, changes, space),
        OnScreen::PaintsBlock => mark_block(stored, changes, regs.a, regs.y),
        OnScreen::PaintsAcross => mark_blocks_across(
            stored,
            changes,
            regs.a,
            regs.y,
            load(space, H2),
        ),
        OnScreen::PaintsDown => mark_blocks_down(stored, changes, regs.a, load(space, V2), regs.y),
        OnScreen::ClearsBlocks => mark_window(stored, changes, &WHOLE_SCREEN),
        OnScreen::Nothing | OnScreen::ReadsLine | OnScreen::LooksAtBlock => true,
    }
}

/// Marks the addresses at which a service stores.
#[tactic(auto, unfolding(a2_footprint::specs::Services::service_stores))]
pub(crate) fn mark_places(
    service: Service,
    stored: &mut Stored,
    changes: &Changes,
    regs: &Regs,
    space: &AddressSpace<Global>,
) -> bool
    ensures { IsTrue result → (before : ℕ)
        → AreMarked stored.old stored.new changes.now (service_stores service
        (world_of (registers_of regs.now) space.now before)) }
{
    let row = row_of(service);
    mark_each(stored, changes, bytes_set(row.reach))
        && mark_changed(row.on_screen, stored, changes, regs, space)
}
