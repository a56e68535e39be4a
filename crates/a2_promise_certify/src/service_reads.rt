//! Describes which registers the Monitor's services depend on and set, and decides whether the bytes that they read
//! are known. Apple II Reference Manual (1979), chapter 3.

ghost use Rattle.std.specs.Prelude.{◌≡◌, ◌<◌, ◌+◌, ◌∷◌, ◌++◌, ℕ, IsTrue, map};
ghost use Rattle.a2_page.specs.Cells.{numbers_from};
ghost use Rattle.a2_bus.specs.Locations as at;
ghost use Rattle.a2_bus.specs.Memory.{Memory};
ghost use Rattle.a2_bus.specs.View.{memory_of};
ghost use Rattle.a2_effect.specs.View.{registers_of};
ghost use Rattle.a2_services.specs.Blocks.{numbers_from_to};
ghost use Rattle.a2_services.specs.Put.{after_put};
ghost use Rattle.a2_services.specs.World.{world_of};
ghost use Rattle.a2_footprint.specs.Reads.{Knows};
ghost use Rattle.a2_footprint.specs.Services.{block_cell, screen_bytes_used, fit_bytes, is_keyless as is_keyless_by, moved_by, parts_in as parts_by, put_moves};
ghost use Rattle.a2_footprint.specs.Services.{service_needs, service_reads, service_sets, continuation_bytes, window_cells};
ghost use Rattle.a2_promise_certify.specs.Screen.{IsCursor, IsOnScreen, window_by};
ghost use Rattle.a2_promise_certify.specs.Walking.{known_now};

use crate::cursor::{Cursor, cursor_in, following, is_on_screen, scrolls};
use crate::marks::{are_known, is_known_now};
use crate::stored::Stored;
use a2_bus::AddressSpace;
use a2_bus::locations::{CH, COLOR, CSW, CV, H2, INVFLG, KSW, V2, WNDBTM, WNDLFT, WNDTOP, WNDWDTH};
use a2_cpu::Regs;
use a2_footprint::{Part, pull_address};
use a2_page::{Page, address};
use a2_services::bytes::digit_byte;
use a2_services::{Needs, OnScreen, RegisterSet, Service, Takes, load, masked, row_of};
use std::alloc::Global;

// Returns the registers of a set.
fn parts_in(registers: RegisterSet) -> &'static [Part]
    ensures { result.now ≡ parts_by registers }
{
    match registers {
        RegisterSet::Empty => &[],
        RegisterSet::A => &[Part::A],
        RegisterSet::X => &[Part::X],
        RegisterSet::AAndY => &[Part::A, Part::Y],
    }
}

/// Returns the registers that a service depends on.
pub fn registers_read_by(service: Service) -> &'static [Part]
    ensures { result.now ≡ service_needs service }
{
    parts_in(row_of(service).looks_at)
}

/// Returns the registers that a service sets.
pub fn registers_set_by(service: Service) -> &'static [Part]
    ensures { result.now ≡ service_sets service }
{
    parts_in(row_of(service).sets)
}

/// Returns whether a service needs no key.
pub(crate) fn is_keyless(service: Service) -> bool
    ensures { result ≡ is_keyless_by service }
{
    !matches!(row_of(service).needs, Needs::Key | Needs::Line)
}

// Returns the addresses of the two bytes that say where execution continues after a service.
fn continuation_bytes(service: Service, s: u8) -> [u16; 2]
    ensures { result ≡ continuation_bytes service s }
{
    match row_of(service).takes {
        Takes::OutputHook => [CSW, CSW + 1],
        Takes::InputHook => [KSW, KSW + 1],
        Takes::Six | Takes::Wait => [pull_address(s, 1), pull_address(s, 2)],
    }
}

// Returns the addresses of the bytes that decide whether a service's needs are met.
fn bytes_of_needs(needs: Needs) -> &'static [u16]
    ensures { result.now ≡ fit_bytes needs }
{
    match needs {
        Needs::Window => &[WNDLFT, WNDWDTH, WNDTOP, WNDBTM],
        Needs::Cursor => &[CH, CV, WNDLFT, WNDWDTH, WNDTOP, WNDBTM],
        Needs::Across => &[H2],
        Needs::Down => &[V2],
        Needs::Nothing | Needs::Key | Needs::Line | Needs::Block => &[],
    }
}

// Returns whether `count` bytes from an address on are known.
fn are_cells_known(known: &[bool], stored: &Stored, first: u16, count: u16) -> bool
    requires { first + count < 0x10000 }
    ensures { IsTrue result → Knows (known_now known.now stored.now) (numbers_from first count) }
{
    for address in first..first + count {
        if !is_known_now(known, stored, address) {
            return false;
        }
    }
    true
}

// Returns whether the cells of the window are known.
fn is_window_known(known: &[bool], stored: &Stored, cursor: &Cursor) -> bool
    requires { IsOnScreen cursor.now }
    ensures { IsTrue result → Knows (known_now known.now stored.now) (window_cells (window_by cursor.now)) }
{
    for row in cursor.top..cursor.bottom {
        let first = address(Page::One, row, cursor.left);
        if !are_cells_known(known, stored, first, u16::from(cursor.width)) {
            return false;
        }
    }
    true
}

// Returns whether the cell of a block is known.
fn is_block_known(known: &[bool], stored: &Stored, row: u8, column: u8) -> bool
    ensures { IsTrue result → IsTrue (known_now known.now stored.now (block_cell row column)) }
{
    row < 48 && column < 40 && is_known_now(known, stored, address(Page::One, row / 2, column))
}

// Returns whether the cells of a row's blocks are known, from a column on.
fn are_known_across(known: &[bool], stored: &Stored, row: u8, first: u8, last: u8) -> bool
    ensures { IsTrue result → Knows (known_now known.now stored.now)
        (map (λ column. block_cell row column) (numbers_from_to first last)) }
{
    let end = first.max(last);
    if end >= 40 {
        return false;
    }
    for column in first..end + 1 {
        if !is_block_known(known, stored, row, column) {
            return false;
        }
    }
    true
}

// Returns whether the cells of a column's blocks are known, from a row on.
fn are_known_down(known: &[bool], stored: &Stored, first: u8, last: u8, column: u8) -> bool
    ensures { IsTrue result → Knows (known_now known.now stored.now) (map (λ row. block_cell row column) (numbers_from_to first last)) }
{
    let end = first.max(last);
    if end >= 48 {
        return false;
    }
    for row in first..end + 1 {
        if !is_block_known(known, stored, row, column) {
            return false;
        }
    }
    true
}

// Returns whether the cells that move when a byte is put unmasked are known.
fn are_moved_known(known: &[bool], stored: &Stored, byte: u8, cursor: &Cursor) -> bool
    requires { IsOnScreen cursor.now }
    ensures { IsTrue result → (memory : Memory) → IsCursor cursor.now memory
        → Knows (known_now known.now stored.now) (moved_by byte memory) }
{
    !scrolls(byte, cursor) || is_window_known(known, stored, cursor)
}

// Returns whether the mask is known, and the cells that move when a byte is put.
fn is_put_known(known: &[bool], stored: &Stored, byte: u8, space: &AddressSpace<Global>) -> bool
    ensures { IsTrue result → Knows (known_now known.now stored.now) (at.invflg ∷ put_moves byte (memory_of space.now)) }
{
    let cursor = cursor_in(space);
    let byte = masked(byte, load(space, INVFLG));
    is_on_screen(&cursor)
        && is_known_now(known, stored, INVFLG)
        && are_moved_known(known, stored, byte, &cursor)
}

// Returns whether the mask and the moved cells are known when two bytes are put one after the other.
fn are_both_known(
    known: &[bool],
    stored: &Stored,
    first: u8,
    second: u8,
    space: &AddressSpace<Global>,
) -> bool
    ensures { IsTrue result → let memory = memory_of space.now in Knows (known_now known.now stored.now)
        (at.invflg ∷ put_moves first memory ++ put_moves second (after_put first memory)) }
{
    let cursor = cursor_in(space);
    let mask = load(space, INVFLG);
    let (put, next) = (masked(first, mask), masked(second, mask));
    if !is_on_screen(&cursor)
        || !is_known_now(known, stored, INVFLG)
        || !are_moved_known(known, stored, put, &cursor)
    {
        return false;
    }
    are_moved_known(known, stored, next, &following(put, cursor))
}

// Returns whether everything is known from which a service computes what it stores, given what it does on the screen.
fn is_used_known(
    on_screen: OnScreen,
    known: &[bool],
    stored: &Stored,
    regs: &Regs,
    space: &AddressSpace<Global>,
) -> bool
    ensures { IsTrue result → Knows (known_now known.now stored.now)
        (screen_bytes_used on_screen (registers_of regs.now) (memory_of space.now)) }
{
    let low = digit_byte(regs.a % 16);
    match on_screen {
        OnScreen::PutsByte => is_put_known(known, stored, regs.a, space),
        OnScreen::PutsDigits => are_both_known(known, stored, digit_byte(regs.a / 16), low, space),
        OnScreen::PutsDigit => is_put_known(known, stored, low, space),
        OnScreen::LooksAtBlock => is_block_known(known, stored, regs.a, regs.y),
        OnScreen::PaintsBlock => {
            is_known_now(known, stored, COLOR) && is_block_known(known, stored, regs.a, regs.y)
        }
        OnScreen::PaintsAcross => {
            is_known_now(known, stored, COLOR)
                && are_known_across(known, stored, regs.a, regs.y, load(space, H2))
        }
        OnScreen::PaintsDown => {
            is_known_now(known, stored, COLOR)
                && are_known_down(known, stored, regs.a, load(space, V2), regs.y)
        }
        _ => true,
    }
}

/// Returns whether everything that a service reads is known. This is where execution continues, whether its needs are
/// met, and what its stored bytes are computed from.
pub(crate) fn is_all_known(
    service: Service,
    known: &[bool],
    stored: &Stored,
    regs: &Regs,
    space: &AddressSpace<Global>,
) -> bool
    ensures { IsTrue result → (before : ℕ)
        → Knows (known_now known.now stored.now) (service_reads service (world_of (registers_of regs.now) space.now before)) }
{
    if !are_known(known, stored, &continuation_bytes(service, regs.s))
        || !are_known(known, stored, bytes_of_needs(row_of(service).needs))
    {
        return false;
    }
    is_used_known(row_of(service).on_screen, known, stored, regs, space)
}
