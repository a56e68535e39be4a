//! Access to RAM, to the cells of page 1 and to the text window.

ghost use Rattle.std.specs.Prelude.{◌≡◌, ◌<◌, ◌≤◌, ◌+◌, ◌/◌, slice_range, slice_index_or, length, replicate, []};
ghost use Rattle.a2_page.specs.Grid.{byte_in, with_byte, with_row_part, scrolled, cleared};
ghost use Rattle.a2_page.specs.Window.{IsWindow};
ghost use Rattle.a2_bus.specs.Memory.{ram_byte, with_ram, ram_end};
ghost use Rattle.a2_bus.specs.View.{memory_of};
ghost use Rattle.a2_services.specs.Put.{window_of, with_page1};
ghost use Rattle.a2_services.specs.Fits.{window_at};

use a2_bus::locations::{WNDBTM, WNDLFT, WNDTOP, WNDWDTH};
use a2_bus::{AddressSpace, Bus};
use a2_page::{BLANK, Page, address};
use std::alloc::Allocator;

/// The edges of the window: its first column, its width in columns, its first row, and the row below its last. Each is from 0
/// to 255: the window may lie outside the screen.
#[derive(Clone, Copy)]
pub struct Edges {
    pub left: u8,
    pub width: u8,
    pub top: u8,
    pub bottom: u8,
}

/// Returns the byte at an address of RAM, from 0 to $BFFF, as the services read it: nothing changes, and no device sees an
/// access. Apple II Reference Manual (1979), chapter 4, the memory map.
#[inline(always)]
#[tactic(auto, using(crate::proofs::Access::looked_at))]
pub fn load<A: Allocator>(space: &AddressSpace<A>, address: u16) -> u8
    requires { address < ram_end }
    ensures byte { result ≡ ram_byte (memory_of space.now) address }
    ensures size { length space.now.bytes ≡ ram_end }
{
    space.peek(address).unwrap_or(0)
}

/// Stores a byte at an address of RAM.
#[inline(always)]
#[tactic(auto, using(crate::proofs::Access::written_to))]
pub(crate) fn store<A: Allocator>(space: &mut AddressSpace<A>, address: u16, byte: u8)
    requires { address < ram_end }
    ensures { memory_of space.new ≡ with_ram (memory_of space.old) address byte }
{
    space.write(address, byte);
}

/// Returns the byte in a cell of page 1.
#[tactic(auto, using(a2_bus::proofs::Viewing::cell_seen))]
pub(crate) fn cell<A: Allocator>(space: &AddressSpace<A>, row: u8, column: u8) -> u8
    requires row { row < 24 }
    requires column { column < 40 }
    ensures { result ≡ byte_in (memory_of space.now).page1 row column }
{
    load(space, address(Page::One, row, column))
}

/// Stores a byte in a cell of page 1.
#[tactic(auto, using(a2_bus::proofs::Viewing::cell_written))]
pub(crate) fn set_cell<A: Allocator>(space: &mut AddressSpace<A>, row: u8, column: u8, byte: u8)
    requires row { row < 24 }
    requires column { column < 40 }
    ensures { let memory = memory_of space.old in
        memory_of space.new ≡ with_page1 (with_byte memory.page1 row column byte) memory }
{
    store(space, address(Page::One, row, column), byte);
}

/// Returns the window's edges, as stored in its four locations, $20 to $23. Nothing changes. Apple II Reference Manual (1979),
/// chapter 2, on the text window.
#[inline(always)]
pub fn window<A: Allocator>(space: &AddressSpace<A>) -> Edges
    ensures edges { window_at result ≡ window_of (memory_of space.now) }
    ensures size { length space.now.bytes ≡ ram_end }
{
    Edges {
        left: load(space, WNDLFT),
        width: load(space, WNDWDTH),
        top: load(space, WNDTOP),
        bottom: load(space, WNDBTM),
    }
}

/// Fills part of a row with one byte.
pub(crate) fn fill_part<A: Allocator>(
    space: &mut AddressSpace<A>,
    row: u8,
    left: u8,
    width: u8,
    byte: u8,
)
    requires row { row < 24 }
    requires left { left < 40 }
    requires right { left + width ≤ 40 }
    ensures { let memory = memory_of space.old in
        memory_of space.new ≡ with_page1 (with_row_part memory.page1 row left (replicate width byte)) memory }
{
    space.fill_bytes(address(Page::One, row, left), u16::from(width), byte);
}

/// Copies part of a row from the row below it.
#[tactic(auto, using(crate::proofs::Screens::row_laid, crate::proofs::Screens::row_taken, crate::proofs::Screens::below_long, a2_bus::proofs::Viewing::page1_is_grid))]
pub(crate) fn copy_up<A: Allocator>(space: &mut AddressSpace<A>, row: u8, left: u8, width: u8)
    requires row { row + 1 < 24 }
    requires left { left < 40 }
    requires right { left + width ≤ 40 }
    ensures { let memory = memory_of space.old in
        let below = slice_range (slice_index_or memory.page1 (row + 1) []) left (left + width) in
        memory_of space.new ≡ with_page1 (with_row_part memory.page1 row left below) memory }
{
    let below = address(Page::One, row + 1, left);
    space.move_bytes(below, address(Page::One, row, left), u16::from(width));
}

/// Scrolls the window.
pub(crate) fn scroll<A: Allocator>(space: &mut AddressSpace<A>, edges: Edges)
    requires { IsWindow (window_at edges) }
    ensures { let memory = memory_of space.old in
        memory_of space.new ≡ with_page1 (scrolled (window_at edges) memory.page1) memory }
{
    for row in edges.top..edges.bottom - 1 {
        copy_up(space, row, edges.left, edges.width);
    }
    fill_part(space, edges.bottom - 1, edges.left, edges.width, BLANK);
}

/// Clears the window.
pub(crate) fn clear<A: Allocator>(space: &mut AddressSpace<A>, edges: Edges)
    requires { IsWindow (window_at edges) }
    ensures { let memory = memory_of space.old in
        memory_of space.new ≡ with_page1 (cleared (window_at edges) memory.page1) memory }
{
    for row in edges.top..edges.bottom {
        fill_part(space, row, edges.left, edges.width, BLANK);
    }
}
