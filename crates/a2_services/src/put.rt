//! Putting a byte on the screen: a character, a return, a line feed or a backspace.

ghost use Rattle.std.specs.Prelude.{◌≡◌, ◌<◌, ◌+◌};
ghost use Rattle.a2_bus.specs.View.{memory_of};
ghost use Rattle.a2_services.specs.Put.{after_line_feed, after_return, after_backspace, after_character, after_put_unmasked, after_put, masked_by, with_base_address};
ghost use Rattle.a2_services.specs.Fits.{CursorFits, LineFits};

use crate::bytes::{BACKSPACE, LINE_FEED, RETURN};
use crate::screen::{load, scroll, set_cell, store, window};
use a2_bus::AddressSpace;
use a2_bus::locations::{BASH, BASL, CH, CV, INVFLG};
use a2_page::{BLANK, Page, address};
use std::alloc::Allocator;

// Moves the cursor down, or scrolls the window if the cursor is at its bottom.
#[tactic(auto, unfolding(crate::specs::Put::after_line_feed))]
fn feed<A: Allocator>(space: &mut AddressSpace<A>)
    requires { LineFits (memory_of space.old) }
    ensures { memory_of space.new ≡ after_line_feed (memory_of space.old) }
{
    let edges = window(space);
    let row = load(space, CV);
    if row + 1 < edges.bottom {
        store(space, CV, row + 1);
    } else {
        scroll(space, edges);
    }
}

// Moves the cursor to the window's left edge and down.
#[tactic(auto, unfolding(crate::specs::Put::after_return))]
fn return_line<A: Allocator>(space: &mut AddressSpace<A>)
    requires { LineFits (memory_of space.old) }
    ensures { memory_of space.new ≡ after_return (memory_of space.old) }
{
    store(space, CH, 0);
    feed(space);
}

// Moves the cursor back.
#[tactic(auto, unfolding(crate::specs::Put::after_backspace))]
fn back<A: Allocator>(space: &mut AddressSpace<A>)
    requires { CursorFits (memory_of space.old) }
    ensures { memory_of space.new ≡ after_backspace (memory_of space.old) }
{
    let edges = window(space);
    let column = load(space, CH);
    let row = load(space, CV);
    if column > 0 {
        store(space, CH, column - 1);
    } else {
        store(space, CH, edges.width - 1);
        if edges.top < row {
            store(space, CV, row - 1);
        }
    }
}

// Writes the byte to the cursor's cell and moves the cursor forward.
#[tactic(auto, unfolding(crate::specs::Put::after_character))]
fn show<A: Allocator>(space: &mut AddressSpace<A>, byte: u8)
    requires { CursorFits (memory_of space.old) }
    ensures { memory_of space.new ≡ after_character byte (memory_of space.old) }
{
    let edges = window(space);
    let column = load(space, CH);
    let row = load(space, CV);
    set_cell(space, row, edges.left + column, byte);
    store(space, CH, column + 1);
    if edges.width <= column + 1 {
        return_line(space);
    }
}

/// Puts a byte without applying the mask.
#[tactic(auto, unfolding(crate::specs::Put::after_put_unmasked))]
pub(crate) fn put_unmasked<A: Allocator>(space: &mut AddressSpace<A>, byte: u8)
    requires { CursorFits (memory_of space.old) }
    ensures memory { memory_of space.new ≡ after_put_unmasked byte (memory_of space.old) }
    ensures fits { CursorFits (memory_of space.new) }
{
    match byte {
        RETURN => return_line(space),
        LINE_FEED => feed(space),
        BACKSPACE => back(space),
        0x80..BLANK => {}
        _ => show(space, byte),
    }
}

/// Returns a byte as COUT1 puts it: ANDed with the mask if the byte is a blank ($A0) or above, otherwise unchanged. Both are
/// from 0 to 255, and the mask is the byte at $32. Apple II Reference Manual (1979), chapter 2, on standard output; the exact
/// effects are this project's profile.
#[tactic(auto, using(a2_effect::proofs::Digits::and_is))]
pub fn masked(byte: u8, mask: u8) -> u8
    ensures { result ≡ masked_by byte mask }
{
    if byte >= BLANK { byte & mask } else { byte }
}

/// Puts a byte, after applying the mask if the byte is a blank or above.
#[tactic(auto, unfolding(crate::specs::Put::after_put))]
pub(crate) fn put<A: Allocator>(space: &mut AddressSpace<A>, byte: u8)
    requires { CursorFits (memory_of space.old) }
    ensures memory { memory_of space.new ≡ after_put byte (memory_of space.old) }
    ensures fits { CursorFits (memory_of space.new) }
{
    let mask = load(space, INVFLG);
    put_unmasked(space, masked(byte, mask));
}

/// Stores the address of the window's left edge in the cursor's row at BASL and BASH.
#[tactic(auto, unfolding(crate::specs::Put::with_base_address))]
pub(crate) fn set_base<A: Allocator>(space: &mut AddressSpace<A>)
    requires { LineFits (memory_of space.old) }
    ensures { memory_of space.new ≡ with_base_address (memory_of space.old) }
{
    let edges = window(space);
    let base = address(Page::One, load(space, CV), edges.left);
    let [low, high] = base.to_le_bytes();
    store(space, BASL, low);
    store(space, BASH, high);
}
