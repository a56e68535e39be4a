//! Reading a line.

ghost use Rattle.std.specs.Prelude.{◌≡◌, ◌<◌, ◌+◌, ◌==◌, Some, IfSome};
ghost use Rattle.a2_bus.specs.View.{memory_of};
ghost use Rattle.a2_services.specs.Services.{byte_of_key as byte_of_key_of, cleared_to_end, after_prompt, after_byte as after_byte_of, with_key_taken};
ghost use Rattle.a2_services.specs.Fits.{CursorFits};
ghost use Rattle.a2_services.specs.Reading.{reading, rest_of, kept, first_of};

use crate::bytes::{BACKSLASH, BACKSPACE, CANCEL, RETURN, RIGHT_ARROW_KEY};
use crate::locations::LINE_BUFFER;
use crate::put::{put, put_unmasked};
use crate::screen::{cell, fill_part, load, store, window};
use a2_bus::AddressSpace;
use a2_bus::locations::{CH, CV, PROMPT};
use a2_page::BLANK;
use std::alloc::Allocator;

/// Returns the first waiting key, or `None` if no key is waiting.
#[tactic(auto, using(a2_bus::proofs::Viewing::devices_seen))]
pub(crate) fn first_key<A: Allocator>(space: &AddressSpace<A>) -> Option<u8>
    ensures key { result ≡ first_of (memory_of space.now).devices.keys }
    ensures code { IfSome result (λ key. key < 128) }
{
    space.waiting().first().copied()
}

/// Removes the first waiting key.
#[tactic(auto, using(a2_bus::proofs::Viewing::take_seen))]
pub(crate) fn take_key<A: Allocator>(space: &mut AddressSpace<A>)
    ensures { memory_of space.new ≡ with_key_taken (memory_of space.old) }
{
    space.take_key();
}

// The byte that a key stands for.
fn byte_of_key<A: Allocator>(space: &AddressSpace<A>, key: u8) -> u8
    requires fits { CursorFits (memory_of space.now) }
    requires code { key < 128 }
    ensures { result ≡ byte_of_key_of (memory_of space.now) key }
{
    let row = load(space, CV);
    let column = window(space).left + load(space, CH);
    let byte = if key == RIGHT_ARROW_KEY {
        cell(space, row, column)
    } else {
        0x80 + key
    };
    if byte >= 0xE0 { byte - 0x20 } else { byte }
}

// Removes the first waiting key and stores a byte in the line.
fn keep<A: Allocator>(space: &mut AddressSpace<A>, length: u8, byte: u8)
    requires { CursorFits (memory_of space.old) }
    ensures memory { memory_of space.new ≡ kept (memory_of space.old) length byte }
    ensures fits { CursorFits (memory_of space.new) }
{
    take_key(space);
    store(space, LINE_BUFFER + u16::from(length), byte);
}

/// Makes the cells from the cursor to the window's right edge blank.
#[tactic(auto, unfolding(crate::specs::Services::cleared_to_end))]
pub(crate) fn clear_to_end<A: Allocator>(space: &mut AddressSpace<A>)
    requires { CursorFits (memory_of space.old) }
    ensures memory { memory_of space.new ≡ cleared_to_end (memory_of space.old) }
    ensures fits { CursorFits (memory_of space.new) }
{
    let edges = window(space);
    let column = load(space, CH);
    let row = load(space, CV);
    let width = edges.width.saturating_sub(column);
    fill_part(space, row, edges.left + column, width, BLANK);
}

// Starts a new line with the prompt.
fn prompt<A: Allocator>(space: &mut AddressSpace<A>)
    requires { CursorFits (memory_of space.old) }
    ensures memory { memory_of space.new ≡ after_prompt (memory_of space.old) }
    ensures fits { CursorFits (memory_of space.new) }
{
    let mark = load(space, PROMPT);
    put(space, RETURN);
    put(space, mark);
}

// Handles a byte that does not end the line, and returns the line's new length.
fn after_byte<A: Allocator>(space: &mut AddressSpace<A>, byte: u8, length: u8) -> u8
    requires { CursorFits (memory_of space.old) }
    ensures line { reading (memory_of space.new) result ≡ after_byte_of byte (reading (memory_of space.old) length) }
    ensures fits { CursorFits (memory_of space.new) }
{
    put_unmasked(space, byte);
    if byte == BACKSPACE {
        if length > 0 {
            return length - 1;
        }
        prompt(space);
        0
    } else if byte == CANCEL || length == 255 {
        put(space, BACKSLASH);
        prompt(space);
        0
    } else {
        length + 1
    }
}

/// Reads a line from the waiting keys and returns its length.
#[tactic(auto, using(crate::proofs::Lines::line_none, crate::proofs::Lines::line_end))]
pub(crate) fn read_line<A: Allocator>(space: &mut AddressSpace<A>) -> u8
    requires { CursorFits (memory_of space.old) }
    ensures line { reading (memory_of space.new) result ≡ rest_of (memory_of space.old) 0 }
    ensures fits { CursorFits (memory_of space.new) }
{
    let mut length: u8 = 0;
    while let Some(key) = first_key(space) {
        let byte = byte_of_key(space, key);
        keep(space, length, byte);
        if byte == RETURN {
            clear_to_end(space);
            put(space, RETURN);
            return length;
        }
        length = after_byte(space, byte, length);
    }
    length
}
