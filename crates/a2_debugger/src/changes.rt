//! Reports what a command changed.

use crate::alerts::is_watched;
use crate::answer_sheet::{RunReport, Sheet, byte_at, one_of, put_named};
use a2_cpu::Regs;
use a2_hex::RAM_END;
use a2_machine::Machine;
use a2_page::{Page, cell, glyph, print};
use a2_stream::{Gathered, Output, WriteFault, put_all};
use a2_text::{decimal, hex_pair};
use arrayvec::ArrayVec;
use std::alloc::Allocator;

// The greatest number of changed bytes that are listed in addition to the watched ones, and the number of bytes on a line.
const MOST_CHANGES: usize = 10;

const CHANGES_IN_LINE: usize = 5;

// The greatest number of watched bytes: 8 spans of 256.
const MOST_WATCHED: usize = 2048;

// The first row that shows characters in the mixed modes.
const MIXED_ROW: u8 = 20;

// Prints a register if its value changed.
fn put_change<A: Allocator + Copy>(name: &[u8], before: u8, now: u8, sheet: &mut Sheet<A>) {
    if before != now {
        sheet.put_all(&[b" ", name, b"=", &hex_pair(before), b"->", &hex_pair(now)]);
    }
}

// Prints the flags that changed, given the bytes that PHP would push. Bits 5 and 4 of these are always set.
fn put_flags<A: Allocator + Copy>(before: u8, now: u8, sheet: &mut Sheet<A>) {
    let mut bit = 0x80u8;
    for letter in b"NV--DIZC" {
        if before & bit != now & bit {
            let change = one_of(before & bit == 0, b"=0->1", b"=1->0");
            sheet.put_all(&[b" ", &[*letter], change]);
        }
        bit >>= 1;
    }
}

/// Prints the registers that changed, except PC.
pub(crate) fn put_registers<A: Allocator + Copy>(before: Regs, now: Regs, sheet: &mut Sheet<A>) {
    let (flags, new_flags) = (before.p.pushed(), now.p.pushed());
    if [before.a, before.x, before.y, flags, before.s] == [now.a, now.x, now.y, new_flags, now.s] {
        return;
    }
    sheet.put(b"changed:");
    put_change(b"A", before.a, now.a, sheet);
    put_change(b"X", before.x, now.x, sheet);
    put_change(b"Y", before.y, now.y, sheet);
    put_change(b"P", flags, new_flags, sheet);
    put_flags(flags, new_flags, sheet);
    put_change(b"S", before.s, now.s, sheet);
    sheet.put(b"\n");
}

// Prints the old and new value of a byte, after `following` others.
fn put_byte<A: Allocator + Copy>(
    stand: &RunReport<A>,
    address: u16,
    following: usize,
    sheet: &mut Sheet<A>,
) {
    let next = one_of(following % CHANGES_IN_LINE == 0, b"\nchanged: ", b" ");
    let before = hex_pair(byte_at(stand.before, address));
    let now = hex_pair(byte_at(stand.machine, address));
    sheet.put(one_of(following == 0, b"changed: ", next));
    put_named(stand, address, sheet);
    sheet.put_all(&[b"=", &before, b"->", &now]);
}

// Prints the old and new values of the bytes at these addresses.
fn put_bytes_at<A: Allocator + Copy>(
    stand: &RunReport<A>,
    addresses: &[u16],
    sheet: &mut Sheet<A>,
) {
    let mut following = 0usize;
    for address in addresses {
        put_byte(stand, *address, following, sheet);
        following = following.saturating_add(1);
    }
    if following > 0 {
        sheet.put(b"\n");
    }
}

// Whether the change of a byte is reported with the screen. This holds for a character unless its glyph is the same, and not
// for a byte of hi-res.
fn is_on_screen<A: Allocator + Copy>(stand: &RunReport<A>, address: u16) -> bool {
    let switches = stand.machine.view().switches;
    let Some((page, row, _)) = cell(address) else {
        return false;
    };
    let shows = if switches.text || switches.mixed && row >= MIXED_ROW {
        glyph(byte_at(stand.before, address)) != glyph(byte_at(stand.machine, address))
    } else {
        !switches.hires
    };
    shows && (page == Page::Two) == switches.page2
}

// Whether an address belongs to the unused part of the stack.
fn is_free<A: Allocator + Copy>(machine: &Machine<A>, address: u16) -> bool {
    0x100 <= address && address <= 0x100 + u16::from(machine.regs().s)
}

/// Prints the watched bytes that changed. Of the other bytes that changed, prints the first few and the number of the rest;
/// bytes that show on the screen and those in the unused part of the stack are left out. Comparing every byte of RAM takes most
/// of the time of a stop.
pub(crate) fn put_bytes<A: Allocator + Copy>(stand: &RunReport<A>, sheet: &mut Sheet<A>) {
    let mut watched = ArrayVec::<u16, MOST_WATCHED>::new();
    let mut others = ArrayVec::<u16, MOST_CHANGES>::new();
    let mut number = 0usize;
    for address in 0..RAM_END {
        if byte_at(stand.before, address) != byte_at(stand.machine, address) {
            if is_watched(stand.watches, address) {
                let _ = watched.try_push(address);
            } else if !is_on_screen(stand, address) && !is_free(stand.machine, address) {
                let _ = others.try_push(address);
                number = number.saturating_add(1);
            }
        }
    }
    put_bytes_at(stand, watched.as_slice(), sheet);
    put_bytes_at(stand, others.as_slice(), sheet);
    if number > MOST_CHANGES {
        let more = decimal((number - MOST_CHANGES) as u64);
        sheet.put_all(&[b"changed: ", more.as_slice(), b" more\n"]);
    }
}

// The lines of a machine's screen. There is room for all of them.
fn screen_of<A: Allocator + Copy>(machine: &Machine<A>) -> Gathered {
    let mut screen = Gathered::new();
    let _ = print(&machine.view(), &mut screen);
    screen
}

/// Writes the lines of the screen that changed between two machines, each with its number, counted from 0, and without blanks at
/// its end.
pub(crate) fn put_changed_rows<A: Allocator + Copy, W: Output>(
    before: &Machine<A>,
    now: &Machine<A>,
    writer: &mut W,
) -> Result<(), WriteFault> {
    let (before, now) = (screen_of(before), screen_of(now));
    let mut earlier = before.as_slice().split(|c| *c == b'\n');
    let mut number = 0u64;
    for line in now.as_slice().split(|c| *c == b'\n') {
        let line = line.trim_ascii_end();
        if line != earlier.next().unwrap_or(b"").trim_ascii_end() {
            let gap = one_of(line.is_empty(), b":", b": ");
            put_all(
                &[b"screen ", decimal(number).as_slice(), gap, line, b"\n"],
                writer,
            )?;
        }
        number = number.saturating_add(1);
    }
    Ok(())
}
