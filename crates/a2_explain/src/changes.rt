//! The bytes that a loop changes.

use crate::past::{Past, WIDE};
use crate::step::Store;
use a2_stream::{Output, WriteFault, put};
use a2_symbols::{Scene, name_of, put_address, put_number};
use std::alloc::{AllocError, Allocator};

// The greatest number of bytes that are listed.
const MOST_LISTED: usize = 4;

// A byte at which the steps of a loop stored.
#[derive(Clone, Copy)]
struct StoredByte {
    address: u16,
    // What was stored there first.
    first: u8,
    // Whether something else was stored there later.
    is_changed: bool,
}

// Notes that a step stored a byte.
fn note<A: Allocator>(stored: &mut Vec<StoredByte, A>, store: Store) -> Result<(), AllocError> {
    for index in 0..stored.len() {
        if let Some(it) = stored.get_mut(index) {
            if it.address == store.address {
                it.is_changed = it.is_changed || it.first != store.byte;
                return Ok(());
            }
        }
    }
    stored.push(StoredByte {
        address: store.address,
        first: store.byte,
        is_changed: false,
    })?;
    Ok(())
}

/// Returns the addresses at which instructions stored different bytes in the last 4,096 steps of a run, in the order of the first stores;
/// nothing if the run had fewer steps. Fails only if there is not enough memory.
pub(crate) fn changes_in<A: Allocator + Copy>(
    past: &Past<'_, '_, A>,
) -> Result<Vec<u16, A>, AllocError> {
    let mut stored = Vec::new(past.alloc());
    let mut changes = Vec::new(past.alloc());
    let Some(steps) = past.last(WIDE as usize) else {
        return Ok(changes);
    };
    for step in steps {
        if let Some(store) = step.store {
            note(&mut stored, store)?;
        }
    }
    for it in stored.as_slice() {
        if it.is_changed {
            changes.push(it.address)?;
        }
    }
    Ok(changes)
}

// Writes an address with the name that the source has for it, as in `COUNT ($0006)`, or alone.
fn put_named<A: Allocator + Copy, W: Output>(
    scene: &Scene<A>,
    address: u16,
    writer: &mut W,
) -> Result<(), WriteFault> {
    let name = name_of(scene.program.names(), address);
    if name.is_empty() {
        return put_address(address, writer);
    }
    put(name, writer)?;
    put(b" (", writer)?;
    put_address(address, writer)?;
    put(b")", writer)
}

// Writes what is before an item of a list of `count`, with `and` before the last one.
fn put_front<W: Output>(index: usize, count: usize, writer: &mut W) -> Result<(), WriteFault> {
    if index == 0 {
        return Ok(());
    }
    if index.saturating_add(1) == count {
        put(b" and ", writer)
    } else {
        put(b", ", writer)
    }
}

/// Writes which bytes a loop changed, if it changed any: the first four of them, and how many more there are.
pub(crate) fn put_changes<A: Allocator + Copy, W: Output>(
    scene: &Scene<A>,
    changes: &[u16],
    writer: &mut W,
) -> Result<(), WriteFault> {
    if changes.is_empty() {
        return Ok(());
    }
    let more = changes.len().saturating_sub(MOST_LISTED);
    // If there are more, they are the last item.
    let count = changes.len().min(MOST_LISTED + 1);
    put(b"a2lab: the loop changed ", writer)?;
    for (index, address) in changes.iter().enumerate() {
        if index < MOST_LISTED {
            put_front(index, count, writer)?;
            put_named(scene, *address, writer)?;
        }
    }
    if more > 0 {
        put(b" and ", writer)?;
        put_number(more as u64, writer)?;
        put(
            if more == 1 {
                b" more byte"
            } else {
                b" more bytes"
            },
            writer,
        )?;
    }
    put(b"\n", writer)
}
