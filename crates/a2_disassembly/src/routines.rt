//! Routines, who calls them, and whom they call.

use crate::code::instruction_at;
use crate::draft::Draft;
use crate::marks::Mark;
use crate::operand::{Known, put_address};
use a2_hex::RAM_END;
use a2_opcode::Mnemonic;
use std::alloc::{AllocError, Allocator};

/// A call: the routine with the JSR, and the one that it calls.
#[derive(Clone, Copy, Debug, PartialEq, Eq)]
pub(crate) struct Call {
    pub from: u16,
    pub to: u16,
}

// Returns whether the instruction at an address is the first after a gap or after data.
fn begins_stretch<A: Allocator>(known: &Known<'_, '_, A>, address: u16) -> bool {
    let before = known.marks.at(address.wrapping_sub(1));
    known.marks.at(address) == Mark::First && !matches!(before, Mark::First | Mark::Rest)
}

/// Returns the calls of an image, in the order of their addresses.
pub(crate) fn calls_of<A: Allocator + Copy>(
    alloc: A,
    known: &Known<'_, '_, A>,
) -> Result<Vec<Call, A>, AllocError> {
    let mut calls = Vec::new(alloc);
    let mut from = 0u16;
    for address in 0..RAM_END {
        if known.labels.is_routine(address) || begins_stretch(known, address) {
            from = address;
        }
        if known.marks.at(address) == Mark::First
            && let Some(instr) = instruction_at(known.image, address)
            && instr.mnemonic == Mnemonic::Jsr
        {
            calls.push(Call {
                from,
                to: instr.value,
            })?;
        }
    }
    Ok(calls)
}

// Adds an address to a list that does not have it.
fn add<A: Allocator>(list: &mut Vec<u16, A>, address: u16) -> Result<(), AllocError> {
    if !list.as_slice().contains(&address) {
        list.push(address)?;
    }
    Ok(())
}

// Returns the routines that call one.
fn callers<A: Allocator>(alloc: A, calls: &[Call], of: u16) -> Result<Vec<u16, A>, AllocError> {
    let mut list = Vec::new(alloc);
    for call in calls {
        if call.to == of {
            add(&mut list, call.from)?;
        }
    }
    Ok(list)
}

// Returns the routines that one calls.
fn callees<A: Allocator>(alloc: A, calls: &[Call], of: u16) -> Result<Vec<u16, A>, AllocError> {
    let mut list = Vec::new(alloc);
    for call in calls {
        if call.from == of {
            add(&mut list, call.to)?;
        }
    }
    Ok(list)
}

// Appends a list of addresses, as far as the line has room.
fn put_list<A: Allocator>(
    known: &Known<'_, '_, A>,
    draft: &mut Draft<A>,
    list: &[u16],
) -> Result<(), AllocError> {
    for (i, address) in list.iter().enumerate() {
        if i > 0 {
            draft.put(b", ")?;
        }
        if draft.is_full() {
            return draft.put(b"..");
        }
        put_address(known, draft, *address)?;
    }
    Ok(())
}

/// Appends the comment of a routine: its callers, and what it calls.
pub(crate) fn put_routine<A: Allocator + Copy>(
    alloc: A,
    known: &Known<'_, '_, A>,
    draft: &mut Draft<A>,
    calls: &[Call],
    address: u16,
) -> Result<(), AllocError> {
    let callers = callers(alloc, calls, address)?;
    let callees = callees(alloc, calls, address)?;
    if callers.is_empty() {
        draft.put(b"; An entry.")?;
    } else {
        draft.put(b"; Called by ")?;
        put_list(known, draft, callers.as_slice())?;
        draft.put(b".")?;
    }
    if !callees.is_empty() {
        draft.put(b" Calls ")?;
        put_list(known, draft, callees.as_slice())?;
        draft.put(b".")?;
    }
    draft.end_line()
}
