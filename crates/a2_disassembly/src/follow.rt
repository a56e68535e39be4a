//! Following the code of an image from its entries.

use crate::code::{address_after, ends_flow, instruction_at, target_of};
use crate::marks::{Kind, Mark, Marks};
use crate::request::{Content, Part, Request};
use a2_hex::Image;
use a2_opcode::Instr;
use std::alloc::{AllocError, Allocator};

// The most addresses that are visited from one entry: each instruction adds at most two.
const MOST_VISITS: u32 = 200_000;

// Notes the instruction at an address, if nothing is known of its bytes, and returns it.
fn place_at<A: Allocator>(image: &Image<A>, marks: &mut Marks<A>, address: u16) -> Option<Instr> {
    let instr = instruction_at(image, address)?;
    if marks.place(address, instr.mode.length()) {
        Some(instr)
    } else {
        None
    }
}

// Adds the addresses to which an instruction may go.
fn add_targets<A: Allocator>(
    queue: &mut Vec<u16, A>,
    instr: Instr,
    address: u16,
) -> Result<(), AllocError> {
    if let Some(target) = target_of(instr) {
        queue.push(target)?;
    }
    if !ends_flow(instr) {
        queue.push(address_after(instr, address))?;
    }
    Ok(())
}

// Notes the instructions that are reached from the addresses of a queue.
fn follow_all<A: Allocator>(
    image: &Image<A>,
    marks: &mut Marks<A>,
    queue: &mut Vec<u16, A>,
) -> Result<(), AllocError> {
    for _ in 0..MOST_VISITS {
        let Some(address) = queue.pop() else {
            return Ok(());
        };
        if let Some(instr) = place_at(image, marks, address) {
            add_targets(queue, instr, address)?;
        }
    }
    Ok(())
}

// Notes the instructions of a part, one after another. A byte that begins none is data.
fn lay_code<A: Allocator>(image: &Image<A>, marks: &mut Marks<A>, part: &Part) {
    for address in part.first..part.end {
        if marks.at(address) == Mark::Unknown && place_at(image, marks, address).is_none() {
            marks.set(address, Mark::Given(Kind::Bytes));
        }
    }
}

// Notes the data of a part.
fn lay_data<A: Allocator>(marks: &mut Marks<A>, part: &Part, kind: Kind) {
    for address in part.first..part.end {
        if marks.at(address) != Mark::Empty {
            marks.set(address, Mark::Given(kind));
        }
    }
}

// Notes the words of a part.
fn lay_words<A: Allocator>(marks: &mut Marks<A>, part: &Part) {
    let mut is_second = false;
    for address in part.first..part.end {
        let is_empty = marks.at(address) == Mark::Empty;
        if !is_empty {
            let mark = if is_second {
                Mark::Second
            } else {
                Mark::Given(Kind::Words)
            };
            marks.set(address, mark);
        }
        is_second = !is_second && !is_empty;
    }
}

// Notes what a part holds.
fn lay_part<A: Allocator>(image: &Image<A>, marks: &mut Marks<A>, part: &Part) {
    match part.content {
        Content::Code => lay_code(image, marks, part),
        Content::Data => lay_data(marks, part, Kind::Bytes),
        Content::Text => lay_data(marks, part, Kind::Text),
        Content::Words => lay_words(marks, part),
    }
}

// Adds to a queue where the instructions so far may go.
fn add_all_targets<A: Allocator>(
    image: &Image<A>,
    marks: &Marks<A>,
    queue: &mut Vec<u16, A>,
) -> Result<(), AllocError> {
    for address in 0..a2_hex::RAM_END {
        if marks.at(address) == Mark::First
            && let Some(instr) = instruction_at(image, address)
        {
            add_targets(queue, instr, address)?;
        }
    }
    Ok(())
}

/// Returns what each address holds: the parts that were asked for, the instructions that a run executed, and those that are reached
/// from there and from the entries.
pub(crate) fn follow<A: Allocator + Copy>(
    alloc: A,
    image: &Image<A>,
    request: &Request<'_>,
) -> Result<Marks<A>, AllocError> {
    let mut marks = Marks::new(alloc, image)?;
    for part in request.parts {
        lay_part(image, &mut marks, part);
    }
    for address in request.executed {
        let _ = place_at(image, &mut marks, *address);
    }
    let mut queue = Vec::new(alloc);
    add_all_targets(image, &marks, &mut queue)?;
    follow_all(image, &mut marks, &mut queue)?;
    for address in request.entries {
        queue.push(*address)?;
        follow_all(image, &mut marks, &mut queue)?;
    }
    Ok(marks)
}
