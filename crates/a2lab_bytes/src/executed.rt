//! What a run of an image executes and changes.

use a2_bus::Keys;
use a2_hex::{Image, RAM_END};
use a2_machine::Machine;
use a2_opcode::decode;
use std::alloc::{AllocError, Global};

/// What a run executed and changed.
#[derive(Drop)]
pub(crate) struct Executed {
    /// Where the instructions of the image begin that were executed, by rising address.
    pub instructions: Vec<u16>,
    /// Which of them were executed, or are at the end of the run, with another byte than in the image.
    pub changed: Vec<u16>,
}

/// How a run begins and ends.
#[derive(Clone, Copy)]
pub(crate) struct RunOf<'a> {
    pub entry: u16,
    pub keys: &'a Keys,
    pub limit: u32,
}

// What is known of an address of RAM.
#[derive(Clone, Copy, Debug, PartialEq, Eq)]
enum Seen {
    /// No instruction that begins there was executed.
    Nothing,
    /// An instruction was executed.
    Executed,
    /// One was executed with another byte than in the image.
    Changed,
}

// Returns whether the instruction of the image at an address has another byte in memory.
fn is_changed(machine: &Machine<Global>, image: &Image, address: u16) -> bool {
    let first = image.get(address);
    let length = match decode(&[first.unwrap_or(0), 0, 0], address) {
        Some(instr) => u16::from(instr.mode.length()),
        None => 1,
    };
    for at in address..address.saturating_add(length) {
        if machine.peek(at) != image.get(at) {
            return true;
        }
    }
    false
}

// Runs the image, and returns what is known of each address of RAM.
fn seen_by(
    alloc: Global,
    machine: &mut Machine<Global>,
    image: &Image,
    limit: u32,
) -> Result<Vec<Seen>, AllocError> {
    let mut seen = Vec::from_elem(alloc, Seen::Nothing, usize::from(RAM_END))?;
    for _ in 0..limit {
        let address = machine.regs().pc;
        let is_changed = is_changed(machine, image, address);
        if machine.step().is_some() {
            return Ok(seen);
        }
        if let Some(cell) = seen.as_mut_slice().get_mut(usize::from(address)) {
            *cell = if is_changed || *cell == Seen::Changed {
                Seen::Changed
            } else {
                Seen::Executed
            };
        }
    }
    Ok(seen)
}

/// Runs the image without a guard, and returns what the run executed and changed.
pub(crate) fn run_image(
    alloc: Global,
    image: &Image,
    run: &RunOf<'_>,
) -> Result<Executed, AllocError> {
    let mut machine = Machine::booted(alloc, image, run.entry, run.keys)?;
    let seen = seen_by(alloc, &mut machine, image, run.limit)?;
    let mut instructions = Vec::new(alloc);
    let mut changed = Vec::new(alloc);
    for (address, seen) in (0..RAM_END).zip(seen.iter()) {
        if *seen != Seen::Nothing && image.get(address).is_some() {
            instructions.push(address)?;
            if *seen == Seen::Changed || is_changed(&machine, image, address) {
                changed.push(address)?;
            }
        }
    }
    Ok(Executed {
        instructions,
        changed,
    })
}
