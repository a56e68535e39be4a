//! The addresses of the loop in which a run was at its end.

use crate::past::{Past, WIDE};
use a2_asm::Statement;
use a2_effect::Regs;
use std::alloc::{AllocError, Allocator};

// The greatest number of addresses in a loop that is reported.
const MOST_PLACES: usize = 64;

/// An address in a loop, and what was seen each time that a step began there.
#[derive(Clone, Copy)]
pub(crate) struct Place {
    pub pc: u16,
    // The registers when a step first began there.
    first: Regs,
    /// Whether A was the same each time.
    pub is_a_same: bool,
    /// Whether X was the same each time.
    pub is_x_same: bool,
    /// Whether Y was the same each time.
    pub is_y_same: bool,
    /// Where the step before it began, if that was the same each time.
    pub before: Option<u16>,
}

impl Place {
    // Returns what is known after a step first began at an address.
    fn of(regs: Regs, before: u16) -> Place {
        Place {
            pc: regs.pc,
            first: regs,
            is_a_same: true,
            is_x_same: true,
            is_y_same: true,
            before: Some(before),
        }
    }

    // Notes that a step began there again.
    fn note(&mut self, regs: Regs, before: u16) {
        self.is_a_same = self.is_a_same && regs.a == self.first.a;
        self.is_x_same = self.is_x_same && regs.x == self.first.x;
        self.is_y_same = self.is_y_same && regs.y == self.first.y;
        if self.before != Some(before) {
            self.before = None;
        }
    }
}

// Notes that a step began with these registers after one at `before`. Returns whether there was room.
fn note<A: Allocator + Copy>(
    places: &mut Vec<Place, A>,
    regs: Regs,
    before: u16,
) -> Result<bool, AllocError> {
    for index in 0..places.len() {
        if let Some(place) = places.get_mut(index) {
            if place.pc == regs.pc {
                place.note(regs, before);
                return Ok(true);
            }
        }
    }
    if places.len() >= MOST_PLACES {
        return Ok(false);
    }
    places.push(Place::of(regs, before))?;
    Ok(true)
}

/// Returns where the last 4,096 steps of a run began; nothing if there were fewer, or if they began at more than 64 addresses. Fails only
/// if there is not enough memory.
pub(crate) fn places_of<A: Allocator + Copy>(
    past: &Past<'_, '_, A>,
) -> Result<Vec<Place, A>, AllocError> {
    let mut places = Vec::new(past.alloc());
    let mut before = None;
    let Some(steps) = past.last(WIDE as usize) else {
        return Ok(places);
    };
    for step in steps {
        if let Some(before) = before {
            if !note(&mut places, step.regs, before)? {
                places.clear();
                return Ok(places);
            }
        }
        before = Some(step.regs.pc);
    }
    Ok(places)
}

/// Returns what was seen at an address of a loop.
pub(crate) fn place_at(places: &[Place], address: u16) -> Option<Place> {
    for place in places {
        if place.pc == address {
            return Some(*place);
        }
    }
    None
}

/// Returns whether the instruction of a statement is in a loop.
pub(crate) fn is_among(statement: &Statement, places: &[Place]) -> bool {
    statement.instr.is_some() && place_at(places, statement.addr).is_some()
}
