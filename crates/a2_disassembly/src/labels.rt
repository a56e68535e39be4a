//! Which addresses have a name, and which.

use crate::code::{has_address, instruction_at, is_long};
use crate::marks::{Mark, Marks};
use crate::request::{NamedPlace, Request};
use a2_hex::{Image, RAM_END};
use a2_opcode::{Instr, Mnemonic};
use std::alloc::{AllocError, Allocator};

/// How an address is used.
#[derive(Clone, Copy, Debug, PartialEq, Eq)]
pub(crate) enum Use {
    Never,
    /// An operand or a word is this address.
    Named,
    /// Code begins here.
    Entry,
    /// A JSR calls it.
    Called,
}

// The number of addresses.
const ADDRESSES: usize = 65_536;

/// How each address is used, and the names that were given.
pub(crate) struct Labels<'a, A: Allocator> {
    uses: Vec<Use, A>,
    names: Vec<Option<&'a [u8]>, A>,
    // The addresses of page 0 that an instruction with an operand of two bytes has.
    long: Vec<bool, A>,
}

// Not derived, only for the prover: it treats this as one call, and a derived `drop` field by field.
impl<'a, A: Allocator> Drop for Labels<'a, A> {
    fn drop(self) {
        let Labels {
            uses: _,
            names: _,
            long: _,
        } = self;
    }
}

// Returns how an address is used if both of these are known.
fn greater(old: Use, new: Use) -> Use {
    match (old, new) {
        (Use::Called, _) | (_, Use::Called) => Use::Called,
        (Use::Entry, _) | (_, Use::Entry) => Use::Entry,
        (Use::Named, _) | (_, Use::Named) => Use::Named,
        _ => Use::Never,
    }
}

impl<'a, A: Allocator + Copy> Labels<'a, A> {
    // Returns the labels before anything is known of the uses.
    fn new(alloc: A, names: &[NamedPlace<'a>]) -> Result<Labels<'a, A>, AllocError> {
        let mut labels = Labels {
            uses: Vec::from_elem(alloc, Use::Never, ADDRESSES)?,
            names: Vec::from_elem(alloc, None, ADDRESSES)?,
            long: Vec::from_elem(alloc, false, 256)?,
        };
        for place in names {
            labels.give(place.address, place.name);
        }
        Ok(labels)
    }

    // Gives an address a name.
    fn give(&mut self, address: u16, name: &'a [u8]) {
        if let Some(cell) = self.names.as_mut_slice().get_mut(usize::from(address)) {
            *cell = Some(name);
        }
    }
}

impl<'a, A: Allocator> Labels<'a, A> {
    /// Returns the name that was given to an address.
    pub(crate) fn name(&self, address: u16) -> Option<&'a [u8]> {
        match self.names.as_slice().get(usize::from(address)) {
            Some(name) => *name,
            None => None,
        }
    }

    /// Returns how an address is used.
    pub(crate) fn at(&self, address: u16) -> Use {
        match self.uses.as_slice().get(usize::from(address)) {
            Some(found) => *found,
            None => Use::Never,
        }
    }

    /// Returns whether an address has a name.
    pub(crate) fn is_named(&self, address: u16) -> bool {
        self.at(address) != Use::Never
    }

    /// Returns whether a routine begins at an address.
    pub(crate) fn is_routine(&self, address: u16) -> bool {
        matches!(self.at(address), Use::Entry | Use::Called)
    }

    /// Returns whether an address of page 0 needs a name that is defined at the end.
    pub(crate) fn is_long(&self, low: u8) -> bool {
        match self.long.as_slice().get(usize::from(low)) {
            Some(found) => *found,
            None => false,
        }
    }

    // Notes that an address is used so.
    fn add(&mut self, address: u16, new: Use) {
        if let Some(cell) = self.uses.as_mut_slice().get_mut(usize::from(address)) {
            *cell = greater(*cell, new);
        }
    }

    // Notes that an address of page 0 is the operand of two bytes.
    fn add_long(&mut self, address: u16) {
        if let Some(cell) = self.long.as_mut_slice().get_mut(usize::from(address)) {
            *cell = true;
        }
    }

    // Notes what an operand or a word refers to.
    fn refer(&mut self, marks: &Marks<A>, address: u16, new: Use) {
        let owner = marks.owner(address);
        if marks.at(owner) != Mark::Empty || self.name(owner).is_some() {
            self.add(owner, new);
        }
    }

    // Notes what an instruction refers to.
    fn refer_from(&mut self, marks: &Marks<A>, instr: Instr) {
        if !has_address(instr) {
            return;
        }
        if is_long(instr) {
            self.add_long(instr.value);
            return;
        }
        let new = if instr.mnemonic == Mnemonic::Jsr {
            Use::Called
        } else {
            Use::Named
        };
        self.refer(marks, instr.value, new);
    }

    // Notes the names that were given to addresses of the image.
    fn refer_to_names(&mut self, marks: &Marks<A>, names: &[NamedPlace<'_>]) {
        for place in names {
            if !matches!(
                marks.at(place.address),
                Mark::Empty | Mark::Rest | Mark::Second
            ) {
                self.add(place.address, Use::Named);
            }
        }
    }

    // Notes the words of tables.
    fn refer_from_words(&mut self, image: &Image<A>, marks: &Marks<A>) {
        for address in 0..RAM_END {
            if marks.at(address) == Mark::Second {
                let first = address.wrapping_sub(1);
                if let Some(word) = word_at(image, first) {
                    self.refer(marks, word, Use::Named);
                }
            }
        }
    }
}

/// Returns the word at an address of an image.
pub(crate) fn word_at<A: Allocator>(image: &Image<A>, address: u16) -> Option<u16> {
    let low = image.get(address)?;
    let high = image.get(address.wrapping_add(1))?;
    Some(u16::from_le_bytes([low, high]))
}

/// Returns the labels of an image: what its instructions and words refer to, its entries, the instructions that a run changed, and the names
/// that were given.
pub(crate) fn labels_of<'a, A: Allocator + Copy>(
    alloc: A,
    image: &Image<A>,
    marks: &Marks<A>,
    request: &Request<'a>,
) -> Result<Labels<'a, A>, AllocError> {
    let mut labels = Labels::new(alloc, request.names)?;
    for address in request.entries {
        if marks.at(*address) == Mark::First {
            labels.add(*address, Use::Entry);
        }
    }
    for address in request.changed {
        labels.refer(marks, *address, Use::Named);
    }
    labels.refer_to_names(marks, request.names);
    for address in 0..RAM_END {
        if marks.at(address) == Mark::First
            && let Some(instr) = instruction_at(image, address)
        {
            labels.refer_from(marks, instr);
        }
    }
    labels.refer_from_words(image, marks);
    Ok(labels)
}
