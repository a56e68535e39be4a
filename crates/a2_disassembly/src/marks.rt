//! What each address holds.

use a2_hex::{Image, RAM_END};
use std::alloc::{AllocError, Allocator};

/// How data is written.
#[derive(Clone, Copy, Debug, PartialEq, Eq)]
pub(crate) enum Kind {
    Bytes,
    Text,
    Words,
    Zeros,
}

/// What an address holds.
#[derive(Clone, Copy, Debug, PartialEq, Eq)]
pub(crate) enum Mark {
    /// No byte of the image.
    Empty,
    /// A byte of which nothing is known.
    Unknown,
    /// The first byte of an instruction.
    First,
    /// A later byte of an instruction.
    Rest,
    /// The second byte of a word, whose first byte is data of the kind `Words`.
    Second,
    /// Data, as was asked for.
    Given(Kind),
    /// Data, as was guessed.
    Guessed(Kind),
}

/// What each address of RAM holds.
pub(crate) struct Marks<A: Allocator> {
    cells: Vec<Mark, A>,
}

// Not derived, only for the prover: it treats this as one call, and a derived `drop` field by field.
impl<A: Allocator> Drop for Marks<A> {
    fn drop(self) {
        let Marks { cells: _ } = self;
    }
}

impl<A: Allocator> Marks<A> {
    /// Returns the marks of an image of which nothing is known.
    pub(crate) fn new(alloc: A, image: &Image<A>) -> Result<Marks<A>, AllocError> {
        let mut cells = Vec::with_capacity(alloc, usize::from(RAM_END))?;
        for address in 0..RAM_END {
            let mark = match image.get(address) {
                Some(_) => Mark::Unknown,
                None => Mark::Empty,
            };
            cells.push(mark)?;
        }
        Ok(Marks { cells })
    }

    /// Returns what an address holds.
    pub(crate) fn at(&self, address: u16) -> Mark {
        match self.cells.as_slice().get(usize::from(address)) {
            Some(mark) => *mark,
            None => Mark::Empty,
        }
    }

    /// Notes what an address holds.
    pub(crate) fn set(&mut self, address: u16, mark: Mark) {
        if let Some(cell) = self.cells.as_mut_slice().get_mut(usize::from(address)) {
            *cell = mark;
        }
    }

    /// Notes what the addresses from one up to another hold.
    pub(crate) fn fill(&mut self, first: u16, end: u16, mark: Mark) {
        for address in first..end {
            self.set(address, mark);
        }
    }

    /// Notes words from one address up to another, and if a byte is left, that byte.
    pub(crate) fn fill_words(&mut self, first: u16, end: u16, mark: Mark) {
        let mut is_second = false;
        for address in first..end {
            self.set(address, if is_second { Mark::Second } else { mark });
            is_second = !is_second;
        }
    }

    /// Notes the instruction of this many bytes at an address, if nothing is known of any of them. Returns whether it did.
    pub(crate) fn place(&mut self, address: u16, length: u8) -> bool {
        let end = address.saturating_add(u16::from(length));
        for at in address..end {
            if self.at(at) != Mark::Unknown {
                return false;
            }
        }
        self.fill(address, end, Mark::Rest);
        self.set(address, Mark::First);
        true
    }

    /// Returns the address of the instruction or the word that has a byte at an address, or the address itself if there is none.
    pub(crate) fn owner(&self, address: u16) -> u16 {
        let before = address.wrapping_sub(1);
        match self.at(address) {
            Mark::Second => return before,
            Mark::Rest => {}
            _ => return address,
        }
        if self.at(before) == Mark::First {
            before
        } else {
            before.wrapping_sub(1)
        }
    }
}
