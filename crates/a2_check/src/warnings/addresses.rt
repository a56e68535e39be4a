//! Sets of addresses.

use std::alloc::{AllocError, Allocator};

// The number of addresses.
const ADDRESSES: usize = 0x1_0000;

/// A set of addresses.
#[derive(Drop)]
pub(crate) struct AddressSet<A: Allocator> {
    // For each address, whether it is in the set.
    members: Vec<bool, A>,
}

impl<A: Allocator> AddressSet<A> {
    /// Returns an empty set. Fails only if there is not enough memory.
    pub(crate) fn new(alloc: A) -> Result<AddressSet<A>, AllocError> {
        Ok(AddressSet {
            members: vec![in alloc; false; ADDRESSES]?,
        })
    }

    /// Adds an address.
    pub(crate) fn add(&mut self, address: u16) {
        if let Some(member) = self.members.get_mut(usize::from(address)) {
            *member = true;
        }
    }

    /// Whether an address is in the set.
    pub(crate) fn contains(&self, address: u16) -> bool {
        match self.members.get(usize::from(address)) {
            Some(member) => *member,
            None => false,
        }
    }
}
