//! Records where a routine stored, so that its stores can be undone.

ghost use Rattle.std.specs.Prelude.{◌≡◌, ◌==◌, ◌||◌, ◌∷◌, ℕ, Bool, List, false, IsTrue, IfOk};
ghost use Rattle.a2_text.specs.Bytes.{is_among};
ghost use Rattle.a2_promise_certify.specs.But.{IsEqualExcept};
ghost use Rattle.a2_promise_certify.specs.Walking.{is_set};

use a2_bus::{AddressSpace, Bus};
use a2_hex::RAM_END;
use std::alloc::{AllocError, Global};
use std::marker::Model;

/// The addresses of RAM at which a routine stored. Contracts see one mark for each address, from 0 on.
pub struct Stored {
    marks: Vec<bool>,
    // The marked addresses, each once.
    places: Vec<u16>,
}

// Not derived, only for the prover: it sees this as one call, but a derived `Drop` field by field.
impl Drop for Stored {
    fn drop(self) {
        let Stored {
            marks: _,
            places: _,
        } = self;
    }
}

impl Model for Stored {
    ghost use Rattle.std.specs.Prelude.{Bool, List, ℕ, IsTrue};
    ghost use Rattle.a2_text.specs.Bytes.{is_among};
    ghost use Rattle.a2_promise_certify.specs.Walking.{is_set};

    ghost Value = { List Bool };

    ghost view = { λ s. s.marks.items };

    ghost invariant = { λ s. (a : ℕ) → IsTrue (is_set s.marks.items a) → IsTrue (is_among s.places.items a) };
}

impl Stored {
    /// Creates a record with no address marked and with room for every address.
    pub fn new(alloc: Global) -> Result<Stored, AllocError>
        ensures { IfOk result (λ stored. (a : ℕ) → is_set stored a ≡ false) }
    {
        Ok(Stored {
            marks: vec![in alloc; false; usize::from(RAM_END)]?,
            places: Vec::with_capacity(alloc, usize::from(RAM_END))?,
        })
    }

    /// Returns a mark for each address, from 0 on.
    pub fn marks(&self) -> &[bool]
        ensures { result.now ≡ self.now }
    {
        self.marks.as_slice()
    }

    /// Returns the marked addresses, each once, in the order in which they were marked.
    pub fn places(&self) -> &[u16] {
        self.places.as_slice()
    }

    /// Marks an address. Returns false if it is not in RAM.
    pub fn mark(&mut self, address: u16) -> bool
        ensures { IsTrue result → (a : ℕ) → is_set self.new a ≡ ((address == a) || is_set self.old a) }
    {
        let place = usize::from(address);
        if place >= self.marks.len() {
            return false;
        }
        if self.marks[place] {
            return true;
        }
        match self.places.push(address) {
            Ok(()) => {
                self.marks[place] = true;
                true
            }
            // This cannot happen: each address is listed at most once, so there is room.
            Err(_) => false,
        }
    }

    /// Undoes the stores, so that RAM is as it was before, and clears all marks.
    pub fn take_back(&mut self, space: &mut AddressSpace<Global>, before: &AddressSpace<Global>)
        ensures space { IsEqualExcept (is_set self.old) space.old before.now → space.new ≡ before.now }
        ensures clear { (a : ℕ) → is_set self.new a ≡ false }
    {
        put_back_all(
            self.places.as_slice(),
            self.marks.as_mut_slice(),
            space,
            before,
        );
        self.places.clear();
    }
}

// Restores the bytes at these addresses from before, and clears their marks.
fn put_back_all(
    places: &[u16],
    marks: &mut [bool],
    space: &mut AddressSpace<Global>,
    before: &AddressSpace<Global>,
)
    ensures space { IsEqualExcept (is_among places.now) space.old before.now → space.new ≡ before.now }
    ensures clear { ((a : ℕ) → IsTrue (is_set marks.old a) → IsTrue (is_among places.now a))
        → (a : ℕ) → is_set marks.new a ≡ false }
{
    for address in places {
        put_back(*address, space, before);
        clear(marks, *address);
    }
}

// Clears the mark at an address.
fn clear(marks: &mut [bool], address: u16)
    ensures { (places : List ℕ) → ((a : ℕ) → IsTrue (is_set marks.old a) → IsTrue (is_among (address ∷ places) a))
        → (a : ℕ) → IsTrue (is_set marks.new a) → IsTrue (is_among places a) }
{
    let place = usize::from(address);
    if place >= marks.len() {
        return;
    }
    marks[place] = false;
}

/// Copies the byte at an address from another RAM; does nothing above RAM.
pub(crate) fn put_back(address: u16, space: &mut AddressSpace<Global>, other: &AddressSpace<Global>)
    ensures { (there : ℕ → Bool) → IsEqualExcept (λ a. (address == a) || there a) space.old other.now → IsEqualExcept there space.new other.now }
{
    if let Some(byte) = other.peek(address) {
        space.write(address, byte);
    }
}
