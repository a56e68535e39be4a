//! Breakpoints, and the addresses that words mean.

ghost use Rattle.std.specs.Prelude.{◌≡◌, true, ◌==◌, [], not, filter, IfOk};
ghost use Rattle.a2_syntax.specs.Names.{is_name as is_name_of};
ghost use Rattle.a2_asm.specs.Values.{name_value as value_in};
ghost use Rattle.a2_debug_script.specs.Marks.{word_address as place, marked, Marks};

use crate::fault::DebugFault;
use a2_asm::Program;
use a2_cpu::Breakpoints;
use a2_hex::address_of;
use a2_syntax::is_name;
use std::alloc::{AllocError, Allocator, Global};
use std::marker::Model;

/// The most breakpoints.
const MAX_BREAKS: usize = 256;

/// How many addresses there are.
const ADDRESSES: usize = 0x1_0000;

// Returns the value of a name of the program.
fn value_of<A: Allocator + Copy>(program: &Program<A>, name: &[u8]) -> Option<u16>
    requires { is_name_of name.now ≡ true }
    ensures { result ≡ value_in program.now.names name.now }
{
    match std::str::from_utf8(name) {
        Ok(name) => program.name(name),
        Err(_) => unreachable!(),
    }
}

/// Returns the address that a word means: `$` and 1 to 4 hexadecimal digits, or a name that a line of the program
/// defines.
#[tactic(auto, unfolding(crate::specs::Marks::word_address))]
pub fn place_of<A: Allocator + Copy>(program: &Program<A>, word: &[u8]) -> Result<u16, DebugFault>
    ensures { result ≡ place program.now.names word.now }
{
    match word {
        [b'$', digits @ ..] => address_of(digits).ok_or(DebugFault::Syntax),
        _ if is_name(word) => value_of(program, word).ok_or(DebugFault::Unknown),
        _ => Err(DebugFault::Syntax),
    }
}

/// Breakpoints: their addresses in the order in which they were set, and for each address whether it is a breakpoint.
/// The table of all addresses is stored inline, so that a check is one load without a bounds check. All memory is
/// allocated at the start.
pub struct BreakSet<A: Allocator = Global> {
    places: Vec<u16, A>,
    marked: [bool; ADDRESSES],
}

// Not derived, only for the prover: it follows this as one call, and a derived one field by field.
impl<A: Allocator> Drop for BreakSet<A> {
    fn drop(self) {
        let BreakSet {
            places: _,
            marked: _,
        } = self;
    }
}

impl<A: Allocator> Model for BreakSet<A> {
    ghost use Rattle.std.specs.Prelude.{ℕ, ◌≤◌, List, vec_capacity};
    ghost use Rattle.a2_debug_script.specs.Held.{AreMarked};

    ghost Value = { List ℕ };

    ghost view = { λ m. m.places.items };

    ghost invariant = { λ m. AreMarked m.places.items m.marked × (256 ≤ vec_capacity m.places) };
}

impl<A: Allocator + Copy> BreakSet<A> {
    /// Returns an empty set of breakpoints. Fails only if memory runs out.
    pub fn new(alloc: A) -> Result<Box<BreakSet<A>, A>, AllocError>
        ensures { IfOk result (λ marks. marks.value ≡ []) }
    {
        let places = Vec::with_capacity(alloc, MAX_BREAKS)?;
        let marked = [false; ADDRESSES];
        Ok(Box::new(alloc, BreakSet { places, marked })?)
    }
}

impl<A: Allocator + Copy> BreakSet<A> {
    /// Sets a breakpoint. Fails if 256 others are already set.
    pub fn set(&mut self, address: u16) -> Result<(), DebugFault>
        ensures { Marks self.old self.new result (marked self.old address) }
    {
        if self.is_breakpoint(address) {
            return Ok(());
        }
        if self.places.len() >= MAX_BREAKS {
            return Err(DebugFault::Full);
        }
        self.places.push_reserved(address);
        self.marked[address as usize] = true;
        Ok(())
    }

    /// Clears a breakpoint, if it is set.
    pub fn clear(&mut self, address: u16)
        ensures { self.new ≡ filter (λ mark. not (mark == address)) self.old }
    {
        self.places.retain(|place| *place != address);
        self.marked[address as usize] = false;
    }
}

impl<A: Allocator + Copy> Breakpoints for BreakSet<A> {
    ghost use Rattle.a2_text.specs.Bytes.{is_among};

    ghost is_breakpoint = { λ marks. is_among marks };

    #[inline(always)]
    fn is_breakpoint(&self, address: u16) -> bool {
        // Only for the prover: the invariant is about both fields.
        let _ = &self.places;
        self.marked[address as usize]
    }
}
