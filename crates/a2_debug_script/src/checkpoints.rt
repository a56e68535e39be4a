//! At most eight checkpoints, the oldest first, and unused machines.

ghost use Rattle.std.specs.Prelude.{◌≡◌, ◌*◌, ◌<◌, ◌≤◌, ◌++◌, ◌∷◌, [], Some, length, take, IfOk};
ghost use Rattle.a2_debug_script.specs.Held.{unguarded};
ghost use Rattle.a2_debug_script.specs.Kept.{kept_at};
ghost use Rattle.a2_debug_script.specs.Session.{oldest_after};
ghost use Rattle.circular_buffer.specs.Buffer.{buffer, keep_last, last_item};

use a2_machine::Machine;
use circular_buffer::HeapCircularBuffer;
use std::alloc::{AllocError, Allocator, Global};
use std::marker::Model;

/// How many steps lie between one checkpoint and the next.
pub const STRIDE: u32 = 1024;

/// The most checkpoints that are held.
const MAX_CHECKPOINTS: usize = 8;

/// Checkpoints. All memory is allocated at the start. The machines are never run, so they stay without a guard. Each
/// machine stays in its box, because it has 4 KB or more and moving it would copy all of that.
pub struct Checkpoints<A: Allocator = Global> {
    ring: HeapCircularBuffer<Box<Machine<A>, A>, A>,
    spare: Vec<Box<Machine<A>, A>, A>,
}

// Not derived, only for the prover: it follows this as one call, and a derived one field by field.
impl<A: Allocator> Drop for Checkpoints<A> {
    fn drop(self) {
        let Checkpoints { ring: _, spare: _ } = self;
    }
}

impl<A: Allocator> Model for Checkpoints<A> {
    ghost use Rattle.std.specs.Prelude.{◌≡◌, ◌+◌, ◌≤◌, length, map, vec_len, vec_capacity};
    ghost use Rattle.std.specs.List.{sum_by};
    ghost use Rattle.a2_debug_script.specs.Held.{unguarded, Checkpoints as Held};

    ghost Value = { Held };

    ghost view = { λ c. record {
      held = map (λ b. unguarded b.value.state) c.ring.items;
      made = sum_by (λ b. b.value.made) c.ring.items + sum_by (λ b. b.value.made) c.spare.items;
    } };

    ghost invariant = { λ c. (c.ring.capacity ≡ 8) × (length c.ring.items + vec_len c.spare ≡ 8) × (8 ≤ vec_capacity c.spare) };
}

// Puts a machine after the others in the ring, which must have room for it.
fn put_back<A: Allocator + Copy>(
    ring: &mut HeapCircularBuffer<Box<Machine<A>, A>, A>,
    machine: Box<Machine<A>, A>,
)
    requires { length ring.old.items < ring.old.capacity }
    ensures { ring.new ≡ buffer (ring.old.items ++ machine ∷ []) ring.old.capacity }
{
    // The ring has room, so no machine is returned.
    let _ = ring.push_back(machine);
}

/// Makes a checkpoint, if the steps from one count to another ended at a count that gets one.
pub fn keep_at<A: Allocator + Copy>(
    checkpoints: &mut Checkpoints<A>,
    machine: &Machine<A>,
    from: u32,
    count: u32,
)
    ensures held { checkpoints.new.held ≡ kept_at from count checkpoints.old.held (unguarded machine.now.state) }
    ensures made { checkpoints.new.made ≡ checkpoints.old.made }
{
    if count > from && count % STRIDE == 0 {
        checkpoints.keep(machine);
    }
}

/// Returns the oldest count that `back` can return to, once this count is reached.
pub fn oldest_at(oldest: u32, count: u32) -> u32
    ensures { result ≡ oldest_after oldest count }
{
    oldest.max((count / STRIDE).saturating_sub(MAX_CHECKPOINTS as u32 - 1) * STRIDE)
}

impl<A: Allocator + Copy> Checkpoints<A> {
    /// Returns eight unused machines and no checkpoints.
    pub fn new(alloc: A) -> Result<Checkpoints<A>, AllocError>
        ensures held { IfOk result (λ c. c.held ≡ []) }
        ensures made { IfOk result (λ c. c.made ≡ 0) }
    {
        let ring = HeapCircularBuffer::with_capacity(alloc, MAX_CHECKPOINTS)?;
        let mut spare = Vec::with_capacity(alloc, MAX_CHECKPOINTS)?;
        for _ in 0..MAX_CHECKPOINTS {
            spare.push(Box::new(alloc, Machine::for_copies(alloc)?)?)?;
        }
        Ok(Checkpoints { ring, spare })
    }
}

impl<A: Allocator + Copy> Checkpoints<A> {
    /// Returns how many checkpoints are held.
    pub fn len(&self) -> usize
        ensures len { result ≡ length self.now.held }
        ensures eight { result ≤ 8 }
    {
        // Only for the prover: the invariant is about both fields.
        let _ = &self.spare;
        self.ring.len()
    }

    /// Makes a checkpoint in an unused machine or, if there is none, in the machine of the oldest checkpoint.
    pub fn keep(&mut self, now: &Machine<A>)
        ensures held { self.new.held ≡ keep_last 8 (self.old.held ++ unguarded now.now.state ∷ []) }
        ensures made { self.new.made ≡ self.old.made }
    {
        if let Some(mut machine) = self.spare.pop() {
            machine.restore(now);
            put_back(&mut self.ring, machine);
            return;
        }
        if let Some(mut machine) = self.ring.pop_front() {
            machine.restore(now);
            put_back(&mut self.ring, machine);
        }
    }

    /// Keeps at most this many checkpoints, the oldest ones.
    pub fn truncate(&mut self, most: usize)
        ensures held { self.new.held ≡ take most self.old.held }
        ensures made { self.new.made ≡ self.old.made }
    {
        while self.ring.len() > most {
            if let Some(machine) = self.ring.pop_back() {
                self.spare.push_reserved(machine);
            }
        }
    }

    /// Makes the machine equal to the newest checkpoint; the machine keeps its own guard.
    pub fn load_newest(&self, machine: &mut Machine<A>)
        requires { 0 < length self.now.held }
        ensures state { last_item self.now.held ≡ Some (unguarded machine.new.state) }
        ensures guard { machine.new.state.guard ≡ machine.old.state.guard }
        ensures made { machine.new.made ≡ machine.old.made }
    {
        if let Some(kept) = self.ring.back() {
            machine.restore(kept);
        }
    }

    /// Returns how many steps the machines have ever executed.
    pub fn made(&self) -> u128
        ensures made { result ≡ self.now.made }
        ensures fits { result ≤ 8 * 18446744073709551615 }
    {
        let mut made = 0u128;
        for i in 0..self.ring.len() {
            if let Some(machine) = self.ring.get(i) {
                made += machine.made() as u128;
            }
        }
        for machine in &self.spare {
            made += machine.made() as u128;
        }
        made
    }
}
