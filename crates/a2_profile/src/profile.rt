//! The counts of a profile.

ghost use Rattle.std.specs.Prelude.{◌≡◌, ◌+◌, ◌^◌, ◌<◌, ◌≤◌, ◌↔◌, ℕ, length, replicate, IfOk, IsOk, OnOk, OnErr};
ghost use Rattle.a2_profile.specs.Counts.{NoneTakenMore, AreSummed, count_at, steps_in, cycles_in, none, joined};
ghost use Rattle.a2_profile.specs.Seeing.{shown_to};

use a2_burst::{Observer, StepView};
use std::alloc::{AllocError, Allocator, Global};
use std::marker::Model;

/// How many addresses there are.
pub(crate) const ADDRESSES: u32 = 0x1_0000;

/// How often the step at an address was executed, and what it cost.
#[derive(Clone, Copy, Debug, PartialEq, Eq)]
pub struct Count {
    /// The steps that began there.
    pub times: u64,
    /// The cycles of the processor that they took.
    pub cycles: u64,
    /// The steps that did not continue two bytes further: how often a branch was taken.
    pub taken: u64,
}

/// No step.
const NONE: Count = Count {
    times: 0,
    cycles: 0,
    taken: 0,
};

// Returns a count of no step for each address.
fn no_counts<A: Allocator + Copy>(alloc: A) -> Result<Vec<Count, A>, AllocError>
    ensures { IfOk result (λ counts. counts.items ≡ replicate 65536 none) }
{
    vec![in alloc; NONE; ADDRESSES as usize]
}

/// Two profiles together have more steps or cycles than 64 bits can count.
#[derive(Clone, Copy, Debug, PartialEq, Eq)]
pub struct ProfileFull;

// Returns the steps of both.
fn joined(count: Count, other: Count) -> Count
    requires times { count.times + other.times < 2 ^ 64 }
    requires cycles { count.cycles + other.cycles < 2 ^ 64 }
    requires taken { count.taken + other.taken < 2 ^ 64 }
    ensures { result ≡ Rattle.a2_profile.specs.Counts.joined count other }
{
    Count {
        times: count.times + other.times,
        cycles: count.cycles + other.cycles,
        taken: count.taken + other.taken,
    }
}

/// Counts of steps by the addresses where they began. Contracts see a list of 65,536 counts. This project's profile.
#[derive(Drop)]
pub struct Profile<A: Allocator = Global> {
    counts: Vec<Count, A>,
    steps: u64,
    cycles: u64,
}

impl<A: Allocator> Model for Profile<A> {
    ghost use Rattle.std.specs.Prelude.{List};
    ghost use Rattle.a2_profile.specs.declared.profile.Count.{Count};
    ghost use Rattle.a2_profile.specs.Counts.{AreSummed};

    ghost Value = { List Count };

    ghost view = { λ p. p.counts.items };

    ghost invariant = { λ p. AreSummed p.counts.items p.steps p.cycles };
}

// Adds to each count the other one of its address.
fn join_counts(counts: &mut [Count], others: &[Count])
    requires size { length counts.old ≡ 65536 }
    requires others { length others.now ≡ 65536 }
    requires steps { steps_in counts.old + steps_in others.now < 2 ^ 64 }
    requires cycles { cycles_in counts.old + cycles_in others.now < 2 ^ 64 }
    requires taken { NoneTakenMore counts.old }
    requires others_taken { NoneTakenMore others.now }
    ensures joined { (address : ℕ) → count_at counts.new address
        ≡ joined (count_at counts.old address) (count_at others.now address) }
    ensures steps { steps_in counts.new ≡ steps_in counts.old + steps_in others.now }
    ensures cycles { cycles_in counts.new ≡ cycles_in counts.old + cycles_in others.now }
{
    for (index, other) in others.iter().enumerate() {
        counts[index] = joined(counts[index], *other);
    }
}

impl<A: Allocator + Copy> Profile<A> {
    /// Returns a profile of no steps, in memory of `alloc`. Fails only if there is not enough memory.
    pub fn new(alloc: A) -> Result<Profile<A>, AllocError>
        ensures { IfOk result (λ profile. profile ≡ replicate 65536 none) }
    {
        Ok(Profile {
            counts: no_counts(alloc)?,
            steps: 0,
            cycles: 0,
        })
    }

    /// Returns the count at `address`, $0000 to $FFFF.
    pub fn at(&self, address: u16) -> Count
        ensures count { result ≡ count_at self.now address }
        ensures size { length self.now ≡ 65536 }
        // A law of every profile: no address has more cycles than all together.
        ensures within { result.cycles ≤ cycles_in self.now }
    {
        self.counts[usize::from(address)]
    }

    /// Returns the steps of all addresses.
    pub fn steps(&self) -> u64
        ensures { result ≡ steps_in self.now }
    {
        self.steps
    }

    /// Returns the cycles of all addresses.
    pub fn cycles(&self) -> u64
        ensures { result ≡ cycles_in self.now }
    {
        self.cycles
    }

    /// Also counts the steps of `other`. Fails exactly if the steps or the cycles of both would exceed 2^64 - 1; then nothing
    /// changes.
    pub fn join<B: Allocator + Copy>(&mut self, other: &Profile<B>) -> Result<(), ProfileFull>
        ensures room { IsOk result ↔ ((steps_in self.old + steps_in other.now < 2 ^ 64)
            × (cycles_in self.old + cycles_in other.now < 2 ^ 64)) }
        ensures joined { OnOk result ((address : ℕ) → count_at self.new address
            ≡ joined (count_at self.old address) (count_at other.now address)) }
        ensures steps { OnOk result (steps_in self.new ≡ steps_in self.old + steps_in other.now) }
        ensures cycles { OnOk result (cycles_in self.new ≡ cycles_in self.old + cycles_in other.now) }
        ensures kept { OnErr result (self.new ≡ self.old) }
    {
        let Some(steps) = self.steps.checked_add(other.steps) else {
            return Err(ProfileFull);
        };
        let Some(cycles) = self.cycles.checked_add(other.cycles) else {
            return Err(ProfileFull);
        };
        join_counts(self.counts.as_mut_slice(), other.counts.as_slice());
        self.steps = steps;
        self.cycles = cycles;
        Ok(())
    }
}

/// Counts of the steps of a run, seen as they are executed; the run knows their sums. Contracts see a list of 65,536 counts.
#[derive(Drop)]
pub(crate) struct Counting<A: Allocator = Global> {
    counts: Vec<Count, A>,
}

impl<A: Allocator> Model for Counting<A> {
    ghost use Rattle.std.specs.Prelude.{◌≡◌, List, length};
    ghost use Rattle.a2_profile.specs.declared.profile.Count.{Count};

    ghost Value = { List Count };

    ghost view = { λ c. c.counts.items };

    ghost invariant = { λ c. length c.counts.items ≡ 65536 };
}

impl<A: Allocator + Copy> Counting<A> {
    /// Returns counts of no step.
    pub fn new(alloc: A) -> Result<Counting<A>, AllocError>
        ensures { IfOk result (λ counting. counting ≡ replicate 65536 none) }
    {
        Ok(Counting {
            counts: no_counts(alloc)?,
        })
    }

    /// For the prover alone: there is a count for each address.
    pub fn is_whole(&self)
        ensures { length self.now ≡ 65536 }
    {
        let _ = &self.counts;
    }

    /// Returns the profile of these counts, which together are so many steps and cycles.
    pub fn profile(self, steps: u64, cycles: u64) -> Profile<A>
        requires { AreSummed self steps cycles }
        ensures { result ≡ self }
    {
        let Counting { counts } = self;
        Profile {
            counts,
            steps,
            cycles,
        }
    }
}

impl<A: Allocator + Copy> Observer for Counting<A> {
    ghost seen = { shown_to };

    // No count of a run reaches 2^64.
    #[inline(always)]
    fn see(&mut self, look: StepView, _ram: &[u8]) {
        let index = usize::from(look.pc);
        let count = self.counts[index];
        let is_taken = look.next_pc != look.pc.wrapping_add(2);
        self.counts[index] = Count {
            times: count.times.wrapping_add(1),
            cycles: count.cycles.wrapping_add(u64::from(look.cycles)),
            taken: count.taken.wrapping_add(u64::from(is_taken)),
        };
    }
}
