//! The totals of several runs.

ghost use Rattle.std.specs.Prelude.{◌≡◌, ◌+◌, ◌^◌, ◌<◌, ◌≤◌, ◌↔◌, ℕ, true, length, IsOk, IfOk, OnOk, OnErr, replicate};
ghost use Rattle.a2_profile.specs.Totals.{nothing, totals_at, own_steps_in, own_cycles_in};
ghost use Rattle.a2_profile.specs.Room.{Fit, HaveRoom, joined_totals};

use crate::walk::no_totals;
use crate::{ProfileFull, RoutineProfile, Totals};
use std::alloc::{AllocError, Allocator};

// Returns the totals of both.
fn joined(totals: Totals, other: Totals) -> Totals
    requires times { totals.times + other.times < 2 ^ 64 }
    requires steps { totals.steps + other.steps < 2 ^ 64 }
    requires cycles { totals.cycles + other.cycles < 2 ^ 64 }
    requires all_steps { totals.all_steps + other.all_steps < 2 ^ 64 }
    requires all_cycles { totals.all_cycles + other.all_cycles < 2 ^ 64 }
    ensures { result ≡ joined_totals totals other }
{
    Totals {
        times: totals.times + other.times,
        steps: totals.steps + other.steps,
        cycles: totals.cycles + other.cycles,
        all_steps: totals.all_steps + other.all_steps,
        all_cycles: totals.all_cycles + other.all_cycles,
    }
}

// Returns whether the numbers fit that the sums do not bound.
fn fit(totals: Totals, other: Totals) -> bool
    ensures { (result ≡ true) ↔ Fit totals other }
{
    totals.times.checked_add(other.times).is_some()
        && totals.all_steps.checked_add(other.all_steps).is_some()
}

// Returns whether that is so for each routine.
fn all_fit(totals: &[Totals], others: &[Totals]) -> bool
    requires size { length totals.now ≡ 65537 }
    requires others { length others.now ≡ 65537 }
    ensures { (result ≡ true) ↔ ((routine : ℕ) → Fit (totals_at totals.now routine) (totals_at others.now routine)) }
{
    for (index, other) in others.iter().enumerate() {
        if !fit(totals[index], *other) {
            return false;
        }
    }
    true
}

// Adds the totals of each routine to the others.
fn join_totals(totals: &mut [Totals], others: &[Totals])
    requires size { length totals.old ≡ 65537 }
    requires others { length others.now ≡ 65537 }
    requires fit { (routine : ℕ) → Fit (totals_at totals.old routine) (totals_at others.now routine) }
    requires steps { own_steps_in totals.old + own_steps_in others.now < 2 ^ 64 }
    requires cycles { own_cycles_in totals.old + own_cycles_in others.now < 2 ^ 64 }
    requires within { (routine : ℕ) → routine < 65537 → (totals_at totals.old routine).all_cycles ≤ own_cycles_in totals.old }
    requires others_within { (routine : ℕ) → routine < 65537
        → (totals_at others.now routine).all_cycles ≤ own_cycles_in others.now }
    ensures joined { (routine : ℕ) → totals_at totals.new routine
        ≡ joined_totals (totals_at totals.old routine) (totals_at others.now routine) }
    ensures steps { own_steps_in totals.new ≡ own_steps_in totals.old + own_steps_in others.now }
    ensures cycles { own_cycles_in totals.new ≡ own_cycles_in totals.old + own_cycles_in others.now }
{
    for (index, other) in others.iter().enumerate() {
        totals[index] = joined(totals[index], *other);
    }
}

impl<A: Allocator + Copy> RoutineProfile<A> {
    /// Returns a profile of no steps, in memory of `alloc`. Fails only if there is not enough memory.
    pub fn new(alloc: A) -> Result<RoutineProfile<A>, AllocError>
        ensures { IfOk result (λ profile. profile ≡ replicate 65537 nothing) }
    {
        Ok(RoutineProfile {
            totals: no_totals(alloc)?,
            steps: 0,
            cycles: 0,
        })
    }

    /// Also counts what is counted in `other`. Fails exactly if a sum would exceed 2^64 - 1: how often a routine was entered, its
    /// steps with those of what it calls, or all steps or cycles; then nothing changes.
    pub fn join<B: Allocator + Copy>(
        &mut self,
        other: &RoutineProfile<B>,
    ) -> Result<(), ProfileFull>
        ensures room { IsOk result ↔ HaveRoom self.old other.now }
        ensures joined { OnOk result ((routine : ℕ) → totals_at self.new routine
            ≡ joined_totals (totals_at self.old routine) (totals_at other.now routine)) }
        ensures steps { OnOk result (own_steps_in self.new ≡ own_steps_in self.old + own_steps_in other.now) }
        ensures cycles { OnOk result (own_cycles_in self.new ≡ own_cycles_in self.old + own_cycles_in other.now) }
        ensures kept { OnErr result (self.new ≡ self.old) }
    {
        let Some(steps) = self.steps.checked_add(other.steps) else {
            return Err(ProfileFull);
        };
        let Some(cycles) = self.cycles.checked_add(other.cycles) else {
            return Err(ProfileFull);
        };
        if !all_fit(self.totals.as_slice(), other.totals.as_slice()) {
            return Err(ProfileFull);
        }
        join_totals(self.totals.as_mut_slice(), other.totals.as_slice());
        self.steps = steps;
        self.cycles = cycles;
        Ok(())
    }
}
