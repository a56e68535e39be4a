//! Keeps checkpoints: copies of a run's machine at positions that it reached, spread over the whole run.

ghost use Rattle.std.specs.Prelude.{◌≡◌, ◌⊎◌, ◌≤◌, ◌<◌, ◌++◌, ◌∷◌, [], length, slice_index_or, All, IfSome};
ghost use Rattle.a2_machine.specs.State.{Device};
ghost use Rattle.a2_history.specs.Spacing.{IsKept};
ghost use Rattle.a2_history.specs.Courses.{Course};
ghost use Rattle.a2_history.specs.Going.{IsOn, AreOn};
ghost use Rattle.a2_history.specs.Held.{Thins, IsCopy, Holds};

use crate::spacing::{STRIDE, is_kept, width_of};
use a2_machine::Machine;
use std::alloc::{Allocator, Global};
use std::marker::Model;

/// Checkpoints at multiples of `STRIDE`, the earliest first.
#[derive(Drop)]
pub struct Checkpoints<A: Allocator = Global> {
    held: Vec<Machine<A>, A>,
    // The largest number of checkpoints that may be held.
    most: usize,
}

impl<A: Allocator> Model for Checkpoints<A> {
    ghost use Rattle.std.specs.Prelude.{◌≤◌, List, length};
    ghost use Rattle.a2_machine.specs.State.{Device};

    ghost Value = { List Device };

    ghost view = { λ c. c.held.items };

    ghost invariant = { λ c. length c.held.items ≤ c.most };
}

// Returns the steps from one new checkpoint to the next. This is `STRIDE`, doubled as often as it stays at most a
// fiftieth of the steps so far. A copy takes as long as thousands of steps.
fn stride_at(position: u64) -> u64
    ensures { 0 < result }
{
    let mut stride = STRIDE;
    while stride <= position / 100 {
        stride *= 2;
    }
    stride
}

// Returns whether a checkpoint is due at a position: a multiple of the stride there, after all that are held.
fn is_due<A: Allocator + Copy>(held: &[Machine<A>], position: u64) -> bool {
    let is_after = match held.last() {
        Some(newest) => newest.steps() < position,
        None => true,
    };
    is_after && position % stride_at(position) == 0
}

// Returns the index of the first checkpoint that need not be kept any more.
fn first_unkept<A: Allocator + Copy>(held: &[Machine<A>], width: u64, now: u64) -> Option<usize>
    ensures within { IfSome result (λ index. index < length held.now) }
    ensures other { IfSome result (λ index. (d : Device) → IsKept width now (slice_index_or held.now index d).state.steps → ⊥) }
{
    for (index, kept) in held.iter().enumerate() {
        if !is_kept(width, now, kept.steps()) {
            return Some(index);
        }
    }
    None
}

// Removes one checkpoint that need not be kept any more, if there is one.
fn remove_unkept<A: Allocator + Copy>(
    held: &mut Vec<Machine<A>, A>,
    width: u64,
    now: u64,
) -> Option<Machine<A>>
    ensures { Thins width now held.old.items held.new.items }
{
    let index = first_unkept(held.as_slice(), width, now)?;
    Some(held.remove(index))
}

// Drops the checkpoints that need not be kept any more.
fn drop_unkept<A: Allocator + Copy>(held: &mut Vec<Machine<A>, A>, width: u64, now: u64)
    ensures thinned { Thins width now held.old.items held.new.items }
    ensures wanted { All (λ d. IsKept width now d.state.steps) held.new.items }
{
    held.retain(|kept| is_kept(width, now, kept.steps()));
}

// Returns a copy of a machine, made in the memory of another if there is one. Returns `None` if there is no memory
// for it.
fn copy_of<A: Allocator + Copy>(
    alloc: A,
    spare: Option<Machine<A>>,
    machine: &Machine<A>,
) -> Option<Machine<A>>
    ensures { IfSome result (λ copy. IsCopy machine.now.state copy.state) }
{
    let mut copy = match spare {
        Some(spare) => spare,
        None => Machine::for_copies(alloc).ok()?,
    };
    copy.restore(machine);
    Some(copy)
}

// Adds a checkpoint, if there is memory and fewer than `most` are held.
fn add<A: Allocator + Copy>(held: &mut Vec<Machine<A>, A>, copy: Machine<A>, most: usize)
    requires { length held.old.items ≤ most }
    ensures added { (held.new.items ≡ held.old.items) ⊎ (held.new.items ≡ held.old.items ++ copy ∷ []) }
    ensures few { length held.new.items ≤ most }
{
    if held.len() < most {
        let _ = held.push(copy);
    }
}

// Drops the checkpoints that are not kept at a machine's position, and adds a copy of the machine if there is memory.
// The copy reuses the memory of a dropped checkpoint, since allocating takes longer.
fn hold<A: Allocator + Copy>(
    alloc: A,
    held: &mut Vec<Machine<A>, A>,
    machine: &Machine<A>,
    most: usize,
)
    requires { length held.old.items ≤ most }
    ensures holds { Holds most machine.now.state held.old.items held.new.items }
    ensures few { length held.new.items ≤ most }
{
    let now = machine.steps();
    let width = width_of(most, now);
    let spare = remove_unkept(held, width, now);
    drop_unkept(held, width, now);
    if let Some(copy) = copy_of(alloc, spare, machine) {
        add(held, copy, most);
    }
}

impl<A: Allocator + Copy> Checkpoints<A> {
    /// Creates an empty set, which holds at most `most` checkpoints.
    pub fn new(alloc: A, most: usize) -> Checkpoints<A>
        ensures { result ≡ [] }
    {
        Checkpoints {
            held: Vec::new(alloc),
            most,
        }
    }

    /// Makes a checkpoint if one is due at the machine's position, and drops those that need not be kept any more.
    pub fn keep(&mut self, alloc: A, machine: &Machine<A>)
        ensures { (course : Course) → IsOn course machine.now.state → AreOn course self.old → AreOn course self.new }
    {
        if is_due(self.held.as_slice(), machine.steps()) {
            hold(alloc, &mut self.held, machine, self.most);
        }
    }
}

impl<A: Allocator + Copy> Checkpoints<A> {
    /// Returns how many checkpoints are held.
    pub fn len(&self) -> usize
        ensures { result ≡ length self.now }
    {
        self.held.len()
    }

    /// Returns the checkpoint at an index, which counts from 0 and is below [`Checkpoints::len`].
    pub fn at(&self, index: usize) -> &Machine<A>
        requires { index < length self.now }
        ensures { (course : Course) → AreOn course self.now → IsOn course result.now.state }
    {
        &self.held[index]
    }

    /// Returns the latest checkpoint that is not after a position.
    pub fn newest_before(&self, position: u64) -> Option<&Machine<A>>
        ensures on { IfSome result (λ kept. (course : Course) → AreOn course self.now → IsOn course kept.now.state) }
        ensures before { IfSome result (λ kept. kept.now.state.steps ≤ position) }
    {
        for following in 0..self.len() {
            let kept = self.at(self.len() - 1 - following);
            if kept.steps() <= position {
                return Some(kept);
            }
        }
        None
    }

    /// Forgets the checkpoints at and after a position.
    pub fn forget_from(&mut self, position: u64)
        ensures on { (course : Course) → AreOn course self.old → AreOn course self.new }
        ensures before { All (λ d. d.state.steps < position) self.new }
    {
        self.held.retain(|kept| kept.steps() < position);
    }
}
