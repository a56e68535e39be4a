//! A walk through a run, which counts what is executed in its routines.

ghost use Rattle.std.specs.Prelude.{◌≡◌, ◌-◌, ◌<◌, ◌≤◌, ℕ, true, false, [], ◌∷◌, length, replicate, IfOk, if◌then◌else◌};
ghost use Rattle.std.specs.List.{All};
ghost use Rattle.a2_profile.specs.Seeing.{are_small};
ghost use Rattle.a2_profile.specs.Totals.{itself, nothing, totals_at, own_steps_in, own_cycles_in};
ghost use Rattle.a2_profile.specs.Walks as walks;
ghost use Rattle.a2_profile.specs.Walks.{SeesAlike, IsLow};

use a2_burst::{Observer, StepView};
use arrayvec::ArrayVec;
use std::alloc::{AllocError, Allocator, Global};
use std::marker::Model;

/// How many routines there are: one for each address, and the program itself.
const ROUTINES: usize = 0x1_0001;

/// The number of the program itself.
const ITSELF: u32 = 0x1_0000;

/// JSR's operation code.
const JSR: u8 = 0x20;

/// The greatest number of steps of a walk: that of a run with the greatest limit.
const WALK_MAX_STEPS: u64 = 0xFFFF_FFFF;

/// The greatest number of routines that are entered and not left, because the stack pointer is lower before each: it is 256 for the
/// program itself, and then 255 to 0.
const MOST_FRAMES: usize = 257;

/// What was executed in a routine.
#[derive(Clone, Copy, Debug, PartialEq, Eq)]
pub struct Totals {
    /// How often a JSR entered it.
    pub times: u64,
    /// Its own steps.
    pub steps: u64,
    /// The cycles of the processor that these took.
    pub cycles: u64,
    /// Its steps with those of what it calls.
    pub all_steps: u64,
    /// Their cycles.
    pub all_cycles: u64,
}

/// No step.
const NOTHING: Totals = Totals {
    times: 0,
    steps: 0,
    cycles: 0,
    all_steps: 0,
    all_cycles: 0,
};

// A routine that is entered and not left.
#[derive(Clone, Copy, Default)]
pub(crate) struct Frame {
    // The address where it begins, or the number of the program itself.
    routine: u32,
    // The stack pointer before it was entered, or 256 for the program itself.
    s: u16,
}

// How often a routine is entered and not left, and the steps and cycles of the run when it was first entered.
#[derive(Clone, Copy)]
pub(crate) struct Opening {
    depth: u64,
    steps: u64,
    cycles: u64,
}

const CLOSED: Opening = Opening {
    depth: 0,
    steps: 0,
    cycles: 0,
};

/// No steps of any routine.
pub(crate) fn no_totals<A: Allocator + Copy>(alloc: A) -> Result<Vec<Totals, A>, AllocError>
    ensures { IfOk result (λ totals. totals.items ≡ replicate 65537 nothing) }
{
    vec![in alloc; NOTHING; ROUTINES]
}

// No routine is entered.
fn no_openings<A: Allocator + Copy>(alloc: A) -> Result<Vec<Opening, A>, AllocError>
    ensures { IfOk result (λ openings. openings.items ≡ replicate 65537 walks.closed) }
{
    vec![in alloc; CLOSED; ROUTINES]
}

// Returns since when a routine is counted: since now if it is entered for the first time, and otherwise as before.
fn begun(is_first: bool, now: u64, since: u64) -> u64
    ensures { result ≡ (if is_first then now else since) }
{
    if is_first { now } else { since }
}

// Returns what is counted of a routine when it is left for the last time: what was spent since it was entered.
fn spent(is_last: bool, now: u64, since: u64) -> u64
    requires { since ≤ now }
    ensures { result ≡ (if is_last then now - since else 0) }
{
    if is_last { now - since } else { 0 }
}

// The routines of a run that are entered and not left, and what was counted so far.
#[derive(Drop)]
pub(crate) struct Walk<A: Allocator = Global> {
    frames: ArrayVec<Frame, MOST_FRAMES>,
    totals: Vec<Totals, A>,
    openings: Vec<Opening, A>,
    steps: u64,
    cycles: u64,
}

impl<A: Allocator> Model for Walk<A> {
    ghost use Rattle.a2_profile.specs.Walks.{Walk as Seen, IsWalk};

    ghost Value = { Seen };

    ghost view = { λ w. record { frames = w.frames.items; totals = w.totals.items; openings = w.openings.items; steps = w.steps; cycles = w.cycles } };

    ghost invariant = { λ w. IsWalk (record { frames = w.frames.items; totals = w.totals.items; openings = w.openings.items; steps = w.steps; cycles = w.cycles }) };
}

impl<A: Allocator + Copy> Walk<A> {
    // Returns a walk of no steps, in which no routine is entered.
    fn empty(alloc: A) -> Result<Walk<A>, AllocError>
        ensures { IfOk result (λ walk. walk ≡ record {
          frames = [];
          totals = replicate 65537 nothing;
          openings = replicate 65537 walks.closed;
          steps = 0;
          cycles = 0;
        }) }
    {
        Ok(Walk {
            frames: ArrayVec::new(),
            totals: no_totals(alloc)?,
            openings: no_openings(alloc)?,
            steps: 0,
            cycles: 0,
        })
    }

    /// Returns a walk of no steps, in the program itself.
    pub fn new(alloc: A) -> Result<Walk<A>, AllocError>
        ensures frames { IfOk result (λ walk. walk.frames ≡ walks.base ∷ []) }
        ensures nothing { IfOk result (λ walk. (r : ℕ) → r < 65537 → walks.seen_at walk r ≡ nothing) }
        ensures steps { IfOk result (λ walk. walk.steps ≡ 0) }
        ensures cycles { IfOk result (λ walk. walk.cycles ≡ 0) }
    {
        let mut walk = Walk::empty(alloc)?;
        walk.open(ITSELF, 0x100);
        Ok(walk)
    }
}

impl<A: Allocator + Copy> Walk<A> {
    /// For the prover alone: a law of every walk.
    #[inline(always)]
    pub fn is_walk(&self)
        ensures { walks.IsWalk self.now }
    {
        let _ = &self.totals;
    }

    // Returns whether it can count one more step, which is so at each step of a run.
    #[inline(always)]
    fn has_room(&self) -> bool
        ensures { result ≡ walks.has_room self.now }
    {
        self.steps < WALK_MAX_STEPS && !self.frames.is_empty()
    }

    // Counts a step of so many cycles in the innermost routine.
    #[inline(always)]
    fn count_step(&mut self, cycles: u32)
        requires steps { self.old.steps < walks.most_steps }
        requires entered { 0 < length self.old.frames }
        ensures { self.new ≡ walks.counted cycles self.old }
    {
        let cycles = u64::from(cycles);
        let index = self.frames.as_slice()[self.frames.len() - 1].routine as usize;
        let totals = self.totals[index];
        self.totals[index] = Totals {
            times: totals.times,
            steps: totals.steps + 1,
            cycles: totals.cycles + cycles,
            all_steps: totals.all_steps,
            all_cycles: totals.all_cycles,
        };
        self.steps += 1;
        self.cycles += cycles;
    }

    // Counts a JSR to a routine.
    fn note(&mut self, routine: u16)
        requires { (totals_at self.old.totals routine).times < self.old.steps }
        ensures { self.new ≡ walks.noted routine self.old }
    {
        self.totals[usize::from(routine)].times += 1;
    }

    // Enters a routine at this stack pointer, which is lower than that of any other.
    fn open(&mut self, routine: u32, s: u16)
        requires routine { routine < 65537 }
        requires high { s ≤ 256 }
        requires low { IsLow s self.old.frames }
        ensures { self.new ≡ walks.opened routine s self.old }
    {
        let index = routine as usize;
        let opening = self.openings[index];
        self.frames.push(Frame { routine, s });
        let is_first = opening.depth == 0;
        self.openings[index] = Opening {
            depth: opening.depth + 1,
            steps: begun(is_first, self.steps, opening.steps),
            cycles: begun(is_first, self.cycles, opening.cycles),
        };
    }

    // Enters a routine by a JSR before which the stack pointer was this. In a run it is lower than that of any other.
    #[inline(never)]
    fn enter(&mut self, routine: u16, s: u8)
        requires { (totals_at self.old.totals routine).times < self.old.steps }
        ensures { self.new ≡ walks.entered routine s self.old }
    {
        if self.leaves(s) {
            return;
        }
        self.note(routine);
        self.open(u32::from(routine), u16::from(s));
    }

    // Enters what a step enters, if it is a JSR.
    #[inline(always)]
    fn enter_by(&mut self, look: StepView)
        requires { (totals_at self.old.totals look.next_pc).times < self.old.steps }
        ensures { self.new ≡ walks.with_call look self.old }
    {
        if look.opcode == JSR {
            self.enter(look.next_pc, look.s);
        }
    }

    // Leaves the innermost routine.
    #[inline(never)]
    fn close(&mut self)
        requires { 0 < length self.old.frames }
        ensures left { self.new ≡ walks.left self.old }
        ensures alike { SeesAlike self.old self.new }
    {
        let Some(frame) = self.frames.pop() else {
            return;
        };
        let index = frame.routine as usize;
        let opening = self.openings[index];
        let is_last = opening.depth == 1;
        let totals = self.totals[index];
        self.totals[index] = Totals {
            times: totals.times,
            steps: totals.steps,
            cycles: totals.cycles,
            all_steps: totals.all_steps + spent(is_last, self.steps, opening.steps),
            all_cycles: totals.all_cycles + spent(is_last, self.cycles, opening.cycles),
        };
        self.openings[index] = Opening {
            depth: opening.depth - 1,
            steps: opening.steps,
            cycles: opening.cycles,
        };
    }

    // Returns whether a stack pointer is not below that before the innermost routine, if there is one.
    #[inline(always)]
    fn leaves(&self, s: u8) -> bool
        ensures value { result ≡ walks.leaves s self.now }
        ensures low { result ≡ false → IsLow s self.now.frames }
    {
        match self.frames.as_slice().last() {
            Some(frame) => frame.s <= u16::from(s),
            None => false,
        }
    }

    // Leaves the routines that a stack pointer is not below.
    #[inline(always)]
    fn leave(&mut self, s: u8)
        ensures { self.new ≡ walks.left_below s self.old }
    {
        while self.leaves(s) {
            self.close();
        }
    }

    /// Leaves all routines. Returns what was executed in each.
    pub fn finish(mut self) -> RoutineProfile<A>
        ensures seen { (r : ℕ) → r < 65537 → totals_at result r ≡ walks.seen_at self r }
        ensures steps { own_steps_in result ≡ self.steps }
        ensures cycles { own_cycles_in result ≡ self.cycles }
    {
        while !self.frames.is_empty() {
            self.close();
        }
        let Walk {
            totals,
            steps,
            cycles,
            ..
        } = self;
        RoutineProfile {
            totals,
            steps,
            cycles,
        }
    }
}

// For the prover alone: these numbers are as small as their types.
#[inline(always)]
fn keeps_small(pc: u16, s: u8, next_pc: u16, next_s: u8, cycles: u32)
    ensures { are_small pc s next_pc next_s cycles ≡ true }
{
    let _ = (pc, s, next_pc, next_s, cycles);
}

impl<A: Allocator + Copy> Observer for Walk<A> {
    ghost seen = { walks.shown_to };

    #[inline(always)]
    fn see(&mut self, look: StepView, _ram: &[u8]) {
        self.is_walk();
        keeps_small(look.pc, look.s, look.next_pc, look.next_s, look.cycles);
        if self.has_room() {
            self.count_step(look.cycles);
            self.enter_by(look);
            self.leave(look.next_s);
        }
    }
}

/// What was executed in each routine of a run, and in the program itself. Contracts see a list of 65,537 totals. This project's
/// profile.
#[derive(Drop)]
pub struct RoutineProfile<A: Allocator = Global> {
    pub(crate) totals: Vec<Totals, A>,
    pub(crate) steps: u64,
    pub(crate) cycles: u64,
}

impl<A: Allocator> Model for RoutineProfile<A> {
    ghost use Rattle.std.specs.Prelude.{List};
    ghost use Rattle.a2_profile.specs.declared.walk.Totals.{Totals};
    ghost use Rattle.a2_profile.specs.Totals.{AreSummed};

    ghost Value = { List Totals };

    ghost view = { λ p. p.totals.items };

    ghost invariant = { λ p. AreSummed p.totals.items p.steps p.cycles };
}

impl<A: Allocator + Copy> RoutineProfile<A> {
    /// Returns what was executed in the routine that begins at `address`, $0000 to $FFFF.
    pub fn at(&self, address: u16) -> Totals
        ensures value { result ≡ totals_at self.now address }
        // A law of every profile: no routine has more cycles than the run, including what it calls.
        ensures within { result.all_cycles ≤ own_cycles_in self.now }
        ensures own_within { result.cycles ≤ own_cycles_in self.now }
    {
        self.totals[usize::from(address)]
    }

    /// Returns what was executed in the program itself.
    pub fn itself(&self) -> Totals
        ensures value { result ≡ totals_at self.now itself }
        ensures within { result.all_cycles ≤ own_cycles_in self.now }
        ensures own_within { result.cycles ≤ own_cycles_in self.now }
    {
        self.totals[ITSELF as usize]
    }

    /// Returns the own steps of all routines.
    pub fn steps(&self) -> u64
        ensures { result ≡ own_steps_in self.now }
    {
        self.steps
    }

    /// Returns the own cycles of all routines.
    pub fn cycles(&self) -> u64
        ensures { result ≡ own_cycles_in self.now }
    {
        self.cycles
    }
}
