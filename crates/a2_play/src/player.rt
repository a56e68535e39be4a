//! Runs a machine and keeps the keys that were typed.

ghost use Rattle.std.specs.Prelude.{◌≡◌, ◌↔◌, true, ◌<◌, ◌++◌, ◌∷◌, [], length, vec_len, vec_capacity, IfOk, IfErr};
ghost use Rattle.a2_asm.specs.Assembled.{Assembled};
ghost use Rattle.a2_play.specs.Backs.{WentBack};
ghost use Rattle.a2_play.specs.Played.{IsPlayed, IsStuckBy, after_key};

use crate::replayed_run::{begin, bring, seek, type_at};
use a2_asm::Program;
use a2_burst::{NoObserver, Observer};
use a2_cpu::Breakpoints;
use a2_machine::{Cause, Machine, Stop};
use a2_timed_keys::Typed;
use std::alloc::{AllocError, Allocator, Global};
use std::marker::Model;

/// The largest number of runs of the machine in one call.
const MOST_RUNS: u32 = 100_000;

/// The largest number of cycles of an instruction, and of a service other than WAIT. Running the due cycles divided
/// by this number of steps never runs too far.
const MOST_CYCLES: u64 = 7;

/// The largest number of steps in one run.
pub(crate) const PIECE_MAX_STEPS: u64 = 1_000_000;

/// The service that takes as many cycles as A asks for.
const WAIT: u16 = 0xFCA8;

/// The largest number of steps between two checks of the cycles during a replay.
const PIECE: u64 = 4_096;

/// A machine and the keys that were typed. Contracts see both.
pub struct Player<A: Allocator = Global> {
    machine: Machine<A>,
    log: Vec<Typed, A>,
}

// Not derived, only for the prover: it sees this as one call, but a derived `Drop` field by field.
impl<A: Allocator> Drop for Player<A> {
    fn drop(self) {
        let Player { machine: _, log: _ } = self;
    }
}

// A breakpoint at calls of WAIT.
#[derive(Drop)]
struct AtWait;

impl Breakpoints for AtWait {
    ghost use Rattle.std.specs.Prelude.{◌==◌};

    ghost is_breakpoint = { λ at address. address == 0xFCA8 };

    fn is_breakpoint(&self, address: u16) -> bool {
        address == WAIT
    }
}

// Logs a key; there must be room.
fn note_key<A: Allocator + Copy>(log: &mut Vec<Typed, A>, typed: Typed)
    requires { vec_len log.old < vec_capacity log.old }
    ensures { log.new.items ≡ log.old.items ++ typed ∷ [] }
{
    // There is room, so no memory is needed.
    let _ = log.push(typed);
}

impl<A: Allocator> Model for Player<A> {
    ghost use Rattle.a2_play.specs.Played.{Play};

    ghost Value = { Play };

    ghost view = { λ p. record { machine = p.machine; log = p.log.items } };
}

impl<A: Allocator + Copy> Player<A> {
    /// Creates a machine at the start of a program, with the program guarded, no step executed and no key typed.
    /// Fails only if memory is short.
    pub fn new(alloc: A, program: &Program<A>) -> Result<Player<A>, AllocError>
        ensures played { IfOk result (λ player. IsPlayed program.now player) }
        ensures log { IfOk result (λ player. player.log ≡ []) }
        ensures steps { IfOk result (λ player. player.machine.state.steps ≡ 0) }
    {
        let machine = Machine::new(alloc)?;
        let mut player = Player {
            machine,
            log: Vec::new(alloc),
        };
        player.restart(program);
        Ok(player)
    }
}

impl<A: Allocator + Copy> Player<A> {
    /// Begins again: the machine is at the start of the program, with the program guarded and no key typed.
    pub fn restart(&mut self, program: &Program<A>)
        ensures played { IsPlayed program.now self.new }
        ensures log { self.new.log ≡ [] }
        ensures steps { self.new.machine.state.steps ≡ 0 }
    {
        begin(&mut self.machine, program);
        self.log.clear();
    }

    /// Returns the machine.
    pub fn machine(&self) -> &Machine<A>
        ensures { result.now ≡ self.now.machine }
    {
        &self.machine
    }

    /// Returns the keys, in the order in which they were typed.
    pub fn log(&self) -> &[Typed]
        ensures { result.now ≡ self.now.log }
    {
        self.log.as_slice()
    }

    /// Returns how many keys wait, 0 to 4,096.
    pub fn waiting(&self) -> usize
        ensures { result ≡ length self.now.machine.state.bus.devices.keys }
    {
        self.machine.space().waiting().len()
    }

    /// Types a key, 0 to 127, if fewer than 4,096 wait, and returns whether it did. Fails only if memory is short. If
    /// the key is not typed, nothing changes.
    pub fn type_key(&mut self, key: u8) -> Result<bool, AllocError>
        requires { key < 128 }
        ensures room { IfOk result (λ is_typed. (is_typed ≡ true) ↔ (length self.old.machine.state.bus.devices.keys < 4096)) }
        ensures typed { IfOk result (λ is_typed. self.new ≡ after_key is_typed key self.old) }
        ensures kept { IfErr result (λ _. self.new ≡ self.old) }
        ensures played { (program : Assembled) → IsPlayed program self.old → IsPlayed program self.new }
    {
        self.log.try_reserve(1)?;
        let steps = self.machine.steps();
        if !type_at(&mut self.machine, key) {
            return Ok(false);
        }
        note_key(&mut self.log, Typed { steps, key });
        Ok(true)
    }

    /// Runs at most `steps` steps, 1 or more. Returns why it stopped, if it ran fewer or no other step can follow.
    pub fn run(&mut self, steps: u32) -> Option<Cause>
        ensures log { self.new.log ≡ self.old.log }
        ensures stuck { IsStuckBy self.new.machine.state result }
        ensures played { (program : Assembled) → IsPlayed program self.old → IsPlayed program self.new }
    {
        let before = self.machine.steps();
        let cause = self.machine.run(steps);
        if cause == Cause::Limit && self.machine.steps() > before {
            None
        } else {
            Some(cause)
        }
    }

    // Runs at most `steps` steps, 1 or more, but only up to a call of WAIT. `observer` sees each step. Returns the same as `run`.
    fn run_to_wait<O: Observer>(&mut self, steps: u32, observer: &mut O) -> Option<Cause>
        ensures log { self.new.log ≡ self.old.log }
        ensures stuck { IsStuckBy self.new.machine.state result }
        ensures played { (program : Assembled) → IsPlayed program self.old → IsPlayed program self.new }
    {
        let before = self.machine.steps();
        match self.machine.run_to_observed(steps, &AtWait, observer) {
            Stop::Breakpoint => None,
            Stop::Cause(Cause::Limit) if self.machine.steps() > before => None,
            Stop::Cause(cause) => Some(cause),
        }
    }

    // Returns how many steps can be run so that only the last one may pass a number of cycles.
    fn steps_to(&self, cycles: u64) -> u32 {
        if self.machine.regs().pc == WAIT {
            return 1;
        }
        let left = cycles.saturating_sub(self.machine.cycles());
        (left.saturating_sub(1) / MOST_CYCLES).min(PIECE_MAX_STEPS) as u32 + 1
    }

    /// Runs until a number of cycles has passed since the start, or until a cause stops the machine, and returns that
    /// cause. It runs at most 100,000 stretches, each of at most 1,000,001 steps and only up to a call of WAIT.
    pub fn run_to(&mut self, cycles: u64) -> Option<Cause>
        ensures log { self.new.log ≡ self.old.log }
        ensures stuck { IsStuckBy self.new.machine.state result }
        ensures played { (program : Assembled) → IsPlayed program self.old → IsPlayed program self.new }
    {
        self.run_to_observed(cycles, &mut NoObserver)
    }

    /// Runs as `run_to` does, and returns what it returns. `observer` sees each step as it is executed, including calls of services.
    pub fn run_to_observed<O: Observer>(&mut self, cycles: u64, observer: &mut O) -> Option<Cause>
        ensures log { self.new.log ≡ self.old.log }
        ensures stuck { IsStuckBy self.new.machine.state result }
        ensures played { (program : Assembled) → IsPlayed program self.old → IsPlayed program self.new }
    {
        for _ in 0..MOST_RUNS {
            if self.machine.cycles() >= cycles {
                return None;
            }
            let steps = self.steps_to(cycles);
            if let Some(cause) = self.run_to_wait(steps, observer) {
                return Some(cause);
            }
        }
        None
    }

    /// Goes back to the first position, in steps, that is at most `cycles` cycles before the current one. Keys that
    /// were typed there or later are forgotten. `program` must be the program that is played; it is replayed from its
    /// start.
    pub fn go_back(&mut self, program: &Program<A>, cycles: u64)
        requires { IsPlayed program.now self.old }
        ensures back { WentBack program.now cycles self.old self.new }
        ensures played { IsPlayed program.now self.new }
    {
        let end = self.machine.steps();
        let goal = self.machine.cycles().saturating_sub(cycles);
        begin(&mut self.machine, program);
        let before = seek(&mut self.machine, self.log.as_slice(), goal, end, PIECE);
        begin(&mut self.machine, program);
        bring(&mut self.machine, self.log.as_slice(), before);
        let _ = seek(&mut self.machine, self.log.as_slice(), goal, end, 1);
        let position = self.machine.steps();
        self.log.retain(|typed| typed.steps < position);
    }

    // Runs until a number of steps since the start is reached, and returns whether that was possible.
    fn run_until(&mut self, steps: u64) -> bool
        ensures log { self.new.log ≡ self.old.log }
        ensures reached { result ≡ true → self.new.machine.state.steps ≡ steps }
        ensures played { (program : Assembled) → IsPlayed program self.old → IsPlayed program self.new }
    {
        for _ in 0..u64::MAX {
            let made = self.machine.steps();
            if made >= steps {
                break;
            }
            let ahead = (steps - made).min(PIECE_MAX_STEPS) as u32;
            if self.run(ahead).is_some() {
                break;
            }
        }
        self.machine.steps() == steps
    }

    // Runs to the position of a key and types it there. Returns whether that was possible.
    fn retype_key(&mut self, typed: Typed) -> Result<bool, AllocError>
        ensures typed { IfOk result (λ is_typed. is_typed ≡ true → self.new.log ≡ self.old.log ++ typed ∷ []) }
        ensures played { (program : Assembled) → IsPlayed program self.old → IsPlayed program self.new }
    {
        if typed.key < 128 && self.run_until(typed.steps) {
            self.type_key(typed.key)
        } else {
            Ok(false)
        }
    }

    /// Replays a log: types each key after its number of steps since the start, and then runs to step `end`. Returns
    /// whether all of that was possible. If not, what was replayed so far remains. Fails only if memory is short.
    pub fn replay(&mut self, log: &[Typed], end: u64) -> Result<bool, AllocError>
        ensures log { IfOk result (λ is_whole. is_whole ≡ true → self.new.log ≡ self.old.log ++ log.now) }
        ensures end { IfOk result (λ is_whole. is_whole ≡ true → self.new.machine.state.steps ≡ end) }
        ensures played { (program : Assembled) → IsPlayed program self.old → IsPlayed program self.new }
    {
        for typed in log {
            if !self.retype_key(*typed)? {
                return Ok(false);
            }
        }
        Ok(self.run_until(end))
    }
}
