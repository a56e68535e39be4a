//! The debugger: its calls, and what it shows.

ghost use Rattle.std.specs.Prelude.{◌≡◌, ℕ, ◌+◌, ◌*◌, ◌/◌, ◌<◌, ◌≤◌, ◌++◌, length, slice_index, IfOk, IfErr};
ghost use Rattle.a2_text.specs.Bytes.{is_among};
ghost use Rattle.a2_page.specs.Picture.{page_grid};
ghost use Rattle.a2_bus.specs.Memory.{ram_byte};
ghost use Rattle.a2_effect.specs.View.{spare_bits_of, registers_of};
ghost use Rattle.a2_machine.specs.State.{IsRunTo};
ghost use Rattle.a2_debug_script.specs.declared.calls.Call.TheVariants.{Step, Go, TypeKeys, Back};
ghost use Rattle.a2_debug_script.specs.declared.fault.DebugFault.TheVariants.{Memory};
ghost use Rattle.a2_debug_script.specs.Calls.{CallDoes, ExecutesSteps, done_or, halted_or};
ghost use Rattle.a2_debug_script.specs.Marks.{marked, unmarked, at_place, Marks};
ghost use Rattle.a2_debug_script.specs.Session.{advanced, start_session};
ghost use Rattle.a2_stream.specs.Stream.{SendsOrBreaks};
ghost use Rattle.a2_debug_script.specs.Lines.{session_line, halt_line, session_picture};
ghost use Rattle.a2_debug_script.specs.Runs.{heeded, halt_by, RunsToCount};
ghost use Rattle.a2_debug_script.specs.Stored.{session_of, debugger_at_start};

use crate::checkpoints::{Checkpoints, STRIDE, keep_at, oldest_at};
use crate::marks::{BreakSet, place_of};
use crate::rerun::rerun;
use crate::typing::{forget_after, note_keys};
use crate::{DebugFault, Halt, Typed};
use a2_asm::Program;
use a2_bus::Keys;
use a2_cpu::{NoBreakpoints, Regs};
use a2_machine::{Machine, Stop, write_cause, write_registers};
use a2_page::View;
use a2_stream::{Output, WriteFault, put};
use std::alloc::{Allocator, Global};
use std::marker::Model;

/// The most steps of a session.
const MAX_COUNT: u32 = 100_000_000;

/// The most keys that can be typed in a session.
const MAX_KEYS: usize = 4096;

/// How breakpoints are treated during steps.
#[derive(Clone, Copy)]
pub enum Breaks {
    Ignored,
    Heeded,
}

// Returns why steps ended, in the form that a debugger reports.
fn halt_of(stop: Stop) -> Halt
    ensures { result ≡ halt_by stop }
{
    match stop {
        Stop::Cause(cause) => Halt::Stopped(cause),
        Stop::Breakpoint => Halt::Break,
    }
}

// Runs a machine, stopping at these breakpoints if they are heeded.
fn run_machine<A: Allocator + Copy>(
    machine: &mut Machine<A>,
    limit: u32,
    breaks: Breaks,
    marks: &BreakSet<A>,
) -> Stop
    ensures { IsRunTo (is_among (heeded breaks marks.now)) limit machine.old machine.new result }
{
    match breaks {
        Breaks::Ignored => machine.run_to(limit, &NoBreakpoints),
        Breaks::Heeded => machine.run_to(limit, marks),
    }
}

/// A debugger of one program, guarded, which steps forwards and backwards. Contracts see the program, the keys typed
/// with their counts, the count, the breakpoints, the oldest count, and how many steps were executed. The session that
/// the debugger represents, a list of worlds from the start to the current one, is a function of these. This project's
/// profile.
pub struct Debugger<A: Allocator = Global> {
    program: Program<A>,
    machine: Machine<A>,
    log: Vec<Typed, A>,
    breaks: Box<BreakSet<A>, A>,
    checkpoints: Checkpoints<A>,
    count: u32,
    oldest: u32,
    reruns: u32,
}

// Not derived, only for the prover: it follows this as one call, and a derived one field by field.
impl<A: Allocator> Drop for Debugger<A> {
    fn drop(self) {
        let Debugger {
            program: _,
            machine: _,
            log: _,
            breaks: _,
            checkpoints: _,
            count: _,
            oldest: _,
            reruns: _,
        } = self;
    }
}

impl<A: Allocator> Model for Debugger<A> {
    ghost use Rattle.std.specs.Prelude.{◌+◌, ◌≤◌, vec_len, vec_capacity};
    ghost use Rattle.a2_debug_script.specs.Stored.{Stored, IsKept, AreCheckpoints};

    ghost Value = { Stored };

    ghost view = { λ d. record {
      program = d.program;
      log = d.log.items;
      count = d.count;
      breaks = d.breaks.value;
      oldest = d.oldest;
      reruns = d.reruns;
      made = d.machine.made + d.checkpoints.made;
    } };

    ghost invariant = { λ d. IsKept d.program d.log.items d.count d.machine.state
        × (4096 ≤ vec_capacity d.log)
        × AreCheckpoints d.program d.log.items d.count d.oldest d.checkpoints.held };
}

impl<A: Allocator + Copy> Debugger<A> {
    /// Returns a debugger of `program` at its start. `machine`, whatever it held, is booted with the program's image
    /// and guarded, with no keys waiting. All memory that the debugger ever needs is allocated here, from `alloc`: room
    /// for 256 breakpoints and 4,096 keys, and eight machines for checkpoints. Fails with `DebugFault::Memory` only if
    /// memory runs out; then machine and program are dropped.
    pub fn new(
        alloc: A,
        machine: Machine<A>,
        program: Program<A>,
    ) -> Result<Debugger<A>, DebugFault>
        ensures session { IfOk result (λ d. session_of d ≡ start_session program) }
        ensures debugger_at_start { IfOk result (λ d. d ≡ debugger_at_start program machine.made) }
        ensures refused { IfErr result (λ fault. fault ≡ Memory) }
    {
        let mut machine = machine;
        let Ok(log) = Vec::with_capacity(alloc, MAX_KEYS) else {
            return Err(DebugFault::Memory);
        };
        let Ok(breaks) = BreakSet::new(alloc) else {
            return Err(DebugFault::Memory);
        };
        let Ok(mut checkpoints) = Checkpoints::new(alloc) else {
            return Err(DebugFault::Memory);
        };
        program.is_sound();
        machine.boot(program.image(), program.entry());
        machine.guard(&program);
        checkpoints.keep(&machine);
        Ok(Debugger {
            program,
            machine,
            log,
            breaks,
            checkpoints,
            count: 0,
            oldest: 0,
            reruns: 0,
        })
    }
}

impl<A: Allocator + Copy> Debugger<A> {
    // Steps up to a count, which is not after the next checkpoint.
    fn run_to(&mut self, to: u32, breaks: Breaks) -> Halt
        requires ahead { self.old.count ≤ to }
        requires near { to ≤ 1024 * (self.old.count / 1024) + 1024 }
        requires few { to ≤ 100_000_000 }
        ensures { RunsToCount (heeded breaks self.old.breaks) to self.old self.new result }
    {
        let from = self.count;
        let stop = run_machine(&mut self.machine, to - from, breaks, &self.breaks);
        self.count = self.machine.steps() as u32;
        self.oldest = oldest_at(self.oldest, self.count);
        keep_at(&mut self.checkpoints, &self.machine, from, self.count);
        halt_of(stop)
    }

    // Executes at most this many steps, from checkpoint to checkpoint.
    #[tactic(auto, using(crate::proofs::Runs::on_the_way, crate::proofs::Runs::goes_on_from))]
    fn execute_steps(&mut self, n: u32, breaks: Breaks) -> Result<Halt, DebugFault>
        ensures { ExecutesSteps self.old n (advanced self.old.program (heeded breaks self.old.breaks) n (session_of self.old))
            (halted_or result) self.new }
    {
        if n > MAX_COUNT - self.count {
            return Err(DebugFault::Steps);
        }
        let end = self.count + n;
        let mut next = self.count - self.count % STRIDE + STRIDE;
        while next < end {
            match self.run_to(next, breaks) {
                Halt::Break => return Ok(Halt::Break),
                Halt::Stopped(cause) if self.count < next => return Ok(Halt::Stopped(cause)),
                Halt::Stopped(_) => next += STRIDE,
            }
        }
        Ok(self.run_to(end, breaks))
    }

    /// Steps until there is a cause to stop or `n` steps were executed in this call, and returns the cause. The cause
    /// is `Cause::Limit` only if there is no other. Breakpoints are ignored. Fails with `DebugFault::Steps` exactly if
    /// the count plus `n` is above 100,000,000; then nothing changes.
    pub fn step(&mut self, n: u32) -> Result<Halt, DebugFault>
        ensures { CallDoes self.old (Step n) (halted_or result) self.new }
    {
        self.execute_steps(n, Breaks::Ignored)
    }

    /// Steps like [`Debugger::step`], with `limit` as the number of steps, but also ends after a step that reaches a
    /// breakpoint. Then it returns `Halt::Break`, whatever cause there is at that place. PC is not checked before the
    /// first step.
    #[tactic(auto, using(crate::proofs::Sessions::breaks_are))]
    pub fn go(&mut self, limit: u32) -> Result<Halt, DebugFault>
        ensures { CallDoes self.old (Go limit) (halted_or result) self.new }
    {
        self.execute_steps(limit, Breaks::Heeded)
    }

    /// Types `keys` at the current count, in order, after those that are waiting. Fails with `DebugFault::Full` exactly
    /// if the keys typed at counts up to this one would be more than 4,096; then nothing changes.
    pub fn type_keys(&mut self, keys: &Keys) -> Result<(), DebugFault>
        ensures { CallDoes self.old (TypeKeys keys.now) (done_or result) self.new }
    {
        let bytes = keys.bytes();
        if self.log.len() + bytes.len() > MAX_KEYS {
            return Err(DebugFault::Full);
        }
        // No more keys are waiting than the log has, so there is room.
        let _ = self.machine.type_keys(keys);
        note_keys(&mut self.log, self.count, bytes);
        Ok(())
    }

    /// Sets a breakpoint at the address that `word` means: `$` and 1 to 4 hexadecimal digits, or a name of the program,
    /// in which case matters. If a breakpoint is already set there, nothing changes. Fails with `DebugFault::Syntax` if
    /// the word is neither of these, with `DebugFault::Unknown` if no line of the program defines the name, and with
    /// `DebugFault::Full` if it would be the 257th breakpoint. A failed call changes nothing.
    pub fn set_break(&mut self, word: &[u8]) -> Result<(), DebugFault>
        ensures breaks { Marks self.old.breaks self.new.breaks result
            (at_place marked self.old.program.names word.now self.old.breaks) }
        ensures left { self.new ≡ record self.old { breaks = self.new.breaks } }
    {
        self.breaks.set(place_of(&self.program, word)?)
    }

    /// Clears the breakpoint at such an address, if there is one. Fails like [`Debugger::set_break`], but never with
    /// `DebugFault::Full`.
    pub fn clear_break(&mut self, word: &[u8]) -> Result<(), DebugFault>
        ensures breaks { Marks self.old.breaks self.new.breaks result
            (at_place unmarked self.old.program.names word.now self.old.breaks) }
        ensures left { self.new ≡ record self.old { breaks = self.new.breaks } }
    {
        self.breaks.clear(place_of(&self.program, word)?);
        Ok(())
    }

    /// Goes back `n` steps. It restores the newest checkpoint that is not after the new count, and replays the steps
    /// from there, typing each key again at its count. Keys typed at counts above the new one are forgotten; keys typed
    /// at it or below are kept, and so are breakpoints. Fails with `DebugFault::TooFar` exactly if the count is below
    /// `n`, or if the new count would be below [`Debugger::oldest`]. Then nothing changes.
    pub fn back(&mut self, n: u32) -> Result<(), DebugFault>
        ensures { CallDoes self.old (Back n) (done_or result) self.new }
    {
        if n > self.count - self.oldest {
            return Err(DebugFault::TooFar);
        }
        let target = self.count - n;
        let from = target - target % STRIDE;
        forget_after(&mut self.log, target);
        self.checkpoints
            .truncate(((from - self.oldest) / STRIDE) as usize + 1);
        self.checkpoints.load_newest(&mut self.machine);
        rerun(&mut self.machine, &self.program, &self.log, target);
        self.count = target;
        self.reruns = target - from;
        Ok(())
    }

    /// Returns the current count: how many steps lead from the start to the current state, 0 to 100,000,000.
    #[tactic(auto, using(crate::proofs::Sessions::count_is))]
    pub fn count(&self) -> u32
        ensures count { result ≡ self.now.count }
        ensures worlds { result ≡ length (session_of self.now).earlier }
    {
        self.count
    }

    /// Returns the lowest count that `back` can return to. It is the count of the oldest of at most eight checkpoints,
    /// which are made at counts divisible by 1,024. It never falls.
    #[tactic(auto, using(crate::proofs::Sessions::oldest_is))]
    pub fn oldest(&self) -> u32
        ensures { result ≡ (session_of self.now).oldest }
    {
        self.oldest
    }

    /// Returns how many steps the last successful call of [`Debugger::back`] replayed, 0 to 1,023, or 0 if there was no
    /// such call.
    pub fn reruns(&self) -> u32
        ensures { result ≡ self.now.reruns }
    {
        self.reruns
    }

    /// Returns how many steps the debugger's machines have ever executed, including those before the debugger was
    /// created.
    pub fn made(&self) -> u128
        ensures { result ≡ self.now.made }
    {
        self.machine.made() as u128 + self.checkpoints.made()
    }

    /// Returns the registers of the current state, before the next step. Bits 5 and 4 of the flags are not flags, and
    /// are clear.
    #[tactic(auto, using(crate::proofs::Sessions::last_is))]
    pub fn regs(&self) -> Regs
        ensures value { registers_of result ≡ (session_of self.now).last.registers }
        ensures spare { spare_bits_of result.p ≡ 0 }
    {
        self.machine.regs()
    }

    /// Returns what a screen shows in the current state: the bytes of both text pages, including those between the
    /// cells, and the switches.
    #[tactic(auto, using(crate::proofs::Sessions::last_is), unfolding(a2_bus::specs::View::memory_of))]
    pub fn view(&self) -> View<'_>
        ensures bytes1 { (a : ℕ) → a < 1024 → slice_index result.page1.now a
            ≡ ram_byte (session_of self.now).last.memory (0x0400 + a) }
        ensures bytes2 { (a : ℕ) → a < 1024 → slice_index result.page2.now a
            ≡ ram_byte (session_of self.now).last.memory (0x0800 + a) }
        ensures page1 { page_grid result.page1.now ≡ (session_of self.now).last.memory.page1 }
        ensures page2 { page_grid result.page2.now ≡ (session_of self.now).last.memory.page2 }
        ensures switches { result.switches ≡ (session_of self.now).last.memory.devices.switches }
    {
        self.machine.view()
    }

    /// Returns the processor's cycles from the start to the current state.
    #[tactic(auto, using(crate::proofs::Sessions::last_is))]
    pub fn cycles(&self) -> u64
        ensures { result ≡ (session_of self.now).last.cycles }
    {
        self.machine.cycles()
    }

    // Writes the register line of the last world.
    #[tactic(auto, using(crate::proofs::Sessions::last_is))]
    pub(crate) fn show_registers<W: Output>(&self, writer: &mut W) -> Result<(), WriteFault>
        ensures { SendsOrBreaks (W.taker writer.old) (W.taker writer.new) result (session_line self.now) }
    {
        write_registers(&self.machine, writer)
    }

    // Writes the register line of the last world, and why steps ended there.
    #[tactic(auto, using(a2_stream::proofs::Joined::broke_off, a2_stream::proofs::Joined::went_on))]
    pub(crate) fn show_halt<W: Output>(&self, halt: Halt, writer: &mut W) -> Result<(), WriteFault>
        ensures { SendsOrBreaks (W.taker writer.old) (W.taker writer.new) result (session_line self.now ++ halt_line halt) }
    {
        self.show_registers(writer)?;
        match halt {
            Halt::Stopped(cause) => write_cause(cause, writer),
            Halt::Break => put(b"BREAK\n", writer),
        }
    }

    // Writes the picture of the last world.
    #[tactic(auto, using(crate::proofs::Sessions::last_is), unfolding(crate::specs::Lines::session_picture))]
    pub(crate) fn show_picture<W: Output>(&mut self, writer: &mut W) -> Result<(), WriteFault>
        ensures sent { SendsOrBreaks (W.taker writer.old) (W.taker writer.new) result (session_picture self.old) }
        ensures kept { self.new ≡ self.old }
    {
        self.machine.print(writer)
    }
}
