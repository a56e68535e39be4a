//! The machine: a processor on a board, with its guard and its counts.

ghost use Rattle.std.specs.Prelude.{◌≡◌, ◌≢◌, ◌+◌, ◌-◌, ◌*◌, ◌^◌, ◌<◌, ◌≤◌, ◌↔◌, ℕ, [], true, false, None, Some, Ok, IfOk, IfNone, IfSome, OnOk, OnErr, OnSome, IsOk, length, slice_range};
ghost use Rattle.a2_stream.specs.Stream.{SendsOrBreaks};
ghost use Rattle.a2_page.specs.Kept.{is_row_marked, with_row_marked, after_switch};
ghost use Rattle.a2_page.specs.Picture.{page_grid, picture, attribute_rows};
ghost use Rattle.a2_bus.specs.BoardState.{IsMarked};
ghost use Rattle.a2_bus.specs.Devices.{keys_typed};
ghost use Rattle.a2_bus.specs.Memory.{ram_end, with_ram, peek as peek_of};
ghost use Rattle.a2_bus.specs.View.{memory_of};
ghost use Rattle.a2_effect.specs.View.{spare_bits_of, registers_of};
ghost use Rattle.a2_hex.specs.Images.{held};
ghost use Rattle.a2_machine.specs.Looks.{shown_at, observer_after};
ghost use Rattle.a2_machine.specs.Meaning.{stuck};
ghost use Rattle.a2_machine.specs.Outcome.{most_cost};
ghost use Rattle.a2_machine.specs.ProgramGuard.{guard_of_program};
ghost use Rattle.a2_machine.specs.Start.{start_world, called_at};
ghost use Rattle.a2_machine.specs.State.{world_of_state, code_of, cause_of, most_steps, steps_left, raised_by, IsStep, IsMachineRun, IsRunTo, after_print};
ghost use Rattle.a2_machine.specs.declared.causes.Cause.TheVariants.{Limit};
ghost use Rattle.a2_machine.specs.declared.Stop.TheVariants.{Cause as StopCause, Breakpoint};

use crate::code_guard::{CodeGuard, NOTES};
use crate::step::cause_at;
use crate::steps::{ExecutedSteps, execute_one_step, execute_steps, execute_steps_unobserved};
use crate::{Cause, Stop};
use a2_asm::Program;
use a2_burst::{NoObserver, Observer};
use a2_bus::locations::{LAST_RETURN, RETURN_ADDRESS};
use a2_bus::{AddressSpace, Board, Bus, Keys, KeysFull};
use a2_cpu::{Breakpoints, NoBreakpoints, Regs, Status};
use a2_effect::Live;
use a2_hex::Image;
use a2_page::View;
use a2_stream::{Output, WriteFault};
use std::alloc::{AllocError, Allocator, Global};
use std::marker::Model;

/// The greatest number of steps that a machine executes from a start.
const MACHINE_MAX_STEPS: u64 = 1_000_000_000_000;

/// The address in PC if there is no program, $0300 (this project's profile).
pub const FIRST_ENTRY: u16 = 0x0300;

// The cause that stopped a run without breakpoints.
fn cause_in(stop: Stop) -> Cause
    requires { stop ≢ Breakpoint }
    ensures { StopCause result ≡ stop }
{
    match stop {
        Stop::Cause(cause) => cause,
        Stop::Breakpoint => unreachable!(),
    }
}

/// A modelled Apple II: the NMOS 6502 with 48K of RAM, keyboard, display switches and the Monitor's services. Apple II
/// Reference Manual (1979); guard, counts and limits are this project's profile. Contracts see its registers, its board, the
/// cycles and steps since its start, its guard, and the number of steps it has ever executed.
pub struct Machine<A: Allocator = Global> {
    board: Board<A>,
    guard: CodeGuard<A>,
    // Space for the notes of a long run, or empty.
    notes: Vec<u8, A>,
    // The guard that was removed last: a free run probably still keeps to its statements.
    likely: Option<CodeGuard<A>>,
    regs: Regs,
    cycles: u64,
    steps: u64,
    made: u64,
}

// Not derived, only for the prover: it treats this as one call, and a derived `drop` field by field.
impl<A: Allocator> Drop for Machine<A> {
    fn drop(self) {
        let Machine {
            board: _,
            guard: _,
            notes: _,
            likely: _,
            regs: _,
            cycles: _,
            steps: _,
            made: _,
        } = self;
    }
}

impl<A: Allocator> Model for Machine<A> {
    ghost use Rattle.std.specs.Prelude.{◌≡◌, ◌≤◌, ◌<◌, ◌*◌, ◌^◌};
    ghost use Rattle.a2_effect.specs.View.{spare_bits_of};
    ghost use Rattle.a2_machine.specs.State.{Device, most_steps};
    ghost use Rattle.a2_machine.specs.Outcome.{most_cost};

    ghost Value = { Device };

    ghost view = { λ m. record {
      state = record { regs = m.regs; bus = m.board.bus; picture = m.board.picture; cycles = m.cycles; steps = m.steps; guard = m.guard };
      made = m.made;
    } };

    ghost invariant = { λ m. (m.steps ≤ most_steps) × (m.cycles ≤ most_cost * m.steps) × (spare_bits_of m.regs.p ≡ 0) × (m.made < 2 ^ 64) };
}

impl<A: Allocator + Copy> Machine<A> {
    /// Returns the machine as it is when switched on, in memory of `alloc`: nothing loaded, no keys, PC $0300, no guard, no
    /// steps, no cycles, and every row marked. This project's profile. Fails only if memory runs out.
    pub fn new(alloc: A) -> Result<Machine<A>, AllocError>
        ensures world { IfOk result (λ m. world_of_state m.state ≡ start_world (λ _. None) 768 []) }
        ensures steps { IfOk result (λ m. m.state.steps ≡ 0) }
        ensures guard { IfOk result (λ m. m.state.guard ≡ None) }
        ensures made { IfOk result (λ m. m.made ≡ 0) }
        ensures marked { IfOk result (λ m. (row : ℕ) → row < 24 → is_row_marked m.state.picture row ≡ true) }
    {
        let mut machine = Machine::for_copies(alloc)?;
        machine.notes = Vec::with_capacity(alloc, NOTES)?;
        machine.likely = Some(CodeGuard::new(alloc)?);
        Ok(machine)
    }

    /// Returns the same machine as [`Machine::new`], but 192 KB smaller. It lacks the space for the notes that make a long
    /// [`Machine::run`] fast, and the space for a guard that was removed. It executes the same steps. Use it for copies of a
    /// running machine. This project's profile. Fails only if memory runs out.
    pub fn for_copies(alloc: A) -> Result<Machine<A>, AllocError>
        ensures world { IfOk result (λ m. world_of_state m.state ≡ start_world (λ _. None) 768 []) }
        ensures steps { IfOk result (λ m. m.state.steps ≡ 0) }
        ensures guard { IfOk result (λ m. m.state.guard ≡ None) }
        ensures made { IfOk result (λ m. m.made ≡ 0) }
        ensures marked { IfOk result (λ m. (row : ℕ) → row < 24 → is_row_marked m.state.picture row ≡ true) }
    {
        Ok(Machine {
            board: Board::new(alloc)?,
            guard: CodeGuard::new(alloc)?,
            notes: Vec::new(alloc),
            likely: None,
            regs: Regs::start(FIRST_ENTRY),
            cycles: 0,
            steps: 0,
            made: 0,
        })
    }

    /// Returns the machine as it is when switched on, in memory of `alloc`, with `image` loaded into its RAM, PC at `entry`
    /// ($0000 to $FFFF) and `keys` waiting. It has no guard, no steps and no cycles, and every row is marked. This project's
    /// profile. Fails only if memory runs out.
    #[tactic(auto, using(crate::proofs::Booting::switched_marked))]
    pub fn booted<C: Allocator>(
        alloc: A,
        image: &Image<C>,
        entry: u16,
        keys: &Keys,
    ) -> Result<Machine<A>, AllocError>
        ensures world { IfOk result (λ m. world_of_state m.state ≡ start_world (held image.now) entry keys.now) }
        ensures steps { IfOk result (λ m. m.state.steps ≡ 0) }
        ensures guard { IfOk result (λ m. m.state.guard ≡ None) }
        ensures made { IfOk result (λ m. m.made ≡ 0) }
        ensures marked { IfOk result (λ m. (row : ℕ) → row < 24 → is_row_marked m.state.picture row ≡ true) }
    {
        let mut machine = Machine::new(alloc)?;
        machine.boot(image, entry);
        // Only for the prover: a list of keys never holds more keys than fit, so all of these are accepted when none are
        // waiting.
        let _ = keys.bytes();
        let _ = machine.type_keys(keys);
        Ok(machine)
    }
}

impl<A: Allocator> Machine<A> {
    /// Resets this machine to the state after switching it on, with `image` loaded into its RAM and PC at `entry` ($0000 to
    /// $FFFF): no keys, no guard, no steps, no cycles, and every row marked. Only `made` keeps counting. This project's
    /// profile.
    pub fn boot<C: Allocator>(&mut self, image: &Image<C>, entry: u16)
        ensures world { world_of_state self.new.state ≡ start_world (held image.now) entry [] }
        ensures steps { self.new.state.steps ≡ 0 }
        ensures guard { self.new.state.guard ≡ None }
        ensures made { self.new.made ≡ self.old.made }
        ensures marked { self.new.state.picture ≡ after_switch self.old.state.picture }
    {
        self.board.load(image);
        self.guard.free();
        self.regs = Regs::start(entry);
        self.cycles = 0;
        self.steps = 0;
    }

    /// Guards `program` from the next step on, and replaces any earlier guard. An instruction may begin only where an
    /// instruction statement of the program does, and nothing can be stored at the addresses of the statements' bytes. This
    /// project's profile.
    pub fn guard<C: Allocator>(&mut self, program: &Program<C>)
        ensures { self.new ≡ (let s = self.old.state in
            record self.old { state = record s { guard = Some (guard_of_program program.now) } }) }
    {
        self.guard.set(program);
    }

    /// Removes the guard, if there is one: an instruction may begin anywhere, and code can be overwritten. A [`Machine::run`]
    /// is as fast as a guarded one as long as it keeps to the statements that were guarded. This project's profile.
    pub fn free(&mut self)
        ensures { self.new ≡ (let s = self.old.state in record self.old { state = record s { guard = None } }) }
    {
        if self.guard.guards() {
            if let Some(likely) = &mut self.likely {
                likely.copy_from(&self.guard);
            }
        }
        self.guard.free();
    }

    /// Types `keys`, in order, after the keys that are already waiting. Fails exactly if more than 4,096 would be waiting; then
    /// nothing changes. This project's profile.
    pub fn type_keys(&mut self, keys: &Keys) -> Result<(), KeysFull>
        ensures room { IsOk result ↔ (length self.old.state.bus.devices.keys + length keys.now ≤ 4096) }
        ensures typed { OnOk result (self.new ≡ (let s = self.old.state in let b = s.bus in
            record self.old { state = record s { bus = record b { devices = keys_typed b.devices keys.now } } })) }
        ensures kept { OnErr result (self.new ≡ self.old) }
    {
        self.board.type_keys(keys)
    }

    /// Returns the registers before the next step. Bits 5 and 4 of the flags byte, which are not flags, are clear, whatever was
    /// called before.
    pub fn regs(&self) -> Regs
        ensures value { result ≡ self.now.state.regs }
        ensures spare { spare_bits_of result.p ≡ 0 }
    {
        self.regs
    }

    /// Returns the number of steps since the start, 0 to 1,000,000,000,000. A step is an instruction or a call of a service.
    pub fn steps(&self) -> u64
        ensures { result ≡ self.now.state.steps }
    {
        self.steps
    }

    /// Returns the number of processor cycles that these steps took, at most 167,293 for one step. For an instruction they are
    /// those of the *MCS6500 Microcomputer Family Programming Manual* (1976), for a service those of [`a2_services::Service`].
    pub fn cycles(&self) -> u64
        ensures { result ≡ self.now.state.cycles }
    {
        self.cycles
    }

    /// Returns the number of steps this machine has ever executed, including those before a `boot`. The count stops at 2^64 -
    /// 1.
    pub fn made(&self) -> u64
        ensures { result ≡ self.now.made }
    {
        self.made
    }

    /// Returns what the processor reads and writes: RAM, keyboard and switches before the next step.
    pub fn space(&self) -> &AddressSpace<A>
        ensures { result.now ≡ self.now.state.bus }
    {
        self.board.space()
    }

    /// Returns what a screen shows now: the bytes of both text pages, including those between the cells, and the switches.
    pub fn view(&self) -> View<'_>
        ensures bytes1 { result.page1.now ≡ slice_range self.now.state.bus.bytes 0x0400 0x0800 }
        ensures bytes2 { result.page2.now ≡ slice_range self.now.state.bus.bytes 0x0800 0x0C00 }
        ensures page1 { page_grid result.page1.now ≡ (memory_of self.now.state.bus).page1 }
        ensures page2 { page_grid result.page2.now ≡ (memory_of self.now.state.bus).page2 }
        ensures switches { result.switches ≡ self.now.state.bus.devices.switches }
    {
        self.board.view()
    }

    /// Returns whether `row`, 0 to 23 from the top, may have changed since this machine last printed the screen. A row is
    /// marked if one of its cells was poked, if the machine was booted, or if the shown page differs from what was last printed
    /// of the row.
    pub fn marked(&self, row: u8) -> bool
        requires { row < 24 }
        ensures { (result ≡ true) ↔ IsMarked self.now.state.bus self.now.state.picture row }
    {
        self.board.marked(row)
    }

    /// Writes to `writer` what [`a2_page::print`] writes of the view, in the same lines, and clears all marks. Fails if a write
    /// fails: then only the beginning of these lines was written, and no row is marked.
    pub fn print<W: Output>(&mut self, writer: &mut W) -> Result<(), WriteFault>
        ensures kept { self.new ≡ after_print self.old }
        ensures sent { let memory = memory_of self.old.state.bus in SendsOrBreaks (W.taker writer.old) (W.taker writer.new) result
            (picture memory.devices.switches memory.page1 memory.page2) }
    {
        self.board.print(writer)
    }

    /// Writes to `writer` what [`a2_page::print_attributes`] writes of the view, in the same lines, and clears all marks. Fails
    /// if a write fails: then only the beginning of these lines was written, and no row is marked.
    pub fn print_attributes<W: Output>(&mut self, writer: &mut W) -> Result<(), WriteFault>
        ensures kept { self.new ≡ after_print self.old }
        ensures sent { let memory = memory_of self.old.state.bus in SendsOrBreaks (W.taker writer.old) (W.taker writer.new) result
            (attribute_rows memory.devices.switches memory.page1 memory.page2) }
    {
        self.board.print_attributes(writer)
    }

    /// Copies the registers, the board, and the cycles and steps since the start from `other`. The guard and `made` are
    /// unchanged.
    pub fn restore<C: Allocator>(&mut self, other: &Machine<C>)
        ensures { self.new ≡ (let guard = self.old.state.guard in let s = other.now.state in
            record self.old { state = record s { guard = guard } }) }
    {
        self.board.copy_from(&other.board);
        self.regs = other.regs;
        self.cycles = other.cycles;
        self.steps = other.steps;
    }

    /// Makes this machine equal to `other` in everything but `made`: registers, board, cycles and steps since the start, and
    /// guard.
    pub fn copy_from<C: Allocator>(&mut self, other: &Machine<C>)
        ensures { self.new ≡ record self.old { state = other.now.state } }
    {
        self.restore(other);
        self.guard.copy_from(&other.guard);
    }

    /// Returns the byte of RAM at `address` ($0000 to $FFFF), without an effect on any device, or `None` at or above $C000.
    /// Apple II Reference Manual (1979), the memory map.
    #[tactic(auto, using(crate::proofs::Storing::peeked))]
    pub fn peek(&self, address: u16) -> Option<u8>
        ensures value { result ≡ peek_of (memory_of self.now.state.bus) address }
        // RAM always has its full size.
        ensures size { length self.now.state.bus.bytes ≡ ram_end }
    {
        self.board.peek(address)
    }

    /// Stores `byte` in RAM at `address`, which must be below $C000, whatever the guard is. No step is executed. If the address
    /// belongs to a cell of either page, its row is marked; everything else is unchanged. This project's profile.
    #[tactic(auto, using(crate::proofs::Storing::stored))]
    pub fn poke(&mut self, address: u16, byte: u8)
        requires { address < ram_end }
        ensures memory { memory_of self.new.state.bus ≡ with_ram (memory_of self.old.state.bus) address byte }
        ensures marked { self.new.state.picture ≡ with_row_marked address self.old.state.picture }
        ensures left { self.new ≡ (let s = self.old.state in let new = self.new.state in
            record self.old { state = record s { bus = new.bus; picture = new.picture } }) }
    {
        self.board.write(address, byte);
    }

    /// Sets PC to `address` ($0000 to $FFFF) and the stack to its initial state: S = $FD, and the bytes $68 and $FF at $01FE
    /// and $01FF, with which the last RTS returns to $FF69. No step is executed, and everything else is unchanged. This
    /// project's profile.
    #[tactic(auto, using(crate::proofs::Storing::stack_unmarked))]
    pub fn set_pc(&mut self, address: u16)
        ensures world { world_of_state self.new.state ≡ called_at address (world_of_state self.old.state) }
        ensures left { self.new ≡ (let s = self.old.state in let r = s.regs in let bus = self.new.state.bus in
            record self.old { state = record s { regs = record r { pc = address; s = 0xFD }; bus = bus } }) }
    {
        self.regs.pc = address;
        self.regs.s = 0xFD;
        let [low, high] = (RETURN_ADDRESS - 1).to_le_bytes();
        self.board.write(LAST_RETURN, low);
        self.board.write(LAST_RETURN + 1, high);
    }

    /// Sets all registers, including PC, S and the flags; bits 5 and 4 of the flags byte, which are not flags, are cleared. No
    /// step is executed, and everything else is unchanged, including RAM and the guard. This project's profile.
    pub fn set_regs(&mut self, regs: Regs)
        ensures registers { registers_of self.new.state.regs ≡ registers_of regs }
        ensures left { self.new ≡ (let s = self.old.state in record self.old { state = record s { regs = self.new.state.regs } }) }
    {
        let flags = regs.p;
        let p = Status::pack(
            flags.negative(),
            flags.overflow(),
            flags.decimal(),
            flags.interrupt(),
            flags.zero(),
            flags.carry(),
        );
        self.regs = Regs { p, ..regs };
    }

    // The number of steps that a call with this limit may execute.
    fn most_within(&self, limit: u64) -> u64
        ensures { result ≡ steps_left limit self.now.state }
    {
        limit.min(MACHINE_MAX_STEPS - self.steps)
    }

    // Counts executed steps.
    fn count(&mut self, done: ExecutedSteps)
        requires steps { self.old.state.steps + done.made ≤ most_steps }
        requires cycles { done.cycles ≤ most_cost * done.made }
        ensures counted { self.new ≡ (let s = self.old.state in record {
          state = record s { cycles = s.cycles + done.cycles; steps = s.steps + done.made };
          made = raised_by self.old.made done.made;
        }) }
    {
        self.cycles += done.cycles;
        self.steps += done.made;
        self.made = self.made.saturating_add(done.made);
    }
}

// Whoever makes steps can copy the allocator. The compiler makes an instance of a generic function for each crate in which a
// caller drops `Copy` from the bounds of its allocator; two instances of a burst would be called instead of inlined.
impl<A: Allocator + Copy> Machine<A> {
    // Executes at most this many steps. Executes fewer only if the machine is stuck or a step reached a breakpoint, and then
    // returns that.
    fn make<B: Breakpoints, O: Observer>(
        &mut self,
        limit: u64,
        breakpoints: &B,
        observer: &mut O,
    ) -> Option<Stop>
        ensures made { Rattle.a2_machine.specs.State.IsPartOfRun (B.is_breakpoint breakpoints.now) limit self.old self.new result }
        ensures seen { observer.new ≡ observer_after O.seen (shown_at (code_of self.old.state) (world_of_state self.old.state))
            observer.old (self.new.state.steps - self.old.state.steps) }
    {
        let most = self.most_within(limit);
        let done = execute_steps(
            &mut self.regs,
            self.board.space_mut(),
            &self.guard,
            most,
            breakpoints,
            observer,
        );
        self.count(done);
        done.stop
    }

    // Does the same without breakpoints and without an observer.
    fn execute_unobserved(&mut self, limit: u64) -> Option<Stop>
        ensures { Rattle.a2_machine.specs.State.IsPartOfRun (λ address. false) limit self.old self.new result }
    {
        let most = self.most_within(limit);
        let done = execute_steps_unobserved(
            &mut self.regs,
            self.board.space_mut(),
            &self.guard,
            &self.likely,
            &mut self.notes,
            most,
        );
        self.count(done);
        done.stop
    }

    // Why a run ends here: the machine is stuck, or no more steps are allowed.
    fn stop(&self) -> Cause
        ensures stuck { IfSome (stuck (code_of self.now.state) (world_of_state self.now.state)) (λ cause. result ≡ cause) }
        ensures limit { IfNone (stuck (code_of self.now.state) (world_of_state self.now.state)) (result ≡ Limit) }
    {
        cause_at(&Live::of(&self.regs), self.board.space(), &self.guard).unwrap_or(Cause::Limit)
    }

    /// Executes one step, which is an instruction or a service, and returns `None`. If a [`Cause`] holds, returns the first one
    /// instead, and nothing changes. Returns `Cause::Limit` only after 1,000,000,000,000 steps. This project's profile.
    #[tactic(auto, using(crate::proofs::Making::cause_none, crate::proofs::Making::cause_last))]
    pub fn step(&mut self) -> Option<Cause>
        ensures cause { result ≡ cause_of self.old.state }
        ensures made { IfNone result (IsStep self.old self.new) }
        ensures stuck { IfSome result (λ _. self.new ≡ self.old) }
    {
        if self.steps < MACHINE_MAX_STEPS {
            return match execute_one_step(&mut self.regs, self.board.space_mut(), &self.guard) {
                Ok(cycles) => {
                    self.cycles += u64::from(cycles);
                    self.steps += 1;
                    self.made = self.made.saturating_add(1);
                    None
                }
                Err(cause) => Some(cause),
            };
        }
        Some(self.stop())
    }

    /// Executes steps until a cause holds or this call has executed `limit` steps, and returns the first [`Cause`] that holds
    /// then: `Cause::Limit` only if no other one does. The limit is 0 to 2^32 - 1; at most 1,000,000,000,000 steps are executed
    /// from the start. This project's profile.
    pub fn run(&mut self, limit: u32) -> Cause
        ensures { IsMachineRun limit self.old self.new result }
    {
        if let Some(stop) = self.execute_unobserved(u64::from(limit)) {
            return cause_in(stop);
        }
        self.stop()
    }

    /// Executes steps as [`Machine::run`] does, and returns what it returns. `observer` sees each step as it is executed,
    /// including calls of services. This project's profile.
    pub fn run_observed<O: Observer>(&mut self, limit: u32, observer: &mut O) -> Cause
        ensures run { IsMachineRun limit self.old self.new result }
        ensures seen { observer.new ≡ observer_after O.seen (shown_at (code_of self.old.state) (world_of_state self.old.state))
            observer.old (self.new.state.steps - self.old.state.steps) }
    {
        cause_in(self.run_to_observed(limit, &NoBreakpoints, observer))
    }

    /// Executes steps as [`Machine::run`] does, but stops after a step that reaches one of `breakpoints`. It then returns
    /// [`Stop::Breakpoint`], whatever cause holds there, including `Cause::Limit`. PC is not checked before the first step. If
    /// no step reaches a breakpoint, it returns the cause that `run` returns. This project's profile.
    pub fn run_to<B: Breakpoints>(&mut self, limit: u32, breakpoints: &B) -> Stop
        ensures { IsRunTo (B.is_breakpoint breakpoints.now) limit self.old self.new result }
    {
        self.run_to_observed(limit, breakpoints, &mut NoObserver)
    }

    /// Executes steps as [`Machine::run_to`] does, and returns what it returns. `observer` sees each step as it is executed,
    /// including calls of services. This project's profile.
    pub fn run_to_observed<B: Breakpoints, O: Observer>(
        &mut self,
        limit: u32,
        breakpoints: &B,
        observer: &mut O,
    ) -> Stop
        ensures run { IsRunTo (B.is_breakpoint breakpoints.now) limit self.old self.new result }
        ensures seen { observer.new ≡ observer_after O.seen (shown_at (code_of self.old.state) (world_of_state self.old.state))
            observer.old (self.new.state.steps - self.old.state.steps) }
    {
        if let Some(stop) = self.make(u64::from(limit), breakpoints, observer) {
            return stop;
        }
        Stop::Cause(self.stop())
    }
}
