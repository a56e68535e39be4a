//! A machine that runs a routine. It keeps RAM as it was at the entry and as it is now. It records which bytes were
//! stored, and what was read before it was known.

use crate::entry_ram::filled;
use crate::exit::{Exit, FallThrough, TracedStep, TrialRun};
use crate::named_inputs::add;
use crate::printing::push_printed;
use a2_asm::Program;
use a2_bus::locations::{KBD, KBDSTRB, LAST_RETURN, RETURN_ADDRESS};
use a2_bus::{AddressSpace, Bus, Keys};
use a2_cpu::run::step;
use a2_cpu::{Regs, Step, writes};
use a2_effect::Live;
use a2_footprint::{Part, mode_needs, needs, reads, sets};
use a2_hex::{Image, RAM_END};
use a2_opcode::{Instr, Mnemonic, Mode};
use a2_promise::Texts;
use a2_promise_certify::{
    ENTRY_S, Input, KnownParts, Stored, is_set, registers_read_by, registers_set_by,
};
use a2_services::live::call;
use a2_services::{Served, Service, reach, service_at};
use std::alloc::{AllocError, Global};

/// The most steps of a routine.
pub(crate) const ROUTINE_MAX_STEPS: u32 = 1_000_000;

/// The most inputs recorded that a routine reads and its promise does not name.
pub(crate) const MAX_INPUTS_READ: usize = 1024;

// No service stores at this address or above.
const REACH_END: u16 = 0x0800;

// The value of S after the routine returns.
const EXIT_S: u8 = 0xFF;

// What is known of an address.
#[derive(Clone, Copy)]
struct Mark {
    /// The instruction that begins there.
    instr: Option<Instr>,
    /// Whether a byte of an instruction is there.
    is_code: bool,
    /// Whether its contents at the entry are known: either the byte is one of the values tried, or it is the same in
    /// each run.
    is_known: bool,
    /// Whether the program lays a byte of data there that is not varied, and no run has read it yet.
    is_laid: bool,
    /// Whether a routine with a promise begins there.
    is_entry: bool,
}

// Why no step is executed: the routine leaves, or memory runs out.
#[derive(Clone, Copy)]
enum Stop {
    Left(Exit),
    Memory,
}

impl From<AllocError> for Stop {
    fn from(_error: AllocError) -> Stop {
        Stop::Memory
    }
}

/// A machine that runs a routine.
pub(crate) struct TrialMachine {
    pub alloc: Global,
    pub before: AddressSpace<Global>,
    pub now: AddressSpace<Global>,
    /// The addresses where the run stored, or called a service that may have stored.
    pub stored: Stored,
    /// The addresses where an instruction stored, so that their contents are known.
    set: Stored,
    /// What the runs read before it was set and without it being known at the entry. Each is recorded once, and at
    /// most 1,024 in all.
    pub looked: Vec<Input>,
    /// The bytes of data that the program lays and that runs read before they were set.
    pub laid: Vec<u16>,
    /// The first service that a run called.
    pub service: Option<u16>,
    /// Whether a run used TSX or TXS.
    pub has_moved_s: bool,
    /// Where a run first continued into another routine.
    pub fall_through: Option<FallThrough>,
    /// What the run printed, if this is recorded.
    pub printed: Vec<u8>,
    is_heard: bool,
    /// Whether keys are typed at the entry, so that the run may read them from the keyboard directly.
    has_keys: bool,
    marks: Vec<Mark>,
    known: KnownParts,
    /// The known parts, including those that the run set.
    known_now: KnownParts,
}

// Written by hand only for the prover: it handles this as one call, but a derived `Drop` field by field.
impl Drop for TrialMachine {
    fn drop(self) {
        let TrialMachine {
            alloc: _,
            before: _,
            now: _,
            stored: _,
            set: _,
            looked: _,
            laid: _,
            service: _,
            has_moved_s: _,
            fall_through: _,
            printed: _,
            is_heard: _,
            has_keys: _,
            marks: _,
            known: _,
            known_now: _,
        } = self;
    }
}

// The mark of an address of which nothing is known.
const NO_MARK: Mark = Mark {
    instr: None,
    is_code: false,
    is_known: false,
    is_laid: false,
    is_entry: false,
};

// Marks the bytes of a program, which are laid before it is called, and the caller's return address.
fn mark_program(marks: &mut [Mark], program: &Program<Global>) {
    for address in 0..RAM_END {
        if let Some(mark) = marks.get_mut(usize::from(address)) {
            mark.is_laid = program.image().get(address).is_some();
            mark.is_known = mark.is_laid || LAST_RETURN <= address && address <= LAST_RETURN + 1;
        }
    }
    for statement in program.statements() {
        let instr = statement.instr;
        let first = usize::from(statement.addr);
        let end = first.saturating_add(usize::from(statement.length));
        for address in first..end {
            if let Some(mark) = marks.get_mut(address) {
                mark.instr = if address == first { instr } else { None };
                mark.is_code = instr.is_some();
                mark.is_laid = mark.is_laid && !mark.is_code;
            }
        }
    }
}

/// Returns RAM and devices with this image laid, and the caller's return address on the stack.
pub(crate) fn entered(
    alloc: Global,
    image: &Image<Global>,
) -> Result<AddressSpace<Global>, AllocError> {
    let mut space = AddressSpace::new(alloc)?;
    space.load(image);
    let [low, high] = (RETURN_ADDRESS - 1).to_le_bytes();
    space.write(LAST_RETURN, low);
    space.write(LAST_RETURN + 1, high);
    Ok(space)
}

// Returns how a routine leaves if it reaches the caller's return address with this S.
fn exit_of_return(s: u8) -> Exit {
    if s == EXIT_S {
        Exit::Returned
    } else {
        Exit::Stack
    }
}

/// Returns the first 4,096 keys that a promise says are taken. They are typed when its routine is entered.
pub(crate) fn keys_taken(texts: &Texts) -> Keys {
    let mut keys = Keys::new();
    // No key is refused, since a promise cannot have more keys than fit.
    for text in &texts.takes {
        for character in &text.characters {
            let _ = keys.push(*character);
        }
    }
    keys
}

impl TrialMachine {
    /// Creates a machine for the routines of a program.
    pub fn new(alloc: Global, program: &Program<Global>) -> Result<TrialMachine, AllocError> {
        let image = filled(alloc, program.image())?;
        let before = entered(alloc, &image)?;
        let now = entered(alloc, &image)?;
        let mut marks = vec![in alloc; NO_MARK; usize::from(RAM_END)]?;
        mark_program(marks.as_mut_slice(), program);
        Ok(TrialMachine {
            alloc,
            before,
            now,
            stored: Stored::new(alloc)?,
            set: Stored::new(alloc)?,
            looked: Vec::new(alloc),
            laid: Vec::new(alloc),
            service: None,
            has_moved_s: false,
            fall_through: None,
            printed: Vec::new(alloc),
            is_heard: false,
            has_keys: false,
            marks,
            known: KnownParts::none(),
            known_now: KnownParts::none(),
        })
    }

    /// Sets the texts of a promise. What is printed is then recorded, and at most 4,096 keys wait when the routine is
    /// entered.
    pub fn set_texts(&mut self, texts: &Texts) {
        self.is_heard = !texts.prints.is_empty();
        self.has_keys = !texts.takes.is_empty();
        // They fit, since no key is waiting yet.
        let _ = self.before.type_keys(&keys_taken(texts));
    }

    // Returns whether an address belongs to the keyboard, and keys were typed.
    fn is_keyboard(&self, address: u16) -> bool {
        self.has_keys && (address == KBD || address == KBDSTRB)
    }

    /// Sets a byte of RAM as it is when a routine is entered.
    pub fn set(&mut self, address: u16, byte: u8) {
        self.before.write(address, byte);
        self.now.write(address, byte);
    }

    /// Marks an address as the beginning of a routine with a promise.
    pub fn begin_at(&mut self, address: u16) {
        if let Some(mark) = self.marks.get_mut(usize::from(address)) {
            mark.is_entry = true;
        }
    }

    /// Marks the value of an input at the entry as known.
    pub fn know(&mut self, input: Input) {
        if let Input::Byte(address) = input {
            if let Some(mark) = self.marks.get_mut(usize::from(address)) {
                mark.is_known = true;
                mark.is_laid = false;
            }
        } else if let Some(part) = input.part() {
            self.known.add(part);
        }
    }

    /// Restores RAM and keys as they were at the entry, and discards what was printed.
    pub fn restore(&mut self) {
        if self.has_keys {
            self.now.copy_from(&self.before);
        }
        self.printed.clear();
        self.stored.take_back(&mut self.now, &self.before);
        self.set.take_back(&mut self.now, &self.before);
        self.known_now = self.known;
    }

    // Returns what is known of an address; nothing is known of an address above RAM.
    fn mark(&self, address: u16) -> Option<Mark> {
        self.marks.get(usize::from(address)).copied()
    }

    // Records a store. If an instruction stores, the byte is known.
    fn note(&mut self, address: u16, is_set: bool) -> Result<(), Stop> {
        if self.is_keyboard(address) {
            return Ok(());
        }
        match self.mark(address) {
            None => return Err(Stop::Left(Exit::Device(address))),
            Some(Mark { is_code: true, .. }) => return Err(Stop::Left(Exit::Code(address))),
            Some(_) => {}
        }
        // Every address here is in RAM, so it can be marked.
        self.stored.mark(address);
        if is_set {
            self.set.mark(address);
        }
        Ok(())
    }

    // Records the stores of the next step.
    fn note_stores(&mut self, regs: &Regs) -> Result<(), Stop> {
        let targets = writes(regs, &self.now);
        for address in targets.as_slice() {
            self.note(*address, true)?;
        }
        Ok(())
    }

    // Records an input that was read before it was known.
    fn record_input(&mut self, input: Input) -> Result<(), AllocError> {
        if self.looked.len() < MAX_INPUTS_READ {
            add(&mut self.looked, input)?;
        }
        Ok(())
    }

    // Records the first read of a byte that the program lays.
    fn record_laid(&mut self, address: u16) -> Result<(), AllocError> {
        if let Some(mark) = self.marks.get_mut(usize::from(address)) {
            mark.is_laid = false;
        }
        Ok(self.laid.push(address)?)
    }

    // Records reads of memory.
    fn note_reads(&mut self, addresses: &[u16]) -> Result<(), Stop> {
        for address in addresses {
            match self.mark(*address) {
                None if self.is_keyboard(*address) => {}
                None => return Err(Stop::Left(Exit::Read(*address))),
                Some(mark) if mark.is_laid && !is_set(self.set.marks(), *address) => {
                    self.record_laid(*address)?;
                }
                Some(mark) if mark.is_known || is_set(self.set.marks(), *address) => {}
                Some(_) => self.record_input(Input::Byte(*address))?,
            }
        }
        Ok(())
    }

    // Records reads of registers and flags.
    fn note_parts(&mut self, parts: &[Part]) -> Result<(), AllocError> {
        for part in parts {
            if !self.known_now.has(*part)
                && let Some(input) = Input::of(*part)
            {
                self.record_input(input)?;
            }
        }
        Ok(())
    }

    // Records what an instruction reads and sets.
    fn record_inputs_of(&mut self, instr: Instr, regs: &Regs) -> Result<(), Stop> {
        // No such instruction has a greater value. This is for the prover: the clauses of a program do not state it.
        if instr.mode == Mode::IndirectIndexed && instr.value > 255 {
            return Ok(());
        }
        let read = reads(instr, regs, &self.now);
        self.note_reads(read.pointer.as_slice())?;
        self.note_reads(read.operand.as_slice())?;
        self.note_parts(needs(instr.mnemonic))?;
        self.note_parts(mode_needs(instr.mode))?;
        self.known_now.learn(sets(instr.mnemonic));
        Ok(())
    }

    // Records where a service may store.
    fn note_reach(&mut self, service: Service) -> Result<(), Stop> {
        for address in 0..REACH_END {
            if reach(service, address) {
                self.note(address, false)?;
            }
        }
        Ok(())
    }

    // Calls the service at PC, and adds its cycles.
    fn call_service(&mut self, service: Service, run: &mut TrialRun) -> Result<(), Stop> {
        if self.service.is_none() {
            self.service = Some(run.regs.pc);
        }
        self.note_parts(registers_read_by(service))?;
        self.note_reach(service)?;
        let printed = self.printed.len();
        if self.is_heard {
            push_printed(&mut self.printed, service, &run.regs, &self.now)?;
        }
        let mut live = Live::of(&run.regs);
        let refused = match call(service, &mut live, &mut self.now) {
            Served::Next(cycles) => {
                run.advance(live.regs(), cycles);
                self.known_now.learn(registers_set_by(service));
                return Ok(());
            }
            Served::Window => Exit::Window(run.regs.pc),
            Served::Keys => Exit::Keys(run.regs.pc),
        };
        self.printed.truncate(printed);
        Err(Stop::Left(refused))
    }

    // Executes an instruction, and adds its cycles.
    fn execute_instr(&mut self, instr: Instr, run: &mut TrialRun) -> Result<(), Stop> {
        self.has_moved_s = self.has_moved_s
            || matches!(instr.mnemonic, Mnemonic::Tsx | Mnemonic::Txs);
        self.record_inputs_of(instr, &run.regs)?;
        self.note_stores(&run.regs)?;
        let mut regs = run.regs;
        let refused = match step(&mut regs, &mut self.now) {
            Step::Next(cycles) => {
                run.advance(regs, cycles);
                self.note_fall_through(instr, run);
                return Ok(());
            }
            Step::Brk => Exit::Brk,
            Step::Decimal => Exit::Decimal,
            Step::Opcode | Step::Rom => Exit::Elsewhere(run.regs.pc),
        };
        Err(Stop::Left(refused))
    }

    // Records that the routine continued into another one without calling it. If an RTS led there, the step recorded
    // is the JSR that ends just before the other routine.
    fn note_fall_through(&mut self, instr: Instr, run: &TrialRun) {
        let to = run.regs.pc;
        let is_entry = matches!(self.mark(to), Some(Mark { is_entry: true, .. }));
        if !is_entry || run.regs.s != ENTRY_S || self.fall_through.is_some() {
            return;
        }
        self.fall_through = match (instr.mnemonic, run.from) {
            (Mnemonic::Jsr, _) | (_, None) => None,
            (Mnemonic::Rts, Some(_)) => Some(FallThrough {
                from: to.wrapping_sub(3),
                to,
            }),
            (_, Some(from)) => Some(FallThrough { from, to }),
        };
    }

    // Continues at PC, and adds the cycles of the step.
    fn go_on(&mut self, run: &mut TrialRun) -> Result<(), Stop> {
        let pc = run.regs.pc;
        if pc == RETURN_ADDRESS {
            return Err(Stop::Left(exit_of_return(run.regs.s)));
        }
        match self.mark(pc) {
            Some(mark) => match mark.instr {
                Some(instr) => self.execute_instr(instr, run),
                None => Err(Stop::Left(Exit::Elsewhere(pc))),
            },
            None => match service_at(pc) {
                Some(service) => self.call_service(service, run),
                None => Err(Stop::Left(Exit::Above(pc))),
            },
        }
    }

    /// Executes a step, and adds its cycles. Returns false if the routine leaves instead; `run` then records how.
    pub fn execute_step(&mut self, run: &mut TrialRun) -> Result<bool, AllocError> {
        match self.go_on(run) {
            Ok(()) => Ok(true),
            Err(Stop::Left(exit)) => {
                run.exit = exit;
                Ok(false)
            }
            Err(Stop::Memory) => Err(AllocError),
        }
    }
}

// How many of the last steps are reported.
const STEPS_REPORTED: u32 = 8;

/// Returns the last steps of a run of this many steps. The run begins with these registers, and with RAM as at the
/// entry.
pub(crate) fn last_steps(
    machine: &mut TrialMachine,
    regs: Regs,
    steps: u32,
) -> Result<Vec<TracedStep>, AllocError> {
    let mut run = TrialRun::at(regs);
    let mut told = Vec::new(machine.alloc);
    for left in (0..steps).rev() {
        let address = run.regs.pc;
        if !machine.execute_step(&mut run)? {
            return Ok(told);
        }
        if left < STEPS_REPORTED {
            told.push(TracedStep {
                address,
                regs: run.regs,
            })?;
        }
    }
    Ok(told)
}
