//! Which steps need a check for a stop when a run is executed in bursts.

ghost use Rattle.std.specs.Prelude.{◌≡◌, ◌⊎◌, ℕ, true, false, [], length, IfOk, IfSome};
ghost use Rattle.std.specs.List.{list_any, list_all};
ghost use Rattle.a2_machine.specs.State.{world_of_state};
ghost use Rattle.a2_debugger.specs.Stops.{Moment, is_hit};
ghost use Rattle.a2_debugger.specs.Alerts as alert;
ghost use Rattle.a2_debugger.specs.Alerts.{is_marked, IsCalmStatement, IsCalm, MarksAllBut, AreAlerts};

use crate::stops::{Break, Watch, ram_of};
use a2_asm::{Program, Statement};
use a2_effect::stores_operand;
use a2_machine::Machine;
use a2_opcode::{Instr, Mnemonic, Mode, decode};
use a2_services::service_at;
use std::alloc::{AllocError, Allocator, Global};
use std::marker::Model;

/// The number of addresses.
const ADDRESSES: usize = 0x1_0000;

/// For each address, whether it has a breakpoint and whether a step there may change something watched.
pub struct Marks<A: Allocator = Global> {
    stops: Vec<bool, A>,
    stores: Vec<bool, A>,
}

// Not derived, only for the prover: it treats this as one call, and a derived `drop` field by field.
impl<A: Allocator> Drop for Marks<A> {
    fn drop(self) {
        let Marks {
            stops: _,
            stores: _,
        } = self;
    }
}

impl<A: Allocator> Model for Marks<A> {
    ghost use Rattle.std.specs.Prelude.{◌≡◌, length};
    ghost use Rattle.a2_debugger.specs.Alerts.{Alerts as Seen};

    ghost Value = { Seen };

    ghost view = { λ m. record { stops = m.stops.items; stores = m.stores.items } };

    ghost invariant = { λ m. (length m.stops.items ≡ 65536) × (length m.stores.items ≡ 65536) };
}

/// The same marks in the form that each step reads: all addresses are present, so a check is a single load without a bounds
/// check.
#[derive(Drop)]
pub struct Alerts<'a> {
    stops: &'a [bool; ADDRESSES],
    stores: &'a [bool; ADDRESSES],
}

impl<'a> Model for Alerts<'a> {
    ghost use Rattle.std.specs.Prelude.{◌≡◌, length};
    ghost use Rattle.a2_debugger.specs.Alerts.{Alerts as Seen};

    ghost Value = { Seen };

    ghost view = { λ a. record { stops = a.stops.now; stores = a.stores.now } };

    ghost invariant = { λ a. (length a.stops.now ≡ 65536) × (length a.stores.now ≡ 65536) };
}

// Whether bytes are watched, and an address is among them.
fn is_in(watch: &Watch, address: u16) -> bool
    ensures { result ≡ alert.is_in watch.now address }
{
    match *watch {
        Watch::OfBytes(span) => span.first <= address && address <= span.last,
        _ => false,
    }
}

// Whether the byte at an address is watched.
pub(crate) fn is_watched(watches: &[Watch], address: u16) -> bool
    ensures { result ≡ alert.is_watched watches.now address }
{
    watches.iter().any(|watch| is_in(watch, address))
}

// Whether only bytes are watched.
fn are_bytes(watches: &[Watch]) -> bool
    ensures { result ≡ list_all alert.is_of_bytes watches.now }
{
    watches
        .iter()
        .all(|watch| matches!(watch, Watch::OfBytes(_)))
}

// Whether an instruction's operand is never at a watched address, whatever registers and memory hold.
fn spares_operand(instr: Instr, watches: &[Watch]) -> bool
    ensures { result ≡ true → alert.OperandNeverWatched watches.now instr }
{
    match instr.mode {
        Mode::Accumulator => true,
        Mode::ZeroPage | Mode::Absolute => !is_watched(watches, instr.value),
        _ => false,
    }
}

// Whether an instruction never stores or pushes at a watched address, whatever registers and memory hold.
#[tactic(auto, unfolding(a2_effect::specs::Effect::effect_of))]
fn spares(instr: Instr, watches: &[Watch]) -> bool
    ensures { result ≡ true → alert.NeverChangesWatched watches.now instr }
{
    match instr.mnemonic {
        Mnemonic::Pha | Mnemonic::Php | Mnemonic::Jsr => false,
        _ if stores_operand(instr.mnemonic) => spares_operand(instr, watches),
        _ => true,
    }
}

// The instruction encoded by a statement's bytes in the machine's memory.
fn instruction_in_memory<A: Allocator + Copy>(
    statement: &Statement,
    machine: &Machine<A>,
) -> Option<Instr>
    ensures { IfSome result (λ instr. alert.IsFetchedAt (world_of_state machine.now.state).memory statement.now instr) }
{
    let first = usize::from(statement.addr);
    let bytes = ram_of(machine).get(first..first + usize::from(statement.length))?;
    decode(bytes, statement.addr)
}

// Whether a statement is an instruction that never stores at a watched byte, and not a service.
fn is_calm<A: Allocator + Copy>(
    statement: &Statement,
    machine: &Machine<A>,
    watches: &[Watch],
) -> bool
    ensures { result ≡ true → IsCalmStatement watches.now (world_of_state machine.now.state).memory statement.now }
{
    if statement.instr.is_none() || service_at(statement.addr).is_some() {
        return false;
    }
    match instruction_in_memory(statement, machine) {
        Some(instr) => spares(instr, watches),
        None => false,
    }
}

// Clears the mark at a statement's first byte if this holds for the statement.
fn calm<A: Allocator + Copy>(
    marks: &mut [bool],
    statement: &Statement,
    machine: &Machine<A>,
    watches: &[Watch],
)
    requires { length marks.old ≡ 65536 }
    ensures { (address : ℕ) → is_marked marks.new address ≡ false → (is_marked marks.old address ≡ false)
        ⊎ ((statement.now.addr ≡ address) × IsCalmStatement watches.now (world_of_state machine.now.state).memory statement.now) }
{
    if is_calm(statement, machine, watches) {
        marks[usize::from(statement.addr)] = false;
    }
}

// Does the same for each statement.
fn calm_all<A: Allocator + Copy>(
    marks: &mut [bool],
    statements: &[Statement],
    machine: &Machine<A>,
    watches: &[Watch],
)
    requires size { length marks.old ≡ 65536 }
    requires all { MarksAllBut watches.now statements.now (world_of_state machine.now.state).memory marks.old }
    ensures { MarksAllBut watches.now statements.now (world_of_state machine.now.state).memory marks.new }
{
    for statement in statements {
        calm(marks, statement, machine, watches);
    }
}

// Sets or clears the marks of all addresses.
fn fill(marks: &mut [bool], mark: bool)
    requires { length marks.old ≡ 65536 }
    ensures { (address : ℕ) → is_marked marks.new address ≡ false → mark ≡ false }
{
    marks.fill(mark);
}

// Marks the addresses where a step may change something watched. If only bytes are watched, these are all except those of
// instructions that never do.
fn mark_stores<A: Allocator + Copy>(
    marks: &mut [bool],
    may_change_code: bool,
    statements: &[Statement],
    machine: &Machine<A>,
    watches: &[Watch],
)
    requires { length marks.old ≡ 65536 }
    ensures { (address : ℕ) → is_marked marks.new address ≡ false
        → (watches.now ≡ [])
        ⊎ ((may_change_code ≡ false) × (list_all alert.is_of_bytes watches.now ≡ true)
        × IsCalm watches.now statements.now (world_of_state machine.now.state).memory address) }
{
    fill(marks, !watches.is_empty());
    if !may_change_code && !watches.is_empty() && are_bytes(watches) {
        calm_all(marks, statements, machine, watches);
    }
}

// Marks the addresses of breakpoints.
fn mark_stops(marks: &mut [bool], breaks: &[Break])
    requires { length marks.old ≡ 65536 }
    ensures { (moment : Moment) → list_any (is_hit moment) breaks.now ≡ true → is_marked marks.new moment.pc ≡ true }
{
    marks.fill(false);
    for place in breaks {
        marks[usize::from(place.address)] = true;
    }
}

// Returns marks in which no address is marked.
fn no_marks<A: Allocator + Copy>(alloc: A) -> Result<Vec<bool, A>, AllocError>
    ensures { IfOk result (λ marks. length marks.items ≡ 65536) }
{
    vec![in alloc; false; ADDRESSES]
}

// The marks as an array of all addresses.
fn whole(marks: &[bool]) -> &[bool; ADDRESSES]
    requires { length marks.now ≡ 65536 }
    ensures { result.now ≡ marks.now }
{
    match marks.first_chunk() {
        Some(marks) => marks,
        None => unreachable!(),
    }
}

impl<A: Allocator + Copy> Marks<A> {
    /// Returns marks in which no address is marked. Fails only if memory runs out.
    pub fn new(alloc: A) -> Result<Marks<A>, AllocError> {
        Ok(Marks {
            stops: no_marks(alloc)?,
            stores: no_marks(alloc)?,
        })
    }
}

impl<A: Allocator + Copy> Marks<A> {
    /// Marks the addresses of breakpoints and, if something is watched, all addresses where a step may change it. If only bytes are
    /// watched and the program's code cannot change, the exceptions are its instructions, as found in the machine's memory, that store
    /// nothing, or that store only at a fixed operand address that is not watched.
    pub fn set<C: Allocator + Copy>(
        &mut self,
        may_change_code: bool,
        program: &Program<C>,
        machine: &Machine<C>,
        breaks: &[Break],
        watches: &[Watch],
    )
        ensures { AreAlerts may_change_code program.now.statements (world_of_state machine.now.state).memory breaks.now watches.now self.new }
    {
        mark_stops(self.stops.as_mut_slice(), breaks);
        mark_stores(
            self.stores.as_mut_slice(),
            may_change_code,
            program.statements(),
            machine,
            watches,
        );
    }

    /// Returns the marks in the form that each step reads.
    pub fn lent(&self) -> Alerts<'_>
        ensures { result ≡ self.now }
    {
        Alerts {
            stops: whole(self.stops.as_slice()),
            stores: whole(self.stores.as_slice()),
        }
    }
}

impl Alerts<'_> {
    /// Returns whether an address has a breakpoint.
    #[inline(always)]
    pub fn has_stop(&self, address: u16) -> bool
        ensures { result ≡ is_marked self.now.stops address }
    {
        self.stops[usize::from(address)]
    }

    /// Returns whether a step at an address may change something watched.
    #[inline(always)]
    pub fn may_change(&self, address: u16) -> bool
        ensures { result ≡ is_marked self.now.stores address }
    {
        self.stores[usize::from(address)]
    }
}
