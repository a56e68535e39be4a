//! Stops of a run: breakpoints with their conditions, and what is watched: bytes, registers and flags.

ghost use Rattle.std.specs.Prelude.{◌≡◌, ◌||◌, slice_get};
ghost use Rattle.std.specs.List.{list_any};
ghost use Rattle.a2_bus.specs.Memory.{peek};
ghost use Rattle.a2_machine.specs.State.{world_of_state};
ghost use Rattle.a2_debugger.specs.Alerts.{moment_of_declared, moment_after};
ghost use Rattle.a2_debugger.specs.Stops as stop;

use a2_burst::StepView;
use a2_effect::Status;
use a2_machine::Machine;
use a2_symbols::Span;
use std::alloc::Allocator;

// The greatest number of bytes in one watched span.
const MOST_WATCHED: u16 = 256;

/// An 8-bit register.
#[derive(Clone, Copy)]
pub enum Register {
    A,
    X,
    Y,
    S,
    P,
}

/// A flag of P.
#[derive(Clone, Copy)]
pub enum Flag {
    N,
    V,
    D,
    I,
    Z,
    C,
}

/// The subject of a condition.
#[derive(Clone, Copy)]
pub enum Subject {
    /// The value of a register.
    InRegister(Register),
    /// The value of a flag, 0 or 1.
    InFlag(Flag),
    /// The byte at an address.
    InByte(u16),
}

/// The relation of a condition.
#[derive(Clone, Copy)]
pub enum Relation {
    Equal,
    Other,
    Less,
    More,
}

/// A condition that must hold for a stop at a breakpoint.
#[derive(Clone, Copy)]
pub struct Condition {
    pub subject: Subject,
    pub relation: Relation,
    pub value: u16,
}

/// A breakpoint.
#[derive(Clone, Copy, Default)]
pub struct Break {
    pub address: u16,
    /// If present, only worlds in which it holds are stops.
    pub condition: Option<Condition>,
}

/// What is watched.
#[derive(Clone, Copy)]
pub enum Watch {
    /// A register.
    OfRegister(Register),
    /// A flag.
    OfFlag(Flag),
    /// The bytes from one address to another.
    OfBytes(Span),
}

// (an `ArrayVec` needs it)
impl Default for Watch {
    fn default() -> Watch {
        Watch::OfBytes(Span::default())
    }
}

/// The state that decides a stop: the registers as bytes, and RAM.
#[derive(Clone, Copy)]
pub struct Moment<'a> {
    pub pc: u16,
    pub a: u8,
    pub x: u8,
    pub y: u8,
    pub s: u8,
    /// The flags, as the byte that PHP pushes.
    pub p: u8,
    /// The 49,152 bytes from address 0 on.
    pub ram: &'a [u8],
}

impl<'a> Moment<'a> {
    /// Returns the state of a machine.
    pub fn of<A: Allocator + Copy>(machine: &'a Machine<A>) -> Moment<'a>
        ensures { moment_of_declared result ≡ stop.moment_of (world_of_state machine.now.state) }
    {
        let regs = machine.regs();
        Moment {
            pc: regs.pc,
            a: regs.a,
            x: regs.x,
            y: regs.y,
            s: regs.s,
            p: regs.p.pushed(),
            ram: ram_of(machine),
        }
    }

    /// Returns the state after a step, as an observer is shown it.
    #[inline(always)]
    pub fn following(look: StepView, ram: &'a [u8]) -> Moment<'a>
        ensures { moment_of_declared result ≡ moment_after (record { look = look; ram = slice_get ram.now }) }
    {
        Moment {
            pc: look.next_pc,
            a: look.next_a,
            x: look.next_x,
            y: look.next_y,
            s: look.next_s,
            p: look.next_p,
            ram,
        }
    }
}

/// Returns a machine's RAM.
pub fn ram_of<A: Allocator + Copy>(machine: &Machine<A>) -> &[u8]
    ensures { slice_get result.now ≡ peek (world_of_state machine.now.state).memory }
{
    machine.space().ram()
}

// The byte of RAM at an address, if there is one.
fn byte_at(ram: &[u8], address: u16) -> Option<u8>
    ensures { result ≡ slice_get ram.now address }
{
    ram.get(usize::from(address)).copied()
}

/// Returns the value of a register.
pub fn in_register(register: Register, moment: &Moment) -> u8
    ensures { result ≡ stop.in_register register (moment_of_declared moment.now) }
{
    match register {
        Register::A => moment.a,
        Register::X => moment.x,
        Register::Y => moment.y,
        Register::S => moment.s,
        Register::P => moment.p,
    }
}

/// Returns the value of a flag, 0 or 1.
pub fn in_flag(flag: Flag, moment: &Moment) -> u8
    ensures { result ≡ stop.in_flag flag (moment_of_declared moment.now) }
{
    let flags = Status::pulled(moment.p);
    u8::from(match flag {
        Flag::N => flags.negative(),
        Flag::V => flags.overflow(),
        Flag::D => flags.decimal(),
        Flag::I => flags.interrupt(),
        Flag::Z => flags.zero(),
        Flag::C => flags.carry(),
    })
}

/// Returns the value of a condition's subject, if there is such a byte.
pub fn value_of(subject: Subject, moment: &Moment) -> Option<u8>
    ensures { result ≡ stop.value_of subject (moment_of_declared moment.now) }
{
    match subject {
        Subject::InRegister(register) => Some(in_register(register, moment)),
        Subject::InFlag(flag) => Some(in_flag(flag, moment)),
        Subject::InByte(address) => byte_at(moment.ram, address),
    }
}

// Whether a value is in this relation to another.
fn compares(relation: Relation, value: u8, than: u16) -> bool
    ensures { result ≡ stop.compares relation value than }
{
    let value = u16::from(value);
    match relation {
        Relation::Equal => value == than,
        Relation::Other => value != than,
        Relation::Less => value < than,
        Relation::More => value > than,
    }
}

// Whether a condition holds, if there is one.
fn holds(condition: Option<Condition>, moment: &Moment) -> bool
    ensures { result ≡ stop.holds condition (moment_of_declared moment.now) }
{
    let Some(condition) = condition else {
        return true;
    };
    match value_of(condition.subject, moment) {
        Some(value) => compares(condition.relation, value, condition.value),
        None => false,
    }
}

/// Returns whether PC is at a breakpoint and its condition holds.
pub fn is_hit(place: &Break, moment: &Moment) -> bool
    ensures { result ≡ stop.is_hit (moment_of_declared moment.now) place.now }
{
    place.address == moment.pc && holds(place.condition, moment)
}

// Whether both bytes exist and differ.
fn bytes_differ(one: Option<u8>, other: Option<u8>) -> bool
    ensures { result ≡ stop.bytes_differ one other }
{
    match (one, other) {
        (Some(one), Some(other)) => one != other,
        _ => false,
    }
}

// Whether this was found before, or the byte at an address has changed.
fn is_changed_too(was: bool, address: u16, before: &[u8], ram: &[u8]) -> bool
    ensures { result ≡ (was || stop.is_changed address (slice_get before.now) (slice_get ram.now)) }
{
    was || bytes_differ(byte_at(ram, address), byte_at(before, address))
}

/// Returns whether one of these bytes of RAM has changed.
pub fn is_changed_in(span: &Span, before: &[u8], ram: &[u8]) -> bool
    ensures { result ≡ stop.is_span_changed (slice_get before.now) (slice_get ram.now) span.now }
{
    let first = u32::from(span.first);
    let mut is_changed = false;
    for offset in 0..(u32::from(span.last) + 1).saturating_sub(first) {
        is_changed = is_changed_too(is_changed, (first + offset) as u16, before, ram);
    }
    is_changed
}

/// Returns whether PC is at one of these breakpoints and its condition holds.
pub fn is_at_break(breaks: &[Break], moment: &Moment) -> bool
    ensures { result ≡ list_any (stop.is_hit (moment_of_declared moment.now)) breaks.now }
{
    breaks.iter().any(|place| is_hit(place, moment))
}

/// Returns whether a watched register or flag, or one of the watched bytes of RAM, has changed.
pub fn is_watch_changed(watch: &Watch, before: &Moment, now: &Moment) -> bool
    ensures { result ≡ stop.is_watch_changed (moment_of_declared before.now) (moment_of_declared now.now) watch.now }
{
    match *watch {
        Watch::OfRegister(register) => {
            in_register(register, now) != in_register(register, before)
        }
        Watch::OfFlag(flag) => in_flag(flag, now) != in_flag(flag, before),
        Watch::OfBytes(span) => is_changed_in(&span, before.ram, now.ram),
    }
}

/// Returns whether one of these has changed.
pub fn are_changed(watches: &[Watch], before: &Moment, now: &Moment) -> bool
    ensures { result ≡ list_any (stop.is_watch_changed (moment_of_declared before.now) (moment_of_declared now.now)) watches.now }
{
    watches
        .iter()
        .any(|watch| is_watch_changed(watch, before, now))
}

/// Returns the span if it is small enough to be watched, which means at most 256 bytes.
pub fn watchable(span: Span) -> Option<Watch>
    ensures { result ≡ stop.watchable span }
{
    if u32::from(span.last) < u32::from(span.first) + u32::from(MOST_WATCHED) {
        Some(Watch::OfBytes(span))
    } else {
        None
    }
}

// Whether both are the same register.
fn is_same_register(one: Register, other: Register) -> bool
    ensures { result ≡ stop.is_same_register one other }
{
    match one {
        Register::A => matches!(other, Register::A),
        Register::X => matches!(other, Register::X),
        Register::Y => matches!(other, Register::Y),
        Register::S => matches!(other, Register::S),
        Register::P => matches!(other, Register::P),
    }
}

// Whether both are the same flag.
fn is_same_flag(one: Flag, other: Flag) -> bool
    ensures { result ≡ stop.is_same_flag one other }
{
    match one {
        Flag::N => matches!(other, Flag::N),
        Flag::V => matches!(other, Flag::V),
        Flag::D => matches!(other, Flag::D),
        Flag::I => matches!(other, Flag::I),
        Flag::Z => matches!(other, Flag::Z),
        Flag::C => matches!(other, Flag::C),
    }
}

/// Returns whether both watch the same.
pub fn is_same_watch(one: Watch, other: &Watch) -> bool
    ensures { result ≡ stop.is_same_watch one other.now }
{
    match one {
        Watch::OfRegister(one) => match *other {
            Watch::OfRegister(other) => is_same_register(one, other),
            _ => false,
        },
        Watch::OfFlag(one) => match *other {
            Watch::OfFlag(other) => is_same_flag(one, other),
            _ => false,
        },
        Watch::OfBytes(one) => match *other {
            Watch::OfBytes(other) => other.first == one.first && other.last == one.last,
            _ => false,
        },
    }
}
