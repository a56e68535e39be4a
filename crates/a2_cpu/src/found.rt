//! Decodes the instruction at PC and finds its operand.

ghost use Rattle.std.specs.Prelude.{◌≡◌, ◌+◌, ◌*◌, ◌%◌, ◌<◌, ◌≤◌, ◌&&◌, IfOk, slice_get, option_map, Some};
ghost use Rattle.a2_bus.specs.BusState.{BusState};
ghost use Rattle.a2_effect.specs.Place.{place_of, base_address, crosses_page};
ghost use Rattle.a2_effect.specs.Registers.{one_if};
ghost use Rattle.a2_effect.specs.Live.{live_registers};
ghost use Rattle.a2_effect.specs.Operands.{operand_with};
ghost use Rattle.a2_cpu.specs.Code.{operand_byte_at, word_at, place_for, operand_for, operand_of, operand_at, found_for, found_of};
ghost use Rattle.a2_opcode.specs.Encoding.{fetched};

use crate::GuardedStep;
use a2_bus::Bus;
use a2_effect::Live;
use a2_effect::modes::{
    Absolute, AbsoluteX, AbsoluteY, AtAddress, Bytes, IndexedIndirect, IndirectIndexed, Site,
    ZeroPage, ZeroPageX, ZeroPageY, is_in_another_page,
};
use a2_opcode::{Mnemonic, Mode, branch_target, row_of};

/// Where an operand is.
#[derive(Clone, Copy)]
pub(crate) enum Place {
    /// There is no operand.
    Nowhere,
    /// The operand is A.
    Accumulator,
    /// The operand is this byte.
    Literal(u8),
    /// The operand is the byte at this address, or the address itself.
    Address(u16),
    /// The target is the address held at this one.
    Pointer(u16),
}

/// An operand: where it is, and the address before indexing.
#[derive(Clone, Copy)]
pub(crate) struct Operand {
    pub place: Place,
    pub base: u16,
}

/// An instruction found at PC, with its cycles, including the one for a crossed page, and the next instruction's
/// address.
#[derive(Clone, Copy)]
pub(crate) struct Found {
    pub mnemonic: Mnemonic,
    pub place: Place,
    pub cycles: u32,
    pub next: u16,
}

// Returns the byte after an opcode.
#[inline(always)]
fn byte<B: Bus>(bus: &B, pc: u16) -> Option<u8>
    ensures { result ≡ operand_byte_at (slice_get (B.state bus.now).bytes) pc }
{
    bus.peek(pc.wrapping_add(1))
}

// Returns the two bytes after an opcode as a word, low byte first.
#[inline(always)]
fn word<B: Bus>(bus: &B, pc: u16) -> Option<u16>
    ensures { result ≡ word_at (slice_get (B.state bus.now).bytes) pc }
{
    let low = bus.peek(pc.wrapping_add(1))?;
    let high = bus.peek(pc.wrapping_add(2))?;
    Some(u16::from(low) + 256 * u16::from(high))
}

// Returns whether a place is in another page than an address.
#[inline(always)]
fn crosses(base: u16, place: Place) -> bool
    ensures { result ≡ crosses_page base (place_for place) }
{
    match place {
        Place::Address(to) => is_in_another_page(base, to),
        Place::Nowhere | Place::Accumulator | Place::Literal(_) | Place::Pointer(_) => false,
    }
}

// What a mode examines on a bus: page 0, and the byte or the word after the opcode, already fetched.
#[derive(Clone, Copy)]
struct OperandBytes<'a, B: Bus> {
    bus: &'a B,
    byte: u8,
    word: u16,
}

impl<'a, B: Bus> Bytes for OperandBytes<'a, B> {
    ghost Memory = { BusState };

    ghost access = { B.access };

    ghost memory = { λ shown. B.state shown.bus.now };

    ghost byte = { λ shown. shown.byte };

    ghost word = { λ shown. shown.word };

    ghost AreThere = { λ shown. Unit {0} };

    #[inline(always)]
    fn byte(&self) -> u8 {
        self.byte
    }

    #[inline(always)]
    fn word(&self) -> u16 {
        self.word
    }

    #[inline(always)]
    fn low_byte(&self, address: u8) -> u8 {
        self.bus.peek(u16::from(address)).unwrap_or(0)
    }
}

// Returns an operand that exists.
#[inline(always)]
fn with_base(place: Place, base: u16) -> Option<Operand>
    ensures { result ≡ Some (record { place = place; base = base }) }
{
    Some(Operand { place, base })
}

// Returns an operand at an address, found from the byte or the word after the opcode.
#[inline(always)]
fn at_address<P: AtAddress, B: Bus>(live: &Live, bus: &B, byte: u8, word: u16) -> Option<Operand>
    ensures { operand_for result
        ≡ Some (operand_of B.access (B.state bus.now) (live_registers live.now) P.mode (operand_with byte word live.now.pc P.mode)) }
{
    let Site { place, base } = P::find(live, &OperandBytes { bus, byte, word });
    with_base(Place::Address(place), base)
}

/// Returns the operand of a mode at PC, if all bytes of the instruction exist.
#[inline(always)]
#[tactic(auto, unfolding(crate::specs::Code::operand_at, crate::specs::Code::value_at))]
fn locate<B: Bus>(mode: Mode, live: &Live, bus: &B) -> Option<Operand>
    ensures { operand_for result
        ≡ operand_at B.access (B.state bus.now) (slice_get (B.state bus.now).bytes) (live_registers live.now) mode }
{
    let pc = live.pc;
    match mode {
        Mode::Implied => with_base(Place::Nowhere, 0),
        Mode::Accumulator => with_base(Place::Accumulator, 0),
        Mode::Immediate => {
            let value = byte(bus, pc)?;
            with_base(Place::Literal(value), u16::from(value))
        }
        Mode::ZeroPage => at_address::<ZeroPage, B>(live, bus, byte(bus, pc)?, 0),
        Mode::ZeroPageX => at_address::<ZeroPageX, B>(live, bus, byte(bus, pc)?, 0),
        Mode::ZeroPageY => at_address::<ZeroPageY, B>(live, bus, byte(bus, pc)?, 0),
        Mode::Absolute => at_address::<Absolute, B>(live, bus, 0, word(bus, pc)?),
        Mode::AbsoluteX => at_address::<AbsoluteX, B>(live, bus, 0, word(bus, pc)?),
        Mode::AbsoluteY => at_address::<AbsoluteY, B>(live, bus, 0, word(bus, pc)?),
        Mode::IndexedIndirect => at_address::<IndexedIndirect, B>(live, bus, byte(bus, pc)?, 0),
        Mode::IndirectIndexed => at_address::<IndirectIndexed, B>(live, bus, byte(bus, pc)?, 0),
        Mode::Indirect => {
            let value = word(bus, pc)?;
            with_base(Place::Pointer(value), value)
        }
        Mode::Relative => {
            let target = branch_target(pc, byte(bus, pc)?);
            with_base(Place::Address(target), target)
        }
    }
}

/// Returns the instruction at PC, or why there is none: either the bus does not show all of its bytes, or its opcode
/// is undocumented.
#[inline(always)]
#[tactic(auto, unfolding(a2_opcode::specs::Encoding::fetched, crate::specs::Code::operand_at))]
pub(crate) fn find<B: Bus>(live: &Live, bus: &B) -> Result<Found, GuardedStep>
    ensures few { IfOk result (λ found. found.cycles < 512) }
    ensures found { found_for result
        ≡ found_of B.access (B.state bus.now) (live_registers live.now) (fetched (slice_get (B.state bus.now).bytes) live.now.pc) }
{
    let Some(opcode) = bus.peek(live.pc) else {
        return Err(GuardedStep::Rom);
    };
    let Some(row) = row_of(opcode) else {
        return Err(GuardedStep::Opcode);
    };
    let Some(Operand { place, base }) = locate(row.mode, live, bus) else {
        return Err(GuardedStep::Rom);
    };
    let crossed = row.crosses && crosses(base, place);
    Ok(Found {
        mnemonic: row.mnemonic,
        place,
        cycles: u32::from(row.cycles) + u32::from(crossed),
        next: live.pc.wrapping_add(u16::from(row.mode.length())),
    })
}
