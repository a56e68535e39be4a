//! The bytes that an instruction reads.

ghost use Rattle.std.specs.Prelude.{◌≡◌, ◌<◌};
ghost use Rattle.a2_effect.specs.Operands.{IsPointer};
ghost use Rattle.a2_effect.specs.Place.{place_of, zero_page_word};
ghost use Rattle.a2_effect.specs.Effect.{effect_of};
ghost use Rattle.a2_effect.specs.View.{registers_of};
ghost use Rattle.a2_footprint.specs.InstructionReads.{effect_reads, jump_reads, place_reads, pointer_reads, pull_address as pulled_at};
ghost use Rattle.a2_footprint.specs.UpToThree.{addresses_for};

use a2_bus::Bus;
use a2_cpu::Regs;
use a2_opcode::{Instr, Mnemonic, Mode};
use arrayvec::ArrayVec;

/// The addresses that an instruction reads, except those of its own bytes, in order.
#[derive(Drop)]
pub struct BytesRead {
    /// The two addresses in page 0 that hold the operand's address, if the addressing mode is indirect and indexed.
    pub pointer: ArrayVec<u16, 3>,
    /// The address of its operand, of the bytes that it pulls, or of the pointer that an indirect JMP uses.
    pub operand: ArrayVec<u16, 3>,
}

// At most three addresses.
#[derive(Clone, Copy)]
enum UpToThree {
    None,
    One(u16),
    Two(u16, u16),
    Three(u16, u16, u16),
}

// Returns the same addresses as a list.
fn listed(few: UpToThree) -> ArrayVec<u16, 3>
    ensures { result.items ≡ addresses_for few }
{
    let mut addresses = ArrayVec::new();
    match few {
        UpToThree::None => {}
        UpToThree::One(address) => addresses.push(address),
        UpToThree::Two(first, second) => {
            addresses.push(first);
            addresses.push(second);
        }
        UpToThree::Three(first, second, third) => {
            addresses.push(first);
            addresses.push(second);
            addresses.push(third);
        }
    }
    addresses
}

// Returns the addresses in page 0 that hold the operand's address.
fn pointer_of(mode: Mode, value: u16, regs: &Regs) -> UpToThree
    requires { IsPointer mode value }
    ensures { addresses_for result ≡ pointer_reads mode value (registers_of regs.now) }
{
    match mode {
        Mode::IndexedIndirect => {
            let at = value.wrapping_add(u16::from(regs.x)) % 256;
            UpToThree::Two(at, (at + 1) % 256)
        }
        Mode::IndirectIndexed => UpToThree::Two(value, (value + 1) % 256),
        _ => UpToThree::None,
    }
}

// Returns the 16-bit word at an address of page 0. It wraps within the page.
fn low_word<B: Bus>(bus: &B, address: u16) -> u16
    requires { address < 256 }
    ensures { result ≡ zero_page_word B.access (B.state bus.now) address }
{
    let low = bus.peek(address).unwrap_or(0);
    let high = bus.peek((address + 1) % 256).unwrap_or(0);
    u16::from(low) + 256 * u16::from(high)
}

// Returns the operand's address.
fn operand_at<B: Bus>(mode: Mode, value: u16, regs: &Regs, bus: &B) -> UpToThree
    requires { IsPointer mode value }
    ensures { addresses_for result ≡ place_reads (place_of B.access (B.state bus.now) (registers_of regs.now) mode value) }
{
    let (x, y) = (u16::from(regs.x), u16::from(regs.y));
    match mode {
        Mode::Implied | Mode::Accumulator | Mode::Immediate | Mode::Indirect => UpToThree::None,
        Mode::ZeroPage | Mode::Absolute | Mode::Relative => UpToThree::One(value),
        Mode::ZeroPageX => UpToThree::One(value.wrapping_add(x) % 256),
        Mode::ZeroPageY => UpToThree::One(value.wrapping_add(y) % 256),
        Mode::AbsoluteX => UpToThree::One(value.wrapping_add(x)),
        Mode::AbsoluteY => UpToThree::One(value.wrapping_add(y)),
        Mode::IndexedIndirect => UpToThree::One(low_word(bus, value.wrapping_add(x) % 256)),
        Mode::IndirectIndexed => UpToThree::One(low_word(bus, value).wrapping_add(y)),
    }
}

// Returns the addresses of the pointer that an indirect JMP uses.
fn jump_at<B: Bus>(mode: Mode, value: u16, regs: &Regs, bus: &B) -> UpToThree
    ensures { addresses_for result ≡ jump_reads (place_of B.access (B.state bus.now) (registers_of regs.now) mode value) }
{
    match mode {
        Mode::Indirect => UpToThree::Two(value, 256 * (value / 256) + (value % 256 + 1) % 256),
        _ => UpToThree::None,
    }
}

/// Returns the address, from $0100 to $01FF, of the byte that a pull reads. `s` is S before the first pull, and `count`
/// is 1, 2 or 3 for the first, second or third pull. The address is `count` bytes above S, and $FF is followed by $00.
/// PLA and PLP pull once, RTS twice, RTI three times. MCS6500 Programming Manual, chapter 8.
pub fn pull_address(s: u8, count: u8) -> u16
    ensures { result ≡ pulled_at s count }
{
    256 + u16::from(s.wrapping_add(count))
}

// Returns the addresses that a mnemonic reads, given its operand.
#[tactic(auto, unfolding(a2_effect::specs::Effect::effect_of))]
fn effect_at<B: Bus>(instr: Instr, regs: &Regs, bus: &B) -> UpToThree
    requires { IsPointer instr.mode instr.value }
    ensures { addresses_for result ≡ effect_reads (effect_of instr.mnemonic)
        (place_of B.access (B.state bus.now) (registers_of regs.now) instr.mode instr.value) (registers_of regs.now).s }
{
    let s = regs.s;
    match instr.mnemonic {
        Mnemonic::Adc
        | Mnemonic::And
        | Mnemonic::Asl
        | Mnemonic::Bit
        | Mnemonic::Cmp
        | Mnemonic::Cpx
        | Mnemonic::Cpy
        | Mnemonic::Dec
        | Mnemonic::Eor
        | Mnemonic::Inc
        | Mnemonic::Lda
        | Mnemonic::Ldx
        | Mnemonic::Ldy
        | Mnemonic::Lsr
        | Mnemonic::Ora
        | Mnemonic::Rol
        | Mnemonic::Ror
        | Mnemonic::Sbc => operand_at(instr.mode, instr.value, regs, bus),
        Mnemonic::Jmp => jump_at(instr.mode, instr.value, regs, bus),
        Mnemonic::Pla | Mnemonic::Plp => UpToThree::One(pull_address(s, 1)),
        Mnemonic::Rts => UpToThree::Two(pull_address(s, 1), pull_address(s, 2)),
        Mnemonic::Rti => UpToThree::Three(
            pull_address(s, 1),
            pull_address(s, 2),
            pull_address(s, 3),
        ),
        _ => UpToThree::None,
    }
}

/// Returns the addresses that an instruction would read with these registers and this bus, except those of its own
/// bytes, at any address of the instruction. The operand of an instruction in a mode with a pointer in page 0, indexed
/// by Y, must be below 256. Nothing changes, and no device sees an access. MCS6500 Programming Manual, chapters 4 to 9.
pub fn reads<B: Bus>(instr: Instr, regs: &Regs, bus: &B) -> BytesRead
    requires { IsPointer instr.mode instr.value }
    ensures pointer { result.pointer.items ≡ pointer_reads instr.mode instr.value (registers_of regs.now) }
    ensures operand { result.operand.items ≡ effect_reads (effect_of instr.mnemonic)
        (place_of B.access (B.state bus.now) (registers_of regs.now) instr.mode instr.value) (registers_of regs.now).s }
{
    BytesRead {
        pointer: listed(pointer_of(instr.mode, instr.value, regs)),
        operand: listed(effect_at(instr, regs, bus)),
    }
}
