//! Where the operand of an executed instruction was.

ghost use Rattle.std.specs.Prelude.{◌≡◌, ◌<◌, length, slice_index};
ghost use Rattle.a2_bus.specs.Access.{bytes_access};
ghost use Rattle.a2_effect.specs.Place.{zero_page_word};
ghost use Rattle.a2_machine.specs.Operands.{IsOperandAddress};

use a2_effect::Regs;
use a2_opcode::Mode;

// Returns the byte of RAM at an address, or 0 past its end.
fn byte_in(ram: &[u8], address: u16) -> u8
    ensures { address < length ram.now → result ≡ slice_index ram.now address }
{
    match ram.get(usize::from(address)) {
        Some(byte) => *byte,
        None => 0,
    }
}

// Returns the word at an address of page 0. It wraps within the page.
fn low_word(ram: &[u8], address: u16) -> u16
    requires { address < 256 }
    ensures { 256 < length ram.now → result ≡ zero_page_word bytes_access ram.now address }
{
    u16::from(byte_in(ram, address)) + 256 * u16::from(byte_in(ram, (address + 1) % 256))
}

/// Returns the address, $0000 to $FFFF, of the operand of the instruction at PC, or `None` if it has none in memory. It is for
/// observers of a run: `regs` are the registers before the instruction, and `ram` is memory after it. A guarded run stores into no
/// instruction, so the operand is as it was before. A branch has no operand in memory. MCS6500 Programming Manual, chapters 4 to 6.
pub fn operand_address(mode: Mode, regs: &Regs, ram: &[u8]) -> Option<u16>
    ensures { IsOperandAddress mode regs.now ram.now result }
{
    let (x, y) = (u16::from(regs.x), u16::from(regs.y));
    let low = u16::from(byte_in(ram, regs.pc.wrapping_add(1)));
    let word = low + 256 * u16::from(byte_in(ram, regs.pc.wrapping_add(2)));
    match mode {
        Mode::ZeroPage => Some(low),
        Mode::ZeroPageX => Some((low + x) % 256),
        Mode::ZeroPageY => Some((low + y) % 256),
        Mode::Absolute => Some(word),
        Mode::AbsoluteX => Some(word.wrapping_add(x)),
        Mode::AbsoluteY => Some(word.wrapping_add(y)),
        Mode::IndexedIndirect => Some(low_word(ram, (low + x) % 256)),
        Mode::IndirectIndexed => Some(low_word(ram, low).wrapping_add(y)),
        Mode::Implied | Mode::Accumulator | Mode::Immediate | Mode::Indirect | Mode::Relative =>
            None,
    }
}
