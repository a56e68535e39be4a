//! Instructions and their bytes, as described in chapters 4 to 6 of the MCS6500 Programming Manual.

ghost use Rattle.std.specs.Prelude.{◌≡◌, ◌+◌, ◌%◌, ◌<◌, ◌≤◌, true, false, None, Some, [], ◌∷◌, ◌++◌, length, take, slice_index, IfSome, MatchOption};
ghost use Rattle.arrayvec.specs.ArrayVec.{array_vec_len};
ghost use Rattle.a2_opcode.specs.Table.{length_of};
ghost use Rattle.a2_opcode.specs.Encoding.{encoded, decoded, is_operand_value, operand_bytes, value_of, branch_distance, is_near, IsFetchedFrom};
ghost use Rattle.a2_opcode.specs.Encoding.{branch_target as branch_target_of};

use crate::{Instr, Mode, row_for, row_of};
use arrayvec::ArrayVec;

impl Mode {
    /// Returns how many bytes an instruction of the mode has, 1 to 3.
    pub fn length(self) -> u8
        ensures { result ≡ length_of self }
    {
        match self {
            Mode::Implied | Mode::Accumulator => 1,
            Mode::Absolute | Mode::AbsoluteX | Mode::AbsoluteY | Mode::Indirect => 3,
            _ => 2,
        }
    }
}

/// Returns the target of a branch at `address` ($0000 to $FFFF), which is where it goes if it is taken. `offset`, the
/// byte after its opcode, is the distance from the next instruction, -128 to 127. The target is modulo 65,536. MCS6500
/// Programming Manual, chapter 4.
#[inline(always)]
pub fn branch_target(address: u16, offset: u8) -> u16
    ensures { result ≡ branch_target_of address offset }
{
    let distance = i16::from(offset.cast_signed());
    address
        .wrapping_add(2)
        .wrapping_add(distance.cast_unsigned())
}

// Returns the offset byte of a branch, if its target is near enough.
fn branch_offset(address: u16, target: u16) -> Option<u8>
    ensures { MatchOption result (is_near (branch_distance address target) ≡ false)
        (λ b. (is_near (branch_distance address target) ≡ true) × (b ≡ branch_distance address target % 256)) }
{
    let distance = target.wrapping_sub(address.wrapping_add(2));
    if distance < 128 || distance >= 65408 {
        Some((distance % 256) as u8)
    } else {
        None
    }
}

// Returns the value of an operand, from the bytes after the opcode.
fn value(mode: Mode, address: u16, operand: &[u8]) -> u16
    requires { length_of mode ≤ length operand.now + 1 }
    ensures { result ≡ value_of mode address operand.now }
{
    match mode {
        Mode::Implied | Mode::Accumulator => 0,
        Mode::Absolute | Mode::AbsoluteX | Mode::AbsoluteY | Mode::Indirect => {
            u16::from(operand[0]) + 256 * u16::from(operand[1])
        }
        Mode::Relative => branch_target(address, operand[0]),
        _ => u16::from(operand[0]),
    }
}

// Returns an opcode followed by the bytes of its operand.
fn joined(opcode: u8, operand: &[u8]) -> ArrayVec<u8, 3>
    requires { length operand.now ≤ 2 }
    ensures { result.items ≡ opcode ∷ operand.now }
{
    let mut bytes = ArrayVec::new();
    bytes.push(opcode);
    for byte in operand {
        bytes.push(*byte);
    }
    bytes
}

// Returns an opcode followed by the bytes of an operand's value, if the operand may have that value.
fn with_operand(opcode: u8, mode: Mode, address: u16, value: u16) -> Option<ArrayVec<u8, 3>>
    ensures { MatchOption result (is_operand_value mode address value ≡ false)
        (λ b. (is_operand_value mode address value ≡ true) × (b.items ≡ opcode ∷ operand_bytes mode address value)) }
{
    match mode {
        Mode::Implied | Mode::Accumulator if value == 0 => Some(joined(opcode, &[])),
        Mode::Implied | Mode::Accumulator => None,
        Mode::Absolute | Mode::AbsoluteX | Mode::AbsoluteY | Mode::Indirect => {
            Some(joined(opcode, &[(value % 256) as u8, (value / 256) as u8]))
        }
        Mode::Relative => Some(joined(opcode, &[branch_offset(address, value)?])),
        _ if value < 256 => Some(joined(opcode, &[value as u8])),
        _ => None,
    }
}

/// Returns the bytes of an instruction at an address.
///
/// They are the opcode and then the bytes of the operand, low byte first. The operand byte of a branch is the distance
/// of its target from the next instruction. Returns `None` in these cases:
/// - The table has no row for the mnemonic and mode.
/// - The value is out of range: only 0 for the implied and accumulator modes, 0 to 255 for the immediate and zero-page
///   modes.
/// - The distance of a branch's target from the next instruction, modulo 65,536, is outside -128 to 127.
#[tactic(auto, unfolding(crate::specs::Encoding::encoded))]
pub fn encode(instr: Instr, address: u16) -> Option<ArrayVec<u8, 3>>
    ensures bytes { MatchOption result (encoded instr address ≡ None) (λ b. encoded instr address ≡ Some b.items) }
    ensures length { IfSome result (λ b. length b.items ≡ length_of instr.mode) }
    // the bytes decode to the instruction
    ensures decodes { IfSome result (λ b. decoded b.items address ≡ Some instr) }
    // the instruction is also fetched from a memory that shows the bytes
    ensures fetched { IfSome result (λ b. IsFetchedFrom instr address b.items) }
{
    let row = row_for(instr.mnemonic, instr.mode)?;
    with_operand(row.opcode, instr.mode, address, instr.value)
}

/// Returns the instruction that the bytes at an address begin with; bytes after it are ignored. The target of a branch
/// is modulo 65,536.
///
/// Returns `None` if there is no byte, if the first byte is not a documented opcode, or if its operand is incomplete.
#[tactic(auto, unfolding(crate::specs::Encoding::decoded))]
pub fn decode(bytes: &[u8], address: u16) -> Option<Instr>
    ensures value { result ≡ decoded bytes.now address }
    ensures whole { IfSome result (λ i. length_of i.mode ≤ length bytes.now) }
    // the instruction's bytes are the front of the given bytes
    ensures encodes { IfSome result (λ i. encoded i address ≡ Some (take (length_of i.mode) bytes.now)) }
    // the instruction is also fetched from a memory that shows these bytes
    ensures fetched { IfSome result (λ i. IsFetchedFrom i address (take (length_of i.mode) bytes.now)) }
{
    let (opcode, operand) = bytes.split_first()?;
    let row = row_of(*opcode)?;
    if bytes.len() < usize::from(row.mode.length()) {
        return None;
    }
    Some(Instr {
        mnemonic: row.mnemonic,
        mode: row.mode,
        value: value(row.mode, address, operand),
    })
}
