//! The operand forms of each mnemonic.

use a2_opcode::{Mnemonic, Mode, row_for};
use a2_stream::{Output, WriteFault, put_all};

// The operand forms: an addressing mode, the mode whose example is shown instead if the mnemonic has both, and an example as it
// follows a mnemonic. If no mode is shown instead, the second is the same as the first.
static FORMS: [(Mode, Mode, &[u8]); 12] = [
    (Mode::Implied, Mode::Implied, b""),
    (Mode::Accumulator, Mode::Accumulator, b" A"),
    (Mode::Immediate, Mode::Immediate, b" #5"),
    (Mode::Absolute, Mode::Absolute, b" $300"),
    (Mode::Relative, Mode::Relative, b" LOOP"),
    (Mode::ZeroPageX, Mode::AbsoluteX, b" $10,X"),
    (Mode::AbsoluteX, Mode::AbsoluteX, b" $300,X"),
    (Mode::ZeroPageY, Mode::AbsoluteY, b" $10,Y"),
    (Mode::AbsoluteY, Mode::AbsoluteY, b" $300,Y"),
    (Mode::IndexedIndirect, Mode::IndexedIndirect, b" ($10,X)"),
    (Mode::IndirectIndexed, Mode::IndirectIndexed, b" ($10),Y"),
    (Mode::Indirect, Mode::Indirect, b" ($300)"),
];

/// Whether a mnemonic has an addressing mode.
pub(crate) fn has_mode(mnemonic: Mnemonic, mode: Mode) -> bool {
    row_for(mnemonic, mode).is_some()
}

/// Writes an example of each operand form that a mnemonic has, with commas between them.
pub(crate) fn put_forms<W: Output>(mnemonic: Mnemonic, writer: &mut W) -> Result<(), WriteFault> {
    let mut front: &[u8] = b"";
    for (mode, other, text) in &FORMS {
        let is_shown = *mode == *other || !has_mode(mnemonic, *other);
        if is_shown && has_mode(mnemonic, *mode) {
            put_all(&[front, mnemonic.name().as_bytes(), text], writer)?;
            front = b", ";
        }
    }
    Ok(())
}
