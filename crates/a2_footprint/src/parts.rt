//! The registers and flags that an instruction uses, and those that it sets.

ghost use Rattle.std.specs.Prelude.{◌≡◌};
ghost use Rattle.a2_footprint.specs.InstructionParts as parts;

use crate::Part;
use a2_opcode::{Mnemonic, Mode};

// In the order in which PHP pushes them and PLP pulls them.
static FLAGS: [Part; 6] = [Part::N, Part::V, Part::D, Part::I, Part::Z, Part::C];

/// Returns the registers and flags that a mnemonic uses, except those of its addressing mode. Its effect depends on no
/// others. MCS6500 Programming Manual, appendix A.
#[tactic(auto, unfolding(crate::specs::InstructionParts::needs))]
pub fn needs(mnemonic: Mnemonic) -> &'static [Part]
    ensures { result.now ≡ parts.needs mnemonic }
{
    match mnemonic {
        Mnemonic::Adc | Mnemonic::Sbc => &[Part::A, Part::D, Part::C],
        Mnemonic::And | Mnemonic::Bit | Mnemonic::Cmp | Mnemonic::Eor | Mnemonic::Ora => &[Part::A],
        Mnemonic::Pha | Mnemonic::Sta | Mnemonic::Tax | Mnemonic::Tay => &[Part::A],
        Mnemonic::Bcc | Mnemonic::Bcs | Mnemonic::Rol | Mnemonic::Ror => &[Part::C],
        Mnemonic::Beq | Mnemonic::Bne => &[Part::Z],
        Mnemonic::Bmi | Mnemonic::Bpl => &[Part::N],
        Mnemonic::Bvc | Mnemonic::Bvs => &[Part::V],
        Mnemonic::Cpx | Mnemonic::Dex | Mnemonic::Inx => &[Part::X],
        Mnemonic::Stx | Mnemonic::Txa | Mnemonic::Txs => &[Part::X],
        Mnemonic::Cpy | Mnemonic::Dey | Mnemonic::Iny | Mnemonic::Sty | Mnemonic::Tya => &[Part::Y],
        Mnemonic::Php => &FLAGS,
        _ => &[],
    }
}

/// Returns the registers that an addressing mode uses: an index, or A if A is the operand. MCS6500 Programming Manual,
/// chapters 4 to 6.
pub fn mode_needs(mode: Mode) -> &'static [Part]
    ensures { result.now ≡ parts.mode_needs mode }
{
    match mode {
        Mode::Accumulator => &[Part::A],
        Mode::ZeroPageX | Mode::AbsoluteX | Mode::IndexedIndirect => &[Part::X],
        Mode::ZeroPageY | Mode::AbsoluteY | Mode::IndirectIndexed => &[Part::Y],
        _ => &[],
    }
}

/// Returns the registers and flags that a mnemonic sets, whatever they held. MCS6500 Programming Manual, appendix A.
#[tactic(auto, unfolding(crate::specs::InstructionParts::sets_parts))]
pub fn sets(mnemonic: Mnemonic) -> &'static [Part]
    ensures { result.now ≡ parts.sets_parts mnemonic }
{
    match mnemonic {
        Mnemonic::Adc | Mnemonic::Sbc => &[Part::A, Part::N, Part::V, Part::Z, Part::C],
        Mnemonic::And | Mnemonic::Eor | Mnemonic::Lda | Mnemonic::Ora => &[
            Part::A,
            Part::N,
            Part::Z,
        ],
        Mnemonic::Pla | Mnemonic::Txa | Mnemonic::Tya => &[Part::A, Part::N, Part::Z],
        Mnemonic::Asl | Mnemonic::Lsr | Mnemonic::Rol | Mnemonic::Ror => &[
            Part::N,
            Part::Z,
            Part::C,
        ],
        Mnemonic::Cmp | Mnemonic::Cpx | Mnemonic::Cpy => &[Part::N, Part::Z, Part::C],
        Mnemonic::Bit => &[Part::N, Part::V, Part::Z],
        Mnemonic::Clc | Mnemonic::Sec => &[Part::C],
        Mnemonic::Cld | Mnemonic::Sed => &[Part::D],
        Mnemonic::Cli | Mnemonic::Sei => &[Part::I],
        Mnemonic::Clv => &[Part::V],
        Mnemonic::Dec | Mnemonic::Inc => &[Part::N, Part::Z],
        Mnemonic::Dex | Mnemonic::Inx | Mnemonic::Ldx | Mnemonic::Tax | Mnemonic::Tsx => {
            &[Part::X, Part::N, Part::Z]
        }
        Mnemonic::Dey | Mnemonic::Iny | Mnemonic::Ldy | Mnemonic::Tay => &[
            Part::Y,
            Part::N,
            Part::Z,
        ],
        Mnemonic::Plp | Mnemonic::Rti => &FLAGS,
        _ => &[],
    }
}
