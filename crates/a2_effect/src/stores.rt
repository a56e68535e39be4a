//! Which mnemonics store at their operand.

ghost use Rattle.std.specs.Prelude.{◌≡◌};
ghost use Rattle.a2_effect.specs.Effect.{effect_of, stores_at_operand};

use a2_opcode::Mnemonic;

/// Returns whether an instruction with this mnemonic stores a byte at its operand: a store, a shift, INC or DEC. A shift of A stores
/// nowhere, because its operand has no address. What an instruction pushes does not count (MCS6500 Programming Manual, appendix A).
#[inline(always)]
#[tactic(auto, unfolding(crate::specs::Effect::effect_of))]
pub fn stores_operand(mnemonic: Mnemonic) -> bool
    ensures { result ≡ stores_at_operand (effect_of mnemonic) }
{
    matches!(
        mnemonic,
        Mnemonic::Asl
            | Mnemonic::Lsr
            | Mnemonic::Rol
            | Mnemonic::Ror
            | Mnemonic::Inc
            | Mnemonic::Dec
            | Mnemonic::Sta
            | Mnemonic::Stx
            | Mnemonic::Sty
    )
}
