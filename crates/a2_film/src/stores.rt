//! Where the instruction at PC stores.

ghost use Rattle.std.specs.Prelude.{◌≡◌, ℕ, [], false};
ghost use Rattle.a2_bus.specs.BusState.{board_access};
ghost use Rattle.a2_cpu.specs.Code.{effect_stores};
ghost use Rattle.a2_effect.specs.Effect.{effect_of};
ghost use Rattle.a2_effect.specs.Place.{Place};
ghost use Rattle.a2_cpu.specs.StepStores.{step_stores};
ghost use Rattle.a2_cpu.specs.View.{before_step};

use a2_cpu::writes;
use a2_effect::stores_operand;
use a2_machine::Machine;
use a2_opcode::{Mnemonic, row_of};
use arrayvec::ArrayVec;
use std::alloc::Allocator;

// Returns whether instructions with this mnemonic store or push.
#[tactic(auto, unfolding(a2_effect::specs::Effect::effect_of))]
fn is_storing(mnemonic: Mnemonic) -> bool
    ensures { result ≡ false → (place : Place) (s : ℕ) → effect_stores (effect_of mnemonic) place s ≡ [] }
{
    match mnemonic {
        Mnemonic::Pha | Mnemonic::Php | Mnemonic::Jsr => true,
        _ => stores_operand(mnemonic),
    }
}

// Returns whether the instruction at PC stores, as far as its opcode shows.
fn may_store<A: Allocator + Copy>(machine: &Machine<A>) -> bool
    ensures { result ≡ false → step_stores board_access (before_step machine.now.state.regs machine.now.state.bus) ≡ [] }
{
    let Some(opcode) = machine.peek(machine.regs().pc) else {
        return false;
    };
    match row_of(opcode) {
        Some(row) => is_storing(row.mnemonic),
        None => false,
    }
}

/// Returns where the instruction at PC stores, in the order of its writes.
pub fn stores_at_pc<A: Allocator + Copy>(machine: &Machine<A>) -> ArrayVec<u16, 2>
    ensures { result.items ≡ step_stores board_access (before_step machine.now.state.regs machine.now.state.bus) }
{
    if may_store(machine) {
        writes(&machine.regs(), machine.space())
    } else {
        ArrayVec::new()
    }
}
