//! Follows a routine to its own RTS, as long as it depends only on what is known.

ghost use Rattle.std.specs.Prelude.{◌≡◌, ◌<◌, ◌-◌, ◌+◌, ◌&&◌, ℕ, false, true, ◌∷◌, IsTrue, IfSome};
ghost use Rattle.std.specs.List.{list_all, list_any};
ghost use Rattle.a2_opcode.specs.Table.{length_of};
ghost use Rattle.a2_footprint.specs.Reads.{Knows};
ghost use Rattle.a2_footprint.specs.Fetches.{addresses_from};
ghost use Rattle.a2_bus.specs.BusState.{board_access};
ghost use Rattle.a2_effect.specs.Effect.{effect_of};
ghost use Rattle.a2_effect.specs.Place.{Place, place_of};
ghost use Rattle.a2_effect.specs.View.{registers_of};
ghost use Rattle.a2_footprint.specs.InstructionParts.{needs as parts_needed, mode_needs as parts_of_mode};
ghost use Rattle.a2_footprint.specs.InstructionReads.{effect_reads, pointer_reads};
ghost use Rattle.a2_footprint.specs.RotatedStack.{in_stack, moves_s, operand_uses};
ghost use Rattle.a2_promise_certify.specs.Walking as walking;
ghost use Rattle.a2_promise_certify.specs.Walking.{known_now, knows_part, is_beside_stack_page, ReachesOwnRts, IsOwnRts, IsStepOf};
ghost use Rattle.a2_promise_certify.specs.Walking.{IsInstructionAt};

use crate::allowed::is_in_stack;
use crate::known_parts::KnownParts;
use crate::marks::{are_known, is_known_now};
use crate::service_reads::{is_all_known, is_keyless, registers_read_by, registers_set_by};
use crate::service_stores::{mark_each, mark_places};
use crate::stored::Stored;
use a2_bus::{AddressSpace, Bus};
use a2_cpu::run::guarded_step;
use a2_cpu::{GuardedStep, NoProtection, Regs, writes};
use a2_effect::Live;
use a2_footprint::{mode_needs, needs, reads, sets};
use a2_opcode::{Instr, Mnemonic, Mode, decode};
use a2_promise::Changes;
use a2_services::live::call;
use a2_services::{Served, service_at};
use std::alloc::Global;

/// S when a routine is entered: the caller's return address is on top.
pub const ENTRY_S: u8 = 0xFD;

// Returns whether the bytes of an instruction with this mode are known.
fn is_fetch_known(known: &[bool], stored: &Stored, pc: u16, mode: Mode) -> bool
    ensures { IsTrue result → Knows (known_now known.now stored.now) (pc ∷ addresses_from (pc + 1) (length_of mode - 1)) }
{
    let length = mode.length();
    is_known_now(known, stored, pc)
        && (length < 2 || is_known_now(known, stored, pc.wrapping_add(1)))
        && (length < 3 || is_known_now(known, stored, pc.wrapping_add(2)))
}

// Returns the instruction at an address of RAM, if there is one and two more bytes follow its first.
fn instr_at(pc: u16, space: &AddressSpace<Global>) -> Option<Instr>
    ensures { IfSome result (λ instr. IsInstructionAt instr pc space.now.bytes) }
{
    let first = space.peek(pc)?;
    let second = space.peek(pc.wrapping_add(1))?;
    let third = space.peek(pc.wrapping_add(2))?;
    decode(&[first, second, third], pc)
}

// Returns whether what an instruction reads, apart from its own bytes, is known.
fn are_reads_known(
    known: &[bool],
    stored: &Stored,
    instr: Instr,
    regs: &Regs,
    space: &AddressSpace<Global>,
) -> bool
    ensures { IsTrue result → (list_all (known_now known.now stored.now)
        (pointer_reads instr.mode instr.value (registers_of regs.now))
        && list_all (known_now known.now stored.now) (effect_reads (effect_of instr.mnemonic)
        (place_of board_access space.now (registers_of regs.now) instr.mode instr.value) (registers_of regs.now).s)) ≡ true }
{
    // No such instruction has a larger value. This test is only for the prover, because the contract of an
    // instruction does not say so.
    if matches!(instr.mode, Mode::IndirectIndexed) && instr.value > 255 {
        return false;
    }
    let read = reads(instr, regs, space);
    are_known(known, stored, read.pointer.as_slice())
        && are_known(known, stored, read.operand.as_slice())
}

// Returns whether the registers and flags that an instruction depends on are known.
fn are_parts_known(parts: &KnownParts, instr: Instr) -> bool
    ensures { result ≡ (list_all (knows_part parts.now) (parts_needed instr.mnemonic)
        && list_all (knows_part parts.now) (parts_of_mode instr.mode)) }
{
    parts.have(needs(instr.mnemonic)) && parts.have(mode_needs(instr.mode))
}

// Returns whether none of the three bytes from an address on, the most that an instruction has, is in the stack's
// page.
fn is_code_off_stack(pc: u16) -> bool
    ensures { IsTrue result → list_any in_stack (addresses_from pc 3) ≡ false }
{
    !is_in_stack(pc) && !is_in_stack(pc.wrapping_add(1)) && !is_in_stack(pc.wrapping_add(2))
}

// Returns a mnemonic that reads wherever this one reads or stores through its operand, and that pulls nothing.
#[tactic(auto, unfolding(a2_effect::specs::Effect::effect_of))]
fn as_read(mnemonic: Mnemonic) -> Mnemonic
    ensures { (place : Place) (s : ℕ) → effect_reads (effect_of result) place s ≡ operand_uses (effect_of mnemonic) place }
{
    match mnemonic {
        Mnemonic::Sta | Mnemonic::Stx | Mnemonic::Sty => Mnemonic::Lda,
        Mnemonic::Pla | Mnemonic::Plp | Mnemonic::Rts | Mnemonic::Rti => Mnemonic::Nop,
        other => other,
    }
}

// Returns whether the mode is enough to tell that an operand is not in memory or is in page 0, as most are.
fn is_mode_off_stack(instr: Instr) -> bool
    ensures { result ≡ is_beside_stack_page instr.mode instr.value }
{
    match instr.mode {
        Mode::Implied | Mode::Accumulator | Mode::Immediate => true,
        Mode::ZeroPage => instr.value < 256,
        Mode::ZeroPageX | Mode::ZeroPageY => true,
        _ => false,
    }
}

// Returns whether an instruction uses the stack's page only through S: it is neither TSX nor TXS, and its operand is
// elsewhere.
fn is_off_stack(instr: Instr, regs: &Regs, space: &AddressSpace<Global>) -> bool
    ensures { IsTrue result → (moves_s instr.mnemonic ≡ false)
        × (list_any in_stack (pointer_reads instr.mode instr.value (registers_of regs.now)) ≡ false)
        × (list_any in_stack (operand_uses (effect_of instr.mnemonic)
        (place_of board_access space.now (registers_of regs.now) instr.mode instr.value)) ≡ false) }
{
    if matches!(instr.mnemonic, Mnemonic::Tsx | Mnemonic::Txs) {
        return false;
    }
    if is_mode_off_stack(instr) {
        return true;
    }
    // The same as in `are_reads_known`.
    if matches!(instr.mode, Mode::IndirectIndexed) && instr.value > 255 {
        return false;
    }
    let read = Instr {
        mnemonic: as_read(instr.mnemonic),
        mode: instr.mode,
        value: instr.value,
    };
    let used = reads(read, regs, space);
    !is_any_in_stack(used.pointer.as_slice()) && !is_any_in_stack(used.operand.as_slice())
}

// Returns whether one of these addresses is in the stack's page.
fn is_any_in_stack(addresses: &[u16]) -> bool
    ensures { result ≡ list_any in_stack addresses.now }
{
    addresses.iter().any(|address| is_in_stack(*address))
}

// Executes a step, which is this instruction, and returns its cycles. Returns `None` if it is not executed, depends
// on something unknown, uses the stack other than through S, or stores where it may not.
fn execute_step(
    walk: &mut Walk,
    instr: Instr,
    known: &[bool],
    stored: &mut Stored,
    changes: &Changes,
) -> Option<u32>
    requires { IsInstructionAt instr walk.old.regs.pc walk.old.space.bytes }
    ensures { IfSome result (IsStepOf known.now stored.old stored.new changes.now walk.old walk.new) }
{
    let (regs, space) = (&walk.regs, &walk.space);
    if !is_fetch_known(known, stored, regs.pc, instr.mode)
        || !is_code_off_stack(regs.pc)
        || !is_off_stack(instr, regs, space)
        || !are_reads_known(known, stored, instr, regs, space)
        || !are_parts_known(&walk.parts, instr)
    {
        return None;
    }
    let targets = writes(regs, space);
    if !mark_each(stored, changes, targets.as_slice()) {
        return None;
    }
    let GuardedStep::Next(cycles) = guarded_step(&mut walk.regs, &mut walk.space, &NoProtection)
    else {
        return None;
    };
    walk.parts.learn(sets(instr.mnemonic));
    Some(cycles)
}

// Calls the service at PC and returns its cycles. Returns `None` if there is none, if it is not executed or needs a
// key, if it depends on something unknown, or if it stores where it may not.
fn serve(walk: &mut Walk, known: &[bool], stored: &mut Stored, changes: &Changes) -> Option<u32>
    ensures { IfSome result (IsStepOf known.now stored.old stored.new changes.now walk.old walk.new) }
{
    let service = service_at(walk.regs.pc)?;
    let (regs, space) = (&walk.regs, &walk.space);
    if !is_keyless(service)
        || !walk.parts.have(registers_read_by(service))
        || !is_all_known(service, known, stored, regs, space)
        || !mark_places(service, stored, changes, regs, space)
    {
        return None;
    }
    let mut live = Live::of(regs);
    let Served::Next(cycles) = call(service, &mut live, &mut walk.space) else {
        return None;
    };
    walk.regs = live.regs();
    walk.parts.learn(registers_set_by(service));
    Some(cycles)
}

// Executes the next step and returns its cycles. The step is this instruction, or a call of a service if there is
// none.
fn go_on(
    walk: &mut Walk,
    instr: Option<Instr>,
    known: &[bool],
    stored: &mut Stored,
    changes: &Changes,
) -> Option<u32>
    requires { IfSome instr (λ instr. IsInstructionAt instr walk.old.regs.pc walk.old.space.bytes) }
    ensures { IfSome result (IsStepOf known.now stored.old stored.new changes.now walk.old walk.new) }
{
    match instr {
        Some(instr) => execute_step(walk, instr, known, stored, changes),
        None => serve(walk, known, stored, changes),
    }
}

// Returns whether the instruction at PC is the routine's own RTS, with known bytes. Before it S is the same as at the
// entry.
fn is_own_rts(known: &[bool], stored: &Stored, instr: Instr, regs: &Regs) -> bool
    ensures { IsTrue result → IsOwnRts known.now stored.now instr (registers_of regs.now) }
{
    if regs.s != ENTRY_S {
        return false;
    }
    match (instr.mnemonic, instr.mode) {
        (Mnemonic::Rts, Mode::Implied) => {
            is_code_off_stack(regs.pc) && is_fetch_known(known, stored, regs.pc, instr.mode)
        }
        _ => false,
    }
}

/// A routine in progress: registers, RAM, the registers and flags that are known, and the cycles since its entry.
#[derive(Drop)]
pub struct Walk {
    pub regs: Regs,
    pub space: AddressSpace<Global>,
    pub parts: KnownParts,
    pub cycles: u32,
}

/// Runs a routine from its entry, with S = $FD, to its own RTS, before which S is $FD again. Returns the steps up to
/// that point.
///
/// Returns `None` if the routine does not get there within the largest number of steps, depends on a byte, a register
/// or a flag that is not known, or stores where it may not. `known` marks the addresses of RAM that are known at the
/// entry. The addresses that are stored at become marked.
pub fn run_to_own_rts(
    walk: &mut Walk,
    known: &[bool],
    stored: &mut Stored,
    changes: &Changes,
    most: u32,
) -> Option<u32>
    requires stored { (a : ℕ) → walking.is_set stored.old a ≡ false }
    requires cycles { walk.old.cycles ≡ 0 }
    requires s { walk.old.regs.s ≡ 0xFD }
    ensures { IfSome result (λ steps. (steps < most) × ReachesOwnRts known.now stored.new walk.old.parts walk.new.parts changes.now
        (registers_of walk.old.regs) walk.old.space (registers_of walk.new.regs) walk.new.space walk.new.cycles steps) }
{
    for steps in 0..most {
        let instr = instr_at(walk.regs.pc, &walk.space);
        if let Some(instr) = instr
            && is_own_rts(known, stored, instr, &walk.regs)
        {
            return Some(steps);
        }
        let cycles = go_on(walk, instr, known, stored, changes)?;
        walk.cycles = walk.cycles.checked_add(cycles)?;
    }
    None
}
