//! Calling a service with the packed registers and a board.

ghost use Rattle.std.specs.Prelude.{◌≡◌, length};
ghost use Rattle.a2_effect.specs.View.{spare_bits_of, registers_of};
ghost use Rattle.a2_services.specs.Called.{IsCalled, KeepsUnreachedBytes, OnServed, OnUnserved};

use crate::{Served, Service, live};
use a2_bus::Board;
use a2_cpu::Regs;
use a2_effect::Live;
use std::alloc::Allocator;

/// Calls a service as [`live::call`] does, and updates registers and board. An executed call clears bits 5 and 4 of the flags
/// byte, which are not flags. The board's cached screen is not read: a row that the call changed counts as marked, as described
/// at [`Board::marked`].
pub fn call<A: Allocator>(service: Service, regs: &mut Regs, board: &mut Board<A>) -> Served
    ensures called { IsCalled service (registers_of regs.old) board.old.bus (registers_of regs.new) board.new.bus result }
    ensures refused { OnUnserved result ((regs.new ≡ regs.old) × (board.new ≡ board.old)) }
    ensures spare { OnServed result (spare_bits_of regs.new.p ≡ 0) }
    ensures unreached { KeepsUnreachedBytes service board.old.bus board.new.bus }
    ensures picture { board.new.picture ≡ board.old.picture }
    ensures size { length board.new.bus.bytes ≡ length board.old.bus.bytes }
{
    let mut apart = Live::of(regs);
    let answer = live::call(service, &mut apart, board.space_mut());
    if let Served::Next(_) = answer {
        *regs = apart.regs();
    }
    answer
}
