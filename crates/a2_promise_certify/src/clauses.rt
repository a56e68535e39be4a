//! Evaluates the clauses of a promise, given the state in which a routine is entered and one in which it returns.

ghost use Rattle.std.specs.Prelude.{◌≡◌, length};
ghost use Rattle.a2_bus.specs.Memory.{ram_end};
ghost use Rattle.a2_bus.specs.View.{memory_of};
ghost use Rattle.a2_effect.specs.View.{registers_of};
ghost use Rattle.a2_promise.specs.Values.{moment_of};
ghost use Rattle.a2_promise_certify.specs.Judging as judging;
ghost use Rattle.a2_promise_certify.specs.Kept.{bytes_of as ram_bytes_of};

use a2_bus::{AddressSpace, Bus};
use a2_cpu::Regs;
use a2_promise::{Bounds, Clause, StateView, value};
use std::alloc::Global;

/// The numbers of names outside of a count: no name is bound to a number there.
pub const NO_NAMES: Bounds = [0; 4];

/// Returns whether a fact with this value holds: the value exists and is not 0.
pub(crate) fn holds(value: Option<i64>) -> bool
    ensures { result ≡ judging.holds value }
{
    match value {
        Some(number) => !(number <= 0 && 0 <= number),
        None => false,
    }
}

/// Returns whether all clauses hold, given the state in which a routine is entered and one in which it returns.
pub fn all_hold(clauses: &[Clause], entry: &StateView<Global>, exit: &StateView<Global>) -> bool
    ensures { result ≡ judging.all_hold clauses.now (moment_of entry.now) (moment_of exit.now) }
{
    clauses
        .iter()
        .all(|clause| holds(value(&clause.expr, entry, exit, NO_NAMES)))
}

/// Returns registers and RAM as promises see them, this many cycles and steps after the entry.
pub fn sight_of<'a>(
    regs: &Regs,
    space: &'a AddressSpace<Global>,
    cycles: u32,
    steps: u32,
) -> StateView<'a, Global>
    ensures moment { moment_of result
        ≡ record { registers = registers_of regs.now; bytes = ram_bytes_of (memory_of space.now); cycles = cycles; steps = steps } }
    ensures size { length space.now.bytes ≡ ram_end }
{
    // Only for the prover, which learns the size of RAM from it.
    let _first = space.peek(0);
    StateView {
        regs: *regs,
        space,
        cycles,
        steps,
    }
}
