//! Laws of promises. These functions are theorems and have no effect as code.

ghost use Rattle.a2_promise_certify.specs.Everywhere.{PromisesHoldEverywhere};
ghost use Rattle.a2_promise_certify.specs.Returning.{AnRtsKeepsAll};

use a2_promise::values_depend_only_on_reads;

/// A theorem, which does nothing as code: a promise that is kept in each state of its inputs is kept in every world
/// at the routine's entry that meets its requirements. Neither the routine nor the promise may depend on anything
/// else that is not fixed.
pub fn promises_hold_everywhere()
    ensures { PromisesHoldEverywhere }
{
    values_depend_only_on_reads();
}

/// A theorem, which does nothing as code: such a promise exists. A routine that is only an RTS keeps the promise that
/// changes nothing.
pub fn an_rts_keeps_all()
    ensures { AnRtsKeepsAll }
{}
