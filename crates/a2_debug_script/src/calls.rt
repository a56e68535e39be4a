//! Lists of calls to a debugger.

ghost use Rattle.std.specs.Prelude.{◌≡◌, IfOk, IfErr};
ghost use Rattle.a2_debug_script.specs.Calls.{CallDoes, Run, done_or};

use crate::{DebugFault, Debugger, Halt};
use a2_bus::Keys;
use std::alloc::{AllocError, Allocator};

/// A call that may change a debugger, with its argument. The variant has the name of the method.
#[derive(Drop)]
pub enum Call<'a> {
    Step(u32),
    Go(u32),
    TypeKeys(Keys),
    Back(u32),
    SetBreak(&'a [u8]),
    ClearBreak(&'a [u8]),
}

/// The answer of such a call.
#[derive(Clone, Copy, Drop)]
pub enum Answer {
    Halted(Halt),
    Done,
    Refused(DebugFault),
}

// Returns the answer of a call that either succeeds or fails.
fn answer_of(done: Result<(), DebugFault>) -> Answer
    ensures { result ≡ done_or done }
{
    match done {
        Ok(()) => Answer::Done,
        Err(fault) => Answer::Refused(fault),
    }
}

/// Executes one call, and returns its answer.
#[inline(always)]
pub fn perform<A: Allocator + Copy>(debugger: &mut Debugger<A>, call: &Call<'_>) -> Answer
    ensures { CallDoes debugger.old call.now result debugger.new }
{
    match call {
        Call::Step(n) => debugger
            .step(*n)
            .map_or_else(Answer::Refused, Answer::Halted),
        Call::Go(n) => debugger.go(*n).map_or_else(Answer::Refused, Answer::Halted),
        Call::TypeKeys(keys) => answer_of(debugger.type_keys(keys)),
        Call::Back(n) => answer_of(debugger.back(*n)),
        Call::SetBreak(word) => answer_of(debugger.set_break(word)),
        Call::ClearBreak(word) => answer_of(debugger.clear_break(word)),
    }
}

/// Executes a list of calls, one after another, and returns their answers in order. The answers, and the debugger
/// afterwards, are what the definition of a session says about the list. Fails only if memory for the answers runs out,
/// before any call is executed.
pub fn perform_all<A: Allocator + Copy, B: Allocator + Copy>(
    alloc: B,
    debugger: &mut Debugger<A>,
    calls: &[Call<'_>],
) -> Result<Vec<Answer, B>, AllocError>
    ensures answers { IfOk result (λ answers. Run debugger.old calls.now answers.items debugger.new) }
    ensures refused { IfErr result (λ _. debugger.new ≡ debugger.old) }
{
    let mut answers = Vec::with_capacity(alloc, calls.len())?;
    for call in calls {
        answers.push_reserved(perform(debugger, call));
    }
    Ok(answers)
}
