//! Tries a promise by entering its routine in many states.

ghost use Rattle.std.specs.Prelude.{IfOk, IsTrue};
ghost use Rattle.a2_hex.specs.Images.{held};
ghost use Rattle.a2_promise_certify.specs.Entering.{IsKeptEverywhere};
ghost use Rattle.a2_promise_try.specs.Certain.{IsCertain, most_steps};
ghost use Rattle.a2_promise_try.specs.Printing.{HasNoText};

use crate::broken::Broken;
use crate::exit::TrialRun;
use crate::named_inputs::{Inputs, inputs_of, is_among, named_by};
use crate::printing::has_no_text;
use crate::reads_of::{Between, add_read, bytes_of};
use crate::shrinking::shrink_values;
use crate::trial_machine::{
    MAX_INPUTS_READ, ROUTINE_MAX_STEPS, TrialMachine, keys_taken, last_steps,
};
use crate::trial_states::{Tried, enter, put_values, regs_at_entry, try_state};
use crate::verdict::{Doubt, Failure, Held, PromiseVerdict, Trials};
use a2_asm::Program;
use a2_bus::Bus;
use a2_cpu::Regs;
use a2_promise::{Atom, Clause, Expr, Found, Promise};
use a2_promise_certify::{Input, NO_NAMES, holds_in_every_state, sight_of};
use std::alloc::{AllocError, Global};

// Returns the text to report for a failure: what was printed, or the keys that are left.
fn report_text(machine: &TrialMachine, broken: Broken) -> Result<Vec<u8>, AllocError> {
    let mut told = Vec::new(machine.alloc);
    match broken {
        Broken::Prints(_) => told.extend_from_slice(machine.printed.as_slice())?,
        Broken::Keys => {
            for key in machine.now.waiting() {
                told.push(128 + *key % 128)?;
            }
        }
        _ => {}
    }
    Ok(told)
}

// Returns the clause in a line of a promise.
fn clause_in<'p, 'a>(promise: &'p Promise<'a>, line: usize) -> Option<&'p Clause<'a>> {
    for clause in promise.promised.as_slice() {
        if clause.line == line {
            return Some(clause);
        }
    }
    None
}

// Inputs, each with its value at the entry.
#[derive(Drop)]
struct Entered {
    inputs: Vec<Input>,
    values: Vec<u8>,
}

// Returns the bytes that a run looked at, except the inputs that are varied, and those that the clause reads that it
// broke, given the registers at its entry.
fn bytes_read(
    machine: &TrialMachine,
    promise: &Promise,
    regs: Regs,
    broken: Broken,
    run: &TrialRun,
) -> Result<Vec<u16>, AllocError> {
    let mut read = Vec::from_slice(machine.alloc, machine.looked.as_slice())?;
    if let Broken::Line(line, _) = broken
        && let Some(clause) = clause_in(promise, line)
    {
        let between = Between {
            entry: sight_of(&regs, &machine.before, 0, 0),
            exit: sight_of(&run.regs, &machine.now, run.cycles, run.steps),
        };
        add_read(&mut read, &between, &clause.expr, NO_NAMES)?;
    }
    bytes_of(machine.alloc, read.as_slice())
}

// Returns inputs and these bytes, all with their values at the entry.
fn entered_with(
    machine: &TrialMachine,
    inputs: &[Input],
    values: &[u8],
    bytes: &[u16],
) -> Result<Entered, AllocError> {
    let mut entered = Entered {
        inputs: Vec::from_slice(machine.alloc, inputs)?,
        values: Vec::from_slice(machine.alloc, values)?,
    };
    for address in bytes {
        if !is_among(inputs, Input::Byte(*address)) {
            entered.inputs.push(Input::Byte(*address))?;
            entered
                .values
                .push(machine.before.peek(*address).unwrap_or(0))?;
        }
    }
    Ok(entered)
}

// Collects what is reported of a state that breaks the promise.
fn failure_of(
    machine: &mut TrialMachine,
    promise: &Promise,
    inputs: &Inputs,
    values: &[u8],
) -> Result<PromiseVerdict, AllocError> {
    let all = inputs.all.as_slice();
    machine.looked.clear();
    let Tried::Broken(broken, run) = try_state(machine, promise, all, values)? else {
        return Ok(PromiseVerdict::NoState(0));
    };
    let told = report_text(machine, broken)?;
    let regs = regs_at_entry(all, values, promise.address);
    let bytes = bytes_read(machine, promise, regs, broken, &run)?;
    let Entered {
        inputs: shown,
        values: shown_values,
    } = entered_with(machine, all, values, bytes.as_slice())?;
    let regs = enter(machine, all, values, promise.address);
    let last = last_steps(machine, regs, run.steps)?;
    Ok(PromiseVerdict::Fails(Failure {
        inputs: shown,
        looked: inputs.varied().len(),
        values: shown_values,
        keys: keys_taken(&promise.texts),
        broken,
        fall_through: machine.fall_through,
        told,
        steps: run.steps,
        regs: run.regs,
        last,
    }))
}

// Returns whether a clause of a promise says something about S or D.
fn says_atom(clauses: &[Clause], atom: Atom) -> bool {
    for clause in clauses {
        if has_atom(&clause.expr, atom) {
            return true;
        }
    }
    false
}

// Returns whether two of S and D are the same.
fn are_same(one: Atom, other: Atom) -> bool {
    matches!(
        (one, other),
        (Atom::S, Atom::S) | (Atom::Decimal, Atom::Decimal)
    )
}

// Returns whether an expression names S or D.
fn has_atom(expr: &Expr, atom: Atom) -> bool {
    match expr {
        Expr::Number(_) | Expr::Bound(_) => false,
        Expr::Held(held) => are_same(*held, atom),
        Expr::Old(of) | Expr::At(_, of) | Expr::Of(_, of) => has_atom(of, atom),
        Expr::Pair(_, left, right) | Expr::Each(_, left, right) | Expr::Sum(_, left, right) => {
            has_atom(left, atom) || has_atom(right, atom)
        }
        Expr::Choice(by, one, other) => {
            has_atom(by, atom) || has_atom(one, atom) || has_atom(other, atom)
        }
    }
}

// Returns why a promise that held in every state tried may not be known to hold in every state.
fn doubt_of(machine: &TrialMachine, promise: &Promise) -> Doubt {
    let (wanted, promised) = (promise.wanted.as_slice(), promise.promised.as_slice());
    if !promise.texts.prints.is_empty() {
        Doubt::Prints
    } else if !promise.texts.takes.is_empty() {
        Doubt::Takes
    } else if machine.has_moved_s || says_atom(wanted, Atom::S) || says_atom(promised, Atom::S) {
        Doubt::Stack
    } else if says_atom(wanted, Atom::Decimal) || says_atom(promised, Atom::Decimal) {
        Doubt::Decimal
    } else if let Some(service) = machine.service {
        Doubt::Service(service)
    } else {
        Doubt::Other
    }
}

/// The least number of trials, so that inputs that are not named take several values.
pub(crate) const LEAST_TRIED: u64 = 4096;

// Returns the verdict on a promise that was kept in this many states and broken in none.
fn unbroken(
    machine: &TrialMachine,
    promise: &Promise,
    inputs: &Inputs,
    kept: u64,
    tried: u64,
) -> Result<PromiseVerdict, AllocError> {
    if kept == 0 {
        return Ok(PromiseVerdict::NoState(tried));
    }
    Ok(PromiseVerdict::Held(Held {
        inputs: Vec::from_slice(machine.alloc, inputs.varied())?,
        kept,
        tried,
        total: inputs.states,
        is_everywhere: false,
        doubt: doubt_of(machine, promise),
        laid: Vec::from_slice(machine.alloc, machine.laid.as_slice())?,
        fall_through: machine.fall_through,
    }))
}

// Tries states of the inputs until one breaks the promise. Returns `None` if a run reads an input that is not varied.
fn try_inputs(
    machine: &mut TrialMachine,
    promise: &Promise,
    inputs: &Inputs,
    corners: &[u8],
    trials: Trials,
) -> Result<Option<PromiseVerdict>, AllocError> {
    for input in inputs.varied() {
        machine.know(*input);
    }
    let all = inputs.all.as_slice();
    let mut values = vec![in machine.alloc; 0u8; all.len()]?;
    let is_all = inputs.states <= trials.all;
    let states = if is_all { inputs.states } else { trials.some };
    let looked = machine.looked.len();
    let mut kept: u64 = 0;
    for number in 0..states.max(LEAST_TRIED) {
        put_values(values.as_mut_slice(), inputs, corners, number, is_all);
        match try_state(machine, promise, all, values.as_slice())? {
            Tried::Kept if number < states => kept = kept.saturating_add(1),
            Tried::Kept | Tried::LeftOut => {}
            Tried::Broken(_, run) => {
                shrink_values(machine, promise, all, values.as_mut_slice(), run.steps)?;
                return Ok(Some(failure_of(machine, promise, inputs, values.as_slice())?));
            }
        }
        if machine.looked.len() != looked {
            return Ok(None);
        }
    }
    Ok(Some(unbroken(machine, promise, inputs, kept, states)?))
}

// Creates the machine for the routine of a promise, given all promises found.
fn trial_machine_of(
    alloc: Global,
    program: &Program<Global>,
    found: &[Found],
    promise: &Promise,
) -> Result<TrialMachine, AllocError> {
    let mut machine = TrialMachine::new(alloc, program)?;
    machine.set_texts(&promise.texts);
    for other in found {
        if let Found::Promise(other) = other
            && other.address != promise.address
        {
            machine.begin_at(other.address);
        }
    }
    Ok(machine)
}

// Tries a promise in states only, without a proof for all of them.
fn try_states(
    machine: &mut TrialMachine,
    program: &Program<Global>,
    promise: &Promise,
    trials: Trials,
) -> Result<PromiseVerdict, AllocError> {
    let named = named_by(machine.alloc, program, promise)?;
    // Each round except the last finds at least one more input, and at most this many are recorded.
    for _ in 0..=MAX_INPUTS_READ {
        let inputs = inputs_of(
            machine.alloc,
            promise,
            named.inputs.as_slice(),
            machine.looked.as_slice(),
        )?;
        if let Some(verdict) = try_inputs(
            machine,
            promise,
            &inputs,
            named.corners.as_slice(),
            trials,
        )? {
            return Ok(verdict);
        }
    }
    Ok(PromiseVerdict::NoState(0))
}

// Returns whether a promise that held in all states of these inputs is known to hold everywhere. If it says anything
// about printing or keys, the answer is always no.
fn is_certain(
    alloc: Global,
    program: &Program<Global>,
    promise: &Promise,
    inputs: &[Input],
) -> Result<bool, AllocError>
    ensures { IfOk result (λ certain. IsTrue certain
        → HasNoText promise.now.texts × IsKeptEverywhere (held program.now.image) promise.now inputs.now most_steps) }
{
    if !has_no_text(&promise.texts) {
        return Ok(false);
    }
    holds_in_every_state(alloc, program.image(), promise, inputs, ROUTINE_MAX_STEPS)
}

// Returns the verdict on a promise. If the promise held in all states, includes whether it holds everywhere.
fn certified(
    alloc: Global,
    program: &Program<Global>,
    promise: &Promise,
    verdict: PromiseVerdict,
) -> Result<PromiseVerdict, AllocError>
    ensures { IfOk result (IsCertain (held program.now.image) promise.now most_steps) }
{
    match verdict {
        PromiseVerdict::Held(held) => {
            let is_everywhere = held.tried == held.total
                && is_certain(alloc, program, promise, held.inputs.as_slice())?;
            Ok(PromiseVerdict::Held(Held {
                is_everywhere,
                ..held
            }))
        }
        other => Ok(other),
    }
}

/// Tries one of the promises found in a program's source. The routine is entered in states of the inputs that the
/// promise names, and of those that the routine reads before it sets them; they are found while it runs. Bytes that
/// the program lays have the program's values, unless the promise names them.
///
/// If the promise held in all states, and neither it nor the routine reads anything else, it holds in every world.
/// That means every world in which the routine is entered as the promise requires, wherever S points, within
/// 1,000,000 steps. This is never claimed of a promise that says anything about printing or keys. Fails only if
/// memory runs out.
pub fn try_promise(
    alloc: Global,
    program: &Program<Global>,
    found: &[Found],
    promise: &Promise,
    trials: Trials,
) -> Result<PromiseVerdict, AllocError>
    ensures { IfOk result (IsCertain (held program.now.image) promise.now most_steps) }
{
    let mut machine = trial_machine_of(alloc, program, found, promise)?;
    let verdict = try_states(&mut machine, program, promise, trials)?;
    certified(alloc, program, promise, verdict)
}
