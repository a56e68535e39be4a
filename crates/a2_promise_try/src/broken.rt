//! Finds which part of a promise a run does not keep.

use crate::exit::{Exit, TrialRun};
use crate::printing::prints_as_promised;
use crate::trial_machine::TrialMachine;
use a2_bus::Bus;
use a2_cpu::Regs;
use a2_promise::{Changes, Clause, Expr, Operation, Promise, StateView, Text, Visit, value_in};
use a2_promise_certify::{Input, NO_NAMES, is_own_stack, may_change, number_of, sight_of};
use std::alloc::{AllocError, Global};

/// Why a clause is not met.
#[derive(Clone, Copy)]
pub enum Unmet {
    /// The fact is false. If a comparison decides it, holds the values of the two sides.
    Fact(Option<(i64, i64)>),
    /// The clause has no value.
    NoValue,
    /// The measure is below 0.
    BelowZero(i64),
    /// The measure is not less than before when the run returns to the label: its old value, and its new one.
    NotLess(i64, i64),
}

/// The part of a promise that is not kept.
#[derive(Clone, Copy)]
pub enum Broken {
    /// The routine leaves in this way instead of returning.
    Left(Exit),
    /// The clause in this line is not met, either after the routine or when a run reaches its label.
    Line(usize, Unmet),
    /// The routine does not print the text with this index.
    Prints(usize),
    /// Typed keys are left.
    Keys,
    /// A register that is not listed in `changes`, its value before the routine, and its value after it.
    Register(Input, u8, u8),
    /// The same for a byte of RAM.
    Byte(u16, u8, u8),
}

// Returns the two sides of the comparison that decides a fact. For two facts joined by `and`, this is in the first
// one that is false.
fn sides(
    expr: &Expr,
    entry: &StateView<Global>,
    exit: &StateView<Global>,
    visits: &[Visit<Global>],
) -> Option<(i64, i64)> {
    match expr {
        Expr::Pair(Operation::Equal | Operation::Less | Operation::AtMost, left, right) => {
            let left = value_in(left, entry, exit, visits, NO_NAMES)?;
            Some((left, value_in(right, entry, exit, visits, NO_NAMES)?))
        }
        Expr::Choice(by, one, other) => {
            if value_in(by, entry, exit, visits, NO_NAMES)? != 0 {
                sides(one, entry, exit, visits)
            } else if number_of(other).is_some() {
                sides(by, entry, exit, visits)
            } else {
                sides(other, entry, exit, visits)
            }
        }
        _ => None,
    }
}

/// Returns the first clause that is not met.
pub(crate) fn broken_line(
    clauses: &[Clause],
    entry: &StateView<Global>,
    exit: &StateView<Global>,
    visits: &[Visit<Global>],
) -> Option<Broken> {
    for clause in clauses {
        let unmet = match value_in(&clause.expr, entry, exit, visits, NO_NAMES) {
            None => Unmet::NoValue,
            Some(0) => Unmet::Fact(sides(&clause.expr, entry, exit, visits)),
            Some(_) => continue,
        };
        return Some(Broken::Line(clause.line, unmet));
    }
    None
}

// Returns a register that differs from before but must not.
fn broken_register(changes: &Changes, before: &Regs, following: &Regs) -> Option<Broken> {
    let registers = [
        (Input::A, changes.a, before.a, following.a),
        (Input::X, changes.x, before.x, following.x),
        (Input::Y, changes.y, before.y, following.y),
    ];
    for (register, may, before, following) in registers {
        if !may && before != following {
            return Some(Broken::Register(register, before, following));
        }
    }
    None
}

// Returns a byte that differs from before but must not.
fn broken_byte(changes: &Changes, machine: &TrialMachine) -> Option<Broken> {
    for address in machine.stored.places() {
        let address = *address;
        if is_own_stack(address) || may_change(changes, address) {
            continue;
        }
        if let (Some(before), Some(now)) = (machine.before.peek(address), machine.now.peek(address))
            && before != now
        {
            return Some(Broken::Byte(address, before, now));
        }
    }
    None
}

// Returns the index of the first text that is not printed after those before it. If everything is printed and more
// follows, returns the last index.
fn unprinted(texts: &[Text], printed: &[u8]) -> usize {
    let mut rest = printed;
    for (index, text) in texts.iter().enumerate() {
        for character in &text.characters {
            match rest {
                [byte, following @ ..] if *byte == 128 + *character % 128 => rest = following,
                _ => return index,
            }
        }
    }
    texts.len().saturating_sub(1)
}

// Returns the part of a promise about texts and keys that is not kept.
fn broken_text(promise: &Promise, machine: &TrialMachine) -> Result<Option<Broken>, AllocError> {
    let printed = machine.printed.as_slice();
    if !prints_as_promised(machine.alloc, &promise.texts, printed)? {
        let index = unprinted(promise.texts.prints.as_slice(), printed);
        return Ok(Some(Broken::Prints(index)));
    }
    if machine.now.waiting().is_empty() {
        Ok(None)
    } else {
        Ok(Some(Broken::Keys))
    }
}

/// Returns the part of a promise that is not kept by a run that began with these registers and has ended.
pub(crate) fn broken_by(
    promise: &Promise,
    machine: &TrialMachine,
    regs: Regs,
    run: &TrialRun,
) -> Result<Option<Broken>, AllocError> {
    if !matches!(run.exit, Exit::Returned) {
        return Ok(Some(Broken::Left(run.exit)));
    }
    let entry = sight_of(&regs, &machine.before, 0, 0);
    let following = sight_of(&run.regs, &machine.now, run.cycles, run.steps);
    if let Some(broken) = broken_line(promise.promised.as_slice(), &entry, &following, &[]) {
        return Ok(Some(broken));
    }
    if let Some(broken) = broken_text(promise, machine)? {
        return Ok(Some(broken));
    }
    if let Some(broken) = broken_register(&promise.changes, &regs, &run.regs) {
        return Ok(Some(broken));
    }
    Ok(broken_byte(&promise.changes, machine))
}
