//! Decides whether everything that clauses depend on is known.

ghost use Rattle.std.specs.Prelude.{◌≡◌, ℕ, pos, IsTrue, slice_set};
ghost use Rattle.a2_promise.specs.ReadsOfValues.{KnowsMade, Knows, IsBelow};
ghost use Rattle.a2_promise.specs.Values.{moment_of, count_of};
ghost use Rattle.a2_promise_certify.specs.Kept.{knows_atom as is_atom_known, AreClausesKnown};
ghost use Rattle.a2_promise_certify.specs.Walking.{knows_part};
ghost use Rattle.a2_promise_certify.specs.Looking.{known_of};

use crate::allowed::is_in_stack;
use crate::clauses::{NO_NAMES, holds};
use crate::known_parts::KnownParts;
use crate::marks::is_known;
use a2_footprint::Part;
use a2_promise::{Atom, Bounds, Clause, Expr, Function, StateView, value};
use std::alloc::Global;

/// A state as promises see it, and what is known of it. Bytes of RAM are known by two sets of marks: those at the
/// entry and those of later stores. Registers and flags are listed in `parts`.
#[derive(Clone, Copy)]
pub(crate) struct View<'k, 's> {
    pub sight: StateView<'s, Global>,
    pub known: &'k [bool],
    pub stored: &'k [bool],
    pub parts: KnownParts,
}

// Returns whether the value of an atom is known. Cycles and steps are always known. S never is, since a routine may
// be entered with any S.
fn is_atom(view: &View, atom: Atom) -> bool
    ensures { result ≡ is_atom_known (knows_part view.now.parts) atom }
{
    match atom {
        Atom::A => view.parts.has(Part::A),
        Atom::X => view.parts.has(Part::X),
        Atom::Y => view.parts.has(Part::Y),
        Atom::Carry => view.parts.has(Part::C),
        Atom::Zero => view.parts.has(Part::Z),
        Atom::Negative => view.parts.has(Part::N),
        Atom::Overflow => view.parts.has(Part::V),
        Atom::Decimal => view.parts.has(Part::D),
        Atom::Interrupt => view.parts.has(Part::I),
        Atom::S => false,
        Atom::Cycles | Atom::Steps => true,
    }
}

// Returns whether the byte at an address is known. No byte in the stack's page is, since with another S the same data
// is at another address.
fn is_seen(view: &View, address: u16) -> bool
    ensures { result ≡ (known_of view.now).bytes address }
{
    !is_in_stack(address) && is_known(view.known, view.stored, address)
}

// Returns whether everything that a function of this number depends on is known.
fn is_function_known(view: &View, function: Function, number: Option<i64>) -> bool
    ensures { IsTrue result → KnowsMade function (known_of view.now) number }
{
    let Some(number @ 0..65536) = number else {
        return true;
    };
    let address = number as u16;
    match function {
        Function::Byte => is_seen(view, address),
        Function::Word => is_seen(view, address) && is_seen(view, address.wrapping_add(1)),
        Function::Signed | Function::Abs => true,
    }
}

// Returns the numbers bound to names, with one of them replaced.
fn with_bound(names: Bounds, name: u8, number: i64) -> Bounds
    ensures { result ≡ slice_set names name number }
{
    let mut names = names;
    let place = usize::from(name);
    if place < names.len() {
        names[place] = number;
    }
    names
}

// Returns whether everything that an expression depends on is known, for each number below a limit that a name counts
// through. The limit itself may be missing.
#[cycle(looks)]
fn is_each_known<'k, 's>(
    name: u8,
    count: Option<i64>,
    body: &Expr,
    entry: &View<'k, 's>,
    exit: &View<'k, 's>,
    names: Bounds,
) -> bool
    ensures { IsTrue result → (k : ℕ) → IsBelow k (count_of count) → Knows body.now (known_of entry.now) (known_of exit.now)
        (moment_of entry.now.sight) (moment_of exit.now.sight) (slice_set names name (pos k)) }
{
    let Some(count @ 0..65536) = count else {
        return true;
    };
    for number in 0..count {
        if !is_expression_known(body, entry, exit, with_bound(names, name, number)) {
            return false;
        }
    }
    true
}

// Returns whether everything that an expression depends on is known, with these numbers bound to names.
#[cycle(looks)]
fn is_expression_known<'k, 's>(
    expr: &Expr,
    entry: &View<'k, 's>,
    exit: &View<'k, 's>,
    names: Bounds,
) -> bool
    ensures { IsTrue result → Knows expr.now (known_of entry.now) (known_of exit.now)
        (moment_of entry.now.sight) (moment_of exit.now.sight) names }
{
    match expr {
        Expr::Number(_) | Expr::Bound(_) | Expr::At(_, _) => true,
        Expr::Held(atom) => is_atom(exit, *atom),
        Expr::Old(of) => is_expression_known(of, entry, entry, names),
        Expr::Of(function, of) => {
            is_expression_known(of, entry, exit, names)
                && is_function_known(exit, *function, value(of, &entry.sight, &exit.sight, names))
        }
        Expr::Pair(_, left, right) => {
            is_expression_known(left, entry, exit, names)
                && is_expression_known(right, entry, exit, names)
        }
        Expr::Choice(by, yes, no) => {
            is_expression_known(by, entry, exit, names)
                && match value(by, &entry.sight, &exit.sight, names) {
                    None => true,
                    chosen if holds(chosen) => is_expression_known(yes, entry, exit, names),
                    Some(_) => is_expression_known(no, entry, exit, names),
                }
        }
        Expr::Each(name, count, body) | Expr::Sum(name, count, body) => {
            let number = value(count, &entry.sight, &exit.sight, names);
            is_expression_known(count, entry, exit, names)
                && is_each_known(*name, number, body, entry, exit, names)
        }
    }
}

/// Returns whether everything that clauses depend on is known, given the state in which a routine is entered and one
/// in which it returns.
pub(crate) fn are_clauses_known<'k, 's>(
    clauses: &[Clause],
    entry: &View<'k, 's>,
    exit: &View<'k, 's>,
) -> bool
    ensures { IsTrue result → AreClausesKnown clauses.now (known_of entry.now) (known_of exit.now)
        (moment_of entry.now.sight) (moment_of exit.now.sight) }
{
    for clause in clauses {
        if !is_expression_known(&clause.expr, entry, exit, NO_NAMES) {
            return false;
        }
    }
    true
}
