//! The numbers and names in the expressions of a line.

use a2_syntax::{Body, Expr, Part, Term};
use std::alloc::Allocator;

/// Returns the value of an expression that is a single number, or `None`.
pub(crate) fn single_number<A: Allocator>(e: &Expr<A>) -> Option<u16> {
    match (e.part, e.terms.get()) {
        (Part::Whole, [signed]) if !signed.minus => match &signed.term {
            Term::Number(n) => Some(*n),
            _ => None,
        },
        _ => None,
    }
}

// Returns the first of these expressions that is a number above 255.
fn first_above<A: Allocator>(es: &[Expr<A>]) -> Option<u16> {
    for e in es {
        if let Some(n) = single_number(e) {
            if n > 255 {
                return Some(n);
            }
        }
    }
    None
}

/// Returns the value of a line that is out of range, if it is written as a number.
pub(crate) fn literal<A: Allocator>(body: &Body<A>) -> Option<u16> {
    match body {
        Body::Instr(_, operand) => single_number(operand.expr()?),
        Body::Dfb(es) => first_above(es.get()),
        _ => None,
    }
}

// Whether an expression contains a name.
fn is_named<A: Allocator>(e: &Expr<A>) -> bool {
    for signed in e.terms.get() {
        if let Term::Named(_) = &signed.term {
            return true;
        }
    }
    false
}

// Whether one of these expressions contains a name.
fn is_one_named<A: Allocator>(es: &[Expr<A>]) -> bool {
    for e in es {
        if is_named(e) {
            return true;
        }
    }
    false
}

/// Whether a line contains a name in an operand that may be out of range.
pub(crate) fn has_name<A: Allocator>(body: &Body<A>) -> bool {
    match body {
        Body::Instr(_, operand) => match operand.expr() {
            Some(e) => is_named(e),
            None => false,
        },
        Body::Dfb(es) => is_one_named(es.get()),
        _ => false,
    }
}

// Returns the name of an expression that is a single name, or `None`.
fn name_of<A: Allocator>(e: &Expr<A>) -> Option<&[u8]> {
    match (e.part, e.terms.get()) {
        (Part::Whole, [signed]) if !signed.minus => match &signed.term {
            Term::Named(name) => Some(name.get().as_bytes()),
            _ => None,
        },
        _ => None,
    }
}

/// Returns the name that is the whole operand of an instruction, or `None`.
pub(crate) fn single_name<A: Allocator>(body: &Body<A>) -> Option<&[u8]> {
    match body {
        Body::Instr(_, operand) => name_of(operand.expr()?),
        _ => None,
    }
}
