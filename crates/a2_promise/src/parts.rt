//! An expression as a list of its parts in postfix order: each part comes after its operands.

ghost use Rattle.std.specs.Prelude.{◌≡◌, List, [], ◌∷◌, IfOk, OnOk};
ghost use Rattle.a2_promise.specs.Phrases.{Phrase, phrase_of};
ghost use Rattle.a2_promise.specs.Reading.{made as made_of, made_by, stack_of};

use crate::expr::{Atom, Expr, Function, Operation};
use std::alloc::Global;

/// A part of an expression.
#[derive(Clone, Copy)]
pub(crate) enum Part {
    Number(i64),
    Held(Atom),
    Bound(u8),
    Old,
    At(u16),
    Of(Function),
    Pair(Operation),
    /// An operation whose operands are exchanged: the last expression, then the one before it.
    Turned(Operation),
    Choice,
    Each(u8),
    Sum(u8),
}

/// Why a list of parts is not an expression.
#[derive(Clone, Copy)]
pub(crate) enum PartsError {
    TooFew,
    Memory,
}

// Pushes an expression.
fn push(made: &mut Vec<Expr>, expr: Expr) -> Result<(), PartsError>
    ensures { OnOk result (stack_of made.new.items ≡ phrase_of expr ∷ stack_of made.old.items) }
{
    match made.push(expr) {
        Ok(()) => Ok(()),
        Err(_) => Err(PartsError::Memory),
    }
}

// Pops the topmost expression into a box.
fn pop(alloc: Global, made: &mut Vec<Expr>) -> Result<Box<Expr>, PartsError>
    ensures { IfOk result (λ box. stack_of made.old.items ≡ phrase_of box.value ∷ stack_of made.new.items) }
{
    let Some(expr) = made.pop() else {
        return Err(PartsError::TooFew);
    };
    match Box::new(alloc, expr) {
        Ok(top) => Ok(top),
        Err(_) => Err(PartsError::Memory),
    }
}

// Replaces the topmost expression by what a part makes of it.
fn push_of_one(alloc: Global, made: &mut Vec<Expr>, it: Part) -> Result<(), PartsError>
    ensures { OnOk result (stack_of made.new.items ≡ made_by it (stack_of made.old.items)) }
{
    let expr = pop(alloc, made)?;
    match it {
        Part::Old => push(made, Expr::Old(expr)),
        Part::At(address) => push(made, Expr::At(address, expr)),
        Part::Of(function) => push(made, Expr::Of(function, expr)),
        _ => Err(PartsError::TooFew),
    }
}

// Replaces the two or three topmost expressions by what a part makes of them.
fn push_of_more(alloc: Global, made: &mut Vec<Expr>, it: Part) -> Result<(), PartsError>
    ensures { OnOk result (stack_of made.new.items ≡ made_by it (stack_of made.old.items)) }
{
    let second = pop(alloc, made)?;
    let first = pop(alloc, made)?;
    match it {
        Part::Pair(operation) => push(made, Expr::Pair(operation, first, second)),
        Part::Turned(operation) => push(made, Expr::Pair(operation, second, first)),
        Part::Each(name) => push(made, Expr::Each(name, first, second)),
        Part::Sum(name) => push(made, Expr::Sum(name, first, second)),
        Part::Choice => {
            let by = pop(alloc, made)?;
            push(made, Expr::Choice(by, first, second))
        }
        _ => Err(PartsError::TooFew),
    }
}

// Applies a part to the topmost expressions.
fn push_part(alloc: Global, made: &mut Vec<Expr>, it: Part) -> Result<(), PartsError>
    ensures { OnOk result (stack_of made.new.items ≡ made_by it (stack_of made.old.items)) }
{
    match it {
        Part::Number(number) => push(made, Expr::Number(number)),
        Part::Held(atom) => push(made, Expr::Held(atom)),
        Part::Bound(name) => push(made, Expr::Bound(name)),
        Part::Old | Part::At(_) | Part::Of(_) => push_of_one(alloc, made, it),
        _ => push_of_more(alloc, made, it),
    }
}

/// Returns the expression that has these parts.
pub(crate) fn expr_of(alloc: Global, parts: &[Part]) -> Result<Expr, PartsError>
    ensures { IfOk result (λ expr. (more : List Phrase) × (made_of parts.now [] ≡ phrase_of expr ∷ more)) }
{
    let mut made = Vec::new(alloc);
    for part in parts {
        push_part(alloc, &mut made, *part)?;
    }
    match made.pop() {
        Some(expr) => Ok(expr),
        None => Err(PartsError::TooFew),
    }
}
