//! Finds bytes that are settled: an equation among the promise's requirements fixes their value.

ghost use Rattle.std.specs.Prelude.{◌≡◌, pos, Some, slice_get, IfOk, IfSome, IsTrue};
ghost use Rattle.a2_promise.specs.Values.{Moment, made, operated_on, value_of};
ghost use Rattle.a2_promise.specs.declared.expr.Expr.TheVariants.{Number};
ghost use Rattle.a2_promise.specs.declared.expr.Operation.TheVariants.{Equal};
ghost use Rattle.a2_promise_certify.specs.But.{IsEqualExcept};
ghost use Rattle.a2_promise_certify.specs.Judging.{holds, no_names};
ghost use Rattle.a2_promise_certify.specs.Settling.{AreBytes, AreSettled, ClausesSettle, IsSettled, Settles};
ghost use Rattle.a2_promise_certify.specs.States.{is_byte};

use crate::input::{Input, is_named};
use a2_bus::{AddressSpace, Bus};
use a2_hex::RAM_END;
use a2_promise::{Clause, Expr, Function, Operation};
use std::alloc::{AllocError, Global};

/// Returns the number that an expression is written as, or `None` for any other expression.
pub fn number_of(expr: &Expr) -> Option<i64>
    ensures { IfSome result (λ number. expr.now ≡ Number number) }
{
    match expr {
        Expr::Number(number) => Some(*number),
        _ => None,
    }
}

// Returns the byte at an address that is fixed if a function of a place equals a number. For a word, its low byte
// must be an input.
fn settled_of(
    among: &[Input],
    function: Function,
    place: i64,
    number: i64,
    address: u16,
) -> Option<u8>
    ensures { IfSome result (λ byte. (m : Moment) → AreBytes among.now m.bytes → made function m.bytes place ≡ Some number
        → slice_get m.bytes address ≡ Some byte) }
{
    if number < 0 || 65535 < number || place < 0 || 65535 < place {
        return None;
    }
    let (number, place) = (number as u16, place as u16);
    match function {
        Function::Byte if place == address && number < 256 => Some((number % 256) as u8),
        Function::Word if place == address && is_named(among, place) => Some((number % 256) as u8),
        Function::Word if place.wrapping_add(1) == address && is_named(among, place) => {
            Some((number / 256) as u8)
        }
        _ => None,
    }
}

// Returns the byte at an address that is fixed if the left side equals the number on the right side.
fn settled_between(among: &[Input], left: &Expr, right: &Expr, address: u16) -> Option<u8>
    ensures { IfSome result (Settles (λ m. holds (operated_on Equal (value_of left.now m m no_names)
        (value_of right.now m m no_names)))
        among.now address) }
{
    let number = number_of(right)?;
    let Expr::Of(function, of) = left else {
        return None;
    };
    settled_of(among, *function, number_of(of)?, number, address)
}

// Returns the byte at an address that is fixed if an expression holds. The expression is an equation, or implies one.
fn settled_by(among: &[Input], expr: &Expr, address: u16) -> Option<u8>
    ensures { IfSome result (Settles (λ m. holds (value_of expr.now m m no_names)) among.now address) }
{
    match expr {
        Expr::Pair(Operation::Equal, left, right) => {
            match settled_between(among, left, right, address) {
                Some(byte) => Some(byte),
                None => settled_between(among, right, left, address),
            }
        }
        // This is how the conjunction of two conditions is represented.
        Expr::Choice(by, one, other) => {
            if number_of(other)? != 0 {
                return None;
            }
            match settled_by(among, by, address) {
                Some(byte) => Some(byte),
                None => settled_by(among, one, address),
            }
        }
        _ => None,
    }
}

/// Returns the byte at an address in every state in which the clauses hold, if an equation among them fixes it,
/// otherwise `None`. In these states a byte that is one of the inputs `among` is below 256.
pub fn settled_byte(among: &[Input], clauses: &[Clause], address: u16) -> Option<u8>
    ensures { IfSome result (ClausesSettle clauses.now among.now address) }
{
    let [clause, rest @ ..] = clauses else {
        return None;
    };
    match settled_by(among, &clause.expr, address) {
        Some(byte) => Some(byte),
        None => settled_byte(among, rest, address),
    }
}

// Writes the byte of an input into RAM, if the clauses settle it.
fn write_settled(
    among: &[Input],
    clauses: &[Clause],
    input: Input,
    space: &mut AddressSpace<Global>,
) -> bool
    ensures laid { IsTrue result → IsSettled clauses.now among.now input space.new }
    ensures rest { IsEqualExcept (λ a. is_byte a input) space.new space.old }
{
    let Input::Byte(address) = input else {
        return false;
    };
    if address >= RAM_END {
        return false;
    }
    let Some(byte) = settled_byte(among, clauses, address) else {
        return false;
    };
    space.write(address, byte);
    true
}

/// Writes the inputs' bytes that the clauses settle into RAM, and returns the other inputs, which are free.
pub(crate) fn settle(
    alloc: Global,
    among: &[Input],
    clauses: &[Clause],
    inputs: &[Input],
    space: &mut AddressSpace<Global>,
) -> Result<Vec<Input>, AllocError>
    ensures { IfOk result (λ free. AreSettled clauses.now among.now inputs.now free.items space.old space.new) }
{
    let [input, rest @ ..] = inputs else {
        return Ok(Vec::new(alloc));
    };
    let mut free = settle(alloc, among, clauses, rest, space)?;
    if write_settled(among, clauses, *input, space) {
        return Ok(free);
    }
    free.push(*input)?;
    Ok(free)
}
