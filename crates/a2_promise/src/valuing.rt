//! Evaluates expressions for a state at a routine's entry and a state after it.

ghost use Rattle.std.specs.Prelude.{◌≡◌, pos, slice_set, bit_and, bit_or, bit_xor, MatchOption, Some, None};
ghost use Rattle.a2_promise.specs.Values as values;
ghost use Rattle.a2_promise.specs.Values.{moment_of, value_of};

use crate::expr::{Atom, Expr, Function, Operation};
use a2_bus::{AddressSpace, Bus};
use a2_cpu::Regs;
use std::alloc::Allocator;

/// A state as promises see it: registers, RAM, and the cycles and steps since the entry.
#[derive(Clone, Copy)]
pub struct StateView<'a, A: Allocator> {
    pub regs: Regs,
    pub space: &'a AddressSpace<A>,
    pub cycles: u32,
    pub steps: u32,
}

/// The state when a run last reached the label at an address. It exists only if the run has reached the label.
#[derive(Drop)]
pub struct Visit<A: Allocator> {
    pub address: u16,
    pub is_there: bool,
    pub regs: Regs,
    pub space: AddressSpace<A>,
    pub cycles: u32,
    pub steps: u32,
}

// Returns the state of a visit.
fn sight_of<A: Allocator>(visit: &Visit<A>) -> StateView<'_, A>
    ensures { moment_of result ≡ values.moment_there visit.now }
{
    StateView {
        regs: visit.regs,
        space: &visit.space,
        cycles: visit.cycles,
        steps: visit.steps,
    }
}

// Returns the state of the visit at an address.
fn visited<'v, A: Allocator>(visits: &'v [Visit<A>], address: u16) -> Option<StateView<'v, A>>
    ensures { MatchOption result (values.visited visits.now address ≡ None)
        (λ sight. values.visited visits.now address ≡ Some (moment_of sight)) }
{
    let [visit, rest @ ..] = visits else {
        return None;
    };
    if visit.address == address && visit.is_there {
        return Some(sight_of(visit));
    }
    visited(rest, address)
}

/// The values of the bound names, at most four.
pub type Bounds = [i64; 4];

// Returns 1 for true and 0 for false.
fn digit(holds: bool) -> i64
    ensures { result ≡ values.digit holds }
{
    if holds { 1 } else { 0 }
}

// Returns the value of a register or flag, or a count of the run.
fn held<A: Allocator>(atom: Atom, sight: &StateView<A>) -> i64
    ensures { result ≡ values.held atom (moment_of sight.now) }
{
    let regs = sight.regs;
    match atom {
        Atom::A => i64::from(regs.a),
        Atom::X => i64::from(regs.x),
        Atom::Y => i64::from(regs.y),
        Atom::S => i64::from(regs.s),
        Atom::Carry => digit(regs.p.carry()),
        Atom::Zero => digit(regs.p.zero()),
        Atom::Negative => digit(regs.p.negative()),
        Atom::Overflow => digit(regs.p.overflow()),
        Atom::Decimal => digit(regs.p.decimal()),
        Atom::Interrupt => digit(regs.p.interrupt()),
        Atom::Cycles => i64::from(sight.cycles),
        Atom::Steps => i64::from(sight.steps),
    }
}

// Returns a number if it is from 0 to 65,535.
fn word_in(number: i64) -> Option<u16>
    ensures { result ≡ values.word_in number }
{
    if number < 0 || 65535 < number {
        None
    } else {
        Some(number as u16)
    }
}

// Returns the byte at an address.
fn byte_at<A: Allocator>(space: &AddressSpace<A>, address: Option<u16>) -> Option<i64>
    ensures { result ≡ values.byte_at space.now.bytes address }
{
    match space.peek(address?) {
        Some(byte) => Some(i64::from(byte)),
        None => None,
    }
}

// Returns the two bytes from an address on as a number, low byte first.
fn word_at<A: Allocator>(space: &AddressSpace<A>, address: Option<u16>) -> Option<i64>
    ensures { result ≡ values.word_at space.now.bytes address }
{
    let address = address?;
    match (space.peek(address), space.peek(address.wrapping_add(1))) {
        (Some(low), Some(high)) => Some(i64::from(low) + 256 * i64::from(high)),
        _ => None,
    }
}

// Returns a byte as a number from -128 to 127.
fn signed(byte: Option<u16>) -> Option<i64>
    ensures { result ≡ values.signed byte }
{
    match byte? {
        byte @ 0..128 => Some(i64::from(byte)),
        byte @ 128..256 => Some(i64::from(byte) - 256),
        _ => None,
    }
}

// Applies a function to a number.
fn made<A: Allocator>(function: Function, space: &AddressSpace<A>, number: i64) -> Option<i64>
    ensures { result ≡ values.made function space.now.bytes number }
{
    match function {
        Function::Byte => byte_at(space, word_in(number)),
        Function::Word => word_at(space, word_in(number)),
        Function::Signed => signed(word_in(number)),
        Function::Abs => {
            if number < 0 {
                number.checked_neg()
            } else {
                Some(number)
            }
        }
    }
}

// Returns the bitwise AND of two numbers.
fn bit_and(left: Option<u16>, right: Option<u16>) -> Option<i64>
    ensures { result ≡ values.bitwise bit_and left right }
{
    let (left, right) = (left?, right?);
    Some(i64::from(left & right))
}

// Returns the bitwise OR of two numbers.
fn bit_or(left: Option<u16>, right: Option<u16>) -> Option<i64>
    ensures { result ≡ values.bitwise bit_or left right }
{
    let (left, right) = (left?, right?);
    Some(i64::from(left | right))
}

// Returns the bitwise exclusive OR of two numbers.
fn bit_xor(left: Option<u16>, right: Option<u16>) -> Option<i64>
    ensures { result ≡ values.bitwise bit_xor left right }
{
    let (left, right) = (left?, right?);
    Some(i64::from(left ^ right))
}

// Returns a bit, 0 to 15, of a number.
fn bit_of(place: Option<u16>, number: Option<u16>) -> Option<i64>
    ensures { result ≡ values.bit_of place number }
{
    let (place, number) = (place?, number?);
    if place < 16 {
        Some(i64::from((number >> place) % 2))
    } else {
        None
    }
}

// Applies an operation to two numbers.
fn operated(operation: Operation, left: i64, right: i64) -> Option<i64>
    ensures { result ≡ values.operated operation left right }
{
    match operation {
        Operation::Plus => left.checked_add(right),
        Operation::Minus => left.checked_sub(right),
        Operation::Times => left.checked_mul(right),
        Operation::Over => if 0 < right {
            Some(left.div_euclid(right))
        } else {
            None
        },
        Operation::Modulo => if 0 < right {
            Some(left.rem_euclid(right))
        } else {
            None
        },
        Operation::BitAnd => bit_and(word_in(left), word_in(right)),
        Operation::BitOr => bit_or(word_in(left), word_in(right)),
        Operation::BitXor => bit_xor(word_in(left), word_in(right)),
        Operation::Min => Some(if right < left { right } else { left }),
        Operation::Max => Some(if left < right { right } else { left }),
        Operation::Bit => bit_of(word_in(left), word_in(right)),
        Operation::Equal => Some(digit(left <= right && right <= left)),
        Operation::Less => Some(digit(left < right)),
        Operation::AtMost => Some(digit(left <= right)),
    }
}

// Applies an operation to two numbers if both have a value.
fn operated_on(operation: Operation, left: Option<i64>, right: Option<i64>) -> Option<i64>
    ensures { result ≡ values.operated_on operation left right }
{
    operated(operation, left?, right?)
}

// Returns how many numbers there are below a bound, or `None` if there are more than 65,535.
fn count_of(number: Option<i64>) -> Option<u16>
    ensures { result ≡ values.count_of number }
{
    let number = number?;
    if number < 0 { Some(0) } else { word_in(number) }
}

// Returns whether a number is 0.
fn is_zero(number: i64) -> bool
    ensures { result ≡ values.is_zero number }
{
    number <= 0 && 0 <= number
}

// Returns one of two values, chosen by a third.
fn chosen(by: Option<i64>, one: Option<i64>, other: Option<i64>) -> Option<i64>
    ensures { result ≡ values.chosen by one other }
{
    if is_zero(by?) { other } else { one }
}

// Returns the values of the bound names with one of them replaced.
fn with_bound(names: Bounds, name: u8, number: u16) -> Bounds
    ensures { result ≡ slice_set names name (pos number) }
{
    let mut names = names;
    let place = usize::from(name);
    if place < names.len() {
        names[place] = i64::from(number);
    }
    names
}

// What an expression is evaluated in: the state at the routine's entry, the state that its run reached, the visits of
// labels before that, and the values of bound names.
#[derive(Clone, Copy)]
struct Scene<'s, A: Allocator> {
    entry: &'s StateView<'s, A>,
    exit: &'s StateView<'s, A>,
    visits: &'s [Visit<A>],
    names: Bounds,
}

// Evaluates whether an expression is true for each number below a bound.
#[cycle(value)]
fn each_below<A: Allocator>(name: u8, count: u16, body: &Expr, scene: &Scene<'_, A>) -> Option<i64>
    ensures { result ≡ values.each_below count (λ k. values.value_in body.now (moment_of scene.now.entry.now)
        (moment_of scene.now.exit.now) (values.visited scene.now.visits.now) (slice_set scene.now.names name (pos k))) }
{
    let mut holds = Some(1);
    for number in 0..count {
        let here = Scene {
            names: with_bound(scene.names, name, number),
            ..*scene
        };
        holds = chosen(holds, value_at(body, &here), Some(0));
    }
    holds
}

// Evaluates the sum of an expression over all numbers below a bound.
#[cycle(value)]
fn sum_below<A: Allocator>(name: u8, count: u16, body: &Expr, scene: &Scene<'_, A>) -> Option<i64>
    ensures { result ≡ values.sum_below count (λ k. values.value_in body.now (moment_of scene.now.entry.now)
        (moment_of scene.now.exit.now) (values.visited scene.now.visits.now) (slice_set scene.now.names name (pos k))) }
{
    let mut sum = Some(0);
    for number in 0..count {
        let here = Scene {
            names: with_bound(scene.names, name, number),
            ..*scene
        };
        sum = operated_on(Operation::Plus, sum, value_at(body, &here));
    }
    sum
}

// Evaluates an expression in a scene.
#[cycle(value)]
fn value_at<A: Allocator>(expr: &Expr, scene: &Scene<'_, A>) -> Option<i64>
    ensures { result ≡ values.value_in expr.now (moment_of scene.now.entry.now) (moment_of scene.now.exit.now)
        (values.visited scene.now.visits.now) scene.now.names }
{
    match expr {
        Expr::Number(number) => Some(*number),
        Expr::Held(atom) => Some(held(*atom, scene.exit)),
        Expr::Bound(name) => scene.names.get(usize::from(*name)).copied(),
        Expr::Old(within) => {
            let old = Scene {
                exit: scene.entry,
                ..*scene
            };
            value_at(within, &old)
        }
        Expr::At(address, within) => {
            let there = visited(scene.visits, *address)?;
            let at = Scene {
                exit: &there,
                ..*scene
            };
            value_at(within, &at)
        }
        Expr::Of(function, of) => made(*function, scene.exit.space, value_at(of, scene)?),
        Expr::Pair(operation, left, right) => {
            operated_on(*operation, value_at(left, scene), value_at(right, scene))
        }
        Expr::Choice(by, yes, no) => {
            let one = if is_zero(value_at(by, scene)?) {
                no
            } else {
                yes
            };
            value_at(one, scene)
        }
        Expr::Each(name, count, body) => {
            let count = count_of(value_at(count, scene))?;
            each_below(*name, count, body, scene)
        }
        Expr::Sum(name, count, body) => {
            let count = count_of(value_at(count, scene))?;
            sum_below(*name, count, body, scene)
        }
    }
}

/// Returns the value of an expression. `entry` is the state at the routine's entry, and `exit` the state that its run
/// reached, after these visits of labels. `names` are the values of bound names.
///
/// Returns `None` if a part that matters has no value:
///
/// - a quotient whose divisor is not above 0
/// - bits of a number that is not from 0 to 65,535
/// - a byte that is not in RAM
/// - a number of 2^63 or more
/// - the value at a label that the run has not reached
///
/// This project's profile.
pub fn value_in<A: Allocator>(
    expr: &Expr,
    entry: &StateView<A>,
    exit: &StateView<A>,
    visits: &[Visit<A>],
    names: Bounds,
) -> Option<i64>
    ensures { result ≡ values.value_in expr.now (moment_of entry.now) (moment_of exit.now) (values.visited visits.now) names }
{
    let scene = Scene {
        entry,
        exit,
        visits,
        names,
    };
    value_at(expr, &scene)
}

/// Returns the value of an expression for a run that has reached no label.
pub fn value<A: Allocator>(
    expr: &Expr,
    entry: &StateView<A>,
    exit: &StateView<A>,
    names: Bounds,
) -> Option<i64>
    ensures { result ≡ value_of expr.now (moment_of entry.now) (moment_of exit.now) names }
{
    let none: [Visit<A>; 0] = [];
    value_in(expr, entry, exit, &none, names)
}
