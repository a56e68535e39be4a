//! Reads the operands of instructions.

ghost use Rattle.std.specs.Prelude.{◌≡◌, ◌<◌, ◌≤◌, length, map, IfOk, IfSome, option_map};
ghost use Rattle.a2_syntax.specs.Relations.{Finds};
ghost use Rattle.a2_syntax.specs.Reading.{is_byte};
ghost use Rattle.a2_syntax.specs.Grammar.{IsOperand};
ghost use Rattle.a2_syntax.specs.Shapes as shapes;

use crate::expr::{expr, is_byte};
use crate::source::{Expr, Operand};
use a2_text::capital;
use std::alloc::{AllocError, Allocator};

// The punctuation and register letter around an operand's expression.
#[derive(Clone, Copy, Drop)]
pub(crate) enum Shape {
    Immediate,
    Plain,
    WithX,
    WithY,
    InParenthesesX,
    ParenthesesY,
    InParentheses,
}

// Returns whether a piece is just this letter, in upper or lower case.
fn is_letter(piece: &[u8], c: u8) -> bool
    ensures { result ≡ shapes.is_letter c piece.now }
{
    matches!(piece, [x] if capital(*x) == c)
}

// Returns the pieces after this first piece, or `None` if the first piece is another one.
fn following<'a, 'b>(pieces: &'a [&'b [u8]], c: u8) -> Option<&'a [&'b [u8]]>
    ensures is { option_map (λ r. map (λ x. x.now) r.now) result ≡ shapes.following (is_byte c) (map (λ x. x.now) pieces.now) }
    ensures within { IfSome result (λ r. length r.now ≤ length pieces.now) }
{
    let (first, rest) = pieces.split_first()?;
    if is_byte(*first, c) { Some(rest) } else { None }
}

// Returns the pieces before this last piece, or `None` if the last piece is another one.
fn before_last<'a, 'b>(pieces: &'a [&'b [u8]], c: u8) -> Option<&'a [&'b [u8]]>
    ensures is { option_map (λ r. map (λ x. x.now) r.now) result ≡ shapes.before (is_byte c) (map (λ x. x.now) pieces.now) }
    ensures within { IfSome result (λ r. length r.now ≤ length pieces.now) }
{
    let (last, front) = pieces.split_last()?;
    if is_byte(*last, c) { Some(front) } else { None }
}

// Returns the pieces before a final comma and register letter.
fn indexed<'a, 'b>(pieces: &'a [&'b [u8]], c: u8) -> Option<&'a [&'b [u8]]>
    ensures is { option_map (λ r. map (λ x. x.now) r.now) result ≡ shapes.indexed c (map (λ x. x.now) pieces.now) }
    ensures within { IfSome result (λ r. length r.now ≤ length pieces.now) }
{
    let (last, front) = pieces.split_last()?;
    if is_letter(*last, c) {
        before_last(front, b',')
    } else {
        None
    }
}

fn is_accumulator(pieces: &[&[u8]]) -> bool
    ensures { result ≡ shapes.is_accumulator (map (λ x. x.now) pieces.now) }
{
    matches!(pieces, [a] if is_letter(*a, b'A'))
}

// Returns the pieces between parentheses.
fn enclosed<'a, 'b>(pieces: &'a [&'b [u8]]) -> Option<&'a [&'b [u8]]>
    ensures is { option_map (λ r. map (λ x. x.now) r.now) result ≡ shapes.enclosed (map (λ x. x.now) pieces.now) }
    ensures within { IfSome result (λ r. length r.now ≤ length pieces.now) }
{
    let rest = following(pieces, b'(')?;
    before_last(rest, b')')
}

// Returns the shape of an operand, and the pieces of its expression. The operand must not be empty or a single
// letter.
fn shape_of<'a, 'b>(pieces: &'a [&'b [u8]]) -> (Shape, &'a [&'b [u8]])
    ensures is { (result.0, map (λ x. x.now) result.1.now) ≡ shapes.shape_of (map (λ x. x.now) pieces.now) }
    ensures within { length result.1.now ≤ length pieces.now }
{
    if let Some(es) = following(pieces, b'#') {
        return (Shape::Immediate, es);
    }
    if let Some(inner) = enclosed(pieces) {
        return match indexed(inner, b'X') {
            Some(es) => (Shape::InParenthesesX, es),
            None => (Shape::InParentheses, inner),
        };
    }
    if let Some(es) = indexed(pieces, b'X') {
        return (Shape::WithX, es);
    }
    let Some(front) = indexed(pieces, b'Y') else {
        return (Shape::Plain, pieces);
    };
    match enclosed(front) {
        Some(es) => (Shape::ParenthesesY, es),
        None => (Shape::WithY, front),
    }
}

fn shaped<A: Allocator>(shape: Shape, found: Option<Expr<A>>) -> Option<Operand<A>>
    ensures { result ≡ option_map (shapes.of_shape shape) found }
{
    let e = found?;
    Some(match shape {
        Shape::Immediate => Operand::Immediate(e),
        Shape::Plain => Operand::Plain(e),
        Shape::WithX => Operand::WithX(e),
        Shape::WithY => Operand::WithY(e),
        Shape::InParenthesesX => Operand::InParenthesesX(e),
        Shape::ParenthesesY => Operand::ParenthesesY(e),
        Shape::InParentheses => Operand::InParentheses(e),
    })
}

// Reads one or more pieces as an operand. Not inlined, so that the function that parses a line keeps its values in
// registers.
#[inline(never)]
pub(crate) fn operand<A: Allocator + Copy>(
    alloc: A,
    pieces: &[&[u8]],
) -> Result<Option<Operand<A>>, AllocError>
    requires some { 0 < length pieces.now }
    requires few { length pieces.now ≤ 255 }
    ensures { IfOk result (λ o. Finds (IsOperand (map (λ x. x.now) pieces.now)) o) }
{
    if is_accumulator(pieces) {
        return Ok(Some(Operand::Accumulator));
    }
    let (shape, es) = shape_of(pieces);
    Ok(shaped(shape, expr(alloc, es)?))
}
