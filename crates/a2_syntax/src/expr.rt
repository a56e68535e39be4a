//! Reads expressions, single or separated by commas.

ghost use Rattle.std.specs.Prelude.{◌<◌, ◌∷◌, codes, ◌≡◌, ◌+◌, ◌≤◌, ◌++◌, List, take, drop, length, map, true, false, None, IfOk};
ghost use Rattle.a2_syntax.specs.Relations.{Finds};
ghost use Rattle.a2_syntax.specs.Grammar.{AreMoreTerms, AreTerms, IsExpr, AreExprs};
ghost use Rattle.a2_syntax.specs.Reading.{is_byte, part_of, has_comma};
ghost use Rattle.a2_syntax.specs.declared.source.Signed.{Signed as DeclaredSigned};

use crate::source::{Expr, Exprs, Few, Part, Signed, Terms};
use crate::term::{minus, term};
use std::alloc::{AllocError, Allocator};

// Appends further terms, each preceded by its sign, to those already found. Returns false if the pieces are not such
// terms.
#[inline(never)]
fn more_terms<A: Allocator + Copy>(
    alloc: A,
    pieces: &[&[u8]],
    found: &mut Vec<Signed<A>, A>,
) -> Result<bool, AllocError>
    requires { length found.old.items + length pieces.now ≤ 255 }
    ensures read { IfOk result (λ is. is ≡ true → (more : List (DeclaredSigned A))
        × (found.new.items ≡ found.old.items ++ more) × AreMoreTerms (map (λ x. x.now) pieces.now) more) }
    ensures none { IfOk result (λ is. is ≡ false → Finds (AreMoreTerms {A = A} (map (λ x. x.now) pieces.now)) None) }
    ensures few { IfOk result (λ is. is ≡ true → length found.new.items ≤ 255) }
{
    let mut rest = &pieces[..];
    'terms: loop {
        let [sign, piece, more @ ..] = rest else {
            return Ok(rest.len() == 0);
        };
        let Some(is_minus) = minus(*sign) else {
            return Ok(false);
        };
        let Some(term) = term(alloc, *piece)? else {
            return Ok(false);
        };
        found.push(Signed {
            minus: is_minus,
            term,
        })?;
        rest = more;
    }
}

// Reads the terms of an expression.
fn terms<A: Allocator + Copy>(alloc: A, pieces: &[&[u8]]) -> Result<Option<Terms<A>>, AllocError>
    requires { length pieces.now ≤ 255 }
    ensures { IfOk result (λ o. Finds (AreTerms (map (λ x. x.now) pieces.now)) o) }
{
    let Some((first, others)) = pieces.split_first() else {
        return Ok(None);
    };
    let Some(term) = term(alloc, *first)? else {
        return Ok(None);
    };
    // There is a sign between any two terms.
    let mut found = Vec::with_capacity(alloc, pieces.len() / 2 + 1)?;
    found.push_reserved(Signed { minus: false, term });
    if others.len() == 0 {
        return Ok(Some(Few::of(found)));
    }
    if !more_terms(alloc, others, &mut found)? {
        return Ok(None);
    }
    Ok(Some(Few::of(found)))
}

// Returns whether a piece is just this byte.
pub(crate) fn is_byte(piece: &[u8], c: u8) -> bool
    ensures { result ≡ is_byte c piece.now }
{
    matches!(piece, [x] if *x == c)
}

// Returns which part of its sum the expression selects, and the pieces of its terms.
fn part<'a, 'b>(pieces: &'a [&'b [u8]]) -> (Part, &'a [&'b [u8]])
    ensures is { (result.0, map (λ x. x.now) result.1.now) ≡ part_of (map (λ x. x.now) pieces.now) }
    ensures within { length result.1.now ≤ length pieces.now }
{
    match pieces {
        [[b'<'], rest @ ..] => (Part::Low, rest),
        [[b'>'], rest @ ..] => (Part::High, rest),
        _ => (Part::Whole, pieces),
    }
}

// Reads the pieces as one expression.
pub(crate) fn expr<A: Allocator + Copy>(
    alloc: A,
    pieces: &[&[u8]],
) -> Result<Option<Expr<A>>, AllocError>
    requires { length pieces.now ≤ 255 }
    ensures { IfOk result (λ o. Finds (IsExpr (map (λ x. x.now) pieces.now)) o) }
{
    let (part, rest) = part(pieces);
    made!(terms(alloc, rest)?, terms => Expr { part, terms })
}

// Returns the index of the first comma, or the number of pieces if there is no comma.
fn comma_at(pieces: &[&[u8]]) -> usize
    ensures front { has_comma (map (λ x. x.now) (take result pieces.now)) ≡ false }
    ensures comma { result < length pieces.now
        → map (λ x. x.now) (drop result pieces.now) ≡ codes "," ∷ map (λ x. x.now) (drop (result + 1) pieces.now) }
    ensures within { result ≤ length pieces.now }
{
    for (i, piece) in pieces.iter().enumerate() {
        if is_byte(*piece, b',') {
            return i;
        }
    }
    pieces.len()
}

// Reads the pieces as expressions separated by commas.
pub(crate) fn exprs<A: Allocator + Copy>(
    alloc: A,
    pieces: &[&[u8]],
) -> Result<Option<Exprs<A>>, AllocError>
    requires { length pieces.now ≤ 255 }
    ensures { IfOk result (λ o. Finds (AreExprs (map (λ x. x.now) pieces.now)) o) }
{
    // There is a comma between any two expressions.
    let mut found = Vec::with_capacity(alloc, pieces.len() / 2 + 1)?;
    let mut rest = &pieces[..];
    'exprs: loop {
        let end = comma_at(rest);
        let Some(next) = expr(alloc, &rest[..end])? else {
            return Ok(None);
        };
        found.push(next)?;
        if end == rest.len() {
            return Ok(Some(Few::of(found)));
        }
        rest = &rest[end + 1..];
    }
}
