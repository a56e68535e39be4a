//! Reads the terms of an expression.

ghost use Rattle.std.specs.Prelude.{◌≡◌, ◌≤◌, true, codes, IsTrue, ◌↔◌, IfOk};
ghost use Rattle.a2_syntax.specs.Names.{is_name};
ghost use Rattle.a2_syntax.specs.Numbers as numbers;
ghost use Rattle.a2_syntax.specs.Relations.{Finds};
ghost use Rattle.a2_syntax.specs.Grammar.{IsTerm, IsSign};

use crate::piece::{is_quotable, is_quote};
use crate::source::{Name, Term};
use crate::word::is_name;
use a2_text::number_in;
use std::alloc::{AllocError, Allocator};

// Returns the code of a character between quotes of this kind.
pub(crate) fn code_in(quote: u8, c: u8) -> u8
    requires { c ≤ 127 }
    ensures { result ≡ numbers.code_in quote c }
{
    if quote == b'"' { c + 128 } else { c }
}

// Returns the number that a piece spells.
pub(crate) fn number(piece: &[u8]) -> Option<u16>
    ensures { result ≡ numbers.number piece.now }
{
    match piece {
        [b'$', digits @ ..] => number_in(16, 4, digits),
        [b'%', digits @ ..] => number_in(2, 16, digits),
        [quote, c, last] if is_quote(*quote) && is_quotable(*quote, *c) && last == quote => {
            Some(u16::from(code_in(*quote, *c)))
        }
        [quote, ..] if is_quote(*quote) => None,
        _ => number_in(10, 5, piece),
    }
}

// Returns whether a term after this sign is subtracted. Returns `None` if the piece is not a sign.
pub(crate) fn minus(sign: &[u8]) -> Option<bool>
    ensures { Finds (IsSign sign.now) result }
{
    match sign {
        [b'+'] => Some(false),
        [b'-'] => Some(true),
        _ => None,
    }
}

// Copies the bytes of a name into a `Name`.
pub(crate) fn name_of<A: Allocator>(alloc: A, bytes: &[u8]) -> Result<Name<A>, AllocError>
    requires { is_name bytes.now ≡ true }
    ensures { IfOk result (λ n. n ≡ bytes.now) }
{
    match std::str::from_utf8(bytes) {
        Ok(text) => Ok(Name::of(String::from_str(alloc, text)?)),
        Err(_) => unreachable!(),
    }
}

// Reads a piece as a term.
pub(crate) fn term<A: Allocator>(alloc: A, piece: &[u8]) -> Result<Option<Term<A>>, AllocError>
    ensures { IfOk result (λ o. Finds (IsTerm piece.now) o) }
{
    if matches!(piece, [b'*']) {
        return Ok(Some(Term::Here));
    }
    if let Some(n) = number(piece) {
        return Ok(Some(Term::Number(n)));
    }
    if is_name(piece) {
        return Ok(Some(Term::Named(name_of(alloc, piece)?)));
    }
    Ok(None)
}
