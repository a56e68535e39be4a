//! Reads lists of plain decimal numbers directly, without splitting the text into pieces. This is a fast path.

ghost use Rattle.std.specs.Prelude.{◌≡◌, ◌≤◌, List, ℕ, length, IfOk, IfSome};
ghost use Rattle.a2_syntax.specs.Pieces.{Spells};
ghost use Rattle.a2_syntax.specs.Grammar.{IsOperation};
ghost use Rattle.a2_syntax.specs.Listed.{one_number};
ghost use Rattle.a2_syntax.specs.Reading.{SpellsExprs};

use crate::operation::Operation;
use crate::piece::{is_over, split_name_bytes};
use crate::source::{Body, Expr, Exprs, Few, Part, Signed, Term};
use crate::term::number;
use a2_text::after_blanks;
use std::alloc::{AllocError, Allocator};

// Returns the number of commas in a text.
fn commas(text: &[u8]) -> usize
    ensures { result ≤ length text.now }
{
    let mut count = 0;
    for c in text {
        if *c == b',' {
            count += 1;
        }
    }
    count
}

// Returns the expression that consists of one number.
fn one_number<A: Allocator>(alloc: A, number: u16) -> Result<Expr<A>, AllocError>
    ensures { IfOk result (λ e. e ≡ one_number number) }
{
    let mut terms = Vec::with_capacity(alloc, 1)?;
    terms.push_reserved(Signed {
        minus: false,
        term: Term::Number(number),
    });
    Ok(Expr {
        part: Part::Whole,
        terms: Few::of(terms),
    })
}

// Reads a text of decimal numbers separated by commas as expressions. Returns `None` for any other text.
fn numbers<A: Allocator + Copy>(alloc: A, text: &[u8]) -> Result<Option<Exprs<A>>, AllocError>
    requires { length text.now ≤ 255 }
    ensures { IfOk result (λ o. IfSome o (λ es. SpellsExprs text.now es)) }
{
    let mut found = Vec::with_capacity(alloc, commas(text) + 1)?;
    let mut rest = text;
    'numbers: loop {
        let (digits, following) = split_name_bytes(after_blanks(rest));
        let Some(n) = number(digits) else {
            return Ok(None);
        };
        found.push(one_number(alloc, n)?)?;
        let next = after_blanks(following);
        if is_over(next) {
            return Ok(Some(Few::of(found)));
        }
        let Some((sign, more)) = next.split_first() else {
            return Ok(None);
        };
        if *sign != b',' {
            return Ok(None);
        }
        rest = more;
    }
}

// Reads the body of a DFB or DW that has only decimal numbers. Returns `None` for another operation or any other
// text.
pub(crate) fn plain_body<A: Allocator + Copy>(
    alloc: A,
    operation: Operation,
    text: &[u8],
) -> Result<Option<Body<A>>, AllocError>
    requires { length text.now ≤ 255 }
    ensures { IfOk result (λ o. IfSome o (λ body.
        (pieces : List (List ℕ)) × Spells text.now pieces × IsOperation operation pieces body)) }
{
    match operation {
        Operation::Dfb => made!(numbers(alloc, text)?, es => Body::Dfb(es)),
        Operation::Dw => made!(numbers(alloc, text)?, es => Body::Dw(es)),
        _ => Ok(None),
    }
}
