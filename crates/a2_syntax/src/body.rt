//! Reads the operands of operations from their pieces.

ghost use Rattle.std.specs.Prelude.{◌≡◌, ◌≤◌, ◌<◌, ℕ, List, true, length, map, IfOk, MatchOption};
ghost use Rattle.std.specs.List.{list_all, All};
ghost use Rattle.a2_syntax.specs.Numbers.{is_quotable, code_in};
ghost use Rattle.a2_syntax.specs.Pieces.{IsQuoted};
ghost use Rattle.a2_syntax.specs.Relations.{Finds};
ghost use Rattle.a2_syntax.specs.Grammar.{IsText, IsOperandOf, IsOperation};

use crate::expr::{expr, exprs};
use crate::operand::operand;
use crate::operation::Operation;
use crate::piece::{is_quotable, is_quote};
use crate::source::{Body, Bytes, Few, Operand};
use crate::term::code_in;
use a2_opcode::Mnemonic;
use std::alloc::{AllocError, Allocator};

fn all_quotable(quote: u8, text: &[u8]) -> bool
    ensures { result ≡ list_all (is_quotable quote) text.now }
{
    text.iter().all(|c| is_quotable(quote, *c))
}

// Returns the quote character and the text of a quoted piece, or `None` if the piece is not quoted or the text is
// empty.
fn unquoted(piece: &[u8]) -> Option<(u8, &[u8])>
    ensures { MatchOption result
        ((quote : ℕ) (text : List ℕ) → IsQuoted quote text piece.now → 0 < length text → ⊥)
        (λ r. IsQuoted r.0 r.1.now piece.now × (0 < length r.1.now)) }
{
    let (quote, following) = piece.split_first()?;
    let (last, text) = following.split_last()?;
    if !is_quote(*quote) || *last != *quote || text.len() == 0 {
        return None;
    }
    if !all_quotable(*quote, text) {
        return None;
    }
    Some((*quote, text))
}

// Returns the codes of characters between quotes of this kind.
fn codes<A: Allocator>(alloc: A, quote: u8, text: &[u8]) -> Result<Bytes<A>, AllocError>
    requires plain { All (λ c. c ≤ 127) text.now }
    requires short { length text.now ≤ 255 }
    ensures { IfOk result (λ bytes. bytes ≡ map (code_in quote) text.now) }
{
    let mut bytes = Vec::with_capacity(alloc, text.len())?;
    for c in text {
        bytes.push(code_in(quote, *c))?;
    }
    Ok(Few::of(bytes))
}

// Returns the bytes of a quoted text, which must be the only piece.
fn text<A: Allocator>(alloc: A, pieces: &[&[u8]]) -> Result<Option<Bytes<A>>, AllocError>
    requires { All (λ p. length p ≤ 255) (map (λ x. x.now) pieces.now) }
    ensures { IfOk result (λ o. Finds (IsText (map (λ x. x.now) pieces.now)) o) }
{
    let [piece] = pieces else {
        return Ok(None);
    };
    let Some((quote, text)) = unquoted(*piece) else {
        return Ok(None);
    };
    Ok(Some(codes(alloc, quote, text)?))
}

// Reads the operand of an instruction.
fn operand_of<A: Allocator + Copy>(
    alloc: A,
    mnemonic: Mnemonic,
    pieces: &[&[u8]],
) -> Result<Option<Operand<A>>, AllocError>
    requires { length pieces.now ≤ 255 }
    ensures { IfOk result (λ o. Finds (IsOperandOf mnemonic (map (λ x. x.now) pieces.now)) o) }
{
    if pieces.len() > 0 {
        return operand(alloc, pieces);
    }
    Ok(Some(match mnemonic {
        Mnemonic::Asl | Mnemonic::Lsr | Mnemonic::Rol | Mnemonic::Ror => Operand::Accumulator,
        _ => Operand::Nothing,
    }))
}

// Reads the body of an operation from the pieces after its name.
pub(crate) fn operation_body<A: Allocator + Copy>(
    alloc: A,
    operation: Operation,
    pieces: &[&[u8]],
) -> Result<Option<Body<A>>, AllocError>
    requires few { length pieces.now ≤ 255 }
    requires short { All (λ p. length p ≤ 255) (map (λ x. x.now) pieces.now) }
    ensures { IfOk result (λ o. Finds (IsOperation operation (map (λ x. x.now) pieces.now)) o) }
{
    match operation {
        Operation::Instr(mnemonic) => {
            made!(operand_of(alloc, mnemonic, pieces)?, operand => Body::Instr(mnemonic, operand))
        }
        Operation::Org => made!(expr(alloc, pieces)?, e => Body::Org(e)),
        Operation::Equ => made!(expr(alloc, pieces)?, e => Body::Equ(e)),
        Operation::Dfb => made!(exprs(alloc, pieces)?, es => Body::Dfb(es)),
        Operation::Dw => made!(exprs(alloc, pieces)?, es => Body::Dw(es)),
        Operation::Asc => made!(text(alloc, pieces)?, bytes => Body::Asc(bytes)),
        Operation::Ds => made!(expr(alloc, pieces)?, e => Body::Ds(e)),
    }
}
