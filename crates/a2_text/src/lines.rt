//! Cutting a text into lines.

ghost use Rattle.std.specs.Prelude.{◌≡◌, map, IfOk};
ghost use Rattle.std.specs.Str.Lines.{strip_carriage_return};
ghost use Rattle.a2_text.specs.Lines.{lines};

use crate::words::front_len;
use std::alloc::{AllocError, Allocator};

// Returns a piece without the carriage return at its end, if it has one.
fn trimmed(piece: &[u8]) -> &[u8]
    ensures { result.now ≡ strip_carriage_return piece.now }
{
    match piece {
        [front @ .., b'\r'] => front,
        _ => piece,
    }
}

/// Returns the lines of a text: the pieces between its line feeds, each without a carriage return at its end. A final
/// empty piece is not a line. Fails only if memory runs out.
pub fn cut<A: Allocator>(alloc: A, text: &[u8]) -> Result<Vec<&[u8], A>, AllocError>
    ensures { IfOk result (λ v. map (λ x. x.now) v.items ≡ lines text.now) }
{
    let mut found = Vec::new(alloc);
    let mut rest = text;
    while rest.len() > 0 {
        let end = front_len(rest, |c| c != b'\n');
        found.push(trimmed(&rest[..end]))?;
        if end == rest.len() {
            break;
        }
        rest = &rest[end + 1..];
    }
    Ok(found)
}
