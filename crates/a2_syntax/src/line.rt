//! Parses one source line.

ghost use Rattle.std.specs.Prelude.{◌≡◌, ◌≤◌, not, length, None, IfOk};
ghost use Rattle.a2_syntax.specs.Relations.{Finds};
ghost use Rattle.a2_syntax.specs.Reading.{is_starred};
ghost use Rattle.a2_syntax.specs.Grammar.{IsBody, has_needed_label, IsLine};

use crate::body::operation_body;
use crate::operation::named;
use crate::piece::{is_gap, is_over, pieces, split_name_bytes};
use crate::plain::plain_body;
use crate::source::{Body, Line};
use crate::term::name_of;
use crate::word::is_name;
use a2_text::after_blanks;
use std::alloc::{AllocError, Allocator};

// Parses what follows the label. The previous contents of `pieces` are discarded.
fn body<'a, A: Allocator + Copy>(
    alloc: A,
    text: &'a [u8],
    found: &mut Vec<&'a [u8], A>,
) -> Result<Option<Body<A>>, AllocError>
    requires { length text.now ≤ 255 }
    ensures { IfOk result (λ o. Finds (IsBody text.now) o) }
{
    let here = after_blanks(text);
    if is_over(here) {
        return Ok(Some(Body::Empty));
    }
    let (word, after) = split_name_bytes(here);
    if !is_gap(after) {
        return Ok(None);
    }
    let Some(operation) = named(word) else {
        return Ok(None);
    };
    if let Some(body) = plain_body(alloc, operation, after)? {
        return Ok(Some(body));
    }
    if !pieces(after, found)? {
        return Ok(None);
    }
    operation_body(alloc, operation, found.as_slice())
}

fn needs_label<A: Allocator>(body: &Body<A>) -> bool
    ensures { result ≡ not (has_needed_label None body.now) }
{
    matches!(body, Body::Equ(_))
}

// Returns whether a line begins with `*`.
fn is_starred(text: &[u8]) -> bool
    ensures { result ≡ is_starred text.now }
{
    matches!(text, [b'*', ..])
}

// Parses a line; returns `None` if it does not follow the grammar. The previous contents of `pieces` are discarded.
pub(crate) fn line<'a, A: Allocator + Copy>(
    alloc: A,
    text: &'a [u8],
    pieces: &mut Vec<&'a [u8], A>,
) -> Result<Option<Line<A>>, AllocError>
    requires { length text.now ≤ 255 }
    ensures { IfOk result (λ o. Finds (IsLine text.now) o) }
{
    if is_starred(text) {
        return Ok(Some(Line {
            label: None,
            body: Body::Empty,
        }));
    }
    let (word, rest) = split_name_bytes(text);
    if !is_gap(rest) {
        return Ok(None);
    }
    let Some(body) = body(alloc, rest, pieces)? else {
        return Ok(None);
    };
    if word.len() == 0 {
        if needs_label(&body) {
            return Ok(None);
        }
        return Ok(Some(Line { label: None, body }));
    }
    if !is_name(word) {
        return Ok(None);
    }
    let label = Some(name_of(alloc, word)?);
    Ok(Some(Line { label, body }))
}
