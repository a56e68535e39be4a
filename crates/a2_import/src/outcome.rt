//! What is to be known of the text that an import writes.

ghost use Rattle.std.specs.Prelude.{◌≡◌, ◌↔◌, IsTrue, IfOk, map};
ghost use Rattle.std.specs.List.{list_any};
ghost use Rattle.a2_import.specs.Plain.{IsSomeSource};
ghost use Rattle.a2_import.specs.Marks as marks;

use a2_syntax::{Fault, parse};
use a2_text::cut;
use std::alloc::{AllocError, Allocator};

/// Returns whether a text is a plain source.
pub(crate) fn is_source<A: Allocator + Copy>(alloc: A, text: &[u8]) -> Result<bool, AllocError>
    ensures { IfOk result (λ is. IsTrue is ↔ IsSomeSource text.now) }
{
    match parse(alloc, text) {
        Ok(_) => return Ok(true),
        Err(Fault::Memory) => return Err(AllocError),
        Err(_) => return Ok(false),
    }
}

// Whether a line begins with the mark.
fn is_marked_line(line: &[u8]) -> bool
    ensures { result ≡ marks.is_marked_line line.now }
{
    matches!(line, [b'?', b'?', ..])
}

// Whether one of the lines begins with the mark.
fn has_marked_line(lines: &[&[u8]]) -> bool
    ensures { result ≡ list_any marks.is_marked_line (map (λ x. x.now) lines.now) }
{
    for line in lines {
        if is_marked_line(*line) {
            return true;
        }
    }
    false
}

/// Returns whether a text has a line after the mark of lines that could not be imported.
#[tactic(auto, unfolding(crate::specs::Marks::is_marked))]
pub(crate) fn is_marked<A: Allocator>(alloc: A, text: &[u8]) -> Result<bool, AllocError>
    ensures { IfOk result (λ is. is ≡ marks.is_marked text.now) }
{
    let lines = cut(alloc, text)?;
    Ok(has_marked_line(lines.as_slice()))
}
