//! A source text in columns.

ghost use Rattle.std.specs.Prelude.{◌≡◌, ◌↔◌, ◌++◌, map, IsTrue, IfOk, IfErr, IfSome, IfNone};
ghost use Rattle.std.specs.List.{flat_map};
ghost use Rattle.a2_fmt.specs.Layout as layout;
ghost use Rattle.a2_fmt.specs.Layout.{laid};
ghost use Rattle.a2_syntax.specs.Sources.{IsSource};
ghost use Rattle.a2_fmt.specs.Formatted.{IsFormatFault, AreAlike};

use crate::fault::FormatFault;
use crate::line::put_line;
use crate::same::same_source;
use a2_syntax::{Fault, Source, parse};
use a2_text::cut;
use std::alloc::{AllocError, Allocator};

// Appends lines in columns.
fn put_lines<A: Allocator + Copy>(
    alloc: A,
    lines: &[&[u8]],
    text: &mut Vec<u8, A>,
) -> Result<(), AllocError>
    ensures { IfOk result (λ _. text.new.items ≡ text.old.items ++ flat_map layout.row (map (λ x. x.now) lines.now)) }
{
    let mut row = Vec::new(alloc);
    for line in lines {
        put_line(text, &mut row, *line)?;
    }
    Ok(())
}

// Returns a text in columns.
fn formatted_text<A: Allocator + Copy>(alloc: A, text: &[u8]) -> Result<Vec<u8, A>, AllocError>
    ensures { IfOk result (λ out. out.items ≡ laid text.now) }
{
    let lines = cut(alloc, text)?;
    let mut out = Vec::new(alloc);
    put_lines(alloc, lines.as_slice(), &mut out)?;
    Ok(out)
}

// Whether formatting leaves a text unchanged.
fn is_formatted<A: Allocator + Copy>(alloc: A, text: &[u8]) -> Result<bool, AllocError>
    ensures { IfOk result (λ is. IsTrue is ↔ laid text.now ≡ text.now) }
{
    let again = formatted_text(alloc, text)?;
    Ok(again.as_slice() == text)
}

// Whether a text is a source with the same lines.
fn is_alike<A: Allocator + Copy>(
    alloc: A,
    source: &Source<A>,
    text: &[u8],
) -> Result<bool, AllocError>
    ensures { IfOk result (λ is. IsTrue is ↔ IsSource text.now source.now) }
{
    match parse(alloc, text) {
        Ok(other) => Ok(same_source(source, &other)),
        Err(Fault::Memory) => Err(AllocError),
        Err(_) => Ok(false),
    }
}

// Returns the text in columns if it has the same meaning and formatting it again leaves it unchanged.
fn settled<A: Allocator + Copy>(
    alloc: A,
    source: &Source<A>,
    text: &[u8],
) -> Result<Option<Vec<u8, A>>, AllocError>
    ensures laid { IfOk result (λ found. IfSome found (λ out. out.items ≡ laid text.now)) }
    ensures same { IfOk result (λ found. IfSome found (λ _. IsSource (laid text.now) source.now × (laid (laid text.now) ≡ laid text.now))) }
    ensures none { IfOk result (λ found. IfNone found (IsSource (laid text.now) source.now → laid (laid text.now) ≡ laid text.now → ⊥)) }
{
    let out = formatted_text(alloc, text)?;
    let is = is_alike(alloc, source, out.as_slice())? && is_formatted(alloc, out.as_slice())?;
    Ok(if is { Some(out) } else { None })
}

/// Returns the text of a source in columns. Letters become capitals wherever their case does not matter. Labels begin in column
/// 1, operations in column 9, operands in column 13 and comments in column 29, or further right if the text before them is
/// longer. The lines have the same meaning as those of `text`, comments are kept, and formatting the result again leaves it
/// unchanged.
///
/// Fails with `Source` and the first error if the text is not a valid source. Fails with `Unlike` if the text in columns would
/// not be such a source, for instance because it would be too large. Also fails if memory runs out. This project's profile.
pub fn format_source<A: Allocator + Copy>(alloc: A, text: &[u8]) -> Result<Vec<u8, A>, FormatFault>
    ensures laid { IfOk result (λ out. out.items ≡ laid text.now) }
    ensures same { IfOk result (λ out. AreAlike text.now out.items) }
    ensures settled { IfOk result (λ out. laid out.items ≡ out.items) }
    ensures refused { IfErr result (λ fault. IsFormatFault text.now fault) }
{
    let source = match parse(alloc, text) {
        Ok(source) => source,
        Err(Fault::Memory) => return Err(FormatFault::Memory),
        Err(fault) => return Err(FormatFault::Source(fault)),
    };
    match settled(alloc, &source, text)? {
        Some(out) => Ok(out),
        None => Err(FormatFault::Unlike),
    }
}
