//! The object lines of a listing.

ghost use Rattle.std.specs.Prelude.{◌≡◌, ◌<◌, ◌++◌, ◌==◌, map, length, IfOk, IfSome};
ghost use Rattle.std.specs.List.{position, flat_map};
ghost use Rattle.a2_text.specs.Signs.{sign};
ghost use Rattle.a2_text.specs.Words.{words};
ghost use Rattle.a2_monitor_listing.specs.Listing as listing;

use a2_text::{cut, first_word};
use std::alloc::{AllocError, Allocator};

// The length of an operation in characters.
const OPERATION: usize = 3;

// The position of the first `-`.
fn dash(text: &[u8]) -> Option<usize>
    ensures is { result ≡ position (λ c. c == sign "-") text.now }
    ensures within { IfSome result (λ i. i < length text.now) }
{
    text.iter().position(|c| *c == b'-')
}

// Appends the words before an operation, with a blank before each.
fn put_bytes<A: Allocator>(object: &mut Vec<u8, A>, text: &[u8]) -> Result<(), AllocError>
    ensures { IfOk result (λ _. object.new.items ≡ object.old.items ++ listing.up_to_operation (words text.now)) }
{
    let mut rest = text;
    while let Some((word, following)) = first_word(rest) {
        if word.len() == OPERATION {
            return Ok(());
        }
        object.push(b' ')?;
        object.extend_from_slice(word)?;
        rest = following;
    }
    Ok(())
}

// Appends the object line for a line.
fn put_object_line<A: Allocator>(object: &mut Vec<u8, A>, line: &[u8]) -> Result<(), AllocError>
    ensures { IfOk result (λ _. object.new.items ≡ object.old.items ++ listing.object_line line.now) }
{
    match dash(line) {
        Some(at) => {
            object.extend_from_slice(&line[..at])?;
            object.push(b':')?;
            put_bytes(object, &line[at + 1..])
        }
        None => object.extend_from_slice(line),
    }
}

// Appends the object line for a line, and LF.
fn put_line<A: Allocator>(object: &mut Vec<u8, A>, line: &[u8]) -> Result<(), AllocError>
    ensures { IfOk result (λ _. object.new.items ≡ object.old.items ++ listing.object_row line.now) }
{
    put_object_line(object, line)?;
    object.push(b'\n')?;
    Ok(())
}

// Appends the object lines for these lines.
fn put_lines<A: Allocator>(object: &mut Vec<u8, A>, lines: &[&[u8]]) -> Result<(), AllocError>
    ensures { IfOk result (λ _. object.new.items ≡ object.old.items ++ flat_map listing.object_row (map (λ x. x.now) lines.now)) }
{
    for line in lines {
        put_line(object, *line)?;
    }
    Ok(())
}

/// Returns the object lines of a listing, one for each line.
pub fn object_lines<A: Allocator + Copy>(alloc: A, text: &[u8]) -> Result<Vec<u8, A>, AllocError>
    ensures { IfOk result (λ object. object.items ≡ listing.object_lines text.now) }
{
    let lines = cut(alloc, text)?;
    let mut object = Vec::new(alloc);
    put_lines(&mut object, lines.as_slice())?;
    Ok(object)
}
