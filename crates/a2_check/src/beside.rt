//! The errors of lines that are in the grammar, in a source with others that are not.
//!
//! An error is reported only if no fix of those other lines can change it.

use crate::line::number_of;
use crate::names::{line_of, missing};
use crate::operand::word_in;
use crate::probe::append_line;
use crate::values::{literal, single_name};
use a2_asm::refusals;
use a2_syntax::{Body, Fault, Line, Source};
use std::alloc::{AllocError, Allocator};

/// Returns the text of these lines, with an empty line in place of each that has one of these syntax errors.
pub(crate) fn without_unread<A: Allocator + Copy>(
    alloc: A,
    texts: &[&[u8]],
    unread: &[Fault],
) -> Result<Vec<u8, A>, AllocError> {
    let mut text = Vec::new(alloc);
    for (i, line) in texts.iter().enumerate() {
        if unread.contains(&Fault::Syntax(number_of(i))) {
            append_line(&mut text, &[])?;
        } else {
            append_line(&mut text, &[*line])?;
        }
    }
    Ok(text)
}

// A source in which lines with syntax errors are empty.
#[derive(Clone, Copy)]
struct Read<'a, A: Allocator> {
    // The lines as written.
    texts: &'a [&'a [u8]],
    // The parsed lines.
    lines: &'a [Line<A>],
    // The syntax errors.
    unread: &'a [Fault],
}

// Returns whether a name occurs in a line with a syntax error. If so, the line may be meant to define it.
fn is_in_unread<A: Allocator>(read: &Read<'_, A>, name: &[u8]) -> bool {
    for fault in read.unread {
        let index = usize::from(fault.line()).wrapping_sub(1);
        if let Some(text) = read.texts.get(index) {
            if word_in(*text, name).is_some() {
                return true;
            }
        }
    }
    false
}

// Returns whether a line uses a name that no line defines, not even one with a syntax error.
fn is_undefined<A: Allocator>(read: &Read<'_, A>, earlier: &[Line<A>], index: usize) -> bool {
    match read.lines.get(index) {
        Some(line) => match missing(earlier, &line.body) {
            Some(name) => !is_in_unread(read, name),
            None => false,
        },
        None => false,
    }
}

// Returns whether the length of a line, and the address after it, do not depend on lines with syntax errors.
fn is_fixed<A: Allocator>(read: &Read<'_, A>, index: usize, body: &Body<A>) -> bool {
    !matches!(body, Body::Org(_) | Body::Ds(_))
        && missing(read.lines, body).is_none()
        && !read.unread.contains(&Fault::Syntax(number_of(index)))
}

// Returns whether this is so for all lines from one index up to another.
fn are_fixed<A: Allocator>(read: &Read<'_, A>, first: usize, end: usize) -> bool {
    for (i, line) in read.lines.iter().enumerate() {
        if first <= i && i < end && !is_fixed(read, i, &line.body) {
            return false;
        }
    }
    true
}

// Returns whether the distance of a branch does not depend on lines with syntax errors.
fn is_known_distance<A: Allocator>(read: &Read<'_, A>, index: usize, body: &Body<A>) -> bool {
    let Some(name) = single_name(body) else {
        return false;
    };
    match line_of(read.lines, name) {
        Some(target) => are_fixed(read, index.min(target), index.max(target)),
        None => false,
    }
}

// Returns whether an error of a line that is in the grammar stays an error, however the lines with syntax errors are fixed.
fn is_certain<A: Allocator>(read: &Read<'_, A>, fault: Fault) -> bool {
    let index = usize::from(fault.line()).wrapping_sub(1);
    let Some(line) = read.lines.get(index) else {
        return false;
    };
    match fault {
        Fault::Duplicate(_) | Fault::NoMode(_) => true,
        Fault::Unknown(_) => is_undefined(read, read.lines, index),
        Fault::Forward(_) => {
            let (earlier, _) = read.lines.split_at(index.min(read.lines.len()));
            is_undefined(read, earlier, index)
        }
        Fault::Range(_) => literal(&line.body).is_some(),
        Fault::Branch(_) => is_known_distance(read, index, &line.body),
        _ => false,
    }
}

/// Returns the syntax errors of a source, and then the errors of its other lines that no fix of these can change. `source` has an empty
/// line for each line with a syntax error.
pub(crate) fn with_others<A: Allocator + Copy>(
    alloc: A,
    texts: &[&[u8]],
    source: &Source<A>,
    unread: &[Fault],
) -> Result<Vec<Fault, A>, AllocError> {
    let read = Read {
        texts,
        lines: source.lines(),
        unread,
    };
    let mut all = Vec::new(alloc);
    all.extend_from_slice(unread)?;
    for fault in &refusals(alloc, source)? {
        if is_certain(&read, *fault) {
            all.push(*fault)?;
        }
    }
    Ok(all)
}
