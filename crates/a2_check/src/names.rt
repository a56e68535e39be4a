//! The names of a source: where they are defined, where they are used, and which one is most similar to another.

use crate::line::{hex_and_rest, run_len};
use a2_syntax::{Body, Expr, Line, Term};
use a2_text::number_in;
use std::alloc::{AllocError, Allocator};
use strsim::generic_levenshtein;

// Returns how different two names are: 0 if they differ only in upper and lower case, otherwise 1 more than the number of
// letters inserted, left out or changed.
fn distance<A: Allocator + Copy>(alloc: A, name: &[u8], other: &[u8]) -> Result<usize, AllocError> {
    if name.eq_ignore_ascii_case(other) {
        return Ok(0);
    }
    Ok(generic_levenshtein(alloc, name, other)?.saturating_add(1))
}

/// Returns the index of the first of these lines with this label, or `None` if there is none.
pub(crate) fn line_of<A: Allocator>(lines: &[Line<A>], label: &[u8]) -> Option<usize> {
    for (i, line) in lines.iter().enumerate() {
        if let Some(found) = &line.label {
            if found.get().as_bytes() == label {
                return Some(i);
            }
        }
    }
    None
}

// Returns the first name in an expression that is not a label of these lines.
fn missing_in<'a, A: Allocator>(lines: &[Line<A>], e: &'a Expr<A>) -> Option<&'a [u8]> {
    for signed in e.terms.get() {
        if let Term::Named(name) = &signed.term {
            let name = name.get().as_bytes();
            if line_of(lines, name).is_none() {
                return Some(name);
            }
        }
    }
    None
}

// Does the same for several expressions.
fn missing_among<'a, A: Allocator>(lines: &[Line<A>], es: &'a [Expr<A>]) -> Option<&'a [u8]> {
    for e in es {
        let name = missing_in(lines, e);
        if name.is_some() {
            return name;
        }
    }
    None
}

/// Returns the first name in a line that is not a label of these lines.
pub(crate) fn missing<'a, A: Allocator>(lines: &[Line<A>], body: &'a Body<A>) -> Option<&'a [u8]> {
    match body {
        Body::Empty | Body::Asc(_) => None,
        Body::Org(e) | Body::Equ(e) | Body::Ds(e) => missing_in(lines, e),
        Body::Instr(_, operand) => missing_in(lines, operand.expr()?),
        Body::Dfb(es) | Body::Dw(es) => missing_among(lines, es.get()),
    }
}

/// Returns the label that is most similar to an undefined name, or an empty one if none is similar enough. At most two letters
/// may differ, and at most half of them.
pub(crate) fn nearest<'a, A: Allocator + Copy>(
    alloc: A,
    lines: &'a [Line<A>],
    name: &[u8],
) -> Result<&'a [u8], AllocError> {
    let mut nearest = b"".as_slice();
    let mut least = (name.len() / 2).min(2) + 1;
    for line in lines {
        if let Some(label) = &line.label {
            let label = label.get().as_bytes();
            let far = distance(alloc, name, label)?;
            if far < least || far == least && nearest.is_empty() {
                least = far;
                nearest = label;
            }
        }
    }
    Ok(nearest)
}

/// Whether a name could be a hexadecimal number written without `$`.
pub(crate) fn is_hexadecimal(name: &[u8]) -> bool {
    let (_, rest) = hex_and_rest(name);
    name.len() <= 4 && rest.is_empty()
}

// Whether a text is a hexadecimal number that has a decimal digit.
fn is_hexadecimal_number(text: &[u8]) -> bool {
    number_in(16, 4, text).is_some() && run_len(text, b"0123456789", false) < text.len()
}

/// Returns the digits of a hexadecimal number that is written `C1h` or `xC1`, or `None` if a name is not such a number.
pub(crate) fn marked_hexadecimal(name: &[u8]) -> Option<&[u8]> {
    match name {
        [digits @ .., b'h' | b'H'] if is_hexadecimal_number(digits) => Some(digits),
        [b'x' | b'X', digits @ ..] if is_hexadecimal_number(digits) => Some(digits),
        _ => None,
    }
}

/// Returns the digits of a binary number that is written `b101`, or `None` if a name is not such a number.
pub(crate) fn marked_binary(name: &[u8]) -> Option<&[u8]> {
    match name {
        [b'b' | b'B', digits @ ..] if digits.len() >= 3 && number_in(2, 16, digits).is_some() => {
            Some(digits)
        }
        _ => None,
    }
}
