//! Appending and splitting texts.

ghost use Rattle.std.specs.Prelude.{◌≤◌, length};

use crate::dialect::Dialect;
use a2_text::front_len;
use std::alloc::{AllocError, Allocator};

/// The blanks before an operation without a label.
pub(crate) const BLANKS: &[u8] = b"        ";

/// Appends several texts, one after another.
pub(crate) fn append<A: Allocator>(
    out: &mut Vec<u8, A>,
    pieces: &[&[u8]],
) -> Result<(), AllocError> {
    for piece in pieces {
        out.extend_from_slice(piece)?;
    }
    Ok(())
}

/// Splits a text at the first of these bytes, which belongs to the second part.
pub(crate) fn before<'a>(text: &'a [u8], stops: &[u8]) -> (&'a [u8], &'a [u8])
    ensures { length result.1.now ≤ length text.now }
{
    text.split_at(front_len(text, |c| !stops.contains(&c)))
}

/// Cuts a text after at most `count` bytes.
pub(crate) fn cut_at(text: &[u8], count: usize) -> (&[u8], &[u8])
    ensures { length result.1.now ≤ length text.now }
{
    text.split_at(count.min(text.len()))
}

/// A line, or a part of a line between braces.
#[derive(Clone, Copy)]
pub(crate) struct Piece<'a> {
    /// The line of the old text, counted from 1.
    pub line: usize,
    pub text: &'a [u8],
}

/// How long a text in quotes may be.
#[derive(Clone, Copy, PartialEq, Eq)]
pub(crate) enum Quotes {
    /// A quote begins one character, after which the quote may be missing.
    Short,
    /// A text ends with the same quote.
    Long,
    /// A text in double quotes ends with them, and `'` begins one character.
    Mixed,
}

/// Returns how long the texts in quotes of a dialect are.
pub(crate) fn quotes_of(dialect: Dialect) -> Quotes {
    match dialect {
        Dialect::Dasm => Quotes::Mixed,
        _ if dialect.is_old() => Quotes::Short,
        _ => Quotes::Long,
    }
}

// The length of a text in quotes at the beginning of a text, with its quotes.
fn quoted_len(text: &[u8], quotes: Quotes) -> usize {
    let Some((quote, inner)) = text.split_first() else {
        return 1;
    };
    let is_long = quotes == Quotes::Long || (quotes == Quotes::Mixed && *quote == b'"');
    let count = front_len(inner, |c| c != *quote);
    if count < inner.len() && (is_long || count == 1) {
        return count.saturating_add(2);
    }
    if is_long { 1 } else { 2 }
}

// The length of what is at the beginning of a text: a text in quotes, or one byte.
fn step_len(text: &[u8], quotes: Quotes) -> usize {
    match text.first() {
        Some(b'"' | b'\'') => quoted_len(text, quotes),
        _ => 1,
    }
}

/// Returns the number of bytes before the first of these bytes outside quotes.
pub(crate) fn span(text: &[u8], stops: &[u8], quotes: Quotes) -> usize {
    let mut count: usize = 0;
    for _ in 0..text.len() {
        let (_, rest) = cut_at(text, count);
        match rest.first() {
            None => break,
            Some(c) if stops.contains(c) => break,
            Some(_) => {}
        }
        count = count.saturating_add(step_len(rest, quotes)).min(text.len());
    }
    count
}

// How many brackets are open after a byte.
fn depth_after(depth: u32, c: u8) -> u32 {
    match c {
        b'(' | b'[' => depth.saturating_add(1),
        b')' | b']' => depth.saturating_sub(1),
        _ => depth,
    }
}

/// Returns the item at the beginning of a list, without blanks around it, and the text after the separator that follows it, if there is
/// one. A separator in quotes or brackets separates nothing.
pub(crate) fn split_item(text: &[u8], separator: u8, quotes: Quotes) -> (&[u8], Option<&[u8]>) {
    let mut count: usize = 0;
    let mut depth: u32 = 0;
    for _ in 0..text.len() {
        let (item, rest) = cut_at(text, count);
        let Some(c) = rest.first() else {
            break;
        };
        if *c == separator && depth == 0 {
            let (_, rest) = cut_at(rest, 1);
            return (item.trim_ascii(), Some(rest));
        }
        depth = depth_after(depth, *c);
        count = count.saturating_add(step_len(rest, quotes));
    }
    (text.trim_ascii(), None)
}

/// Returns how many brackets are open at the end of a text, and the position after the bracket that closes the first one.
pub(crate) fn closing_len(text: &[u8], quotes: Quotes) -> Option<usize> {
    let mut count: usize = 0;
    let mut depth: u32 = 0;
    for _ in 0..text.len() {
        let (_, rest) = cut_at(text, count);
        let Some(c) = rest.first() else {
            break;
        };
        depth = depth_after(depth, *c);
        if depth == 0 {
            return Some(count.saturating_add(1));
        }
        count = count.saturating_add(step_len(rest, quotes));
    }
    None
}
