//! The places of a name in a source.

ghost use Rattle.std.specs.Prelude.{IfSome, Contains, IsTrue};

use crate::tokens::{Token, TokenKind, tokens_of};
use std::alloc::{AllocError, Global};

/// A place of a name: the line, counted from 0, the indices in it, and whether the name is the line's label.
#[derive(Clone, Copy, Debug, PartialEq, Eq)]
pub struct NamePlace {
    pub line: usize,
    pub from: usize,
    pub to: usize,
    pub is_label: bool,
}

// Whether a word of a line is this name.
fn is_name_here(line: &[u8], token: &Token, name: &[u8]) -> bool {
    match token.kind {
        TokenKind::Label | TokenKind::Name => line.get(token.from..token.to) == Some(name),
        _ => false,
    }
}

// Adds the places of a name in a line.
fn add_places(
    alloc: Global,
    number: usize,
    line: &[u8],
    name: &[u8],
    places: &mut Vec<NamePlace>,
) -> Result<(), AllocError> {
    let tokens = tokens_of(alloc, line)?;
    for token in tokens.as_slice() {
        if is_name_here(line, token, name) {
            places.push(NamePlace {
                line: number,
                from: token.from,
                to: token.to,
                is_label: token.kind == TokenKind::Label,
            })?;
        }
    }
    Ok(())
}

/// Returns the places of a name in the lines of a source, in order. Names in comments and in quotes are no places.
pub fn places_of(
    alloc: Global,
    lines: &[&[u8]],
    name: &[u8],
) -> Result<Vec<NamePlace>, AllocError> {
    let mut places = Vec::new(alloc);
    for (number, line) in lines.iter().enumerate() {
        add_places(alloc, number, line, name, &mut places)?;
    }
    Ok(places)
}

/// Returns the first place where the name is a label, if there is one.
pub fn definition_of(places: &[NamePlace]) -> Option<NamePlace>
    ensures { IfSome result (λ place. Contains places.now place × IsTrue place.is_label) }
{
    for place in places {
        if place.is_label {
            return Some(*place);
        }
    }
    None
}
