//! Where a name is defined and used, and its renaming.

use crate::json::{comma, raw, string};
use crate::page::{Page, Span, Spot};
use a2_places::{NamePlace, Token, TokenKind, definition_of, places_of};
use a2_syntax::is_name;
use serde_json::Value;
use std::alloc::AllocError;

// Returns the span of a place.
fn span_of(place: NamePlace) -> Span {
    Span {
        line: place.line,
        from: place.from,
        to: place.to,
    }
}

/// Returns the word at a place if it is a name.
pub(crate) fn name_at(page: &Page<'_>, spot: Spot) -> Result<Option<Token>, AllocError> {
    match page.token(spot)? {
        Some(token) if matches!(token.kind, TokenKind::Label | TokenKind::Name) => Ok(Some(token)),
        _ => Ok(None),
    }
}

/// Returns the places of the name at a place; none if no name is there.
pub(crate) fn places_at(page: &Page<'_>, spot: Spot) -> Result<Vec<NamePlace>, AllocError> {
    match name_at(page, spot)? {
        Some(token) => places_of(page.alloc, page.lines, page.text_of(spot.line, token)),
        None => Ok(Vec::new(page.alloc)),
    }
}

// Appends the location of a place.
fn put_location(out: &mut Vec<u8>, page: &Page<'_>, place: NamePlace) -> Result<(), AllocError> {
    raw(out, b"{\"uri\":")?;
    string(out, page.uri.as_bytes())?;
    raw(out, b",\"range\":")?;
    page.put_range(out, span_of(place))?;
    raw(out, b"}")
}

/// Appends the location that defines the name at a place, or `null`.
pub(crate) fn put_definition(
    out: &mut Vec<u8>,
    page: &Page<'_>,
    spot: Spot,
) -> Result<(), AllocError> {
    let places = places_at(page, spot)?;
    match definition_of(places.as_slice()) {
        Some(place) => put_location(out, page, place),
        None => raw(out, b"null"),
    }
}

/// Appends the locations of the name at a place, without its definition if the parameters ask for that.
pub(crate) fn put_references(
    out: &mut Vec<u8>,
    page: &Page<'_>,
    spot: Spot,
) -> Result<(), AllocError> {
    let with_label = page
        .params
        .pointer("/context/includeDeclaration")
        .and_then(Value::as_bool)
        .unwrap_or(true);
    raw(out, b"[")?;
    for place in places_at(page, spot)?.as_slice() {
        if with_label || !place.is_label {
            comma(out)?;
            put_location(out, page, *place)?;
        }
    }
    raw(out, b"]")
}

/// Appends the places of the name at a place, each with whether it is written or read there.
pub(crate) fn put_highlights(
    out: &mut Vec<u8>,
    page: &Page<'_>,
    spot: Spot,
) -> Result<(), AllocError> {
    raw(out, b"[")?;
    for place in places_at(page, spot)?.as_slice() {
        comma(out)?;
        raw(out, b"{\"range\":")?;
        page.put_range(out, span_of(*place))?;
        let kind: &'static [u8] = kind_of(*place);
        raw(out, kind)?;
    }
    raw(out, b"]")
}

// Returns the end of a highlight.
fn kind_of(place: NamePlace) -> &'static [u8] {
    if place.is_label {
        b",\"kind\":3}"
    } else {
        b",\"kind\":2}"
    }
}

/// Appends the range of the name at a place, or `null`.
pub(crate) fn put_renamed_range(
    out: &mut Vec<u8>,
    page: &Page<'_>,
    spot: Spot,
) -> Result<(), AllocError> {
    match name_at(page, spot)? {
        Some(token) => page.put_range(
            out,
            Span {
                line: spot.line,
                from: token.from,
                to: token.to,
            },
        ),
        None => raw(out, b"null"),
    }
}

/// Why a name is not changed.
#[derive(Clone, Copy)]
pub(crate) enum NameFault {
    /// The new name is not one.
    NotAName,
    /// The new name is defined or used already.
    Taken,
    /// No name is at the place.
    Nothing,
}

// Returns why a name cannot become another.
fn fault_of(
    page: &Page<'_>,
    places: &[NamePlace],
    new: &[u8],
) -> Result<Option<NameFault>, AllocError> {
    if places.is_empty() {
        return Ok(Some(NameFault::Nothing));
    }
    if !is_name(new) {
        return Ok(Some(NameFault::NotAName));
    }
    let others = places_of(page.alloc, page.lines, new)?;
    if others.is_empty() {
        Ok(None)
    } else {
        Ok(Some(NameFault::Taken))
    }
}

/// Appends the edit that gives the name at a place the new name that the parameters have, or returns why there is none.
pub(crate) fn put_renaming(
    out: &mut Vec<u8>,
    page: &Page<'_>,
    spot: Spot,
) -> Result<Option<NameFault>, AllocError> {
    let new = page
        .params
        .pointer("/newName")
        .and_then(Value::as_str)
        .unwrap_or("");
    let places = places_at(page, spot)?;
    let fault = fault_of(page, places.as_slice(), new.as_bytes())?;
    if fault.is_some() {
        return Ok(fault);
    }
    raw(out, b"{\"changes\":{")?;
    string(out, page.uri.as_bytes())?;
    raw(out, b":[")?;
    for place in places.as_slice() {
        comma(out)?;
        raw(out, b"{\"range\":")?;
        page.put_range(out, span_of(*place))?;
        raw(out, b",\"newText\":")?;
        string(out, new.as_bytes())?;
        raw(out, b"}")?;
    }
    raw(out, b"]}}")?;
    Ok(None)
}
