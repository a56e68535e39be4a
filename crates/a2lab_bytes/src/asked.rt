//! What the arguments of `source` ask for.

use crate::places::{Span, address_in, span_in};
use a2_arguments::Arguments;
use a2_disassembly::{Content, Part};
use a2lab_commands::options::{CODE, DATA, ENTRY, SOURCE_ONLY, TEXT, WORDS};
use a2lab_commands::{Message, Refusal};
use std::alloc::Global;

/// What the arguments ask for.
#[derive(Drop)]
pub(crate) struct Asked {
    /// The part of the image that is written.
    pub only: Option<Span>,
    pub entries: Vec<u16>,
    pub parts: Vec<Part>,
}

// Returns the address in the value of an option.
fn address_of<'a>(option: &'a str, value: &'a str) -> Result<u16, Refusal<'a>> {
    match address_in(value.as_bytes()) {
        Some(address) => Ok(address),
        None => Err(Refusal::of_two(Message::SourceAddress, option, value)),
    }
}

// Returns the span in the value of an option.
fn span_of<'a>(option: &'a str, value: &'a str) -> Result<Span, Refusal<'a>> {
    match span_in(value.as_bytes()) {
        Some(span) => Ok(span),
        None => Err(Refusal::of_two(Message::SourceSpan, option, value)),
    }
}

// Returns the part of the image that is written, if not all of it is.
fn only_in<'a>(arguments: &Arguments<'a>) -> Result<Option<Span>, Refusal<'a>> {
    match arguments.text(&SOURCE_ONLY) {
        Some(value) => Ok(Some(span_of(SOURCE_ONLY.name, value)?)),
        None => Ok(None),
    }
}

// Returns what a part holds that an option of this name gives.
fn content_of(name: &str) -> Option<Content> {
    if name == CODE.name {
        Some(Content::Code)
    } else if name == DATA.name {
        Some(Content::Data)
    } else if name == TEXT.name {
        Some(Content::Text)
    } else if name == WORDS.name {
        Some(Content::Words)
    } else {
        None
    }
}

// Returns the entries that the options give.
fn entries_in<'a>(alloc: Global, arguments: &Arguments<'a>) -> Result<Vec<u16>, Refusal<'a>> {
    let mut entries = Vec::new(alloc);
    for option in &arguments.options {
        if option.name == ENTRY.name {
            entries.extend_from_slice(&[address_of(option.name, option.value)?])?;
        }
    }
    Ok(entries)
}

// Returns the parts that the options give.
fn parts_in<'a>(alloc: Global, arguments: &Arguments<'a>) -> Result<Vec<Part>, Refusal<'a>> {
    let mut parts = Vec::new(alloc);
    for option in &arguments.options {
        if let Some(content) = content_of(option.name) {
            let span = span_of(option.name, option.value)?;
            parts.extend_from_slice(&[Part {
                first: span.first,
                end: span.end,
                content,
            }])?;
        }
    }
    Ok(parts)
}

/// Returns what the arguments ask for.
pub(crate) fn asked_in<'a>(alloc: Global, arguments: &Arguments<'a>) -> Result<Asked, Refusal<'a>> {
    let only = only_in(arguments)?;
    let entries = entries_in(alloc, arguments)?;
    let parts = parts_in(alloc, arguments)?;
    Ok(Asked {
        only,
        entries,
        parts,
    })
}
