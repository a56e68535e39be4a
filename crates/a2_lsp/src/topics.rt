//! The topics of the manual that name operations, services and locations.

use a2_manual::{manual, topic};
use a2_opcode::{Mnemonic, row_of};
use a2_text::front_len;
use std::alloc::{AllocError, Global};

/// A name of the manual with an address: `COUT` and `$FDED`.
#[derive(Clone, Copy)]
pub(crate) struct Known<'a> {
    pub name: &'a [u8],
    pub address: &'a [u8],
}

// Splits a text before the first such byte; the byte is dropped.
fn parted(text: &[u8], byte: u8) -> (&[u8], &[u8]) {
    let length = front_len(text, |c| c != byte);
    let (front, rest) = (
        text.get(..length).unwrap_or(text),
        text.get(length..).unwrap_or(b""),
    );
    (front, rest.get(1..).unwrap_or(b""))
}

// Returns the name and the address that the names of a topic are, if they are these.
fn known_in(names: &[u8]) -> Option<Known<'_>> {
    let (name, rest) = parted(names, b',');
    let (address, _) = parted(rest, b',');
    match (name, address) {
        ([b'A'..=b'Z', ..], [b'$', ..]) => Some(Known { name, address }),
        _ => None,
    }
}

/// Returns the services and the locations of the manual.
pub(crate) fn known_names(alloc: Global) -> Result<Vec<Known<'static>>, AllocError> {
    let mut all = Vec::new(alloc);
    let mut rest = manual();
    for _ in 0..manual().len() {
        if rest.is_empty() {
            return Ok(all);
        }
        let (topic, following) = parted(rest, b'~');
        let (names, _) = parted(topic, b'\n');
        if let Some(known) = known_in(names) {
            all.push(known)?;
        }
        rest = following;
    }
    Ok(all)
}

/// Returns the mnemonics, each once.
pub(crate) fn mnemonics(alloc: Global) -> Result<Vec<Mnemonic>, AllocError> {
    let mut all: Vec<Mnemonic> = Vec::new(alloc);
    for opcode in 0..=255u8 {
        if let Some(row) = row_of(opcode) {
            if !all.as_slice().contains(&row.mnemonic) {
                all.push(row.mnemonic)?;
            }
        }
    }
    Ok(all)
}

/// The directives.
pub(crate) const DIRECTIVES: [&[u8]; 6] = [b"ORG", b"EQU", b"DFB", b"DW", b"ASC", b"DS"];

/// Returns what the manual says about a name, or an empty text.
pub(crate) fn said(name: &[u8]) -> &'static [u8] {
    topic(manual(), name).unwrap_or(b"")
}

/// Splits a text after its first line.
pub(crate) fn line_and_rest(text: &[u8]) -> (&[u8], &[u8]) {
    parted(text, b'\n')
}
