//! The texts that a routine prints, and the keys that it takes.

ghost use Rattle.std.specs.Prelude.{◌≡◌, ℕ, List, [], ◌∷◌, ◌++◌, IfSome, OnOk};
ghost use Rattle.a2_text.specs.Words.{after_blanks as after_blanks_of};
ghost use Rattle.a2_bus.specs.KeyText.{SpellsKeys};
ghost use Rattle.a2_promise.specs.Reading.{AddsText};

use crate::fault::{ReadFault, Why};
use crate::reader::Reader;
use a2_bus::Keys;
use a2_text::after_blanks;
use std::alloc::AllocError;

/// A text of a promise: the number of its line, its spelling with quotes, and its characters, each from 0 to 127.
#[derive(Drop)]
pub struct Text<'a> {
    pub line: usize,
    pub written: &'a [u8],
    pub characters: Vec<u8>,
}

/// The texts that a routine prints and the keys that it takes, in order. If there is no text of one kind, nothing is
/// promised about it.
pub struct Texts<'a> {
    pub prints: Vec<Text<'a>>,
    pub takes: Vec<Text<'a>>,
}

// Written by hand only for the prover: it handles this as one call, but a derived `Drop` field by field.
impl<'a> Drop for Texts<'a> {
    fn drop(self) {
        let Texts {
            prints: _,
            takes: _,
        } = self;
    }
}

// The most characters in all texts of one kind. As many keys can wait to be read.
const MOST_CHARACTERS: usize = 4096;

// Returns the characters of a quoted text, which is spelt as keys are.
fn spelled(written: &[u8]) -> Option<Keys>
    ensures { IfSome result (λ keys. (inner : List ℕ) × (written.now ≡ 34 ∷ (inner ++ 34 ∷ [])) × SpellsKeys inner keys) }
{
    let [b'"', inner @ .., b'"'] = written else {
        return None;
    };
    match std::str::from_utf8(inner) {
        Ok(inner) => Keys::parse(inner),
        Err(_) => None,
    }
}

// Returns the total number of characters in texts.
fn count_of(texts: &[Text]) -> usize {
    let mut count: usize = 0;
    for text in texts {
        count = count.saturating_add(text.characters.len());
    }
    count
}

/// Reads the rest of a line as a text, and adds it.
pub(crate) fn push_text<'a>(
    reader: &mut Reader<'a, '_>,
    texts: &mut Vec<Text<'a>>,
    line: usize,
) -> Result<(), ReadFault>
    ensures { OnOk result (AddsText (after_blanks_of reader.old.rest.now) texts.old.items texts.new.items) }
{
    let written = after_blanks(reader.rest);
    let Some(keys) = spelled(written) else {
        return reader.refuse(Why::NoSpelling);
    };
    if count_of(texts.as_slice()).saturating_add(keys.bytes().len()) > MOST_CHARACTERS {
        return reader.refuse(Why::TooManyCharacters);
    }
    let mut characters = Vec::new(reader.alloc);
    characters.extend_from_slice(keys.bytes())?;
    add_text(
        texts,
        Text {
            line,
            written,
            characters,
        },
    )?;
    Ok(())
}

// Adds a text.
fn add_text<'a>(texts: &mut Vec<Text<'a>>, text: Text<'a>) -> Result<(), AllocError>
    ensures { OnOk result (texts.new.items ≡ texts.old.items ++ text.entry ∷ []) }
{
    Ok(texts.push(text)?)
}
