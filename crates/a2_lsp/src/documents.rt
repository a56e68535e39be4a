//! The open documents.

ghost use Rattle.std.specs.Prelude.{◌≤◌, length};

use a2_places::{byte_at, line_start, replaced};
use a2_text::front_len;
use serde_json::Value;
use std::alloc::{AllocError, Global};

/// An open document.
#[derive(Drop)]
pub(crate) struct Document {
    pub uri: String,
    /// The version that the client gave it last.
    pub version: Option<usize>,
    pub text: Vec<u8>,
}

/// The open documents, with at most one of a name.
#[derive(Drop)]
pub(crate) struct Documents {
    pub all: Vec<Document>,
}

// Returns the number at a place of some parameters.
fn number_at(params: &Value, place: &str) -> Option<usize> {
    let number = params.pointer(place).and_then(Value::as_u64)?;
    usize::try_from(number).ok()
}

// Returns a copy of a text.
fn copied(alloc: Global, text: &str) -> Result<Vec<u8>, AllocError> {
    let mut copy = Vec::new(alloc);
    copy.extend_from_slice(text.as_bytes())?;
    Ok(copy)
}

// Returns the index of the byte at a position, or of the end of the text if it has fewer lines.
fn index_of(text: &[u8], line: usize, character: usize) -> usize
    ensures { result ≤ length text.now }
{
    let Some(start) = line_start(text, line) else {
        return text.len();
    };
    let rest = text.get(start..).unwrap_or(b"");
    let here = rest.get(..front_len(rest, |c| c != b'\n')).unwrap_or(rest);
    let here = here.strip_suffix(b"\r").unwrap_or(here);
    start
        .saturating_add(byte_at(here, character))
        .min(text.len())
}

// Returns a text after a change that the parameters describe, or `None` if they describe none.
fn changed(alloc: Global, text: &[u8], change: &Value) -> Result<Option<Vec<u8>>, AllocError> {
    let Some(new) = change.pointer("/text").and_then(Value::as_str) else {
        return Ok(None);
    };
    if change.pointer("/range").is_none() {
        return Ok(Some(copied(alloc, new)?));
    }
    let ends = (
        number_at(change, "/range/start/line"),
        number_at(change, "/range/start/character"),
        number_at(change, "/range/end/line"),
        number_at(change, "/range/end/character"),
    );
    let (Some(line), Some(character), Some(last), Some(end)) = ends else {
        return Ok(None);
    };
    let from = index_of(text, line, character);
    let to = index_of(text, last, end);
    if to < from {
        return Ok(None);
    }
    Ok(Some(replaced(alloc, text, from, to, new.as_bytes())?))
}

impl Document {
    // Applies changes, one after another, and returns whether all are changes. If one is none, the text stays as it was before it.
    fn change(&mut self, alloc: Global, changes: &[Value]) -> Result<bool, AllocError> {
        for change in changes {
            match changed(alloc, self.text.as_slice(), change)? {
                Some(text) => self.text = text,
                None => return Ok(false),
            }
        }
        Ok(true)
    }
}

impl Documents {
    /// Returns no documents.
    pub(crate) fn new(alloc: Global) -> Documents {
        Documents {
            all: Vec::new(alloc),
        }
    }

    // Returns the index of the document with this name.
    fn index_of(&self, uri: &str) -> Option<usize> {
        for (index, document) in self.all.iter().enumerate() {
            if document.uri.as_str() == uri {
                return Some(index);
            }
        }
        None
    }

    /// Returns the document with this name.
    pub(crate) fn get(&self, uri: &str) -> Option<&Document> {
        self.all.get(self.index_of(uri)?)
    }

    /// Opens a document. One with the same name is closed first.
    pub(crate) fn open(
        &mut self,
        alloc: Global,
        uri: &str,
        version: Option<usize>,
        text: &str,
    ) -> Result<(), AllocError> {
        let document = Document {
            uri: String::from_str(alloc, uri)?,
            version,
            text: copied(alloc, text)?,
        };
        self.close(uri);
        self.all.push(document)?;
        Ok(())
    }

    /// Changes a document, and returns whether it is open and the changes are such.
    pub(crate) fn change(
        &mut self,
        alloc: Global,
        uri: &str,
        version: Option<usize>,
        changes: &[Value],
    ) -> Result<bool, AllocError> {
        let Some(index) = self.index_of(uri) else {
            return Ok(false);
        };
        let Some(document) = self.all.get_mut(index) else {
            return Ok(false);
        };
        document.version = version;
        document.change(alloc, changes)
    }

    /// Closes a document, and returns whether it was open.
    pub(crate) fn close(&mut self, uri: &str) -> bool {
        match self.index_of(uri) {
            Some(index) if index < self.all.len() => {
                drop(self.all.remove(index));
                true
            }
            _ => false,
        }
    }
}
