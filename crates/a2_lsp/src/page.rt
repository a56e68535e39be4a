//! An open document, as a request sees it.

use crate::json::{number, raw};
use a2_places::{Token, byte_at, token_at, tokens_of, units_before};
use serde_json::Value;
use std::alloc::{AllocError, Global};

/// An open document and the parameters of a request about it.
#[derive(Clone, Copy)]
pub(crate) struct Page<'a> {
    pub alloc: Global,
    pub uri: &'a str,
    pub text: &'a [u8],
    pub lines: &'a [&'a [u8]],
    pub params: &'a Value,
}

/// A place in a document: a line, and the index of a byte in it.
#[derive(Clone, Copy)]
pub(crate) struct Spot {
    pub line: usize,
    pub index: usize,
}

/// A range of bytes in one line of a document.
#[derive(Clone, Copy)]
pub(crate) struct Span {
    pub line: usize,
    pub from: usize,
    pub to: usize,
}

// Returns the number at a place in some parameters.
pub(crate) fn number_at(params: &Value, place: &str) -> Option<usize> {
    let number = params.pointer(place).and_then(Value::as_u64)?;
    usize::try_from(number).ok()
}

impl<'a> Page<'a> {
    /// Returns a line, or an empty one if there is none.
    pub(crate) fn line(&self, line: usize) -> &'a [u8] {
        self.lines.get(line).copied().unwrap_or(b"")
    }

    /// Returns the place that the parameters ask about, or `None` if they name none in the text. A character after the end of its line is
    /// the end.
    pub(crate) fn spot(&self) -> Option<Spot> {
        let line = number_at(self.params, "/position/line")?;
        let character = number_at(self.params, "/position/character")?;
        if line > self.lines.len() {
            return None;
        }
        Some(Spot {
            line,
            index: byte_at(self.line(line), character),
        })
    }

    /// Returns the word at a place.
    pub(crate) fn token(&self, spot: Spot) -> Result<Option<Token>, AllocError> {
        let tokens = tokens_of(self.alloc, self.line(spot.line))?;
        Ok(token_at(tokens.as_slice(), spot.index))
    }

    /// Returns the text of a word.
    pub(crate) fn text_of(&self, line: usize, token: Token) -> &'a [u8] {
        self.line(line).get(token.from..token.to).unwrap_or(b"")
    }

    // Appends a position.
    fn put_position(&self, out: &mut Vec<u8>, line: usize, index: usize) -> Result<(), AllocError> {
        raw(out, b"{\"line\":")?;
        number(out, line)?;
        raw(out, b",\"character\":")?;
        number(out, units_before(self.line(line), index))?;
        raw(out, b"}")
    }

    /// Appends the range of a span.
    pub(crate) fn put_range(&self, out: &mut Vec<u8>, span: Span) -> Result<(), AllocError> {
        raw(out, b"{\"start\":")?;
        self.put_position(out, span.line, span.from)?;
        raw(out, b",\"end\":")?;
        self.put_position(out, span.line, span.to)?;
        raw(out, b"}")
    }

    /// Appends the range of a whole line.
    pub(crate) fn put_line(&self, out: &mut Vec<u8>, line: usize) -> Result<(), AllocError> {
        let to = self.line(line).len();
        self.put_range(out, Span { line, from: 0, to })
    }

    /// Returns the first and the last line of the range that the parameters ask about: all lines if they have none.
    pub(crate) fn lines_asked(&self) -> (usize, usize) {
        let first = number_at(self.params, "/range/start/line").unwrap_or(0);
        let last = number_at(self.params, "/range/end/line").unwrap_or(usize::MAX);
        (first, last)
    }

    /// Returns what ends a line of the text.
    pub(crate) fn line_end(&self) -> &'static [u8] {
        let first = self.lines.first().copied().unwrap_or(b"");
        match self.text.get(first.len()) {
            Some(b'\r') => b"\r\n",
            _ => b"\n",
        }
    }
}
