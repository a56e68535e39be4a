//! The lines of a source so far, in columns.

use a2_text::{decimal, hex_pair, hex_word};
use std::alloc::{AllocError, Allocator};

/// The column of operations, counted from 0.
pub(crate) const OPERATION: usize = 8;
/// The column of operands.
pub(crate) const OPERAND: usize = 12;
/// The column of comments after a statement.
pub(crate) const COMMENT: usize = 28;

// The longest list in a comment, in bytes.
const LONGEST_LIST: usize = 100;

/// The lines of a source so far.
pub(crate) struct Draft<A: Allocator> {
    text: Vec<u8, A>,
    // The length of the text before the current line.
    start: usize,
}

// Not derived, only for the prover: it treats this as one call, and a derived `drop` field by field.
impl<A: Allocator> Drop for Draft<A> {
    fn drop(self) {
        let Draft { text: _, start: _ } = self;
    }
}

impl<A: Allocator> Draft<A> {
    /// Returns a text without lines.
    pub(crate) fn new(alloc: A) -> Draft<A> {
        Draft {
            text: Vec::new(alloc),
            start: 0,
        }
    }

    /// Returns the text, and drops the rest.
    pub(crate) fn into_text(self) -> Vec<u8, A> {
        let Draft { text, start: _ } = self;
        text
    }

    /// Returns the length of the text.
    pub(crate) fn len(&self) -> usize {
        self.text.len()
    }

    /// Appends bytes to the line.
    pub(crate) fn put(&mut self, bytes: &[u8]) -> Result<(), AllocError> {
        self.text.extend_from_slice(bytes)
    }

    /// Appends the two digits of a byte.
    pub(crate) fn put_pair(&mut self, byte: u8) -> Result<(), AllocError> {
        self.put(b"$")?;
        self.put(&hex_pair(byte))
    }

    /// Appends the four digits of an address.
    pub(crate) fn put_word(&mut self, word: u16) -> Result<(), AllocError> {
        self.put(b"$")?;
        self.put(&hex_word(word))
    }

    /// Appends a number.
    pub(crate) fn put_number(&mut self, number: u16) -> Result<(), AllocError> {
        let digits = decimal(u64::from(number));
        self.put(digits.as_slice())
    }

    // Returns the length of the line so far.
    fn used(&self) -> usize {
        self.text.len().saturating_sub(self.start)
    }

    /// Returns whether the line is too long for another item of a list.
    pub(crate) fn is_full(&self) -> bool {
        self.used() > LONGEST_LIST
    }

    /// Appends blanks up to a column, at least one.
    pub(crate) fn pad(&mut self, column: usize) -> Result<(), AllocError> {
        let blanks = column.saturating_sub(self.used()).max(1);
        for _ in 0..blanks {
            self.text.push(b' ')?;
        }
        Ok(())
    }

    /// Appends an operation in its column, and blanks up to the column of operands.
    pub(crate) fn put_operation(&mut self, operation: &[u8]) -> Result<(), AllocError> {
        self.pad(OPERATION)?;
        self.put(operation)?;
        self.pad(OPERAND)
    }

    /// Ends the line.
    pub(crate) fn end_line(&mut self) -> Result<(), AllocError> {
        self.text.push(b'\n')?;
        self.start = self.text.len();
        Ok(())
    }

    /// Appends a line.
    pub(crate) fn put_line(&mut self, line: &[u8]) -> Result<(), AllocError> {
        self.put(line)?;
        self.end_line()
    }

    /// Ends the line with a comment.
    pub(crate) fn end_with(&mut self, comment: &[u8]) -> Result<(), AllocError> {
        self.pad(COMMENT)?;
        self.put_line(comment)
    }
}
