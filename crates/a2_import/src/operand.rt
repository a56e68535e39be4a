//! Operands of instructions.

use crate::dialect::Dialect;
use crate::expression::value_in;
use crate::names::signs_in;
use crate::operator::{Operator, PART, SIGNED, SUM};
use crate::pieces::{closing_len, cut_at, quotes_of, split_item};
use crate::reading::Reading;
use crate::value::{Value, Width};
use a2_text::{capital, decimal};
use std::alloc::{AllocError, Allocator};

// Whether an expression stands for its low byte although its value may be above 255, as `#NAME` does in S-C and LISA.
fn is_low(dialect: Dialect, text: &[u8]) -> bool {
    match text {
        [c, ..] if matches!(dialect, Dialect::Sc | Dialect::Lisa) => {
            c.is_ascii_alphabetic() || matches!(*c, b'_' | b'*' | b'.' | b']')
        }
        _ => false,
    }
}

// Whether a text is the letter of a register, in either case.
fn is_letter(text: &[u8], letter: u8) -> bool {
    match text {
        [c] => capital(*c) == letter,
        _ => false,
    }
}

// The index register after a comma, if there is one; `None` if something else follows the comma.
fn index_of(rest: Option<&[u8]>) -> Option<&'static [u8]> {
    match rest {
        None => Some(b""),
        Some(text) if is_letter(text.trim_ascii(), b'X') => Some(b",X"),
        Some(text) if is_letter(text.trim_ascii(), b'Y') => Some(b",Y"),
        Some(_) => None,
    }
}

impl<'a, A: Allocator + Copy> Reading<'a, A> {
    /// Appends a value as a byte.
    pub(crate) fn put_byte(&mut self, value: &Value<A>) -> Result<(), AllocError> {
        let text = value.text.as_slice();
        let is_sum = value.level == SUM || value.level == SIGNED;
        let zero: &[u8] = if is_sum && text.starts_with(b"-") {
            b"<0"
        } else {
            b""
        };
        self.put(&[zero, text])
    }

    /// Returns an expression for a byte, if it can be read. `selects` says that a name may stand for its low byte.
    pub(crate) fn byte_in(
        &self,
        text: &[u8],
        selects: bool,
    ) -> Result<Option<Value<A>>, AllocError> {
        let Some(value) = value_in(&self.names, text, Width::Byte)? else {
            return Ok(None);
        };
        let is_cut = is_low(self.dialect, text)
            || (self.dialect == Dialect::Merlin && value.is_address);
        if selects && is_cut && value.level != PART {
            return Ok(Some(value.changed(self.alloc, Operator::Low)?));
        }
        Ok(Some(value))
    }

    // Appends an expression for an address; returns whether it can be read.
    fn put_address(&mut self, text: &[u8]) -> Result<bool, AllocError> {
        let Some(value) = value_in(&self.names, text, Width::Word)? else {
            return Ok(false);
        };
        self.put_text(value.text.as_slice())?;
        Ok(true)
    }

    // Appends a name for an address that is to have two bytes. Its value is defined at the end of the text.
    fn put_far(&mut self, text: &[u8]) -> Result<bool, AllocError> {
        let Some(value) = value_in(&self.names, text, Width::Word)? else {
            return Ok(false);
        };
        if self.names.in_macro {
            return Ok(false);
        }
        self.far.push(value.text)?;
        let number = decimal(self.far.len() as u64);
        self.put(&[b"FAR_", number.as_slice()])?;
        Ok(true)
    }

    // Appends an immediate operand, or the high byte after `/`.
    fn put_immediate(&mut self, text: &[u8]) -> Result<bool, AllocError> {
        let Some(value) = self.byte_in(text, true)? else {
            return Ok(false);
        };
        self.text.push(b'#')?;
        self.put_byte(&value)?;
        Ok(true)
    }

    // Appends the high byte of an expression as an immediate operand.
    fn put_high(&mut self, text: &[u8]) -> Result<bool, AllocError> {
        let Some(value) = value_in(&self.names, text, Width::Word)? else {
            return Ok(false);
        };
        let high = value.changed(self.alloc, Operator::High)?;
        self.text.push(b'#')?;
        self.put_text(high.text.as_slice())?;
        Ok(true)
    }

    // Appends an operand in brackets, without what follows them.
    fn put_inner(&mut self, inner: &[u8]) -> Result<bool, AllocError> {
        let (text, rest) = split_item(inner, b',', quotes_of(self.dialect));
        let Some(index) = index_of(rest) else {
            return Ok(false);
        };
        self.text.push(b'(')?;
        let is_read = self.put_address(text)?;
        self.put(&[index, b")"])?;
        Ok(is_read)
    }

    // Appends an address with or without an index.
    fn put_direct(&mut self, text: &[u8], is_far: bool) -> Result<bool, AllocError> {
        let (address, rest) = split_item(text, b',', quotes_of(self.dialect));
        let Some(index) = index_of(rest) else {
            return Ok(false);
        };
        let (address, is_far) = match (self.dialect, address) {
            (Dialect::Ca65, [b'a', b':', rest @ ..]) => (rest, true),
            (Dialect::Ca65, [b'z', b':', rest @ ..]) => (rest, false),
            (Dialect::Tass, [b'@', b'w', rest @ ..]) => (rest, true),
            (Dialect::Tass, [b'@', b'b', rest @ ..]) => (rest, false),
            _ => (address, is_far),
        };
        let is_read = if is_far {
            self.put_far(address)?
        } else {
            self.put_address(address)?
        };
        self.put(&[index])?;
        Ok(is_read)
    }

    // Appends an operand that begins with a bracket.
    fn put_bracketed(&mut self, text: &[u8], is_far: bool) -> Result<bool, AllocError> {
        let Some(len) = closing_len(text, quotes_of(self.dialect)) else {
            return Ok(false);
        };
        let (front, after) = cut_at(text, len);
        let (inner, _) = cut_at(front, len.saturating_sub(1));
        let (_, inner) = cut_at(inner, 1);
        match after.trim_ascii() {
            [] => self.put_inner(inner),
            [b',', index @ ..] if is_letter(index.trim_ascii(), b'Y') => {
                let is_read = self.put_inner(inner)?;
                self.put(&[b",Y"])?;
                Ok(is_read)
            }
            _ => self.put_direct(text, is_far),
        }
    }

    /// Appends the operand of an instruction; returns whether it has a form here.
    pub(crate) fn put_operand(&mut self, text: &[u8], is_far: bool) -> Result<bool, AllocError> {
        if let Some((kind, back, on)) = signs_in(self.dialect, text) {
            let value = self.names.turn_value(kind, back, on)?;
            self.put_text(value.text.as_slice())?;
            return Ok(true);
        }
        match text {
            [] => Ok(true),
            [b'A' | b'a'] => {
                self.put(&[text])?;
                Ok(true)
            }
            [b'#', rest @ ..] => self.put_immediate(rest.trim_ascii()),
            [b'/', rest @ ..] if matches!(self.dialect, Dialect::Sc | Dialect::Lisa) =>
                self.put_high(rest),
            [b'(', ..] => self.put_bracketed(text, is_far),
            _ => self.put_direct(text, is_far),
        }
    }
}
