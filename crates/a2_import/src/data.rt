//! Statements that define data.

use crate::dialect::Dialect;
use crate::expression::value_in;
use crate::operator::{Operator, PART};
use crate::parts::texts_len;
use crate::pieces::{BLANKS, before, cut_at, quotes_of, split_item};
use crate::reading::Reading;
use crate::rules::List;
use crate::value::{Value, Width};
use a2_text::{decimal, front_len, hex_pair};
use std::alloc::{AllocError, Allocator};

// The most bytes of hexadecimal digits in a line.
const BYTES_IN_A_LINE: usize = 32;

// A line gets no more items after so many characters.
const LONG_LINE: usize = 180;

/// A delimited text: its delimiter, the text between the delimiters, and the text after them.
#[derive(Clone, Copy)]
struct Marked<'t> {
    mark: u8,
    text: &'t [u8],
    following: &'t [u8],
}

// The delimited text at the beginning of a text.
fn text_in(operand: &[u8]) -> Option<Marked<'_>> {
    let (mark, inner) = operand.split_first()?;
    let (text, rest) = before(inner, &[*mark]);
    let (_, following) = cut_at(rest, 1);
    if rest.is_empty() {
        return None;
    }
    Some(Marked {
        mark: *mark,
        text,
        following,
    })
}

// The text in quotes that an item of a list consists of.
fn whole_text(item: &[u8]) -> Option<&[u8]> {
    match item {
        [b'"', inner @ .., b'"'] if !inner.contains(&b'"') => Some(inner),
        [b'\'', inner @ .., b'\''] if !inner.contains(&b'\'') => Some(inner),
        _ => None,
    }
}

// Whether a byte can be in a text after ASC, between these quotes.
fn is_plain(c: u8, quote: u8) -> bool {
    c >= b' ' && c <= b'~' && c != quote
}

impl<'a, A: Allocator + Copy> Reading<'a, A> {
    // Whether the bytes of a text have bit 7 set.
    fn is_high(&self, minus: bool, mark: u8) -> bool {
        match self.dialect {
            Dialect::Sc => minus,
            Dialect::Edasm => self.high,
            Dialect::Lisa | Dialect::Merlin => mark < b'\'',
            _ => self.raised,
        }
    }

    // Appends lines with a text whose bytes have bit 7 set or clear.
    fn put_characters(&mut self, high: bool, text: &[u8]) -> Result<(), AllocError> {
        let quote = if high { b'"' } else { b'\'' };
        let mut rest = text;
        for _ in 0..text.len() {
            let (plain, following) = cut_at(rest, front_len(rest, |c| is_plain(c, quote)));
            if !plain.is_empty() {
                self.put_front(b"ASC ")?;
                self.put(&[&[quote], plain, &[quote]])?;
            }
            let Some((c, others)) = following.split_first() else {
                break;
            };
            let byte = if high { *c | 128 } else { *c };
            self.put_front(b"DFB $")?;
            self.put(&[&hex_pair(byte)])?;
            rest = others;
        }
        Ok(())
    }

    /// Appends lines of bytes given in hexadecimal digits, with or without commas between them; returns whether they are such.
    pub(crate) fn put_hex(&mut self, digits: &[u8]) -> Result<bool, AllocError> {
        let mut count: usize = 0;
        let mut first = 0;
        for c in digits {
            let is_between = matches!(*c, b',' | b'$' | b' ')
                || *c == b'.' && self.dialect == Dialect::Sc;
            if is_between && first == 0 {
                continue;
            }
            if !c.is_ascii_hexdigit() {
                return Ok(false);
            }
            if first == 0 {
                first = *c;
                continue;
            }
            if count % BYTES_IN_A_LINE == 0 {
                self.put_front(b"DFB $")?;
            } else {
                self.put(&[b",$"])?;
            }
            self.put(&[&[first, *c]])?;
            first = 0;
            count = count.saturating_add(1);
        }
        Ok(first == 0 && count > 0)
    }

    /// Appends lines with delimited texts and bytes in hexadecimal digits; returns whether the operand is such.
    pub(crate) fn put_texts(&mut self, operand: &[u8]) -> Result<bool, AllocError> {
        let (_, is_closed) = texts_len(operand);
        if !is_closed || operand.is_empty() {
            return Ok(false);
        }
        let (minus, mut rest) = match operand {
            [b'-', rest @ ..] if self.dialect == Dialect::Sc => (true, rest),
            _ => (false, operand),
        };
        for _ in 0..operand.len() {
            if rest.is_empty() {
                break;
            }
            let digits = front_len(rest, |c| c.is_ascii_hexdigit() || c == b',' || c == b'$');
            if digits > 0 {
                let (bytes, following) = cut_at(rest, digits);
                if bytes != b",".as_slice() && !self.put_hex(bytes)? {
                    return Ok(false);
                }
                rest = following;
                continue;
            }
            let Some(found) = text_in(rest) else {
                return Ok(false);
            };
            self.put_characters(self.is_high(minus, found.mark), found.text)?;
            rest = found.following;
        }
        Ok(true)
    }

    // The only text of an operand, and whether its bytes have bit 7 set.
    fn only_text<'t>(&self, operand: &'t [u8]) -> Option<(&'t [u8], bool)> {
        let rest = operand.strip_prefix(b"-").unwrap_or(operand);
        let found = text_in(rest)?;
        if !found.following.is_empty() || found.text.is_empty() {
            return None;
        }
        Some((
            found.text,
            self.is_high(rest.len() < operand.len(), found.mark),
        ))
    }

    /// Appends lines with a text whose last byte has bit 7 inverted; returns whether the operand is a text.
    pub(crate) fn put_ended(&mut self, operand: &[u8]) -> Result<bool, AllocError> {
        let Some((text, high)) = self.only_text(operand) else {
            return Ok(false);
        };
        let (front, last) = cut_at(text, text.len().saturating_sub(1));
        self.put_characters(high, front)?;
        self.put_characters(!high, last)?;
        Ok(true)
    }

    /// Appends a line with the length of a text, and the text; returns whether the operand is a text.
    pub(crate) fn put_counted(&mut self, operand: &[u8]) -> Result<bool, AllocError> {
        let Some((text, high)) = self.only_text(operand) else {
            return Ok(false);
        };
        let count = decimal(text.len() as u64);
        self.put_front(b"DFB ")?;
        self.put(&[count.as_slice()])?;
        self.put_characters(high, text)?;
        Ok(text.len() < 256)
    }

    /// Appends lines with a text from its end to its beginning; returns whether the operand is a text.
    pub(crate) fn put_reversed(&mut self, operand: &[u8]) -> Result<bool, AllocError> {
        let Some((text, high)) = self.only_text(operand) else {
            return Ok(false);
        };
        let mut turned = Vec::new(self.alloc);
        let mut rest = text;
        for _ in 0..text.len() {
            let [others @ .., c] = rest else {
                break;
            };
            turned.push(*c)?;
            rest = others;
        }
        self.put_characters(high, turned.as_slice())?;
        Ok(true)
    }

    /// Appends a line with a text in inverse or flashing; returns whether all its characters can be so.
    pub(crate) fn put_shown(
        &mut self,
        operation: &'static [u8],
        operand: &[u8],
    ) -> Result<bool, AllocError> {
        let Some((text, _)) = self.only_text(operand) else {
            return Ok(false);
        };
        if front_len(text, |c| c >= b' ' && c <= b'_') < text.len() {
            return Ok(false);
        }
        let quote = if text.contains(&b'"') { b'\'' } else { b'"' };
        self.put_front(operation)?;
        self.text.push(b' ')?;
        self.text.push(quote)?;
        self.put_text(text)?;
        self.text.push(quote)?;
        Ok(!text.contains(&quote))
    }

    // Appends a comma, or begins a line with this operation.
    fn put_before(&mut self, last: &[u8], operation: &'static [u8]) -> Result<(), AllocError> {
        if last == operation {
            return self.put(&[b","]);
        }
        self.put_front(operation)
    }

    // The value of an item of a list, and the operation for it.
    fn item_value(
        &self,
        list: List,
        item: &[u8],
    ) -> Result<Option<(Value<A>, &'static [u8])>, AllocError> {
        let alloc = self.alloc;
        let (text, operator) = match (list, item) {
            (List::High, _) => (item, Some(Operator::High)),
            (List::Low, _) => (item, Some(Operator::Low)),
            (List::Marked, [b'/', rest @ ..]) => (rest, Some(Operator::High)),
            (List::Marked, [b'#', rest @ ..]) => {
                let found = self.byte_in(rest, true)?;
                return Ok(with_operation(found, b"DFB "));
            }
            (List::Bytes, [b'#', rest @ ..]) if self.dialect.is_old() => (rest, None),
            _ => (item, None),
        };
        let is_word = matches!(list, List::Words | List::Marked) && operator.is_none();
        if is_word {
            let found = value_in(&self.names, text, Width::Word)?;
            return Ok(with_operation(found, b"DW "));
        }
        let found = match operator {
            None => self.byte_in(text, self.dialect == Dialect::Merlin)?,
            Some(operator) => match value_in(&self.names, text, Width::Word)? {
                Some(value) if is_small(list, &value, text) => Some(value),
                Some(value) => Some(value.changed(alloc, operator)?),
                None => None,
            },
        };
        Ok(with_operation(found, b"DFB "))
    }

    // Appends an item as two bytes, the high one first; returns whether it can be read.
    fn put_double(&mut self, item: &[u8]) -> Result<bool, AllocError> {
        let Some(value) = value_in(&self.names, item, Width::Word)? else {
            return Ok(false);
        };
        let high = value.changed(self.alloc, Operator::High)?;
        let low = value.changed(self.alloc, Operator::Low)?;
        self.put_text(high.text.as_slice())?;
        self.text.push(b',')?;
        self.put_text(low.text.as_slice())?;
        Ok(true)
    }

    // Appends an item of a list after items with this operation; returns its operation, or nothing if it cannot be read.
    fn put_item(
        &mut self,
        list: List,
        item: &[u8],
        last: &[u8],
    ) -> Result<&'static [u8], AllocError> {
        if list == List::Bytes && !self.dialect.is_old() {
            if let Some(text) = whole_text(item) {
                self.put_characters(self.raised, text)?;
                return Ok(b"ASC ");
            }
        }
        if list == List::Doubles {
            self.put_before(last, b"DFB ")?;
            let is_read = self.put_double(item)?;
            return Ok(if is_read { b"DFB " } else { b"" });
        }
        let Some((value, operation)) = self.item_value(list, item)? else {
            return Ok(b"");
        };
        self.put_before(last, operation)?;
        if operation == b"DFB ".as_slice() {
            self.put_byte(&value)?;
        } else {
            self.put_text(value.text.as_slice())?;
        }
        Ok(operation)
    }

    /// Appends the lines for the items of a list; returns whether all of them can be read.
    pub(crate) fn put_list(&mut self, list: List, operand: &[u8]) -> Result<bool, AllocError> {
        let mut last: &'static [u8] = b"";
        let mut rest = Some(operand);
        let mut line = self.text.len();
        for _ in 0..operand.len().saturating_add(1) {
            let Some(text) = rest else {
                break;
            };
            let (item, following) = split_item(text, b',', quotes_of(self.dialect));
            if self.text.len().saturating_sub(line) >= LONG_LINE {
                last = b"";
            }
            if last.is_empty() {
                line = self.text.len();
            }
            last = self.put_item(list, item, last)?;
            if last.is_empty() {
                return Ok(false);
            }
            rest = following;
        }
        Ok(!operand.is_empty())
    }

    /// Appends a line with a 0.
    pub(crate) fn put_zero(&mut self) -> Result<(), AllocError> {
        self.put(&[b"\n", BLANKS, b"DFB 0"])
    }
}

// A value together with the operation for it.
fn with_operation<A: Allocator>(
    found: Option<Value<A>>,
    operation: &'static [u8],
) -> Option<(Value<A>, &'static [u8])> {
    match found {
        Some(value) => Some((value, operation)),
        None => None,
    }
}

// Whether the low byte of an item is the item itself, by its digits.
fn is_small<A: Allocator>(list: List, value: &Value<A>, text: &[u8]) -> bool {
    let begins_with_digit = match text.first() {
        Some(c) => !(c.is_ascii_alphabetic() || matches!(*c, b'_' | b'*' | b'.')),
        None => false,
    };
    list == List::Low && begins_with_digit || value.level == PART
}
