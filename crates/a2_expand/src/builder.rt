//! The plain lines of lines that stand alone: everything but blocks and macros.

ghost use Rattle.std.specs.Prelude.{◌≡◌, map, pos, IfOk, Some};
ghost use Rattle.a2_expand.specs.Data.{shown};
ghost use Rattle.a2_expand.specs.Expressions.{Says};
ghost use Rattle.a2_expand.specs.Pieces.{pieces_of};

use crate::adding::add;
use crate::fault::{ExpandFault, Origin, Problem, moved, trouble, trouble_at};
use crate::larger::is_larger_line;
use crate::limits::{MOST_LINE_BYTES, MOST_LINES};
use crate::operand::{Known, Width, put_count, put_decimal, put_expression, put_operand, value_of};
use crate::parts::{Parts, Word, parts_of, place_in_list, split_item, word_of};
use crate::token::{Token, split_token};
use crate::value::Constant;
use a2_text::front_len;
use std::alloc::{AllocError, Allocator};

// The most bytes in a line of data that is made here.
const BYTES_IN_A_LINE: usize = 32;

/// A plain line, apart from its local labels; where it comes from, and the scope of its local labels.
#[derive(Drop)]
pub(crate) struct Row<A: Allocator> {
    pub text: Vec<u8, A>,
    pub at: Origin,
    pub scope: usize,
}

/// A scope of local labels: its name, and the scope around it, in which a label is looked up too.
#[derive(Drop)]
pub(crate) struct Scope<A: Allocator> {
    pub name: Vec<u8, A>,
    pub around: Option<usize>,
}

/// The lines so far, and what they have defined.
#[derive(Drop)]
pub(crate) struct Builder<A: Allocator> {
    pub alloc: A,
    pub rows: Vec<Row<A>, A>,
    pub constants: Vec<Constant<A>, A>,
    pub scopes: Vec<Scope<A>, A>,
    /// The scope of the line, an index of `scopes`.
    pub scope: usize,
    /// Whether labels do not begin a new scope.
    pub fixed: bool,
}

// Returns a line of these parts.
fn statement<A: Allocator>(
    alloc: A,
    label: &[u8],
    operation: &[u8],
    operand: &[u8],
    comment: &[u8],
) -> Result<Vec<u8, A>, AllocError> {
    let mut text = Vec::from_slice(alloc, label)?;
    text.extend_from_slice(gap(operation))?;
    text.extend_from_slice(operation)?;
    text.extend_from_slice(gap(operand))?;
    text.extend_from_slice(operand)?;
    text.extend_from_slice(gap(comment))?;
    text.extend_from_slice(comment)?;
    Ok(text)
}

// A blank, unless the part after it is empty.
fn gap(part: &[u8]) -> &'static [u8] {
    if part.is_empty() { b"" } else { b" " }
}

// Whether a label begins a scope of local labels.
fn begins_scope(parts: &Parts<'_>) -> bool {
    match parts.label {
        [] | [b'.', ..] | [b':', ..] => false,
        _ => word_of(parts.operation) != Word::Equ,
    }
}

// Whether an item of a list is a text of other than one character.
fn is_text(item: &[u8]) -> bool {
    match split_token(item, false) {
        Some((Token::Text(piece), _)) => piece.len() == item.len(),
        _ => false,
    }
}

// Whether a text is not empty and does not contain a byte.
fn lacks(text: &[u8], byte: u8) -> bool {
    !text.is_empty() && front_len(text, |c| c != byte) == text.len()
}

// Returns the characters of a text in quotes, at least one.
fn characters(operand: &[u8]) -> Result<&[u8], ExpandFault> {
    match operand {
        [b'\'', inner @ .., b'\''] if lacks(inner, b'\'') => Ok(inner),
        [b'"', inner @ .., b'"'] if lacks(inner, b'"') => Ok(inner),
        _ => Err(trouble_at(Problem::Text, operand, 0)),
    }
}

// Returns the code of a character in inverse, or flashing, or `None` if there is none.
fn shown_code(c: u8, flashing: bool) -> Option<u8>
    ensures { result ≡ shown flashing c }
{
    if c < 32 || c > 95 {
        return None;
    }
    let code = if c >= 64 { c - 64 } else { c };
    Some(if flashing { code + 64 } else { code })
}

// Returns the codes of a text in inverse or flashing.
fn shown_codes<A: Allocator>(
    alloc: A,
    text: &[u8],
    flashing: bool,
) -> Result<Vec<u8, A>, ExpandFault>
    ensures { IfOk result (λ codes. map Some codes.items ≡ map (shown flashing) text.now) }
{
    let mut codes = Vec::new(alloc);
    for c in text {
        let Some(code) = shown_code(*c, flashing) else {
            return Err(trouble(Problem::Character, &[*c]));
        };
        add(&mut codes, code)?;
    }
    Ok(codes)
}

// Returns bytes in decimal, with commas between them.
fn decimals<A: Allocator>(alloc: A, bytes: &[u8]) -> Result<Vec<u8, A>, AllocError> {
    let mut list = Vec::new(alloc);
    for byte in bytes {
        if !list.is_empty() {
            list.push(b',')?;
        }
        put_decimal(&mut list, u32::from(*byte))?;
    }
    Ok(list)
}

// Returns the parts of the lines after the first that a line becomes: without its label and comment.
fn later<'p>(parts: Parts<'p>) -> Parts<'p> {
    Parts {
        label: b"",
        operation: parts.operation,
        operand: parts.operand,
        comment: b"",
        operand_at: parts.operand_at,
    }
}

impl<A: Allocator + Copy> Builder<A> {
    // The names whose values are known.
    fn known(&self) -> Known<'_, A>
        ensures { result.constants.now ≡ self.now.constants.items }
    {
        Known {
            alloc: self.alloc,
            constants: self.constants.as_slice(),
        }
    }

    /// Adds a plain line.
    pub(crate) fn emit(&mut self, text: Vec<u8, A>, at: Origin) -> Result<(), ExpandFault> {
        if self.rows.len() >= MOST_LINES {
            return Err(trouble(Problem::ManyLines, b""));
        }
        if text.len() > MOST_LINE_BYTES {
            return Err(trouble(Problem::LongLine, b""));
        }
        let row = Row {
            text,
            at,
            scope: self.scope,
        };
        add(&mut self.rows, row)?;
        Ok(())
    }

    // Adds a line with this operation and operand, and the label and comment of these parts; returns the parts for further lines.
    fn put_row<'p>(
        &mut self,
        parts: Parts<'p>,
        operation: &[u8],
        operand: &[u8],
        at: Origin,
    ) -> Result<Parts<'p>, ExpandFault> {
        let text = statement(self.alloc, parts.label, operation, operand, parts.comment)?;
        self.emit(text, at)?;
        Ok(later(parts))
    }

    // Begins the scope of a label.
    fn begin_scope(&mut self, parts: &Parts<'_>) -> Result<(), ExpandFault> {
        if self.fixed || !begins_scope(parts) {
            return Ok(());
        }
        self.new_scope(parts.label)
    }

    // Adds a scope, and begins it.
    fn add_scope(&mut self, name: Vec<u8, A>, around: Option<usize>) -> Result<(), ExpandFault> {
        add(&mut self.scopes, Scope { name, around })?;
        self.scope = self.scopes.len().saturating_sub(1);
        Ok(())
    }

    /// Begins a scope with this name.
    pub(crate) fn new_scope(&mut self, name: &[u8]) -> Result<(), ExpandFault> {
        let name = Vec::from_slice(self.alloc, name)?;
        self.add_scope(name, None)
    }

    /// Begins a scope inside the scope of the line, with its name.
    pub(crate) fn inner_scope(&mut self) -> Result<(), ExpandFault> {
        let name = match self.scopes.get(self.scope) {
            Some(scope) => Vec::from_slice(self.alloc, scope.name.as_slice())?,
            None => Vec::new(self.alloc),
        };
        self.add_scope(name, Some(self.scope))
    }

    /// Makes the value of a name known.
    pub(crate) fn know(&mut self, name: &[u8], value: i32) -> Result<(), ExpandFault> {
        let name = Vec::from_slice(self.alloc, name)?;
        add(&mut self.constants, Constant { name, value })?;
        Ok(())
    }

    // Makes the value of an EQU known, if its operand has one here.
    fn note_equate(&mut self, parts: &Parts<'_>) -> Result<(), ExpandFault> {
        if word_of(parts.operation) != Word::Equ {
            return Ok(());
        }
        match value_of(parts.operand, &self.known()) {
            Ok(value) => self.know(parts.label, value),
            Err(fault) if fault.problem == Problem::Memory => Err(fault),
            Err(_) => Ok(()),
        }
    }

    /// Adds bytes, 32 in a line.
    pub(crate) fn put_bytes(
        &mut self,
        parts: Parts<'_>,
        bytes: &[u8],
        at: Origin,
    ) -> Result<(), ExpandFault> {
        let mut parts = parts;
        let mut rest = bytes;
        for _ in 0..bytes.len() {
            if rest.is_empty() {
                break;
            }
            let (now, following) = rest.split_at(BYTES_IN_A_LINE.min(rest.len()));
            let list = decimals(self.alloc, now)?;
            parts = self.put_row(parts, b"DFB", list.as_slice(), at)?;
            rest = following;
        }
        Ok(())
    }

    // Adds a text in inverse or flashing.
    fn put_shown(
        &mut self,
        parts: Parts<'_>,
        flashing: bool,
        at: Origin,
    ) -> Result<(), ExpandFault> {
        let codes = shown_codes(self.alloc, characters(parts.operand)?, flashing)?;
        self.put_bytes(parts, codes.as_slice(), at)
    }

    // Adds a text with its length before it.
    fn put_counted(&mut self, parts: Parts<'_>, at: Origin) -> Result<(), ExpandFault> {
        let text = characters(parts.operand)?;
        if text.len() > 255 {
            return Err(trouble(Problem::Text, parts.operand));
        }
        let mut count = Vec::new(self.alloc);
        put_count(&mut count, text.len())?;
        let parts = self.put_row(parts, b"DFB", count.as_slice(), at)?;
        self.put_row(parts, b"ASC", parts.operand, at)?;
        Ok(())
    }

    // Adds a list of bytes that were collected, if there are any.
    fn flush<'p>(
        &mut self,
        parts: Parts<'p>,
        list: &mut Vec<u8, A>,
        at: Origin,
    ) -> Result<Parts<'p>, ExpandFault> {
        if list.is_empty() {
            return Ok(parts);
        }
        let parts = self.put_row(parts, parts.operation, list.as_slice(), at)?;
        list.clear();
        Ok(parts)
    }

    // Adds an item of a list to those that were collected; a text becomes a line of its own.
    fn put_item<'p>(
        &mut self,
        parts: Parts<'p>,
        list: &mut Vec<u8, A>,
        item: &[u8],
        at: Origin,
    ) -> Result<Parts<'p>, ExpandFault> {
        let is_list_of_bytes = word_of(parts.operation) == Word::Dfb;
        if is_list_of_bytes && is_text(item) {
            let _ = characters(item)?;
            let parts = self.flush(parts, list, at)?;
            return self.put_row(parts, b"ASC", item, at);
        }
        if !list.is_empty() {
            list.extend_from_slice(b",")?;
        }
        let width = if is_list_of_bytes {
            Width::Byte
        } else {
            Width::Word
        };
        put_expression(list, item, &self.known(), width)?;
        Ok(parts)
    }

    // Adds a list of expressions and, among bytes, of texts.
    fn put_list(&mut self, parts: Parts<'_>, at: Origin) -> Result<(), ExpandFault> {
        let mut list = Vec::new(self.alloc);
        let mut now = parts;
        let mut rest = Some(parts.operand);
        for _ in 0..parts.operand.len().saturating_add(1) {
            let Some(text) = rest else {
                break;
            };
            let (item, following) = split_item(text);
            now = match self.put_item(now, &mut list, item, at) {
                Ok(later) => later,
                Err(fault) => return Err(moved(fault, place_in_list(parts.operand, text))),
            };
            rest = following;
        }
        self.flush(now, &mut list, at)?;
        Ok(())
    }

    /// Returns the value of a count, 0 to 65,535.
    pub(crate) fn count_of(&self, text: &[u8]) -> Result<u32, ExpandFault>
        ensures { IfOk result (λ count. Says self.now.constants.items (pieces_of text.now) (pos count)) }
    {
        let value = value_of(text, &self.known())?;
        if value < 0 || value > 65535 {
            return Err(trouble_at(Problem::Count, text, 0));
        }
        Ok(value as u32)
    }

    // Returns the value of a byte; a negative one is in two's complement.
    fn byte_of(&self, text: &[u8]) -> Result<u8, ExpandFault> {
        let value = value_of(text, &self.known())?;
        if value < -128 || value > 255 {
            return Err(trouble_at(Problem::ByteRange, text, 0));
        }
        Ok((value & 255) as u8)
    }

    // Adds a number of equal bytes.
    fn put_fill(
        &mut self,
        parts: Parts<'_>,
        count: u32,
        value: u8,
        at: Origin,
    ) -> Result<(), ExpandFault> {
        let same = [value; 32];
        let mut parts = parts;
        let mut left = count as usize;
        for _ in 0..count {
            if left == 0 {
                break;
            }
            let now = left.min(BYTES_IN_A_LINE);
            let list = decimals(self.alloc, &same[..now])?;
            parts = self.put_row(parts, b"DFB", list.as_slice(), at)?;
            left -= now;
        }
        Ok(())
    }

    // Adds room: zeros, or bytes of a value.
    fn put_room(&mut self, parts: Parts<'_>, at: Origin) -> Result<(), ExpandFault> {
        let (first, following) = split_item(parts.operand);
        let value = match following {
            Some(text) => match self.byte_of(text.trim_ascii()) {
                Ok(value) => value,
                Err(fault) => return Err(moved(fault, place_in_list(parts.operand, text))),
            },
            None => 0,
        };
        if value == 0 {
            let mut count = Vec::new(self.alloc);
            put_expression(&mut count, first, &self.known(), Width::Word)?;
            self.put_row(parts, b"DS", count.as_slice(), at)?;
            return Ok(());
        }
        let count = self.count_of(first)?;
        if count == 0 {
            self.put_row(parts, b"DS", b"0", at)?;
            return Ok(());
        }
        self.put_fill(parts, count, value, at)
    }

    // Adds a line whose operand is one expression.
    fn put_valued(&mut self, parts: Parts<'_>, at: Origin) -> Result<(), ExpandFault> {
        self.note_equate(&parts)?;
        let mut operand = Vec::new(self.alloc);
        put_expression(&mut operand, parts.operand, &self.known(), Width::Word)?;
        self.put_row(parts, parts.operation, operand.as_slice(), at)?;
        Ok(())
    }

    // Adds a line with these parts.
    fn put_same(&mut self, parts: &Parts<'_>, at: Origin) -> Result<(), ExpandFault> {
        let text = statement(
            self.alloc,
            parts.label,
            parts.operation,
            parts.operand,
            parts.comment,
        )?;
        self.emit(text, at)
    }

    // Adds an instruction, or a line with only a label.
    fn put_instruction(&mut self, parts: Parts<'_>, at: Origin) -> Result<(), ExpandFault> {
        if parts.operation.is_empty() {
            return self.put_same(&parts, at);
        }
        let mut operand = Vec::new(self.alloc);
        put_operand(&mut operand, parts.operand, &self.known())?;
        self.put_row(parts, parts.operation, operand.as_slice(), at)?;
        Ok(())
    }

    // Adds the lines of a line that uses the larger language.
    fn put_larger(&mut self, parts: Parts<'_>, at: Origin) -> Result<(), ExpandFault> {
        match word_of(parts.operation) {
            Word::Dfb | Word::Dw => self.put_list(parts, at),
            Word::Inv => self.put_shown(parts, false, at),
            Word::Fls => self.put_shown(parts, true, at),
            Word::Str => self.put_counted(parts, at),
            Word::Ds => self.put_room(parts, at),
            Word::Equ | Word::Org => self.put_valued(parts, at),
            Word::Asc => self.put_same(&parts, at),
            _ => self.put_instruction(parts, at),
        }
    }

    /// Adds the plain lines of a line. A line that uses nothing of the larger language stays as it is.
    pub(crate) fn put_line(&mut self, line: &[u8], at: Origin) -> Result<(), ExpandFault> {
        let parts = parts_of(line);
        self.begin_scope(&parts)?;
        if is_larger_line(line) {
            return self.put_larger(parts, at);
        }
        self.note_equate(&parts)?;
        let text = Vec::from_slice(self.alloc, line)?;
        self.emit(text, at)
    }
}

/// Returns a builder without lines.
pub(crate) fn new_builder<A: Allocator + Copy>(alloc: A) -> Result<Builder<A>, ExpandFault> {
    let mut made = Builder {
        alloc,
        rows: Vec::new(alloc),
        constants: Vec::new(alloc),
        scopes: Vec::new(alloc),
        scope: 0,
        fixed: false,
    };
    made.new_scope(b"L")?;
    Ok(made)
}
