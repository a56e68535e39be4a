//! Lines that begin, divide or end a block.

use crate::dialect::Dialect;
use crate::expression::value_in;
use crate::names::{Variable, is_local, put_cleaned, turn_of};
use crate::operator::Operator;
use crate::parts::{Parts, parts_of};
use crate::pieces::{Quotes, append, cut_at, quotes_of, split_item};
use crate::reading::{Kind, Reading};
use crate::rules::{Action, Test};
use crate::scan::{block_name, is_comment_line, is_labelled_block};
use crate::value::{Value, Width};
use a2_text::{decimal, front_len, split_word};
use std::alloc::{AllocError, Allocator};

// An empty text.
const NOTHING: &[u8] = b"";

// The most times that lines are read again.
const MOST_ROUNDS: i32 = 4096;

// The text of an operand before the brace that begins a block.
fn before_brace(operand: &[u8]) -> &[u8] {
    match operand {
        [inner @ .., b'{'] => inner.trim_ascii(),
        _ => operand,
    }
}

// The operator that compares a value with 0, for a condition other than that it is not 0.
fn comparison(test: Test) -> Option<Operator> {
    Some(match test {
        Test::Zero => Operator::Equal,
        Test::Positive => Operator::Greater,
        Test::NotNegative => Operator::AtLeast,
        Test::Negative => Operator::Less,
        Test::NotPositive => Operator::AtMost,
        _ => return None,
    })
}

// Whether a line begins a block of this kind, or in acme any block.
fn begins(dialect: Dialect, parts: &Parts<'_>, kind: Kind) -> bool {
    match parts.action {
        Some(Action::Else | Action::ElseIf) => false,
        Some(Action::Macro) if kind == Kind::Macro => true,
        Some(Action::Repeat) if kind == Kind::Repeat => true,
        _ => dialect == Dialect::Acme && parts.operand.ends_with(b"{"),
    }
}

// Whether a line ends a block of this kind, or in acme any block.
fn ends(parts: &Parts<'_>, kind: Kind) -> bool {
    match parts.action {
        Some(Action::Close) => true,
        Some(Action::EndMacro) => kind == Kind::Macro,
        Some(Action::EndRepeat) => kind == Kind::Repeat,
        _ => false,
    }
}

// Whether a name of a macro or a parameter has only bytes that such names have.
fn is_plain_name(name: &[u8]) -> bool {
    front_len(
        name,
        |c| c.is_ascii_alphanumeric() || c == b'_' || c == b'.',
    ) == name.len()
}

// The greatest digit after this mark in a text, or `most` if that is greater.
fn greatest_digit(text: &[u8], mark: u8, most: u8) -> u8 {
    let mut found = most;
    let mut last = 0;
    for c in text {
        if last == mark && matches!(*c, b'1'..=b'9') {
            found = found.max(c.saturating_sub(b'0'));
        }
        last = *c;
    }
    found
}

// The mark before the digit of a parameter.
fn parameter_mark(dialect: Dialect) -> Option<u8> {
    match dialect {
        Dialect::Merlin | Dialect::Sc => Some(b']'),
        Dialect::Dasm => Some(b'{'),
        Dialect::Tass => Some(b'\\'),
        _ => None,
    }
}

impl<'a, A: Allocator + Copy> Reading<'a, A> {
    // The parts of a line by its index; `None` if it has none or is a comment.
    fn parts_at(&self, at: usize) -> Option<Parts<'a>> {
        let piece = self.lines.get(at).copied()?;
        if is_comment_line(self.dialect, piece.text) {
            return None;
        }
        Some(parts_of(self.dialect, piece.text))
    }

    // The index of the line that ends the block whose first line is before this one.
    fn end_of(&self, first: usize, kind: Kind) -> Option<usize> {
        let mut depth: u32 = 0;
        for at in first..self.lines.len() {
            let Some(parts) = self.parts_at(at) else {
                continue;
            };
            if begins(self.dialect, &parts, kind) {
                depth = depth.saturating_add(1);
            }
            if ends(&parts, kind) {
                if depth == 0 {
                    return Some(at);
                }
                depth = depth.saturating_sub(1);
            }
        }
        None
    }

    // The value of a condition, as it is written after IF.
    fn condition(&self, test: Test, operand: &[u8]) -> Result<Option<Value<A>>, AllocError> {
        match test {
            Test::Texts => Ok(None),
            Test::Defined | Test::Undefined => self.defined(test, operand),
            _ => {
                let Some(value) = value_in(&self.names, operand, Width::Word)? else {
                    return Ok(None);
                };
                if value.is_address {
                    return Ok(None);
                }
                let Some(operator) = comparison(test) else {
                    return Ok(Some(value));
                };
                let zero = Value::of_number(self.alloc, 0)?;
                let made = value.combined(self.alloc, operator, &zero, Width::Word)?;
                Ok(Some(made))
            }
        }
    }

    // Whether a name is defined above, as 1 or 0.
    fn defined(&self, test: Test, name: &[u8]) -> Result<Option<Value<A>>, AllocError> {
        let is_defined = match self.names.definition(name) {
            Some(symbol) if symbol.at >= self.next => false,
            Some(symbol) if !symbol.is_certain => return Ok(None),
            Some(_) => true,
            None => false,
        };
        let holds = is_defined == (test == Test::Defined);
        let made = Value::of_number(self.alloc, if holds { 1 } else { 0 })?;
        Ok(Some(made))
    }

    /// Begins a condition; returns whether it has a form here.
    pub(crate) fn begin_if(&mut self, test: Test, operand: &[u8]) -> Result<bool, AllocError> {
        let Some(value) = self.condition(test, before_brace(operand))? else {
            return Ok(false);
        };
        self.open(Kind::If, b"")?;
        self.put_front(b"IF ")?;
        self.put_text(value.text.as_slice())?;
        Ok(true)
    }

    /// Goes to the next branch of a condition; returns whether it has a form here.
    pub(crate) fn next_branch(&mut self, parts: &Parts<'a>) -> Result<bool, AllocError> {
        match self.blocks.last() {
            Some(block) if block.kind == Kind::If => {}
            _ => return Ok(false),
        }
        if matches!(parts.action, Some(Action::Else)) {
            self.put_front(b"ELSE")?;
            return Ok(true);
        }
        let Some(value) = self.condition(Test::NotZero, before_brace(parts.operand))? else {
            return Ok(false);
        };
        self.put_front(b"ELSEIF ")?;
        self.put_text(value.text.as_slice())?;
        Ok(true)
    }

    /// Ends a condition; returns whether one is open.
    pub(crate) fn end_if(&mut self) -> Result<bool, AllocError> {
        if self.close(Kind::If).is_none() {
            return Ok(false);
        }
        self.put_front(b"ENDIF")?;
        Ok(true)
    }

    // Finds the labels of a macro that belong to each of its calls.
    fn find_locals(&mut self, end: usize) -> Result<(), AllocError> {
        for at in self.next..end {
            let Some(parts) = self.parts_at(at) else {
                continue;
            };
            if matches!(parts.action, Some(Action::Local)) {
                let mut rest = Some(parts.operand);
                for _ in 0..parts.operand.len() {
                    let Some(text) = rest else {
                        break;
                    };
                    let (name, following) = split_item(text, b',', Quotes::Long);
                    self.names.locals.push(name)?;
                    rest = following;
                }
            }
            if self.dialect == Dialect::Tass
                && !parts.label.is_empty()
                && turn_of(self.dialect, parts.label).is_none()
                && !is_local(self.dialect, parts.label)
            {
                self.names.locals.push(parts.label)?;
            }
        }
        Ok(())
    }

    // Appends the names of the parameters that have digits, and returns whether there are such.
    fn put_digits(&mut self, end: usize) -> Result<bool, AllocError> {
        let Some(mark) = parameter_mark(self.dialect) else {
            return Ok(false);
        };
        let mut most = 0;
        for at in self.next..end {
            if let Some(piece) = self.lines.get(at).copied() {
                most = greatest_digit(piece.text, mark, most);
            }
        }
        for before in 0..most {
            let number = decimal(u64::from(before).saturating_add(1));
            self.text.push(if before == 0 { b' ' } else { b',' })?;
            self.put(&[b"ARG", number.as_slice()])?;
        }
        Ok(most > 0)
    }

    // Appends the names of parameters in a list; returns whether each is a name.
    fn put_parameters(&mut self, list: &'a [u8]) -> Result<bool, AllocError> {
        let mut rest = if list.trim_ascii().is_empty() {
            None
        } else {
            Some(list)
        };
        let mut gap: &[u8] = b" ";
        for _ in 0..list.len() {
            let Some(text) = rest else {
                break;
            };
            let (name, following) = split_item(text, b',', Quotes::Long);
            let (mark, word): (&[u8], &[u8]) = match (self.dialect, name) {
                (Dialect::Acme, [b'.', word @ ..]) => (b"p_", word),
                (Dialect::Tass, _) => (b"p_", name),
                _ => (b"", name),
            };
            if word.is_empty() || !is_plain_name(word) {
                return Ok(false);
            }
            self.names.parameters.push(name)?;
            self.put(&[gap, mark, word])?;
            gap = b",";
            rest = following;
        }
        Ok(true)
    }

    /// Begins a macro; returns whether it has a form here.
    pub(crate) fn begin_macro(&mut self, parts: &Parts<'a>) -> Result<bool, AllocError> {
        let operand = before_brace(parts.operand);
        let is_first = parts.label.is_empty();
        let (name, list) = if is_first {
            split_word(operand)
        } else {
            (parts.label, operand)
        };
        let Some(end) = self.end_of(self.next, Kind::Macro) else {
            return Ok(false);
        };
        if name.is_empty()
            || !is_plain_name(name)
            || self.names.in_macro
            || self.is_in(Kind::Repeat)
            || self.is_in(Kind::Unrolled)
        {
            return Ok(false);
        }
        self.open(Kind::Macro, name)?;
        self.find_locals(end)?;
        self.put_front(b"MACRO ")?;
        let mut written = Vec::new(self.alloc);
        put_cleaned(&mut written, name)?;
        self.put_text(written.as_slice())?;
        self.names.in_macro = true;
        if self.put_digits(end)? {
            return Ok(true);
        }
        self.put_parameters(list)
    }

    // Puts the lines of a macro that cannot be converted after marks.
    fn mark_lines(&mut self, first: usize, after: usize) -> Result<(), AllocError> {
        for at in first..after {
            if let Some(piece) = self.lines.get(at).copied() {
                if is_comment_line(self.dialect, piece.text) {
                    self.put_comment_line(piece.text)?;
                } else {
                    self.put_mark(piece.text)?;
                }
            }
        }
        Ok(())
    }

    /// Ends a macro; returns whether one is open. If a line of it cannot be converted, all of it is put after marks.
    pub(crate) fn end_macro(&mut self) -> Result<bool, AllocError> {
        let Some(block) = self.close(Kind::Macro) else {
            return Ok(false);
        };
        self.names.in_macro = false;
        self.names.parameters.clear();
        self.names.locals.clear();
        if self.marks > block.marks {
            self.text.truncate(block.start);
            self.marks = block.marks;
            self.start = block.start;
            self.mark_lines(block.at, self.next)?;
            self.front = self.text.len();
            self.start = self.front;
            return Ok(true);
        }
        self.macros.push(block.name)?;
        self.put_front(b"ENDMACRO")?;
        Ok(true)
    }

    // Whether lines that are repeated have to be written again and again: a name changes its value in them, or a label has no name.
    fn changes(&self, end: usize) -> bool {
        for at in self.next..end {
            let Some(parts) = self.parts_at(at) else {
                continue;
            };
            let is_again = self.dialect == Dialect::Merlin && parts.label.starts_with(b"]");
            let is_turn = turn_of(self.dialect, parts.label).is_some() && !self.names.keeps_turns;
            if matches!(parts.action, Some(Action::Variable)) || is_again || is_turn {
                return true;
            }
        }
        false
    }

    // Begins lines that are read again and again.
    fn unroll(&mut self, count: Option<i32>) -> Result<bool, AllocError> {
        let Some(count) = count else {
            return Ok(false);
        };
        if count < 1 || count > MOST_ROUNDS || self.names.in_macro {
            return Ok(false);
        }
        self.open(Kind::Unrolled, b"")?;
        if let Some(block) = self.blocks.last_mut() {
            block.left = (count as u32).saturating_sub(1);
        }
        Ok(true)
    }

    // The number of rounds and the counter of repeated lines, and the value of the counter in the first round.
    fn rounds(&self, operand: &'a [u8]) -> Result<Option<(Value<A>, &'a [u8], i32)>, AllocError> {
        let quotes = quotes_of(self.dialect);
        let (first, rest) = split_item(operand, b',', quotes);
        if self.dialect != Dialect::Acme {
            let counter = rest.unwrap_or(NOTHING).trim_ascii();
            let found = value_in(&self.names, first, Width::Word)?;
            return Ok(match found {
                Some(value) => Some((value, counter, 0)),
                None => None,
            });
        }
        let (from, end) = split_item(rest.unwrap_or(NOTHING), b',', quotes);
        let Some(low) = value_in(&self.names, from, Width::Word)? else {
            return Ok(None);
        };
        let Some(end) = end else {
            return Ok(Some((low, first, 1)));
        };
        let Some(high) = value_in(&self.names, end, Width::Word)? else {
            return Ok(None);
        };
        let (Some(a), Some(b)) = (low.number, high.number) else {
            return Ok(None);
        };
        let count = b.saturating_sub(a).saturating_add(1);
        if count < 0 {
            return Ok(None);
        }
        Ok(Some((Value::of_number(self.alloc, count)?, first, a)))
    }

    // Makes the name of a counter stand for its value, if that does not begin with 0.
    fn bind_counter(&mut self, counter: &'a [u8], first: i32) -> Result<(), AllocError> {
        let name = Value::term(self.alloc, &[counter], None)?;
        let from = Value::of_number(self.alloc, first)?;
        let mut value = name.combined(self.alloc, Operator::Add, &from, Width::Word)?;
        value.number = None;
        self.names.variables.push(Variable {
            name: counter,
            value,
        })?;
        Ok(())
    }

    /// Begins repeated lines; returns whether they have a form here.
    pub(crate) fn begin_repeat(&mut self, parts: &Parts<'a>) -> Result<bool, AllocError> {
        if parts.operation.eq_ignore_ascii_case(b".for") {
            return Ok(false);
        }
        let Some(end) = self.end_of(self.next, Kind::Repeat) else {
            return Ok(false);
        };
        let Some((count, counter, first)) = self.rounds(before_brace(parts.operand))? else {
            return Ok(false);
        };
        if self.changes(end) {
            if counter.is_empty() {
                return self.unroll(count.number);
            }
            return Ok(false);
        }
        if count.is_address {
            return Ok(false);
        }
        let is_moved = first != 0 && !counter.is_empty();
        self.open(Kind::Repeat, if is_moved { counter } else { b"" })?;
        self.put_front(b"REPEAT ")?;
        self.put_text(count.text.as_slice())?;
        if !counter.is_empty() {
            self.put(&[b",", counter])?;
        }
        if is_moved {
            self.bind_counter(counter, first)?;
        }
        Ok(true)
    }

    /// Ends repeated lines, or begins to read them again; returns whether such lines are open.
    pub(crate) fn end_repeat(&mut self) -> Result<bool, AllocError> {
        if let Some(block) = self.close(Kind::Unrolled) {
            if block.left > 0 {
                let mut again = block;
                again.left = block.left.saturating_sub(1);
                self.blocks.push(again)?;
                self.next = block.at.saturating_add(1);
            }
            return Ok(true);
        }
        let Some(block) = self.close(Kind::Repeat) else {
            return Ok(false);
        };
        if !block.name.is_empty() {
            let _ = self.names.variables.pop();
        }
        self.put_front(b"ENDREPEAT")?;
        Ok(true)
    }

    /// Begins a block with names of its own.
    pub(crate) fn begin_scope(&mut self, parts: &Parts<'a>) -> Result<bool, AllocError> {
        let name = block_name(parts);
        if self.names.in_macro {
            return Ok(false);
        }
        if is_labelled_block(self.dialect, parts) && parts.label.is_empty() && !name.is_empty() {
            if !self.names.put_label(&mut self.text, name, false)? {
                return Ok(false);
            }
        }
        self.open(Kind::Scope, name)?;
        self.names.blocks.push(name)?;
        Ok(true)
    }

    /// Ends a block with names of its own; returns whether one is open.
    pub(crate) fn end_scope(&mut self) -> bool {
        if self.close(Kind::Scope).is_none() {
            return false;
        }
        let _ = self.names.blocks.pop();
        true
    }

    /// Begins a scope of local labels; in acme it may be a block.
    pub(crate) fn begin_zone(&mut self, parts: &Parts<'a>) -> Result<bool, AllocError> {
        let is_block = parts.operand.ends_with(b"{");
        let name = if parts.label.is_empty() {
            before_brace(parts.operand)
        } else {
            parts.label
        };
        if self.names.in_macro {
            return Ok(false);
        }
        self.zones = self.zones.saturating_add(1);
        let mut zone = Vec::new(self.alloc);
        put_cleaned(&mut zone, name)?;
        if name.is_empty() {
            let number = decimal(u64::from(self.zones));
            append(&mut zone, &[b"ZONE_", number.as_slice()])?;
        }
        if is_block {
            self.open(Kind::Zone, b"")?;
        }
        self.names.zone = zone;
        Ok(true)
    }

    // Ends a zone that is a block. What follows has a zone of its own.
    fn end_zone(&mut self) -> Result<bool, AllocError> {
        if self.close(Kind::Zone).is_none() {
            return Ok(false);
        }
        self.zones = self.zones.saturating_add(1);
        let number = decimal(u64::from(self.zones));
        let mut zone = Vec::new(self.alloc);
        append(&mut zone, &[b"ZONE_", number.as_slice()])?;
        self.names.zone = zone;
        Ok(true)
    }

    /// Begins a block whose texts have bit 7 set, or ends the last one without braces.
    pub(crate) fn begin_raised(&mut self, operand: &[u8]) -> Result<bool, AllocError> {
        let Some(value) = value_in(&self.names, before_brace(operand), Width::Byte)? else {
            return Ok(false);
        };
        if value.number != Some(128) || !operand.ends_with(b"{") {
            return Ok(false);
        }
        self.open(Kind::Raised, b"")?;
        self.raised = true;
        Ok(true)
    }

    /// Ends the innermost block in braces; returns whether one is open.
    pub(crate) fn close_brace(&mut self) -> Result<bool, AllocError> {
        match self.blocks.last() {
            Some(block) if block.kind == Kind::If => self.end_if(),
            Some(block) if block.kind == Kind::Macro => self.end_macro(),
            Some(block) if block.kind == Kind::Repeat || block.kind == Kind::Unrolled =>
                self.end_repeat(),
            Some(block) if block.kind == Kind::Zone => self.end_zone(),
            Some(block) if block.kind == Kind::Raised => {
                let _ = self.close(Kind::Raised);
                self.raised = false;
                Ok(true)
            }
            _ => Ok(false),
        }
    }
}

/// Returns the first word of an operand, without a comma after it, and the rest.
pub(crate) fn first_argument(operand: &[u8]) -> (&[u8], &[u8]) {
    let len = front_len(operand, |c| !matches!(c, b',' | b';' | b' '));
    let (name, rest) = cut_at(operand, len);
    let (_, rest) = cut_at(rest, 1);
    (name, rest)
}
