//! Importing a statement of an old text.

use crate::blocks::first_argument;
use crate::dialect::Dialect;
use crate::expression::value_in;
use crate::import::NoteKind;
use crate::names::{Constant, Variable, has_name, is_local};
use crate::operator::SUM;
use crate::outcome::is_source;
use crate::parts::{Parts, parts_of, texts_len};
use crate::pieces::{BLANKS, Piece, Quotes, append, cut_at, quotes_of, split_item};
use crate::reading::{Kind, Reading};
use crate::rules::{Action, List};
use crate::scan::{is_comment_line, member_parts};
use crate::value::{Value, Width};
use a2_expand::is_larger_line;
use a2_text::{after_blanks, decimal, split_word};
use std::alloc::{AllocError, Allocator};

// A text after this byte, or nothing if it does not begin with it.
fn without(text: &[u8], mark: u8) -> &[u8] {
    match text {
        [first, rest @ ..] if *first == mark => rest,
        _ => b"",
    }
}

// Whether an argument of a macro is a value, and not a text that replaces the parameter.
fn is_value(dialect: Dialect, item: &[u8]) -> bool {
    dialect == Dialect::Acme && !matches!(item, [b'#' | b'(' | b'-' | b'+', ..])
}

// A text without the quotes around it.
fn unquoted(text: &[u8]) -> &[u8] {
    match text {
        [b'"', inner @ .., b'"'] => inner,
        [b'\'', inner @ .., b'\''] => inner,
        [b'<', inner @ .., b'>'] => inner,
        _ => text,
    }
}

impl<'a, A: Allocator + Copy> Reading<'a, A> {
    /// Appends a line that is a comment.
    pub(crate) fn put_comment_line(&mut self, line: &[u8]) -> Result<(), AllocError> {
        match after_blanks(line) {
            [b'/', b'/', rest @ ..] => self.put(&[b";", rest.trim_ascii_end(), b"\n"]),
            _ => self.put(&[line.trim_ascii_end(), b"\n"]),
        }
    }

    // Appends the comment of a statement, after blanks if the statement itself produced nothing.
    fn put_comment(&mut self, comment: &[u8]) -> Result<(), AllocError> {
        let text = match comment {
            [b'/', b'/', rest @ ..] => rest,
            [b';', rest @ ..] => rest,
            [] => return Ok(()),
            _ => {
                self.put_text(self.gap())?;
                return self.put(&[b"; ", comment]);
            }
        };
        self.put_text(self.gap())?;
        self.put(&[b";", text])
    }

    // The blanks before a comment.
    fn gap(&self) -> &'static [u8] {
        if self.text.len() == self.start {
            BLANKS
        } else {
            b" "
        }
    }

    // Ends the lines of a statement, if there are any.
    fn end(&mut self, comment: &[u8]) -> Result<(), AllocError> {
        self.put_comment(comment)?;
        if self.text.len() > self.start {
            self.text.push(b'\n')?;
        }
        Ok(())
    }

    // Appends the lines of a statement with data; returns whether it has a form here.
    fn put_data(&mut self, parts: &Parts<'a>) -> Result<bool, AllocError> {
        let operand = parts.operand;
        match parts.action {
            Some(Action::List(list)) => self.put_list(list, operand),
            Some(Action::Ended(list)) => {
                let is_read = self.put_list(list, operand)?;
                self.put_zero()?;
                Ok(is_read)
            }
            Some(Action::Hex) => self.put_hex(operand),
            Some(Action::Text) => self.put_texts(operand),
            Some(Action::EndedText) => {
                let is_read = self.put_texts(operand)?;
                self.put_zero()?;
                Ok(is_read)
            }
            Some(Action::LastTurned) => self.put_ended(operand),
            Some(Action::Counted) => self.put_counted(operand),
            Some(Action::Reversed) => self.put_reversed(operand),
            Some(Action::Shown(operation)) => self.put_shown(operation, operand),
            _ => Ok(false),
        }
    }

    // Appends a line with an operation and one expression; returns whether it can be read.
    fn put_valued(&mut self, operation: &[u8], operand: &[u8]) -> Result<bool, AllocError> {
        let Some(value) = value_in(&self.names, operand, Width::Word)? else {
            return Ok(false);
        };
        self.put_front(operation)?;
        self.put_text(value.text.as_slice())?;
        Ok(true)
    }

    // Appends room: zeros, or bytes of a value.
    fn put_room(&mut self, operand: &[u8]) -> Result<bool, AllocError> {
        let (count, rest) = split_item(operand, b',', quotes_of(self.dialect));
        if !self.put_valued(b"DS ", count)? {
            return Ok(false);
        }
        let Some(rest) = rest else {
            return Ok(true);
        };
        let Some(value) = self.byte_in(rest.trim_ascii(), false)? else {
            return Ok(false);
        };
        if value.number == Some(0) {
            return Ok(true);
        }
        self.text.push(b',')?;
        self.put_text(value.text.as_slice())?;
        Ok(true)
    }

    // Appends an equate, and remembers its number if it is known; returns whether it can be read.
    fn put_equate(&mut self, parts: &Parts<'a>, operand: &[u8]) -> Result<bool, AllocError> {
        let Some(value) = value_in(&self.names, operand, Width::Word)? else {
            return Ok(false);
        };
        if self.names.in_macro && is_local(self.dialect, parts.label) {
            return Ok(false);
        }
        if let (Some(number), true) = (value.number, self.blocks.is_empty()) {
            let (alloc, start) = (self.alloc, self.start.min(self.text.len()));
            let (_, label) = self.text.as_slice().split_at(start);
            let name = Vec::from_slice(alloc, label)?;
            self.names.constants.push(Constant { name, number })?;
        }
        self.put_front(b"EQU ")?;
        self.put_text(value.text.as_slice())?;
        Ok(true)
    }

    // Gives a name another value, which stands in its place from here on; returns whether it is known.
    fn set(&mut self, name: &'a [u8], operand: &[u8]) -> Result<bool, AllocError> {
        if name.is_empty()
            || self.names.in_macro
            || self.is_in(Kind::If)
            || self.is_in(Kind::Repeat)
        {
            return Ok(false);
        }
        let Some(value) = value_in(&self.names, operand, Width::Word)? else {
            return Ok(false);
        };
        let value = match value.number {
            Some(number) => Value::of_number(self.alloc, number)?,
            None => value,
        };
        // the address of a line is another one in each line
        if value.text.as_slice().contains(&b'*') && value.is_address {
            return Ok(false);
        }
        self.names.variables.push(Variable { name, value })?;
        Ok(true)
    }

    // Appends a line with the name of a file; returns whether it is one name.
    fn put_file(
        &mut self,
        number: usize,
        operation: &[u8],
        operand: &[u8],
    ) -> Result<bool, AllocError> {
        let (name, rest) = split_item(operand, b',', Quotes::Long);
        let name = unquoted(name);
        if name.is_empty() || rest.is_some() || name.contains(&b'"') {
            return Ok(false);
        }
        self.end_label()?;
        self.put_front(operation)?;
        self.put(&[b" \"", name, b"\""])?;
        if operation == b"INCLUDE".as_slice() {
            self.note(number, NoteKind::File)?;
        }
        Ok(true)
    }

    // Appends a line with a message.
    fn put_message(&mut self, operation: &[u8], operand: &[u8]) -> Result<bool, AllocError> {
        let text = unquoted(operand);
        if text.contains(&b'"') {
            return Ok(false);
        }
        self.end_label()?;
        self.put_front(operation)?;
        self.put(&[b" \"", if text.is_empty() { b"ERR" } else { text }, b"\""])?;
        Ok(true)
    }

    // Appends an argument of a call; returns whether it has a form here.
    fn put_argument(&mut self, item: &[u8]) -> Result<bool, AllocError> {
        if item.len() > 3 && unquoted(item).len() < item.len() {
            self.put_text(item)?;
            return Ok(true);
        }
        if item.starts_with(b"[") || is_value(self.dialect, item) {
            return self.put_value(item);
        }
        self.put_operand(item, false)
    }

    // Whether the text from a position on has a comma outside quotes.
    fn has_comma(&self, begin: usize) -> bool {
        let (_, written) = cut_at(self.text.as_slice(), begin);
        let (_, more) = split_item(written, b',', Quotes::Long);
        more.is_some()
    }

    // Appends the arguments of a call, separated by commas; returns whether each has a form here.
    fn put_arguments(&mut self, list: &[u8]) -> Result<bool, AllocError> {
        if list.trim_ascii().is_empty() {
            return Ok(true);
        }
        let separator = if self.dialect == Dialect::Merlin {
            b';'
        } else {
            b','
        };
        let mut rest = Some(list);
        let mut gap = b' ';
        for _ in 0..list.len().saturating_add(1) {
            let Some(text) = rest else {
                break;
            };
            let (item, following) = split_item(text, separator, Quotes::Long);
            self.text.push(gap)?;
            let begin = self.text.len();
            if item.is_empty() || !self.put_argument(item)? || self.has_comma(begin) {
                return Ok(false);
            }
            gap = b',';
            rest = following;
        }
        Ok(true)
    }

    // Appends the value of an argument, as a number if it is known; returns whether it can be read.
    fn put_value(&mut self, item: &[u8]) -> Result<bool, AllocError> {
        let Some(value) = value_in(&self.names, item, Width::Word)? else {
            return Ok(false);
        };
        if let Some(number) = value.number {
            let known = Value::of_number(self.alloc, number)?;
            self.put_text(known.text.as_slice())?;
        } else {
            self.put_text(value.text.as_slice())?;
        }
        Ok(true)
    }

    // Appends the call of a macro; returns whether there is such a macro.
    fn put_call(&mut self, parts: &Parts<'a>) -> Result<bool, AllocError> {
        let (name, list) = match (self.dialect, parts.action) {
            (_, Some(Action::Call)) => first_argument(parts.operand),
            (Dialect::Acme, _) => (without(parts.operation, b'+'), parts.operand),
            (Dialect::Tass, _) => match parts.operation {
                [b'#' | b'.', name @ ..] => (name, parts.operand),
                _ => (b"".as_slice(), parts.operand),
            },
            _ => (parts.operation, parts.operand),
        };
        if !has_name(self.macros.as_slice(), name) {
            return Ok(false);
        }
        self.put_front(b"")?;
        for c in name {
            self.text.push(if *c == b'.' { b'_' } else { *c })?;
        }
        self.put_arguments(list)
    }

    // Appends an instruction; returns whether it has a form here.
    fn put_instruction(&mut self, name: &[u8], parts: &Parts<'a>) -> Result<bool, AllocError> {
        self.put_front(name)?;
        if !parts.operand.is_empty() {
            self.text.push(b' ')?;
        }
        self.put_operand(parts.operand, parts.is_far)
    }

    // Appends a line without a label that begins, divides or ends a block; returns whether it has a form here.
    fn put_block(&mut self, parts: &Parts<'a>) -> Result<bool, AllocError> {
        self.end_label()?;
        match parts.action {
            Some(Action::If(test)) => self.begin_if(test, parts.operand),
            Some(Action::Else | Action::ElseIf) => self.next_branch(parts),
            Some(Action::EndIf) => self.end_if(),
            Some(Action::Macro) => self.begin_macro(parts),
            Some(Action::EndMacro) => self.end_macro(),
            Some(Action::Repeat) => self.begin_repeat(parts),
            Some(Action::EndRepeat) => self.end_repeat(),
            Some(Action::Scope) => self.begin_scope(parts),
            Some(Action::EndScope) => Ok(self.end_scope()),
            Some(Action::Zone) => self.begin_zone(parts),
            Some(Action::Raised) => self.begin_raised(parts.operand),
            Some(Action::Close) => self.close_brace(),
            Some(Action::Dummy) => self.begin_dummy(parts),
            Some(Action::EndDummy) => self.end_dummy(parts),
            _ => Ok(false),
        }
    }

    // Appends the lines of a statement after its label; returns whether it has a form here.
    fn put_statement(&mut self, number: usize, parts: &Parts<'a>) -> Result<bool, AllocError> {
        match parts.action {
            Some(Action::As(name)) => self.put_instruction(name, parts),
            Some(Action::Equate) => self.put_equate(parts, parts.operand),
            Some(Action::Origin) => {
                let (operand, _) = split_item(parts.operand, b',', quotes_of(self.dialect));
                self.put_valued(b"ORG ", operand)
            }
            Some(Action::Room) => self.put_room(parts.operand),
            Some(Action::Msb) => {
                self.high = !parts.operand.eq_ignore_ascii_case(b"OFF");
                self.put_kept(parts)
            }
            Some(Action::Nothing) => {
                self.note(number, NoteKind::Nothing)?;
                self.put_kept(parts)
            }
            Some(Action::Include) => self.put_file(number, b"INCLUDE", parts.operand),
            Some(Action::Binary) => self.put_file(number, b"INCBIN", parts.operand),
            Some(Action::Fail) => self.put_message(b"ERROR", parts.operand),
            Some(Action::Warn) => self.put_message(b"WARN", parts.operand),
            Some(Action::Local) => Ok(self.names.in_macro),
            Some(Action::Call) | None => self.put_call(parts),
            _ => self.put_data(parts),
        }
    }

    // Appends a statement without a meaning here as a comment.
    fn put_kept(&mut self, parts: &Parts<'a>) -> Result<bool, AllocError> {
        let gap: &[u8] = if parts.operand.is_empty() { b"" } else { b" " };
        if self.text.len() > self.start {
            self.put_front(b"")?;
        }
        self.put(&[b"; ", parts.operation, gap, parts.operand])?;
        Ok(true)
    }

    // Whether the lines of the statement are in the plain grammar, or use the larger language on purpose.
    fn is_valid(&self, parts: &Parts<'a>) -> Result<bool, AllocError> {
        let is_checked = matches!(
            parts.action,
            Some(Action::As(_) | Action::Equate | Action::Origin | Action::Text | Action::Hex)
        );
        if !is_checked || self.names.in_macro {
            return Ok(true);
        }
        let text = self.text.as_slice();
        let (_, lines) = text.split_at(self.start.min(text.len()));
        if is_larger_line(lines) {
            return Ok(true);
        }
        is_source(self.alloc, lines)
    }

    // Appends the lines of a line; returns whether it has a form here.
    fn put_line(&mut self, number: usize, parts: &Parts<'a>) -> Result<bool, AllocError> {
        match parts.action {
            Some(Action::Variable) => return self.put_variable(parts),
            Some(Action::Equate)
                if self.dialect == Dialect::Merlin && parts.label.starts_with(b"]") => {
                return self.put_variable(parts);
            }
            Some(Action::Define) => return self.put_define(parts),
            Some(Action::Macro) => return self.put_block(parts),
            Some(action) if action.opens() || action.closes() => {
                return Ok(self.put_label(parts)? && self.put_block(parts)?);
            }
            Some(Action::Else | Action::ElseIf | Action::Zone) => {
                return Ok(self.put_label(parts)? && self.put_block(parts)?);
            }
            _ => {}
        }
        if self.is_in(Kind::Dummy) || self.is_in(Kind::Numbered) {
            return self.put_member(parts);
        }
        if !self.put_label(parts)? {
            return Ok(false);
        }
        if parts.operation.is_empty() {
            return Ok(parts.operand.is_empty());
        }
        Ok(self.put_statement(number, parts)? && self.is_valid(parts)?)
    }

    // Appends a name whose value changes as a comment; returns whether its value is known.
    fn put_variable(&mut self, parts: &Parts<'a>) -> Result<bool, AllocError> {
        let (name, operand) = if self.dialect == Dialect::Acme
            && matches!(parts.action, Some(Action::Variable))
        {
            let (name, rest) = split_word(parts.operand);
            (name, without(after_blanks(rest), b'='))
        } else {
            (parts.label, parts.operand)
        };
        if !self.set(name, operand.trim_ascii())? {
            return Ok(false);
        }
        self.put(&[b"; ", name, b" = ", operand.trim_ascii()])?;
        Ok(true)
    }

    // Appends an equate whose name and value are operands.
    fn put_define(&mut self, parts: &Parts<'a>) -> Result<bool, AllocError> {
        let (name, operand) = split_word(parts.operand);
        let made = Parts {
            label: name,
            operation: b"=",
            action: Some(Action::Equate),
            operand: operand.trim_ascii(),
            comment: b"",
            is_far: false,
        };
        if name.is_empty() || !self.put_label(&made)? {
            return Ok(false);
        }
        self.put_equate(&made, made.operand)
    }

    // Puts a line that cannot be converted after a mark, and the block that it begins.
    fn refuse(&mut self, piece: Piece<'a>, parts: &Parts<'a>) -> Result<(), AllocError> {
        self.text.truncate(self.start);
        self.note(piece.line, NoteKind::Unknown)?;
        self.put_mark(piece.text)?;
        let opens = match parts.action {
            Some(action) => action.opens() || parts.operand.ends_with(b"{"),
            None => parts.operand.ends_with(b"{"),
        };
        if opens && self.is_closed() {
            self.marking = 1;
            if matches!(parts.action, Some(Action::Macro)) && !self.is_in(Kind::Macro) {
                self.names.in_macro = false;
                self.names.parameters.clear();
                self.names.locals.clear();
            }
        }
        Ok(())
    }

    // How many blocks are open in lines that are marked as a whole, after a line.
    fn depth_after(&self, depth: usize, parts: &Parts<'a>) -> usize {
        let is_brace = self.dialect == Dialect::Acme;
        match parts.action {
            Some(Action::Else | Action::ElseIf) => depth,
            Some(action) if action.closes() => depth.saturating_sub(1),
            Some(action) if action.opens() && !is_brace => depth.saturating_add(1),
            _ if is_brace && parts.operand.ends_with(b"{") => depth.saturating_add(1),
            _ => depth,
        }
    }

    // Whether a later line ends the block that the last line began.
    fn is_closed(&self) -> bool {
        let mut depth: usize = 1;
        for at in self.next..self.lines.len() {
            let Some(piece) = self.lines.get(at).copied() else {
                break;
            };
            if !is_comment_line(self.dialect, piece.text) {
                depth = self.depth_after(depth, &parts_of(self.dialect, piece.text));
            }
            if depth == 0 {
                return true;
            }
        }
        false
    }

    // Puts a line of a block that cannot be converted after a mark.
    fn put_marked(&mut self, piece: Piece<'a>, parts: &Parts<'a>) -> Result<(), AllocError> {
        self.marking = self.depth_after(self.marking, parts);
        self.put_mark(piece.text)
    }

    /// Imports the next line.
    pub(crate) fn read(&mut self, piece: Piece<'a>) -> Result<(), AllocError> {
        if is_comment_line(self.dialect, piece.text) {
            return self.put_comment_line(piece.text);
        }
        let found = parts_of(self.dialect, piece.text);
        if self.marking > 0 {
            return self.put_marked(piece, &found);
        }
        let parts = if self.is_in(Kind::Dummy) || self.is_in(Kind::Numbered) {
            member_parts(self.dialect, &found)
        } else {
            found
        };
        self.start = self.text.len();
        self.front = self.start;
        let begin = self.start;
        let notes = self.notes.len();
        let marks = self.marks;
        let (next, depth) = (self.next, self.blocks.len());
        if self.put_line(piece.line, &parts)? {
            if self.marks == marks {
                return self.end(parts.comment);
            }
            return Ok(());
        }
        self.start = begin;
        self.notes.truncate(notes);
        self.next = next;
        self.blocks.truncate(depth);
        self.refuse(piece, &parts)
    }

    /// Puts lines that do not belong to the text after marks.
    pub(crate) fn put_others(&mut self, others: &[Piece<'a>]) -> Result<(), AllocError> {
        for piece in others {
            self.note(piece.line, NoteKind::Unknown)?;
            self.put_mark(piece.text)?;
        }
        Ok(())
    }

    /// Appends the lines that the end of the text needs.
    pub(crate) fn finish(&mut self) -> Result<(), AllocError> {
        for (i, text) in self.far.iter().enumerate() {
            let number = decimal((i as u64).saturating_add(1));
            append(&mut self.text, &[b"FAR_", number.as_slice(), b"   EQU "])?;
            self.text.extend_from_slice(text.as_slice())?;
            self.text.push(b'\n')?;
        }
        Ok(())
    }

    // The size of a line among lines without bytes, as it is written here, if it is known.
    fn size_of(&self, parts: &Parts<'a>) -> Result<Option<Value<A>>, AllocError> {
        let (item, rest) = split_item(parts.operand, b',', quotes_of(self.dialect));
        match parts.action {
            Some(Action::Room) if rest.is_none() => value_in(&self.names, item, Width::Word),
            Some(Action::List(list)) => {
                let mut count: i32 = if matches!(list, List::Words | List::Doubles) {
                    2
                } else {
                    1
                };
                let each = count;
                let mut more = rest;
                for _ in 0..parts.operand.len() {
                    let Some(text) = more else {
                        break;
                    };
                    let (_, following) = split_item(text, b',', quotes_of(self.dialect));
                    count = count.saturating_add(each);
                    more = following;
                }
                let is_text = item.len() > 3 && unquoted(item).len() < item.len();
                if is_text || list == List::Marked {
                    return Ok(None);
                }
                Ok(Some(Value::of_number(self.alloc, count)?))
            }
            Some(Action::Text) => {
                let (len, is_closed) = texts_len(parts.operand);
                let count = i32::try_from(len.saturating_sub(2)).unwrap_or(0);
                if !is_closed || !unquoted(parts.operand).len() == len {
                    return Ok(None);
                }
                Ok(Some(Value::of_number(self.alloc, count)?))
            }
            None if parts.operation.is_empty() => {
                let size = if self.is_in(Kind::Numbered) { 1 } else { 0 };
                Ok(Some(Value::of_number(self.alloc, size)?))
            }
            _ => Ok(None),
        }
    }

    // Begins lines that produce no bytes.
    fn begin_dummy(&mut self, parts: &Parts<'a>) -> Result<bool, AllocError> {
        let is_numbered = parts.operation.eq_ignore_ascii_case(b".enum");
        let is_named = self.dialect == Dialect::Ca65;
        if self.names.in_macro {
            return Ok(false);
        }
        self.place.clear();
        let starts = matches!(self.dialect, Dialect::Merlin | Dialect::Tass)
            && !parts.operand.is_empty();
        if starts {
            let Some(value) = value_in(&self.names, parts.operand, Width::Word)? else {
                return Ok(false);
            };
            self.place.extend_from_slice(value.text.as_slice())?;
        } else {
            self.place.push(b'0')?;
        }
        self.open(
            if is_numbered {
                Kind::Numbered
            } else {
                Kind::Dummy
            },
            b"",
        )?;
        if is_named {
            self.names.blocks.push(parts.operand)?;
        }
        self.put_kept(parts)
    }

    // Ends lines that produce no bytes; returns whether such lines are open.
    fn end_dummy(&mut self, parts: &Parts<'a>) -> Result<bool, AllocError> {
        let is_open = self.close(Kind::Dummy).is_some() || self.close(Kind::Numbered).is_some();
        if is_open && self.dialect == Dialect::Ca65 {
            let _ = self.names.blocks.pop();
        }
        if !is_open && !parts.operation.eq_ignore_ascii_case(b"seg") {
            return Ok(false);
        }
        self.put_kept(parts)
    }

    // Appends the equate for a line among lines that produce no bytes; returns whether the line has a size.
    fn put_member(&mut self, parts: &Parts<'a>) -> Result<bool, AllocError> {
        let is_numbered = self.is_in(Kind::Numbered);
        match parts.action {
            Some(Action::Origin) => {
                let Some(value) = value_in(&self.names, parts.operand, Width::Word)? else {
                    return Ok(false);
                };
                self.place = value.text;
                return self.put_kept(parts);
            }
            Some(Action::Equate) if is_numbered => {
                let Some(value) = value_in(&self.names, parts.operand, Width::Word)? else {
                    return Ok(false);
                };
                self.place = value.text;
            }
            Some(Action::Equate) => {
                return Ok(self.put_label(parts)? && self.put_equate(parts, parts.operand)?);
            }
            Some(Action::Nothing) => return self.put_kept(parts),
            _ => {}
        }
        let size = if is_numbered {
            Some(Value::of_number(self.alloc, 1)?)
        } else {
            self.size_of(parts)?
        };
        let Some(size) = size else {
            return Ok(false);
        };
        self.put_place(parts, &size)
    }

    // Appends the equate of a name at the next place, if there is one, and goes so many bytes further on.
    fn put_place(&mut self, parts: &Parts<'a>, size: &Value<A>) -> Result<bool, AllocError> {
        if !parts.label.is_empty() {
            if !self.put_label(parts)? {
                return Ok(false);
            }
            let (alloc, start) = (self.alloc, self.start.min(self.text.len()));
            let (_, label) = self.text.as_slice().split_at(start);
            let name = Vec::from_slice(alloc, label)?;
            self.put_front(b"EQU ")?;
            let place = Vec::from_slice(self.alloc, self.place.as_slice())?;
            self.put_text(place.as_slice())?;
            self.place = name;
        } else {
            self.put_kept(parts)?;
        }
        if size.number == Some(0) {
            return Ok(true);
        }
        self.place.push(b'+')?;
        if size.level < SUM {
            append(&mut self.place, &[b"(", size.text.as_slice(), b")"])?;
        } else {
            self.place.extend_from_slice(size.text.as_slice())?;
        }
        Ok(true)
    }
}
