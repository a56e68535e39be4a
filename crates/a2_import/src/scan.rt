//! The names that a text defines, before its lines are converted.

use crate::dialect::Dialect;
use crate::names::{Symbol, is_local, turn_of};
use crate::parts::{Parts, parts_of};
use crate::pieces::{Quotes, split_item};
use crate::reading::Reading;
use crate::rules::Action;
use a2_text::{after_blanks, split_word};
use std::alloc::{AllocError, Allocator};

/// Returns whether a line has no source but a comment.
pub(crate) fn is_comment_line(dialect: Dialect, text: &[u8]) -> bool {
    match after_blanks(text) {
        [b'*', ..] => dialect.is_old() && text.starts_with(b"*"),
        [b'/', b'/', ..] => dialect == Dialect::Acme,
        [b';', ..] | [] => true,
        _ => false,
    }
}

/// Returns the parts of a line in a block of names, in which ca65 writes a name without a colon.
pub(crate) fn member_parts<'a>(dialect: Dialect, parts: &Parts<'a>) -> Parts<'a> {
    if dialect != Dialect::Ca65 || parts.action.is_some() || !parts.label.is_empty() {
        return *parts;
    }
    let again = parts_of(dialect, parts.operand);
    Parts {
        label: parts.operation,
        operation: again.operation,
        action: again.action,
        operand: again.operand,
        comment: parts.comment,
        is_far: false,
    }
}

/// Returns the name that a line gives to a block, or nothing.
pub(crate) fn block_name<'a>(parts: &Parts<'a>) -> &'a [u8] {
    if parts.label.is_empty() {
        let (word, _) = split_word(parts.operand);
        let (name, _) = split_item(word, b',', Quotes::Long);
        name
    } else {
        parts.label
    }
}

/// Returns whether a line gives a block of its own a name that is the address of the line.
pub(crate) fn is_labelled_block(dialect: Dialect, parts: &Parts<'_>) -> bool {
    match parts.action {
        Some(Action::Scope) => {
            dialect == Dialect::Tass || parts.operation.eq_ignore_ascii_case(b".proc")
        }
        _ => false,
    }
}

impl<'a, A: Allocator + Copy> Reading<'a, A> {
    // Adds a name that a line defines.
    fn add_symbol(
        &mut self,
        name: &'a [u8],
        is_equate: bool,
        at: usize,
        depth: usize,
    ) -> Result<(), AllocError> {
        if name.is_empty()
            || is_local(self.dialect, name)
            || turn_of(self.dialect, name).is_some()
        {
            return Ok(());
        }
        let prefix = self.names.prefix()?;
        self.names.symbols.push(Symbol {
            prefix,
            name,
            is_equate,
            at,
            is_certain: depth == 0,
        })?;
        Ok(())
    }

    // Adds the names of a line; returns how many conditions are open after it, given how many were before.
    fn scan_line(
        &mut self,
        at: usize,
        parts: &Parts<'a>,
        depth: usize,
        in_members: bool,
    ) -> Result<usize, AllocError> {
        let name = block_name(parts);
        match parts.action {
            _ if self.dialect == Dialect::Acme && parts.operand.ends_with(b"{") => {
                return Ok(depth.saturating_add(1));
            }
            Some(Action::If(_)) => return Ok(depth.saturating_add(1)),
            Some(Action::EndIf | Action::Close) => return Ok(depth.saturating_sub(1)),
            Some(Action::Scope) => {
                if is_labelled_block(self.dialect, parts) {
                    self.add_symbol(name, false, at, depth)?;
                }
                self.names.blocks.push(name)?;
            }
            Some(Action::Dummy) if self.dialect == Dialect::Ca65 => {
                self.names.blocks.push(name)?;
            }
            Some(Action::EndScope) => {
                let _ = self.names.blocks.pop();
            }
            Some(Action::EndDummy) if self.dialect == Dialect::Ca65 => {
                let _ = self.names.blocks.pop();
            }
            Some(Action::Macro | Action::Variable) => {}
            Some(Action::Define) => self.add_symbol(name, true, at, depth)?,
            _ => self.add_symbol(parts.label, in_members || parts.is_equate(), at, depth)?,
        }
        Ok(depth)
    }

    /// Finds the names that the lines define.
    pub(crate) fn scan(&mut self) -> Result<(), AllocError> {
        let mut depth: usize = 0;
        let mut in_members = false;
        for at in 0..self.lines.len() {
            let Some(piece) = self.lines.get(at).copied() else {
                break;
            };
            if is_comment_line(self.dialect, piece.text) {
                continue;
            }
            let parts = parts_of(self.dialect, piece.text);
            let parts = if in_members {
                member_parts(self.dialect, &parts)
            } else {
                parts
            };
            match parts.action {
                Some(Action::Dummy) => in_members = true,
                Some(Action::EndDummy) => in_members = false,
                Some(Action::Macro | Action::Repeat) => self.names.keeps_turns = self.dialect
                    == Dialect::Ca65,
                _ => {}
            }
            depth = self.scan_line(at, &parts, depth, in_members)?;
        }
        self.names.blocks.clear();
        Ok(())
    }
}
