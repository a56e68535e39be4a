//! Conditions: which lines between IF and ENDIF are read.

ghost use Rattle.std.specs.Prelude.{IfOk};
ghost use Rattle.a2_expand.specs.Conditions.{Answers};

use crate::adding::add;
use crate::fault::{ExpandFault, Origin, Problem, trouble};
use crate::flow::{Flow, without_label};
use crate::operand::value_of;
use crate::parts::{Parts, Word};
use std::alloc::Allocator;

/// A condition that is not closed.
#[derive(Clone, Copy)]
pub(crate) struct Condition {
    pub active: bool,
    // Whether no other branch can be taken.
    pub done: bool,
    pub after_else: bool,
    pub at: Origin,
}

impl<'t, A: Allocator + Copy> Flow<'t, A> {
    /// Whether the value of a condition is not 0.
    pub(crate) fn holds(&self, operand: &[u8]) -> Result<bool, ExpandFault>
        ensures { IfOk result (λ answer. Answers self.now.builder.constants.items operand.now answer) }
    {
        if operand.is_empty() {
            return Err(trouble(Problem::NeedsOperand, b""));
        }
        let value = value_of(operand, &self.known())?;
        Ok(value != 0)
    }

    /// Whether the lines here are read: no condition around them has failed.
    pub(crate) fn is_active(&self) -> bool {
        match self.conditions.last() {
            Some(condition) => condition.active,
            None => true,
        }
    }

    // Opens a condition.
    fn open_condition(&mut self, operand: &[u8], at: Origin) -> Result<(), ExpandFault> {
        let was_active = self.is_active();
        let active = if was_active {
            self.holds(operand)?
        } else {
            false
        };
        let condition = Condition {
            active,
            done: active || !was_active,
            after_else: false,
            at,
        };
        add(&mut self.conditions, condition)?;
        Ok(())
    }

    // Returns the innermost condition of these lines, and takes it off.
    fn take_condition(&mut self, open_before: usize) -> Result<Condition, ExpandFault> {
        if self.conditions.len() <= open_before {
            return Err(trouble(Problem::Unopened, b""));
        }
        match self.conditions.pop() {
            Some(condition) => Ok(condition),
            None => Err(trouble(Problem::Unopened, b"")),
        }
    }

    // Goes to the next branch of a condition: the last one, or one with a condition of its own.
    fn next_branch(
        &mut self,
        open_before: usize,
        last: bool,
        operand: &[u8],
    ) -> Result<(), ExpandFault> {
        let before = self.take_condition(open_before)?;
        if before.after_else {
            return Err(trouble(Problem::AfterElse, b""));
        }
        let active = if before.done {
            false
        } else if last {
            true
        } else {
            self.holds(operand)?
        };
        let condition = Condition {
            active,
            done: before.done || active,
            after_else: last,
            at: before.at,
        };
        add(&mut self.conditions, condition)?;
        Ok(())
    }

    /// Reads a line of a condition; returns whether it is one.
    pub(crate) fn read_condition(
        &mut self,
        word: Word,
        parts: &Parts<'_>,
        open_before: usize,
        at: Origin,
    ) -> Result<bool, ExpandFault> {
        match word {
            Word::If => self.open_condition(parts.operand, at)?,
            Word::ElseIf => self.next_branch(open_before, false, parts.operand)?,
            Word::Else => self.next_branch(open_before, true, b"")?,
            Word::EndIf => {
                let _ = self.take_condition(open_before)?;
            }
            _ => return Ok(false),
        }
        without_label(parts)?;
        Ok(true)
    }
}
