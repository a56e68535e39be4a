//! Repeated blocks.

use crate::adding::add;
use crate::binding::Binding;
use crate::fault::{ExpandFault, Problem, trouble_at};
use crate::flow::{Flow, Frame, Kind};
use crate::operand::put_decimal;
use crate::parts::{Word, is_name, parts_of, place_in_list, split_item};
use crate::source::SourceLine;
use std::alloc::Allocator;

// Returns the counter of a repeated block by its operand, or no name if it has none.
fn counter_in(operand: &[u8]) -> Result<&[u8], ExpandFault> {
    let (_, Some(counter)) = split_item(operand) else {
        return Ok(b"");
    };
    let name = counter.trim_ascii();
    if is_name(name) {
        Ok(name)
    } else {
        Err(trouble_at(Problem::Counter, name, place_in_list(operand, counter)))
    }
}

impl<'t, A: Allocator + Copy> Flow<'t, A> {
    // Binds the counter of a repeated block.
    fn bind_counter(&mut self, counter: &[u8], round: u32) -> Result<(), ExpandFault> {
        if counter.is_empty() {
            return Ok(());
        }
        let name = Vec::from_slice(self.alloc, counter)?;
        let mut text = Vec::new(self.alloc);
        put_decimal(&mut text, round)?;
        add(&mut self.bindings, Binding { name, text })?;
        Ok(())
    }

    // Begins a round of a repeated block, in a scope of its own.
    fn begin_round(&mut self, frame: Frame<'t>) -> Result<(), ExpandFault> {
        let mut frame = frame;
        frame.at = frame.first;
        frame.scope = self.builder.scope;
        self.builder.inner_scope()?;
        frame.inner = self.builder.scope;
        self.bind_counter(frame.counter, frame.round)?;
        self.enter(frame)
    }

    /// Ends a round of a repeated block, and begins the next one if there is one. A label in the round that is not local has ended the
    /// scope of the round; then the scope of that label continues.
    pub(crate) fn end_round(&mut self, now: &Frame<'t>) -> Result<(), ExpandFault> {
        if self.builder.scope == now.inner {
            self.builder.scope = now.scope;
        }
        if now.left == 0 {
            return Ok(());
        }
        let mut again = *now;
        again.left = now.left.saturating_sub(1);
        again.round = now.round.saturating_add(1);
        self.begin_round(again)
    }

    /// Begins to read a repeated block. `line` is its first line, which is read at `index`; `operand` is its operand.
    pub(crate) fn repeat(
        &mut self,
        line: SourceLine<'t>,
        index: usize,
        operand: &[u8],
        now: &Frame<'t>,
    ) -> Result<(), ExpandFault> {
        let first = index.saturating_add(1);
        let end = self.end_of(first, now.end, Word::Repeat, Word::EndRepeat)?;
        let (times, _) = split_item(operand);
        let count = self.builder.count_of(times)?;
        let counter = counter_in(parts_of(line.text).operand)?;
        self.continue_after(end);
        if count == 0 {
            return Ok(());
        }
        let mut frame = self.frame_here(Kind::Repeat, now, first, end);
        frame.left = count.saturating_sub(1);
        frame.counter = counter;
        self.begin_round(frame)
    }
}
