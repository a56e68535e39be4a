//! Macros: their definitions and calls.

use crate::adding::add;
use crate::binding::{bind_all, check_parameters};
use crate::fault::{ExpandFault, Origin, Problem, moved, trouble, trouble_at};
use crate::flow::{Flow, Frame, Kind, without_label};
use crate::parts::{Parts, Word, is_name, parts_of, place_in_list, word_of};
use crate::source::SourceLine;
use a2_opcode::Mnemonic;
use a2_text::split_word;
use std::alloc::Allocator;

/// A macro: its name, its parameters, and where its lines are.
#[derive(Clone, Copy)]
pub(crate) struct Macro<'t> {
    pub name: &'t [u8],
    pub parameters: &'t [u8],
    pub first: usize,
    pub end: usize,
}

/// A call of a macro: its line, and the name of the macro.
#[derive(Clone, Copy)]
pub struct Call<'t> {
    pub at: Origin,
    pub name: &'t [u8],
}

// Whether a word can be the name of a macro: it is a name, and neither an operation nor an instruction.
fn is_macro_name(word: &[u8]) -> bool {
    is_name(word) && word_of(word) == Word::Other && Mnemonic::named(word).is_none()
}

impl<'t, A: Allocator + Copy> Flow<'t, A> {
    /// Defines a macro. `line` is its first line, which is read at `index`.
    pub(crate) fn define_macro(
        &mut self,
        line: SourceLine<'t>,
        index: usize,
        now: &Frame<'t>,
    ) -> Result<(), ExpandFault> {
        let parts = parts_of(line.text);
        without_label(&parts)?;
        if now.kind != Kind::File {
            return Err(trouble(Problem::NestedMacro, parts.operation));
        }
        let first = index.saturating_add(1);
        let end = self.end_of(first, now.end, Word::Macro, Word::EndMacro)?;
        let (name, parameters) = split_word(parts.operand);
        if !is_macro_name(name) {
            return Err(trouble_at(Problem::MacroName, name, 0));
        }
        if self.macro_named(name).is_some() {
            return Err(trouble_at(Problem::MacroTwice, name, 0));
        }
        if let Err(fault) = check_parameters(parameters) {
            return Err(moved(fault, place_in_list(parts.operand, parameters)));
        }
        let made = Macro {
            name,
            parameters,
            first,
            end,
        };
        add(&mut self.macros, made)?;
        self.continue_after(end);
        Ok(())
    }

    /// Returns the macro with this name.
    pub(crate) fn macro_named(&self, name: &[u8]) -> Option<Macro<'t>> {
        for one in self.macros.iter() {
            if one.name == name {
                return Some(*one);
            }
        }
        None
    }

    /// Begins to read the lines of a macro.
    pub(crate) fn call_macro(
        &mut self,
        called: Macro<'t>,
        parts: &Parts<'_>,
        now: &Frame<'t>,
        at: Origin,
    ) -> Result<(), ExpandFault> {
        if !parts.label.is_empty() {
            self.builder.put_line(parts.label, at)?;
        }
        let mut frame = self.frame_here(Kind::Macro, now, called.first, called.end);
        frame.reach = self.bindings.len();
        bind_all(
            self.alloc,
            &mut self.bindings,
            called.parameters,
            parts.operand,
        )?;
        let call = Call {
            at,
            name: called.name,
        };
        add(&mut self.calls, call)?;
        frame.call = self.calls.len();
        self.builder.new_scope(called.name)?;
        self.builder.fixed = true;
        self.enter(frame)
    }
}
