//! Procedures: scopes of local labels that other labels do not end.

use crate::adding::add;
use crate::fault::{ExpandFault, Origin, Problem, trouble};
use crate::flow::{Flow, with_label};
use crate::parts::Parts;
use std::alloc::Allocator;

/// A procedure that is not closed, and the scope around it.
#[derive(Clone, Copy)]
pub(crate) struct Procedure {
    pub scope: usize,
    pub fixed: bool,
    pub at: Origin,
}

impl<'t, A: Allocator + Copy> Flow<'t, A> {
    /// Opens a procedure.
    pub(crate) fn open_procedure(
        &mut self,
        parts: &Parts<'_>,
        at: Origin,
    ) -> Result<(), ExpandFault> {
        with_label(parts)?;
        let procedure = Procedure {
            scope: self.builder.scope,
            fixed: self.builder.fixed,
            at,
        };
        add(&mut self.procedures, procedure)?;
        self.builder.put_line(parts.label, at)?;
        self.builder.new_scope(parts.label)?;
        self.builder.fixed = true;
        Ok(())
    }

    /// Closes a procedure.
    pub(crate) fn close_procedure(&mut self, open_before: usize) -> Result<(), ExpandFault> {
        if self.procedures.len() <= open_before {
            return Err(trouble(Problem::Unopened, b"ENDPROC"));
        }
        match self.procedures.pop() {
            Some(procedure) => {
                self.builder.scope = procedure.scope;
                self.builder.fixed = procedure.fixed;
                Ok(())
            }
            None => Err(trouble(Problem::Unopened, b"ENDPROC")),
        }
    }
}
