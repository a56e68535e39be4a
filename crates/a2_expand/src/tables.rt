//! Tables of names: ENUM and STRUCT.

use crate::fault::{ExpandFault, Origin, Problem, trouble};
use crate::flow::{Flow, with_label, without_label};
use crate::operand::put_decimal;
use crate::parts::{Parts, Word};
use std::alloc::Allocator;

/// A table of names that is not closed: an enumeration or a structure, and its next value.
#[derive(Drop)]
pub(crate) struct Table<A: Allocator> {
    pub is_structure: bool,
    pub name: Vec<u8, A>,
    pub next: u32,
    pub at: Origin,
}

// Whether a line has no parts but a comment.
fn is_empty(parts: &Parts<'_>) -> bool {
    parts.label.is_empty() && parts.operation.is_empty()
}

impl<'t, A: Allocator + Copy> Flow<'t, A> {
    /// Opens a table of names.
    pub(crate) fn open_table(
        &mut self,
        is_structure: bool,
        parts: &Parts<'_>,
        at: Origin,
    ) -> Result<(), ExpandFault> {
        if is_structure {
            with_label(parts)?;
        } else {
            without_label(parts)?;
        }
        let next = if parts.operand.is_empty() {
            0
        } else {
            self.builder.count_of(parts.operand)?
        };
        let name = Vec::from_slice(self.alloc, parts.label)?;
        self.table = Some(Table {
            is_structure,
            name,
            next,
            at,
        });
        Ok(())
    }

    // Gives a name a value: adds a line EQU, and makes it known.
    fn define(&mut self, name: &[u8], value: u32, at: Origin) -> Result<(), ExpandFault> {
        let mut line = Vec::from_slice(self.alloc, name)?;
        line.extend_from_slice(b" EQU ")?;
        put_decimal(&mut line, value)?;
        self.builder.put_line(line.as_slice(), at)
    }

    /// Reads a line of a table.
    pub(crate) fn read_table(
        &mut self,
        table: Table<A>,
        word: Word,
        parts: &Parts<'_>,
        at: Origin,
    ) -> Result<(), ExpandFault> {
        match word {
            Word::EndEnum if !table.is_structure => return without_label(parts),
            Word::EndStruct if table.is_structure => {
                without_label(parts)?;
                return self.define(table.name.as_slice(), table.next, at);
            }
            _ => {}
        }
        let mut table = table;
        if !is_empty(parts) {
            let size = self.size_in(&table, word, parts)?;
            let mut name = Vec::from_slice(self.alloc, table.name.as_slice())?;
            if table.is_structure {
                name.extend_from_slice(b"_")?;
            }
            name.extend_from_slice(parts.label)?;
            self.define(name.as_slice(), table.next, at)?;
            table.next = table.next.saturating_add(size);
        }
        self.table = Some(table);
        Ok(())
    }

    // Returns by how much a line of a table moves its next value.
    fn size_in(&self, table: &Table<A>, word: Word, parts: &Parts<'_>) -> Result<u32, ExpandFault> {
        with_label(parts)?;
        match word {
            Word::Nothing if !table.is_structure => Ok(1),
            Word::Ds if table.is_structure => self.builder.count_of(parts.operand),
            _ => Err(trouble(Problem::InTable, parts.operation)),
        }
    }
}
