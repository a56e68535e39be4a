//! Warnings about lines that assemble but may not do what their author meant.

mod addresses;
mod called;
mod carry;
mod falling;
mod flow;
mod lines;
mod sentences;
mod shown;
mod statements;
mod stores;

use crate::warnings::called::warn_of_kept_flags;
use crate::warnings::carry::{unset_carry, warn_of_carries};
use crate::warnings::falling::entered_from_above;
use crate::warnings::flow::is_unreached;
use crate::warnings::lines::{is_decimal_address, operation_in_label, sets_no_place, unwritten};
use crate::warnings::shown::warn_of_shown;
use crate::warnings::statements::{
    Begins, is_astray, kind_of, runs_out_after_service, shows_plain, stores_in_rom,
};
use crate::warnings::stores::LowStores;
use a2_asm::{Program, Statement};
use a2_syntax::Line;
pub use sentences::{put_warnings, sentence_of};
use std::alloc::{AllocError, Allocator};

/// The kind of a warning. There are no other kinds.
#[derive(Clone, Copy, Debug, PartialEq, Eq)]
pub enum WarningKind {
    /// A line with `*=` and a number in column 1 is a comment.
    Place,
    /// A mnemonic in column 1 is a label.
    Operation,
    /// An instruction reads a byte below $0100, given as a number, and nothing stores there.
    Unwritten,
    /// No instruction begins after one that continues there.
    RunsOut,
    /// An instruction jumps to itself.
    Circle,
    /// A character with bit 7 clear is written to the screen.
    Plain,
    /// A decimal number is used as an address, and its digits are more usual in hexadecimal.
    Decimal,
    /// An instruction is never executed.
    Unreached,
    /// ADC or SBC uses the carry, and no instruction before it sets the carry.
    Carry,
    /// An instruction stores in ROM.
    Rom,
    /// A branch goes to an address where no instruction begins.
    Astray,
    /// A text that the program writes to the screen has characters with bit 7 clear.
    PlainText,
    /// A character or text that is written to the screen is a small letter, or has one.
    Small,
    /// A subroutine is also entered from the line above it.
    Entered,
    /// ADC or SBC uses the carry of a comparison.
    Compared,
    /// SBC uses the carry that CLC cleared.
    Cleared,
    /// A branch tests flags that a service of a real machine changes.
    Kept,
}

/// A line that may not do what its author meant, and why.
#[derive(Clone, Copy, Debug, PartialEq, Eq)]
pub struct Warning {
    /// The number of the line, counted from 1.
    pub line: usize,
    /// What the line does.
    pub kind: WarningKind,
}

// Adds the warnings that depend only on how a line is written.
fn warn_of_texts<A: Allocator>(
    warnings: &mut Vec<Warning, A>,
    texts: &[&[u8]],
) -> Result<(), AllocError> {
    for (i, text) in texts.iter().enumerate() {
        if sets_no_place(text) {
            warnings.push(Warning {
                line: i.saturating_add(1),
                kind: WarningKind::Place,
            })?;
        }
    }
    Ok(())
}

// Returns the warning for a line of a program, or `None` if there is none. `text` is the line as written.
fn kind_of_line<A: Allocator>(
    text: &[u8],
    line: &Line<A>,
    program: &Program<A>,
    stores: &LowStores,
) -> Option<WarningKind> {
    if operation_in_label(line) {
        return Some(WarningKind::Operation);
    }
    if unwritten(line, program, stores) {
        return Some(WarningKind::Unwritten);
    }
    if is_decimal_address(line, text) {
        return Some(WarningKind::Decimal);
    }
    None
}

// Adds the warnings that depend on a parsed line and the program.
fn warn_of_lines<A: Allocator>(
    warnings: &mut Vec<Warning, A>,
    texts: &[&[u8]],
    lines: &[Line<A>],
    program: &Program<A>,
) -> Result<(), AllocError> {
    let stores = LowStores::of(program.statements());
    for (i, line) in lines.iter().enumerate() {
        let text = texts.get(i).copied().unwrap_or(b"");
        if let Some(kind) = kind_of_line(text, line, program, &stores) {
            warnings.push(Warning {
                line: i.saturating_add(1),
                kind,
            })?;
        }
    }
    Ok(())
}

// Returns the warning for a statement, or `None` if there is none. `text` is its line, `following` are the statements after it.
fn kind_of_statement<A: Allocator>(
    text: &[u8],
    statement: &Statement,
    following: &[Statement],
    begins: &Begins<A>,
) -> Option<WarningKind> {
    if shows_plain(text, statement, following) {
        return Some(WarningKind::Plain);
    }
    let kind = kind_of(begins, statement);
    if kind.is_some() {
        return kind;
    }
    if runs_out_after_service(begins, statement) {
        return Some(WarningKind::RunsOut);
    }
    if is_astray(begins, statement) {
        return Some(WarningKind::Astray);
    }
    stores_in_rom(statement).then_some(WarningKind::Rom)
}

// Adds the warnings that depend on the addresses of statements.
fn warn_of_statements<A: Allocator>(
    alloc: A,
    warnings: &mut Vec<Warning, A>,
    texts: &[&[u8]],
    statements: &[Statement],
) -> Result<(), AllocError> {
    let begins = Begins::of(alloc, statements)?;
    for (i, statement) in statements.iter().enumerate() {
        let following = &statements[i + 1..];
        let line = usize::from(statement.line);
        let text = texts.get(line.saturating_sub(1)).copied().unwrap_or(b"");
        if let Some(kind) = kind_of_statement(text, statement, following, &begins) {
            warnings.push(Warning { line, kind })?;
        }
    }
    Ok(())
}

// Adds the warnings that depend on the order in which statements are executed.
fn warn_of_flow<A: Allocator>(
    warnings: &mut Vec<Warning, A>,
    lines: &[Line<A>],
    statements: &[Statement],
) -> Result<(), AllocError> {
    let mut before: Option<Statement> = None;
    for statement in statements {
        if let Some(before) = before {
            if is_unreached(lines, statements, &before, statement) {
                warnings.push(Warning {
                    line: usize::from(statement.line),
                    kind: WarningKind::Unreached,
                })?;
            }
        }
        before = Some(*statement);
    }
    if let Some(line) = unset_carry(statements) {
        warnings.push(Warning {
            line: usize::from(line),
            kind: WarningKind::Carry,
        })?;
    }
    warn_of_carries(warnings, statements)?;
    warn_of_kept_flags(warnings, statements)
}

// Adds the warning for a subroutine that the program also enters from the line above it.
fn warn_of_entered<A: Allocator + Copy>(
    alloc: A,
    warnings: &mut Vec<Warning, A>,
    program: &Program<A>,
) -> Result<(), AllocError> {
    if let Some(line) = entered_from_above(alloc, program.statements(), program.entry())? {
        warnings.push(Warning {
            line: usize::from(line),
            kind: WarningKind::Entered,
        })?;
    }
    Ok(())
}

/// Returns the warnings for a source without errors. `texts` are its lines as written, `lines` the parsed lines, and `program`
/// is the program that they make. The warnings come in groups, each in the order of the lines: those from the text of a line, those
/// from the parsed line, those from the addresses of statements, and those from the order of execution. Fails only if there is
/// not enough memory. This project's profile.
pub fn warnings_of<A: Allocator + Copy>(
    alloc: A,
    texts: &[&[u8]],
    lines: &[Line<A>],
    program: &Program<A>,
) -> Result<Vec<Warning, A>, AllocError> {
    let mut warnings = Vec::new(alloc);
    warn_of_texts(&mut warnings, texts)?;
    warn_of_lines(&mut warnings, texts, lines, program)?;
    warn_of_statements(alloc, &mut warnings, texts, program.statements())?;
    warn_of_shown(alloc, &mut warnings, texts, lines, program.statements())?;
    warn_of_flow(&mut warnings, lines, program.statements())?;
    warn_of_entered(alloc, &mut warnings, program)?;
    Ok(warnings)
}
