//! Finds statements by their line or their address.

ghost use Rattle.std.specs.Prelude.{◌≡◌};
ghost use Rattle.a2_symbols.specs.Statements as spec;

use a2_asm::Statement;

// Returns whether a statement is the instruction on a line.
fn is_instruction_on(statement: &Statement, number: usize) -> bool
    ensures { result ≡ spec.is_instruction_on number statement.now }
{
    usize::from(statement.line) == number && statement.instr.is_some()
}

/// Returns the first of `statements` that is an instruction on line `number`, which counts from 1, or `None` if there
/// is none.
pub fn instruction_on(statements: &[Statement], number: usize) -> Option<Statement>
    ensures { result ≡ spec.instruction_on statements.now number }
{
    for statement in statements {
        if is_instruction_on(statement, number) {
            return Some(*statement);
        }
    }
    None
}

// Returns whether a statement has a byte at an address.
fn has_byte_at(statement: &Statement, address: u16) -> bool
    ensures { result ≡ spec.has_byte_at address statement.now }
{
    statement.addr <= address && address - statement.addr < statement.length
}

/// Returns the first of `statements` with a byte at `address` ($0000 to $FFFF), whether it is an instruction or data,
/// or `None` if there is none. No two statements of a program share an address.
pub fn statement_at(statements: &[Statement], address: u16) -> Option<Statement>
    ensures { result ≡ spec.statement_at statements.now address }
{
    for statement in statements {
        if has_byte_at(statement, address) {
            return Some(*statement);
        }
    }
    None
}
