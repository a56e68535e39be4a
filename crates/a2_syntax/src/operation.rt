//! The names of operations.

ghost use Rattle.std.specs.Prelude.{◌≡◌, map, Some, IfSome, IfNone};
ghost use Rattle.a2_text.specs.Bytes.{capital as capital_of};
ghost use Rattle.a2_syntax.specs.Reading.{IsInstr};
ghost use Rattle.a2_syntax.specs.Words.{letters_of};
ghost use Rattle.a2_syntax.specs.declared.operation.Operation.{Operation as DeclaredOperation};

use a2_opcode::Mnemonic;
use a2_text::capital;

/// What the name after a line's label stands for: a mnemonic or a directive. It determines which `Body` the grammar
/// allows in the line.
#[derive(Clone, Copy, Drop)]
pub enum Operation {
    /// An instruction of the processor.
    Instr(Mnemonic),
    /// `ORG`: sets the address.
    Org,
    /// `EQU`: gives the label a value.
    Equ,
    /// `DFB`: bytes.
    Dfb,
    /// `DW`: 16-bit words.
    Dw,
    /// `ASC`: the codes of a text.
    Asc,
    /// `DS`: this many zero bytes.
    Ds,
}

// Returns the directive with these letters.
fn directive(letters: &[u8]) -> Option<Operation>
    ensures found { IfSome result (λ o. letters_of o ≡ letters.now) }
    ensures none { IfNone result ((o : DeclaredOperation) → letters_of o ≡ letters.now → IsInstr o) }
{
    match letters {
        b"ORG" => Some(Operation::Org),
        b"EQU" => Some(Operation::Equ),
        b"DFB" => Some(Operation::Dfb),
        b"DW" => Some(Operation::Dw),
        b"ASC" => Some(Operation::Asc),
        b"DS" => Some(Operation::Ds),
        _ => None,
    }
}

// Returns the directive with this name, in upper or lower case.
fn directive_named(word: &[u8]) -> Option<Operation>
    ensures found { IfSome result (λ o. letters_of o ≡ map capital_of word.now) }
    ensures none { IfNone result ((o : DeclaredOperation) → letters_of o ≡ map capital_of word.now → IsInstr o) }
{
    match word {
        [a, b] => directive(&[capital(*a), capital(*b)]),
        [a, b, c] => directive(&[capital(*a), capital(*b), capital(*c)]),
        _ => None,
    }
}

// Returns the operation with this name, in upper or lower case.
pub(crate) fn named(word: &[u8]) -> Option<Operation>
    ensures found { IfSome result (λ o. letters_of o ≡ map capital_of word.now) }
    ensures only { (o : DeclaredOperation) → letters_of o ≡ map capital_of word.now → result ≡ Some o }
{
    match directive_named(word) {
        Some(operation) => Some(operation),
        None => Some(Operation::Instr(Mnemonic::named(word)?)),
    }
}
