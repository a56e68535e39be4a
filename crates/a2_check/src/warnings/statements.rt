//! Warnings that depend on the addresses of statements.

ghost use Rattle.std.specs.Prelude.{◌≡◌, ◌<◌, ℕ, List, false, length, get_or, IfOk};
ghost use Rattle.a2_asm.specs.declared.program.Statement.{Statement as Stated};
ghost use Rattle.a2_check.specs.Warnings as warnings;
ghost use Rattle.a2_check.specs.Warnings.{MarksBegins};

use crate::services::is_service;
use crate::warnings::WarningKind;
use a2_asm::Statement;
use a2_effect::stores_operand;
use a2_opcode::{Instr, Mnemonic, Mode};
use a2_text::{after_blanks, front_len};
use std::alloc::{AllocError, Allocator};
use std::marker::Model;

// The number of addresses.
const ADDRESSES: usize = 0x1_0000;

// The Monitor's routines that output a character. Apple II Reference Manual (1979), its list of Monitor subroutines.
const COUT: u16 = 0xFDED;

const COUT1: u16 = 0xFDF0;

/// For each address, whether an instruction begins there.
#[derive(Drop)]
pub(crate) struct Begins<A: Allocator> {
    marks: Vec<bool, A>,
}

impl<A: Allocator> Model for Begins<A> {
    ghost use Rattle.std.specs.Prelude.{◌≡◌, List, Bool, length};

    ghost Value = { List Bool };

    ghost view = { λ a. a.marks.items };

    ghost invariant = { λ a. length a.marks.items ≡ 65536 };
}

// Returns a list with no address marked.
fn no_marks<A: Allocator>(alloc: A) -> Result<Vec<bool, A>, AllocError>
    ensures size { IfOk result (λ marks. length marks.items ≡ 65536) }
    ensures none { IfOk result (λ marks. (a : ℕ) → get_or marks.items a false ≡ false) }
{
    vec![in alloc; false; ADDRESSES]
}

// Marks the address of each instruction. At the start none is marked.
fn mark<A: Allocator>(marks: &mut Vec<bool, A>, statements: &[Statement])
    requires size { length marks.old.items ≡ 65536 }
    requires none { (a : ℕ) → get_or marks.old.items a false ≡ false }
    ensures size { length marks.new.items ≡ 65536 }
    ensures marked { MarksBegins statements.now marks.new.items }
{
    for statement in statements {
        marks[usize::from(statement.addr)] |= statement.instr.is_some();
    }
}

impl<A: Allocator> Begins<A> {
    /// Returns where the instructions among the statements begin. Fails only if there is not enough memory.
    pub(crate) fn of(alloc: A, statements: &[Statement]) -> Result<Begins<A>, AllocError>
        ensures { IfOk result (λ begins. MarksBegins statements.now begins) }
    {
        let mut marks = no_marks(alloc)?;
        mark(&mut marks, statements);
        Ok(Begins { marks })
    }

    // Whether an instruction begins at an address.
    fn has(&self, address: u16) -> bool
        ensures { result ≡ get_or self.now address false }
    {
        self.marks[usize::from(address)]
    }
}

// Whether an instruction continues, or may continue, somewhere other than at the next instruction.
fn leads_away(instr: Instr) -> bool
    ensures { result ≡ warnings.leads_away instr }
{
    let leaves = matches!(
        instr.mnemonic,
        Mnemonic::Jmp | Mnemonic::Jsr | Mnemonic::Rts | Mnemonic::Rti | Mnemonic::Brk
    );
    leaves || instr.mode == Mode::Relative
}

// Whether an instruction always jumps to the value of its operand.
fn jumps(instr: Instr) -> bool
    ensures { result ≡ warnings.jumps instr }
{
    instr.mode == Mode::Absolute && instr.mnemonic == Mnemonic::Jmp
}

/// Returns the warning for a statement if it jumps to itself, or if it continues where no instruction begins. `begins` marks
/// the addresses of all instructions.
pub(crate) fn kind_of<A: Allocator>(
    begins: &Begins<A>,
    statement: &Statement,
) -> Option<WarningKind>
    ensures { (all : List Stated) → MarksBegins all begins.now → result ≡ warnings.kind_of all statement.now }
{
    let instr = statement.instr?;
    if jumps(instr) && instr.value == statement.addr {
        return Some(WarningKind::Circle);
    }
    let following = statement.addr.wrapping_add(statement.length);
    if !leads_away(instr) && !begins.has(following) {
        return Some(WarningKind::RunsOut);
    }
    None
}

/// Whether a statement calls a service, and no instruction begins after it.
pub(crate) fn runs_out_after_service<A: Allocator>(
    begins: &Begins<A>,
    statement: &Statement,
) -> bool {
    match statement.instr {
        Some(instr) if instr.mnemonic == Mnemonic::Jsr => {
            is_service(instr.value) && !begins.has(statement.addr.wrapping_add(statement.length))
        }
        _ => false,
    }
}

/// Whether a statement is a branch to an address where no instruction begins.
pub(crate) fn is_astray<A: Allocator>(begins: &Begins<A>, statement: &Statement) -> bool {
    match statement.instr {
        Some(instr) => instr.mode == Mode::Relative && !begins.has(instr.value),
        None => false,
    }
}

/// Whether a statement stores at an address of the Apple's ROM, $D000 to $FFFF.
pub(crate) fn stores_in_rom(statement: &Statement) -> bool {
    match statement.instr {
        Some(instr) => {
            instr.mode == Mode::Absolute && instr.value >= 0xD000 && stores_operand(instr.mnemonic)
        }
        None => false,
    }
}

// Returns the text after the first `#` of a line and blanks, or nothing if the line has no `#`.
fn after_number_sign(text: &[u8]) -> &[u8]
    ensures { result.now ≡ warnings.after_number_sign text.now }
{
    match &text[front_len(text, |c| c != b'#')..] {
        [_, rest @ ..] => after_blanks(rest),
        [] => b"",
    }
}

// Whether a text begins with a single quote and the character with this code.
fn is_quoted(text: &[u8], code: u16) -> bool
    ensures { result ≡ warnings.is_quoted code text.now }
{
    match text {
        [b'\'', c, ..] => u16::from(*c) == code,
        _ => false,
    }
}

// Whether an instruction, in a line with this text, loads A with a character in single quotes.
fn loads_plain(text: &[u8], instr: Instr) -> bool
    ensures { result ≡ warnings.loads_plain text.now instr }
{
    instr.mnemonic == Mnemonic::Lda
        && instr.mode == Mode::Immediate
        && is_quoted(after_number_sign(text), instr.value)
}

// Whether a statement is LDX or LDY.
fn loads_index(statement: &Statement) -> bool
    ensures { result ≡ warnings.loads_index statement.now }
{
    match statement.instr {
        Some(instr) => matches!(instr.mnemonic, Mnemonic::Ldx | Mnemonic::Ldy),
        None => false,
    }
}

/// Whether a statement writes A to the screen: by a call of COUT or COUT1, or by a store in text page 1.
pub(crate) fn puts(statement: &Statement) -> bool
    ensures { result ≡ warnings.puts statement.now }
{
    let Some(instr) = statement.instr else {
        return false;
    };
    match instr.mnemonic {
        Mnemonic::Jsr => instr.value == COUT || instr.value == COUT1,
        Mnemonic::Sta => matches!(instr.value, 0x400..=0x7FF),
        _ => false,
    }
}

// Whether the first of these statements that is not LDX or LDY writes A to the screen.
fn is_put(following: &[Statement]) -> bool
    ensures { result ≡ warnings.is_put following.now }
{
    for statement in following {
        if !loads_index(statement) {
            return puts(statement);
        }
    }
    false
}

// Whether an instruction, in a line with this text, loads A with a small letter in double quotes.
fn loads_small(text: &[u8], instr: Instr) -> bool {
    instr.mnemonic == Mnemonic::Lda
        && instr.mode == Mode::Immediate
        && matches!(instr.value, 0xE1..=0xFA)
        && matches!(after_number_sign(text), [b'"', ..])
}

/// Whether a statement, in a line with this text, loads A with a small letter, and the statements after it write A to the screen.
pub(crate) fn shows_small(text: &[u8], statement: &Statement, following: &[Statement]) -> bool {
    match statement.instr {
        Some(instr) => loads_small(text, instr) && is_put(following),
        None => false,
    }
}

/// Whether a statement, in a line with this text, loads A with a character with bit 7 clear, and the statements after it write
/// A to the screen.
pub(crate) fn shows_plain(text: &[u8], statement: &Statement, following: &[Statement]) -> bool
    ensures { result ≡ warnings.shows_plain text.now statement.now following.now }
{
    match statement.instr {
        Some(instr) => loads_plain(text, instr) && is_put(following),
        None => false,
    }
}
