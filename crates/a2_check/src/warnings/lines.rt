//! Warnings about single lines.

ghost use Rattle.std.specs.Prelude.{◌≡◌};
ghost use Rattle.a2_check.specs.Warnings as warnings;

use crate::line::parts_of;
use crate::values::single_number;
use crate::warnings::stores::LowStores;
use a2_asm::Program;
use a2_opcode::{Mnemonic, Mode, row_for};
use a2_syntax::{Body, Line, Operand};
use a2_text::after_blanks;
use std::alloc::Allocator;

// Whether a number can begin with this byte.
fn begins_number(c: u8) -> bool
    ensures { result ≡ warnings.begins_number c }
{
    c == b'$' || c == b'%' || matches!(c, b'0'..=b'9')
}

// Whether a text begins with `=` and a number.
fn equals_number(text: &[u8]) -> bool
    ensures { result ≡ warnings.equals_number text.now }
{
    match text {
        [b'=', rest @ ..] => match after_blanks(rest).first() {
            Some(c) => begins_number(*c),
            None => false,
        },
        _ => false,
    }
}

/// Whether a line is a comment that was meant to set the address of the next lines: `*` in column 1, `=` and a number.
pub(crate) fn sets_no_place(text: &[u8]) -> bool
    ensures { result ≡ warnings.sets_no_place text.now }
{
    match text {
        [b'*', rest @ ..] => equals_number(after_blanks(rest)),
        _ => false,
    }
}

/// Whether a line has only a label, and that label is spelt like a mnemonic.
pub(crate) fn operation_in_label<A: Allocator>(line: &Line<A>) -> bool {
    match (&line.label, &line.body) {
        (Some(name), Body::Empty) => Mnemonic::named(name.get().as_bytes()).is_some(),
        _ => false,
    }
}

// Returns the address below $0100 that a line reads, if it is given as a number and the mnemonic also has an immediate mode.
fn read_by<A: Allocator>(line: &Line<A>) -> Option<u8> {
    let Body::Instr(mnemonic, Operand::Plain(e)) = &line.body else {
        return None;
    };
    let address = u8::try_from(single_number(e)?).ok()?;
    row_for(*mnemonic, Mode::Immediate)
        .is_some()
        .then_some(address)
}

// Whether a decimal number has digits that are more usual as a hexadecimal address: it is a multiple of 100.
fn looks_hexadecimal(n: u16) -> bool {
    matches!(n, 200..=9900) && n % 100 == 0
}

// Whether the digits of an address in a line are more usual as hexadecimal digits. Outside ORG, a decimal address in text page 1
// is usual too.
fn has_such_address<A: Allocator>(line: &Line<A>) -> bool {
    let (e, is_origin) = match &line.body {
        Body::Org(e) => (e, true),
        Body::Instr(_, Operand::Plain(e)) => (e, false),
        Body::Instr(_, Operand::WithX(e)) => (e, false),
        Body::Instr(_, Operand::WithY(e)) => (e, false),
        _ => return false,
    };
    match single_number(e) {
        Some(n) => looks_hexadecimal(n) && (is_origin || !matches!(n, 0x400..=0x7FF)),
        None => false,
    }
}

/// Whether a line with this text has a decimal number as an address, and its digits are more usual as a hexadecimal address.
pub(crate) fn is_decimal_address<A: Allocator>(line: &Line<A>, text: &[u8]) -> bool {
    has_such_address(line) && matches!(parts_of(text).expression(), [b'0'..=b'9', ..])
}

// Whether the Monitor uses the byte at an address below $0100. Apple II Reference Manual (1979), its table of page 0.
fn is_the_monitors(address: u8) -> bool {
    matches!(address, 0x20..=0x55)
}

/// Whether a line reads a byte below $0100 that nothing sets: no instruction may store there, the program has no byte there,
/// and the Monitor does not use it.
pub(crate) fn unwritten<A: Allocator>(
    line: &Line<A>,
    program: &Program<A>,
    stores: &LowStores,
) -> bool {
    let Some(address) = read_by(line) else {
        return false;
    };
    !is_the_monitors(address)
        && program.image().get(u16::from(address)).is_none()
        && !stores.may_reach(address)
}
