//! Warnings about the order in which statements are executed.

use a2_asm::Statement;
use a2_opcode::{Mnemonic, Mode};
use a2_syntax::Line;
use std::alloc::Allocator;

/// Whether the next instruction in memory is not executed after an instruction, unless another one leads there.
pub(crate) fn ends(mnemonic: Mnemonic) -> bool {
    matches!(
        mnemonic,
        Mnemonic::Jmp | Mnemonic::Rts | Mnemonic::Rti | Mnemonic::Brk
    )
}

// Whether an instruction is directly after one in memory that never continues there.
fn follows_an_end(before: &Statement, statement: &Statement) -> bool {
    match (before.instr, statement.instr) {
        (Some(instr), Some(_)) => {
            ends(instr.mnemonic) && before.addr.wrapping_add(before.length) == statement.addr
        }
        _ => false,
    }
}

// Whether one of the lines after line `first`, up to line `last`, has a label. Lines are counted from 1.
fn has_label<A: Allocator>(lines: &[Line<A>], first: u16, last: u16) -> bool {
    let (front, _) = lines.split_at(usize::from(last).min(lines.len()));
    let (_, here) = front.split_at(usize::from(first).min(front.len()));
    for line in here {
        if line.label.is_some() {
            return true;
        }
    }
    false
}

// Whether the operand of one of these statements is the address of a byte of a statement.
fn is_led_to(statements: &[Statement], statement: &Statement) -> bool {
    for other in statements {
        if let Some(instr) = other.instr {
            let distance = instr.value.wrapping_sub(statement.addr);
            if instr.mode != Mode::Immediate && distance < statement.length {
                return true;
            }
        }
    }
    false
}

/// Whether an instruction is never executed: it is directly after `before`, which never continues there, it has no label, and
/// no operand is its address. `lines` and `statements` are those of the whole source.
pub(crate) fn is_unreached<A: Allocator>(
    lines: &[Line<A>],
    statements: &[Statement],
    before: &Statement,
    statement: &Statement,
) -> bool {
    follows_an_end(before, statement)
        && !has_label(lines, before.line, statement.line)
        && !is_led_to(statements, statement)
}
