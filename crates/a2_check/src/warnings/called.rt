//! Warnings about flags that a service of a real machine changes.

use crate::services::is_service;
use crate::warnings::{Warning, WarningKind};
use a2_asm::Statement;
use a2_opcode::{Instr, Mnemonic, Mode};
use std::alloc::{AllocError, Allocator};

// Whether an instruction keeps all flags, and the next one is executed after it.
fn keeps_flags(mnemonic: Mnemonic) -> bool {
    matches!(
        mnemonic,
        Mnemonic::Sta
            | Mnemonic::Stx
            | Mnemonic::Sty
            | Mnemonic::Pha
            | Mnemonic::Php
            | Mnemonic::Txs
            | Mnemonic::Nop
    )
}

// Whether the flags after an instruction are those that a service left.
fn are_of_service(before: bool, instr: Instr) -> bool {
    match instr.mnemonic {
        Mnemonic::Jsr => is_service(instr.value),
        mnemonic => before && keeps_flags(mnemonic),
    }
}

/// Adds a warning for each branch that tests flags which a service of a real machine changes, and a service here keeps.
pub(crate) fn warn_of_kept_flags<A: Allocator>(
    warnings: &mut Vec<Warning, A>,
    statements: &[Statement],
) -> Result<(), AllocError> {
    let mut of_service = false;
    for statement in statements {
        let Some(instr) = statement.instr else {
            of_service = false;
            continue;
        };
        if of_service && instr.mode == Mode::Relative {
            warnings.push(Warning {
                line: usize::from(statement.line),
                kind: WarningKind::Kept,
            })?;
        }
        of_service = are_of_service(of_service, instr);
    }
    Ok(())
}
