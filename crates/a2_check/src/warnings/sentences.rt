//! Writes warnings as lines of text.

use crate::warnings::{Warning, WarningKind};
use a2_stream::{Output, WriteFault, put, put_all};
use a2_text::decimal;

/// Returns the sentence for a kind of warning: what the line does, and what to write instead.
pub fn sentence_of(kind: WarningKind) -> &'static [u8] {
    match kind {
        WarningKind::Place =>
            b"a line with * in column 1 is a comment; to set the address, write ORG after a blank",
        WarningKind::Operation => b"text in column 1 is a label; put a blank before an operation",
        WarningKind::Unwritten =>
            b"this reads a byte that nothing stores; for the number itself, write # before it",
        WarningKind::RunsOut => b"no instruction follows this one; end with RTS or JMP",
        WarningKind::Circle => b"this jumps to itself and never ends; RTS ends a run",
        WarningKind::Plain =>
            b"a character in ' ' is shown inverse or flashing; in \" \" it is shown normally",
        WarningKind::Decimal =>
            b"this number is decimal; for a hexadecimal address, write $ before it",
        WarningKind::Unreached =>
            b"this line is never executed; give it a label to jump to, or remove it",
        WarningKind::Carry =>
            b"no line before this one sets the carry; write CLC before ADC, or SEC before SBC",
        WarningKind::Rom =>
            b"this stores in ROM, which does not change; to call a routine there, write JSR",
        WarningKind::Astray =>
            b"no instruction begins at the target of this branch; write a label as its operand",
        WarningKind::PlainText =>
            b"a text in ' ' is shown inverse or flashing; in \" \" it is shown normally",
        WarningKind::Small =>
            b"the screen shows small letters as other characters; write capital letters",
        WarningKind::Entered =>
            b"the program runs on from the line above into this subroutine; write RTS before it",
        WarningKind::Compared =>
            b"this uses the carry from a comparison; write CLC before ADC, or SEC before SBC",
        WarningKind::Cleared => b"after CLC, SBC subtracts one more; write SEC instead of CLC",
        WarningKind::Kept =>
            b"on a real machine the service above changes the flags; test them before the call",
    }
}

// Writes one warning: the name of the source, the number of the line, what the line does, and its text.
fn put_warning<W: Output>(
    name: &str,
    line: usize,
    what: &[u8],
    text: &[u8],
    writer: &mut W,
) -> Result<(), WriteFault> {
    put_all(&[name.as_bytes(), b":"], writer)?;
    put(decimal(line as u64).as_slice(), writer)?;
    put_all(&[b": warning: ", what, b": ", text, b"\n"], writer)
}

/// Writes `warnings` of a source with this `name` and these lines, `texts`. Each is one line of output: the name, the number of
/// the line, what the line does, what to write instead, and the line itself. Fails if a write fails; then only the first part
/// of the text was written.
pub fn put_warnings<W: Output>(
    name: &str,
    texts: &[&[u8]],
    warnings: &[Warning],
    writer: &mut W,
) -> Result<(), WriteFault> {
    for warning in warnings.iter() {
        let text: &[u8] = match texts.get(warning.line.saturating_sub(1)) {
            Some(text) => text.trim_ascii(),
            None => b"",
        };
        put_warning(name, warning.line, sentence_of(warning.kind), text, writer)?;
    }
    Ok(())
}
