//! Expressions: registers, names and addresses.

use crate::marking::Mark;
use a2_asm::Program;
use a2_debugger::{Inspector, Moment, Subject, in_flag, in_register, subject_of};
use a2_machine::Machine;
use a2_stream::{Output, WriteFault, put, put_all};
use a2_text::{decimal, front_len, hex_pair, hex_word};
use std::alloc::Global;

// Writes the byte at an address, after the address.
fn put_byte_at<W: Output>(
    machine: &Machine<Global>,
    address: u16,
    writer: &mut W,
) -> Result<(), WriteFault> {
    put_all(&[b"$", &hex_word(address)], writer)?;
    match machine.peek(address) {
        Some(byte) => put_all(&[b": $", &hex_pair(byte)], writer),
        None => Ok(()),
    }
}

/// Writes the value of a register or a flag, or an address and the byte there. Returns whether `word` is one of these.
pub fn put_value<W: Output>(
    program: &Program,
    machine: &Machine<Global>,
    word: &[u8],
    writer: &mut W,
) -> Result<bool, WriteFault> {
    let word = word.trim_ascii();
    if word.eq_ignore_ascii_case(b"PC") {
        put_all(&[b"$", &hex_word(machine.regs().pc)], writer)?;
        return Ok(true);
    }
    let moment = Moment::of(machine);
    match subject_of(program, word) {
        Some(Subject::InRegister(register)) => {
            put_all(&[b"$", &hex_pair(in_register(register, &moment))], writer)?;
        }
        Some(Subject::InFlag(flag)) => {
            put(
                decimal(u64::from(in_flag(flag, &moment))).as_slice(),
                writer,
            )?;
        }
        Some(Subject::InByte(address)) => put_byte_at(machine, address, writer)?,
        None => return Ok(false),
    }
    Ok(true)
}

// Writes a part of a log text: what is between braces as its value, unless it has none.
fn put_part<W: Output>(
    inspector: &Inspector<'_>,
    part: &[u8],
    writer: &mut W,
) -> Result<(), WriteFault> {
    let (word, following) = part.split_at(front_len(part, |byte| byte != b'}'));
    let [_, following @ ..] = following else {
        return put(word, writer);
    };
    if !put_value(inspector.program(), inspector.machine(), word, writer)? {
        put_all(&[b"{", word, b"}"], writer)?;
    }
    put(following, writer)
}

// Writes a log text and a line feed.
fn put_log_text<W: Output>(
    inspector: &Inspector<'_>,
    text: &[u8],
    writer: &mut W,
) -> Result<(), WriteFault> {
    for part in text.split(|byte| *byte == b'{') {
        put_part(inspector, part, writer)?;
    }
    put(b"\n", writer)
}

/// Writes the text of the breakpoint with this index.
pub fn put_log<W: Output>(inspector: &Inspector<'_>, marks: &[Mark], index: usize, writer: &mut W) {
    let Some(mark) = marks.get(index) else {
        return;
    };
    if let Some(text) = &mark.log {
        let _ = put_log_text(inspector, text.as_str().as_bytes(), writer);
    }
}
