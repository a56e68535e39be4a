//! Writes places of a program for its user: lines, statements and addresses.

use crate::statements::statement_at;
use a2_asm::Program;
use a2_stream::{Output, WriteFault, put, put_all};
use a2_text::{decimal, hex_word};
use std::alloc::Allocator;

/// A program with the lines of its source.
#[derive(Clone, Copy)]
pub struct Scene<'a, A: Allocator> {
    pub program: &'a Program<A>,
    pub lines: &'a [&'a [u8]],
}

/// Returns the text of the line with this number, without the blanks around it; empty if there is no such line.
fn line_text<'a>(lines: &[&'a [u8]], number: u16) -> &'a [u8] {
    match lines.get(usize::from(number).saturating_sub(1)) {
        Some(line) => line.trim_ascii(),
        None => b"",
    }
}

// Returns a byte of a text as it is shown after the byte `last`: `?` for a control character but a tab, and for each byte above ASCII
// unless the text is UTF-8.
fn shown(last: u8, byte: u8, is_utf8: bool) -> u8 {
    match byte {
        b'\t' | b' '..=b'~' => byte,
        // These are the control characters from U+0080 to U+009F.
        0x80..=0x9F if last == 0xC2 => b'?',
        0x80..=0xFF if is_utf8 => byte,
        _ => b'?',
    }
}

/// Writes a text of a source, such as a line, with `?` for each byte that a terminal does not show as a character.
pub fn put_text<W: Output>(text: &[u8], writer: &mut W) -> Result<(), WriteFault> {
    let is_utf8 = std::str::from_utf8(text).is_ok();
    let mut last = 0;
    for byte in text {
        put(&[shown(last, *byte, is_utf8)], writer)?;
        last = *byte;
    }
    Ok(())
}

// Writes a line as its number and text.
fn put_line<W: Output>(number: &[u8], text: &[u8], writer: &mut W) -> Result<(), WriteFault> {
    put_all(&[b"line ", number, b" `"], writer)?;
    put_text(text, writer)?;
    put(b"`", writer)
}

/// Writes an address as `$6801`.
pub fn put_address<W: Output>(address: u16, writer: &mut W) -> Result<(), WriteFault> {
    put(b"$", writer)?;
    put(&hex_word(address), writer)
}

/// Writes a number in decimal.
pub fn put_number<W: Output>(number: u64, writer: &mut W) -> Result<(), WriteFault> {
    put(decimal(number).as_slice(), writer)
}

/// Writes where an address is: the line of its statement, as in ``line 3 `RTS` ``, or else the address itself, as in
/// `$6801`.
pub fn put_place<A: Allocator, W: Output>(
    scene: &Scene<A>,
    address: u16,
    writer: &mut W,
) -> Result<(), WriteFault> {
    match statement_at(scene.program.statements(), address) {
        Some(statement) => {
            let number = decimal(u64::from(statement.line));
            put_line(
                number.as_slice(),
                line_text(scene.lines, statement.line),
                writer,
            )
        }
        None => put_address(address, writer),
    }
}
