//! Writes numbers, addresses, inputs and texts as they appear in reports.

use crate::promise_words::hidden_by;
use a2_asm::Program;
use a2_promise_certify::Input;
use a2_stream::{Output, WriteFault, put_all};
use a2_symbols::name_of;
use a2_text::{decimal, hex_pair, hex_word};
use std::alloc::Global;

/// Writes a number between two texts.
pub(crate) fn put_number<W: Output>(
    before: &[u8],
    number: u64,
    following: &[u8],
    output: &mut W,
) -> Result<(), WriteFault> {
    put_all(&[before, decimal(number).as_slice(), following], output)
}

/// Writes a number between two texts, with a comma before each group of three digits.
pub(crate) fn put_grouped<W: Output>(
    before: &[u8],
    number: u64,
    following: &[u8],
    output: &mut W,
) -> Result<(), WriteFault> {
    put_all(&[before], output)?;
    let digits = decimal(number);
    let count = digits.len();
    for (index, digit) in digits.as_slice().iter().enumerate() {
        let left = count.saturating_sub(index);
        if index > 0 && left % 3 == 0 {
            put_all(&[b","], output)?;
        }
        put_all(&[&[*digit]], output)?;
    }
    put_all(&[following], output)
}

/// Writes a text followed by a number, which may be negative.
pub(crate) fn put_signed<W: Output>(
    words: &[u8],
    number: i64,
    output: &mut W,
) -> Result<(), WriteFault> {
    let sign: &[u8] = if number < 0 { b"-" } else { b"" };
    let digits = decimal(number.unsigned_abs());
    put_all(&[words, sign, digits.as_slice()], output)
}

/// Writes a text followed by an address; addresses in page 0 have two digits.
pub(crate) fn put_address<W: Output>(
    words: &[u8],
    address: u16,
    output: &mut W,
) -> Result<(), WriteFault> {
    if address < 256 {
        put_all(&[words, b"$", &hex_pair((address % 256) as u8)], output)
    } else {
        put_all(&[words, b"$", &hex_word(address)], output)
    }
}

/// Writes a text followed by the name of an input.
pub(crate) fn put_input<W: Output>(
    words: &[u8],
    input: Input,
    output: &mut W,
) -> Result<(), WriteFault> {
    let name: &[u8] = match input {
        Input::A => b"A",
        Input::X => b"X",
        Input::Y => b"Y",
        Input::Carry => b"C",
        Input::Zero => b"Z",
        Input::Negative => b"N",
        Input::Overflow => b"V",
        Input::Interrupt => b"I",
        Input::Byte(address) => return put_address(words, address, output),
    };
    put_all(&[words, name], output)
}

/// Writes a text followed by an input; a byte is written by its name in the source, if it has one that is not a word of
/// promises.
pub(crate) fn put_named<W: Output>(
    program: &Program<Global>,
    words: &[u8],
    input: Input,
    output: &mut W,
) -> Result<(), WriteFault> {
    if let Input::Byte(address) = input {
        let name = name_of(program.names(), address);
        if !name.is_empty() && hidden_by(name).is_none() {
            return put_all(&[words, name], output);
        }
    }
    put_input(words, input, output)
}

/// Writes the number of a line, and its text.
pub(crate) fn put_line<W: Output>(
    line: usize,
    text: &[u8],
    output: &mut W,
) -> Result<(), WriteFault> {
    put_number(b"line ", line as u64, b": ", output)?;
    put_all(&[text], output)
}

// Writes a byte of a text as it is spelt, or its number in brackets.
fn put_spelt<W: Output>(byte: u8, output: &mut W) -> Result<(), WriteFault> {
    let spelt: &[u8] = match byte {
        0x8D => b"\\r",
        0x88 => b"\\b",
        0x95 => b"\\f",
        0x98 => b"\\x",
        0xDC => b"\\\\",
        0xA0..=0xFE => return put_all(&[&[byte % 128]], output),
        _ => return put_all(&[b"[$", &hex_pair(byte), b"]"], output),
    };
    put_all(&[spelt], output)
}

/// Writes a text in quotes.
pub(crate) fn put_text<W: Output>(text: &[u8], output: &mut W) -> Result<(), WriteFault> {
    put_all(&[b"\""], output)?;
    for byte in text {
        put_spelt(*byte, output)?;
    }
    put_all(&[b"\""], output)
}
