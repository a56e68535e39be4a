//! The statements of a source: instructions and data at their addresses.

use crate::code::{ends_flow, instruction_at, is_store};
use crate::draft::Draft;
use crate::guess::{Quotes, quotes_of};
use crate::labels::word_at;
use crate::marks::{Kind, Mark};
use crate::operand::{Known, put_address, put_instruction, put_name};
use a2_hex::RAM_END;
use a2_opcode::{Instr, Mnemonic, Mode};
use std::alloc::{AllocError, Allocator};

// The most bytes on a line of DFB, bytes of words on a line of DW, and characters on a line of ASC.
const MOST_BYTES: u16 = 8;

const MOST_WORDS: u16 = 8;

const MOST_CHARACTERS: u16 = 32;

/// Returns how the data at an address is written, or `None` if there is no data.
pub(crate) fn kind_of(mark: Mark) -> Option<Kind> {
    match mark {
        Mark::Given(kind) | Mark::Guessed(kind) => Some(kind),
        Mark::Second => Some(Kind::Words),
        Mark::Unknown => Some(Kind::Bytes),
        _ => None,
    }
}

// Appends the name of an address at the front of a line, if it has one.
fn put_label<A: Allocator>(
    known: &Known<'_, '_, A>,
    draft: &mut Draft<A>,
    address: u16,
) -> Result<(), AllocError> {
    if known.labels.is_named(address) {
        put_name(known, draft, address)?;
    }
    Ok(())
}

// Returns how many bytes from an address on, at most so many, are of the same kind and have no name after the first.
fn run_length<A: Allocator>(known: &Known<'_, '_, A>, first: u16, most: u16) -> u16 {
    let kind = kind_of(known.marks.at(first));
    for count in 1..most {
        let address = first.wrapping_add(count);
        if kind_of(known.marks.at(address)) != kind || known.labels.is_named(address) {
            return count;
        }
    }
    most.max(1)
}

// Returns the quotes around the byte at an address as a character.
fn quotes_at<A: Allocator>(known: &Known<'_, '_, A>, address: u16) -> Quotes {
    match known.image.get(address) {
        Some(byte) => quotes_of(byte),
        None => Quotes::Neither,
    }
}

// Returns how many of the bytes from an address on, at most so many, have the same quotes.
fn same_quotes<A: Allocator>(known: &Known<'_, '_, A>, first: u16, most: u16) -> u16 {
    let quotes = quotes_at(known, first);
    for count in 1..most {
        if quotes_at(known, first.wrapping_add(count)) != quotes {
            return count;
        }
    }
    most
}

// Appends a line of so many bytes.
fn put_bytes<A: Allocator>(
    known: &Known<'_, '_, A>,
    draft: &mut Draft<A>,
    first: u16,
    count: u16,
) -> Result<(), AllocError> {
    draft.put_operation(b"DFB")?;
    for address in first..first.saturating_add(count) {
        if address > first {
            draft.put(b",")?;
        }
        draft.put_pair(known.image.get(address).unwrap_or(0))?;
    }
    draft.end_line()
}

// Appends a line of so many bytes, which are words.
fn put_words<A: Allocator>(
    known: &Known<'_, '_, A>,
    draft: &mut Draft<A>,
    first: u16,
    count: u16,
) -> Result<(), AllocError> {
    draft.put_operation(b"DW")?;
    for index in 0..count / 2 {
        if index > 0 {
            draft.put(b",")?;
        }
        let address = first.wrapping_add(index.wrapping_mul(2));
        put_address(known, draft, word_at(known.image, address).unwrap_or(0))?;
    }
    draft.end_line()
}

// Appends a line of so many characters, with this quote around them.
fn put_characters<A: Allocator>(
    known: &Known<'_, '_, A>,
    draft: &mut Draft<A>,
    first: u16,
    count: u16,
    quote: &[u8],
) -> Result<(), AllocError> {
    draft.put_operation(b"ASC")?;
    draft.put(quote)?;
    for address in first..first.saturating_add(count) {
        draft.put(&[known.image.get(address).unwrap_or(0) & 0x7F])?;
    }
    draft.put(quote)?;
    draft.end_line()
}

// Appends a line of a text of at most so many bytes, and returns how many bytes the line has.
fn put_text<A: Allocator>(
    known: &Known<'_, '_, A>,
    draft: &mut Draft<A>,
    first: u16,
    most: u16,
) -> Result<u16, AllocError> {
    let count = same_quotes(known, first, most);
    match quotes_at(known, first) {
        Quotes::Single => put_characters(known, draft, first, count, b"'")?,
        Quotes::Double => put_characters(known, draft, first, count, b"\"")?,
        Quotes::Neither => {
            let count = count.min(MOST_BYTES);
            put_bytes(known, draft, first, count)?;
            return Ok(count);
        }
    }
    Ok(count)
}

// Appends a line of words of at most so many bytes, and returns how many bytes the line has.
fn put_table<A: Allocator>(
    known: &Known<'_, '_, A>,
    draft: &mut Draft<A>,
    first: u16,
    most: u16,
) -> Result<u16, AllocError> {
    if most < 2 {
        put_bytes(known, draft, first, 1)?;
        return Ok(1);
    }
    put_words(known, draft, first, most)?;
    Ok((most / 2).saturating_mul(2))
}

// Appends a line of so many zeros.
fn put_zeros<A: Allocator>(draft: &mut Draft<A>, count: u16) -> Result<u16, AllocError> {
    draft.put_operation(b"DS")?;
    draft.put_number(count)?;
    draft.end_line()?;
    Ok(count)
}

// Appends a line of the data at an address, and returns how many bytes the line has.
fn put_data<A: Allocator>(
    known: &Known<'_, '_, A>,
    draft: &mut Draft<A>,
    address: u16,
    kind: Kind,
) -> Result<u16, AllocError> {
    put_label(known, draft, address)?;
    match kind {
        Kind::Zeros => put_zeros(draft, run_length(known, address, RAM_END)),
        Kind::Words => put_table(
            known,
            draft,
            address,
            run_length(known, address, MOST_WORDS),
        ),
        Kind::Text => put_text(
            known,
            draft,
            address,
            run_length(known, address, MOST_CHARACTERS),
        ),
        Kind::Bytes => {
            let count = run_length(known, address, MOST_BYTES);
            put_bytes(known, draft, address, count)?;
            Ok(count)
        }
    }
}

// Returns whether the instruction before an address is a PHA.
fn is_after_push<A: Allocator>(known: &Known<'_, '_, A>, address: u16) -> bool {
    let before = address.wrapping_sub(1);
    known.marks.at(before) == Mark::First && known.image.get(before) == Some(0x48)
}

// Returns whether an instruction stores into an instruction.
fn stores_into_code<A: Allocator>(known: &Known<'_, '_, A>, instr: Instr) -> bool {
    is_store(instr) && known.marks.at(known.marks.owner(instr.value)) == Mark::First
}

// Returns what a comment says of an instruction at an address; nothing if it has none.
fn remark_of<A: Allocator>(
    known: &Known<'_, '_, A>,
    instr: Instr,
    address: u16,
) -> Option<&'static [u8]> {
    if instr.mode == Mode::Indirect {
        return Some(b"; jumps to an address in memory");
    }
    if instr.mnemonic == Mnemonic::Rts && is_after_push(known, address) {
        return Some(b"; jumps to an address that was pushed");
    }
    if stores_into_code(known, instr) {
        return Some(b"; changes an instruction");
    }
    None
}

// Appends the line of the instruction at an address, and returns how many bytes it has.
fn put_code<A: Allocator>(
    known: &Known<'_, '_, A>,
    draft: &mut Draft<A>,
    address: u16,
) -> Result<u16, AllocError> {
    put_label(known, draft, address)?;
    let Some(instr) = instruction_at(known.image, address) else {
        put_bytes(known, draft, address, 1)?;
        return Ok(1);
    };
    put_instruction(known, draft, instr, address)?;
    match remark_of(known, instr, address) {
        Some(remark) => draft.end_with(remark)?,
        None => draft.end_line()?,
    }
    Ok(u16::from(instr.mode.length()))
}

/// Appends the line of the statement at an address, and returns how many bytes it has.
pub(crate) fn put_statement<A: Allocator>(
    known: &Known<'_, '_, A>,
    draft: &mut Draft<A>,
    address: u16,
) -> Result<u16, AllocError> {
    match kind_of(known.marks.at(address)) {
        Some(kind) => put_data(known, draft, address, kind),
        None => put_code(known, draft, address),
    }
}

/// Returns whether the next statement is apart from the one at an address: it ends a stretch of code or data.
pub(crate) fn is_last<A: Allocator>(known: &Known<'_, '_, A>, address: u16, next: u16) -> bool {
    let here = kind_of(known.marks.at(address)).is_none();
    let there = kind_of(known.marks.at(next)).is_none();
    here != there && !is_within(known, address)
}

// Returns whether the instruction at an address, if there is one, goes on to the next.
fn is_within<A: Allocator>(known: &Known<'_, '_, A>, address: u16) -> bool {
    match instruction_at(known.image, address) {
        Some(instr) => known.marks.at(address) == Mark::First && !ends_flow(instr),
        None => false,
    }
}
