//! The notes of a source beside the Monitor's lines. No contract describes which names and lines these are.

use a2_asm::{Names, Program, Statement};
use a2_hex::{Image, address_of, byte_of};
use a2_text::{decimal, hex_word};
use std::alloc::{AllocError, Allocator};

// The column where the number of a source line ends: a line of `300L` has at most 32 bytes, and a number has 5.
const NUMBER_END: usize = 38;

// The column where names begin, two columns after a line with eight bytes.
const NAMES_AT: usize = 31;

const BLANKS: &[u8] = b"                                ";

/// A source: its program and its lines.
pub(crate) struct Source<'a, A: Allocator> {
    pub program: Program<A>,
    pub lines: Vec<&'a [u8], A>,
}

// Not derived, only for the prover: it treats this as one call, and a derived `drop` field by field.
impl<'a, A: Allocator> Drop for Source<'a, A> {
    fn drop(self) {
        let Source {
            program: _,
            lines: _,
        } = self;
    }
}

// The blanks from a number of bytes, given as a sum of two, up to a column.
fn gap(column: usize, used: usize, more: usize) -> &'static [u8] {
    let left = column.saturating_sub(used).saturating_sub(more);
    &BLANKS[..left.min(BLANKS.len())]
}

// The address at the beginning of a line, and the text after its dash.
fn parted(line: &[u8]) -> Option<(u16, &[u8])> {
    match line {
        [a, b, c, d, b'-', shown @ ..] => Some((address_of(&[*a, *b, *c, *d])?, shown)),
        _ => None,
    }
}

// The byte shown by a blank and two digits.
fn shown_byte(piece: &[u8]) -> Option<u8> {
    match piece {
        [b' ', digits @ ..] => byte_of(digits),
        _ => None,
    }
}

// The number of bytes shown at the beginning of a text.
fn count_shown(text: &[u8]) -> u16 {
    let mut count: u16 = 0;
    for piece in text.chunks(3) {
        if shown_byte(piece).is_none() {
            return count;
        }
        count = count.saturating_add(1);
    }
    count
}

// Whether all bytes that are shown from an address on are those of the source.
fn is_laid<A: Allocator + Copy>(image: &Image<A>, address: u16, text: &[u8]) -> bool {
    let mut at = address;
    for piece in text.chunks(3) {
        let Some(byte) = shown_byte(piece) else {
            return true;
        };
        match image.get(at) {
            Some(laid) if laid != byte => return false,
            _ => at = at.wrapping_add(1),
        }
    }
    true
}

// The statement that begins at an address, if it has any bytes.
fn statement_from(statements: &[Statement], address: u16) -> Option<Statement> {
    for statement in statements {
        if statement.addr == address && statement.length > 0 {
            return Some(*statement);
        }
    }
    None
}

// Appends the number and text of the source line whose statement begins at the listed address.
fn append_line<A: Allocator + Copy>(
    source: &Source<'_, A>,
    address: u16,
    shown: &[u8],
    used: usize,
    beside: &mut Vec<u8, A>,
) -> Result<(), AllocError> {
    let Some(statement) = statement_from(source.program.statements(), address) else {
        return Ok(());
    };
    if !is_laid(source.program.image(), address, shown) {
        return Ok(());
    }
    let number = decimal(u64::from(statement.line));
    beside.extend_from_slice(gap(NUMBER_END, used, number.len()))?;
    beside.extend_from_slice(number.as_slice())?;
    if let Some(text) = source
        .lines
        .get(usize::from(statement.line).saturating_sub(1))
    {
        beside.extend_from_slice(b"  ")?;
        beside.extend_from_slice(text.trim_ascii_end())?;
    }
    Ok(())
}

// Appends a name in the column of names or after other names, with its address if that differs from the address of the line.
fn append_name<A: Allocator + Copy>(
    name: &str,
    address: u16,
    is_first: bool,
    used: usize,
    beside: &mut Vec<u8, A>,
) -> Result<(), AllocError> {
    let blanks = if beside.is_empty() {
        gap(NAMES_AT, used, 0)
    } else {
        b" "
    };
    beside.extend_from_slice(blanks)?;
    beside.extend_from_slice(name.as_bytes())?;
    if !is_first {
        beside.push(b'=')?;
        beside.extend_from_slice(&hex_word(address))?;
    }
    Ok(())
}

// Appends the names of an address.
fn append_names_at<A: Allocator + Copy>(
    names: &Names<A>,
    address: u16,
    is_first: bool,
    used: usize,
    beside: &mut Vec<u8, A>,
) -> Result<(), AllocError> {
    for index in 0..names.len() {
        let Some((name, value)) = names.get_index(index) else {
            return Ok(());
        };
        if *value == address {
            append_name(name.as_str(), address, is_first, used, beside)?;
        }
    }
    Ok(())
}

// Appends the names of this many addresses from one on.
fn append_names<A: Allocator + Copy>(
    names: &Names<A>,
    address: u16,
    count: u16,
    used: usize,
    beside: &mut Vec<u8, A>,
) -> Result<(), AllocError> {
    for offset in 0..count {
        let at = address.wrapping_add(offset);
        append_names_at(names, at, offset == 0, used, beside)?;
    }
    Ok(())
}

/// Returns the note of a source beside a line of the Monitor. Beside a line of `300L` it is the source line whose statement
/// begins there, if all bytes shown are those of the source. Beside a line with bytes it is the names of their addresses. Fails
/// only if memory runs out.
pub(crate) fn beside<A: Allocator + Copy>(
    alloc: A,
    source: &Source<'_, A>,
    line: &[u8],
) -> Result<Vec<u8, A>, AllocError> {
    let mut told = Vec::new(alloc);
    let Some((address, shown)) = parted(line) else {
        return Ok(told);
    };
    match shown {
        // In a listing the bytes begin two columns further right.
        [b' ', b' ', bytes @ ..] => append_line(source, address, bytes, line.len(), &mut told)?,
        _ => {
            let count = count_shown(shown);
            append_names(
                source.program.names(),
                address,
                count,
                line.len(),
                &mut told,
            )?;
        }
    }
    Ok(told)
}
