//! Reports on a line that is not met: what was expected, what was found, and where the run ended.

use crate::call::append;
use crate::line::{Line, NumberedLine, following};
use crate::requirements::{
    Ending, first_different_byte, first_different_register, first_use_of, place_of, register_byte,
    size_of,
};
use crate::rows::{RowKind, Rows, are_all, first_row, fits, marks_for, row_count};
use crate::settings::{name_in, tight};
use a2_machine::Cause;
use a2_opcode::Mnemonic;
use a2_page::Attribute;
use a2_symbols::statement_at;
use a2_text::{decimal, hex_pair, hex_word, is_blank};
use std::alloc::{AllocError, Allocator};

// What the marks of attributes mean.
const MARKS: &[u8] = b"; . is normal, I is inverse, F is flashing";

// Returns a row without the blanks at its end.
fn trimmed(row: &[u8]) -> &[u8] {
    let mut rest = row;
    while let [front @ .., c] = rest {
        if !is_blank(*c) {
            return rest;
        }
        rest = front;
    }
    rest
}

// Returns the first row that is not the expected one: its number, from 0, the expected row, and the row found.
fn first_different_row<'a, 'b>(
    kind: RowKind,
    lines: &[NumberedLine<'a>],
    shown: &[&'b [u8]],
) -> Option<(usize, &'a [u8], &'b [u8])> {
    let mut used: usize = 0;
    for (number, row) in shown.iter().enumerate() {
        let here = following(lines, used.min(lines.len()));
        let wanted = first_row(here);
        if !fits(kind, wanted, *row) {
            return Some((number, wanted, *row));
        }
        used = used.saturating_add(row_count(here));
    }
    None
}

// Reports that the screen has only this many rows, although another one is expected.
fn put_fewer<A: Allocator + Copy>(text: &mut Vec<u8, A>, rows: usize) -> Result<(), AllocError> {
    let rows = decimal(rows as u64);
    append(text, &[b"the screen has only ", rows.as_slice(), b" rows"])
}

// Reports the first row of the screen that is not the expected one.
fn report_rows<A: Allocator + Copy>(
    text: &mut Vec<u8, A>,
    lines: &[NumberedLine],
    shown: &[&[u8]],
) -> Result<(), AllocError> {
    match first_different_row(RowKind::Characters, lines, shown) {
        Some((number, wanted, row)) => report_row(text, number, wanted, row),
        None => put_fewer(text, shown.len()),
    }
}

// Reports that the screen has only this many rows with attributes, although another one is expected.
fn put_fewer_marks<A: Allocator + Copy>(
    text: &mut Vec<u8, A>,
    rows: usize,
) -> Result<(), AllocError> {
    let rows = decimal(rows as u64);
    append(
        text,
        &[b"attr: only ", rows.as_slice(), b" rows have attributes"],
    )
}

// Returns the marks of a row without the normal ones at its end, but at least so many marks.
fn without_normal(marks: &[u8], least: usize) -> &[u8] {
    let mut end = least;
    for (index, mark) in marks.iter().enumerate() {
        if *mark != b'.' {
            end = end.max(index.saturating_add(1));
        }
    }
    &marks[..end.min(marks.len())]
}

// Reports the first row of attributes that is not the expected one.
fn report_attribute_rows<A: Allocator + Copy>(
    text: &mut Vec<u8, A>,
    lines: &[NumberedLine],
    rows: Rows<'_>,
) -> Result<(), AllocError> {
    let Some((number, wanted, marks)) = first_different_row(RowKind::Attributes, lines, rows.marks)
    else {
        return put_fewer_marks(text, rows.marks.len());
    };
    let first = rows.texts.len().saturating_sub(rows.marks.len());
    report_number(text, first.saturating_add(number))?;
    append(text, &[b": expected the attributes \"", wanted])?;
    append(
        text,
        &[
            b"\", found \"",
            without_normal(marks, wanted.len()),
            b"\"",
            MARKS,
        ],
    )
}

// Reports a row of the screen that is not the expected one.
fn report_row<A: Allocator + Copy>(
    text: &mut Vec<u8, A>,
    number: usize,
    wanted: &[u8],
    row: &[u8],
) -> Result<(), AllocError> {
    let number = decimal(number as u64);
    append(
        text,
        &[
            b"screen row ",
            number.as_slice(),
            b": expected \"",
            trimmed(wanted),
            b"\", found \"",
            trimmed(row),
            b"\"",
        ],
    )
}

// Reports the row with a given number, which is not the expected one.
fn report_row_at<A: Allocator + Copy>(
    text: &mut Vec<u8, A>,
    number: u16,
    wanted: &[u8],
    shown: &[&[u8]],
) -> Result<(), AllocError> {
    match shown.get(usize::from(number)) {
        Some(row) => report_row(text, usize::from(number), wanted, *row),
        None => put_fewer(text, shown.len()),
    }
}

// Returns the name of an attribute.
fn name_of(attribute: Attribute) -> &'static [u8] {
    match attribute {
        Attribute::Normal => b"normal",
        Attribute::Inverse => b"inverse",
        Attribute::Flashing => b"flashing",
    }
}

// Returns where a text contains a part first.
fn position_of(text: &[u8], part: &[u8]) -> Option<usize> {
    for index in 0..text.len() {
        if text[index..].starts_with(part) {
            return Some(index);
        }
    }
    None
}

// Returns the marks of a part of a row, if the row contains the part and has marks.
fn marks_of_part<'a>(number: u16, part: &[u8], rows: Rows<'a>) -> Option<&'a [u8]> {
    let text = rows.texts.get(usize::from(number))?;
    let marks = rows.marks_at(number)?;
    let at = position_of(*text, part)?;
    Some(marks_for(marks.get(at..)?, part))
}

// Appends the number of a row.
fn report_number<A: Allocator + Copy>(
    text: &mut Vec<u8, A>,
    number: usize,
) -> Result<(), AllocError> {
    let number = decimal(number as u64);
    append(text, &[b"screen row ", number.as_slice()])
}

// Appends how characters are shown, and should be.
fn report_shown<A: Allocator + Copy>(
    text: &mut Vec<u8, A>,
    attribute: Attribute,
    marks: &[u8],
) -> Result<(), AllocError> {
    append(text, &[name_of(attribute), b", found "])?;
    append(text, &[marks, MARKS])
}

// Reports that only the attributes of a text in a row differ.
fn report_attributes<A: Allocator + Copy>(
    text: &mut Vec<u8, A>,
    number: u16,
    part: &[u8],
    attribute: Attribute,
    marks: &[u8],
) -> Result<(), AllocError> {
    report_number(text, usize::from(number))?;
    append(text, &[b": only the attributes of \""])?;
    append(text, &[part, b"\" differ: expected "])?;
    report_shown(text, attribute, marks)
}

// Reports a row that does not contain a text that is shown in a given way: other characters, or only other attributes.
fn report_styled<A: Allocator + Copy>(
    text: &mut Vec<u8, A>,
    number: u16,
    attribute: Attribute,
    part: &[u8],
    rows: Rows<'_>,
) -> Result<(), AllocError> {
    match marks_of_part(number, part, rows) {
        Some(marks) => report_attributes(text, number, part, attribute, marks),
        None => report_row_at(text, number, part, rows.texts),
    }
}

// Reports a row with a character that is not shown in a given way.
fn report_marks<A: Allocator + Copy>(
    text: &mut Vec<u8, A>,
    number: usize,
    attribute: Attribute,
    marks: &[u8],
) -> Result<(), AllocError> {
    report_number(text, number)?;
    append(text, &[b": expected all characters "])?;
    report_shown(text, attribute, marks)
}

// Reports the first row with a character that is not shown in a given way.
fn report_plain<A: Allocator + Copy>(
    text: &mut Vec<u8, A>,
    attribute: Attribute,
    rows: Rows<'_>,
) -> Result<(), AllocError> {
    let first = rows.texts.len().saturating_sub(rows.marks.len());
    for (index, marks) in rows.marks.iter().enumerate() {
        if !are_all(attribute, *marks) {
            return report_marks(text, first.saturating_add(index), attribute, *marks);
        }
    }
    Ok(())
}

// Appends two hexadecimal digits, or `no readable byte`.
fn report_byte<A: Allocator + Copy>(
    text: &mut Vec<u8, A>,
    byte: Option<u8>,
) -> Result<(), AllocError> {
    match byte {
        Some(byte) => append(text, &[&hex_pair(byte)]),
        None => append(text, &[b"no readable byte"]),
    }
}

// Reports the first byte of memory that is not the expected one.
fn report_memory<A: Allocator + Copy>(
    text: &mut Vec<u8, A>,
    place: &str,
    bytes: &[u8],
    ending: &Ending<A>,
) -> Result<(), AllocError> {
    let Some(address) = place_of(ending.program, place) else {
        return append(
            text,
            &[b"mem: ", place.as_bytes(), b" is not defined in the source"],
        );
    };
    let Some((at, wanted)) = first_different_byte(ending.machine, address, bytes) else {
        return Ok(());
    };
    append(
        text,
        &[b"mem $", &hex_word(at), b": expected ", wanted, b", found "],
    )?;
    report_byte(text, ending.machine.peek(at))
}

// Reports a register that does not have the value of a word.
fn report_register<A: Allocator + Copy>(
    text: &mut Vec<u8, A>,
    word: &[u8],
    ending: &Ending<A>,
) -> Result<(), AllocError> {
    append(text, &[b"reg: expected ", word, b", found "])?;
    report_byte(text, register_byte(ending.machine, name_in(word)))
}

// Reports the first register that does not have the expected value.
fn report_registers<A: Allocator + Copy>(
    alloc: A,
    text: &mut Vec<u8, A>,
    words: &[u8],
    ending: &Ending<A>,
) -> Result<(), AllocError> {
    let settings = tight(alloc, words)?;
    match first_different_register(ending.machine, settings.as_slice()) {
        Some(word) => report_register(text, word, ending),
        None => Ok(()),
    }
}

// Reports that a number is above the maximum.
fn report_maximum<A: Allocator + Copy>(
    text: &mut Vec<u8, A>,
    name: &[u8],
    most: u32,
    found: u64,
) -> Result<(), AllocError> {
    let most = decimal(u64::from(most));
    let found = decimal(found);
    append(
        text,
        &[
            name,
            b": expected at most ",
            most.as_slice(),
            b", found ",
            found.as_slice(),
        ],
    )
}

// Reports where a mnemonic is used, or that it is not used.
fn report_use<A: Allocator + Copy>(
    text: &mut Vec<u8, A>,
    mnemonic: Mnemonic,
    ending: &Ending<A>,
) -> Result<(), AllocError> {
    let name = mnemonic.name().as_bytes();
    match first_use_of(ending.program.statements(), mnemonic) {
        Some(statement) => {
            let line = decimal(u64::from(statement.line));
            append(text, &[b"uses ", name, b" in line ", line.as_slice()])
        }
        None => append(text, &[b"does not use ", name]),
    }
}

// Reports the difference.
fn report_difference<A: Allocator + Copy>(
    alloc: A,
    text: &mut Vec<u8, A>,
    lines: &[NumberedLine],
    ending: &Ending<A>,
) -> Result<(), AllocError> {
    let [asked, rest @ ..] = lines else {
        return Ok(());
    };
    match asked.line {
        Line::Screen => report_rows(text, rest, ending.rows),
        Line::Attributes => report_attribute_rows(text, rest, ending.screen()),
        Line::Shows(number, wanted) => report_row_at(text, number, wanted, ending.rows),
        Line::Holds(part) => append(text, &[b"no row of the screen contains \"", part, b"\""]),
        Line::Styled(number, attribute, part) => {
            report_styled(text, number, attribute, part, ending.screen())
        }
        Line::Plain(attribute) => report_plain(text, attribute, ending.screen()),
        Line::Mem(place, bytes) => report_memory(text, place, bytes, ending),
        Line::Reg(words) => report_registers(alloc, text, words, ending),
        Line::Stop(cause) => append(
            text,
            &[
                b"stop: expected ",
                cause.name(),
                b", found ",
                ending.cause.name(),
            ],
        ),
        Line::Cycles(most) => report_maximum(text, b"cycles", most, ending.machine.cycles()),
        Line::Bytes(most) => {
            let size = size_of(ending.program.statements()).min(u128::from(u64::MAX));
            report_maximum(text, b"bytes", most, size as u64)
        }
        Line::Uses(mnemonic) | Line::Avoids(mnemonic) => report_use(text, mnemonic, ending),
        _ => Ok(()),
    }
}

// Reports where a run ended that did not end by itself.
fn report_end<A: Allocator + Copy>(
    text: &mut Vec<u8, A>,
    ending: &Ending<A>,
) -> Result<(), AllocError> {
    if ending.cause.is_normal_end() {
        return Ok(());
    }
    let pc = ending.machine.regs().pc;
    append(text, &[b"; stopped by ", ending.cause.name()])?;
    match statement_at(ending.program.statements(), pc) {
        Some(statement) => {
            let line = decimal(u64::from(statement.line));
            append(text, &[b" in line ", line.as_slice()])?;
        }
        None => append(text, &[b" at $", &hex_word(pc)])?,
    }
    if ending.cause == Cause::Keys {
        return append(text, &[b"; it waits for a key: add a line keys or keys-at"]);
    }
    Ok(())
}

/// Returns the report on the first of these lines, which the end of a run does not meet.
pub(crate) fn miss_report<A: Allocator + Copy>(
    alloc: A,
    lines: &[NumberedLine],
    ending: &Ending<A>,
) -> Result<Vec<u8, A>, AllocError> {
    let mut text = Vec::new(alloc);
    report_difference(alloc, &mut text, lines, ending)?;
    report_end(&mut text, ending)?;
    Ok(text)
}
