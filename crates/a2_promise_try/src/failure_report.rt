//! Reports a state in which a promise does not hold.

use crate::broken::{Broken, Unmet};
use crate::exit::{Exit, TracedStep};
use crate::verdict::Failure;
use crate::wording::{
    put_address, put_input, put_line, put_named, put_number, put_signed, put_text,
};
use a2_asm::Program;
use a2_cpu::Regs;
use a2_hex::RAM_END;
use a2_promise::{Clause, Promise, Text};
use a2_promise_certify::Input;
use a2_stream::{Output, WriteFault, put_all};
use a2_text::{after_blanks, hex_pair, hex_word};
use std::alloc::Global;

// Returns the address to report for an exit, if it has one.
fn address_of(exit: Exit) -> Option<u16> {
    match exit {
        Exit::Elsewhere(to) | Exit::Above(to) => Some(to),
        Exit::Window(service) | Exit::Keys(service) => Some(service),
        Exit::Code(at) | Exit::Device(at) | Exit::Read(at) => Some(at),
        Exit::Returned | Exit::Stack | Exit::Brk | Exit::Decimal | Exit::Endless => None,
    }
}

// Returns the message for an exit: the text before its address and the text after it.
fn exit_message(exit: Exit) -> (&'static str, &'static str) {
    match exit {
        Exit::Returned => ("it returns", ""),
        Exit::Stack => (
            "it returns with a different S; it must pull as many bytes as it pushes",
            "",
        ),
        Exit::Elsewhere(_) => (
            "it goes to ",
            ", but no instruction of the source begins there; check that it ends with RTS",
        ),
        Exit::Above(_) => (
            "it goes to ",
            ", but no service begins there; services.md in the manual lists the services",
        ),
        Exit::Window(_) => (
            "the window, cursor or block position is invalid for the service at ",
            "; state what it needs in `requires`",
        ),
        Exit::Keys(_) => (
            "the service at ",
            " waits for a key, but no typed key is left; add one to `takes`",
        ),
        Exit::Code(_) => ("it would overwrite code at ", "; store to another address"),
        Exit::Device(_) => (
            "it would store at ",
            ", which is above RAM; such a routine cannot be tried",
        ),
        Exit::Read(_) => (
            "it would read ",
            ", which is above RAM; only the keyboard can be read there, with a `takes` line",
        ),
        Exit::Brk => (
            "it reaches BRK, which does not return to the caller; use RTS",
            "",
        ),
        Exit::Decimal => (
            "it reaches ADC or SBC with D set; clear D with CLD first",
            "",
        ),
        Exit::Endless => (
            "it does not return within 1,000,000 steps; check that its loops end",
            "",
        ),
    }
}

// Writes how a routine leaves.
fn put_exit<W: Output>(exit: Exit, output: &mut W) -> Result<(), WriteFault> {
    let (before, following) = exit_message(exit);
    match address_of(exit) {
        Some(address) => put_address(before.as_bytes(), address, output)?,
        None => put_all(&[before.as_bytes()], output)?,
    }
    put_all(&[following.as_bytes()], output)
}

// Writes what has changed but must not.
fn put_change<W: Output>(
    input: Input,
    before: u8,
    following: u8,
    output: &mut W,
) -> Result<(), WriteFault> {
    put_input(b"", input, output)?;
    put_number(b" changed from ", u64::from(before), b" to ", output)?;
    let words = b" but is not listed in `changes`";
    put_number(b"", u64::from(following), words, output)
}

// Writes the values of the comparison that decides.
fn put_sides<W: Output>(sides: Option<(i64, i64)>, output: &mut W) -> Result<(), WriteFault> {
    let Some((left, right)) = sides else {
        return Ok(());
    };
    put_signed(b"  the two sides are ", left, output)?;
    put_signed(b" and ", right, output)?;
    put_all(&[b"\n"], output)
}

// Returns the text of the clause in a line, if it is among these clauses.
fn text_in<'a>(clauses: &[Clause<'a>], line: usize) -> Option<&'a [u8]> {
    for clause in clauses {
        if clause.line == line {
            return Some(clause.text);
        }
    }
    None
}

// Returns the text of a promise's line.
fn said_at<'a>(promise: &Promise<'a>, line: usize) -> &'a [u8] {
    if let Some(text) = text_in(promise.promised.as_slice(), line) {
        return text;
    }
    for within in &promise.within {
        if let Some(text) = text_in(within.invariants.as_slice(), line) {
            return text;
        }
        if let Some(text) = text_in(within.measures.as_slice(), line) {
            return text;
        }
    }
    b""
}

// Writes on one line which clause is not met.
fn put_line_claim<W: Output>(
    promise: &Promise,
    line: usize,
    unmet: Unmet,
    output: &mut W,
) -> Result<(), WriteFault> {
    let text = said_at(promise, line);
    if let Unmet::NoValue = unmet {
        put_number(b"line ", line as u64, b" has no value: ", output)?;
        return put_all(&[text], output);
    }
    put_line(line, text, output)
}

// Writes on one line which text is not printed.
fn put_text_claim<W: Output>(
    texts: &[Text],
    index: usize,
    output: &mut W,
) -> Result<(), WriteFault> {
    let Some(text) = texts.get(index) else {
        return Ok(());
    };
    put_number(b"line ", text.line as u64, b": prints ", output)?;
    put_all(&[text.written], output)
}

// Writes on one line, without a line end, the part of a promise that is not kept.
fn put_unkept<W: Output>(
    promise: &Promise,
    failure: &Failure,
    output: &mut W,
) -> Result<(), WriteFault> {
    match failure.broken {
        Broken::Left(exit) => put_exit(exit, output),
        Broken::Line(line, unmet) => put_line_claim(promise, line, unmet, output),
        Broken::Prints(index) => put_text_claim(promise.texts.prints.as_slice(), index, output),
        Broken::Keys => {
            put_all(
                &[b"it does not take all typed keys; these are left: "],
                output,
            )?;
            put_text(failure.told.as_slice(), output)
        }
        Broken::Register(register, before, following) => {
            put_change(register, before, following, output)
        }
        Broken::Byte(address, before, following) => {
            put_change(Input::Byte(address), before, following, output)
        }
    }
}

/// Writes on one line, without a line end, `FAILS: ` and the part of a promise that is not kept.
pub(crate) fn put_claim<W: Output>(
    promise: &Promise,
    failure: &Failure,
    output: &mut W,
) -> Result<(), WriteFault> {
    put_all(&[b"FAILS: "], output)?;
    put_unkept(promise, failure, output)
}

// Writes why a clause is not met, on a line of its own.
fn put_reason<W: Output>(unmet: Unmet, output: &mut W) -> Result<(), WriteFault> {
    match unmet {
        Unmet::NoValue => Ok(()),
        Unmet::Fact(sides) => put_sides(sides, output),
        Unmet::BelowZero(number) => {
            put_signed(b"  it is below 0: ", number, output)?;
            put_all(&[b"\n"], output)
        }
        Unmet::NotLess(before, number) => {
            put_signed(b"  it does not decrease: it was ", before, output)?;
            put_signed(b" and is now ", number, output)?;
            put_all(&[b"\n"], output)
        }
    }
}

// Writes the lines below a claim that give details.
fn put_details<W: Output>(failure: &Failure, output: &mut W) -> Result<(), WriteFault> {
    match failure.broken {
        Broken::Line(_, unmet) => put_reason(unmet, output),
        Broken::Prints(_) => {
            put_all(&[b"  it printed "], output)?;
            put_text(failure.told.as_slice(), output)?;
            put_all(&[b"\n"], output)
        }
        Broken::Left(_) | Broken::Keys | Broken::Register(_, _, _) | Broken::Byte(_, _, _) => {
            Ok(())
        }
    }
}

// Returns how many bytes in a row, from an address on, begin these inputs and have this value.
fn alike_from(inputs: &[Input], values: &[u8], first: u16, value: u8) -> usize {
    for (count, (input, byte)) in inputs.iter().zip(values).enumerate() {
        match *input {
            Input::Byte(address)
                if usize::from(address) == usize::from(first).saturating_add(count)
                    && *byte == value => {}
            _ => return count,
        }
    }
    inputs.len()
}

// From how many bytes in a row a range is written.
const LEAST_RANGE: usize = 3;

// Writes the first of these inputs, or the bytes in a row that begin with it, and their value. Returns how many inputs
// are written.
fn put_first<W: Output>(
    program: &Program<Global>,
    inputs: &[Input],
    values: &[u8],
    output: &mut W,
) -> Result<usize, WriteFault> {
    let ([input, ..], [value, ..]) = (inputs, values) else {
        return Ok(1);
    };
    let count = match *input {
        Input::Byte(first) => alike_from(inputs, values, first, *value),
        _ => 1,
    };
    match *input {
        Input::Byte(first) if count >= LEAST_RANGE => {
            let further = (count.saturating_sub(1) % 65536) as u16;
            put_address(b" ", first, output)?;
            put_address(b"..", first.wrapping_add(further), output)?;
        }
        one => put_named(program, b" ", one, output)?,
    }
    put_number(b"=", u64::from(*value), b"", output)?;
    Ok(if count >= LEAST_RANGE { count } else { 1 })
}

/// Writes on one line, without a line end, the state in which a routine is entered: all that its promise names or its
/// routine reads, the bytes that an unmet clause reads, and any other register or flag that is not 0.
pub(crate) fn put_entry_state<W: Output>(
    program: &Program<Global>,
    failure: &Failure,
    output: &mut W,
) -> Result<(), WriteFault> {
    let mut written: usize = 0;
    let mut is_any = false;
    put_all(&[b"it starts with"], output)?;
    for (index, input) in failure.inputs.iter().enumerate() {
        let inputs = failure.inputs.as_slice().get(index..).unwrap_or(&[]);
        let values = failure.values.as_slice().get(index..).unwrap_or(&[]);
        let is_read = index < failure.looked || matches!(input, Input::Byte(_));
        if index >= written && (is_read || matches!(values, [1..=255, ..])) {
            let count = put_first(program, inputs, values, output)?;
            written = index.saturating_add(count);
            is_any = true;
        }
    }
    let rest: &[u8] = if is_any {
        b", and 0 in all other registers and flags"
    } else {
        b" 0 in all registers and flags"
    };
    put_all(&[rest], output)
}

/// Returns the number of the line with the instruction at an address, or 0 if there is none.
pub(crate) fn line_at(program: &Program<Global>, address: u16) -> usize {
    for statement in program.statements() {
        if statement.addr == address && statement.instr.is_some() {
            return usize::from(statement.line);
        }
    }
    0
}

// Returns the text of a line by its number, without leading spaces.
fn text_of<'a>(lines: &[&'a [u8]], number: usize) -> &'a [u8] {
    match lines.get(number.saturating_sub(1)) {
        Some(line) => after_blanks(*line),
        None => b"",
    }
}

// Writes the registers and the carry.
fn put_registers<W: Output>(regs: Regs, output: &mut W) -> Result<(), WriteFault> {
    let (a, x, y) = (hex_pair(regs.a), hex_pair(regs.x), hex_pair(regs.y));
    put_all(&[b"  A=", &a, b" X=", &x, b" Y=", &y], output)?;
    let carry: &[u8] = if regs.p.carry() { b" C=1  " } else { b" C=0  " };
    put_all(&[carry], output)
}

// Writes a step: the registers after it, the number of its line, and the line's text.
fn put_step<W: Output>(
    program: &Program<Global>,
    lines: &[&[u8]],
    step: &TracedStep,
    output: &mut W,
) -> Result<(), WriteFault> {
    put_registers(step.regs, output)?;
    if step.address >= RAM_END {
        return put_all(
            &[b"the service at $", &hex_word(step.address), b"\n"],
            output,
        );
    }
    let number = line_at(program, step.address);
    put_line(number, text_of(lines, number), output)?;
    put_all(&[b"\n"], output)
}

/// Writes the report of a state in which a promise does not hold, after `FAILS: `, for a source with these lines.
pub(crate) fn put_failure<W: Output>(
    program: &Program<Global>,
    lines: &[&[u8]],
    promise: &Promise,
    failure: &Failure,
    output: &mut W,
) -> Result<(), WriteFault> {
    put_unkept(promise, failure, output)?;
    put_all(&[b"\n"], output)?;
    put_details(failure, output)?;
    put_all(&[b"  "], output)?;
    put_entry_state(program, failure, output)?;
    put_all(&[b"\n  the last steps:\n"], output)?;
    for step in &failure.last {
        put_step(program, lines, step, output)?;
    }
    Ok(())
}
