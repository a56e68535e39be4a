//! Writes what a source promises, and the verdicts, as one JSON object.

use crate::failure_report::{put_claim, put_entry_state};
use crate::line_checks::first_line_before;
use crate::line_words::{Piece, verb_in};
use crate::met_state::entry_state;
use crate::verdict::{Failure, PromiseVerdict};
use crate::wording::{put_input, put_number, put_signed};
use crate::written::{Event, Field, events_of};
use a2_asm::{Program, Statement};
use a2_opcode::Mode;
use a2_promise::{
    Atom, Changes, Clause, Expr, Function, Operation, Promise, Refusal, Text, Within, promise_in,
};
use a2_promise_certify::Input;
use a2_run::RunFault;
use a2_stream::{Output, ToWrite, WriteFault, put_all};
use a2_syntax::Source;
use a2_tests::NumberedLine;
use a2_text::json_escape;
use std::alloc::Global;

/// A promise of a program, and the verdict on it.
#[derive(Clone, Copy)]
pub(crate) struct Judged<'a> {
    pub alloc: Global,
    /// The lines of the source.
    pub lines: &'a [&'a [u8]],
    pub program: &'a Program<Global>,
    pub promise: &'a Promise<'a>,
    pub verdict: &'a PromiseVerdict,
}

// Writes a text as a string.
fn put_string<W: Output>(before: &[u8], text: &[u8], output: &mut W) -> Result<(), WriteFault> {
    put_all(&[before, b"\""], output)?;
    for byte in text {
        put_all(&[json_escape(*byte).as_slice()], output)?;
    }
    put_all(&[b"\""], output)
}

// Returns the text before an item of an array.
fn before(index: usize) -> &'static [u8] {
    if index == 0 { b"" } else { b"," }
}

// Writes bytes as an array of numbers.
fn put_bytes<W: Output>(bytes: &[u8], output: &mut W) -> Result<(), WriteFault> {
    put_all(&[b"["], output)?;
    for (index, byte) in bytes.iter().enumerate() {
        put_number(before(index), u64::from(*byte), b"", output)?;
    }
    put_all(&[b"]"], output)
}

// Returns the name of an addressing mode.
fn mode_name(mode: Mode) -> &'static str {
    match mode {
        Mode::Implied => "Implied",
        Mode::Accumulator => "Accumulator",
        Mode::Immediate => "Immediate",
        Mode::ZeroPage => "ZeroPage",
        Mode::ZeroPageX => "ZeroPageX",
        Mode::ZeroPageY => "ZeroPageY",
        Mode::Absolute => "Absolute",
        Mode::AbsoluteX => "AbsoluteX",
        Mode::AbsoluteY => "AbsoluteY",
        Mode::IndexedIndirect => "IndexedIndirect",
        Mode::IndirectIndexed => "IndirectIndexed",
        Mode::Indirect => "Indirect",
        Mode::Relative => "Relative",
    }
}

// Writes the label of a statement's line, if it has one.
fn put_label<W: Output>(
    source: &Source<Global>,
    line: u16,
    output: &mut W,
) -> Result<(), WriteFault> {
    let index = usize::from(line).saturating_sub(1);
    match source.lines().get(index) {
        Some(line) => match &line.label {
            Some(name) => put_string(b",\"label\":", name.get().as_bytes(), output),
            None => Ok(()),
        },
        None => Ok(()),
    }
}

// Writes a statement: its line and label, its address and bytes, and its instruction, if it is one.
fn put_statement<W: Output>(
    program: &Program<Global>,
    source: &Source<Global>,
    statement: &Statement,
    output: &mut W,
) -> Result<(), WriteFault> {
    put_number(b"{\"line\":", u64::from(statement.line), b"", output)?;
    put_label(source, statement.line, output)?;
    put_number(b",\"address\":", u64::from(statement.addr), b"", output)?;
    if let Some(instr) = statement.instr {
        put_string(b",\"mnemonic\":", instr.mnemonic.name().as_bytes(), output)?;
        put_string(b",\"mode\":", mode_name(instr.mode).as_bytes(), output)?;
        put_number(b",\"value\":", u64::from(instr.value), b"", output)?;
    }
    put_all(&[b",\"bytes\":["], output)?;
    for further in 0..statement.length {
        let address = statement.addr.wrapping_add(further);
        let byte = program.image().get(address).unwrap_or(0);
        put_number(before(usize::from(further)), u64::from(byte), b"", output)?;
    }
    put_all(&[b"]}"], output)
}

// Writes the names of a program with their values.
fn put_names<W: Output>(program: &Program<Global>, output: &mut W) -> Result<(), WriteFault> {
    let names = program.names();
    for index in 0..names.len() {
        let Some((name, value)) = names.get_index(index) else {
            return Ok(());
        };
        put_all(&[before(index)], output)?;
        put_string(b"[", name.as_str().as_bytes(), output)?;
        put_number(b",", u64::from(*value), b"]", output)?;
    }
    Ok(())
}

/// Writes the beginning of the object: the program's entry, names and statements.
pub(crate) fn put_program<W: Output>(
    program: &Program<Global>,
    source: &Source<Global>,
    output: &mut W,
) -> Result<(), WriteFault> {
    put_number(
        b"{\"entry\":",
        u64::from(program.entry()),
        b",\n\"names\":[",
        output,
    )?;
    put_names(program, output)?;
    put_all(&[b"],\n\"statements\":["], output)?;
    for (index, statement) in program.statements().iter().enumerate() {
        put_all(&[before(index), b"\n"], output)?;
        put_statement(program, source, statement, output)?;
    }
    put_all(&[b"],\n\"promises\":["], output)
}

// Returns the name of a register, flag or count.
fn atom_name(atom: Atom) -> &'static str {
    match atom {
        Atom::A => "A",
        Atom::X => "X",
        Atom::Y => "Y",
        Atom::S => "S",
        Atom::Carry => "Carry",
        Atom::Zero => "Zero",
        Atom::Negative => "Negative",
        Atom::Overflow => "Overflow",
        Atom::Decimal => "Decimal",
        Atom::Interrupt => "Interrupt",
        Atom::Cycles => "Cycles",
        Atom::Steps => "Steps",
    }
}

// Returns the name of a function.
fn function_name(function: Function) -> &'static str {
    match function {
        Function::Byte => "Byte",
        Function::Word => "Word",
        Function::Signed => "Signed",
        Function::Abs => "Abs",
    }
}

// Returns the name of an operation.
fn operation_name(operation: Operation) -> &'static str {
    match operation {
        Operation::Plus => "Plus",
        Operation::Minus => "Minus",
        Operation::Times => "Times",
        Operation::Over => "Over",
        Operation::Modulo => "Modulo",
        Operation::BitAnd => "BitAnd",
        Operation::BitOr => "BitOr",
        Operation::BitXor => "BitXor",
        Operation::Min => "Min",
        Operation::Max => "Max",
        Operation::Bit => "Bit",
        Operation::Equal => "Equal",
        Operation::Less => "Less",
        Operation::AtMost => "AtMost",
    }
}

// Writes this text, and then an expression as an array: the name of its form, and its parts.
fn put_expr<W: Output>(before: &[u8], expr: &Expr, output: &mut W) -> Result<(), WriteFault> {
    put_all(&[before], output)?;
    match expr {
        Expr::Number(number) => put_signed(b"[\"number\",", *number, output)?,
        Expr::Held(atom) => put_string(b"[\"held\",", atom_name(*atom).as_bytes(), output)?,
        Expr::Bound(name) => put_number(b"[\"bound\",", u64::from(*name), b"", output)?,
        Expr::Old(within) => put_expr(b"[\"old\",", within, output)?,
        Expr::At(address, within) => {
            put_number(b"[\"at\",", u64::from(*address), b"", output)?;
            put_expr(b",", within, output)?;
        }
        Expr::Of(function, of) => {
            put_string(b"[\"of\",", function_name(*function).as_bytes(), output)?;
            put_expr(b",", of, output)?;
        }
        Expr::Pair(operation, left, right) => {
            put_string(b"[\"pair\",", operation_name(*operation).as_bytes(), output)?;
            put_expr(b",", left, output)?;
            put_expr(b",", right, output)?;
        }
        Expr::Choice(by, yes, no) => {
            put_expr(b"[\"choice\",", by, output)?;
            put_expr(b",", yes, output)?;
            put_expr(b",", no, output)?;
        }
        Expr::Each(name, count, body) => {
            put_number(b"[\"each\",", u64::from(*name), b"", output)?;
            put_expr(b",", count, output)?;
            put_expr(b",", body, output)?;
        }
        Expr::Sum(name, count, body) => {
            put_number(b"[\"sum\",", u64::from(*name), b"", output)?;
            put_expr(b",", count, output)?;
            put_expr(b",", body, output)?;
        }
    }
    put_all(&[b"]"], output)
}

// Writes clauses as an array, each with its line, its text, and what it says.
fn put_clauses<W: Output>(
    name: &[u8],
    clauses: &[Clause],
    output: &mut W,
) -> Result<(), WriteFault> {
    put_all(&[name, b":["], output)?;
    for (index, clause) in clauses.iter().enumerate() {
        put_all(&[before(index)], output)?;
        put_number(b"\n {\"line\":", clause.line as u64, b"", output)?;
        put_string(b",\"text\":", clause.text, output)?;
        put_expr(b",\"says\":", &clause.expr, output)?;
        put_all(&[b"}"], output)?;
    }
    put_all(&[b"]"], output)
}

// Writes texts as an array, each with its line and its characters.
fn put_texts<W: Output>(name: &[u8], texts: &[Text], output: &mut W) -> Result<(), WriteFault> {
    put_all(&[name, b":["], output)?;
    for (index, text) in texts.iter().enumerate() {
        put_all(&[before(index)], output)?;
        put_number(b"{\"line\":", text.line as u64, b",\"characters\":", output)?;
        put_bytes(text.characters.as_slice(), output)?;
        put_all(&[b"}"], output)?;
    }
    put_all(&[b"]"], output)
}

// Returns the name of a register that may change, and otherwise an empty text.
fn listed(may_change: bool, name: &'static [u8]) -> &'static [u8] {
    if may_change { name } else { b"" }
}

// Writes the registers and the ranges of bytes that may change.
fn put_changes<W: Output>(changes: &Changes, output: &mut W) -> Result<(), WriteFault> {
    let (a, x, y) = (
        listed(changes.a, b"A"),
        listed(changes.x, b"X"),
        listed(changes.y, b"Y"),
    );
    put_all(&[b",\"registers\":\"", a, x, y, b"\",\"ranges\":["], output)?;
    for (index, range) in changes.ranges.iter().enumerate() {
        put_all(&[before(index)], output)?;
        put_number(b"[", u64::from(range.first), b",", output)?;
        put_number(b"", u64::from(range.last), b"]", output)?;
    }
    put_all(&[b"]"], output)
}

// Writes the clauses at a label within a routine.
fn put_within<W: Output>(within: &Within, output: &mut W) -> Result<(), WriteFault> {
    put_number(b"\n {\"line\":", within.line as u64, b"", output)?;
    put_number(b",\"address\":", u64::from(within.address), b"", output)?;
    put_clauses(b",\"invariants\"", within.invariants.as_slice(), output)?;
    put_clauses(b",\"decreases\"", within.measures.as_slice(), output)?;
    put_all(&[b"}"], output)
}

// Writes a word or number of a line as an array: its kind, and its text.
fn put_token<W: Output>(piece: Piece, output: &mut W) -> Result<(), WriteFault> {
    let (kind, text): (&[u8], &[u8]) = match piece {
        Piece::Word(word) => (b"[\"word\",", word),
        Piece::Decimal(digits) => (b"[\"decimal\",", digits),
        Piece::Place(digits) => (b"[\"place\",", digits),
        Piece::Quoted(_, text) => (b"[\"quoted\",", text),
        Piece::Sign(_, _) => (b"[\"sign\",", b""),
    };
    put_string(kind, text, output)?;
    put_all(&[b"]"], output)
}

// Writes a part of a form, after a comma.
fn put_field<W: Output>(field: Field, output: &mut W) -> Result<(), WriteFault> {
    match field {
        Field::None => Ok(()),
        Field::Token(piece) => {
            put_all(&[b","], output)?;
            put_token(piece, output)
        }
        Field::Number(number) => put_number(b",", number, b"", output),
        Field::Text(text) => put_string(b",", text, output),
        Field::Sign(sign) => put_string(b",", sign, output),
        Field::Atom(atom) => put_string(b",", atom_name(atom).as_bytes(), output),
    }
}

// Writes the forms of a line as arrays: the name of each, the number of expressions before it that belong to it, and its
// other parts.
fn put_events<W: Output>(events: &[Event], output: &mut W) -> Result<(), WriteFault> {
    for (index, event) in events.iter().enumerate() {
        put_all(&[before(index)], output)?;
        put_string(b"[", event.form, output)?;
        put_number(b",", event.count, b"", output)?;
        for field in [event.first, event.second, event.third, event.fourth] {
            put_field(field, output)?;
        }
        put_all(&[b"]"], output)?;
    }
    Ok(())
}

// Writes a line of a promise: its number, the text after its `;:`, its verb, and for `requires`, `ensures` and `changes`
// what it says as it is written.
fn put_written_line<W: Output>(
    judged: &Judged,
    number: usize,
    text: &[u8],
    output: &mut W,
) -> Result<(), RunFault> {
    let (verb, rest) = verb_in(text);
    put_number(b"\n {\"line\":", number as u64, b"", output)?;
    put_string(b",\"text\":", text, output)?;
    put_string(b",\"verb\":", verb, output)?;
    put_all(&[b",\"says\":["], output)?;
    let is_list = verb == b"changes".as_slice();
    if is_list || verb == b"requires".as_slice() || verb == b"ensures".as_slice() {
        let events = events_of(judged.alloc, judged.program, rest, is_list)?;
        put_events(events.as_slice(), output)?;
    }
    Ok(put_all(&[b"]}"], output)?)
}

// Writes the lines of a promise as they are written.
fn put_lines<W: Output>(judged: &Judged, output: &mut W) -> Result<(), RunFault> {
    let line = judged.promise.line;
    let mut count: usize = 0;
    put_all(&[b",\"lines\":["], output)?;
    for number in first_line_before(judged.lines, line)..line {
        if let Some(whole) = judged.lines.get(number.saturating_sub(1))
            && let Some(text) = promise_in(*whole)
        {
            put_all(&[before(count)], output)?;
            put_written_line(judged, number, text, output)?;
            count = count.saturating_add(1);
        }
    }
    Ok(put_all(&[b"]"], output)?)
}

// Writes a promise without its verdict.
fn put_promise<W: Output>(promise: &Promise, output: &mut W) -> Result<(), WriteFault> {
    put_string(b"{\"label\":", promise.name, output)?;
    put_number(b",\"line\":", promise.line as u64, b"", output)?;
    put_number(b",\"address\":", u64::from(promise.address), b"", output)?;
    put_clauses(b",\"requires\"", promise.wanted.as_slice(), output)?;
    put_clauses(b",\"ensures\"", promise.promised.as_slice(), output)?;
    put_changes(&promise.changes, output)?;
    put_texts(b",\"prints\"", promise.texts.prints.as_slice(), output)?;
    put_texts(b",\"takes\"", promise.texts.takes.as_slice(), output)?;
    put_all(&[b",\"within\":["], output)?;
    for (index, within) in promise.within.iter().enumerate() {
        put_all(&[before(index)], output)?;
        put_within(within, output)?;
    }
    put_all(&[b"]"], output)
}

// Writes an input and its value.
fn put_value<W: Output>(input: Input, value: u8, output: &mut W) -> Result<(), WriteFault> {
    match input {
        Input::Byte(address) => put_number(b"[", u64::from(address), b"", output)?,
        register => {
            put_input(b"[\"", register, output)?;
            put_all(&[b"\""], output)?;
        }
    }
    put_number(b",", u64::from(value), b"]", output)
}

// Writes a state: the registers and flags, and the bytes, that are these inputs, with their values.
fn put_state<W: Output>(
    name: &[u8],
    inputs: &[Input],
    values: &[u8],
    output: &mut W,
) -> Result<(), WriteFault> {
    put_all(&[b",\n ", name, b":["], output)?;
    for (index, input) in inputs.iter().enumerate() {
        put_all(&[before(index)], output)?;
        put_value(*input, values.get(index).copied().unwrap_or(0), output)?;
    }
    put_all(&[b"]"], output)
}

// Writes a state that meets what a promise requires, if one is found.
fn put_met<W: Output>(judged: &Judged, output: &mut W) -> Result<(), RunFault> {
    if let Some(state) = entry_state(judged.alloc, judged.program, judged.promise)? {
        put_state(
            b"\"met\"",
            state.inputs.as_slice(),
            state.values.as_slice(),
            output,
        )?;
    }
    Ok(())
}

// Writes what fails, and the state in which it fails.
fn put_failure<W: Output>(
    judged: &Judged,
    failure: &Failure,
    output: &mut W,
) -> Result<(), RunFault> {
    let mut claim = Vec::new(judged.alloc);
    put_claim(judged.promise, failure, &mut ToWrite::new(&mut claim))?;
    put_string(b"\"fails\",\"says\":", claim.as_slice(), output)?;
    let mut entered = Vec::new(judged.alloc);
    put_entry_state(judged.program, failure, &mut ToWrite::new(&mut entered))?;
    put_string(b",\"entered\":", entered.as_slice(), output)?;
    let (inputs, values) = (failure.inputs.as_slice(), failure.values.as_slice());
    Ok(put_state(b"\"state\"", inputs, values, output)?)
}

// Writes the verdict on a promise.
fn put_judgement<W: Output>(judged: &Judged, output: &mut W) -> Result<(), RunFault> {
    match judged.verdict {
        PromiseVerdict::Held(held) => {
            let name: &[u8] = if held.is_everywhere {
                b"holds"
            } else {
                b"held"
            };
            put_string(b"", name, output)?;
            put_number(b",\"kept\":", held.kept, b"", output)?;
            Ok(put_number(b",\"tried\":", held.tried, b"", output)?)
        }
        PromiseVerdict::Fails(failure) => put_failure(judged, failure, output),
        PromiseVerdict::NoState(tried) => {
            Ok(put_number(b"\"no state\",\"tried\":", *tried, b"", output)?)
        }
    }
}

/// Writes a promise with the verdict on it, and a state that it allows, as the item with this index.
pub(crate) fn put_judged<W: Output>(
    index: usize,
    judged: &Judged,
    output: &mut W,
) -> Result<(), RunFault> {
    put_all(&[before(index), b"\n"], output)?;
    put_promise(judged.promise, output)?;
    put_lines(judged, output)?;
    put_all(&[b",\n \"verdict\":"], output)?;
    put_judgement(judged, output)?;
    put_met(judged, output)?;
    Ok(put_all(&[b"}"], output)?)
}

/// Writes the error in the lines before a label, as the item with this index.
pub(crate) fn put_error<W: Output>(
    index: usize,
    name: &[u8],
    refusal: &Refusal,
    output: &mut W,
) -> Result<(), WriteFault> {
    put_all(&[before(index), b"\n"], output)?;
    put_string(b"{\"label\":", name, output)?;
    put_number(b",\"error\":{\"line\":", refusal.line as u64, b"", output)?;
    put_number(b",\"column\":", refusal.column as u64, b"", output)?;
    put_string(b",\"says\":", refusal.says.as_bytes(), output)?;
    put_all(&[b"}}"], output)
}

/// Writes the end of the object: the lines about the text's own run, and the report on them, which is empty if there
/// are none.
pub(crate) fn put_end<W: Output>(
    run: &[NumberedLine],
    report: &[u8],
    output: &mut W,
) -> Result<(), WriteFault> {
    put_all(&[b"],\n\"run\":{\"lines\":["], output)?;
    for (index, line) in run.iter().enumerate() {
        put_number(before(index), line.number as u64, b"", output)?;
    }
    put_string(b"],\"says\":", report, output)?;
    put_all(&[b"}}\n"], output)
}
