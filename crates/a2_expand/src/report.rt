//! The messages of faults.

ghost use Rattle.std.specs.Prelude.{◌≡◌, IfOk};

use crate::fault::{ExpandFault, Problem};
use crate::larger::{is_run_byte, parted, quote_after};
use crate::limits::{MOST_LINE_BYTES, limit_of};
use a2_text::{after_blanks, cut, decimal, front_len};
use std::alloc::{AllocError, Allocator};

/// The text in which a fault is: the name of the file, and its source.
#[derive(Clone, Copy)]
pub struct FaultText<'a> {
    pub name: &'a [u8],
    pub source: &'a [u8],
}

// Returns what is wrong with an expression or a label; `@` is where the wrong word goes, and `#` where the limit goes.
fn expression_message(problem: Problem) -> &'static [u8] {
    match problem {
        Problem::Label => b"`@` is not a local label",
        Problem::NeedsLabel => b"`@` needs a name in column 1",
        Problem::TakesNoLabel => b"a label is not allowed here",
        Problem::NeedsOperand => b"the operation needs an operand",
        Problem::Expression => b"`@` is not allowed in this expression",
        Problem::Incomplete => b"the expression is not complete",
        Problem::Bracket => b"a parenthesis has no partner",
        Problem::UnknownValue => b"the value of `@` is not known in this line",
        Problem::AddressHere => b"the address of the line is not known yet",
        Problem::LocalAddress => b"the address of `@` is not known yet",
        Problem::DivisionByZero => b"the expression divides by 0",
        Problem::Overflow => b"a value of the expression is too large",
        Problem::Range => b"the value of the expression does not fit here",
        Problem::ByteRange => b"the value is not a byte",
        Problem::Count => b"`@` is not a count from 0 to 65535",
        Problem::Text => b"`@` is not a text in quotes",
        Problem::Character => b"`@` cannot be shown in inverse or flashing",
        _ => b"",
    }
}

// Returns what is wrong with labels, blocks, macros and files.
fn block_message(problem: Problem) -> &'static [u8] {
    match problem {
        Problem::UnknownLocal => b"`@` is not defined here",
        Problem::LocalTwice => b"`@` is defined twice below the same label",
        Problem::NoAnonymous => b"there is no anonymous label for `@`",
        Problem::NoFreeName => b"there is no free name for `@`",
        Problem::Unclosed => b"the block is not closed",
        Problem::Unopened => b"the line closes a block that is not open",
        Problem::AfterElse => b"ELSE was already the last branch of this IF",
        Problem::MacroName => b"`@` cannot be the name of a macro",
        Problem::MacroTwice => b"the macro `@` is defined twice",
        Problem::Parameter => b"`@` cannot be a parameter",
        Problem::ParameterTwice => b"the macro has two parameters `@`",
        Problem::Counter => b"`@` cannot be the counter of REPEAT",
        Problem::NestedMacro => b"a macro cannot be defined in a macro or in REPEAT",
        Problem::ManyArguments => b"the macro has no parameter for `@`",
        Problem::FewArguments => b"the parameter `@` has no value",
        Problem::Depth => b"macros, REPEAT and files are nested more than # deep",
        Problem::FileName => b"`@` is not the name of a file in quotes",
        Problem::OutsideFolder => b"the file `@` is outside the folder of the source",
        Problem::NeedsFile => b"the file `@` cannot be read",
        Problem::Circle => b"the file @ includes itself",
        Problem::Assertion => b"the ASSERT failed: @",
        Problem::Asked => b"@",
        Problem::InTable => b"this line is not allowed in ENUM or STRUCT",
        _ => b"",
    }
}

// Returns what is wrong with the size of an expansion.
fn size_message(problem: Problem) -> &'static [u8] {
    match problem {
        Problem::ManyLines => b"the expansion has more than # lines",
        Problem::ManyBytes => b"the expansion has more than # bytes",
        Problem::ManyNames => b"the expansion has more than # local labels",
        Problem::LongSource => b"the line has more than # bytes",
        Problem::GrownLine => b"the text for `@` makes this line longer than # bytes",
        Problem::LongLine => b"this line becomes a line of more than # bytes",
        Problem::ManySteps => b"the expansion reads more than # lines",
        Problem::ManyFiles => b"the source includes more than # files",
        Problem::Remains => b"a line of the expansion is not in the plain language",
        _ => b"out of memory",
    }
}

// What is wrong with a register in a condition.
const REGISTER_IN_IF: &[u8] =
    b"`@` is a register, but IF decides while the text is assembled, not while the program runs";

// Returns what is wrong.
fn message(problem: Problem) -> &'static [u8] {
    let expression = expression_message(problem);
    if !expression.is_empty() {
        return expression;
    }
    let block = block_message(problem);
    if !block.is_empty() {
        return block;
    }
    size_message(problem)
}

// Returns how to fix an expression or a label.
fn expression_fix(problem: Problem) -> &'static [u8] {
    match problem {
        Problem::Label => b"write a dot, then letters, digits or _",
        Problem::NeedsLabel => b"write a name in column 1",
        Problem::TakesNoLabel => b"remove the label",
        Problem::NeedsOperand => b"write an operand",
        Problem::Expression => b"write numbers and names with an operator between them",
        Problem::Incomplete => b"write a number or a name at its end",
        Problem::Bracket => b"write ( and ) in pairs",
        Problem::UnknownValue =>
            b"define it above with EQU and a number; use only + and - with an address",
        Problem::AddressHere | Problem::LocalAddress => b"use only + and - with an address",
        Problem::DivisionByZero => b"divide by another number",
        Problem::Overflow => b"use smaller numbers",
        Problem::Range => b"write a value from -32768 to 65535, or a byte from -128 to 255",
        Problem::ByteRange => b"write a value from -128 to 255",
        Problem::Count => b"write a number from 0 to 65535",
        Problem::Text => b"write one or more characters in quotes",
        Problem::Character => b"use capitals, digits and signs",
        _ => b"",
    }
}

// Returns how to fix labels, blocks, macros and files.
fn block_fix(problem: Problem) -> &'static [u8] {
    match problem {
        Problem::UnknownLocal =>
            b"a local label belongs to the label above it, its PROC or its macro",
        Problem::LocalTwice => b"use another name, or an anonymous label",
        Problem::NoAnonymous => b"write : in column 1 of the line that is meant",
        Problem::NoFreeName => b"use a shorter name",
        Problem::Unclosed =>
            b"close it with ENDIF, ENDREPEAT, ENDMACRO, ENDPROC, ENDENUM or ENDSTRUCT",
        Problem::Unopened => b"remove it, or open the block above",
        Problem::AfterElse => b"remove one of them",
        Problem::MacroName => b"use a name that is not an operation or an instruction",
        Problem::MacroTwice | Problem::ParameterTwice => b"use another name",
        Problem::Counter => b"write a name, as in REPEAT 8,I",
        Problem::Parameter => b"write a name, as in MACRO MOVE from,to=$300",
        Problem::NestedMacro => b"define it outside",
        Problem::ManyArguments => b"remove it, or add a parameter to the macro",
        Problem::FewArguments => b"write an argument for it, or give it a default as in to=$300",
        Problem::Depth => b"use IF to stop a macro that calls itself",
        Problem::FileName => b"write the name in quotes, as in INCLUDE \"io.s\"",
        Problem::OutsideFolder => b"copy the file into the folder",
        Problem::NeedsFile => b"check its name and its permissions",
        Problem::Circle => b"remove one of the two lines",
        Problem::InTable => b"write a name in column 1, and in STRUCT also DS and its size",
        _ => b"",
    }
}

// Returns how to fix the size of an expansion, or a condition that the author wrote.
fn size_fix(problem: Problem) -> &'static [u8] {
    match problem {
        Problem::ManyLines | Problem::ManyBytes =>
            b"repeat fewer lines, or call a subroutine in place of a macro",
        Problem::ManyNames => b"repeat fewer lines, or call a subroutine in place of a macro",
        Problem::LongSource | Problem::LongLine => b"write it as two lines",
        Problem::GrownLine =>
            b"pass on a shorter text; a macro that calls itself must not pass a parameter on twice",
        Problem::ManyFiles => b"join some of them",
        Problem::ManySteps => b"repeat less, or use IF to stop a macro that calls itself",
        Problem::Remains => b"write the line in another way",
        Problem::Assertion => b"correct the source, or the ASSERT",
        Problem::Asked => b"the source itself reports this error, with ERROR",
        _ => b"free some memory",
    }
}

// Returns how to fix it.
fn fix(problem: Problem) -> &'static [u8] {
    let expression = expression_fix(problem);
    if !expression.is_empty() {
        return expression;
    }
    let block = block_fix(problem);
    if !block.is_empty() {
        return block;
    }
    size_fix(problem)
}

// Appends bytes as shown characters: a tab as a blank, and another byte that cannot be printed as `?`.
fn put_shown<A: Allocator>(out: &mut Vec<u8, A>, text: &[u8]) -> Result<(), AllocError> {
    for c in text {
        let shown = match *c {
            b' '..=b'~' => *c,
            b'\t' => b' ',
            _ => b'?',
        };
        out.push(shown)?;
    }
    Ok(())
}

// Appends a sentence with a word in place of `@`, and a limit in place of `#`.
fn put_sentence<A: Allocator>(
    out: &mut Vec<u8, A>,
    sentence: &[u8],
    fault: &ExpandFault,
) -> Result<(), AllocError> {
    for c in sentence {
        match *c {
            b'@' => put_shown(out, fault.word.as_slice())?,
            b'#' => out.extend_from_slice(decimal(limit_of(fault.problem) as u64).as_slice())?,
            c => out.push(c)?,
        }
    }
    Ok(())
}

// Whether a text begins with a word that ends there: no other byte of a name follows it.
fn begins_with_word(text: &[u8], word: &[u8]) -> bool {
    let Some(rest) = text.strip_prefix(word) else {
        return false;
    };
    match (word.last(), rest.first()) {
        (Some(end), Some(next)) => !is_run_byte(*end) || !is_run_byte(*next),
        _ => true,
    }
}

// Whether a word begins with a byte of a name.
fn begins_with_run(word: &[u8]) -> bool {
    match word.first() {
        Some(c) => is_run_byte(*c),
        None => false,
    }
}

// Returns the index where a word begins in a line: the whole word, and, unless `in_texts`, not inside a text in quotes.
fn word_in(line: &[u8], word: &[u8], in_texts: bool) -> Option<usize> {
    let mut rest = line;
    let mut quote = None;
    let mut last = b' ';
    for i in 0..line.len() {
        let continues = is_run_byte(last) && begins_with_run(word);
        let may_begin = (in_texts || quote.is_none()) && !continues;
        if may_begin && begins_with_word(rest, word) {
            return Some(i);
        }
        let (c, following) = rest.split_first()?;
        quote = quote_after(quote, *c);
        last = *c;
        rest = following;
    }
    None
}

// Returns the index of the first byte of a line that is not a blank.
fn first_in(line: &[u8]) -> usize {
    line.len().saturating_sub(line.trim_ascii_start().len())
}

// Returns the index where the word of a fault begins in its line. The word of a parameter is not in the line that lacks an argument.
fn place_in(line: &[u8], fault: &ExpandFault) -> usize {
    if let Some(column) = fault.column {
        return column.min(line.len());
    }
    let word = fault.word.as_slice();
    if word.is_empty() || fault.problem == Problem::FewArguments {
        return first_in(line);
    }
    let at = word_in(line, word, false).or(word_in(line, word, true));
    at.unwrap_or(first_in(line))
}

// Returns how many bytes are marked: those of the word, or the rest of the line.
fn marked_len(line: &[u8], word: &[u8], at: usize) -> usize {
    let (_, rest) = line.split_at(at.min(line.len()));
    if !word.is_empty() && rest.starts_with(word) {
        return word.len();
    }
    rest.trim_ascii_end().len().max(1)
}

// Whether the operation of a line is IF or ELSEIF.
fn is_decision(line: &[u8]) -> bool {
    let (_, rest) = parted(line);
    let (operation, _) = parted(after_blanks(rest));
    operation.eq_ignore_ascii_case(b"IF") || operation.eq_ignore_ascii_case(b"ELSEIF")
}

// Returns the instruction that compares a register with a value, up to the value, or nothing if a word is not a register.
fn comparison_of(word: &[u8]) -> &'static [u8] {
    match word {
        [b'A' | b'a'] => b"CMP #",
        [b'X' | b'x'] => b"CPX #",
        [b'Y' | b'y'] => b"CPY #",
        _ => b"",
    }
}

// Whether a byte can be part of a value that is written as one word.
fn is_value_byte(c: u8) -> bool {
    is_run_byte(c) || matches!(c, b'$' | b'%' | b'"' | b'\'')
}

// Returns the value with which a condition compares what ends at an index of its line, or 5 if the value is not a single word.
fn compared_with(line: &[u8], end: usize) -> &[u8] {
    let (_, rest) = line.split_at(end.min(line.len()));
    let rest = after_blanks(rest);
    let signs = front_len(rest, |c| matches!(c, b'=' | b'<' | b'>'));
    let (_, value) = rest.split_at(signs.min(rest.len()));
    let (value, _) = value.split_at(front_len(value, |c| c != b';').min(value.len()));
    let value = value.trim_ascii();
    if signs == 0 || value.is_empty() || front_len(value, |c| is_value_byte(c)) < value.len() {
        return b"5";
    }
    value
}

// Whether a fault is that a condition needs the value of a register, which only the run has.
fn is_about_register(line: &[u8], fault: &ExpandFault) -> bool {
    fault.problem == Problem::UnknownValue
        && is_decision(line)
        && !comparison_of(fault.word.as_slice()).is_empty()
}

// Whether a fault is that a label ends with a colon, which is read as an anonymous label.
fn is_about_colon(line: &[u8], fault: &ExpandFault) -> bool {
    let (label, _) = parted(line);
    fault.problem == Problem::NoAnonymous
        && fault.word.as_slice() == b":".as_slice()
        && label.ends_with(b":")
}

// Appends what is wrong.
fn put_message<A: Allocator>(
    out: &mut Vec<u8, A>,
    line: &[u8],
    fault: &ExpandFault,
) -> Result<(), AllocError> {
    if is_about_register(line, fault) {
        return put_sentence(out, REGISTER_IN_IF, fault);
    }
    if is_about_colon(line, fault) {
        return out.extend_from_slice(b"a label must not end with a colon");
    }
    put_sentence(out, message(fault.problem), fault)
}

// Appends how to fix a fault whose word begins at an index of its line.
fn put_fix<A: Allocator>(
    out: &mut Vec<u8, A>,
    line: &[u8],
    at: usize,
    fault: &ExpandFault,
) -> Result<(), AllocError> {
    if is_about_colon(line, fault) {
        return out.extend_from_slice(b"remove the colon");
    }
    if !is_about_register(line, fault) {
        return put_sentence(out, fix(fault.problem), fault);
    }
    let word = fault.word.as_slice();
    out.extend_from_slice(b"to test it while the program runs, write  ")?;
    out.extend_from_slice(comparison_of(word))?;
    put_shown(out, compared_with(line, at.saturating_add(word.len())))?;
    out.extend_from_slice(b", then a branch in the next line, such as  BNE SKIP")
}

/// A fault in words.
#[derive(Drop)]
pub struct FaultReport<A: Allocator> {
    /// The number of the line in its file, from 1.
    pub line: usize,
    /// The column in which the word begins that is wrong, from 1, and how many bytes it has.
    pub column: usize,
    pub width: usize,
    /// What is wrong.
    pub text: Vec<u8, A>,
    /// How to fix it.
    pub fix: Vec<u8, A>,
}

// Returns the line of a source that has this number.
fn line_of<'s, A: Allocator>(
    alloc: A,
    source: &'s [u8],
    number: usize,
) -> Result<&'s [u8], AllocError> {
    let lines = cut(alloc, source)?;
    match lines.get(number.saturating_sub(1)) {
        Some(line) => Ok(*line),
        None => Ok(b""),
    }
}

/// Returns the place of a fault in `source`, the text of the file in which it is, what is wrong, and how to fix it. Fails only if memory
/// runs out.
pub fn fault_report<A: Allocator + Copy>(
    alloc: A,
    source: &[u8],
    fault: &ExpandFault,
) -> Result<FaultReport<A>, AllocError>
    ensures line { IfOk result (λ report. report.line ≡ fault.now.at.line) }
{
    let line = line_of(alloc, source, fault.at.line)?;
    let at = place_in(line, fault);
    let mut text = Vec::new(alloc);
    put_message(&mut text, line, fault)?;
    let mut remedy = Vec::new(alloc);
    put_fix(&mut remedy, line, at, fault)?;
    Ok(FaultReport {
        line: fault.at.line,
        column: at.saturating_add(1),
        width: marked_len(line, fault.word.as_slice(), at),
        text,
        fix: remedy,
    })
}

// Appends a byte several times.
fn put_times<A: Allocator>(out: &mut Vec<u8, A>, c: u8, times: usize) -> Result<(), AllocError> {
    for _ in 0..times {
        out.extend_from_slice(&[c])?;
    }
    Ok(())
}

// Appends a number.
fn put_number<A: Allocator>(out: &mut Vec<u8, A>, number: usize) -> Result<(), AllocError> {
    out.extend_from_slice(decimal(number as u64).as_slice())
}

// Appends the line of a fault, and a mark below the word that is wrong. A line that is too long is not shown.
fn put_marked<A: Allocator>(
    out: &mut Vec<u8, A>,
    report: &FaultReport<A>,
    line: &[u8],
) -> Result<(), AllocError> {
    if line.len() > MOST_LINE_BYTES {
        return out.extend_from_slice(b"     = ");
    }
    let digits = decimal(report.line as u64).len();
    put_times(out, b' ', 4usize.saturating_sub(digits))?;
    put_number(out, report.line)?;
    out.extend_from_slice(b" | ")?;
    put_shown(out, line)?;
    out.extend_from_slice(b"\n     | ")?;
    put_times(out, b' ', report.column.saturating_sub(1))?;
    put_times(out, b'^', report.width)?;
    out.extend_from_slice(b" ")
}

// Appends where a fault is, and what is wrong.
fn put_head<A: Allocator>(
    out: &mut Vec<u8, A>,
    report: &FaultReport<A>,
    file: &[u8],
) -> Result<(), AllocError> {
    out.extend_from_slice(b"error: ")?;
    if !file.is_empty() {
        out.extend_from_slice(file)?;
        out.extend_from_slice(b": ")?;
    }
    out.extend_from_slice(b"line ")?;
    put_number(out, report.line)?;
    out.extend_from_slice(b", column ")?;
    put_number(out, report.column)?;
    out.extend_from_slice(b": ")?;
    out.extend_from_slice(report.text.as_slice())?;
    out.extend_from_slice(b"\n")
}

/// Returns the message of a fault: its place in its file, what is wrong, the line, and how to fix it.
pub fn fault_message<A: Allocator + Copy>(
    alloc: A,
    text: FaultText<'_>,
    fault: &ExpandFault,
) -> Result<Vec<u8, A>, AllocError> {
    let report = fault_report(alloc, text.source, fault)?;
    let line = line_of(alloc, text.source, fault.at.line)?;
    let file = if fault.at.file > 0 { text.name } else { b"" };
    let mut out = Vec::new(alloc);
    put_head(&mut out, &report, file)?;
    put_marked(&mut out, &report, line)?;
    out.extend_from_slice(report.fix.as_slice())?;
    out.extend_from_slice(b"\n")?;
    Ok(out)
}
