//! Requests that set breakpoints.

use crate::marking::{Mark, MarkKind};
use a2_asm::{Program, Statement};
use a2_dap_messages::{Request, items_in, joined, number_in, text_in};
use a2_debugger::{Break, break_in, watchable};
use a2_symbols::{Span, instruction_on, place_of, span_of};
use a2_text::{after_blanks, decimal, hex_word, number_in as digits_in};
use serde_json::{Value, json};
use std::alloc::{AllocError, Global};

// The greatest numbers of breakpoints and of watched spans that a debugger has.
const MOST_MARKS: usize = 64;

const MOST_WATCHES: usize = 8;

/// The source of a run, for the editor.
#[derive(Clone, Copy)]
pub struct Place<'a> {
    pub program: &'a Program,
    /// The number of lines.
    pub lines: usize,
    /// The number of the first line for the editor.
    pub first_line: u64,
}

/// Where a breakpoint is to be.
#[derive(Clone, Copy)]
enum Wish {
    /// At an address, on the line with this number, from 1.
    At(u16, Option<u16>),
    /// Nowhere, for this reason.
    Nowhere(&'static str),
}

// Returns the answer for a breakpoint that is not set.
fn unset(alloc: Global, why: &str) -> Result<Value, AllocError> {
    json!(in alloc; {"verified": false, "message": why})
}

/// Returns the first instruction on a line or after it.
pub fn next_instruction(place: &Place<'_>, line: usize) -> Option<Statement> {
    for number in line..=place.lines {
        let found = instruction_on(place.program.statements(), number);
        if found.is_some() {
            return found;
        }
    }
    None
}

// Returns where a breakpoint on a line is to be.
fn line_wish(place: &Place<'_>, item: &Value) -> Wish {
    let Some(line) = number_in(item, "line") else {
        return Wish::Nowhere("a breakpoint needs a line");
    };
    let number = line.saturating_add(1).saturating_sub(place.first_line);
    match next_instruction(place, number.min(65_536) as usize) {
        Some(statement) => Wish::At(statement.addr, Some(statement.line)),
        None => Wish::Nowhere("there is no instruction on this line or after it"),
    }
}

// Returns where a breakpoint at a name is to be.
fn function_wish(place: &Place<'_>, item: &Value) -> Wish {
    let name = text_in(item, "name").unwrap_or("");
    match place_of(place.program, name.as_bytes()) {
        Some(address) => Wish::At(address, None),
        None => Wish::Nowhere("this is not a name of the source, a line or an address"),
    }
}

/// Returns the address that an editor writes as `0x6000`, `$6000` or `24576`.
pub fn reference_in(text: &str) -> Option<u16> {
    match text.as_bytes() {
        [b'$', digits @ ..] => digits_in(16, 4, digits),
        [b'0', b'x' | b'X', digits @ ..] => digits_in(16, 4, digits),
        digits => digits_in(10, 5, digits),
    }
}

/// Returns an address plus the offset of a request, which may be negative.
pub fn with_offset(address: u16, value: &Value) -> Option<u16> {
    let offset = match value.get("offset") {
        Some(offset) => offset.as_i64()?,
        None => 0,
    };
    u16::try_from(i64::from(address).checked_add(offset)?).ok()
}

// Returns where a breakpoint at an address is to be.
fn instruction_wish(item: &Value) -> Wish {
    let text = text_in(item, "instructionReference").unwrap_or("");
    match reference_in(text) {
        Some(address) => match with_offset(address, item) {
            Some(address) => Wish::At(address, None),
            None => Wish::Nowhere("this address is not between 0 and $FFFF"),
        },
        None => Wish::Nowhere("this is not an address such as 0x6000"),
    }
}

// Returns the breakpoint at an address with the condition of an item, or `None` if the condition is not valid.
fn break_of(
    alloc: Global,
    program: &Program,
    address: u16,
    item: &Value,
) -> Result<Option<Break>, AllocError> {
    let condition = text_in(item, "condition").unwrap_or("");
    let sign = if condition.is_empty() { "" } else { " if " };
    let text = joined(
        alloc,
        &[
            b"$",
            &hex_word(address),
            sign.as_bytes(),
            condition.as_bytes(),
        ],
    )?;
    Ok(break_in(program, text.as_str().as_bytes()))
}

// Returns the number of arrivals that an item needs, or `None` if it is not a number.
fn needed_in(item: &Value) -> Option<u64> {
    match text_in(item, "hitCondition") {
        None | Some("") => Some(0),
        Some(text) => Some(u64::from(digits_in(10, 5, after_blanks(text.as_bytes()))?)),
    }
}

// Returns the text that an item prints, if it has one.
fn log_in(alloc: Global, item: &Value) -> Result<Option<String>, AllocError> {
    match text_in(item, "logMessage") {
        None | Some("") => Ok(None),
        Some(text) => Ok(Some(String::from_str(alloc, text)?)),
    }
}

// Returns the answer for a breakpoint that is set.
fn verified(
    alloc: Global,
    place: &Place<'_>,
    mark: &Mark,
    line: Option<u16>,
    item: &Value,
) -> Result<Value, AllocError> {
    let reference = joined(alloc, &[b"0x", &hex_word(mark.place.address)])?;
    let mut answer = json!(in alloc; {
        "id": mark.id,
        "verified": true,
        "instructionReference": reference
    })?;
    let Some(line) = line else {
        return Ok(answer);
    };
    let shown = shown_line(place, line);
    if let Some(map) = answer.as_object_mut() {
        serde_json::put(map, alloc, "line", Value::from(shown))?;
        if number_in(item, "line") != Some(shown) {
            serde_json::put(map, alloc, "message", moved(alloc, shown)?)?;
        }
    }
    Ok(answer)
}

/// Returns the number of a line for the editor.
pub fn shown_line(place: &Place<'_>, line: u16) -> u64 {
    u64::from(line)
        .saturating_add(place.first_line)
        .saturating_sub(1)
}

// Returns the message that a breakpoint is on another line than the editor asked for.
fn moved(alloc: Global, line: u64) -> Result<Value, AllocError> {
    let number = decimal(line);
    let text = joined(
        alloc,
        &[
            b"moved to line ",
            number.as_slice(),
            b", the next with an instruction",
        ],
    )?;
    Ok(Value::String(text))
}

// The messages for a condition and a number of arrivals that are not valid, and for too many breakpoints.
const CONDITION_FORM: &str =
    "a condition needs three words, such as A = $40: A X Y S P or a place; = <> < >; a number";

const HITS_FORM: &str =
    "a hit count is a number up to 65535; the run stops at that arrival and each later one";

const TOO_MANY: &str = "not set: at most 64 breakpoints";

// Sets a breakpoint, and returns the answer for it.
fn set_mark(
    alloc: Global,
    place: &Place<'_>,
    marks: &mut Vec<Mark>,
    id: u64,
    kind: MarkKind,
    item: &Value,
) -> Result<Value, AllocError> {
    let wish = match kind {
        MarkKind::Line => line_wish(place, item),
        MarkKind::Function => function_wish(place, item),
        MarkKind::Instruction => instruction_wish(item),
    };
    let (address, line) = match wish {
        Wish::At(address, line) => (address, line),
        Wish::Nowhere(why) => return unset(alloc, why),
    };
    let Some(found) = break_of(alloc, place.program, address, item)? else {
        return unset(alloc, CONDITION_FORM);
    };
    let Some(needed) = needed_in(item) else {
        return unset(alloc, HITS_FORM);
    };
    if marks.len() >= MOST_MARKS {
        return unset(alloc, TOO_MANY);
    }
    let mark = Mark {
        id,
        kind,
        place: found,
        needed,
        hits: 0,
        log: log_in(alloc, item)?,
    };
    let answer = verified(alloc, place, &mark, line, item)?;
    marks.push(mark)?;
    Ok(answer)
}

/// Sets the breakpoints of a request in place of those of its kind. Returns the answer, and the next free number.
pub fn set_marks(
    alloc: Global,
    place: &Place<'_>,
    marks: &mut Vec<Mark>,
    first_id: u64,
    kind: MarkKind,
    request: &Request,
) -> Result<(Value, u64), AllocError> {
    marks.retain(|mark| mark.kind != kind);
    let mut id = first_id;
    let mut answers = Vec::new(alloc);
    for item in items_in(request.arguments(), "breakpoints") {
        answers.push(set_mark(alloc, place, marks, id, kind, item)?)?;
        id = id.saturating_add(1);
    }
    let answers = Value::Array(answers);
    Ok((json!(in alloc; {"breakpoints": answers})?, id))
}

/// Returns the answer that none of the breakpoints of a request can be set, for this reason.
pub fn refuse_marks(alloc: Global, request: &Request, why: &str) -> Result<Value, AllocError> {
    let mut answers = Vec::new(alloc);
    for _ in items_in(request.arguments(), "breakpoints") {
        answers.push(unset(alloc, why)?)?;
    }
    let answers = Value::Array(answers);
    json!(in alloc; {"breakpoints": answers})
}

// Returns the text of a span, such as `$6011..$6012`.
fn span_text(alloc: Global, span: Span) -> Result<String, AllocError> {
    joined(
        alloc,
        &[b"$", &hex_word(span.first), b"..$", &hex_word(span.last)],
    )
}

// Returns a span if it can be watched.
fn if_watchable(span: Span) -> Option<Span> {
    watchable(span)?;
    Some(span)
}

// Returns the bytes that a request names and that can be watched.
fn span_in(program: &Program, value: &Value) -> Option<Span> {
    let name = text_in(value, "name")?;
    let span = match span_of(program, name.as_bytes()) {
        Some(span) => span,
        None => {
            let address = reference_in(name)?;
            Span {
                first: address,
                last: address,
            }
        }
    };
    let more = number_in(value, "bytes").unwrap_or(1).clamp(1, 256) as u16 - 1;
    if_watchable(Span {
        first: span.first,
        last: span.last.saturating_add(more),
    })
}

/// Returns the answer to the question how bytes can be watched.
pub fn watch_info(
    alloc: Global,
    program: &Program,
    request: &Request,
) -> Result<Value, AllocError> {
    let Some(span) = span_in(program, request.arguments()) else {
        return json!(in alloc; {
            "dataId": null,
            "description": "only names and addresses of at most 256 bytes can be watched"
        });
    };
    let text = span_text(alloc, span)?;
    let id = text.as_str();
    json!(in alloc; {"dataId": id, "description": id, "accessTypes": ["write"]})
}

// Watches the bytes of an item, and returns the answer for it.
fn set_watch(
    alloc: Global,
    program: &Program,
    watches: &mut Vec<Span>,
    item: &Value,
) -> Result<Value, AllocError> {
    let text = text_in(item, "dataId").unwrap_or("");
    let Some(span) = span_of(program, text.as_bytes()).and_then(if_watchable) else {
        return unset(alloc, "these bytes cannot be watched");
    };
    if !matches!(text_in(item, "accessType"), None | Some("write")) {
        return unset(
            alloc,
            "only changes can be watched, which is the access type write",
        );
    }
    if watches.len() >= MOST_WATCHES {
        return unset(alloc, "not set: at most 8 data breakpoints");
    }
    watches.push(span)?;
    json!(in alloc; {"verified": true})
}

/// Watches the bytes of a request in place of all others, and returns the answer.
pub fn set_watches(
    alloc: Global,
    program: &Program,
    watches: &mut Vec<Span>,
    request: &Request,
) -> Result<Value, AllocError> {
    watches.clear();
    let mut answers = Vec::new(alloc);
    for item in items_in(request.arguments(), "breakpoints") {
        answers.push(set_watch(alloc, program, watches, item)?)?;
    }
    let answers = Value::Array(answers);
    json!(in alloc; {"breakpoints": answers})
}
