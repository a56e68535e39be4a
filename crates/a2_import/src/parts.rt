//! Splitting a line of an old text into its parts.

use crate::dialect::Dialect;
use crate::pieces::{Quotes, before, cut_at, quotes_of, span};
use crate::rules::{Action, action_of};
use a2_opcode::{Mnemonic, Mode, row_for};
use a2_text::{after_blanks, front_len, is_blank};

/// The parts of a line; a part that is missing is empty.
#[derive(Clone, Copy)]
pub(crate) struct Parts<'a> {
    /// The label, with the mark of a local label and without a colon after it.
    pub label: &'a [u8],
    pub operation: &'a [u8],
    /// What the operation means, if it is known.
    pub action: Option<Action>,
    pub operand: &'a [u8],
    /// The comment, with the `;` before it if it has one.
    pub comment: &'a [u8],
    /// Whether the operand is to be an address of two bytes, even if it is below 256.
    pub is_far: bool,
}

impl<'a> Parts<'a> {
    /// Returns whether the operation defines the name before it by a value.
    pub(crate) fn is_equate(&self) -> bool {
        matches!(self.action, Some(Action::Equate | Action::Variable))
    }
}

// The bytes that end a word: a blank, or the start of a comment.
const WORD_ENDS: &[u8] = b" \t;";

// Whether an instruction has this addressing mode.
fn has(operation: &[u8], mode: Mode) -> bool {
    match Mnemonic::named(operation) {
        Some(mnemonic) => row_for(mnemonic, mode).is_some(),
        None => false,
    }
}

// Whether a byte can be part of hexadecimal digits after a text.
fn is_digit_part(c: u8) -> bool {
    c.is_ascii_hexdigit() || c == b',' || c == b'$'
}

/// Returns the length of an operand of delimited texts with hexadecimal digits between them, and whether each text is closed.
pub(crate) fn texts_len(operand: &[u8]) -> (usize, bool) {
    let mut count: usize = 0;
    for _ in 0..operand.len() {
        let (_, rest) = cut_at(operand, count);
        let Some((mark, inner)) = rest.split_first() else {
            break;
        };
        if is_blank(*mark) || (*mark == b';' && count > 0) {
            break;
        }
        if is_digit_part(*mark) || (*mark == b'-' && count == 0) {
            count = count.saturating_add(1);
            continue;
        }
        let len = front_len(inner, |c| c != *mark);
        count = count.saturating_add(len).saturating_add(2);
        if len == inner.len() {
            return (operand.len(), false);
        }
    }
    (count.min(operand.len()), true)
}

// Whether the text after an operation, with this many blanks between them, is a comment.
fn is_comment(dialect: Dialect, operation: &[u8], gap: usize, there: &[u8]) -> bool {
    there.starts_with(b";")
        || has(operation, Mode::Implied)
        || dialect == Dialect::Sc && gap > 1 && has(operation, Mode::Accumulator)
}

// The length of the operand of an operation.
fn operand_len(action: Option<Action>, operation: &[u8], there: &[u8]) -> usize {
    match action {
        Some(
            Action::Text
            | Action::EndedText
            | Action::Counted
            | Action::LastTurned
            | Action::Reversed
            | Action::Shown(_),
        ) => {
            let (len, _) = texts_len(there);
            len
        }
        None if operation.is_empty() => 0,
        None | Some(Action::Call) => span(there, b" \t", Quotes::Long),
        Some(_) => span(there, WORD_ENDS, Quotes::Short),
    }
}

// The parts of a line in a dialect in which labels begin in column 1 and operands end before a blank.
fn in_columns(dialect: Dialect, line: &[u8]) -> Parts<'_> {
    let (label, rest) = match line {
        // Merlin ends a macro or repeated lines in column 1 too.
        [b'<', b'<', b'<', ..] | [b'-', b'-', b'^', ..] if dialect == Dialect::Merlin => (
            b"".as_slice(),
            line,
        ),
        _ => before(line, WORD_ENDS),
    };
    let (operation, rest) = before(after_blanks(rest), WORD_ENDS);
    let there = after_blanks(rest);
    let gap = rest.len().saturating_sub(there.len());
    let (operation, there, action) = match (dialect, operation) {
        // S-C calls a macro by `>NAME`.
        (Dialect::Sc, [b'>', name @ ..]) => (name, there, None),
        (Dialect::Merlin, [name @ .., b':']) if Mnemonic::named(name).is_some() => (
            name,
            there,
            action_of(dialect, name),
        ),
        _ => (operation, there, action_of(dialect, operation)),
    };
    let is_far = dialect == Dialect::Merlin && line.len() > 0 && is_forced(line, operation);
    let len = if is_comment(dialect, operation, gap, there) {
        0
    } else {
        operand_len(action, operation, there)
    };
    let (operand, comment) = cut_at(there, len);
    Parts {
        label,
        operation,
        action,
        operand,
        comment: comment.trim_ascii(),
        is_far,
    }
}

// Whether a colon follows the operation of a line, which makes its address long in Merlin.
fn is_forced(line: &[u8], operation: &[u8]) -> bool {
    let (_, rest) = before(line, WORD_ENDS);
    let (word, _) = before(after_blanks(rest), WORD_ENDS);
    word.ends_with(b":") && word.len() == operation.len().saturating_add(1)
}

// The number of bytes before the comment of a line.
fn code_len(dialect: Dialect, line: &[u8]) -> usize {
    let len = span(line, b";", quotes_of(dialect));
    if dialect != Dialect::Acme {
        return len;
    }
    let (code, _) = cut_at(line, len);
    let mut last = 0;
    for (i, c) in code.iter().enumerate() {
        if *c == b'/' && last == b'/' {
            return i.saturating_sub(1);
        }
        last = *c;
    }
    len
}

// The first word of a line and the text after it: it ends before a blank or `=`, and after `:`.
fn first_part(text: &[u8]) -> (&[u8], &[u8]) {
    let len = front_len(
        text,
        |c| !is_blank(c) && c != b'=' && c != b':' && c != b'(',
    );
    let (_, rest) = cut_at(text, len);
    match rest {
        [b':', b'=', ..] => cut_at(text, len),
        [b':', ..] => cut_at(text, len.saturating_add(1)),
        [b'=', ..] if len == 0 => cut_at(text, 1),
        _ => cut_at(text, len),
    }
}

// The operation at the beginning of a text, and its operand.
fn operation_in(text: &[u8]) -> (&[u8], &[u8]) {
    match text {
        [b'=', b'=', ..] => (b"", text),
        [b'=', ..] => cut_at(text, 1),
        [b':', b'=', ..] => cut_at(text, 2),
        _ => {
            let len = front_len(text, |c| !is_blank(c) && c != b'=' && c != b'(');
            cut_at(text, len)
        }
    }
}

// An operation without a suffix for the size of its address, and whether that makes it two bytes.
fn unsuffixed(dialect: Dialect, operation: &[u8]) -> (&[u8], bool) {
    let (name, suffix) = cut_at(operation, 3);
    if Mnemonic::named(name).is_none() {
        return (operation, false);
    }
    match (dialect, suffix) {
        (Dialect::Acme, b"+1") => (name, false),
        (Dialect::Acme, b"+2") => (name, true),
        (Dialect::Dasm, b".b" | b".z" | b".B" | b".Z" | b".zx" | b".bx") => (name, false),
        (Dialect::Dasm, b".w" | b".a" | b".W" | b".A" | b".wx" | b".ax") => (name, true),
        _ => (operation, false),
    }
}

// What an operation means, by its word without a suffix.
fn meaning_of(dialect: Dialect, operation: &[u8]) -> (&[u8], Option<Action>, bool) {
    let (name, is_far) = unsuffixed(dialect, operation);
    (name, action_of(dialect, name), is_far)
}

// Whether the first word of a line is a label although no colon follows it.
fn is_label(dialect: Dialect, line: &[u8], word: &[u8], rest: &[u8]) -> bool {
    let (next, _) = operation_in(rest);
    match meaning_of(dialect, next) {
        (_, Some(Action::Equate | Action::Variable), _) => return true,
        (_, Some(Action::Macro | Action::Scope | Action::Zone), _)
            if dialect == Dialect::Tass || dialect == Dialect::Dasm => return true,
        _ => {}
    }
    let (_, action, _) = meaning_of(dialect, word);
    let is_indented = match line.first() {
        Some(c) => is_blank(*c),
        None => false,
    };
    match dialect {
        Dialect::Dasm => !is_indented && !matches!(action, Some(Action::Nothing)),
        Dialect::Tass | Dialect::Acme => {
            action.is_none()
                && !word.starts_with(b"#")
                && !(word.starts_with(b"+")
                    && word.len() > 1
                    && front_len(word, |c| c == b'+') == 1)
                && !word.starts_with(b"!")
                && !word.starts_with(b"}")
                && (!is_indented || action_of(dialect, next).is_some())
        }
        _ => false,
    }
}

// The label of a line, and the text after it.
fn labelled<'a>(dialect: Dialect, line: &[u8], code: &'a [u8]) -> (&'a [u8], &'a [u8]) {
    let code = after_blanks(code);
    let (word, rest) = first_part(code);
    let there = after_blanks(rest);
    match word {
        [b'*'] if there.starts_with(b"=") => (b"", code),
        [b':'] => (word, there),
        [label @ .., b':'] => (label, there),
        [] => (b"", code),
        _ if is_label(dialect, line, word, there) => (word, there),
        _ => (b"", code),
    }
}

// The parts of a line in a dialect in which blanks may be in operands, and a comment begins with `;`.
fn with_blanks(dialect: Dialect, line: &[u8]) -> Parts<'_> {
    let (code, comment) = cut_at(line, code_len(dialect, line));
    let (label, there) = labelled(dialect, line, code);
    let (operation, action, operand, is_far) = match there {
        [b'*', rest @ ..] if after_blanks(rest).starts_with(b"=") => {
            let (_, operand) = cut_at(after_blanks(rest), 1);
            (there, Some(Action::Origin), operand, false)
        }
        [b'}', rest @ ..] => brace_parts(dialect, there, rest),
        _ => {
            let (operation, operand) = operation_in(there);
            let (name, action, is_far) = meaning_of(dialect, operation);
            (name, action, operand, is_far)
        }
    };
    Parts {
        label,
        operation,
        action,
        operand: operand.trim_ascii(),
        comment: comment.trim_ascii(),
        is_far,
    }
}

// The operation, its meaning and its operand, if a line begins with `}`.
fn brace_parts<'a>(
    dialect: Dialect,
    there: &'a [u8],
    rest: &'a [u8],
) -> (&'a [u8], Option<Action>, &'a [u8], bool) {
    let (word, following) = operation_in(after_blanks(rest));
    let action = if word.eq_ignore_ascii_case(b"else") {
        let (next, _) = operation_in(after_blanks(following));
        if next.eq_ignore_ascii_case(b"if") {
            Some(Action::ElseIf)
        } else {
            Some(Action::Else)
        }
    } else {
        action_of(dialect, b"}")
    };
    match action {
        Some(Action::ElseIf) => {
            let (_, operand) = operation_in(after_blanks(following));
            (there, action, operand, false)
        }
        _ => (there, action, following, false),
    }
}

/// Returns the parts of a line.
pub(crate) fn parts_of(dialect: Dialect, line: &[u8]) -> Parts<'_> {
    if dialect.is_old() {
        in_columns(dialect, line)
    } else {
        with_blanks(dialect, line)
    }
}
