//! The parts of a line.

use crate::larger::{is_run_byte, parted, quote_after};
use a2_text::{after_blanks, capital, front_len};
use arrayvec::ArrayVec;

/// The parts of a line; each may be empty.
#[derive(Clone, Copy)]
pub(crate) struct Parts<'a> {
    pub label: &'a [u8],
    pub operation: &'a [u8],
    pub operand: &'a [u8],
    pub comment: &'a [u8],
    /// How many bytes of the line are before the operand.
    pub operand_at: usize,
}

// Returns the number of bytes before the comment of a text.
fn comment_at(text: &[u8]) -> usize {
    let mut quote = None;
    for (i, c) in text.iter().enumerate() {
        if quote.is_none() && *c == b';' {
            return i;
        }
        quote = quote_after(quote, *c);
    }
    text.len()
}

/// Returns the parts of a line. A line that begins with `*` is a comment.
pub(crate) fn parts_of(line: &[u8]) -> Parts<'_> {
    if line.starts_with(b"*") {
        return Parts {
            label: b"",
            operation: b"",
            operand: b"",
            comment: line,
            operand_at: 0,
        };
    }
    let (label, rest) = parted(line);
    let (operation, rest) = parted(after_blanks(rest));
    let rest = after_blanks(rest);
    let (operand, comment) = rest.split_at(comment_at(rest).min(rest.len()));
    Parts {
        label,
        operation,
        operand: operand.trim_ascii_end(),
        comment,
        operand_at: line.len().saturating_sub(rest.len()),
    }
}

/// What an operation does here.
#[derive(Clone, Copy, PartialEq, Eq)]
pub(crate) enum Word {
    Nothing,
    Dfb,
    Dw,
    Ds,
    Asc,
    Equ,
    Org,
    Inv,
    Fls,
    Str,
    If,
    ElseIf,
    Else,
    EndIf,
    Macro,
    EndMacro,
    Repeat,
    EndRepeat,
    Proc,
    EndProc,
    Enum,
    EndEnum,
    Struct,
    EndStruct,
    Assert,
    Error,
    Warn,
    Include,
    Incbin,
    /// An instruction, a macro, or nothing that is known.
    Other,
}

// The word of these capitals, if it belongs to the plain language, to data or to messages.
fn simple_word(letters: &[u8]) -> Word {
    match letters {
        b"" => Word::Nothing,
        b"DFB" => Word::Dfb,
        b"DW" => Word::Dw,
        b"DS" => Word::Ds,
        b"ASC" => Word::Asc,
        b"EQU" => Word::Equ,
        b"ORG" => Word::Org,
        b"INV" => Word::Inv,
        b"FLS" => Word::Fls,
        b"STR" => Word::Str,
        b"ASSERT" => Word::Assert,
        b"ERROR" => Word::Error,
        b"WARN" => Word::Warn,
        b"INCLUDE" => Word::Include,
        b"INCBIN" => Word::Incbin,
        _ => Word::Other,
    }
}

// The word of these capitals, if it begins, divides or ends a block.
fn block_word(letters: &[u8]) -> Word {
    match letters {
        b"IF" => Word::If,
        b"ELSEIF" => Word::ElseIf,
        b"ELSE" => Word::Else,
        b"ENDIF" => Word::EndIf,
        b"MACRO" => Word::Macro,
        b"ENDMACRO" => Word::EndMacro,
        b"REPEAT" => Word::Repeat,
        b"ENDREPEAT" => Word::EndRepeat,
        b"PROC" => Word::Proc,
        b"ENDPROC" => Word::EndProc,
        b"ENUM" => Word::Enum,
        b"ENDENUM" => Word::EndEnum,
        b"STRUCT" => Word::Struct,
        b"ENDSTRUCT" => Word::EndStruct,
        _ => Word::Other,
    }
}

/// Whether a text can be a name: letters, digits and `_`, and not a digit first.
pub(crate) fn is_name(text: &[u8]) -> bool {
    match text {
        [b'0'..=b'9', ..] | [] => false,
        _ => front_len(text, |c| is_run_byte(c)) == text.len(),
    }
}

/// Returns what an operation does, in upper or lower case.
pub(crate) fn word_of(operation: &[u8]) -> Word {
    let mut letters: ArrayVec<u8, 12> = ArrayVec::new();
    for c in operation {
        if letters.is_full() {
            return Word::Other;
        }
        letters.push(capital(*c));
    }
    match simple_word(letters.as_slice()) {
        Word::Other => block_word(letters.as_slice()),
        word => word,
    }
}

// How many brackets are open after a byte.
fn depth_after(depth: u32, c: u8) -> u32 {
    match c {
        b'(' => depth.saturating_add(1),
        b')' => depth.saturating_sub(1),
        _ => depth,
    }
}

/// Returns how many bytes of a list are before its last part, `rest`, and the blanks at the beginning of that.
pub(crate) fn place_in_list(list: &[u8], rest: &[u8]) -> usize {
    list.len().saturating_sub(rest.trim_ascii_start().len())
}

/// Returns the first item of a list, without blanks around it, and what follows the comma after it, if there is one. A comma in quotes
/// or brackets separates nothing.
pub(crate) fn split_item(text: &[u8]) -> (&[u8], Option<&[u8]>) {
    let mut quote = None;
    let mut depth: u32 = 0;
    for (i, c) in text.iter().enumerate() {
        if quote.is_none() && *c == b',' && depth == 0 {
            let (item, rest) = text.split_at(i.min(text.len()));
            return (item.trim_ascii(), rest.strip_prefix(b","));
        }
        if quote.is_none() {
            depth = depth_after(depth, *c);
        }
        quote = quote_after(quote, *c);
    }
    (text.trim_ascii(), None)
}
