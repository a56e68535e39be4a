//! The change that a fix of `a2_check` describes, if its words are exactly a new text.

use crate::tokens::{statement_end, tokens_of};
use a2_syntax::is_name;
use a2_text::{front_len, split_word};
use std::alloc::{AllocError, Global};

/// A change of a line: the bytes from one index up to another become a text. `is_new_line` says that the text is a line to insert before
/// the first line of the source instead.
#[derive(Debug, Drop, PartialEq, Eq)]
pub struct Change {
    pub is_new_line: bool,
    pub from: usize,
    pub to: usize,
    pub text: Vec<u8>,
}

// The indices that an error marks, and the index after the statement.
#[derive(Clone, Copy)]
struct Marks {
    from: usize,
    to: usize,
    end: usize,
}

// Returns a copy of a text.
fn copied(alloc: Global, text: &[u8]) -> Result<Vec<u8>, AllocError> {
    let mut copy = Vec::new(alloc);
    copy.extend_from_slice(text)?;
    Ok(copy)
}

// Returns the change that replaces the bytes between two indices.
fn replacing(
    alloc: Global,
    from: usize,
    to: usize,
    text: &[u8],
) -> Result<Option<Change>, AllocError> {
    Ok(Some(Change {
        is_new_line: false,
        from,
        to,
        text: copied(alloc, text)?,
    }))
}

// Returns the name that `did you mean` is followed by.
fn meant(fix: &[u8]) -> Option<&[u8]> {
    let name = fix.strip_prefix(b"did you mean ")?.strip_suffix(b"?")?;
    Some(match name {
        [b'`', inner @ .., b'`'] => inner,
        _ => name,
    })
}

// Whether a text is a number with a mark.
fn is_number(text: &[u8]) -> bool {
    match text {
        [b'$' | b'%', digits @ ..] => {
            !digits.is_empty() && front_len(digits, |c| c.is_ascii_hexdigit()) == digits.len()
        }
        _ => false,
    }
}

// Whether the words of a fix are a remark on what is to be written.
fn is_remark(text: &[u8]) -> bool {
    let mut rest = text;
    for _ in 0..text.len() {
        let (word, following) = split_word(rest);
        match word {
            b"then" | b"to" | b"which" | b"and" | b"or" | b"for" | b"in" | b"as" => return true,
            b"" => return false,
            _ => rest = following,
        }
    }
    false
}

// Whether a text begins with an operation in capitals.
fn begins_with_operation(text: &[u8]) -> bool {
    let (word, _) = split_word(text);
    let capitals = front_len(word, |c| c.is_ascii_uppercase());
    capitals == word.len() && (capitals == 2 || capitals == 3 || capitals == 4)
}

// Whether a text is a name, EQU and a value.
fn is_definition(text: &[u8]) -> bool {
    let (name, following) = split_word(text);
    let (word, value) = split_word(following);
    is_name(name) && matches!(word, b"EQU") && !value.is_empty()
}

// Returns the change that the words after `write ` describe.
fn written(alloc: Global, text: &[u8], marks: Marks) -> Result<Option<Change>, AllocError> {
    let plain = text
        .strip_suffix(b" if it is a hexadecimal number")
        .unwrap_or(text);
    if is_number(plain) || is_name(plain) {
        return replacing(alloc, marks.from, marks.to, plain);
    }
    if is_definition(text) {
        return replacing(alloc, 0, marks.end, text);
    }
    match text {
        [b' ', statement @ ..] if begins_with_operation(statement) && !is_remark(statement) => {
            // Column 1 is for labels: there, the blank stays before the operation.
            let new = if marks.from == 0 { text } else { statement };
            replacing(alloc, marks.from, marks.end, new)
        }
        _ => Ok(None),
    }
}

// Returns a text with parentheses in place of square brackets.
fn rounded(alloc: Global, text: &[u8]) -> Result<Vec<u8>, AllocError> {
    let mut round = Vec::new(alloc);
    for byte in text {
        round.push(match *byte {
            b'[' => b'(',
            b']' => b')',
            other => other,
        })?;
    }
    Ok(round)
}

// Returns the line to insert: a definition with its name in a column of its own.
fn new_line(alloc: Global, definition: &[u8]) -> Result<Option<Change>, AllocError> {
    if !is_definition(definition) {
        return Ok(None);
    }
    let (name, following) = split_word(definition);
    let mut text = copied(alloc, name)?;
    for _ in name.len()..7 {
        text.push(b' ')?;
    }
    text.extend_from_slice(following)?;
    Ok(Some(Change {
        is_new_line: true,
        from: 0,
        to: 0,
        text,
    }))
}

// Returns the change that a fix describes.
fn described(
    alloc: Global,
    line: &[u8],
    marks: Marks,
    fix: &[u8],
) -> Result<Option<Change>, AllocError> {
    if let Some(name) = meant(fix) {
        return replacing(alloc, marks.from, marks.to, name);
    }
    if let Some(text) = fix.strip_prefix(b"write ") {
        return written(alloc, text, marks);
    }
    if let Some(definition) = fix.strip_prefix(b"add the line ") {
        return new_line(alloc, definition);
    }
    match fix {
        b"use > instead" => replacing(alloc, marks.from, marks.to, b">"),
        b"use ( and )" => {
            let old = line.get(marks.from..marks.end).unwrap_or(b"");
            let new = rounded(alloc, old)?;
            replacing(alloc, marks.from, marks.end, new.as_slice())
        }
        _ => Ok(None),
    }
}

/// Returns the change that a fix describes, or `None` if its words are no text to write. `line` is the line with the error, which marks
/// `width` bytes from the index `from`.
pub fn change_of(
    alloc: Global,
    line: &[u8],
    from: usize,
    width: usize,
    fix: &[u8],
) -> Result<Option<Change>, AllocError> {
    let tokens = tokens_of(alloc, line)?;
    let marks = Marks {
        from,
        to: from.saturating_add(width).min(line.len()),
        end: statement_end(tokens.as_slice()).max(from),
    };
    described(alloc, line, marks, fix)
}
