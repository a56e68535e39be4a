//! Which lines use the larger language.

ghost use Rattle.std.specs.Prelude.{◌≡◌, ◌+◌, ◌<◌, ◌^◌, false, None, IfOk, map};
ghost use Rattle.std.specs.List.{list_any};
ghost use Rattle.a2_expand.specs.Larger as larger;

use a2_text::{after_blanks, cut, front_len, is_blank};
use std::alloc::{AllocError, Allocator};

/// The word at the beginning of a text, up to a blank or a comment, and the text after it.
pub(crate) fn parted(text: &[u8]) -> (&[u8], &[u8])
    ensures word { result.0.now ≡ larger.word text.now }
    ensures rest { result.1.now ≡ larger.after_word text.now }
{
    text.split_at(front_len(text, |c| !is_blank(c) && c != b';'))
}

fn is_data_word(word: &[u8]) -> bool
    ensures { result ≡ larger.is_data_word word.now }
{
    word.eq_ignore_ascii_case(b"INV")
        || word.eq_ignore_ascii_case(b"FLS")
        || word.eq_ignore_ascii_case(b"STR")
}

fn is_condition_word(word: &[u8]) -> bool
    ensures { result ≡ larger.is_condition_word word.now }
{
    word.eq_ignore_ascii_case(b"IF")
        || word.eq_ignore_ascii_case(b"ELSEIF")
        || word.eq_ignore_ascii_case(b"ELSE")
        || word.eq_ignore_ascii_case(b"ENDIF")
}

fn is_block_word(word: &[u8]) -> bool
    ensures { result ≡ larger.is_block_word word.now }
{
    word.eq_ignore_ascii_case(b"MACRO")
        || word.eq_ignore_ascii_case(b"ENDMACRO")
        || word.eq_ignore_ascii_case(b"REPEAT")
        || word.eq_ignore_ascii_case(b"ENDREPEAT")
        || word.eq_ignore_ascii_case(b"PROC")
        || word.eq_ignore_ascii_case(b"ENDPROC")
}

fn is_table_word(word: &[u8]) -> bool
    ensures { result ≡ larger.is_table_word word.now }
{
    word.eq_ignore_ascii_case(b"ENUM")
        || word.eq_ignore_ascii_case(b"ENDENUM")
        || word.eq_ignore_ascii_case(b"STRUCT")
        || word.eq_ignore_ascii_case(b"ENDSTRUCT")
}

fn is_message_word(word: &[u8]) -> bool
    ensures { result ≡ larger.is_message_word word.now }
{
    word.eq_ignore_ascii_case(b"ASSERT")
        || word.eq_ignore_ascii_case(b"ERROR")
        || word.eq_ignore_ascii_case(b"WARN")
        || word.eq_ignore_ascii_case(b"INCLUDE")
        || word.eq_ignore_ascii_case(b"INCBIN")
}

// Whether a word is an operation of the larger language.
fn is_larger_word(word: &[u8]) -> bool
    ensures { result ≡ larger.is_larger_word word.now }
{
    is_data_word(word)
        || is_condition_word(word)
        || is_block_word(word)
        || is_table_word(word)
        || is_message_word(word)
}

/// Whether a byte can be part of a name or a number.
pub(crate) fn is_run_byte(c: u8) -> bool
    ensures { result ≡ larger.is_run_byte c }
{
    matches!(c, b'0'..=b'9' | b'A'..=b'Z' | b'a'..=b'z' | b'_')
}

/// The quote that is open after a byte, given the one that is open before it.
pub(crate) fn quote_after(quote: Option<u8>, c: u8) -> Option<u8>
    ensures { result ≡ larger.quote_after quote c }
{
    match quote {
        None => if c == b'\'' || c == b'"' {
            Some(c)
        } else {
            None
        },
        Some(same) if c == same => None,
        _ => quote,
    }
}

// Whether a byte can end a term of an expression.
fn ends_term(c: u8) -> bool
    ensures { result ≡ larger.ends_term c }
{
    is_run_byte(c) || matches!(c, b')' | b'\'' | b'"' | b'*')
}

// Whether the plain language does not have this sign after `last`, the byte before it that is not a blank, or 0 if there is none.
fn is_larger_sign(last: u8, c: u8) -> bool
    ensures { result ≡ larger.is_larger_sign last c }
{
    match c {
        b'/' | b'&' | b'|' | b'^' | b'~' | b'.' | b':' => true,
        b'*' | b'%' => ends_term(last),
        b'<' | b'>' => ends_term(last) || last == b'<' || last == b'>',
        b'-' => !ends_term(last) || last == b')',
        b'+' => last == b')',
        b'(' => last != 0,
        _ => false,
    }
}

// Whether an operand has such a sign outside quotes, or, if `commas`, a comma.
fn has_larger_sign(commas: bool, operand: &[u8]) -> bool
    ensures { result ≡ larger.has_larger_sign commas None 0 operand.now }
{
    let mut quote = None;
    let mut last = 0;
    let mut rest = operand;
    while let Some((c, following)) = rest.split_first() {
        if quote.is_none() {
            if *c == b';' {
                return false;
            }
            if is_larger_sign(last, *c) || commas && *c == b',' {
                return true;
            }
        }
        if quote.is_some() || !is_blank(*c) {
            last = *c;
        }
        quote = quote_after(quote, *c);
        rest = following;
    }
    false
}

/// Whether an operand has a sign that the plain language does not have there.
pub(crate) fn is_larger_operand(operand: &[u8]) -> bool
    ensures { result ≡ larger.has_larger_sign false None 0 operand.now }
{
    has_larger_sign(false, operand)
}

// Whether a byte closes a text in quotes that is not one character; `count` of its characters are read.
fn closes_text(quote: Option<u8>, count: usize, c: u8) -> bool
    ensures { result ≡ larger.closes_text quote count c }
{
    match quote {
        None => false,
        Some(same) => c == same && count != 1,
    }
}

// How many characters of a text are read after a byte.
fn count_after(quote: Option<u8>, count: usize) -> usize
    requires { count + 1 < 2 ^ 64 }
    ensures { result ≡ larger.count_after quote count }
{
    match quote {
        None => 0,
        Some(_) => count + 1,
    }
}

// Whether an operand has a text in quotes that is not one character.
fn has_text(operand: &[u8]) -> bool
    ensures { result ≡ larger.has_text None 0 operand.now }
{
    let mut quote = None;
    let mut count: usize = 0;
    let mut rest = operand;
    while let Some((c, following)) = rest.split_first() {
        if quote.is_none() && *c == b';' {
            return false;
        }
        if closes_text(quote, count, *c) {
            return true;
        }
        count = count_after(quote, count);
        quote = quote_after(quote, *c);
        rest = following;
    }
    false
}

// Whether a statement uses the larger language: a local label, an operation, or a form of an operand.
fn is_larger_statement(line: &[u8]) -> bool
    ensures { result ≡ larger.is_larger_statement line.now }
{
    let (_, rest) = parted(line);
    let (operation, rest) = parted(after_blanks(rest));
    let operand = after_blanks(rest);
    matches!(line.first(), Some(b'.' | b':'))
        || is_larger_word(operation)
        || has_larger_sign(operation.eq_ignore_ascii_case(b"DS"), operand)
        || operation.eq_ignore_ascii_case(b"DFB") && has_text(operand)
}

/// Returns whether a line uses the larger language: a local label, an operation, or a form of an operand that the plain language does
/// not have.
pub fn is_larger_line(line: &[u8]) -> bool
    ensures { result ≡ larger.is_larger_line line.now }
{
    !line.starts_with(b"*") && is_larger_statement(line)
}

// Whether one of these lines uses the larger language.
fn has_larger_line(lines: &[&[u8]]) -> bool
    ensures { result ≡ list_any larger.is_larger_line (map (λ x. x.now) lines.now) }
{
    for line in lines {
        if is_larger_line(*line) {
            return true;
        }
    }
    false
}

// Whether the operation of a line is one of the larger language.
fn has_larger_word(line: &[u8]) -> bool
    ensures { result ≡ larger.has_larger_word line.now }
{
    let (_, rest) = parted(line);
    let (operation, _) = parted(after_blanks(rest));
    !line.starts_with(b"*") && is_larger_word(operation)
}

// Whether the operation of one of these lines is one of the larger language.
fn have_larger_word(lines: &[&[u8]]) -> bool
    ensures { result ≡ list_any larger.has_larger_word (map (λ x. x.now) lines.now) }
{
    for line in lines {
        if has_larger_word(*line) {
            return true;
        }
    }
    false
}

/// Returns whether the operation of a line of a text is one of the larger language, as `MACRO`. Other lines that use the larger language
/// might be lines of the plain one with a mistake. Fails only if memory runs out.
#[tactic(auto, unfolding(crate::specs::Larger::uses_larger_operation))]
pub fn uses_larger_operation<A: Allocator>(alloc: A, text: &[u8]) -> Result<bool, AllocError>
    ensures { IfOk result (λ is. is ≡ larger.uses_larger_operation text.now) }
{
    let lines = cut(alloc, text)?;
    Ok(have_larger_word(lines.as_slice()))
}

/// Returns whether no line of a text uses the larger language. Fails only if memory runs out.
#[tactic(auto, unfolding(crate::specs::Larger::uses_nothing_larger))]
pub fn uses_nothing_larger<A: Allocator>(alloc: A, text: &[u8]) -> Result<bool, AllocError>
    ensures { IfOk result (λ is. is ≡ larger.uses_nothing_larger text.now) }
{
    let lines = cut(alloc, text)?;
    Ok(!has_larger_line(lines.as_slice()))
}
