//! Finds the mistake in an operand.

ghost use Rattle.std.specs.Prelude.{◌<◌, ◌≤◌, length};

use crate::line::{before, run_len};
use crate::mistake::{Mistake, bits_of, digits_of};
use a2_text::{after_blanks, is_blank, number_in};

// The bytes that a name may contain.
const NAME: &[u8] = b"ABCDEFGHIJKLMNOPQRSTUVWXYZabcdefghijklmnopqrstuvwxyz0123456789_";

/// Returns how many bytes at the front of a text a name may contain.
pub(crate) fn name_len(text: &[u8]) -> usize
    ensures { result ≤ length text.now }
{
    run_len(text, NAME, true)
}

// Returns the length of the quoted text at the front: up to and including its closing quote, or to the end if there is none.
fn quoted_len(text: &[u8]) -> usize
    ensures { result ≤ length text.now }
{
    let Some((quote, rest)) = text.split_first() else {
        return 0;
    };
    before(rest, *quote).len().saturating_add(2).min(text.len())
}

// Returns the length of the word at the front of a text: at least 1 if the text is not empty.
fn word_len(text: &[u8]) -> usize
    ensures within { result ≤ length text.now }
    ensures some { 0 < length text.now → 0 < result }
{
    match text {
        [] => 0,
        [b'"' | b'\'', ..] => quoted_len(text).max(1),
        [b'$' | b'%', rest @ ..] => 1 + name_len(rest),
        [b'/', b'/', ..] => 2,
        _ => name_len(text).max(1),
    }
}

// Whether a text in quotes has a closing quote.
fn is_closed(word: &[u8]) -> bool {
    matches!(word, [b'"', .., b'"'] | [b'\'', .., b'\''])
}

// Finds the mistake in a term.
fn in_term(word: &[u8]) -> Option<Mistake> {
    match word {
        [b'"' | b'\'', ..] => in_character(word),
        [b'0'..=b'9', ..] => in_decimal(word),
        [b'$', digits @ ..] => in_number(number_in(16, 4, digits)),
        [b'%', digits @ ..] => in_number(number_in(2, 16, digits)),
        _ if word.len() > 32 => Some(Mistake::LongName),
        _ => None,
    }
}

// Returns the mistake in a word that should be a number, given its value if it has one.
fn in_number(value: Option<u16>) -> Option<Mistake> {
    match value {
        Some(_) => None,
        None => Some(Mistake::BadNumber),
    }
}

// Finds the mistake in a number that begins with a digit.
fn in_decimal(word: &[u8]) -> Option<Mistake> {
    if number_in(10, 5, word).is_some() {
        None
    } else if number_in(2, 16, bits_of(word)).is_some() {
        Some(Mistake::Binary)
    } else if number_in(16, 4, digits_of(word)).is_some() {
        Some(Mistake::Hexadecimal)
    } else {
        Some(Mistake::BadNumber)
    }
}

// Finds the mistake in a character in quotes.
fn in_character(word: &[u8]) -> Option<Mistake> {
    if word.len() == 3 && matches!(word, [.., b'"' | b'\'']) {
        None
    } else if is_closed(word) {
        Some(Mistake::TextAmongBytes)
    } else {
        Some(Mistake::OpenQuote)
    }
}

/// The state of the reader after the words of an operand read so far.
#[derive(Clone, Copy)]
struct Reader {
    // The next word must be a term.
    wants_term: bool,
    // No word was read yet.
    is_front: bool,
    // A parenthesis is open.
    is_inside: bool,
    // There is a blank before the next word.
    is_apart: bool,
}

// Finds the mistake in a word that is not a term.
fn in_sign(reader: Reader, word: &[u8]) -> Option<Mistake> {
    match word {
        [b'+' | b'-'] if reader.wants_term => Some(Mistake::Sign),
        [b'+' | b'-'] => None,
        [b'<' | b'>'] if reader.wants_term => None,
        [b'#'] if reader.is_front => None,
        [b'('] if reader.is_front => None,
        [b'('] => Some(Mistake::Brackets),
        [b')'] if reader.is_inside && !reader.wants_term => None,
        [b','] if !reader.wants_term => None,
        [b')'] if !reader.wants_term => Some(Mistake::Strange),
        [b')' | b','] => Some(Mistake::Missing),
        [b'['] | [b']'] => Some(Mistake::SquareBracket),
        [b':'] if reader.is_apart => Some(Mistake::TwoOperations),
        [b':'] => Some(Mistake::Forced),
        [b'\r'] => Some(Mistake::CarriageReturns),
        [b'/', b'/'] => Some(Mistake::Comment),
        [b'/'] if reader.wants_term => Some(Mistake::Slash),
        [b'!'] if reader.wants_term => Some(Mistake::Forced),
        [b'*' | b'/' | b'|' | b'&' | b'^' | b'!' | b'.'] => Some(Mistake::Operator),
        _ => Some(Mistake::Strange),
    }
}

// Whether a word begins a term. A `*` is a term only if one is needed here.
fn is_term(reader: Reader, word: &[u8]) -> bool {
    match word {
        [b'*'] => reader.wants_term,
        [b'"' | b'\'' | b'$' | b'%', ..] => true,
        [first, ..] => NAME.contains(first),
        [] => false,
    }
}

// Whether a text begins with X or Y in parentheses, as other languages index a table.
fn is_index(text: &[u8]) -> bool {
    matches!(
        text,
        [b'(', b'X' | b'x' | b'Y' | b'y', b')', ..] | [b'[', b'X' | b'x' | b'Y' | b'y', b']', ..]
    )
}

// Whether a text begins with the mark of a comment in another language.
fn is_comment(reader: Reader, text: &[u8]) -> bool {
    match text {
        [b'/', b'/' | b'*', ..] | [b'-', b'-', ..] => reader.is_apart || reader.is_front,
        [b'#', ..] => reader.is_apart && !reader.wants_term,
        _ => false,
    }
}

// Whether a text begins with a hexadecimal number after `&`.
fn is_after_ampersand(text: &[u8]) -> bool {
    match text {
        [b'&', rest @ ..] => {
            let (digits, _) = rest.split_at(name_len(rest));
            number_in(16, 4, digits).is_some()
        }
        _ => false,
    }
}

// Finds a mistake in the characters at the front of a text that are one word only in other languages.
fn in_front(reader: Reader, text: &[u8]) -> Option<Mistake> {
    if is_comment(reader, text) {
        Some(Mistake::Comment)
    } else if text.starts_with(b": ") {
        Some(Mistake::TwoOperations)
    } else if text == b":".as_slice() {
        // A colon after a name, at the end of the line.
        Some(Mistake::TrailingWords)
    } else if !reader.wants_term && is_index(text) {
        Some(Mistake::Index)
    } else if reader.wants_term && is_after_ampersand(text) {
        Some(Mistake::Hexadecimal)
    } else {
        None
    }
}

// Finds the mistake in the next word, which is at the front of `rest`.
fn in_next(reader: Reader, word: &[u8], rest: &[u8]) -> Option<Mistake> {
    let mistake = in_front(reader, rest);
    if mistake.is_some() {
        return mistake;
    }
    in_word(reader, word)
}

// Finds the mistake in a word.
fn in_word(reader: Reader, word: &[u8]) -> Option<Mistake> {
    if !is_term(reader, word) {
        return in_sign(reader, word);
    }
    if !reader.wants_term {
        return Some(if reader.is_apart {
            Mistake::TrailingWords
        } else {
            Mistake::Strange
        });
    }
    if !reader.is_front && is_accumulator(word) {
        return Some(Mistake::Accumulator);
    }
    in_term(word)
}

// Returns the reader after a word without a mistake.
fn following(reader: Reader, word: &[u8]) -> Reader {
    let is_term = is_term(reader, word);
    Reader {
        wants_term: !is_term && !matches!(word, [b')']),
        is_front: false,
        is_inside: match word {
            [b'('] => true,
            [b')'] => false,
            _ => reader.is_inside,
        },
        is_apart: false,
    }
}

// Finds the accumulator as an immediate value.
fn in_immediate(operand: &[u8]) -> Option<(Mistake, usize, usize)> {
    match operand {
        [b'#', value @ ..] if is_accumulator(after_blanks(value)) => {
            Some((Mistake::AccumulatorValue, 0, operand.len()))
        }
        _ => None,
    }
}

/// Returns the first mistake in an operand made of expressions: its kind, where it begins, and the length of its word.
pub(crate) fn mistake_in(operand: &[u8]) -> Option<(Mistake, usize, usize)> {
    let in_value = in_immediate(operand);
    if in_value.is_some() {
        return in_value;
    }
    let mut reader = Reader {
        wants_term: true,
        is_front: true,
        is_inside: false,
        is_apart: false,
    };
    let mut rest = operand;
    while !rest.is_empty() {
        let (word, others) = rest.split_at(word_len(rest));
        if matches!(word, [c] if is_blank(*c)) {
            reader.is_apart = true;
        } else {
            if let Some(mistake) = in_next(reader, word, rest) {
                let at = operand.len().saturating_sub(rest.len());
                return Some((mistake, at, shown_len(mistake, word, rest)));
            }
            reader = following(reader, word);
        }
        rest = others;
    }
    if reader.wants_term {
        return Some((Mistake::Missing, operand.len(), 1));
    }
    in_form(operand)
}

// Returns how much of a text is shown for a mistake in its first word. After a sign the term is shown too, and words after an
// operand are all shown.
fn shown_len(mistake: Mistake, word: &[u8], rest: &[u8]) -> usize {
    match mistake {
        Mistake::TrailingWords => rest.len(),
        Mistake::Sign | Mistake::Forced => {
            let (_, others) = rest.split_at(word_len(rest));
            word.len().saturating_add(word_len(others))
        }
        Mistake::Hexadecimal if rest.starts_with(b"&") => {
            let (_, others) = rest.split_at(word_len(rest));
            word.len().saturating_add(word_len(others))
        }
        Mistake::Index => 3,
        Mistake::Comment if !rest.starts_with(b"#") => 2,
        _ => word.len(),
    }
}

// Whether an operand begins with `A` as a term.
fn is_accumulator_in_expression(operand: &[u8]) -> bool {
    match operand {
        [b'A' | b'a', rest @ ..] => matches!(after_blanks(rest), [] | [b'+' | b'-' | b',', ..]),
        _ => false,
    }
}

// Finds the mistake in the form of an operand whose terms have no mistake.
fn in_form(operand: &[u8]) -> Option<(Mistake, usize, usize)> {
    let (front, end) = operand.split_at(operand.len().saturating_sub(3));
    if front.starts_with(b"(") && end.eq_ignore_ascii_case(b"),X") {
        Some((Mistake::OutsideX, front.len().saturating_add(1), 2))
    } else if front.starts_with(b"(") && end.eq_ignore_ascii_case(b",Y)") {
        Some((Mistake::InsideY, front.len(), 2))
    } else if is_accumulator_in_expression(operand) {
        Some((Mistake::Accumulator, 0, 1))
    } else {
        None
    }
}

// Returns the mistake in what follows the text of ASC and a comma.
fn after_text(following: &[u8]) -> Mistake {
    let here = after_blanks(following);
    if here.is_empty() {
        return Mistake::TrailingWords;
    }
    let is_text = here.len() > 3 && is_closed(here) && word_len(here) == here.len();
    if is_text {
        Mistake::TextAfterText
    } else {
        Mistake::BytesAfterText
    }
}

// Finds the mistake in what follows the text of ASC, at an index of the operand.
fn after_closing_quote(others: &[u8], at: usize) -> (Mistake, usize, usize) {
    let here = after_blanks(others);
    let at = at.saturating_add(others.len().saturating_sub(here.len()));
    match here {
        [b',', following @ ..] => (after_text(following), at, here.len()),
        [b'/', b'/' | b'*', ..] | [b'-', b'-', ..] => (Mistake::Comment, at, 2),
        _ => (Mistake::TrailingWords, at, here.len()),
    }
}

/// Finds the mistake in the text of ASC.
pub(crate) fn mistake_in_text(operand: &[u8]) -> Option<(Mistake, usize, usize)> {
    match operand {
        [] => Some((Mistake::EmptyText, 0, 1)),
        [b'"', b'"'] | [b'\'', b'\''] => Some((Mistake::EmptyText, 0, 2)),
        [b'"' | b'\'', ..] => {
            let (text, others) = operand.split_at(word_len(operand));
            if !is_closed(text) {
                return Some((Mistake::OpenQuote, 0, text.len()));
            }
            Some(after_closing_quote(others, text.len()))
        }
        _ => Some((Mistake::NoText, 0, operand.len())),
    }
}

/// Whether a word is the letter of the accumulator.
pub(crate) fn is_accumulator(word: &[u8]) -> bool {
    word.eq_ignore_ascii_case(b"A")
}

/// Returns the index of the first occurrence of a word in a text, or `None` if it does not occur.
pub(crate) fn word_in(text: &[u8], name: &[u8]) -> Option<usize> {
    let mut rest = text;
    while !rest.is_empty() {
        let (word, others) = rest.split_at(word_len(rest));
        if word == name {
            return Some(text.len().saturating_sub(rest.len()));
        }
        rest = others;
    }
    None
}

/// Returns the index of the first occurrence of a word in an operand, or 0 if it does not occur.
pub(crate) fn word_at(operand: &[u8], name: &[u8]) -> usize {
    word_in(operand, name).unwrap_or(0)
}
