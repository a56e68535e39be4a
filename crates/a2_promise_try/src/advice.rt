//! What to write instead, where a line of a promise has something that other languages have.

use crate::line_words::{Piece, piece_in, verb_in, word_length};
use crate::promise_words::{Follows, VERBS, verb_row};
use a2_promise::{Refusal, promise_in};
use a2_text::{after_blanks, capital, front_len};

const CHARACTER: &str =
    "a character is not a number here; write its code, such as #$C8 for \"H\" or #$48 for 'H'";

const BINARY: &str =
    "binary numbers are not known here; write $ and hexadecimal digits, such as #$0F for %00001111";

const GREATEST: &str = "this number is too large; the greatest one is 4,294,967,295";

const LONG_PLACE: &str = "`$` has one to four hexadecimal digits; write a larger number in decimal";

const WORD_CHANGES: &str =
    "`changes` lists single bytes; write a range for two of them, such as $10..$11";

const COMPUTED_CHANGES: &str =
    "`changes` lists fixed addresses; write the range of all bytes that may change, such as $2000..$20FF";

const SUM_CHANGES: &str =
    "`changes` lists addresses without +; write the number, such as $11, or define a name, such as NEXT EQU NAME+1";

const DASH_CHANGES: &str = "write a range with two dots, such as $10..$1F";

const UNEQUAL: &str = "`!=` is not an operator here; write <>";

// The last byte of the text before an error, and the first bytes from it on, with what to write instead.
type Advice = (u8, &'static [u8], &'static str);

// A last byte 0 fits any text.
static OPERATORS: [Advice; 12] = [
    (b'0', b"x", "write $10 for 0x10"),
    (b'=', b"=", "`==` is not an operator here; write ="),
    (b'=', b"<", "`=<` is not an operator here; write <="),
    (b'=', b">", "`=>` is not an operator here; write >="),
    (b'&', b"&", "`&&` is not an operator here; write and"),
    (b'|', b"|", "`||` is not an operator here; write or"),
    (b'#', b"<", "write #NAME % 256 for the low byte of a number"),
    (
        b'#',
        b">",
        "write #NAME / 256 for the high byte of a number",
    ),
    (0, b"!=", UNEQUAL),
    (0, b"!", "`!` is not an operator here; write not"),
    (0, b"%0", BINARY),
    (0, b"%1", BINARY),
];

// Returns what to write in place of an operator of another language.
fn operator_advice(last: u8, here: &[u8]) -> Option<&'static str> {
    for (before, begins, says) in &OPERATORS {
        if (*before == 0 || *before == last) && here.starts_with(*begins) {
            return Some(*says);
        }
    }
    None
}

// Returns what to write in place of something in an expression.
fn expression_advice(last: u8, here: &[u8]) -> Option<&'static str> {
    match here {
        [b'\'' | b'"', ..] => Some(CHARACTER),
        [b'$', digits @ ..] if word_length(digits) > 4 => Some(LONG_PLACE),
        [b'0'..=b'9', ..] if front_len(here, |c| matches!(c, b'0'..=b'9')) > 9 => Some(GREATEST),
        _ => operator_advice(last, here),
    }
}

// Returns what to write in place of a sign in a list of what may change.
fn changes_sign_advice(sign: u8) -> Option<&'static str> {
    match sign {
        b'[' => Some(COMPUTED_CHANGES),
        b'#' => Some("`changes` lists addresses; write the address without #"),
        b'+' => Some(SUM_CHANGES),
        b'-' => Some(DASH_CHANGES),
        _ => None,
    }
}

// Returns what to write in place of something in a list of what may change. `is_first` says whether nothing is listed
// before it, or a comma comes directly before it.
fn changes_advice(is_first: bool, here: &[u8]) -> Option<&'static str> {
    let (piece, _) = piece_in(here)?;
    match piece {
        Piece::Sign(sign, _) => changes_sign_advice(sign),
        Piece::Quoted(_, _) => None,
        _ if !is_first => Some("write a comma between two things that may change"),
        Piece::Word(word) if word == b"word".as_slice() => Some(WORD_CHANGES),
        Piece::Word(word) if word == b"none".as_slice() => Some(
            "write the word nothing if nothing may change",
        ),
        Piece::Word(_) => None,
        Piece::Place(_) => Some(LONG_PLACE),
        Piece::Decimal(_) => Some("write the address in hexadecimal with `$`, such as $10"),
    }
}

// Returns whether two words begin with the same three letters, capital or small.
fn begin_alike(word: &[u8], name: &[u8]) -> bool {
    let ([a, b, c, ..], [d, e, f, ..]) = (word, name) else {
        return false;
    };
    capital(*a) == capital(*d) && capital(*b) == capital(*e) && capital(*c) == capital(*f)
}

// Returns the message about a word after `;:` that is nearly a verb.
fn verb_advice(here: &[u8]) -> Option<&'static str> {
    for row in &VERBS {
        if begin_alike(here, row.name) {
            return Some(row.nearly);
        }
    }
    None
}

// Returns the last byte of a text that is not a blank, or 0 if there is none.
fn last_of(text: &[u8]) -> u8 {
    let mut last = 0;
    for c in text {
        if *c != b' ' && *c != b'\t' {
            last = *c;
        }
    }
    last
}

// Returns whether a text has the word `text`, so that a text in quotes may follow it.
fn names_text(before: &[u8]) -> bool {
    let mut here = after_blanks(before);
    // (Each piece has a byte or more.)
    for _ in before {
        here = match piece_in(here) {
            Some((Piece::Word(word), _)) if word == b"text".as_slice() => return true,
            Some((_, rest)) => after_blanks(rest),
            None => return false,
        };
    }
    false
}

// What to write instead, and how many bytes after an error it begins.
type Place = (usize, &'static str);

// Returns the place of `!=` after the word or number at which an error begins, which was read as the whole condition.
fn unequal_in(here: &[u8]) -> Option<Place> {
    let (_, rest) = piece_in(here)?;
    let following = after_blanks(rest);
    if following.starts_with(b"!=") {
        Some((here.len().saturating_sub(following.len()), UNEQUAL))
    } else {
        None
    }
}

// Returns what to write in place of something in the text `here` of a promise's line, which comes after the text
// `before`.
fn advice_in(before: &[u8], here: &[u8]) -> Option<Place> {
    let (verb, rest) = verb_in(before);
    if verb.is_empty() {
        return at_once(verb_advice(here));
    }
    match verb_row(verb)?.follows {
        Follows::Text => None,
        Follows::Items if verb == b"changes".as_slice() => {
            let is_first = after_blanks(rest).is_empty() || last_of(rest) == b',';
            at_once(changes_advice(is_first, here))
        }
        _ if names_text(before) => None,
        _ => match expression_advice(last_of(before), here) {
            Some(says) => Some((0, says)),
            None => unequal_in(here),
        },
    }
}

// Returns what to write in place of the text directly after an error.
fn at_once(says: Option<&'static str>) -> Option<Place> {
    Some((0, says?))
}

/// Returns the error in a line of a promise with a message that says what to write instead of what is there, if that
/// is known.
pub(crate) fn advised(lines: &[&[u8]], refusal: Refusal) -> Refusal {
    let Some(line) = lines.get(refusal.line.saturating_sub(1)) else {
        return refusal;
    };
    let Some(text) = promise_in(*line) else {
        return refusal;
    };
    let left = line.len().saturating_sub(refusal.column.saturating_sub(1));
    if left > text.len() {
        return refusal;
    }
    let (before, here) = text.split_at(text.len().saturating_sub(left));
    match advice_in(before, here) {
        Some((further, says)) => Refusal {
            column: refusal.column.saturating_add(further),
            says,
            ..refusal
        },
        None => refusal,
    }
}
