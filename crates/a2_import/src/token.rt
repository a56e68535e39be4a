//! The tokens of an expression.

use crate::dialect::Dialect;
use crate::operator::Operator;
use crate::pieces::cut_at;
use a2_text::front_len;

/// A token of an expression.
#[derive(Clone, Copy)]
pub(crate) enum Token<'t> {
    /// A number, with the mark of its base.
    Number(&'t [u8]),
    /// The digits of a hexadecimal number.
    Hex(&'t [u8]),
    /// A character, with the quote to use for it here.
    Character(u8, u8),
    /// A name, with the marks that belong to it.
    Name(&'t [u8]),
    /// A label without a name, by its kind: so many before the last one, or so many after it.
    Turn(u8, u16, u16),
    /// The address of the line.
    Here,
    Operator(Operator),
    Open,
    Close,
    /// Something that does not belong in an expression.
    Bad,
}

// Whether a byte can be part of a name after the first byte.
fn is_name_part(dialect: Dialect, c: u8) -> bool {
    match c {
        b'_' => true,
        b'.' => matches!(dialect, Dialect::Sc | Dialect::Tass),
        b':' => dialect == Dialect::Ca65,
        _ => c.is_ascii_alphanumeric(),
    }
}

// Whether a byte begins a name together with the byte after it.
fn begins_name(dialect: Dialect, first: u8, next: u8) -> bool {
    let is_word = next.is_ascii_alphabetic() || next == b'_';
    let is_part = is_word || next.is_ascii_digit();
    match (dialect, first) {
        (_, b'_') => true,
        (Dialect::Sc, b'.' | b':' | b']') => is_part,
        (Dialect::Merlin, b':' | b']') => is_part,
        (Dialect::Edasm, b'&') => next.is_ascii_digit(),
        (Dialect::Ca65, b'@' | b'.') => is_part,
        (Dialect::Acme, b'@' | b'.') => is_part,
        (Dialect::Dasm, b'.') => is_part,
        (Dialect::Tass, b'\\') => is_part,
        _ => first.is_ascii_alphabetic(),
    }
}

/// Returns the length of the name at the beginning of a text, or 0.
pub(crate) fn name_len(dialect: Dialect, text: &[u8]) -> usize {
    match text {
        [b':', b':', ..] if dialect == Dialect::Ca65 => front_len(
            text,
            |c| is_name_part(dialect, c),
        ),
        [b'{', c, b'}', ..] if dialect == Dialect::Dasm && c.is_ascii_digit() => 3,
        [first, rest @ ..] => {
            let next = rest.first().copied().unwrap_or(0);
            if begins_name(dialect, *first, next) {
                let count = front_len(rest, |c| is_name_part(dialect, c));
                count.saturating_add(1)
            } else {
                0
            }
        }
        [] => 0,
    }
}

// The operator of two signs, in the assemblers that have such operators.
fn pair(text: &[u8]) -> Option<Operator> {
    Some(match text {
        [b'<', b'<', ..] => Operator::ShiftLeft,
        [b'>', b'>', ..] => Operator::ShiftRight,
        [b'<', b'=', ..] => Operator::AtMost,
        [b'>', b'=', ..] => Operator::AtLeast,
        [b'<', b'>', ..] | [b'!', b'=', ..] => Operator::Unequal,
        [b'=', b'=', ..] => Operator::Equal,
        [b'&', b'&', ..] => Operator::Both,
        [b'|', b'|', ..] => Operator::Either,
        _ => return None,
    })
}

// The operator of one sign after a term.
fn single(dialect: Dialect, first: u8) -> Option<Operator> {
    Some(match (dialect, first) {
        (_, b'+') => Operator::Add,
        (_, b'-') => Operator::Subtract,
        (_, b'*') => Operator::Multiply,
        (_, b'/') => Operator::Divide,
        (_, b'=') => Operator::Equal,
        (_, b'<') => Operator::Less,
        (_, b'>') => Operator::Greater,
        (_, b'&') => Operator::And,
        (_, b'|') => Operator::Or,
        (Dialect::Edasm, b'^') => Operator::And,
        (Dialect::Acme, b'^') => return None,
        (_, b'^') => Operator::Xor,
        (Dialect::Merlin | Dialect::Edasm, b'!') => Operator::Xor,
        (Dialect::Merlin, b'.') => Operator::Or,
        (Dialect::Merlin, b'#') => Operator::Unequal,
        (Dialect::Dasm | Dialect::Acme | Dialect::Tass, b'%') => Operator::Remainder,
        _ => return None,
    })
}

// The operator of a word.
fn word_operator(dialect: Dialect, word: &[u8], after_term: bool) -> Option<Operator> {
    let rows: &[(&[u8], Operator)] = match (dialect, after_term) {
        (Dialect::Ca65, true) => &[
            (b".mod", Operator::Remainder),
            (b".bitand", Operator::And),
            (b".bitor", Operator::Or),
            (b".bitxor", Operator::Xor),
            (b".shl", Operator::ShiftLeft),
            (b".shr", Operator::ShiftRight),
            (b".and", Operator::Both),
            (b".or", Operator::Either),
        ],
        (Dialect::Ca65, false) => &[
            (b".lobyte", Operator::Low),
            (b".hibyte", Operator::High),
            (b".bitnot", Operator::Invert),
            (b".not", Operator::Not),
        ],
        (Dialect::Acme, true) => &[
            (b"mod", Operator::Remainder),
            (b"div", Operator::Divide),
            (b"and", Operator::And),
            (b"or", Operator::Or),
            (b"xor", Operator::Xor),
            (b"lsl", Operator::ShiftLeft),
            (b"asl", Operator::ShiftLeft),
            (b"lsr", Operator::ShiftRight),
        ],
        _ => return None,
    };
    for (name, operator) in rows {
        if word.eq_ignore_ascii_case(name) {
            return Some(*operator);
        }
    }
    None
}

// The token at the beginning of a text where an operator is expected, and its length.
fn after_a_term(dialect: Dialect, text: &[u8]) -> (Token<'_>, usize) {
    let len = name_len(dialect, text);
    let (word, _) = cut_at(text, len);
    if let Some(operator) = word_operator(dialect, word, true) {
        return (Token::Operator(operator), len);
    }
    if !dialect.is_old() {
        if let Some(operator) = pair(text) {
            return (Token::Operator(operator), 2);
        }
    }
    match text.first() {
        Some(b')') => (Token::Close, 1),
        Some(b']') if dialect == Dialect::Dasm => (Token::Close, 1),
        Some(c) => match single(dialect, *c) {
            Some(operator) => (Token::Operator(operator), 1),
            None => (Token::Bad, 1),
        },
        None => (Token::Bad, 1),
    }
}

// A character after a quote, and the length of both and of the closing quote.
fn character(dialect: Dialect, quote: u8, text: &[u8]) -> (Token<'_>, usize) {
    let kept = if dialect.is_old() { quote } else { b'\'' };
    match text {
        [_, c, close, ..] if *close == quote => (Token::Character(kept, *c), 3),
        [_, c, ..] if dialect.is_old() || dialect == Dialect::Dasm => (
            Token::Character(kept, *c),
            2,
        ),
        _ => (Token::Bad, 1),
    }
}

// A label without a name, as `:-` or `:++`, and its length.
fn turn(text: &[u8]) -> (Token<'_>, usize) {
    let (_, signs) = cut_at(text, 1);
    let minus = front_len(signs, |c| c == b'-');
    let plus = front_len(signs, |c| c == b'+');
    let count = minus.max(plus);
    let back = u16::try_from(minus.saturating_sub(1)).unwrap_or(0);
    let on = u16::try_from(plus).unwrap_or(0);
    if count == 0 {
        (Token::Bad, 1)
    } else {
        (Token::Turn(b'0', back, on), count.saturating_add(1))
    }
}

// A number with a mark before so many digits, and its length.
fn marked(text: &[u8], count: usize) -> (Token<'_>, usize) {
    let (number, _) = cut_at(text, count.saturating_add(1));
    if count == 0 {
        (Token::Bad, 1)
    } else {
        (Token::Number(number), count.saturating_add(1))
    }
}

// A decimal number, or a hexadecimal one after `0x`, and its length.
fn digits(dialect: Dialect, text: &[u8]) -> (Token<'_>, usize) {
    if let [b'0', b'x' | b'X', rest @ ..] = text {
        let (digits, _) = cut_at(rest, front_len(rest, |c| c.is_ascii_hexdigit()));
        return (Token::Hex(digits), digits.len().saturating_add(2));
    }
    let count = front_len(text, |c| c.is_ascii_digit());
    let (number, _) = cut_at(text, count);
    match number {
        // dasm reads it as octal.
        [b'0', _, ..] if dialect == Dialect::Dasm => (Token::Bad, 1),
        _ => (Token::Number(number), count),
    }
}

// The operator of a sign before a term.
fn prefix(dialect: Dialect, first: u8) -> Option<Operator> {
    match (dialect, first) {
        (Dialect::Edasm, b'<') => Some(Operator::High),
        (Dialect::Edasm, b'>') => Some(Operator::Low),
        (_, b'<') => Some(Operator::Low),
        (_, b'>') => Some(Operator::High),
        (_, b'-') => Some(Operator::Negate),
        (Dialect::Ca65 | Dialect::Tass | Dialect::Dasm, b'~') => Some(Operator::Invert),
        (Dialect::Acme, b'!') => Some(Operator::Invert),
        (Dialect::Ca65 | Dialect::Tass | Dialect::Dasm, b'!') => Some(Operator::Not),
        _ => None,
    }
}

// The token at the beginning of a text where a term is expected, and its length.
fn before_a_term(dialect: Dialect, text: &[u8]) -> (Token<'_>, usize) {
    let len = name_len(dialect, text);
    let (word, _) = cut_at(text, len);
    if let Some(operator) = word_operator(dialect, word, false) {
        return (Token::Operator(operator), len);
    }
    match text {
        [b':', b'-' | b'+', ..] if dialect == Dialect::Ca65 => turn(text),
        [b'<', digit @ b'0'..=b'9', ..] if dialect == Dialect::Lisa => (
            Token::Turn(*digit, 0, 0),
            2,
        ),
        [b'>', digit @ b'0'..=b'9', ..] if dialect == Dialect::Lisa => (
            Token::Turn(*digit, 0, 1),
            2,
        ),
        _ if len > 0 => (Token::Name(word), len),
        [b'$', rest @ ..] => marked(text, front_len(rest, |c| c.is_ascii_hexdigit())),
        [b'%', rest @ ..] => marked(text, front_len(rest, |c| c == b'0' || c == b'1')),
        [b'0'..=b'9', ..] => digits(dialect, text),
        [quote @ (b'"' | b'\''), ..] => character(dialect, *quote, text),
        [b'*', ..] => (Token::Here, 1),
        [b'.', ..] if dialect == Dialect::Dasm => (Token::Here, 1),
        [b'(', ..] => (Token::Open, 1),
        [b'[', ..] if dialect == Dialect::Dasm => (Token::Open, 1),
        [first, ..] => match prefix(dialect, *first) {
            Some(operator) => (Token::Operator(operator), 1),
            None => (Token::Bad, 1),
        },
        [] => (Token::Bad, 1),
    }
}

/// Returns the first token of a text that does not begin with a blank, and the text after it.
pub(crate) fn first_token(dialect: Dialect, text: &[u8], after_term: bool) -> (Token<'_>, &[u8]) {
    let (token, len) = if after_term {
        after_a_term(dialect, text)
    } else {
        before_a_term(dialect, text)
    };
    let (_, rest) = cut_at(text, len);
    (token, rest)
}
