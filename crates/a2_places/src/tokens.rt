//! The words of a line.

ghost use Rattle.std.specs.Prelude.{◌≤◌, length, IfOk, OnOk, IfSome, All, Contains};
ghost use Rattle.a2_places.specs.Words.{IsWithin};

use a2_text::{front_len, is_blank};
use std::alloc::{AllocError, Global};

/// What a word of a line is.
#[derive(Clone, Copy, Debug, PartialEq, Eq)]
pub enum TokenKind {
    /// The word in column 1.
    Label,
    /// The word after the label.
    Operation,
    /// A name in an operand.
    Name,
    /// A number in an operand.
    Number,
    /// Characters in quotes.
    Text,
    /// The accumulator, or X or Y after a comma.
    Register,
    /// A comment.
    Comment,
    /// Any other character of an operand.
    Sign,
}

/// A word of a line: what it is, the index of its first byte, and the index after its last.
#[derive(Clone, Copy, Debug, PartialEq, Eq)]
pub struct Token {
    pub kind: TokenKind,
    pub from: usize,
    pub to: usize,
}

// The part of a line that comes next.
#[derive(Clone, Copy, PartialEq, Eq)]
enum Field {
    Label,
    Operation,
    Operand,
    // An operand after a comma.
    Index,
}

// Whether a byte may be in a name.
fn is_of_name(byte: u8) -> bool {
    byte.is_ascii_alphanumeric() || byte == b'_'
}

// Returns the length of the text in quotes at the front of a text.
fn quoted_len(text: &[u8], quote: u8) -> usize {
    let following = text.get(1..).unwrap_or(b"");
    let inner = front_len(following, |c| c != quote);
    inner.saturating_add(2).min(text.len())
}

// Returns the kind and the length of a name at the front of an operand.
fn name_piece(text: &[u8], field: Field) -> (TokenKind, usize) {
    let length = front_len(text, is_of_name);
    let kind = match text.get(..length).unwrap_or(b"") {
        b"A" | b"a" => TokenKind::Register,
        b"X" | b"x" | b"Y" | b"y" if field == Field::Index => TokenKind::Register,
        _ => TokenKind::Name,
    };
    (kind, length)
}

// Returns the kind and the length of the word at the front of an operand that begins with this byte.
fn operand_piece(first: u8, text: &[u8], field: Field) -> (TokenKind, usize) {
    let following = text.get(1..).unwrap_or(b"");
    match first {
        b'"' | b'\'' => (TokenKind::Text, quoted_len(text, first)),
        b'$' => {
            let digits = front_len(following, |c| c.is_ascii_hexdigit());
            (TokenKind::Number, digits.saturating_add(1))
        }
        b'%' => {
            let digits = front_len(following, |c| c == b'0' || c == b'1');
            (TokenKind::Number, digits.saturating_add(1))
        }
        b'0'..=b'9' => (TokenKind::Number, front_len(text, |c| c.is_ascii_digit())),
        b'A'..=b'Z' | b'a'..=b'z' | b'_' => name_piece(text, field),
        _ => (TokenKind::Sign, 1),
    }
}

// Returns the kind and the length of the word at the front of a text that begins with this byte, in this part of a line.
fn piece(first: u8, text: &[u8], field: Field) -> (TokenKind, usize) {
    if first == b';' {
        return (TokenKind::Comment, text.len());
    }
    let word = front_len(text, |c| !is_blank(c) && c != b';');
    match field {
        Field::Label => (TokenKind::Label, word),
        Field::Operation => (TokenKind::Operation, word),
        _ => operand_piece(first, text, field),
    }
}

// Returns the part of a line after a word.
fn field_after(first: u8, field: Field) -> Field {
    match field {
        Field::Label => Field::Operation,
        _ if first == b',' => Field::Index,
        _ => Field::Operand,
    }
}

// Adds a word to those of a line of `count` bytes.
fn note(
    tokens: &mut Vec<Token>,
    kind: TokenKind,
    from: usize,
    to: usize,
    count: usize,
) -> Result<(), AllocError>
    requires { All (IsWithin count) tokens.old.items }
    ensures { OnOk result (All (IsWithin count) tokens.new.items) }
{
    let to = to.min(count);
    let from = from.min(to);
    tokens.push(Token { kind, from, to })?;
    Ok(())
}

/// Returns the words of a line, in order. The line may have any bytes, and need not be in the grammar.
pub fn tokens_of(alloc: Global, line: &[u8]) -> Result<Vec<Token>, AllocError>
    ensures { IfOk result (λ tokens. All (IsWithin (length line.now)) tokens.items) }
{
    let mut tokens = Vec::new(alloc);
    let mut field = Field::Label;
    let mut rest = line;
    'words: for _ in 0..line.len() {
        let Some(first) = rest.first().copied() else {
            return Ok(tokens);
        };
        let from = line.len().saturating_sub(rest.len());
        let length = if is_blank(first) {
            if field == Field::Label {
                field = Field::Operation;
            }
            front_len(rest, |c| is_blank(c))
        } else if from == 0 && first == b'*' {
            note(
                &mut tokens,
                TokenKind::Comment,
                from,
                line.len(),
                line.len(),
            )?;
            return Ok(tokens);
        } else {
            let (kind, length) = piece(first, rest, field);
            let to = from.saturating_add(length);
            note(&mut tokens, kind, from, to, line.len())?;
            field = field_after(first, field);
            length
        };
        rest = rest.get(length.max(1)..).unwrap_or(b"");
    }
    Ok(tokens)
}

/// Returns the word at an index of a line with these words: the one that the byte is in, or the one that ends there.
pub fn token_at(tokens: &[Token], index: usize) -> Option<Token>
    ensures { IfSome result (λ token. Contains tokens.now token × (token.from ≤ index) × (index ≤ token.to)) }
{
    for token in tokens {
        if token.from <= index && index < token.to {
            return Some(*token);
        }
    }
    for token in tokens {
        if token.from <= index && index <= token.to {
            return Some(*token);
        }
    }
    None
}

/// Returns the index after the statement of a line with these words: everything before its comment.
pub fn statement_end(tokens: &[Token]) -> usize {
    let mut end = 0;
    for token in tokens {
        if token.kind != TokenKind::Comment {
            end = token.to;
        }
    }
    end
}
