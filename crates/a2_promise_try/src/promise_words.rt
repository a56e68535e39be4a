//! The words of promises: the verbs of lines, and the words of expressions.

use crate::line_words::Piece;
use a2_asm::Program;
use std::alloc::Global;

/// What follows the verb of a line.
#[derive(Clone, Copy)]
pub(crate) enum Follows {
    Condition,
    /// A number, or a list of what may change.
    Items,
    Text,
}

/// A verb: its spelling, what follows it, and the message about a word that is nearly this verb.
#[derive(Clone, Copy)]
pub(crate) struct VerbRow {
    pub name: &'static [u8],
    pub follows: Follows,
    pub nearly: &'static str,
}

/// The verbs of lines.
pub(crate) static VERBS: [VerbRow; 8] = [
    VerbRow {
        name: b"requires",
        follows: Follows::Condition,
        nearly: "unknown word after `;:`; did you mean `requires`?",
    },
    VerbRow {
        name: b"ensures",
        follows: Follows::Condition,
        nearly: "unknown word after `;:`; did you mean `ensures`?",
    },
    VerbRow {
        name: b"changes",
        follows: Follows::Items,
        nearly: "unknown word after `;:`; did you mean `changes`?",
    },
    VerbRow {
        name: b"prints",
        follows: Follows::Text,
        nearly: "unknown word after `;:`; did you mean `prints`?",
    },
    VerbRow {
        name: b"takes",
        follows: Follows::Text,
        nearly: "unknown word after `;:`; did you mean `takes`?",
    },
    VerbRow {
        name: b"invariant",
        follows: Follows::Condition,
        nearly: "unknown word after `;:`; did you mean `invariant`?",
    },
    VerbRow {
        name: b"decreases",
        follows: Follows::Items,
        nearly: "unknown word after `;:`; did you mean `decreases`?",
    },
    VerbRow {
        name: b"note",
        follows: Follows::Condition,
        nearly: "unknown word after `;:`; did you mean `note`?",
    },
];

/// A word of expressions, and the message about a name of the source that is spelled like it.
type Hiding = (&'static [u8], &'static str);

const REGISTER: &str =
    "this is the register, not the name of the source; to use the byte or number of the name, write its value, such as $06 or #$06, or rename it";

const FLAG: &str =
    "this is the flag, not the name of the source; to use the byte or number of the name, write its value, such as $06 or #$06, or rename it";

const WORD: &str =
    "this is a word of promises, not the name of the source; to use the byte or number of the name, write its value, such as $06 or #$06, or rename it";

// The words of expressions that are names of registers and flags, and then the others.
static HIDING: [Hiding; 31] = [
    (b"A", REGISTER),
    (b"X", REGISTER),
    (b"Y", REGISTER),
    (b"S", REGISTER),
    (b"C", FLAG),
    (b"Z", FLAG),
    (b"N", FLAG),
    (b"V", FLAG),
    (b"D", FLAG),
    (b"I", FLAG),
    (b"cycles", WORD),
    (b"steps", WORD),
    (b"old", WORD),
    (b"at", WORD),
    (b"text", WORD),
    (b"not", WORD),
    (b"if", WORD),
    (b"then", WORD),
    (b"else", WORD),
    (b"for", WORD),
    (b"sum", WORD),
    (b"min", WORD),
    (b"max", WORD),
    (b"abs", WORD),
    (b"bit", WORD),
    (b"signed", WORD),
    (b"word", WORD),
    (b"iff", WORD),
    (b"or", WORD),
    (b"and", WORD),
    (b"nothing", WORD),
];

/// Returns the message about a name of the source that is spelled like this word, or `None` if the word has no meaning
/// in expressions.
pub(crate) fn hidden_by(word: &[u8]) -> Option<&'static str> {
    for (name, says) in &HIDING {
        if *name == word {
            return Some(*says);
        }
    }
    None
}

/// Returns whether the source defines a name.
pub(crate) fn is_name(program: &Program<Global>, word: &[u8]) -> bool {
    match std::str::from_utf8(word) {
        Ok(name) => program.name(name).is_some(),
        Err(_) => false,
    }
}

/// Returns whether an expression, or a list of what may change, can begin with a piece of a line.
pub(crate) fn can_begin(program: &Program<Global>, piece: Piece) -> bool {
    match piece {
        Piece::Word(word) => hidden_by(word).is_some() || is_name(program, word),
        Piece::Decimal(_) | Piece::Place(_) => true,
        Piece::Quoted(_, _) => false,
        Piece::Sign(sign, _) => matches!(sign, b'#' | b'[' | b'(' | b'-'),
    }
}

/// Returns the row of a verb.
pub(crate) fn verb_row(word: &[u8]) -> Option<VerbRow> {
    for row in &VERBS {
        if row.name == word {
            return Some(*row);
        }
    }
    None
}
