//! The kinds of mistake in a line that is not in the grammar, and the message for each.

use crate::elsewhere::Elsewhere;
use crate::line::{Parts, before};
use a2_text::{after_blanks, split_word};

/// A sentence with placeholders (`@`, `~`, `#`) for words and numbers of the line.
pub(crate) type Sentence = &'static [u8];

/// A kind of mistake in a line.
#[derive(Clone, Copy)]
pub(crate) enum Mistake {
    ByteOrderMark,
    WideCharacters,
    CarriageReturns,
    CurlyQuote,
    HighByte,
    Comment,
    LineNumber,
    Listing,
    ObjectLine,
    OperationInFirstColumn,
    OtherInFirstColumn(Elsewhere),
    Colon,
    LocalLabel,
    LongName,
    RegisterName,
    BadName,
    NameSecond,
    Glued,
    Equals,
    GluedEquals,
    LateEquals,
    LateEqualsOfRegister,
    AccumulatorEquals,
    EquWithoutLabel,
    Other(Elsewhere),
    StarOrigin,
    ForcedForm,
    NearMnemonic(&'static str),
    LateLabel,
    NoOperation,
    NoOperand,
    OpenQuote,
    EmptyText,
    NoText,
    TextAmongBytes,
    TextInImmediate,
    TextAfterText,
    BytesAfterText,
    Sign,
    SignOfBranch,
    Hexadecimal,
    Binary,
    BadNumber,
    Brackets,
    Operator,
    SquareBracket,
    Slash,
    Forced,
    OutsideX,
    InsideY,
    Accumulator,
    AccumulatorValue,
    Index,
    NoComma,
    TrailingWords,
    TwoOperations,
    SecondOperand,
    Missing,
    Strange,
    Unclear,
}

/// A mistake, the index in its line where it begins, counted from 0, and the word that contains it.
#[derive(Clone, Copy)]
pub(crate) struct Finding<'a> {
    pub mistake: Mistake,
    pub at: usize,
    pub word: &'a [u8],
}

/// Returns the digits of a hexadecimal number written as `0x..`, `&..` or `..h`.
pub(crate) fn digits_of(word: &[u8]) -> &[u8] {
    match word {
        [b'0', b'x' | b'X', digits @ ..] => digits,
        [b'&', digits @ ..] => digits,
        [digits @ .., b'h' | b'H'] => digits,
        _ => word,
    }
}

/// Returns the digits of a binary number written as `0b..`, or as `..b` with at least four digits.
pub(crate) fn bits_of(word: &[u8]) -> &[u8] {
    match word {
        [b'0', b'b' | b'B', digits @ ..] => digits,
        [digits @ .., b'b' | b'B'] if digits.len() >= 4 => digits,
        _ => word,
    }
}

// Returns what follows a comma and blanks.
fn after_comma(word: &[u8]) -> &[u8] {
    match word {
        [b',', following @ ..] => after_blanks(following),
        _ => word,
    }
}

/// Returns the first word of a line.
pub(crate) fn front_word(parts: Parts<'_>) -> &[u8] {
    if parts.label.is_empty() {
        parts.operation
    } else {
        parts.label
    }
}

// Returns what follows the first word of a line, or `None` if these are two words in column 1 or more.
fn after_front_word(parts: Parts<'_>) -> Option<&[u8]> {
    if parts.label.is_empty() {
        Some(parts.operand)
    } else if parts.operand.is_empty() {
        Some(parts.operation)
    } else {
        None
    }
}

/// Returns the name and the value of a definition with `=` after its first word or in it; both are empty if a line is not one.
pub(crate) fn equated(parts: Parts<'_>) -> (&[u8], &[u8]) {
    let word = front_word(parts);
    let name = before(word, b'=');
    let (_, glued) = word.split_at(name.len().saturating_add(1).min(word.len()));
    match after_front_word(parts) {
        Some(next) if name.len() == word.len() => (name, after_equals(next)),
        Some(next) if glued.is_empty() => (name, next),
        Some([]) => (name, glued),
        _ => (b"", b""),
    }
}

// Returns what follows `=` or `:=` and blanks at the front of a text, or nothing if it does not begin with that.
fn after_equals(text: &[u8]) -> &[u8] {
    match text {
        [b'=', value @ ..] => after_blanks(value),
        [b':', b'=', value @ ..] => after_blanks(value),
        _ => b"",
    }
}

// Returns the register of an index: the letter X or Y, alone or in parentheses.
fn register_of(word: &[u8]) -> &[u8] {
    match word {
        [b'(' | b'[', register @ .., b')' | b']'] => register,
        _ => word,
    }
}

// Returns the name and the value of a definition that has the name after its first word.
fn name_and_value<'a>(parts: Parts<'a>) -> (&'a [u8], &'a [u8]) {
    if parts.label.is_empty() {
        let (name, following) = split_word(parts.operand);
        (name, after_blanks(following))
    } else {
        (parts.operation, parts.operand)
    }
}

// Returns the name of a local label without its mark.
fn unmarked(word: &[u8]) -> &[u8] {
    let word = word.strip_suffix(b":").unwrap_or(word);
    match word {
        [b':' | b'@' | b'.' | b']' | b'^', name @ ..] => name,
        _ => word,
    }
}

// Returns the name before a suffix that forces an addressing mode, or after such a prefix.
fn unforced(word: &[u8]) -> &[u8] {
    match word {
        [b'!' | b':', name @ ..] => name,
        [name @ .., b'.', _] => name,
        _ => word,
    }
}

impl Mistake {
    /// Returns the sentence that says what is wrong. The word and its line are shown after it; `@` stands for the word that
    /// `shown` returns.
    pub(crate) fn what(self) -> Sentence {
        match self {
            Mistake::ByteOrderMark => b"the source begins with a byte-order mark",
            Mistake::WideCharacters =>
                b"the source is in UTF-16, with two bytes for each character",
            Mistake::CarriageReturns =>
                b"the lines end with carriage returns only, so they are read as one line",
            Mistake::CurlyQuote => b"curly quotes are not allowed",
            Mistake::HighByte => b"this character is not ASCII",
            Mistake::Comment => b"`@` does not begin a comment",
            Mistake::TrailingWords => b"unexpected `@`",
            Mistake::LineNumber => b"`@` looks like a line number, but lines are not numbered",
            Mistake::Listing => b"`@` is an address, so this is a line of a listing",
            Mistake::ObjectLine => b"`@` is an address, so this is an object line",
            Mistake::OperationInFirstColumn | Mistake::OtherInFirstColumn(_) =>
                b"`@` is in column 1, which is for labels",
            Mistake::Colon => b"`@` must not end with a colon",
            Mistake::LocalLabel => b"`@` is not a valid name; a local label begins with a dot",
            Mistake::LongName => b"the name has more than 32 characters",
            Mistake::RegisterName | Mistake::Accumulator | Mistake::AccumulatorEquals =>
                b"`@` is the accumulator, not a name",
            Mistake::BadName => b"`@` is not a valid name",
            Mistake::NameSecond => b"`@` is before the name, but a name begins in column 1",
            Mistake::Glued => b"`@` has no blank after the operation",
            Mistake::EquWithoutLabel => b"EQU needs a label",
            Mistake::ForcedForm | Mistake::Forced =>
                b"`@` cannot force an addressing mode: the value of the operand decides it",
            Mistake::GluedEquals => b"`=` is not an operation of this assembler",
            Mistake::Equals
            | Mistake::StarOrigin
            | Mistake::Other(_)
            | Mistake::NearMnemonic(_)
            | Mistake::NoOperation => b"`@` is not an operation of this assembler",
            Mistake::LateLabel => b"`@` is not an operation; a label begins in column 1",
            Mistake::LateEquals => b"`@` is not an operation; a name begins in column 1",
            Mistake::LateEqualsOfRegister =>
                b"`@` is not an operation; LD@ loads the register, and a name begins in column 1",
            Mistake::NoOperand => b"`@` needs an operand",
            Mistake::OpenQuote => b"the quote is not closed",
            Mistake::EmptyText => b"ASC needs at least one character",
            Mistake::NoText => b"`@` is not a text in quotes",
            Mistake::TextAmongBytes | Mistake::TextInImmediate =>
                b"only one character is allowed between quotes here",
            Mistake::TextAfterText | Mistake::BytesAfterText => b"ASC takes only one text",
            Mistake::Sign | Mistake::SignOfBranch =>
                b"`@` begins with a sign, which is not allowed",
            Mistake::Hexadecimal =>
                b"`@` is not a number here: a hexadecimal number begins with `$`",
            Mistake::Binary => b"`@` is not a number here: a binary number begins with `%`",
            Mistake::BadNumber => b"`@` is not a number from 0 to 65535",
            Mistake::Brackets => b"parentheses are not allowed inside an expression",
            Mistake::Operator => b"`@` is not an operator",
            Mistake::SquareBracket => b"`@` is not a parenthesis",
            Mistake::Slash => b"`/` does not give the high byte",
            Mistake::OutsideX => b"`,X` belongs inside the parentheses",
            Mistake::InsideY => b"`,Y` belongs after the parentheses",
            Mistake::AccumulatorValue => b"`A` is the accumulator, not a value",
            Mistake::Index => b"an index follows a comma, so `@` is not allowed here",
            Mistake::NoComma => b"a comma is missing before `@`",
            Mistake::TwoOperations => b"a line has only one operation",
            Mistake::SecondOperand => b"`@` takes only one operand",
            Mistake::Missing => b"a value is missing",
            Mistake::Strange => b"`@` is not allowed here",
            Mistake::Unclear => b"`@` is not a valid operand",
        }
    }

    /// Returns the word for `@` in the sentence that says what is wrong.
    pub(crate) fn shown<'a>(self, parts: Parts<'a>, word: &'a [u8]) -> &'a [u8] {
        match self {
            Mistake::NoOperand | Mistake::SecondOperand => parts.operation,
            _ => word,
        }
    }

    /// Returns the sentence that says how to fix it. `@` stands for the word that `first` returns, and `~` for that of
    /// `second`.
    pub(crate) fn fix(self, parts: Parts) -> Sentence {
        match self {
            Mistake::ByteOrderMark => b"save it as UTF-8 without a byte-order mark (BOM)",
            Mistake::WideCharacters => b"save it as ASCII or UTF-8",
            Mistake::CarriageReturns =>
                b"end each line with a line feed, as  tr '\\r' '\\n' <OLD >NEW  does",
            Mistake::CurlyQuote => b"use straight quotes, \" or '",
            Mistake::HighByte => b"use ASCII characters here; only comments may contain others",
            Mistake::Comment => b"begin a comment with ;",
            Mistake::TrailingWords => b"put ; before a comment, or commas between values",
            Mistake::LineNumber => b"remove the number",
            Mistake::Listing => b"remove the address and the bytes after it",
            Mistake::ObjectLine =>
                b"write  ORG $@, then the bytes in the next line, as in  DFB $A9,$C1",
            Mistake::OperationInFirstColumn => moved(parts.operation),
            Mistake::NameSecond => b"write @ EQU ~",
            Mistake::LateLabel => b"write @ in column 1",
            Mistake::OtherInFirstColumn(_) | Mistake::Other(_) => b"@~",
            Mistake::Colon | Mistake::Forced => b"write @",
            Mistake::NearMnemonic(_) => b"did you mean @?",
            Mistake::LocalLabel => b"write .@, or a name that no other label has, such as L_@",
            Mistake::LongName => b"use a name of at most 32 characters",
            Mistake::RegisterName => b"use another name, such as ACC",
            Mistake::Accumulator =>
                b"use another name, such as ACC, or leave A out if the instruction uses it anyway",
            Mistake::BadName => b"a name begins with a letter or _, then has letters, digits and _",
            Mistake::Glued => b"put a blank before the operand",
            Mistake::Equals
            | Mistake::GluedEquals
            | Mistake::LateEquals
            | Mistake::LateEqualsOfRegister => b"write @ EQU ~",
            Mistake::AccumulatorEquals => b"write  LDA @~",
            Mistake::EquWithoutLabel => b"put a name in column 1, as in FIVE EQU 5",
            Mistake::StarOrigin => b"write  ORG @",
            Mistake::ForcedForm => b"write  @ ~",
            Mistake::NoOperation if is_alone(parts) =>
                b"use one of the 56 mnemonics or a directive; a label begins in column 1",
            Mistake::NoOperation => b"use one of the 56 mnemonics, or ORG, EQU, DFB, DW, ASC or DS",
            Mistake::NoOperand =>
                b"write a number or a name after it; after ASC, write a text in quotes",
            Mistake::OpenQuote => b"close it, as in \"A\" or 'A'",
            Mistake::EmptyText => b"remove the line, or write  DS 0 to keep its label",
            Mistake::NoText =>
                b"put it between \" to set bit 7 of each byte, or between ' to clear it",
            Mistake::TextAmongBytes => b"write one character, or use ASC for a text",
            Mistake::TextInImmediate => b"write one character, as in @",
            Mistake::TextAfterText => b"put it in the next line, as in  ASC @",
            Mistake::BytesAfterText => b"put it in the next line, as in  DFB @",
            Mistake::Sign =>
                b"write <0@ for a byte, which is $FF for -1; for a word write its value, such as $FFFF for -1",
            Mistake::SignOfBranch =>
                b"write a label, or * and a distance from this line, as in *+4",
            Mistake::Hexadecimal => b"write $@",
            Mistake::Binary => b"write %@",
            Mistake::BadNumber =>
                b"write 1 to 5 digits, $ and 1 to 4 digits from 0 to F, or % and 1 to 16 digits 0 or 1",
            Mistake::Brackets => b"remove them: + and - are evaluated from left to right",
            Mistake::Operator => b"use only + and -, or write the result as a number",
            Mistake::SquareBracket => b"use ( and )",
            Mistake::Slash => b"use > instead",
            Mistake::OutsideX => b"write (P,X) with X, or (P),Y with Y",
            Mistake::InsideY => b"write (P),Y with Y, or (P,X) with X",
            Mistake::AccumulatorValue => b"write @ for the letter, or ~ for the number 10",
            Mistake::Index => b"write ,@ instead",
            Mistake::NoComma => b"put commas between values, as in 1,2,3",
            Mistake::TwoOperations => b"put each operation on its own line",
            Mistake::SecondOperand =>
                b"remove the comma and what follows it, or use a new line for that",
            Mistake::Missing => b"write a number, a name, a character in quotes or *",
            Mistake::Strange => b"remove it, or write a number, a name, a character in quotes or *",
            Mistake::Unclear =>
                b"use a form such as ~5, $300, $300,X, ($10,X) or ($10),Y; after ORG, EQU, DFB, DW and DS write a value without ~",
        }
    }

    /// Returns the word for `@` in the fix.
    pub(crate) fn first<'a>(self, parts: Parts<'a>, word: &'a [u8]) -> &'a [u8] {
        match self {
            Mistake::OtherInFirstColumn(other) | Mistake::Other(other) => other.here,
            Mistake::NearMnemonic(name) => name.as_bytes(),
            Mistake::ObjectLine => unended(word),
            Mistake::Colon | Mistake::LocalLabel | Mistake::LateLabel => unmarked(word),
            Mistake::NameSecond => name_and_value(parts).0,
            Mistake::TextInImmediate | Mistake::AccumulatorValue => b"#\"A\"",
            Mistake::AccumulatorEquals => b"#",
            Mistake::TextAfterText | Mistake::BytesAfterText => after_comma(word),
            Mistake::Index => register_of(word),
            Mistake::Equals => parts.label,
            Mistake::GluedEquals | Mistake::LateEquals | Mistake::LateEqualsOfRegister => {
                equated(parts).0
            }
            Mistake::StarOrigin => unstarred(word),
            Mistake::ForcedForm | Mistake::Forced => unforced(word),
            Mistake::Hexadecimal => digits_of(word),
            Mistake::Binary => bits_of(word),
            _ => word,
        }
    }

    /// Returns the word for `~` in the fix.
    pub(crate) fn second<'a>(self, parts: Parts<'a>) -> &'a [u8] {
        match self {
            Mistake::OtherInFirstColumn(other) => after_first_one(other, parts),
            Mistake::Other(other) => kept(other, parts),
            Mistake::Equals | Mistake::ForcedForm => parts.operand,
            Mistake::GluedEquals
            | Mistake::LateEquals
            | Mistake::LateEqualsOfRegister
            | Mistake::AccumulatorEquals => equated(parts).1,
            Mistake::OperationInFirstColumn => parts.operation,
            Mistake::NameSecond => name_and_value(parts).1,
            Mistake::AccumulatorValue => b"#$A",
            Mistake::Unclear => b"#",
            _ => b"",
        }
    }
}

// Whether the operation is the only word of its line.
fn is_alone(parts: Parts) -> bool {
    parts.label.is_empty() && parts.operand.is_empty()
}

// Returns the operand if it is kept after the replacement of another assembler's word. For reserved space only the length is
// kept.
fn kept<'a>(other: Elsewhere, parts: Parts<'a>) -> &'a [u8] {
    if other.is_room() {
        before(parts.operand, b',')
    } else if other.keeps_operand() {
        parts.operand
    } else {
        b""
    }
}

// Returns the address after `*=`.
fn unstarred(word: &[u8]) -> &[u8] {
    match word {
        [b'*', b'=', address @ ..] => address,
        _ => word,
    }
}

// The same for a word in column 1: there the operand is in the operation field.
fn after_first_one<'a>(other: Elsewhere, parts: Parts<'a>) -> &'a [u8] {
    if other.keeps_operand() {
        parts.operation
    } else {
        b""
    }
}

// Returns an address without the mark at its end.
fn unended(word: &[u8]) -> &[u8] {
    match word {
        [address @ .., b':' | b'-'] => address,
        _ => word,
    }
}

// Returns the fix for an operation in column 1, which includes the next word if there is one.
fn moved(following: &[u8]) -> Sentence {
    if following.is_empty() {
        b"put a blank before it:  @"
    } else {
        b"put a blank before it:  @ ~"
    }
}
