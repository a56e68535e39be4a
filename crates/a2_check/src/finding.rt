//! Finds the mistake in a line that is not in the grammar.

use crate::elsewhere::known_elsewhere;
use crate::forms::has_mode;
use crate::line::{Parts, before, hex_and_rest, is_among, parts_of};
use crate::mistake::{Finding, Mistake, equated, front_word};
use crate::operand::{is_accumulator, mistake_in, mistake_in_text, name_len};
use a2_opcode::{Mnemonic, Mode, row_of};
use a2_syntax::is_name;
use a2_text::{after_blanks, front_len, split_word};

const DIRECTIVES: &[u8] = b"ORG EQU DFB DW ASC DS";

// Words before the name that they define, in other languages.
const DEFINITIONS: &[u8] = b"EQU DEFINE #DEFINE .DEFINE CONST LET SET";

/// Whether a word is an operation: a mnemonic or a directive.
pub(crate) fn is_operation(word: &[u8]) -> bool {
    is_among(word, DIRECTIVES) || Mnemonic::named(word).is_some()
}

// A mistake found at a word, and the index where the word begins.
fn found<'a>(mistake: Mistake, at: usize, word: &'a [u8]) -> Option<Finding<'a>> {
    Some(Finding { mistake, at, word })
}

// Finds what is wrong with the encoding of a whole text, given from its first line on.
fn in_text(source: &[u8]) -> Option<Mistake> {
    if source.starts_with(b"\xEF\xBB\xBF") {
        Some(Mistake::ByteOrderMark)
    } else if is_wide(source) {
        Some(Mistake::WideCharacters)
    } else if source.contains(&b'\r') && !source.contains(&b'\n') {
        Some(Mistake::CarriageReturns)
    } else {
        None
    }
}

// Whether a text looks like UTF-16: it begins with a byte-order mark, or one of its first two bytes is 0.
fn is_wide(source: &[u8]) -> bool {
    source.starts_with(b"\xFF\xFE")
        || source.starts_with(b"\xFE\xFF")
        || matches!(source, [0, ..] | [_, 0, ..])
}

// Whether bytes begin with a curly quote in UTF-8.
fn is_curly(bytes: &[u8]) -> bool {
    matches!(bytes, [0xE2, 0x80, 0x98 | 0x99 | 0x9C | 0x9D, ..])
}

// Finds a byte that is not ASCII, outside a comment.
fn in_bytes<'a>(text: &'a [u8], parts: &Parts<'a>) -> Option<Finding<'a>> {
    let end = parts.operand_at.saturating_add(parts.operand.len());
    let at = front_len(text, |c| c < 128);
    if at >= end {
        return None;
    }
    let (_, here) = text.split_at(at);
    let (mistake, len) = if is_curly(here) {
        (Mistake::CurlyQuote, 3)
    } else {
        (Mistake::HighByte, 1)
    };
    let (word, _) = here.split_at(len.min(here.len()));
    found(mistake, at, word)
}

// Whether a word is a hexadecimal address followed by `:` or `-`.
fn is_address(word: &[u8]) -> bool {
    let (address, rest) = hex_and_rest(word);
    !address.is_empty() && matches!(rest, [b':' | b'-'])
}

// Finds the mistake in a word that begins with a digit, in column 1 or after blanks.
fn in_number<'a>(at: usize, word: &'a [u8]) -> Option<Finding<'a>> {
    let (address, rest) = hex_and_rest(word);
    match rest {
        [b':' | b'-'] => found(Mistake::Listing, at, word),
        [b':', ..] => {
            let (shown, _) = word.split_at(word.len().min(address.len().saturating_add(1)));
            found(Mistake::ObjectLine, at, shown)
        }
        _ if front_len(word, |c| matches!(c, b'0'..=b'9')) == word.len() => {
            found(Mistake::LineNumber, at, word)
        }
        _ => found(Mistake::BadName, at, word),
    }
}

// Whether a word begins a comment in another assembler.
fn is_comment(word: &[u8]) -> bool {
    matches!(
        word,
        [b'/', b'/' | b'*', ..] | [b'-', b'-', ..] | [b'#', ..]
    )
}

// Returns what directly follows a mnemonic at the front of a word, or nothing if the word does not begin with one.
fn after_mnemonic(word: &[u8]) -> &[u8] {
    let (name, rest) = word.split_at(word.len().min(3));
    if Mnemonic::named(name).is_some() {
        rest
    } else {
        b""
    }
}

// Whether a word is a mnemonic with its operand attached, without a blank.
fn is_glued(word: &[u8]) -> bool {
    matches!(
        after_mnemonic(word),
        [b'#' | b'$' | b'(' | b'%' | b'"' | b'\'', ..]
    )
}

// Whether a word is a mnemonic with a suffix that forces an addressing mode, such as `.W`.
fn is_forced(word: &[u8]) -> bool {
    matches!(after_mnemonic(word), [b'.', _])
}

// Finds the mistake in the word in column 1.
fn in_label<'a>(parts: &Parts<'a>) -> Option<Finding<'a>> {
    let word = parts.label;
    if word.is_empty() || is_name(word) && !is_operation(word) {
        return None;
    }
    if let [b'0'..=b'9', ..] = word {
        return in_number(0, word);
    }
    found(of_label(word), 0, word)
}

// Returns the mistake in a word in column 1 that does not begin with a digit.
fn of_label(word: &[u8]) -> Mistake {
    if is_address(word) && word.len() >= 4 && !word.ends_with(b":") {
        return Mistake::Listing;
    }
    if is_operation(word) || is_glued(word) {
        return Mistake::OperationInFirstColumn;
    }
    match known_elsewhere(word) {
        Some(other) => Mistake::OtherInFirstColumn(other),
        None => in_name(word),
    }
}

// Returns the mistake in a word that is not a valid name.
fn in_name(word: &[u8]) -> Mistake {
    match word {
        _ if is_comment(word) => Mistake::Comment,
        [b':' | b'@' | b'.' | b']' | b'^', _, ..] => Mistake::LocalLabel,
        [name @ .., b':'] if is_name(name) => Mistake::Colon,
        _ if is_accumulator(word) => Mistake::RegisterName,
        _ if word.len() > 32 && name_len(word) == word.len() => Mistake::LongName,
        _ => Mistake::BadName,
    }
}

// Returns a mnemonic that the word becomes by exchanging two neighbouring letters or leaving out its last letter, or `None` if
// there is none.
fn near_mnemonic(word: &[u8]) -> Option<&'static str> {
    for opcode in 0..=255u8 {
        if let Some(row) = row_of(opcode) {
            let name = row.mnemonic.name();
            if is_near(word, name.as_bytes()) {
                return Some(name);
            }
        }
    }
    None
}

// Whether a word is the name with two neighbouring letters exchanged, or with one more letter at its end.
fn is_near(word: &[u8], name: &[u8]) -> bool {
    match word {
        [a, b, c] => {
            name.eq_ignore_ascii_case(&[*b, *a, *c]) || name.eq_ignore_ascii_case(&[*a, *c, *b])
        }
        [front @ .., _] => name.eq_ignore_ascii_case(front),
        [] => false,
    }
}

// Returns the mistake in a word that no other check recognizes: a misspelt mnemonic, or no operation at all.
fn near_or_none(word: &[u8]) -> Mistake {
    match near_mnemonic(word) {
        Some(name) => Mistake::NearMnemonic(name),
        None => Mistake::NoOperation,
    }
}

// Returns the mistake in a word that is not an operation and does not begin with a digit.
fn of_operation(word: &[u8]) -> Mistake {
    if word.starts_with(b"*=") {
        Mistake::StarOrigin
    } else if is_forced(word) {
        Mistake::ForcedForm
    } else if is_comment(word) {
        Mistake::Comment
    } else if is_glued(word) {
        Mistake::Glued
    } else if word.len() > 1 && word.ends_with(b":") {
        Mistake::Colon
    } else {
        near_or_none(word)
    }
}

// Whether a line begins with blanks and a label, with or without a colon, and then has an operation.
fn has_late_label(parts: &Parts) -> bool {
    let label = parts
        .operation
        .strip_suffix(b":")
        .unwrap_or(parts.operation);
    let (following, _) = split_word(parts.operand);
    parts.label.is_empty() && is_name(label) && is_operation(following)
}

// Whether a text begins with a number or a character in quotes.
fn begins_value(text: &[u8]) -> bool {
    matches!(text, [b'0'..=b'9' | b'$' | b'%' | b'"' | b'\'', ..])
}

// Whether a name and its value follow a word.
fn is_definition(name: &[u8], value: &[u8]) -> bool {
    is_name(name) && !is_operation(name) && begins_value(value)
}

// Returns the kind of the mistake of a name that `=` defines.
fn of_equated(name: &[u8], value: &[u8], is_late: bool) -> Mistake {
    if is_accumulator(name) && is_late && begins_value(value) {
        Mistake::AccumulatorEquals
    } else if is_accumulator(name) {
        Mistake::RegisterName
    } else if !is_late {
        Mistake::GluedEquals
    } else if is_among(name, b"X Y") {
        Mistake::LateEqualsOfRegister
    } else {
        Mistake::LateEquals
    }
}

// Finds a name that `=` defines: after blanks, or without blanks around the `=`.
fn in_equated<'a>(parts: &Parts<'a>) -> Option<Finding<'a>> {
    let (name, value) = equated(*parts);
    let is_free = is_name(name) && !is_operation(name) || is_accumulator(name);
    if !is_free || value.is_empty() {
        return None;
    }
    let is_late = parts.label.is_empty();
    let mistake = of_equated(name, value, is_late);
    if is_late {
        found(mistake, parts.operation_at, name)
    } else {
        found(mistake, 0, front_word(*parts))
    }
}

// Finds a word that defines the name after it.
fn in_definition<'a>(parts: &Parts<'a>) -> Option<Finding<'a>> {
    if is_among(parts.label, DEFINITIONS) && is_definition(parts.operation, parts.operand) {
        return found(Mistake::NameSecond, 0, parts.label);
    }
    let (name, value) = split_word(parts.operand);
    let is_in_operation = parts.label.is_empty() && is_among(parts.operation, DEFINITIONS);
    if is_in_operation && is_definition(name, after_blanks(value)) {
        return found(Mistake::NameSecond, parts.operation_at, parts.operation);
    }
    None
}

// Finds the mistake in a word in the operation field that is not an operation.
fn in_operation<'a>(parts: &Parts<'a>) -> Option<Finding<'a>> {
    let (word, at) = (parts.operation, parts.operation_at);
    if has_late_label(parts) {
        return found(Mistake::LateLabel, at, word);
    }
    if let Some(other) = known_elsewhere(word) {
        return found(Mistake::Other(other), at, word);
    }
    if let [b'0'..=b'9', ..] = word {
        return in_number(at, word);
    }
    found(of_operation(word), at, word)
}

// Finds the mistake in the operand of an operation.
fn in_operand<'a>(parts: &Parts<'a>) -> Option<Finding<'a>> {
    let (operation, operand) = (parts.operation, parts.operand);
    if operation.eq_ignore_ascii_case(b"EQU") && parts.label.is_empty() {
        return found(Mistake::EquWithoutLabel, parts.operation_at, operation);
    }
    if operand.is_empty() {
        return found(Mistake::NoOperand, parts.operation_at, operation);
    }
    let mistake = if operation.eq_ignore_ascii_case(b"ASC") {
        mistake_in_text(operand)
    } else {
        mistake_in(operand)
    };
    let (mistake, at, len) = match mistake {
        Some(mistake) => mistake,
        None => in_whole(operation, operand),
    };
    let (_, here) = operand.split_at(at.min(operand.len()));
    let (word, _) = here.split_at(len.min(here.len()));
    let mistake = with_operation(mistake, parts, word);
    found(mistake, parts.operand_at.saturating_add(at), word)
}

// Whether a word is the mnemonic of a branch.
fn is_branch(word: &[u8]) -> bool {
    match Mnemonic::named(word) {
        Some(mnemonic) => has_mode(mnemonic, Mode::Relative),
        None => false,
    }
}

// Returns the kind of a mistake in an operand of a line with these parts, given the word that contains it.
fn with_operation(mistake: Mistake, parts: &Parts, word: &[u8]) -> Mistake {
    match mistake {
        Mistake::Sign if is_branch(parts.operation) => Mistake::SignOfBranch,
        Mistake::TextAmongBytes if parts.operand.starts_with(b"#") => Mistake::TextInImmediate,
        Mistake::TrailingWords => of_trailing(parts.operation, word),
        _ => mistake,
    }
}

// Returns the kind of the mistake of words after an operand.
fn of_trailing(operation: &[u8], words: &[u8]) -> Mistake {
    if is_among(operation, b"DFB DW") && begins_value(words) {
        Mistake::NoComma
    } else if is_among(words, b"X Y") {
        Mistake::Index
    } else {
        Mistake::TrailingWords
    }
}

// Returns the mistake in an operand whose words are all in valid places: the mistake, where it begins, and its length.
fn in_whole(operation: &[u8], operand: &[u8]) -> (Mistake, usize, usize) {
    let first = before(operand, b',').len();
    if first < operand.len() && is_among(operation, b"ORG EQU DS") {
        (Mistake::SecondOperand, first, operand.len() - first)
    } else {
        (Mistake::Unclear, 0, operand.len())
    }
}

// Finds the first mistake in a line, given its parts.
fn in_parts<'a>(text: &'a [u8], parts: &Parts<'a>) -> Option<Finding<'a>> {
    let of_bytes = in_bytes(text, parts);
    if of_bytes.is_some() {
        return of_bytes;
    }
    let is_equated = is_among(parts.operation, b"= :=") && !is_accumulator(parts.label);
    if is_equated && !parts.label.is_empty() {
        return found(Mistake::Equals, parts.operation_at, parts.operation);
    }
    let of_definition = in_definition(parts).or(in_equated(parts));
    if of_definition.is_some() {
        return of_definition;
    }
    let of_label = in_label(parts);
    if of_label.is_some() {
        return of_label;
    }
    if parts.operation.is_empty() {
        return None;
    }
    if !is_operation(parts.operation) {
        return in_operation(parts);
    }
    in_operand(parts)
}

/// Returns the mistake in a line that is not in the grammar. `source` is the whole text if this is its first line, and
/// otherwise empty.
pub(crate) fn finding<'a>(text: &'a [u8], source: &[u8]) -> Finding<'a> {
    if let Some(mistake) = in_text(source) {
        let (front, _) = text.split_at(text.len().min(3));
        return Finding {
            mistake,
            at: 0,
            word: front,
        };
    }
    match in_parts(text, &parts_of(text)) {
        Some(finding) => finding,
        None => Finding {
            mistake: Mistake::Unclear,
            at: 0,
            word: text,
        },
    }
}
