//! The message for an error.

use crate::line::Parts;
use crate::mistake::{Finding, Sentence};
use a2_opcode::Mnemonic;

/// The message for an error: its place in the line, what is wrong and how to fix it, with the texts for the placeholders of
/// these two sentences.
#[derive(Clone, Copy)]
pub(crate) struct Message<'a> {
    /// The index where the place begins, counted from 0.
    pub at: usize,
    /// The number of characters at the place; 0 is shown as 1.
    pub width: usize,
    pub what: Sentence,
    pub fix: Sentence,
    /// The text for `@` in the sentence that says what is wrong.
    pub shown: &'a [u8],
    /// The text for `@` in the fix.
    pub first: &'a [u8],
    /// The text for `~`.
    pub second: &'a [u8],
    /// The number for `#`.
    pub number: u16,
    /// The mnemonic whose operand forms are listed after the fix.
    pub forms: Option<Mnemonic>,
}

impl<'a> Message<'a> {
    /// Returns a message with these two sentences at a place, without texts for placeholders.
    pub(crate) fn new(at: usize, width: usize, what: Sentence, fix: Sentence) -> Message<'a> {
        Message {
            at,
            width,
            what,
            fix,
            shown: b"",
            first: b"",
            second: b"",
            number: 0,
            forms: None,
        }
    }

    /// Returns the message with this word for `@` in both sentences.
    pub(crate) fn with_word(self, word: &'a [u8]) -> Message<'a> {
        Message {
            shown: word,
            first: word,
            ..self
        }
    }

    /// Returns the message with this number for `#`.
    pub(crate) fn with_number(self, number: u16) -> Message<'a> {
        Message { number, ..self }
    }

    /// Returns the message for a mistake in a line with these parts.
    pub(crate) fn of_finding(finding: Finding<'a>, parts: Parts<'a>) -> Message<'a> {
        let Finding { mistake, at, word } = finding;
        Message {
            shown: mistake.shown(parts, word),
            first: mistake.first(parts, word),
            second: mistake.second(parts),
            ..Message::new(at, word.len(), mistake.what(), mistake.fix(parts))
        }
    }

    /// Returns the sentence that says what is wrong.
    pub(crate) fn problem(self) -> FilledSentence<'a> {
        FilledSentence {
            sentence: self.what,
            first: self.shown,
            second: self.second,
            number: self.number,
            forms: None,
        }
    }

    /// Returns the sentence that says how to fix it.
    pub(crate) fn fix_sentence(self) -> FilledSentence<'a> {
        FilledSentence {
            sentence: self.fix,
            first: self.first,
            forms: self.forms,
            ..self.problem()
        }
    }
}

/// A sentence, and the texts for its placeholders.
#[derive(Clone, Copy)]
pub(crate) struct FilledSentence<'a> {
    pub sentence: Sentence,
    /// The text for `@`.
    pub first: &'a [u8],
    /// The text for `~`.
    pub second: &'a [u8],
    /// The number for `#`.
    pub number: u16,
    /// The mnemonic whose operand forms are listed after the sentence.
    pub forms: Option<Mnemonic>,
}

/// Returns a printable character for a byte: a blank for a tab, and `?` for other bytes that are not printable.
pub(crate) fn shown(c: u8) -> u8 {
    match c {
        b' '..=b'~' => c,
        b'\t' => b' ',
        _ => b'?',
    }
}
