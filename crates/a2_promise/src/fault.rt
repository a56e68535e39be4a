//! The reasons why a promise cannot be judged.

use std::alloc::AllocError;

/// An error in the lines of a promise: its position (line and column, from 1), and its message.
#[derive(Clone, Copy)]
pub struct Refusal {
    pub line: usize,
    pub column: usize,
    pub says: &'static str,
}

/// The error in a line that cannot be read. It holds no message until the error is reported, because the prover
/// follows at each `?` what a text borrows from.
#[derive(Clone, Copy)]
pub(crate) enum Why {
    FactForNumber,
    NumberForFact,
    TooDeep,
    NoNumber,
    NoAddress,
    NoText,
    NoLabel,
    AtOutside,
    GroupNotClosed,
    AddressNotClosed,
    PairNotOpened,
    PairWithoutComma,
    PairNotClosed,
    BitWithoutOf,
    IfWithoutThen,
    ForWithoutAll,
    NothingCounted,
    TooManyNames,
    NothingSaid,
    MoreBehind,
    NoVerb,
    StackChanges,
    RangeDownwards,
    NoSpelling,
    TooManyCharacters,
}

impl Why {
    /// Returns the message.
    pub fn text(self) -> &'static str {
        match self {
            Why::FactForNumber =>
                "expected a number such as A + 1, found a condition, which is true or false",
            Why::NumberForFact =>
                "expected a condition such as A = 3, found a number; compare it with another number",
            Why::TooDeep => "this expression is nested too deeply; split it into several lines",
            Why::NoNumber =>
                "expected a number, `$` with one to four hexadecimal digits, or a name that the source defines",
            Why::NoAddress =>
                "expected a register (A X Y S), a flag (C Z N V D I), an address such as $10 or a name that the source defines",
            Why::NoText =>
                "expected a text in quotes with at least one character, as in text $0400 = \"HI\"",
            Why::NoLabel =>
                "expected a label of this routine after `at`, as in at LOOP X; the label needs an invariant, decreases or note line before it",
            Why::AtOutside => "`at` is allowed only in invariant, decreases and note lines",
            Why::GroupNotClosed => "expected `)`",
            Why::AddressNotClosed => "expected `]`, as in [#$2000 + X]",
            Why::PairNotOpened => "expected `(`, as in min(A, X)",
            Why::PairWithoutComma => "expected a comma, as in min(A, X)",
            Why::PairNotClosed => "expected `)`, as in min(A, X)",
            Why::BitWithoutOf => "expected `of`, as in bit 3 of A",
            Why::IfWithoutThen => "expected `then`, as in if C then A = 1 else A = 0",
            Why::ForWithoutAll => "expected `all`, as in for all i < 8: [#$2000 + i] = 0",
            Why::NothingCounted =>
                "expected a counter, its limit and `:`, as in for all i < 8: [#$2000 + i] = 0; a register or flag cannot be the counter",
            Why::TooManyNames => "at most four `for all` and `sum` can be nested",
            Why::NothingSaid => "expected an expression",
            Why::MoreBehind =>
                "unexpected text; remove it, or write an operator or a comma before it",
            Why::NoVerb =>
                "expected requires, ensures, changes, prints, takes, invariant, decreases or note after `;:`",
            Why::StackChanges =>
                "S cannot be listed in `changes`; a routine must pull as many bytes as it pushes",
            Why::RangeDownwards =>
                "the last address of the range is below the first; write the lower one first",
            Why::NoSpelling =>
                "expected a text in quotes and nothing after it, as in prints \"YES\\r\"; write \\r for RETURN and \\\\ for \\",
            Why::TooManyCharacters =>
                "these texts have more than 4,096 characters together; shorten them",
        }
    }
}

/// Why a line cannot be read.
#[derive(Clone, Copy)]
pub(crate) enum ReadFault {
    /// An error at the place where this many bytes of the line are left.
    Says(Why, usize),
    Memory,
}

impl From<AllocError> for ReadFault {
    fn from(_error: AllocError) -> ReadFault {
        ReadFault::Memory
    }
}
