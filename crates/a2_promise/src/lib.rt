//! Reads and evaluates promises: what comments in a source say about a routine at its entry and after its return.
//!
//! CALLING.md shows how to use this crate.
#![tactic(auto)]

ghost use Rattle.a2_promise.specs.ReadsOfValues.{ValuesDependOnlyOnReads};
ghost use Rattle.a2_promise.specs.OneReading.{LinesGiveOnePromise, WordsSpellOneExpression};

mod expr;
mod fault;
mod finding;
mod parsing;
mod parts;
mod promises;
mod reader;
mod reading;
mod texts;
mod valuing;
mod words;

pub use expr::{Atom, Expr, Function, Operation};
pub use fault::Refusal;
pub use finding::promises_of;
pub use promises::{Changes, Clause, Found, Promise, Range, Within, promise_in};
pub use texts::{Text, Texts};
pub use valuing::{Bounds, StateView, Visit, value, value_in};
pub use words::{Infix, Relation};

/// A theorem; the function does nothing. The value of an expression depends only on the bytes, registers and flags
/// that it reads.
pub fn values_depend_only_on_reads()
    ensures { ValuesDependOnlyOnReads }
{}

/// A theorem; the function does nothing. No two expressions have the same words and signs.
pub fn words_spell_one_expression()
    ensures { WordsSpellOneExpression }
{}

/// A theorem; the function does nothing. The lines of a source give a routine at most one promise.
pub fn lines_give_one_promise()
    ensures { LinesGiveOnePromise }
{}
