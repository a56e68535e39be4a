//! Imports sources of other assemblers as sources of this language.
//!
//! CALLING.md shows how to call it.
#![tactic(auto)]

mod blocks;
mod comparison;
mod cutting;
mod data;
mod dialect;
mod expression;
mod fault;
mod import;
mod kind;
mod names;
mod operand;
mod operator;
mod outcome;
mod parts;
mod pieces;
mod print;
mod reading;
mod rules;
mod scan;
mod statement;
mod token;
mod value;

pub use comparison::Difference;
pub use dialect::{Dialect, Old};
pub use fault::ImportFault;
pub use import::{Imported, Note, NoteKind, import_source};
pub use kind::guess;
