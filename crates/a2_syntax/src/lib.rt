//! Parses source texts of the assembler into lines, each with its label and its operation.
//!
//! CALLING.md shows how to use this crate.
#![tactic(auto)]

// Wraps a found value with `$made`, like `Option::map`. The prover can follow a macro, which has no closure.
macro_rules! made {
    ($found:expr, $it:ident => $made:expr) => {
        match $found {
            Some($it) => Ok(Some($made)),
            None => Ok(None),
        }
    };
}

mod body;
mod expr;
mod fault;
mod limits;
mod line;
mod listed;
mod operand;
mod operation;
mod parser;
mod piece;
mod plain;
mod source;
mod term;
mod word;

pub use fault::Fault;
pub use limits::lines;
pub use listed::{a_listed_operand_is_source_text, a_listing_line_is_source_text};
pub use operation::Operation;
pub use parser::{
    a_text_has_at_most_one_error, a_text_has_at_most_one_list_of_lines,
    a_text_with_an_error_is_not_a_source, parse,
};
pub use source::{
    Body, Bytes, Expr, Exprs, Few, Line, Name, Operand, Part, Signed, Source, Term, Terms,
};
pub use word::is_name;
