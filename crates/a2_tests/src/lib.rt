//! Tests of programs against a WANT file, which states what the run of each case must end with.
//!
//! CALLING.md shows how to call it.
#![tactic(auto)]

ghost use Rattle.a2_tests.specs.Pages.{TextsArePlain};

mod call;
mod call_report;
mod cases;
mod judge;
mod line;
mod line_fault;
mod markup;
mod miss_report;
mod page;
mod report;
mod requirements;
mod rows;
mod settings;

pub use cases::{Case, Session, cases_of, lines_of, replay_conflict, replay_in};
pub use judge::{Conditions, Verdict, conditions_of, judge_source, text_of_case};
pub use line::{Line, NumberedLine, begins_want_line, numbered_line};
pub use line_fault::put_line_fault;
pub use markup::put_html;
pub use report::{
    Format, Found, Solution, SourceErrors, Totals, Viewer, put_film, put_head, put_solution,
    put_tail,
};

/// A law, and no code: no text in XML or in a page, whatever its bytes are, begins or ends a tag or the value of an attribute.
pub fn texts_are_plain()
    ensures { TextsArePlain }
{}
