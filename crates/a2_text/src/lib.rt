//! Basic work on text held as bytes, such as cutting lines and words, reading and writing numbers, and showing errors.
//!
//! CALLING.md shows how to call it.
#![tactic(auto)]

mod digits;
mod error_texts;
mod json;
mod lines;
mod numbers;
mod room;
mod words;

pub use digits::{decimal, hex_pair, hex_word};
pub use error_texts::{ErrorText, error_text};
pub use json::json_escape;
pub use lines::cut;
pub use numbers::{capital, is_blank, number_in};
pub use room::append;
pub use words::{after_blanks, first_word, front_len, only_word, split_word};
