//! The addresses that an option names.

use a2_asm::Program;
use a2_symbols::{Span, span_of};
use a2lab_commands::{Message, Refusal};
use std::alloc::Global;

/// Returns the addresses that `text` names, the value of an option; `front` names the command and the option.
pub fn span_in<'a>(
    front: &'static str,
    program: &Program<Global>,
    text: &'a str,
) -> Result<Span, Refusal<'a>> {
    match span_of(program, text.as_bytes()) {
        Some(span) => Ok(span),
        None => Err(Refusal::of_two(Message::UnknownPlace, front, text)),
    }
}
