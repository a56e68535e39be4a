//! Writes sources of images: bytes become instructions, texts, tables and names.
//!
//! CALLING.md shows how to call it.
#![tactic(auto)]

mod code;
mod draft;
mod dump;
mod fault;
mod follow;
mod guess;
mod labels;
mod marks;
mod operand;
mod request;
mod routines;
mod source;
mod statements;

pub use dump::{Dump, load_dump};
pub use fault::SourceFault;
pub use request::{Content, NamedPlace, Part, Request};
pub use source::write_source;
