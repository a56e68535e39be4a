//! A server of the Language Server Protocol for sources.
//!
//! CALLING.md shows how to call it.
#![tactic(auto)]

mod answers;
mod checks;
mod completion;
mod documents;
mod hints;
mod hover;
mod json;
mod larger;
mod layout;
mod names;
mod page;
mod replies;
mod server;
mod symbols;
mod topics;
mod values;

pub use server::{Server, Stage};
