//! The messages of a debug adapter: requests, replies, and what they show of a machine.
//!
//! CALLING.md shows how to call it.
#![tactic(auto)]

mod groups;
mod opening;
mod replies;
mod request;
mod texts;

pub use groups::{FLAGS, MONITOR, NAMES, REGISTERS, location_named, scopes, variables};
pub use opening::{Launch, Opened, Opening, usual_causes};
pub use replies::Replies;
pub use request::{Command, Request, RequestFault, is_set, items_in, number_in, text_in};
pub use texts::{address_text, byte_text, joined, number_text, reference_text, text_of};
