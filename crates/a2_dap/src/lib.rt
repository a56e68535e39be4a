//! A debug adapter: an editor's requests move a source's run in both directions.
//!
//! CALLING.md shows how to call it.
#![tactic(auto)]

mod breakpoints;
mod changing;
mod evaluating;
mod marking;
mod memory;
mod moving;
mod reports;
mod session;
mod stacks;

pub use a2_dap_messages::{Launch, Opened, Opening, Replies, Request, RequestFault};
pub use session::{Next, Session, Start};
