//! Frames messages of bytes with their length, as the protocols of editors do.
//!
//! CALLING.md shows how to call it.
#![tactic(auto)]

mod fault;
mod head;
mod reading;
mod writing;

pub use fault::PacketFault;
pub use reading::{LARGEST, read_packet};
pub use writing::put_packet;
