//! Images, which are bytes at addresses of RAM, and their text form.
//!
//! CALLING.md shows how to call it.
#![tactic(auto)]

mod fault;
mod image;
mod load;
mod numbers;
mod store;
mod write;

pub use fault::HexFault;
pub use image::{Image, RAM_END};
pub use load::load_lines;
pub use numbers::{address_of, byte_of};
pub use store::{StoreLine, count_bytes, first_byte, store_line};
pub use write::{append_run, write_lines, written_lines_load};
