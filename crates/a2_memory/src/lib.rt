//! Shows memory after a run: parts of it as the Monitor displays them, or all of RAM as object code lines.
//!
//! CALLING.md shows how to use this crate.
#![tactic(auto)]

mod image;
mod part;
mod parts;

pub use image::image_of;
pub use part::Part;
pub use parts::write_parts;
