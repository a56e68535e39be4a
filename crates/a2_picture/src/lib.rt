//! Draws what a machine shows, as a picture of 280 by 192 dots, and writes the picture as a PNG file.
//!
//! CALLING.md shows how to use this crate.
#![tactic(auto)]

mod checksums;
mod chunks;
mod colours;
mod dots;
mod picture;
mod shapes;

pub use dots::{COLUMNS, ROWS, dot};
pub use picture::put_png;
