//! A line editor for a terminal in raw mode: keys from the terminal's bytes, the line and its cursor, a history of
//! lines, and the drawing of the line.

mod drawing;
mod editor;
mod history;
mod keys;
mod line;
mod typist;

pub use drawing::put_line;
pub use editor::{Act, Editor};
pub use line::Line;
pub use typist::{Console, Typist};
