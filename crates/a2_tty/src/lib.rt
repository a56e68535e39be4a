//! Terminal input and output, with sessions that answer each line, keys, a line editor, and drawing of the cells that
//! changed.
//!
//! CALLING.md shows how to use this crate.
#![tactic(auto)]

mod apple_keys;
mod cells;
mod line_editor;
mod session;

pub use apple_keys::{Order, Stroke, first_stroke};
pub use cells::{
    Colours, Frame, MOST_COLUMNS, MOST_ROWS, Shot, Size, Tile, put_changes, put_frame, put_tile,
    tile_of,
};
pub use line_editor::{Act, Console, Editor, Line, Typist, put_line};
pub use session::{Partner, TalkFault, talk};
