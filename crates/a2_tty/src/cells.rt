//! Cells of the Apple's screen or of a whole terminal, drawn on an ANSI terminal: only those that changed, each in its
//! place.

mod changes;
mod colours;
mod frame;
mod shot;
mod tiles;

pub use changes::Size;
pub use colours::{Colours, put_tile};
pub use frame::{Frame, MOST_COLUMNS, MOST_ROWS, put_frame};
pub use shot::{Shot, put_changes};
pub use tiles::{Tile, tile_of};
