//! Places in a source, as editors count them: positions, words, the places of a name, and changes of a text.
//!
//! CALLING.md shows how to call it.
#![tactic(auto)]

mod change;
mod fixes;
mod name_places;
mod tokens;
mod units;

pub use change::replaced;
pub use fixes::{Change, change_of};
pub use name_places::{NamePlace, definition_of, places_of};
pub use tokens::{Token, TokenKind, statement_end, token_at, tokens_of};
pub use units::{a_place_converts_back, byte_at, clipped, line_start, units_before};
