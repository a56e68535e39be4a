//! What a cell of the terminal shows.

ghost use Rattle.std.specs.Prelude.{◌≡◌, ◌<◌, nat_le};
ghost use Rattle.a2_page.specs.Picture.{first_text_row};
ghost use Rattle.a2_page.specs.Text.{attribute, glyph as glyph_of};
ghost use Rattle.a2_tty.specs.Tiles as tiles;

use a2_page::{Attribute, Half, Switches, attribute_of, block, glyph};

/// What a cell of the terminal shows.
#[derive(Clone, Copy, Debug, PartialEq, Eq)]
pub enum Tile {
    /// A character, white on black, given by its ASCII code: $20 to $7E, and at most $5F on the Apple's screen.
    Letter(u8),
    /// The same, black on white.
    Inverse(u8),
    /// Two lo-res blocks, given by their colours, from 0 to 15: the upper block and the lower one.
    Blocks(u8, u8),
}

/// The first of the rows that are text in the mixed modes.
const MIXED_ROW: u8 = 20;

// Returns a byte as a character.
fn letter(byte: u8, lit: bool) -> Tile
    ensures { result ≡ tiles.letter lit (glyph_of byte) (attribute byte) }
{
    match attribute_of(byte) {
        Attribute::Inverse => Tile::Inverse(glyph(byte)),
        Attribute::Flashing if lit => Tile::Inverse(glyph(byte)),
        Attribute::Flashing | Attribute::Normal => Tile::Letter(glyph(byte)),
    }
}

// Returns whether a row, 0 to 23, is shown as text.
fn is_text(switches: Switches, row: u8) -> bool
    requires { row < 24 }
    ensures { result ≡ nat_le (first_text_row switches) row }
{
    switches.text || switches.mixed && row >= MIXED_ROW
}

/// Returns what a cell in `row`, 0 to 23 from the top, shows for its byte: a character in rows of text, and two blocks
/// in lo-res. Hi-res is not shown, and its cells are blank. `lit` says whether flashing characters are inverse now.
/// Apple II Reference Manual (1979), pages 12 to 18.
pub fn tile_of(switches: Switches, row: u8, lit: bool, byte: u8) -> Tile
    requires { row < 24 }
    ensures { result ≡ tiles.tile switches row lit byte }
{
    if is_text(switches, row) {
        letter(byte, lit)
    } else if switches.hires {
        Tile::Letter(b' ')
    } else {
        Tile::Blocks(block(byte, Half::Above), block(byte, Half::Below))
    }
}

/// Returns whether two cells show the same.
pub(crate) fn is_same(one: Tile, other: Tile) -> bool
    ensures { result ≡ tiles.is_same one other }
{
    match (one, other) {
        (Tile::Letter(a), Tile::Letter(b)) => a == b,
        (Tile::Inverse(a), Tile::Inverse(b)) => a == b,
        (Tile::Blocks(a, b), Tile::Blocks(c, d)) => a == c && b == d,
        _ => false,
    }
}
