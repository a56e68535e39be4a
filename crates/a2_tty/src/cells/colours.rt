//! How a cell is written.

ghost use Rattle.std.specs.Prelude.{◌≡◌, ◌==◌, slice_index_or, []};
ghost use Rattle.a2_stream.specs.Stream.{SendsOrBreaks};
ghost use Rattle.a2_tty.specs.Written as written;

use crate::cells::tiles::Tile;
use a2_stream::{Output, WriteFault, put_all};

/// The colours that a terminal has.
#[derive(Clone, Copy, Debug, PartialEq, Eq)]
pub enum Colours {
    /// Any colour, given by 24 bits.
    Full,
    /// Those of the palette of 256.
    Palette,
    /// None: blocks that are not black are light.
    None,
    /// None, and only characters of ASCII, for a terminal without block characters.
    Ascii,
}

// Returns the red, green and blue values of a lo-res colour. Apple II Reference Manual (1979), page 17, names the
// sixteen; their values are this project's profile.
fn rgb_of(colour: u8) -> &'static [u8]
    ensures { result.now ≡ slice_index_or written.rgb_values colour [] }
{
    match colour {
        0 => b"0;0;0",
        1 => b"221;0;51",
        2 => b"0;0;153",
        3 => b"221;34;221",
        4 => b"0;119;34",
        5 => b"85;85;85",
        6 => b"34;34;255",
        7 => b"102;170;255",
        8 => b"136;85;0",
        9 => b"255;102;0",
        10 => b"170;170;170",
        11 => b"255;153;136",
        12 => b"17;221;0",
        13 => b"255;255;0",
        14 => b"68;255;153",
        15 => b"255;255;255",
        _ => b"",
    }
}

// Returns the nearest colour in the palette of 256.
fn nearest_in_palette(colour: u8) -> &'static [u8]
    ensures { result.now ≡ slice_index_or written.nearest colour [] }
{
    match colour {
        0 => b"16",
        1 => b"161",
        2 => b"18",
        3 => b"170",
        4 => b"29",
        5 => b"240",
        6 => b"27",
        7 => b"75",
        8 => b"94",
        9 => b"202",
        10 => b"248",
        11 => b"216",
        12 => b"40",
        13 => b"226",
        14 => b"85",
        15 => b"231",
        _ => b"",
    }
}

// Returns the character for the blocks of a cell that are light without colours: those that are not black.
fn light(above: u8, below: u8) -> &'static [u8]
    ensures { result.now ≡ written.light (above == 0) (below == 0) }
{
    match (above == 0, below == 0) {
        (true, true) => b" ",
        (false, true) => b"\xE2\x96\x80",
        (true, false) => b"\xE2\x96\x84",
        (false, false) => b"\xE2\x96\x88",
    }
}

// Returns the character of ASCII that is nearest to them.
fn light_in_ascii(above: u8, below: u8) -> &'static [u8]
    ensures { result.now ≡ written.light_in_ascii (above == 0) (below == 0) }
{
    match (above == 0, below == 0) {
        (true, true) => b" ",
        (false, true) => b"\"",
        (true, false) => b"_",
        (false, false) => b"#",
    }
}

// Writes two blocks: the upper half of a cell in one colour, on a background of the other.
fn put_halves<W: Output>(
    kind: &[u8],
    above: &[u8],
    below: &[u8],
    writer: &mut W,
) -> Result<(), WriteFault>
    ensures { SendsOrBreaks (W.taker writer.old) (W.taker writer.new) result (written.halves_text kind.now above.now below.now) }
{
    put_all(
        &[
            b"\x1B[0;38;",
            kind,
            above,
            b";48;",
            kind,
            below,
            b"m\xE2\x96\x80",
        ],
        writer,
    )
}

/// Writes what a cell shows at the terminal's cursor: its colours or attribute, and one character. If a write fails,
/// returns an error, and only a prefix of this was written.
pub fn put_tile<W: Output>(tile: Tile, colours: Colours, writer: &mut W) -> Result<(), WriteFault>
    ensures { SendsOrBreaks (W.taker writer.old) (W.taker writer.new) result (written.tile_text colours tile) }
{
    match (tile, colours) {
        (Tile::Letter(code), _) => put_all(&[b"\x1B[0m", &[code]], writer),
        (Tile::Inverse(code), _) => put_all(&[b"\x1B[0;7m", &[code]], writer),
        (Tile::Blocks(above, below), Colours::Full) => {
            put_halves(b"2;", rgb_of(above), rgb_of(below), writer)
        }
        (Tile::Blocks(above, below), Colours::Palette) => {
            put_halves(
                b"5;",
                nearest_in_palette(above),
                nearest_in_palette(below),
                writer,
            )
        }
        (Tile::Blocks(above, below), Colours::None) => {
            put_all(&[b"\x1B[0m", light(above, below)], writer)
        }
        (Tile::Blocks(above, below), Colours::Ascii) => {
            put_all(&[b"\x1B[0m", light_in_ascii(above, below)], writer)
        }
    }
}
