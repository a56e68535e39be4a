//! What one byte of a page shows.

ghost use Rattle.std.specs.Prelude.{◌≡◌, ◌<◌};
ghost use Rattle.a2_page.specs.Text as text;

use crate::{Attribute, Half};

/// Returns the ASCII code, from $20 to $5F, of the character that `byte` shows. Apple II Reference Manual (1979), page
/// 15.
pub fn glyph(byte: u8) -> u8
    ensures { result ≡ text.glyph byte }
{
    let low = byte % 64;
    if low < 32 { low + 64 } else { low }
}

/// Returns how `byte` shows its character. Apple II Reference Manual (1979), page 15.
pub fn attribute_of(byte: u8) -> Attribute
    ensures { result ≡ text.attribute byte }
{
    match byte {
        0x00..=0x3F => Attribute::Inverse,
        0x40..=0x7F => Attribute::Flashing,
        0x80..=0xFF => Attribute::Normal,
    }
}

/// Returns the colour, from 0 to 15, of one of the two lo-res blocks of `byte`. Apple II Reference Manual (1979), page
/// 17.
pub fn block(byte: u8, half: Half) -> u8
    ensures { result ≡ text.block byte half }
{
    match half {
        Half::Above => byte % 16,
        Half::Below => byte / 16,
    }
}

/// Returns `byte` with one of its two lo-res blocks changed to `colour`, 0 to 15. The other block is unchanged. Apple
/// II Reference Manual (1979), page 17.
pub fn set_block(byte: u8, half: Half, colour: u8) -> u8
    requires { colour < 16 }
    ensures { result ≡ text.with_block byte half colour }
{
    match half {
        Half::Above => byte / 16 * 16 + colour,
        Half::Below => byte % 16 + 16 * colour,
    }
}
