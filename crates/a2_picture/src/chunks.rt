//! The chunks of a PNG file.

ghost use Rattle.std.specs.Prelude.{◌≡◌, ◌<◌, length};
ghost use Rattle.a2_stream.specs.Stream.{SendsOrBreaks};
ghost use Rattle.a2_picture.specs.Png as png;

use crate::checksums::{CRC_START, crc_after};
use a2_stream::{Output, WriteFault, put_all};

/// Returns the four bytes of a number, the highest first. PNG Specification (W3C, second edition), section 7.1.
pub(crate) fn word(number: u32) -> [u8; 4]
    ensures { result ≡ png.word number }
{
    [
        (number / 0x100_0000) as u8,
        (number / 0x1_0000 % 256) as u8,
        (number / 256 % 256) as u8,
        (number % 256) as u8,
    ]
}

// Returns the CRC of a chunk's kind and data.
#[tactic(auto, unfolding(crate::specs::Png::crc_of_chunk))]
fn crc_of_chunk(kind: &[u8], body: &[u8]) -> u32
    ensures { result ≡ png.crc_of_chunk kind.now body.now }
{
    crc_after(crc_after(CRC_START, kind), body) ^ 0xFFFF_FFFF
}

/// Writes a chunk: its length, its kind, its data and its CRC. PNG Specification (W3C, second edition), section 5.3.
#[tactic(auto, unfolding(crate::specs::Png::chunk))]
pub(crate) fn put_chunk<W: Output>(
    kind: &[u8],
    body: &[u8],
    writer: &mut W,
) -> Result<(), WriteFault>
    requires { length body.now < 4096 }
    ensures { SendsOrBreaks (W.taker writer.old) (W.taker writer.new) result (png.chunk kind.now body.now) }
{
    let size = word(body.len() as u32);
    let crc = word(crc_of_chunk(kind, body));
    put_all(&[&size, kind, body, &crc], writer)
}
