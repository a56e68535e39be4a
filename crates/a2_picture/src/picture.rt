//! The PNG file of a picture.

ghost use Rattle.std.specs.Prelude.{◌≡◌, ◌+◌, ◌*◌, ◌<◌, ◌≤◌, ◌++◌, length, IfOk};
ghost use Rattle.arrayvec.specs.ArrayVec.{array_vec_len};
ghost use Rattle.a2_stream.specs.Stream.{SendsOrBreaks};
ghost use Rattle.a2_picture.specs.Checksums.{first_sums, sums_after as sums_of};
ghost use Rattle.a2_picture.specs.Png as png;

use crate::checksums::{Sums, sums_after};
use crate::chunks::{put_chunk, word};
use crate::colours::COLOURS;
use crate::dots::{COLUMNS, ROWS, dot};
use a2_page::Switches;
use a2_stream::{Output, WriteFault, put};
use a2_text::append;
use arrayvec::ArrayVec;

// The bytes of a row of dots in a file: two lines of 560 pixels, each after its filter; and with the five bytes before a stored block.
const LINES_LEN: usize = 2 * (1 + 560);

const BLOCK_LEN: usize = 5 + LINES_LEN;

// The bytes before a stored block that is not the last one: its length twice, the second time complemented. RFC 1951, section 3.2.4.
const BLOCK: [u8; 5] = [0x00, 0x62, 0x04, 0x9D, 0xFB];

// The width and the height of a picture, eight bits for each pixel, which is the number of a colour, and no interlacing.
const HEADER: [u8; 13] = [0, 0, 0x02, 0x30, 0, 0, 0x01, 0x80, 8, 3, 0, 0, 0];

// The bytes before all blocks. RFC 1950, section 2.2.
const ZLIB: [u8; 2] = [0x78, 0x01];

// The bytes of a last stored block that is empty.
const LAST_BLOCK: [u8; 5] = [0x01, 0x00, 0x00, 0xFF, 0xFF];

// The first bytes of each PNG file.
const SIGNATURE: [u8; 8] = [0x89, 0x50, 0x4E, 0x47, 0x0D, 0x0A, 0x1A, 0x0A];

// Appends a line of pixels: the filter, which changes nothing, and each dot twice.
fn append_line(ram: &[u8], switches: Switches, y: u16, lines: &mut ArrayVec<u8, LINES_LEN>)
    requires room { 0x6000 ≤ length ram.now }
    requires y { y < 192 }
    requires free { array_vec_len lines.old + 561 ≤ 1122 }
    ensures bytes { lines.new.items ≡ lines.old.items ++ png.line ram.now switches y }
    ensures size { array_vec_len lines.new ≡ array_vec_len lines.old + 561 }
{
    lines.push(0);
    for x in 0..COLUMNS {
        let colour = dot(ram, switches, x, y);
        lines.push(colour);
        lines.push(colour);
    }
}

// Returns the two equal lines of pixels of a row of dots.
#[tactic(auto, unfolding(crate::specs::Png::row_lines))]
fn lines_of(ram: &[u8], switches: Switches, y: u16) -> ArrayVec<u8, LINES_LEN>
    requires room { 0x6000 ≤ length ram.now }
    requires y { y < 192 }
    ensures bytes { result.items ≡ png.row_lines ram.now switches y }
    ensures size { array_vec_len result ≡ 1122 }
{
    let mut lines = ArrayVec::new();
    append_line(ram, switches, y, &mut lines);
    append_line(ram, switches, y, &mut lines);
    lines
}

// Writes the two lines of a row of dots as a stored block.
#[tactic(auto, unfolding(crate::specs::Png::block_text))]
fn put_block<W: Output>(lines: &[u8], writer: &mut W) -> Result<(), WriteFault>
    requires { length lines.now ≡ 1122 }
    ensures { SendsOrBreaks (W.taker writer.old) (W.taker writer.new) result (png.block_text lines.now) }
{
    let mut body: ArrayVec<u8, BLOCK_LEN> = ArrayVec::new();
    append(&mut body, &BLOCK);
    append(&mut body, lines);
    put_chunk(b"IDAT", body.as_slice(), writer)
}

// Writes all rows of dots, and returns the sums of their lines.
fn put_rows<W: Output>(ram: &[u8], switches: Switches, writer: &mut W) -> Result<Sums, WriteFault>
    requires room { 0x6000 ≤ length ram.now }
    ensures sent { SendsOrBreaks (W.taker writer.old) (W.taker writer.new) result (png.blocks_text ram.now switches) }
    ensures sums { IfOk result (λ sums. sums ≡ sums_of first_sums (png.lines ram.now switches)) }
    ensures low { IfOk result (λ sums. sums.low < 65521) }
    ensures high { IfOk result (λ sums. sums.high < 65521) }
{
    let mut sums = Sums { low: 1, high: 0 };
    for y in 0..ROWS {
        let lines = lines_of(ram, switches, y);
        sums = sums_after(sums, lines.as_slice());
        put_block(lines.as_slice(), writer)?;
    }
    Ok(sums)
}

// Writes the first bytes of each PNG file.
#[tactic(auto, unfolding(crate::specs::Png::signature))]
fn put_signature<W: Output>(writer: &mut W) -> Result<(), WriteFault>
    ensures { SendsOrBreaks (W.taker writer.old) (W.taker writer.new) result png.signature }
{
    put(&SIGNATURE, writer)
}

// Writes the colours, and begins the stream of the pixels.
#[tactic(auto, using(a2_stream::proofs::Joined::broke_off, a2_stream::proofs::Joined::went_on), unfolding(crate::specs::Png::colours_text))]
fn put_colours<W: Output>(writer: &mut W) -> Result<(), WriteFault>
    ensures { SendsOrBreaks (W.taker writer.old) (W.taker writer.new) result png.colours_text }
{
    put_chunk(b"PLTE", &COLOURS, writer)?;
    put_chunk(b"IDAT", &ZLIB, writer)
}

// Writes the header and the colours.
#[tactic(auto, using(a2_stream::proofs::Joined::broke_off, a2_stream::proofs::Joined::went_on), unfolding(crate::specs::Png::header_text))]
fn put_header<W: Output>(writer: &mut W) -> Result<(), WriteFault>
    ensures { SendsOrBreaks (W.taker writer.old) (W.taker writer.new) result png.header_text }
{
    put_chunk(b"IHDR", &HEADER, writer)?;
    put_colours(writer)
}

// Writes what a picture begins with, before its rows.
#[tactic(auto, using(a2_stream::proofs::Joined::broke_off, a2_stream::proofs::Joined::went_on), unfolding(crate::specs::Png::head))]
fn put_head<W: Output>(writer: &mut W) -> Result<(), WriteFault>
    ensures { SendsOrBreaks (W.taker writer.old) (W.taker writer.new) result png.head }
{
    put_signature(writer)?;
    put_header(writer)
}

// Returns the data of the chunk after the rows: an empty block that is the last one, and the checksum of all lines.
fn last_block(sums: Sums) -> ArrayVec<u8, 9>
    requires low { sums.low < 65521 }
    requires high { sums.high < 65521 }
    ensures bytes { result.items ≡ png.last_block sums }
    ensures size { array_vec_len result ≡ 9 }
{
    let mut body = ArrayVec::new();
    append(&mut body, &LAST_BLOCK);
    append(&mut body, &word(65_536 * sums.high + sums.low));
    body
}

// Writes what follows the rows.
#[tactic(auto, using(a2_stream::proofs::Joined::broke_off, a2_stream::proofs::Joined::went_on), unfolding(crate::specs::Png::tail))]
fn put_tail<W: Output>(sums: Sums, writer: &mut W) -> Result<(), WriteFault>
    requires low { sums.low < 65521 }
    requires high { sums.high < 65521 }
    ensures { SendsOrBreaks (W.taker writer.old) (W.taker writer.new) result (png.tail sums) }
{
    put_chunk(b"IDAT", last_block(sums).as_slice(), writer)?;
    put_chunk(b"IEND", b"", writer)
}

// Writes the rows and what follows them.
#[tactic(auto, using(a2_stream::proofs::Joined::broke_off, a2_stream::proofs::Joined::went_on), unfolding(crate::specs::Png::body_text))]
fn put_body<W: Output>(ram: &[u8], switches: Switches, writer: &mut W) -> Result<(), WriteFault>
    requires { 0x6000 ≤ length ram.now }
    ensures { SendsOrBreaks (W.taker writer.old) (W.taker writer.new) result (png.body_text ram.now switches) }
{
    let sums = put_rows(ram, switches, writer)?;
    put_tail(sums, writer)
}

/// Writes what the screen shows as a PNG file of 560 by 384 pixels: each dot is two by two pixels. `ram` has the bytes that begin at address
/// 0. The pixels are numbers of colours, and are not compressed. If a write fails, returns an error, and only a front of the file was
/// written. PNG Specification (W3C, second edition), RFC 1950 and RFC 1951.
#[tactic(auto, using(a2_stream::proofs::Joined::broke_off, a2_stream::proofs::Joined::went_on), unfolding(crate::specs::Png::png))]
pub fn put_png<W: Output>(ram: &[u8], switches: Switches, writer: &mut W) -> Result<(), WriteFault>
    requires { 0x6000 ≤ length ram.now }
    ensures { SendsOrBreaks (W.taker writer.old) (W.taker writer.new) result (png.png ram.now switches) }
{
    put_head(writer)?;
    put_body(ram, switches, writer)
}
