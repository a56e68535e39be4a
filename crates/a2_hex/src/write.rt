//! Writing the object lines of an image.

ghost use Rattle.std.specs.Prelude.{◌≡◌, ◌<◌, ◌+◌, ◌*◌, ◌≤◌, ◌++◌, [], ◌∷◌, ℕ, length, Option, Some, Ok, true, false, MatchOption};
ghost use Rattle.std.specs.List.{flat_map};
ghost use Rattle.arrayvec.specs.ArrayVec.{array_vec_len};
ghost use Rattle.a2_stream.specs.Stream.{SendsOrBreaks};
ghost use Rattle.a2_hex.specs.Images.{held, IsImage, ram_end};
ghost use Rattle.a2_hex.specs.ObjectText as text;
ghost use Rattle.a2_hex.specs.ObjectLines.{image_of};

use crate::image::Image;
use a2_stream::{Output, WriteFault, put};
use a2_text::{append, hex_pair, hex_word};
use arrayvec::ArrayVec;
use std::alloc::Allocator;

// The greatest length of a line of text: an address, `:`, eight bytes separated by blanks, and a line feed.
const LINE_LEN: usize = 29;

// The most bytes sent in one write, if the writer takes them.
const PIECE_LEN: usize = 4096;

// Returns the byte at an address if a line begins there.
fn begun<A: Allocator>(image: &Image<A>, address: u16) -> Option<u8>
    ensures { MatchOption result (text.begins_line (held image.now) address ≡ false)
        (λ byte. (text.begins_line (held image.now) address ≡ true) × (held image.now address ≡ Some byte)) }
{
    let byte = image.get(address)?;
    (address % 8 == 0 || image.get(address - 1).is_none()).then_some(byte)
}

/// Appends the bytes of `image` from `address` up to a gap, but at most `most`, to `line`, each as a blank and two
/// digits. No address may be above `$FFFF`, and the line must have room for that many bytes.
pub fn append_run<A: Allocator, const N: usize>(
    image: &Image<A>,
    address: u16,
    most: u16,
    line: &mut ArrayVec<u8, N>,
)
    requires address { address + most ≤ 65536 }
    requires room { array_vec_len line.old + 3 * most ≤ N }
    ensures items { line.new.items ≡ line.old.items ++ flat_map text.after_blank (text.run (held image.now) address most) }
    ensures few { array_vec_len line.new ≤ array_vec_len line.old + 3 * most }
{
    for i in 0..most {
        let Some(byte) = image.get(address + i) else {
            return;
        };
        let [high, low] = hex_pair(byte);
        append(line, &[b' ', high, low]);
    }
}

// Returns the line that begins at an address with this byte, and its line feed.
#[tactic(auto, using(crate::proofs::WriteLaws::line_parts))]
fn line_at<A: Allocator>(image: &Image<A>, address: u16, first: u8) -> ArrayVec<u8, LINE_LEN>
    requires inside { address < ram_end }
    requires first { held image.now address ≡ Some first }
    ensures { result.items ≡ text.line_at (held image.now) address ++ 10 ∷ [] }
{
    let mut line = ArrayVec::new();
    append(&mut line, &hex_word(address));
    line.push(b':');
    append(&mut line, &hex_pair(first));
    append_run(image, address + 1, 7 - address % 8, &mut line);
    line.push(b'\n');
    line
}

// Puts a line after those gathered. If there is no room for it, the lines gathered are sent first.
fn gather<W: Output>(
    piece: &mut ArrayVec<u8, PIECE_LEN>,
    line: &[u8],
    writer: &mut W,
) -> Result<(), WriteFault>
    requires { length line.now ≤ 29 }
    ensures { text.Gathers (W.taker writer.old) (W.taker writer.new) result piece.old.items line.now piece.new.items }
{
    if piece.try_extend_from_slice(line).is_ok() {
        return Ok(());
    }
    put(piece.as_slice(), writer)?;
    piece.clear();
    piece.try_extend_from_slice(line).unwrap();
    Ok(())
}

/// Writes the object lines of `image` to `writer`, by rising address. A line is four capital hexadecimal digits, `:`,
/// one to eight bytes of two digits separated by one blank, and LF. A new line begins at each address divisible by 8
/// and after each gap. As many whole lines as fit in 4,096 bytes are sent together. This project's profile of the
/// Monitor's lines that change memory, Apple II Reference Manual (1979), chapter 3. Fails if a write fails; then a
/// front of the text was sent.
pub fn write_lines<A: Allocator, W: Output>(
    image: &Image<A>,
    writer: &mut W,
) -> Result<(), WriteFault>
    ensures { SendsOrBreaks (W.taker writer.old) (W.taker writer.new) result (text.object_text (held image.now)) }
{
    let mut piece = ArrayVec::new();
    let (start, end) = image.bounds();
    for address in start..end {
        if let Some(first) = begun(image, address) {
            let line = line_at(image, address, first);
            gather(&mut piece, line.as_slice(), writer)?;
        }
    }
    put(piece.as_slice(), writer)
}

/// A law: for every image of RAM, the text that `write_lines` writes loads to the same image.
pub fn written_lines_load()
    ensures { (image : ℕ → Option ℕ) → IsImage image → image_of (text.object_text image) ≡ Ok image }
{}
