//! Reads messages.

ghost use Rattle.std.specs.Prelude.{◌≡◌, ◌++◌, ◌∷◌, [], ◌≤◌, OnOk, IfOk, option_map, length};
ghost use Rattle.std.specs.Io.KnownBytes.{Consumes};
ghost use Rattle.a2_packets.specs.Packets.{GivesByte, GivesHead, GivesPacket};

use crate::fault::PacketFault;
use crate::head::length_in;
use a2_stream::{Input, fill};
use std::alloc::{AllocError, Global};

/// The most bytes that a message may have.
pub const LARGEST: usize = 4_194_304;

// The most bytes of the lines before a message, with the blank line.
const LONGEST_HEAD: usize = 4096;

// Reads one byte, or `None` if the input has ended.
fn read_byte<R: Input>(input: &mut R) -> Result<Option<u8>, PacketFault>
    ensures { IfOk result (λ byte. GivesByte byte (R.giver input.old).bytes (R.giver input.new).bytes) }
{
    let mut byte = [0];
    if fill(&mut byte, input)? == 0 {
        return Ok(None);
    }
    let [byte] = byte;
    Ok(Some(byte))
}

// Appends a byte to a text.
fn append_byte(text: &mut Vec<u8>, byte: u8) -> Result<(), AllocError>
    ensures { OnOk result (text.new.items ≡ text.old.items ++ byte ∷ []) }
{
    text.push(byte)?;
    Ok(())
}

// Reads the lines before a message, up to the blank line that ends them, and nothing after it. Returns `None` if the input has ended.
fn read_head<R: Input>(alloc: Global, input: &mut R) -> Result<Option<Vec<u8>>, PacketFault>
    ensures { IfOk result (λ head. GivesHead (option_map (λ h. h.items) head) (R.giver input.old).bytes (R.giver input.new).bytes) }
{
    let mut head = Vec::new(alloc);
    'bytes: for _ in 0..LONGEST_HEAD {
        let Some(byte) = read_byte(input)? else {
            return if head.is_empty() {
                Ok(None)
            } else {
                Err(PacketFault::Ended)
            };
        };
        append_byte(&mut head, byte)?;
        if head.as_slice().ends_with(b"\r\n\r\n") {
            return Ok(Some(head));
        }
    }
    Err(PacketFault::LongHead)
}

// Returns so many zeros.
fn zeros(alloc: Global, count: usize) -> Result<Vec<u8>, AllocError>
    ensures { IfOk result (λ zeros. length zeros.items ≡ count) }
{
    let mut zeros = Vec::new(alloc);
    zeros.resize(count, 0)?;
    Ok(zeros)
}

// Reads a message of this many bytes.
fn read_body<R: Input>(alloc: Global, count: usize, input: &mut R) -> Result<Vec<u8>, PacketFault>
    ensures taken { IfOk result (λ body. Consumes (R.giver input.old).bytes (R.giver input.new).bytes body.items) }
    ensures whole { IfOk result (λ body. length body.items ≡ count) }
{
    let mut body = zeros(alloc, count)?;
    if fill(body.as_mut_slice(), input)? < count {
        return Err(PacketFault::Ended);
    }
    Ok(body)
}

// Reads this many bytes and drops them.
fn skip<R: Input>(length: usize, input: &mut R) -> Result<(), PacketFault> {
    let mut piece = [0; 4096];
    for _ in 0..length / 4096 {
        if fill(&mut piece, input)? < 4096 {
            return Err(PacketFault::Ended);
        }
    }
    let last = length % 4096;
    if fill(&mut piece[..last], input)? < last {
        return Err(PacketFault::Ended);
    }
    Ok(())
}

/// Reads the next message from `input`, or returns `None` if the input has ended before one. Before a message are lines that end with a
/// carriage return and a line feed. One of them is `Content-Length:` and the number of the message's bytes, and a blank line is the
/// last. No byte after the message is read, so a message is returned as soon as it is there. After `TooLong`, the next message can be
/// read; after any other error, no message can.
pub fn read_packet<R: Input>(alloc: Global, input: &mut R) -> Result<Option<Vec<u8>>, PacketFault>
    ensures { IfOk result (λ found. GivesPacket (option_map (λ body. body.items) found) (R.giver input.old).bytes (R.giver input.new).bytes) }
{
    let Some(head) = read_head(alloc, input)? else {
        return Ok(None);
    };
    let length = length_in(alloc, head.as_slice())?;
    if length > LARGEST {
        skip(length, input)?;
        return Err(PacketFault::TooLong);
    }
    Ok(Some(read_body(alloc, length, input)?))
}
