//! Writes messages.

ghost use Rattle.std.specs.Prelude.{◌≡◌};
ghost use Rattle.a2_stream.specs.Stream.{SendsOrBreaks};
ghost use Rattle.a2_packets.specs.Packets.{head, length_name, packet};

use a2_stream::{Output, WriteFault, put, put_all};
use a2_text::decimal;

// Returns what is before the length in its line.
#[tactic(auto, unfolding(crate::specs::Packets::length_name))]
fn length_name() -> &'static [u8]
    ensures { result.now ≡ length_name }
{
    b"Content-Length: "
}

// Writes the lines before a message of this many bytes.
fn put_head<W: Output>(length: usize, output: &mut W) -> Result<(), WriteFault>
    ensures { SendsOrBreaks (W.taker output.old) (W.taker output.new) result (head length) }
{
    put_all(
        &[
            length_name(),
            decimal(length as u64).as_slice(),
            b"\r\n\r\n",
        ],
        output,
    )
}

/// Writes a message, with the lines before it that `read_packet` expects. Fails if a write fails; a front of them was written.
#[tactic(auto, using(a2_stream::proofs::Joined::broke_off, a2_stream::proofs::Joined::went_on))]
pub fn put_packet<W: Output>(body: &[u8], output: &mut W) -> Result<(), WriteFault>
    ensures { SendsOrBreaks (W.taker output.old) (W.taker output.new) result (packet body.now) }
{
    put_head(body.len(), output)?;
    put(body, output)
}
