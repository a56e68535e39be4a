//! How pieces of a film are spelt.

ghost use Rattle.std.specs.Prelude.{◌≡◌, ◌<◌, ◌++◌};
ghost use Rattle.a2_stream.specs.Stream.{SendsOrBreaks};
ghost use Rattle.a2_text.specs.Digits.{hex_digit as digit_of};
ghost use Rattle.a2_film.specs.Changes as change;
ghost use Rattle.a2_film.specs.Rows as spelt;

use a2_page::Switches;
use a2_stream::{Output, WriteFault, put};
use a2_text::hex_pair;
use arrayvec::ArrayVec;

/// Returns the switches as a digit: 1 for text, 2 for mixed, 4 for page 2, 8 for high resolution.
pub fn switch_digit(switches: Switches) -> u8
    ensures value { result ≡ change.switch_digit switches }
    ensures digit { result < 16 }
{
    u8::from(switches.text)
        + 2 * u8::from(switches.mixed)
        + 4 * u8::from(switches.page2)
        + 8 * u8::from(switches.hires)
}

/// Returns the capital hexadecimal digit of a number below 16.
pub fn hex_digit(number: u8) -> u8
    requires { number < 16 }
    ensures { result ≡ digit_of number }
{
    if number < 10 {
        b'0' + number
    } else {
        b'A' + (number - 10)
    }
}

// Returns a byte of a plain text: itself if it is printable and neither < nor \, and otherwise \ and its digits.
fn plain_byte(byte: u8) -> ArrayVec<u8, 3>
    ensures { result.items ≡ spelt.plain_byte byte }
{
    let mut text = ArrayVec::new();
    match byte {
        b'<' | b'\\' | 0..=0x1F | 0x7F..=0xFF => {
            let [high, low] = hex_pair(byte);
            text.push(b'\\');
            text.push(high);
            text.push(low);
        }
        _ => text.push(byte),
    }
    text
}

// Writes a text as a plain one.
fn put_plain<W: Output>(text: &[u8], writer: &mut W) -> Result<(), WriteFault>
    ensures { SendsOrBreaks (W.taker writer.old) (W.taker writer.new) result (spelt.plain_text text.now) }
{
    for byte in text {
        put(plain_byte(*byte).as_slice(), writer)?;
    }
    Ok(())
}

/// Writes the two capital hexadecimal digits of each byte.
pub fn put_digits<W: Output>(bytes: &[u8], writer: &mut W) -> Result<(), WriteFault>
    ensures { SendsOrBreaks (W.taker writer.old) (W.taker writer.new) result (spelt.digits_of_bytes bytes.now) }
{
    for byte in bytes {
        put(&hex_pair(*byte), writer)?;
    }
    Ok(())
}

/// Writes `front`, any bytes of `text` as plain text, and `end`.
#[tactic(auto, using(a2_stream::proofs::Joined::broke_off, a2_stream::proofs::Joined::went_on))]
pub fn put_between<W: Output>(
    front: &[u8],
    text: &[u8],
    end: &[u8],
    writer: &mut W,
) -> Result<(), WriteFault>
    ensures { SendsOrBreaks (W.taker writer.old) (W.taker writer.new) result
        (front.now ++ (spelt.plain_text text.now ++ end.now)) }
{
    put(front, writer)?;
    put_plain(text, writer)?;
    put(end, writer)
}
