//! The cycles of a tape, as a WAV file.

ghost use Rattle.std.specs.Prelude.{◌≡◌, ◌≤◌, ◌<◌, length, fold, IfOk};
ghost use Rattle.a2_tape.specs.Tape as tape;

use std::alloc::{AllocError, Global};

// The cycles of the tone before the data, which lasts 10 seconds.
const HEADER_CYCLES: u32 = 7692;

// The cycles of the tone after the data, which only ends the last cycle of the data.
const TRAILER_CYCLES: u32 = 8;

// Appends a cycle with these bytes of its two halves.
fn put_cycle(wave: &mut Vec<u8>, high: &[u8], low: &[u8]) -> Result<(), AllocError>
    ensures { IfOk result (λ _. wave.new.items ≡ tape.with_cycle wave.old.items high.now low.now) }
{
    wave.extend_from_slice(high)?;
    wave.extend_from_slice(low)
}

// Appends a tone of this many cycles.
#[tactic(auto, using(crate::proofs::TapeLaws::tone_more, crate::proofs::TapeLaws::tone_none))]
fn put_tone(wave: &mut Vec<u8>, cycles: u32) -> Result<(), AllocError>
    ensures { IfOk result (λ _. wave.new.items ≡ tape.with_tone wave.old.items cycles) }
{
    for i in 0..cycles {
        put_cycle(wave, &[224u8; 26], &[32u8; 26])?;
    }
    Ok(())
}

// Appends the cycle of a bit.
fn put_bit(wave: &mut Vec<u8>, bit: u8) -> Result<(), AllocError>
    ensures { IfOk result (λ _. wave.new.items ≡ tape.with_bit wave.old.items bit) }
{
    if bit == 0 {
        put_cycle(wave, &[224u8; 10], &[32u8; 10])
    } else {
        put_cycle(wave, &[224u8; 20], &[32u8; 20])
    }
}

// Appends the cycles of a byte, the highest bit first.
#[tactic(auto, unfolding(crate::specs::Tape::with_byte))]
fn put_byte(wave: &mut Vec<u8>, byte: u8) -> Result<(), AllocError>
    ensures { IfOk result (λ _. wave.new.items ≡ tape.with_byte wave.old.items byte) }
{
    put_bit(wave, byte / 128)?;
    put_bit(wave, byte / 64 % 2)?;
    put_bit(wave, byte / 32 % 2)?;
    put_bit(wave, byte / 16 % 2)?;
    put_bit(wave, byte / 8 % 2)?;
    put_bit(wave, byte / 4 % 2)?;
    put_bit(wave, byte / 2 % 2)?;
    put_bit(wave, byte % 2)
}

// Appends the cycles of some bytes.
fn put_bytes(wave: &mut Vec<u8>, bytes: &[u8]) -> Result<(), AllocError>
    ensures { IfOk result (λ _. wave.new.items ≡ fold tape.with_byte wave.old.items bytes.now) }
{
    for byte in bytes {
        put_byte(wave, *byte)?;
    }
    Ok(())
}

// Returns the checksum of some bytes.
fn checksum(bytes: &[u8]) -> u8
    ensures { result ≡ tape.checksum bytes.now }
{
    let mut sum: u8 = 0xFF;
    for byte in bytes {
        sum ^= *byte;
    }
    sum
}

// Returns the samples of some bytes on a tape.
fn samples_of(alloc: Global, bytes: &[u8]) -> Result<Vec<u8>, AllocError>
    ensures { IfOk result (λ wave. wave.items ≡ tape.samples bytes.now) }
{
    let mut wave = Vec::new(alloc);
    put_tone(&mut wave, HEADER_CYCLES)?;
    put_cycle(&mut wave, &[224u8; 8], &[32u8; 10])?;
    put_bytes(&mut wave, bytes)?;
    put_byte(&mut wave, checksum(bytes))?;
    put_tone(&mut wave, TRAILER_CYCLES)?;
    Ok(wave)
}

// Returns a number in four bytes, the lowest one first.
fn long(number: u32) -> [u8; 4]
    ensures { result ≡ tape.long number }
{
    [
        (number % 256) as u8,
        (number / 256 % 256) as u8,
        (number / 65536 % 256) as u8,
        (number / 16777216) as u8,
    ]
}

// Returns the front of a WAV file with this many samples.
fn head_of(count: u32) -> [u8; 44]
    requires { count < 0xF0000000 }
    ensures { result ≡ tape.head count }
{
    let [a, b, c, d] = long(count + 36);
    let [e, f, g, h] = long(count);
    [
        b'R', b'I', b'F', b'F', a, b, c, d, b'W', b'A', b'V', b'E', b'f', b'm', b't', b' ', 16, 0,
        0, 0, 1, 0, 1, 0, 0x40, 0x9C, 0, 0, 0x40, 0x9C, 0, 0, 1, 0, 8, 0, b'd', b'a', b't', b'a',
        e, f, g, h,
    ]
}

/// Returns a WAV file with 8-bit samples of one channel, 40,000 in a second, in memory of `alloc`. An Apple II that hears it reads `bytes`
/// with its Monitor. Fails only if memory runs out.
pub fn tape_of(alloc: Global, bytes: &[u8]) -> Result<Vec<u8>, AllocError>
    ensures { IfOk result (λ file. file.items ≡ tape.wav_file (tape.samples bytes.now)) }
{
    let wave = samples_of(alloc, bytes)?;
    let count = (wave.len() % 0xF0000000) as u32;
    let mut file = Vec::new(alloc);
    file.extend_from_slice(&head_of(count))?;
    file.extend_from_slice(wave.as_slice())?;
    Ok(file)
}
