//! Reading a text of records.

ghost use Rattle.std.specs.Prelude.{◌≡◌, ◌≢◌, ◌<◌, slice_index, Ok, Err, OnOk, IfOk, IfErr};
ghost use Rattle.a2_hex.specs.Images.{held};
ghost use Rattle.a2_formats.specs.declared.fault.FormatFault.TheVariants.{Memory};
ghost use Rattle.a2_formats.specs.Reading.{front_len, sign_of, step_of, payload, after_bytes, after_line, image_of};

use crate::digits::read_pairs;
use crate::fault::{Flaw, FormatFault};
use crate::intel::hex_step;
use crate::laying::{empty_image, lay};
use crate::motorola::s_step;
use crate::records::Step;
use a2_hex::Image;
use a2_text::cut;
use std::alloc::Global;

/// The two kinds of records.
#[derive(Clone, Copy, Debug, PartialEq, Eq)]
pub enum Records {
    /// Intel HEX.
    Intel,
    /// The S-records of Motorola.
    Motorola,
}

// What was read before a line: the base, and whether the file has ended.
#[derive(Clone, Copy)]
struct Place {
    base: usize,
    ended: bool,
}

// Returns how many characters a line has before its digits.
fn front_len(records: Records) -> usize
    ensures { result ≡ front_len records }
{
    match records {
        Records::Intel => 1,
        Records::Motorola => 2,
    }
}

// Returns the character with which each line begins.
fn sign_of(records: Records) -> u8
    ensures { result ≡ sign_of records }
{
    match records {
        Records::Intel => b':',
        Records::Motorola => b'S',
    }
}

// Returns what a record does, given the second character of its line and its bytes.
fn step_of(records: Records, base: usize, kind: u8, bytes: &[u8]) -> Result<Step<'_>, Flaw>
    requires { base < 0x100000000 }
    ensures is { IfOk result (λ step. step_of records base kind bytes.now ≡ Ok (record { start = step.start; bytes = step.bytes.now; base = step.base; ends = step.ends })) }
    ensures refused { IfErr result (λ flaw. step_of records base kind bytes.now ≡ Err flaw) }
    ensures small { IfOk result (λ step. (step.start < 0x200000000) × (step.base < 0x100000000)) }
{
    match records {
        Records::Intel => hex_step(base, bytes),
        Records::Motorola => s_step(kind, bytes),
    }
}

// Returns the second character of a line, or 0.
fn second(line: &[u8]) -> u8
    ensures { result ≡ slice_index line.now 1 }
{
    if line.len() > 1 { line[1] } else { 0 }
}

// Makes `bytes` those of the record in line `n`, after its type if that is one character.
fn read_payload(
    records: Records,
    bytes: &mut Vec<u8>,
    n: usize,
    line: &[u8],
) -> Result<(), FormatFault>
    ensures is { OnOk result (payload records n line.now ≡ Ok bytes.new.items) }
    ensures refused { IfErr result (λ fault. fault ≢ Memory → payload records n line.now ≡ Err fault) }
{
    let front = front_len(records);
    if line.len() < front {
        return Err(FormatFault::At(n, Flaw::Form));
    }
    if line[0] != sign_of(records) {
        return Err(FormatFault::At(n, Flaw::Form));
    }
    read_pairs(bytes, n, &line[front..])
}

// Does what the record of line `n` says, and returns what was read before the next line.
fn read_bytes(
    records: Records,
    image: &mut Image,
    base: usize,
    n: usize,
    kind: u8,
    bytes: &[u8],
) -> Result<Place, FormatFault>
    requires { base < 0x100000000 }
    ensures loaded { IfOk result (λ after. after_bytes records n (held image.old) base kind bytes.now ≡ Ok (record { image = held image.new; base = after.base; ended = after.ended })) }
    ensures refused { IfErr result (λ fault. after_bytes records n (held image.old) base kind bytes.now ≡ Err fault) }
    ensures small { IfOk result (λ after. after.base < 0x100000000) }
{
    match step_of(records, base, kind, bytes) {
        Ok(step) => match lay(image, n, step.start, step.bytes) {
            Ok(()) => Ok(Place {
                base: step.base,
                ended: step.ends,
            }),
            Err(fault) => Err(fault),
        },
        Err(flaw) => Err(FormatFault::At(n, flaw)),
    }
}

// Reads one line, and returns what was read before the next one. `bytes` is room for those of the line.
#[tactic(auto, unfolding(crate::specs::Reading::after_line))]
fn read_line(
    records: Records,
    image: &mut Image,
    bytes: &mut Vec<u8>,
    before: Place,
    n: usize,
    line: &[u8],
) -> Result<Place, FormatFault>
    requires { before.base < 0x100000000 }
    ensures loaded { IfOk result (λ after. after_line records n (record { image = held image.old; base = before.base; ended = before.ended }) line.now
        ≡ Ok (record { image = held image.new; base = after.base; ended = after.ended })) }
    ensures refused { IfErr result (λ fault. fault ≢ Memory → after_line records n (record { image = held image.old; base = before.base; ended = before.ended }) line.now ≡ Err fault) }
    ensures small { IfOk result (λ after. after.base < 0x100000000) }
{
    if line.len() == 0 {
        return Ok(before);
    }
    if before.ended {
        return Err(FormatFault::At(n, Flaw::AfterEnd));
    }
    match read_payload(records, bytes, n, line) {
        Ok(()) => read_bytes(
            records,
            image,
            before.base,
            n,
            second(line),
            bytes.as_slice(),
        ),
        Err(fault) => Err(fault),
    }
}

/// Returns the image that a text of records has, in memory of `alloc`.
///
/// Fails at the first line that is not a record of this kind, whose count or checksum is wrong, that has a byte at or above $C000, or that
/// gives a byte to an address again. Fails at the last line if no record ends the file. Empty lines are ignored.
pub fn read_records(alloc: Global, records: Records, text: &[u8]) -> Result<Image, FormatFault>
    ensures loaded { IfOk result (λ image. image_of records text.now ≡ Ok (held image)) }
    ensures refused { IfErr result (λ fault. fault ≢ Memory → image_of records text.now ≡ Err fault) }
{
    let lines = cut(alloc, text)?;
    let mut image = empty_image(alloc)?;
    let mut bytes = Vec::new(alloc);
    let mut place = Place {
        base: 0,
        ended: false,
    };
    for (i, line) in lines.iter().enumerate() {
        place = read_line(records, &mut image, &mut bytes, place, i + 1, line)?;
    }
    if !place.ended {
        return Err(FormatFault::At(lines.len(), Flaw::NoEnd));
    }
    Ok(image)
}
