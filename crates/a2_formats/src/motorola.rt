//! The records of Motorola.

ghost use Rattle.std.specs.Prelude.{◌≡◌, ◌<◌, ◌≤◌, Ok, Err, IfOk, IfErr, length};
ghost use Rattle.a2_formats.specs.Motorola.{s_step, s_act, address_len, number_of};

use crate::fault::Flaw;
use crate::records::{Step, sum_of_bytes};

// Returns how many bytes the address of a record of this type has.
fn address_len(kind: u8) -> usize
    ensures is { result ≡ address_len kind }
    ensures few { result ≤ 4 }
    ensures some { 2 ≤ result }
{
    match kind {
        b'2' | b'6' | b'8' => 3,
        b'3' | b'7' => 4,
        _ => 2,
    }
}

// Returns what a record of this type does, which has these bytes from an address upwards.
fn act(kind: u8, start: usize, bytes: &[u8]) -> Result<Step<'_>, Flaw>
    requires { start < 0x100000000 }
    ensures is { IfOk result (λ step. s_act kind start bytes.now ≡ Ok (record { start = step.start; bytes = step.bytes.now; base = step.base; ends = step.ends })) }
    ensures refused { IfErr result (λ flaw. s_act kind start bytes.now ≡ Err flaw) }
    ensures small { IfOk result (λ step. (step.start < 0x200000000) × (step.base < 0x100000000)) }
{
    match kind {
        b'1' | b'2' | b'3' => Ok(Step {
            start,
            bytes,
            base: 0,
            ends: false,
        }),
        b'7' | b'8' | b'9' => Ok(Step {
            start: 0,
            bytes: &[],
            base: 0,
            ends: true,
        }),
        b'0' | b'5' | b'6' => Ok(Step {
            start: 0,
            bytes: &[],
            base: 0,
            ends: false,
        }),
        _ => Err(Flaw::Kind),
    }
}

// Returns the number that the first two, three or four bytes mean, the highest one first.
fn number_of(width: usize, bytes: &[u8]) -> usize
    requires room { width ≤ length bytes.now }
    requires few { width ≤ 4 }
    requires some { 2 ≤ width }
    ensures is { result ≡ number_of width bytes.now }
    ensures small { result < 0x100000000 }
{
    let number = usize::from(bytes[0]) * 256 + usize::from(bytes[1]);
    if width == 2 {
        return number;
    }
    let number = number * 256 + usize::from(bytes[2]);
    if width == 3 {
        return number;
    }
    number * 256 + usize::from(bytes[3])
}

// Returns what a record of Motorola does, given the digit after its `S` and its bytes.
pub(crate) fn s_step(kind: u8, bytes: &[u8]) -> Result<Step<'_>, Flaw>
    ensures is { IfOk result (λ step. s_step kind bytes.now ≡ Ok (record { start = step.start; bytes = step.bytes.now; base = step.base; ends = step.ends })) }
    ensures refused { IfErr result (λ flaw. s_step kind bytes.now ≡ Err flaw) }
    ensures small { IfOk result (λ step. (step.start < 0x200000000) × (step.base < 0x100000000)) }
{
    let width = address_len(kind);
    if bytes.len() < width + 2 {
        return Err(Flaw::Length);
    }
    let count = usize::from(bytes[0]);
    if bytes.len() != count + 1 {
        return Err(Flaw::Length);
    }
    if sum_of_bytes(bytes) != 255 {
        return Err(Flaw::Checksum);
    }
    let rest = &bytes[1..];
    let start = number_of(width, rest);
    let after = &rest[width..];
    act(kind, start, &after[..count - width - 1])
}
