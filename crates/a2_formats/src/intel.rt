//! The records of Intel HEX.

ghost use Rattle.std.specs.Prelude.{◌≡◌, ◌<◌, ◌≤◌, Ok, Err, IfOk, IfErr};
ghost use Rattle.a2_formats.specs.IntelHex.{hex_step, hex_act, base_step};

use crate::fault::Flaw;
use crate::records::{Step, sum_of_bytes};

// Returns what a record does that sets the base to a multiple of its two bytes.
fn base_step<'a>(bytes: &[u8], factor: usize) -> Result<Step<'a>, Flaw>
    requires { factor ≤ 65536 }
    ensures is { IfOk result (λ step. base_step bytes.now factor ≡ Ok (record { start = step.start; bytes = step.bytes.now; base = step.base; ends = step.ends })) }
    ensures refused { IfErr result (λ flaw. base_step bytes.now factor ≡ Err flaw) }
    ensures small { IfOk result (λ step. (step.start < 0x200000000) × (step.base < 0x100000000)) }
{
    let [high, low] = bytes else {
        return Err(Flaw::Length);
    };
    let base = (usize::from(*high) * 256 + usize::from(*low)) * factor;
    Ok(Step {
        start: 0,
        bytes: &[],
        base,
        ends: false,
    })
}

// Returns what a record with this type, offset and bytes does.
fn act(base: usize, kind: u8, offset: usize, bytes: &[u8]) -> Result<Step<'_>, Flaw>
    requires base { base < 0x100000000 }
    requires offset { offset < 65536 }
    ensures is { IfOk result (λ step. hex_act base kind offset bytes.now ≡ Ok (record { start = step.start; bytes = step.bytes.now; base = step.base; ends = step.ends })) }
    ensures refused { IfErr result (λ flaw. hex_act base kind offset bytes.now ≡ Err flaw) }
    ensures small { IfOk result (λ step. (step.start < 0x200000000) × (step.base < 0x100000000)) }
{
    if kind == 0 {
        return Ok(Step {
            start: base + offset,
            bytes,
            base,
            ends: false,
        });
    }
    if kind == 1 {
        return Ok(Step {
            start: 0,
            bytes: &[],
            base,
            ends: true,
        });
    }
    if kind == 2 {
        return base_step(bytes, 16);
    }
    if kind == 4 {
        return base_step(bytes, 65536);
    }
    if kind == 3 || kind == 5 {
        return Ok(Step {
            start: 0,
            bytes: &[],
            base,
            ends: false,
        });
    }
    Err(Flaw::Kind)
}

// Returns what a record of Intel HEX does, given all of its bytes and the base so far.
pub(crate) fn hex_step(base: usize, bytes: &[u8]) -> Result<Step<'_>, Flaw>
    requires { base < 0x100000000 }
    ensures is { IfOk result (λ step. hex_step base bytes.now ≡ Ok (record { start = step.start; bytes = step.bytes.now; base = step.base; ends = step.ends })) }
    ensures refused { IfErr result (λ flaw. hex_step base bytes.now ≡ Err flaw) }
    ensures small { IfOk result (λ step. (step.start < 0x200000000) × (step.base < 0x100000000)) }
{
    if bytes.len() < 5 {
        return Err(Flaw::Length);
    }
    let count = usize::from(bytes[0]);
    if bytes.len() != count + 5 {
        return Err(Flaw::Length);
    }
    if sum_of_bytes(bytes) != 0 {
        return Err(Flaw::Checksum);
    }
    let offset = usize::from(bytes[1]) * 256 + usize::from(bytes[2]);
    let rest = &bytes[4..];
    act(base, bytes[3], offset, &rest[..count])
}
