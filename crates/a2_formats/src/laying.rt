//! Laying bytes into an image.

ghost use Rattle.std.specs.Prelude.{◌≡◌, ◌<◌, Ok, Err, IfOk, IfErr, None};
ghost use Rattle.a2_hex.specs.Images.{held, no_bytes, put, ram_end};
ghost use Rattle.a2_formats.specs.Laying.{laid, laid_byte};
ghost use Rattle.a2_formats.specs.declared.fault.FormatFault.TheVariants.{Memory};

use crate::fault::{Flaw, FormatFault};
use a2_hex::{Image, RAM_END};
use std::alloc::Global;

// Puts a byte at an address.
fn put_byte(image: &mut Image, address: u16, byte: u8)
    requires { address < ram_end }
    ensures { held image.new ≡ put (held image.old) address byte }
{
    image.set(address, byte);
}

// Puts a byte at an address. Fails if the address is at or above $C000, or has a byte already.
fn lay_byte(image: &mut Image, place: usize, at: usize, byte: u8) -> Result<(), FormatFault>
    ensures laid { IfOk result (λ _. laid_byte place (held image.old) at byte ≡ Ok (held image.new)) }
    ensures refused { IfErr result (λ fault. laid_byte place (held image.old) at byte ≡ Err fault) }
{
    if at >= usize::from(RAM_END) {
        return Err(FormatFault::At(place, Flaw::Outside));
    }
    let address = at as u16;
    if image.get(address).is_some() {
        return Err(FormatFault::At(place, Flaw::Overlap));
    }
    put_byte(image, address, byte);
    Ok(())
}

// Puts `bytes` at the addresses from `start` upwards. Fails at the first byte that would be at or above $C000, or whose address has a byte
// already; `place` is the line or the offset that is at fault then.
#[tactic(auto, using(crate::proofs::LayingLaws::laid_ok, crate::proofs::LayingLaws::laid_err, crate::proofs::LayingLaws::laid_none))]
pub(crate) fn lay(
    image: &mut Image,
    place: usize,
    start: usize,
    bytes: &[u8],
) -> Result<(), FormatFault>
    requires { start < 0x200000000 }
    ensures laid { IfOk result (λ _. laid place (held image.old) start bytes.now ≡ Ok (held image.new)) }
    ensures refused { IfErr result (λ fault. laid place (held image.old) start bytes.now ≡ Err fault) }
{
    let mut at = start;
    for byte in bytes {
        match lay_byte(image, place, at, *byte) {
            Ok(()) => at += 1,
            Err(fault) => return Err(fault),
        }
    }
    Ok(())
}

// Returns an image without bytes.
pub(crate) fn empty_image(alloc: Global) -> Result<Image, FormatFault>
    ensures empty { IfOk result (λ image. held image ≡ no_bytes) }
    ensures refused { IfErr result (λ fault. fault ≡ Memory) }
{
    match Image::new(alloc) {
        Ok(image) => Ok(image),
        Err(_) => Err(FormatFault::Memory),
    }
}
