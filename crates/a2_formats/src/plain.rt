//! Bytes without gaps: plain bytes, and the binary files of DOS 3.3.

ghost use Rattle.std.specs.Prelude.{◌≡◌, ◌≢◌, ◌<◌, ℕ, None, Ok, Err, IfOk, IfErr};
ghost use Rattle.a2_hex.specs.Images.{held};
ghost use Rattle.a2_formats.specs.declared.fault.FormatFault.TheVariants.{At, Memory};
ghost use Rattle.a2_formats.specs.declared.fault.Flaw.TheVariants.{Gap};
ghost use Rattle.a2_formats.specs.Plain.{plain_image, dos_image};

use crate::fault::{Flaw, FormatFault};
use crate::filling::ends_of;
use crate::laying::{empty_image, lay};
use crate::same::is_same;
use a2_hex::Image;
use std::alloc::{AllocError, Global};

/// Bytes from an address upwards.
#[derive(Drop)]
pub struct Plain {
    pub start: u16,
    pub bytes: Vec<u8>,
}

/// Returns the image of `bytes` from the address `start` upwards, in memory of `alloc`. Fails if a byte would be at or above $C000.
pub fn read_plain(alloc: Global, start: u16, bytes: &[u8]) -> Result<Image, FormatFault>
    ensures loaded { IfOk result (λ image. plain_image 0 start bytes.now ≡ Ok (held image)) }
    ensures refused { IfErr result (λ fault. fault ≢ Memory → plain_image 0 start bytes.now ≡ Err fault) }
{
    read_from(alloc, 0, usize::from(start), bytes)
}

// The same, if the byte at this offset says where the bytes are.
pub(crate) fn read_from(
    alloc: Global,
    place: usize,
    start: usize,
    bytes: &[u8],
) -> Result<Image, FormatFault>
    requires { start < 0x100000000 }
    ensures loaded { IfOk result (λ image. plain_image place start bytes.now ≡ Ok (held image)) }
    ensures refused { IfErr result (λ fault. fault ≢ Memory → plain_image place start bytes.now ≡ Err fault) }
{
    match empty_image(alloc) {
        Ok(mut image) => match lay(&mut image, place, start, bytes) {
            Ok(()) => Ok(image),
            Err(fault) => Err(fault),
        },
        Err(fault) => Err(fault),
    }
}

// Returns the bytes of an image from its first one to its last one, and the address of the first one.
pub(crate) fn bytes_of(alloc: Global, image: &Image) -> Result<Plain, FormatFault>
    ensures gap { (address : ℕ) → result ≡ Err (At address Gap) → held image.now address ≡ None }
{
    let Some((start, end)) = ends_of(image) else {
        return Err(FormatFault::At(0, Flaw::Empty));
    };
    let mut bytes = Vec::with_capacity(alloc, usize::from(end))?;
    for address in start..end {
        match image.get(address) {
            Some(byte) => bytes.push(byte)?,
            None => return Err(FormatFault::At(usize::from(address), Flaw::Gap)),
        }
    }
    Ok(Plain { start, bytes })
}

/// Returns the bytes of an image that has no gaps, in memory of `alloc`. `read_plain` gives exactly this image for them: they are read back
/// before they are returned. Fails if the image has no byte (`Empty`), or has a gap (`Gap`, with its address).
pub fn plain_of(alloc: Global, image: &Image) -> Result<Plain, FormatFault>
    ensures { IfOk result (λ plain. plain_image 0 plain.start plain.bytes.items ≡ Ok (held image.now)) }
{
    let plain = bytes_of(alloc, image)?;
    let again = read_plain(alloc, plain.start, plain.bytes.as_slice())?;
    if !is_same(&again, image) {
        return Err(FormatFault::At(0, Flaw::Unlike));
    }
    Ok(plain)
}

/// Returns the image of a binary file of DOS 3.3, in memory of `alloc`: the address of the bytes, their number, the lower byte of each first,
/// and the bytes. Fails if the file has less than four bytes or not as many as it says, or if a byte would be at or above $C000.
pub fn read_dos(alloc: Global, file: &[u8]) -> Result<Image, FormatFault>
    ensures loaded { IfOk result (λ image. dos_image file.now ≡ Ok (held image)) }
    ensures refused { IfErr result (λ fault. fault ≢ Memory → dos_image file.now ≡ Err fault) }
{
    if file.len() < 4 {
        return Err(FormatFault::At(file.len(), Flaw::Short));
    }
    let start = usize::from(file[0]) + 256 * usize::from(file[1]);
    let count = usize::from(file[2]) + 256 * usize::from(file[3]);
    let bytes = &file[4..];
    if bytes.len() < count {
        return Err(FormatFault::At(file.len(), Flaw::Short));
    }
    if bytes.len() > count {
        return Err(FormatFault::At(count + 4, Flaw::Long));
    }
    read_from(alloc, 0, start, bytes)
}

// Returns a binary file of DOS 3.3 with these bytes.
fn dos_file(alloc: Global, plain: &Plain) -> Result<Vec<u8>, AllocError> {
    let mut file = Vec::new(alloc);
    let count = plain.bytes.len() % 65536;
    file.extend_from_slice(&plain.start.to_le_bytes())?;
    file.push((count % 256) as u8)?;
    file.push((count / 256) as u8)?;
    file.extend_from_slice(plain.bytes.as_slice())?;
    Ok(file)
}

/// Returns the binary file of DOS 3.3 of an image that has no gaps, in memory of `alloc`. It is read back before it is returned: it has
/// exactly this image. Fails if the image has no byte (`Empty`), or has a gap (`Gap`, with its address).
pub fn write_dos(alloc: Global, image: &Image) -> Result<Vec<u8>, FormatFault>
    ensures { IfOk result (λ file. dos_image file.items ≡ Ok (held image.now)) }
{
    let plain = bytes_of(alloc, image)?;
    let file = dos_file(alloc, &plain)?;
    let again = read_dos(alloc, file.as_slice())?;
    if !is_same(&again, image) {
        return Err(FormatFault::At(0, Flaw::Unlike));
    }
    Ok(file)
}
