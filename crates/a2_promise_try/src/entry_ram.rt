//! The contents of RAM when a routine of a program is entered.

ghost use Rattle.std.specs.Prelude.{◌≡◌, ◌<◌, ℕ, IfOk, IfSome, Some};
ghost use Rattle.a2_bus.specs.Memory.{ram_end};
ghost use Rattle.a2_hex.specs.Images.{held};
ghost use Rattle.a2_promise_try.specs.Failing.{IsFilled};

use a2_bus::locations::{BASH, BASL, COLOR, CSW, CV, H2, INVFLG, KSW, PROMPT, V2, WNDLFT};
use a2_hex::{Image, RAM_END};
use std::alloc::{AllocError, Global};

/// Returns an arbitrary byte, computed from a number.
pub(crate) fn any_byte(number: u64) -> u8 {
    let mixed = number.wrapping_add(1).wrapping_mul(0x9E37_79B9_7F4A_7C15);
    let mixed = (mixed ^ (mixed >> 29)).wrapping_mul(0xBF58_476D_1CE4_E5B9);
    ((mixed >> 32) % 256) as u8
}

// Returns whether the Monitor's services read an address: window, cursor, blocks, colour, mask, prompt and hooks.
fn is_monitor_byte(address: u16) -> bool {
    matches!(address, WNDLFT..=CV | BASL..=BASH | H2..=V2 | COLOR | INVFLG..=PROMPT)
        || (CSW <= address && address <= KSW + 1)
}

// Returns the byte at an address when a routine is entered, unless the promise names it. It is the program's own byte
// or an arbitrary one, since memory that is not named may hold anything. Returns `None` for the Monitor's own bytes,
// which stay as they are after power-on.
fn byte_at_entry(program: &Image<Global>, address: u16) -> Option<u8>
    ensures { IfSome (held program.now address) (λ byte. result ≡ Some byte) }
{
    match program.get(address) {
        Some(byte) => Some(byte),
        None if is_monitor_byte(address) => None,
        None => Some(any_byte(u64::from(address))),
    }
}

// Lays the byte that an address has when a routine is entered.
fn lay_at(program: &Image<Global>, address: u16, image: &mut Image<Global>)
    requires { address < ram_end }
    ensures here { IfSome (held program.now address) (λ byte. held image.new address ≡ Some byte) }
    ensures elsewhere { (a : ℕ) → a < address → held image.new a ≡ held image.old a }
{
    if let Some(byte) = byte_at_entry(program, address) {
        image.set(address, byte);
    }
}

/// Returns the bytes of RAM when a routine is entered, except for named bytes and the caller's return address. Fails
/// only if memory runs out.
pub(crate) fn filled(alloc: Global, program: &Image<Global>) -> Result<Image<Global>, AllocError>
    ensures { IfOk result (λ image. IsFilled (held program.now) (held image)) }
{
    // Shows the prover that a program is in RAM.
    let _first = program.get(0);
    let Ok(mut image) = Image::new(alloc) else {
        return Err(AllocError);
    };
    for address in 0..RAM_END {
        lay_at(program, address, &mut image);
    }
    Ok(image)
}
