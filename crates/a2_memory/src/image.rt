//! All of RAM as an image.

ghost use Rattle.std.specs.Prelude.{◌≡◌, ℕ, IfOk};
ghost use Rattle.a2_bus.specs.Memory.{peek};
ghost use Rattle.a2_bus.specs.View.{memory_of};
ghost use Rattle.a2_hex.specs.Images.{held};

use a2_hex::{Image, RAM_END};
use a2_machine::Machine;
use std::alloc::{AllocError, Allocator};

/// Returns the image of all bytes of a machine's RAM. Fails only if memory runs out.
pub fn image_of<A: Allocator + Copy, B: Allocator>(
    alloc: A,
    machine: &Machine<B>,
) -> Result<Image<A>, AllocError>
    ensures { IfOk result (λ image. (a : ℕ) → held image a ≡ peek (memory_of machine.now.state.bus) a) }
{
    let Ok(mut image) = Image::new(alloc) else {
        return Err(AllocError);
    };
    for address in 0..RAM_END {
        image.set(address, machine.peek(address).unwrap_or(0));
    }
    Ok(image)
}
