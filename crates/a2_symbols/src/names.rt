//! Finds the names of addresses.

ghost use Rattle.std.specs.Prelude.{◌≡◌, string_bytes};
ghost use Rattle.a2_asm.specs.Entries.{entries};
ghost use Rattle.a2_symbols.specs.Names.{name_of as first_name_of};

use a2_asm::Names;
use std::alloc::Allocator;

/// Returns the first of these names with this address as its value, or nothing. This project's profile.
pub fn name_of<A: Allocator + Copy>(names: &Names<A>, address: u16) -> &[u8]
    ensures { result.now ≡ first_name_of (entries names.now) address }
{
    for index in 0..names.len() {
        let Some((name, value)) = names.get_index(index) else {
            return b"";
        };
        if *value == address {
            return name.as_str().as_bytes();
        }
    }
    b""
}
