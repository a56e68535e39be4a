//! Whether two images are the same.

ghost use Rattle.std.specs.Prelude.{◌≡◌, IsTrue};
ghost use Rattle.a2_hex.specs.Images.{held};

use a2_hex::{Image, RAM_END};

/// Returns whether two images have the same bytes at the same addresses.
pub fn is_same(left: &Image, right: &Image) -> bool
    ensures { IsTrue result → held left.now ≡ held right.now }
{
    if left.get(0) != right.get(0) {
        return false;
    }
    for address in 1..RAM_END {
        if left.get(address) != right.get(address) {
            return false;
        }
    }
    true
}
