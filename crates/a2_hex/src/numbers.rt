//! Addresses and bytes in hexadecimal digits.

ghost use Rattle.std.specs.Prelude.{◌≡◌};
ghost use Rattle.a2_hex.specs.ObjectLines as lines;

use a2_text::number_in;

/// Returns the address, from 0 to $FFFF, that 1 to 4 hexadecimal digits of either case mean. Returns `None` if `digits`
/// is anything else; blanks are not allowed either. This project's profile.
pub fn address_of(digits: &[u8]) -> Option<u16>
    ensures { result ≡ lines.hex_address digits.now }
{
    number_in(16, 4, digits)
}

/// Returns the byte that 1 or 2 hexadecimal digits of either case mean. Returns `None` if `digits` is anything else;
/// blanks are not allowed either. This project's profile.
#[tactic(auto, using(crate::proofs::ByteLaws::byte_of_small), unfolding(crate::specs::ObjectLines::byte_of))]
pub fn byte_of(digits: &[u8]) -> Option<u8>
    ensures { result ≡ lines.byte_of digits.now }
{
    let byte = number_in(16, 2, digits)?;
    Some(byte as u8)
}
