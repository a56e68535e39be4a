//! Numbers written as hexadecimal and decimal digits.

ghost use Rattle.std.specs.Prelude.{◌≡◌};
ghost use Rattle.std.specs.Fmt.{decimal as decimal_of};
ghost use Rattle.a2_text.specs.Digits as digits;

use crate::numbers::capital;
use crate::room::append;
use arrayvec::ArrayVec;
use itoa::Buffer;

/// Returns the two capital hexadecimal digits of a byte.
pub fn hex_pair(byte: u8) -> [u8; 2]
    ensures { result ≡ digits.hex_pair byte }
{
    let mut small = [0u8; 2];
    // A byte has exactly two digits, so the buffer is large enough.
    hex::encode_to_slice([byte], &mut small).unwrap();
    [capital(small[0]), capital(small[1])]
}

/// Returns the four capital hexadecimal digits of an address.
pub fn hex_word(word: u16) -> [u8; 4]
    ensures { result ≡ digits.hex_word word }
{
    let [a, b] = hex_pair((word / 256) as u8);
    let [c, d] = hex_pair((word % 256) as u8);
    [a, b, c, d]
}

/// Returns the decimal digits of a number, without leading zeros.
pub fn decimal(number: u64) -> ArrayVec<u8, 20>
    ensures { result.items ≡ decimal_of number }
{
    let mut digits = ArrayVec::new();
    append(&mut digits, Buffer::new().format(number).as_bytes());
    digits
}
