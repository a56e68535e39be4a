//! Pairs of hexadecimal digits.

ghost use Rattle.std.specs.Prelude.{◌≡◌, ◌≢◌, Ok, Err, OnOk, IfErr};
ghost use Rattle.hex.specs.Hex.{decode_of};
ghost use Rattle.a2_formats.specs.declared.fault.FormatFault.TheVariants.{Memory};
ghost use Rattle.a2_formats.specs.Digits.{digit_value};
ghost use Rattle.a2_formats.specs.Reading.{in_pairs};

use crate::fault::{Flaw, FormatFault};

// The value of each byte as a hexadecimal digit of either case, and 16 if it is none. A look-up takes the same time for each digit, while
// tests for ranges are jumps that a processor cannot foresee.
static DIGIT_VALUES: [u8; 256] = [
    16, 16, 16, 16, 16, 16, 16, 16, 16, 16, 16, 16, 16, 16, 16, 16, 16, 16, 16, 16, 16, 16, 16, 16,
    16, 16, 16, 16, 16, 16, 16, 16, 16, 16, 16, 16, 16, 16, 16, 16, 16, 16, 16, 16, 16, 16, 16, 16,
    0, 1, 2, 3, 4, 5, 6, 7, 8, 9, 16, 16, 16, 16, 16, 16, 16, 10, 11, 12, 13, 14, 15, 16, 16, 16,
    16, 16, 16, 16, 16, 16, 16, 16, 16, 16, 16, 16, 16, 16, 16, 16, 16, 16, 16, 16, 16, 16, 16, 10,
    11, 12, 13, 14, 15, 16, 16, 16, 16, 16, 16, 16, 16, 16, 16, 16, 16, 16, 16, 16, 16, 16, 16, 16,
    16, 16, 16, 16, 16, 16, 16, 16, 16, 16, 16, 16, 16, 16, 16, 16, 16, 16, 16, 16, 16, 16, 16, 16,
    16, 16, 16, 16, 16, 16, 16, 16, 16, 16, 16, 16, 16, 16, 16, 16, 16, 16, 16, 16, 16, 16, 16, 16,
    16, 16, 16, 16, 16, 16, 16, 16, 16, 16, 16, 16, 16, 16, 16, 16, 16, 16, 16, 16, 16, 16, 16, 16,
    16, 16, 16, 16, 16, 16, 16, 16, 16, 16, 16, 16, 16, 16, 16, 16, 16, 16, 16, 16, 16, 16, 16, 16,
    16, 16, 16, 16, 16, 16, 16, 16, 16, 16, 16, 16, 16, 16, 16, 16, 16, 16, 16, 16, 16, 16, 16, 16,
    16, 16, 16, 16, 16, 16, 16, 16, 16, 16, 16, 16, 16, 16,
];

// Returns the value of a hexadecimal digit of either case, or 16 if the byte is none.
pub(crate) fn digit_value(c: u8) -> u8
    ensures { result ≡ digit_value c }
{
    DIGIT_VALUES[usize::from(c)]
}

// The digits, by their values.
static DIGITS: [u8; 16] = *b"0123456789ABCDEF";

// Returns the two capital digits of a byte.
pub(crate) fn digits_of(byte: u8) -> [u8; 2] {
    [
        DIGITS[usize::from(byte / 16)],
        DIGITS[usize::from(byte % 16)],
    ]
}

// Makes `bytes` the bytes of pairs of digits. Fails if one of the digits is none, or has no second one; `n` is the line that is at fault then.
pub(crate) fn read_pairs(bytes: &mut Vec<u8>, n: usize, digits: &[u8]) -> Result<(), FormatFault>
    ensures is { OnOk result (in_pairs n (decode_of digits.now) ≡ Ok bytes.new.items) }
    ensures refused { IfErr result (λ fault. fault ≢ Memory → in_pairs n (decode_of digits.now) ≡ Err fault) }
{
    bytes.clear();
    let mut rest = digits;
    while let [high, low, following @ ..] = rest {
        let (high, low) = (digit_value(*high), digit_value(*low));
        if (high > 15) | (low > 15) {
            return Err(FormatFault::At(n, Flaw::Digits));
        }
        bytes.push(high * 16 + low)?;
        rest = following;
    }
    if rest.len() > 0 {
        return Err(FormatFault::At(n, Flaw::Digits));
    }
    Ok(())
}
