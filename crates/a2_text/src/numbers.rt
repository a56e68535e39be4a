//! Blanks, capital letters, and the values of digits.

ghost use Rattle.std.specs.Prelude.{◌≡◌, ◌≤◌, true, false, MatchOption, Some, None, length};
ghost use Rattle.a2_text.specs.Bytes as byte;
ghost use Rattle.a2_text.specs.Bytes.{is_hex_digit, digit as digit_of};

/// Returns whether a byte is a space or a tab.
pub fn is_blank(c: u8) -> bool
    ensures { result ≡ byte.is_blank c }
{
    c == b' ' || c == b'\t'
}

/// Returns the capital of a small letter; any other byte is unchanged.
pub fn capital(c: u8) -> u8
    ensures { result ≡ byte.capital c }
{
    if matches!(c, b'a'..=b'z') { c - 32 } else { c }
}

// Returns the value of a hexadecimal digit.
fn digit(c: u8) -> Option<u8>
    ensures { MatchOption result (is_hex_digit c ≡ false) (λ d. (is_hex_digit c ≡ true) × (d ≡ digit_of c)) }
{
    match c {
        b'0'..=b'9' => Some(c - b'0'),
        b'A'..=b'F' => Some(c - 55),
        b'a'..=b'f' => Some(c - 87),
        _ => None,
    }
}

/// Returns the value of `digits` in a base from 1 to 16. Returns `None` if `digits` is empty, has more than `most`
/// bytes, contains a byte that is not a digit of the base, or if the value is above 65,535.
pub fn number_in(base: u32, most: usize, digits: &[u8]) -> Option<u16>
    requires low { 1 ≤ base }
    requires high { base ≤ 16 }
    ensures { result ≡ byte.number_in base most digits.now }
{
    if digits.is_empty() || digits.len() > most {
        return None;
    }
    let mut n: u32 = 0;
    for c in digits {
        match digit(*c) {
            Some(d) if u32::from(d) < base => {
                n = n * base + u32::from(d);
                if n > 65535 {
                    return None;
                }
            }
            _ => return None,
        }
    }
    Some(n as u16)
}
