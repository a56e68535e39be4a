//! The checksums of a PNG file.

ghost use Rattle.std.specs.Prelude.{◌≡◌, ◌<◌};
ghost use Rattle.a2_picture.specs.Checksums as checksums;

/// The CRC of no bytes, before it is complemented. PNG Specification (W3C, second edition), section 5.5.
pub(crate) const CRC_START: u32 = 0xFFFF_FFFF;

// Returns the CRC after one bit.
#[tactic(auto, unfolding(crate::specs::Checksums::crc_bit))]
fn crc_bit(crc: u32) -> u32
    ensures { result ≡ checksums.crc_bit crc }
{
    if crc % 2 == 1 {
        (crc / 2) ^ 0xEDB8_8320
    } else {
        crc / 2
    }
}

// Returns the CRC after four bits.
#[tactic(auto, unfolding(crate::specs::Checksums::crc_half))]
fn crc_half(crc: u32) -> u32
    ensures { result ≡ checksums.crc_half crc }
{
    crc_bit(crc_bit(crc_bit(crc_bit(crc))))
}

// Returns the CRC after one more byte.
#[tactic(auto, unfolding(crate::specs::Checksums::crc_byte))]
fn crc_byte(crc: u32, byte: u8) -> u32
    ensures { result ≡ checksums.crc_byte crc byte }
{
    crc_half(crc_half(crc ^ u32::from(byte)))
}

/// Returns the CRC after more bytes. PNG Specification (W3C, second edition), section 5.5 and annex D.
pub(crate) fn crc_after(crc: u32, bytes: &[u8]) -> u32
    ensures { result ≡ checksums.crc_after crc bytes.now }
{
    let mut crc = crc;
    for byte in bytes {
        crc = crc_byte(crc, *byte);
    }
    crc
}

/// The two sums of a checksum Adler-32. RFC 1950, section 8.2.
#[derive(Clone, Copy)]
pub(crate) struct Sums {
    /// One more than the sum of the bytes.
    pub low: u32,
    /// The sum of all values of `low`.
    pub high: u32,
}

// Returns the sum of two numbers, modulo 65,521.
#[tactic(auto, unfolding(crate::specs::Checksums::sum))]
fn sum(one: u32, other: u32) -> u32
    requires one { one < 65521 }
    requires other { other < 65521 }
    ensures value { result ≡ checksums.sum one other }
    ensures small { result < 65521 }
{
    (one + other) % 65_521
}

/// Returns the sums after more bytes.
pub(crate) fn sums_after(sums: Sums, bytes: &[u8]) -> Sums
    requires low { sums.low < 65521 }
    requires high { sums.high < 65521 }
    ensures value { result ≡ checksums.sums_after sums bytes.now }
    ensures low { result.low < 65521 }
    ensures high { result.high < 65521 }
{
    let mut low = sums.low;
    let mut high = sums.high;
    for byte in bytes {
        low = sum(low, u32::from(*byte));
        high = sum(high, low);
    }
    Sums { low, high }
}
