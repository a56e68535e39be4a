//! What a record of either kind does.

ghost use Rattle.std.specs.Prelude.{◌≡◌};
ghost use Rattle.a2_formats.specs.Records.{sum_of_bytes};

/// What a record does: it has bytes from an address upwards, or sets the base of the addresses that follow, or ends the file.
#[derive(Clone, Copy, Debug)]
pub(crate) struct Step<'a> {
    /// The address of the first byte.
    pub start: usize,
    pub bytes: &'a [u8],
    /// What the addresses of the records after this one are added to.
    pub base: usize,
    /// Whether this record ends the file.
    pub ends: bool,
}

// Returns the sum of some bytes, modulo 256.
pub(crate) fn sum_of_bytes(bytes: &[u8]) -> u8
    ensures { result ≡ sum_of_bytes bytes.now }
{
    let mut sum: u8 = 0;
    for byte in bytes {
        sum = sum.wrapping_add(*byte);
    }
    sum
}
