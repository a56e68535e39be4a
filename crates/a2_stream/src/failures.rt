//! When a call counts as failed, and how failed calls are counted.
ghost use Rattle.std.specs.Prelude.{◌≡◌};
ghost use Rattle.a2_stream.specs.Stream as spec;
ghost use Rattle.a2_stream.specs.Stream.{count_after};

use crate::WriteFault;

/// Returns the count of failed calls after one more call. At its greatest value the count stays.
pub(crate) fn counted(failed: u64, is_failed: bool) -> u64
    ensures { result ≡ count_after is_failed failed }
{
    failed.saturating_add(u64::from(is_failed))
}

/// Returns whether a write failed, either with an error or by taking nothing from a piece that is not empty.
pub(crate) fn is_failed_write(taken: &Result<usize, WriteFault>, piece: &[u8]) -> bool
    ensures { result ≡ spec.is_failed_write taken.now piece.now }
{
    match *taken {
        Ok(count) => count == 0 && !piece.is_empty(),
        Err(_) => true,
    }
}
