//! The bytes and the sectors of a disk.

ghost use Rattle.std.specs.Prelude.{◌≡◌, ◌<◌, ◌≤◌, ◌+◌, slice_index};
ghost use Rattle.a2_disk.specs.Sectors as sectors;

/// The number of bytes of a disk: 35 tracks of 16 sectors of 256 bytes.
pub const DISK_LEN: usize = 143_360;

// Returns the byte at an offset, or 0 after the end.
pub(crate) fn byte_at(disk: &[u8], at: usize) -> usize
    ensures is { result ≡ slice_index disk.now at }
    ensures small { result < 256 }
{
    if at < disk.len() {
        usize::from(disk[at])
    } else {
        0
    }
}

// Returns whether a track that is not the first one has a sector.
pub(crate) fn is_sector(track: usize, sector: usize) -> bool
    ensures { result ≡ sectors.is_sector track sector }
{
    0 < track && track < 35 && sector < 16
}

// Returns the offset of a sector.
pub(crate) fn sector_start(track: usize, sector: usize) -> usize
    requires track { track < 35 }
    requires sector { sector < 16 }
    ensures is { result ≡ sectors.sector_start track sector }
    ensures room { result + 256 ≤ 143360 }
{
    (track * 16 + sector) * 256
}
