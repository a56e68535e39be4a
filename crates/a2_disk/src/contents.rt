//! The bytes of a file.

ghost use Rattle.std.specs.Prelude.{◌≡◌, ◌<◌, ◌≤◌, ◌+◌, ◌*◌, length, IfOk, slice_index};
ghost use Rattle.a2_disk.specs.Contents.{sector_bytes, with_listed, with_lists, contents};

use crate::bytes::{byte_at, is_sector, sector_start};
use std::alloc::{AllocError, Global};

// Returns the bytes of a sector.
fn sector_of(disk: &[u8], track: usize, sector: usize) -> &[u8]
    requires size { length disk.now ≡ 143360 }
    requires track { track < 35 }
    requires sector { sector < 16 }
    ensures { result.now ≡ sector_bytes disk.now track sector }
{
    let start = sector_start(track, sector);
    let (bytes, _) = disk[start..].split_at(256);
    bytes
}

// Appends the sectors of at most `left` pairs of track and sector, the first of them at an offset.
#[tactic(auto, using(crate::proofs::ContentsLaws::listed_step, crate::proofs::ContentsLaws::listed_none))]
fn put_listed(bytes: &mut Vec<u8>, disk: &[u8], at: usize, left: usize) -> Result<(), AllocError>
    requires size { length disk.now ≡ 143360 }
    requires small { at + 2 * left ≤ 200000 }
    ensures { IfOk result (λ _. bytes.new.items ≡ with_listed bytes.old.items disk.now at left) }
{
    if left == 0 {
        return Ok(());
    }
    let (track, sector) = (byte_at(disk, at), byte_at(disk, at + 1));
    if !is_sector(track, sector) {
        return Ok(());
    }
    bytes.extend_from_slice(sector_of(disk, track, sector))?;
    put_listed(bytes, disk, at + 2, left - 1)
}

// Appends the sectors of at most `left` lists of sectors, the first of them in this sector.
#[tactic(auto, using(crate::proofs::ContentsLaws::lists_step, crate::proofs::ContentsLaws::lists_none))]
fn put_lists(
    bytes: &mut Vec<u8>,
    disk: &[u8],
    track: usize,
    sector: usize,
    left: usize,
) -> Result<(), AllocError>
    requires size { length disk.now ≡ 143360 }
    ensures { IfOk result (λ _. bytes.new.items ≡ with_lists bytes.old.items disk.now track sector left) }
{
    if left == 0 {
        return Ok(());
    }
    if !is_sector(track, sector) {
        return Ok(());
    }
    let start = sector_start(track, sector);
    put_listed(bytes, disk, start + 12, 122)?;
    put_lists(
        bytes,
        disk,
        byte_at(disk, start + 1),
        byte_at(disk, start + 2),
        left - 1,
    )
}

/// Returns the bytes of the file whose entry of the catalog is at the offset `entry`, in memory of `alloc`: whole sectors, at most 5 lists of
/// them. Fails only if memory runs out.
pub fn contents_of(alloc: Global, disk: &[u8], entry: usize) -> Result<Vec<u8>, AllocError>
    requires size { length disk.now ≡ 143360 }
    requires entry { entry ≤ 143360 }
    ensures { IfOk result (λ bytes. bytes.items ≡ contents disk.now entry) }
{
    let mut bytes = Vec::new(alloc);
    put_lists(
        &mut bytes,
        disk,
        byte_at(disk, entry),
        byte_at(disk, entry + 1),
        5,
    )?;
    Ok(bytes)
}
