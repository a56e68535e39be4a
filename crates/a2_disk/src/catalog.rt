//! The catalog of a disk.

ghost use Rattle.std.specs.Prelude.{◌≡◌, ◌≤◌, ◌+◌, ◌*◌, IfOk};
ghost use Rattle.a2_disk.specs.Catalog.{in_use, with_used, with_sectors, catalog, is_binary, with_characters, name};

use crate::bytes::{byte_at, is_sector, sector_start};
use std::alloc::{AllocError, Global};

// Returns whether the entry at an offset is that of a file: neither one that was never used, nor a deleted one.
fn in_use(disk: &[u8], entry: usize) -> bool
    ensures { result ≡ in_use disk.now entry }
{
    let track = byte_at(disk, entry);
    0 < track && track < 35
}

// Appends the offsets of the entries that are used, of at most `left` entries from this one on.
#[tactic(auto, using(crate::proofs::CatalogLaws::used_step, crate::proofs::CatalogLaws::used_none))]
fn put_used(entries: &mut Vec<usize>, disk: &[u8], at: usize, left: usize) -> Result<(), AllocError>
    requires { at + 35 * left ≤ 200000 }
    ensures { IfOk result (λ _. entries.new.items ≡ with_used entries.old.items disk.now at left) }
{
    if left == 0 {
        return Ok(());
    }
    if in_use(disk, at) {
        entries.push(at)?;
    }
    put_used(entries, disk, at + 35, left - 1)
}

// Appends the offsets of the entries that are used in at most `left` sectors of the catalog from this one on.
#[tactic(auto, using(crate::proofs::CatalogLaws::sectors_step, crate::proofs::CatalogLaws::sectors_none))]
fn put_sectors(
    entries: &mut Vec<usize>,
    disk: &[u8],
    track: usize,
    sector: usize,
    left: usize,
) -> Result<(), AllocError>
    ensures { IfOk result (λ _. entries.new.items ≡ with_sectors entries.old.items disk.now track sector left) }
{
    if left == 0 {
        return Ok(());
    }
    if !is_sector(track, sector) {
        return Ok(());
    }
    let start = sector_start(track, sector);
    put_used(entries, disk, start + 11, 7)?;
    put_sectors(
        entries,
        disk,
        byte_at(disk, start + 1),
        byte_at(disk, start + 2),
        left - 1,
    )
}

/// Returns the offsets of the entries of a disk's catalog that are those of files, in memory of `alloc`. At most 15 sectors of the catalog are
/// read. Fails only if memory runs out.
pub fn catalog_of(alloc: Global, disk: &[u8]) -> Result<Vec<usize>, AllocError>
    ensures { IfOk result (λ entries. entries.items ≡ catalog disk.now) }
{
    let mut entries = Vec::new(alloc);
    put_sectors(
        &mut entries,
        disk,
        byte_at(disk, 69633),
        byte_at(disk, 69634),
        15,
    )?;
    Ok(entries)
}

/// Returns whether the entry of the catalog at an offset is that of a binary file, locked or not.
pub fn is_binary(disk: &[u8], entry: usize) -> bool
    requires { entry ≤ 143360 }
    ensures { result ≡ is_binary disk.now entry }
{
    byte_at(disk, entry + 2) % 128 == 4
}

// Appends this many characters from an offset on, without their high bits.
#[tactic(auto, using(crate::proofs::CatalogLaws::characters_step, crate::proofs::CatalogLaws::characters_none))]
fn put_characters(name: &mut Vec<u8>, disk: &[u8], at: usize, left: usize) -> Result<(), AllocError>
    requires { at + left ≤ 200000 }
    ensures { IfOk result (λ _. name.new.items ≡ with_characters name.old.items disk.now at left) }
{
    if left == 0 {
        return Ok(());
    }
    name.push((byte_at(disk, at) % 128) as u8)?;
    put_characters(name, disk, at + 1, left - 1)
}

/// Returns the 30 characters of the name in the entry of the catalog at an offset, without their high bits. Fails only if memory runs out.
pub fn name_at(alloc: Global, disk: &[u8], entry: usize) -> Result<Vec<u8>, AllocError>
    requires { entry ≤ 143360 }
    ensures { IfOk result (λ found. found.items ≡ name disk.now entry) }
{
    let mut name = Vec::new(alloc);
    put_characters(&mut name, disk, entry + 3, 30)?;
    Ok(name)
}
