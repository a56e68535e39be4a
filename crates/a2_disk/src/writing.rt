//! A disk with binary files.

ghost use Rattle.std.specs.Prelude.{◌≡◌, ◌≤◌, ◌<◌, length, IfOk};
ghost use Rattle.a2_disk.specs.Catalog.{catalog};
ghost use Rattle.a2_disk.specs.Files.{HasFiles};

use crate::bytes::DISK_LEN;
use crate::catalog::catalog_of;
use crate::files::{DiskFile, has_files};
use std::alloc::{AllocError, Global};

// The offset of the table of the disk's sectors, which is sector 0 of track 17.
const TABLE: usize = 69_632;

// The most files: seven in each of the 15 sectors of the catalog.
const MOST_FILES: usize = 105;

// The sectors that files can have: those of tracks 3 to 34, without track 17.
const MOST_SECTORS: usize = 496;

// The pairs in a list of sectors.
const PAIRS: usize = 122;

/// Why no disk is written.
#[derive(Clone, Copy, Debug, PartialEq, Eq)]
pub enum DiskFault {
    /// There are more than 105 files.
    TooManyFiles,
    /// The file with this number, from 0, does not fit after the ones before it.
    Full(usize),
    /// The file with this number, from 0, has the name of an earlier one.
    SameName(usize),
    /// What was written would not be read back.
    Unlike,
    /// Memory ran out.
    Memory,
}

impl From<AllocError> for DiskFault {
    ghost use Rattle.a2_disk.specs.declared.writing.DiskFault.TheVariants.{Memory};

    ghost from_gives = { λ _ fault. fault ≡ Memory };

    fn from(_error: AllocError) -> DiskFault {
        DiskFault::Memory
    }
}

// Where a file is: the number of its first sector, its lists of sectors and, after them, the sectors with its bytes.
#[derive(Clone, Copy)]
struct Extent {
    first: usize,
    lists: usize,
    sectors: usize,
}

// Stores a byte at an offset of the disk.
fn put(disk: &mut [u8], at: usize, byte: u8) {
    if at < disk.len() {
        disk[at] = byte;
    }
}

// Stores bytes from an offset on.
fn put_all(disk: &mut [u8], at: usize, bytes: &[u8]) {
    for (i, byte) in bytes.iter().enumerate() {
        put(disk, at.saturating_add(i), *byte);
    }
}

// Returns the track and the sector that the files use as the one with this number: those of tracks 18 to 34, then 16 down to 3.
fn sector_numbered(number: usize) -> (usize, usize)
    ensures { result.0 < 256 }
{
    let track = number.min(MOST_SECTORS) / 16;
    if track < 17 {
        (18 + track, number % 16)
    } else {
        (33usize.saturating_sub(track), number % 16)
    }
}

// Returns the offset of the sector with this number.
fn offset_of(number: usize) -> usize {
    let (track, sector) = sector_numbered(number);
    (track * 16 + sector % 16) * 256
}

// Stores the pair of the track and the sector with this number at an offset.
fn put_pair(disk: &mut [u8], at: usize, number: usize) {
    let (track, sector) = sector_numbered(number);
    put_all(disk, at, &[(track % 256) as u8, (sector % 16) as u8]);
}

// Stores that a sector is free: a bit for each, the highest one of two bytes for sector 15.
fn put_free(disk: &mut [u8], number: usize) {
    let (track, sector) = sector_numbered(number);
    let at = TABLE + 0x38 + track * 4 + if sector < 8 { 1 } else { 0 };
    if at < disk.len() {
        disk[at] |= 1u8 << ((sector % 8) as u32);
    }
}

// Stores the table of the disk's sectors: those from number `used` on are free.
fn put_table(disk: &mut [u8], used: usize) {
    put_all(disk, TABLE, &[4, 17, 15, 3, 0, 0, 254]);
    put(disk, TABLE + 0x27, PAIRS as u8);
    put_all(disk, TABLE + 0x30, &[18, 1, 0, 0, 35, 16, 0, 1]);
    for number in used..MOST_SECTORS {
        put_free(disk, number);
    }
}

// Links the sectors of the catalog, from sector 15 down to sector 1.
fn put_links(disk: &mut [u8]) {
    for sector in 2..16usize {
        let start = TABLE + sector * 256;
        put_all(disk, start + 1, &[17, (sector - 1) as u8]);
    }
}

// Stores the entry of the file with this number in the catalog, which has seven entries in a sector.
fn put_entry(disk: &mut [u8], number: usize, file: &DiskFile<'_>, extent: Extent) {
    let sector = 15usize.saturating_sub(number / 7);
    let at = TABLE + sector * 256 + 11 + number % 7 * 35;
    put_pair(disk, at, extent.first);
    put(disk, at + 2, 4);
    for (i, character) in file.name.iter().enumerate() {
        put(
            disk,
            at.saturating_add(3).saturating_add(i),
            *character | 0x80,
        );
    }
    let count = extent.sectors.saturating_add(extent.lists);
    put(disk, at + 33, (count % 256) as u8);
    put(disk, at + 34, (count / 256 % 256) as u8);
}

// Stores a list of the sectors of a file: its number, from 0, and the pairs of at most 122 sectors.
fn put_list(disk: &mut [u8], list: usize, extent: Extent) {
    let number = extent.first.saturating_add(list);
    let start = offset_of(number);
    if list.saturating_add(1) < extent.lists {
        put_pair(disk, start.saturating_add(1), number.saturating_add(1));
    }
    let before = list.saturating_mul(PAIRS);
    put_all(
        disk,
        start.saturating_add(5),
        &[(before % 256) as u8, (before / 256 % 256) as u8],
    );
    let data = extent.first.saturating_add(extent.lists);
    for i in 0..PAIRS {
        let next = before.saturating_add(i);
        if next < extent.sectors {
            let at = start.saturating_add(12).saturating_add(i.saturating_mul(2));
            put_pair(disk, at, data.saturating_add(next));
        }
    }
}

// Stores the bytes of a file, 256 in a sector.
fn put_bytes(disk: &mut [u8], bytes: &[u8], first: usize) {
    for (i, byte) in bytes.iter().enumerate() {
        let start = offset_of(first.saturating_add(i / 256));
        put(disk, start.saturating_add(i % 256), *byte);
    }
}

// Stores the file with this number.
fn put_file(disk: &mut [u8], number: usize, file: &DiskFile<'_>, extent: Extent) {
    put_entry(disk, number, file, extent);
    for list in 0..extent.lists {
        put_list(disk, list, extent);
    }
    put_bytes(disk, file.bytes, extent.first.saturating_add(extent.lists));
}

// Returns whether one of these files has this name.
fn is_taken(files: &[DiskFile<'_>], name: &[u8; 30]) -> bool {
    files.iter().any(|file| file.name == *name)
}

// Stores the files, and returns how many sectors they have.
fn put_files(disk: &mut [u8], files: &[DiskFile<'_>]) -> Result<usize, DiskFault> {
    let mut used = 0usize;
    for (i, file) in files.iter().enumerate() {
        if is_taken(&files[..i], &file.name) {
            return Err(DiskFault::SameName(i));
        }
        let sectors = file.bytes.len().div_ceil(256);
        let lists = sectors.div_ceil(PAIRS).max(1);
        let end = used.saturating_add(sectors).saturating_add(lists);
        if end > MOST_SECTORS {
            return Err(DiskFault::Full(i));
        }
        let extent = Extent {
            first: used,
            lists,
            sectors,
        };
        put_file(disk, i, file, extent);
        used = end;
    }
    Ok(used)
}

// Returns a disk with these files.
fn disk_of(alloc: Global, files: &[DiskFile<'_>]) -> Result<Vec<u8>, DiskFault>
    ensures { IfOk result (λ disk. length disk.items ≡ 143360) }
{
    let mut disk = Vec::from_elem(alloc, 0u8, DISK_LEN)?;
    let bytes = disk.as_mut_slice();
    let used = put_files(bytes, files)?;
    put_table(bytes, used);
    put_links(bytes);
    Ok(disk)
}

/// Returns a disk of DOS 3.3 that has these binary files and no DOS, in memory of `alloc`. The bytes of a file begin with its address and the
/// number of the bytes after them. The disk is read back before it is returned: its catalog has exactly these files, in this order, with these
/// names, and each begins with exactly these bytes. Fails if there are more than 105 files, if they do not fit in 496 sectors of 256 bytes, or
/// if two have the same name.
pub fn write_disk(alloc: Global, files: &[DiskFile<'_>]) -> Result<Vec<u8>, DiskFault>
    ensures { IfOk result (λ disk. HasFiles disk.items (catalog disk.items) files.now) }
{
    if files.len() > MOST_FILES {
        return Err(DiskFault::TooManyFiles);
    }
    let disk = disk_of(alloc, files)?;
    let entries = catalog_of(alloc, disk.as_slice())?;
    if !has_files(alloc, disk.as_slice(), entries.as_slice(), files)? {
        return Err(DiskFault::Unlike);
    }
    Ok(disk)
}
