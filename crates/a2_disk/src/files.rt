//! Files of a disk, and whether a disk has them.

ghost use Rattle.std.specs.Prelude.{◌≡◌, ◌≤◌, length, true, IfOk, IfSome};
ghost use Rattle.a2_disk.specs.Files.{HasFile, HasFiles};

use crate::bytes::DISK_LEN;
use crate::catalog::{is_binary, name_at};
use crate::contents::contents_of;
use std::alloc::{AllocError, Global};

/// A binary file.
#[derive(Clone, Copy, Debug)]
pub struct DiskFile<'a> {
    /// Its name, with blanks at its end.
    pub name: [u8; 30],
    /// Its address, the number of its bytes, the lower byte of each first, and its bytes.
    pub bytes: &'a [u8],
}

/// Returns a name as a disk has it, in capital letters and with blanks at its end. Returns `None` if it is not a name of DOS: a letter, then
/// letters, digits and other characters of ASCII but `,`, at most 30 in all.
///
/// The DOS Manual (1980), chapter 2, "File names".
pub fn disk_name(name: &[u8]) -> Option<[u8; 30]> {
    if name.len() > 30 || !matches!(name, [b'A'..=b'Z' | b'a'..=b'z', ..]) {
        return None;
    }
    let mut padded = [b' '; 30];
    for (i, character) in name.iter().enumerate() {
        if !matches!(*character, b' '..=b'~') || *character == b',' || i >= 30 {
            return None;
        }
        padded[i] = character.to_ascii_uppercase();
    }
    Some(padded)
}

// Returns whether the entry at an offset is that of a binary file with this name that begins with these bytes.
fn has_file(
    alloc: Global,
    disk: &[u8],
    entry: usize,
    file: &DiskFile<'_>,
) -> Result<bool, AllocError>
    requires { length disk.now ≡ 143360 }
    ensures { IfOk result (λ yes. yes ≡ true → HasFile disk.now entry file.now.name file.now.bytes.now) }
{
    if entry > DISK_LEN || !is_binary(disk, entry) {
        return Ok(false);
    }
    let name = name_at(alloc, disk, entry)?;
    if name.as_slice() != file.name.as_slice() {
        return Ok(false);
    }
    let bytes = contents_of(alloc, disk, entry)?;
    let count = file.bytes.len();
    Ok(count <= bytes.len() && &bytes[..count] == file.bytes)
}

/// Returns whether these entries of the catalog are those of these binary files, one for each and in this order. Fails only if memory runs
/// out.
pub(crate) fn has_files(
    alloc: Global,
    disk: &[u8],
    entries: &[usize],
    files: &[DiskFile<'_>],
) -> Result<bool, AllocError>
    requires { length disk.now ≡ 143360 }
    ensures { IfOk result (λ yes. yes ≡ true → HasFiles disk.now entries.now files.now) }
{
    match (entries, files) {
        ([], []) => Ok(true),
        ([entry, entries @ ..], [file, files @ ..]) => {
            if !has_file(alloc, disk, *entry, file)? {
                return Ok(false);
            }
            has_files(alloc, disk, entries, files)
        }
        _ => Ok(false),
    }
}
