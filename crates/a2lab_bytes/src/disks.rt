//! The binary files of a disk of DOS 3.3.

use a2_disk::{
    DISK_LEN, DiskFault, DiskFile, catalog_of, contents_of, disk_name, is_binary, name_at,
    write_disk,
};
use a2_run::RunFault;
use a2_stream::{Output, put_all};
use a2lab_commands::{Message, Refusal, is_input};
use std::alloc::{AllocError, Global};

// The endings of the names of disks.
const ENDINGS: [&str; 2] = [".dsk", ".do"];

/// Returns whether a file has the name of a disk, in either case.
pub(crate) fn is_disk(name: &str) -> bool {
    for ending in ENDINGS {
        let (_, end) = name
            .as_bytes()
            .split_at(name.len().saturating_sub(ending.len()));
        if end.eq_ignore_ascii_case(ending.as_bytes()) {
            return true;
        }
    }
    false
}

/// Returns the name of a disk without the name of a file on it, and that name, as in `game.dsk:HELLO`.
pub(crate) fn split_disk<'a>(name: Option<&'a str>) -> (Option<&'a str>, Option<&'a str>) {
    let Some(text) = name else {
        return (None, None);
    };
    match text.rsplit_once(':') {
        Some((disk, part)) if is_disk(disk) => (Some(disk), Some(part)),
        _ => (name, None),
    }
}

// Returns whether an entry of the catalog has this name, in either case, or no name was given.
fn is_named(
    alloc: Global,
    disk: &[u8],
    entry: usize,
    part: Option<&str>,
) -> Result<bool, AllocError> {
    let Some(part) = part else {
        return Ok(true);
    };
    if entry >= DISK_LEN {
        return Ok(false);
    }
    let name = name_at(alloc, disk, entry)?;
    Ok(
        name.as_slice()
            .trim_ascii_end()
            .eq_ignore_ascii_case(part.as_bytes()),
    )
}

// Returns the entries of the binary files of a disk that have this name, or of all.
fn entries_named(alloc: Global, disk: &[u8], part: Option<&str>) -> Result<Vec<usize>, AllocError> {
    let mut found = Vec::new(alloc);
    let entries = catalog_of(alloc, disk)?;
    for entry in &entries {
        if *entry < DISK_LEN && is_binary(disk, *entry) && is_named(alloc, disk, *entry, part)? {
            found.push(*entry)?;
        }
    }
    Ok(found)
}

// Writes the names of these files, a line for each.
fn report_names<E: Output>(
    alloc: Global,
    disk: &[u8],
    entries: &[usize],
    complaints: &mut E,
) -> Result<(), AllocError> {
    for entry in entries {
        if *entry < DISK_LEN {
            let name = name_at(alloc, disk, *entry)?;
            // If this fails, there is no place left to report it.
            let _ = put_all(&[name.as_slice().trim_ascii_end(), b"\n"], complaints);
        }
    }
    Ok(())
}

// Returns the bytes of the only one of these files, without those after its end.
fn only_file(alloc: Global, disk: &[u8], entries: &[usize]) -> Result<Option<Vec<u8>>, AllocError> {
    let [entry] = entries else {
        return Ok(None);
    };
    if disk.len() != DISK_LEN || *entry >= DISK_LEN {
        return Ok(None);
    }
    let bytes = contents_of(alloc, disk, *entry)?;
    let count = match bytes.as_slice() {
        [_, _, low, high, ..] => 4 + usize::from(*low) + 256 * usize::from(*high),
        _ => 0,
    };
    let mut file = Vec::new(alloc);
    for byte in bytes.iter().take(count) {
        file.push(*byte)?;
    }
    Ok(Some(file))
}

/// Returns the binary file of the disk `name` that is called `part`, or its only one. If there is none, reports the names of those that the disk
/// has.
pub(crate) fn file_on_disk<'a, E: Output>(
    alloc: Global,
    name: Option<&'a str>,
    part: Option<&'a str>,
    disk: &[u8],
    complaints: &mut E,
) -> Result<Vec<u8>, Refusal<'a>> {
    let found = entries_named(alloc, disk, part)?;
    if let Some(file) = only_file(alloc, disk, found.as_slice())? {
        return Ok(file);
    }
    let all = entries_named(alloc, disk, None)?;
    report_names(alloc, disk, all.as_slice(), complaints)?;
    let name = name.unwrap_or("-");
    if all.is_empty() {
        return Err(Refusal::of(Message::NoFilesOnDisk, name));
    }
    match part {
        Some(part) => Err(Refusal::of_two(Message::NoSuchFileOnDisk, name, part)),
        None => Err(Refusal::of_two(Message::SeveralFilesOnDisk, name, name)),
    }
}

// Returns the name that a file gives a file on a disk: that of a path without its folder and its ending, or that of a file on a disk.
fn name_of(file: Option<&str>) -> &str {
    let (path, part) = split_disk(file);
    if let Some(part) = part {
        return part;
    }
    let path = path.unwrap_or("-");
    if is_input(path) {
        return "PROGRAM";
    }
    let name = match path.rsplit_once('/') {
        Some((_, name)) => name,
        None => path,
    };
    match name.split_once('.') {
        Some((front, _)) => front,
        None => name,
    }
}

/// A binary file for a disk.
#[derive(Drop)]
pub(crate) struct Binary<'a> {
    /// The file that gives its bytes and its name.
    pub file: Option<&'a str>,
    /// Its address, the number of its bytes, and its bytes.
    pub bytes: Vec<u8>,
}

// Returns the name of the file that gives one of these binary files.
fn file_numbered<'a>(binaries: &[Binary<'a>], number: usize) -> &'a str {
    match binaries.get(number) {
        Some(binary) => binary.file.unwrap_or("-"),
        None => "-",
    }
}

// Returns why the disk `disk` is not written.
fn disk_refusal<'a>(disk: &'a str, binaries: &[Binary<'a>], fault: DiskFault) -> Refusal<'a> {
    match fault {
        DiskFault::TooManyFiles | DiskFault::Unlike => {
            Refusal::of(Message::ManyFilesForDisk, disk)
        }
        DiskFault::Full(number) => {
            Refusal::of_two(Message::FullDisk, disk, file_numbered(binaries, number))
        }
        DiskFault::SameName(number) => {
            Refusal::of_two(
                Message::SameNameOnDisk,
                disk,
                file_numbered(binaries, number),
            )
        }
        DiskFault::Memory => Refusal::Fault(RunFault::Memory),
    }
}

/// Returns a disk with these binary files, each named after the file that gives its bytes. `disk` is the name of the disk.
pub(crate) fn disk_with<'a>(
    alloc: Global,
    disk: &'a str,
    binaries: &[Binary<'a>],
) -> Result<Vec<u8>, Refusal<'a>> {
    let mut files = Vec::new(alloc);
    for binary in binaries {
        let Some(name) = disk_name(name_of(binary.file).as_bytes()) else {
            let file = binary.file.unwrap_or("-");
            return Err(Refusal::of_two(Message::NotNameOnDisk, disk, file));
        };
        let bytes = binary.bytes.as_slice();
        files.extend_from_slice(&[DiskFile { name, bytes }])?;
    }
    match write_disk(alloc, files.as_slice()) {
        Ok(bytes) => Ok(bytes),
        Err(fault) => Err(disk_refusal(disk, binaries, fault)),
    }
}
