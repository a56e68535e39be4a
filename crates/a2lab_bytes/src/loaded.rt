//! The image of a file that a command names.

use crate::disks::{file_on_disk, is_disk, split_disk};
use crate::dumps::dumped_image;
use crate::flaws::report_flaw;
use a2_disk::DISK_LEN;
use a2_formats::{
    Format, FormatFault, Records, copied, format_of, read_apple_single, read_dos,
    read_monitor_lines, read_plain, read_records,
};
use a2_hex::{Image, address_of};
use a2_host::Shelf;
use a2_run::ReadingFault;
use a2_stream::{Input, Output, fill};
use a2lab_commands::options::{AT, FROM};
use a2lab_commands::{
    CommandArgs, Host, INPUT, Message, Refusal, assembled_text, expanded_text, is_input,
};
use std::alloc::Global;

/// What a file is.
#[derive(Clone, Copy, Debug, PartialEq, Eq)]
pub enum FileForm {
    /// A source, which is assembled.
    Source,
    /// A file of this format.
    Format(Format),
    /// Bytes from an address upwards.
    Plain(u16),
}

// Returns what a value of `--from` names, or `None` if it is to be found out.
fn form_named(name: &str, start: Option<u16>) -> Option<FileForm> {
    match name {
        "source" => Some(FileForm::Source),
        "hex" => Some(FileForm::Format(Format::Intel)),
        "srec" => Some(FileForm::Format(Format::Motorola)),
        "applesingle" => Some(FileForm::Format(Format::AppleSingle)),
        "dos" => Some(FileForm::Format(Format::Dos)),
        "object" | "monitor" => Some(FileForm::Format(Format::Lines)),
        _ => start.map(FileForm::Plain),
    }
}

// Returns the address that `--at` gives, with or without `$`.
fn start_in<'a>(given: &CommandArgs<'_, 'a>) -> Result<Option<u16>, Refusal<'a>> {
    let Some(text) = given.arguments.text(&AT) else {
        return Ok(None);
    };
    let digits = match text.as_bytes() {
        [b'$', digits @ ..] => digits,
        digits => digits,
    };
    match address_of(digits) {
        Some(address) => Ok(Some(address)),
        None => Err(Refusal::of_two(Message::NotAddress, given.command.name, text)),
    }
}

/// Returns what `--from` and `--at` say that the files of a command are, or `None` if it is to be found out.
pub fn form_of_option<'a>(given: &CommandArgs<'_, 'a>) -> Result<Option<FileForm>, Refusal<'a>> {
    let name = given.arguments.text(&FROM).unwrap_or("auto");
    let start = start_in(given)?;
    if name == "raw" && start.is_none() {
        return Err(Refusal::of(Message::PlainWithoutAddress, given.command.name));
    }
    Ok(form_named(name, start))
}

// Returns whether the files of a format are texts.
fn is_text(format: Format) -> bool {
    !matches!(format, Format::Dos | Format::AppleSingle)
}

// Returns the image of the bytes of a file of a format.
fn formatted(alloc: Global, format: Format, bytes: &[u8]) -> Result<Image, FormatFault> {
    match format {
        Format::Intel => read_records(alloc, Records::Intel, bytes),
        Format::Motorola => read_records(alloc, Records::Motorola, bytes),
        Format::Dos => read_dos(alloc, bytes),
        Format::AppleSingle => read_apple_single(alloc, bytes),
        Format::Lines => read_monitor_lines(alloc, bytes),
    }
}

/// Returns the image of the bytes of the file `name`, or reports why there is none.
pub(crate) fn image_in<'a, E: Output>(
    alloc: Global,
    name: Option<&str>,
    form: FileForm,
    bytes: &[u8],
    complaints: &mut E,
) -> Result<Image, Refusal<'a>> {
    let (texts, image) = match form {
        FileForm::Source => {
            let assembled = assembled_text(alloc, name, bytes, complaints)?;
            (true, copied(alloc, assembled.program().image()))
        }
        FileForm::Plain(start) => (false, read_plain(alloc, start, bytes)),
        FileForm::Format(format) => (is_text(format), formatted(alloc, format, bytes)),
    };
    match image {
        Ok(image) => Ok(image),
        Err(fault) => Err(report_flaw(name, texts, fault, complaints)),
    }
}

/// What a file has.
#[derive(Drop)]
pub(crate) struct Contents<'a> {
    /// The file's name, or that of its disk.
    pub name: Option<&'a str>,
    pub bytes: Vec<u8>,
    /// What the bytes are, if that is known.
    pub form: Option<FileForm>,
}

// How many pieces of 4,096 bytes a file to read has at most. The object lines of all of RAM, with eight bytes each, have 178,176 bytes.
const MOST_PIECES: usize = 256;

// Reads all of an input, or returns `None` if it has more than 256 pieces.
fn read_pieces<R: Input>(alloc: Global, reader: &mut R) -> Result<Option<Vec<u8>>, ReadingFault> {
    let mut bytes = Vec::new(alloc);
    let mut piece = [0u8; 4096];
    for _ in 0..MOST_PIECES {
        let count = match fill(&mut piece, reader) {
            Ok(count) => count,
            Err(_) => return Err(ReadingFault::Read),
        };
        bytes.extend_from_slice(&piece[..count])?;
        if count < piece.len() {
            return Ok(Some(bytes));
        }
    }
    let mut after = [0u8];
    match fill(&mut after, reader) {
        Ok(0) => Ok(Some(bytes)),
        Ok(_) => Ok(None),
        Err(_) => Err(ReadingFault::Read),
    }
}

// Reads the file `name`, or standard input, if it has at most 1,048,576 bytes.
fn short_file<'a, S: Shelf, D, C, R: Input, W, E>(
    name: Option<&'a str>,
    host: &mut Host<S, D, C, R, W, E>,
) -> Result<Option<Vec<u8>>, Refusal<'a>> {
    let (name, read) = match name {
        Some(name) if !is_input(name) => {
            let Ok(mut reader) = host.shelf.open(name) else {
                return Err(Refusal::Unopened(name));
            };
            (name, read_pieces(host.alloc, &mut reader))
        }
        _ => (INPUT, read_pieces(host.alloc, &mut host.input)),
    };
    match read {
        Ok(bytes) => Ok(bytes),
        Err(fault) => Err(Refusal::of_reading(name, fault)),
    }
}

/// Reads the file `name`, or standard input. Fails if it has more than 1,048,576 bytes.
pub(crate) fn bytes_in<'a, S: Shelf, D, C, R: Input, W, E>(
    given: &CommandArgs<'_, 'a>,
    name: Option<&'a str>,
    host: &mut Host<S, D, C, R, W, E>,
) -> Result<Vec<u8>, Refusal<'a>> {
    match short_file(name, host)? {
        Some(bytes) => Ok(bytes),
        None => {
            let name = name.unwrap_or("-");
            Err(Refusal::of_two(Message::LargeFile, given.command.name, name))
        }
    }
}

/// Returns what the bytes of a file are, and for a disk those of a file on it. `file` has the name of the file, and that of the file on the
/// disk. If `form` does not say what they are, it is found out if it is certain.
pub(crate) fn contents_of_file<'a, E: Output>(
    alloc: Global,
    file: (Option<&'a str>, Option<&'a str>),
    bytes: Vec<u8>,
    form: Option<FileForm>,
    complaints: &mut E,
) -> Result<Contents<'a>, Refusal<'a>> {
    let (name, part) = file;
    if form.is_none() && bytes.len() == DISK_LEN {
        return Ok(Contents {
            name,
            bytes: file_on_disk(alloc, name, part, bytes.as_slice(), complaints)?,
            form: Some(FileForm::Format(Format::Dos)),
        });
    }
    let form = match form {
        Some(form) => Some(form),
        None => format_of(alloc, bytes.as_slice()).map(FileForm::Format),
    };
    if let (None, Some(disk)) = (form, name) {
        if is_disk(disk) {
            return Err(Refusal::of(Message::NotDisk, disk));
        }
    }
    Ok(Contents { name, bytes, form })
}

/// Reads the file `file`, a file on a disk, or standard input. If `form` does not say what it is, it is found out if it is certain.
pub(crate) fn contents_in<'a, S: Shelf, D, C, R: Input, W, E: Output>(
    given: &CommandArgs<'_, 'a>,
    file: Option<&'a str>,
    form: Option<FileForm>,
    host: &mut Host<S, D, C, R, W, E>,
) -> Result<Contents<'a>, Refusal<'a>> {
    let (name, part) = split_disk(file);
    let bytes = bytes_in(given, name, host)?;
    contents_of_file(host.alloc, (name, part), bytes, form, &mut host.complaints)
}

/// Returns the image of the file `file`, or of standard input. If `form` does not say what it is, it is found out. A file of none of the
/// formats is a dump if it can be one, and otherwise a source, which is expanded.
pub fn loaded_image<'a, S: Shelf, D, C, R: Input, W, E: Output>(
    given: &CommandArgs<'_, 'a>,
    file: Option<&'a str>,
    form: Option<FileForm>,
    host: &mut Host<S, D, C, R, W, E>,
) -> Result<Image, Refusal<'a>> {
    let Contents { name, bytes, form } = contents_in(given, file, form, host)?;
    if form.is_none() {
        if let Some(image) = dumped_image(host.alloc, bytes.as_slice())? {
            return Ok(image);
        }
    }
    let form = form.unwrap_or(FileForm::Source);
    let bytes = match form {
        FileForm::Source => expanded_text(
            host.alloc,
            name,
            bytes,
            &mut host.shelf,
            &mut host.complaints,
        )?,
        FileForm::Format(_) | FileForm::Plain(_) => bytes,
    };
    image_in(
        host.alloc,
        name,
        form,
        bytes.as_slice(),
        &mut host.complaints,
    )
}
