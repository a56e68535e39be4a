//! The command `object`: an image as a file of another program, or as a tape.

ghost use Rattle.std.specs.Prelude.{◌≤◌, IfOk};

use crate::disks::{Binary, disk_with, split_disk};
use crate::flaws::report_flaw;
use crate::loaded::{FileForm, form_of_option, loaded_image};
use a2_formats::{
    FormatFault, Records, fill_gaps, plain_of, write_apple_single, write_dos, write_monitor_lines,
    write_records,
};
use a2_hex::{Image, byte_of, write_lines};
use a2_host::{Desk, Shelf};
use a2_run::RunFault;
use a2_stream::{Input, Output, ToWrite, put, put_all};
use a2_tape::tape_of;
use a2_text::hex_word;
use a2lab_commands::options::{DISK, FILL, OBJECT_FORMAT, OBJECT_OUT, TAPE, WIDTH};
use a2lab_commands::{CommandArgs, Host, Message, Refusal, refuse_overwriting_input, settled};
use std::alloc::Global;

// The most bytes of a line for the Monitor.
const USUAL_WIDTH: usize = 8;

// Returns the byte that `--fill` gives.
fn fill_in<'a>(given: &CommandArgs<'_, 'a>) -> Result<Option<u8>, Refusal<'a>> {
    let Some(text) = given.arguments.text(&FILL) else {
        return Ok(None);
    };
    match byte_of(text.as_bytes()) {
        Some(byte) => Ok(Some(byte)),
        None => Err(Refusal::of(Message::NotFill, text)),
    }
}

// Returns how many bytes a line for the Monitor has.
fn width_in(given: &CommandArgs<'_, '_>) -> usize {
    match given.arguments.text(&WIDTH) {
        Some("23") => 23,
        _ => USUAL_WIDTH,
    }
}

// Returns the object lines of an image, as `a2 asm` writes them.
fn object_lines(alloc: Global, image: &Image) -> Result<Vec<u8>, FormatFault> {
    let mut text = Vec::new(alloc);
    match write_lines(image, &mut ToWrite::new(&mut text)) {
        Ok(()) => Ok(text),
        Err(_) => Err(FormatFault::Memory),
    }
}

// Returns the file of an image in the format `format`.
fn file_of(
    alloc: Global,
    format: &str,
    width: usize,
    image: &Image,
) -> Result<Vec<u8>, FormatFault> {
    match format {
        "hex" => write_records(alloc, Records::Intel, image),
        "srec" => write_records(alloc, Records::Motorola, image),
        "dos" => write_dos(alloc, image),
        "applesingle" => write_apple_single(alloc, image),
        "raw" => match plain_of(alloc, image) {
            Ok(plain) => Ok(plain.bytes),
            Err(fault) => Err(fault),
        },
        "monitor" => write_monitor_lines(alloc, image, width),
        _ => object_lines(alloc, image),
    }
}

// Writes `bytes` to the file `name`, which is replaced whole or not at all.
fn put_into<D: Desk>(name: &str, bytes: &[u8], desk: &mut D) -> Result<(), RunFault> {
    let mut draft = desk.begin(name)?;
    let answer = match put(bytes, &mut draft) {
        Ok(()) => Ok(()),
        Err(_) => Err(RunFault::Write),
    };
    settled(name, draft, answer, desk)
}

// Writes the tape of an image to the file `name`, and prints the Monitor line that reads it.
fn put_tape<'a, S, D: Desk, C, R, W: Output, E: Output>(
    file: Option<&str>,
    name: &str,
    image: &Image,
    host: &mut Host<S, D, C, R, W, E>,
) -> Result<(), Refusal<'a>> {
    let plain = match plain_of(host.alloc, image) {
        Ok(plain) => plain,
        Err(fault) => return Err(report_flaw(file, true, fault, &mut host.complaints)),
    };
    let tape = tape_of(host.alloc, plain.bytes.as_slice())?;
    put_into(name, tape.as_slice(), &mut host.desk)?;
    let last = usize::from(plain.start) + plain.bytes.len().saturating_sub(1);
    let (first, last) = (hex_word(plain.start), hex_word((last % 65536) as u16));
    put_all(
        &[first.as_slice(), b".", last.as_slice(), b"R\n"],
        &mut host.output,
    )?;
    Ok(())
}

// Appends the binary file of an image to those for a disk.
fn add_binary<'a, E: Output>(
    binaries: &mut Vec<Binary<'a>>,
    alloc: Global,
    file: Option<&'a str>,
    image: &Image,
    complaints: &mut E,
) -> Result<(), Refusal<'a>> {
    let bytes = match write_dos(alloc, image) {
        Ok(bytes) => bytes,
        Err(fault) => return Err(report_flaw(file, true, fault, complaints)),
    };
    match binaries.push(Binary { file, bytes }) {
        Ok(()) => Ok(()),
        Err(_) => Err(Refusal::Fault(RunFault::Memory)),
    }
}

// Writes a disk with these binary files to the file `name`.
fn put_disk<'a, S, D: Desk, C, R, W, E>(
    name: &'a str,
    binaries: &[Binary<'a>],
    host: &mut Host<S, D, C, R, W, E>,
) -> Result<(), Refusal<'a>> {
    let disk = disk_with(host.alloc, name, binaries)?;
    put_into(name, disk.as_slice(), &mut host.desk)?;
    Ok(())
}

// Writes a disk with the file of an image to the file `name`.
fn put_file<'a, S, D: Desk, C, R, W, E: Output>(
    file: Option<&'a str>,
    name: &'a str,
    image: &Image,
    host: &mut Host<S, D, C, R, W, E>,
) -> Result<(), Refusal<'a>> {
    let mut binaries = Vec::new(host.alloc);
    add_binary(&mut binaries, host.alloc, file, image, &mut host.complaints)?;
    put_disk(name, binaries.as_slice(), host)
}

// Returns the image of a file, with a byte in each gap if `--fill` gives one.
fn filled_image<'a, S: Shelf, D, C, R: Input, W, E: Output>(
    given: &CommandArgs<'_, 'a>,
    file: Option<&'a str>,
    asked: Asked,
    host: &mut Host<S, D, C, R, W, E>,
) -> Result<Image, Refusal<'a>> {
    let mut image = loaded_image(given, file, asked.form, host)?;
    if let Some(fill) = asked.fill {
        fill_gaps(&mut image, fill);
    }
    Ok(image)
}

// Writes a disk with all files that the arguments name to the file `name`.
fn put_files<'a, S: Shelf, D: Desk, C, R: Input, W, E: Output>(
    given: &CommandArgs<'_, 'a>,
    name: &'a str,
    asked: Asked,
    host: &mut Host<S, D, C, R, W, E>,
) -> Result<(), Refusal<'a>> {
    let mut binaries = Vec::new(host.alloc);
    for file in &given.arguments.files {
        let image = filled_image(given, Some(*file), asked, host)?;
        add_binary(
            &mut binaries,
            host.alloc,
            Some(*file),
            &image,
            &mut host.complaints,
        )?;
    }
    put_disk(name, binaries.as_slice(), host)
}

// Writes the file of an image in the format that the arguments name.
fn put_object<'a, S, D: Desk, C, R, W: Output, E: Output>(
    given: &CommandArgs<'_, 'a>,
    image: &Image,
    host: &mut Host<S, D, C, R, W, E>,
) -> Result<(), Refusal<'a>> {
    let format = given.arguments.text(&OBJECT_FORMAT).unwrap_or("object");
    let file = match file_of(host.alloc, format, width_in(given), image) {
        Ok(file) => file,
        Err(fault) => {
            let name = given.arguments.file();
            return Err(report_flaw(name, true, fault, &mut host.complaints));
        }
    };
    match given.arguments.text(&OBJECT_OUT) {
        Some(name) => put_into(name, file.as_slice(), &mut host.desk)?,
        None => put(file.as_slice(), &mut host.output)?,
    }
    Ok(())
}

// What the files are, and the byte for each gap.
#[derive(Clone, Copy)]
struct Asked {
    form: Option<FileForm>,
    fill: Option<u8>,
}

// Fails if an output would overwrite one of the files.
fn refuse_overwriting<'a, D: Desk>(
    given: &CommandArgs<'_, 'a>,
    desk: &D,
) -> Result<(), Refusal<'a>> {
    let out = given.arguments.text(&OBJECT_OUT);
    let (disk, tape) = (given.arguments.text(&DISK), given.arguments.text(&TAPE));
    for file in &given.arguments.files {
        let (name, _) = split_disk(Some(*file));
        refuse_overwriting_input(Message::ObjectOverwrites, out, name, desk)?;
        refuse_overwriting_input(Message::ObjectOverwrites, disk, name, desk)?;
        refuse_overwriting_input(Message::ObjectOverwrites, tape, name, desk)?;
    }
    Ok(())
}

// Writes what the arguments ask for, of one file.
fn put_one<'a, S: Shelf, D: Desk, C, R: Input, W: Output, E: Output>(
    given: &CommandArgs<'_, 'a>,
    asked: Asked,
    host: &mut Host<S, D, C, R, W, E>,
) -> Result<(), Refusal<'a>> {
    let file = given.arguments.file();
    let (disk, tape) = (given.arguments.text(&DISK), given.arguments.text(&TAPE));
    let image = filled_image(given, file, asked, host)?;
    if let Some(disk) = disk {
        put_file(file, disk, &image, host)?;
    }
    if let Some(tape) = tape {
        put_tape(file, tape, &image, host)?;
    }
    if given.arguments.text(&OBJECT_OUT).is_some() || (disk.is_none() && tape.is_none()) {
        put_object(given, &image, host)?;
    }
    Ok(())
}

/// Writes the image of a source or of a file of another program, in the format that the arguments name, as a tape or as a file on a disk; or
/// writes a disk with several files. The exit status is 1 if a file has an error, or if the format cannot have this image.
#[inline(never)]
pub fn object_of<'a, S: Shelf, D: Desk, C, R: Input, W: Output, E: Output>(
    given: &CommandArgs<'_, 'a>,
    host: &mut Host<S, D, C, R, W, E>,
) -> Result<u8, Refusal<'a>>
    ensures { IfOk result (λ status. status ≤ 1) }
{
    let asked = Asked {
        form: form_of_option(given)?,
        fill: fill_in(given)?,
    };
    refuse_overwriting(given, &host.desk)?;
    if given.arguments.files.len() < 2 {
        put_one(given, asked, host)?;
        return Ok(0);
    }
    let is_alone = !given.arguments.has(&OBJECT_OUT) && !given.arguments.has(&TAPE);
    match given.arguments.text(&DISK) {
        Some(disk) if is_alone => put_files(given, disk, asked, host)?,
        _ => return Err(Refusal::new(Message::SeveralFilesForObject)),
    }
    Ok(0)
}
