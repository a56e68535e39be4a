//! The command `source`: its arguments, the image that it reads, and what it reports.

ghost use Rattle.std.specs.Prelude.{◌≤◌, ◌≡◌, IfOk};
ghost use Rattle.a2_hex.specs.Images.{held};
ghost use Rattle.a2lab_bytes.specs.Shown.{ShowsSource};

use crate::asked::{Asked, asked_in};
use crate::bytes::{lowest, part_of};
use crate::executed::{Executed, RunOf, run_image};
use crate::known::names_with;
use crate::loaded::{Contents, FileForm, contents_in, form_of_option, image_in};
use a2_arguments::Arguments;
use a2_bus::Keys;
use a2_disassembly::{Dump, NamedPlace, Request, SourceFault, load_dump, write_source};
use a2_formats::Format;
use a2_hex::{HexFault, Image};
use a2_host::Shelf;
use a2_run::{DEFAULT_STEPS, RunFault};
use a2_stream::{Input, Output, WriteFault, put};
use a2_syntax::{Source, parse};
use a2lab_commands::options::{KEYS, LIMIT, RUN, SOURCE_NAMES};
use a2lab_commands::{
    CommandArgs, Host, Message, Refusal, Value, keys_in, loaded_text, report, report_source_errors,
};
use std::alloc::Global;

// Reports the line of a dump that cannot be read, and returns the error that ends the command.
fn dump_refusal<'a, E: Output>(name: &str, fault: HexFault, complaints: &mut E) -> Refusal<'a> {
    let (message, line) = match fault {
        HexFault::Digit(line) => (Message::DumpLine, line),
        HexFault::NoAddress(line) => (Message::DumpAddress, line),
        HexFault::Outside(line) => (Message::DumpOutside, line),
        HexFault::Memory => return Refusal::Fault(RunFault::Memory),
    };
    let values = [Value::Text(name), Value::Number(line as u64)];
    report(message, &values, complaints);
    Refusal::Reported
}

// Returns the dump in a file: its lines, or the bytes of a file of another format.
fn dump_in<'t, 'a, E: Output>(
    alloc: Global,
    name: &str,
    text: &'t [u8],
    form: FileForm,
    complaints: &mut E,
) -> Result<Dump<'t, Global>, Refusal<'a>> {
    if form == FileForm::Format(Format::Lines) {
        return match load_dump(alloc, text) {
            Ok(dump) => Ok(dump),
            Err(fault) => Err(dump_refusal(name, fault, complaints)),
        };
    }
    Ok(Dump {
        image: image_in(alloc, Some(name), form, text, complaints)?,
        remarks: Vec::new(alloc),
        entries: Vec::new(alloc),
    })
}

// Returns the part of an image that is written, if not all of it is.
fn part_asked<'a>(
    alloc: Global,
    image: &Image,
    asked: &Asked,
) -> Result<Option<Image>, Refusal<'a>> {
    let Some(span) = asked.only else {
        return Ok(None);
    };
    match part_of(alloc, image, span) {
        Ok(part) => Ok(Some(part)),
        Err(_) => Err(Refusal::Fault(RunFault::Memory)),
    }
}

// Reports why no source is written, and returns the exit status.
fn report_source_fault<E: Output>(name: &str, fault: SourceFault, complaints: &mut E) -> u8
    ensures { result ≤ 5 }
{
    let message = match fault {
        SourceFault::TooLarge { lines, bytes } => {
            let values = [
                Value::Text(name),
                Value::Number(lines as u64),
                Value::Number(bytes as u64),
            ];
            report(Message::SourceTooLarge, &values, complaints);
            return 1;
        }
        SourceFault::TooManyNames => Message::SourceNames,
        SourceFault::NoInstruction => Message::SourceWithoutCode,
        SourceFault::SameName => Message::SourceSameName,
        SourceFault::Unlike => Message::SourceUnlike,
        SourceFault::Memory => return Refusal::Fault(RunFault::Memory).report(complaints),
    };
    report(message, &[Value::Text(name)], complaints);
    1
}

// Returns the lines of the file of names; without such a file, there are none.
fn names_source<'a, S: Shelf, D, C, R, W, E: Output>(
    arguments: &Arguments<'a>,
    host: &mut Host<S, D, C, R, W, E>,
) -> Result<Source, Refusal<'a>> {
    let name = arguments.text(&SOURCE_NAMES);
    let text = match name {
        Some(name) => loaded_text(host.alloc, name, &mut host.shelf)?,
        None => Vec::new(host.alloc),
    };
    let text = text.as_slice();
    match parse(host.alloc, text) {
        Ok(source) => Ok(source),
        Err(_) => Err(report_source_errors(host.alloc, name, text, &mut host.complaints)),
    }
}

// Returns what a run of the image executes, if the arguments ask for a run.
fn executed_by<'a>(
    alloc: Global,
    arguments: &Arguments<'a>,
    image: &Image,
    entry: u16,
) -> Result<Executed, Refusal<'a>> {
    let keys: Keys = keys_in("source", arguments.text(&KEYS).unwrap_or(""))?;
    let limit = if arguments.has(&RUN) {
        arguments.number(&LIMIT).unwrap_or(DEFAULT_STEPS)
    } else {
        0
    };
    let run = RunOf {
        entry,
        keys: &keys,
        limit,
    };
    Ok(run_image(alloc, image, &run)?)
}

// Adds the entries of a dump, and if there are none, the lowest address of the image. Returns the first entry.
fn first_entry<'a>(
    entries: &mut Vec<u16>,
    dump: &[u16],
    image: &Image,
) -> Result<u16, Refusal<'a>> {
    entries.extend_from_slice(dump)?;
    if let Some(first) = entries.as_slice().first() {
        return Ok(*first);
    }
    let first = lowest(image).unwrap_or(0);
    entries.extend_from_slice(&[first])?;
    Ok(first)
}

/// Why no source is written.
#[derive(Clone, Copy)]
pub enum ShownFault {
    /// There is none.
    Source(SourceFault),
    /// A write failed.
    Write,
}

impl From<SourceFault> for ShownFault {
    ghost use Rattle.a2lab_bytes.specs.declared.source.ShownFault.TheVariants.{Source};

    ghost from_gives = { λ given fault. fault ≡ Source given };

    fn from(fault: SourceFault) -> ShownFault {
        ShownFault::Source(fault)
    }
}

impl From<WriteFault> for ShownFault {
    ghost use Rattle.a2lab_bytes.specs.declared.source.ShownFault.TheVariants.{Write};

    ghost from_gives = { λ _ fault. fault ≡ Write };

    fn from(_fault: WriteFault) -> ShownFault {
        ShownFault::Write
    }
}

/// Writes a source that assembles to exactly the bytes of an image. Fails without writing if there is none, and if a write fails.
pub fn show_source<W: Output>(
    alloc: Global,
    image: &Image,
    request: &Request<'_>,
    output: &mut W,
) -> Result<(), ShownFault>
    ensures { ShowsSource (held image.now) (W.taker output.old) (W.taker output.new) result }
{
    let text = write_source(alloc, image, request)?;
    put(text.as_slice(), output)?;
    Ok(())
}

// Writes the source of a part of a dump.
fn show_part<'a, W: Output>(
    alloc: Global,
    arguments: &Arguments<'a>,
    loaded: &Loaded<'_>,
    asked: &mut Asked,
    output: &mut W,
) -> Result<Result<(), ShownFault>, Refusal<'a>> {
    let part = part_asked(alloc, &loaded.dump.image, asked)?;
    let image = match &part {
        Some(part) => part,
        None => &loaded.dump.image,
    };
    let entry = first_entry(&mut asked.entries, loaded.dump.entries.as_slice(), image)?;
    let executed = executed_by(alloc, arguments, &loaded.dump.image, entry)?;
    let request = Request {
        entries: asked.entries.as_slice(),
        executed: executed.instructions.as_slice(),
        changed: executed.changed.as_slice(),
        parts: asked.parts.as_slice(),
        names: loaded.names.as_slice(),
        remarks: loaded.dump.remarks.as_slice(),
    };
    Ok(show_source(alloc, image, &request, output))
}

/// What was read: a dump, and the names of places.
#[derive(Drop)]
pub(crate) struct Loaded<'t> {
    pub dump: Dump<'t, Global>,
    pub names: Vec<NamedPlace<'t>>,
}

/// Writes the source of what was read from the file `name`, or reports why there is none, and returns the exit status.
pub(crate) fn source_of_loaded<'a, S, D, C, R, W: Output, E: Output>(
    given: &CommandArgs<'_, 'a>,
    asked: &mut Asked,
    name: &str,
    loaded: &Loaded<'_>,
    host: &mut Host<S, D, C, R, W, E>,
) -> Result<u8, Refusal<'a>>
    ensures { IfOk result (λ status. status ≤ 5) }
{
    let shown = show_part(host.alloc, given.arguments, loaded, asked, &mut host.output)?;
    match shown {
        Ok(()) => Ok(0),
        Err(ShownFault::Write) => Err(Refusal::Fault(RunFault::Write)),
        Err(ShownFault::Source(fault)) => {
            Ok(report_source_fault(name, fault, &mut host.complaints))
        }
    }
}

/// Writes the source of a file, or reports why there is none, and returns the exit status. `lines` has the names that are given to addresses.
pub(crate) fn source_from<'a, S, D, C, R, W: Output, E: Output>(
    given: &CommandArgs<'_, 'a>,
    asked: &mut Asked,
    lines: &Source,
    contents: &Contents<'a>,
    host: &mut Host<S, D, C, R, W, E>,
) -> Result<u8, Refusal<'a>>
    ensures { IfOk result (λ status. status ≤ 5) }
{
    let name = contents.name.unwrap_or("-");
    let form = contents.form.unwrap_or(FileForm::Format(Format::Lines));
    let text = contents.bytes.as_slice();
    let dump = dump_in(host.alloc, name, text, form, &mut host.complaints)?;
    let names = names_with(host.alloc, lines)?;
    let loaded = Loaded { dump, names };
    source_of_loaded(given, asked, name, &loaded, host)
}

/// Writes a source that has the bytes of the file that the arguments name, or of standard input. Reports the first line that cannot be
/// read, or why there is no source, and returns the exit status.
#[inline(never)]
pub fn source_of<'a, S: Shelf, D, C, R: Input, W: Output, E: Output>(
    given: &CommandArgs<'_, 'a>,
    host: &mut Host<S, D, C, R, W, E>,
) -> Result<u8, Refusal<'a>>
    ensures { IfOk result (λ status. status ≤ 5) }
{
    let form = form_of_option(given)?;
    let mut asked = asked_in(host.alloc, given.arguments)?;
    let lines = names_source(given.arguments, host)?;
    let contents = contents_in(given, given.arguments.file(), form, host)?;
    source_from(given, &mut asked, &lines, &contents, host)
}
