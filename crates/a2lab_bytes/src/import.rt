//! The command `import`, which hands dumps and files of other programs over to `source`.

ghost use Rattle.std.specs.Prelude.{◌≤◌, IfOk};

use crate::asked::asked_in;
use crate::disks::split_disk;
use crate::dumps::dump_of;
use crate::known::names_with;
use crate::loaded::{bytes_in, contents_of_file};
use crate::source::{Loaded, source_from, source_of_loaded};
use a2_disassembly::Dump;
use a2_disk::DISK_LEN;
use a2_formats::format_of;
use a2_host::Shelf;
use a2_run::RunFault;
use a2_stream::{Input, Output, put_all};
use a2_syntax::{Source, parse};
use a2lab_commands::options::DIALECT;
use a2lab_commands::{CommandArgs, Host, Refusal};
use a2lab_sources::import_text;
use std::alloc::Global;

// Returns whether a file is a disk or a file of another program, and not a text for an assembler.
fn is_image(alloc: Global, bytes: &[u8]) -> bool {
    bytes.len() == DISK_LEN || format_of(alloc, bytes).is_some()
}

// Returns a source without a line, which gives no names to addresses.
fn without_names<'a>(alloc: Global) -> Result<Source, Refusal<'a>> {
    match parse(alloc, b"") {
        Ok(lines) => Ok(lines),
        Err(_) => Err(Refusal::Fault(RunFault::Memory)),
    }
}

// Writes the source of a file that is an image, as `source` does without options, and returns the exit status.
fn import_image<'a, S, D, C, R, W: Output, E: Output>(
    given: &CommandArgs<'_, 'a>,
    bytes: Vec<u8>,
    host: &mut Host<S, D, C, R, W, E>,
) -> Result<u8, Refusal<'a>>
    ensures { IfOk result (λ status. status ≤ 5) }
{
    let alloc = host.alloc;
    let mut asked = asked_in(alloc, given.arguments)?;
    let lines = without_names(alloc)?;
    let file = split_disk(given.arguments.file());
    let contents = contents_of_file(alloc, file, bytes, None, &mut host.complaints)?;
    source_from(given, &mut asked, &lines, &contents, host)
}

// Writes the source of the dump in the file `name`, as `source` does without options, and returns the exit status.
fn import_dump<'a, S, D, C, R, W: Output, E: Output>(
    given: &CommandArgs<'_, 'a>,
    name: Option<&str>,
    dump: Dump<'_, Global>,
    host: &mut Host<S, D, C, R, W, E>,
) -> Result<u8, Refusal<'a>>
    ensures { IfOk result (λ status. status ≤ 5) }
{
    let mut asked = asked_in(host.alloc, given.arguments)?;
    let lines = without_names(host.alloc)?;
    let names = names_with(host.alloc, &lines)?;
    let loaded = Loaded { dump, names };
    source_of_loaded(given, &mut asked, name.unwrap_or("-"), &loaded, host)
}

// Reports that a file is not a text. `source` needs the address of plain bytes.
fn refuse_binary<'a, E: Output>(name: Option<&str>, complaints: &mut E) -> Refusal<'a> {
    let name = name.unwrap_or("-").as_bytes();
    let advice: &[u8] =
        b" has a byte 0, so it is not a text; a2lab source makes a source of bytes: give their address with --at\n";
    // If this fails, there is no place left to report it.
    let _ = put_all(&[b"a2lab: import: ", name, advice], complaints);
    Refusal::Reported
}

/// Converts the file that the arguments name, or standard input. A dump, or a file of another program or a disk, becomes the source of its
/// bytes, if `--from` does not say that it is a text. Any other text is converted by `import_text`, and a file with a byte 0 is an error.
/// Returns the exit status.
#[inline(never)]
pub fn import_of<'a, S: Shelf, D, C, R: Input, W: Output, E: Output>(
    given: &CommandArgs<'_, 'a>,
    host: &mut Host<S, D, C, R, W, E>,
) -> Result<u8, Refusal<'a>>
    ensures { IfOk result (λ status. status ≤ 5) }
{
    let (name, _) = split_disk(given.arguments.file());
    let bytes = bytes_in(given, name, host)?;
    let is_found_out = given.arguments.text(&DIALECT).unwrap_or("auto") == "auto";
    if is_found_out && is_image(host.alloc, bytes.as_slice()) {
        return import_image(given, bytes, host);
    }
    if is_found_out {
        if let Some(dump) = dump_of(host.alloc, bytes.as_slice())? {
            return import_dump(given, name, dump, host);
        }
    }
    if bytes.contains(&0) {
        return Err(refuse_binary(name, &mut host.complaints));
    }
    import_text(given, name, bytes.as_slice(), host)
}
