//! The command `import`: its arguments, and what is reported of the text that it converts.

ghost use Rattle.std.specs.Prelude.{◌≡◌, ◌≤◌, IfOk};
ghost use Rattle.a2lab_sources.specs.Imports.{ShowsRows};

use a2_hex::HexFault;
use a2_import::{Dialect, Difference, ImportFault, Note, NoteKind, Old, guess, import_source};
use a2_monitor_listing::{ListingFault, import_listing};
use a2_run::RunFault;
use a2_stream::{Output, WriteFault, put, put_all};
use a2_syntax::Fault;
use a2_text::{cut, decimal, hex_pair, hex_word};
use a2lab_commands::options::DIALECT;
use a2lab_commands::{CommandArgs, Host, Refusal};
use std::alloc::Global;

// Returns the kind of text that a value of `--from` names, or `None` if it is to be guessed.
fn from_named(name: &str) -> Option<Old> {
    match name {
        "listing" => Some(Old::Listing),
        "sc" => Some(Old::Source(Dialect::Sc)),
        "lisa" => Some(Old::Source(Dialect::Lisa)),
        "merlin" => Some(Old::Source(Dialect::Merlin)),
        "edasm" => Some(Old::Source(Dialect::Edasm)),
        "ca65" => Some(Old::Source(Dialect::Ca65)),
        "64tass" => Some(Old::Source(Dialect::Tass)),
        "acme" => Some(Old::Source(Dialect::Acme)),
        "dasm" => Some(Old::Source(Dialect::Dasm)),
        "easy6502" => Some(Old::Source(Dialect::Easy)),
        _ => None,
    }
}

// Reports an error or a note about a line of the text `name`, or about all of it if `line` is 0, and shows a part of it.
fn report_of_line<E: Output>(
    name: &str,
    line: usize,
    kind: &[u8],
    what: &[u8],
    shown: &[u8],
    complaints: &mut E,
) {
    let number = decimal(line as u64);
    // If this fails, there is no place left to report it.
    let _ = put_all(&[name.as_bytes(), b":"], complaints);
    if line > 0 {
        let _ = put_all(&[number.as_slice(), b":"], complaints);
    }
    let _ = put_all(&[b" ", kind, b": ", what, shown, b"\n"], complaints);
}

// Returns what kind of report a note is, and its sentence.
fn note_text(kind: NoteKind) -> (&'static [u8], &'static [u8]) {
    match kind {
        NoteKind::File => (b"note", b"this file needs to be converted too: "),
        NoteKind::Nothing => (b"note", b"has no meaning here, so it became a comment: "),
        NoteKind::Unknown => (b"error", b"cannot be converted, so ?? is before it: "),
    }
}

// Reports a note about a line of the text `name`, which has these lines.
fn report_note<E: Output>(name: &str, note: &Note, lines: &[&[u8]], complaints: &mut E) {
    let shown: &[u8] = match note.line.checked_sub(1) {
        Some(index) if index < lines.len() => lines[index].trim_ascii(),
        _ => b"",
    };
    let (kind, text) = note_text(note.kind);
    report_of_line(name, note.line, kind, text, shown, complaints)
}

// Writes bytes in hexadecimal digits, with a blank before each; `--` where there is none.
fn put_bytes<E: Output>(bytes: &[Option<u8>], complaints: &mut E) {
    for byte in bytes {
        // If this fails, there is no place left to report it.
        let _ = match byte {
            Some(byte) => put_all(&[b" ", &hex_pair(*byte)], complaints),
            None => put(b" --", complaints),
        };
    }
}

// Reports a line of a listing beside which other bytes are printed than it gives.
fn report_difference<E: Output>(name: &str, found: &Difference, complaints: &mut E) {
    let number = decimal(found.line as u64);
    let [a, b, c] = found.printed;
    let printed = [Some(a), Some(b), Some(c)];
    let count = found.count.min(3);
    let _ = put_all(
        &[
            name.as_bytes(),
            b":",
            number.as_slice(),
            b": warning: the listing has",
        ],
        complaints,
    );
    put_bytes(&printed[..count], complaints);
    let _ = put_all(
        &[
            b" at $",
            &hex_word(found.address),
            b", and the source gives",
        ],
        complaints,
    );
    put_bytes(&found.made[..count], complaints);
    let _ = put(b"\n", complaints);
}

// Reports how many lines cannot be converted.
fn report_marks<E: Output>(name: &str, marks: usize, complaints: &mut E) {
    let number = decimal(marks as u64);
    let what: &[u8] = if marks == 1 {
        b" line could not be converted: ?? is before it, and no command accepts it\n"
    } else {
        b" lines could not be converted: ?? is before each, and no command accepts them\n"
    };
    let _ = put_all(
        &[name.as_bytes(), b": ", number.as_slice(), what],
        complaints,
    );
}

// Returns the line of a listing that cannot be converted, or 0 for all of it, and why.
fn listing_fault_of(fault: ListingFault) -> (usize, &'static [u8]) {
    match fault {
        ListingFault::Row(HexFault::Digit(line)) => (
            line,
            b"not a line of a listing, such as  0300-   A9 C1      LDA   #$C1",
        ),
        ListingFault::Row(HexFault::NoAddress(line)) => (line, b"the first bytes have no address"),
        ListingFault::Row(HexFault::Outside(line)) => (line, b"a byte is at or above $C000"),
        ListingFault::Refused(line, Fault::Overlap(_)) => (
            line,
            b"an earlier line has a byte at this address",
        ),
        ListingFault::Refused(_, Fault::NoCode) => (
            0,
            b"no line has exactly the bytes of an instruction",
        ),
        ListingFault::Refused(line, _) => (
            line,
            b"the source would be too large; split the listing",
        ),
        ListingFault::Row(HexFault::Memory) | ListingFault::Unlike | ListingFault::Memory => (
            0,
            b"no source was found that has these bytes",
        ),
    }
}

/// Why the source of a listing is not written.
#[derive(Clone, Copy)]
pub enum RowsFault {
    /// The listing cannot be converted.
    Listing(ListingFault),
    /// A write failed.
    Write,
}

impl From<ListingFault> for RowsFault {
    ghost use Rattle.a2lab_sources.specs.declared.import.RowsFault.TheVariants.{Listing};

    ghost from_gives = { λ given fault. fault ≡ Listing given };

    fn from(fault: ListingFault) -> RowsFault {
        RowsFault::Listing(fault)
    }
}

impl From<WriteFault> for RowsFault {
    ghost use Rattle.a2lab_sources.specs.declared.import.RowsFault.TheVariants.{Write};

    ghost from_gives = { λ _ fault. fault ≡ Write };

    fn from(_fault: WriteFault) -> RowsFault {
        RowsFault::Write
    }
}

/// Writes a source that has the bytes of a listing. Fails without writing if there is none, and if a write fails.
pub fn show_rows<W: Output>(alloc: Global, text: &[u8], output: &mut W) -> Result<(), RowsFault>
    ensures { ShowsRows text.now (W.taker output.old) (W.taker output.new) result }
{
    let source = import_listing(alloc, text)?;
    put(source.as_slice(), output)?;
    Ok(())
}

// Writes the source of a listing, or reports why there is none, and returns the exit status.
fn import_rows<'a, W: Output, E: Output>(
    alloc: Global,
    name: &str,
    text: &[u8],
    output: &mut W,
    complaints: &mut E,
) -> Result<u8, Refusal<'a>>
    ensures { IfOk result (λ status. status ≤ 1) }
{
    match show_rows(alloc, text, output) {
        Ok(()) => Ok(0),
        Err(RowsFault::Write) => Err(Refusal::Fault(RunFault::Write)),
        Err(RowsFault::Listing(ListingFault::Memory)) => Err(Refusal::Fault(RunFault::Memory)),
        Err(RowsFault::Listing(fault)) => {
            let (line, what) = listing_fault_of(fault);
            report_of_line(name, line, b"error", what, b"", complaints);
            Ok(1)
        }
    }
}

// Writes the source of a text for another assembler, with a note for each line that means nothing here or cannot be converted. Returns the
// exit status: 1 if there are lines that cannot be converted.
fn import_lines<'a, W: Output, E: Output>(
    alloc: Global,
    name: &str,
    dialect: Dialect,
    text: &[u8],
    output: &mut W,
    complaints: &mut E,
) -> Result<u8, Refusal<'a>>
    ensures { IfOk result (λ status. status ≤ 1) }
{
    let made = match import_source(alloc, dialect, text) {
        Ok(made) => made,
        Err(ImportFault::Memory) => return Err(Refusal::Fault(RunFault::Memory)),
        Err(ImportFault::Refused(_)) => {
            let what = b"the source or one of its lines would be too long; split the text";
            report_of_line(name, 0, b"error", what, b"", complaints);
            return Ok(1);
        }
    };
    put(made.text.as_slice(), output)?;
    let lines = cut(alloc, text)?;
    for note in &made.notes {
        report_note(name, note, lines.as_slice(), complaints);
    }
    for found in &made.differences {
        report_difference(name, found, complaints);
    }
    if made.is_marked {
        report_marks(name, made.marks, complaints);
        return Ok(1);
    }
    Ok(0)
}

/// Converts a text, the contents of the file `file` or of standard input. `--from` may be before the file or after it. Reports each line that
/// means nothing here or cannot be converted, or why nothing can be, and returns the exit status.
#[inline(never)]
pub fn import_text<'a, S, D, C, R, W: Output, E: Output>(
    given: &CommandArgs<'_, 'a>,
    file: Option<&str>,
    text: &[u8],
    host: &mut Host<S, D, C, R, W, E>,
) -> Result<u8, Refusal<'a>>
    ensures { IfOk result (λ status. status ≤ 1) }
{
    let (alloc, name) = (host.alloc, file.unwrap_or("-"));
    let old = match from_named(given.arguments.text(&DIALECT).unwrap_or("auto")) {
        Some(old) => old,
        None => guess(alloc, text)?,
    };
    match old {
        Old::Listing => import_rows(alloc, name, text, &mut host.output, &mut host.complaints),
        Old::Source(dialect) => import_lines(
            alloc,
            name,
            dialect,
            text,
            &mut host.output,
            &mut host.complaints,
        ),
    }
}
