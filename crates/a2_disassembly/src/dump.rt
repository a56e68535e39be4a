//! Reading dumps: lines as the Monitor prints them, with what was typed between.

ghost use Rattle.std.specs.Prelude.{◌≡◌, ◌≢◌, ◌++◌, map, Ok, Err, IfOk, IfErr};
ghost use Rattle.std.specs.List.{flat_map, list_all};
ghost use Rattle.a2_hex.specs.Images.{held};
ghost use Rattle.a2_monitor_listing.specs.Listing.{listed};
ghost use Rattle.a2_disassembly.specs.Dump as dump;

use a2_hex::{HexFault, Image, load_lines};
use a2_monitor_listing::object_lines;
use a2_text::{cut, front_len, is_blank, number_in};
use std::alloc::{AllocError, Allocator};

/// What a dump holds.
pub struct Dump<'t, A: Allocator> {
    pub image: Image<A>,
    /// The lines that load no bytes, in order.
    pub remarks: Vec<&'t [u8], A>,
    /// The addresses of the commands `G`, in order.
    pub entries: Vec<u16, A>,
}

// Not derived, only for the prover: it treats this as one call, and a derived `drop` field by field.
impl<'t, A: Allocator> Drop for Dump<'t, A> {
    fn drop(self) {
        let Dump {
            image: _,
            remarks: _,
            entries: _,
        } = self;
    }
}

// The bytes of commands that print, list or run.
const COMMAND_BYTES: &[u8] = b"0123456789ABCDEFabcdef.GLST";

// Returns whether a byte can be in such a command.
fn is_command_byte(byte: u8) -> bool
    ensures { result ≡ dump.is_command_byte byte }
{
    COMMAND_BYTES.iter().any(|c| *c == byte)
}

// Returns whether a line has a byte.
fn has(byte: u8, line: &[u8]) -> bool
    ensures { result ≡ dump.has byte line.now }
{
    line.iter().any(|c| *c == byte)
}

// Returns whether a line begins with a byte, which is not 0.
fn begins(byte: u8, line: &[u8]) -> bool
    requires { byte ≢ 0 }
    ensures { result ≡ dump.begins byte line.now }
{
    match line {
        [first, ..] => *first == byte,
        [] => false,
    }
}

// Returns a line after the prompts before it.
fn after_prompt(line: &[u8]) -> &[u8]
    ensures { result.now ≡ dump.after_prompt line.now }
{
    let count = front_len(line, |c| c == b'*' || is_blank(c));
    &line[count..]
}

// Returns whether all bytes of a line can be in a command.
fn is_command(line: &[u8]) -> bool
    ensures { result ≡ list_all dump.is_command_byte line.now }
{
    line.iter().all(|c| is_command_byte(*c))
}

// Returns whether a line has no bytes to load.
fn is_remark(line: &[u8]) -> bool
    ensures { result ≡ dump.is_remark line.now }
{
    let rest = after_prompt(line);
    begins(b';', rest)
        || begins(b']', rest)
        || has(b'=', line)
        || (!(has(b':', line) || has(b'-', line)) && (begins(b'*', line) || is_command(line)))
}

// Appends the row of a listing that is in a line.
fn put_row<A: Allocator>(rows: &mut Vec<u8, A>, line: &[u8]) -> Result<(), AllocError>
    ensures { IfOk result (λ _. rows.new.items ≡ rows.old.items ++ dump.dump_row line.now) }
{
    if !is_remark(line) {
        rows.extend_from_slice(after_prompt(line))?;
    }
    rows.push(b'\n')?;
    Ok(())
}

// Appends the rows of a listing that are in these lines.
fn put_rows<A: Allocator>(rows: &mut Vec<u8, A>, lines: &[&[u8]]) -> Result<(), AllocError>
    ensures { IfOk result (λ _. rows.new.items ≡ rows.old.items ++ flat_map dump.dump_row (map (λ x. x.now) lines.now)) }
{
    for line in lines {
        put_row(rows, *line)?;
    }
    Ok(())
}

// Returns the rows of a listing that are in a text.
fn rows_of<A: Allocator + Copy>(alloc: A, text: &[u8]) -> Result<Vec<u8, A>, AllocError>
    ensures { IfOk result (λ rows. rows.items ≡ dump.dump_rows text.now) }
{
    let lines = cut(alloc, text)?;
    let mut rows = Vec::new(alloc);
    put_rows(&mut rows, lines.as_slice())?;
    Ok(rows)
}

// Returns the address of a command `G`.
fn entry_in(line: &[u8]) -> Option<u16> {
    match after_prompt(line) {
        [digits @ .., b'G'] => number_in(16, 4, digits),
        _ => None,
    }
}

// Returns the lines of a text that have no bytes to load, and are not empty.
fn remarks_of<A: Allocator + Copy>(alloc: A, text: &[u8]) -> Result<Vec<&[u8], A>, AllocError> {
    let mut remarks = Vec::new(alloc);
    for line in &cut(alloc, text)? {
        if is_remark(line) && !line.is_empty() {
            remarks.push(*line)?;
        }
    }
    Ok(remarks)
}

// Returns the addresses of the commands `G` of some lines.
fn entries_of<A: Allocator>(alloc: A, lines: &[&[u8]]) -> Result<Vec<u16, A>, AllocError> {
    let mut entries = Vec::new(alloc);
    for line in lines {
        if let Some(address) = entry_in(line) {
            entries.push(address)?;
        }
    }
    Ok(entries)
}

/// Returns the image that a dump loads, with the lines that load nothing and the addresses of its commands `G`.
///
/// A line is a row of a listing or of a dump, as `0300-   A9 C1`, or an object line, as `300:A9 C1`; the prompt `*` may be before it.
/// These lines load nothing: comments after `;`, lines of Basic after `]`, registers, and commands without `:`. Apple II Reference
/// Manual (1979), chapter 3.
///
/// Fails at the first other line, and at the first with a byte at or above $C000. Also fails if memory runs out.
pub fn load_dump<A: Allocator + Copy>(alloc: A, text: &[u8]) -> Result<Dump<'_, A>, HexFault>
    ensures loaded { IfOk result (λ found. listed (dump.dump_rows text.now) ≡ Ok (held found.image)) }
    ensures refused { IfErr result (λ fault. fault ≢ HexFault.Memory → listed (dump.dump_rows text.now) ≡ Err fault) }
{
    let rows = rows_of(alloc, text)?;
    let object = object_lines(alloc, rows.as_slice())?;
    let image = load_lines(alloc, object.as_slice())?;
    let remarks = remarks_of(alloc, text)?;
    let entries = entries_of(alloc, remarks.as_slice())?;
    Ok(Dump {
        image,
        remarks,
        entries,
    })
}
