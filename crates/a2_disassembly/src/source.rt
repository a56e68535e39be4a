//! Writing the source of an image.

ghost use Rattle.std.specs.Prelude.{IfOk};
ghost use Rattle.a2_hex.specs.Images.{held};
ghost use Rattle.a2_monitor_listing.specs.Imported.{AssemblesTo};

use crate::draft::Draft;
use crate::fault::{SourceFault, fault_of};
use crate::follow::follow;
use crate::guess::guess;
use crate::labels::labels_of;
use crate::marks::{Kind, Mark, Marks};
use crate::operand::{Known, put_address};
use crate::request::Request;
use crate::routines::{Call, calls_of, put_routine};
use crate::statements::{is_last, put_statement};
use a2_hex::{Image, RAM_END};
use a2_monitor_listing::assembles_to;
use a2_text::hex_word;
use std::alloc::{AllocError, Allocator};

// The most guessed parts that the head of a source lists.
const MOST_PARTS: usize = 32;

// Returns a word for a part that was guessed to hold data.
fn word_of(kind: Kind) -> &'static [u8] {
    match kind {
        Kind::Bytes => b";   data   ",
        Kind::Text => b";   text   ",
        Kind::Words => b";   words  ",
        Kind::Zeros => b";   zeros  ",
    }
}

// Appends the line of a part that was guessed, from one address up to another.
fn put_part<A: Allocator>(
    draft: &mut Draft<A>,
    kind: Kind,
    first: u16,
    end: u16,
) -> Result<(), AllocError> {
    draft.put(word_of(kind))?;
    draft.put_word(first)?;
    draft.put(b"..")?;
    draft.put_word(end.wrapping_sub(1))?;
    draft.end_line()
}

// A part that was guessed.
#[derive(Clone, Copy, Debug, PartialEq, Eq)]
struct Guess {
    kind: Kind,
    first: u16,
    end: u16,
}

// Adds an address to the parts that were guessed before it.
fn add_guess<A: Allocator>(
    found: &mut Vec<Guess, A>,
    kind: Kind,
    address: u16,
) -> Result<(), AllocError> {
    let end = address.saturating_add(1);
    let mut first = address;
    if let Some(last) = found.pop() {
        if last.kind == kind && last.end == address {
            first = last.first;
        } else {
            found.push(last)?;
        }
    }
    found.push(Guess { kind, first, end })?;
    Ok(())
}

// Adds the second byte of a word to the part with its first byte, if that was guessed.
fn extend_guess<A: Allocator>(found: &mut Vec<Guess, A>, address: u16) {
    if let Some(last) = found.as_mut_slice().last_mut() {
        if last.end == address {
            last.end = address.saturating_add(1);
        }
    }
}

// Returns the parts that were guessed, by rising address.
fn guesses<A: Allocator + Copy>(alloc: A, marks: &Marks<A>) -> Result<Vec<Guess, A>, AllocError> {
    let mut found = Vec::new(alloc);
    for address in 0..RAM_END {
        match marks.at(address) {
            Mark::Guessed(kind) => add_guess(&mut found, kind, address)?,
            Mark::Second => extend_guess(&mut found, address),
            _ => {}
        }
    }
    Ok(found)
}

// Appends the comment that lists what was guessed.
fn put_guesses<A: Allocator + Copy>(
    alloc: A,
    draft: &mut Draft<A>,
    marks: &Marks<A>,
) -> Result<(), AllocError> {
    let found = guesses(alloc, marks)?;
    if found.is_empty() {
        return Ok(());
    }
    draft.put_line(b"; No code was found here, so what these bytes are is guessed:")?;
    for guess in found.iter().take(MOST_PARTS) {
        put_part(draft, guess.kind, guess.first, guess.end)?;
    }
    if found.len() > MOST_PARTS {
        draft.put_line(b";   and others")?;
    }
    Ok(())
}

// Appends a line as a comment: its characters from the space to `~`, at most 200.
fn put_remark<A: Allocator>(draft: &mut Draft<A>, line: &[u8]) -> Result<(), AllocError> {
    draft.put(b"; ")?;
    for byte in line.iter().take(200) {
        if matches!(*byte, b' '..=b'~') {
            draft.put(&[*byte])?;
        }
    }
    draft.end_line()
}

// Appends the comments at the head of a source.
fn put_head<A: Allocator + Copy>(
    alloc: A,
    known: &Known<'_, '_, A>,
    draft: &mut Draft<A>,
    request: &Request<'_>,
) -> Result<(), AllocError> {
    for line in request.remarks {
        put_remark(draft, *line)?;
    }
    put_guesses(alloc, draft, known.marks)?;
    for address in request.changed {
        draft.put(b"; The run changed the instruction at ")?;
        put_address(known, draft, *address)?;
        draft.end_line()?;
    }
    Ok(())
}

// Appends a line that defines a name.
fn put_equate<A: Allocator>(
    draft: &mut Draft<A>,
    name: &[u8],
    address: u16,
) -> Result<(), AllocError> {
    draft.put(name)?;
    draft.put_operation(b"EQU")?;
    if address < 256 {
        draft.put_pair((address % 256) as u8)?;
    } else {
        draft.put_word(address)?;
    }
    draft.end_line()
}

// Appends the lines that define the names of addresses outside the image.
fn put_equates<A: Allocator>(
    known: &Known<'_, '_, A>,
    draft: &mut Draft<A>,
) -> Result<(), AllocError> {
    let mut is_first = draft.len() > 0;
    for address in 0..=0xFFFFu16 {
        if known.labels.is_named(address)
            && known.marks.at(address) == Mark::Empty
            && let Some(name) = known.labels.name(address)
        {
            if is_first {
                draft.put_line(b"")?;
            }
            is_first = false;
            put_equate(draft, name, address)?;
        }
    }
    Ok(())
}

// Appends the lines that define the names of operands of two bytes in page 0. A name that is defined after its use always takes two
// bytes.
fn put_long_names<A: Allocator>(
    known: &Known<'_, '_, A>,
    draft: &mut Draft<A>,
) -> Result<(), AllocError> {
    let mut is_first = true;
    for low in 0..=255u8 {
        if known.labels.is_long(low) {
            if is_first {
                draft.put_line(b"")?;
                draft.put_line(b"; Defined after their uses, these names take two bytes.")?;
            }
            is_first = false;
            draft.put(b"W")?;
            put_equate(draft, &hex_word(u16::from(low)), u16::from(low))?;
        }
    }
    Ok(())
}

// Appends what is between the statement before an address and the one at it.
fn put_gap<A: Allocator + Copy>(
    alloc: A,
    known: &Known<'_, '_, A>,
    draft: &mut Draft<A>,
    calls: &[Call],
    places: (u16, u16),
) -> Result<(), AllocError> {
    let (before, address) = places;
    let is_start = address == 0 || known.marks.at(address.wrapping_sub(1)) == Mark::Empty;
    let is_routine = known.labels.is_routine(address);
    if draft.len() > 0 && (is_start || is_routine || is_last(known, before, address)) {
        draft.put_line(b"")?;
    }
    if is_start {
        draft.put_operation(b"ORG")?;
        draft.put_word(address)?;
        draft.end_line()?;
    }
    if is_routine && draft.len() <= LARGEST {
        put_routine(alloc, known, draft, calls, address)?;
    }
    Ok(())
}

// The largest source, in bytes.
const LARGEST: usize = 65_536;

// Appends all statements.
fn put_statements<A: Allocator + Copy>(
    alloc: A,
    known: &Known<'_, '_, A>,
    draft: &mut Draft<A>,
    calls: &[Call],
) -> Result<(), AllocError> {
    let mut before = 0u16;
    let mut next = 0u16;
    for address in 0..RAM_END {
        if address >= next && known.marks.at(address) != Mark::Empty {
            put_gap(alloc, known, draft, calls, (before, address))?;
            let length = put_statement(known, draft, address)?;
            next = address.saturating_add(length);
            before = address;
        }
    }
    Ok(())
}

// Guesses what the bytes hold of which nothing is known. (A function of its own, so that its labels are dropped: a guessed word has one
// label for both bytes.)
fn guess_all<A: Allocator + Copy>(
    alloc: A,
    image: &Image<A>,
    marks: &mut Marks<A>,
    request: &Request<'_>,
) -> Result<(), AllocError> {
    let labels = labels_of(alloc, image, marks, request)?;
    guess(image, marks, &labels);
    Ok(())
}

// Returns the text of a source that should have the bytes of an image.
fn text_of<A: Allocator + Copy>(
    alloc: A,
    image: &Image<A>,
    request: &Request<'_>,
) -> Result<Vec<u8, A>, AllocError> {
    let mut marks = follow(alloc, image, request)?;
    guess_all(alloc, image, &mut marks, request)?;
    let labels = labels_of(alloc, image, &marks, request)?;
    let known = Known {
        image,
        marks: &marks,
        labels: &labels,
    };
    let calls = calls_of(alloc, &known)?;
    let mut draft = Draft::new(alloc);
    put_head(alloc, &known, &mut draft, request)?;
    put_equates(&known, &mut draft)?;
    put_statements(alloc, &known, &mut draft, calls.as_slice())?;
    put_long_names(&known, &mut draft)?;
    Ok(draft.into_text())
}

/// Returns a source that assembles to exactly the bytes of an image.
///
/// What is reached from the entries, or was executed, is written as instructions, unless a part of the request says otherwise. The other
/// bytes are data: texts, tables of known places, gaps of zeros, and bytes. Addresses inside the image have names, and so do those outside
/// for which the request has one.
///
/// The text is assembled here and compared with the image, so no fault of this crate can write a source of other bytes; it would be
/// reported as `Unlike`.
pub fn write_source<A: Allocator + Copy>(
    alloc: A,
    image: &Image<A>,
    request: &Request<'_>,
) -> Result<Vec<u8, A>, SourceFault>
    ensures { IfOk result (λ text. AssemblesTo (held image.now) text.items) }
{
    let text = text_of(alloc, image, request)?;
    match assembles_to(alloc, text.as_slice(), image) {
        Ok(true) => Ok(text),
        Ok(false) => Err(SourceFault::Unlike),
        Err(fault) => Err(fault_of(fault, text.as_slice())),
    }
}
