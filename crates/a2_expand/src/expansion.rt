//! The expansion of a text.

ghost use Rattle.std.specs.Prelude.{◌≡◌, ◌≤◌, ◌↔◌, IsTrue, length, IfOk, IfErr};
ghost use Rattle.a2_text.specs.Lines.{lines as lines_of};
ghost use Rattle.a2_expand.specs.Places.{own_places};
ghost use Rattle.a2_expand.specs.Plain.{IsPlain, IsRead};
ghost use Rattle.a2_expand.specs.declared.fault.Problem.TheVariants.{Memory};

use crate::fault::{ExpandFault, Origin, Problem, placed, shortened, trouble};
use crate::files::Warning;
use crate::flow::{Flow, begin_reading};
use crate::labels::{Lines, named_text};
use crate::larger::{is_larger_line, uses_nothing_larger};
use crate::limits::MOST_BYTES;
use crate::macros::Call;
use crate::source::LoadedFile;
use a2_syntax::{Fault, parse};
use a2_text::cut;
use std::alloc::{AllocError, Allocator};

/// A plain text, and where each of its lines comes from.
#[derive(Drop)]
pub struct Expansion<'t, A: Allocator> {
    pub text: Vec<u8, A>,
    pub origins: Vec<Origin, A>,
    /// The calls of macros; `call` of a line counts them from 1.
    pub calls: Vec<Call<'t>, A>,
    pub warnings: Vec<Warning<A>, A>,
}

// Returns the place of a line of the text itself.
fn own_line(line: usize) -> Origin
    ensures { result ≡ record { file = 0; line = line; call = 0 } }
{
    Origin {
        file: 0,
        line,
        call: 0,
    }
}

// Returns the places of the lines of a text that stays as it is.
fn own_lines<A: Allocator>(alloc: A, count: usize) -> Result<Vec<Origin, A>, AllocError>
    ensures { IfOk result (λ origins. origins.items ≡ own_places count) }
{
    let mut origins = Vec::new(alloc);
    for before in 0..count {
        origins.push(own_line(before + 1))?;
    }
    Ok(origins)
}

// Returns how many lines a text has.
fn count_lines<A: Allocator>(alloc: A, text: &[u8]) -> Result<usize, AllocError>
    ensures { IfOk result (λ count. count ≡ length (lines_of text.now)) }
{
    let lines = cut(alloc, text)?;
    Ok(lines.len())
}

// Returns a text that stays as it is.
fn unchanged<'t, A: Allocator + Copy>(alloc: A, text: &[u8]) -> Result<Expansion<'t, A>, AllocError>
    ensures text { IfOk result (λ made. made.text.items ≡ text.now) }
    ensures places { IfOk result (λ made. made.origins.items ≡ own_places (length (lines_of text.now))) }
{
    let count = count_lines(alloc, text)?;
    let origins = own_lines(alloc, count)?;
    let text = Vec::from_slice(alloc, text)?;
    Ok(Expansion {
        text,
        origins,
        calls: Vec::new(alloc),
        warnings: Vec::new(alloc),
    })
}

// Returns the place of the line from which a fault comes: the line of the outermost call, if it is in a macro.
fn outermost(calls: &[Call<'_>], at: Origin) -> Origin {
    let mut now = at;
    for _ in 0..calls.len() {
        if now.call == 0 {
            break;
        }
        match calls.get(now.call.saturating_sub(1)) {
            Some(call) => now = call.at,
            None => break,
        }
    }
    now
}

// Returns the name of the macro that a call is of, or no name if it is no call.
fn macro_of<'c>(calls: &[Call<'c>], call: usize) -> &'c [u8] {
    match call.checked_sub(1) {
        Some(index) => match calls.get(index) {
            Some(call) => call.name,
            None => b"",
        },
        None => b"",
    }
}

// Returns a fault with the macro in which it is, and the line that called that, or the macro around it.
fn called(fault: ExpandFault, calls: &[Call<'_>]) -> ExpandFault {
    ExpandFault {
        problem: fault.problem,
        at: fault.at,
        from: outermost(calls, fault.at),
        within: shortened(macro_of(calls, fault.at.call)),
        word: fault.word,
        column: fault.column,
    }
}

// Returns the lines of a reading, with names in place of local labels.
fn named_lines<'t, A: Allocator + Copy>(
    alloc: A,
    flow: &mut Flow<'t, A>,
) -> Result<Lines<A>, ExpandFault> {
    flow.run()?;
    named_text(
        alloc,
        flow.builder.rows.as_slice(),
        flow.builder.scopes.as_slice(),
    )
}

// Returns the expansion of a text that uses the larger language, before it is checked.
fn made_of<'t, A: Allocator + Copy>(
    alloc: A,
    source: LoadedFile<'t>,
    loaded: &'t [LoadedFile<'t>],
) -> Result<Expansion<'t, A>, ExpandFault> {
    let mut reading = begin_reading(alloc, source, loaded)?;
    match named_lines(alloc, &mut reading) {
        Ok(lines) => Ok(Expansion {
            text: lines.text,
            origins: lines.origins,
            calls: reading.calls,
            warnings: reading.warnings,
        }),
        Err(fault) => Err(called(fault, reading.calls.as_slice())),
    }
}

// Returns the place of the first line that uses the larger language.
fn place_of_larger<A: Allocator>(
    alloc: A,
    text: &[u8],
    origins: &[Origin],
) -> Result<Origin, AllocError> {
    let lines = cut(alloc, text)?;
    for (line, at) in lines.iter().zip(origins.iter()) {
        if is_larger_line(*line) {
            return Ok(*at);
        }
    }
    Ok(own_line(1))
}

// Returns the lines as an expansion if they are plain, each has its place, and they are not too large.
fn checked<'t, A: Allocator + Copy>(
    alloc: A,
    made: Expansion<'t, A>,
) -> Result<Expansion<'t, A>, ExpandFault>
    ensures plain { IfOk result (λ made. IsPlain made.text.items) }
    ensures lines { IfOk result (λ made. length made.origins.items ≡ length (lines_of made.text.items)) }
    ensures size { IfOk result (λ made. length made.text.items ≤ 65536) }
{
    if made.text.len() > MOST_BYTES {
        return Err(placed(trouble(Problem::ManyBytes, b""), own_line(1)));
    }
    let count = count_lines(alloc, made.text.as_slice())?;
    if count != made.origins.len() || !is_plain(alloc, made.text.as_slice())? {
        let at = place_of_larger(alloc, made.text.as_slice(), made.origins.as_slice())?;
        return Err(placed(trouble(Problem::Remains, b""), at));
    }
    Ok(made)
}

// Whether a text is in the source language.
fn is_read<A: Allocator + Copy>(alloc: A, text: &[u8]) -> Result<bool, AllocError>
    ensures { IfOk result (λ is. IsTrue is ↔ IsRead text.now) }
{
    match parse(alloc, text) {
        Ok(_) => return Ok(true),
        Err(Fault::Memory) => return Err(AllocError),
        Err(_) => return Ok(false),
    }
}

// Whether a text is its own expansion.
fn is_plain<A: Allocator + Copy>(alloc: A, text: &[u8]) -> Result<bool, AllocError>
    ensures { IfOk result (λ is. IsTrue is ↔ IsPlain text.now) }
{
    Ok(uses_nothing_larger(alloc, text)? || is_read(alloc, text)?)
}

/// Returns the plain text of a source, and where each of its lines comes from. A text that `a2` reads, and one that uses nothing of the
/// larger language, is its own expansion. Every expansion is such a text. `loaded` has the files that the text includes.
///
/// Fails with the first line that cannot be expanded. If that is `NeedsFile`, the word is the name of a file that `loaded` lacks. Also
/// fails if memory runs out.
#[tactic(auto, using(crate::proofs::Placing::places_counted))]
pub fn expand<'t, A: Allocator + Copy>(
    alloc: A,
    source: LoadedFile<'t>,
    loaded: &'t [LoadedFile<'t>],
) -> Result<Expansion<'t, A>, ExpandFault>
    ensures same { IsPlain source.entry.text.now → IfOk result (λ made. made.text.items ≡ source.entry.text.now) }
    ensures places { IsPlain source.entry.text.now → IfOk result (λ made. made.origins.items ≡ own_places (length (lines_of source.entry.text.now))) }
    ensures accepted { IsPlain source.entry.text.now → IfErr result (λ fault. fault.problem ≡ Memory) }
    ensures plain { IfOk result (λ made. IsPlain made.text.items) }
    ensures lines { IfOk result (λ made. length made.origins.items ≡ length (lines_of made.text.items)) }
{
    if is_plain(alloc, source.text)? {
        let made = unchanged(alloc, source.text)?;
        return Ok(made);
    }
    let made = made_of(alloc, source, loaded)?;
    checked(alloc, made)
}
