//! Which routine the lines of a promise belong to.

ghost use Rattle.std.specs.Prelude.{◌≡◌, ℕ, suc, List, map, None, IfOk, OnOk, false};
ghost use Rattle.a2_syntax.specs.Sources.{AreLines};
ghost use Rattle.a2_asm.specs.Values.{Names};
ghost use Rattle.a2_promise.specs.PromisedTerms.{AreFound, IsFound, IsStated, is_blank_or_comment, label_in};
ghost use Rattle.a2_promise.specs.Finding.{AreFoundSoFar, AreRead, IsAbove, IsEntry, IsLineAt, ReadsLine};

use crate::fault::{ReadFault, Refusal, Why};
use crate::promises::{Block, Found, Label, Promise, Within, new_block, promise_in};
use crate::reader::{Named, Reader};
use a2_asm::Program;
use a2_syntax::{Line, Source};
use a2_text::after_blanks;
use std::alloc::{AllocError, Global};

// A line of a source: its text, its label (empty if it has none), and its number.
#[derive(Clone, Copy)]
struct SourceLine<'a> {
    whole: &'a [u8],
    label: &'a [u8],
    number: usize,
}

// A routine that has a promise, and the labels that its lines name after `at`.
#[derive(Drop)]
struct Routine<'a> {
    promise: Promise<'a>,
    labels: Vec<Label>,
}

// What the lines read so far give.
#[derive(Drop)]
struct Finding<'a> {
    alloc: Global,
    /// The promises of earlier routines, and errors.
    found: Vec<Found<'a>>,
    /// The last routine. Further lines may say what holds within it.
    last: Option<Routine<'a>>,
}

// Returns whether a line is blank or a comment.
fn is_blank_or_comment(line: &[u8]) -> bool
    ensures { result ≡ is_blank_or_comment line.now }
{
    matches!(after_blanks(line), [] | [b';', ..]) || matches!(line, [b'*', ..])
}

// Returns the label of a source's line, counted from 0; empty if it has no label.
fn label_at<'a>(source: &'a Source<Global>, index: usize) -> &'a [u8]
    ensures { result.now ≡ label_in source.now index }
{
    match source.lines().get(index) {
        Some(
            Line {
                label: Some(name),
                body: _,
            },
        ) => name.get().as_bytes(),
        _ => b"",
    }
}

// Returns the column, from 1, at which this many bytes of a line are left.
fn column_of(line: &[u8], bytes_left: usize) -> usize {
    line.len().saturating_sub(bytes_left).saturating_add(1)
}

// Records the labels that this line names after `at`.
fn note_labels(
    labels: &mut Vec<Label>,
    named: &[Named],
    line: SourceLine,
) -> Result<(), AllocError> {
    for label in named {
        let refusal = Refusal {
            line: line.number,
            column: column_of(line.whole, label.bytes_left),
            says: Why::NoLabel.text(),
        };
        labels.push(Label {
            address: label.address,
            refusal,
        })?;
    }
    Ok(())
}

// Reads a line of a promise. Records its error if it is the block's first error.
fn take_line<'a>(
    alloc: Global,
    program: &Program<Global>,
    block: &mut Block<'a>,
    line: SourceLine<'a>,
    rest: &'a [u8],
) -> Result<(), AllocError>
    ensures { OnOk result (ReadsLine program.now.names rest.now block.old block.new) }
{
    if block.first == 0 {
        block.first = line.number;
    }
    let mut reader = Reader::new(alloc, rest, program);
    match block.take(&mut reader, line.number) {
        Ok(()) => note_labels(&mut block.labels, reader.labels.as_slice(), line),
        Err(ReadFault::Memory) => Err(AllocError),
        Err(ReadFault::Says(why, bytes_left)) => {
            if block.refused.is_none() {
                block.refused = Some(Refusal {
                    line: line.number,
                    column: column_of(line.whole, bytes_left),
                    says: why.text(),
                });
            }
            Ok(())
        }
    }
}

// Creates an error for the lines from this one on.
fn at_line(line: usize, says: &'static str) -> Refusal {
    Refusal {
        line,
        column: 1,
        says,
    }
}

const NO_LABEL: &str =
    "expected a line with a label after this promise; move the promise to just before its routine";

const NO_INSTRUCTION: &str =
    "no instruction begins at the label after this promise; move the promise to just before its routine";

const OUTSIDE: &str =
    "no promise of a routine comes before this line; write requires, ensures or changes lines before the label of the routine";

// Returns the address of the label after the lines if an instruction begins there. Otherwise returns the error.
fn entry_of(program: &Program<Global>, block: &Block, label: &[u8]) -> Result<u16, Refusal>
    ensures { IfOk result (λ address. IsEntry program.now.names block.now label.now address) }
{
    if let Some(refusal) = block.refused {
        return Err(refusal);
    }
    let named = match std::str::from_utf8(label) {
        Ok(name) => program.name(name),
        Err(_) => None,
    };
    match named {
        None => Err(at_line(block.first, NO_LABEL)),
        Some(address) => match program.instr_at(address) {
            Some(_) => Ok(address),
            None => Err(at_line(block.first, NO_INSTRUCTION)),
        },
    }
}

// Marks the label at an address as named after `at`. Returns false if the routine has no clauses at that label.
fn name_label(within: &mut [Within], address: u16) -> bool {
    for said in within {
        if said.address == address {
            said.is_named = true;
            return true;
        }
    }
    false
}

// Marks the labels that are named after `at`. Returns the error for the first one without clauses in its routine.
fn name_labels(within: &mut [Within], labels: &[Label]) -> Option<Refusal> {
    for label in labels {
        if !name_label(within, label.address) {
            return Some(label.refusal);
        }
    }
    None
}

// Returns the promise of a routine whose lines are all read, or an error if it names a label after `at` that has no
// clauses.
fn completed<'a>(routine: Routine<'a>) -> Found<'a>
    ensures { (lines : List (List ℕ)) (names : Names) → IsStated lines names routine.entry.promise → IsFound lines names result }
{
    let Routine {
        mut promise,
        labels,
    } = routine;
    match name_labels(promise.within.as_mut_slice(), labels.as_slice()) {
        Some(refusal) => Found::Refused(refusal, promise.name),
        None => Found::Promise(promise),
    }
}

// Adds the clauses at a label, if there are any.
fn push_within<'a>(
    within: &mut Vec<Within<'a>>,
    mut said: Within<'a>,
    line: usize,
    address: u16,
) -> Result<(), AllocError> {
    if said.invariants.is_empty() && said.measures.is_empty() {
        return Ok(());
    }
    said.line = line;
    said.address = address;
    Ok(within.push(said)?)
}

// Returns the routine whose promise is in the lines before its label.
fn routine_at<'a>(
    block: Block<'a>,
    line: SourceLine<'a>,
    address: u16,
) -> Result<Routine<'a>, AllocError>
    ensures { (lines : List (List ℕ)) (names : Names) → IsAbove lines names block.entry line.entry
        → IsEntry names block.entry line.entry.label.now address → block.entry.is_within ≡ false
        → IfOk result (λ routine. IsStated lines names routine.promise) }
{
    let (mut promise, said, labels) = block.into_parts();
    promise.name = line.label;
    promise.line = line.number;
    promise.address = address;
    push_within(&mut promise.within, said, line.number, address)?;
    Ok(Routine { promise, labels })
}

impl<'a> Finding<'a> {
    // Adds the last routine to what is found.
    fn complete(&mut self) -> Result<(), AllocError>
        ensures { (lines : List (List ℕ)) (names : Names) → AreFoundSoFar lines names self.old
            → OnOk result (AreFound lines names self.new.found.items × (self.new.last ≡ None)) }
    {
        match self.last.take() {
            Some(routine) => Ok(self.found.push(completed(routine))?),
            None => Ok(()),
        }
    }

    // Adds an error in the lines before a label.
    fn refuse(&mut self, refusal: Refusal, name: &'a [u8]) -> Result<(), AllocError>
        ensures { (lines : List (List ℕ)) (names : Names) → AreFoundSoFar lines names self.old
            → OnOk result (AreFoundSoFar lines names self.new) }
    {
        self.complete()?;
        Ok(self.found.push(Found::Refused(refusal, name))?)
    }

    // Adds the clauses at a label within the last routine. If that routine's promise has an error, they are ignored.
    fn attach(
        &mut self,
        block: Block<'a>,
        line: SourceLine<'a>,
        address: u16,
    ) -> Result<(), AllocError>
        ensures { (lines : List (List ℕ)) (names : Names) → AreFoundSoFar lines names self.old
            → OnOk result (AreFoundSoFar lines names self.new) }
    {
        let Some(mut routine) = self.last.take() else {
            if self.found.is_empty() {
                return self.refuse(at_line(block.first, OUTSIDE), line.label);
            }
            return Ok(());
        };
        let (_, said, labels) = block.into_parts();
        push_within(&mut routine.promise.within, said, line.number, address)?;
        routine.labels.extend_from_slice(labels.as_slice())?;
        self.last = Some(routine);
        Ok(())
    }

    // Adds what the lines before a line give.
    fn close(
        &mut self,
        program: &Program<Global>,
        block: Block<'a>,
        line: SourceLine<'a>,
    ) -> Result<(), AllocError>
        ensures { (lines : List (List ℕ)) → IsAbove lines program.now.names block.entry line.entry
            → AreFoundSoFar lines program.now.names self.old → OnOk result (AreFoundSoFar lines program.now.names self.new) }
    {
        if block.first == 0 {
            return Ok(());
        }
        match entry_of(program, &block, line.label) {
            Err(refusal) => self.refuse(refusal, line.label),
            Ok(address) if block.is_within => self.attach(block, line, address),
            Ok(address) => {
                let routine = routine_at(block, line, address)?;
                self.complete()?;
                self.last = Some(routine);
                Ok(())
            }
        }
    }

    // Reads the next line of the source, given the lines since the last one that is not a comment.
    fn read(
        &mut self,
        program: &Program<Global>,
        block: &mut Block<'a>,
        line: SourceLine<'a>,
    ) -> Result<(), AllocError>
        ensures { (lines : List (List ℕ)) (above : ℕ) → IsLineAt lines above line.entry
            → AreRead lines program.now.names above block.old self.old
            → OnOk result (AreRead lines program.now.names (suc above) block.new self.new) }
    {
        if let Some(rest) = promise_in(line.whole) {
            return take_line(self.alloc, program, block, line, rest);
        }
        if is_blank_or_comment(line.whole) {
            return Ok(());
        }
        let before = std::mem::replace(block, new_block(self.alloc));
        self.close(program, before, line)
    }

    // Returns what is found. There is no label after the lines that are left.
    fn end(self, block: Block<'a>) -> Result<Vec<Found<'a>>, AllocError>
        ensures { (lines : List (List ℕ)) (names : Names) → AreFoundSoFar lines names self.entry
            → IfOk result (λ found. AreFound lines names found.items) }
    {
        let mut finding = self;
        if block.first != 0 {
            let refusal = match block.refused {
                Some(refusal) => refusal,
                None => at_line(block.first, NO_LABEL),
            };
            finding.refuse(refusal, b"")?;
        }
        finding.complete()?;
        let Finding {
            alloc: _,
            found,
            last: _,
        } = finding;
        Ok(found)
    }
}

/// Returns the promises in the lines of a source, in their order. `source` must be the parsed lines of the same text, and `program` the
/// program assembled from them.
///
/// A promise consists of lines that begin with `;:`, followed by `requires`, `ensures`, `changes`, `prints`, `takes`,
/// `invariant`, `decreases` or `note`. They come before the line of a label; there may be comments and blank lines in
/// between. Lines that only say what holds within a routine are not a promise of their own: they belong to the last
/// promise above them.
///
/// An error takes the promise's place in these cases: a line cannot be read, no routine has the label, or `at` names
/// a label without such lines in its routine. This project's profile. Fails only if memory runs out.
pub fn promises_of<'a>(
    alloc: Global,
    lines: &[&'a [u8]],
    source: &'a Source<Global>,
    program: &Program<Global>,
) -> Result<Vec<Found<'a>>, AllocError>
    ensures { AreLines (map (λ line. line.now) lines.now) source.now
        → IfOk result (λ found. AreFound (map (λ line. line.now) lines.now) program.now.names found.items) }
{
    let mut finding = Finding {
        alloc,
        found: Vec::new(alloc),
        last: None,
    };
    let mut block = new_block(alloc);
    for (index, whole) in lines.iter().enumerate() {
        let line = SourceLine {
            whole: *whole,
            label: label_at(source, index),
            number: index + 1,
        };
        finding.read(program, &mut block, line)?;
    }
    finding.end(block)
}
