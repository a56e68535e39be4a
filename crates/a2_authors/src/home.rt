//! From the lines of an expansion to those of its source.

ghost use Rattle.std.specs.Prelude.{◌≤◌, length, IfOk, IfSome};
ghost use Rattle.a2_check.specs.Refusals.{AreRefusals};

use a2_check::{SourceError, Warning, errors_of, refusals_of};
use a2_expand::{Origin, uses_larger_operation};
use a2_syntax::Fault;
use a2_text::cut;
use std::alloc::{AllocError, Allocator};

/// An expansion, and what its author wrote.
#[derive(Drop)]
pub struct Home<'a, A: Allocator> {
    // The expansion, its lines, and where each comes from.
    text: &'a [u8],
    lines: Vec<&'a [u8], A>,
    origins: &'a [Origin],
    // The lines of the source, and after it those of each file that it includes.
    files: Vec<Vec<&'a [u8], A>, A>,
}

/// A warning for a line of a file.
#[derive(Clone, Copy, Debug, PartialEq, Eq)]
pub struct PlacedWarning {
    /// The file: 0 is the source itself, and the others are files that it includes.
    pub file: usize,
    /// The warning, with the number of the line in that file.
    pub warning: Warning,
}

// Returns the line with this number, counted from 1, or an empty one if there is none.
fn line_in<'a>(lines: &[&'a [u8]], number: usize) -> &'a [u8] {
    lines.get(number.wrapping_sub(1)).copied().unwrap_or(b"")
}

impl<'a, A: Allocator + Copy> Home<'a, A> {
    /// Returns an expansion with the origins of its lines. The texts are the source, and after it the files that it includes, in the
    /// order in which the origins count them. Fails only if there is not enough memory.
    pub fn new(
        alloc: A,
        text: &'a [u8],
        origins: &'a [Origin],
        texts: &[&'a [u8]],
    ) -> Result<Home<'a, A>, AllocError> {
        let mut files = Vec::new(alloc);
        for file in texts {
            files.push(cut(alloc, *file)?)?;
        }
        Ok(Home {
            text,
            lines: cut(alloc, text)?,
            origins,
            files,
        })
    }

    /// Returns the lines of a file, or none if there is no such file.
    pub fn lines_of(&self, file: usize) -> &[&'a [u8]] {
        let Some(lines) = self.files.get(file) else {
            // None of its lines, only for the prover: `&[]` has another lifetime.
            let (none, _) = self.lines.as_slice().split_at(0);
            return none;
        };
        lines.as_slice()
    }

    // Returns where the line of the expansion with this number comes from.
    fn origin_of(&self, line: usize) -> Option<Origin> {
        self.origins.get(line.checked_sub(1)?).copied()
    }

    // Moves an error of the expansion to the line that its author wrote. If that is written otherwise, it is marked whole, and the fix says
    // which line it is for.
    fn bring(&self, alloc: A, error: &mut SourceError<A>) -> Result<(), AllocError> {
        let Some(at) = self.origin_of(error.line) else {
            error.line = 0;
            return Ok(());
        };
        let expanded = line_in(self.lines.as_slice(), error.line);
        let written = line_in(self.lines_of(at.file), at.line);
        error.file = at.file;
        error.line = at.line;
        if expanded != written {
            let front = written
                .len()
                .saturating_sub(written.trim_ascii_start().len());
            error.column = front.saturating_add(1);
            error.width = written.trim_ascii().len().max(1);
            error.fix = fix_of_other(alloc, expanded, error.fix.as_slice())?;
        }
        Ok(())
    }
}

// Returns a fix for a line of an expansion that is not written like that in the source: it says which line it is for.
fn fix_of_other<A: Allocator>(alloc: A, line: &[u8], fix: &[u8]) -> Result<Vec<u8, A>, AllocError> {
    let mut text = Vec::from_slice(alloc, b"this line becomes `")?;
    for c in line.trim_ascii() {
        text.push(if matches!(*c, b' '..=b'~') { *c } else { b'?' })?;
    }
    text.extend_from_slice(b"`; there, ")?;
    text.extend_from_slice(fix)?;
    Ok(text)
}

/// Returns these errors of an expansion, each at the line of the source or file that it comes from. Fails only if there is not enough
/// memory.
pub fn errors_at_home<A: Allocator + Copy>(
    alloc: A,
    home: &Home<'_, A>,
    refusals: &[Fault],
) -> Result<Vec<SourceError<A>, A>, AllocError> {
    let mut errors = errors_of(alloc, home.text, refusals)?;
    for i in 0..errors.len() {
        if let Some(error) = errors.get_mut(i) {
            home.bring(alloc, error)?;
        }
    }
    Ok(errors)
}

// Whether a list has a warning.
fn has(found: &[PlacedWarning], placed: &PlacedWarning) -> bool {
    for one in found {
        if *one == *placed {
            return true;
        }
    }
    false
}

/// Returns these warnings for an expansion, each at the line of the source or file that it comes from, and each once. Fails only if there
/// is not enough memory.
pub fn warnings_at_home<A: Allocator + Copy>(
    alloc: A,
    home: &Home<'_, A>,
    warnings: &[Warning],
) -> Result<Vec<PlacedWarning, A>, AllocError> {
    let mut found = Vec::new(alloc);
    for warning in warnings {
        if let Some(at) = home.origin_of(warning.line) {
            let placed = PlacedWarning {
                file: at.file,
                warning: Warning {
                    line: at.line,
                    kind: warning.kind,
                },
            };
            if !has(found.as_slice(), &placed) {
                found.push(placed)?;
            }
        }
    }
    Ok(found)
}

// Whether one of these errors is in this line of the source.
fn is_in<A: Allocator>(errors: &[SourceError<A>], line: usize) -> bool {
    for error in errors {
        if error.file == 0 && error.line == line {
            return true;
        }
    }
    false
}

// Whether the expansion has an error in each line in which the source has one. If it has none in such a line, the error of the source is only
// that the line is in the larger language.
fn are_real<A: Allocator + Copy>(
    alloc: A,
    home: &Home<'_, A>,
    text: &[u8],
    own: &[Fault],
    refusals: &[Fault],
) -> Result<bool, AllocError> {
    let expanded = errors_at_home(alloc, home, refusals)?;
    let written = errors_of(alloc, text, own)?;
    for error in &written {
        if !is_in(expanded.as_slice(), error.line) {
            return Ok(false);
        }
    }
    Ok(true)
}

/// Returns the errors of `text`, a source whose expansion has these errors, if they say more than those: the source has no operation of the
/// larger language, not more errors than its expansion, and errors only in lines in which that has errors. Fails only if there is not enough
/// memory.
pub fn errors_as_written<A: Allocator + Copy>(
    alloc: A,
    home: &Home<'_, A>,
    text: &[u8],
    refusals: &[Fault],
) -> Result<Option<Vec<Fault, A>>, AllocError>
    ensures own { IfOk result (λ found. IfSome found (λ faults. AreRefusals text.now faults.items)) }
    ensures fewer { IfOk result (λ found. IfSome found (λ faults. length faults.items ≤ length refusals.now)) }
{
    if uses_larger_operation(alloc, text)? {
        return Ok(None);
    }
    let own = refusals_of(alloc, text)?;
    if own.len() > refusals.len() {
        return Ok(None);
    }
    if !are_real(alloc, home, text, own.as_slice(), refusals)? {
        return Ok(None);
    }
    Ok(Some(own))
}
