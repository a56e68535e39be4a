//! Checks a source text.

ghost use Rattle.std.specs.Prelude.{◌≡◌, ◌<◌, ◌∷◌, [], IfOk, length};
ghost use Rattle.a2_syntax.specs.Sources.{IsSourceError};
ghost use Rattle.a2_syntax.specs.declared.fault.Fault.{Fault};
ghost use Rattle.a2_asm.specs.Every.{AreLayoutErrors};
ghost use Rattle.a2_asm.specs.Refusals.{IsLayoutError};
ghost use Rattle.a2_check.specs.Refusals.{AreOfText, AreRefusals, IsVerdict};

use crate::unread::unread;
use a2_asm::{Program, assemble, refusals, refused};
use a2_syntax::{Fault, Source, lines, parse};
use std::alloc::{AllocError, Allocator};

/// The result of checking a source text.
#[derive(Drop)]
pub enum Verdict<A: Allocator> {
    /// The text assembles: its parsed lines and its program.
    Accepted(Source<A>, Program<A>),
    /// The text has these errors, at least one.
    Refused(Vec<Fault, A>),
}

// Returns a list of one error.
fn alone<A: Allocator>(alloc: A, fault: Fault) -> Result<Vec<Fault, A>, AllocError>
    ensures { IfOk result (λ faults. faults.items ≡ fault ∷ []) }
{
    let mut faults = Vec::new(alloc);
    faults.push(fault)?;
    Ok(faults)
}

// Returns the errors of a text that is too large, or has lines that are not in the grammar.
fn of_text<A: Allocator + Copy>(alloc: A, text: &[u8]) -> Result<Vec<Fault, A>, AllocError>
    requires { (fault : Fault) × IsSourceError text.now fault }
    ensures { IfOk result (λ faults. AreOfText text.now faults.items) }
{
    match lines(alloc, text) {
        Ok(texts) => unread(alloc, texts.as_slice()),
        Err(fault) => alone(alloc, refused(fault)?),
    }
}

// Returns the layout errors of lines that do not make a program.
fn of_layout<A: Allocator + Copy>(alloc: A, source: &Source<A>) -> Result<Vec<Fault, A>, AllocError>
    requires { (fault : Fault) × IsLayoutError source.now fault }
    ensures errors { IfOk result (λ faults. AreLayoutErrors source.now faults.items) }
    ensures some { IfOk result (λ faults. 0 < length faults.items) }
{
    refusals(alloc, source)
}

/// Checks a source text, which may contain any bytes. It is accepted exactly if `a2` accepts it. If the text is too large, that
/// is the only error. Otherwise there is an error for each line that is not in the grammar, in order. Otherwise there are the
/// layout errors that can be found at once, with the first error in front. The first error is the one that `a2` reports. Fails
/// only if there is not enough memory. This project's profile.
pub fn verdict_of<A: Allocator + Copy>(alloc: A, text: &[u8]) -> Result<Verdict<A>, AllocError>
    ensures { IfOk result (λ verdict. IsVerdict text.now verdict) }
{
    let source = match parse(alloc, text) {
        Ok(source) => source,
        Err(fault) => {
            refused(fault)?;
            return Ok(Verdict::Refused(of_text(alloc, text)?));
        }
    };
    match assemble(alloc, &source) {
        Ok(program) => Ok(Verdict::Accepted(source, program)),
        Err(fault) => {
            refused(fault)?;
            Ok(Verdict::Refused(of_layout(alloc, &source)?))
        }
    }
}

/// Returns the errors of a source text, which may contain any bytes, as `verdict_of` finds them, or none if it is accepted.
/// Fails only if there is not enough memory. This project's profile.
pub fn refusals_of<A: Allocator + Copy>(alloc: A, text: &[u8]) -> Result<Vec<Fault, A>, AllocError>
    ensures { IfOk result (λ faults. AreRefusals text.now faults.items) }
{
    match verdict_of(alloc, text)? {
        Verdict::Accepted(_, _) => Ok(Vec::new(alloc)),
        Verdict::Refused(faults) => Ok(faults),
    }
}
