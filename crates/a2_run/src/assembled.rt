//! A source text that is assembled.

ghost use Rattle.std.specs.Prelude.{◌≡◌, IfOk, IfErr};
ghost use Rattle.a2_syntax.specs.Sources.{IsSource};
ghost use Rattle.a2_run.specs.Meaning.{IsProgramOf};
ghost use Rattle.a2_run.specs.Started.{RefusesText, source_fault};

use crate::RunFault;
use a2_asm::{Program, assemble};
use a2_syntax::{Fault, Source, parse};
use std::alloc::{Allocator, Global};
use std::marker::Model;

/// A source text that is assembled, with its parsed lines and its program. A text is assembled once, and everything that needs its
/// lines or its program takes this value. Contracts see the three.
pub struct AssembledText<'a, A: Allocator = Global> {
    text: &'a [u8],
    source: Source<A>,
    program: Program<A>,
}

impl<'a, A: Allocator> Model for AssembledText<'a, A> {
    ghost use Rattle.a2_run.specs.AssembledTexts.{Assembly, IsAssembly};

    ghost Value = { Assembly };

    ghost view = { λ a. record { text = a.text.now; source = a.source; program = a.program } };

    ghost invariant = { λ a. IsAssembly (record { text = a.text.now; source = a.source; program = a.program }) };
}

// Not derived, for the prover alone: it follows this as one call, and a derived one field by field.
impl<'a, A: Allocator> Drop for AssembledText<'a, A> {
    fn drop(self) {
        let AssembledText {
            text: _,
            source: _,
            program: _,
        } = self;
    }
}

// Returns the fault of a run for a fault of its source: lack of memory is a fault of its own.
fn refusal(fault: Fault) -> RunFault
    ensures { result ≡ source_fault fault }
{
    match fault {
        Fault::Memory => RunFault::Memory,
        fault => RunFault::Source(fault),
    }
}

impl<'a, A: Allocator + Copy> AssembledText<'a, A> {
    /// Assembles `text`. Fails with the first error of the text, or if there is not enough memory.
    pub fn of(alloc: A, text: &'a [u8]) -> Result<AssembledText<'a, A>, RunFault>
        ensures text { IfOk result (λ assembled. assembled.text ≡ text.now) }
        ensures made { IfOk result (λ assembled. IsProgramOf text.now assembled.program) }
        ensures refused { IfErr result (λ fault. RefusesText text.now fault) }
    {
        let source = match parse(alloc, text) {
            Ok(source) => source,
            Err(fault) => return Err(refusal(fault)),
        };
        match assemble(alloc, &source) {
            Ok(program) => Ok(AssembledText {
                text,
                source,
                program,
            }),
            Err(fault) => Err(refusal(fault)),
        }
    }
}

impl<'a, A: Allocator + Copy> AssembledText<'a, A> {
    /// Returns the text.
    pub fn text(&self) -> &'a [u8]
        ensures { result.now ≡ self.now.text }
    {
        self.text
    }

    /// Returns the parsed lines of the text, one for each line.
    pub fn source(&self) -> &Source<A>
        ensures is { result.now ≡ self.now.source }
        ensures of_text { IsSource self.now.text result.now }
    {
        &self.source
    }

    /// Returns the program of the text.
    pub fn program(&self) -> &Program<A>
        ensures is { result.now ≡ self.now.program }
        ensures of_text { IsProgramOf self.now.text result.now }
    {
        &self.program
    }

    /// Returns the program of the text, without the text's lines.
    pub fn into_program(self) -> Program<A>
        ensures is { result ≡ self.entry.program }
        ensures of_text { IsProgramOf self.entry.text result }
    {
        let AssembledText {
            text: _,
            source: _,
            program,
        } = self;
        program
    }
}
