//! LineAnswerer a script of debugger lines for a source.

ghost use Rattle.std.specs.Prelude.{◌≡◌, false, IfOk};
ghost use Rattle.a2_debug_script.specs.Stored.{debugger_at_start};
ghost use Rattle.a2_run.specs.Answers.{Answers, is_read_fault};
ghost use Rattle.a2_scripts.specs.DebugScripts.{IsDebugError, IsDebugText};

use crate::answering::{LineAnswerer, answer_all};
use crate::scripts::refusal;
use a2_asm::Program;
use a2_debug_script::{DebugFault, Debugger};
use a2_machine::Machine;
use a2_run::{RunFault, program_of};
use a2_stream::{Output, WriteFault, put_all};
use a2_syntax::lines;
use std::alloc::{AllocError, Allocator};

impl<A: Allocator + Copy> LineAnswerer for Debugger<A> {
    ghost use Rattle.a2_debug_script.specs.Stored.{Stored, NoneAbove};
    ghost use Rattle.a2_scripts.specs.DebugScripts.{Meets};

    ghost State = { Stored };

    ghost state = { λ debugger. debugger };

    ghost meets = { Meets };

    // No key was typed at a later count.
    ghost Holds = { λ debugger. NoneAbove debugger.count debugger.log };

    fn answer<W: Output>(&mut self, line: &[u8], writer: &mut W) -> Result<(), WriteFault> {
        let Err(fault) = self.line(line, writer) else {
            return Ok(());
        };
        match fault {
            DebugFault::Write => Err(WriteFault),
            _ => put_all(&[fault.text().as_bytes(), b"\n"], writer),
        }
    }
}

// Returns a debugger of the program, at its start.
fn opened<A: Allocator + Copy>(alloc: A, program: Program<A>) -> Result<Debugger<A>, AllocError>
    ensures { IfOk result (λ debugger. debugger ≡ debugger_at_start program 0) }
{
    let machine = Machine::new(alloc)?;
    Debugger::new(alloc, machine, program).map_err(|_| AllocError)
}

/// Debugs the program of a source with the lines of a script.
pub fn debug_script<A: Allocator + Copy, W: Output>(
    alloc: A,
    source: &[u8],
    script: &[u8],
    writer: &mut W,
) -> Result<(), RunFault>
    ensures meaning { Answers (IsDebugError source.now script.now) (λ _. IsDebugText source.now script.now) (W.taker writer.old)
        (W.taker writer.new) result }
    ensures no_reader { is_read_fault result ≡ false }
{
    let program = program_of(alloc, source)?;
    let lines = match lines(alloc, script) {
        Ok(lines) => lines,
        Err(fault) => return Err(refusal(fault)),
    };
    let mut debugger = opened(alloc, program)?;
    answer_all(&mut debugger, b">", lines.as_slice(), writer)?;
    Ok(())
}
