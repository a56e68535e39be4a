//! The command `expand`.

ghost use Rattle.std.specs.Prelude.{◌≡◌, IfOk};

use a2_expand::Origin;
use a2_host::Shelf;
use a2_stream::{Input, Output, WriteFault, put, put_all};
use a2_text::{cut, decimal};
use a2lab_commands::options::LINES;
use a2lab_commands::{CommandArgs, Expanded, Expansion, Host, Refusal, expansion_of, text_of};
use std::alloc::Global;

// Prints a line after the line of the source that it comes from. `+` is before the number if the line is in a macro.
fn put_placed<W: Output>(line: &[u8], at: &Origin, output: &mut W) -> Result<(), WriteFault> {
    let number = decimal(at.line as u64);
    let file = decimal(at.file as u64);
    if at.file > 0 {
        put_all(&[file.as_slice(), b":"], output)?;
    }
    if at.call > 0 {
        put(b"+", output)?;
    }
    put_all(&[number.as_slice(), b"\t", line, b"\n"], output)
}

// Prints the lines of an expansion, each after the line of the source that it comes from.
fn put_lines<'a, W: Output>(
    alloc: Global,
    made: &Expanded,
    output: &mut W,
) -> Result<(), Refusal<'a>> {
    let lines = cut(alloc, made.text.as_slice())?;
    for (line, at) in lines.iter().zip(made.origins.iter()) {
        put_placed(*line, at, output)?;
    }
    Ok(())
}

// Prints an expansion and its warnings; with `placed`, each line after the line of the source that it comes from.
fn put_expansion<'a, S, D, C, R, W: Output, E: Output>(
    placed: bool,
    made: &Expanded,
    host: &mut Host<S, D, C, R, W, E>,
) -> Result<u8, Refusal<'a>>
    ensures { IfOk result (λ status. status ≡ 0) }
{
    // If this fails, there is no place left to report it.
    let _ = put(made.warnings.as_slice(), &mut host.complaints);
    if placed {
        put_lines(host.alloc, made, &mut host.output)?;
    } else {
        put(made.text.as_slice(), &mut host.output)?;
    }
    Ok(0)
}

/// Prints the plain text of a source. If it cannot be expanded, the reason is reported, and the exit status is 1; it is 4 if a read or a
/// write fails, and 5 if there is no memory.
#[inline(never)]
pub fn expand_of<'a, S: Shelf, D, C, R: Input, W: Output, E: Output>(
    given: &CommandArgs<'_, 'a>,
    host: &mut Host<S, D, C, R, W, E>,
) -> Result<u8, Refusal<'a>>
    ensures { IfOk result (λ status. status ≡ 0) }
{
    let file = given.arguments.file();
    let text = text_of(host.alloc, file, &mut host.shelf, &mut host.input)?;
    match expansion_of(host.alloc, file, text.as_slice(), &mut host.shelf)? {
        Expansion::Done(made) => put_expansion(given.arguments.has(&LINES), &made, host),
        Expansion::Failed(why) => {
            // If this fails, there is no place left to report it.
            let _ = put(why.message.as_slice(), &mut host.complaints);
            Err(Refusal::Reported)
        }
    }
}
