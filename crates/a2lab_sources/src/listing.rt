//! The command `list`.

ghost use Rattle.std.specs.Prelude.{◌≡◌, codes, IfOk};
ghost use Rattle.a2_arguments.specs.Found.{found_of, is_given};

use a2_arguments::Arguments;
use a2_host::Shelf;
use a2_list::{Shown, list_source};
use a2_stream::{Input, Output};
use a2lab_commands::options::{CYCLES, NAMES};
use a2lab_commands::{CommandArgs, Host, Refusal, assembled_text, expanded_text_of};

// Returns what a listing shows.
fn shown_by(arguments: &Arguments<'_>) -> Shown
    ensures cycles { result.cycles ≡ is_given (codes "--cycles") (found_of arguments.now) }
    ensures uses { result.uses ≡ is_given (codes "--names") (found_of arguments.now) }
{
    Shown {
        cycles: arguments.has(&CYCLES),
        uses: arguments.has(&NAMES),
    }
}

/// Prints the listing of a source. If the source has errors, they are reported as `check` does. The exit status is 1 then, 4 if a write
/// fails, and 5 if there is no memory.
#[inline(never)]
pub fn list_of<'a, S: Shelf, D, C, R: Input, W: Output, E: Output>(
    given: &CommandArgs<'_, 'a>,
    host: &mut Host<S, D, C, R, W, E>,
) -> Result<u8, Refusal<'a>>
    ensures { IfOk result (λ status. status ≡ 0) }
{
    let file = given.arguments.file();
    let text = expanded_text_of(
        host.alloc,
        file,
        &mut host.shelf,
        &mut host.input,
        &mut host.complaints,
    )?;
    let assembled = assembled_text(host.alloc, file, text.as_slice(), &mut host.complaints)?;
    list_source(
        host.alloc,
        &assembled,
        shown_by(given.arguments),
        &mut host.output,
    )?;
    Ok(0)
}
