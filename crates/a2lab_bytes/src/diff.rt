//! The command `diff`: where two images differ.

ghost use Rattle.std.specs.Prelude.{◌≤◌, IfOk};
ghost use Rattle.a2_hex.specs.Images.{held};
ghost use Rattle.a2lab_bytes.specs.Shown.{ShowsDifferences};

use crate::loaded::{form_of_option, loaded_image};
use a2_diff::{compare, text_of};
use a2_formats::is_same;
use a2_hex::Image;
use a2_host::Shelf;
use a2_run::RunFault;
use a2_stream::{Input, Output, put};
use a2lab_commands::{CommandArgs, Host, Refusal};
use std::alloc::Global;

// What is reported of images that have the same instructions at other addresses.
const MOVED: &[u8] = b"a2lab: diff: the instructions are the same, but at other addresses\n";

/// Writes where two images differ, and returns whether they do. If they have the same bytes, nothing is written. If only addresses differ,
/// that is reported on `complaints`. Fails without writing if memory runs out, and if a write fails.
pub fn show_differences<W: Output, E: Output>(
    alloc: Global,
    image: &Image,
    other: &Image,
    output: &mut W,
    complaints: &mut E,
) -> Result<bool, RunFault>
    ensures { IfOk result (λ differ. ShowsDifferences (held image.now) (held other.now) (W.taker output.old) (W.taker output.new) differ) }
{
    if is_same(image, other) {
        return Ok(false);
    }
    let changes = compare(alloc, image, other)?;
    let text = text_of(alloc, changes.as_slice())?;
    put(text.as_slice(), output)?;
    if text.is_empty() {
        // If this fails, there is no place left to report it.
        let _ = put(MOVED, complaints);
    }
    Ok(true)
}

/// Writes where the images of two files differ, with the instructions of both. The exit status is 0 if the images are the same, and 1 if they
/// differ or if a file has an error.
#[inline(never)]
pub fn diff_of<'a, S: Shelf, D, C, R: Input, W: Output, E: Output>(
    given: &CommandArgs<'_, 'a>,
    host: &mut Host<S, D, C, R, W, E>,
) -> Result<u8, Refusal<'a>>
    ensures { IfOk result (λ status. status ≤ 1) }
{
    let form = form_of_option(given)?;
    let [first, second] = given.arguments.files.as_slice() else {
        return Ok(0);
    };
    let image = loaded_image(given, Some(*first), form, host)?;
    let other = loaded_image(given, Some(*second), form, host)?;
    let differ = show_differences(
        host.alloc,
        &image,
        &other,
        &mut host.output,
        &mut host.complaints,
    )?;
    Ok(if differ { 1 } else { 0 })
}
