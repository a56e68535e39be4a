//! The files that `run` saves.

ghost use Rattle.std.specs.Prelude.{IfOk};
ghost use Rattle.a2_stream.specs.Stream.{Sends};
ghost use Rattle.a2_bus.specs.View.{memory_of};
ghost use Rattle.a2_memory.specs.Texts.{ram_lines};
ghost use Rattle.a2_picture.specs.Png.{png};
ghost use Rattle.a2lab_reports.specs.Saved.{SavesMemory, SavesPicture};

use a2_hex::write_lines;
use a2_host::Desk;
use a2_machine::Machine;
use a2_memory::image_of;
use a2_picture::put_png;
use a2_run::RunFault;
use a2_stream::Output;
use a2lab_commands::settled;
use std::alloc::Global;

// Writes the object lines of all of a machine's RAM.
fn put_image<W: Output>(alloc: Global, machine: &Machine, writer: &mut W) -> Result<(), RunFault>
    ensures { IfOk result (λ _. Sends (W.taker writer.old) (W.taker writer.new) (ram_lines (memory_of machine.now.state.bus))) }
{
    let lines = image_of(alloc, machine)?;
    write_lines(&lines, writer)?;
    Ok(())
}

/// Writes the object lines of all of a machine's RAM to the file `image`, which is replaced whole or not at all. Fails if a write fails or
/// there is no memory.
pub fn machine_into<D: Desk>(
    alloc: Global,
    machine: &Machine,
    image: &str,
    desk: &mut D,
) -> Result<(), RunFault>
    ensures { SavesMemory (memory_of machine.now.state.bus) image.now (D.files desk.old) (D.files desk.new) result }
{
    let mut draft = desk.begin(image)?;
    let answer = put_image(alloc, machine, &mut draft);
    settled(image, draft, answer, desk)
}

// Writes what a machine's screen shows as a PNG file.
fn put_picture<W: Output>(machine: &Machine, writer: &mut W) -> Result<(), RunFault>
    ensures { IfOk result (λ _. Sends (W.taker writer.old) (W.taker writer.new)
        (png machine.now.state.bus.bytes machine.now.state.bus.devices.switches)) }
{
    let space = machine.space();
    put_png(space.ram(), space.view().switches, writer)?;
    Ok(())
}

/// Writes what a machine's screen shows to the PNG file `picture`, which is replaced whole or not at all. Fails if a write fails.
pub fn picture_into<D: Desk>(machine: &Machine, picture: &str, desk: &mut D) -> Result<(), RunFault>
    ensures { SavesPicture machine.now.state.bus picture.now (D.files desk.old) (D.files desk.new) result }
{
    let mut draft = desk.begin(picture)?;
    let answer = put_picture(machine, &mut draft);
    settled(picture, draft, answer, desk)
}
