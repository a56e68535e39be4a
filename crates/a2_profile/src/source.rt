//! The profile of a source.

ghost use Rattle.std.specs.Prelude.{◌≡◌, map};
ghost use Rattle.a2_stream.specs.Stream.{SendsOrBreaks};
ghost use Rattle.a2_profile.specs.Texts.{IsFaultOf, IsProfileOf, IsRoutineProfileOf, ProfileAnswers, profile_text, routines_text};

use crate::{
    Profile, RoutineProfile, Runs, profile_routine_runs, profile_runs, write_callgrind, write_json,
    write_profile, write_routine_callgrind, write_routine_json, write_routines,
};
use a2_asm::Program;
use a2_machine::Cause;
use a2_run::AssembledText;
use a2_stream::{Output, WriteFault};
use a2_text::cut;
use a2_timed_keys::TypedFault;
use std::alloc::{AllocError, Allocator};

/// The format of a profile.
#[derive(Clone, Copy, Debug, PartialEq, Eq)]
pub enum Format {
    /// A table, as from [`write_profile`] and [`write_routines`].
    Text,
    /// A JSON object, as from [`write_json`] and [`write_routine_json`].
    Json,
    /// A file for Callgrind's readers, as from [`write_callgrind`] and [`write_routine_callgrind`].
    Callgrind,
}

/// Why the profile of a source was not written.
#[derive(Clone, Copy)]
pub enum ProfileFault {
    /// One of the runs has no end, or there was not enough memory.
    Run(TypedFault),
    /// A write failed.
    Write,
}

impl From<TypedFault> for ProfileFault {
    ghost use Rattle.a2_profile.specs.declared.source.ProfileFault.TheVariants.{Run};

    ghost from_gives = { λ fault e. e ≡ Run fault };

    fn from(fault: TypedFault) -> ProfileFault {
        ProfileFault::Run(fault)
    }
}

impl From<AllocError> for ProfileFault {
    ghost use Rattle.a2_profile.specs.declared.source.ProfileFault.TheVariants.{Run};
    ghost use Rattle.a2_timed_keys.specs.declared.run.TypedFault.TheVariants.{Memory};

    ghost from_gives = { λ _ e. e ≡ Run Memory };

    fn from(_error: AllocError) -> ProfileFault {
        ProfileFault::Run(TypedFault::Memory)
    }
}

impl From<WriteFault> for ProfileFault {
    ghost use Rattle.a2_profile.specs.declared.source.ProfileFault.TheVariants.{Write};

    ghost from_gives = { λ _ e. e ≡ Write };

    fn from(_fault: WriteFault) -> ProfileFault {
        ProfileFault::Write
    }
}

/// How a profile is written.
#[derive(Clone, Copy)]
pub struct Style<'a> {
    /// What the source is called, in a file for Callgrind's readers.
    pub name: &'a [u8],
    pub format: Format,
}

// Writes a profile in a format.
fn put_profile<A: Allocator + Copy, B: Allocator + Copy, W: Output>(
    format: Format,
    name: &[u8],
    program: &Program<B>,
    texts: &[&[u8]],
    profile: &Profile<A>,
    causes: &[Cause],
    writer: &mut W,
) -> Result<(), WriteFault>
    ensures { SendsOrBreaks (W.taker writer.old) (W.taker writer.new) result
        (profile_text format name.now program.now (map (λ x. x.now) texts.now) profile.now causes.now) }
{
    match format {
        Format::Text => write_profile(program, texts, profile, writer),
        Format::Json => write_json(program, texts, profile, causes, writer),
        Format::Callgrind => write_callgrind(name, program, texts, profile, writer),
    }
}

// Writes a profile by routine in a format.
fn put_routines<A: Allocator + Copy, B: Allocator + Copy, W: Output>(
    format: Format,
    name: &[u8],
    program: &Program<B>,
    profile: &RoutineProfile<A>,
    causes: &[Cause],
    writer: &mut W,
) -> Result<(), WriteFault>
    ensures { SendsOrBreaks (W.taker writer.old) (W.taker writer.new) result
        (routines_text format name.now program.now profile.now causes.now) }
{
    match format {
        Format::Text => write_routines(program, profile, writer),
        Format::Json => write_routine_json(program, profile, causes, writer),
        Format::Callgrind => write_routine_callgrind(name, program, profile, writer),
    }
}

/// Runs a source once for each item of `runs.keys`, each time from the start, and writes its profile over all these runs in this
/// style. Returns the causes of the ends, in the order of the runs; [`first_stop`](crate::first_stop) chooses one of them. Fails if
/// after some steps of a run more than 4,096 keys would wait, if a write fails, or if there is not enough memory. This project's
/// profile.
pub fn profile_source<A: Allocator + Copy, W: Output>(
    alloc: A,
    assembled: &AssembledText<'_, A>,
    runs: Runs<'_, A>,
    style: Style<'_>,
    writer: &mut W,
) -> Result<Vec<Cause, A>, ProfileFault>
    ensures { ProfileAnswers (IsFaultOf assembled.now.text runs.entry.keys.now runs.entry.strokes.now runs.entry.limit runs.entry.free)
        (λ causes. IsProfileOf style.entry.format style.entry.name.now assembled.now.text runs.entry.keys.now runs.entry.strokes.now
        runs.entry.limit runs.entry.free causes.items)
        (W.taker writer.old) (W.taker writer.new) result }
{
    let program = assembled.program();
    let texts = cut(alloc, assembled.text())?;
    let (profile, causes) = profile_runs(alloc, program, runs)?;
    let (lines, ends) = (texts.as_slice(), causes.as_slice());
    put_profile(
        style.format,
        style.name,
        program,
        lines,
        &profile,
        ends,
        writer,
    )?;
    Ok(causes)
}

/// Runs a source once for each item of `runs.keys`, each time from the start, and writes its profile by routine over all these runs
/// in this style. Returns the causes of the ends, in the order of the runs; [`first_stop`](crate::first_stop) chooses one of them.
/// Fails as [`profile_source`] does. This project's profile.
pub fn profile_source_routines<A: Allocator + Copy, W: Output>(
    alloc: A,
    assembled: &AssembledText<'_, A>,
    runs: Runs<'_, A>,
    style: Style<'_>,
    writer: &mut W,
) -> Result<Vec<Cause, A>, ProfileFault>
    ensures { ProfileAnswers (IsFaultOf assembled.now.text runs.entry.keys.now runs.entry.strokes.now runs.entry.limit runs.entry.free)
        (λ causes. IsRoutineProfileOf style.entry.format style.entry.name.now assembled.now.text runs.entry.keys.now runs.entry.strokes.now
        runs.entry.limit runs.entry.free causes.items)
        (W.taker writer.old) (W.taker writer.new) result }
{
    let program = assembled.program();
    let (profile, causes) = profile_routine_runs(alloc, program, runs)?;
    put_routines(
        style.format,
        style.name,
        program,
        &profile,
        causes.as_slice(),
        writer,
    )?;
    Ok(causes)
}
