//! The film of a run.

ghost use Rattle.std.specs.Prelude.{◌≡◌, ◌<◌, ◌≤◌, ◌++◌, ℕ, length, false, is_some, map, IfOk, Some, slice_index};
ghost use Rattle.std.specs.List.{flat_map};
ghost use Rattle.arrayvec.specs.ArrayVec.{array_vec_len};
ghost use Rattle.a2_stream.specs.Stream.{SendsOrBreaks};
ghost use Rattle.a2_bus.specs.Memory.{ram_end};
ghost use Rattle.a2_machine.specs.ByteRun.{bytes};
ghost use Rattle.a2_machine.specs.Output as output;
ghost use Rattle.a2_machine.specs.State.{world_of_state};
ghost use Rattle.a2_services.specs.Services.{service_at as service_at_of};
ghost use Rattle.a2_run.specs.Answers.{Answers, is_read_fault};
ghost use Rattle.a2_run.specs.Started.{guard_of_run};
ghost use Rattle.a2_film.specs.Page as page;
ghost use Rattle.a2_film.specs.Film.{IsFilmFrom, IsFilmOf};
ghost use Rattle.a2_film.specs.Filmed.{most_kept, seen_by, seen_of, FilmsStep, HandsOn, IsFilm};
ghost use Rattle.a2_film.specs.Rows as spelt;
ghost use Rattle.a2_film.specs.Runs.{lines_of};

use crate::chapters::Chapter;
use crate::head::{put_chapters, put_opening, put_program, put_start};
use crate::kept::{append_changes, keep_low, low_end};
use crate::page::{head, tail};
use crate::rows::{MOST_KEPT, Moment, Rows, append_listed, begin_row};
use crate::steps::{Again, Steps};
use crate::stores::stores_at_pc;
use a2_asm::Program;
use a2_hex::RAM_END;
use a2_machine::{Cause, Machine, write_cause};
use a2_run::{AssembledText, RunFault};
use a2_services::{Service, service_at};
use a2_stream::{Output, WriteFault, put};
use a2_text::cut;
use a2_timed_keys::Ended;
use std::alloc::{AllocError, Allocator, Global};

/// The part of a run that a film shows.
#[derive(Clone, Copy, Drop)]
pub struct Window {
    /// After how many steps of the run it begins. A run that ends before that is shown at its end.
    pub from: u32,
    /// How many steps it has at most.
    pub steps: u32,
}

/// The texts of a film besides its run.
#[derive(Clone, Copy)]
pub struct Titles<'a> {
    /// The title of the page: any bytes.
    pub title: &'a [u8],
    /// What the page says along the way, in any order.
    pub chapters: &'a [Chapter<'a>],
}

/// A finished run of which a film shows a part.
#[derive(Clone, Copy)]
pub struct FilmedRun<'e, 'a, A: Allocator = Global> {
    pub ended: &'e Ended<'a, A>,
    pub window: Window,
}

/// A run that is filmed from where a machine is.
#[derive(Drop)]
pub struct Reel<A: Allocator = Global> {
    pub machine: Machine<A>,
    /// The most steps of the film, 0 to 2^32 - 1.
    pub limit: u32,
    /// Runs without the guard of the program's code, whatever the machine's guard was.
    pub free: bool,
}

// What a film shows before its rows, besides where it begins.
#[derive(Clone, Copy)]
struct Front<'t, 's, 'p, A: Allocator> {
    titles: Titles<'t>,
    text: &'s [u8],
    free: bool,
    program: &'p Program<A>,
}

// Calls a service and appends its row. Returns whether the run was not at its end.
fn film_call<A: Allocator + Copy, S: Steps<A>>(
    service: Service,
    steps: &mut S,
    seen: &mut Moment,
    ram: &mut [u8],
    rows: &mut Rows,
) -> bool
    requires size { length ram.old ≡ ram_end }
    requires service { Some service ≡ service_at_of (S.world steps.old).registers.pc }
    requires seen { seen_by seen.old ≡ seen_of (S.world steps.old) }
    requires room { array_vec_len rows.old ≤ most_kept }
    ensures step { FilmsStep (S.rest steps.old) (S.rest steps.new) rows.old.items rows.new.items result }
    ensures seen { seen_by seen.new ≡ seen_of (S.world steps.new) }
    ensures size { length ram.new ≡ ram_end }
{
    let before = steps.machine();
    // For the prover alone: all of RAM is there.
    let _ = before.peek(0);
    let end = low_end(service);
    keep_low(end, before, ram);
    let page1 = *before.view().page1;
    let Some(typed) = steps.step() else {
        return false;
    };
    let after = steps.machine();
    begin_row(rows, seen, typed, after);
    append_changes(rows, end, ram, &page1, after);
    rows.push(b'\n');
    true
}

// Executes an instruction and appends its row. Returns whether the run was not at its end.
fn film_instruction<A: Allocator + Copy, S: Steps<A>>(
    steps: &mut S,
    seen: &mut Moment,
    rows: &mut Rows,
) -> bool
    requires instruction { is_some (service_at_of (S.world steps.old).registers.pc) ≡ false }
    requires seen { seen_by seen.old ≡ seen_of (S.world steps.old) }
    requires room { array_vec_len rows.old ≤ most_kept }
    ensures step { FilmsStep (S.rest steps.old) (S.rest steps.new) rows.old.items rows.new.items result }
    ensures seen { seen_by seen.new ≡ seen_of (S.world steps.new) }
{
    let before = steps.machine();
    // For the prover alone: all of RAM is there.
    let _ = before.peek(0);
    let addresses = stores_at_pc(before);
    let Some(typed) = steps.step() else {
        return false;
    };
    let after = steps.machine();
    begin_row(rows, seen, typed, after);
    append_listed(rows, addresses.as_slice(), after);
    rows.push(b'\n');
    true
}

// Executes a step and appends its row. Returns whether the run was not at its end. `seen` is the moment before the next step.
fn film_step<A: Allocator + Copy, S: Steps<A>>(
    steps: &mut S,
    seen: &mut Moment,
    ram: &mut [u8],
    rows: &mut Rows,
) -> bool
    requires size { length ram.old ≡ ram_end }
    requires seen { seen_by seen.old ≡ seen_of (S.world steps.old) }
    requires room { array_vec_len rows.old ≤ most_kept }
    ensures step { FilmsStep (S.rest steps.old) (S.rest steps.new) rows.old.items rows.new.items result }
    ensures seen { seen_by seen.new ≡ seen_of (S.world steps.new) }
    ensures size { length ram.new ≡ ram_end }
{
    match service_at(steps.machine().regs().pc) {
        Some(service) => film_call(service, steps, seen, ram, rows),
        None => film_instruction(steps, seen, rows),
    }
}

// Writes the rows if there is no room for another.
fn put_many<W: Output>(rows: &mut Rows, writer: &mut W) -> Result<(), WriteFault>
    ensures rows { HandsOn (W.taker writer.old) (W.taker writer.new) rows.old.items rows.new.items result }
    ensures room { IfOk result (λ _. array_vec_len rows.new ≤ most_kept) }
{
    if rows.len() > MOST_KEPT {
        put(rows.as_slice(), writer)?;
        rows.clear();
    }
    Ok(())
}

// Writes the rows that are left and the cause line. Returns the cause.
#[tactic(auto, using(a2_stream::proofs::Joined::broke_off, a2_stream::proofs::Joined::went_on))]
fn put_end<W: Output>(rows: &Rows, cause: Cause, writer: &mut W) -> Result<Cause, WriteFault>
    ensures lines { SendsOrBreaks (W.taker writer.old) (W.taker writer.new) result (rows.now.items ++ output.cause_line cause) }
    ensures cause { IfOk result (λ told. told ≡ cause) }
{
    put(rows.as_slice(), writer)?;
    write_cause(cause, writer)?;
    Ok(cause)
}

// Executes at most so many steps of a run, and writes a row for each; then writes the cause line.
fn film_steps<A: Allocator + Copy, S: Steps<A>, W: Output>(
    steps: &mut S,
    ram: &mut [u8],
    limit: u32,
    writer: &mut W,
) -> Result<Cause, WriteFault>
    requires size { length ram.old ≡ ram_end }
    ensures lines { SendsOrBreaks (W.taker writer.old) (W.taker writer.new) result (lines_of (S.rest steps.old limit)) }
    ensures cause { IfOk result (λ cause. cause ≡ (S.rest steps.old limit).cause) }
{
    let mut seen = Moment::of(steps.machine());
    let mut rows = Rows::new();
    for _ in 0..limit {
        if !film_step(steps, &mut seen, ram, &mut rows) {
            return put_end(&rows, steps.cause(), writer);
        }
        put_many(&mut rows, writer)?;
    }
    put_end(&rows, steps.cause(), writer)
}

// Returns RAM that is 0 everywhere.
#[tactic(auto, using(crate::proofs::Parts::zeros_anywhere))]
fn blank_ram<A: Allocator + Copy>(alloc: A, size: usize) -> Result<Vec<u8, A>, AllocError>
    ensures size { IfOk result (λ ram. length ram.items ≡ size) }
    ensures zeros { IfOk result (λ ram. (a : ℕ) → slice_index ram.items a ≡ 0) }
{
    vec![in alloc; 0; size]
}

// Writes the page up to the rows: `ram` is 0 everywhere.
#[tactic(auto, using(a2_stream::proofs::Joined::broke_off, a2_stream::proofs::Joined::went_on))]
fn put_head<A: Allocator + Copy, W: Output>(
    titles: Titles<'_>,
    texts: &[&[u8]],
    free: bool,
    program: &Program<A>,
    ram: &[u8],
    machine: &Machine<A>,
    writer: &mut W,
) -> Result<(), WriteFault>
    requires size { length ram.now ≡ ram_end }
    requires zeros { (a : ℕ) → slice_index ram.now a ≡ 0 }
    ensures { SendsOrBreaks (W.taker writer.old) (W.taker writer.new) result
        (page.head ++ (spelt.opening titles.entry.title.now free machine.now.state.bus.devices.keys
        ++ (flat_map spelt.chapter_line titles.entry.chapters.now
        ++ (spelt.program_lines program.now (map (λ x. x.now) texts.now)
        ++ spelt.start_lines machine.now.state.steps (world_of_state machine.now.state))))) }
{
    put(head(), writer)?;
    put_opening(titles.title, free, machine.space().waiting(), writer)?;
    put_chapters(titles.chapters, writer)?;
    put_program(program, texts, writer)?;
    put_start(ram, machine, writer)
}

// Executes at most so many steps of a run, and writes the rows and the end of the page.
#[tactic(auto, using(a2_stream::proofs::Joined::broke_off, a2_stream::proofs::Joined::went_on))]
fn film_rest<A: Allocator + Copy, S: Steps<A>, W: Output>(
    steps: &mut S,
    ram: &mut [u8],
    limit: u32,
    writer: &mut W,
) -> Result<Cause, WriteFault>
    requires size { length ram.old ≡ ram_end }
    ensures lines { SendsOrBreaks (W.taker writer.old) (W.taker writer.new) result
        (lines_of (S.rest steps.old limit) ++ page.tail) }
    ensures cause { IfOk result (λ cause. cause ≡ (S.rest steps.old limit).cause) }
{
    let cause = film_steps(steps, ram, limit, writer)?;
    put(tail(), writer)?;
    Ok(cause)
}

// Writes the film of at most so many steps of a run.
fn film_on<A: Allocator + Copy, S: Steps<A>, W: Output>(
    alloc: A,
    front: Front<'_, '_, '_, A>,
    steps: &mut S,
    limit: u32,
    writer: &mut W,
) -> Result<Cause, RunFault>
    ensures meaning { Answers (λ _. ⊥) (IsFilm front.entry.text.now front.entry.titles.title.now front.entry.titles.chapters.now
        front.entry.free front.entry.program.now (S.made steps.old) (S.world steps.old) (S.rest steps.old limit))
        (W.taker writer.old) (W.taker writer.new) result }
    ensures no_reader { is_read_fault result ≡ false }
    // For the prover alone: a caller has the number in a field, whose range is not known there.
    ensures range { limit < 4_294_967_296 }
{
    let texts = cut(alloc, front.text)?;
    let mut ram = blank_ram(alloc, usize::from(RAM_END))?;
    put_head(
        front.titles,
        texts.as_slice(),
        front.free,
        front.program,
        &ram,
        steps.machine(),
        writer,
    )?;
    let cause = film_rest(steps, &mut ram, limit, writer)?;
    Ok(cause)
}

// Guards a machine by a program, or frees it.
fn guard_by<A: Allocator + Copy>(machine: &mut Machine<A>, program: &Program<A>, free: bool)
    ensures { machine.new ≡ (let s = machine.old.state in
        record machine.old { state = record s { guard = guard_of_run free program.now } }) }
{
    if free {
        machine.free();
    } else {
        machine.guard(program);
    }
}

/// Writes the film of a run of an assembled text from where a machine is: one page of HTML that shows it forwards and backwards, with
/// the lines of the text. The run is guarded by the text's program, or `free`. Rows are written as the run goes, and nothing of it is
/// kept. Returns the cause of the run's end, and `Cause::Limit` if the steps end before. Fails if a write fails, or if there is not
/// enough memory. This project's profile.
pub fn film_run<A: Allocator + Copy, W: Output>(
    alloc: A,
    assembled: &AssembledText<'_, A>,
    titles: Titles<'_>,
    reel: Reel<A>,
    writer: &mut W,
) -> Result<Cause, RunFault>
    // A machine executes at most 1,000,000,000,000 steps from its start.
    requires { reel.machine.state.steps < 4_294_967_296 }
    ensures meaning { Answers (λ _. ⊥) (IsFilmFrom assembled.now.text titles.entry.title.now titles.entry.chapters.now reel.free
        assembled.now.program (bytes (guard_of_run reel.free assembled.now.program)) reel.machine.state.steps
        (world_of_state reel.machine.state) reel.limit)
        (W.taker writer.old) (W.taker writer.new) result }
    ensures no_reader { is_read_fault result ≡ false }
{
    let Reel {
        mut machine,
        limit,
        free,
    } = reel;
    let program = assembled.program();
    guard_by(&mut machine, program, free);
    let front = Front {
        titles,
        text: assembled.text(),
        free,
        program,
    };
    film_on(alloc, front, &mut machine, limit, writer)
}

/// Writes the film of a window of a finished run, as [`film_run`] does, with the lines of an assembled text: the one whose program ran. A
/// window that begins after the run's end shows its end. Returns the cause of the run's end, and `Cause::Limit` if the window ends
/// before the run. Fails if a write fails, or if there is not enough memory. This project's profile.
pub fn film_source<A: Allocator + Copy, W: Output>(
    alloc: A,
    assembled: &AssembledText<'_, A>,
    titles: Titles<'_>,
    run: FilmedRun<'_, '_, A>,
    writer: &mut W,
) -> Result<Cause, RunFault>
    ensures meaning { Answers (λ _. ⊥) (IsFilmOf assembled.now.text titles.entry.title.now titles.entry.chapters.now
        run.entry.ended.now run.entry.window) (W.taker writer.old) (W.taker writer.new) result }
    ensures no_reader { is_read_fault result ≡ false }
{
    let FilmedRun { ended, window } = run;
    let mut again = Again::of(alloc, ended, window.from)?;
    let front = Front {
        titles,
        text: assembled.text(),
        free: ended.is_free(),
        program: ended.program(),
    };
    film_on(alloc, front, &mut again, window.steps, writer)
}
