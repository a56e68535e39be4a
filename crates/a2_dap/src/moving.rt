//! Moves of a run, forwards and backwards.

ghost use Rattle.std.specs.Prelude.{◌≡◌};
ghost use Rattle.a2_debugger.specs.Inspections.{IsDone};
ghost use Rattle.a2_debugger.specs.declared.inspector_command.InspectorCommand.TheVariants.{Step, Back};
ghost use Rattle.a2_dap.specs.Requests.{Travels};

use crate::evaluating::put_log;
use crate::marking::{Arrival, Mark, arrive, arrive_backwards};
use a2_debugger::{Inspector, InspectorCommand, Outcome, is_changed_in};
use a2_machine::Cause;
use a2_routines::is_call;
use a2_stream::Kept;
use a2_symbols::Span;
use std::alloc::Global;

/// Why a run stands still.
#[derive(Clone, Copy)]
pub enum Stop {
    /// The steps that were asked for were executed.
    Stepped,
    /// It is at its start.
    Start,
    /// It arrived at the breakpoint with this number.
    Arrived(u64),
    /// The last step changed one of these bytes.
    Changed(Span),
    /// The next step changes one of these bytes.
    WillChange(Span),
    /// It cannot continue for this cause, or, with `Cause::Limit`, the most steps of a request were executed.
    Ended(Cause),
    /// PC was set.
    Jumped,
    /// It is in no routine that could be left.
    NoRoutine,
    /// There was not enough memory.
    NoMemory,
}

/// What stops a run, and what it has printed since the last stop.
#[derive(Drop)]
pub struct Journey<'a> {
    pub marks: &'a mut Vec<Mark>,
    pub watches: &'a [Span],
    /// The most steps of a request.
    pub most: u64,
    pub told: Kept<Global>,
}

/// Executes one step.
pub fn step_in(inspector: &mut Inspector<'_>) -> Outcome
    ensures { IsDone (Step 1) inspector.old inspector.new }
{
    inspector.execute_command(InspectorCommand::Step(1))
}

/// Goes back one step, unless the run is at its start.
pub fn step_back(inspector: &mut Inspector<'_>) -> Outcome
    ensures { IsDone (Back 1) inspector.old inspector.new }
{
    inspector.execute_command(InspectorCommand::Back(1))
}

// Returns the first watched span in which the last command changed a byte.
fn changed_span(inspector: &Inspector<'_>, watches: &[Span]) -> Option<Span> {
    let before = inspector.before().space().ram();
    let now = inspector.machine().space().ram();
    for span in watches {
        if is_changed_in(span, before, now) {
            return Some(*span);
        }
    }
    None
}

// Returns why a run stands still after it moved forwards, or `None` if it only passes a breakpoint.
fn stop_after(
    inspector: &Inspector<'_>,
    journey: &mut Journey<'_>,
    outcome: Outcome,
) -> Option<Stop> {
    let _ = inspector.put_screen_changes(&mut journey.told);
    match outcome {
        Outcome::Stopped(cause) => return Some(Stop::Ended(cause)),
        Outcome::NoRoutine => return Some(Stop::NoRoutine),
        Outcome::Memory => return Some(Stop::NoMemory),
        _ => {}
    }
    if let Some(span) = changed_span(inspector, journey.watches) {
        return Some(Stop::Changed(span));
    }
    match arrive(journey.marks, inspector.machine().regs().pc) {
        Arrival::Nowhere => Some(Stop::Stepped),
        Arrival::Stops(id) => Some(Stop::Arrived(id)),
        Arrival::Passes => None,
        Arrival::Prints(index) => {
            put_log(
                inspector,
                journey.marks.as_slice(),
                index,
                &mut journey.told,
            );
            None
        }
    }
}

// Returns whether a request has executed its most steps.
fn is_far(inspector: &Inspector<'_>, from: u64, most: u64) -> bool {
    inspector.machine().steps() >= from.saturating_add(most)
}

// Returns why a run stands still after it moved forwards from a position, or `None` if it continues.
fn judge(
    inspector: &Inspector<'_>,
    journey: &mut Journey<'_>,
    from: u64,
    outcome: Outcome,
) -> Option<Stop> {
    let stop = stop_after(inspector, journey, outcome);
    if stop.is_none() && is_far(inspector, from, journey.most) {
        return Some(Stop::Ended(Cause::Limit));
    }
    stop
}

/// Executes steps up to a stop.
pub fn go_on(inspector: &mut Inspector<'_>, journey: &mut Journey<'_>) -> Stop
    ensures { Travels inspector.old inspector.new }
{
    let from = inspector.machine().steps();
    for _ in 0..journey.most {
        let outcome = inspector.execute_command(InspectorCommand::Go);
        if let Some(stop) = judge(inspector, journey, from, outcome) {
            return stop;
        }
    }
    Stop::Ended(Cause::Limit)
}

// Returns why a run stands still after it moved forwards in routines that it leaves until the stack pointer is at least `s`, or `None`
// if it continues.
fn judge_leaving(
    inspector: &Inspector<'_>,
    journey: &mut Journey<'_>,
    from: u64,
    s: u8,
    outcome: Outcome,
) -> Option<Stop> {
    match judge(inspector, journey, from, outcome) {
        Some(Stop::Stepped) | None => {
            if inspector.machine().regs().s >= s {
                Some(Stop::Stepped)
            } else {
                None
            }
        }
        stop => stop,
    }
}

// Leaves routines until the stack pointer is at least `s`, or up to a stop.
fn leave(inspector: &mut Inspector<'_>, journey: &mut Journey<'_>, s: u8, first: Outcome) -> Stop
    ensures { Travels inspector.old inspector.new }
{
    let from = inspector.machine().steps();
    let mut outcome = first;
    for _ in 0..journey.most {
        if let Some(stop) = judge_leaving(inspector, journey, from, s, outcome) {
            return stop;
        }
        let left = inspector.execute_command(InspectorCommand::Out);
        outcome = left;
    }
    Stop::Ended(Cause::Limit)
}

/// Executes one step.
pub fn step_once(inspector: &mut Inspector<'_>, journey: &mut Journey<'_>) -> Stop
    ensures { Travels inspector.old inspector.new }
{
    let outcome = step_in(inspector);
    stop_of_step(inspector, journey, outcome)
}

// Executes a JSR and its routine, or steps up to a stop in it.
fn step_over_call(inspector: &mut Inspector<'_>, journey: &mut Journey<'_>) -> Stop
    ensures { Travels inspector.old inspector.new }
{
    let s = inspector.machine().regs().s;
    let outcome = inspector.execute_command(InspectorCommand::Next);
    leave(inspector, journey, s, outcome)
}

/// Executes one step, or a whole routine if the step is a `JSR`, or steps up to a stop in it.
pub fn step_over(inspector: &mut Inspector<'_>, journey: &mut Journey<'_>) -> Stop
    ensures { Travels inspector.old inspector.new }
{
    if is_call(inspector.machine()) {
        step_over_call(inspector, journey)
    } else {
        step_once(inspector, journey)
    }
}

// Returns why a run stands still after one step.
fn stop_of_step(inspector: &Inspector<'_>, journey: &mut Journey<'_>, outcome: Outcome) -> Stop {
    let _ = inspector.put_screen_changes(&mut journey.told);
    match outcome {
        Outcome::Stopped(cause) => Stop::Ended(cause),
        _ => Stop::Stepped,
    }
}

// Returns the stack pointer before the JSR of the innermost routine, if the run is in one.
fn innermost(inspector: &mut Inspector<'_>) -> Option<u8>
    ensures { inspector.new ≡ inspector.old }
{
    match inspector.entered() {
        Ok(entries) => match entries.as_slice().last() {
            Some(entry) => Some(entry.s),
            None => None,
        },
        Err(_) => None,
    }
}

// Executes steps until a routine returns, or up to a stop. The routine is given by the stack pointer before its JSR.
fn step_out_of(inspector: &mut Inspector<'_>, journey: &mut Journey<'_>, s: u8) -> Stop
    ensures { Travels inspector.old inspector.new }
{
    let outcome = inspector.execute_command(InspectorCommand::Out);
    leave(inspector, journey, s, outcome)
}

/// Executes steps until the innermost routine returns, or up to a stop.
pub fn step_out(inspector: &mut Inspector<'_>, journey: &mut Journey<'_>) -> Stop
    ensures { Travels inspector.old inspector.new }
{
    match innermost(inspector) {
        Some(s) => step_out_of(inspector, journey, s),
        None => Stop::NoRoutine,
    }
}

/// Goes back one step, unless the run is at its start.
pub fn step_once_back(inspector: &mut Inspector<'_>, journey: &mut Journey<'_>) -> Stop
    ensures { Travels inspector.old inspector.new }
{
    let outcome = step_back(inspector);
    stop_of_step_back(inspector, journey, outcome)
}

// Returns why a run stands still after one step back.
fn stop_of_step_back(
    inspector: &Inspector<'_>,
    journey: &mut Journey<'_>,
    outcome: Outcome,
) -> Stop {
    if inspector.machine().steps() == 0 {
        Stop::Start
    } else {
        stop_of_step(inspector, journey, outcome)
    }
}

// Returns why a run that went back stands still, or `None` if it goes back further.
fn judge_back(
    inspector: &Inspector<'_>,
    journey: &mut Journey<'_>,
    outcome: Outcome,
) -> Option<Stop> {
    let _ = inspector.put_screen_changes(&mut journey.told);
    if matches!(outcome, Outcome::NoneEarlier) {
        return Some(Stop::Start);
    }
    match arrive_backwards(journey.marks.as_slice(), inspector.machine().regs().pc) {
        Arrival::Passes => None,
        Arrival::Stops(id) => Some(Stop::Arrived(id)),
        _ => Some(changed_backwards(inspector, journey.watches)),
    }
}

// Returns why a run that went back stands still just before a change.
fn changed_backwards(inspector: &Inspector<'_>, watches: &[Span]) -> Stop {
    match changed_span(inspector, watches) {
        Some(span) => Stop::WillChange(span),
        None => Stop::Stepped,
    }
}

// Goes back to the latest earlier stop. If there is none, returns `Stop::Start`.
fn go_back_to_stop(inspector: &mut Inspector<'_>, journey: &mut Journey<'_>) -> Stop
    ensures { Travels inspector.old inspector.new }
{
    for _ in 0..journey.most {
        let outcome = inspector.execute_command(InspectorCommand::GoBack);
        if let Some(stop) = judge_back(inspector, journey, outcome) {
            return stop;
        }
    }
    Stop::Start
}

// Goes back to the start, if a run is to be there.
fn go_to_start_if(inspector: &mut Inspector<'_>, stop: Stop)
    ensures { Travels inspector.old inspector.new }
{
    match stop {
        Stop::Start => go_to_start(inspector),
        _ => {}
    }
}

// Goes back to the start.
fn go_to_start(inspector: &mut Inspector<'_>)
    ensures { Travels inspector.old inspector.new }
{
    inspector.go_to_start();
}

/// Goes back to the latest earlier stop, or to the start if there is none.
pub fn go_back(inspector: &mut Inspector<'_>, journey: &mut Journey<'_>) -> Stop
    ensures { Travels inspector.old inspector.new }
{
    let stop = go_back_to_stop(inspector, journey);
    go_to_start_if(inspector, stop);
    stop
}

// Takes back a step and executes it again, and returns its address.
fn address_before(inspector: &mut Inspector<'_>) -> u16
    ensures { Travels inspector.old inspector.new }
{
    let _ = step_back(inspector);
    let address = inspector.machine().regs().pc;
    let _ = step_in(inspector);
    address
}

/// Returns the address of the last step, or of the next one at the start.
#[tactic(auto, using(crate::proofs::Travelling::stays))]
pub fn last_address(inspector: &mut Inspector<'_>) -> u16
    ensures { Travels inspector.old inspector.new }
{
    if inspector.machine().steps() == 0 {
        inspector.machine().regs().pc
    } else {
        address_before(inspector)
    }
}
