//! A run of a source, controlled by the commands of a debugger.

ghost use Rattle.std.specs.Prelude.{◌≡◌, ◌==◌, ◌&&◌, ◌||◌, ◌⊎◌, ◌-◌, ℕ, List, false, IfOk, IfErr};
ghost use Rattle.a2_stream.specs.Stream.{SendsOrBreaks};
ghost use Rattle.a2_machine.specs.State.{world_of_state};
ghost use Rattle.a2_history.specs.Going.{here, AlarmsAreComplete, is_changed_after};
ghost use Rattle.a2_history.specs.Routines.{entered};
ghost use Rattle.a2_routines.specs.Routines.{is_call as is_call_of};
ghost use Rattle.a2_run.specs.Started.{guard_of_run};
ghost use Rattle.a2_debugger.specs.Alerts.{WarnsOfStops};
ghost use Rattle.a2_debugger.specs.Stops.{is_stop, is_changed_in};
ghost use Rattle.a2_debugger.specs.Inspections.{
  IsDone,
  IsLineExecuted,
  IsAnswered,
  IsBegun,
  is_at,
  GoesOn,
  GoesOver,
  GoesOut,
  GoesBack,
  GoesBackOver,
  TypesBy,
  ChangesBy,
  SetsBy,
  is_left,
  innermost,
  others,
  without_watch,
  with_break,
  with_watch,
  front,
  line_to_run,
};

mod replay;

use crate::alerts::Marks;
use crate::answer_sheet::{Detail, RunReport, report};
use crate::changes::put_changed_rows;
use crate::inspector_command::{InspectorCommand, Outcome, Show};
use crate::reading::order_of;
use crate::settings::{Setting, change_of};
use crate::sights::{Alarm, At, Changed, Left, Stops};
use crate::stops::{Break, Watch, is_same_watch};
use crate::verbs::verb_of;
use a2_asm::Program;
use a2_bus::Keys;
use a2_history::{
    Change, Entry, Halt, History, Lookout, Nothing, SearchTarget, TypingFault, is_call,
};
use a2_machine::{Cause, Machine};
use a2_run::{AssembledText, RunArgs, started};
use a2_stream::{Output, WriteFault};
use a2_symbols::Scene;
use a2_text::{cut, first_word, split_word};
use a2_tty::Partner;
use arrayvec::ArrayVec;
use std::alloc::{AllocError, Allocator, Global};
use std::marker::Model;

// The greatest length of a line in bytes.
const MOST_BYTES: usize = 255;

// A line.
type Line = ArrayVec<u8, MOST_BYTES>;

// The greatest numbers of breakpoints and of watchpoints. The messages for too many of them contain these numbers.
const MOST_BREAKS: usize = 64;

const MOST_WATCHES: usize = 8;

// The breakpoints and the watchpoints.
type Breaks = ArrayVec<Break, MOST_BREAKS>;

type Watches = ArrayVec<Watch, MOST_WATCHES>;

/// A run of a source that the lines of a debugger move in both directions. It also holds the breakpoints, the watchpoints,
/// and the line that an empty line repeats.
pub struct Inspector<'a, A: Allocator = Global> {
    alloc: A,
    program: Program<A>,
    lines: Vec<&'a [u8], A>,
    history: History<A>,
    // The machine before the last command.
    before: Machine<A>,
    // The steps that need a check for a stop as the run continues.
    marks: Marks<A>,
    // Whether the run is free of the guard.
    free: bool,
    breaks: Breaks,
    watches: Watches,
    last: Line,
    // The greatest number of steps that a command executes while it looks for a place.
    most: u32,
    // What a stop reports.
    detail: Detail,
    // The farthest position that was reached since keys were typed or something was set.
    farthest: u64,
}

// Not derived, only for the prover: it treats this as one call, and a derived `drop` field by field.
impl<'a, A: Allocator> Drop for Inspector<'a, A> {
    fn drop(self) {
        let Inspector {
            alloc: _,
            program: _,
            lines: _,
            history: _,
            before: _,
            marks: _,
            free: _,
            breaks: _,
            watches: _,
            last: _,
            most: _,
            detail: _,
            farthest: _,
        } = self;
    }
}

impl<'a, A: Allocator> Model for Inspector<'a, A> {
    ghost use Rattle.std.specs.Prelude.{◌≡◌};
    ghost use Rattle.a2_run.specs.Started.{guard_of_run};
    ghost use Rattle.a2_debugger.specs.Inspections.{Inspection};

    ghost Value = { Inspection };

    ghost view = { λ i. record {
      program = i.program;
      track = i.history;
      breaks = i.breaks.items;
      watches = i.watches.items;
      last = i.last.items;
      most = i.most;
    } };

    // The run is guarded by its program, unless it is free.
    ghost invariant = { λ i. i.history.course.origin.guard ≡ guard_of_run i.free i.program };
}

// Executes at most this many steps, in bursts, until the sight is seen.
fn go_on<A: Allocator + Copy, S: SearchTarget, L: Lookout>(
    history: &mut History<A>,
    most: u32,
    sight: &S,
    lookout: &L,
) -> Outcome
    requires { AlarmsAreComplete (S.is_found_in sight.now) (L.alarms lookout.now) history.old.course history.old.position }
    ensures { GoesOn (S.is_found_in sight.now) most history.old history.new }
{
    match history.advance(most, sight, lookout) {
        Halt::Seen => Outcome::Seen,
        Halt::Stopped(cause) => Outcome::Stopped(cause),
    }
}

// Executes this many steps.
fn step<A: Allocator + Copy>(history: &mut History<A>, steps: u16) -> Outcome
    ensures { GoesOn (λ world. false) steps history.old history.new }
{
    match go_on(history, u32::from(steps), &Nothing, &Nothing) {
        Outcome::Stopped(Cause::Limit) => Outcome::Moved,
        outcome => outcome,
    }
}

// Goes back this many steps, but not beyond the start.
fn back<A: Allocator + Copy>(history: &mut History<A>, steps: u16) -> Outcome
    ensures { history.new ≡ record history.old { position = history.old.position - steps } }
{
    let position = history.position().saturating_sub(u64::from(steps));
    history.go_back(position);
    Outcome::Moved
}

// Goes back to the latest earlier position where the sight is seen.
fn go_back<A: Allocator + Copy, S: SearchTarget>(history: &mut History<A>, sight: &S) -> Outcome
    ensures { GoesBack (S.is_found_in sight.now) history.old history.new }
{
    match history.newest(sight) {
        Some(position) => {
            history.go_back(position);
            Outcome::Moved
        }
        None => Outcome::NoneEarlier,
    }
}

// Stores a copy of the machine before a command.
fn note<A: Allocator + Copy>(before: &mut Machine<A>, history: &History<A>)
    ensures { world_of_state before.new.state ≡ here history.now }
{
    before.copy_from(history.machine());
}

// Whether code may change: the run is free of the guard, or something is changed by hand later.
fn may_change_code<A: Allocator + Copy>(free: bool, history: &History<A>) -> bool
    ensures { result ≡ (free || is_changed_after history.now.position history.now.course.log) }
{
    free || history.is_changed_ahead()
}

// Marks the steps that need a check for one of these stops as the run continues.
fn mark<A: Allocator + Copy>(
    marks: &mut Marks<A>,
    free: bool,
    program: &Program<A>,
    history: &History<A>,
    stops: Stops<A>,
)
    requires here { world_of_state stops.before.now.state ≡ here history.now }
    requires guard { history.now.course.origin.guard ≡ guard_of_run free program.now }
    ensures { WarnsOfStops marks.new stops.entry.breaks.now stops.entry.watches.now history.now }
{
    marks.set(
        may_change_code(free, history),
        program,
        stops.before,
        stops.breaks,
        stops.watches,
    );
}

// Executes at most this many steps, up to a stop.
fn go<A: Allocator + Copy>(
    history: &mut History<A>,
    most: u32,
    marks: &Marks<A>,
    stops: Stops<A>,
) -> Outcome
    requires here { world_of_state stops.before.now.state ≡ here history.old }
    requires warns { WarnsOfStops marks.now stops.breaks.now stops.watches.now history.old }
    ensures { GoesOn (is_stop stops.entry.breaks.now stops.entry.watches.now (here history.old)) most history.old history.new }
{
    let alarm = Alarm {
        alerts: marks.lent(),
        stops,
    };
    go_on(history, most, &stops, &alarm)
}

// Executes at most this many steps, up to an address.
fn until<A: Allocator + Copy>(history: &mut History<A>, most: u32, address: u16) -> Outcome
    ensures { GoesOn (is_at address) most history.old history.new }
{
    let at = At { address };
    match go_on(history, most, &at, &at) {
        Outcome::Seen => Outcome::Moved,
        outcome => outcome,
    }
}

// Executes at most this many steps, up to a stop or until a routine returns. The routine is given by the stack pointer before
// its JSR.
fn leave<A: Allocator + Copy>(
    history: &mut History<A>,
    most: u32,
    s: u8,
    marks: &Marks<A>,
    stops: Stops<A>,
) -> Outcome
    requires here { world_of_state stops.before.now.state ≡ here history.old }
    requires warns { WarnsOfStops marks.now stops.breaks.now stops.watches.now history.old }
    ensures { GoesOn (is_left s (is_stop stops.entry.breaks.now stops.entry.watches.now (here history.old)))
        most history.old history.new }
{
    let alarm = Alarm {
        alerts: marks.lent(),
        stops,
    };
    let left = Left { s, alarm };
    go_on(history, most, &left, &left)
}

// Executes one step, or a whole routine if the step is a JSR.
fn next<A: Allocator + Copy>(
    history: &mut History<A>,
    most: u32,
    marks: &Marks<A>,
    stops: Stops<A>,
) -> Outcome
    requires here { world_of_state stops.before.now.state ≡ here history.old }
    requires warns { WarnsOfStops marks.now stops.breaks.now stops.watches.now history.old }
    ensures { GoesOver (is_call_of (here history.old)) (here history.old).registers.s
        (is_stop stops.entry.breaks.now stops.entry.watches.now (here history.old)) most history.old history.new }
{
    if is_call(history.machine()) {
        let s = history.machine().regs().s;
        leave(history, most, s, marks, stops)
    } else {
        step(history, 1)
    }
}

// Executes steps until the innermost routine returns.
fn out<A: Allocator + Copy>(
    history: &mut History<A>,
    most: u32,
    marks: &Marks<A>,
    stops: Stops<A>,
) -> Outcome
    requires here { world_of_state stops.before.now.state ≡ here history.old }
    requires warns { WarnsOfStops marks.now stops.breaks.now stops.watches.now history.old }
    ensures { GoesOut (innermost (entered history.old.course history.old.position))
        (is_stop stops.entry.breaks.now stops.entry.watches.now (here history.old)) most history.old history.new
        ⊎ (history.new ≡ history.old) }
{
    let Ok(entries) = history.entered() else {
        return Outcome::Memory;
    };
    match entries.as_slice().last() {
        Some(entry) => leave(history, most, entry.s, marks, stops),
        None => Outcome::NoRoutine,
    }
}

// Goes back to the latest earlier stop.
fn go_back_to_stop<A: Allocator + Copy>(history: &mut History<A>, stops: Stops<A>) -> Outcome
    requires { world_of_state stops.before.now.state ≡ here history.old }
    ensures { GoesBack (is_stop stops.entry.breaks.now stops.entry.watches.now (here history.old)) history.old history.new }
{
    if stops.breaks.is_empty() && stops.watches.is_empty() {
        return Outcome::NoneEarlier;
    }
    match go_back(history, &stops) {
        Outcome::Moved => Outcome::SeenEarlier,
        outcome => outcome,
    }
}

// Goes back one step, or a whole routine.
fn go_back_over<A: Allocator + Copy>(history: &mut History<A>) -> Outcome
    ensures { GoesBackOver history.old history.new ⊎ (history.new ≡ history.old) }
{
    match history.newest_outside() {
        Ok(Some(position)) => {
            history.go_back(position);
            Outcome::Moved
        }
        Ok(None) => Outcome::Moved,
        Err(_) => Outcome::Memory,
    }
}

// Goes back to just before the latest step that changed this, or reports that there is none.
fn who<A: Allocator + Copy>(history: &mut History<A>, watch: Watch, before: &Machine<A>) -> Outcome
    requires { world_of_state before.now.state ≡ here history.old }
    ensures { GoesBack (λ world. is_changed_in (here history.old) world watch) history.old history.new }
{
    match go_back(history, &Changed { watch, before }) {
        Outcome::NoneEarlier => Outcome::NeverChanged(watch),
        outcome => outcome,
    }
}

// Types keys at the current position.
fn type_keys<A: Allocator + Copy>(history: &mut History<A>, keys: Keys) -> Outcome
    ensures { TypesBy result keys history.old history.new }
{
    match history.type_keys(keys) {
        Ok(()) => Outcome::Typed,
        Err(TypingFault::Full) => Outcome::KeysFull,
        Err(TypingFault::Memory) => Outcome::Memory,
    }
}

// Makes a change at the current position.
fn make_change<A: Allocator + Copy>(
    history: &mut History<A>,
    change: Change,
    farthest: u64,
) -> Outcome
    ensures { ChangesBy result change history.old history.new }
{
    match history.change(change) {
        Ok(()) => Outcome::Changed(farthest),
        Err(_) => Outcome::Memory,
    }
}

// Sets a register, a flag, PC or a byte at the current position.
fn set_value<A: Allocator + Copy>(
    history: &mut History<A>,
    setting: Setting,
    farthest: u64,
) -> Outcome
    ensures { SetsBy result setting history.old history.new }
{
    let change = change_of(setting, history.machine());
    make_change(history, change, farthest)
}

// Removes the breakpoint at an address.
fn clear_at(breaks: &mut Breaks, address: u16)
    ensures { breaks.new.items ≡ others address breaks.old.items }
{
    breaks.retain(|place| place.address != address);
}

// Sets a breakpoint, and replaces the one at its address.
fn set(breaks: &mut Breaks, place: Break) -> Outcome
    ensures { breaks.new.items ≡ with_break place breaks.old.items }
{
    clear_at(breaks, place.address);
    if breaks.len() < MOST_BREAKS {
        breaks.push(place);
        return Outcome::Set(place);
    }
    Outcome::Full
}

// Stops watching this.
fn unwatch(watches: &mut Watches, watch: Watch)
    ensures { watches.new.items ≡ without_watch watch watches.old.items }
{
    watches.retain(|watched| !is_same_watch(watch, watched));
}

// Watches this.
fn watch(watches: &mut Watches, watch: Watch) -> Outcome
    ensures { watches.new.items ≡ with_watch watch watches.old.items }
{
    unwatch(watches, watch);
    if watches.len() < MOST_WATCHES {
        watches.push(watch);
        return Outcome::Watched(watch);
    }
    Outcome::FullWatches
}

// A line of these bytes, cut off at its greatest length.
fn line_of(bytes: &[u8]) -> Line
    ensures { result.items ≡ front bytes.now }
{
    let mut line = Line::new();
    line.try_extend_from_slice(&bytes[..MOST_BYTES.min(bytes.len())])
        .unwrap();
    line
}

// The line to execute: this one, or the last one again if this one is blank.
fn line_to_execute(line: &[u8], last: &Line) -> Line
    ensures { result.items ≡ line_to_run line.now last.now.items }
{
    if first_word(line).is_none() {
        line_of(last.as_slice())
    } else {
        line_of(line)
    }
}

impl<'a, A: Allocator + Copy> Inspector<'a, A> {
    /// Returns a debugger at the start of this run of a source. `run.limit` is the most steps of one line, such as `go` or `until`. At
    /// most `kept` copies of the machine are kept on the way, each of about 124,000 bytes: the more there are, the fewer steps are
    /// repeated when the run goes back. Fails only if there is not enough memory.
    pub fn new(
        alloc: A,
        assembled: AssembledText<'a, A>,
        run: RunArgs<'_>,
        kept: usize,
    ) -> Result<Inspector<'a, A>, AllocError>
        ensures { IfOk result (λ i. IsBegun run.entry.free run.entry.keys.now run.entry.limit assembled.entry.program i) }
    {
        let RunArgs { keys, limit, free } = run;
        let lines = cut(alloc, assembled.text())?;
        let program = assembled.into_program();
        let machine = started(alloc, &program, keys, free)?;
        let before = Machine::for_copies(alloc)?;
        let marks = Marks::new(alloc)?;
        let history = History::new(alloc, machine, kept)?;
        Ok(Inspector {
            alloc,
            program,
            lines,
            history,
            before,
            marks,
            free,
            breaks: Breaks::new(),
            watches: Watches::new(),
            last: Line::new(),
            most: limit,
            detail: Detail::Full,
            farthest: 0,
        })
    }

    /// Executes a command, and returns its result.
    pub fn execute_command(&mut self, order: InspectorCommand) -> Outcome
        ensures { IsDone order self.old self.new }
    {
        let outcome = self.obey(order);
        if matches!(outcome, Outcome::Changed(_) | Outcome::Typed) {
            self.farthest = self.history.position();
        }
        outcome
    }

    // Executes a command.
    fn obey(&mut self, order: InspectorCommand) -> Outcome
        ensures { IsDone order self.old self.new }
    {
        note(&mut self.before, &self.history);
        self.farthest = self.farthest.max(self.history.position());
        let stops = Stops {
            breaks: self.breaks.as_slice(),
            watches: self.watches.as_slice(),
            before: &self.before,
        };
        let (program, free) = (&self.program, self.free);
        match order {
            InspectorCommand::Step(steps) => step(&mut self.history, steps),
            InspectorCommand::Next => {
                mark(&mut self.marks, free, program, &self.history, stops);
                next(&mut self.history, self.most, &self.marks, stops)
            }
            InspectorCommand::Out => {
                mark(&mut self.marks, free, program, &self.history, stops);
                out(&mut self.history, self.most, &self.marks, stops)
            }
            InspectorCommand::Back(steps) => back(&mut self.history, steps),
            InspectorCommand::GoBackOver => go_back_over(&mut self.history),
            InspectorCommand::Go => {
                mark(&mut self.marks, free, program, &self.history, stops);
                go(&mut self.history, self.most, &self.marks, stops)
            }
            InspectorCommand::Until(address) => until(&mut self.history, self.most, address),
            InspectorCommand::GoBack => go_back_to_stop(&mut self.history, stops),
            InspectorCommand::Who(watch) => who(&mut self.history, watch, stops.before),
            InspectorCommand::Watch(thing) => watch(&mut self.watches, thing),
            InspectorCommand::Unwatch(thing) => {
                unwatch(&mut self.watches, thing);
                Outcome::Shown(Show::Stops)
            }
            InspectorCommand::Break(place) => set(&mut self.breaks, place),
            InspectorCommand::Clear => {
                self.breaks.clear();
                self.watches.clear();
                Outcome::Cleared
            }
            InspectorCommand::ClearAt(address) => {
                clear_at(&mut self.breaks, address);
                Outcome::Shown(Show::Stops)
            }
            InspectorCommand::TypeKeys(keys) => type_keys(&mut self.history, keys),
            InspectorCommand::Set(setting) => {
                set_value(&mut self.history, setting, self.farthest)
            }
            InspectorCommand::Show(show) => Outcome::Shown(show),
        }
    }

    // Executes a line that is not blank.
    fn execute_line(&mut self, line: &[u8]) -> Outcome
        ensures { IsLineExecuted line.now self.old self.new }
    {
        let (word, rest) = split_word(line);
        if word.is_empty() {
            return Outcome::Nothing;
        }
        let Some(verb) = verb_of(word) else {
            return Outcome::NoWord;
        };
        match order_of(&self.program, verb, rest) {
            Some(order) => self.execute_command(order),
            None => Outcome::Refused(verb),
        }
    }
}

// The entered routines, if they are to be shown, or an error if memory runs out.
fn with_entries<A: Allocator + Copy>(
    alloc: A,
    history: &mut History<A>,
    outcome: Outcome,
) -> (Outcome, Vec<Entry, A>)
    ensures { history.new ≡ history.old }
{
    let Outcome::Shown(Show::Place | Show::Stack) = outcome else {
        return (outcome, Vec::new(alloc));
    };
    match history.entered() {
        Ok(entries) => (outcome, entries),
        Err(_) => (Outcome::Memory, Vec::new(alloc)),
    }
}

impl<A: Allocator + Copy> Inspector<'_, A> {
    // Answers a line with this level of detail.
    fn answer_in<W: Output>(
        &mut self,
        detail: Detail,
        line: &[u8],
        writer: &mut W,
    ) -> Result<(), WriteFault>
        ensures { (text : List ℕ) × IsAnswered line.now self.old self.new
            × SendsOrBreaks (W.taker writer.old) (W.taker writer.new) result text }
    {
        let line = line_to_execute(line, &self.last);
        let outcome = self.execute_line(line.as_slice());
        self.last = line;
        let (outcome, entries) = with_entries(self.alloc, &mut self.history, outcome);
        let stand = RunReport {
            scene: Scene {
                program: &self.program,
                lines: self.lines.as_slice(),
            },
            machine: self.history.machine(),
            before: &self.before,
            breaks: self.breaks.as_slice(),
            watches: self.watches.as_slice(),
            entries: entries.as_slice(),
            most: self.most,
            detail,
            set_here: self.history.is_changed_at(self.history.position()),
            set_next: self.history.is_changed_at(self.history.position() + 1),
        };
        report(self.alloc, &stand, outcome, writer)
    }

    /// Answers a line for a caller that shows the source and the screen itself: the report of a stop contains neither.
    pub fn answer_beside<W: Output>(
        &mut self,
        line: &[u8],
        writer: &mut W,
    ) -> Result<(), WriteFault>
        ensures { (text : List ℕ) × IsAnswered line.now self.old self.new
            × SendsOrBreaks (W.taker writer.old) (W.taker writer.new) result text }
    {
        self.answer_in(Detail::Beside, line, writer)
    }
}

impl<A: Allocator + Copy> Partner for Inspector<'_, A> {
    ghost use Rattle.a2_debugger.specs.Inspections.{IsAnswered};

    ghost meets = { λ line old text new. IsAnswered line old new };

    fn answer<W: Output>(&mut self, line: &[u8], writer: &mut W) -> Result<(), WriteFault> {
        self.answer_in(self.detail, line, writer)
    }
}

impl<A: Allocator + Copy> Inspector<'_, A> {
    /// Leaves source lines out of all later answers, except the answer to `list`, which asks for them.
    pub fn hide_source_lines(&mut self)
        ensures { self.new ≡ self.old }
    {
        self.detail = Detail::Plain;
    }
}

// The state of a run that can be shown beside its answers.
impl<'a, A: Allocator + Copy> Inspector<'a, A> {
    /// Returns the machine at the current position.
    pub fn machine(&self) -> &Machine<A>
        ensures { world_of_state result.now.state ≡ here self.now.track }
    {
        self.history.machine()
    }

    /// Returns the machine before the last line that held a command.
    pub fn before(&self) -> &Machine<A> {
        &self.before
    }

    /// Returns the routines that were entered before the current position and not left, the outermost first. Fails, with nothing
    /// changed, if there is not enough memory.
    pub fn entered(&mut self) -> Result<Vec<Entry, A>, AllocError>
        ensures entered { IfOk result (λ entries. entries.items ≡ entered self.old.track.course self.old.track.position) }
        ensures kept { self.new ≡ self.old }
    {
        self.history.entered()
    }

    /// Writes the rows of the screen that the last command changed, each after its number, from 0.
    pub fn put_screen_changes<W: Output>(&self, writer: &mut W) -> Result<(), WriteFault> {
        put_changed_rows(&self.before, self.history.machine(), writer)
    }

    /// Returns the program of the source.
    pub fn program(&self) -> &Program<A>
        ensures { result.now ≡ self.now.program }
    {
        &self.program
    }

    /// Returns the lines of the source.
    pub fn lines(&self) -> &[&'a [u8]] {
        self.lines.as_slice()
    }
}
