//! The Monitor at a terminal.

ghost use Rattle.std.specs.Prelude.{◌≡◌, ◌↔◌, ◌-◌, ◌<◌, ◌≤◌, ◌++◌, [], ℕ, List, true, Some, None, is_some, if◌then◌else◌, IfOk};
ghost use Rattle.std.specs.Prelude.{IfErr};
ghost use Rattle.a2_stream.specs.Stream.{SendsOrBreaks};
ghost use Rattle.a2_asm.specs.Assembled.{Assembled};
ghost use Rattle.a2_machine.specs.State.{world_of_state};
ghost use Rattle.a2_tty.specs.Turns.{RepliesTo};
ghost use Rattle.a2_monitor.specs.Replies.{IsReply};
ghost use Rattle.a2_monitor.specs.SessionStates.{IsFreeRun, state_of_session, start_state};
ghost use Rattle.a2_run.specs.Meaning.{IsProgramOf};
ghost use Rattle.a2_run.specs.Started.{IsStarted, RefusesText};
ghost use Rattle.a2_monitor_session.specs.Monitors.{IsHelp, IsBegun, IsLoadError};
ghost use Rattle.a2_monitor_session.specs.Calls.{Begin, IsRunReported, IsCallReported, IsPressReported, ending};
ghost use Rattle.a2_monitor_session.specs.Presses.{pressed};
ghost use Rattle.a2_monitor_session.specs.Screens.{screen_of, screen_where};
ghost use Rattle.a2_monitor_session.specs.declared.press.Press.TheVariants.{Key};

use crate::press::{Press, press_of};
use crate::screen_copy::{ScreenCopy, put_screen};
use a2_asm::Program;
use a2_bus::Keys;
use a2_hex::{HexFault, load_lines};
use a2_machine::{Cause, FIRST_ENTRY, Machine};
use a2_monitor::{MONITOR_MAX_STEPS, MonFault, Session, called_in};
use a2_run::{RunFault, program_of, started};
use a2_stream::{Output, WriteFault, put, put_all};
use a2_text::capital;
use a2_tty::Partner;
use std::alloc::{AllocError, Allocator, Global};
use std::cell::Cell;
use std::marker::Model;

// The help text: the forms of all lines.
const HELP: &[u8] = b"300            shows the byte there
300.30F        shows bytes
300:A9 C1      stores bytes; :20 ED stores more after them
400<300.30FM   copies bytes
400<300.30FV   shows the bytes that differ
300L           lists 20 instructions
300G           calls the routine there; you type the keys it waits for
quit, Ctrl-D   ends the session
Numbers are hexadecimal.
";

/// The message that a program is waiting.
const WAITS: &[u8] = b"WAITING FOR A KEY; CTRL-] STOPS THE RUN\n";

/// The message that a key was not typed.
const FULL: &[u8] = b"NOT TYPED: 4096 KEYS ARE WAITING\n";

/// The Monitor at a terminal: a session that answers lines, and an invalid line with the text of its error. `help`, in either
/// case, lists the forms of lines. A run is followed by the picture of its screen, if that changed.
///
/// If keys can be typed, a program that is called and needs a key waits for it. Each line is then one key, as the terminal
/// sends it, until the run ends. Contracts see the session, whether keys can be typed, and the number of steps that a waiting
/// program may still execute.
pub struct Monitor<'a, A: Allocator = Global> {
    session: Session<A>,
    // Tells the reader of the terminal that a key is needed instead of a line.
    keyboard: Option<&'a Cell<bool>>,
    wait: Option<u32>,
}

// Not derived, only for the prover: it treats this as one call, and a derived `drop` field by field.
impl<'a, A: Allocator> Drop for Monitor<'a, A> {
    fn drop(self) {
        let Monitor {
            session: _,
            keyboard: _,
            wait: _,
        } = self;
    }
}

impl<'a, A: Allocator> Model for Monitor<'a, A> {
    ghost use Rattle.std.specs.Prelude.{is_some};
    ghost use Rattle.a2_monitor_session.specs.Calls.{Attended};

    ghost Value = { Attended };

    ghost view = { λ m. record { session = m.session; is_live = is_some m.keyboard; wait = m.wait } };
}

// Whether a line asks for help.
fn is_help(line: &[u8]) -> bool
    ensures { (result ≡ true) ↔ IsHelp line.now }
{
    match line {
        [a, b, c, d] => [capital(*a), capital(*b), capital(*c), capital(*d)] == *b"HELP",
        _ => false,
    }
}

// Executes a line, and writes its answer or the text of its error.
fn reply<A: Allocator + Copy, W: Output>(
    session: &mut Session<A>,
    line: &[u8],
    writer: &mut W,
) -> Result<(), WriteFault>
    ensures { RepliesTo IsReply line.now (state_of_session session.old) (state_of_session session.new)
        (W.taker writer.old) (W.taker writer.new) result }
{
    let Err(fault) = session.line(line, writer) else {
        return Ok(());
    };
    if fault == MonFault::Write {
        return Err(WriteFault);
    }
    put_all(&[fault.text().as_bytes(), b"\n"], writer)
}

/// A machine loaded with the contents of a text.
#[derive(Drop)]
struct Loaded<A: Allocator> {
    machine: Machine<A>,
    // The program of a source; `None` if the text is object lines.
    program: Option<Program<A>>,
}

// A machine loaded with the program of a source.
fn with_source<A: Allocator + Copy>(alloc: A, text: &[u8]) -> Result<Loaded<A>, RunFault>
    ensures made { IfOk result (λ loaded. (program : Assembled) × IsProgramOf text.now program
        × IsStarted true program [] loaded.machine.state) }
    ensures refused { IfErr result (λ fault. RefusesText text.now fault) }
{
    let program = program_of(alloc, text)?;
    Ok(Loaded {
        machine: started(alloc, &program, &Keys::new(), true)?,
        program: Some(program),
    })
}

// A machine loaded with the contents of a text: object lines, or otherwise a source.
fn with_text<A: Allocator + Copy>(alloc: A, text: &[u8]) -> Result<Loaded<A>, RunFault>
    ensures begun { IfOk result (λ loaded. IsBegun text.now
        (record { world = world_of_state loaded.machine.state; steps = loaded.machine.state.steps; next = 0 })) }
    ensures refused { IfErr result (λ fault. IsLoadError text.now fault) }
{
    match load_lines(alloc, text) {
        Ok(image) => {
            let mut machine = Machine::new(alloc)?;
            machine.boot(&image, FIRST_ENTRY);
            Ok(Loaded {
                machine,
                program: None,
            })
        }
        Err(HexFault::Memory) => Err(RunFault::Memory),
        Err(_) => with_source(alloc, text),
    }
}

impl<'a, A: Allocator + Copy> Monitor<'a, A> {
    /// Returns the Monitor on a machine that was just switched on. Keys can be typed if there is a `keyboard`: after each
    /// answer it holds whether the next line is a key. Fails only if memory runs out.
    pub fn new(alloc: A, keyboard: Option<&'a Cell<bool>>) -> Result<Monitor<'a, A>, AllocError>
        ensures session { IfOk result (λ monitor. state_of_session monitor.session ≡ start_state) }
        ensures live { IfOk result (λ monitor. monitor.is_live ≡ is_some keyboard.entry) }
        ensures wait { IfOk result (λ monitor. monitor.wait ≡ None) }
    {
        let machine = Machine::new(alloc)?;
        Ok(Monitor {
            session: Session::new(machine),
            keyboard,
            wait: None,
        })
    }

    /// Returns the same with the contents of `text`: object lines, or otherwise a source. Fails if the source has errors or
    /// memory runs out.
    pub fn with(
        alloc: A,
        keyboard: Option<&'a Cell<bool>>,
        text: &[u8],
    ) -> Result<Monitor<'a, A>, RunFault>
        ensures begun { IfOk result (λ monitor. IsBegun text.now (state_of_session monitor.session)) }
        ensures live { IfOk result (λ monitor. monitor.is_live ≡ is_some keyboard.entry) }
        ensures wait { IfOk result (λ monitor. monitor.wait ≡ None) }
        ensures refused { IfErr result (λ fault. IsLoadError text.now fault) }
    {
        let (monitor, _) = Monitor::with_program(alloc, keyboard, text)?;
        Ok(monitor)
    }

    // Returns the same with the program, if the text is a source.
    pub(crate) fn with_program(
        alloc: A,
        keyboard: Option<&'a Cell<bool>>,
        text: &[u8],
    ) -> Result<(Monitor<'a, A>, Option<Program<A>>), RunFault>
        ensures begun { IfOk result (λ (monitor, _). IsBegun text.now (state_of_session monitor.session)) }
        ensures live { IfOk result (λ (monitor, _). monitor.is_live ≡ is_some keyboard.entry) }
        ensures wait { IfOk result (λ (monitor, _). monitor.wait ≡ None) }
        ensures refused { IfErr result (λ fault. IsLoadError text.now fault) }
    {
        let loaded = with_text(alloc, text)?;
        let monitor = Monitor {
            session: Session::new(loaded.machine),
            keyboard,
            wait: None,
        };
        Ok((monitor, loaded.program))
    }
}

/// The state before a run.
#[derive(Drop)]
struct Before {
    look: ScreenCopy,
    steps: u64,
}

// The state of a session before a run.
fn state_before<A: Allocator + Copy>(session: &Session<A>) -> Before
    ensures look { result.look ≡ screen_of (state_of_session session.now).world }
    ensures steps { result.steps ≡ (state_of_session session.now).steps }
{
    let machine = session.machine();
    Before {
        look: ScreenCopy::at(machine),
        steps: machine.steps(),
    }
}

// Writes how a run ended, or that its program is waiting.
fn put_ending<A: Allocator + Copy, W: Output>(
    session: &Session<A>,
    waits: bool,
    notice: &[u8],
    cause: Cause,
    writer: &mut W,
) -> Result<(), WriteFault>
    ensures { SendsOrBreaks (W.taker writer.old) (W.taker writer.new) result
        (ending waits notice.now (state_of_session session.now) cause) }
{
    if waits {
        put(notice, writer)
    } else {
        session.report_end(cause, writer)
    }
}

// Writes the report after a run: the screen if it changed, and how the run ended or that its program is waiting.
#[tactic(auto, using(a2_stream::proofs::Joined::broke_off, a2_stream::proofs::Joined::went_on))]
fn put_run<A: Allocator + Copy, W: Output>(
    session: &Session<A>,
    is_changed: bool,
    waits: bool,
    notice: &[u8],
    cause: Cause,
    writer: &mut W,
) -> Result<(), WriteFault>
    ensures { SendsOrBreaks (W.taker writer.old) (W.taker writer.new) result
        (screen_where is_changed (state_of_session session.now).world ++ ending waits notice.now (state_of_session session.now) cause) }
{
    put_screen(session.machine(), is_changed, writer)?;
    put_ending(session, waits, notice, cause, writer)
}

// Whether a program that stopped with this cause is waiting, if keys can be typed.
fn waits_by(is_live: bool, cause: Cause) -> bool
    ensures { result ≡ Rattle.a2_monitor_session.specs.Calls.waits_by is_live cause }
{
    match cause {
        Cause::Keys => is_live,
        _ => false,
    }
}

// The number of steps of the limit that a waiting program has left.
fn steps_left_if_waiting(waits: bool, limit: u32, made: u64) -> Option<u32>
    requires { made ≤ limit }
    ensures { result ≡ (if waits then Some (limit - made) else None) }
{
    if waits {
        Some(limit - made as u32)
    } else {
        None
    }
}

impl<A: Allocator + Copy> Monitor<'_, A> {
    /// Returns whether a program is waiting for a key, so that the next line is one.
    pub(crate) fn is_waiting(&self) -> bool
        ensures { result ≡ is_some self.now.wait }
    {
        self.wait.is_some()
    }

    // Stores whether a program is waiting, and how many steps it may still execute.
    fn note(&mut self, wait: Option<u32>)
        ensures { self.new ≡ record self.old { wait = wait } }
    {
        self.wait = wait;
        if let Some(keyboard) = self.keyboard {
            keyboard.set(wait.is_some());
        }
    }

    // Reports a run that has just stopped.
    fn report_run<W: Output>(
        &mut self,
        before: &Before,
        limit: u32,
        cause: Cause,
        notice: &[u8],
        writer: &mut W,
    ) -> Result<(), WriteFault>
        requires more { before.now.steps ≤ (state_of_session self.old.session).steps }
        requires few { (state_of_session self.old.session).steps - before.now.steps ≤ limit }
        ensures { (begin : Begin) → before.now.look ≡ screen_of begin.session_state.world → before.now.steps ≡ begin.session_state.steps
            → IsFreeRun begin.world limit begin.session_state (state_of_session self.old.session) cause
            → (text : List ℕ) × IsRunReported begin limit notice.now self.old.is_live text self.new
            × SendsOrBreaks (W.taker writer.old) (W.taker writer.new) result text }
    {
        let machine = self.session.machine();
        let is_same = before.look.is_at(machine);
        let made = machine.steps() - before.steps;
        let waits = waits_by(self.keyboard.is_some(), cause);
        self.note(steps_left_if_waiting(waits, limit, made));
        put_run(&self.session, !is_same, waits, notice, cause, writer)
    }

    // Calls a program.
    fn call<W: Output>(&mut self, at: u16, writer: &mut W) -> Result<(), WriteFault>
        ensures { (text : List ℕ) × IsCallReported at self.old text self.new
            × SendsOrBreaks (W.taker writer.old) (W.taker writer.new) result text }
    {
        let before = state_before(&self.session);
        let cause = self.session.call(at);
        self.report_run(&before, MONITOR_MAX_STEPS, cause, WAITS, writer)
    }

    // Types a key for a waiting program, and continues its run.
    fn type_key<W: Output>(&mut self, key: u8, limit: u32, writer: &mut W) -> Result<(), WriteFault>
        requires { key < 128 }
        ensures { (text : List ℕ) × IsPressReported limit (Key key) self.old text self.new
            × SendsOrBreaks (W.taker writer.old) (W.taker writer.new) result text }
    {
        if self.session.type_keys(&Keys::one(key)).is_err() {
            return put(FULL, writer);
        }
        let before = state_before(&self.session);
        let cause = self.session.go_on(limit);
        self.report_run(&before, limit, cause, b"", writer)
    }

    // Handles a key that is pressed while a program is waiting.
    fn press<W: Output>(
        &mut self,
        line: &[u8],
        limit: u32,
        writer: &mut W,
    ) -> Result<(), WriteFault>
        ensures { (text : List ℕ) × IsPressReported limit (pressed line.now) self.old text self.new
            × SendsOrBreaks (W.taker writer.old) (W.taker writer.new) result text }
    {
        match press_of(line) {
            Press::Key(key) => self.type_key(key, limit, writer),
            Press::Stop => {
                self.note(None);
                self.session.report_end(Cause::Keys, writer)
            }
            Press::Nothing => Ok(()),
        }
    }
}

impl<A: Allocator + Copy> Partner for Monitor<'_, A> {
    ghost use Rattle.a2_monitor_session.specs.Monitors.{IsAnswer};

    ghost meets = { IsAnswer };

    fn answer<W: Output>(&mut self, line: &[u8], writer: &mut W) -> Result<(), WriteFault> {
        if let Some(limit) = self.wait {
            return self.press(line, limit, writer);
        }
        if is_help(line) {
            return put(HELP, writer);
        }
        match called_in(line) {
            Some(at) => self.call(at, writer),
            None => reply(&mut self.session, line, writer),
        }
    }
}
