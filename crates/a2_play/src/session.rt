//! Runs a session at a terminal. In a loop, it reads what was typed, runs the cycles that are due, and draws what
//! changed.

ghost use Rattle.std.specs.Prelude.{◌≡◌, ◌<◌, ◌&&◌, not};
ghost use Rattle.a2_play.specs.Played.{IsPlayed};

use crate::Clock;
use crate::pace::{Pace, SECOND, Tempo, due, second};
use crate::panel::{PanelContents, State, TerminalSize, put_counts, put_panel};
use crate::player::Player;
use crate::speaker::Speaker;
use a2_machine::Cause;
use a2_page::Switches;
use a2_run::{AssembledText, RunFault};
use a2_stream::{Input, Output, ToWrite, WriteFault, put};
use a2_symbols::report_stop;
use a2_tty::{Colours, Order, Shot, Stroke, first_stroke, put_changes};
use std::alloc::{AllocError, Global};
use std::marker::Model;

/// The shortest time between two draws, and between two checks for keys at `Pace::Max`: a thirtieth of a second.
const FRAME: u64 = 33_333;

/// The time after which everything is drawn again, for a terminal whose size changed, or on which something else wrote.
const REFRESH: u64 = 2_000_000;

/// The number of waiting keys from which on only RETURN is typed: GETLN takes no key before it.
const KEYS_BEFORE_RETURN: usize = 4_095;

/// The time for which flashing characters stay the same.
const BLINK: u64 = 500_000;

/// The time over which the speed is measured.
const SPEED_PERIOD: u64 = SECOND;

/// The largest number of stretches of cycles between two checks for keys at `Pace::Max`.
const MOST_STRETCHES: u32 = 10_000;

/// The largest number of bytes in one read.
const TYPED: usize = 64;

/// RETURN, which ends a session after a stop.
const RETURN: u8 = 0x0D;

/// The byte that rings the terminal's bell.
const BELL: &[u8] = b"\x07";

/// Why a session leaves the terminal.
#[derive(Clone, Copy, Debug, PartialEq, Eq)]
pub enum Leave {
    /// The session is over.
    Over,
    /// The user asked for the debugger; the session can be continued after that.
    Debug,
}

/// How many cycles had been run at a certain time.
#[derive(Clone, Copy)]
struct Mark {
    micros: u64,
    cycles: u64,
}

/// A session with a program and its source. Contracts see the program, the machine, and the keys that were typed. The
/// machine is always where the program's meaning leads with these keys, each typed after its number of steps.
pub struct Session<'a> {
    assembled: &'a AssembledText<'a>,
    player: Player,
    state: State,
    tempo: Tempo,
    colours: Colours,
    room: TerminalSize,
    /// The cycles that are due since the start.
    goal: u64,
    /// The times when these were last computed, when the screen was last drawn, and when all of it was.
    reckoned: u64,
    drawn: u64,
    refreshed: u64,
    /// The start of the speed measurement, and the speed of the last second.
    mark: Mark,
    speed: u64,
    is_ordered: bool,
    saves: bool,
    leave: Option<Leave>,
    rings: bool,
    notice: Option<&'static [u8]>,
    shot: Option<Shot>,
    face: Option<PanelContents>,
    /// The number of steps for which the counts were last drawn.
    counted: Option<u64>,
    /// What notes the moves of the speaker, if they are reported.
    speaker: Option<Speaker>,
}

// Not derived, only for the prover: it sees this as one call, but a derived `Drop` field by field.
impl<'a> Drop for Session<'a> {
    fn drop(self) {
        let Session {
            assembled: _,
            player: _,
            state: _,
            tempo: _,
            colours: _,
            room: _,
            goal: _,
            reckoned: _,
            drawn: _,
            refreshed: _,
            mark: _,
            speed: _,
            is_ordered: _,
            saves: _,
            leave: _,
            rings: _,
            notice: _,
            shot: _,
            face: _,
            counted: _,
            speaker: _,
        } = self;
    }
}

impl<'a> Model for Session<'a> {
    ghost use Rattle.a2_play.specs.Played.{PlayedProgram, IsPlayed};

    ghost Value = { PlayedProgram };

    ghost view = { λ s. record { program = s.assembled.now.program; play = s.player } };

    ghost invariant = { λ s. IsPlayed s.assembled.now.program s.player };
}

impl<'a> Session<'a> {
    /// Creates a session of this source's program that continues with this player, at a terminal of this size.
    pub fn new(
        assembled: &'a AssembledText<'a>,
        player: Player,
        pace: Pace,
        colours: Colours,
        room: TerminalSize,
    ) -> Session<'a>
        requires { IsPlayed assembled.now.program player }
        ensures { result ≡ record { program = assembled.now.program; play = player } }
    {
        Session {
            assembled,
            player,
            state: State::Going,
            tempo: Tempo::of(pace),
            colours,
            room,
            goal: 0,
            reckoned: 0,
            drawn: 0,
            refreshed: 0,
            mark: Mark {
                micros: 0,
                cycles: 0,
            },
            speed: 0,
            is_ordered: false,
            saves: false,
            leave: None,
            rings: false,
            notice: None,
            shot: None,
            face: None,
            counted: None,
            speaker: None,
        }
    }

    /// Returns the player.
    pub fn player(&self) -> &Player
        ensures player { result.now ≡ self.now.play }
        ensures played { IsPlayed self.now.program self.now.play }
    {
        &self.player
    }

    /// Returns whether the keys are to be reported at the end.
    pub fn saves(&self) -> bool {
        self.saves
    }

    /// Returns why the machine stopped, or `None` if it did not.
    pub fn cause(&self) -> Option<Cause> {
        match self.state {
            State::Stopped(cause) => Some(cause),
            _ => None,
        }
    }

    /// Shows a message beside the screen, until the next command.
    pub fn notice(&mut self, notice: &'static [u8])
        ensures { self.new ≡ self.old }
    {
        self.notice = Some(notice);
    }

    /// Reports from now on, before each draw, when the speaker moves. At `Pace::Max` nothing is reported. Fails only if memory is
    /// short.
    pub fn listen(&mut self, alloc: Global) -> Result<(), AllocError>
        ensures { self.new ≡ self.old }
    {
        if self.tempo.pace() != Pace::Max {
            self.speaker = Some(Speaker::new(alloc, self.player.machine())?);
        }
        Ok(())
    }

    // Forgets how the speaker moved since the last draw.
    fn forget_moves(&mut self) {
        if let Some(speaker) = &mut self.speaker {
            speaker.forget();
        }
    }

    // Forgets what is drawn, so that everything is drawn again.
    fn forget(&mut self) {
        self.shot = None;
        self.face = None;
        self.counted = None;
    }

    // Forgets what is drawn if it was drawn long ago.
    fn refresh(&mut self, now: u64) {
        if now.saturating_sub(self.refreshed) >= REFRESH {
            self.forget();
            self.refreshed = now;
        }
    }

    // Begins again, with no key typed.
    fn restart(&mut self) {
        self.player.restart(self.assembled.program());
        self.forget_moves();
        self.goal = 0;
        self.state = State::Going;
    }

    // Goes back a second. If the machine was running, it continues from there; otherwise it is paused.
    fn go_back(&mut self) {
        self.player
            .go_back(self.assembled.program(), second(self.tempo.pace()));
        self.forget_moves();
        self.goal = self.player.machine().cycles();
        self.state = match self.state {
            State::Going | State::Waiting => State::Going,
            State::Paused | State::Stopped(_) => State::Paused,
        };
    }

    // Sets the state after a run or a step that ended for this cause.
    fn note(&mut self, cause: Option<Cause>, otherwise: State, waiting: State) {
        self.state = match cause {
            None => otherwise,
            Some(Cause::Keys) => waiting,
            Some(cause) => State::Stopped(cause),
        };
    }

    // Carries out a command.
    fn carry_out(&mut self, order: Order) {
        self.notice = None;
        match (order, self.state) {
            (Order::Quit, _) => self.leave = Some(Leave::Over),
            (Order::Debug, _) => self.leave = Some(Leave::Debug),
            (Order::Pause, State::Paused) => self.state = State::Going,
            (Order::Pause, State::Going | State::Waiting) => self.state = State::Paused,
            (Order::Step, State::Going | State::Waiting | State::Paused) => {
                let cause = self.player.run(1);
                self.note(cause, State::Paused, State::Paused);
            }
            (Order::Pause | Order::Step, State::Stopped(_)) => {}
            (Order::Faster, _) => self.tempo = self.tempo.faster(),
            (Order::Slower, _) => self.tempo = self.tempo.slower(),
            (Order::Back, _) => self.go_back(),
            (Order::Restart, _) => self.restart(),
            (Order::Save, _) => self.saves = true,
            (Order::Redraw, _) => self.forget(),
        }
    }

    // Types a key; if the machine stopped, RETURN ends the session.
    fn press(&mut self, key: u8) -> Result<(), RunFault>
        requires { key < 128 }
    {
        match self.state {
            State::Stopped(_) => {
                if key == RETURN {
                    self.leave = Some(Leave::Over);
                }
            }
            _ => {
                let has_room = key == RETURN || self.player.waiting() < KEYS_BEFORE_RETURN;
                if !has_room || !self.player.type_key(key)? {
                    self.rings = true;
                }
            }
        }
        Ok(())
    }

    // Handles typed bytes.
    fn handle_input(&mut self, bytes: &[u8]) -> Result<(), RunFault> {
        let mut ahead = bytes;
        while let Some((stroke, rest)) = first_stroke(ahead, self.is_ordered) {
            self.is_ordered = stroke == Stroke::Prefix;
            match stroke {
                Stroke::Key(key) => self.press(key)?,
                Stroke::Order(order) => self.carry_out(order),
                Stroke::Prefix | Stroke::Nothing => {}
            }
            ahead = rest;
        }
        Ok(())
    }

    // Runs to the goal.
    fn run_to_goal(&mut self) -> Option<Cause> {
        match &mut self.speaker {
            Some(speaker) => {
                speaker.attend(self.player.machine());
                self.player.run_to_observed(self.goal, speaker)
            }
            None => self.player.run_to(self.goal),
        }
    }

    // Runs the cycles that are due.
    fn go_on(&mut self, now: u64) {
        let late = now.saturating_sub(self.reckoned);
        self.reckoned = now;
        match self.state {
            State::Going | State::Waiting => {
                self.goal = self.goal.saturating_add(due(self.tempo.pace(), late));
                let cause = self.run_to_goal();
                self.note(cause, State::Going, State::Waiting);
            }
            State::Paused | State::Stopped(_) => {}
        }
        // Cycles that fell due while the machine waited are dropped.
        if self.state != State::Going {
            self.goal = self.player.machine().cycles();
        }
    }

    // Measures the speed, once a second.
    fn measure_speed(&mut self, now: u64) {
        if now.saturating_sub(self.mark.micros) < SPEED_PERIOD {
            return;
        }
        let cycles = self.player.machine().cycles();
        self.speed = cycles.saturating_sub(self.mark.cycles);
        self.mark = Mark {
            micros: now,
            cycles,
        };
    }

    // Returns whether the machine runs as fast as possible and the next draw is not due yet.
    fn is_ahead(&self, now: u64) -> bool {
        self.tempo.pace() == Pace::Max
            && self.state == State::Going
            && now.saturating_sub(self.drawn) < FRAME
    }

    // Returns what the panel is to show.
    fn face(&self) -> PanelContents {
        PanelContents {
            state: self.state,
            pace: self.tempo.pace(),
            speed: self.speed,
            saves: self.saves,
            has_hidden_graphics: has_hidden_graphics(self.player.machine().view().switches),
            notice: self.notice,
        }
    }
}

// Returns whether these switches show hi-res graphics.
fn has_hidden_graphics(switches: Switches) -> bool
    ensures { result ≡ (not switches.text && switches.hires) }
{
    !switches.text && switches.hires
}

// Returns what a stop means, in a line, or an empty text if there is no stop.
fn stop_text(alloc: Global, session: &Session<'_>, pc: u16) -> Result<Vec<u8>, RunFault> {
    let mut text = Vec::new(alloc);
    if let Some(cause) = session.cause() {
        match report_stop(
            alloc,
            session.assembled,
            pc,
            cause,
            &mut ToWrite::new(&mut text),
        ) {
            Ok(()) => {}
            // Writing to a text in memory fails only if memory is short.
            Err(_) => return Err(RunFault::Memory),
        }
    }
    Ok(text)
}

// Writes the panel if it changed.
fn put_face<W: Output>(
    alloc: Global,
    session: &mut Session<'_>,
    writer: &mut W,
) -> Result<(), RunFault> {
    let face = session.face();
    if session.face == Some(face) {
        return Ok(());
    }
    let pc = session.player.machine().regs().pc;
    let told = stop_text(alloc, session, pc)?;
    put_panel(&face, told.as_slice(), session.room, writer)?;
    session.face = Some(face);
    Ok(())
}

// Writes the registers and counts if steps were executed.
fn put_steps<W: Output>(
    alloc: Global,
    session: &mut Session<'_>,
    writer: &mut W,
) -> Result<(), RunFault> {
    let machine = session.player.machine();
    let steps = Some(machine.steps());
    if session.counted != steps {
        put_counts(alloc, machine, writer)?;
        session.counted = steps;
    }
    Ok(())
}

// Writes when the speaker moved since the last draw.
fn put_moves<W: Output>(session: &mut Session<'_>, writer: &mut W) -> Result<(), WriteFault> {
    let rate = second(session.tempo.pace());
    match &mut session.speaker {
        Some(speaker) => speaker.report(rate, writer),
        None => Ok(()),
    }
}

// Writes the cells that changed in one piece, so that a terminal never shows half of them.
fn draw<W: Output>(
    alloc: Global,
    session: &mut Session<'_>,
    now: u64,
    output: &mut W,
) -> Result<(), RunFault> {
    let is_lit = now / BLINK % 2 == 1;
    let shot = Shot::new(&session.player.machine().view(), is_lit);
    let mut frame = Vec::new(alloc);
    let mut writer = ToWrite::new(&mut frame);
    session.measure_speed(now);
    session.refresh(now);
    put_moves(session, &mut writer)?;
    put_changes(&session.shot, &shot, session.colours, &mut writer)?;
    put_face(alloc, session, &mut writer)?;
    put_steps(alloc, session, &mut writer)?;
    if session.rings {
        put(BELL, &mut writer)?;
    }
    session.rings = false;
    session.shot = Some(shot);
    session.drawn = now;
    Ok(put(frame.as_slice(), output)?)
}

// Takes one turn: reads and handles the input, runs the cycles that are due, and draws if it is time. At `Pace::Max`, it
// runs further cycles until the next check for keys.
fn take_turn<R: Input, W: Output, C: Clock>(
    alloc: Global,
    session: &mut Session<'_>,
    clock: &mut C,
    input: &mut R,
    output: &mut W,
) -> Result<(), RunFault> {
    let mut typed = [0u8; TYPED];
    let count = match input.read(&mut typed) {
        Ok(count) => count,
        Err(_) => return Err(RunFault::Read),
    };
    session.handle_input(&typed[..count])?;
    let mut now = clock.micros();
    session.go_on(now);
    for _ in 0..MOST_STRETCHES {
        if !session.is_ahead(now) {
            break;
        }
        now = clock.micros();
        session.go_on(now);
    }
    if now.saturating_sub(session.drawn) >= FRAME || session.leave.is_some() {
        draw(alloc, session, now, output)?;
    }
    Ok(())
}

/// Plays until the session leaves the terminal. It reads what was typed, handles it, runs the cycles that are due by
/// `clock`, and draws what changed, at most thirty times a second. The first draw is complete.
///
/// A read of `input` must return what was typed, or nothing within a tenth of a second; at `Pace::Max`, it must
/// return at once. Fails if a read or write fails, or if memory is short; the session then ends.
pub fn play<R: Input, W: Output, C: Clock>(
    alloc: Global,
    session: &mut Session<'_>,
    clock: &mut C,
    input: &mut R,
    output: &mut W,
) -> Result<Leave, RunFault> {
    let now = clock.micros();
    session.reckoned = now;
    session.leave = None;
    session.forget();
    draw(alloc, session, now, output)?;
    for _ in 0..u64::MAX {
        if let Some(leave) = session.leave {
            return Ok(leave);
        }
        take_turn(alloc, session, clock, input, output)?;
    }
    Ok(Leave::Over)
}
