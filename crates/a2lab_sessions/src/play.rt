//! The command `play`: its arguments, the session, and what is printed after it.

ghost use Rattle.std.specs.Prelude.{◌≡◌, ◌≤◌, ℕ, List, SomeIff, IfSome, IfNone, IfOk, IfErr};
ghost use Rattle.std.specs.Str.Parse.{digits_value};
ghost use Rattle.a2_play.specs.declared.pace.Pace.{Pace as DeclaredPace};
ghost use Rattle.a2_arguments.specs.Found.{found_of};
ghost use Rattle.a2lab_sessions.specs.PlayWords.{IsPaceNumber, IsPace};
ghost use Rattle.a2lab_sessions.specs.PlayWords.{ArePlayArgs, AreColoursOf, AskForNoSession, IsFileOf, IsPaceOf};

use crate::turning::debug_here;
use a2_arguments::Arguments;
use a2_host::{Desk, Shelf};
use a2_play::{Clock, Leave, Pace, Player, Session, TerminalSize, play, put_keys};
use a2_run::{AssembledText, RunFault};
use a2_stream::{Input, Output, WriteFault, put};
use a2_symbols::report_stop;
use a2_timed_keys::put_record;
use a2_tty::Colours;
use a2lab_commands::options::{COLOURS, PACE, RECORD, SPEAKER};
use a2lab_commands::{
    CommandArgs, Host, Message, Refusal, Terminal, Terminals, Value, assembled_text, colours_named,
    end_status, expanded_text_of, is_input, put_end_state, refuse_overwriting_input, report,
    settled,
};

// Switches a terminal to its alternate screen, without a cursor.
const ENTER: &[u8] = b"\x1B[?1049h\x1B[?25l\x1B[2J";

// Switches it back.
const LEAVE: &[u8] = b"\x1B[0m\x1B[?25h\x1B[?1049l";

// The fewest rows of a terminal: those of the Apple's screen.
const LEAST_ROWS: u16 = 24;

// The fewest columns of a terminal: those of the Apple's screen and of the panel beside it.
const LEAST_COLUMNS: u16 = 80;

/// The arguments of `play`.
#[derive(Drop)]
pub struct PlayArgs<'a> {
    pub file: &'a str,
    pub pace: Pace,
    /// The colours, or `None` for those of the terminal.
    pub colours: Option<Colours>,
    /// The file to which the keys and their steps are written.
    pub record_to: Option<&'a str>,
    /// Whether the moves of the speaker are reported.
    pub speaker: bool,
}

// The cycles per second that a word spells.
fn pace_number(word: &str) -> Option<u32>
    ensures { SomeIff result (IsPaceNumber word.now) (digits_value 10 word.now) }
{
    if word.len() > 10 {
        return None;
    }
    if word.starts_with('+') {
        return None;
    }
    let cycles: u32 = word.parse().ok()?;
    if Pace::is_in_bounds(cycles) {
        Some(cycles)
    } else {
        None
    }
}

// The pace that a word names.
fn pace_named(word: &str) -> Option<Pace>
    ensures some { IfSome result (λ pace. IsPace word.now pace) }
    ensures only { IfSome result (λ pace. (other : DeclaredPace) → IsPace word.now other → other ≡ pace) }
    ensures none { IfNone result ((pace : DeclaredPace) → IsPace word.now pace → ⊥) }
{
    if word == "max" {
        return Some(Pace::Max);
    }
    match pace_number(word) {
        Some(cycles) => Some(Pace::Cycles(cycles)),
        None => None,
    }
}

// Returns the pace that the arguments name, or that of an Apple II.
fn pace_in<'a>(arguments: &Arguments<'a>) -> Result<Pace, Refusal<'a>>
    ensures named { IfOk result (λ pace. IsPaceOf (found_of arguments.now) pace) }
    ensures refused { IfErr result (λ _. (pace : DeclaredPace) → IsPaceOf (found_of arguments.now) pace → ⊥) }
{
    let Some(text) = arguments.text(&PACE) else {
        return Ok(Pace::apple());
    };
    match pace_named(text) {
        Some(pace) => Ok(pace),
        None => Err(Refusal::of(Message::UnknownPace, text)),
    }
}

// Returns the colours that the arguments name, or `None` for those of the terminal.
fn colours_in(arguments: &Arguments<'_>) -> Option<Colours>
    ensures { AreColoursOf (found_of arguments.now) result }
{
    match arguments.text(&COLOURS) {
        Some(text) => colours_named(text),
        None => None,
    }
}

// Returns the file that the arguments name. Standard input has the keys, and so no source.
fn file_in<'a>(arguments: &Arguments<'a>) -> Result<&'a str, Refusal<'a>>
    ensures named { IfOk result (λ file. IsFileOf (found_of arguments.now) file.now) }
    ensures refused { IfErr result (λ _. (file : List ℕ) → IsFileOf (found_of arguments.now) file → ⊥) }
{
    match arguments.file() {
        Some(file) if !is_input(file) => Ok(file),
        _ => Err(Refusal::of_two(Message::NeedsFile, "play", "play")),
    }
}

/// Returns the arguments of `play`. An error is one of its file or of its pace.
pub fn play_args<'a>(arguments: &Arguments<'a>) -> Result<PlayArgs<'a>, Refusal<'a>>
    ensures made { IfOk result (λ args. ArePlayArgs (found_of arguments.now) args) }
    ensures refused { IfErr result (λ _. AskForNoSession (found_of arguments.now)) }
{
    Ok(PlayArgs {
        file: file_in(arguments)?,
        pace: pace_in(arguments)?,
        colours: colours_in(arguments),
        record_to: arguments.text(&RECORD),
        speaker: arguments.has(&SPEAKER),
    })
}

// Writes the registers, the cause of the stop, and the keys if the session is to print them.
fn put_end<W: Output>(session: &Session<'_>, output: &mut W) -> Result<(), WriteFault> {
    let player = session.player();
    put_end_state(player.machine(), session.cause(), output)?;
    if session.saves() {
        put_keys(player.log(), output)?;
    }
    Ok(())
}

// Writes the keys of a session with their steps to a file, which is replaced whole or not at all.
fn record_into<D: Desk>(session: &Session<'_>, file: &str, desk: &mut D) -> Result<(), WriteFault> {
    let player = session.player();
    let mut draft = desk.begin(file)?;
    let answer = put_record(player.log(), player.machine().steps(), &mut draft);
    settled(file, draft, answer, desk)
}

// Writes the keys to a file if one is given, and returns the exit status.
fn save_record<D: Desk, E: Output>(
    session: &Session<'_>,
    record: Option<&str>,
    desk: &mut D,
    complaints: &mut E,
) -> u8
    ensures { result ≤ 5 }
{
    let Some(file) = record else {
        return 0;
    };
    match record_into(session, file, desk) {
        Ok(()) => 0,
        Err(_) => {
            report(Message::KeysNotWritten, &[Value::Text(file)], complaints);
            4
        }
    }
}

// Plays on the terminal's alternate screen. The screen is switched back at every end, and while the debugger runs.
fn played<S, D, C: Clock, R: Input, W: Output, E: Output>(
    source: &[u8],
    session: &mut Session<'_>,
    terminal: Terminal,
    host: &mut Host<S, D, C, R, W, E>,
) -> Result<(), RunFault> {
    let alloc = host.alloc;
    for _ in 0..u64::MAX {
        put(ENTER, &mut host.output)?;
        let answer = play(
            alloc,
            session,
            &mut host.clock,
            &mut host.input,
            &mut host.output,
        );
        put(LEAVE, &mut host.output)?;
        match answer? {
            Leave::Over => break,
            Leave::Debug => debug_here(source, session, terminal, host)?,
        }
    }
    Ok(())
}

// Prints where a session ended and why it stopped, and returns the exit status.
fn report_end<S, D, C, R, W: Output, E: Output>(
    assembled: &AssembledText<'_>,
    session: &Session<'_>,
    host: &mut Host<S, D, C, R, W, E>,
) -> Result<u8, WriteFault>
    ensures { IfOk result (λ status. status ≤ 5) }
{
    put_end(session, &mut host.output)?;
    let status = end_status(session.cause());
    if let (Some(cause), 3) = (session.cause(), status) {
        let pc = session.player().machine().regs().pc;
        // If this fails, there is no place left to report it.
        let _ = report_stop(host.alloc, assembled, pc, cause, &mut host.complaints);
    }
    Ok(status)
}

// Plays a source at a terminal, and writes the keys that were typed to a file if one is given. The exit status is 3 if the machine
// stopped for another cause than RETURNED or BRK.
fn play_source<'a, S, D: Desk, C: Clock, R: Input, W: Output, E: Output>(
    source: &[u8],
    order: &PlayArgs<'_>,
    terminal: Terminal,
    host: &mut Host<S, D, C, R, W, E>,
) -> Result<u8, Refusal<'a>>
    ensures { IfOk result (λ status. status ≤ 5) }
{
    let file = Some(order.file);
    let assembled = assembled_text(host.alloc, file, source, &mut host.complaints)?;
    let player = Player::new(host.alloc, assembled.program())?;
    let mut session = Session::new(
        &assembled,
        player,
        order.pace,
        order.colours.unwrap_or(terminal.colours),
        TerminalSize {
            rows: terminal.rows,
            columns: terminal.columns,
        },
    );
    if order.speaker {
        session.listen(host.alloc)?;
    }
    let answer = played(source, &mut session, terminal, host);
    let kept = save_record(
        &session,
        order.record_to,
        &mut host.desk,
        &mut host.complaints,
    );
    answer?;
    let status = report_end(&assembled, &session, host)?;
    Ok(if kept != 0 { kept } else { status })
}

// Returns the terminal, or an error if nobody can play at it.
fn terminal_for<'a>(seat: Terminals, terminal: Option<Terminal>) -> Result<Terminal, Refusal<'a>> {
    if !seat.stdin || !seat.stdout {
        return Err(Refusal::new(Message::PlayWithoutTerminal));
    }
    let Some(terminal) = terminal else {
        return Err(Refusal::new(Message::PlayWithoutKeys));
    };
    if terminal.rows < LEAST_ROWS || terminal.columns < LEAST_COLUMNS {
        return Err(Refusal::of_terminal(Message::SmallTerminal, terminal));
    }
    Ok(terminal)
}

/// Plays the source that the arguments name. The exit status is 2 if standard input or output is not a terminal, and that of the run
/// otherwise.
#[inline(never)]
pub fn play_of<'a, S: Shelf, D: Desk, C: Clock, R: Input, W: Output, E: Output>(
    given: &CommandArgs<'_, 'a>,
    host: &mut Host<S, D, C, R, W, E>,
) -> Result<u8, Refusal<'a>>
    ensures { IfOk result (λ status. status ≤ 5) }
{
    let order = play_args(given.arguments)?;
    let terminal = terminal_for(given.seat, given.terminal)?;
    let file = Some(order.file);
    refuse_overwriting_input(Message::KeysOverwrite, order.record_to, file, &host.desk)?;
    let source = expanded_text_of(
        host.alloc,
        file,
        &mut host.shelf,
        &mut host.input,
        &mut host.complaints,
    )?;
    play_source(source.as_slice(), &order, terminal, host)
}
