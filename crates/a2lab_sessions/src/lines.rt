//! The lines that are typed in a session.

ghost use Rattle.std.specs.Prelude.{◌≤◌};

use a2_run::RunFault;
use a2_stream::{Input, Output};
use a2_syntax::Fault;
use a2_tty::{Console, Editor, Partner, TalkFault, Typist, talk};
use a2lab_commands::{INPUT, Refusal, Terminal, report_fault};
use std::alloc::Global;
use std::cell::Cell;

/// The prompt before each line of a session.
#[derive(Clone, Copy)]
pub enum Prompt {
    Nothing,
    Monitor,
    Debugger,
}

/// How the lines of a session are typed.
#[derive(Clone, Copy)]
pub struct Lines<'a> {
    pub prompt: Prompt,
    /// The columns of a row, if the terminal gives each byte; lines are edited then.
    pub columns: Option<&'a Cell<usize>>,
    /// Whether Ctrl-L gives the line `panes`.
    pub has_panes: bool,
    /// Whether the program waits for a key, so that what is typed is no line.
    pub keys: Option<&'a Cell<bool>>,
}

// The bytes of a prompt.
fn prompt_text(prompt: Prompt) -> &'static [u8] {
    match prompt {
        Prompt::Nothing => b"",
        Prompt::Monitor => b"*",
        Prompt::Debugger => b"(a2lab) ",
    }
}

// The line that Ctrl-L gives, if any.
fn line_by_clear(has_panes: bool) -> Option<&'static [u8]> {
    if has_panes { Some(b"panes") } else { None }
}

/// Returns the columns of a terminal that gives each byte.
pub fn columns_of(terminal: Option<Terminal>) -> Option<Cell<usize>> {
    match terminal {
        Some(terminal) => Some(Cell::new(usize::from(terminal.columns))),
        None => None,
    }
}

// Reports why a session ended, if something failed, and returns the exit status.
fn report_session_end<E: Output>(answer: Result<(), TalkFault>, complaints: &mut E) -> u8
    ensures { result ≤ 5 }
{
    match answer {
        Ok(()) => 0,
        Err(TalkFault::Read) => Refusal::Unread(INPUT).report(complaints),
        Err(TalkFault::Write) => report_fault(RunFault::Write, complaints),
        Err(TalkFault::Endless) => report_fault(RunFault::Script(Fault::TooLarge(0)), complaints),
    }
}

/// Gives each line of the input to `partner` until the input ends, and returns the exit status. If the terminal gives each byte, lines
/// are edited, and shown on `complaints`.
pub fn talked<P: Partner, R: Input, W: Output, E: Output>(
    alloc: Global,
    partner: &mut P,
    lines: Lines<'_>,
    input: &mut R,
    output: &mut W,
    complaints: &mut E,
) -> u8
    ensures { result ≤ 5 }
{
    let prompt = prompt_text(lines.prompt);
    let Some(columns) = lines.columns else {
        let answer = talk(partner, prompt, input, output);
        return report_session_end(answer, complaints);
    };
    let Ok(editor) = Editor::new(alloc) else {
        return report_fault(RunFault::Memory, complaints);
    };
    let console = Console {
        reader: input,
        echo: complaints,
        prompt,
        columns,
        by_clear: line_by_clear(lines.has_panes),
        keys: lines.keys,
    };
    // The prompt is drawn with the line.
    let answer = talk(partner, b"", &mut Typist::new(console, editor), output);
    report_session_end(answer, complaints)
}
