//! The lines that are edited at a terminal, as an input.

ghost use Rattle.std.specs.Prelude.{◌≡◌, ◌++◌, ◌∷◌, [], take};

use crate::line_editor::drawing::put_line;
use crate::line_editor::editor::{Act, Editor};
use crate::line_editor::keys::{Sequence, hear};
use crate::line_editor::line::MOST_BYTES;
use a2_stream::{Input, Output, ReadFault, put};
use arrayvec::ArrayVec;
use std::cell::Cell;

/// A line and its end.
type Given = ArrayVec<u8, 256>;

/// Bytes of a terminal that were read together and are not used yet: at most as many as the longest key has.
type Ahead = ArrayVec<u8, 8>;

/// The bytes that clear a terminal's screen, and the byte that rings its bell.
const CLEAR: &[u8] = b"\x1B[H\x1B[2J";

const BELL: &[u8] = b"\x07";

/// The terminal at which lines are typed.
#[derive(Drop)]
pub struct Console<'a, R, E> {
    /// The terminal's bytes, as they are typed.
    pub reader: &'a mut R,
    /// The output that shows them.
    pub echo: &'a mut E,
    /// The text before each line.
    pub prompt: &'static [u8],
    /// How many columns a row has for prompt and line.
    pub columns: &'a Cell<usize>,
    /// The line that Ctrl-L gives if no line has been begun. If this is `None`, Ctrl-L draws everything again.
    pub by_clear: Option<&'static [u8]>,
    /// Whether the next input is a key instead of a line, as set by the program that answers the lines. The bytes that
    /// the terminal sends for a key are then given as a line; a key that is itself the end of a line gives an empty
    /// line. If this is `None`, all input is lines.
    pub keys: Option<&'a Cell<bool>>,
}

/// An input of lines that are edited at a terminal. A read gives a byte of the line that was ended by Return, or its
/// line feed. If none is left, the read shows the prompt and waits for the next line. The input ends at Ctrl-D on an
/// empty line, and when the terminal sends nothing more; a line feed is shown then. A write that fails is not reported:
/// the line is still read.
#[derive(Drop)]
pub struct Typist<'a, R, E> {
    console: Console<'a, R, E>,
    ahead: Ahead,
    editor: Editor,
    given: Given,
    sent: usize,
    failed: u64,
}

// Draws the line.
fn draw<R, E: Output>(console: &mut Console<'_, R, E>, editor: &Editor) {
    let _ = put_line(
        console.prompt,
        console.columns.get(),
        editor.line(),
        console.echo,
    );
}

// Returns the line that is given, at most 255 bytes, and its end.
#[tactic(auto, using(std::proofs::lemmas::List::take_min))]
fn submitted_line(line: &[u8]) -> Given
    ensures { result.items ≡ take 255 line.now ++ 10 ∷ [] }
{
    let mut given = Given::new();
    given
        .try_extend_from_slice(&line[..MOST_BYTES.min(line.len())])
        .unwrap();
    given.push(b'\n');
    given
}

// Does what a byte requires, and returns the line if the byte ended one.
fn follow<R, E: Output>(
    console: &mut Console<'_, R, E>,
    editor: &mut Editor,
    act: Act,
) -> Option<Given> {
    match act {
        Act::Nothing | Act::Leave => {}
        Act::Draw => draw(console, editor),
        Act::Ring => {
            let _ = put(BELL, console.echo);
        }
        Act::Clear => match console.by_clear {
            Some(line) if editor.line().bytes().is_empty() => return Some(submitted_line(line)),
            _ => {
                let _ = put(CLEAR, console.echo);
                draw(console, editor);
            }
        },
        Act::Take => {
            let given = submitted_line(editor.line().bytes());
            editor.finish();
            let _ = put(b"\n", console.echo);
            return Some(given);
        }
    }
    None
}

// Returns the next byte that is typed, if there is one.
fn typed_byte<R: Input>(reader: &mut R, ahead: &mut Ahead) -> Result<Option<u8>, ReadFault> {
    if let Some(byte) = ahead.pop_at(0) {
        return Ok(Some(byte));
    }
    let mut byte = [0u8; 1];
    match reader.read(&mut byte)? {
        0 => Ok(None),
        _ => Ok(Some(byte[0])),
    }
}

// Returns the next line that is typed, if there is one.
fn typed_line<R: Input, E: Output>(
    console: &mut Console<'_, R, E>,
    ahead: &mut Ahead,
    editor: &mut Editor,
) -> Result<Option<Given>, ReadFault> {
    draw(console, editor);
    for _ in 0..u64::MAX {
        let Some(byte) = typed_byte(console.reader, ahead)? else {
            break;
        };
        let act = editor.press(byte);
        if act == Act::Leave {
            break;
        }
        let given = follow(console, editor, act);
        if given.is_some() {
            return Ok(given);
        }
    }
    let _ = put(b"\n", console.echo);
    Ok(None)
}

// Reads the bytes that the terminal sends at once, if none are left.
fn look_ahead<R: Input>(reader: &mut R, ahead: &mut Ahead) -> Result<(), ReadFault> {
    if ahead.is_empty() {
        let mut bytes = [0u8; 8];
        let count = reader.read(&mut bytes)?;
        ahead.try_extend_from_slice(&bytes[..count]).unwrap();
    }
    Ok(())
}

// Returns the bytes of the next key that is typed, as a line, or `None` if there is no key.
fn typed_key<R: Input>(reader: &mut R, ahead: &mut Ahead) -> Result<Option<Given>, ReadFault> {
    look_ahead(reader, ahead)?;
    let mut given = Given::new();
    let mut sequence = Sequence::Plain;
    for _ in 0..ahead.len() {
        let Some(byte) = ahead.pop_at(0) else {
            break;
        };
        given.push(byte);
        sequence = hear(sequence, byte).next;
        if sequence == Sequence::Plain {
            break;
        }
    }
    match given.as_slice() {
        [] => return Ok(None),
        [b'\n'] => {}
        _ => given.push(b'\n'),
    }
    Ok(Some(given))
}

// Returns whether the next input is a key.
fn takes_keys(keys: Option<&Cell<bool>>) -> bool {
    match keys {
        Some(keys) => keys.get(),
        None => false,
    }
}

impl<'a, R: Input, E: Output> Typist<'a, R, E> {
    /// Returns an input of the lines that are typed at `console` and edited by `editor`. No call has failed yet.
    pub fn new(console: Console<'a, R, E>, editor: Editor) -> Typist<'a, R, E> {
        Typist {
            console,
            ahead: Ahead::new(),
            editor,
            given: Given::new(),
            sent: 0,
            failed: 0,
        }
    }
}

impl<R: Input, E: Output> Input for Typist<'_, R, E> {
    ghost use Rattle.std.specs.Prelude.{None};

    // The lines that will be typed are not known in advance.
    ghost giver = { λ s. record { bytes = None; failures = s.failed } };

    fn read(&mut self, buffer: &mut [u8]) -> Result<usize, ReadFault> {
        let Some(room) = buffer.first_mut() else {
            return Ok(0);
        };
        if self.sent >= self.given.len() {
            let typed = if takes_keys(self.console.keys) {
                typed_key(self.console.reader, &mut self.ahead)
            } else {
                typed_line(&mut self.console, &mut self.ahead, &mut self.editor)
            };
            match typed {
                Ok(Some(given)) => self.given = given,
                Ok(None) => return Ok(0),
                Err(fault) => {
                    self.failed = self.failed.saturating_add(1);
                    return Err(fault);
                }
            }
            self.sent = 0;
        }
        match self.given.as_slice().get(self.sent) {
            Some(byte) => *room = *byte,
            None => return Ok(0),
        }
        self.sent += 1;
        Ok(1)
    }
}
