//! The meaning of a line while a program is waiting for a key.

ghost use Rattle.std.specs.Prelude.{◌≡◌};
ghost use Rattle.a2_monitor_session.specs.Presses.{pressed, HasCode};

use a2_tty::{Stroke, first_stroke};

/// The key that ends a line.
const RETURN: u8 = 0x0D;

/// What was pressed while a program was waiting for a key.
#[derive(Clone, Copy, Debug, PartialEq, Eq)]
pub(crate) enum Press {
    /// A key of the Apple, 0 to 127.
    Key(u8),
    /// The key that stops the program.
    Stop,
    /// Something that is not a key of the Apple.
    Nothing,
}

/// Returns the meaning of the bytes that the terminal sent for a key, without the end of the line. An empty line is RETURN.
pub(crate) fn press_of(line: &[u8]) -> Press
    ensures value { result ≡ pressed line.now }
    ensures code { HasCode result }
{
    match first_stroke(line, false) {
        None => Press::Key(RETURN),
        Some((Stroke::Key(key), [])) => Press::Key(key),
        Some((Stroke::Prefix, [])) => Press::Stop,
        Some(_) => Press::Nothing,
    }
}
