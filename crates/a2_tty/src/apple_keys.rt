//! The keys and commands that typed bytes stand for.

ghost use Rattle.std.specs.Prelude.{◌≡◌, ◌<◌, ◌≤◌, Some, None, [], length, IfSome, IfNone};
ghost use Rattle.a2_tty.specs.AppleKeys as strokes;

use a2_text::{capital, front_len};

/// The byte that begins a command to the session: Ctrl-].
const PREFIX: u8 = 0x1D;

/// The first byte of an arrow key, and of other keys that an Apple II does not have.
const ESCAPE: u8 = 0x1B;

/// The arrows of an Apple II, and the byte that a terminal sends for the key above Return.
const LEFT: u8 = 0x08;

const RIGHT: u8 = 0x15;

const RUB_OUT: u8 = 0x7F;

/// A command to the session, not to the machine.
#[derive(Clone, Copy, Debug, PartialEq, Eq)]
pub enum Order {
    /// Ends the session.
    Quit,
    /// Pauses the machine, or resumes it.
    Pause,
    /// Executes one step, and pauses.
    Step,
    /// Goes back one second.
    Back,
    /// Doubles the pace.
    Faster,
    /// Halves the pace.
    Slower,
    /// Restarts the machine, with no key typed.
    Restart,
    /// Reports at the end which keys were typed.
    Save,
    /// Enters the debugger, or leaves it.
    Debug,
    /// Draws the whole screen again.
    Redraw,
}

/// What was typed.
#[derive(Clone, Copy, Debug, PartialEq, Eq)]
pub enum Stroke {
    /// A key of the Apple's keyboard, 0 to 127.
    Key(u8),
    /// The prefix of a command whose character is not typed yet.
    Prefix,
    /// A command.
    Order(Order),
    /// Anything that is neither a key nor a command.
    Nothing,
}

// Returns the key for a byte: letters become upper-case, and RUB OUT becomes the left arrow.
fn key_of(byte: u8) -> Stroke
    ensures value { result ≡ strokes.key_of byte }
    ensures code { strokes.HasSevenBits result }
{
    match byte {
        RUB_OUT => Stroke::Key(LEFT),
        0..=0x7E => Stroke::Key(capital(byte)),
        _ => Stroke::Nothing,
    }
}

// Returns the meaning of a byte after the prefix. The prefix typed twice is its own key.
fn order_of(byte: u8) -> Stroke
    ensures value { result ≡ strokes.order_of byte }
    ensures code { strokes.HasSevenBits result }
{
    match capital(byte) {
        b'Q' => Stroke::Order(Order::Quit),
        b'P' => Stroke::Order(Order::Pause),
        b'S' => Stroke::Order(Order::Step),
        b'B' => Stroke::Order(Order::Back),
        b'+' | b'=' => Stroke::Order(Order::Faster),
        b'-' => Stroke::Order(Order::Slower),
        b'R' => Stroke::Order(Order::Restart),
        b'K' => Stroke::Order(Order::Save),
        b'D' => Stroke::Order(Order::Debug),
        b'L' => Stroke::Order(Order::Redraw),
        PREFIX => Stroke::Key(PREFIX),
        _ => Stroke::Nothing,
    }
}

// Returns the key for an arrow, given its letter. There are no keys for up and down.
fn arrow_of(letter: u8) -> Stroke
    ensures value { result ≡ strokes.arrow_of letter }
    ensures code { strokes.HasSevenBits result }
{
    match letter {
        b'C' => Stroke::Key(RIGHT),
        b'D' => Stroke::Key(LEFT),
        _ => Stroke::Nothing,
    }
}

// Returns the bytes after a final byte of a sequence.
fn after_final(bytes: &[u8]) -> Option<&[u8]>
    ensures some { IfSome result (λ rest. strokes.after_final bytes.now ≡ Some rest.now) }
    ensures none { IfNone result (strokes.after_final bytes.now ≡ None) }
    ensures shorter { IfSome result (λ rest. length rest.now < length bytes.now) }
{
    match bytes {
        [b'@'..=b'~', rest @ ..] => Some(rest),
        _ => None,
    }
}

// Returns the bytes after the parameters of a sequence.
fn after_parameters(bytes: &[u8]) -> &[u8]
    ensures value { result.now ≡ strokes.after_parameters bytes.now }
    ensures shorter { length result.now ≤ length bytes.now }
{
    &bytes[front_len(bytes, |byte| matches!(byte, b' '..=b'?'))..]
}

// Returns the bytes after a sequence that a terminal sends for a key, given the bytes after its ESC.
fn after_sequence(bytes: &[u8]) -> Option<&[u8]>
    ensures some { IfSome result (λ rest. strokes.after_sequence bytes.now ≡ Some rest.now) }
    ensures none { IfNone result (strokes.after_sequence bytes.now ≡ None) }
    ensures shorter { IfSome result (λ rest. length rest.now < length bytes.now) }
{
    match bytes {
        [b'[', rest @ ..] => after_final(after_parameters(rest)),
        [b'O', rest @ ..] => after_final(rest),
        _ => None,
    }
}

// Returns what the bytes after an ESC stand for: nothing if they are the rest of a key that an Apple II does not have, and otherwise
// the key ESC.
fn escaped(bytes: &[u8]) -> (Stroke, &[u8])
    ensures value { strokes.escaped (strokes.after_sequence bytes.now) bytes.now ≡ record { stroke = result.0; rest = result.1.now } }
    ensures code { strokes.HasSevenBits result.0 }
    ensures shorter { length result.1.now ≤ length bytes.now }
{
    match after_sequence(bytes) {
        Some(rest) => (Stroke::Nothing, rest),
        None => (Stroke::Key(ESCAPE), bytes),
    }
}

/// Returns the first key or command that the typed bytes stand for and the bytes after it, or `None` if there are no
/// bytes. `is_ordered` says whether the prefix was typed before them. Keys are those of the Apple's keyboard. Letters
/// are upper-case, RUB OUT and the left arrow are $08, the right arrow is $15, and all other codes below $80 stand for
/// themselves. There are no keys for codes from $80 up. The bytes of a key that an Apple II does not have, such as the up arrow or F1,
/// stand together for nothing, and so do those that a terminal sends around pasted text (ECMA-48, section 5.4). This project's profile;
/// Apple II Reference Manual (1979), page 7.
pub fn first_stroke(bytes: &[u8], is_ordered: bool) -> Option<(Stroke, &[u8])>
    ensures value { IfSome result (λ found. strokes.first is_ordered bytes.now ≡ Some (record { stroke = found.0; rest = found.1.now })) }
    ensures none { IfNone result (bytes.now ≡ []) }
    ensures code { IfSome result (λ found. strokes.HasSevenBits found.0) }
    ensures shorter { IfSome result (λ found. length found.1.now < length bytes.now) }
{
    match bytes {
        [] => None,
        [byte, rest @ ..] if is_ordered => Some((order_of(*byte), rest)),
        [PREFIX, rest @ ..] => Some((Stroke::Prefix, rest)),
        [ESCAPE, b'[' | b'O', letter @ b'A'..=b'D', rest @ ..] => Some((arrow_of(*letter), rest)),
        [ESCAPE, rest @ ..] => Some(escaped(rest)),
        [byte, rest @ ..] => Some((key_of(*byte), rest)),
    }
}
