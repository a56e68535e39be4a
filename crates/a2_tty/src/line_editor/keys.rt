//! Keys, decoded from the bytes of a terminal.

ghost use Rattle.std.specs.Prelude.{◌≡◌};
ghost use Rattle.a2_tty.specs.EditorKeys as keys;

/// What a key does.
#[derive(Clone, Copy, Debug, PartialEq, Eq)]
pub(crate) enum Key {
    /// A character, from $20 to $7E.
    Letter(u8),
    /// Moves the cursor to the left.
    Left,
    /// Moves the cursor to the right.
    Right,
    /// Moves the cursor to the start of the line.
    Start,
    /// Moves the cursor to the end of the line.
    End,
    /// Deletes the character before the cursor.
    RubOut,
    /// Deletes the character at the cursor.
    Delete,
    /// Deletes everything from the cursor to the end of the line.
    DropRest,
    /// Deletes everything before the cursor.
    DropFront,
    /// Deletes the word before the cursor.
    DropWord,
    /// Shows an older line of the history.
    Older,
    /// Shows a newer line of the history.
    Newer,
    /// Draws everything again.
    Clear,
    /// Discards the line.
    GiveUp,
    /// Ends the line.
    Return,
    /// Ends the input if the line is empty, and otherwise deletes the character at the cursor.
    Leave,
}

/// The position in the bytes of a key.
#[derive(Clone, Copy, Debug, PartialEq, Eq)]
pub(crate) enum Sequence {
    /// Between keys.
    Plain,
    /// After ESC.
    Escape,
    /// After ESC and `[` or `O`.
    Opened,
    /// After these and a digit; or 0 after several digits, which do not make a key.
    Numbered(u8),
}

/// The effect of a byte: the position after it, and the key that it ended, if any.
#[derive(Clone, Copy, Debug, PartialEq, Eq)]
pub(crate) struct Heard {
    pub next: Sequence,
    pub key: Option<Key>,
}

// Returns the position between keys, with the key that ended, if any.
const fn ended(key: Option<Key>) -> Heard
    ensures { result ≡ keys.ended key }
{
    Heard {
        next: Sequence::Plain,
        key,
    }
}

// Returns a position inside the bytes of a key.
const fn amid(next: Sequence) -> Heard
    ensures { result ≡ keys.amid next }
{
    Heard { next, key: None }
}

// Returns the key that consists of one byte.
fn key_of(byte: u8) -> Option<Key>
    ensures { result ≡ keys.key_of byte }
{
    match byte {
        0x20..=0x7E => Some(Key::Letter(byte)),
        0x01 => Some(Key::Start),
        0x03 => Some(Key::GiveUp),
        0x04 => Some(Key::Leave),
        0x05 => Some(Key::End),
        0x08 | 0x7F => Some(Key::RubOut),
        0x0A | 0x0D => Some(Key::Return),
        0x0B => Some(Key::DropRest),
        0x0C => Some(Key::Clear),
        0x15 => Some(Key::DropFront),
        0x17 => Some(Key::DropWord),
        _ => None,
    }
}

// Returns the key whose bytes end with a letter.
fn lettered(letter: u8) -> Option<Key>
    ensures { result ≡ keys.lettered letter }
{
    match letter {
        b'A' => Some(Key::Older),
        b'B' => Some(Key::Newer),
        b'C' => Some(Key::Right),
        b'D' => Some(Key::Left),
        b'H' => Some(Key::Start),
        b'F' => Some(Key::End),
        _ => None,
    }
}

// Returns the key whose bytes are a digit and `~`.
fn numbered(digit: u8) -> Option<Key>
    ensures { result ≡ keys.numbered digit }
{
    match digit {
        b'1' | b'7' => Some(Key::Start),
        b'3' => Some(Key::Delete),
        b'4' | b'8' => Some(Key::End),
        _ => None,
    }
}

/// Returns the effect of a byte, 0 to 255, at this position. It is a character, a control character, or one of the
/// bytes of an arrow, Home, End or Delete, whose last byte ends the key. Anything else is not a key. This project's
/// profile; the bytes are those that an ANSI terminal sends.
pub(crate) fn hear(sequence: Sequence, byte: u8) -> Heard
    ensures { result ≡ keys.heard sequence byte }
{
    match (sequence, byte) {
        (Sequence::Plain | Sequence::Escape, 0x1B) => amid(Sequence::Escape),
        (Sequence::Plain, _) => ended(key_of(byte)),
        (Sequence::Escape, b'[' | b'O') => amid(Sequence::Opened),
        (Sequence::Escape, _) => ended(None),
        (Sequence::Opened, 0x30..=0x3F) => amid(Sequence::Numbered(byte)),
        (Sequence::Opened, _) => ended(lettered(byte)),
        (Sequence::Numbered(_), 0x30..=0x3F) => amid(Sequence::Numbered(0)),
        (Sequence::Numbered(digit), b'~') => ended(numbered(digit)),
        (Sequence::Numbered(_), _) => ended(None),
    }
}
