//! A writer that lets no control character pass.

ghost use Rattle.std.specs.Prelude.{◌≡◌, ◌≢◌, ◌<◌, ◌≤◌, None, IfOk, if◌then◌else◌};
ghost use Rattle.a2_stream.specs.Stream.{SendsOrBreaks};
ghost use Rattle.a2_shown.specs.Shown as show;

use a2_stream::{Output, WriteFault, put};

/// How much of a character of several bytes was written.
#[derive(Clone, Copy)]
pub struct Character {
    /// How many bytes of it may follow, at most 3.
    pub more: u8,
    /// The least value of the next of them.
    pub least: u8,
}

// Returns how many bytes follow the first byte of a character.
fn following(byte: u8) -> u8
    ensures { result ≡ show.following byte }
{
    match byte {
        0xC2..=0xDF => 1,
        0xE0..=0xEF => 2,
        0xF0..=0xF4 => 3,
        _ => 0,
    }
}

impl Character {
    /// Nothing of a character was written.
    pub const OUTSIDE: Character = Character {
        more: 0,
        least: 0x80,
    };

    // Returns whether a byte continues the character that is begun.
    fn continues(self, byte: u8) -> bool
        ensures { result ≡ show.continues self byte }
    {
        self.more > 0 && matches!(byte, 0x80..=0xBF) && self.least <= byte
    }

    /// Returns a byte as a terminal is given it after what was written before: itself, or `?` for a control character but a tab and the
    /// end of a line, and for a byte outside the characters of UTF-8. ECMA-48, sections 5.2 and 5.3; RFC 3629, section 4.
    pub fn shown(self, byte: u8) -> u8
        ensures value { result ≡ show.shown self byte }
        // A terminal obeys no byte below 32 but these two, nor DEL.
        ensures low { result ≢ 9 → result ≢ 10 → 32 ≤ result }
        ensures delete { result ≢ 127 }
        // It obeys a byte from $80 to $9F only outside a character, or after $C2.
        ensures high { 128 ≤ result → result < 160 → (0 < self.more) × (self.least ≤ result) }
    {
        match byte {
            b'\t' | b'\n' | b' '..=b'~' | 0xC2..=0xF4 => byte,
            _ if self.continues(byte) => byte,
            _ => b'?',
        }
    }

    /// Returns how much of a character was written after one more byte.
    pub fn after(self, byte: u8) -> Character
        ensures value { result ≡ show.after self byte }
    {
        if self.continues(byte) {
            return Character {
                more: self.more - 1,
                least: 0x80,
            };
        }
        Character {
            more: following(byte),
            least: if byte == 0xC2 { 0xA0 } else { 0x80 },
        }
    }

    /// Writes a text as a terminal is given it after what was written before, and notes how much of its last character was written.
    ///
    /// # Errors
    ///
    /// `WriteFault` at the first failed write. A front of the text was sent.
    pub fn put<W: Output>(&mut self, text: &[u8], writer: &mut W) -> Result<(), WriteFault>
        ensures text { SendsOrBreaks (W.taker writer.old) (W.taker writer.new) result (show.shown_text self.old text.now) }
        ensures character { IfOk result (λ _. self.new ≡ show.after_text self.old text.now) }
    {
        for byte in text {
            put(&[self.shown(*byte)], writer)?;
            *self = self.after(*byte);
        }
        Ok(())
    }
}

/// A writer that changes what goes to a terminal: it writes `?` for each control character but a tab and the end of a line, and for each
/// byte outside the characters of UTF-8. So a source, a file name or another text cannot move the cursor, change colours or set the
/// title of the window. What does not go to a terminal is written as it is. This project's profile.
#[derive(Drop)]
pub struct Shown<W> {
    inner: W,
    is_terminal: bool,
    character: Character,
    failed: u64,
}

impl<W: Output> Shown<W> {
    /// Returns a writer to `inner`, which goes to a terminal if `is_terminal`.
    pub fn new(inner: W, is_terminal: bool) -> Shown<W>
        ensures { result ≡ record { inner = inner; is_terminal = is_terminal; character = show.outside; failed = 0 } }
    {
        Shown {
            inner,
            is_terminal,
            character: Character::OUTSIDE,
            failed: 0,
        }
    }

    /// Writes a text as a terminal is given it, or as it is if it does not go to a terminal.
    ///
    /// # Errors
    ///
    /// `WriteFault` at the first failed write. A front of the text was sent.
    pub fn send(&mut self, text: &[u8]) -> Result<(), WriteFault>
        ensures sent { SendsOrBreaks (W.taker self.old.inner) (W.taker self.new.inner) result
            (if self.old.is_terminal then show.shown_text self.old.character text.now else text.now) }
        ensures kept { self.new ≡ record self.old { inner = self.new.inner; character = self.new.character } }
    {
        if self.is_terminal {
            self.character.put(text, &mut self.inner)
        } else {
            put(text, &mut self.inner)
        }
    }
}

impl<W: Output> Output for Shown<W> {
    // What was taken is not what was sent, and contracts of callers do not need it.
    ghost taker = { λ shown. record { bytes = None; failures = shown.failed } };

    fn write(&mut self, piece: &[u8]) -> Result<usize, WriteFault> {
        match self.send(piece) {
            Ok(()) => Ok(piece.len()),
            Err(fault) => {
                self.failed = self.failed.saturating_add(1);
                Err(fault)
            }
        }
    }
}
