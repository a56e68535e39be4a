//! The line that is edited.

ghost use Rattle.std.specs.Prelude.{◌≡◌, ◌-◌, ◌≤◌, length, take};
ghost use Rattle.a2_text.specs.Bytes.{is_blank as is_blank_of};
ghost use Rattle.a2_tty.specs.Lines as lines;

use a2_text::is_blank;
use arrayvec::ArrayVec;
use std::marker::Model;

/// The greatest number of bytes in a line.
pub(crate) const MOST_BYTES: usize = 255;

/// The bytes of a line.
pub(crate) type Bytes = ArrayVec<u8, MOST_BYTES>;

/// A line of at most 255 bytes, and the position of its cursor. Contracts see both.
#[derive(Drop)]
pub struct Line {
    bytes: Bytes,
    cursor: usize,
}

impl Model for Line {
    ghost use Rattle.std.specs.Prelude.{◌≤◌, length};
    ghost use Rattle.a2_tty.specs.Lines.{Edited};

    ghost Value = { Edited };

    ghost view = { λ l. record { bytes = l.bytes.items; cursor = l.cursor } };

    ghost invariant = { λ l. l.cursor ≤ length l.bytes.items };
}

// Returns the position reached from `at` by moving left past blanks, if `blanks` is true, or past bytes that are not
// blanks.
fn back_over(bytes: &[u8], at: usize, blanks: bool) -> usize
    requires { at ≤ length bytes.now }
    ensures place { result ≡ lines.back_over (λ c. lines.is_alike blanks (is_blank_of c)) bytes.now at }
    ensures within { result ≤ at }
{
    let mut here = at;
    while here > 0 && is_blank(bytes[here - 1]) == blanks {
        here -= 1;
    }
    here
}

impl Line {
    /// Returns an empty line.
    pub(crate) fn new() -> Line
        ensures { result ≡ lines.empty }
    {
        Line {
            bytes: Bytes::new(),
            cursor: 0,
        }
    }

    /// Returns the bytes of the line.
    pub fn bytes(&self) -> &[u8]
        ensures bytes { result.now ≡ self.now.bytes }
        ensures few { length result.now ≤ 255 }
    {
        self.bytes.as_slice()
    }

    /// Returns the position of the cursor: how many bytes are before it.
    pub fn cursor(&self) -> usize
        ensures cursor { result ≡ self.now.cursor }
        ensures within { result ≤ length self.now.bytes }
    {
        self.cursor
    }

    /// Returns whether the line is full.
    pub(crate) fn is_full(&self) -> bool
        ensures { result ≡ lines.is_full self.now }
    {
        self.bytes.is_full()
    }

    /// Replaces the line with these bytes, of which the first 255 are kept, and puts the cursor after the last one.
    #[tactic(auto, using(std::proofs::lemmas::List::take_min))]
    pub(crate) fn show(&mut self, bytes: &[u8])
        ensures { self.new ≡ lines.shown (take 255 bytes.now) }
    {
        self.bytes.clear();
        self.bytes
            .try_extend_from_slice(&bytes[..MOST_BYTES.min(bytes.len())])
            .unwrap();
        self.cursor = self.bytes.len();
    }

    /// Inserts a character at the cursor and moves the cursor after it. If the line is full, nothing changes.
    pub(crate) fn put(&mut self, letter: u8)
        ensures { self.new ≡ lines.with_letter letter self.old }
    {
        if !self.bytes.is_full() {
            self.bytes.insert(self.cursor, letter);
            self.cursor += 1;
        }
    }

    /// Moves the cursor to the left, if it can.
    pub(crate) fn go_left(&mut self)
        ensures { self.new ≡ lines.at (self.old.cursor - 1) self.old }
    {
        self.cursor = self.cursor.saturating_sub(1);
    }

    /// Moves the cursor to the right, if it can.
    pub(crate) fn go_right(&mut self)
        ensures { self.new ≡ lines.at (lines.right_of self.old) self.old }
    {
        if self.cursor < self.bytes.len() {
            self.cursor += 1;
        }
    }

    /// Moves the cursor to the start of the line.
    pub(crate) fn go_to_start(&mut self)
        ensures { self.new ≡ lines.at 0 self.old }
    {
        self.cursor = 0;
    }

    /// Moves the cursor after the last byte.
    pub(crate) fn go_to_end(&mut self)
        ensures { self.new ≡ lines.at (length self.old.bytes) self.old }
    {
        self.cursor = self.bytes.len();
    }

    // Deletes the bytes from a position to the cursor, and moves the cursor there.
    fn delete_from(&mut self, place: usize)
        requires { place ≤ self.old.cursor }
        ensures { self.new ≡ lines.without_from place self.old }
    {
        let mut kept = Bytes::new();
        kept.try_extend_from_slice(&self.bytes[..place]).unwrap();
        kept.try_extend_from_slice(&self.bytes[self.cursor..])
            .unwrap();
        self.bytes = kept;
        self.cursor = place;
    }

    /// Deletes the byte before the cursor, if there is one.
    pub(crate) fn rub_out(&mut self)
        ensures { self.new ≡ lines.without_from (self.old.cursor - 1) self.old }
    {
        self.delete_from(self.cursor.saturating_sub(1));
    }

    /// Deletes the byte at the cursor, if there is one.
    pub(crate) fn delete(&mut self)
        ensures { self.new ≡ lines.without_next self.old }
    {
        if self.cursor < self.bytes.len() {
            self.bytes.remove(self.cursor);
        }
    }

    /// Deletes everything from the cursor to the end of the line.
    pub(crate) fn drop_rest(&mut self)
        ensures { self.new ≡ lines.without_rest self.old }
    {
        self.bytes.truncate(self.cursor);
    }

    /// Deletes everything before the cursor.
    pub(crate) fn drop_front(&mut self)
        ensures { self.new ≡ lines.without_from 0 self.old }
    {
        self.delete_from(0);
    }

    /// Deletes the blanks before the cursor, and the word before those.
    pub(crate) fn drop_word(&mut self)
        ensures { self.new ≡ lines.without_from (lines.word_start self.old) self.old }
    {
        let following = back_over(self.bytes.as_slice(), self.cursor, true);
        let start = back_over(self.bytes.as_slice(), following, false);
        self.delete_from(start);
    }
}
