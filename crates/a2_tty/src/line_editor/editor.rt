//! The effect of typed bytes on a line and its history.

ghost use Rattle.std.specs.Prelude.{◌≡◌, ◌+◌, ◌-◌, ◌≤◌, ◌<◌, length, IfOk, IfErr};
ghost use Rattle.a2_tty.specs.Lines.{Edited};
ghost use Rattle.a2_tty.specs.Editors as editors;

use crate::line_editor::history::History;
use crate::line_editor::keys::{Key, Sequence, hear};
use crate::line_editor::line::{Bytes, Line};
use std::alloc::{AllocError, Global};
use std::marker::Model;

/// What the caller must do after a byte.
#[derive(Clone, Copy, Debug, PartialEq, Eq)]
pub enum Act {
    /// Nothing.
    Nothing,
    /// Draw the line.
    Draw,
    /// Ring the bell, because there was no room for a character.
    Ring,
    /// Draw everything again.
    Clear,
    /// Take the line.
    Take,
    /// End the input.
    Leave,
}

/// The state of the editor: the line, the draft that was typed before an older line was shown, the earlier lines, and
/// the position in the bytes of a key. It also has the age of the shown line: how many lines ago it was given, or 0 if
/// it is being typed now. Contracts see all of these.
pub struct Editor {
    line: Line,
    draft: Bytes,
    history: History,
    age: usize,
    sequence: Sequence,
}

// Not derived, because the prover sees this drop as one call, and a derived one as a call for each field.
impl Drop for Editor {
    fn drop(self) {
        let Editor {
            line: _,
            draft: _,
            history: _,
            age: _,
            sequence: _,
        } = self;
    }
}

impl Model for Editor {
    ghost use Rattle.a2_tty.specs.Editors.{Editing};

    ghost Value = { Editing };

    ghost view = { λ e. record {
      line = e.line;
      draft = e.draft.items;
      history = e.history;
      age = e.age;
      sequence = e.sequence;
    } };
}

// Returns a copy of these bytes; there are at most as many as a line can have.
fn copy_of(bytes: &[u8]) -> Bytes
    requires { length bytes.now ≤ 255 }
    ensures { result.items ≡ bytes.now }
{
    let mut copy = Bytes::new();
    copy.try_extend_from_slice(bytes).unwrap();
    copy
}

impl Editor {
    /// Returns an editor with an empty line and no earlier lines. Fails only if memory runs out.
    pub fn new(alloc: Global) -> Result<Editor, AllocError>
        ensures { IfOk result (λ editor. editor ≡ editors.begun) }
    {
        Ok(Editor {
            line: Line::new(),
            draft: Bytes::new(),
            history: History::new(alloc)?,
            age: 0,
            sequence: Sequence::Plain,
        })
    }

    /// Returns the line.
    pub fn line(&self) -> &Line
        ensures { result.now ≡ self.now.line }
    {
        &self.line
    }

    // Shows the line that was given this many lines ago, or the one that is being typed.
    fn show(&mut self, age: usize)
        ensures { self.new ≡ editors.showing age self.old }
    {
        self.age = age;
        if age == 0 {
            self.line.show(self.draft.as_slice());
        } else {
            self.line.show(self.history.line(age));
        }
    }

    // Shows an older line, if there is one.
    fn show_older(&mut self)
        ensures { self.new ≡ editors.older self.old }
    {
        if self.age >= self.history.len() {
            return;
        }
        if self.age == 0 {
            self.draft = copy_of(self.line.bytes());
        }
        self.show(self.age + 1);
    }

    // Shows a newer line, if there is one.
    fn show_newer(&mut self)
        ensures { self.new ≡ editors.newer self.old }
    {
        if self.age > 0 {
            self.show(self.age - 1);
        }
    }

    // Begins an empty line.
    fn begin(&mut self)
        ensures { self.new ≡ editors.emptied self.old }
    {
        self.line = Line::new();
        self.draft.clear();
        self.age = 0;
    }

    // Inserts a character, if there is room.
    fn put(&mut self, letter: u8) -> Act
        ensures put { self.new ≡ editors.edited (editors.done_letter letter self.old.line) self.old }
        ensures act { result ≡ editors.act_of_letter self.old.line }
    {
        if self.line.is_full() {
            return Act::Ring;
        }
        self.line.put(letter);
        Act::Draw
    }

    // Deletes a character, or ends the input if the line is empty.
    fn delete_or_leave(&mut self) -> Act
        ensures done { self.new ≡ editors.edited (editors.left self.old.line) self.old }
        ensures act { result ≡ editors.act_of_leaving self.old.line }
    {
        if self.line.bytes().is_empty() {
            return Act::Leave;
        }
        self.line.delete();
        Act::Draw
    }

    // Applies a key.
    fn apply_key(&mut self, key: Key) -> Act
        ensures done { self.new ≡ editors.done key self.old }
        ensures act { result ≡ editors.act_of key self.old.line }
    {
        match key {
            Key::Letter(letter) => return self.put(letter),
            Key::Leave => return self.delete_or_leave(),
            Key::Return => return Act::Take,
            Key::Clear => return Act::Clear,
            Key::GiveUp => self.begin(),
            Key::Left => self.line.go_left(),
            Key::Right => self.line.go_right(),
            Key::Start => self.line.go_to_start(),
            Key::End => self.line.go_to_end(),
            Key::RubOut => self.line.rub_out(),
            Key::Delete => self.line.delete(),
            Key::DropRest => self.line.drop_rest(),
            Key::DropFront => self.line.drop_front(),
            Key::DropWord => self.line.drop_word(),
            Key::Older => self.show_older(),
            Key::Newer => self.show_newer(),
        }
        Act::Draw
    }

    /// Applies a typed byte, 0 to 255, to the line, its cursor and the part of the history that is shown, and returns
    /// what the caller must do then. A line that is taken or left is unchanged. This project's profile.
    pub fn press(&mut self, byte: u8) -> Act
        ensures done { self.new ≡ editors.after byte self.old }
        ensures act { result ≡ editors.act byte self.old }
    {
        let heard = hear(self.sequence, byte);
        self.sequence = heard.next;
        match heard.key {
            Some(key) => self.apply_key(key),
            None => Act::Nothing,
        }
    }

    /// Adds the line to the history, if it is not empty, and begins an empty one.
    pub fn finish(&mut self)
        ensures { self.new ≡ editors.finished self.old }
    {
        self.history.note(copy_of(self.line.bytes()));
        self.begin();
    }
}
