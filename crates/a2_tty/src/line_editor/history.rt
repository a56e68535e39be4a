//! The lines that were given before.

ghost use Rattle.std.specs.Prelude.{◌≡◌, [], ◌∷◌, ◌++◌, map, length, IfOk};
ghost use Rattle.a2_tty.specs.Histories as histories;

use crate::line_editor::line::Bytes;
use circular_buffer::HeapCircularBuffer;
use std::alloc::{AllocError, Global};
use std::marker::Model;

/// The greatest number of lines that are kept.
const MOST_LINES: usize = 100;

/// The last lines that were given, at most 100. Contracts see them with the oldest first.
#[derive(Drop)]
pub(crate) struct History {
    ring: HeapCircularBuffer<Bytes>,
}

impl Model for History {
    ghost use Rattle.std.specs.Prelude.{◌≡◌, ℕ, List, map};

    ghost Value = { List (List ℕ) };

    ghost view = { λ h. map (λ line. line.items) h.ring.items };

    ghost invariant = { λ h. h.ring.capacity ≡ 100 };
}

impl History {
    /// Returns a history without lines. Fails only if there is no memory for about 26,000 bytes; no more is needed
    /// later.
    pub(crate) fn new(alloc: Global) -> Result<History, AllocError>
        ensures { IfOk result (λ history. history ≡ []) }
    {
        Ok(History {
            ring: HeapCircularBuffer::with_capacity(alloc, MOST_LINES)?,
        })
    }

    /// Returns how many lines there are.
    pub(crate) fn len(&self) -> usize
        ensures { result ≡ length self.now }
    {
        self.ring.len()
    }

    /// Adds a line, if it is not empty. If there are then more than 100, the oldest is removed.
    #[tactic(auto, using(crate::proofs::Lists::lines_kept))]
    pub(crate) fn note(&mut self, line: Bytes)
        ensures { self.new ≡ histories.noted line.items self.old }
    {
        if !line.is_empty() {
            let _ = self.ring.push_back(line);
        }
    }

    /// Returns the line that was given this many lines ago, 1 for the last, or an empty line if there are not so many.
    pub(crate) fn line(&self, age: usize) -> &[u8]
        ensures { result.now ≡ histories.aged age self.now }
    {
        if age > self.ring.len() {
            return &[];
        }
        match self.ring.get(self.ring.len() - age) {
            Some(line) => line.as_slice(),
            None => &[],
        }
    }
}
