//! The partner that answers the lines of a session.

ghost use Rattle.std.specs.Prelude.{List, ℕ};
ghost use Rattle.a2_tty.specs.Turns.{RepliesTo};

use a2_stream::{Output, WriteFault};

/// The partner that answers the lines of a session.
pub trait Partner {
    /// The text that answers a line, and the state of the partner after it.
    ghost meets: { List ℕ → Self → List ℕ → Self → Type 0 };

    /// Executes a line and writes its answer, which may be an error message. If a write fails, returns an error: the
    /// line was executed, but only a prefix of the answer was written.
    fn answer<W: Output>(&mut self, line: &[u8], writer: &mut W) -> Result<(), WriteFault>
        ensures { RepliesTo meets line.now self.old self.new (W.taker writer.old) (W.taker writer.new) result };
}
