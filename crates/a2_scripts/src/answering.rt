//! The lines of a script, one after another.

ghost use Rattle.std.specs.Prelude.{ℕ, List, map};
ghost use Rattle.a2_scripts.specs.Replies.{AnswersEach, RepliesTo, RepliesToAll};

use a2_stream::{Output, WriteFault, put_all};

/// A type that answers the lines of a script: a session of the Monitor, or a debugger.
pub trait LineAnswerer {
    /// The state that contracts see.
    ghost State: { Type 0 };

    ghost state: { Self → State };

    /// The text of a line in a state, and the state after it.
    ghost meets: { List ℕ → State → List ℕ → State → Type 0 };

    /// The condition that holds in each state in which a line is answered.
    ghost Holds: { State → Type 0 };

    /// Executes a line, and writes its answer or the text of its error. Fails if a write fails; then a front of the
    /// text was sent.
    fn answer<W: Output>(&mut self, line: &[u8], writer: &mut W) -> Result<(), WriteFault>
        ensures { RepliesTo meets line.now (state self.old) (state self.new) (W.taker writer.old) (W.taker writer.new) result };
}

/// Writes each line after `mark`, followed by its answer. Fails if a write fails; then a front of the text was sent.
pub fn answer_all<S: LineAnswerer, W: Output>(
    answering: &mut S,
    mark: &[u8],
    lines: &[&[u8]],
    writer: &mut W,
) -> Result<(), WriteFault>
    requires each { AnswersEach S.meets S.Holds }
    requires debugger_at_start { S.Holds (S.state answering.old) }
    ensures { RepliesToAll S.meets mark.now (map (λ x. x.now) lines.now) (S.state answering.old)
        (W.taker writer.old) (W.taker writer.new) result }
{
    for line in lines {
        put_all(&[mark, line, b"\n"], writer)?;
        answering.answer(line, writer)?;
    }
    Ok(())
}
