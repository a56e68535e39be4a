//! A line of a debugging session, and its answer.

ghost use Rattle.a2_debug_script.specs.Answers.{DebugLineAnswers, IsAnswered};

use crate::calls::perform;
use crate::commands::{call_of, verb_of};
use crate::{Answer, DebugFault, Debugger, Verb};
use a2_stream::Output;
use a2_text::{first_word, split_word};
use std::alloc::Allocator;

impl<A: Allocator + Copy> Debugger<A> {
    // Executes the call that a verb and the text after it mean, and returns its answer, or `None` if they mean no call.
    #[inline(always)]
    fn answer(&mut self, verb: Verb, rest: &[u8]) -> Option<Answer>
        ensures { IsAnswered verb rest.now self.old result self.new }
    {
        let call = call_of(verb, rest)?;
        Some(perform(self, &call))
    }

    // The same. It is not inlined, because room for the keys of `type`, 4,104 bytes, would be cleared for each line.
    #[inline(never)]
    fn answer_not_inlined(&mut self, verb: Verb, rest: &[u8]) -> Option<Answer>
        ensures { IsAnswered verb rest.now self.old result self.new }
    {
        self.answer(verb, rest)
    }

    /// Executes a line, and writes its answer. Words may have either case. Blanks (spaces and tabs) are allowed at both
    /// ends, and one or more of them separate words. N is 0 to 4,294,967,295 in 1 to 10 decimal digits.
    ///
    /// | Line | What it does | Answer |
    /// |---|---|---|
    /// | `step N`, `go N` | [`Debugger::step`], [`Debugger::go`] | the register line, then `STOP ` and the cause, or
    /// `BREAK` |
    /// | `back N` | [`Debugger::back`] | the register line |
    /// | `break P`, `clear P` | [`Debugger::set_break`], [`Debugger::clear_break`] | nothing |
    /// | `type K` | [`Debugger::type_keys`], with the keys spelled by everything after one blank | nothing |
    /// | `screen` | nothing | the picture |
    ///
    /// STEPS of a register line is [`Debugger::count`]. A blank line does nothing and has no answer. Everything else is
    /// `DebugFault::Syntax`. Any other error is that of the call; then nothing changes, and nothing is written. If a
    /// write fails, the error is `DebugFault::Write`: the line was executed, and a front of its answer was sent. This
    /// project's profile.
    pub fn line<W: Output>(&mut self, text: &[u8], writer: &mut W) -> Result<(), DebugFault>
        ensures { DebugLineAnswers text.now self.old self.new (W.taker writer.old) (W.taker writer.new) result }
    {
        let (word, rest) = split_word(text);
        if word.is_empty() {
            return Ok(());
        }
        let verb = verb_of(word).ok_or(DebugFault::Syntax)?;
        if verb == Verb::Screen {
            if first_word(rest).is_some() {
                return Err(DebugFault::Syntax);
            }
            return Ok(self.show_picture(writer)?);
        }
        let answer = match verb {
            Verb::TypeKeys => self.answer_not_inlined(verb, rest),
            _ => self.answer(verb, rest),
        };
        match answer.ok_or(DebugFault::Syntax)? {
            Answer::Halted(halt) => Ok(self.show_halt(halt, writer)?),
            Answer::Done if verb == Verb::Back => Ok(self.show_registers(writer)?),
            Answer::Done => Ok(()),
            Answer::Refused(fault) => Err(fault),
        }
    }
}
