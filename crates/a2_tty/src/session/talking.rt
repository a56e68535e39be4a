//! A session: a prompt, a line and its answer, again and again.

ghost use Rattle.std.specs.Prelude.{◌≡◌, ◌≢◌, ◌↔◌, List, ℕ, map, codes, true};
ghost use Rattle.a2_text.specs.Bytes.{capital as capital_of};
ghost use Rattle.a2_stream.specs.Stream.{count_after};
ghost use Rattle.a2_tty.specs.LineReading.{is_unread, IsTextOf};
ghost use Rattle.a2_tty.specs.Turns.{RepliesTo, MeetsOr, closing, IsTalk};
ghost use Rattle.a2_tty.specs.declared.session.hearing.Heard.TheVariants.{End};

use crate::session::hearing::{Heard, Line, hear};
use crate::session::{Partner, TalkFault};
use a2_stream::{Input, Output, WriteFault, put};
use a2_text::capital;

// Returns whether a line ends the session: QUIT, in upper or lower case.
fn is_quit(line: &[u8]) -> bool
    ensures { (result ≡ true) ↔ (map capital_of line.now ≡ codes "QUIT") }
{
    match line {
        [a, b, c, d] => [capital(*a), capital(*b), capital(*c), capital(*d)] == *b"QUIT",
        _ => false,
    }
}

// Returns what is written after the last prompt.
fn end_of(prompt: &[u8]) -> &'static [u8]
    ensures { result.now ≡ closing prompt.now }
{
    if prompt.is_empty() { b"" } else { b"\n" }
}

// Answers the line that was read, or reports that it is too long.
fn reply<P: Partner, W: Output>(
    partner: &mut P,
    heard: Heard,
    line: &[u8],
    writer: &mut W,
) -> Result<(), WriteFault>
    requires { heard ≢ End }
    ensures some { heard ≢ End }
    ensures replied { (said : List ℕ) → IsTextOf heard said line.now →
        RepliesTo (MeetsOr P.meets) said partner.old partner.new (W.taker writer.old) (W.taker writer.new) result }
{
    match heard {
        Heard::Line => partner.answer(line, writer),
        _ => put(b"LINE TOO LONG: AT MOST 255 BYTES\n", writer),
    }
}

/// Answers lines until the input of `reader` ends, or until a line is `QUIT`, in upper or lower case. For each line it
/// writes `prompt`, reads the line and nothing after it, and writes the answer of `partner`. A line of more than 255
/// bytes is reported, and the session continues. At the end of the input, a line feed is written if the prompt is not
/// empty. If a read or a write fails, returns an error: the lines read so far were answered, and only a prefix of the
/// output was written.
pub fn talk<P: Partner, R: Input, W: Output>(
    partner: &mut P,
    prompt: &[u8],
    reader: &mut R,
    writer: &mut W,
) -> Result<(), TalkFault>
    ensures talk { IsTalk (MeetsOr P.meets) prompt.now partner.old partner.new (R.giver reader.old) (R.giver reader.new)
        (W.taker writer.old) (W.taker writer.new) result }
    ensures counted { (R.giver reader.new).failures ≡ count_after (is_unread result) (R.giver reader.old).failures }
{
    let mut line = Line::new();
    for _ in 0..u64::MAX {
        put(prompt, writer)?;
        match hear(&mut line, reader)? {
            Heard::End => return Ok(put(end_of(prompt), writer)?),
            Heard::Line if is_quit(line.as_slice()) => return Ok(()),
            heard => reply(partner, heard, line.as_slice(), writer)?,
        }
    }
    Err(TalkFault::Endless)
}
