//! The lines of an input, one after another.

ghost use Rattle.std.specs.Prelude.{◌≡◌, ◌≢◌, ◌↔◌, true, ◌<◌, ◌≤◌, ◌++◌, ◌∷◌, [], length, IfOk, IfErr};
ghost use Rattle.std.specs.Str.Lines.{strip_carriage_return};
ghost use Rattle.a2_stream.specs.Stream.{count_after};
ghost use Rattle.a2_tty.specs.declared.session.fault.TalkFault.TheVariants.{Write};
ghost use Rattle.a2_tty.specs.declared.session.hearing.Ending.TheVariants.{Input};
ghost use Rattle.a2_tty.specs.LineReading.{IsPiece, IsLineRead, is_unread};

use crate::session::TalkFault;
use a2_stream::Input;
use arrayvec::ArrayVec;

/// The greatest number of bytes in a line that is answered.
const MOST_BYTES: usize = 255;

/// The part of a line that is kept: enough to show that it is too long, even with a carriage return at its end.
pub type Line = ArrayVec<u8, 257>;

/// What ends a piece.
#[derive(Clone, Copy)]
pub enum Ending {
    /// A line feed.
    Feed,
    /// The end of the input.
    Input,
}

/// What was read.
#[derive(Clone, Copy)]
pub enum Heard {
    /// A line of at most 255 bytes.
    Line,
    /// A longer line.
    Long,
    /// The end of the input.
    End,
}

// Keeps a byte if there is room.
fn keep(piece: &mut Line, code: u8)
    ensures room { length piece.old.items < 257 → piece.new.items ≡ piece.old.items ++ code ∷ [] }
    ensures full { 257 ≤ length piece.old.items → piece.new.items ≡ piece.old.items }
{
    if !piece.is_full() {
        piece.push(code);
    }
}

// Reads up to a line feed or the end of the input, and keeps the first bytes. It reads byte by byte, so that nothing
// after that is read.
fn read_piece<R: Input>(piece: &mut Line, reader: &mut R) -> Result<Ending, TalkFault>
    ensures piece { IfOk result (λ ending. IsPiece (R.giver reader.old) (R.giver reader.new) ending piece.new.items) }
    ensures fault { IfErr result (λ fault. fault ≢ Write) }
    ensures counted { (R.giver reader.new).failures ≡ count_after (is_unread result) (R.giver reader.old).failures }
{
    piece.clear();
    for _ in 0..u64::MAX {
        let mut byte = [0u8; 1];
        let count = reader.read(&mut byte)?;
        let code = byte[0];
        if count == 0 {
            return Ok(Ending::Input);
        }
        if code == b'\n' {
            return Ok(Ending::Feed);
        }
        keep(piece, code);
    }
    Err(TalkFault::Endless)
}

// Drops a carriage return at the end.
fn drop_return(line: &mut Line)
    ensures { line.new.items ≡ strip_carriage_return line.old.items }
{
    if let [.., b'\r'] = line.as_slice() {
        let _ = line.pop();
    }
}

// Returns whether the input ended without another byte.
fn is_end_of_input(ending: Ending, line: &Line) -> bool
    ensures { (result ≡ true) ↔ ((ending ≡ Input) × (line.now.items ≡ [])) }
{
    match ending {
        Ending::Input => line.is_empty(),
        Ending::Feed => false,
    }
}

/// Reads the next line of `reader` into `line`, without its line feed and a carriage return before that. Nothing after
/// the line is read. An empty piece at the end of the input is not a line. After a line of more than 255 bytes, the
/// contents of `line` are not specified. Fails if a read fails, or after 2^64 - 1 bytes without an end of the line.
pub fn hear<R: Input>(line: &mut Line, reader: &mut R) -> Result<Heard, TalkFault>
    ensures heard { IfOk result (λ heard. IsLineRead (R.giver reader.old) (R.giver reader.new) heard line.new.items) }
    ensures fault { IfErr result (λ fault. fault ≢ Write) }
    ensures counted { (R.giver reader.new).failures ≡ count_after (is_unread result) (R.giver reader.old).failures }
{
    let ending = read_piece(line, reader)?;
    if is_end_of_input(ending, line) {
        return Ok(Heard::End);
    }
    drop_return(line);
    if line.len() > MOST_BYTES {
        Ok(Heard::Long)
    } else {
        Ok(Heard::Line)
    }
}
