//! Reports errors and warnings about lines of a source.

ghost use Rattle.std.specs.Prelude.{◌≡◌, ◌-◌, ◌≤◌, length, option_map};
ghost use Rattle.std.specs.List.{flat_map, slice_get};
ghost use Rattle.a2_stream.specs.Stream.{SendsOrBreaks};
ghost use Rattle.a2_promise_try.specs.Refusals as spec;

use a2_promise::Refusal;
use a2_stream::{Output, WriteFault, put, put_all};
use a2_text::decimal;

// The longest line that is shown with an error.
const LONGEST_SHOWN: usize = 255;

// Returns what is written below a byte of a line, up to the caret.
fn blank_for(c: u8) -> &'static [u8]
    ensures { result.now ≡ spec.blank_for c }
{
    if c == b'\t' { b"\t" } else { b" " }
}

// Writes blanks below a text.
fn put_blanks<W: Output>(before: &[u8], output: &mut W) -> Result<(), WriteFault>
    ensures { SendsOrBreaks (W.taker output.old) (W.taker output.new) result (flat_map spec.blank_for before.now) }
{
    for byte in before {
        put(blank_for(*byte), output)?;
    }
    Ok(())
}

// Writes a caret below the column after a text.
#[tactic(auto, using(a2_stream::proofs::Joined::broke_off, a2_stream::proofs::Joined::went_on))]
fn put_caret<W: Output>(before: &[u8], output: &mut W) -> Result<(), WriteFault>
    ensures { SendsOrBreaks (W.taker output.old) (W.taker output.new) result (spec.caret_below before.now) }
{
    put_blanks(before, output)?;
    put(b"^\n", output)
}

// Returns the blanks before a number with this many digits.
fn indent_for(digits: usize) -> &'static [u8]
    ensures { result.now ≡ spec.indent_for digits }
{
    let indent: &[u8] = b"    ";
    &indent[digits.min(4)..]
}

// Writes a line after its number.
#[tactic(auto, unfolding(crate::specs::Refusals::numbered))]
fn put_numbered<'a, W: Output>(
    indent: &'a [u8],
    number: &'a [u8],
    text: &'a [u8],
    output: &mut W,
) -> Result<(), WriteFault>
    ensures { SendsOrBreaks (W.taker output.old) (W.taker output.new) result (spec.numbered indent.now number.now text.now) }
{
    put_all(&[indent, number, b" | ", text, b"\n     | "], output)
}

// Returns the bytes of a line before a column.
fn before_column(text: &[u8], column: usize) -> &[u8]
    ensures { result.now ≡ spec.before_column column text.now }
{
    &text[..column.saturating_sub(1).min(text.len())]
}

// Writes a line of the source, and a caret below the column of an error in it. A line that is too long is not shown.
#[tactic(auto, using(a2_stream::proofs::Joined::broke_off, a2_stream::proofs::Joined::went_on))]
fn put_marked_line<W: Output>(
    refusal: &Refusal,
    text: &[u8],
    output: &mut W,
) -> Result<(), WriteFault>
    ensures { SendsOrBreaks (W.taker output.old) (W.taker output.new) result (spec.marked_line refusal.now text.now) }
{
    if text.len() > LONGEST_SHOWN {
        return Ok(());
    }
    let number = decimal(refusal.line as u64);
    put_numbered(indent_for(number.len()), number.as_slice(), text, output)?;
    put_caret(before_column(text, refusal.column), output)
}

// Writes the line of an error among the lines of the source, if it is one of them.
fn put_line_of<W: Output>(
    lines: &[&[u8]],
    refusal: &Refusal,
    output: &mut W,
) -> Result<(), WriteFault>
    ensures { SendsOrBreaks (W.taker output.old) (W.taker output.new) result
        (spec.marked_line_of refusal.now (option_map (λ line. line.now) (slice_get lines.now (refusal.now.line - 1)))) }
{
    match lines.get(refusal.line.saturating_sub(1)) {
        Some(text) => put_marked_line(refusal, *text, output),
        None => Ok(()),
    }
}

// Writes the kind, the place and the message of an error.
#[tactic(auto, unfolding(crate::specs::Refusals::heading))]
fn put_heading<'a, W: Output>(
    kind: &'a [u8],
    line: &'a [u8],
    column: &'a [u8],
    says: &'a [u8],
    output: &mut W,
) -> Result<(), WriteFault>
    ensures { SendsOrBreaks (W.taker output.old) (W.taker output.new) result
        (spec.heading kind.now line.now column.now says.now) }
{
    put_all(
        &[
            kind,
            b": line ",
            line,
            b", column ",
            column,
            b": ",
            says,
            b"\n",
        ],
        output,
    )
}

/// Writes an error or a warning about a line of a source with these lines: the text `kind`, the place, the message, and
/// the line with a caret below its column.
#[tactic(auto, using(a2_stream::proofs::Joined::broke_off, a2_stream::proofs::Joined::went_on))]
pub(crate) fn put_marked<W: Output>(
    lines: &[&[u8]],
    kind: &[u8],
    refusal: &Refusal,
    output: &mut W,
) -> Result<(), WriteFault>
    ensures { SendsOrBreaks (W.taker output.old) (W.taker output.new) result
        (spec.marked_text kind.now refusal.now (option_map (λ line. line.now) (slice_get lines.now (refusal.now.line - 1)))) }
{
    let line = decimal(refusal.line as u64);
    let column = decimal(refusal.column as u64);
    let says = refusal.says.as_bytes();
    put_heading(kind, line.as_slice(), column.as_slice(), says, output)?;
    put_line_of(lines, refusal, output)
}

// Writes the name of a label, if it is not empty.
fn put_name<W: Output>(name: &[u8], output: &mut W) -> Result<(), WriteFault>
    ensures { SendsOrBreaks (W.taker output.old) (W.taker output.new) result (spec.name_text name.now) }
{
    if name.is_empty() {
        return Ok(());
    }
    put_all(&[name, b": "], output)
}

/// Writes the error in the lines before a label, for a source with these lines.
#[tactic(auto, using(a2_stream::proofs::Joined::broke_off, a2_stream::proofs::Joined::went_on))]
pub fn put_refusal<W: Output>(
    lines: &[&[u8]],
    name: &[u8],
    refusal: &Refusal,
    output: &mut W,
) -> Result<(), WriteFault>
    ensures text { SendsOrBreaks (W.taker output.old) (W.taker output.new) result
        (spec.refusal_text name.now refusal.now (option_map (λ line. line.now) (slice_get lines.now (refusal.now.line - 1)))) }
{
    put_name(name, output)?;
    put_marked(lines, b"ERROR", refusal, output)
}
