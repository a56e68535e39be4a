//! Writes the report on the promises of a source's own run.

use a2_stream::{Output, WriteFault, put_all};
use a2_tests::{Line, NumberedLine, Verdict};
use a2_text::decimal;
use std::alloc::Global;

// Writes why a line about a run cannot be understood.
fn put_unknown<W: Output>(asked: &NumberedLine, output: &mut W) -> Result<(), WriteFault> {
    let number = decimal(asked.number as u64);
    put_all(
        &[
            b"the run: ERROR: line ",
            number.as_slice(),
            b": unknown kind of line; class.md in the manual lists what a run can promise\n",
        ],
        output,
    )
}

/// Writes an error for each line about a run that cannot be understood. Returns whether all can be.
pub(crate) fn are_known<W: Output>(
    run: &[NumberedLine],
    output: &mut W,
) -> Result<bool, WriteFault> {
    let mut known = true;
    for asked in run {
        if let Line::Unknown = asked.line {
            known = false;
            put_unknown(asked, output)?;
        }
    }
    Ok(known)
}

// Writes a failed expectation of a run: the line that asks for it, and what happened instead.
fn put_missed<W: Output>(line: usize, told: &[u8], output: &mut W) -> Result<(), WriteFault> {
    let number = decimal(line as u64);
    put_all(
        &[b"FAILS: line ", number.as_slice(), b": ", told, b"\n"],
        output,
    )
}

/// Writes the result of a run that the lines of a case ask for.
pub(crate) fn put_run<W: Output>(
    name: &[u8],
    verdict: &Verdict<Global>,
    output: &mut W,
) -> Result<(), WriteFault> {
    let blank: &[u8] = if name.is_empty() { b"" } else { b" " };
    put_all(&[b"the run", blank, name, b": "], output)?;
    match verdict {
        Verdict::Passed => put_all(&[b"held\n"], output),
        Verdict::Missed(line, told) => put_missed(*line, told.as_slice(), output),
        Verdict::NotCalled(why) | Verdict::Overfull(why) => {
            put_all(&[b"FAILS: ", why.as_slice(), b"\n"], output)
        }
    }
}
