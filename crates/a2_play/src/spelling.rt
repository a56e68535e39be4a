//! Writes typed keys as options `--keys-at`.

use a2_stream::{Output, WriteFault, put, put_all};
use a2_text::decimal;
use a2_timed_keys::Typed;

// Returns whether the option can spell a key.
fn has_spelling(key: u8) -> bool {
    matches!(key, 0x0D | 0x08 | 0x15 | 0x18 | 0x20..=0x7E)
}

// Writes a key as the option spells it.
fn put_key<W: Output>(key: u8, writer: &mut W) -> Result<(), WriteFault> {
    match key {
        0x0D => put(b"\\r", writer),
        0x08 => put(b"\\b", writer),
        0x15 => put(b"\\f", writer),
        0x18 => put(b"\\x", writer),
        b'\\' => put(b"\\\\", writer),
        // A shell takes everything between two apostrophes literally, except for apostrophes.
        b'\'' => put(b"'\\''", writer),
        _ => put(&[key], writer),
    }
}

// Begins an option for keys that are typed after this many steps, and ends the one before it, if there is one.
fn begin_option<W: Output>(has_option: bool, steps: u64, writer: &mut W) -> Result<(), WriteFault> {
    if has_option {
        put(b"' ", writer)?;
    }
    put_all(&[b"--keys-at '", decimal(steps).as_slice(), b":"], writer)
}

// Writes the keys of a log that the option can spell as options, and returns the number of the others.
fn put_options<W: Output>(log: &[Typed], writer: &mut W) -> Result<u64, WriteFault> {
    let mut written = None;
    let mut left_out = 0u64;
    for typed in log {
        if has_spelling(typed.key) {
            if written != Some(typed.steps) {
                begin_option(written.is_some(), typed.steps, writer)?;
                written = Some(typed.steps);
            }
            put_key(typed.key, writer)?;
        } else {
            left_out = left_out.saturating_add(1);
        }
    }
    match written {
        Some(_) => put(b"'\n", writer)?,
        None => put(b"no keys were typed that --keys-at can spell\n", writer)?,
    }
    Ok(left_out)
}

/// Writes the keys of a log as options that type each after as many steps as it was typed, and a line feed. Keys that are typed after the
/// same number of steps are in one option. The text is in apostrophes, as a shell needs it. Keys that the option has no spelling for are
/// left out, and a line of its own reports how many.
pub fn put_keys<W: Output>(log: &[Typed], writer: &mut W) -> Result<(), WriteFault> {
    let left_out = put_options(log, writer)?;
    if left_out > 0 {
        put_all(
            &[
                b"keys left out because --keys-at cannot spell them: ",
                decimal(left_out).as_slice(),
                b"\n",
            ],
            writer,
        )?;
    }
    Ok(())
}
