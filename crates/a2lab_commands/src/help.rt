//! The help pages, from the rows of commands and options.

use crate::commands::{all_commands, row_of};
use crate::options::{FREE, KEYS, LIMIT};
use crate::wrapping::{put_blanks, put_words};
use a2_arguments::{Command, OptionRow, Value};
use a2_stream::{Output, WriteFault, put, put_all};
use a2_text::decimal;

// What comes before the commands.
const HEAD: &[u8] = b"a2lab checks, runs, shows and debugs 6502 programs on a modelled Apple II.

  a2lab COMMAND [OPTIONS] [F]

";

// What comes between the commands and the options of runs.
const MIDDLE: &[u8] = b"
F is a source file; if it is omitted or -, standard input is read. Options may
come before or after it. A value is the next argument, or follows =, as in
--limit=5. All arguments after -- are files. Options of a run:

";

// What comes last.
const TAIL: &[u8] = b"
a2lab help COMMAND lists the options of a command. Other:

  --version         Prints the version, and the commit that the program was
                    packaged from.

Exit status: 0 success, 1 the source has errors, 2 bad arguments or keys, 3 the
run stopped early, 4 a read or write failed, 5 out of memory, 6 tests or checks
failed.
";

// The column at which the sentences of commands begin.
const SUMMARY_COLUMN: usize = 12;

// The column at which the sentences of options begin.
const SENTENCE_COLUMN: usize = 20;

// Writes the blanks from a column to another, or a line's end before them if they are not at least two.
fn put_gap<W: Output>(column: usize, next: usize, writer: &mut W) -> Result<(), WriteFault> {
    match next.checked_sub(column) {
        Some(count) if count >= 2 => put_blanks(count, writer),
        _ => {
            put(b"\n", writer)?;
            put_blanks(next, writer)
        }
    }
}

// Writes the line of a command.
fn put_command<W: Output>(command: &Command, writer: &mut W) -> Result<(), WriteFault> {
    put_all(&[b"  ", command.name.as_bytes()], writer)?;
    put_gap(command.name.len().saturating_add(2), SUMMARY_COLUMN, writer)?;
    put_words(command.summary, SUMMARY_COLUMN, SUMMARY_COLUMN, writer)?;
    put(b"\n", writer)
}

// Writes the texts that an option takes, after the name of its value; the column after them.
fn put_choices<W: Output>(
    texts: &[&str],
    column: usize,
    writer: &mut W,
) -> Result<usize, WriteFault> {
    let mut column = column;
    let mut before: &[u8] = b":";
    for text in texts {
        put(before, writer)?;
        column = put_words(*text, column.saturating_add(1), SENTENCE_COLUMN, writer)?;
        before = b",";
    }
    put(b".", writer)?;
    Ok(column.saturating_add(1))
}

// Writes which values an option takes; the column after it.
fn put_values<W: Output>(
    row: &OptionRow,
    column: usize,
    writer: &mut W,
) -> Result<usize, WriteFault> {
    let indent = SENTENCE_COLUMN;
    match row.value {
        Value::Flag | Value::Text => Ok(column),
        Value::Number { least, most } => {
            let (least, most) = (decimal(u64::from(least)), decimal(u64::from(most)));
            let column = put_words(row.placeholder, column, indent, writer)?;
            let column = put_words("is", column, indent, writer)?;
            put_all(
                &[b" ", least.as_slice(), b" to ", most.as_slice(), b"."],
                writer,
            )?;
            let digits = least.len().saturating_add(most.len());
            Ok(column.saturating_add(digits).saturating_add(6))
        }
        Value::OneOf(texts) => {
            let column = put_words(row.placeholder, column, indent, writer)?;
            put_choices(texts, column, writer)
        }
    }
}

// Writes an option with its sentence, its values and its default.
fn put_option<W: Output>(row: &OptionRow, writer: &mut W) -> Result<(), WriteFault> {
    let indent = SENTENCE_COLUMN;
    put_all(
        &[b"  ", row.name.as_bytes(), b" ", row.placeholder.as_bytes()],
        writer,
    )?;
    let length = row.name.len().saturating_add(row.placeholder.len());
    put_gap(length.saturating_add(3), indent, writer)?;
    let mut column = put_words(row.sentence, indent, indent, writer)?;
    column = put_values(row, column, writer)?;
    if !row.default.is_empty() {
        column = put_words("Default:", column, indent, writer)?;
        column = put_words(row.default, column, indent, writer)?;
        put(b".", writer)?;
        column = column.saturating_add(1);
    }
    if row.repeat {
        put_words("May be given several times.", column, indent, writer)?;
    }
    put(b"\n", writer)
}

/// Writes the page of all commands.
pub fn put_page<W: Output>(writer: &mut W) -> Result<(), WriteFault> {
    put(HEAD, writer)?;
    for tool in all_commands() {
        put_command(&row_of(*tool).command, writer)?;
    }
    put(MIDDLE, writer)?;
    put_option(&KEYS, writer)?;
    put_option(&LIMIT, writer)?;
    put_option(&FREE, writer)?;
    put(TAIL, writer)
}

/// Writes how a command is called, such as `a2lab run [OPTIONS] [F]`.
pub fn put_usage<W: Output>(command: &Command, writer: &mut W) -> Result<(), WriteFault> {
    let options: &[u8] = if command.options.is_empty() {
        b""
    } else {
        b" [OPTIONS]"
    };
    let gap: &[u8] = if command.files.form.is_empty() {
        b""
    } else {
        b" "
    };
    let parts: [&[u8]; 5] = [
        b"a2lab ",
        command.name.as_bytes(),
        options,
        gap,
        command.files.form.as_bytes(),
    ];
    put_all(&parts, writer)
}

/// Writes the page of a command.
pub fn put_use<W: Output>(command: &Command, writer: &mut W) -> Result<(), WriteFault> {
    put_usage(command, writer)?;
    put(b"\n", writer)?;
    put_words(command.summary, 0, 0, writer)?;
    put(b"\n", writer)?;
    if !command.options.is_empty() {
        put(b"\n", writer)?;
    }
    for row in command.options {
        put_option(row, writer)?;
    }
    if command.notes.is_empty() {
        return Ok(());
    }
    put_all(&[b"\n", command.notes.as_bytes()], writer)
}
