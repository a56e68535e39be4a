//! What is reported of arguments that a command cannot have.

ghost use Rattle.std.specs.Prelude.{◌≤◌};

use crate::fault_report::report_fault;
use crate::help::put_usage;
use crate::naming::nearest_option;
use a2_arguments::{ArgumentFault, Command, OptionRow, Value};
use a2_run::RunFault;
use a2_stream::{Output, WriteFault, put, put_all};
use a2_text::decimal;
use std::alloc::Global;

// Writes that an option is unknown, and which one may be meant.
fn put_unknown<W: Output>(
    alloc: Global,
    command: &Command,
    option: &str,
    writer: &mut W,
) -> Result<(), WriteFault> {
    put_three("unknown option ", option, "; ", writer)?;
    match nearest_option(alloc, command, option) {
        Ok(Some(near)) => put_three("did you mean ", near, "?", writer),
        _ => put_three("see a2lab help ", command.name, "", writer),
    }
}

// Writes three texts, one after another.
fn put_three<'a, W: Output>(
    first: &'a str,
    second: &'a str,
    third: &'a str,
    writer: &mut W,
) -> Result<(), WriteFault> {
    put_all(
        &[first.as_bytes(), second.as_bytes(), third.as_bytes()],
        writer,
    )
}

// Writes that a number is not in its range.
fn put_range<W: Output>(least: u32, most: u32, writer: &mut W) -> Result<(), WriteFault> {
    let (least, most) = (decimal(u64::from(least)), decimal(u64::from(most)));
    put(b" is not a number from ", writer)?;
    put_all(&[least.as_slice(), b" to ", most.as_slice()], writer)
}

// Writes which texts an option takes.
fn put_choices<W: Output>(texts: &[&str], writer: &mut W) -> Result<(), WriteFault> {
    put(b" is not one of", writer)?;
    let mut before = " ";
    for text in texts {
        put_three(before, *text, "", writer)?;
        before = ", ";
    }
    Ok(())
}

// Writes that an option does not take a value.
fn put_misfit<W: Output>(row: &OptionRow, value: &str, writer: &mut W) -> Result<(), WriteFault> {
    put_three(row.name, " ", value, writer)?;
    match row.value {
        Value::Number { least, most } => put_range(least, most, writer),
        Value::OneOf(texts) => put_choices(texts, writer),
        Value::Flag | Value::Text => put(b" is not a value", writer),
    }
}

// Writes how the command is called, after what is wrong.
fn put_call<'a, W: Output>(
    command: &Command,
    wrong: &'a str,
    word: &'a str,
    writer: &mut W,
) -> Result<(), WriteFault> {
    put_three(wrong, word, "; usage: ", writer)?;
    put_usage(command, writer)
}

// Writes what is wrong.
fn put_fault<'a, W: Output>(
    alloc: Global,
    command: &Command,
    fault: ArgumentFault<'a>,
    writer: &mut W,
) -> Result<(), WriteFault> {
    match fault {
        ArgumentFault::Unknown(option) => put_unknown(alloc, command, option, writer),
        ArgumentFault::Repeated(option) => put_three(
            option,
            " is given twice",
            "; give it once",
            writer,
        ),
        ArgumentFault::Missing(option) => put_three(
            option,
            " needs a value; see a2lab help ",
            command.name,
            writer,
        ),
        ArgumentFault::Needless(option, value) => {
            put_three(option, " takes no value; found ", value, writer)
        }
        ArgumentFault::Misfit(row, value) => put_misfit(&row, value, writer),
        ArgumentFault::TooMany(word) => put_call(command, "unexpected argument ", word, writer),
        ArgumentFault::TooFew => put_call(command, "an argument is missing", "", writer),
        ArgumentFault::Memory => put(b"out of memory", writer),
    }
}

/// Reports why words are not the arguments of `command`, and returns the exit status. If a write fails, there is no place left to report
/// it.
pub fn report_arguments<'a, E: Output>(
    alloc: Global,
    command: &Command,
    fault: ArgumentFault<'a>,
    complaints: &mut E,
) -> u8
    ensures { result ≤ 5 }
{
    if matches!(fault, ArgumentFault::Memory) {
        return report_fault(RunFault::Memory, complaints);
    }
    let _ = put_all(&[b"a2lab: ", command.name.as_bytes(), b": "], complaints);
    let _ = put_fault(alloc, command, fault, complaints);
    let _ = put(b"\n", complaints);
    2
}
