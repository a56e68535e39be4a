//! The reader: it goes through the words once, from the first to the last.

ghost use Rattle.std.specs.Prelude.{◌≡◌, map, string_bytes, IfOk};
ghost use Rattle.std.specs.List.{list_any};
ghost use Rattle.std.specs.Option.{option_copied};
ghost use Rattle.std.specs.Str.{bytes_eq};
ghost use Rattle.a2_arguments.specs.Found.{found_of, option_of};
ghost use Rattle.a2_arguments.specs.Values.{takes_value};
ghost use Rattle.a2_arguments.specs.Reader.{state_of};
ghost use Rattle.a2_arguments.specs.Reading.{Gives, Takes, row_of, add_given, with_file, with_flag, with_row, with_value};
ghost use Rattle.a2_arguments.specs.Reading.{with_option, step, finished, reading};

use crate::arguments::{Arguments, Given};
use crate::command::{Command, OptionRow, Value};
use crate::fault::ArgumentFault;
use crate::numbers::number_in;
use crate::spelling::{is_file, parts_of};
use std::alloc::{AllocError, Global};

// What the words so far give.
#[derive(Drop)]
struct Reader<'a> {
    arguments: Arguments<'a>,
    // The option whose value is the next word.
    waiting: Option<OptionRow>,
    // Whether there was a `--`: all words after it are files.
    ended: bool,
}

// The row of an option.
fn row_named(rows: &[OptionRow], name: &str) -> Option<OptionRow>
    ensures { result ≡ row_of rows.now name.now }
{
    for row in rows {
        if row.name == name {
            return Some(*row);
        }
    }
    None
}

// Whether a text is one of these.
fn is_one_of(texts: &[&str], text: &str) -> bool
    ensures { result ≡ list_any (λ one. bytes_eq one.now text.now) texts.now }
{
    texts.iter().any(|one| *one == text)
}

// Returns the number of a value, if an option takes this value, and if it is a number.
fn checked(value: Value, text: &str) -> Option<Option<u32>>
    ensures { result ≡ takes_value value text.now }
{
    match value {
        Value::Flag => None,
        Value::Text => Some(None),
        Value::Number { least, most } => match number_in(least, most, text) {
            Some(number) => Some(Some(number)),
            None => None,
        },
        Value::OneOf(texts) => {
            if is_one_of(texts, text) {
                Some(None)
            } else {
                None
            }
        }
    }
}

// Takes a file.
#[tactic(auto, unfolding(crate::specs::Reading::with_file))]
fn take_file<'a>(
    most: usize,
    word: &'a str,
    reader: &mut Reader<'a>,
) -> Result<(), ArgumentFault<'a>>
    ensures { Takes (state_of reader.new) result (with_file most word.now (state_of reader.old)) }
{
    if reader.arguments.files.len() >= most {
        return Err(ArgumentFault::TooMany(word));
    }
    reader.arguments.files.push(word)?;
    Ok(())
}

// Adds an option that is complete.
fn add_option<'a>(given: Given<'a>, reader: &mut Reader<'a>) -> Result<(), AllocError>
    ensures { IfOk result (λ _. state_of reader.new ≡ add_given (option_of given.entry) (state_of reader.old)) }
{
    reader.arguments.options.push(given)?;
    reader.waiting = None;
    Ok(())
}

// Takes an option with its value.
#[tactic(auto, unfolding(crate::specs::Reading::with_value))]
fn take_value<'a>(
    row: OptionRow,
    value: &'a str,
    reader: &mut Reader<'a>,
) -> Result<(), ArgumentFault<'a>>
    ensures { Takes (state_of reader.new) result (with_value row value.now (state_of reader.old)) }
{
    let Some(number) = checked(row.value, value) else {
        return Err(ArgumentFault::Misfit(row, value));
    };
    let name = row.name;
    add_option(
        Given {
            name,
            value,
            number,
        },
        reader,
    )?;
    Ok(())
}

// Takes a flag, which has no value.
#[tactic(auto, unfolding(crate::specs::Reading::with_flag))]
fn take_flag<'a>(
    row: OptionRow,
    attached: Option<&'a str>,
    reader: &mut Reader<'a>,
) -> Result<(), ArgumentFault<'a>>
    ensures { Takes (state_of reader.new) result (with_flag row (option_copied attached.entry) (state_of reader.old)) }
{
    if let Some(value) = attached {
        return Err(ArgumentFault::Needless(row.name, value));
    }
    let given = Given {
        name: row.name,
        value: "",
        number: None,
    };
    add_option(given, reader)?;
    Ok(())
}

// Takes an option of this row.
#[tactic(auto, unfolding(crate::specs::Reading::with_row))]
fn take_row<'a>(
    row: OptionRow,
    attached: Option<&'a str>,
    reader: &mut Reader<'a>,
) -> Result<(), ArgumentFault<'a>>
    ensures { Takes (state_of reader.new) result (with_row row (option_copied attached.entry) (state_of reader.old)) }
{
    if matches!(row.value, Value::Flag) {
        return take_flag(row, attached, reader);
    }
    match attached {
        Some(value) => take_value(row, value, reader),
        None => {
            reader.waiting = Some(row);
            Ok(())
        }
    }
}

// Takes an option.
#[tactic(auto, unfolding(crate::specs::Reading::with_option))]
fn take_option<'a>(
    rows: &[OptionRow],
    word: &'a str,
    reader: &mut Reader<'a>,
) -> Result<(), ArgumentFault<'a>>
    ensures { Takes (state_of reader.new) result (with_option rows.now word.now (state_of reader.old)) }
{
    let (name, attached) = parts_of(word);
    let Some(row) = row_named(rows, name) else {
        return Err(ArgumentFault::Unknown(name));
    };
    if !row.repeat && reader.arguments.has(&row) {
        return Err(ArgumentFault::Repeated(row.name));
    }
    take_row(row, attached, reader)
}

// Takes the next word.
#[tactic(auto, unfolding(crate::specs::Reading::step))]
fn take<'a>(
    command: &Command,
    word: &'a str,
    reader: &mut Reader<'a>,
) -> Result<(), ArgumentFault<'a>>
    ensures { Takes (state_of reader.new) result (step command.now word.now (state_of reader.old)) }
{
    if let Some(row) = reader.waiting {
        return take_value(row, word, reader);
    }
    if reader.ended || is_file(word) {
        return take_file(command.files.most, word, reader);
    }
    if word == "--" {
        reader.ended = true;
        return Ok(());
    }
    take_option(command.options, word, reader)
}

// Ends with the last word.
#[tactic(auto, unfolding(crate::specs::Reading::finished))]
fn finish<'a>(least: usize, reader: Reader<'a>) -> Result<Arguments<'a>, ArgumentFault<'a>>
    ensures { Gives found_of result (finished least (state_of reader.entry)) }
{
    if let Some(row) = reader.waiting {
        return Err(ArgumentFault::Missing(row.name));
    }
    if reader.arguments.files.len() < least {
        return Err(ArgumentFault::TooFew);
    }
    Ok(reader.arguments)
}

/// Reads the options and the files of `command` from `words`, which come after the command's name.
///
/// Options may come before, between and after files. A value is the next word, or follows `=`. After `--` all words are files;
/// a single `-` is a file. The first word that cannot stand decides the fault. This project's profile.
pub fn read<'a>(
    alloc: Global,
    command: &Command,
    words: &'a [String],
) -> Result<Arguments<'a>, ArgumentFault<'a>>
    ensures { Gives found_of result (reading command.now (map string_bytes words.now)) }
{
    let mut reader = Reader {
        arguments: Arguments {
            options: Vec::new(alloc),
            files: Vec::new(alloc),
        },
        waiting: None,
        ended: false,
    };
    for word in words {
        take(command, word.as_str(), &mut reader)?;
    }
    finish(command.files.least, reader)
}
