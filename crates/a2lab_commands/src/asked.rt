//! What a command is given, and the arguments of a run.

ghost use Rattle.std.specs.Prelude.{◌≡◌, List, ℕ, IfOk, IfErr};
ghost use Rattle.a2_arguments.specs.Found.{found_of};
ghost use Rattle.a2lab_commands.specs.RunWords.{AreFileRunArgs, AreKeys, keys_text};

use crate::messages::Message;
use crate::options::{FREE, KEYS, LIMIT};
use crate::refusal::Refusal;
use crate::terminals::{Terminal, Terminals};
use a2_arguments::{Arguments, Command};
use a2_bus::Keys;
use a2_run::{DEFAULT_STEPS, RunArgs};

/// What a command is given.
#[derive(Clone, Copy)]
pub struct CommandArgs<'g, 'a> {
    pub command: Command,
    pub arguments: &'g Arguments<'a>,
    pub seat: Terminals,
    /// The terminal that gives each byte as it is typed, if the arguments name one.
    pub terminal: Option<Terminal>,
}

/// The arguments of the run of a file.
#[derive(Drop)]
pub struct FileRunArgs<'a> {
    /// The file; none and `-` are the standard input.
    pub file: Option<&'a str>,
    /// The keys that wait at the start.
    pub keys: Keys,
    /// The most steps, 0 to 100,000,000.
    pub limit: u32,
    /// Whether the run has no guard.
    pub free: bool,
}

impl<'a> FileRunArgs<'a> {
    /// Returns how the program of the file is run.
    pub fn run(&self) -> RunArgs<'_>
        ensures keys { result.keys.now ≡ self.now.keys }
        ensures limit { result.limit ≡ self.now.limit }
        ensures free { result.free ≡ self.now.free }
    {
        RunArgs {
            keys: &self.keys,
            limit: self.limit,
            free: self.free,
        }
    }
}

/// Returns the keys that the value of `--keys` spells, for the command `name`.
pub fn keys_in<'a>(name: &'a str, text: &'a str) -> Result<Keys, Refusal<'a>>
    ensures spelled { IfOk result (λ keys. AreKeys text.now keys) }
    ensures refused { IfErr result (λ _. (keys : List ℕ) → AreKeys text.now keys → ⊥) }
{
    match Keys::parse(text) {
        Some(keys) => Ok(keys),
        None => Err(Refusal::of_two(Message::BadKeys, name, text)),
    }
}

/// Returns the arguments of a run among those of a command. An error is one of the spelling of its keys. This project's profile.
pub fn run_args<'a>(given: &CommandArgs<'_, 'a>) -> Result<FileRunArgs<'a>, Refusal<'a>>
    ensures made { IfOk result (λ args. AreFileRunArgs (found_of given.now.arguments.now) args) }
    ensures refused { IfErr result (λ _. (keys : List ℕ) → AreKeys (keys_text (found_of given.now.arguments.now)) keys → ⊥) }
{
    let arguments = given.arguments;
    let keys = keys_in(given.command.name, arguments.text(&KEYS).unwrap_or(""))?;
    Ok(FileRunArgs {
        file: arguments.file(),
        keys,
        limit: arguments.number(&LIMIT).unwrap_or(DEFAULT_STEPS),
        free: arguments.has(&FREE),
    })
}

/// Returns the words after the first.
pub fn after_first(words: &[String]) -> &[String] {
    match words {
        [] => words,
        [_, rest @ ..] => rest,
    }
}
