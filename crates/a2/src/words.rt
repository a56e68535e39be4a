//! The arguments of the command line.

ghost use Rattle.std.specs.Prelude.{◌≡◌, ◌≢◌, ◌⊎◌, ◌<◌, ◌≤◌, ◌∷◌, ◌++◌, ◌↔◌, [], None, Some, Ok, IfErr, IfOk, IsTrue, codes};
ghost use Rattle.std.specs.Prelude.{true, length, map, option_map, string_bytes};
ghost use Rattle.clap.specs.Words.{fault_of, first_of, found_of, one_of, rows_of, subcommand_of, subcommand_rows_of};
ghost use Rattle.a2.specs.declared.words.WordsFault.TheVariants.{Words, Memory};
ghost use Rattle.a2.specs.Grammar.{HasRule, IsApp, IsCommand, flag as flag_rule, grammar, needed as needed_rule, run_rules};
ghost use Rattle.a2.specs.Grammar.{valued as valued_rule};
ghost use Rattle.a2.specs.Words.{AreLooseKeys, Asks, HasLooseKeys, IsFlag, IsOrderOf, IsRefusalOf, IsRunOrder, RefusesRun};
ghost use Rattle.a2.specs.Words.{SaysKeys, SaysLimit, plain_run, text_of_words};

use a2_bus::Keys;
use a2_host::HostArgumentsFault;
use a2_run::{DEFAULT_STEPS, Options, step_limit};
use clap::error::ErrorKind;
use clap::{Arg, ArgAction, ArgMatches, Command};
use std::alloc::{AllocError, Global};

/// What the arguments of `run` ask for.
#[derive(Drop)]
pub struct RunOrder<'a> {
    /// The file, or `None` for the standard input.
    pub source: Option<&'a str>,
    /// The keys that are waiting at the start.
    pub keys: Keys,
    /// The maximum number of steps, 0 to 100,000,000.
    pub limit: u32,
    pub options: Options,
}

/// What the arguments ask for.
#[derive(Drop)]
pub enum Order<'a> {
    /// Writes the object lines of a source file.
    Asm { source: &'a str },
    /// Answers the Monitor lines of a file.
    Mon { script: &'a str },
    /// Debugs the source in one file with the commands in another.
    Debug { source: &'a str, script: &'a str },
    /// Runs a file or the standard input.
    Run(RunOrder<'a>),
}

/// Why arguments are rejected.
#[derive(Clone, Copy, Debug, PartialEq, Eq)]
pub enum WordsFault {
    /// The arguments are not a valid command line.
    Words,
    /// The keys are not written correctly, or there are too many.
    Keys,
    /// There is not enough memory.
    Memory,
}

impl WordsFault {
    /// Returns the line that reports the error.
    pub fn line(self) -> &'static str
        ensures { result.now ≡ text_of_words self ++ codes "\n" }
    {
        match self {
            WordsFault::Words => "BAD WORDS\n",
            WordsFault::Keys => "BAD KEYS\n",
            WordsFault::Memory => "NO MEMORY\n",
        }
    }
}

impl From<AllocError> for WordsFault {
    ghost use Rattle.a2.specs.declared.words.WordsFault.TheVariants.{Memory};

    ghost from_gives = { λ _ e. e ≡ Memory };

    fn from(_error: AllocError) -> WordsFault {
        WordsFault::Memory
    }
}

impl From<HostArgumentsFault> for WordsFault {
    ghost use Rattle.a2.specs.Words.{of_host};

    ghost from_gives = { λ fault e. e ≡ of_host fault };

    fn from(fault: HostArgumentsFault) -> WordsFault {
        match fault {
            HostArgumentsFault::NotText => WordsFault::Words,
            HostArgumentsFault::Memory => WordsFault::Memory,
        }
    }
}

// A required argument.
fn needed<'a>(alloc: Global, name: &'a str) -> Arg<'a>
    ensures { HasRule result (needed_rule name.entry.now) }
{
    Arg::new(alloc, name).required(true).action(ArgAction::Set)
}

// An option with a value.
fn valued<'a>(alloc: Global, name: &'a str) -> Arg<'a>
    ensures { HasRule result (valued_rule name.entry.now) }
{
    Arg::new(alloc, name).long(name).action(ArgAction::Set)
}

// An option without a value.
fn flag<'a>(alloc: Global, name: &'a str) -> Arg<'a>
    ensures { HasRule result (flag_rule name.entry.now) }
{
    Arg::new(alloc, name).long(name).action(ArgAction::SetTrue)
}

// A subcommand without a help option.
fn named<'a>(alloc: Global, name: &'a str) -> Command<'a>
    ensures { IsCommand name.entry.now [] result }
{
    Command::new(alloc, name).disable_help_flag(true)
}

// A subcommand with one file.
fn with_file<'a>(alloc: Global, name: &'a str) -> Result<Command<'a>, AllocError>
    ensures { IfOk result (IsCommand name.entry.now (needed_rule (codes "file") ∷ [])) }
{
    named(alloc, name).arg(needed(alloc, "file"))
}

// The subcommand `run` with its arguments.
fn run_command<'a>(alloc: Global) -> Result<Command<'a>, AllocError>
    ensures { IfOk result (IsCommand (codes "run") run_rules) }
{
    with_file(alloc, "run")?
        .arg(valued(alloc, "keys"))?
        .arg(valued(alloc, "limit"))?
        .arg(flag(alloc, "free"))?
        .arg(flag(alloc, "attr"))
}

// The subcommand `debug` with its arguments.
fn debug_command<'a>(alloc: Global) -> Result<Command<'a>, AllocError>
    ensures { IfOk result (IsCommand (codes "debug") (needed_rule (codes "file") ∷ needed_rule (codes "script") ∷ [])) }
{
    with_file(alloc, "debug")?.arg(needed(alloc, "script"))
}

// The program's name without subcommands.
fn bare_command<'a>(alloc: Global) -> Command<'a>
    ensures { IsApp result (record { top = record grammar.top { is_leaf = true }; subs = [] }) }
{
    named(alloc, "a2")
        .disable_help_subcommand(true)
        .subcommand_required(true)
}

// The whole command line.
fn command<'a>(alloc: Global) -> Result<Command<'a>, AllocError>
    ensures { IfOk result (λ command. IsApp command grammar) }
{
    bare_command(alloc)
        .subcommand(with_file(alloc, "asm")?)?
        .subcommand(with_file(alloc, "mon")?)?
        .subcommand(debug_command(alloc)?)?
        .subcommand(run_command(alloc)?)
}

// Returns the values that `clap` finds in the arguments.
fn matches_of<'a>(alloc: Global, words: &'a [String]) -> Result<ArgMatches<'a>, WordsFault>
    ensures clean { IfOk result (λ found. fault_of grammar (map string_bytes words.entry.now) ≡ []) }
    ensures found { IfOk result (λ found. subcommand_rows_of found ≡ subcommand_of grammar (map string_bytes words.entry.now)) }
    ensures refused { IfErr result (λ fault. (fault ≡ Memory) ⊎
        ((fault ≡ Words) × (fault_of grammar (map string_bytes words.entry.now) ≢ []))) }
{
    match command(alloc)?.try_get_matches_from(words) {
        Ok(found) => Ok(found),
        Err(error) => match error.kind() {
            ErrorKind::OutOfMemory => Err(WordsFault::Memory),
            _ => Err(WordsFault::Words),
        },
    }
}

// Returns the value of a required argument as written.
fn word_of<'a>(found: &ArgMatches<'a>, name: &str) -> Result<&'a str, WordsFault>
    ensures found { IfOk result (λ word. first_of name.now (rows_of (found_of found.now)) ≡ Some word.now) }
    ensures missing { IfErr result (λ fault. (first_of name.now (rows_of (found_of found.now)) ≡ None) × (fault ≡ Words)) }
{
    found.get_str(name).ok_or(WordsFault::Words)
}

// Whether an argument is `--keys` and the next one begins with `-`.
fn are_loose_keys(option: &str, value: &str) -> bool
    ensures { IsTrue result ↔ AreLooseKeys option.now value.now }
{
    match option {
        "--keys" => value.as_bytes().starts_with(b"-"),
        _ => false,
    }
}

// Whether keys that begin with `-` are given as a separate argument. Such keys are only allowed after `--keys=`.
fn has_loose_keys(words: &[String]) -> bool
    ensures { IsTrue result ↔ HasLooseKeys (map string_bytes words.now) }
{
    for index in 1..words.len() {
        if are_loose_keys(words[index - 1].as_str(), words[index].as_str()) {
            return true;
        }
    }
    false
}

// Returns the step limit of a run. `word` is the value of `--limit`, if it is given.
fn limit_given(word: Option<&str>) -> Result<u32, WordsFault>
    ensures { SaysLimit (option_map (λ word. word.now) word.entry) result }
{
    match word {
        None => Ok(DEFAULT_STEPS),
        Some(word) => step_limit(word).ok_or(WordsFault::Words),
    }
}

// Returns the keys that are waiting at the start. `text` is the value of `--keys`, if it is given.
fn keys_given(text: Option<&str>) -> Result<Keys, WordsFault>
    ensures { SaysKeys (option_map (λ text. text.now) text.entry) result }
{
    match text {
        None => Ok(Keys::new()),
        Some(text) => Keys::parse(text).ok_or(WordsFault::Keys),
    }
}

// Returns the step limit from the arguments of `run`.
fn limit_in(found: &ArgMatches) -> Result<u32, WordsFault>
    ensures { SaysLimit (first_of (codes "limit") (rows_of (found_of found.now))) result }
{
    limit_given(found.get_str("limit"))
}

// Returns the waiting keys from the arguments of `run`.
fn keys_in(found: &ArgMatches) -> Result<Keys, WordsFault>
    ensures { SaysKeys (first_of (codes "keys") (rows_of (found_of found.now))) result }
{
    keys_given(found.get_str("keys"))
}

// Returns the options from the arguments of `run`.
fn options_in(found: &ArgMatches) -> Options
    ensures free { IsFlag (one_of (codes "free") (rows_of (found_of found.now))) result.free }
    ensures attr { IsFlag (one_of (codes "attr") (rows_of (found_of found.now))) result.attr }
{
    Options {
        free: found.get_flag("free"),
        attr: found.get_flag("attr"),
    }
}

// Returns what the arguments of `run` ask for. Bad keys are reported only if nothing else is wrong.
fn run_order<'a>(found: &ArgMatches<'a>) -> Result<RunOrder<'a>, WordsFault>
    ensures order { IfOk result (IsRunOrder (rows_of (found_of found.now))) }
    ensures refused { IfErr result (RefusesRun (rows_of (found_of found.now))) }
{
    let source = Some(word_of(found, "file")?);
    let limit = limit_in(found)?;
    let keys = keys_in(found)?;
    Ok(RunOrder {
        source,
        keys,
        limit,
        options: options_in(found),
    })
}

// Returns what the program does without arguments.
fn plain_order<'a>() -> RunOrder<'a>
    ensures { result ≡ plain_run }
{
    RunOrder {
        source: None,
        keys: Keys::new(),
        limit: DEFAULT_STEPS,
        options: Options {
            free: false,
            attr: false,
        },
    }
}

// Returns what the arguments of a subcommand ask for.
fn inner_order<'a>(
    words: &[String],
    name: &str,
    inner: &ArgMatches<'a>,
) -> Result<Order<'a>, WordsFault>
    ensures order { IfOk result (IsOrderOf (map string_bytes words.now) name.now (rows_of (found_of inner.now))) }
    ensures refused { IfErr result (IsRefusalOf (map string_bytes words.now) name.now (rows_of (found_of inner.now))) }
{
    match name {
        "asm" => Ok(Order::Asm {
            source: word_of(inner, "file")?,
        }),
        "mon" => Ok(Order::Mon {
            script: word_of(inner, "file")?,
        }),
        "debug" => Ok(Order::Debug {
            source: word_of(inner, "file")?,
            script: word_of(inner, "script")?,
        }),
        "run" if !has_loose_keys(words) => Ok(Order::Run(run_order(inner)?)),
        _ => Err(WordsFault::Words),
    }
}

/// Returns what the arguments `words` ask for. The first is the program's name and is ignored. Fails if the arguments are not a
/// valid command line, if the keys are not written correctly, or if there is not enough memory. This project's profile.
pub fn order_of<'a>(alloc: Global, words: &'a [String]) -> Result<Order<'a>, WordsFault>
    ensures { Asks (map string_bytes words.entry.now) result }
{
    if words.len() <= 1 {
        return Ok(Order::Run(plain_order()));
    }
    let found = matches_of(alloc, words)?;
    let (name, inner) = found.subcommand().ok_or(WordsFault::Words)?;
    inner_order(words, name, inner)
}
