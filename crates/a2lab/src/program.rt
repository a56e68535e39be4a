//! What the program does, with any files and streams.

ghost use Rattle.std.specs.Prelude.{◌≤◌, IfErr, IfOk};

use a2_arguments::{Arguments, Command, read};
use a2_host::{Desk, Shelf};
use a2_manual::{manual, near, topic};
use a2_play::Clock;
use a2_run::RunFault;
use a2_stream::{Input, Output, put};
use a2lab_bytes::{diff_of, import_of, object_of, source_of};
use a2lab_commands::{
    CommandArgs, CommandRow, Host, Message, Refusal, Terminal, Terminals, Tool, Value, after_first,
    command_named, nearest_command, put_page, put_use, report, report_arguments, report_fault,
    terminal_in,
};
use a2lab_editors::{dap_of, lsp_of};
use a2lab_promises::promise_of;
use a2lab_reports::{film_of, profile_of, run_of, test_of, trace_of};
use a2lab_sessions::{debug_of, mon_of, play_of};
use a2lab_sources::{check_of, expand_of, fmt_of, list_of};
use std::alloc::{AllocError, Global};

// Reports an unknown command and which one may be meant, and returns the exit status.
fn report_unknown<E: Output>(alloc: Global, name: &str, complaints: &mut E) -> u8
    ensures { result ≤ 6 }
{
    if name.ends_with(".s") {
        let values = [Value::Text(name), Value::Text(name)];
        report(Message::FileForCommand, &values, complaints);
        return 2;
    }
    let Ok(nearest) = nearest_command(alloc, name) else {
        return report_fault(RunFault::Memory, complaints);
    };
    let Some(near) = nearest else {
        report(Message::UnknownCommand, &[Value::Text(name)], complaints);
        return 2;
    };
    let values = [Value::Text(name), Value::Text(near)];
    report(Message::UnknownCommandNear, &values, complaints);
    2
}

// Returns the words of a name, with blanks between them.
fn joined(alloc: Global, words: &[&str]) -> Result<Vec<u8>, AllocError> {
    let mut name = Vec::new(alloc);
    for word in words {
        if !name.is_empty() {
            name.push(b' ')?;
        }
        name.extend_from_slice((*word).as_bytes())?;
    }
    Ok(name)
}

// Prints what the manual says about a topic, or reports that it says nothing, and returns the exit status.
fn explain_name<'a, S, D, C, R, W: Output, E: Output>(
    name: &[u8],
    host: &mut Host<S, D, C, R, W, E>,
) -> Result<u8, Refusal<'a>>
    ensures { IfOk result (λ status. status ≤ 6) }
{
    if let Some(text) = topic(manual(), name) {
        put(text, &mut host.output)?;
        return Ok(0);
    }
    let Some(other) = near(host.alloc, manual(), name)? else {
        report(
            Message::UnknownTopic,
            &[Value::Bytes(name)],
            &mut host.complaints,
        );
        return Ok(2);
    };
    let values = [Value::Bytes(name), Value::Bytes(other)];
    report(Message::UnknownTopicNear, &values, &mut host.complaints);
    Ok(2)
}

// Prints the page of all commands, the page of one, or what the manual says about another topic, and returns the exit status.
fn help<'a, S, D, C, R, W: Output, E: Output>(
    given: &CommandArgs<'_, 'a>,
    host: &mut Host<S, D, C, R, W, E>,
) -> Result<u8, Refusal<'a>>
    ensures { IfOk result (λ status. status ≤ 6) }
{
    let words = given.arguments.files.as_slice();
    let Some(first) = given.arguments.file() else {
        put_page(&mut host.output)?;
        return Ok(0);
    };
    match command_named(first) {
        Some(row) if words.len() == 1 => {
            put_use(&row.command, &mut host.output)?;
            Ok(0)
        }
        _ => {
            let name = joined(host.alloc, words)?;
            explain_name(name.as_slice(), host)
        }
    }
}

// Runs a command, and returns its exit status.
fn act<'a, S: Shelf, D: Desk, C: Clock, R: Input, W: Output, E: Output>(
    tool: Tool,
    given: &CommandArgs<'_, 'a>,
    host: &mut Host<S, D, C, R, W, E>,
) -> Result<u8, Refusal<'a>>
    ensures { IfOk result (λ status. status ≤ 6) }
{
    match tool {
        Tool::Help => help(given, host),
        Tool::Check => check_of(given, host),
        Tool::Dap => dap_of(given, host),
        Tool::List => list_of(given, host),
        Tool::Object => object_of(given, host),
        Tool::Diff => diff_of(given, host),
        Tool::Test => test_of(given, host),
        Tool::Promise => promise_of(given, host),
        Tool::Lsp => lsp_of(given, host),
        Tool::Mon => mon_of(given, host),
        Tool::Play => play_of(given, host),
        Tool::Fmt => fmt_of(given, host),
        Tool::Expand => expand_of(given, host),
        Tool::Import => import_of(given, host),
        Tool::Source => source_of(given, host),
        Tool::Debug => debug_of(given, host),
        Tool::Film => film_of(given, host),
        Tool::Run => run_of(given, host),
        Tool::Trace => trace_of(given, host),
        Tool::Profile => profile_of(given, host),
    }
}

// Reads the arguments of a command. If they have an error, reports it and returns the exit status.
fn arguments_in<'a, E: Output>(
    alloc: Global,
    command: &Command,
    words: &'a [String],
    complaints: &mut E,
) -> Result<Arguments<'a>, u8>
    ensures { IfErr result (λ status. status ≤ 6) }
{
    match read(alloc, command, words) {
        Ok(arguments) => Ok(arguments),
        Err(fault) => Err(report_arguments(alloc, command, fault, complaints)),
    }
}

// Runs a command with its arguments, and returns its exit status.
fn run_with<S: Shelf, D: Desk, C: Clock, R: Input, W: Output, E: Output>(
    row: CommandRow,
    words: &[String],
    seat: Terminals,
    terminal: Option<Terminal>,
    host: &mut Host<S, D, C, R, W, E>,
) -> u8
    ensures { result ≤ 6 }
{
    let arguments = match arguments_in(host.alloc, &row.command, words, &mut host.complaints) {
        Ok(arguments) => arguments,
        Err(status) => return status,
    };
    let given = CommandArgs {
        command: row.command,
        arguments: &arguments,
        seat,
        terminal,
    };
    match act(row.tool, &given, host) {
        Ok(status) => status,
        Err(refusal) => refusal.report(&mut host.complaints),
    }
}

// Runs a command with the words after its name, and returns its exit status.
fn run_command<S: Shelf, D: Desk, C: Clock, R: Input, W: Output, E: Output>(
    row: CommandRow,
    words: &[String],
    seat: Terminals,
    host: &mut Host<S, D, C, R, W, E>,
) -> u8
    ensures { result ≤ 6 }
{
    if !draws_at_terminal(row.tool) {
        return run_with(row, words, seat, None, host);
    }
    let (terminal, words) = terminal_in(words);
    run_with(row, words, seat, terminal, host)
}

// Returns whether a command may draw on its terminal.
fn draws_at_terminal(tool: Tool) -> bool {
    is_session(tool) || matches!(tool, Tool::Run)
}

// Returns whether a command holds a session.
fn is_session(tool: Tool) -> bool {
    matches!(tool, Tool::Debug | Tool::Mon | Tool::Play)
}

// Returns the command that `words` name, after the program's name.
fn tool_in(words: &[String]) -> Option<Tool> {
    match words {
        [_, word, ..] => match command_named(word.as_str()) {
            Some(row) => Some(row.tool),
            None => None,
        },
        _ => None,
    }
}

/// Returns whether what `words` ask for is written at once: the answers of a session and to an editor, and what `promise` finds, which may
/// take minutes.
/// The first of `words` is the program's name.
pub fn writes_at_once(words: &[String]) -> bool {
    match tool_in(words) {
        Some(tool) => is_session(tool) || matches!(tool, Tool::Promise | Tool::Lsp | Tool::Dap),
        None => false,
    }
}

// Returns the command of `words` if its terminal is described after it.
fn drawing_tool(words: &[String]) -> Option<Tool> {
    match (tool_in(words), words) {
        (Some(tool), [_, _, raw, ..]) if raw.as_str() == "--raw" => Some(tool),
        _ => None,
    }
}

/// Returns whether `words` draw on their terminal: a session, or the screen of a run, whose output has no text of a file. The first of
/// `words` is the program's name.
pub fn draws(words: &[String]) -> bool {
    match drawing_tool(words) {
        Some(tool) => draws_at_terminal(tool),
        None => false,
    }
}

/// Returns whether `words` begin a session that draws on its terminal. The first of `words` is the program's name.
pub fn draws_session(words: &[String]) -> bool {
    match drawing_tool(words) {
        Some(tool) => is_session(tool),
        None => false,
    }
}

// Whether the arguments of a command ask for its help.
fn asks_for_help(words: &[String]) -> bool {
    match words {
        [word] => word.as_str() == "--help" || word.as_str() == "-h",
        _ => false,
    }
}

// Prints the help of a command or of the program, or reports an unknown command, and returns the exit status.
fn answer<S, D, C, R, W: Output, E: Output>(
    found: Option<CommandRow>,
    name: &str,
    host: &mut Host<S, D, C, R, W, E>,
) -> u8
    ensures { result ≤ 6 }
{
    let written = match (found, name) {
        (Some(row), _) => put_use(&row.command, &mut host.output),
        (None, "--help" | "-h") => put_page(&mut host.output),
        _ => return report_unknown(host.alloc, name, &mut host.complaints),
    };
    match written {
        Ok(()) => 0,
        Err(_) => report_fault(RunFault::Write, &mut host.complaints),
    }
}

/// Runs the command that `words` name, and returns the exit status. The first of `words` is the program's name, the second the command.
/// Output goes to the output of `host`, and errors to its complaints. `seat` says which streams are terminals. Without a command, the
/// page of help goes to the complaints, with status 2. This project's profile.
pub fn obey<S: Shelf, D: Desk, C: Clock, R: Input, W: Output, E: Output>(
    words: &[String],
    seat: Terminals,
    host: &mut Host<S, D, C, R, W, E>,
) -> u8
    ensures { result ≤ 6 }
{
    let [name, words @ ..] = after_first(words) else {
        let _ = put_page(&mut host.complaints);
        return 2;
    };
    let found = match command_named(name.as_str()) {
        Some(row) if !asks_for_help(words) => return run_command(row, words, seat, host),
        found => found,
    };
    answer(found, name.as_str(), host)
}
