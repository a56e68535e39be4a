//! What the program does, with any files and streams.

ghost use Rattle.std.specs.Prelude.{◌≡◌, ◌≢◌, ◌⊎◌, ◌<◌, ◌≤◌, [], Result, Ok, Err, IfErr, IsErr, IsOk, MatchResult, length, map};
ghost use Rattle.std.specs.Prelude.{string_bytes};
ghost use Rattle.a2_machine.specs.declared.causes.Cause.{Cause as Stop};
ghost use Rattle.a2_run.specs.declared.fault.RunFault.{RunFault as Fault};
ghost use Rattle.a2_run.specs.declared.fault.RunFault.TheVariants.{Read};
ghost use Rattle.a2_run.specs.Limits.{default_steps};
ghost use Rattle.a2_run.specs.Status.{status_of};
ghost use Rattle.a2_host.specs.ErrorLines.{ReportsLine};
ghost use Rattle.a2_host.specs.Shelves.{Opens};
ghost use Rattle.a2.specs.declared.words.Order.{Order as Asked};
ghost use Rattle.a2.specs.declared.words.WordsFault.{WordsFault as Refusal};
ghost use Rattle.a2.specs.Program.{AnswersFile, AnswersLines, AssemblesInput, DebugsFiles, Does, Refuses, RunsInput, RunsSource};
ghost use Rattle.a2.specs.Program.{Tells};
ghost use Rattle.a2.specs.Telling.{IsReportedBy, ReportsFault};
ghost use Rattle.a2.specs.Words.{Asks, NamesFile, done_status, plain, status_of_words, text_of_words};

use crate::words::{Order, RunOrder, WordsFault, order_of};
use a2_host::{Shelf, report};
use a2_machine::Cause;
use a2_run::{RunFault, asm_text, fault_status, run_text, status};
use a2_scripts::{debug_text, mon_text};
use a2_stream::{Input, Output, put};
use std::alloc::Global;

/// Reports bad arguments by a line to `complaints`, and returns the exit status: 2 for bad arguments and bad keys, 5 if there
/// is not enough memory. If a write fails, only the first part of the line was written.
pub fn refuse_words<E: Output>(fault: WordsFault, complaints: &mut E) -> u8
    ensures line { ReportsLine (E.taker complaints.old) (E.taker complaints.new) (text_of_words fault) }
    ensures status { result ≡ status_of_words fault }
{
    // If this fails, there is nowhere left to report it.
    let _ = put(fault.line().as_bytes(), complaints);
    match fault {
        WordsFault::Words | WordsFault::Keys => 2,
        WordsFault::Memory => 5,
    }
}

// Opens a file. A file that cannot be opened is reported as a failed read.
fn opened<S: Shelf>(shelf: &mut S, name: &str) -> Result<S::Reader, RunFault>
    ensures opens { Opens S.Reader.giver name.now (S.shelved shelf.old) (S.shelved shelf.new) result }
    ensures fault { IfErr result (λ fault. fault ≡ Read) }
{
    shelf.open(name).map_err(|_| RunFault::Read)
}

// Runs the text that an input gives, with the keys, limit and options of an order.
fn run_input<R: Input, W: Output>(
    alloc: Global,
    input: &mut R,
    order: &RunOrder,
    output: &mut W,
) -> Result<Cause, RunFault>
    ensures { RunsInput order.now.keys order.now.limit order.now.options
        (R.giver input.old) (R.giver input.new) (W.taker output.old) (W.taker output.new) result }
{
    run_text(
        alloc,
        input,
        &order.keys,
        order.limit,
        order.options,
        output,
    )
}

// Runs a file or the standard input.
fn run_file<S: Shelf, R: Input, W: Output>(
    alloc: Global,
    shelf: &mut S,
    input: &mut R,
    order: &RunOrder,
    output: &mut W,
) -> Result<Cause, RunFault>
    ensures run { RunsSource S.Reader.giver order.now (S.shelved shelf.old) (S.shelved shelf.new)
        (R.giver input.old) (R.giver input.new) (W.taker output.old) (W.taker output.new) result }
    ensures output { Tells (status_of result) (W.taker output.old) (W.taker output.new) }
    ensures unread { order.now.source ≢ None → input.new ≡ input.old }
{
    let Some(name) = order.source else {
        return run_input(alloc, input, order, output);
    };
    let mut reader = opened(shelf, name)?;
    run_input(alloc, &mut reader, order, output)
}

// Writes the object lines of a source file.
fn assemble_file<S: Shelf, W: Output>(
    alloc: Global,
    shelf: &mut S,
    source: &str,
    output: &mut W,
) -> Result<(), RunFault>
    ensures file { AnswersFile S.Reader.giver AssemblesInput source.now (S.shelved shelf.old) (S.shelved shelf.new)
        (W.taker output.old) (W.taker output.new) result }
    ensures output { Tells (done_status result) (W.taker output.old) (W.taker output.new) }
{
    let mut source = opened(shelf, source)?;
    asm_text(alloc, &mut source, output)
}

// Answers the Monitor lines of a file.
fn answer_file<S: Shelf, W: Output>(
    alloc: Global,
    shelf: &mut S,
    script: &str,
    output: &mut W,
) -> Result<(), RunFault>
    ensures file { AnswersFile S.Reader.giver AnswersLines script.now (S.shelved shelf.old) (S.shelved shelf.new)
        (W.taker output.old) (W.taker output.new) result }
    ensures output { Tells (done_status result) (W.taker output.old) (W.taker output.new) }
{
    let mut script = opened(shelf, script)?;
    mon_text(alloc, &mut script, output)
}

// Debugs the source in one file with the commands in another. Both files are opened before either is read.
fn debug_files<S: Shelf, W: Output>(
    alloc: Global,
    shelf: &mut S,
    source: &str,
    script: &str,
    output: &mut W,
) -> Result<(), RunFault>
    ensures files { DebugsFiles S.Reader.giver source.now script.now (S.shelved shelf.old) (S.shelved shelf.new)
        (W.taker output.old) (W.taker output.new) result }
    ensures output { Tells (done_status result) (W.taker output.old) (W.taker output.new) }
{
    let mut source = opened(shelf, source)?;
    let mut script = opened(shelf, script)?;
    debug_text(alloc, &mut source, &mut script, output)
}

// Reports the error of an answer, if it has one.
fn report_fault<T, E: Output>(answer: &Result<T, RunFault>, complaints: &mut E)
    ensures silent { IsOk answer.now → complaints.new ≡ complaints.old }
    ensures told { ReportsFault answer.now (E.taker complaints.old) (E.taker complaints.new) }
{
    if let Err(fault) = answer {
        report(fault.text().as_str(), complaints);
    }
}

// Reports the error of an answer, if it has one, and returns the exit status.
fn report_done<E: Output>(answer: &Result<(), RunFault>, complaints: &mut E) -> u8
    ensures status { result ≡ done_status answer.now }
    ensures silent { result ≡ 0 ⊎ result ≡ 3 → complaints.new ≡ complaints.old }
    ensures told { ReportsFault answer.now (E.taker complaints.old) (E.taker complaints.new) }
{
    report_fault(answer, complaints);
    match answer {
        Ok(()) => 0,
        Err(fault) => fault_status(fault),
    }
}

// Reports the error of a run, if it has one, and returns the exit status.
fn report_run<E: Output>(answer: &Result<Cause, RunFault>, complaints: &mut E) -> u8
    ensures status { result ≡ status_of answer.now }
    ensures silent { result ≡ 0 ⊎ result ≡ 3 → complaints.new ≡ complaints.old }
    ensures told { ReportsFault answer.now (E.taker complaints.old) (E.taker complaints.new) }
{
    report_fault(answer, complaints);
    status(answer)
}

// Does what the arguments ask for, reports an error, and returns the exit status.
fn follow<S: Shelf, R: Input, W: Output, E: Output>(
    alloc: Global,
    order: &Order,
    shelf: &mut S,
    input: &mut R,
    output: &mut W,
    complaints: &mut E,
) -> u8
    ensures done { Does S.Reader.giver order.now (S.shelved shelf.old) (S.shelved shelf.new)
        (R.giver input.old) (R.giver input.new) (W.taker output.old) (W.taker output.new)
        (E.taker complaints.old) (E.taker complaints.new) result }
    ensures output { Tells result (W.taker output.old) (W.taker output.new) }
    ensures silent { result ≡ 0 ⊎ result ≡ 3 → complaints.new ≡ complaints.old }
    ensures unread { NamesFile order.now → input.new ≡ input.old }
{
    match order {
        Order::Run(order) => report_run(&run_file(alloc, shelf, input, order, output), complaints),
        Order::Asm { source } => {
            report_done(&assemble_file(alloc, shelf, source, output), complaints)
        }
        Order::Mon { script } => {
            report_done(&answer_file(alloc, shelf, script, output), complaints)
        }
        Order::Debug { source, script } => report_done(
            &debug_files(alloc, shelf, source, script, output),
            complaints,
        ),
    }
}

/// Does what the arguments `words` ask for, and returns the exit status, 0 to 5. The first argument is the program's name;
/// without other arguments the text that `input` gives is run. Files are opened in `shelf`, and results are written to
/// `output`. An error in the arguments, the source, a read, a write or memory is reported to `complaints` by one line. This
/// project's profile.
pub fn obey<S: Shelf, R: Input, W: Output, E: Output>(
    alloc: Global,
    words: &[String],
    shelf: &mut S,
    input: &mut R,
    output: &mut W,
    complaints: &mut E,
) -> u8
    // What the arguments ask for is done, with the files that they name, and an error is reported; or the arguments are
    // rejected.
    ensures done { (asked : Result Asked Refusal) × Asks (map string_bytes words.now) asked × MatchResult asked
        (λ order. Does S.Reader.giver order (S.shelved shelf.old) (S.shelved shelf.new)
        (R.giver input.old) (R.giver input.new) (W.taker output.old) (W.taker output.new)
        (E.taker complaints.old) (E.taker complaints.new) result)
        (λ fault. Refuses fault (S.shelved shelf.old) (S.shelved shelf.new)
        (W.taker output.old) (W.taker output.new) (E.taker complaints.old) (E.taker complaints.new) result) }
    // Without arguments the input is run in the guarded machine, with no keys and at most the default number of steps.
    ensures plain { length words.now ≤ 1 → (answer : Result Stop Fault) × (result ≡ status_of answer)
        × ReportsFault answer (E.taker complaints.old) (E.taker complaints.new)
        × RunsInput [] default_steps plain (R.giver input.old) (R.giver input.new) (W.taker output.old) (W.taker output.new) answer }
    // For all arguments the status is at most 5. With 1, 2 or 5 nothing was written. With 0 or 3 no write failed. With 4 a
    // write failed, or nothing was written.
    ensures output { Tells result (W.taker output.old) (W.taker output.new) }
    // With 0 and 3 nothing is reported. With any other status one line is reported, with a text that belongs to the status.
    ensures silent { result ≡ 0 ⊎ result ≡ 3 → complaints.new ≡ complaints.old }
    ensures told { IsReportedBy result (E.taker complaints.old) (E.taker complaints.new) }
    // If there is an argument after the name, the input is not read.
    ensures unread { 1 < length words.now → input.new ≡ input.old }
{
    match order_of(alloc, words) {
        Ok(order) => follow(alloc, &order, shelf, input, output, complaints),
        Err(fault) => refuse_words(fault, complaints),
    }
}
