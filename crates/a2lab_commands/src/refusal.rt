//! The errors that end a command.

ghost use Rattle.std.specs.Prelude.{◌≤◌};

use crate::fault_report::report_fault;
use crate::messages::{MOST_KEYS, Message, Value, report};
use crate::terminals::Terminal;
use a2_run::{ReadingFault, RunFault};
use a2_stream::{Output, WriteFault};
use std::alloc::AllocError;

/// An error that ends a command.
#[derive(Clone, Copy)]
pub enum Refusal<'a> {
    /// A source, a read, a write or the memory is at fault.
    Fault(RunFault),
    /// No file of this name can be opened.
    Unopened(&'a str),
    /// The file of this name, or standard input, is opened and cannot be read.
    Unread(&'a str),
    /// The command cannot do what its arguments ask for, as a message with these values says.
    Message(Message, Value<'a>, Value<'a>),
    /// The source has errors, which are already reported.
    Reported,
}

impl<'a> From<RunFault> for Refusal<'a> {
    fn from(fault: RunFault) -> Refusal<'a> {
        Refusal::Fault(fault)
    }
}

impl<'a> From<AllocError> for Refusal<'a> {
    fn from(_error: AllocError) -> Refusal<'a> {
        Refusal::Fault(RunFault::Memory)
    }
}

impl<'a> From<WriteFault> for Refusal<'a> {
    fn from(_fault: WriteFault) -> Refusal<'a> {
        Refusal::Fault(RunFault::Write)
    }
}

impl<'a> Refusal<'a> {
    /// The error of a message without values.
    pub fn new(message: Message) -> Refusal<'a> {
        Refusal::Message(message, Value::Text(""), Value::Text(""))
    }

    /// The error of a message with one value.
    pub fn of(message: Message, value: &'a str) -> Refusal<'a> {
        Refusal::Message(message, Value::Text(value), Value::Text(""))
    }

    /// The error of a message with two values.
    pub fn of_two(message: Message, first: &'a str, second: &'a str) -> Refusal<'a> {
        Refusal::Message(message, Value::Text(first), Value::Text(second))
    }

    /// The error of a file that could not be read, or of standard input. Messages call it `name`.
    pub fn of_reading(name: &'a str, fault: ReadingFault) -> Refusal<'a> {
        match fault {
            ReadingFault::Read => Refusal::Unread(name),
            ReadingFault::Memory => Refusal::Fault(RunFault::Memory),
        }
    }

    /// The error of a terminal that is too small. The message has its columns and its rows.
    pub fn of_terminal(message: Message, terminal: Terminal) -> Refusal<'a> {
        let (columns, rows) = (u64::from(terminal.columns), u64::from(terminal.rows));
        Refusal::Message(message, Value::Number(columns), Value::Number(rows))
    }

    /// Reports the error, and returns the exit status.
    pub fn report<E: Output>(self, complaints: &mut E) -> u8
        ensures { result ≤ 5 }
    {
        match self {
            Refusal::Fault(fault) => return report_fault(fault, complaints),
            Refusal::Unopened(name) => {
                report(Message::CannotOpen, &[Value::Text(name)], complaints);
                return 4;
            }
            Refusal::Unread(name) => {
                report(Message::Unreadable, &[Value::Text(name)], complaints);
                return 4;
            }
            Refusal::Reported => return 1,
            // (only the messages about keys have a third value)
            Refusal::Message(message, first, second) => report(
                message,
                &[first, second, Value::Number(MOST_KEYS)],
                complaints,
            ),
        }
        2
    }
}
