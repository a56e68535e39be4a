//! The commands that a line can hold.

use crate::settings::Setting;
use crate::stops::{Break, Flag, Register, Watch};
use crate::verbs::Verb;
use a2_bus::Keys;
use a2_symbols::Span;

/// Something to show. Showing it changes nothing.
#[derive(Clone, Copy)]
pub enum Show {
    /// The current position, and the routines that were entered.
    Place,
    /// The registers.
    Registers,
    /// The value of an 8-bit register.
    Register(Register),
    /// The value of a flag.
    Flag(Flag),
    /// The value of PC.
    Counter,
    /// An address and the byte there.
    Address(u16),
    /// The bytes from one address to another.
    Memory(Span),
    /// The picture on the screen.
    Screen,
    /// The source lines around the current position.
    Lines,
    /// The source lines around an address.
    LinesAt(u16),
    /// The breakpoints and the watchpoints.
    Stops,
    /// The bytes of the stack, and the routines that they return from.
    Stack,
    /// The list of commands.
    Help,
}

/// A command.
#[derive(Drop)]
pub enum InspectorCommand {
    /// Execute this many steps.
    Step(u16),
    /// Execute one step, or a whole routine.
    Next,
    /// Execute steps until the routine returns.
    Out,
    /// Go back this many steps.
    Back(u16),
    /// Go back one step, or a whole routine.
    GoBackOver,
    /// Execute steps up to a breakpoint or to just after a step that changed something watched.
    Go,
    /// Execute steps up to an address.
    Until(u16),
    /// Go back to the latest earlier breakpoint, or to just before the latest step that changed something watched.
    GoBack,
    /// Watch this.
    Watch(Watch),
    /// Stop watching this.
    Unwatch(Watch),
    /// Go back to just before the latest step that changed this.
    Who(Watch),
    /// Set a breakpoint.
    Break(Break),
    /// Remove all breakpoints and watchpoints.
    Clear,
    /// Remove the breakpoint at an address.
    ClearAt(u16),
    /// Type keys.
    TypeKeys(Keys),
    /// Set a register, a flag, PC or a byte, and forget what came later.
    Set(Setting),
    /// Show something.
    Show(Show),
}

/// The result of a line.
#[derive(Clone, Copy)]
pub enum Outcome {
    /// There was nothing to repeat.
    Nothing,
    /// The run moved by the steps of the command, or up to the place it looked for. It may not have moved at all, at the start.
    Moved,
    /// The run moved up to a stop, or until a routine returned.
    Seen,
    /// The run moved back to a stop.
    SeenEarlier,
    /// Steps were executed until the machine was stuck or the limit of one line was reached.
    Stopped(a2_machine::Cause),
    /// No earlier step begins at a breakpoint, or changed something watched.
    NoneEarlier,
    /// No earlier step changed this.
    NeverChanged(Watch),
    /// No routine has been entered.
    NoRoutine,
    /// The breakpoint is set.
    Set(Break),
    /// The breakpoint could not be set: there are already as many as allowed.
    Full,
    /// This is watched.
    Watched(Watch),
    /// This is not watched: there are already as many watchpoints as allowed.
    FullWatches,
    /// All breakpoints and watchpoints were removed.
    Cleared,
    /// Keys were typed.
    Typed,
    /// The keys were not typed: too many would be waiting.
    KeysFull,
    /// This was set. The farthest position reached before was this one.
    Changed(u64),
    /// Nothing was done, because memory ran out.
    Memory,
    /// This is to be shown.
    Shown(Show),
    /// The first word of the line is not a command.
    NoWord,
    /// The text after this command is not valid.
    Refused(Verb),
}
