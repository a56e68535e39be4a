//! The end of a run: its exit status, and the lines that show it.

ghost use Rattle.std.specs.Prelude.{◌≤◌};

use a2_machine::{Cause, Machine, write_cause, write_registers};
use a2_run::status;
use a2_stream::{Output, WriteFault};
use std::alloc::Allocator;

/// Returns the exit status of a run that stopped for this cause.
pub fn stop_status(cause: Cause) -> u8
    ensures { result ≤ 5 }
{
    status(&Ok(cause))
}

/// Returns the exit status of a session, whose machine stopped for this cause, or did not stop.
pub fn end_status(cause: Option<Cause>) -> u8
    ensures { result ≤ 5 }
{
    match cause {
        None => 0,
        Some(cause) => stop_status(cause),
    }
}

/// Writes the register line of a machine, and the cause line if it stopped.
pub fn put_end_state<A: Allocator, W: Output>(
    machine: &Machine<A>,
    cause: Option<Cause>,
    output: &mut W,
) -> Result<(), WriteFault> {
    write_registers(machine, output)?;
    match cause {
        Some(cause) => write_cause(cause, output),
        None => Ok(()),
    }
}
