//! Reports of faults, and their exit statuses.

ghost use Rattle.std.specs.Prelude.{◌≡◌, ◌≤◌};
ghost use Rattle.a2_host.specs.ErrorLines.{ReportsLine};
ghost use Rattle.a2_run.specs.Status.{fault_status as status_of_fault};
ghost use Rattle.a2_run.specs.Texts.{run_fault_text};

use a2_host::report;
use a2_run::{RunFault, fault_status};
use a2_stream::{Output, WriteFault};

// Writes the line that reports a fault.
fn report_fault_text<E: Output>(fault: RunFault, complaints: &mut E)
    ensures { ReportsLine (E.taker complaints.old) (E.taker complaints.new) (run_fault_text fault) }
{
    report(fault.text().as_str(), complaints);
}

/// Writes the line that reports a fault, and returns the exit status, at most 5.
pub fn report_fault<E: Output>(fault: RunFault, complaints: &mut E) -> u8
    ensures line { ReportsLine (E.taker complaints.old) (E.taker complaints.new) (run_fault_text fault) }
    ensures status { result ≡ status_of_fault fault }
    ensures few { result ≤ 5 }
{
    report_fault_text(fault, complaints);
    fault_status(&fault)
}

/// Reports a write if it failed, and returns the exit status: 0 if it did not fail.
pub fn report_write<E: Output>(answer: Result<(), WriteFault>, complaints: &mut E) -> u8
    ensures { result ≤ 5 }
{
    match answer {
        Ok(()) => 0,
        Err(fault) => report_fault(RunFault::from(fault), complaints),
    }
}
