//! Why commands are rejected.

ghost use Rattle.std.specs.Prelude.{◌≡◌, ◌≢◌, ◌+◌, ◌-◌, ◌<◌, ◌≤◌, IfOk, IfErr, Some, None};
ghost use Rattle.a2_bus.specs.Memory.{ram_end};
ghost use Rattle.a2_monitor.specs.declared.fault.MonFault.TheVariants.{Write};
ghost use Rattle.a2_monitor.specs.SessionStates.{range_error};

use crate::MonFault;
use crate::parsing::Range;
use a2_hex::RAM_END;

/// Rejects a range that goes backwards, and a range that is not completely in RAM, at its own place or at `to`.
pub(crate) fn check_range(range: Range, to: u16) -> Result<(), MonFault>
    ensures refused { IfErr result (λ fault. range_error range to ≡ Some fault) }
    ensures fault { IfErr result (λ fault. fault ≢ Write) }
    ensures allowed { IfOk result (λ _. range_error range to ≡ None) }
    ensures order { IfOk result (λ _. range.first ≤ range.last) }
    ensures source { IfOk result (λ _. range.last < ram_end) }
    ensures room { IfOk result (λ _. to + (range.last - range.first) < ram_end) }
{
    if range.last < range.first {
        return Err(MonFault::Backward);
    }
    if range.last >= RAM_END || to >= RAM_END || range.last - range.first >= RAM_END - to {
        return Err(MonFault::Outside);
    }
    Ok(())
}
