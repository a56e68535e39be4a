//! Types keys at their steps.

use a2_bus::Keys;
use a2_debugger::Inspector;
use a2_timed_keys::{Strokes, Typed};
use std::alloc::{AllocError, Global};

/// Returns keys in the order of their steps. Fails only if there is not enough memory.
pub fn by_steps(alloc: Global, strokes: &Strokes) -> Result<Vec<Typed>, AllocError> {
    let mut log = Vec::new(alloc);
    for typed in strokes.as_slice() {
        log.push(*typed)?;
    }
    log.as_mut_slice().sort_by_key(alloc, |typed| typed.steps)?;
    Ok(log)
}

/// Takes the debugger to a step of a session with the keys typed on the way, and returns whether it can go that far.
pub fn bring(inspector: &mut Inspector<'_>, log: &[Typed], steps: u64) -> bool {
    for typed in log {
        if !inspector.replay_to(typed.steps) || inspector.type_keys(Keys::one(typed.key)).is_err() {
            return false;
        }
    }
    inspector.replay_to(steps)
}
