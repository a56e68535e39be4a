//! Finds the routines that a run has entered and not left.

ghost use Rattle.std.specs.Prelude.{◌≡◌, ◌≤◌, IfOk};
ghost use Rattle.a2_history.specs.Courses.{NoneStuck};
ghost use Rattle.a2_history.specs.Routines.{entered, IsNewestOutside};

use crate::course::Course;
use a2_machine::Machine;
use a2_routines::{Entry, enter, leave};
use std::alloc::{AllocError, Allocator};

/// What was found on the way through a run.
#[derive(Drop)]
pub struct RoutinesFound<A: Allocator> {
    /// The routines that were entered and not left, the outermost first.
    pub entries: Vec<Entry, A>,
    /// The latest position with at most the given number of routines.
    pub outside: Option<u64>,
}

/// Goes through a run from its start to an end that was reached. Returns the routines entered there, and the latest
/// position before it with at most `most` of them. Fails only if memory is short.
pub fn routines_up_to<A: Allocator + Copy>(
    alloc: A,
    course: &Course<A>,
    scout: &mut Machine<A>,
    end: u64,
    most: usize,
) -> Result<RoutinesFound<A>, AllocError>
    requires guard { scout.old.state.guard ≡ course.now.origin.guard }
    requires few { end ≤ 100_000_000 }
    requires went { NoneStuck course.now end }
    ensures entered { IfOk result (λ way. way.entries.items ≡ entered course.now end) }
    ensures outside { IfOk result (λ way. IsNewestOutside course.now most end way.outside) }
    ensures guard { scout.new.state.guard ≡ scout.old.state.guard }
{
    course.restart(scout);
    let mut entries = Vec::new(alloc);
    let mut outside = None;
    for position in 0..end {
        if entries.len() <= most {
            outside = Some(position);
        }
        enter(&mut entries, scout)?;
        // No world before the end is stuck, so every step is executed.
        let _ = course.execute_step(scout);
        leave(&mut entries, scout);
    }
    Ok(RoutinesFound { entries, outside })
}
