//! The last steps of a run, which are run again once.

use crate::recorder::Recorder;
use crate::step::Step;
use a2_timed_keys::Ended;
use std::alloc::{AllocError, Allocator};

/// How many steps before a stop are examined first.
pub(crate) const NEAR: u32 = 512;

/// How many steps before a stop show a loop, or a routine into which the program ran on.
pub(crate) const WIDE: u32 = 4_096;

/// How many are examined, one number after the other, if these do not show what caused the stop.
pub(crate) const FARTHER: [u32; 2] = [WIDE, 65_536];

/// The last steps of a run, which are run again once for all questions about them.
#[derive(Drop)]
pub(crate) struct Past<'e, 'a, A: Allocator> {
    alloc: A,
    ended: &'e Ended<'a, A>,
    steps: Vec<Step, A>,
}

// Returns the last steps of a run, at most so many. Fails only if there is not enough memory.
fn last_steps<A: Allocator + Copy>(
    alloc: A,
    ended: &Ended<'_, A>,
    count: u32,
) -> Result<Vec<Step, A>, AllocError> {
    // No run has more steps than fit.
    let end = u32::try_from(ended.machine().steps()).unwrap_or(u32::MAX);
    let mut again = ended.again(alloc, end.saturating_sub(count))?;
    let mut recorder = Recorder::of(alloc, again.machine(), count as usize)?;
    again.finish(&mut recorder);
    Ok(recorder.into_steps())
}

impl<'e, 'a, A: Allocator + Copy> Past<'e, 'a, A> {
    /// Runs so many last steps of a run again, or a shorter run from its start. Fails only if there is not enough memory.
    pub(crate) fn of(
        alloc: A,
        ended: &'e Ended<'a, A>,
        count: u32,
    ) -> Result<Past<'e, 'a, A>, AllocError> {
        Ok(Past {
            alloc,
            ended,
            steps: last_steps(alloc, ended, count)?,
        })
    }
}

impl<'e, 'a, A: Allocator + Copy> Past<'e, 'a, A> {
    /// Examines more steps, at last 65,536. Returns whether there are more of them than before. Fails only if there is not enough
    /// memory.
    pub(crate) fn look_farther(&mut self) -> Result<bool, AllocError> {
        if self.is_whole() {
            return Ok(false);
        }
        let examined = self.steps.len();
        for count in &FARTHER {
            if *count as usize > examined {
                self.steps = last_steps(self.alloc, self.ended, *count)?;
                return Ok(true);
            }
        }
        Ok(false)
    }

    // Returns whether one of the examined steps stored at one of the addresses.
    fn stored_at(&self, addresses: &[u16]) -> bool {
        addresses.iter().any(|it| self.last_store(*it).is_some())
    }

    /// Examines more steps until one of them stored at one of the addresses. Fails only if there is not enough memory.
    pub(crate) fn look_for_stores(&mut self, addresses: &[u16]) -> Result<(), AllocError> {
        for _ in &FARTHER {
            if self.stored_at(addresses) || !self.look_farther()? {
                break;
            }
        }
        Ok(())
    }

    /// Returns the steps that are examined, in their order.
    pub(crate) fn steps(&self) -> &[Step] {
        self.steps.as_slice()
    }

    /// Returns the last of them, if there are so many.
    pub(crate) fn last(&self, count: usize) -> Option<&[Step]> {
        let steps = self.steps.as_slice();
        let first = steps.len().checked_sub(count)?;
        Some(steps.split_at(first).1)
    }

    /// Returns whether these are all steps of the run.
    pub(crate) fn is_whole(&self) -> bool {
        self.steps.len() as u64 == self.ended.machine().steps()
    }

    /// Returns the run.
    pub(crate) fn ended(&self) -> &'e Ended<'a, A> {
        self.ended
    }

    /// Returns the allocator for what is found.
    pub(crate) fn alloc(&self) -> A {
        self.alloc
    }

    /// Returns the last step whose instruction stored at an address, unless it pushed there.
    pub(crate) fn last_store(&self, address: u16) -> Option<Step> {
        for step in self.steps.iter().rev() {
            if let Some(store) = step.store {
                if store.address == address {
                    return Some(*step);
                }
            }
        }
        None
    }
}
