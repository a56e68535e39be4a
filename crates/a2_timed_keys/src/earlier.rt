//! Copies of the machine of a run, kept on the way.

ghost use Rattle.std.specs.Prelude.{◌≡◌, ◌≤◌, List, None, IfSome};
ghost use Rattle.a2_services.specs.World.{World};
ghost use Rattle.a2_machine.specs.Meaning.{Code};
ghost use Rattle.a2_timed_keys.specs.declared.strokes.Typed.{Typed};
ghost use Rattle.a2_timed_keys.specs.Typed.{IsCopy, AreCopies};

use a2_machine::Machine;
use std::alloc::Allocator;

/// The last two copies that were kept of the machine of a run.
pub(crate) struct Earlier<A: Allocator> {
    older: Option<Machine<A>>,
    newer: Option<Machine<A>>,
}

// Not derived, for the prover alone: it follows this as one call, and a derived one field by field.
impl<A: Allocator> Drop for Earlier<A> {
    fn drop(self) {
        let Earlier { older: _, newer: _ } = self;
    }
}

impl<A: Allocator + Copy> Earlier<A> {
    /// Keeps a copy of a machine, in place of the older of two. If there is not enough memory for it, none is kept.
    pub(crate) fn keep(&mut self, alloc: A, machine: &Machine<A>)
        ensures { (code : Code) (start : World) (log : List Typed) → IsCopy code start log machine.now
            → AreCopies code start log self.old.older self.old.newer → AreCopies code start log self.new.older self.new.newer }
    {
        let mut copy = match self.older.take() {
            Some(older) => older,
            None => match Machine::for_copies(alloc) {
                Ok(new) => new,
                Err(_) => return,
            },
        };
        copy.copy_from(machine);
        self.older = self.newer.take();
        self.newer = Some(copy);
    }
}

impl<A: Allocator + Copy> Earlier<A> {
    /// No copies.
    pub(crate) fn new() -> Earlier<A>
        ensures older { result.older ≡ None }
        ensures newer { result.newer ≡ None }
    {
        Earlier {
            older: None,
            newer: None,
        }
    }

    /// Returns the newest copy whose machine has made at most so many steps.
    pub(crate) fn newest(&self, steps: u64) -> Option<&Machine<A>>
        ensures copy { (code : Code) (start : World) (log : List Typed) → AreCopies code start log self.now.older self.now.newer
            → IfSome result (λ machine. IsCopy code start log machine.now) }
        ensures few { IfSome result (λ machine. machine.now.state.steps ≤ steps) }
    {
        if let Some(newer) = &self.newer {
            if newer.steps() <= steps {
                return Some(newer);
            }
        }
        match &self.older {
            Some(older) if older.steps() <= steps => Some(older),
            _ => None,
        }
    }
}
