//! Checks the clauses at labels within a routine when a run reaches them.

use crate::broken::{Broken, Unmet, broken_line};
use crate::exit::TrialRun;
use crate::trial_machine::TrialMachine;
use a2_bus::AddressSpace;
use a2_cpu::Regs;
use a2_promise::{Clause, Promise, StateView, Visit, Within, value_in};
use a2_promise_certify::{NO_NAMES, sight_of};
use std::alloc::{AllocError, Global};

/// For each label of a routine, the measures when a run last reached it, in source order; and the states at the
/// labels that `at` names.
pub(crate) struct Tally {
    lasts: Vec<i64>,
    visits: Vec<Visit<Global>>,
}

// Written by hand only for the prover: it handles this as one call, but a derived `Drop` field by field.
impl Drop for Tally {
    fn drop(self) {
        let Tally {
            lasts: _,
            visits: _,
        } = self;
    }
}

impl Tally {
    /// Creates the tally of a run that has not reached any label.
    pub fn new(alloc: Global, promise: &Promise) -> Result<Tally, AllocError> {
        let mut measures: usize = 0;
        let mut visits = Vec::new(alloc);
        for within in promise.within.as_slice() {
            measures = measures.saturating_add(within.measures.len());
            if within.is_named {
                visits.push(Visit {
                    address: within.address,
                    is_there: false,
                    regs: Regs::start(within.address),
                    space: AddressSpace::new(alloc)?,
                    cycles: 0,
                    steps: 0,
                })?;
            }
        }
        let lasts = vec![in alloc; 0i64; measures]?;
        Ok(Tally { lasts, visits })
    }

    // Records the state when a run reaches a label, if `at` names that label.
    fn note_visit(&mut self, machine: &TrialMachine, run: &TrialRun) {
        for visit in self.visits.as_mut_slice() {
            if visit.address == run.regs.pc {
                note(visit, machine, run);
            }
        }
    }

    // Returns a measure that is below 0, or that is not less than before when the run returns to its label. `first`
    // is the index of the label's first measure.
    fn broken_measure(
        &mut self,
        measures: &[Clause],
        first: usize,
        is_back: bool,
        entry: &StateView<Global>,
        here: &StateView<Global>,
    ) -> Option<Broken> {
        let mut place = first;
        for measure in measures {
            let visits = self.visits.as_slice();
            let Some(number) = value_in(&measure.expr, entry, here, visits, NO_NAMES) else {
                return Some(Broken::Line(measure.line, Unmet::NoValue));
            };
            if number < 0 {
                return Some(Broken::Line(measure.line, Unmet::BelowZero(number)));
            }
            if let Some(last) = self.lasts.get_mut(place) {
                if is_back && number >= *last {
                    return Some(Broken::Line(measure.line, Unmet::NotLess(*last, number)));
                }
                *last = number;
            }
            place = place.saturating_add(1);
        }
        None
    }
}

// Records the current state of a run.
fn note(visit: &mut Visit<Global>, machine: &TrialMachine, run: &TrialRun) {
    visit.is_there = true;
    visit.regs = run.regs;
    visit.space.copy_from(&machine.now);
    visit.cycles = run.cycles;
    visit.steps = run.steps;
}

/// Returns the clause that is not met at the label where a run is, if the routine has a label there.
pub(crate) fn broken_within(
    promise: &Promise,
    machine: &TrialMachine,
    tally: &mut Tally,
    regs: Regs,
    run: &TrialRun,
) -> Option<Broken> {
    let mut first: usize = 0;
    for within in promise.within.as_slice() {
        if within.address == run.regs.pc {
            return broken_at(within, machine, tally, first, regs, run);
        }
        first = first.saturating_add(within.measures.len());
    }
    None
}

// Checks one label where a run is. Its measures begin at this index.
fn broken_at(
    within: &Within,
    machine: &TrialMachine,
    tally: &mut Tally,
    first: usize,
    regs: Regs,
    run: &TrialRun,
) -> Option<Broken> {
    let entry = sight_of(&regs, &machine.before, 0, 0);
    let here = sight_of(&run.regs, &machine.now, run.cycles, run.steps);
    tally.note_visit(machine, run);
    let facts = within.invariants.as_slice();
    if let Some(broken) = broken_line(facts, &entry, &here, tally.visits.as_slice()) {
        return Some(broken);
    }
    let is_back = matches!(run.from, Some(from) if within.address <= from);
    tally.broken_measure(within.measures.as_slice(), first, is_back, &entry, &here)
}
