//! Finds a state that meets what a promise requires, with the bytes of the program as they are laid.

use crate::entry_ram::filled;
use crate::named_inputs::{REGISTERS, inputs_of, named_by};
use crate::reads_of::{Between, add_read, bytes_of, with_name};
use crate::trial_machine::entered;
use crate::trial_states::put_values;
use a2_asm::Program;
use a2_bus::{AddressSpace, Bus};
use a2_effect::{Live, Regs};
use a2_hex::RAM_END;
use a2_promise::{Bounds, Clause, Expr, Promise, StateView};
use a2_promise_certify::{Input, NO_NAMES, all_hold, number_of, put_register, sight_of};
use std::alloc::{AllocError, Global};

// From how many states the search begins, and how often the clauses of each are met one after another.
const STATES_BEGUN: u64 = 100;

const ROUNDS: u32 = 3;

// How many of the inputs that a fact reads are changed, one at a time.
const MOST_CHANGED: usize = 64;

/// A state in which a routine can be entered: its registers and flags, and the bytes that its promise's requirements
/// read and that the program does not lay.
#[derive(Drop)]
pub(crate) struct EntryState {
    pub inputs: Vec<Input>,
    /// The value of each input.
    pub values: Vec<u8>,
}

// A state that is changed until it meets the requirements. The bytes of the program stay as they are.
#[derive(Drop)]
struct Candidate<'a> {
    program: &'a Program<Global>,
    live: Live,
    space: AddressSpace<Global>,
}

impl Candidate<'_> {
    // Returns whether a byte can be changed: it is in RAM, and not one of the program's.
    fn is_free(&self, address: u16) -> bool {
        address < RAM_END && self.program.image().get(address).is_none()
    }

    // Sets an input to a value, if it can be changed.
    fn put(&mut self, input: Input, number: u8) {
        if let Input::Byte(address) = input {
            if self.is_free(address) {
                self.space.write(address, number);
            }
            return;
        }
        put_register(input, number, &mut self.live);
    }

    // Sets inputs to their values.
    fn put_all(&mut self, inputs: &[Input], values: &[u8]) {
        for (input, number) in inputs.iter().zip(values) {
            self.put(*input, *number);
        }
    }

    // Returns the value of an input; a flag is 1 if it is set.
    fn input(&self, input: Input) -> u8 {
        let live = self.live;
        match input {
            Input::A => live.a,
            Input::X => live.x,
            Input::Y => live.y,
            Input::Carry => u8::from(live.carry),
            Input::Zero => u8::from(live.is_zero()),
            Input::Negative => u8::from(live.is_negative()),
            Input::Overflow => u8::from(live.overflow),
            Input::Interrupt => u8::from(live.interrupt),
            Input::Byte(address) => self.space.peek(address).unwrap_or(0),
        }
    }

    // Returns the state as promises see it.
    fn sight(&self) -> StateView<'_, Global> {
        sight_of(&self.live.regs(), &self.space, 0, 0)
    }

    // Returns the state as a routine's entry, for expressions about it alone.
    fn at_entry(&self) -> Between<'_> {
        let sight = self.sight();
        Between {
            entry: sight,
            exit: sight,
        }
    }

    // Returns whether an expression is true.
    fn is_met(&self, expr: &Expr, names: Bounds) -> bool {
        match self.at_entry().value(expr, names) {
            Some(number) => number < 0 || 0 < number,
            None => false,
        }
    }

    // Returns whether a fact is true with some value of an input, and sets that value; otherwise nothing changes.
    fn is_met_by(&mut self, input: Input, fact: &Expr, names: Bounds) -> bool {
        let before = self.input(input);
        for number in 0..=255 {
            self.put(input, number);
            if self.is_met(fact, names) {
                return true;
            }
        }
        self.put(input, before);
        false
    }
}

// Changes one of the inputs that a fact reads so that it is true, if that is possible.
fn meet_one(
    alloc: Global,
    here: &mut Candidate,
    fact: &Expr,
    names: Bounds,
) -> Result<(), AllocError> {
    if here.is_met(fact, names) {
        return Ok(());
    }
    let mut read = Vec::new(alloc);
    add_read(&mut read, &here.at_entry(), fact, names)?;
    for input in read.iter().take(MOST_CHANGED) {
        if here.is_met_by(*input, fact, names) {
            return Ok(());
        }
    }
    Ok(())
}

// Changes a state so that a fact is true, if that is possible part by part.
fn meet(alloc: Global, here: &mut Candidate, fact: &Expr, names: Bounds) -> Result<(), AllocError> {
    match fact {
        // This is how the conjunction of two conditions is represented.
        Expr::Choice(by, one, other) if matches!(number_of(other), Some(0)) => {
            meet(alloc, here, by, names)?;
            meet(alloc, here, one, names)
        }
        Expr::Each(name, count, body) => {
            for number in 0..here.at_entry().count(count, names) {
                meet(alloc, here, body, with_name(names, *name, number))?;
            }
            Ok(())
        }
        _ => meet_one(alloc, here, fact, names),
    }
}

// Returns whether a state meets these clauses, after changes if necessary.
fn is_made_to_meet(
    alloc: Global,
    here: &mut Candidate,
    clauses: &[Clause],
) -> Result<bool, AllocError> {
    for _ in 0..ROUNDS {
        for clause in clauses {
            meet(alloc, here, &clause.expr, NO_NAMES)?;
        }
        let sight = here.sight();
        if all_hold(clauses, &sight, &sight) {
            return Ok(true);
        }
    }
    Ok(false)
}

// Returns the part of a state that matters to clauses that it meets.
fn state_for(
    alloc: Global,
    here: &Candidate,
    clauses: &[Clause],
) -> Result<EntryState, AllocError> {
    let mut read = Vec::new(alloc);
    for clause in clauses {
        add_read(&mut read, &here.at_entry(), &clause.expr, NO_NAMES)?;
    }
    let mut inputs = Vec::from_slice(alloc, &REGISTERS)?;
    for address in &bytes_of(alloc, read.as_slice())? {
        if here.is_free(*address) {
            inputs.push(Input::Byte(*address))?;
        }
    }
    let mut values = Vec::new(alloc);
    for input in &inputs {
        values.push(here.input(*input))?;
    }
    Ok(EntryState { inputs, values })
}

/// Returns a state that meets what a promise requires, with the bytes of the program as they are laid, or `None` if
/// none is found. Fails only if memory runs out.
pub(crate) fn entry_state(
    alloc: Global,
    program: &Program<Global>,
    promise: &Promise,
) -> Result<Option<EntryState>, AllocError> {
    let named = named_by(alloc, program, promise)?;
    let inputs = inputs_of(alloc, promise, named.inputs.as_slice(), &[])?;
    let mut values = vec![in alloc; 0u8; inputs.all.len()]?;
    let mut here = Candidate {
        program,
        live: Live::of(&Regs::start(promise.address)),
        space: entered(alloc, &filled(alloc, program.image())?)?,
    };
    for number in 0..STATES_BEGUN {
        let corners = named.corners.as_slice();
        put_values(values.as_mut_slice(), &inputs, corners, number, false);
        here.put_all(inputs.all.as_slice(), values.as_slice());
        if is_made_to_meet(alloc, &mut here, promise.wanted.as_slice())? {
            return Ok(Some(state_for(alloc, &here, promise.wanted.as_slice())?));
        }
    }
    Ok(None)
}
