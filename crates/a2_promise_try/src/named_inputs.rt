//! Finds the inputs that a promise names at the entry of its routine.

use a2_asm::Program;
use a2_hex::RAM_END;
use a2_opcode::Mode;
use a2_promise::{Atom, Changes, Clause, Expr, Function, Promise};
use a2_promise_certify::{Input, may_change, number_of, settled_byte};
use std::alloc::{AllocError, Global};

/// The registers and flags of a state.
pub(crate) const REGISTERS: [Input; 8] = [
    Input::A,
    Input::X,
    Input::Y,
    Input::Carry,
    Input::Zero,
    Input::Negative,
    Input::Overflow,
    Input::Interrupt,
];

/// The inputs of a promise: those that it names, then the others that its routine reads, then the remaining registers
/// and flags.
#[derive(Drop)]
pub(crate) struct Inputs {
    pub all: Vec<Input>,
    /// The number of inputs that the promise names.
    pub named: usize,
    /// The number of inputs that the promise names or its routine reads.
    varied: usize,
    /// For each input, its byte if the requirements allow only one value.
    pub settled: Vec<Option<u8>>,
    /// The number of states of the varied inputs that are not settled; 2^64 - 1 stands for any greater number.
    pub states: u64,
}

impl Inputs {
    /// Returns the inputs that the promise names or its routine reads.
    pub fn varied(&self) -> &[Input] {
        self.all.as_slice().get(..self.varied).unwrap_or(&[])
    }
}

/// Returns whether an input is among these.
pub(crate) fn is_among(inputs: &[Input], input: Input) -> bool {
    for known in inputs {
        if *known == input {
            return true;
        }
    }
    false
}

/// Adds an input, unless it is already there.
pub(crate) fn add(inputs: &mut Vec<Input>, input: Input) -> Result<(), AllocError> {
    if is_among(inputs.as_slice(), input) {
        return Ok(());
    }
    Ok(inputs.push(input)?)
}

/// Returns the input for a register or flag. S, D and the counts of the run are not inputs.
pub(crate) fn input_of(atom: Atom) -> Option<Input> {
    match atom {
        Atom::A => Some(Input::A),
        Atom::X => Some(Input::X),
        Atom::Y => Some(Input::Y),
        Atom::Carry => Some(Input::Carry),
        Atom::Zero => Some(Input::Zero),
        Atom::Negative => Some(Input::Negative),
        Atom::Overflow => Some(Input::Overflow),
        Atom::Interrupt => Some(Input::Interrupt),
        Atom::S | Atom::Decimal | Atom::Cycles | Atom::Steps => None,
    }
}

// Returns whether an input has the same value after the routine as at its entry.
fn is_kept(changes: &Changes, input: Input) -> bool {
    match input {
        Input::A => !changes.a,
        Input::X => !changes.x,
        Input::Y => !changes.y,
        Input::Byte(address) => !may_change(changes, address),
        _ => false,
    }
}

/// The inputs that a promise names, and the values to try first: limits, the bytes of its numbers, and the numbers of
/// its program and their neighbours.
#[derive(Drop)]
pub(crate) struct Named {
    pub inputs: Vec<Input>,
    pub corners: Vec<u8>,
}

// Adds the bytes of a number, low byte first, if it fits in two bytes.
fn add_corners(named: &mut Named, number: i64) -> Result<(), AllocError> {
    if 0 <= number && number < 65536 {
        named.corners.push((number % 256) as u8)?;
        named.corners.push((number / 256) as u8)?;
    }
    Ok(())
}

// Adds an input that an expression names. In the state after the routine, only an input that does not change counts.
fn add_named(
    named: &mut Named,
    input: Input,
    following: Option<&Changes>,
) -> Result<(), AllocError> {
    match following {
        Some(changes) if !is_kept(changes, input) => Ok(()),
        _ => add(&mut named.inputs, input),
    }
}

// Adds this many bytes from an address on.
fn add_bytes(
    named: &mut Named,
    address: i64,
    count: u8,
    following: Option<&Changes>,
) -> Result<(), AllocError> {
    for further in 0..count {
        let place = address.saturating_add(i64::from(further));
        if 0 <= place && place < i64::from(RAM_END) {
            add_named(named, Input::Byte(place as u16), following)?;
        }
    }
    Ok(())
}

// Adds the inputs that an expression names, at the entry, or after the routine with these changes.
fn search_in(
    named: &mut Named,
    expr: &Expr,
    following: Option<&Changes>,
) -> Result<(), AllocError> {
    match expr {
        Expr::Number(number) => add_corners(named, *number),
        // The value at a label is not an input of the promise's own clauses.
        Expr::Bound(_) | Expr::At(_, _) => Ok(()),
        Expr::Held(atom) => match input_of(*atom) {
            Some(input) => add_named(named, input, following),
            None => Ok(()),
        },
        Expr::Old(within) => search_in(named, within, None),
        Expr::Of(function, of) => match (function, number_of(of)) {
            (Function::Byte, Some(address)) => add_bytes(named, address, 1, following),
            (Function::Word, Some(address)) => add_bytes(named, address, 2, following),
            _ => search_in(named, of, following),
        },
        Expr::Pair(_, left, right) | Expr::Each(_, left, right) | Expr::Sum(_, left, right) => {
            search_in(named, left, following)?;
            search_in(named, right, following)
        }
        Expr::Choice(by, one, other) => {
            search_in(named, by, following)?;
            search_in(named, one, following)?;
            search_in(named, other, following)
        }
    }
}

// Adds the numbers of a program and their neighbours.
fn add_program(corners: &mut Vec<u8>, program: &Program<Global>) -> Result<(), AllocError> {
    for statement in program.statements() {
        if let Some(instr) = statement.instr
            && instr.mode == Mode::Immediate
        {
            let number = (instr.value % 256) as u8;
            let around = [number, number.wrapping_add(1), number.wrapping_sub(1)];
            corners.extend_from_slice(&around)?;
        }
    }
    Ok(())
}

/// Returns the inputs and first values that the promise of a routine names.
pub(crate) fn named_by(
    alloc: Global,
    program: &Program<Global>,
    promise: &Promise,
) -> Result<Named, AllocError> {
    let mut named = Named {
        inputs: Vec::new(alloc),
        corners: Vec::from_slice(alloc, &[0u8, 1, 127, 128, 254, 255])?,
    };
    for clause in promise.wanted.as_slice() {
        search_in(&mut named, &clause.expr, None)?;
    }
    for clause in promise.promised.as_slice() {
        search_in(&mut named, &clause.expr, Some(&promise.changes))?;
    }
    add_program(&mut named.corners, program)?;
    Ok(named)
}

/// Returns the byte that an input must have in every state that satisfies the clauses, or `None` if they do not
/// settle it.
pub(crate) fn settled_value(among: &[Input], clauses: &[Clause], input: Input) -> Option<u8> {
    match input {
        Input::Byte(address) => settled_byte(among, clauses, address),
        _ => None,
    }
}

/// Returns all inputs of a promise, given those that it names and those that its routine reads.
pub(crate) fn inputs_of(
    alloc: Global,
    promise: &Promise,
    named: &[Input],
    looked: &[Input],
) -> Result<Inputs, AllocError> {
    let mut all = Vec::from_slice(alloc, named)?;
    for input in looked {
        add(&mut all, *input)?;
    }
    let varied = all.len();
    for register in REGISTERS {
        add(&mut all, register)?;
    }
    let mut settled = Vec::new(alloc);
    let mut states: u64 = 1;
    for (index, input) in all.iter().enumerate() {
        let byte = settled_value(all.as_slice(), promise.wanted.as_slice(), *input);
        if index < varied && byte.is_none() {
            states = states.saturating_mul(input.values());
        }
        settled.push(byte)?;
    }
    Ok(Inputs {
        all,
        named: named.len(),
        varied,
        settled,
        states,
    })
}
