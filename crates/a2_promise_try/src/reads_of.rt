//! Finds what an expression reads, given the states between which it has a value.

use crate::named_inputs::input_of;
use a2_hex::RAM_END;
use a2_promise::{Bounds, Expr, Function, StateView, value};
use a2_promise_certify::Input;
use std::alloc::{AllocError, Global};

/// The state at a routine's entry and a state after it.
#[derive(Clone, Copy)]
pub(crate) struct Between<'a> {
    pub entry: StateView<'a, Global>,
    pub exit: StateView<'a, Global>,
}

impl<'a> Between<'a> {
    // Returns the same for what an expression says of the entry.
    fn at_entry(&self) -> Between<'a> {
        Between {
            entry: self.entry,
            exit: self.entry,
        }
    }

    /// Evaluates an expression.
    pub fn value(&self, expr: &Expr, names: Bounds) -> Option<i64> {
        value(expr, &self.entry, &self.exit, names)
    }

    /// Returns how many numbers a count has.
    pub fn count(&self, expr: &Expr, names: Bounds) -> u16 {
        match self.value(expr, names) {
            Some(number) if 0 <= number && number < 65536 => number as u16,
            _ => 0,
        }
    }
}

/// Returns the numbers of the names with one of them replaced.
pub(crate) fn with_name(names: Bounds, name: u8, number: u16) -> Bounds {
    let mut names = names;
    if let Some(place) = names.get_mut(usize::from(name)) {
        *place = i64::from(number);
    }
    names
}

// Adds the bytes that a function reads at an address.
fn add_bytes(
    found: &mut Vec<Input>,
    function: Function,
    address: Option<i64>,
) -> Result<(), AllocError> {
    let count: u8 = match function {
        Function::Byte => 1,
        Function::Word => 2,
        Function::Signed | Function::Abs => 0,
    };
    let Some(address) = address else {
        return Ok(());
    };
    for further in 0..count {
        let place = address.saturating_add(i64::from(further));
        if 0 <= place && place < i64::from(RAM_END) {
            found.push(Input::Byte(place as u16))?;
        }
    }
    Ok(())
}

/// Adds the inputs that an expression reads, given the numbers of its names; a byte comes before its address. What is
/// said of the state at a label is left out.
pub(crate) fn add_read(
    found: &mut Vec<Input>,
    between: &Between,
    expr: &Expr,
    names: Bounds,
) -> Result<(), AllocError> {
    match expr {
        Expr::Number(_) | Expr::Bound(_) | Expr::At(_, _) => Ok(()),
        Expr::Held(atom) => match input_of(*atom) {
            Some(input) => Ok(found.push(input)?),
            None => Ok(()),
        },
        Expr::Old(within) => add_read(found, &between.at_entry(), within, names),
        Expr::Of(function, of) => {
            add_bytes(found, *function, between.value(of, names))?;
            add_read(found, between, of, names)
        }
        Expr::Pair(_, left, right) => {
            add_read(found, between, left, names)?;
            add_read(found, between, right, names)
        }
        Expr::Choice(by, one, other) => {
            add_read(found, between, by, names)?;
            add_read(found, between, one, names)?;
            add_read(found, between, other, names)
        }
        Expr::Each(name, count, body) | Expr::Sum(name, count, body) => {
            add_read(found, between, count, names)?;
            for number in 0..between.count(count, names) {
                add_read(found, between, body, with_name(names, *name, number))?;
            }
            Ok(())
        }
    }
}

/// Returns the bytes of RAM among these inputs, each once.
pub(crate) fn bytes_of(alloc: Global, read: &[Input]) -> Result<Vec<u16>, AllocError> {
    let mut bytes = Vec::new(alloc);
    let mut marks = vec![in alloc; false; usize::from(RAM_END)]?;
    for input in read {
        if let Input::Byte(address) = *input
            && let Some(mark) = marks.get_mut(usize::from(address))
            && !*mark
        {
            *mark = true;
            bytes.push(address)?;
        }
    }
    Ok(bytes)
}
