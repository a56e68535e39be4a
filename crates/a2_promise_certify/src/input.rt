//! Inputs: the parts of the state at a routine's entry that are varied.

ghost use Rattle.std.specs.Prelude.{◌≡◌, ◌≤◌, false, MatchOption};
ghost use Rattle.std.specs.List.{list_any};
ghost use Rattle.a2_footprint.specs.declared.Part.{Part as DeclaredPart};
ghost use Rattle.a2_footprint.specs.Parts.{is_part};
ghost use Rattle.a2_promise_certify.specs.States.{holds_part, is_byte, values_of};

use a2_footprint::Part;

/// A part of the state at the entry: a register, a flag, or a byte of RAM.
#[derive(Clone, Copy, PartialEq, Eq)]
pub enum Input {
    A,
    X,
    Y,
    Carry,
    Zero,
    Negative,
    Overflow,
    Interrupt,
    Byte(u16),
}

impl Input {
    /// Returns how many values the input has.
    pub fn values(self) -> u64
        ensures is { result ≡ values_of self }
        ensures least { 2 ≤ result }
        ensures most { result ≤ 256 }
    {
        match self {
            Input::A | Input::X | Input::Y | Input::Byte(_) => 256,
            _ => 2,
        }
    }

    /// Returns the register or flag that the input is, or `None` if it is a byte of RAM.
    pub fn part(self) -> Option<Part>
        ensures { MatchOption result ((part : DeclaredPart) → holds_part self part ≡ false)
            (λ found. (part : DeclaredPart) → holds_part self part ≡ is_part part found) }
    {
        match self {
            Input::A => Some(Part::A),
            Input::X => Some(Part::X),
            Input::Y => Some(Part::Y),
            Input::Carry => Some(Part::C),
            Input::Zero => Some(Part::Z),
            Input::Negative => Some(Part::N),
            Input::Overflow => Some(Part::V),
            Input::Interrupt => Some(Part::I),
            Input::Byte(_) => None,
        }
    }

    /// Returns the input for a register or flag, or `None` for D, which is clear at the entry.
    pub fn of(part: Part) -> Option<Input> {
        match part {
            Part::A => Some(Input::A),
            Part::X => Some(Input::X),
            Part::Y => Some(Input::Y),
            Part::N => Some(Input::Negative),
            Part::V => Some(Input::Overflow),
            Part::I => Some(Input::Interrupt),
            Part::Z => Some(Input::Zero),
            Part::C => Some(Input::Carry),
            Part::D => None,
        }
    }
}

// Returns whether an input is the byte at an address.
fn is_at(input: Input, address: u16) -> bool
    ensures { result ≡ is_byte address input }
{
    match input {
        Input::Byte(at) => at == address,
        _ => false,
    }
}

/// Returns whether one of these inputs is the byte at an address.
pub(crate) fn is_named(inputs: &[Input], address: u16) -> bool
    ensures { result ≡ list_any (is_byte address) inputs.now }
{
    inputs.iter().any(|input| is_at(*input, address))
}
