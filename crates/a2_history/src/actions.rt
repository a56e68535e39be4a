//! What is done to a run by hand, between two steps.

use a2_bus::Keys;
use a2_effect::Regs;

/// A change that no step makes.
#[derive(Clone, Copy)]
pub enum Change {
    /// All registers get these values.
    Registers(Regs),
    /// The byte of RAM at an address gets a value. At or above $C000 nothing changes.
    Byte(u16, u8),
}

/// What is done by hand.
#[derive(Drop)]
pub enum Action {
    /// Keys are typed.
    Keys(Keys),
    /// A byte or registers are changed.
    Change(Change),
}

/// What was done at a position.
#[derive(Drop)]
pub struct Logged {
    pub position: u64,
    pub action: Action,
}
