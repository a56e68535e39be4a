//! Sets of addresses before which a run stops.

ghost use Rattle.std.specs.Prelude.{◌≡◌, ℕ, Bool, false};

/// A set of addresses, from 0 to $FFFF, before which a run stops.
pub trait Breakpoints {
    /// The set, as contracts see it.
    ghost is_breakpoint: { Self → ℕ → Bool };

    /// Returns whether an address is in the set.
    fn is_breakpoint(&self, address: u16) -> bool
        ensures { result ≡ is_breakpoint self.now address };
}

/// The empty set: a run never stops before an address.
#[derive(Clone, Copy, PartialEq, Eq, Debug)]
pub struct NoBreakpoints;

impl Breakpoints for NoBreakpoints {
    ghost is_breakpoint = { λ breakpoints address. false };

    #[inline(always)]
    fn is_breakpoint(&self, _address: u16) -> bool {
        false
    }
}
