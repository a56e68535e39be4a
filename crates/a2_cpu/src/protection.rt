//! Sets of addresses at which nothing may be stored.

ghost use Rattle.std.specs.Prelude.{◌≡◌, ℕ, Bool, false};

/// A set of addresses, from 0 to $FFFF, at which a guarded step never stores or pushes.
pub trait Protection {
    /// The set, as contracts see it.
    ghost is_protected: { Self → ℕ → Bool };

    /// Returns whether an address is in the set.
    fn is_protected(&self, address: u16) -> bool
        ensures { result ≡ is_protected self.now address };
}

/// The empty set: no address is protected.
#[derive(Clone, Copy, PartialEq, Eq, Debug)]
pub struct NoProtection;

impl Protection for NoProtection {
    ghost is_protected = { λ protection address. false };

    #[inline(always)]
    fn is_protected(&self, _address: u16) -> bool {
        false
    }
}
