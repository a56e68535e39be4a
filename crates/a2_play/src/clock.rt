//! Provides the time for a session.

/// A clock.
pub trait Clock {
    /// Returns the microseconds since an arbitrary start. If the system cannot provide the time, the value does not
    /// change.
    fn micros(&mut self) -> u64;
}
