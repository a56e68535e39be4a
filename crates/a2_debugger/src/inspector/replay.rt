//! Replaying a run that was recorded elsewhere.

ghost use Rattle.std.specs.Prelude.{◌≡◌, ◌↔◌, ◌-◌, min, true, false, Some, OnOk, OnErr};
ghost use Rattle.a2_debugger.specs.Inspections.{GoesOn, moved_to, with_keys_typed};

use super::{Inspector, go_on, note};
use a2_bus::Keys;
use a2_history::{Nothing, TypingFault};
use std::alloc::Allocator;

/// The greatest position.
const MOST_POSITION: u64 = 100_000_000;

impl<A: Allocator + Copy> Inspector<'_, A> {
    /// Executes steps up to `position`, counted in steps from the start, or as far as the run goes, at most to 100,000,000.
    /// Returns whether the run reached the position. No byte counts as changed by this.
    pub fn replay_to(&mut self, position: u64) -> bool
        ensures gone { GoesOn (λ world. false) (min (position - self.old.track.position) 100_000_000) self.old.track
            self.new.track }
        ensures there { (result ≡ true) ↔ (self.new.track.position ≡ position) }
        ensures kept { self.new ≡ record self.old { track = self.new.track } }
    {
        let ahead = position
            .saturating_sub(self.history.position())
            .min(MOST_POSITION) as u32;
        let _ = go_on(&mut self.history, ahead, &Nothing, &Nothing);
        note(&mut self.before, &self.history);
        self.history.position() == position
    }

    /// Goes back to the start of the run. Keys that were typed are typed again on the way forward. No byte counts as changed by this.
    pub fn go_to_start(&mut self)
        ensures { self.new ≡ record self.old { track = moved_to (Some 0) self.old.track } }
    {
        self.history.go_back(0);
        note(&mut self.before, &self.history);
    }

    /// Types `keys` at the current position; keys typed at later positions are forgotten. Fails, with nothing changed, if more
    /// than 4,096 keys would be waiting or if memory runs out.
    pub fn type_keys(&mut self, keys: Keys) -> Result<(), TypingFault>
        ensures typed { OnOk result (self.new ≡ record self.old { track = with_keys_typed keys self.old.track }) }
        ensures kept { OnErr result (self.new ≡ self.old) }
    {
        self.history.type_keys(keys)
    }
}
