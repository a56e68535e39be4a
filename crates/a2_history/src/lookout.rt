//! Watches the steps of a burst for an alarm.

ghost use Rattle.std.specs.Prelude.{◌≡◌, ◌||◌, Bool, false, slice_get};
ghost use Rattle.a2_burst.specs.Shown.{Shown};

use crate::Nothing;
use a2_burst::{Observer, StepView};

/// A condition to watch for in the steps of a burst. The burst does not end because of it. If no step raises an
/// alarm, nothing new is seen after any of them.
pub trait Lookout {
    /// Whether a step, as an observer is shown it, raises an alarm.
    ghost alarms: { Self → Shown → Bool };

    /// Returns whether a step raises an alarm, given what is seen of it and the 49,152 bytes of RAM after it.
    fn alarms(&self, look: StepView, ram: &[u8]) -> bool
        ensures { result ≡ alarms self.now (record { look = look; ram = slice_get ram.now }) };
}

impl Lookout for Nothing {
    ghost alarms = { λ nothing shown. false };

    #[inline(always)]
    fn alarms(&self, _look: StepView, _ram: &[u8]) -> bool {
        false
    }
}

/// An observer that remembers whether a step raised an alarm.
#[derive(Drop)]
pub struct Watcher<'a, L: Lookout> {
    pub lookout: &'a L,
    pub is_alarmed: bool,
}

impl<L: Lookout> Observer for Watcher<'_, L> {
    ghost seen = { λ watcher shown. record watcher { is_alarmed = watcher.is_alarmed || L.alarms watcher.lookout.now shown } };

    #[inline(always)]
    fn see(&mut self, look: StepView, ram: &[u8]) {
        // The flag is read and written only for a step that raises an alarm.
        if self.lookout.alarms(look, ram) {
            self.is_alarmed = true;
        }
    }
}
