//! The clock of the system.

use a2_play::Clock;
use std::time::Instant;

/// The clock of the system, which starts at 0 when it is made.
#[derive(Drop)]
pub struct HostClock<'a> {
    rt: &'a HostRuntime,
    start: Option<Instant>,
    last: u64,
}

impl<'a> HostClock<'a> {
    /// Starts the clock.
    pub fn new(rt: &'a HostRuntime) -> HostClock<'a> {
        HostClock {
            rt,
            start: Instant::now(rt).ok(),
            last: 0,
        }
    }
}

impl Clock for HostClock<'_> {
    fn micros(&mut self) -> u64 {
        let Some(start) = self.start else {
            return self.last;
        };
        if let Ok(elapsed) = start.elapsed(self.rt) {
            self.last = u64::try_from(elapsed.as_micros()).unwrap_or(u64::MAX);
        }
        self.last
    }
}
