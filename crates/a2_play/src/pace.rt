//! Computes how many cycles are due.

ghost use Rattle.std.specs.Prelude.{◌≡◌, ◌≤◌};
ghost use Rattle.a2_play.specs.Paces as paces;

/// The cycles that an Apple II runs in a second.
const APPLE: u32 = 1_022_727;

/// The slowest and the fastest pace that a session can have.
const SLOWEST: u32 = 1_000;

const FASTEST: u32 = 1_000_000_000;

/// The parts of a cycle in a `Tempo`. From the fastest pace, twenty halvings reach the slowest; so none of them has a rest.
const PARTS: u64 = 1_048_576;

/// The cycles to run before the clock is read again, at `Max`.
const STRETCH: u64 = 1_000_000;

/// A second, in microseconds.
pub(crate) const SECOND: u64 = 1_000_000;

/// The longest delay that is made up for at once, in microseconds.
const MAX_DELAY: u64 = 250_000;

/// How fast a machine runs.
#[derive(Clone, Copy, Debug, PartialEq, Eq)]
pub enum Pace {
    /// This many cycles a second.
    Cycles(u32),
    /// As many cycles as possible.
    Max,
}

impl Pace {
    /// Returns the pace of an Apple II: 1,022,727 cycles a second.
    pub fn apple() -> Pace
        ensures { result ≡ paces.apple }
    {
        Pace::Cycles(APPLE)
    }

    /// Returns whether a pace may have this many cycles a second: from 1,000 to 1,000,000,000.
    pub fn is_in_bounds(cycles: u32) -> bool
        ensures { result ≡ paces.is_in_bounds cycles }
    {
        (SLOWEST..=FASTEST).contains(&cycles)
    }
}

// Returns the number of cycles a second that is nearest to this one and within bounds.
fn within_bounds(cycles: u64) -> u32
    ensures { result ≡ paces.within_bounds cycles }
{
    if cycles < u64::from(SLOWEST) {
        SLOWEST
    } else if cycles > u64::from(FASTEST) {
        FASTEST
    } else {
        cycles as u32
    }
}

/// A pace that is doubled and halved without a loss, so that it can be reached again.
#[derive(Clone, Copy)]
pub(crate) enum Tempo {
    /// This many parts of a cycle a second. A cycle has 2^20 parts.
    Parts(u64),
    /// As many cycles as possible.
    Max,
}

impl Tempo {
    /// Returns the tempo of a pace.
    pub fn of(pace: Pace) -> Tempo
        ensures { result ≡ paces.tempo pace }
    {
        match pace {
            Pace::Cycles(cycles) => Tempo::Parts(u64::from(cycles) * PARTS),
            Pace::Max => Tempo::Max,
        }
    }

    /// Returns the pace, in whole cycles from 1,000 to 1,000,000,000 a second.
    pub fn pace(self) -> Pace
        ensures { result ≡ paces.pace self }
    {
        match self {
            Tempo::Parts(parts) => Pace::Cycles(within_bounds(parts / PARTS)),
            Tempo::Max => Pace::Max,
        }
    }

    /// Returns a tempo twice as fast, unless this is the fastest. `Max` stays the same.
    pub fn faster(self) -> Tempo
        ensures { result ≡ paces.faster self }
    {
        match self {
            Tempo::Parts(parts) if parts < u64::from(FASTEST) * PARTS => Tempo::Parts(parts * 2),
            tempo => tempo,
        }
    }

    /// Returns a tempo half as fast, unless this is the slowest. `Max` stays the same.
    pub fn slower(self) -> Tempo
        ensures { result ≡ paces.slower self }
    {
        match self {
            Tempo::Parts(parts) if parts > u64::from(SLOWEST) * PARTS => Tempo::Parts(parts / 2),
            tempo => tempo,
        }
    }
}

/// Returns the cycles that are due after this many microseconds, rounded down. After more than a quarter of a second,
/// only the cycles of a quarter are due, so that a machine that was held up does not race. At `Max` it returns
/// 1,000,000, whatever the time.
pub fn due(pace: Pace, micros: u64) -> u64
    ensures { result ≡ paces.due pace micros }
{
    match pace {
        Pace::Cycles(cycles) => u64::from(cycles) * micros.min(MAX_DELAY) / SECOND,
        Pace::Max => STRETCH,
    }
}

/// Returns the cycles of a second at a pace; at `Max`, those of an Apple II, 1,022,727.
pub fn second(pace: Pace) -> u64
    ensures { result ≡ paces.second pace }
{
    match pace {
        Pace::Cycles(cycles) => u64::from(cycles),
        Pace::Max => u64::from(APPLE),
    }
}
