//! Plays a machine at a terminal in real time: types keys, runs the cycles that are due, and draws the cells that
//! changed.
//!
//! CALLING.md shows how to call this crate.
#![tactic(auto)]

ghost use Rattle.a2_play.specs.Replays.{ReplayIsPlay};

mod clock;
mod pace;
mod panel;
mod player;
mod replayed_run;
mod session;
mod speaker;
mod spelling;

pub use clock::Clock;
pub use pace::{Pace, due, second};
pub use panel::TerminalSize;
pub use player::Player;
pub use session::{Leave, Session, play};
pub use spelling::put_keys;

/// A law: two plays of a program with the same keys, typed after the same steps, are at the same world after as many
/// steps. So a replay shows what the play did.
pub fn replay_is_play()
    ensures { ReplayIsPlay }
{}
