//! The services of the modelled Apple II's Monitor: each call is a single step on the registers and the board.
//!
//! [`call`] calls a service. Code that executes many steps in a row and keeps the registers separate from the board calls
//! [`live::call`]. Code that only needs to know what a service does can read its row, [`row_of`], and use [`load`], [`window`],
//! [`masked`] and [`bytes`] to compute what it reads and puts.
//!
//! The names, addresses and purposes come from the Apple II Reference Manual (1979): chapter 3, "The System Monitor"; chapter
//! 2, "Conversation with Apples", on standard output, the text window, standard input and GETLN; and chapter 1, on
//! low-resolution graphics. The exact effects and the cycles are this project's profile. A service takes its row from CV and
//! always works on page 1. It leaves A, X, Y and P unchanged, except a register that holds its result. It writes no byte of the
//! stack, and at its end it pulls PC as RTS does. COUT, CROUT and RDKEY are hooks: they pull nothing and jump to the address
//! stored in two bytes of page 0.
//!
//! CALLING.md shows how to call it.
#![tactic(auto)]

mod blocks;
pub mod bytes;
mod calls;
mod editing;
mod ends;
mod hooks;
mod line;
pub mod live;
mod locations;
mod needs;
mod on_board;
mod put;
mod rows;
mod screen;
mod stores;

pub use on_board::call;
pub use put::masked;
pub use rows::{Needs, OnScreen, Reach, RegisterSet, Row, Service, Takes, row_of, service_at};
pub use screen::{Edges, load, window};
pub use stores::reach;

/// The result of a call.
#[derive(Clone, Copy, Debug, PartialEq, Eq)]
pub enum Served {
    /// The call was executed and took this many cycles: 5 for a hook, 23 to 167,293 for WAIT, and 6 for any other service.
    Next(u32),
    /// The position of the window, the cursor or the blocks does not fit the service, and nothing changed.
    Window,
    /// The positions fit, but the keys that the service needs are not waiting, and nothing changed. [`live::refusal`] returns
    /// this answer and `Window`.
    Keys,
}
