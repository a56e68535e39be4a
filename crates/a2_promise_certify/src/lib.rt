//! Shows, by finitely many states, that a routine keeps its promise in every world in which it is entered.
//!
//! CALLING.md shows how to call this crate.
#![tactic(auto)]

mod allowed;
mod clause_knowledge;
mod clauses;
mod cursor;
mod entry_states;
mod every_state;
mod input;
mod known_parts;
mod laws;
mod marks;
mod one_state;
mod service_reads;
mod service_stores;
mod settled_bytes;
mod stored;
mod walk;

pub use allowed::{is_own_stack, may_change};
pub use clauses::{NO_NAMES, all_hold, sight_of};
pub use entry_states::put_register;
pub use every_state::holds_in_every_state;
pub use input::Input;
pub use known_parts::KnownParts;
pub use laws::{an_rts_keeps_all, promises_hold_everywhere};
pub use marks::is_set;
pub use one_state::{Setup, is_tried};
pub use service_reads::{registers_read_by, registers_set_by};
pub use settled_bytes::{number_of, settled_byte};
pub use stored::Stored;
pub use walk::{ENTRY_S, Walk, run_to_own_rts};
