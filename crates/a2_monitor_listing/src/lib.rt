//! Sources with exactly the bytes of listings that the Monitor prints.
//!
//! CALLING.md shows how to call it.
#![tactic(auto)]

mod fault;
mod listing;
mod object;
mod row;
mod same;

pub use fault::ListingFault;
pub use listing::{assembles_to, import_listing};
pub use object::object_lines;
