//! Services for callers that keep the registers separate from the address space: they execute many steps in a row and pack the
//! flags into a byte only after the last one.

pub use crate::calls::call;
pub use crate::needs::refusal;
