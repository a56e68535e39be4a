//! Says why keys were not typed.

/// The reason why keys were not typed.
#[derive(Clone, Copy)]
pub enum TypingFault {
    /// More than 4,096 keys would wait.
    Full,
    /// Memory is short.
    Memory,
}
