//! The dialects of other assemblers.

/// An assembler whose sources can be imported.
#[derive(Clone, Copy, Debug, PartialEq, Eq)]
pub enum Dialect {
    /// The S-C Assembler.
    Sc,
    Lisa,
    /// Merlin 8, 16 and 32.
    Merlin,
    /// Apple's EDASM.
    Edasm,
    Ca65,
    /// 64tass.
    Tass,
    Acme,
    Dasm,
    /// The assembler of easy6502, in a browser.
    Easy,
}

impl Dialect {
    /// Returns whether an operand ends before a blank, and expressions are read from left to right.
    pub(crate) fn is_old(self) -> bool {
        matches!(
            self,
            Dialect::Sc | Dialect::Lisa | Dialect::Merlin | Dialect::Edasm
        )
    }
}

/// The kind of an old text.
#[derive(Clone, Copy, Debug, PartialEq, Eq)]
pub enum Old {
    /// A listing printed by the Monitor.
    Listing,
    /// A source for an assembler.
    Source(Dialect),
}
