//! The processor's flags.
#![tactic(auto, using(crate::proofs::FlagBits::flag_bits))]

ghost use Rattle.std.specs.Prelude.{⊤, ◌≡◌, ◌<◌, ◌==◌, ◌↔◌, [], ◌∷◌, codes, IsTrue};
ghost use Rattle.std.specs.Ordering.{on};
ghost use Rattle.std.specs.Cmp.Rules.{comparing};
ghost use Rattle.std.proofs.Common.{rules};
ghost use Rattle.a2_effect.specs.Registers.{flags_of_byte, byte_of_flags};
ghost use Rattle.a2_effect.specs.View.{bits_of, flags_of, spare_bits_of};

use bitflags::{Flag, Flags};

/// The flags as a byte, N V 1 B D I Z C from bit 7 down (MCS6500 Programming Manual, chapter 3).
///
/// Bits 5 and 4, for 1 and B, are not flags: the processor does not keep them. A value of this type may have them
/// set, for example one from [`Status::pulled`], but `==` ignores them. The operations of the trait [`Flags`] work on
/// all eight bits.
#[derive(Clone, Copy, Debug)]
pub struct Status {
    bits: u8,
}

impl Status {
    /// N, bit 7: the last result was 128 or more, that is, negative as a number from -128 to 127.
    pub const NEGATIVE: Status = Status { bits: 0x80 };
    /// V, bit 6: the last sum of numbers from -128 to 127 left that range.
    pub const OVERFLOW: Status = Status { bits: 0x40 };
    /// D, bit 3: selects decimal ADC and SBC, which this project's profile does not execute.
    pub const DECIMAL: Status = Status { bits: 8 };
    /// I, bit 2: interrupts are disabled. This machine has no interrupts.
    pub const INTERRUPT: Status = Status { bits: 4 };
    /// Z, bit 1: the last result was 0.
    pub const ZERO: Status = Status { bits: 2 };
    /// C, bit 0: the carry of a sum, the absence of a borrow in a difference, or the bit that was shifted out.
    pub const CARRY: Status = Status { bits: 1 };

    /// Returns a status with no flag and no other bit set.
    pub fn none() -> Status
        ensures { bits_of result ≡ 0 }
    {
        Status { bits: 0 }
    }

    /// Returns whether N is set.
    #[inline(always)]
    pub fn negative(self) -> bool
        ensures { result ≡ (flags_of self).n }
    {
        self.contains(Status::NEGATIVE)
    }

    /// Returns whether V is set.
    #[inline(always)]
    pub fn overflow(self) -> bool
        ensures { result ≡ (flags_of self).v }
    {
        self.contains(Status::OVERFLOW)
    }

    /// Returns whether D is set.
    #[inline(always)]
    pub fn decimal(self) -> bool
        ensures { result ≡ (flags_of self).d }
    {
        self.contains(Status::DECIMAL)
    }

    /// Returns whether I is set.
    #[inline(always)]
    pub fn interrupt(self) -> bool
        ensures { result ≡ (flags_of self).i }
    {
        self.contains(Status::INTERRUPT)
    }

    /// Returns whether Z is set.
    #[inline(always)]
    pub fn zero(self) -> bool
        ensures { result ≡ (flags_of self).z }
    {
        self.contains(Status::ZERO)
    }

    /// Returns whether C is set.
    #[inline(always)]
    pub fn carry(self) -> bool
        ensures { result ≡ (flags_of self).c }
    {
        self.contains(Status::CARRY)
    }

    /// Returns the status in which each of N, V, D, I, Z and C is set if its argument is true. Bits 5 and 4 are
    /// clear.
    #[inline(always)]
    pub fn pack(
        negative: bool,
        overflow: bool,
        decimal: bool,
        interrupt: bool,
        zero: bool,
        carry: bool,
    ) -> Status
        ensures flags { flags_of result ≡ record { n = negative; v = overflow; d = decimal; i = interrupt; z = zero; c = carry } }
        ensures spare { spare_bits_of result ≡ 0 }
    {
        let bits = 128 * u8::from(negative)
            + 64 * u8::from(overflow)
            + 8 * u8::from(decimal)
            + 4 * u8::from(interrupt)
            + 2 * u8::from(zero)
            + u8::from(carry);
        Status { bits }
    }

    /// Returns the byte that PHP pushes: each flag in its bit, and bits 5 and 4 set (MCS6500 Programming Manual,
    /// chapter 8).
    #[inline(always)]
    pub fn pushed(self) -> u8
        ensures { result ≡ byte_of_flags (flags_of self) }
    {
        self.bits | 0x30
    }

    /// Returns the status that PLP or RTI takes from a pulled byte. Each flag is its bit of the byte (MCS6500
    /// Programming Manual, chapters 8 and 9), and bits 5 and 4 are copied from the byte.
    #[inline(always)]
    pub fn pulled(byte: u8) -> Status
        ensures flags { flags_of result ≡ flags_of_byte byte }
        ensures bits { bits_of result ≡ byte }
    {
        Status { bits: byte }
    }
}

/// Compares the six flags only.
impl PartialEq for Status {
    ghost eq = { on (λ status. byte_of_flags (flags_of_byte status.bits)) ◌==◌ };

    ghost laws = { Prim.search (comparing, rules) };

    fn eq(&self, other: &Status) -> bool
        ensures value { result ≡ (byte_of_flags (flags_of self.now) == byte_of_flags (flags_of other.now)) }
        ensures flags { IsTrue result ↔ (flags_of self.now ≡ flags_of other.now) }
    {
        self.pushed() == other.pushed()
    }
}

impl Eq for Status {
    ghost laws = { Prim.search (comparing, rules) };
}

macro_rules! flag {
    ($name:ident) => {
        Flag {
            name: stringify!($name),
            value: Status::$name,
        }
    };
}

// The flags with their names, from bit 7 down.
static FLAGS: [Flag<Status>; 6] = [
    flag!(NEGATIVE),
    flag!(OVERFLOW),
    flag!(DECIMAL),
    flag!(INTERRUPT),
    flag!(ZERO),
    flag!(CARRY),
];

impl Flags for Status {
    type Bits = u8;

    ghost exact = { ⊤ };

    ghost table = { (codes "NEGATIVE", 128) ∷ (codes "OVERFLOW", 64) ∷ (codes "DECIMAL", 8)
        ∷ (codes "INTERRUPT", 4) ∷ (codes "ZERO", 2) ∷ (codes "CARRY", 1) ∷ [] };

    ghost set_of = { λ p. p.bits };

    fn flags<'a>() -> &'a [Flag<Status>] {
        &FLAGS
    }

    #[inline(always)]
    fn bits(&self) -> u8 {
        self.bits
    }

    fn from_bits_retain(bits: u8) -> Status {
        Status { bits }
    }
}
