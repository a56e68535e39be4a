//! The operators of expressions: how each is written here, and how tightly it binds here and in other assemblers.

use crate::dialect::Dialect;

/// An operator of an expression, or an open bracket.
#[derive(Clone, Copy, PartialEq, Eq)]
pub(crate) enum Operator {
    Open,
    Low,
    High,
    Equal,
    Unequal,
    Less,
    Greater,
    AtMost,
    AtLeast,
    Add,
    Subtract,
    Or,
    Multiply,
    Divide,
    Remainder,
    And,
    Xor,
    ShiftLeft,
    ShiftRight,
    Negate,
    Invert,
    /// 1 if the value is 0, otherwise 0.
    Not,
    /// 1 if both values are not 0.
    Both,
    /// 1 if one of the values is not 0.
    Either,
}

/// How tightly a single term binds.
pub(crate) const TERM: u8 = 6;

/// How tightly a unary sign binds.
pub(crate) const SIGNED: u8 = 5;

/// How tightly a sum binds.
pub(crate) const SUM: u8 = 3;

/// How tightly `<` and `>` before an expression bind.
pub(crate) const PART: u8 = 1;

impl Operator {
    /// Returns how the operator is written here.
    pub(crate) fn spelling(self) -> &'static [u8] {
        match self {
            Operator::Open => b"(",
            Operator::Low | Operator::Less => b"<",
            Operator::High | Operator::Greater => b">",
            Operator::Equal | Operator::Not => b"=",
            Operator::Unequal => b"<>",
            Operator::AtMost => b"<=",
            Operator::AtLeast => b">=",
            Operator::Add => b"+",
            Operator::Subtract | Operator::Negate => b"-",
            Operator::Or | Operator::Either => b"|",
            Operator::Multiply => b"*",
            Operator::Divide => b"/",
            Operator::Remainder => b"%",
            Operator::And | Operator::Both => b"&",
            Operator::Xor => b"^",
            Operator::ShiftLeft => b"<<",
            Operator::ShiftRight => b">>",
            Operator::Invert => b"~",
        }
    }

    /// Returns how tightly the operator binds here.
    pub(crate) fn level(self) -> u8 {
        match self {
            Operator::Open => 0,
            Operator::Low | Operator::High => PART,
            Operator::Equal
            | Operator::Unequal
            | Operator::Less
            | Operator::Greater
            | Operator::AtMost
            | Operator::AtLeast => 2,
            Operator::Add | Operator::Subtract | Operator::Or | Operator::Either => SUM,
            Operator::Negate | Operator::Invert | Operator::Not => SIGNED,
            _ => 4,
        }
    }

    /// Returns whether the operator has one operand.
    pub(crate) fn is_unary(self) -> bool {
        matches!(
            self,
            Operator::Low | Operator::High | Operator::Negate | Operator::Invert | Operator::Not
        )
    }

    /// Returns how tightly the operator binds in another assembler; an open bracket does not bind.
    pub(crate) fn level_in(self, dialect: Dialect) -> u8 {
        match dialect {
            Dialect::Sc | Dialect::Lisa | Dialect::Merlin | Dialect::Edasm | Dialect::Easy =>
                self.old_level(),
            Dialect::Ca65 => self.ca65_level(),
            Dialect::Tass | Dialect::Acme | Dialect::Dasm => self.c_level(dialect),
        }
    }

    // From left to right; `<` and `>` before an expression stand for a byte of all of it.
    fn old_level(self) -> u8 {
        match self {
            Operator::Open => 0,
            Operator::Low | Operator::High => 1,
            Operator::Negate | Operator::Invert | Operator::Not => 9,
            _ => 5,
        }
    }

    // ca65 Users Guide, expressions.
    fn ca65_level(self) -> u8 {
        match self {
            Operator::Open => 0,
            Operator::Not => 1,
            Operator::Either => 2,
            Operator::Both => 3,
            Operator::Equal
            | Operator::Unequal
            | Operator::Less
            | Operator::Greater
            | Operator::AtMost
            | Operator::AtLeast => 4,
            Operator::Add | Operator::Subtract | Operator::Or => 5,
            Operator::Low | Operator::High | Operator::Negate | Operator::Invert => 9,
            _ => 6,
        }
    }

    // As in C; the assemblers differ in `<` and `>` before an expression.
    fn c_level(self, dialect: Dialect) -> u8 {
        match self {
            Operator::Open => 0,
            Operator::Low | Operator::High => match dialect {
                Dialect::Dasm => 12,
                Dialect::Acme => 8,
                _ => 1,
            },
            Operator::Either => 2,
            Operator::Both => 3,
            Operator::Or if dialect == Dialect::Tass => 7,
            Operator::Xor if dialect == Dialect::Tass => 8,
            Operator::And if dialect == Dialect::Tass => 8,
            Operator::Or => 4,
            Operator::Xor => 4,
            Operator::And => 5,
            Operator::Equal | Operator::Unequal => 6,
            Operator::Less | Operator::Greater | Operator::AtMost | Operator::AtLeast => 7,
            Operator::ShiftLeft | Operator::ShiftRight => 9,
            Operator::Add | Operator::Subtract => 10,
            Operator::Multiply | Operator::Divide | Operator::Remainder => 11,
            Operator::Negate | Operator::Invert | Operator::Not => 12,
        }
    }
}
