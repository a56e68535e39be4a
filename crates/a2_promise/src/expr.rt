//! The expressions of promises.

/// A register or flag, or a count of the run.
#[derive(Clone, Copy)]
pub enum Atom {
    A,
    X,
    Y,
    S,
    /// A flag is 1 if it is set, otherwise 0.
    Carry,
    Zero,
    Negative,
    Overflow,
    Decimal,
    Interrupt,
    /// The cycles since the entry.
    Cycles,
    /// The steps since the entry.
    Steps,
}

/// A function of one number.
#[derive(Clone, Copy)]
pub enum Function {
    /// The byte of RAM at an address.
    Byte,
    /// Two bytes of RAM, low byte first.
    Word,
    /// A byte as a number from -128 to 127.
    Signed,
    /// The absolute value.
    Abs,
}

/// An operation on two numbers. A comparison gives 1 if it is true and 0 if it is false.
#[derive(Clone, Copy)]
pub enum Operation {
    Plus,
    Minus,
    Times,
    /// The quotient, rounded down; it has no value if the divisor is 0 or less.
    Over,
    /// The remainder, from 0 to below the divisor.
    Modulo,
    /// The bitwise AND of numbers from 0 to 65,535.
    BitAnd,
    BitOr,
    BitXor,
    Min,
    Max,
    /// A bit of the second number (0 to 65,535); the first number, 0 to 15, selects it.
    Bit,
    Equal,
    Less,
    AtMost,
}

/// An expression. True is 1 and false is 0. An expression owns all its parts.
pub enum Expr {
    Number(i64),
    Held(Atom),
    /// The value of the name with this number, which an enclosing `Each` or `Sum` binds.
    Bound(u8),
    /// The value when the routine was entered.
    Old(Box<Expr>),
    /// The value when the run last reached the label at this address.
    At(u16, Box<Expr>),
    Of(Function, Box<Expr>),
    Pair(Operation, Box<Expr>, Box<Expr>),
    /// The second expression if the first is not 0, otherwise the third.
    Choice(Box<Expr>, Box<Expr>, Box<Expr>),
    /// Whether the third expression is true for each number below the second.
    Each(u8, Box<Expr>, Box<Expr>),
    /// The sum of the third expression over all numbers below the second.
    Sum(u8, Box<Expr>, Box<Expr>),
}

// Written by hand only for the prover: it handles this as one call, but a derived `Drop` field by field.
impl Drop for Expr {
    fn drop(self) {
        match self {
            Expr::Number(_) => {}
            Expr::Held(_) => {}
            Expr::Bound(_) => {}
            Expr::Old(_) => {}
            Expr::At(_, _) => {}
            Expr::Of(_, _) => {}
            Expr::Pair(_, _, _) => {}
            Expr::Choice(_, _, _) => {}
            Expr::Each(_, _, _) => {}
            Expr::Sum(_, _, _) => {}
        }
    }
}
