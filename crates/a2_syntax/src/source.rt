//! The lines of a source text, and their parts.

ghost use Rattle.std.specs.Prelude.{◌≡◌, ◌≤◌, true, None, Some, MatchOption, length, string_bytes};
ghost use Rattle.a2_syntax.specs.Names.{is_name};
ghost use Rattle.a2_syntax.specs.Bare.{bare};
ghost use Rattle.a2_syntax.specs.Operands.{expr_of};

use a2_opcode::Mnemonic;
use std::alloc::{Allocator, Global};
use std::marker::Model;

/// A name, spelt as in the source.
#[derive(Drop)]
pub struct Name<A: Allocator = Global> {
    text: String<A>,
}

impl<A: Allocator> Model for Name<A> {
    ghost use Rattle.std.specs.Prelude.{◌≡◌, true, List, ℕ, string_bytes};
    ghost use Rattle.a2_syntax.specs.Names.{is_name};

    ghost Value = { List ℕ };

    ghost view = { λ a. string_bytes a.text };

    ghost invariant = { λ a. is_name (string_bytes a.text) ≡ true };
}

impl<A: Allocator> Name<A> {
    pub(crate) fn of(text: String<A>) -> Name<A>
        requires { is_name (string_bytes text) ≡ true }
        ensures { result ≡ string_bytes text }
    {
        Name { text }
    }

    /// Returns the name's text.
    pub fn get(&self) -> &str
        ensures is { result.now ≡ self.now }
        ensures name { is_name result.now ≡ true }
    {
        self.text.as_str()
    }
}

/// A term of an expression.
pub enum Term<A: Allocator = Global> {
    /// A number, or the code of a character.
    Number(u16),
    /// A name, which stands for its value.
    Named(Name<A>),
    /// `*`: the address of the line.
    Here,
}

// Written by hand only for the prover: it handles this as one call, but a derived `Drop` field by field.
impl<A: Allocator> Drop for Term<A> {
    fn drop(self) {
        match self {
            Term::Number(_) => {}
            Term::Named(_) => {}
            Term::Here => {}
        }
    }
}

/// A term, and whether it has a `-` before it.
#[derive(Drop)]
pub struct Signed<A: Allocator = Global> {
    /// Whether the term is subtracted.
    pub minus: bool,
    /// The term without its sign.
    pub term: Term<A>,
}

/// At most 255 terms, expressions or bytes of one line.
#[derive(Drop)]
pub struct Few<T: Drop, A: Allocator = Global> {
    items: Vec<T, A>,
}

impl<T: Drop, A: Allocator> Model for Few<T, A> {
    ghost use Rattle.std.specs.Prelude.{◌≤◌, List, length};

    ghost Value = { List T };

    ghost view = { λ a. a.items.items };

    ghost invariant = { λ a. length a.items.items ≤ 255 };
}

impl<T: Drop, A: Allocator> Few<T, A> {
    pub(crate) fn of(items: Vec<T, A>) -> Few<T, A>
        requires { length items.items ≤ 255 }
        ensures { result ≡ items.items }
    {
        Few { items }
    }

    /// Returns all items in order.
    pub fn get(&self) -> &[T]
        ensures is { result.now ≡ self.now }
        ensures few { length result.now ≤ 255 }
    {
        self.items.as_slice()
    }
}

/// The terms of an expression; at least one.
pub type Terms<A = Global> = Few<Signed<A>, A>;

/// Expressions separated by commas; at least one.
pub type Exprs<A = Global> = Few<Expr<A>, A>;

/// The bytes of a quoted text; at least one.
pub type Bytes<A = Global> = Few<u8, A>;

/// The part of an expression's sum that is its value.
#[derive(Clone, Copy, Debug, PartialEq, Eq, Drop)]
pub enum Part {
    /// The whole sum.
    Whole,
    /// `<`: the sum modulo 256.
    Low,
    /// `>`: the sum divided by 256, modulo 256.
    High,
}

/// An expression.
#[derive(Drop)]
pub struct Expr<A: Allocator = Global> {
    /// Which part of the sum is the value.
    pub part: Part,
    /// The terms of the sum, from left to right.
    pub terms: Terms<A>,
}

/// The operand of an instruction, by its written form. `e` is an expression.
pub enum Operand<A: Allocator = Global> {
    /// No operand.
    Nothing,
    /// `A`, or no operand after ASL, LSR, ROL or ROR.
    Accumulator,
    /// `#e`
    Immediate(Expr<A>),
    /// `e`
    Plain(Expr<A>),
    /// `e,X`
    WithX(Expr<A>),
    /// `e,Y`
    WithY(Expr<A>),
    /// `(e,X)`
    InParenthesesX(Expr<A>),
    /// `(e),Y`
    ParenthesesY(Expr<A>),
    /// `(e)`
    InParentheses(Expr<A>),
}

// Written by hand only for the prover: it handles this as one call, but a derived `Drop` field by field.
impl<A: Allocator> Drop for Operand<A> {
    fn drop(self) {
        match self {
            Operand::Nothing => {}
            Operand::Accumulator => {}
            Operand::Immediate(_) => {}
            Operand::Plain(_) => {}
            Operand::WithX(_) => {}
            Operand::WithY(_) => {}
            Operand::InParenthesesX(_) => {}
            Operand::ParenthesesY(_) => {}
            Operand::InParentheses(_) => {}
        }
    }
}

impl<A: Allocator> Operand<A> {
    /// Returns the operand's expression, or `None` for `Nothing` and `Accumulator`. All other forms have one.
    pub fn expr(&self) -> Option<&Expr<A>>
        ensures { MatchOption result (expr_of self.now ≡ None) (λ e. expr_of self.now ≡ Some e.now) }
    {
        match self {
            Operand::Nothing | Operand::Accumulator => None,
            Operand::Immediate(e)
            | Operand::Plain(e)
            | Operand::WithX(e)
            | Operand::WithY(e)
            | Operand::InParenthesesX(e)
            | Operand::ParenthesesY(e)
            | Operand::InParentheses(e) => Some(e),
        }
    }
}

/// What a line does.
pub enum Body<A: Allocator = Global> {
    /// Nothing.
    Empty,
    /// An instruction of the processor.
    Instr(Mnemonic, Operand<A>),
    /// Sets the address.
    Org(Expr<A>),
    /// Gives the label a value.
    Equ(Expr<A>),
    /// Stores one byte for each value.
    Dfb(Exprs<A>),
    /// Stores two bytes for each value, low byte first.
    Dw(Exprs<A>),
    /// Stores the codes of a text.
    Asc(Bytes<A>),
    /// Stores this many zero bytes.
    Ds(Expr<A>),
}

// Written by hand only for the prover: it handles this as one call, but a derived `Drop` field by field.
impl<A: Allocator> Drop for Body<A> {
    fn drop(self) {
        match self {
            Body::Empty => {}
            Body::Instr(_, _) => {}
            Body::Org(_) => {}
            Body::Equ(_) => {}
            Body::Dfb(_) => {}
            Body::Dw(_) => {}
            Body::Asc(_) => {}
            Body::Ds(_) => {}
        }
    }
}

/// A line of a source text.
pub struct Line<A: Allocator = Global> {
    /// The name in the first column, if there is one.
    pub label: Option<Name<A>>,
    /// What follows the label.
    pub body: Body<A>,
}

// Written by hand only for the prover: it handles this as one call, but a derived `Drop` field by field.
impl<A: Allocator> Drop for Line<A> {
    fn drop(self) {
        let Line { label: _, body: _ } = self;
    }
}

/// The lines of a source text, at most 4,096. Only `parse` creates a value of this type. Contracts see the lines
/// without their allocator.
#[derive(Drop)]
pub struct Source<A: Allocator = Global> {
    lines: Vec<Line<A>, A>,
}

impl<A: Allocator> Model for Source<A> {
    ghost use Rattle.std.specs.Prelude.{◌≤◌, List, length};
    ghost use Rattle.a2_syntax.specs.Bare.{BareLine, bare};

    ghost Value = { List BareLine };

    ghost view = { λ a. bare a.lines.items };

    ghost invariant = { λ a. length a.lines.items ≤ 4096 };
}

impl<A: Allocator> Source<A> {
    pub(crate) fn of(lines: Vec<Line<A>, A>) -> Source<A>
        requires { length lines.items ≤ 4096 }
        ensures { result ≡ bare lines.items }
    {
        Source { lines }
    }

    /// Returns the lines in order, one for each line of the text.
    pub fn lines(&self) -> &[Line<A>]
        ensures is { bare result.now ≡ self.now }
        ensures few { length result.now ≤ 4096 }
    {
        self.lines.as_slice()
    }
}
