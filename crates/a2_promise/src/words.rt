//! The words and signs of expressions: operators, openings and operands.

ghost use Rattle.std.specs.Prelude.{◌≡◌, ◌<◌, false, IsTrue, Some, IfSome, IfNone};
ghost use Rattle.std.specs.List.{Contains};
ghost use Rattle.a2_promise.specs.declared.reading.Class.TheVariants as class;
ghost use Rattle.a2_promise.specs.declared.words.Infix.{Infix as DeclaredInfix};
ghost use Rattle.a2_promise.specs.Grammar.{atom_kind, infix_rank, is_name_among, may_count, openings, tightest};
ghost use Rattle.a2_promise.specs.Reading.{is_listed, listed, opening_token, token_of};
ghost use Rattle.a2_promise.specs.PromisedTerms.{change_names};
ghost use Rattle.a2_promise.specs.Tokens.{word};
ghost use Rattle.a2_promise.specs.Written.{atom_name, infix_token};

use crate::expr::{Atom, Operation};
use crate::reading::{Class, Token};

/// The class and the text of a token, and its meaning.
pub(crate) type Row<T> = (Class, &'static [u8], T);

/// Looks up the meaning of a token in a table.
pub(crate) fn meaning<T: Copy>(rows: &[Row<T>], token: Token) -> Option<T>
    ensures found { IfSome result (λ it. Contains (listed rows.now) (token.entry.class, token.entry.text.now, it)) }
    ensures none { IfNone result ((it : T) → Contains (listed rows.now) (token.entry.class, token.entry.text.now, it) → ⊥) }
{
    for (class, text, means) in rows {
        if *class == token.class && *text == token.text {
            return Some(*means);
        }
    }
    None
}

/// The kind of an expression: a number; a fact, which is true or false; or a flag, which is both.
#[derive(Clone, Copy)]
pub(crate) enum Kind {
    Number,
    Fact,
    Flag,
}

/// A comparison of two numbers.
#[derive(Clone, Copy)]
pub enum Relation {
    Equal,
    Other,
    Less,
    AtMost,
    More,
    AtLeast,
}

/// An operator between two expressions.
#[derive(Clone, Copy)]
pub enum Infix {
    Iff,
    Or,
    And,
    Compare(Relation),
    Apply(Operation),
}

/// The rank of the loosest operator.
pub(crate) const LOOSEST: u8 = 1;

/// The rank just above `and`.
pub(crate) const ABOVE_AND: u8 = 4;

/// The rank just above the comparisons.
pub(crate) const ABOVE_COMPARISON: u8 = 6;

/// Returns the rank of an operator; a greater rank binds tighter.
pub(crate) fn rank_of(join: Infix) -> u8
    ensures { result ≡ infix_rank join }
{
    match join {
        Infix::Iff => 1,
        Infix::Or => 2,
        Infix::And => 3,
        Infix::Compare(_) => 5,
        Infix::Apply(Operation::BitOr | Operation::BitXor) => 6,
        Infix::Apply(Operation::BitAnd) => 7,
        Infix::Apply(Operation::Plus | Operation::Minus) => 8,
        Infix::Apply(Operation::Times | Operation::Over | Operation::Modulo) => 9,
        Infix::Apply(_) => 10,
    }
}

// The operators and their spellings.
static INFIXES: [Row<Infix>; 17] = [
    (Class::Word, b"iff", Infix::Iff),
    (Class::Word, b"or", Infix::Or),
    (Class::Word, b"and", Infix::And),
    (Class::Sign, b"=", Infix::Compare(Relation::Equal)),
    (Class::Sign, b"<>", Infix::Compare(Relation::Other)),
    (Class::Sign, b"<", Infix::Compare(Relation::Less)),
    (Class::Sign, b"<=", Infix::Compare(Relation::AtMost)),
    (Class::Sign, b">", Infix::Compare(Relation::More)),
    (Class::Sign, b">=", Infix::Compare(Relation::AtLeast)),
    (Class::Sign, b"|", Infix::Apply(Operation::BitOr)),
    (Class::Sign, b"^", Infix::Apply(Operation::BitXor)),
    (Class::Sign, b"&", Infix::Apply(Operation::BitAnd)),
    (Class::Sign, b"+", Infix::Apply(Operation::Plus)),
    (Class::Sign, b"-", Infix::Apply(Operation::Minus)),
    (Class::Sign, b"*", Infix::Apply(Operation::Times)),
    (Class::Sign, b"/", Infix::Apply(Operation::Over)),
    (Class::Sign, b"%", Infix::Apply(Operation::Modulo)),
];

/// Returns the operator that a token spells.
pub(crate) fn infix_of(token: Token) -> Option<Infix>
    ensures found { IfSome result (λ join. (token_of token.entry.class token.entry.text.now ≡ Some (infix_token join))
        × (infix_rank join < tightest)) }
    ensures none { IfNone result ((join : DeclaredInfix)
        → token_of token.entry.class token.entry.text.now ≡ Some (infix_token join) → infix_rank join < tightest → ⊥) }
{
    meaning(&INFIXES, token)
}

/// The opening of an operand.
#[derive(Clone, Copy)]
pub(crate) enum Opening {
    Held(Atom),
    Old,
    At,
    Text,
    Not,
    If,
    Each,
    Sum,
    /// `(`
    Group,
    Make(Making),
}

/// The opening of a number that is made of what follows.
#[derive(Clone, Copy)]
pub(crate) enum Making {
    Least,
    Greatest,
    Abs,
    Bit,
    Signed,
    Word,
    /// `[`
    Byte,
    /// `#`
    Literal,
    /// `-`
    Minus,
}

/// Returns the kind of a register, flag or count: all are numbers except the flags.
pub(crate) fn kind_of(atom: Atom) -> Kind
    ensures { result ≡ atom_kind atom }
{
    match atom {
        Atom::Carry
        | Atom::Zero
        | Atom::Negative
        | Atom::Overflow
        | Atom::Decimal
        | Atom::Interrupt => Kind::Flag,
        _ => Kind::Number,
    }
}

// The registers and flags by name.
static HELD: [Row<Atom>; 10] = [
    (Class::Word, b"A", Atom::A),
    (Class::Word, b"X", Atom::X),
    (Class::Word, b"Y", Atom::Y),
    (Class::Word, b"S", Atom::S),
    (Class::Word, b"C", Atom::Carry),
    (Class::Word, b"Z", Atom::Zero),
    (Class::Word, b"N", Atom::Negative),
    (Class::Word, b"V", Atom::Overflow),
    (Class::Word, b"D", Atom::Decimal),
    (Class::Word, b"I", Atom::Interrupt),
];

/// Returns the register or flag with this name. Counts of the run are not included.
pub(crate) fn held_by(token: Token) -> Option<Atom>
    ensures found { IfSome result (λ it. (token_of token.entry.class token.entry.text.now ≡ Some (word (atom_name it)))
        × IsTrue (is_listed it)) }
    ensures none { IfNone result (token.entry.class ≡ class.Word → is_name_among change_names token.entry.text.now ≡ false) }
{
    meaning(&HELD, token)
}

// The other openings, words first.
static OPENINGS: [Row<Opening>; 19] = [
    (Class::Word, b"cycles", Opening::Held(Atom::Cycles)),
    (Class::Word, b"steps", Opening::Held(Atom::Steps)),
    (Class::Word, b"old", Opening::Old),
    (Class::Word, b"at", Opening::At),
    (Class::Word, b"text", Opening::Text),
    (Class::Word, b"not", Opening::Not),
    (Class::Word, b"if", Opening::If),
    (Class::Word, b"for", Opening::Each),
    (Class::Word, b"sum", Opening::Sum),
    (Class::Word, b"min", Opening::Make(Making::Least)),
    (Class::Word, b"max", Opening::Make(Making::Greatest)),
    (Class::Word, b"abs", Opening::Make(Making::Abs)),
    (Class::Word, b"bit", Opening::Make(Making::Bit)),
    (Class::Word, b"signed", Opening::Make(Making::Signed)),
    (Class::Word, b"word", Opening::Make(Making::Word)),
    (Class::Sign, b"(", Opening::Group),
    (Class::Sign, b"[", Opening::Make(Making::Byte)),
    (Class::Sign, b"#", Opening::Make(Making::Literal)),
    (Class::Sign, b"-", Opening::Make(Making::Minus)),
];

/// Returns the opening that a token spells.
pub(crate) fn opening_of(token: Token) -> Option<Opening>
    ensures found { IfSome result (λ opening. token_of token.entry.class token.entry.text.now ≡ Some (opening_token opening)) }
    ensures none { IfNone result (token.entry.class ≡ class.Word → is_name_among openings token.entry.text.now ≡ false) }
{
    match held_by(token) {
        Some(atom) => Some(Opening::Held(atom)),
        None => meaning(&OPENINGS, token),
    }
}

/// Returns whether a token may be bound as a name: a word that has no other meaning.
pub(crate) fn may_name(token: Token) -> bool
    ensures { IsTrue result → (token.entry.class ≡ class.Word) × IsTrue (may_count token.entry.text.now) }
{
    match token.class {
        Class::Word => opening_of(token).is_none() && infix_of(token).is_none(),
        _ => false,
    }
}
