//! Comparing the meaning of two sources.

ghost use Rattle.std.specs.Prelude.{◌≡◌, ◌↔◌, true, IsTrue};

use a2_opcode::Mnemonic;
use a2_syntax::{Body, Expr, Line, Name, Operand, Signed, Source, Term};
use std::alloc::Allocator;

// A type whose values can be compared.
trait Same {
    // Whether it is the same as another.
    fn is_same(&self, other: &Self) -> bool
        ensures { IsTrue result ↔ self.now ≡ other.now };
}

// Whether two lists have the same elements.
fn are_same<T: Same>(a: &[T], b: &[T]) -> bool
    ensures { IsTrue result ↔ a.now ≡ b.now }
{
    let mut left = a;
    let mut right = b;
    loop {
        match (left.split_first(), right.split_first()) {
            (Some((first, others)), Some((one, more))) => {
                if !first.is_same(one) {
                    return false;
                }
                left = others;
                right = more;
            }
            (None, None) => return true,
            _ => return false,
        }
    }
}

fn same_term<A: Allocator>(a: &Term<A>, b: &Term<A>) -> bool
    ensures { IsTrue result ↔ a.now ≡ b.now }
{
    match (a, b) {
        (Term::Number(m), Term::Number(n)) => *m == *n,
        (Term::Named(m), Term::Named(n)) => m.get() == n.get(),
        (Term::Here, Term::Here) => true,
        _ => false,
    }
}

impl<A: Allocator> Same for Signed<A> {
    fn is_same(&self, other: &Self) -> bool {
        self.minus == other.minus && same_term(&self.term, &other.term)
    }
}

impl<A: Allocator> Same for Expr<A> {
    fn is_same(&self, other: &Self) -> bool {
        self.part == other.part && are_same(self.terms.get(), other.terms.get())
    }
}

fn same_operand<A: Allocator>(a: &Operand<A>, b: &Operand<A>) -> bool
    ensures { IsTrue result ↔ a.now ≡ b.now }
{
    match (a, b) {
        (Operand::Nothing, Operand::Nothing) => true,
        (Operand::Accumulator, Operand::Accumulator) => true,
        (Operand::Immediate(e), Operand::Immediate(f)) => e.is_same(f),
        (Operand::Plain(e), Operand::Plain(f)) => e.is_same(f),
        (Operand::WithX(e), Operand::WithX(f)) => e.is_same(f),
        (Operand::WithY(e), Operand::WithY(f)) => e.is_same(f),
        (Operand::InParenthesesX(e), Operand::InParenthesesX(f)) => e.is_same(f),
        (Operand::ParenthesesY(e), Operand::ParenthesesY(f)) => e.is_same(f),
        (Operand::InParentheses(e), Operand::InParentheses(f)) => e.is_same(f),
        _ => false,
    }
}

// Whether two mnemonics are the same.
fn same_mnemonic(m: Mnemonic, n: Mnemonic) -> bool
    ensures { (result ≡ true) ↔ (m ≡ n) }
{
    m.name() == n.name()
}

fn same_instr<A: Allocator>(m: Mnemonic, a: &Operand<A>, n: Mnemonic, b: &Operand<A>) -> bool
    ensures { IsTrue result ↔ ((m ≡ n) × (a.now ≡ b.now)) }
{
    same_mnemonic(m, n) && same_operand(a, b)
}

fn same_body<A: Allocator>(a: &Body<A>, b: &Body<A>) -> bool
    ensures { IsTrue result ↔ a.now ≡ b.now }
{
    match (a, b) {
        (Body::Empty, Body::Empty) => true,
        (Body::Instr(m, o), Body::Instr(n, p)) => same_instr(*m, o, *n, p),
        (Body::Org(e), Body::Org(f)) => e.is_same(f),
        (Body::Equ(e), Body::Equ(f)) => e.is_same(f),
        (Body::Dfb(es), Body::Dfb(fs)) => are_same(es.get(), fs.get()),
        (Body::Dw(es), Body::Dw(fs)) => are_same(es.get(), fs.get()),
        (Body::Asc(m), Body::Asc(n)) => m.get() == n.get(),
        (Body::Ds(e), Body::Ds(f)) => e.is_same(f),
        _ => false,
    }
}

fn same_label<A: Allocator>(a: &Option<Name<A>>, b: &Option<Name<A>>) -> bool
    ensures { IsTrue result ↔ a.now ≡ b.now }
{
    match (a, b) {
        (None, None) => true,
        (Some(m), Some(n)) => m.get() == n.get(),
        _ => false,
    }
}

impl<A: Allocator> Same for Line<A> {
    fn is_same(&self, other: &Self) -> bool {
        same_label(&self.label, &other.label) && same_body(&self.body, &other.body)
    }
}

/// Returns whether two sources have the same lines, apart from anything that is not part of their meaning.
pub(crate) fn same_source<A: Allocator>(a: &Source<A>, b: &Source<A>) -> bool
    ensures { IsTrue result ↔ a.now ≡ b.now }
{
    are_same(a.lines(), b.lines())
}
