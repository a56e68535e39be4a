//! Where the names of a source are defined, and where they are used.

ghost use Rattle.std.specs.Prelude.{◌≡◌, ◌<◌, length, MatchOption, IfSome, Some, None};
ghost use Rattle.std.specs.List.{list_any, position};
ghost use Rattle.a2_list.specs.Uses as uses;

use a2_syntax::{Body, Expr, Line, Name, Term};
use std::alloc::Allocator;

// Returns whether a term is this name.
fn is_named<A: Allocator>(name: &str, term: &Term<A>) -> bool
    ensures { result ≡ uses.is_named name.now term.now }
{
    match term {
        Term::Named(other) => other.get() == name,
        _ => false,
    }
}

// Returns whether a name is in an expression.
fn is_in<A: Allocator>(name: &str, e: &Expr<A>) -> bool
    ensures { result ≡ uses.is_in name.now e.now }
{
    e.terms.get().iter().any(|t| is_named(name, &t.term))
}

// Returns whether a name is in one of some expressions.
fn is_in_any<A: Allocator>(name: &str, es: &[Expr<A>]) -> bool
    ensures { result ≡ list_any (uses.is_in name.now) es.now }
{
    es.iter().any(|e| is_in(name, e))
}

/// Returns whether a line uses a name.
pub(crate) fn is_used_in<A: Allocator>(name: &str, line: &Line<A>) -> bool
    ensures { result ≡ uses.is_used_in name.now line.now }
{
    match &line.body {
        Body::Empty | Body::Asc(_) => false,
        Body::Instr(_, operand) => operand.expr().is_some_and(|e| is_in(name, e)),
        Body::Org(e) | Body::Equ(e) | Body::Ds(e) => is_in(name, e),
        Body::Dfb(es) | Body::Dw(es) => is_in_any(name, es.get()),
    }
}

// Returns whether a name is this label.
fn is_label<A: Allocator>(name: &str, label: &Option<Name<A>>) -> bool
    ensures { result ≡ uses.is_label name.now label.now }
{
    match label {
        Some(label) => label.get() == name,
        None => false,
    }
}

// Returns the index of the first line with this label.
fn label_at<A: Allocator>(name: &str, lines: &[Line<A>]) -> Option<usize>
    ensures index { result ≡ position (λ line. uses.is_label name.now line.label) lines.now }
    ensures within { IfSome result (λ index. index < length lines.now) }
{
    lines.iter().position(|line| is_label(name, &line.label))
}

/// Returns the number of the first line with this label, or 0.
pub(crate) fn definition<A: Allocator>(name: &str, lines: &[Line<A>]) -> usize
    ensures { result ≡ uses.definition name.now lines.now }
{
    match label_at(name, lines) {
        Some(index) => index + 1,
        None => 0,
    }
}
