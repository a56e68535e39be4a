//! The promises of a source text.

ghost use Rattle.std.specs.Prelude.{◌≡◌, ℕ, List, [], ◌∷◌, ◌++◌, IsTrue, IfOk, IfSome, Some, ◌&&◌, MatchOption, OnOk};
ghost use Rattle.a2_promise.specs.Reading.{AddsChange, AddsChanges, AddsFact, AddsLine, AddsWhole, around_of, says_within, token_of, verb_name};
ghost use Rattle.a2_asm.specs.Values.{Names};
ghost use Rattle.a2_promise.specs.Reading.{IsChanges, IsUpTo, LetsChange, is_listed, state_of};
ghost use Rattle.a2_promise.specs.PromisedTerms as change;
ghost use Rattle.a2_promise.specs.PromisedTerms.{may_change};
ghost use Rattle.a2_promise.specs.Tokens.{tokens, word};
ghost use Rattle.a2_promise.specs.MarkedLines.{Says};
ghost use Rattle.a2_promise.specs.Finding.{IsRead};

use crate::expr::{Atom, Expr};
use crate::fault::{ReadFault, Refusal, Why};
use crate::parsing::expression;
use crate::reader::Reader;
use crate::reading::{Class, Token, token_in};
use crate::texts::{Texts, push_text};
use crate::words::{LOOSEST, Row, held_by, meaning};
use a2_text::after_blanks;
use std::alloc::{AllocError, Global};

/// The most levels of nesting in an expression.
const MOST_LEVELS: u8 = 200;

/// A clause of a promise: the number of its line, its text, and its expression.
#[derive(Drop)]
pub struct Clause<'a> {
    pub line: usize,
    pub text: &'a [u8],
    pub expr: Expr,
}

/// The addresses from one to another, both included.
#[derive(Clone, Copy)]
pub struct Range {
    pub first: u16,
    pub last: u16,
}

/// What may be different after a routine than before: registers and bytes. Flags may always be different.
#[derive(Drop)]
pub struct Changes {
    pub a: bool,
    pub x: bool,
    pub y: bool,
    pub ranges: Vec<Range>,
}

/// The clauses at a label within a routine.
pub struct Within<'a> {
    /// The number of the label's line.
    pub line: usize,
    pub address: u16,
    /// Facts that hold each time a run reaches the label.
    pub invariants: Vec<Clause<'a>>,
    /// Numbers that are 0 or more each time, and less than before when a run returns to the label.
    pub measures: Vec<Clause<'a>>,
    /// Whether a line of the routine names the label after `at`.
    pub is_named: bool,
}

// Written by hand only for the prover: it handles this as one call, but a derived `Drop` field by field.
impl<'a> Drop for Within<'a> {
    fn drop(self) {
        let Within {
            line: _,
            address: _,
            invariants: _,
            measures: _,
            is_named: _,
        } = self;
    }
}

/// The promise of a routine.
pub struct Promise<'a> {
    /// The routine's label.
    pub name: &'a [u8],
    /// The number of the label's line.
    pub line: usize,
    /// The address of the routine's entry.
    pub address: u16,
    pub wanted: Vec<Clause<'a>>,
    pub promised: Vec<Clause<'a>>,
    pub changes: Changes,
    pub texts: Texts<'a>,
    /// The clauses at labels within the routine, up to the next routine that has a promise.
    pub within: Vec<Within<'a>>,
}

// Written by hand only for the prover: it handles this as one call, but a derived `Drop` field by field.
impl<'a> Drop for Promise<'a> {
    fn drop(self) {
        let Promise {
            name: _,
            line: _,
            address: _,
            wanted: _,
            promised: _,
            changes: _,
            texts: _,
            within: _,
        } = self;
    }
}

/// A promise, or the error in lines that are not a valid promise.
#[derive(Drop)]
pub enum Found<'a> {
    Promise(Promise<'a>),
    /// The error, and the label after the lines; empty if there is no label.
    Refused(Refusal, &'a [u8]),
}

// A label named after `at`: its address, and the error to report if it is not a valid target.
#[derive(Clone, Copy)]
pub(crate) struct Label {
    pub address: u16,
    pub refusal: Refusal,
}

/// The lines before a label.
pub(crate) struct Block<'a> {
    /// The number of the block's first line; 0 if it has no line yet.
    pub first: usize,
    /// The promise. Its name, line and address are set at the label.
    pub promise: Promise<'a>,
    /// The clauses at the label. Their line and address are set at the label.
    pub said: Within<'a>,
    pub labels: Vec<Label>,
    pub refused: Option<Refusal>,
    /// Whether the lines have clauses within a routine, and no promise.
    pub is_within: bool,
}

// Written by hand only for the prover: it handles this as one call, but a derived `Drop` field by field.
impl<'a> Drop for Block<'a> {
    fn drop(self) {
        let Block {
            first: _,
            promise: _,
            said: _,
            labels: _,
            refused: _,
            is_within: _,
        } = self;
    }
}

/// Creates a block without lines.
pub(crate) fn new_block<'a>(alloc: Global) -> Block<'a>
    ensures { (names : Names) → IsRead names [] result }
{
    Block {
        first: 0,
        promise: Promise {
            name: b"",
            line: 0,
            address: 0,
            wanted: Vec::new(alloc),
            promised: Vec::new(alloc),
            changes: Changes {
                a: false,
                x: false,
                y: false,
                ranges: Vec::new(alloc),
            },
            texts: Texts {
                prints: Vec::new(alloc),
                takes: Vec::new(alloc),
            },
            within: Vec::new(alloc),
        },
        said: Within {
            line: 0,
            address: 0,
            invariants: Vec::new(alloc),
            measures: Vec::new(alloc),
            is_named: false,
        },
        labels: Vec::new(alloc),
        refused: None,
        is_within: true,
    }
}

// Returns an error unless the whole line was read.
fn ended(reader: &Reader) -> Result<(), ReadFault>
    ensures { OnOk result (tokens reader.now.rest.now ≡ []) }
{
    match reader.next().class {
        Class::End => Ok(()),
        _ => reader.refuse(Why::MoreBehind),
    }
}

// Adds a range of bytes to what may change.
fn push_range(changes: &mut Changes, range: Range) -> Result<(), AllocError>
    ensures registers { (changes.new.a ≡ changes.old.a) × (changes.new.x ≡ changes.old.x) × (changes.new.y ≡ changes.old.y) }
    ensures ranges { OnOk result (changes.new.ranges.items ≡ changes.old.ranges.items ++ range ∷ []) }
{
    Ok(changes.ranges.push(range)?)
}

// Adds a register or flag, which is already read, to what may change.
fn let_change(reader: &Reader, changes: &mut Changes, atom: Atom) -> Result<(), ReadFault>
    ensures ranges { changes.new.ranges ≡ changes.old.ranges }
    ensures registers { IsTrue (is_listed atom)
        → OnOk result (IsTrue (may_change atom) × LetsChange (change.held atom) changes.old changes.new) }
{
    match atom {
        Atom::A => changes.a = true,
        Atom::X => changes.x = true,
        Atom::Y => changes.y = true,
        Atom::S => return reader.refuse(Why::StackChanges),
        _ => (),
    }
    Ok(())
}

// Reads the last address of a range, after `..`. Without `..`, the range is one byte.
fn last_address(reader: &mut Reader, first: u16) -> Result<u16, ReadFault>
    ensures { IfOk result (λ last. IsUpTo first last (state_of reader.old) (state_of reader.new)) }
{
    if reader.took(b"..") {
        return reader.address();
    }
    Ok(first)
}

// Reads one thing that may change: a register, or bytes from one address to another.
fn take_change(reader: &mut Reader, changes: &mut Changes) -> Result<(), ReadFault>
    ensures { OnOk result (AddsChange (state_of reader.old) (state_of reader.new) changes.old changes.new) }
{
    if let Some(atom) = held_by(reader.next()) {
        reader.take();
        return let_change(reader, changes, atom);
    }
    let first = reader.address()?;
    let last = last_address(reader, first)?;
    if last < first {
        return reader.refuse(Why::RangeDownwards);
    }
    push_range(changes, Range { first, last })?;
    Ok(())
}

// Reads the things that may change, separated by commas, up to the end of the line.
fn more_changes(reader: &mut Reader, changes: &mut Changes) -> Result<(), ReadFault>
    ensures { OnOk result (AddsChanges (state_of reader.old) changes.old changes.new) }
{
    take_change(reader, changes)?;
    if !reader.took(b",") {
        return ended(reader);
    }
    more_changes(reader, changes)
}

// Reads what may change, or the word `nothing`.
fn take_changes(reader: &mut Reader, changes: &mut Changes) -> Result<(), ReadFault>
    ensures { OnOk result (IsChanges (state_of reader.old) changes.old changes.new) }
{
    if reader.took(b"nothing") {
        return ended(reader);
    }
    more_changes(reader, changes)
}

// The word a line of a promise begins with.
#[derive(Clone, Copy)]
enum Verb {
    Requires,
    Ensures,
    Changes,
    Prints,
    Takes,
    Invariant,
    Decreases,
    Note,
}

// The verbs and their spellings.
static VERBS: [Row<Verb>; 8] = [
    (Class::Word, b"requires", Verb::Requires),
    (Class::Word, b"ensures", Verb::Ensures),
    (Class::Word, b"changes", Verb::Changes),
    (Class::Word, b"prints", Verb::Prints),
    (Class::Word, b"takes", Verb::Takes),
    (Class::Word, b"invariant", Verb::Invariant),
    (Class::Word, b"decreases", Verb::Decreases),
    (Class::Word, b"note", Verb::Note),
];

// Returns the verb that a token spells.
fn verb_of(token: Token) -> Option<Verb>
    ensures { IfSome result (λ verb. token_of token.entry.class token.entry.text.now ≡ Some (word (verb_name verb))) }
{
    meaning(&VERBS, token)
}

impl<'a> Block<'a> {
    /// Returns the promise, the clauses at the label, and the labels named after `at`.
    pub fn into_parts(self) -> (Promise<'a>, Within<'a>, Vec<Label>)
        ensures { result.0 ≡ self.entry.promise }
    {
        let Block {
            first: _,
            promise,
            said,
            labels,
            refused: _,
            is_within: _,
        } = self;
        (promise, said, labels)
    }

    /// Reads a line of a promise, which has this number.
    pub fn take(&mut self, reader: &mut Reader<'a, '_>, line: usize) -> Result<(), ReadFault>
        ensures { reader.old.parts.items ≡ [] → around_of reader.old ≡ []
            → OnOk result (AddsLine reader.old.program.now.names reader.old.rest.now self.old self.new) }
    {
        let (token, rest) = token_in(reader.rest);
        let Some(verb) = verb_of(token) else {
            return reader.refuse(Why::NoVerb);
        };
        reader.rest = rest;
        reader.is_within = is_within(verb);
        self.is_within = still_within(self.is_within, verb);
        let text = after_blanks(reader.rest);
        match verb {
            Verb::Requires => push_fact(reader, &mut self.promise.wanted, line, text),
            Verb::Ensures => push_fact(reader, &mut self.promise.promised, line, text),
            Verb::Changes => take_changes(reader, &mut self.promise.changes),
            Verb::Prints => push_text(reader, &mut self.promise.texts.prints, line),
            Verb::Takes => push_text(reader, &mut self.promise.texts.takes, line),
            Verb::Decreases => push_measure(reader, &mut self.said.measures, line, text),
            Verb::Invariant | Verb::Note => push_fact(
                reader,
                &mut self.said.invariants,
                line,
                text,
            ),
        }
    }
}

// Returns whether lines with this verb are clauses at a label within a routine.
fn is_within(verb: Verb) -> bool
    ensures { result ≡ says_within verb }
{
    matches!(verb, Verb::Invariant | Verb::Decreases | Verb::Note)
}

// Returns whether the lines up to and including one with this verb promise nothing, given whether that was true
// before it.
fn still_within(before: bool, verb: Verb) -> bool
    ensures { result ≡ (before && says_within verb) }
{
    before && is_within(verb)
}

// Reads a fact and adds it as a clause.
fn push_fact<'a>(
    reader: &mut Reader<'a, '_>,
    clauses: &mut Vec<Clause<'a>>,
    line: usize,
    text: &'a [u8],
) -> Result<(), ReadFault>
    ensures { reader.old.parts.items ≡ [] → OnOk result (AddsFact (state_of reader.old) clauses.old.items clauses.new.items) }
{
    expression(reader, LOOSEST, MOST_LEVELS)?.fact()?;
    push_whole(reader, clauses, line, text)
}

// Reads a number and adds it as a clause.
fn push_measure<'a>(
    reader: &mut Reader<'a, '_>,
    clauses: &mut Vec<Clause<'a>>,
    line: usize,
    text: &'a [u8],
) -> Result<(), ReadFault> {
    expression(reader, LOOSEST, MOST_LEVELS)?.number()?;
    push_whole(reader, clauses, line, text)
}

// Adds a clause from what was read, if the whole line was read.
fn push_whole<'a>(
    reader: &Reader<'a, '_>,
    clauses: &mut Vec<Clause<'a>>,
    line: usize,
    text: &'a [u8],
) -> Result<(), ReadFault>
    ensures { OnOk result (AddsWhole (state_of reader.now) clauses.old.items clauses.new.items) }
{
    ended(reader)?;
    let expr = reader.expr()?;
    push_clause(clauses, Clause { line, text, expr })?;
    Ok(())
}

// Adds a clause.
fn push_clause<'a>(clauses: &mut Vec<Clause<'a>>, clause: Clause<'a>) -> Result<(), AllocError>
    ensures { OnOk result (clauses.new.items ≡ clauses.old.items ++ clause.entry ∷ []) }
{
    Ok(clauses.push(clause)?)
}

/// Returns the text after `;:`, or `None` if the line does not begin with `;:`. There may be spaces before it.
pub fn promise_in(line: &[u8]) -> Option<&[u8]>
    ensures { MatchOption result ((rest : List ℕ) → Says line.now rest → ⊥) (λ rest. Says line.now rest.now) }
{
    match after_blanks(line) {
        [b';', b':', rest @ ..] => Some(rest),
        _ => None,
    }
}
