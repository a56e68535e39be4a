//! Parses expressions.

ghost use Rattle.std.specs.Prelude.{◌≡◌, ◌+◌, ◌<◌, ◌≤◌, IsTrue, List, [], ◌∷◌, ◌++◌, Some, codes, length, None, ℕ, min, pos, IfOk, OnOk};
ghost use Rattle.std.specs.List.{slice_range};
ghost use Rattle.a2_promise.specs.declared.parts.Part.TheVariants as part;
ghost use Rattle.a2_promise.specs.declared.words.Kind.TheVariants as kinds;
ghost use Rattle.a2_promise.specs.Grammar.{address_of, infix_rank, is_fact, is_number, is_text, may_be_fact, may_be_number};
ghost use Rattle.a2_promise.specs.Grammar.{number_of, tightest};
ghost use Rattle.a2_promise.specs.Phrases.{Phrase, number, of, pair};
ghost use Rattle.a2_promise.specs.declared.expr.Function.TheVariants as function;
ghost use Rattle.a2_promise.specs.declared.expr.Operation.TheVariants as operation;
ghost use Rattle.a2_promise.specs.Reading.{EndsCompared, IsEither, IsMade, IsPiece, IsPlaced, IsTop, Puts, PutsOf, pushed, Reads};
ghost use Rattle.a2_promise.specs.Reading.{ReadsAddress, ReadsCounted, ReadsJoined, ReadsKind, ReadsOne, ReadsPiece, ReadsPlace};
ghost use Rattle.a2_promise.specs.Reading.{ReadsThen, ReadsToken, ReadsTwo, State, Takes, comparing as parts_comparing, first, made};
ghost use Rattle.a2_promise.specs.Reading.{making_token, number_parts, opening_token, parts_before, parts_known_after, parts_chaining};
ghost use Rattle.a2_promise.specs.Reading.{parts_of_address, state_of};
ghost use Rattle.a2_promise.specs.Tokens.{Token, sign, tokens, word};
ghost use Rattle.a2_promise.specs.Written.{Written, are_laid as laid_of, infix_token};

use crate::expr::{Function, Operation};
use crate::fault::{ReadFault, Why};
use crate::parts::Part;
use crate::reader::{Reader, Span};
use crate::reading::Class;
use crate::words::{
    ABOVE_AND, ABOVE_COMPARISON, Infix, Kind, LOOSEST, Making, Opening, Relation, infix_of,
    kind_of, may_name, opening_of, rank_of,
};

/// A parsed expression.
#[derive(Clone, Copy)]
pub(crate) struct Piece {
    kind: Kind,
    /// The number of bytes of the line that are left where the expression begins.
    bytes_left: usize,
    /// The parts of the last number of a comparison, with which another comparison may continue.
    last: Option<Span>,
}

impl Piece {
    // Creates an expression of this kind that begins here.
    fn at(bytes_left: usize, kind: Kind) -> Piece
        ensures kind { result.kind ≡ kind }
        ensures last { result.last ≡ None }
    {
        Piece {
            kind,
            bytes_left,
            last: None,
        }
    }

    // Creates a comparison of two numbers; the last of them has these parts.
    fn compared(bytes_left: usize, last: Span) -> Piece
        ensures kind { result.kind ≡ kinds.Fact }
        ensures last { result.last ≡ Some last }
    {
        Piece {
            kind: Kind::Fact,
            bytes_left,
            last: Some(last),
        }
    }

    /// Returns an error if the expression is a fact.
    pub fn number(self) -> Result<(), ReadFault>
        ensures { OnOk result (IsTrue (may_be_number self.kind)) }
    {
        match self.kind {
            Kind::Fact => Err(ReadFault::Says(Why::FactForNumber, self.bytes_left)),
            _ => Ok(()),
        }
    }

    /// Returns an error if the expression is a number.
    pub fn fact(self) -> Result<(), ReadFault>
        ensures { OnOk result (IsTrue (may_be_fact self.kind)) }
    {
        match self.kind {
            Kind::Number => Err(ReadFault::Says(Why::NumberForFact, self.bytes_left)),
            _ => Ok(()),
        }
    }
}

// Returns the depth reduced by this many levels, or an error if it is not large enough.
fn deeper(reader: &Reader, depth: u8, levels: u8) -> Result<u8, ReadFault>
    ensures { IfOk result (λ less. less + levels ≡ depth) }
{
    match depth.checked_sub(levels) {
        Some(less) => Ok(less),
        None => reader.refuse(Why::TooDeep),
    }
}

// Returns how many levels an operand with this opening is nested.
fn levels_of(opening: Opening) -> u8
    ensures { 0 < result }
{
    match opening {
        Opening::Text | Opening::Make(Making::Least | Making::Greatest | Making::Word) => 3,
        Opening::If | Opening::Each | Opening::Sum | Opening::Make(_) => 2,
        _ => 1,
    }
}

// The parts that negate a fact.
const NEGATED: [Part; 3] = [Part::Number(0), Part::Number(1), Part::Choice];

// The parts that combine two facts with AND.
const BOTH: [Part; 2] = [Part::Number(0), Part::Choice];

// Returns the parts that compare two numbers.
fn comparing(relation: Relation) -> &'static [Part]
    ensures { result.now ≡ parts_comparing relation }
{
    match relation {
        Relation::Equal => &[Part::Pair(Operation::Equal)],
        Relation::Less => &[Part::Pair(Operation::Less)],
        Relation::AtMost => &[Part::Pair(Operation::AtMost)],
        Relation::More => &[Part::Turned(Operation::Less)],
        Relation::AtLeast => &[Part::Turned(Operation::AtMost)],
        Relation::Other => &[
            Part::Pair(Operation::Equal),
            Part::Number(0),
            Part::Number(1),
            Part::Choice,
        ],
    }
}

// Returns the parts that join two facts: those before the second fact and those after it.
fn joining(join: Infix) -> (&'static [Part], &'static [Part])
    ensures before { result.0.now ≡ parts_before join }
    ensures following { result.1.now ≡ parts_known_after join }
{
    match join {
        Infix::Or => (&[Part::Number(1)], &[Part::Choice]),
        Infix::And => (&[], &BOTH),
        _ => (&[], &[Part::Pair(Operation::Equal)]),
    }
}

// Applies a function to the address that comes next.
fn of_address(reader: &mut Reader, function: Function) -> Result<Kind, ReadFault>
    ensures { IfOk result (λ kind. (kind ≡ kinds.Number)
        × ReadsToken address_of (parts_of_address function) (state_of reader.old) (state_of reader.new)) }
{
    let address = reader.address()?;
    reader.ends(
        &[Part::Number(i64::from(address)), Part::Of(function)],
        Kind::Number,
    )
}

// Reads the number that comes next.
fn number_here(reader: &mut Reader) -> Result<Kind, ReadFault>
    ensures { IfOk result (λ kind. (kind ≡ kinds.Number) × ReadsToken number_of number_parts (state_of reader.old) (state_of reader.new)) }
{
    let number = reader.number()?;
    reader.makes(Part::Number(i64::from(number)), Kind::Number)
}

// Prepares for the second number of a comparison. If the left side is itself a comparison, its last number is
// repeated; otherwise the left side must be a number.
fn begin_second_number(reader: &mut Reader, left: Piece) -> Result<(), ReadFault>
    ensures first { left.last ≡ None → OnOk result (IsTrue (may_be_number left.kind) × (state_of reader.new ≡ state_of reader.old)) }
    ensures more { (last : Span) → left.last ≡ Some last → last.ended ≤ length reader.old.parts.items
        → OnOk result (Puts (slice_range reader.old.parts.items last.begun last.ended) (state_of reader.old) (state_of reader.new)) }
{
    match left.last {
        Some(last) => reader.again(last),
        None => left.number(),
    }
}

// Returns the parts that end a comparison: none, or the parts that combine it with the comparison before it.
fn chaining(last: Option<Span>) -> &'static [Part]
    ensures { result.now ≡ parts_chaining last }
{
    match last {
        Some(_) => &BOTH,
        None => &[],
    }
}

// Ends a comparison whose second number has the parts from `begun` on, and returns it.
fn end_comparison(
    reader: &mut Reader,
    left: Piece,
    relation: Relation,
    begun: usize,
) -> Result<Piece, ReadFault>
    ensures { IfOk result (λ piece. EndsCompared left.last relation begun piece (state_of reader.old) (state_of reader.new)) }
{
    let ended = reader.count();
    reader.puts(comparing(relation))?;
    reader.puts(chaining(left.last))?;
    Ok(Piece::compared(left.bytes_left, Span { begun, ended }))
}

/// Parses the longest expression in which no operator binds looser than this rank. `depth` limits its nesting.
#[cycle(expression)]
pub(crate) fn expression(reader: &mut Reader, rank: u8, depth: u8) -> Result<Piece, ReadFault>
    ensures { IfOk result (λ piece. ReadsPiece (min rank tightest) piece (state_of reader.old) (state_of reader.new)) }
{
    let less = deeper(reader, depth, 1)?;
    let mut left = beginning(reader, less)?;
    while let Some(join) = infix_of(reader.next()) {
        if rank_of(join) < rank {
            break;
        }
        left = joined(reader, left, join, less)?;
    }
    Ok(left)
}

// Parses a number in which no operator binds looser than this rank.
#[cycle(expression)]
fn number_in(reader: &mut Reader, rank: u8, depth: u8) -> Result<(), ReadFault>
    ensures { OnOk result (ReadsOne (min rank tightest) is_number (state_of reader.old) (state_of reader.new)) }
{
    let less = depth.saturating_sub(1);
    expression(reader, rank, less)?.number()
}

// Parses a fact in which no operator binds looser than this rank.
#[cycle(expression)]
fn fact_in(reader: &mut Reader, rank: u8, depth: u8) -> Result<(), ReadFault>
    ensures { OnOk result (ReadsOne (min rank tightest) is_fact (state_of reader.old) (state_of reader.new)) }
{
    let less = depth.saturating_sub(1);
    expression(reader, rank, less)?.fact()
}

// Parses the number that comes next, either one operand or an expression in parentheses.
#[cycle(expression)]
fn next_number(reader: &mut Reader, depth: u8) -> Result<(), ReadFault>
    ensures { OnOk result (ReadsOne tightest is_number (state_of reader.old) (state_of reader.new)) }
{
    let less = depth.saturating_sub(1);
    beginning(reader, less)?.number()
}

// Parses the right side of an operator, and joins it to the left.
#[cycle(expression)]
fn joined(reader: &mut Reader, left: Piece, join: Infix, depth: u8) -> Result<Piece, ReadFault>
    ensures { (before : State) (e : Written) → Reads e before (state_of reader.old) → IsPiece left e (state_of reader.old)
        → first (tokens reader.old.rest.now) ≡ Some (infix_token join) → infix_rank join < tightest
        → IfOk result (λ piece. ReadsJoined join e piece before (state_of reader.new)) }
{
    let less = depth.saturating_sub(1);
    reader.take();
    let rank = rank_of(join).saturating_add(1);
    match join {
        Infix::Compare(relation) => {
            begin_second_number(reader, left)?;
            let begun = reader.count();
            number_in(reader, ABOVE_COMPARISON, depth.saturating_sub(3))?;
            end_comparison(reader, left, relation, begun)
        }
        Infix::Apply(operation) => {
            left.number()?;
            number_in(reader, rank, less)?;
            reader.puts(&[Part::Pair(operation)])?;
            Ok(Piece::at(left.bytes_left, Kind::Number))
        }
        Infix::Or | Infix::And | Infix::Iff => {
            left.fact()?;
            let (before, following) = joining(join);
            reader.puts(before)?;
            fact_in(reader, rank, less)?;
            reader.puts(following)?;
            Ok(Piece::at(left.bytes_left, Kind::Fact))
        }
    }
}

// Parses the first operand of an expression.
#[cycle(expression)]
fn beginning(reader: &mut Reader, depth: u8) -> Result<Piece, ReadFault>
    ensures { IfOk result (λ piece. ReadsPiece tightest piece (state_of reader.old) (state_of reader.new)) }
{
    let bytes_left = reader.bytes_left();
    let kind = operand(reader, depth)?;
    Ok(Piece::at(bytes_left, kind))
}

// Parses an operand: a number, a byte, or a form opened by a word or sign. Returns its kind.
#[cycle(expression)]
fn operand(reader: &mut Reader, depth: u8) -> Result<Kind, ReadFault>
    ensures { IfOk result (λ kind. ReadsKind kind (state_of reader.old) (state_of reader.new)) }
{
    let less = deeper(reader, depth, 1)?;
    let bytes_left = reader.bytes_left();
    let token = reader.next();
    if let Some(opening) = opening_of(token) {
        reader.take();
        return opened(reader, opening, bytes_left, less);
    }
    if let Some(name) = reader.bound(token) {
        reader.take();
        return reader.makes(Part::Bound(name), Kind::Number);
    }
    match token.class {
        Class::Decimal => number_here(reader),
        _ => of_address(reader, Function::Byte),
    }
}

// Parses the rest of an operand after its opening, and returns its kind. `bytes_left` is the number of bytes that
// were left at the opening.
#[cycle(expression)]
fn opened(
    reader: &mut Reader,
    opening: Opening,
    bytes_left: usize,
    depth: u8,
) -> Result<Kind, ReadFault>
    ensures { (before : State) → Takes (opening_token opening) before (state_of reader.old)
        → IfOk result (λ kind. ReadsKind kind before (state_of reader.new)) }
{
    let less = deeper(reader, depth, levels_of(opening))?;
    match opening {
        Opening::Held(atom) => reader.makes(Part::Held(atom), kind_of(atom)),
        Opening::Group => {
            let within = expression(reader, LOOSEST, less)?;
            reader.expect(b")", Why::GroupNotClosed)?;
            Ok(within.kind)
        }
        Opening::Old => {
            let kind = operand(reader, less)?;
            reader.makes(Part::Old, kind)
        }
        Opening::At => {
            let address = reader.label(bytes_left)?;
            let kind = operand(reader, less)?;
            reader.makes(Part::At(address), kind)
        }
        Opening::Sum => sum_of(reader, less),
        Opening::Make(making) => make(reader, making, less),
        Opening::Text => text_at(reader, less),
        Opening::Not => {
            fact_in(reader, ABOVE_AND, less)?;
            reader.ends(&NEGATED, Kind::Fact)
        }
        Opening::If => conditional(reader, less),
        Opening::Each => for_all(reader, less),
    }
}

// Parses what follows a word or sign, and makes a number of it.
#[cycle(expression)]
fn make(reader: &mut Reader, making: Making, depth: u8) -> Result<Kind, ReadFault>
    ensures { (before : State) → Takes (making_token making) before (state_of reader.old)
        → IfOk result (λ kind. ReadsKind kind before (state_of reader.new)) }
{
    match making {
        Making::Least => of_two(reader, Operation::Min, depth),
        Making::Greatest => of_two(reader, Operation::Max, depth),
        Making::Abs => of_next(reader, Function::Abs, depth),
        Making::Signed => of_next(reader, Function::Signed, depth),
        Making::Bit => {
            next_number(reader, depth)?;
            reader.expect(b"of", Why::BitWithoutOf)?;
            next_number(reader, depth)?;
            reader.makes(Part::Pair(Operation::Bit), Kind::Number)
        }
        Making::Word => word_at(reader, depth),
        Making::Byte => of_bracketed(reader, Function::Byte, depth),
        Making::Literal => number_here(reader),
        Making::Minus => {
            reader.puts(&[Part::Number(0)])?;
            next_number(reader, depth)?;
            reader.makes(Part::Pair(Operation::Minus), Kind::Number)
        }
    }
}

// Applies a function to the number that comes next, either one operand or an expression in parentheses.
#[cycle(expression)]
fn of_next(reader: &mut Reader, function: Function, depth: u8) -> Result<Kind, ReadFault>
    ensures { IfOk result (λ kind. (kind ≡ kinds.Number) × ReadsThen (ReadsOne tightest is_number) (part.Of function) (state_of reader.old) (state_of reader.new)) }
{
    next_number(reader, depth)?;
    reader.makes(Part::Of(function), Kind::Number)
}

// Applies an operation to two numbers in parentheses, separated by a comma.
#[cycle(expression)]
fn of_two(reader: &mut Reader, operation: Operation, depth: u8) -> Result<Kind, ReadFault>
    ensures { IfOk result (λ kind. (kind ≡ kinds.Number) × ReadsThen ReadsTwo (part.Pair operation) (state_of reader.old) (state_of reader.new)) }
{
    reader.expect(b"(", Why::PairNotOpened)?;
    number_in(reader, LOOSEST, depth)?;
    reader.expect(b",", Why::PairWithoutComma)?;
    number_in(reader, LOOSEST, depth)?;
    reader.expect(b")", Why::PairNotClosed)?;
    reader.makes(Part::Pair(operation), Kind::Number)
}

// Parses an address after `[`, and the closing `]`.
#[cycle(expression)]
fn bracketed(reader: &mut Reader, depth: u8) -> Result<(), ReadFault>
    ensures { OnOk result (ReadsAddress (state_of reader.old) (state_of reader.new)) }
{
    let less = depth.saturating_sub(1);
    number_in(reader, LOOSEST, less)?;
    reader.expect(b"]", Why::AddressNotClosed)
}

// Applies a function to an address in brackets; the `[` is already read.
#[cycle(expression)]
fn of_bracketed(reader: &mut Reader, function: Function, depth: u8) -> Result<Kind, ReadFault>
    ensures { IfOk result (λ kind. (kind ≡ kinds.Number) × ReadsThen ReadsAddress (part.Of function) (state_of reader.old) (state_of reader.new)) }
{
    bracketed(reader, depth)?;
    reader.makes(Part::Of(function), Kind::Number)
}

// Parses the address after `word`, for the two bytes there.
#[cycle(expression)]
fn word_at(reader: &mut Reader, depth: u8) -> Result<Kind, ReadFault>
    ensures { (before : State) → Takes (word (codes "word")) before (state_of reader.old)
        → IfOk result (λ kind. ReadsKind kind before (state_of reader.new)) }
{
    if reader.took(b"[") {
        of_bracketed(reader, Function::Word, depth)
    } else {
        of_address(reader, Function::Word)
    }
}

// The place of a text in memory: a fixed address or a computed one.
#[derive(Clone, Copy)]
enum Place {
    Fixed(u16),
    Made(Span),
}

// Parses the place after `text`.
#[cycle(expression)]
fn place_next(reader: &mut Reader, depth: u8) -> Result<Place, ReadFault>
    ensures { IfOk result (λ place. ReadsPlace place (state_of reader.old) (state_of reader.new)) }
{
    let begun = reader.count();
    if reader.took(b"[") {
        bracketed(reader, depth)?;
        let ended = reader.count();
        return Ok(Place::Made(Span { begun, ended }));
    }
    Ok(Place::Fixed(reader.address()?))
}

// Repeats the parts of a computed place. For the first byte the place is already there.
fn put_place(reader: &mut Reader, span: Span, further: u16) -> Result<(), ReadFault>
    ensures { (e : Phrase) → IsMade span e reader.old.parts.items
        → OnOk result (PutsOf (pushed further (e ∷ [])) e (state_of reader.old) (state_of reader.new)) }
{
    if further == 0 {
        return Ok(());
    }
    reader.again(span)
}

// Puts the parts of this fact: the byte at this distance from a place has this code.
fn is_laid(reader: &mut Reader, place: Place, further: u16, code: u8) -> Result<(), ReadFault>
    ensures { (phrase : ℕ → Phrase) (top : List Phrase) → IsPlaced place phrase top reader.old.parts.items
        → OnOk result (PutsOf (pushed further top) (pair operation.Equal (of function.Byte (phrase further)) (number (pos code)))
        (state_of reader.old) (state_of reader.new)) }
{
    match place {
        Place::Fixed(address) => reader.puts(&[
            Part::Number(i64::from(address) + i64::from(further)),
            Part::Of(Function::Byte),
            Part::Number(i64::from(code)),
            Part::Pair(Operation::Equal),
        ]),
        Place::Made(span) => {
            put_place(reader, span, further)?;
            reader.puts(&[
                Part::Number(i64::from(further)),
                Part::Pair(Operation::Plus),
                Part::Of(Function::Byte),
                Part::Number(i64::from(code)),
                Part::Pair(Operation::Equal),
            ])
        }
    }
}

// Puts the parts of this fact: the bytes from a place on are those of a text, in order.
fn are_laid(reader: &mut Reader, place: Place, text: &[u8], top: u8) -> Result<(), ReadFault>
    ensures { (phrase : ℕ → Phrase) (on_top : List Phrase) (quote : ℕ) → IsPlaced place phrase on_top reader.old.parts.items
        → IsTrue (is_text quote text.now) → IsTop quote top
        → OnOk result (PutsOf on_top (laid_of quote phrase text.now) (state_of reader.old) (state_of reader.new)) }
{
    for (further, character) in text.iter().enumerate() {
        let Ok(further) = u16::try_from(further) else {
            return reader.refuse(Why::NoText);
        };
        is_laid(reader, place, further, character.wrapping_add(top))?;
        if further > 0 {
            reader.puts(&BOTH)?;
        }
    }
    Ok(())
}

// Parses the place after `text` and the text after `=`. The fact says that the bytes from the place on are all those
// of the text, in order.
#[cycle(expression)]
fn text_at(reader: &mut Reader, depth: u8) -> Result<Kind, ReadFault>
    ensures { (before : State) → Takes (word (codes "text")) before (state_of reader.old)
        → IfOk result (λ kind. ReadsKind kind before (state_of reader.new)) }
{
    let place = place_next(reader, depth)?;
    reader.expect(b"=", Why::NoText)?;
    let (text, top) = reader.laid_text()?;
    are_laid(reader, place, text, top)?;
    Ok(Kind::Fact)
}

// Returns the kind of an `if` with two branches. It is a fact if both branches are facts. Otherwise both must be
// numbers.
fn either(one: Piece, other: Piece) -> Result<Kind, ReadFault>
    ensures { IfOk result (λ kind. IsEither one.kind other.kind kind) }
{
    match (one.kind, other.kind) {
        (Kind::Number, _) | (_, Kind::Number) => {
            one.number()?;
            other.number()?;
            Ok(Kind::Number)
        }
        _ => Ok(Kind::Fact),
    }
}

// Parses what follows `if`, and returns its kind. Without `else`, the second part must be true if the condition is.
#[cycle(expression)]
fn conditional(reader: &mut Reader, depth: u8) -> Result<Kind, ReadFault>
    ensures { (before : State) → Takes (word (codes "if")) before (state_of reader.old)
        → IfOk result (λ kind. ReadsKind kind before (state_of reader.new)) }
{
    fact_in(reader, LOOSEST, depth)?;
    reader.expect(b"then", Why::IfWithoutThen)?;
    let one = expression(reader, LOOSEST, depth)?;
    if !reader.took(b"else") {
        one.fact()?;
        return reader.ends(&[Part::Number(1), Part::Choice], Kind::Fact);
    }
    let other = expression(reader, LOOSEST, depth)?;
    reader.puts(&[Part::Choice])?;
    either(one, other)
}

// Parses the head of `for all` or `sum`: a name, `<`, a number and `:`. Binds the name, and returns its number.
#[cycle(expression)]
fn counted(reader: &mut Reader, depth: u8) -> Result<u8, ReadFault>
    ensures { IfOk result (λ name. ReadsCounted name (state_of reader.old) (state_of reader.new)) }
{
    let less = deeper(reader, depth, 1)?;
    let name = reader.next();
    if !may_name(name) {
        return reader.refuse(Why::NothingCounted);
    }
    reader.take();
    reader.expect(b"<", Why::NothingCounted)?;
    number_in(reader, ABOVE_COMPARISON, less)?;
    reader.expect(b":", Why::NothingCounted)?;
    reader.bind(name.text)
}

// Parses a fact about each number below a bound.
#[cycle(expression)]
fn for_all(reader: &mut Reader, depth: u8) -> Result<Kind, ReadFault>
    ensures { (before : State) → Takes (word (codes "for")) before (state_of reader.old)
        → IfOk result (λ kind. ReadsKind kind before (state_of reader.new)) }
{
    reader.expect(b"all", Why::ForWithoutAll)?;
    let name = counted(reader, depth)?;
    fact_in(reader, LOOSEST, depth)?;
    reader.unbind(name);
    reader.makes(Part::Each(name), Kind::Fact)
}

// Parses a sum over the numbers below a bound.
#[cycle(expression)]
fn sum_of(reader: &mut Reader, depth: u8) -> Result<Kind, ReadFault>
    ensures { (before : State) → Takes (word (codes "sum")) before (state_of reader.old)
        → IfOk result (λ kind. ReadsKind kind before (state_of reader.new)) }
{
    let name = counted(reader, depth)?;
    number_in(reader, ABOVE_COMPARISON, depth)?;
    reader.unbind(name);
    reader.makes(Part::Sum(name), Kind::Number)
}
