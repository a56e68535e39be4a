//! The value of an expression whose names are all known.

ghost use Rattle.std.specs.Prelude.{◌≡◌, ◌<ℤ◌, ◌≤ℤ◌, ◌∷◌, [], reverse, nat_lt, false, map, pos, IfOk, IfErr, OnOk, IfSome, IfNone, ℕ, ℤ, List, Ok, Err, Some, None, ◌⊎◌};
ghost use Rattle.a2_expand.specs.declared.fault.Problem.TheVariants.{Memory};
ghost use Rattle.a2_expand.specs.Expressions.{Says, changed as changed_value, combined as combined_value, infix_rank, piece, pieces, power_of_two, prefix_rank, truth as truth_value, value_of_name};
ghost use Rattle.a2_expand.specs.Calculating.{Tells, applied, begun, calculated, closed, continued, finished, first, infix_of, is_beginning as begins, joining, opening, run, settled, sign_infix as infix_of_sign, signs_infix as infix_of_signs, start, state, step, term_value as value_of_term, waiting_rank};
ghost use Rattle.a2_expand.specs.declared.value.Infix.TheVariants as infixes;
ghost use Rattle.a2_expand.specs.declared.value.Waiting.TheVariants as waits;

use crate::adding::add;
use crate::fault::{ExpandFault, Problem, trouble, trouble_at};
use crate::token::{Placed, Token};
use std::alloc::Allocator;

/// A name whose value is known.
#[derive(Drop)]
pub(crate) struct Constant<A: Allocator> {
    pub name: Vec<u8, A>,
    pub value: i32,
}

/// Returns the value of a name, if it is known.
pub(crate) fn constant_of<A: Allocator>(constants: &[Constant<A>], name: &[u8]) -> Option<i32>
    ensures { result ≡ value_of_name constants.now name.now }
{
    for constant in constants {
        if constant.name.as_slice() == name {
            return Some(constant.value);
        }
    }
    None
}

/// An operator before a term.
#[derive(Clone, Copy)]
pub(crate) enum Prefix {
    Low,
    High,
    Negate,
    Invert,
}

impl Prefix {
    // How tightly it binds.
    fn level(self) -> u8
        ensures { result ≡ prefix_rank self }
    {
        match self {
            Prefix::Low | Prefix::High => 1,
            Prefix::Negate | Prefix::Invert => 5,
        }
    }
}

/// An operator between two terms.
#[derive(Clone, Copy)]
pub(crate) enum Infix {
    Equal,
    Unequal,
    Less,
    Greater,
    AtMost,
    AtLeast,
    Add,
    Subtract,
    Or,
    Multiply,
    Divide,
    Remainder,
    And,
    Xor,
    ShiftLeft,
    ShiftRight,
}

impl Infix {
    // How tightly it binds.
    fn level(self) -> u8
        ensures { result ≡ infix_rank self }
    {
        match self {
            Infix::Equal
            | Infix::Unequal
            | Infix::Less
            | Infix::Greater
            | Infix::AtMost
            | Infix::AtLeast => 2,
            Infix::Add | Infix::Subtract | Infix::Or => 3,
            _ => 4,
        }
    }
}

/// An operator that waits for its right operand, or an open bracket.
#[derive(Clone, Copy)]
pub(crate) enum Waiting {
    Open,
    Prefix(Prefix),
    Infix(Infix),
}

impl Waiting {
    // How tightly it binds; an open bracket does not bind.
    fn level(self) -> u8
        ensures { result ≡ waiting_rank self }
    {
        match self {
            Waiting::Open => 0,
            Waiting::Prefix(prefix) => prefix.level(),
            Waiting::Infix(infix) => infix.level(),
        }
    }
}

// The operator of a sign between two terms.
fn sign_infix(sign: u8) -> Option<Infix>
    ensures { result ≡ infix_of_sign sign }
{
    Some(match sign {
        b'+' => Infix::Add,
        b'-' => Infix::Subtract,
        b'|' => Infix::Or,
        b'*' => Infix::Multiply,
        b'/' => Infix::Divide,
        b'%' => Infix::Remainder,
        b'&' => Infix::And,
        b'^' => Infix::Xor,
        b'=' => Infix::Equal,
        b'<' => Infix::Less,
        b'>' => Infix::Greater,
        _ => return None,
    })
}

// The operator of two signs between two terms.
fn signs_infix(signs: (u8, u8)) -> Option<Infix>
    ensures { result ≡ infix_of_signs signs.0 signs.1 }
{
    Some(match signs {
        (b'<', b'<') => Infix::ShiftLeft,
        (b'>', b'>') => Infix::ShiftRight,
        (b'<', b'>') => Infix::Unequal,
        (b'<', b'=') => Infix::AtMost,
        (b'>', b'=') => Infix::AtLeast,
        _ => return None,
    })
}

// The operator of a token between two terms.
fn infix_in(token: &Token<'_>) -> Option<Infix>
    ensures { result ≡ infix_of (piece token.now) }
{
    match token {
        Token::Sign(sign) => sign_infix(*sign),
        Token::Pair(sign, other) => signs_infix((*sign, *other)),
        _ => None,
    }
}

// What waits after a token before a term; `begins` says that the expression or a bracket begins there.
fn opened(token: &Token<'_>, begins: bool) -> Option<Waiting>
    ensures { result ≡ opening begins (piece token.now) }
{
    Some(match token {
        Token::Sign(b'-') => Waiting::Prefix(Prefix::Negate),
        Token::Sign(b'~') => Waiting::Prefix(Prefix::Invert),
        Token::Sign(b'(') => Waiting::Open,
        Token::Sign(b'<') if begins => Waiting::Prefix(Prefix::Low),
        Token::Sign(b'>') if begins => Waiting::Prefix(Prefix::High),
        _ => return None,
    })
}

// The power of two of a shift, or `None` if it shifts by more than 16 places.
fn power(places: i32) -> Option<i32>
    ensures is { result ≡ power_of_two places }
    ensures positive { IfSome result (λ power. pos 0 <ℤ power) }
    ensures small { IfSome result (λ power. power ≤ℤ pos 65536) }
{
    Some(match places {
        0 => 1,
        1 => 2,
        2 => 4,
        3 => 8,
        4 => 16,
        5 => 32,
        6 => 64,
        7 => 128,
        8 => 256,
        9 => 512,
        10 => 1024,
        11 => 2048,
        12 => 4096,
        13 => 8192,
        14 => 16384,
        15 => 32768,
        16 => 65536,
        _ => return None,
    })
}

// The value of a comparison.
fn truth(holds: bool) -> i32
    ensures { result ≡ truth_value holds }
{
    if holds { 1 } else { 0 }
}

// The value of a shift to the left, or `None` if there is none.
fn shifted_left(a: i32, b: i32) -> Option<i32>
    ensures { result ≡ combined_value infixes.ShiftLeft a b }
{
    match power(b) {
        Some(power) => a.checked_mul(power),
        None => None,
    }
}

// The value of a shift to the right, or `None` if there is none.
fn shifted_right(a: i32, b: i32) -> Option<i32>
    ensures { result ≡ combined_value infixes.ShiftRight a b }
{
    match power(b) {
        Some(power) => Some(a.div_euclid(power)),
        None => None,
    }
}

// The quotient of two values, rounded toward 0, or `None` if there is none.
fn quotient(a: i32, b: i32) -> Option<i32>
    ensures { result ≡ combined_value infixes.Divide a b }
{
    a.checked_div(b)
}

// The remainder of two values, or `None` if there is none.
fn remainder(a: i32, b: i32) -> Option<i32>
    ensures { result ≡ combined_value infixes.Remainder a b }
{
    if b == 0 {
        None
    } else {
        Some(a.wrapping_rem(b))
    }
}

// The value of an operator with two operands, or `None` if it has none.
fn combined(operator: Infix, a: i32, b: i32) -> Option<i32>
    ensures { result ≡ combined_value operator a b }
{
    match operator {
        Infix::Equal => Some(truth(a == b)),
        Infix::Unequal => Some(truth(a != b)),
        Infix::Less => Some(truth(a < b)),
        Infix::Greater => Some(truth(a > b)),
        Infix::AtMost => Some(truth(a <= b)),
        Infix::AtLeast => Some(truth(a >= b)),
        Infix::Add => a.checked_add(b),
        Infix::Subtract => a.checked_sub(b),
        Infix::Multiply => a.checked_mul(b),
        Infix::Divide => quotient(a, b),
        Infix::Remainder => remainder(a, b),
        Infix::Or => Some(a | b),
        Infix::And => Some(a & b),
        Infix::Xor => Some(a ^ b),
        Infix::ShiftLeft => shifted_left(a, b),
        Infix::ShiftRight => shifted_right(a, b),
    }
}

// The value of an operator with one operand, or `None` if it is too large.
fn changed(operator: Prefix, a: i32) -> Option<i32>
    ensures { result ≡ changed_value operator a }
{
    match operator {
        Prefix::Negate => a.checked_neg(),
        Prefix::Invert => Some(-1 - a),
        Prefix::Low => Some(a.rem_euclid(256)),
        Prefix::High => Some(a.rem_euclid(65536).div_euclid(256)),
    }
}

// Why two values cannot be combined.
fn combining_problem(operator: Infix, b: i32) -> Problem {
    match operator {
        Infix::Divide | Infix::Remainder if b == 0 => Problem::DivisionByZero,
        _ => Problem::Overflow,
    }
}

// Puts a value on a stack.
fn put<T: Drop, A: Allocator>(stack: &mut Vec<T, A>, value: T) -> Result<(), ExpandFault>
    ensures ok { OnOk result (reverse stack.new.items ≡ value ∷ reverse stack.old.items) }
    ensures err { IfErr result (λ fault. fault.problem ≡ Memory) }
{
    add(stack, value)?;
    Ok(())
}

// Takes the last value off a stack.
fn taken<T, A: Allocator>(stack: &mut Vec<T, A>) -> Option<T>
    ensures some { IfSome result (λ x. reverse stack.old.items ≡ x ∷ reverse stack.new.items) }
    ensures none { IfNone result (reverse stack.old.items ≡ []) }
{
    stack.pop()
}

// Returns the last value of a stack.
fn top<T: Copy, A: Allocator>(stack: &Vec<T, A>) -> Option<T>
    ensures { result ≡ first (reverse stack.now.items) }
{
    stack.last().copied()
}

// Replaces the last value by the value of an operator before it.
fn apply_prefix<A: Allocator>(values: &mut Vec<i32, A>, operator: Prefix) -> Result<(), ExpandFault>
    ensures { Tells (λ _. reverse values.new.items) result (applied (waits.Prefix operator) (reverse values.old.items)) }
{
    let Some(a) = taken(values) else {
        return Err(trouble(Problem::Incomplete, b""));
    };
    let Some(value) = changed(operator, a) else {
        return Err(trouble(Problem::Overflow, b""));
    };
    put(values, value)
}

// Replaces the last two values by the value of an operator between them.
fn apply_infix<A: Allocator>(values: &mut Vec<i32, A>, operator: Infix) -> Result<(), ExpandFault>
    ensures { Tells (λ _. reverse values.new.items) result (applied (waits.Infix operator) (reverse values.old.items)) }
{
    let Some(b) = taken(values) else {
        return Err(trouble(Problem::Incomplete, b""));
    };
    let Some(a) = taken(values) else {
        return Err(trouble(Problem::Incomplete, b""));
    };
    let Some(value) = combined(operator, a, b) else {
        return Err(trouble(combining_problem(operator, b), b""));
    };
    put(values, value)
}

// Replaces the last values by the value of an operator.
fn apply<A: Allocator>(values: &mut Vec<i32, A>, waiting: Waiting) -> Result<(), ExpandFault>
    ensures { Tells (λ _. reverse values.new.items) result (applied waiting (reverse values.old.items)) }
{
    match waiting {
        Waiting::Open => Err(trouble(Problem::Bracket, b"(")),
        Waiting::Prefix(operator) => apply_prefix(values, operator),
        Waiting::Infix(operator) => apply_infix(values, operator),
    }
}

// The last operator that waits, if it binds at least as tightly as `level`.
fn due<A: Allocator>(waiting: &mut Vec<Waiting, A>, level: u8) -> Option<Waiting>
    ensures some { IfSome result (λ w. (reverse waiting.old.items ≡ w ∷ reverse waiting.new.items) × (nat_lt (waiting_rank w) level ≡ false)) }
    ensures none { IfNone result ((waiting.new.items ≡ waiting.old.items)
        × ((values : List ℤ) → settled level values (reverse waiting.old.items) ≡ Some (values, reverse waiting.old.items))) }
{
    let Some(last) = top(waiting) else {
        return None;
    };
    if last.level() < level {
        return None;
    }
    taken(waiting)
}

// Applies the operators that wait and bind at least as tightly as `level`, which is at least 1.
fn settle<A: Allocator>(
    values: &mut Vec<i32, A>,
    waiting: &mut Vec<Waiting, A>,
    level: u8,
) -> Result<(), ExpandFault>
    ensures { Tells (λ _. (reverse values.new.items, reverse waiting.new.items)) result
        (settled level (reverse values.old.items) (reverse waiting.old.items)) }
{
    while let Some(operator) = due(waiting, level) {
        apply(values, operator)?;
    }
    Ok(())
}

// Why a token is not a term whose value is known.
fn term_problem(token: &Token<'_>) -> Problem {
    match token {
        Token::Name(_) => Problem::UnknownValue,
        Token::Here => Problem::AddressHere,
        Token::Local(_) | Token::Anonymous(_) => Problem::LocalAddress,
        _ => Problem::Expression,
    }
}

// The value of a token that is a term, if it is known.
fn known_value<A: Allocator>(token: &Token<'_>, constants: &[Constant<A>]) -> Option<i32>
    ensures { result ≡ value_of_term constants.now (piece token.now) }
{
    match token {
        Token::Number(n) => Some(i32::from(*n)),
        Token::Name(name) => constant_of(constants, name),
        _ => None,
    }
}

// The value of a token that is a term.
fn term_value<A: Allocator>(
    placed: &Placed<'_>,
    constants: &[Constant<A>],
) -> Result<i32, ExpandFault>
    ensures { Tells (λ z. z) result (value_of_term constants.now (piece placed.now.token)) }
{
    match known_value(&placed.token, constants) {
        Some(value) => Ok(value),
        None => Err(trouble_at(term_problem(&placed.token), placed.text, placed.at)),
    }
}

// The values and operators of an expression that is read from left to right, and whether a term has just ended.
#[derive(Drop)]
pub(crate) struct Calculator<A: Allocator> {
    values: Vec<i32, A>,
    waiting: Vec<Waiting, A>,
    after_term: bool,
}

impl<A: Allocator> Calculator<A> {
    // Whether an expression begins here, or one in brackets.
    fn is_beginning(&self) -> bool
        ensures { result ≡ begins (reverse self.now.waiting.items) }
    {
        matches!(top(&self.waiting), None | Some(Waiting::Open))
    }

    // Reads a token where a term is expected.
    fn begin_term(
        &mut self,
        placed: &Placed<'_>,
        constants: &[Constant<A>],
    ) -> Result<(), ExpandFault>
        ensures { Tells (λ _. state self.new) result (begun constants.now (state self.old) (piece placed.now.token)) }
    {
        if let Some(waiting) = opened(&placed.token, self.is_beginning()) {
            put(&mut self.waiting, waiting)?;
            self.after_term = false;
            return Ok(());
        }
        let value = term_value(placed, constants)?;
        put(&mut self.values, value)?;
        self.after_term = true;
        Ok(())
    }

    // Closes a bracket at this place.
    fn close(&mut self, at: usize) -> Result<(), ExpandFault>
        ensures { Tells (λ _. state self.new) result (closed (state self.old)) }
    {
        settle(&mut self.values, &mut self.waiting, 1)?;
        match taken(&mut self.waiting) {
            Some(Waiting::Open) => {
                self.after_term = true;
                Ok(())
            }
            _ => Err(trouble_at(Problem::Bracket, b")", at)),
        }
    }

    // Lets an operator wait for its right operand.
    fn join(&mut self, operator: Infix) -> Result<(), ExpandFault>
        ensures { Tells (λ _. state self.new) result (joining (state self.old) operator) }
    {
        settle(&mut self.values, &mut self.waiting, operator.level())?;
        put(&mut self.waiting, Waiting::Infix(operator))?;
        self.after_term = false;
        Ok(())
    }

    // Reads a token after a term.
    fn continue_term(&mut self, placed: &Placed<'_>) -> Result<(), ExpandFault>
        ensures { Tells (λ _. state self.new) result (continued (state self.old) (piece placed.now.token)) }
    {
        if let Token::Sign(b')') = placed.token {
            return self.close(placed.at);
        }
        let Some(operator) = infix_in(&placed.token) else {
            return Err(trouble_at(Problem::Expression, placed.text, placed.at));
        };
        self.join(operator)
    }

    // Reads a token.
    fn read(&mut self, placed: &Placed<'_>, constants: &[Constant<A>]) -> Result<(), ExpandFault>
        ensures { Tells (λ _. state self.new) result (step constants.now (state self.old) (piece placed.now.token)) }
    {
        if self.after_term {
            self.continue_term(placed)
        } else {
            self.begin_term(placed, constants)
        }
    }

    // Returns the value of the whole expression.
    fn finish(&mut self) -> Result<i32, ExpandFault>
        ensures { Tells (λ z. z) result (finished (state self.old)) }
    {
        if !self.after_term {
            return Err(trouble(Problem::Incomplete, b""));
        }
        settle(&mut self.values, &mut self.waiting, 1)?;
        if !self.waiting.is_empty() {
            return Err(trouble(Problem::Bracket, b"("));
        }
        match taken(&mut self.values) {
            Some(value) => Ok(value),
            None => Err(trouble(Problem::Incomplete, b"")),
        }
    }
}

// Calculates the value of an expression from left to right.
fn calculate<A: Allocator + Copy>(
    alloc: A,
    tokens: &[Placed<'_>],
    constants: &[Constant<A>],
) -> Result<i32, ExpandFault>
    ensures { Tells (λ z. z) result (calculated constants.now (pieces tokens.now)) }
{
    let mut calculator = Calculator {
        values: Vec::new(alloc),
        waiting: Vec::new(alloc),
        after_term: false,
    };
    for placed in tokens {
        calculator.read(placed, constants)?;
    }
    calculator.finish()
}

/// Returns the value of an expression whose names are all known.
pub(crate) fn evaluate<A: Allocator + Copy>(
    alloc: A,
    tokens: &[Placed<'_>],
    constants: &[Constant<A>],
) -> Result<i32, ExpandFault>
    // What is returned is the value of the expression that the tokens are.
    ensures found { IfOk result (λ z. Says constants.now (pieces tokens.now) z) }
    // An expression with a value is not refused, unless memory runs out.
    ensures only { (z : ℤ) → Says constants.now (pieces tokens.now) z → Tells (λ y. y) result (Some z) }
{
    calculate(alloc, tokens, constants)
}
