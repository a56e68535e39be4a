//! Operands of the larger language, written in the plain one.

ghost use Rattle.std.specs.Prelude.{◌≡◌, ◌++◌, ◌⊎◌, ℤ, IfOk, OnOk, Some, decimal as decimal_of, true};
ghost use Rattle.std.specs.List.{list_any};
ghost use Rattle.a2_expand.specs.Expressions.{Says, piece, pieces};
ghost use Rattle.a2_expand.specs.Written.{Writes, is_unknown, number_for};
ghost use Rattle.a2_expand.specs.Calculating.{Tells};
ghost use Rattle.a2_expand.specs.Pieces.{pieces_of};

use crate::fault::{ExpandFault, Problem, trouble};
use crate::larger::is_larger_operand;
use crate::token::{Placed, Token, tokens_of};
use crate::value::{Constant, constant_of, evaluate};
use a2_text::decimal;
use std::alloc::{AllocError, Allocator};

/// What a value is written for.
#[derive(Clone, Copy, PartialEq, Eq)]
pub(crate) enum Width {
    Byte,
    Word,
}

/// The names whose values are known, and the memory of what is written.
#[derive(Clone, Copy)]
pub(crate) struct Known<'k, A: Allocator> {
    pub alloc: A,
    pub constants: &'k [Constant<A>],
}

/// Appends a number in decimal.
pub(crate) fn put_decimal<A: Allocator>(out: &mut Vec<u8, A>, number: u32) -> Result<(), AllocError>
    ensures { OnOk result (out.new.items ≡ out.old.items ++ decimal_of number) }
{
    out.extend_from_slice(decimal(u64::from(number)).as_slice())
}

/// Appends a count in decimal.
pub(crate) fn put_count<A: Allocator>(
    out: &mut Vec<u8, A>,
    count: usize,
) -> Result<(), AllocError> {
    out.extend_from_slice(decimal(count as u64).as_slice())
}

// The number that stands for a value: a negative one in two's complement.
fn number_of(value: i32, width: Width) -> Result<u32, ExpandFault>
    ensures { Tells (λ n. n) result (number_for width value) }
{
    if value >= 0 && value <= 65535 {
        return Ok(value as u32);
    }
    if width == Width::Byte && value >= -128 && value < 0 {
        return Ok((value + 256) as u32);
    }
    if width == Width::Word && value >= -32768 && value < 0 {
        return Ok((value + 65536) as u32);
    }
    Err(trouble(Problem::Range, b""))
}

// Whether a token has an address whose value is not known here.
fn is_address<A: Allocator>(token: &Token<'_>, constants: &[Constant<A>]) -> bool
    ensures { result ≡ true → is_unknown constants.now (piece token.now) ≡ true }
{
    match token {
        Token::Here | Token::Local(_) | Token::Anonymous(_) => true,
        Token::Name(name) => constant_of(constants, name).is_none(),
        _ => false,
    }
}

// Whether an expression has an address whose value is not known here.
fn has_address<A: Allocator>(tokens: &[Placed<'_>], constants: &[Constant<A>]) -> bool
    ensures { result ≡ true → list_any (is_unknown constants.now) (pieces tokens.now) ≡ true }
{
    for placed in tokens {
        if is_address(&placed.token, constants) {
            return true;
        }
    }
    false
}

// Whether an operator other than `+` and `-` joins terms at the level of sums.
fn has_loose_operator(tokens: &[Placed<'_>]) -> bool {
    for placed in tokens {
        if matches!(
            placed.token,
            Token::Sign(b'|') | Token::Sign(b'=') | Token::Pair(b'<', b'>') | Token::Pair(_, b'=')
        ) {
            return true;
        }
    }
    false
}

// Returns how many tokens the first term of a sum has.
fn term_len(tokens: &[Placed<'_>]) -> usize {
    let mut depth: u32 = 0;
    let mut after_term = false;
    for (i, placed) in tokens.iter().enumerate() {
        match placed.token {
            Token::Sign(b'(') => depth = depth.saturating_add(1),
            Token::Sign(b')') => depth = depth.saturating_sub(1),
            Token::Sign(b'+') | Token::Sign(b'-') if depth == 0 && after_term => return i,
            _ => {}
        }
        after_term = placed.token.ends_term();
    }
    tokens.len()
}

// Whether a term is an address alone.
fn is_single_address<A: Allocator>(term: &[Placed<'_>], constants: &[Constant<A>]) -> bool {
    match term {
        [placed] => is_address(&placed.token, constants),
        _ => false,
    }
}

// Returns the sign before an address. A sum does not begin with a sign.
fn sign_of(first: bool, minus: bool) -> &'static [u8] {
    match (first, minus) {
        (true, true) => b"0-",
        (false, true) => b"-",
        (false, false) => b"+",
        (true, false) => b"",
    }
}

// Appends an address with its sign.
fn put_address<A: Allocator>(
    out: &mut Vec<u8, A>,
    term: &[Placed<'_>],
    first: bool,
    minus: bool,
) -> Result<(), AllocError> {
    out.extend_from_slice(sign_of(first, minus))?;
    for placed in term {
        out.extend_from_slice(placed.text)?;
    }
    Ok(())
}

// Appends the number that is added to a sum.
fn put_rest<A: Allocator>(out: &mut Vec<u8, A>, total: i32) -> Result<(), ExpandFault> {
    if total > 65535 || total < -65535 {
        return Err(trouble(Problem::Range, b""));
    }
    if total > 0 {
        out.extend_from_slice(b"+")?;
        put_decimal(out, total as u32)?;
    }
    if total < 0 {
        out.extend_from_slice(b"-")?;
        put_decimal(out, (0 - total) as u32)?;
    }
    Ok(())
}

// Returns a sum with a term added or subtracted.
fn added(total: i32, value: i32, minus: bool) -> Result<i32, ExpandFault> {
    let sum = if minus {
        total.checked_sub(value)
    } else {
        total.checked_add(value)
    };
    match sum {
        Some(sum) => Ok(sum),
        None => Err(trouble(Problem::Overflow, b"")),
    }
}

// The first term of a sum that begins at an index, and the sign after the term.
fn term_at<'s, 'a>(
    tokens: &'s [Placed<'a>],
    index: usize,
) -> (&'s [Placed<'a>], Option<Token<'a>>) {
    let (_, rest) = tokens.split_at(index.min(tokens.len()));
    let (term, following) = rest.split_at(term_len(rest).min(rest.len()));
    match following {
        [placed, ..] => (term, Some(placed.token)),
        [] => (term, None),
    }
}

// Appends a sum that has addresses: each as it is, and the sum of the other terms.
fn put_sum<A: Allocator + Copy>(
    out: &mut Vec<u8, A>,
    tokens: &[Placed<'_>],
    known: &Known<'_, A>,
) -> Result<(), ExpandFault> {
    let mut index: usize = 0;
    let mut minus = false;
    let mut first = true;
    let mut total: i32 = 0;
    for _ in 0..tokens.len() {
        let (term, sign) = term_at(tokens, index);
        if is_single_address(term, known.constants) {
            put_address(out, term, first, minus)?;
            first = false;
        } else {
            let value = evaluate(known.alloc, term, known.constants)?;
            total = added(total, value, minus)?;
        }
        let Some(sign) = sign else {
            break;
        };
        minus = matches!(sign, Token::Sign(b'-'));
        index = index.saturating_add(term.len()).saturating_add(1);
    }
    put_rest(out, total)
}

// Whether a token is this sign.
fn is_sign(placed: &Placed<'_>, sign: u8) -> bool {
    match placed.token {
        Token::Sign(c) => c == sign,
        _ => false,
    }
}

// Appends `<` or `>` if the expression begins with it, and returns the rest.
fn put_part<'s, 'a, A: Allocator>(
    out: &mut Vec<u8, A>,
    tokens: &'s [Placed<'a>],
) -> Result<&'s [Placed<'a>], AllocError> {
    match tokens {
        [sign, rest @ ..] if is_sign(sign, b'<') || is_sign(sign, b'>') => {
            out.extend_from_slice(sign.text)?;
            Ok(rest)
        }
        _ => Ok(tokens),
    }
}

// Appends the number of an expression with a value.
fn put_value<A: Allocator + Copy>(
    out: &mut Vec<u8, A>,
    tokens: &[Placed<'_>],
    known: &Known<'_, A>,
    width: Width,
) -> Result<(), ExpandFault>
    ensures { OnOk result (Writes known.now.constants.now (pieces tokens.now) width out.old.items out.new.items) }
{
    let value = evaluate(known.alloc, tokens, known.constants)?;
    put_decimal(out, number_of(value, width)?)?;
    Ok(())
}

// Appends an expression.
fn put_tokens<A: Allocator + Copy>(
    out: &mut Vec<u8, A>,
    tokens: &[Placed<'_>],
    known: &Known<'_, A>,
    width: Width,
) -> Result<(), ExpandFault>
    // The expansion has the number of an expression with a value.
    ensures { (z : ℤ) → Says known.now.constants.now (pieces tokens.now) z
        → OnOk result (Writes known.now.constants.now (pieces tokens.now) width out.old.items out.new.items) }
{
    if has_loose_operator(tokens) || !has_address(tokens, known.constants) {
        return put_value(out, tokens, known, width);
    }
    let rest = put_part(out, tokens)?;
    put_sum(out, rest, known)
}

/// Appends an expression in the plain language. An expression that is plain already stays as it is.
pub(crate) fn put_expression<A: Allocator + Copy>(
    out: &mut Vec<u8, A>,
    text: &[u8],
    known: &Known<'_, A>,
    width: Width,
) -> Result<(), ExpandFault>
    // An expression with a value stays as it is, or becomes its number.
    ensures { (z : ℤ) → Says known.now.constants.now (pieces_of text.now) z
        → OnOk result ((out.new.items ≡ out.old.items ++ text.now) ⊎ Writes known.now.constants.now (pieces_of text.now) width out.old.items out.new.items) }
{
    if !is_larger_operand(text) {
        out.extend_from_slice(text)?;
        return Ok(());
    }
    let tokens = tokens_of(known.alloc, text)?;
    put_tokens(out, tokens.as_slice(), known, width)
}

/// Returns the value of an expression.
pub(crate) fn value_of<A: Allocator + Copy>(
    text: &[u8],
    known: &Known<'_, A>,
) -> Result<i32, ExpandFault>
    // What is returned is the value of the expression that the text is.
    ensures found { IfOk result (λ z. Says known.now.constants.now (pieces_of text.now) z) }
    // An expression with a value is not refused, unless memory runs out.
    ensures only { (z : ℤ) → Says known.now.constants.now (pieces_of text.now) z → Tells (λ y. y) result (Some z) }
{
    let tokens = tokens_of(known.alloc, text)?;
    evaluate(known.alloc, tokens.as_slice(), known.constants)
}

// Whether a token is the letter of a register, in upper or lower case.
fn is_letter(placed: &Placed<'_>, letter: u8) -> bool {
    match placed.token {
        Token::Name([c]) => *c == letter || *c == (letter | 32),
        _ => false,
    }
}

// Whether brackets around these tokens would belong together.
fn are_enclosed(tokens: &[Placed<'_>]) -> bool {
    let mut depth: u32 = 0;
    for placed in tokens {
        match placed.token {
            Token::Sign(b'(') => depth = depth.saturating_add(1),
            Token::Sign(b')') => {
                if depth == 0 {
                    return false;
                }
                depth = depth.saturating_sub(1);
            }
            _ => {}
        }
    }
    depth == 0
}

// Appends an expression between two texts.
fn put_between<A: Allocator + Copy>(
    out: &mut Vec<u8, A>,
    tokens: &[Placed<'_>],
    known: &Known<'_, A>,
    around: (&[u8], &[u8]),
) -> Result<(), ExpandFault> {
    out.extend_from_slice(around.0)?;
    put_tokens(out, tokens, known, Width::Word)?;
    out.extend_from_slice(around.1)?;
    Ok(())
}

// Appends an operand in brackets, without them.
fn put_inner<A: Allocator + Copy>(
    out: &mut Vec<u8, A>,
    tokens: &[Placed<'_>],
    known: &Known<'_, A>,
) -> Result<(), ExpandFault> {
    match tokens {
        [es @ .., comma, x] if is_sign(comma, b',') && is_letter(x, b'X') => {
            put_between(out, es, known, (b"(", b",X)"))
        }
        _ => put_between(out, tokens, known, (b"(", b")")),
    }
}

// Appends an operand with or without an index.
fn put_direct<A: Allocator + Copy>(
    out: &mut Vec<u8, A>,
    tokens: &[Placed<'_>],
    known: &Known<'_, A>,
) -> Result<(), ExpandFault> {
    match tokens {
        [es @ .., comma, x] if is_sign(comma, b',') && is_letter(x, b'X') => {
            put_between(out, es, known, (b"", b",X"))
        }
        [es @ .., comma, y] if is_sign(comma, b',') && is_letter(y, b'Y') => {
            put_between(out, es, known, (b"", b",Y"))
        }
        _ => put_between(out, tokens, known, (b"", b"")),
    }
}

// Returns what is in brackets around all of these tokens, if there are such brackets.
fn enclosed<'s, 'a>(tokens: &'s [Placed<'a>]) -> Option<&'s [Placed<'a>]> {
    match tokens {
        [open, inner @ .., close]
            if is_sign(open, b'(') && is_sign(close, b')') && are_enclosed(inner) => { Some(inner) }
        _ => None,
    }
}

// Returns what is in the brackets of an operand `(..),Y`, if it is one.
fn enclosed_before_y<'s, 'a>(tokens: &'s [Placed<'a>]) -> Option<&'s [Placed<'a>]> {
    match tokens {
        [front @ .., comma, y] if is_sign(comma, b',') && is_letter(y, b'Y') => enclosed(front),
        _ => None,
    }
}

// Appends the operand of an instruction.
fn put_shape<A: Allocator + Copy>(
    out: &mut Vec<u8, A>,
    tokens: &[Placed<'_>],
    known: &Known<'_, A>,
) -> Result<(), ExpandFault> {
    if let [hash, es @ ..] = tokens {
        if is_sign(hash, b'#') {
            out.extend_from_slice(b"#")?;
            return put_tokens(out, es, known, Width::Byte);
        }
    }
    if let Some(inner) = enclosed(tokens) {
        return put_inner(out, inner, known);
    }
    match enclosed_before_y(tokens) {
        Some(inner) => put_between(out, inner, known, (b"(", b"),Y")),
        None => put_direct(out, tokens, known),
    }
}

/// Appends the operand of an instruction in the plain language.
pub(crate) fn put_operand<A: Allocator + Copy>(
    out: &mut Vec<u8, A>,
    text: &[u8],
    known: &Known<'_, A>,
) -> Result<(), ExpandFault> {
    if !is_larger_operand(text) {
        out.extend_from_slice(text)?;
        return Ok(());
    }
    let tokens = tokens_of(known.alloc, text)?;
    put_shape(out, tokens.as_slice(), known)
}
