//! Reads addresses and ranges of addresses that the user typed.

ghost use Rattle.std.specs.Prelude.{◌≡◌, ◌∷◌, ◌≤◌, Some, true, length, take, drop};
ghost use Rattle.a2_syntax.specs.Names.{is_name as is_name_of};
ghost use Rattle.a2_asm.specs.Values.{name_value};
ghost use Rattle.a2_symbols.specs.Places as place;

use crate::statements::instruction_on;
use a2_asm::{Program, Statement};
use a2_syntax::is_name;
use a2_text::{front_len, number_in};
use std::alloc::Allocator;

/// A range of addresses, from `first` to `last`, including both.
#[derive(Clone, Copy, Debug, Default, PartialEq, Eq, Drop)]
pub struct Span {
    pub first: u16,
    /// The last address; not below `first` if it comes from [`span_of`].
    pub last: u16,
}

// Returns the value of a name of the program.
fn value_of<A: Allocator>(program: &Program<A>, name: &[u8]) -> Option<u16>
    requires { is_name_of name.now ≡ true }
    ensures { result ≡ name_value program.now.names name.now }
{
    match std::str::from_utf8(name) {
        Ok(name) => program.name(name),
        Err(_) => unreachable!(),
    }
}

// Returns the address of the instruction on a line.
fn address_on(statements: &[Statement], number: u16) -> Option<u16>
    ensures { result ≡ place.address_on statements.now number }
{
    match instruction_on(statements, usize::from(number)) {
        Some(statement) => Some(statement.addr),
        None => None,
    }
}

/// Returns the number that an argument holds, or `None` if it holds none. A number is `$` and 1 to 4 hexadecimal
/// digits, or 1 to 5 decimal digits, up to 65,535. This project's profile.
#[tactic(auto, unfolding(crate::specs::Places::number_of))]
pub fn number_of(word: &[u8]) -> Option<u16>
    ensures { result ≡ place.number_of word.now }
{
    match word {
        [] => None,
        [b'$', digits @ ..] => number_in(16, 4, digits),
        _ => number_in(10, 5, word),
    }
}

// Splits an argument before the first occurrence of a character.
fn split_at_char(word: &[u8], sign: u8) -> (&[u8], &[u8])
    ensures front { result.0.now ≡ take (place.length_before sign word.now) word.now }
    ensures following { result.1.now ≡ drop (place.length_before sign word.now) word.now }
{
    word.split_at(front_len(word, |c| c != sign))
}

// Returns a line number: decimal digits, which a colon may follow.
#[tactic(auto, unfolding(crate::specs::Places::line_of))]
fn line_of(word: &[u8]) -> Option<u16>
    ensures { result ≡ place.line_of word.now }
{
    let (digits, following) = split_at_char(word, b':');
    match following {
        [] | [_] => number_in(10, 5, digits),
        _ => None,
    }
}

// Returns the address that an argument without an offset gives.
#[tactic(auto, unfolding(crate::specs::Places::base_of))]
fn base_of<A: Allocator>(program: &Program<A>, word: &[u8]) -> Option<u16>
    ensures { result ≡ place.base_of program.now word.now }
{
    match word {
        [b'$', digits @ ..] => number_in(16, 4, digits),
        [b'0'..=b'9', ..] => address_on(program.statements(), line_of(word)?),
        _ if is_name(word) => value_of(program, word),
        _ => None,
    }
}

// Returns the base plus the number after the first byte of `following`, or the base itself if `following` is empty.
fn with_offset(base: Option<u16>, following: &[u8]) -> Option<u16>
    ensures { result ≡ place.with_offset following.now base }
{
    match following {
        [] => base,
        [_, count @ ..] => {
            let address = base?;
            address.checked_add(number_of(count)?)
        }
    }
}

/// Returns the address that an argument gives, or `None` if it gives none.
///
/// An address is one of these, which `+` and a number to be added may follow:
/// - `$` and 1 to 4 hexadecimal digits;
/// - the decimal number of a line, from 1, with or without a `:` after it, if the line has an instruction;
/// - a name that a line of the program defines.
///
/// If the sum is above 65,535, there is no address. This project's profile.
#[tactic(auto, unfolding(crate::specs::Places::place_of))]
pub fn place_of<A: Allocator>(program: &Program<A>, word: &[u8]) -> Option<u16>
    ensures { result ≡ place.place_of program.now word.now }
{
    let (front, following) = split_at_char(word, b'+');
    with_offset(base_of(program, front), following)
}

// Returns the range from one address to another.
fn spanned(first: Option<u16>, last: Option<u16>) -> Option<Span>
    ensures { result ≡ place.spanned first last }
{
    let (first, last) = (first?, last?);
    if first <= last {
        Some(Span { first, last })
    } else {
        None
    }
}

/// Returns the range of addresses that an argument gives, or `None` if it gives none. It is one place, or two with
/// `..` between, the second not below the first. This project's profile.
#[tactic(auto, unfolding(crate::specs::Places::span_of))]
pub fn span_of<A: Allocator>(program: &Program<A>, word: &[u8]) -> Option<Span>
    ensures { result ≡ place.span_of program.now word.now }
{
    let (front, following) = split_at_char(word, b'.');
    let first = place_of(program, front);
    match following {
        [] => spanned(first, first),
        [_, b'.', last @ ..] => spanned(first, place_of(program, last)),
        _ => None,
    }
}
