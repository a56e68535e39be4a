//! Addresses and spans of addresses, as arguments give them.

ghost use Rattle.std.specs.Prelude.{◌≤◌, ◌<◌, IfSome};
ghost use Rattle.a2_hex.specs.Images.{ram_end};

use a2_hex::RAM_END;
use a2_text::{front_len, number_in};

/// The addresses from one up to another.
#[derive(Clone, Copy, Debug, PartialEq, Eq)]
pub(crate) struct Span {
    pub first: u16,
    /// The address after the last, at most $C000.
    pub end: u16,
}

// Returns the number that 1 to 4 hexadecimal digits are, with or without `$`.
fn number(text: &[u8]) -> Option<u16> {
    match text {
        [b'$', digits @ ..] => number_in(16, 4, digits),
        _ => number_in(16, 4, text),
    }
}

/// Returns the address of RAM that an argument holds: 1 to 4 hexadecimal digits, with or without `$`.
pub(crate) fn address_in(text: &[u8]) -> Option<u16>
    ensures { IfSome result (λ address. address < ram_end) }
{
    let address = number(text)?;
    if address < RAM_END {
        Some(address)
    } else {
        None
    }
}

/// Returns the span that an argument holds: an address, `..` and an address that is not lower, or one address.
pub(crate) fn span_in(text: &[u8]) -> Option<Span>
    ensures { IfSome result (λ span. span.end ≤ ram_end) }
{
    let (first, rest) = text.split_at(front_len(text, |c| c != b'.'));
    let last = match rest {
        [] => first,
        [b'.', b'.', last @ ..] => last,
        _ => return None,
    };
    let first = address_in(first)?;
    let last = address_in(last)?;
    if last < first {
        return None;
    }
    Some(Span {
        first,
        end: last + 1,
    })
}
