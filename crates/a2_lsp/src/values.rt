//! The values of a document's names and numbers.

use crate::page::Page;
use a2_check::{Verdict, verdict_of};
use a2_text::{hex_pair, hex_word, number_in};
use bumpalo::Bump;
use std::alloc::AllocError;

/// Returns the value of a name in a document without errors.
pub(crate) fn value_of(page: &Page<'_>, name: &[u8]) -> Result<Option<u16>, AllocError> {
    let arena = Bump::new(page.alloc);
    match (verdict_of(&arena, page.text)?, std::str::from_utf8(name)) {
        (Verdict::Accepted(_, program), Ok(name)) => Ok(program.name(name)),
        _ => Ok(None),
    }
}

/// Returns the value of a number as a source has it: decimal, or hexadecimal after `$`, or binary after `%`.
pub(crate) fn number_of(word: &[u8]) -> Option<u16> {
    match word {
        [b'$', digits @ ..] => number_in(16, 4, digits),
        [b'%', digits @ ..] => number_in(2, 16, digits),
        _ => number_in(10, 5, word),
    }
}

/// An address as the topics of the manual name it, `$24` or `$FDED`.
#[derive(Clone, Copy)]
pub(crate) struct AddressName {
    digits: [u8; 5],
    is_short: bool,
}

impl AddressName {
    /// Returns the name of an address.
    pub(crate) fn of(address: u16) -> AddressName {
        let [a, b, c, d] = hex_word(address);
        if address < 256 {
            AddressName {
                digits: [b'$', c, d, b' ', b' '],
                is_short: true,
            }
        } else {
            AddressName {
                digits: [b'$', a, b, c, d],
                is_short: false,
            }
        }
    }

    /// Returns its text.
    pub(crate) fn as_slice(&self) -> &[u8] {
        if self.is_short {
            &self.digits[..3]
        } else {
            &self.digits
        }
    }
}

/// Returns the two hexadecimal digits of the low byte of a number.
pub(crate) fn low_digits(value: u16) -> [u8; 2] {
    hex_pair(value.to_le_bytes()[0])
}
