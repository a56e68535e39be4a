//! Guessing what the bytes hold that no code reaches.

use crate::labels::{Labels, word_at};
use crate::marks::{Kind, Mark, Marks};
use a2_hex::{Image, RAM_END};
use std::alloc::Allocator;

// The fewest words that are a table, zeros that are a gap, and characters that are a text.
const FEWEST_WORDS: u16 = 2;

const FEWEST_ZEROS: u16 = 8;

const FEWEST_CHARACTERS: u16 = 4;

/// The quotes around a character in a source: none if it cannot be written so.
#[derive(Clone, Copy, Debug, PartialEq, Eq)]
pub(crate) enum Quotes {
    Neither,
    /// `'`, for a byte with bit 7 clear.
    Single,
    /// `"`, for a byte with bit 7 set.
    Double,
}

/// Returns the quotes around a byte as a character.
pub(crate) fn quotes_of(byte: u8) -> Quotes {
    match byte {
        b'\'' => Quotes::Neither,
        b' '..=b'~' => Quotes::Single,
        0xA2 => Quotes::Neither,
        0xA0..=0xFE => Quotes::Double,
        _ => Quotes::Neither,
    }
}

// Returns whether a byte of which nothing is known is zero.
fn is_zero<A: Allocator>(image: &Image<A>, marks: &Marks<A>, address: u16) -> bool {
    marks.at(address) == Mark::Unknown && image.get(address) == Some(0)
}

// Returns whether a byte of which nothing is known is a character with these quotes.
fn is_character<A: Allocator>(
    image: &Image<A>,
    marks: &Marks<A>,
    address: u16,
    quotes: Quotes,
) -> bool {
    match image.get(address) {
        Some(byte) => marks.at(address) == Mark::Unknown && quotes_of(byte) == quotes,
        None => false,
    }
}

// Returns whether two bytes of which nothing is known are the address of an instruction or of a place that is used.
fn is_place<A: Allocator>(
    image: &Image<A>,
    marks: &Marks<A>,
    labels: &Labels<'_, A>,
    address: u16,
) -> bool {
    if marks.at(address) != Mark::Unknown || marks.at(address.wrapping_add(1)) != Mark::Unknown {
        return false;
    }
    match word_at(image, address) {
        Some(word) => {
            marks.at(word) == Mark::First
                || (labels.is_named(word) && marks.at(word) != Mark::Empty)
        }
        None => false,
    }
}

// Returns how many zeros are at an address and after it.
fn count_zeros<A: Allocator>(image: &Image<A>, marks: &Marks<A>, first: u16) -> u16 {
    for address in first..RAM_END {
        if !is_zero(image, marks, address) {
            return address.saturating_sub(first);
        }
    }
    RAM_END.saturating_sub(first)
}

// Returns how many characters with these quotes are at an address and after it.
fn count_characters<A: Allocator>(
    image: &Image<A>,
    marks: &Marks<A>,
    first: u16,
    quotes: Quotes,
) -> u16 {
    for address in first..RAM_END {
        if !is_character(image, marks, address, quotes) {
            return address.saturating_sub(first);
        }
    }
    RAM_END.saturating_sub(first)
}

// Returns how many bytes of words are at an address and after it, each the address of a known place.
fn count_words<A: Allocator>(
    image: &Image<A>,
    marks: &Marks<A>,
    labels: &Labels<'_, A>,
    first: u16,
) -> u16 {
    for count in 0..256u16 {
        let address = first.wrapping_add(count.saturating_mul(2));
        if !is_place(image, marks, labels, address) {
            return count.saturating_mul(2);
        }
    }
    512
}

// Returns how many characters of one kind are at an address and after it.
fn count_text<A: Allocator>(image: &Image<A>, marks: &Marks<A>, first: u16) -> u16 {
    let Some(byte) = image.get(first) else {
        return 0;
    };
    match quotes_of(byte) {
        Quotes::Neither => 0,
        quotes => count_characters(image, marks, first, quotes),
    }
}

// Returns what is at an address of which nothing is known, and how many bytes it has.
fn guess_at<A: Allocator>(
    image: &Image<A>,
    marks: &Marks<A>,
    labels: &Labels<'_, A>,
    address: u16,
) -> (Kind, u16) {
    let zeros = count_zeros(image, marks, address);
    if zeros >= FEWEST_ZEROS {
        return (Kind::Zeros, zeros);
    }
    let words = count_words(image, marks, labels, address);
    if words >= FEWEST_WORDS.saturating_mul(2) {
        return (Kind::Words, words);
    }
    let characters = count_text(image, marks, address);
    if characters >= FEWEST_CHARACTERS {
        return (Kind::Text, characters);
    }
    (Kind::Bytes, 1)
}

/// Guesses what the bytes hold of which nothing is known.
pub(crate) fn guess<A: Allocator>(image: &Image<A>, marks: &mut Marks<A>, labels: &Labels<'_, A>) {
    let mut next = 0u16;
    for address in 0..RAM_END {
        if address >= next && marks.at(address) == Mark::Unknown {
            let (kind, count) = guess_at(image, marks, labels, address);
            next = address.saturating_add(count);
            if kind == Kind::Words {
                marks.fill_words(address, next, Mark::Guessed(kind));
            } else {
                marks.fill(address, next, Mark::Guessed(kind));
            }
        }
    }
}
