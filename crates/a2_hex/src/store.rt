//! Lines that store bytes.

ghost use Rattle.std.specs.Prelude.{◌≡◌, ◌<◌, ◌≤◌, ◌==◌, ℕ, List, [], ◌∷◌, length, drop, option_map, MatchOption, IfSome, IsNone, Some, None};
ghost use Rattle.std.specs.List.{position};
ghost use Rattle.a2_text.specs.Signs.{sign};
ghost use Rattle.a2_text.specs.Words.{words};
ghost use Rattle.a2_hex.specs.ObjectLines.{first_byte_of, hex_bytes, address_before_colon, store_of};

use crate::numbers::{address_of, byte_of};
use a2_text::{after_blanks, first_word};

/// A line that stores bytes, such as `300:A9 C1` or `:20 ED`. This project's profile of the Monitor's lines that change
/// memory, Apple II Reference Manual (1979), chapter 3.
#[derive(Clone, Copy, Debug, PartialEq, Eq)]
pub struct StoreLine<'a> {
    /// The address of the first byte, if the line gives it.
    pub address: Option<u16>,
    /// The text of the bytes, which `first_byte` reads.
    pub bytes: &'a [u8],
    /// The number of bytes.
    pub count: usize,
}

/// Returns the first byte of `text`, which holds bytes of 1 or 2 hexadecimal digits separated by blanks, and the text
/// after it, which is shorter. Returns `None` if the text is blank or its first word is not a byte.
#[tactic(auto, unfolding(crate::specs::ObjectLines::hex_bytes))]
pub fn first_byte(text: &[u8]) -> Option<(u8, &[u8])>
    ensures bytes { MatchOption result (IfSome (hex_bytes text.now) (λ bytes. bytes ≡ []))
        (λ (byte, following). hex_bytes text.now ≡ option_map (λ others. byte ∷ others) (hex_bytes following.now)) }
    ensures first { option_map (λ (byte, _). byte) result ≡ first_byte_of (words text.now) }
    ensures following { IfSome result (λ (_, following). words following.now ≡ drop 1 (words text.now)) }
    ensures shorter { IfSome result (λ (_, following). length following.now < length text.now) }
{
    let (word, following) = first_word(text)?;
    let byte = byte_of(word)?;
    Some((byte, following))
}

/// Returns how many bytes `text` has, 0 if it is blank. Returns `None` if one of its words, separated by blanks, is not
/// a byte of 1 or 2 hexadecimal digits.
#[tactic(auto, unfolding(crate::specs::ObjectLines::hex_bytes))]
pub fn count_bytes(text: &[u8]) -> Option<usize>
    ensures { result ≡ option_map length (hex_bytes text.now) }
{
    let mut count = 0;
    let mut rest = text;
    while let Some((word, following)) = first_word(rest) {
        byte_of(word)?;
        count += 1;
        rest = following;
    }
    Some(count)
}

// Returns the position of the first `:`.
fn colon(text: &[u8]) -> Option<usize>
    ensures is { result ≡ position (λ c. c == sign ":") text.now }
    ensures within { IfSome result (λ i. i < length text.now) }
{
    text.iter().position(|c| *c == b':')
}

// Returns `Some` of the address before `:`, which is `None` if nothing is there. Returns `None` if it is not an
// address.
#[tactic(auto, unfolding(crate::specs::ObjectLines::address_before_colon))]
fn address_before_colon(front: &[u8]) -> Option<Option<u16>>
    ensures { result ≡ address_before_colon front.now }
{
    let digits = after_blanks(front);
    if digits.is_empty() {
        return Some(None);
    }
    address_of(digits).map(Some)
}

/// Returns what the line in `text` stores: an optional address of 1 to 4 hexadecimal digits, `:`, and bytes of 1 or 2
/// digits separated by blanks. Other blanks are allowed only at both ends and after `:`. Returns `None` if the line has
/// another form.
#[tactic(auto, using(crate::proofs::StoreLaws::store_of_position, std::proofs::lemmas::List::take_rest))]
pub fn store_line(text: &[u8]) -> Option<StoreLine<'_>>
    ensures none { IsNone result → store_of text.now ≡ None }
    ensures line { IfSome result (λ line.
        store_of text.now ≡ option_map (λ bytes. record { address = line.address; bytes = bytes }) (hex_bytes line.bytes.now)) }
    ensures count { IfSome result (λ line. option_map length (hex_bytes line.bytes.now) ≡ Some line.count) }
{
    let end = colon(text)?;
    let bytes = &text[end + 1..];
    let address = address_before_colon(&text[..end])?;
    let count = count_bytes(bytes)?;
    Some(StoreLine {
        address,
        bytes,
        count,
    })
}
