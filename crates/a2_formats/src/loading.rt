//! Loading lines that store bytes.

ghost use Rattle.std.specs.Prelude.{◌≡◌, ◌≢◌, ◌+◌, ◌<◌, ◌≤◌, ◌==◌, List, ℕ, [], ◌∷◌, length, false, true, Some, None, Ok, Err, IfOk, IfErr, IfSome, MatchOption, option_map, if◌then◌else◌};
ghost use Rattle.a2_hex.specs.Images.{held, overlaid};
ghost use Rattle.a2_hex.specs.ObjectLines.{hex_bytes, lies_outside, address_before_colon, both, store_of, after_line, image_of};
ghost use Rattle.a2_hex.specs.declared.fault.HexFault.TheVariants.{Memory};
ghost use Rattle.std.specs.List.{position};
ghost use Rattle.a2_text.specs.Signs.{sign};
ghost use Rattle.a2_formats.specs.Digits.{ends_word};

use crate::digits::digit_value;
use a2_hex::{HexFault, Image, RAM_END, address_of, first_byte};
use a2_text::{after_blanks, cut, first_word};
use std::alloc::{AllocError, Global};

// Returns whether nothing or a space is at the front of a text.
fn ends_word(text: &[u8]) -> bool
    ensures { result ≡ ends_word text.now }
{
    match text {
        [c, ..] => *c == b' ',
        [] => true,
    }
}

// Returns a text without one space at its front.
fn after_space(text: &[u8]) -> &[u8]
    ensures bytes { hex_bytes result.now ≡ hex_bytes text.now }
    ensures shorter { length result.now ≤ length text.now }
{
    let [c, following @ ..] = text else {
        return text;
    };
    if *c == b' ' { following } else { text }
}

// Returns the byte of two digits at the front of a text and the text after them, if a space or nothing follows them.
fn pair_at(text: &[u8]) -> Option<(u8, &[u8])>
    ensures bytes { IfSome result (λ (byte, following). hex_bytes text.now ≡ option_map (λ others. byte ∷ others) (hex_bytes following.now)) }
    ensures shorter { IfSome result (λ (_, following). length following.now < length text.now) }
{
    let [high, low, following @ ..] = text else {
        return None;
    };
    let (high, low) = (digit_value(*high), digit_value(*low));
    if (high > 15) | (low > 15) | !ends_word(following) {
        return None;
    }
    Some((high * 16 + low, following))
}

// Returns the first byte of a text and the text after it, as `first_byte` of `a2_hex` does.
fn next_byte(text: &[u8]) -> Option<(u8, &[u8])>
    ensures bytes { MatchOption result (IfSome (hex_bytes text.now) (λ bytes. bytes ≡ []))
        (λ (byte, following). hex_bytes text.now ≡ option_map (λ others. byte ∷ others) (hex_bytes following.now)) }
    ensures shorter { IfSome result (λ (_, following). length following.now < length text.now) }
{
    match pair_at(after_space(text)) {
        Some(found) => Some(found),
        None => first_byte(text),
    }
}

// Makes `bytes` the bytes in a text. Returns whether the text has nothing but bytes.
fn read_words(bytes: &mut Vec<u8>, text: &[u8]) -> Result<bool, AllocError>
    ensures { IfOk result (λ is_whole. hex_bytes text.now ≡ (if is_whole then Some bytes.new.items else None)) }
{
    bytes.clear();
    let mut rest = text;
    while let Some((byte, following)) = next_byte(rest) {
        bytes.push(byte)?;
        rest = following;
    }
    match first_word(rest) {
        Some(_) => Ok(false),
        None => Ok(true),
    }
}

// Returns the position of the first `:`.
fn colon(text: &[u8]) -> Option<usize>
    ensures is { result ≡ position (λ c. c == sign ":") text.now }
    ensures within { IfSome result (λ i. i < length text.now) }
{
    text.iter().position(|c| *c == b':')
}

// Returns `Some` of the address before `:`, which is `None` if nothing is there. Returns `None` if it is not an address.
#[tactic(auto, unfolding(a2_hex::specs::ObjectLines::address_before_colon))]
fn address_before_colon(front: &[u8]) -> Option<Option<u16>>
    ensures { result ≡ address_before_colon front.now }
{
    let digits = after_blanks(front);
    if digits.is_empty() {
        return Some(None);
    }
    address_of(digits).map(Some)
}

// Makes `bytes` those that a line stores, and returns `Some` of their address if the line gives it. Returns `None` if it is no such line.
#[tactic(auto, using(crate::proofs::LoadingLaws::store_of_position, std::proofs::lemmas::List::take_rest))]
fn read_store(bytes: &mut Vec<u8>, line: &[u8]) -> Result<Option<Option<u16>>, AllocError>
    ensures { IfOk result (λ address. store_of line.now ≡ both address (Some bytes.new.items)) }
{
    let Some(end) = colon(line) else {
        return Ok(None);
    };
    let Some(address) = address_before_colon(&line[..end]) else {
        return Ok(None);
    };
    if read_words(bytes, &line[end + 1..])? {
        Ok(Some(address))
    } else {
        Ok(None)
    }
}

// Puts bytes at the addresses from this one upwards, and returns the address after them.
fn put_bytes(image: &mut Image, address: u16, bytes: &[u8]) -> u16
    requires { lies_outside address (length bytes.now) ≡ false }
    ensures image { held image.new ≡ overlaid (held image.old) address bytes.now }
    ensures next { result ≡ address + length bytes.now }
{
    let mut next = address;
    for byte in bytes {
        image.set(next, *byte);
        next += 1;
    }
    next
}

// Loads one line, and returns the next address. `bytes` is room for those of the line.
fn load_line(
    image: &mut Image,
    bytes: &mut Vec<u8>,
    next: Option<u16>,
    number: usize,
    line: &[u8],
) -> Result<Option<u16>, HexFault>
    ensures loaded { IfOk result (λ after.
        after_line number (record { image = held image.old; next = next }) line.now
        ≡ Ok (record { image = held image.new; next = after })) }
    ensures refused { IfErr result (λ fault. fault ≢ Memory → after_line number (record { image = held image.old; next = next }) line.now ≡ Err fault) }
{
    let Some(_) = first_word(line) else {
        return Ok(next);
    };
    let Some(given) = read_store(bytes, line)? else {
        return Err(HexFault::Digit(number));
    };
    let Some(address) = given.or(next) else {
        return Err(HexFault::NoAddress(number));
    };
    if bytes.len() > usize::from(RAM_END.saturating_sub(address)) {
        return Err(HexFault::Outside(number));
    }
    Ok(Some(put_bytes(image, address, bytes.as_slice())))
}

// Returns the image that lines load, as `load_lines` of `a2_hex` does: that one reads the bytes of each line twice, word by word.
pub(crate) fn load_lines(alloc: Global, text: &[u8]) -> Result<Image, HexFault>
    ensures loaded { IfOk result (λ image. image_of text.now ≡ Ok (held image)) }
    ensures refused { IfErr result (λ fault. fault ≢ Memory → image_of text.now ≡ Err fault) }
{
    let lines = cut(alloc, text)?;
    let mut image = Image::new(alloc)?;
    let mut bytes = Vec::new(alloc);
    let mut next = None;
    for (i, line) in lines.iter().enumerate() {
        next = load_line(&mut image, &mut bytes, next, i + 1, line)?;
    }
    Ok(image)
}
