//! Lines of a listing.

ghost use Rattle.std.specs.Prelude.{◌≡◌, ℕ, ◌+◌, ◌-◌, ◌*◌, ◌<◌, ◌≤◌, true, [], ◌∷◌, ◌++◌, length, map, replicate};
ghost use Rattle.std.specs.List.{join_with_byte};
ghost use Rattle.arrayvec.specs.ArrayString.{array_string_len};
ghost use Rattle.a2_text.specs.Digits.{hex_pair as hex_pair_of, hex_word as hex_word_of};
ghost use Rattle.a2_opcode.specs.Encoding.{is_operand_value};
ghost use Rattle.a2_opcode.specs.Listing.{operand_column, columns_before, listing, listing_length};

use crate::{Listed, Mode, decode};
use a2_text::{hex_pair, hex_word};
use arrayvec::ArrayString;

// Appends an ASCII character.
fn put(text: &mut ArrayString<32>, byte: u8)
    requires ascii { byte < 128 }
    requires room { array_string_len text.old < 32 }
    ensures { text.new.bytes ≡ text.old.bytes ++ byte ∷ [] }
{
    text.push(char::from(byte));
}

// Appends the digits of a byte.
fn put_pair(text: &mut ArrayString<32>, byte: u8)
    requires { array_string_len text.old + 2 ≤ 32 }
    ensures { text.new.bytes ≡ text.old.bytes ++ hex_pair_of byte }
{
    let [high, low] = hex_pair(byte);
    put(text, high);
    put(text, low);
}

// Appends the digits of an address.
fn put_word(text: &mut ArrayString<32>, word: u16)
    requires { array_string_len text.old + 4 ≤ 32 }
    ensures bytes { text.new.bytes ≡ text.old.bytes ++ hex_word_of word }
    ensures length { array_string_len text.new ≡ array_string_len text.old + 4 }
{
    put_pair(text, (word / 256) as u8);
    put_pair(text, (word % 256) as u8);
}

// Appends blanks.
fn put_blanks(text: &mut ArrayString<32>, count: usize)
    requires { array_string_len text.old + count ≤ 32 }
    ensures bytes { text.new.bytes ≡ text.old.bytes ++ replicate count 32 }
    ensures length { array_string_len text.new ≡ array_string_len text.old + count }
{
    for _ in 0..count {
        text.push_str(" ");
    }
}

// Appends bytes with one blank between.
fn put_spaced(text: &mut ArrayString<32>, bytes: &[u8])
    requires { array_string_len text.old + 3 * length bytes.now ≤ 32 }
    ensures bytes { text.new.bytes ≡ text.old.bytes ++ join_with_byte 32 (map hex_pair_of bytes.now) }
    ensures length { array_string_len text.new ≡ array_string_len text.old + (3 * length bytes.now - 1) }
{
    let Some((first, rest)) = bytes.split_first() else {
        return;
    };
    put_pair(text, *first);
    for byte in rest {
        text.push_str(" ");
        put_pair(text, *byte);
    }
}

// Appends the columns before the mnemonic, 19 characters.
fn put_columns(text: &mut ArrayString<32>, address: u16, bytes: &[u8])
    requires empty { text.old.bytes ≡ [] }
    requires some { 1 ≤ length bytes.now }
    requires few { length bytes.now ≤ 3 }
    ensures columns { text.new.bytes ≡ columns_before address bytes.now }
    ensures length { array_string_len text.new ≡ 19 }
{
    put_word(text, address);
    text.push_str("-   ");
    put_spaced(text, bytes);
    put_blanks(text, 16 - text.len());
    text.push_str("   ");
}

// Appends a number between two texts.
fn put_byte_between(text: &mut ArrayString<32>, before: &str, value: u16, after: &str)
    requires small { value < 256 }
    requires room { array_string_len text.old + length before.now + 2 + length after.now ≤ 32 }
    ensures { text.new.bytes ≡ text.old.bytes ++ before.now ++ hex_pair_of value ++ after.now }
{
    text.push_str(before);
    put_pair(text, value as u8);
    text.push_str(after);
}

fn put_word_between(text: &mut ArrayString<32>, before: &str, value: u16, after: &str)
    requires room { array_string_len text.old + length before.now + 4 + length after.now ≤ 32 }
    ensures { text.new.bytes ≡ text.old.bytes ++ before.now ++ hex_word_of value ++ after.now }
{
    text.push_str(before);
    put_word(text, value);
    text.push_str(after);
}

// Appends three blanks and the operand, if there is one.
fn put_operand(text: &mut ArrayString<32>, mode: Mode, value: u16)
    requires fits { (at : ℕ) × (is_operand_value mode at value ≡ true) }
    requires room { array_string_len text.old + 10 ≤ 32 }
    ensures { text.new.bytes ≡ text.old.bytes ++ operand_column mode value }
{
    match mode {
        Mode::Implied => {}
        Mode::Accumulator => text.push_str("   A"),
        Mode::Immediate => put_byte_between(text, "   #$", value, ""),
        Mode::ZeroPage => put_byte_between(text, "   $", value, ""),
        Mode::ZeroPageX => put_byte_between(text, "   $", value, ",X"),
        Mode::ZeroPageY => put_byte_between(text, "   $", value, ",Y"),
        Mode::Absolute | Mode::Relative => put_word_between(text, "   $", value, ""),
        Mode::AbsoluteX => put_word_between(text, "   $", value, ",X"),
        Mode::AbsoluteY => put_word_between(text, "   $", value, ",Y"),
        Mode::IndexedIndirect => put_byte_between(text, "   ($", value, ",X)"),
        Mode::IndirectIndexed => put_byte_between(text, "   ($", value, "),Y"),
        Mode::Indirect => put_word_between(text, "   ($", value, ")"),
    }
}

/// Returns the line of a listing for the bytes at an address, without a line feed, and how many of the bytes it shows.
///
/// The line begins with the four digits of the address, `-` and three blanks. The bytes of the instruction follow,
/// separated by one blank and padded with blanks to eight characters. Then come three blanks, the mnemonic and, if
/// there is an operand, three blanks and the operand. The operand of a branch is its target. If the bytes do not begin
/// with a complete documented instruction, the line shows the first byte and `???`.
#[tactic(auto, unfolding(crate::specs::Listing::listing, crate::specs::Listing::listing_length))]
pub fn list_line(bytes: &[u8], address: u16) -> Listed
    requires { 0 < length bytes.now }
    ensures text { result.text.bytes ≡ listing bytes.now address }
    ensures length { result.length ≡ listing_length bytes.now address }
{
    let mut text = ArrayString::new();
    let Some(instr) = decode(bytes, address) else {
        put_columns(&mut text, address, &bytes[..1]);
        text.push_str("???");
        return Listed { text, length: 1 };
    };
    let length = instr.mode.length();
    put_columns(&mut text, address, &bytes[..usize::from(length)]);
    text.push_str(instr.mnemonic.name());
    put_operand(&mut text, instr.mode, instr.value);
    Listed { text, length }
}
