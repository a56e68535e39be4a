//! Words that set the byte of a place, such as `A=E9` or `A=#233`.

ghost use Rattle.std.specs.Prelude.{◌≡◌, ◌⊎◌, ◌<◌, length, IfOk, IfSome};
ghost use Rattle.a2_tests.specs.Settings as setting;

use a2_text::{after_blanks, front_len, is_blank, number_in};
use std::alloc::{AllocError, Allocator};

// Returns the number that `digits` mean in a base, if it is below 256.
fn small_number(base: u32, most: usize, digits: &[u8]) -> Option<u16>
    requires { (base ≡ 2) ⊎ ((base ≡ 10) ⊎ (base ≡ 16)) }
    ensures { result ≡ setting.small_number base most digits.now }
{
    match number_in(base, most, digits) {
        Some(number) if number < 256 => Some(number),
        _ => None,
    }
}

// Returns the byte that an operand without its `#` means.
fn operand_byte(text: &[u8]) -> Option<u16>
    ensures { result ≡ setting.operand_byte text.now }
{
    match text {
        [b'$', digits @ ..] => small_number(16, 2, digits),
        [b'%', digits @ ..] => small_number(2, 8, digits),
        _ => small_number(10, 3, text),
    }
}

/// Returns the byte that a word means: one or two hexadecimal digits, or a number as an operand has it, such as `#10`, `$0A` or
/// `%1010`. Only the decimal number needs its `#`.
pub(crate) fn byte_of(word: &[u8]) -> Option<u16>
    ensures { result ≡ setting.byte_of word.now }
{
    match word {
        [b'#', operand @ ..] => operand_byte(operand),
        [b'$' | b'%', ..] => operand_byte(word),
        _ => small_number(16, 2, word),
    }
}

/// Returns what is missing before a word that means a byte, if it is to be an operand.
pub(crate) fn operand_mark(word: &[u8]) -> &[u8]
    ensures { result.now ≡ setting.operand_mark word.now }
{
    match word {
        [b'#', ..] => b"",
        [b'$' | b'%', ..] => b"#",
        _ => b"#$",
    }
}

/// Returns the part of a word before its first `=`, or all of it if it has none.
pub(crate) fn name_in(word: &[u8]) -> &[u8]
    ensures { result.now ≡ setting.name_in word.now }
{
    &word[..front_len(word, |c| c != b'=')]
}

/// Returns the part of a word after its first `=`, or nothing if it has none.
pub(crate) fn digits_in(word: &[u8]) -> &[u8]
    ensures { result.now ≡ setting.digits_in word.now }
{
    let length = front_len(word, |c| c != b'=');
    if length < word.len() {
        word.split_at(length + 1).1
    } else {
        &[]
    }
}

// Returns whether a text has `=` after its blanks.
fn leads_to_equals(text: &[u8]) -> bool
    ensures { result ≡ setting.leads_to_equals text.now }
{
    matches!(after_blanks(text), [b'=', ..])
}

/// Returns a text without the blanks around each `=`, so that each of its words sets a byte.
pub(crate) fn tight<A: Allocator + Copy>(alloc: A, text: &[u8]) -> Result<Vec<u8, A>, AllocError>
    ensures { IfOk result (λ joined. joined.items ≡ setting.tight text.now) }
{
    let mut joined = Vec::new(alloc);
    let mut rest = text;
    let mut is_after = false;
    while let [c, following @ ..] = rest {
        if !(is_blank(*c) && (is_after || leads_to_equals(following))) {
            joined.push(*c)?;
            is_after = *c == b'=';
        }
        rest = following;
    }
    Ok(joined)
}

/// A setting at the front of a text, with or without blanks around its `=`.
#[derive(Clone, Copy)]
pub(crate) struct Setting<'a> {
    pub name: &'a [u8],
    /// What follows the `=`. It begins with the byte.
    pub value: &'a [u8],
}

/// Returns the setting at the front of a text, or `None` if no `=` follows the name there.
pub(crate) fn setting_in<'a>(text: &'a [u8]) -> Option<Setting<'a>>
    ensures shorter { IfSome result (λ found. length found.value.now < length text.now) }
{
    let here = after_blanks(text);
    let (name, rest) = here.split_at(front_len(here, |c| c != b'=' && !is_blank(c)));
    match after_blanks(rest) {
        [b'=', value @ ..] => Some(Setting { name, value }),
        _ => None,
    }
}
