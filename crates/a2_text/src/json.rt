//! Escaping of bytes in JSON strings.

ghost use Rattle.std.specs.Prelude.{◌≡◌};
ghost use Rattle.a2_text.specs.Json as json;

use crate::digits::hex_pair;
use crate::room::append;
use arrayvec::ArrayVec;

/// Returns a byte as it is written in a JSON string (RFC 8259), 1 to 6 characters long. `"` and `\` get a `\` before
/// them. A byte that is not a printable ASCII character is written by its number, as in `\u00C1`. Any other byte is
/// unchanged.
pub fn json_escape(byte: u8) -> ArrayVec<u8, 6>
    ensures { result.items ≡ json.escaped byte }
{
    let mut escape = ArrayVec::new();
    match byte {
        b'"' | b'\\' => append(&mut escape, &[b'\\', byte]),
        0..=0x1F | 0x7F..=0xFF => {
            append(&mut escape, b"\\u00");
            append(&mut escape, &hex_pair(byte));
        }
        _ => escape.push(byte),
    }
    escape
}
