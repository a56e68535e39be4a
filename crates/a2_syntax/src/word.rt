//! Names, and the bytes they may contain.

ghost use Rattle.std.specs.Prelude.{◌≡◌};
ghost use Rattle.std.specs.List.{list_all};
ghost use Rattle.a2_syntax.specs.Names.{begins_name, is_name_byte, is_name};

use a2_text::capital;

fn starts_name(c: u8) -> bool
    ensures { result ≡ begins_name c }
{
    matches!(c, b'A'..=b'Z' | b'a'..=b'z' | b'_')
}

// Returns whether a byte may appear in a name.
pub(crate) fn in_name(c: u8) -> bool
    ensures { result ≡ is_name_byte c }
{
    matches!(c, b'0'..=b'9') || starts_name(c)
}

fn all_in_name(bytes: &[u8]) -> bool
    ensures { result ≡ list_all is_name_byte bytes.now }
{
    bytes.iter().all(|c| in_name(*c))
}

/// Returns whether the bytes are a name: a letter or `_`, then letters, digits and `_`. A name has at most 32 bytes
/// and is not just `A` or `a`.
pub fn is_name(bytes: &[u8]) -> bool
    ensures { result ≡ is_name bytes.now }
{
    let Some((first, others)) = bytes.split_first() else {
        return false;
    };
    starts_name(*first)
        && all_in_name(others)
        && others.len() <= 31
        && !(others.is_empty() && capital(*first) == b'A')
}
