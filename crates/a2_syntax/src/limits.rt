//! The limits of a source text.

ghost use Rattle.std.specs.Prelude.{◌≡◌, ◌≢◌, ◌≤◌, length, map, vec_len, IfOk, IfErr, None, Some, MatchOption};
ghost use Rattle.std.specs.List.{All};
ghost use Rattle.a2_text.specs.Lines as cut;
ghost use Rattle.a2_text.specs.FirstError.{first_line_error};
ghost use Rattle.a2_syntax.specs.Limits.{long_line_error, size_error};

use crate::fault::Fault;
use a2_text::cut;
use std::alloc::Allocator;

/// Returns the lines of a text in order, without line ends. Lines end at a line feed, and a carriage return at the
/// end of a line is removed. An empty last line is not counted.
///
/// Returns `TooLarge` in these cases, checked in this order:
///
/// - The text has more than 65,536 bytes (line 0).
/// - It has more than 4,096 lines (line 4,097).
/// - A line has more than 255 bytes (the first such line, counted from 1).
///
/// Returns `Memory` if memory runs out.
pub fn lines<A: Allocator>(alloc: A, text: &[u8]) -> Result<Vec<&[u8], A>, Fault>
    ensures found { IfOk result (λ found. map (λ x. x.now) found.items ≡ cut.lines text.now) }
    ensures few { IfOk result (λ found. vec_len found ≤ 4096) }
    ensures short { IfOk result (λ found. All (λ line. length line.now ≤ 255) found.items) }
    ensures fits { IfOk result (λ _. size_error text.now ≡ None) }
    ensures refused { IfErr result (λ fault. fault ≢ Fault.Memory → size_error text.now ≡ Some fault) }
{
    if text.len() > 65536 {
        return Err(Fault::TooLarge(0));
    }
    let found = cut(alloc, text)?;
    if found.len() > 4096 {
        return Err(Fault::TooLarge(4097));
    }
    match first_long(found.as_slice()) {
        Some(n) => Err(Fault::TooLarge(n)),
        None => Ok(found),
    }
}

// Returns the number of the first line that is too long.
fn first_long(found: &[&[u8]]) -> Option<u16>
    requires { length found.now ≤ 4096 }
    ensures { MatchOption result
        (first_line_error long_line_error 1 (map (λ x. x.now) found.now) ≡ None)
        (λ n. first_line_error long_line_error 1 (map (λ x. x.now) found.now) ≡ Some (Fault.TooLarge n)) }
{
    let mut n = 1;
    for line in found {
        if line.len() > 255 {
            return Some(n);
        }
        n += 1;
    }
    None
}
