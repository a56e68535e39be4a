//! Finds the lines of a text that are not in the grammar.

ghost use Rattle.std.specs.Prelude.{◌≡◌, ◌≢◌, ◌≤◌, ◌++◌, ◌∷◌, [], List, ℕ, true, false, length, map, IfOk};
ghost use Rattle.std.specs.List.{All};
ghost use Rattle.a2_syntax.specs.Bare.{BareLine};
ghost use Rattle.a2_syntax.specs.Grammar.{IsLine};
ghost use Rattle.a2_syntax.specs.declared.fault.Fault.{Fault};
ghost use Rattle.a2_check.specs.Unread.{AreUnread};

use a2_asm::refused;
use a2_syntax::{Fault, parse};
use a2_text::append;
use arrayvec::ArrayVec;
use std::alloc::{AllocError, Allocator};

// Returns a text that contains just this line. It ends with a carriage return and a line feed, so that a carriage return at the
// end of the line itself stays part of the line.
fn ended(line: &[u8]) -> ArrayVec<u8, 257>
    requires { length line.now ≤ 255 }
    ensures { result.items ≡ line.now ++ 13 ∷ 10 ∷ [] }
{
    let mut text = ArrayVec::new();
    append(&mut text, line);
    append(&mut text, b"\r\n");
    text
}

// Whether a line is in the grammar.
fn is_read<A: Allocator + Copy>(alloc: A, line: &[u8]) -> Result<bool, AllocError>
    requires short { length line.now ≤ 255 }
    requires one { All (λ c. c ≢ 10) line.now }
    ensures read { IfOk result (λ is. is ≡ true → (read : BareLine) × IsLine line.now read) }
    ensures unread { IfOk result (λ is. is ≡ false → (read : BareLine) → IsLine line.now read → ⊥) }
{
    match parse(alloc, ended(line).as_slice()) {
        Ok(_) => Ok(true),
        Err(fault) => {
            refused(fault)?;
            Ok(false)
        }
    }
}

// Returns a syntax error for each line that is not in the grammar, in order.
pub(crate) fn unread<A: Allocator + Copy>(
    alloc: A,
    texts: &[&[u8]],
) -> Result<Vec<Fault, A>, AllocError>
    requires few { length texts.now ≤ 4096 }
    requires short { All (λ text. length text.now ≤ 255) texts.now }
    requires cut { All (λ text. All (λ c. c ≢ 10) text.now) texts.now }
    ensures { IfOk result (λ faults. (numbers : List ℕ) × (faults.items ≡ map Fault.Syntax numbers)
        × AreUnread (map (λ x. x.now) texts.now) numbers) }
{
    let mut faults = Vec::new(alloc);
    let mut n: u16 = 1;
    for text in texts {
        if !is_read(alloc, *text)? {
            faults.push(Fault::Syntax(n))?;
        }
        n += 1;
    }
    Ok(faults)
}
