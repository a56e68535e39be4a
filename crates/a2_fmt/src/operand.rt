//! The text after an operation: its operand and a comment.

ghost use Rattle.std.specs.Prelude.{◌≡◌, ◌≤◌, ◌++◌, length, None, false, IfOk};
ghost use Rattle.a2_syntax.specs.Names.{is_name_byte};
ghost use Rattle.a2_fmt.specs.Operand as operand;

use a2_text::{capital, is_blank};
use std::alloc::{AllocError, Allocator};

// The quote that is open after a byte, given the one that is open before it.
fn quote_after(quote: Option<u8>, c: u8) -> Option<u8>
    ensures { result ≡ operand.quote_after quote c }
{
    match quote {
        None => if c == b'\'' || c == b'"' {
            Some(c)
        } else {
            None
        },
        Some(same) if c == same => None,
        _ => quote,
    }
}

/// Returns the number of bytes before the comment of a text. A comment begins with a `;` outside quotes.
pub(crate) fn comment_at(text: &[u8]) -> usize
    ensures is { result ≡ operand.comment_at None text.now }
    ensures within { result ≤ length text.now }
{
    let mut quote = None;
    let mut rest = text;
    while let Some((c, following)) = rest.split_first() {
        if quote.is_none() && *c == b';' {
            break;
        }
        quote = quote_after(quote, *c);
        rest = following;
    }
    text.len() - rest.len()
}

// Whether a byte can be part of a name or a number.
fn is_run_byte(c: u8) -> bool
    ensures { result ≡ is_name_byte c }
{
    matches!(c, b'0'..=b'9' | b'A'..=b'Z' | b'a'..=b'z' | b'_')
}

// Whether letters after a byte outside quotes become capitals.
fn makes_capital(indexed: bool, raised: bool, c: u8) -> bool
    ensures { result ≡ operand.makes_capital indexed raised c }
{
    c == b'$' || indexed && c == b',' || raised && is_run_byte(c)
}

/// Appends an operand without blanks outside quotes. Digits after `$` become capitals, and, if it is `indexed`, letters after a
/// comma do too.
pub(crate) fn put_tidied<A: Allocator>(
    row: &mut Vec<u8, A>,
    indexed: bool,
    text: &[u8],
) -> Result<(), AllocError>
    ensures { IfOk result (λ _. row.new.items ≡ row.old.items ++ operand.tidied indexed None false text.now) }
{
    let mut quote = None;
    let mut raised = false;
    let mut rest = text;
    while let Some((c, following)) = rest.split_first() {
        if quote.is_some() {
            row.push(*c)?;
            raised = false;
        } else if !is_blank(*c) {
            row.push(if raised { capital(*c) } else { *c })?;
            raised = makes_capital(indexed, raised, *c);
        }
        quote = quote_after(quote, *c);
        rest = following;
    }
    Ok(())
}
