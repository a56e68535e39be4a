//! Parses source texts.

ghost use Rattle.std.specs.Prelude.{◌≡◌, ◌≢◌, ◌≤◌, List, ℕ, map, length, IfOk, IfErr};
ghost use Rattle.std.specs.List.{All};
ghost use Rattle.a2_syntax.specs.Sources.{AreLines, IsFirstBadLine, IsSource, IsSourceError};
ghost use Rattle.a2_syntax.specs.Bare.{BareLine};
ghost use Rattle.a2_syntax.specs.declared.fault.Fault.{Fault};

use crate::fault::Fault;
use crate::limits::lines;
use crate::line::line;
use crate::source::Source;
use std::alloc::Allocator;

// Parses a source text that is already split into lines.
fn parse_lines<'a, A: Allocator + Copy>(alloc: A, texts: &[&'a [u8]]) -> Result<Source<A>, Fault>
    requires few { length texts.now ≤ 4096 }
    requires short { All (λ text. length text.now ≤ 255) texts.now }
    ensures read { IfOk result (λ source. AreLines (map (λ x. x.now) texts.now) source) }
    ensures only { IfOk result (λ source. (others : List BareLine)
        → AreLines (map (λ x. x.now) texts.now) others → others ≡ source) }
    ensures refused { IfErr result (λ fault. fault ≢ Fault.Memory
        → (n : ℕ) × (fault ≡ Fault.Syntax n) × IsFirstBadLine (map (λ x. x.now) texts.now) n) }
{
    let mut parsed = Vec::with_capacity(alloc, texts.len())?;
    let mut pieces: Vec<&'a [u8], A> = Vec::new(alloc);
    let mut n: u16 = 1;
    for text in texts {
        let Some(line) = line(alloc, *text, &mut pieces)? else {
            return Err(Fault::Syntax(n));
        };
        parsed.push(line)?;
        n += 1;
    }
    Ok(Source::of(parsed))
}

/// Parses a source text, which may hold any bytes. The result has one line for each line of the text, in the same
/// order.
///
/// Returns `TooLarge` as described for `lines`. Otherwise returns `Syntax` with the number (from 1) of the first line
/// that does not follow the grammar. Returns `Memory` if memory runs out.
pub fn parse<A: Allocator + Copy>(alloc: A, text: &[u8]) -> Result<Source<A>, Fault>
    ensures read { IfOk result (λ source. IsSource text.now source) }
    ensures only { IfOk result (λ source. (others : List BareLine) → IsSource text.now others → others ≡ source) }
    ensures refused { IfErr result (λ fault. fault ≢ Fault.Memory → IsSourceError text.now fault) }
{
    let texts = lines(alloc, text)?;
    parse_lines(alloc, texts.as_slice())
}

/// A law; the function does nothing. A text that has an error has no list of lines.
pub fn a_text_with_an_error_is_not_a_source()
    ensures { (text : List ℕ) (fault : Fault) (source : List BareLine) → IsSourceError text fault → IsSource text source → ⊥ }
{}

/// A law; the function does nothing. A text has at most one list of lines. This follows from the grammar itself, not
/// only from how `parse` works.
pub fn a_text_has_at_most_one_list_of_lines()
    ensures { (text : List ℕ) (a b : List BareLine) → IsSource text a → IsSource text b → a ≡ b }
{}

/// A law; the function does nothing. A text of any bytes has at most one error, and every text has either an error or
/// a list of lines. So a text is a source exactly if it has no error. The error, if any, is unique: it is either the
/// text's size or its first line that does not follow the grammar.
pub fn a_text_has_at_most_one_error()
    ensures one { (text : List ℕ) (fault other : Fault) → IsSourceError text fault → IsSourceError text other → fault ≡ other }
    ensures either { (text : List ℕ) → ((source : List BareLine) → IsSource text source → ⊥)
        → ((fault : Fault) → IsSourceError text fault → ⊥) → ⊥ }
{}
