//! The chapters of a lesson, and the script that gives them.

ghost use Rattle.std.specs.Prelude.{◌≡◌, ◌≢◌, ℕ, List, map, IfSome, IfNone, IfOk, IfErr};
ghost use Rattle.a2_text.specs.Lines.{lines};
ghost use Rattle.a2_film.specs.Chapters.{IsNumbered, Tells, AreChapters, FirstOther, IsScriptRefusal};
ghost use Rattle.a2_film.specs.Filmed.{IsCut};
ghost use Rattle.a2_film.specs.declared.chapters.Place.{Place as DeclaredPlace};
ghost use Rattle.a2_film.specs.declared.chapters.ScriptFault.{ScriptFault};

use a2_run::step_limit;
use a2_text::{after_blanks, cut, front_len};
use std::alloc::{AllocError, Allocator};

/// Where a chapter begins.
#[derive(Clone, Copy, Debug, PartialEq, Eq, Drop)]
pub enum Place {
    /// After so many steps of the run.
    Step(u32),
    /// When this line of the source, counted from 1, is first the next one.
    Line(u32),
}

/// A chapter of a lesson about a run.
#[derive(Clone, Copy, Drop)]
pub struct Chapter<'a> {
    pub place: Place,
    /// What the page says there: any bytes.
    pub text: &'a [u8],
}

/// Why a script has no chapters.
#[derive(Clone, Copy, Debug, PartialEq, Eq)]
pub enum ScriptFault {
    /// The line with this number, counted from 1, is not a chapter.
    Line(usize),
    /// There was not enough memory.
    Memory,
}

impl From<AllocError> for ScriptFault {
    ghost use Rattle.std.specs.Prelude.{◌≡◌};
    ghost use Rattle.a2_film.specs.declared.chapters.ScriptFault.TheVariants.{Memory};

    ghost from_gives = { λ _ e. e ≡ Memory };

    fn from(_error: AllocError) -> ScriptFault {
        ScriptFault::Memory
    }
}

// Returns what is before the first blank of a line, and what is after it.
fn split_blank(line: &[u8]) -> Option<(&[u8], &[u8])>
    ensures some { IfSome result (λ (front, following). IsCut line.now front.now following.now) }
    ensures none { IfNone result ((front following : List ℕ) → IsCut line.now front following → ⊥) }
{
    let end = front_len(line, |c| c != b' ');
    if end == line.len() {
        return None;
    }
    Some((&line[..end], &line[end + 1..]))
}

// Returns a number up to 100,000,000, and what is after the blank that ends it.
fn numbered(line: &[u8]) -> Option<(u32, &[u8])>
    ensures some { IfSome result (λ (number, text). IsNumbered line.now number text.now) }
    ensures none { IfNone result ((number : ℕ) (text : List ℕ) → IsNumbered line.now number text → ⊥) }
{
    let (digits, text) = split_blank(line)?;
    let Ok(word) = str::from_utf8(digits) else {
        return None;
    };
    Some((step_limit(word)?, text))
}

// Returns the chapter of a line of a script: a step and a text, or `line`, the number of a line and a text.
fn chapter_in(line: &[u8]) -> Option<Chapter<'_>>
    ensures some { IfSome result (λ chapter. Tells line.now chapter.place chapter.text.now) }
    ensures none { IfNone result ((place : DeclaredPlace) (text : List ℕ) → Tells line.now place text → ⊥) }
{
    match line.strip_prefix(b"line ") {
        Some(rest) => {
            let (number, text) = numbered(rest)?;
            Some(Chapter {
                place: Place::Line(number),
                text,
            })
        }
        None => {
            let (number, text) = numbered(line)?;
            Some(Chapter {
                place: Place::Step(number),
                text,
            })
        }
    }
}

// Returns the chapters in the lines of a script.
fn chapters_in<'a, A: Allocator + Copy>(
    alloc: A,
    lines: &[&'a [u8]],
) -> Result<Vec<Chapter<'a>, A>, ScriptFault>
    ensures meaning { IfOk result (λ chapters. AreChapters (map (λ x. x.now) lines.now) chapters.items) }
    ensures refused { IfErr result (λ fault. fault ≢ ScriptFault.Memory
        → (n : ℕ) × (fault ≡ ScriptFault.Line n) × FirstOther (map (λ x. x.now) lines.now) n) }
{
    let mut chapters = Vec::new(alloc);
    let mut number = 0;
    for line in lines {
        number += 1;
        if after_blanks(*line).is_empty() {
            continue;
        }
        let Some(chapter) = chapter_in(*line) else {
            return Err(ScriptFault::Line(number));
        };
        if chapters.push(chapter).is_err() {
            return Err(ScriptFault::Memory);
        }
    }
    Ok(chapters)
}

/// Returns the chapters of a script, one for each line: `120 TEXT` for step 120, or `line 12 TEXT` for line 12 of the source. The
/// number is up to 100,000,000 in 1 to 9 decimal digits, one blank is before the text, and the text is any bytes. A line of only
/// blanks is skipped. Fails at the first other line, with its number, or if there is not enough memory. This project's profile.
pub fn chapters_of<A: Allocator + Copy>(
    alloc: A,
    script: &[u8],
) -> Result<Vec<Chapter<'_>, A>, ScriptFault>
    ensures meaning { IfOk result (λ chapters. AreChapters (lines script.now) chapters.items) }
    ensures refused { IfErr result (λ fault. fault ≢ ScriptFault.Memory → IsScriptRefusal script.now fault) }
{
    let lines = cut(alloc, script)?;
    chapters_in(alloc, lines.as_slice())
}
