//! The pages that `test` writes: one for each solution.

ghost use Rattle.std.specs.Prelude.{◌≡◌, OnErr};

use crate::films::{Filmed, put_end, put_films};
use a2_host::Desk;
use a2_run::RunFault;
use a2_stream::Output;
use a2_tests::{Case, Format, Found, Solution, Totals, put_head, put_solution};
use a2lab_commands::{is_input, settled};
use std::alloc::{AllocError, Global};

/// A solution that was read, and what was found of it.
#[derive(Drop)]
pub struct Examined<'a, 'b> {
    /// The name of its file.
    pub name: &'b str,
    /// Its text, or nothing if it could not be read.
    pub source: &'b [u8],
    /// The cases by which it was judged.
    pub cases: &'b [Case<'a, Global>],
    pub found: &'b Found<'b>,
}

impl<'a, 'b> Examined<'a, 'b> {
    /// Writes its part of a report, in which it has this number. A page has the films of the cases that failed.
    pub fn put<W: Output>(
        &self,
        alloc: Global,
        format: Format,
        number: u32,
        output: &mut W,
    ) -> Result<(), RunFault> {
        let solution = Solution {
            number,
            name: self.name.as_bytes(),
            cases: self.cases,
            found: self.found,
        };
        put_solution(alloc, format, &solution, output)?;
        if let (Format::Html, Found::Judged(verdicts)) = (format, self.found) {
            let filmed = Filmed {
                name: self.name,
                solution: number,
                source: self.source,
            };
            put_films(alloc, &filmed, self.cases, *verdicts, output)?;
        }
        Ok(())
    }

    // Writes a page with this solution alone.
    fn put_page<W: Output>(&self, alloc: Global, output: &mut W) -> Result<(), RunFault> {
        put_head(Format::Html, self.cases, output)?;
        self.put(alloc, Format::Html, 0, output)?;
        let mut totals = Totals::new();
        totals.count(self.found);
        put_end(alloc, Format::Html, &totals, output)
    }

    /// Writes a page with this solution alone to the file `page`, which is replaced whole or not at all. Fails if a write fails or there is
    /// no memory.
    pub fn page_into<D: Desk>(
        &self,
        alloc: Global,
        page: &str,
        desk: &mut D,
    ) -> Result<(), RunFault>
        ensures { OnErr result (D.files desk.new ≡ D.files desk.old) }
    {
        let mut draft = desk.begin(page)?;
        let answer = self.put_page(alloc, &mut draft);
        settled(page, draft, answer, desk)
    }
}

// Returns the name of a solution's file, without its folder and its ending.
fn stem_of(solution: &str) -> &str {
    if is_input(solution) {
        return "standard-input";
    }
    let name = match solution.rsplit_once('/') {
        Some((_, name)) => name,
        None => solution,
    };
    match name.rsplit_once('.') {
        Some((stem, _)) if !stem.is_empty() => stem,
        _ => name,
    }
}

/// Returns the name of the page of a solution in a folder: that of the solution's file, with the ending `.html`. `_` replaces control
/// characters.
pub fn page_of(alloc: Global, folder: &str, solution: &str) -> Result<Vec<u8>, AllocError> {
    let mut page = Vec::from_slice(alloc, folder.as_bytes())?;
    page.push(b'/')?;
    for c in stem_of(solution).as_bytes() {
        let safe = match *c {
            0..=31 | 127 => b'_',
            _ => *c,
        };
        page.push(safe)?;
    }
    page.extend_from_slice(b".html")?;
    Ok(page)
}

/// Returns the first two of these solutions that have the same page, if there are two.
pub fn same_page<'a>(
    alloc: Global,
    solutions: &[&'a str],
) -> Result<Option<(&'a str, &'a str)>, AllocError> {
    for (index, first) in solutions.iter().enumerate() {
        let page = page_of(alloc, "", *first)?;
        for other in &solutions[index + 1..] {
            if page_of(alloc, "", *other)? == page {
                return Ok(Some((*first, *other)));
            }
        }
    }
    Ok(None)
}
