//! Local labels: each gets a name that no other line uses.

use crate::adding::add;
use crate::builder::{Row, Scope};
use crate::fault::{ExpandFault, Origin, Problem, placed, trouble};
use crate::larger::{is_run_byte, parted, quote_after};
use crate::limits::{MOST_BYTES, MOST_DEPTH, MOST_LINE_BYTES, MOST_NAMES};
use crate::operand::{put_count, put_decimal};
use a2_text::front_len;
use std::alloc::{AllocError, Allocator};

// The most bytes of a name.
const MOST_NAME_BYTES: usize = 32;

// The most bytes that a made name keeps of a local label.
const MOST_LOCAL_BYTES: usize = 16;

// The most spellings that are tried for a name.
const MOST_SPELLINGS: u32 = 2000;

// A local or anonymous label and the name that it gets, which is the spelling with this number. An anonymous label has no local name.
#[derive(Drop)]
struct Made<A: Allocator> {
    scope: usize,
    local: Vec<u8, A>,
    name: Vec<u8, A>,
    number: u32,
}

// The labels that have got names, and what is in each of these names and in no other name of the text.
#[derive(Drop)]
struct Names<'s, A: Allocator> {
    alloc: A,
    scopes: &'s [Scope<A>],
    made: Vec<Made<A>, A>,
    anonymous: Vec<Vec<u8, A>, A>,
    mark: Vec<u8, A>,
}

// Returns the length of the longest run of `_` outside quotes and comments, or `most` if that is longer.
fn longest_run(text: &[u8], most: usize) -> usize {
    let mut now: usize = 0;
    let mut found = most;
    let mut quote = None;
    for c in text {
        if quote.is_none() && *c == b';' {
            break;
        }
        now = if quote.is_none() && *c == b'_' {
            now.saturating_add(1)
        } else {
            0
        };
        found = found.max(now);
        quote = quote_after(quote, *c);
    }
    found
}

// Returns one `_` more than any line has in a row.
fn mark_of<A: Allocator>(alloc: A, rows: &[Row<A>]) -> Result<Vec<u8, A>, AllocError> {
    let mut most = 0;
    for row in rows {
        if !row.text.as_slice().starts_with(b"*") {
            most = longest_run(row.text.as_slice(), most);
        }
    }
    let mut mark = Vec::new(alloc);
    for _ in 0..most {
        mark.push(b'_')?;
    }
    mark.push(b'_')?;
    Ok(mark)
}

// Returns the first bytes of a text.
fn front(text: &[u8], most: usize) -> &[u8] {
    let (now, _) = text.split_at(most.min(text.len()));
    now
}

// Returns a spelling: the scope, the mark, the local name and, from the second spelling on, its number.
fn spelling<A: Allocator + Copy>(
    alloc: A,
    scope: &[u8],
    mark: &[u8],
    local: &[u8],
    number: u32,
) -> Result<Vec<u8, A>, AllocError> {
    let mut back = Vec::from_slice(alloc, mark)?;
    back.extend_from_slice(front(local, MOST_LOCAL_BYTES))?;
    if number > 1 {
        put_decimal(&mut back, number)?;
    }
    let room = MOST_NAME_BYTES.saturating_sub(back.len());
    let mut name = Vec::from_slice(alloc, front(scope, room))?;
    name.extend_from_slice(back.as_slice())?;
    Ok(name)
}

// Whether a label has got this name already.
fn is_made<A: Allocator>(made: &[Made<A>], name: &[u8]) -> bool {
    for one in made {
        if one.name.as_slice() == name {
            return true;
        }
    }
    false
}

// Returns the name of a local label in a scope, if it has one.
fn name_in<'m, A: Allocator>(made: &'m [Made<A>], scope: usize, local: &[u8]) -> Option<&'m [u8]> {
    for one in made {
        if one.scope == scope && one.local.as_slice() == local {
            return Some(one.name.as_slice());
        }
    }
    None
}

// Returns the label of a line that begins with `.` or `:`, or an empty text.
fn local_label(line: &[u8]) -> &[u8] {
    match line {
        [b'.', ..] | [b':', ..] => {
            let (label, _) = parted(line);
            label
        }
        _ => b"",
    }
}

// Whether a local label is a dot and a name, which may begin with a digit.
fn is_local_name(label: &[u8]) -> bool {
    match label {
        [b'.', name @ ..] => !name.is_empty() && front_len(name, |c| is_run_byte(c)) == name.len(),
        _ => false,
    }
}

// Returns the name of a scope.
fn scope_name<A: Allocator>(scopes: &[Scope<A>], scope: usize) -> &[u8] {
    match scopes.get(scope) {
        Some(found) => found.name.as_slice(),
        None => b"L",
    }
}

impl<'s, A: Allocator + Copy> Names<'s, A> {
    // Returns the number of the first spelling that the same local name has not got in scopes whose names have the same front. Longer names
    // of scopes are cut to `room` bytes, so their spellings would be the same.
    fn first_number(&self, scope: &[u8], room: usize, label: &[u8]) -> u32 {
        let mut number = 1;
        for one in self.made.iter() {
            let other = scope_name(self.scopes, one.scope);
            if one.local.as_slice() == label && front(other, room) == front(scope, room) {
                number = one.number.saturating_add(1);
            }
        }
        number
    }

    // Returns a name that no label has got, and its number: the first spelling that is free, from `first` on.
    fn fresh(
        &self,
        scope: &[u8],
        local: &[u8],
        first: u32,
    ) -> Result<(Vec<u8, A>, u32), ExpandFault> {
        if self.made.len() >= MOST_NAMES {
            return Err(trouble(Problem::ManyNames, b""));
        }
        for number in first..MOST_SPELLINGS {
            let name = spelling(self.alloc, scope, self.mark.as_slice(), local, number)?;
            if name.len() <= MOST_NAME_BYTES && !is_made(self.made.as_slice(), name.as_slice()) {
                return Ok((name, number));
            }
        }
        Err(trouble(Problem::NoFreeName, local))
    }

    // Returns the name for a local label of a scope, and its number.
    fn fresh_local(&self, scope: usize, label: &[u8]) -> Result<(Vec<u8, A>, u32), ExpandFault> {
        let from = scope_name(self.scopes, scope);
        let local = label.strip_prefix(b".").unwrap_or(label);
        let room = MOST_NAME_BYTES
            .saturating_sub(self.mark.len())
            .saturating_sub(local.len().min(MOST_LOCAL_BYTES));
        self.fresh(from, local, self.first_number(from, room, label))
    }

    // Gives a local label of a scope a name.
    fn name_local(&mut self, scope: usize, label: &[u8]) -> Result<(), ExpandFault> {
        if !is_local_name(label) {
            return Err(trouble(Problem::Label, label));
        }
        if name_in(self.made.as_slice(), scope, label).is_some() {
            return Err(trouble(Problem::LocalTwice, label));
        }
        let (name, number) = self.fresh_local(scope, label)?;
        let local = Vec::from_slice(self.alloc, label)?;
        let made = Made {
            scope,
            local,
            name,
            number,
        };
        add(&mut self.made, made)?;
        Ok(())
    }

    // Gives an anonymous label a name.
    fn name_anonymous(&mut self) -> Result<(), ExpandFault> {
        let mut count = Vec::new(self.alloc);
        put_count(&mut count, self.anonymous.len().saturating_add(1))?;
        let (name, number) = self.fresh(b"ANON", count.as_slice(), 1)?;
        let copy = Vec::from_slice(self.alloc, name.as_slice())?;
        let made = Made {
            scope: 0,
            local: Vec::new(self.alloc),
            name,
            number,
        };
        add(&mut self.made, made)?;
        add(&mut self.anonymous, copy)?;
        Ok(())
    }

    // Gives the label of a line a name, if it is local.
    fn name_label(&mut self, row: &Row<A>) -> Result<(), ExpandFault> {
        let label = local_label(row.text.as_slice());
        match label {
            [] => Ok(()),
            [b':'] => self.name_anonymous(),
            _ => self.name_local(row.scope, label),
        }
    }

    // Returns the name of an anonymous label, by the number of those above the line, and of those above and in it.
    fn anonymous_name(&self, reference: &[u8], count: usize) -> Result<&[u8], ExpandFault> {
        let signs = reference.len().saturating_sub(1);
        let index = match reference {
            [b':', b'+', ..] => count.saturating_add(signs).checked_sub(1),
            _ => count.checked_sub(signs),
        };
        let found = match index {
            Some(index) => self.anonymous.get(index),
            None => None,
        };
        match found {
            Some(name) => Ok(name.as_slice()),
            None => Err(trouble(Problem::NoAnonymous, reference)),
        }
    }

    // Returns the name of a local label in a scope, or of an anonymous label.
    fn name_of(&self, scope: usize, count: usize, reference: &[u8]) -> Result<&[u8], ExpandFault> {
        if let [b':', ..] = reference {
            return self.anonymous_name(reference, count);
        }
        match self.local_name(scope, reference) {
            Some(name) => Ok(name),
            None => Err(trouble(Problem::UnknownLocal, reference)),
        }
    }

    // Returns the name of a local label in a scope, or in a scope around it.
    fn local_name(&self, scope: usize, reference: &[u8]) -> Option<&[u8]> {
        let mut now = scope;
        for _ in 0..=MOST_DEPTH {
            let found = name_in(self.made.as_slice(), now, reference);
            if found.is_some() {
                return found;
            }
            now = self.scopes.get(now)?.around?;
        }
        None
    }
}

// Returns the length of a local or anonymous label at the beginning of a text, or 0.
fn reference_len(text: &[u8]) -> usize {
    match text {
        [b'.', rest @ ..] => front_len(rest, |c| is_run_byte(c)).saturating_add(1),
        [b':', rest @ ..] => {
            let plus = front_len(rest, |c| c == b'+');
            if plus > 0 {
                plus.saturating_add(1)
            } else {
                front_len(rest, |c| c == b'-').saturating_add(1)
            }
        }
        _ => 0,
    }
}

// Appends a text with the names of its local labels. `count` anonymous labels are above the next line.
fn put_named<A: Allocator + Copy>(
    out: &mut Vec<u8, A>,
    text: &[u8],
    scope: usize,
    count: usize,
    names: &Names<'_, A>,
) -> Result<(), ExpandFault> {
    let mut rest = text;
    let mut quote = None;
    for _ in 0..text.len() {
        let Some((c, following)) = rest.split_first() else {
            break;
        };
        if quote.is_none() && *c == b';' {
            break;
        }
        let len = if quote.is_none() {
            reference_len(rest)
        } else {
            0
        };
        if len > 0 {
            let (reference, after) = rest.split_at(len.min(rest.len()));
            out.extend_from_slice(names.name_of(scope, count, reference)?)?;
            rest = after;
        } else {
            quote = quote_after(quote, *c);
            out.extend_from_slice(&[*c])?;
            rest = following;
        }
    }
    out.extend_from_slice(rest)?;
    Ok(())
}

// Returns a line with the names of its local labels, whose own label is the anonymous one with number `count`, or not anonymous.
fn named_line<A: Allocator + Copy>(
    row: &Row<A>,
    count: usize,
    names: &Names<'_, A>,
) -> Result<Vec<u8, A>, ExpandFault> {
    let line = row.text.as_slice();
    let mut out = Vec::new(names.alloc);
    let label = local_label(line);
    let (_, rest) = line.split_at(label.len().min(line.len()));
    match label {
        [] => {}
        [b':'] => out.extend_from_slice(names.anonymous_name(b":-", count)?)?,
        _ => out.extend_from_slice(names.name_of(row.scope, count, label)?)?,
    }
    if line.starts_with(b"*") {
        out.extend_from_slice(rest)?;
    } else {
        put_named(&mut out, rest, row.scope, count, names)?;
    }
    if out.len() > MOST_LINE_BYTES {
        return Err(trouble(Problem::LongLine, b""));
    }
    Ok(out)
}

// Gives each local label a name.
fn names_of<'s, A: Allocator + Copy>(
    alloc: A,
    rows: &[Row<A>],
    scopes: &'s [Scope<A>],
) -> Result<Names<'s, A>, ExpandFault> {
    let mut names = Names {
        alloc,
        scopes,
        made: Vec::new(alloc),
        anonymous: Vec::new(alloc),
        mark: mark_of(alloc, rows)?,
    };
    for row in rows {
        if let Err(fault) = names.name_label(row) {
            return Err(placed(fault, row.at));
        }
    }
    Ok(names)
}

/// The lines of an expansion, and where each comes from.
#[derive(Drop)]
pub(crate) struct Lines<A: Allocator> {
    pub text: Vec<u8, A>,
    pub origins: Vec<Origin, A>,
}

/// Returns the text of plain lines, with names in place of local labels, and where each line comes from.
pub(crate) fn named_text<A: Allocator + Copy>(
    alloc: A,
    rows: &[Row<A>],
    scopes: &[Scope<A>],
) -> Result<Lines<A>, ExpandFault> {
    let names = names_of(alloc, rows, scopes)?;
    let mut text = Vec::new(alloc);
    let mut origins = Vec::new(alloc);
    let mut count: usize = 0;
    for row in rows {
        if row.text.as_slice().starts_with(b":") {
            count = count.saturating_add(1);
        }
        match named_line(row, count, &names) {
            Ok(line) => text.extend_from_slice(line.as_slice())?,
            Err(fault) => return Err(placed(fault, row.at)),
        }
        text.extend_from_slice(b"\n")?;
        if text.len() > MOST_BYTES {
            return Err(placed(trouble(Problem::ManyBytes, b""), row.at));
        }
        add(&mut origins, row.at)?;
    }
    Ok(Lines { text, origins })
}
