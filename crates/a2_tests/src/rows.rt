//! Whether the rows of a screen are the expected ones.

ghost use Rattle.std.specs.Prelude.{◌≡◌, map, take, drop, length, Some, None, MatchOption};
ghost use Rattle.a2_page.specs.Text.{mark_of as mark_of_attribute};
ghost use Rattle.std.specs.List.{list_all};
ghost use Rattle.a2_text.specs.Bytes.{is_blank as is_blank_byte};
ghost use Rattle.a2_tests.specs.Rows as row;

use crate::line::{Line, NumberedLine, following};
use a2_page::Attribute;
use a2_text::is_blank;

// Returns whether a text consists only of blanks.
fn is_empty_row(text: &[u8]) -> bool
    ensures { result ≡ list_all is_blank_byte text.now }
{
    text.iter().all(|c| is_blank(*c))
}

// Returns whether two rows are the same except for blanks at their ends.
fn is_same(wanted: &[u8], shown: &[u8]) -> bool
    ensures { result ≡ row.is_same wanted.now shown.now }
{
    match wanted {
        [] => is_empty_row(shown),
        [c, more @ ..] => match shown {
            [] => is_empty_row(wanted),
            [d, following @ ..] => {
                if *c == *d {
                    is_same(more, following)
                } else {
                    is_empty_row(wanted) && is_empty_row(shown)
                }
            }
        },
    }
}

/// Returns whether a row is the expected one. `~` stands for any row, and blanks at the ends are ignored.
pub(crate) fn row_fits(wanted: &[u8], shown: &[u8]) -> bool
    ensures { result ≡ row.row_fits wanted.now shown.now }
{
    matches!(wanted, [b'~']) || is_same(wanted, shown)
}

/// Returns the row that some lines begin with, or an empty row if they do not begin with one.
pub(crate) fn first_row<'a>(lines: &[NumberedLine<'a>]) -> &'a [u8]
    ensures { result.now ≡ row.first_row lines.now }
{
    match lines {
        [asked, ..] => match asked.line {
            Line::Row(text) => text,
            _ => b"",
        },
        [] => b"",
    }
}

/// Returns whether some lines begin with a row.
fn begins_with_row(lines: &[NumberedLine]) -> bool
    ensures { result ≡ row.begins_with_row lines.now }
{
    match lines {
        [asked, ..] => matches!(asked.line, Line::Row(_)),
        [] => false,
    }
}

/// Returns 1 if some lines begin with a row, otherwise 0.
pub(crate) fn row_count(lines: &[NumberedLine]) -> usize
    ensures { result ≡ row.row_count lines.now }
{
    if begins_with_row(lines) { 1 } else { 0 }
}

/// What the rows of a screen show.
#[derive(Clone, Copy)]
pub(crate) enum RowKind {
    /// Characters.
    Characters,
    /// The marks of their attributes, as `a2 run --attr` prints them.
    Attributes,
}

// Returns whether the first marks of a row are the expected ones, and the others are normal. `~` stands for any row.
fn marks_fit(wanted: &[u8], shown: &[u8]) -> bool
    ensures { result ≡ row.marks_fit wanted.now shown.now }
{
    matches!(wanted, [b'~'])
        || (shown.starts_with(wanted) && are_all(Attribute::Normal, after_marks(shown, wanted)))
}

// Returns the marks after the first ones, which are as many as the expected ones.
fn after_marks<'a>(shown: &'a [u8], wanted: &[u8]) -> &'a [u8]
    ensures { result.now ≡ drop (length wanted.now) shown.now }
{
    &shown[wanted.len().min(shown.len())..]
}

/// Returns whether a row is the expected one.
pub(crate) fn fits(kind: RowKind, wanted: &[u8], shown: &[u8]) -> bool
    ensures { result ≡ row.fits kind wanted.now shown.now }
{
    match kind {
        RowKind::Characters => row_fits(wanted, shown),
        RowKind::Attributes => marks_fit(wanted, shown),
    }
}

/// Returns whether the rows of a screen, from the top, are those on the lines, and the remaining rows are blank, or normal.
pub(crate) fn rows_fit(kind: RowKind, lines: &[NumberedLine], shown: &[&[u8]]) -> bool
    ensures { result ≡ row.rows_fit kind lines.now (map (λ x. x.now) shown.now) }
{
    let mut used = 0;
    for text in shown {
        let here = following(lines, used);
        if !fits(kind, first_row(here), text) {
            return false;
        }
        used += row_count(here);
    }
    !begins_with_row(following(lines, used))
}

/// Returns whether the row with this number, from 0 at the top, is the expected one.
pub(crate) fn row_is(number: u16, wanted: &[u8], shown: &[&[u8]]) -> bool
    ensures { result ≡ row.row_is number wanted.now (map (λ x. x.now) shown.now) }
{
    match shown.get(usize::from(number)) {
        Some(text) => row_fits(wanted, *text),
        None => false,
    }
}

// Returns whether a text contains another one.
fn has(text: &[u8], part: &[u8]) -> bool
    ensures { result ≡ row.has part.now text.now }
{
    let mut rest = text;
    while let [_, more @ ..] = rest {
        if rest.starts_with(part) {
            return true;
        }
        rest = more;
    }
    part.is_empty()
}

/// Returns whether a row contains a text.
pub(crate) fn holds(shown: &[&[u8]], part: &[u8]) -> bool
    ensures { result ≡ row.holds part.now (map (λ x. x.now) shown.now) }
{
    for text in shown {
        if has(text, part) {
            return true;
        }
    }
    false
}

/// Returns the mark of an attribute in the rows that `a2 run --attr` prints.
pub(crate) fn mark_of(attribute: Attribute) -> u8
    ensures { result ≡ mark_of_attribute attribute }
{
    match attribute {
        Attribute::Normal => b'.',
        Attribute::Inverse => b'I',
        Attribute::Flashing => b'F',
    }
}

/// Returns whether all marks are of this attribute.
pub(crate) fn are_all(attribute: Attribute, marks: &[u8]) -> bool
    ensures { result ≡ row.are_all attribute marks.now }
{
    for shown in marks {
        if *shown != mark_of(attribute) {
            return false;
        }
    }
    true
}

/// Returns the first marks, as many as a text has characters.
pub(crate) fn marks_for<'a>(marks: &'a [u8], text: &[u8]) -> &'a [u8]
    ensures { result.now ≡ take (length text.now) marks.now }
{
    &marks[..text.len().min(marks.len())]
}

// Returns whether a text with these marks contains a part whose characters are shown like this.
fn has_styled(attribute: Attribute, part: &[u8], marks: &[u8], text: &[u8]) -> bool
    ensures { result ≡ row.has_styled attribute part.now marks.now text.now }
{
    let mut rest = text;
    let mut shown = marks;
    while let [_, more @ ..] = rest {
        if rest.starts_with(part) && are_all(attribute, marks_for(shown, part)) {
            return true;
        }
        rest = more;
        shown = after_mark(shown);
    }
    part.is_empty()
}

// Returns the marks after the first.
fn after_mark(marks: &[u8]) -> &[u8]
    ensures { result.now ≡ drop 1 marks.now }
{
    match marks {
        [_, more @ ..] => more,
        [] => marks,
    }
}

/// The rows of a screen: their characters, and the attributes of the last of them, as `a2 run --attr` prints them.
#[derive(Clone, Copy)]
pub(crate) struct Rows<'a> {
    pub texts: &'a [&'a [u8]],
    pub marks: &'a [&'a [u8]],
}

impl<'a> Rows<'a> {
    /// Returns the marks of the row with this number, from 0 at the top, if it has any.
    pub(crate) fn marks_at(self, number: u16) -> Option<&'a [u8]>
        ensures { MatchOption result
            (row.marks_at number (map (λ x. x.now) self.entry.texts.now) (map (λ x. x.now) self.entry.marks.now) ≡ None)
            (λ shown. row.marks_at number (map (λ x. x.now) self.entry.texts.now) (map (λ x. x.now) self.entry.marks.now) ≡ Some shown.now) }
    {
        let end = usize::from(number) + self.marks.len();
        if end < self.texts.len() {
            return None;
        }
        match self.marks.get(end - self.texts.len()) {
            Some(marks) => Some(*marks),
            None => None,
        }
    }
}

/// Returns whether the row with this number, from 0 at the top, contains a part whose characters are shown like this.
pub(crate) fn row_has_styled(number: u16, attribute: Attribute, part: &[u8], rows: Rows<'_>) -> bool
    ensures { result ≡ row.row_has_styled number attribute part.now (map (λ x. x.now) rows.entry.texts.now)
        (map (λ x. x.now) rows.entry.marks.now) }
{
    let Some(marks) = rows.marks_at(number) else {
        return false;
    };
    match rows.texts.get(usize::from(number)) {
        Some(text) => has_styled(attribute, part, marks, *text),
        None => false,
    }
}

/// Returns whether each character of a screen is shown like this.
pub(crate) fn all_are(attribute: Attribute, marks: &[&[u8]]) -> bool
    ensures { result ≡ list_all (row.are_all attribute) (map (λ x. x.now) marks.now) }
{
    for shown in marks {
        if !are_all(attribute, *shown) {
            return false;
        }
    }
    true
}
