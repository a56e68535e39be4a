//! A copy of the screen that is kept from one redraw to the next.

ghost use Rattle.std.specs.Prelude.{◌≡◌, ◌<◌, ◌↔◌, ℕ, true, slice_set, slice_index_or, [], length};
ghost use Rattle.a2_stream.specs.Stream.{SendsOrBreaks};
ghost use Rattle.a2_page.specs.Kept.{FitsPage, IsStale, IsCompared, is_row_marked, with_row_marked, after_switch, after_refresh, marked_rows};
ghost use Rattle.a2_page.specs.Grid.{Grid};
ghost use Rattle.a2_page.specs.Picture.{page_grid, picture, attribute_rows, shown_by};
ghost use Rattle.a2_page.specs.Notified.{NotifiedPicturesFit};

use crate::View;
use crate::cells::{cell, row_offset};
use crate::picture::{Mark, cells_in_row, put_picture, put_text_rows, shown_page};
use a2_stream::{Output, WriteFault};
use std::marker::Model;

/// A copy of the rows of a screen's shown page, with a mark for each of the 24 rows that may have changed since the
/// last copy. A program that shows a running machine needs to redraw only the marked rows. Contracts see rows and
/// marks. No call allocates memory. This project's profile.
#[derive(Drop)]
pub struct Picture {
    // In the layout of a page, so that a row is at the offset that its address gives.
    page: [u8; 1024],
    marks: [bool; 24],
}

impl Model for Picture {
    ghost use Rattle.a2_page.specs.Kept.{KeptPicture};
    ghost use Rattle.a2_page.specs.Picture.{page_grid};

    ghost Value = { KeptPicture };

    ghost view = { λ p. record { rows = page_grid p.page; marks = p.marks } };
}

// Copies a row from one page to another.
fn take_row(page: &mut [u8; 1024], from: &[u8; 1024], row: u8)
    requires { row < 24 }
    ensures { page_grid page.new ≡ slice_set (page_grid page.old) row (slice_index_or (page_grid from.now) row []) }
{
    let start = usize::from(row_offset(row));
    page[start..start + 40].copy_from_slice(cells_in_row(from, row));
}

// Returns whether two pages have the same bytes in this row.
fn has_same_row(page: &[u8; 1024], other: &[u8; 1024], row: u8) -> bool
    requires { row < 24 }
    ensures { (result ≡ true) ↔ (slice_index_or (page_grid page.now) row [] ≡ slice_index_or (page_grid other.now) row []) }
{
    cells_in_row(page, row) == cells_in_row(other, row)
}

impl Picture {
    /// Returns a picture with every row marked. It fits any page, and [`notified_pictures_fit`] applies to it.
    pub fn new() -> Picture
        ensures marked { (row : ℕ) → row < 24 → is_row_marked result row ≡ true }
        ensures fits { (page : Grid) → FitsPage result page }
        ensures size { length result.marks ≡ 24 }
    {
        Picture {
            page: [0; 1024],
            marks: [true; 24],
        }
    }

    /// Returns whether `row`, 0 to 23 from the top, may have changed since it was last copied.
    pub fn marked(&self, row: u8) -> bool
        requires { row < 24 }
        ensures { result ≡ is_row_marked self.now row }
    {
        self.marks[usize::from(row)]
    }

    /// Notes a store at `address`, $0000 to $FFFF: marks the row of the cell there, on either page. If there is no cell
    /// at that address, nothing changes.
    pub fn stored(&mut self, address: u16)
        ensures { self.new ≡ with_row_marked address self.old }
    {
        if let Some((_, row, _)) = cell(address) {
            self.marks[usize::from(row)] = true;
        }
    }

    /// Notes a change of a display switch: marks every row, so that the picture fits any page.
    pub fn switched(&mut self)
        ensures { self.new ≡ after_switch self.old }
    {
        self.marks = [true; 24];
    }

    /// Returns whether `row`, 0 to 23 from the top, is marked or differs from the page that `view` shows.
    pub fn is_stale(&self, view: &View, row: u8) -> bool
        requires { row < 24 }
        ensures { (result ≡ true) ↔ IsStale self.now (shown_by view.now) row }
    {
        self.marks[usize::from(row)] || !has_same_row(&self.page, shown_page(view), row)
    }

    /// Marks each row that differs from the page that `view` shows. After that the picture fits the page, whatever was
    /// stored and however the switches were set.
    pub fn compare(&mut self, view: &View)
        ensures compared { IsCompared (shown_by view.now) self.old self.new }
        ensures fits { FitsPage self.new (shown_by view.now) }
    {
        let page = shown_page(view);
        for row in 0..24u8 {
            if !has_same_row(&self.page, page, row) {
                self.marks[usize::from(row)] = true;
            }
        }
    }

    /// Makes this picture equal to `other`, including its marks.
    pub fn copy_from(&mut self, other: &Picture)
        ensures { self.new ≡ other.now }
    {
        self.page = other.page;
        self.marks = other.marks;
    }

    /// Returns whether each row without a mark is equal to that row of the page that `view` shows.
    pub fn fits(&self, view: &View) -> bool
        ensures { (result ≡ true) ↔ FitsPage self.now (shown_by view.now) }
    {
        let page = shown_page(view);
        for row in 0..24u8 {
            if !self.marks[usize::from(row)] && !has_same_row(&self.page, page, row) {
                return false;
            }
        }
        true
    }

    /// Copies the marked rows of the page that `view` shows, clears the marks, and returns how many rows were marked, 0
    /// to 24.
    pub fn refresh(&mut self, view: &View) -> u8
        requires { FitsPage self.old (shown_by view.now) }
        ensures taken { self.new ≡ after_refresh (shown_by view.now) }
        ensures count { result ≡ marked_rows self.old }
    {
        let page = shown_page(view);
        let count = self.marks.iter().filter(|mark| **mark).count() as u8;
        for row in 0..24u8 {
            if self.marks[usize::from(row)] {
                take_row(&mut self.page, page, row);
            }
        }
        self.marks = [false; 24];
        count
    }

    /// Refreshes this picture, and writes to `writer` the lines that [`print`](crate::print) writes for `view`. If a
    /// write fails, returns an error: only a prefix of these lines was written, but the refresh is complete.
    pub fn print<W: Output>(&mut self, view: &View, writer: &mut W) -> Result<(), WriteFault>
        requires { FitsPage self.old (shown_by view.now) }
        ensures taken { self.new ≡ after_refresh (shown_by view.now) }
        ensures sent { SendsOrBreaks (W.taker writer.old) (W.taker writer.new) result
            (picture view.now.switches (page_grid view.now.page1.now) (page_grid view.now.page2.now)) }
    {
        self.refresh(view);
        put_picture(&self.page, view.switches, writer)
    }

    /// Refreshes this picture, and writes to `writer` the lines that [`print_attributes`](crate::print_attributes)
    /// writes for `view`. If a write fails, returns an error: only a prefix of these lines was written, but the refresh
    /// is complete.
    pub fn print_attributes<W: Output>(
        &mut self,
        view: &View,
        writer: &mut W,
    ) -> Result<(), WriteFault>
        requires { FitsPage self.old (shown_by view.now) }
        ensures taken { self.new ≡ after_refresh (shown_by view.now) }
        ensures sent { SendsOrBreaks (W.taker writer.old) (W.taker writer.new) result
            (attribute_rows view.now.switches (page_grid view.now.page1.now) (page_grid view.now.page2.now)) }
    {
        self.refresh(view);
        put_text_rows(&self.page, view.switches, Mark::Attribute, writer)
    }
}

/// A law: a picture that fits still fits after any changes, if `stored` reports each store to it and `switched` each
/// change of the switches. This holds for any stores and any settings of the switches, in any order. So the picture
/// prints what [`print`](crate::print) prints. The call does nothing.
pub fn notified_pictures_fit()
    ensures { NotifiedPicturesFit }
{}
