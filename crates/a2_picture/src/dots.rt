//! The colour of each dot of the screen.

ghost use Rattle.std.specs.Prelude.{◌≡◌, ◌+◌, ◌*◌, ◌/◌, ◌%◌, ◌<◌, ◌≤◌, ◌==◌, length, slice_index, nat_le};
ghost use Rattle.a2_page.specs.Cells.{row_offset};
ghost use Rattle.a2_page.specs.Picture.{first_text_row};
ghost use Rattle.a2_picture.specs.Dots as dots;

use crate::shapes::is_shape_dot;
use a2_page::{Attribute, Half, Page, Switches, address, attribute_of, block};

/// The dots of a row of the screen. Apple II Reference Manual (1979), page 19.
pub const COLUMNS: u16 = 280;

/// The rows of dots of the screen. Apple II Reference Manual (1979), page 19.
pub const ROWS: u16 = 192;

/// The first address of page 1 of text.
const TEXT: u16 = 0x400;

// The numbers of colours in colours.txt.
const BLACK: u8 = 0;

const WHITE: u8 = 15;

const CHARACTERS: u8 = 16;

const HIRES: u8 = 17;

// Returns the byte at this address of RAM.
fn byte_at(ram: &[u8], address: u16) -> u8
    requires { address < length ram.now }
    ensures { result ≡ slice_index ram.now address }
{
    ram[usize::from(address)]
}

// Returns the colour of a dot of the character that a byte shows. Flashing characters are drawn as inverse ones.
fn character_dot(byte: u8, line: u8, column: u8) -> u8
    requires line { line < 8 }
    requires column { column < 7 }
    ensures { result ≡ dots.character_dot byte line column }
{
    let is_normal = attribute_of(byte) == Attribute::Normal;
    if is_shape_dot(byte % 64, line, column) == is_normal {
        CHARACTERS
    } else {
        BLACK
    }
}

// Returns the colour of the block of a byte in this line of a row of cells.
fn block_dot(byte: u8, line: u8) -> u8
    ensures { result ≡ dots.block_dot byte line }
{
    if line < 4 {
        block(byte, Half::Above)
    } else {
        block(byte, Half::Below)
    }
}

// Returns the address of the hi-res byte of a dot.
fn hires_address(page2: bool, x: u16, y: u16) -> u16
    requires x { x < 280 }
    requires y { y < 192 }
    ensures value { result ≡ dots.hires_address page2 x y }
    ensures inside { result < 0x6000 }
{
    let first: u16 = if page2 { 0x4000 } else { 0x2000 };
    let cell = address(Page::One, (y / 8) as u8, (x / 7) as u8);
    first + 1024 * (y % 8) + (cell - TEXT)
}

// Returns whether a dot of a hi-res byte is on.
#[tactic(auto, unfolding(crate::specs::Dots::is_bit))]
fn is_bit(byte: u8, column: u16) -> bool
    requires { column < 7 }
    ensures { result ≡ dots.is_bit byte column }
{
    (byte >> column) % 2 == 1
}

// Returns whether a hi-res dot is on.
fn is_on(ram: &[u8], page2: bool, x: u16, y: u16) -> bool
    requires room { 0x6000 ≤ length ram.now }
    requires x { x < 280 }
    requires y { y < 192 }
    ensures { result ≡ dots.is_on ram.now page2 x y }
{
    is_bit(byte_at(ram, hires_address(page2, x, y)), x % 7)
}

// Returns whether the dot to the left or to the right of a hi-res dot is on.
#[tactic(auto, unfolding(crate::specs::Dots::is_beside))]
fn is_beside(ram: &[u8], page2: bool, x: u16, y: u16) -> bool
    requires room { 0x6000 ≤ length ram.now }
    requires x { x < 280 }
    requires y { y < 192 }
    ensures { result ≡ dots.is_beside ram.now page2 x y }
{
    if 0 < x && is_on(ram, page2, x - 1, y) {
        return true;
    }
    x + 1 < COLUMNS && is_on(ram, page2, x + 1, y)
}

// Returns the colour of a hi-res dot: black if it is off, white if a dot beside it is on, and otherwise that of its column and of bit 7.
#[tactic(auto, unfolding(crate::specs::Dots::hires_dot))]
fn hires_dot(ram: &[u8], page2: bool, x: u16, y: u16) -> u8
    requires room { 0x6000 ≤ length ram.now }
    requires x { x < 280 }
    requires y { y < 192 }
    ensures { result ≡ dots.hires_dot ram.now page2 x y }
{
    if !is_on(ram, page2, x, y) {
        BLACK
    } else if is_beside(ram, page2, x, y) {
        WHITE
    } else {
        let byte = byte_at(ram, hires_address(page2, x, y));
        HIRES + 2 * (byte / 128) + (x % 2) as u8
    }
}

// Returns whether a row of cells is shown as text.
fn is_text(switches: Switches, row: u8) -> bool
    requires { row < 24 }
    ensures { result ≡ nat_le (first_text_row switches) row }
{
    switches.text || switches.mixed && 20 <= row
}

// Returns the byte of the text page in whose cell a dot is.
fn cell_byte(ram: &[u8], page2: bool, x: u16, y: u16) -> u8
    requires room { 0x6000 ≤ length ram.now }
    requires x { x < 280 }
    requires y { y < 192 }
    ensures { result ≡ dots.cell_byte ram.now page2 x y }
{
    let page = if page2 { Page::Two } else { Page::One };
    byte_at(ram, address(page, (y / 8) as u8, (x / 7) as u8))
}

/// Returns the number of the colour that the screen shows at a dot, `x` from the left and `y` from the top. `ram` has the bytes that begin at
/// address 0. Numbers 0 to 15 are the colours of lo-res, 16 is that of characters, and 17 to 20 are violet, green, blue and orange of
/// hi-res. Flashing characters are drawn as inverse ones. Apple II Reference Manual (1979), pages 12 to 21; what is white in hi-res is this
/// project's profile.
#[tactic(auto, unfolding(crate::specs::Dots::dot))]
pub fn dot(ram: &[u8], switches: Switches, x: u16, y: u16) -> u8
    requires room { 0x6000 ≤ length ram.now }
    requires x { x < 280 }
    requires y { y < 192 }
    ensures { result ≡ dots.dot ram.now switches x y }
{
    let line = (y % 8) as u8;
    if is_text(switches, (y / 8) as u8) {
        let byte = cell_byte(ram, switches.page2, x, y);
        character_dot(byte, line, (x % 7) as u8)
    } else if switches.hires {
        hires_dot(ram, switches.page2, x, y)
    } else {
        block_dot(cell_byte(ram, switches.page2, x, y), line)
    }
}
