//! Positions in UTF-16 units.

ghost use Rattle.std.specs.Prelude.{◌≡◌, ◌+◌, ◌≤◌, length, sum_by, IfSome};
ghost use Rattle.a2_places.specs.Units as units;

// Returns how many UTF-16 units the character has that a byte begins, and 0 for a byte within a character.
#[tactic(auto, unfolding(crate::specs::Units::units_of))]
fn units_of(byte: u8) -> usize
    ensures is { result ≡ units.units_of byte }
    ensures few { result ≤ 2 }
{
    match byte {
        0..=0x7F => 1,
        0x80..=0xBF => 0,
        0xC0..=0xEF => 1,
        _ => 2,
    }
}

// Returns how many UTF-16 units a text has.
fn units_in(text: &[u8]) -> usize
    ensures { result ≡ sum_by units.units_of text.now }
{
    let mut total = 0usize;
    for byte in text {
        total += units_of(*byte);
    }
    total
}

/// Returns how many UTF-16 units are before the byte at an index of a line, or in the line if it is shorter.
pub fn units_before(line: &[u8], index: usize) -> usize
    ensures { result ≡ units.units_before line.now index }
{
    units_in(line.get(..index).unwrap_or(line))
}

/// Returns the index of the byte at which the character after `count` UTF-16 units of a line begins, or the line's length if it has no more.
pub fn byte_at(line: &[u8], count: usize) -> usize
    ensures place { result ≡ units.byte_at line.now count }
    ensures within { result ≤ length line.now }
{
    let mut left = count;
    for (index, byte) in line.iter().enumerate() {
        let width = units_of(*byte);
        if left < width {
            return index;
        }
        left -= width;
    }
    line.len()
}

/// Returns the two indices between which `width` bytes of a line are, from an index on, as far as they are in the line.
pub fn clipped(line: &[u8], from: usize, width: usize) -> (usize, usize)
    ensures order { result.0 ≤ result.1 }
    ensures within { result.1 ≤ length line.now }
    ensures exact { from + width ≤ length line.now → (result.0 ≡ from) × (result.1 ≡ from + width) }
{
    let from = from.min(line.len());
    (from, from.saturating_add(width).min(line.len()))
}

/// Returns the index at which a line of a text begins, counted from 0, or `None` if the text has fewer lines. The line after the last
/// line feed counts, even if it is empty.
pub fn line_start(text: &[u8], line: usize) -> Option<usize>
    ensures { IfSome result (λ index. index ≤ length text.now) }
{
    let mut left = line;
    if left == 0 {
        return Some(0);
    }
    for (index, byte) in text.iter().enumerate() {
        if *byte == b'\n' {
            left = left.saturating_sub(1);
            if left == 0 {
                return Some(index + 1);
            }
        }
    }
    None
}

/// A place converts back: for each line, the UTF-16 units before a character, or before the end of the line, lead back to the index of its
/// first byte, or to the line's length. This function does nothing: its contract is the law.
pub fn a_place_converts_back()
    ensures { units.PlacesConvertBack }
{}
