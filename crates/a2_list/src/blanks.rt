//! The blanks between columns.

ghost use Rattle.std.specs.Prelude.{◌≡◌, ◌-◌, ◌≤◌, length};
ghost use Rattle.a2_list.specs.Blanks as spec;

const BLANKS: &[u8] = b"                                ";

/// Returns so many blanks, but at most 32.
pub(crate) fn blanks(count: usize) -> &'static [u8]
    ensures blanks { result.now ≡ spec.blanks count }
    ensures few { length result.now ≤ 32 }
{
    &BLANKS[..count.min(BLANKS.len())]
}

/// Returns the blanks after a text, or before it, in a column of a width, but at most 32.
pub(crate) fn gap(width: usize, text: &[u8]) -> &[u8]
    ensures { result.now ≡ spec.blanks (width - length text.now) }
{
    blanks(width.saturating_sub(text.len()))
}
