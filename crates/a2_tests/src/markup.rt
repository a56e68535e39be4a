//! Texts in XML and in a page of HTML.

ghost use Rattle.std.specs.Prelude.{◌≡◌, true, false};
ghost use Rattle.std.specs.List.{flat_map};
ghost use Rattle.a2_stream.specs.Stream.{SendsOrBreaks};
ghost use Rattle.a2_tests.specs.Pages.{markup_byte};

use a2_stream::{Output, WriteFault, put};

// Returns what is written for a byte of a text. A byte above ASCII is itself only if `is_utf8`, and the end of a line only if
// `has_lines`.
fn spelt(has_lines: bool, is_utf8: bool, c: &u8) -> &[u8]
    ensures { result.now ≡ markup_byte has_lines is_utf8 c.now }
{
    match *c {
        b'"' => b"&quot;",
        b'&' => b"&amp;",
        b'<' => b"&lt;",
        b'>' => b"&gt;",
        b'\n' if has_lines => std::slice::from_ref(c),
        0..=31 | 127 => b"?",
        128..=255 if !is_utf8 => b"?",
        _ => std::slice::from_ref(c),
    }
}

// Writes any bytes as a text.
fn put_markup<W: Output>(
    has_lines: bool,
    is_utf8: bool,
    text: &[u8],
    writer: &mut W,
) -> Result<(), WriteFault>
    ensures { SendsOrBreaks (W.taker writer.old) (W.taker writer.new) result (flat_map (markup_byte has_lines is_utf8) text.now) }
{
    for c in text {
        put(spelt(has_lines, is_utf8, c), writer)?;
    }
    Ok(())
}

/// Writes any bytes as a text in a page of HTML, or as the value of an attribute between double quotes. `is_utf8` says whether they are
/// UTF-8; otherwise `?` replaces each byte above ASCII. It always replaces a control character, except the end of a line.
pub fn put_html<W: Output>(is_utf8: bool, text: &[u8], writer: &mut W) -> Result<(), WriteFault>
    ensures { SendsOrBreaks (W.taker writer.old) (W.taker writer.new) result (flat_map (markup_byte true is_utf8) text.now) }
{
    put_markup(true, is_utf8, text, writer)
}

/// Writes any bytes as a text of XML, or as the value of an attribute between double quotes. `is_utf8` says whether they are UTF-8;
/// otherwise `?` replaces each byte above ASCII. It always replaces a control character.
pub(crate) fn put_xml<W: Output>(
    is_utf8: bool,
    text: &[u8],
    writer: &mut W,
) -> Result<(), WriteFault>
    ensures { SendsOrBreaks (W.taker writer.old) (W.taker writer.new) result (flat_map (markup_byte false is_utf8) text.now) }
{
    put_markup(false, is_utf8, text, writer)
}
