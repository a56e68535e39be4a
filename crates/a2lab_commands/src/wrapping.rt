//! Texts in lines of a page.

use a2_stream::{Output, WriteFault, put};

// The most columns of a page.
const WIDTH: usize = 79;

const BLANKS: &[u8] = b"                                        ";

/// Writes so many spaces, at most 40.
pub fn put_blanks<W: Output>(count: usize, writer: &mut W) -> Result<(), WriteFault> {
    put(&BLANKS[..count.min(BLANKS.len())], writer)
}

/// Writes the words of a text from a column on, in lines that begin at the column `indent`. Returns the column after the last word.
pub fn put_words<W: Output>(
    text: &str,
    column: usize,
    indent: usize,
    writer: &mut W,
) -> Result<usize, WriteFault> {
    let mut column = column;
    for word in text.split(' ') {
        let end = column.saturating_add(1).saturating_add(word.len());
        if column > indent && end > WIDTH {
            put(b"\n", writer)?;
            put_blanks(indent, writer)?;
            column = indent;
        } else if column > indent {
            put(b" ", writer)?;
            column = column.saturating_add(1);
        }
        put(word.as_bytes(), writer)?;
        column = column.saturating_add(word.len());
    }
    Ok(column)
}
