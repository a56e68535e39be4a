//! The text that shows an error.

ghost use Rattle.std.specs.Prelude.{◌≡◌, ◌≤◌, length};
ghost use Rattle.a2_text.specs.FirstError.{with_line_number};

use arrayvec::ArrayString;
use itoa::Buffer;

/// The text of an error: `LINE `, at most 20 digits, a blank, and a message of at most 22 bytes.
pub type ErrorText = ArrayString<48>;

/// Returns the text of an error. If the error belongs to a line, the text begins with `LINE `, the line number and a
/// blank. The message follows, at most 22 bytes long. Lines count from 1, and 0 means no line. This project's profile.
pub fn error_text(line: usize, words: &str) -> ErrorText
    requires { length words.now ≤ 22 }
    ensures { result.bytes ≡ with_line_number line words.now }
{
    let mut text = ErrorText::new();
    if line > 0 {
        text.push_str("LINE ");
        text.push_str(Buffer::new().format(line));
        text.push_str(" ");
    }
    text.push_str(words);
    text
}
