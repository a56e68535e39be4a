//! Bytes and keys with a special meaning in the Monitor. Apple II Reference Manual (1979), chapter 2, on standard output,
//! standard input and GETLN.

ghost use Rattle.std.specs.Prelude.{◌≡◌, ◌<◌};
ghost use Rattle.a2_services.specs.Services.{digit_byte as digit_byte_of};

/// Carriage return: moves the cursor to the window's left edge and down one row; on the window's last row, the window scrolls
/// instead.
pub const RETURN: u8 = 0x8D;

/// Line feed: moves the cursor down one row; on the window's last row, the window scrolls instead.
pub const LINE_FEED: u8 = 0x8A;

/// Backspace: moves the cursor back one column.
pub const BACKSPACE: u8 = 0x88;

/// Control X: cancels the line being read.
pub const CANCEL: u8 = 0x98;

/// Backslash: shown on the screen when a line is cancelled.
pub const BACKSLASH: u8 = 0xDC;

pub(crate) const RETURN_KEY: u8 = 0x0D;

pub(crate) const RIGHT_ARROW_KEY: u8 = 0x15;

/// Returns the character that PRHEX shows for a digit from 0 to 15: `0` to `9` or `A` to `F`, with bit 7 set. Apple II
/// Reference Manual (1979), chapter 3.
pub fn digit_byte(digit: u8) -> u8
    requires { digit < 16 }
    ensures { result ≡ digit_byte_of digit }
{
    if digit < 10 {
        0xB0 + digit
    } else {
        0xB7 + digit
    }
}
