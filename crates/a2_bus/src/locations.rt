//! Memory locations under the names of the manual. Apple II Reference Manual (1979): the keyboard and the switches on
//! pages 6, 12 and 79, the text window, and the Monitor's special locations.

/// The keyboard: a read gives the first waiting key with bit 7 set, or the last key taken if none waits.
pub const KBD: u16 = 0xC000;

/// The keyboard's strobe: an access takes the first waiting key.
pub const KBDSTRB: u16 = 0xC010;

/// The switch to graphics, the first of the display switches.
pub const TXTCLR: u16 = 0xC050;

/// The switch to text.
pub const TXTSET: u16 = 0xC051;

/// The switch to a full screen of graphics or text.
pub const MIXCLR: u16 = 0xC052;

/// The switch to graphics with four rows of text.
pub const MIXSET: u16 = 0xC053;

/// The switch to page 1.
pub const LOWSCR: u16 = 0xC054;

/// The switch to page 2.
pub const HISCR: u16 = 0xC055;

/// The switch to low resolution.
pub const LORES: u16 = 0xC056;

/// The switch to high resolution, the last of the display switches.
pub const HIRES: u16 = 0xC057;

/// The window's first column.
pub const WNDLFT: u16 = 0x20;

/// How many columns the window has.
pub const WNDWDTH: u16 = 0x21;

/// The window's first row.
pub const WNDTOP: u16 = 0x22;

/// The row after the window's last.
pub const WNDBTM: u16 = 0x23;

/// The cursor's column in the window.
pub const CH: u16 = 0x24;

/// The cursor's row on the screen.
pub const CV: u16 = 0x25;

/// The low byte of the address of the window's left edge in the cursor's row.
pub const BASL: u16 = 0x28;

/// The high byte of that address.
pub const BASH: u16 = 0x29;

/// The column at which HLINE's row of blocks ends.
pub const H2: u16 = 0x2C;

/// The row at which VLINE's column of blocks ends.
pub const V2: u16 = 0x2D;

/// The colour in which blocks are plotted: the low half is for upper blocks, the high half for lower blocks.
pub const COLOR: u16 = 0x30;

/// The mask that is applied to characters before they are stored on the screen.
pub const INVFLG: u16 = 0x32;

/// The byte that GETLN prints first.
pub const PROMPT: u16 = 0x33;

/// The output hook: the address, low byte first, to which COUT and CROUT jump.
pub const CSW: u16 = 0x36;

/// The input hook: the address, low byte first, to which RDKEY jumps.
pub const KSW: u16 = 0x38;

/// The address in the output hook at the start: the service that prints a byte.
pub const COUT1: u16 = 0xFDF0;

/// The address in the input hook at the start: the service that takes a key.
pub const KEYIN: u16 = 0xFD1B;

/// At the start, the last RTS pulls its return address from this location and the next one, the top of the stack. This
/// project's profile.
pub const LAST_RETURN: u16 = 0x01FE;

/// The address to which that RTS returns. This project's profile.
pub const RETURN_ADDRESS: u16 = 0xFF69;
