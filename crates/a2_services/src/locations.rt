//! The address of the line buffer, and the size and position of page 1 and its lo-res blocks.

/// The buffer of the line that GETLN reads.
pub(crate) const LINE_BUFFER: u16 = 0x200;

pub(crate) const LINE_BUFFER_LAST: u16 = 0x2FF;

/// The first and the last address of page 1.
pub(crate) const PAGE1: u16 = 0x400;

pub(crate) const PAGE1_LAST: u16 = 0x7FF;

/// The number of rows and columns of lo-res blocks.
pub(crate) const BLOCK_ROWS: u8 = 48;

pub(crate) const COLUMNS: u8 = 40;
