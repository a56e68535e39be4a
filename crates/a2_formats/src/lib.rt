//! Images of RAM as files of other programs: Intel HEX, Motorola S-records, DOS 3.3 binary files, AppleSingle, plain bytes
//! and lines for the Monitor.
//!
//! CALLING.md shows how to call it.
#![tactic(auto)]

mod apple;
mod digits;
mod fault;
mod filling;
mod format;
mod intel;
mod laying;
mod loading;
mod monitor;
mod motorola;
mod plain;
mod reading;
mod records;
mod runs;
mod same;
mod writing;

pub use apple::{read_apple_single, write_apple_single};
pub use fault::{Flaw, FormatFault};
pub use filling::{copied, fill_gaps};
pub use format::{Format, format_of};
pub use monitor::{read_monitor_lines, write_monitor_lines};
pub use plain::{Plain, plain_of, read_dos, read_plain, write_dos};
pub use reading::{Records, read_records};
pub use same::is_same;
pub use writing::write_records;
