//! Images of disks of DOS 3.3: the binary files of one, and one that has binary files.
//!
//! CALLING.md shows how to call it.
#![tactic(auto)]

mod bytes;
mod catalog;
mod contents;
mod files;
mod writing;

pub use bytes::DISK_LEN;
pub use catalog::{catalog_of, is_binary, name_at};
pub use contents::contents_of;
pub use files::{DiskFile, disk_name};
pub use writing::{DiskFault, write_disk};
