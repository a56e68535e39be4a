//! The commands of `a2lab` that read and write bytes: `source`, `object` and `diff`, and `import`, which may be given bytes too.
//!
//! How it is called is shown in CALLING.md.
#![tactic(auto)]

mod asked;
mod bytes;
mod diff;
mod disks;
mod dumps;
mod executed;
mod flaws;
mod import;
mod known;
mod loaded;
mod object;
mod places;
mod source;

pub use diff::{diff_of, show_differences};
pub use import::import_of;
pub use object::object_of;
pub use source::source_of;
