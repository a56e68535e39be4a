//! Sessions at a terminal: each line that is read is answered before the next one is read.

mod fault;
mod hearing;
mod partner;
mod talking;

pub use fault::TalkFault;
pub use partner::Partner;
pub use talking::talk;
