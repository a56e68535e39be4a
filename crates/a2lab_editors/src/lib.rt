//! The commands of `a2lab` that speak to an editor: `lsp` and `dap`.
//!
//! How it is called is shown in CALLING.md.
#![tactic(auto)]

mod broken;
mod dap;
mod lsp;

pub use dap::dap_of;
pub use lsp::lsp_of;
